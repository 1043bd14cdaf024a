//! Reading a whole script.
ghost use Rattle.std.specs.Prelude.{◌<◌, ℕ, length};
ghost use Rattle.script_read.specs.Answer.{IsAnswer, Tells, Refuses};
ghost use Rattle.script_read.specs.FirstBad.{IsFirstBad};
ghost use Rattle.script_read.specs.declared.reason.Reason.{Reason};
ghost use Rattle.script_grammar.specs.Accepted.{IsAccepted};
ghost use Rattle.script_types.specs.declared.script.Script.{Script};

use crate::Reason;
use crate::progress::{Reading, read_text};
use script_types::Script;
use std::alloc::Global;

/// What reading a script answers.
#[derive(Drop)]
pub enum ReadScript {
    /// The script that the bytes spell.
    Script(Script),
    /// The bytes spell no script: the first bad line, from 1, and what is wrong with it. A last line that
    /// is missing has the number behind the last.
    Refused { line: u32, reason: Reason },
    /// Memory that was asked for wasn't given.
    NoMemory,
}

/// Reads a script. Any bytes may be given, as long as 32 bits can number their lines.
pub fn read_script(alloc: Global, bytes: &[u8]) -> ReadScript
    requires few { length bytes.now < 4294967295 }
    ensures answer { IsAnswer bytes.now result }

    // Memory aside, the bytes decide the answer.
    ensures only { (script : Script) → IsAccepted bytes.now script → Tells result script }
    ensures first_bad { (line : ℕ) → (why : Reason) → IsFirstBad bytes.now line why → Refuses result line why }
{
    match read_text(alloc, bytes) {
        Ok(Reading::Whole(context)) => ReadScript::Script(context.script),
        Ok(Reading::Bad { line, reason }) => ReadScript::Refused { line, reason },
        Err(_) => ReadScript::NoMemory,
    }
}
