//! The script of a text.
ghost use Rattle.std.specs.Prelude.{IfSome};
ghost use Rattle.script_types.specs.Source.{IsWellFormed};

use script_grammar::is_well_formed;
use script_read::{ReadScript, read_script};
use script_types::{Limits, Script};
use std::alloc::Global;

/// The script of a text. None where it is refused, or there is no memory.
pub fn script_of(alloc: Global, text: &str) -> Option<Script>
    ensures { IfSome result IsWellFormed }
{
    if text.len() > Limits::INPUT {
        return None;
    }
    match read_script(alloc, text.as_bytes()) {
        ReadScript::Script(script) => {
            is_well_formed(&script);
            Some(script)
        }
        ReadScript::Refused { .. } | ReadScript::NoMemory => None,
    }
}
