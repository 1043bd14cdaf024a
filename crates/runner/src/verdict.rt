//! The line that tells what checking a history came to.
ghost use Rattle.std.specs.Prelude.{◌≡◌, ◌≤◌, [], ◌∷◌, ◌++◌, decimal, is_some, length, OnOk, OnErr};
ghost use Rattle.edge_io.specs.Faults.{Rose};
ghost use Rattle.edge_io.specs.Written.{Wrote, WrotePrefix};
ghost use Rattle.runner.specs.Checking.{verdict_text};

use arrayvec::ArrayVec;
use edge_io::{Failed, Sink, write_whole};
use history_check::Checked;
use itoa::Buffer;

/// The bytes of a line, its line feed among them.
type Line = ArrayVec<u8, 512>;

/// A word and a number.
fn line_of(word: &[u8], number: u32) -> Line
    requires { length word.now ≤ 16 }
    ensures { result.items ≡ word.now ++ (32 ∷ decimal number ++ 10 ∷ []) }
{
    let mut text = Line::new();
    let mut digits = Buffer::new();
    let _ = text.try_extend_from_slice(word);
    let _ = text.try_extend_from_slice(b" ");
    let _ = text.try_extend_from_slice(digits.format(number).as_bytes());
    let _ = text.try_extend_from_slice(b"\n");
    text
}

/// Writes the line of what checking a history came to. Of want of memory nothing is written.
pub fn write_verdict<K: Sink>(sink: &mut K, checked: Checked) -> Result<(), Failed>
    ensures whole { OnOk result (Wrote (K.written sink.old) (K.written sink.new) (verdict_text checked)) }
    ensures front { OnErr result (WrotePrefix (K.written sink.old) (K.written sink.new) (verdict_text checked)) }
    ensures tells { is_some (K.written sink.new) ≡ is_some (K.written sink.old) }
    ensures fault { OnErr result (Rose (K.faults sink.old) (K.faults sink.new)) }
    ensures never_falls { K.faults sink.old ≤ K.faults sink.new }
{
    match checked {
        Checked::Legal { entries } => write_whole(sink, line_of(b"legal", entries).as_slice()),
        Checked::Illegal { line } => write_whole(sink, line_of(b"illegal", line).as_slice()),
        Checked::NoMemory => Ok(()),
    }
}
