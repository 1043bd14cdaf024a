//! Writing a text line by line.
ghost use Rattle.std.specs.Prelude.{◌≡◌, ◌<◌, ◌≤◌, ◌++◌, length, is_some, OnOk, OnErr};
ghost use Rattle.edge_io.specs.Faults.{Rose};
ghost use Rattle.edge_io.specs.Written.{Wrote, WrotePrefix};

use edge_io::{Failed, Sink, write_whole};

/// The byte that ends a line.
const LINE_FEED: u8 = b'\n';

/// The first line of a text that isn't empty, its line feed among it, and what stands behind it.
fn first_line(text: &[u8]) -> (&[u8], &[u8])
    requires { 0 < length text.now }
    ensures whole { text.now ≡ result.0.now ++ result.1.now }
    ensures shorter { length result.1.now < length text.now }
{
    match text.iter().position(|byte| *byte == LINE_FEED) {
        Some(place) => (&text[..place + 1], &text[place + 1..]),
        None => (text, &text[text.len()..]),
    }
}

/// Writes a text: each of its lines, with its line feed, is one piece.
pub fn write_lines<K: Sink>(sink: &mut K, text: &[u8]) -> Result<(), Failed>
    ensures whole { OnOk result (Wrote (K.written sink.old) (K.written sink.new) text.now) }
    ensures front { OnErr result (WrotePrefix (K.written sink.old) (K.written sink.new) text.now) }
    ensures tells { is_some (K.written sink.new) ≡ is_some (K.written sink.old) }
    ensures fault { OnErr result (Rose (K.faults sink.old) (K.faults sink.new)) }
    ensures never_falls { K.faults sink.old ≤ K.faults sink.new }
{
    let mut rest = text;
    while !rest.is_empty() {
        let (line, behind) = first_line(rest);
        write_whole(sink, line)?;
        rest = behind;
    }
    Ok(())
}
