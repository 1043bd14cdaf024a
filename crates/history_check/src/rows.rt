//! The objects that are left after a history that is checked.
ghost use Rattle.std.specs.Prelude.{◌≡◌, ◌≤◌, ◌∷◌, [], codes, MatchOption};
ghost use Rattle.script_types.specs.Source.{IsWellFormed};
ghost use Rattle.history_check.specs.Rows.{as_text, lines_left, IsBadFrom};

use crate::known::known_row;
use crate::pieces::{behind, behind_row};
use plain_machine::Plain;

/// Whether a text goes on behind the lines of the objects that are left, of which the next has this number: with the line
/// `end`, and nothing behind it. The first bad line if it doesn't.
fn bad_end(text: &[u8], line: u32) -> Option<u32>
    requires { line ≤ 4294967294 }
    ensures { MatchOption result (text.now ≡ codes "end\n") (λ bad. IsBadFrom (codes "end\n" ∷ []) text.now line bad) }
{
    match behind(text, b"end\n") {
        Some(rest) => if rest.is_empty() {
            None
        } else {
            Some(line + 1)
        },
        None => Some(line),
    }
}

/// The first bad line, from this one on, of a text that is to tell the objects that are left, and its end. None if it
/// tells them.
pub fn bad_row(plain: &Plain, text: &[u8], line: u32) -> Option<u32>
    requires valid { IsWellFormed plain.now.script }
    requires few { line ≤ 131074 }
    ensures { MatchOption result (text.now ≡ as_text (lines_left plain.now)) (λ bad. IsBadFrom (lines_left plain.now) text.now line bad) }
{
    let mut rest = text;
    let mut line = line;
    let mut from = 0;
    while let Some(row) = plain.next_row(from) {
        known_row(&row);
        rest = match behind_row(rest, &row) {
            Some(rest) => rest,
            None => return Some(line),
        };
        line += 1;
        from = row.object.0 + 1;
    }
    bad_end(rest, line)
}
