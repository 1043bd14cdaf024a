//! What stands behind a piece that a text begins with.
ghost use Rattle.std.specs.Prelude.{◌≡◌, ◌++◌, MatchOption};
ghost use Rattle.entry_log.specs.EntryLine.{entry_line};
ghost use Rattle.entry_log.specs.FinalLine.{final_line};
ghost use Rattle.history_check.specs.FirstLines.{Begins};

use entry_log::{Entry, FinalRow, line_of_entry, line_of_row};

/// What stands in a text behind a piece that it begins with. None if it doesn't begin with that.
pub fn behind<'a>(text: &'a [u8], piece: &[u8]) -> Option<&'a [u8]>
    ensures { MatchOption result (¬ Begins text.now piece.now) (λ rest. text.now ≡ piece.now ++ rest.now) }
{
    if text.len() < piece.len() {
        return None;
    }
    let (front, rest) = text.split_at(piece.len());
    if front == piece { Some(rest) } else { None }
}

/// What stands behind the line of an entry. None if the text doesn't begin with that.
pub fn behind_entry<'a>(text: &'a [u8], entry: &Entry) -> Option<&'a [u8]>
    ensures { MatchOption result (¬ Begins text.now (entry_line entry.now)) (λ rest. text.now ≡ entry_line entry.now ++ rest.now) }
{
    behind(text, line_of_entry(entry).as_slice())
}

/// What stands behind the line of an object that is left. None if the text doesn't begin with that.
pub fn behind_row<'a>(text: &'a [u8], row: &FinalRow) -> Option<&'a [u8]>
    ensures { MatchOption result (¬ Begins text.now (final_line row.now)) (λ rest. text.now ≡ final_line row.now ++ rest.now) }
{
    behind(text, line_of_row(row).as_slice())
}
