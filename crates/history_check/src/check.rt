//! Checking a history.
ghost use Rattle.std.specs.Prelude.{◌≡◌, ◌≤◌, ℕ, ◌⊎◌, [], length, List, true};
ghost use Rattle.entry_log.specs.HistoryText.{history_text};
ghost use Rattle.entry_log.specs.declared.entry.Entry.{Entry};
ghost use Rattle.machine.specs.FinalRows.{final_rows};
ghost use Rattle.machine.specs.History.{after, IsLegal};
ghost use Rattle.machine_safe.specs.Safe.{IsSafeIn};
ghost use Rattle.script_types.specs.Source.{IsWellFormed};
ghost use Rattle.history_check.specs.Checks.{IsTextOf};
ghost use Rattle.history_check.specs.Legality.{IsAnswer, IsEnd, IsIllegalText, IsLegalText};
ghost use Rattle.history_check.specs.Rows.{lines_left};

use crate::pieces::{behind, behind_entry};
use crate::rows::bad_row;
use crate::step::{let_go, next_entry};
use entry_log::known_entry;
use plain_machine::Plain;
use script_types::Script;
use std::alloc::Global;
use sym_base::Limits;

/// What checking a history answers.
#[derive(Clone, Copy, Debug, PartialEq, Eq)]
pub enum Checked {
    /// The text is that of a history of so many entries.
    Legal { entries: u32 },
    /// It is the text of none, and this is its first bad line, from 1.
    Illegal { line: u32 },
    /// Memory that was asked for wasn't given.
    NoMemory,
}

/// Whether a text goes on behind the line `objects` as this machine stands, on which so many entries were made.
fn check_end(plain: &Plain, text: &[u8], entries: u32) -> Checked
    requires valid { IsWellFormed plain.now.script }
    requires few { entries ≤ 131072 }
    ensures { IsEnd (lines_left plain.now) text.now entries result }
{
    match bad_row(plain, text, entries + 2) {
        Some(line) => Checked::Illegal { line },
        None => Checked::Legal { entries },
    }
}

/// Checks a text on a machine on which nothing happened yet.
fn check_text(fresh: Plain, text: &[u8]) -> Checked
    requires valid { IsWellFormed fresh.script }
    requires new { fresh.history ≡ [] }
    ensures answer { IsAnswer fresh.script text.now result }
    ensures one { (entries : ℕ) → result ≡ Checked.Legal entries → (one : List Entry) → (other : List Entry)
        → IsTextOf fresh.script one text.now → IsTextOf fresh.script other text.now → one ≡ other }
{
    let mut plain = fresh;
    let mut rest = text;
    for entries in 0..Limits::SHARED_HISTORY as u32 {
        if let Some(rows) = behind(rest, b"objects\n") {
            let checked = check_end(&plain, rows, entries);
            let_go(plain);
            return checked;
        }
        match next_entry(plain, rest) {
            Ok(Some((next, entry))) => {
                known_entry(&entry);
                let Some(left) = behind_entry(rest, &entry) else {
                    let_go(next);
                    return Checked::Illegal { line: entries + 1 };
                };
                plain = next;
                rest = left;
            }
            Ok(None) => return Checked::Illegal { line: entries + 1 },
            Err(_) => return Checked::NoMemory,
        }
    }
    match behind(rest, b"objects\n") {
        Some(rows) => {
            let checked = check_end(&plain, rows, Limits::SHARED_HISTORY as u32);
            let_go(plain);
            checked
        }
        None => {
            let_go(plain);
            Checked::Illegal {
                line: Limits::SHARED_HISTORY as u32 + 1,
            }
        }
    }
}

/// Checks whether a text is that of a history of the script, as callers make it who share the kernel, and of the objects
/// that are left after it. Of each line its actor is taken, and whether it tells of a death; the plain machine makes the
/// entry, and its line is compared.
pub fn check_history(alloc: Global, script: Script, text: &[u8]) -> Checked
    requires valid { IsWellFormed script }
    ensures answer { IsAnswer script text.now result }

    // Memory aside, the text decides the answer.
    ensures only_legal { (entries : ℕ) → IsLegalText script text.now entries
        → (result ≡ Checked.Legal entries) ⊎ (result ≡ Checked.NoMemory) }
    ensures only_illegal { (line : ℕ) → IsIllegalText script text.now line
        → (result ≡ Checked.Illegal line) ⊎ (result ≡ Checked.NoMemory) }

    // If it is legal there is one history whose text it is, and each is safe.
    ensures one { (entries : ℕ) → result ≡ Checked.Legal entries → (one : List Entry) → (other : List Entry)
        → IsTextOf script one text.now → IsTextOf script other text.now → one ≡ other }
    ensures safe { (history : List Entry) → IsTextOf script history text.now → IsSafeIn true script history }

    // So is the text of a history that one caller makes alone.
    ensures alone { (history : List Entry) → IsLegal script history → length history ≤ 131072
        → text.now ≡ history_text history (final_rows (after script history))
        → (result ≡ Checked.Legal (length history)) ⊎ (result ≡ Checked.NoMemory) }
{
    match Plain::boot(alloc, script) {
        Ok(plain) => check_text(plain, text),
        Err(_) => Checked::NoMemory,
    }
}
