//! The plain machine as the judge of a history, entry by entry: it has lists, and none of the kernel's tables.
ghost use Rattle.std.specs.Prelude.{◌||◌, IsTrue, length, nat_eq};
ghost use Rattle.script_types.specs.Source.{IsWellFormed};

use crate::scripts::script_of;
use crate::texts::line_of_entry;
use entry_log::{Effect, Entry};
use plain_machine::{Plain, Stepped};
use script_types::Script;
use std::alloc::Global;
use sym_base::NoMemory;

/// The most entries that are judged. No script here makes so many.
const MOST_ENTRIES: usize = 100_000;

/// Whether two entries have one line.
fn is_same_entry(one: &Entry, other: &Entry) -> bool {
    line_of_entry(one).as_slice() == line_of_entry(other).as_slice()
}

/// Whether an entry tells of no death.
fn is_deathless(entry: &Entry) -> bool {
    !entry
        .effects
        .as_slice()
        .iter()
        .any(|effect| matches!(effect, Effect::Dead(_)))
}

/// Whether the plain machine makes this entry next, if callers share it.
fn makes_next(plain: &mut Plain, entry: &Entry) -> bool
    requires { IsTrue (plain.old.shared || nat_eq (length plain.old.history) 0) }
    ensures { IsTrue (plain.new.shared || nat_eq (length plain.new.history) 0) }
{
    if plain.history().len() > MOST_ENTRIES {
        return false;
    }
    match plain.shared(entry.actor, is_deathless(entry)) {
        Ok(Stepped::Entry(like)) => is_same_entry(&like, entry),
        Ok(Stepped::NotLegal) | Err(_) => false,
    }
}

/// Whether the plain machine makes these entries, one after the other.
fn makes_all(plain: &mut Plain, history: &[Entry]) -> bool
    requires { IsTrue (plain.old.shared || nat_eq (length plain.old.history) 0) }
{
    for entry in history {
        if !makes_next(plain, entry) {
            return false;
        }
    }
    true
}

/// Whether the plain machine makes this history of a script, where callers share it.
fn judged(alloc: Global, script: Script, history: &[Entry]) -> Result<bool, NoMemory>
    requires { IsWellFormed script }
{
    let mut plain = Box::new(alloc, Plain::boot(alloc, script)?)?;
    Ok(makes_all(&mut plain, history))
}

/// Whether the plain machine makes this history of a text's script, where callers share it.
pub fn is_plain_too(alloc: Global, text: &str, history: &[Entry]) -> bool {
    match script_of(alloc, text) {
        Some(script) => matches!(judged(alloc, script, history), Ok(true)),
        None => false,
    }
}
