//! The line of an entry, made of the line of the entry before: nine times of ten their places differ in the last digit alone.
ghost use Rattle.std.specs.Prelude.{◌≡◌, ◌≤◌, true, length, decimal};
ghost use Rattle.entry_log.specs.EntryLine.{entry_line, idle_entry};

use super::entries::put_behind;
use super::line::{Line, put_letters};
use super::numbers::put_u32;
use crate::{Actor, Entry, Step};
use std::marker::Model;

/// The line of the entry that it took last. A contract sees the bytes.
#[derive(Drop)]
pub struct EntryLine {
    line: Line,
    /// The place of the entry.
    place: u32,
    /// How many digits it has.
    digits: usize,
}

impl Model for EntryLine {
    ghost use Rattle.std.specs.Prelude.{◌≡◌, ◌≤◌, ℕ, List, length, take, decimal};

    ghost Value = { List ℕ };

    ghost view = { λ e. e.line.items };

    ghost invariant = { λ e. (e.digits ≤ length e.line.items) × (take e.digits e.line.items ≡ decimal e.place) };
}

impl EntryLine {
    /// No entry yet: only the digit of place 0.
    pub fn new() -> Self
        ensures { result ≡ decimal 0 }
    {
        let mut line = Line::new();
        put_u32(&mut line, 0);
        EntryLine {
            line,
            place: 0,
            digits: 1,
        }
    }

    /// The bytes of the line.
    pub fn as_slice(&self) -> &[u8]
        ensures { result.now ≡ self.now }
    {
        self.line.as_slice()
    }

    /// Makes the digits of a place, and no more, of those of the place before, if only the last differs. False: nothing changes.
    fn raise(&mut self, place: u32) -> bool
        ensures { result ≡ true → self.new ≡ decimal place }
    {
        if u64::from(self.place) + 1 != u64::from(place) {
            return false;
        }
        let last = self.digits - 1;
        let digit = self.line.as_slice()[last];
        if digit >= b'9' {
            return false;
        }
        self.line.keep(last);
        self.line.push(digit + 1);
        self.place = place;
        true
    }

    /// Makes the digits of a place, and no more, at most 10.
    #[tactic(auto, using(crate::proofs::NextPlace::at_most_ten))]
    fn take_place(&mut self, place: u32)
        ensures text { self.new ≡ decimal place }
        ensures short { length self.new ≤ 10 }
    {
        if self.raise(place) {
            return;
        }
        self.line.keep(0);
        put_u32(&mut self.line, place);
        self.digits = self.line.len();
        self.place = place;
    }

    /// Takes the line of an entry.
    pub fn put(&mut self, entry: &Entry)
        ensures { self.new ≡ entry_line entry.now }
    {
        self.take_place(entry.place);
        if is_idle(entry) {
            put_letters(&mut self.line, b" idle wait\n");
        } else {
            put_behind(&mut self.line, entry);
        }
    }
}

/// Whether an entry tells that nobody acts.
fn is_idle(entry: &Entry) -> bool
    ensures { result ≡ true → entry.now ≡ idle_entry entry.now.place }
{
    matches!(entry.actor, Actor::Idle)
        && matches!(entry.step, Step::Wait)
        && entry.effects.as_slice().is_empty()
        && entry.answer.is_none()
}
