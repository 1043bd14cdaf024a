//! Reference counts by place, as the kernel uses them.
ghost use Rattle.std.specs.Prelude.{◌≡◌, ℕ, ◌+◌, ◌^◌, ◌<◌, ◌≤◌, ◌↔◌, List, length};
ghost use Rattle.ref_words.specs.Words.{Words, own_at, stage_at, IsFresh, IsCreated, IsGone, IsOut, HasNoteOut, NoneCreated, created, opened, sent_out, taken_back, closed};
ghost use Rattle.ref_words.specs.declared.answer.Stage.TheVariants.{Fresh};
ghost use Rattle.ref_words.specs.declared.slip.Slip.{Slip};

use crate::{Closed, Found};

/// Reference counts of objects, one for each place, which is an object's number. A note stands for an
/// object that was found and isn't opened yet: it leaves the kernel, may be opened by its holder while
/// others work, and comes back. How the counts are kept is each implementation's choice, and what a
/// contract sees of them is one value of `Words`.
///
/// In EKA2 an object that was found by name is opened under the system lock; that it may be opened
/// outside of it, and the notes, are this project's own.
pub trait RefWords {
    /// A note that went out.
    type Note;

    /// What the counts and notes are at present.
    ghost meaning: { Self → Words };

    /// The place and the number of a note.
    ghost slip: { Self.Note → Slip };

    /// The identity of the words that made a note.
    ghost origin: { Self.Note → List ℕ };

    /// The note is as `send_out` made it.
    ghost IsNew: { Self.Note → Type 0 };

    /// The note's holder has opened it, or has found its object dead.
    ghost IsSettled: { Self.Note → Type 0 };

    /// The note may come back to these words.
    ghost Fits: { Self → Self.Note → Type 0 };

    /// An object may stay at a place without an own count, since the holder of a note has opened it. No place
    /// of `PlainWords` may.
    ghost MayStay: { Self → ℕ → Type 0 };

    /// How many places there are. A reading call, which tells besides what holds of counts and notes at any
    /// time.
    fn places(&self) -> usize
        ensures places { result ≡ length (meaning self.now).own }
        ensures stages { length (meaning self.now).stages ≡ length (meaning self.now).own }

        // A fresh place has own count 0, a note that is out is of a created place, and while no place was created
        // no note was made.
        ensures fresh { (p : ℕ) → stage_at (meaning self.now) p ≡ Fresh → own_at (meaning self.now) p ≡ 0 }
        ensures created { (s : Slip) → IsOut (meaning self.now) s → IsCreated (meaning self.now) s.place }
        ensures unmade { NoneCreated (meaning self.now) → (meaning self.now).made ≡ 0 };

    /// The place that a note was made for.
    fn place_of(note: &Self::Note) -> u32
        ensures { result ≡ (slip note.now).place };

    /// Puts a fresh place in use, with one reference.
    fn create(&mut self, place: u32)
        requires { IsFresh (meaning self.old) place }
        ensures { meaning self.new ≡ created (meaning self.old) place };

    /// Adds a reference to an object that has one.
    fn open_known(&mut self, place: u32)
        requires known { 0 < own_at (meaning self.old) place }
        requires small { own_at (meaning self.old) place < 2 ^ 31 }
        ensures { meaning self.new ≡ opened (meaning self.old) place };

    /// Sends a note out for an object, which has a reference or is gone.
    fn send_out(&mut self, place: u32) -> Self::Note
        requires created { IsCreated (meaning self.old) place }
        requires known_or_gone { own_at (meaning self.old) place ≡ 0 → IsGone (meaning self.old) place }
        requires small { own_at (meaning self.old) place < 2 ^ 31 }
        requires few_out { length (meaning self.old).out < 64 }
        requires few_made { (meaning self.old).made < 4294967295 }

        // The note has the next number, and is one of those that are out.
        ensures sent { meaning self.new ≡ sent_out (meaning self.old) place }
        ensures note { slip result ≡ record { place = place; number = (meaning self.old).made + 1 } }
        ensures is_new { IsNew result }
        ensures origin_is { origin result ≡ (meaning self.old).identity }
        ensures fits { Fits self.new result };

    /// Takes a note back. Where its object isn't gone, the reference that the note opened is counted.
    fn take_back(&mut self, note: Self::Note) -> Found
        requires settled { IsSettled note }
        requires fits { Fits self.old note }
        ensures taken { meaning self.new ≡ taken_back result (meaning self.old) (slip note) }
        ensures dead { (result ≡ Found.Dead) ↔ IsGone (meaning self.old) (slip note).place }

        // A gone place has own count 0, and one that isn't gone has it only where its object may stay without.
        ensures uncounted { result ≡ Found.Dead → own_at (meaning self.old) (slip note).place ≡ 0 }
        ensures may_stay { result ≡ Found.Held → own_at (meaning self.old) (slip note).place ≡ 0 → MayStay self.old (slip note).place }

        // The note was out, and no longer is. The count that it leaves is far below its type's end.
        ensures was_out { IsOut (meaning self.old) (slip note) }
        ensures created { IsCreated (meaning self.old) (slip note).place }
        ensures placed { (slip note).place < length (meaning self.old).own }
        ensures fewer { length (meaning self.new).out + 1 ≡ length (meaning self.old).out }
        ensures bounded { own_at (meaning self.new) (slip note).place ≤ 2147483712 };

    /// Takes a reference away. `Last` makes the place gone.
    fn close(&mut self, place: u32) -> Closed
        requires { 0 < own_at (meaning self.old) place }
        ensures closes { meaning self.new ≡ closed result (meaning self.old) place }

        // At the last own count `Stays` comes only where a note of the place is out, and the object may stay.
        ensures last { result ≡ Closed.Last → own_at (meaning self.old) place ≡ 1 }
        ensures stays { result ≡ Closed.Stays → own_at (meaning self.old) place ≡ 1 → HasNoteOut (meaning self.old) place }
        ensures may_stay { result ≡ Closed.Stays → own_at (meaning self.old) place ≡ 1 → MayStay self.old place };

    /// A note that fits fits still after other calls on the same words, while it is out.
    ghost fits_on: { (old new : Self) (note : Self.Note) → Fits old note → (meaning new).identity ≡ (meaning old).identity → IsOut (meaning new) (slip note) → Fits new note };
}
