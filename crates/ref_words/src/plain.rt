//! Reference counts that only the kernel changes.
ghost use Rattle.std.specs.Prelude.{◌≡◌, ℕ, ◌+◌, ◌^◌, ◌<◌, ◌≤◌, ◌↔◌, IfOk, List, [], ◌∷◌, length, vec_capacity};
ghost use Rattle.ref_words.specs.Words.{Words, own_at, IsFresh, IsCreated, IsGone, IsOut, HasNoteOut, NoneCreated, without, created, opened, sent_out, taken_back, closed};
ghost use Rattle.ref_words.specs.Plain.{fresh_words};

use crate::{Closed, Found, RefWords, Slip, Stage};
use std::alloc::Global;
use std::marker::Model;
use sym_base::NoMemory;

/// The most notes that are out at a time. The limit is this project's own.
const MAX_OUT: usize = 64;

/// A note of a `PlainWords`. It is settled from the start: the words open its object as it comes back.
/// A contract sees its place and its number.
#[derive(Drop)]
pub struct PlainNote {
    slip: Slip,
}

impl Model for PlainNote {
    ghost use Rattle.ref_words.specs.declared.slip.Slip.{Slip};

    ghost Value = { Slip };

    ghost view = { λ note. note.slip };
}

/// Reference counts that nobody but the kernel changes. A note that comes back opens its object unless
/// the count is 0.
#[derive(Drop)]
pub struct PlainWords {
    counts: Vec<u32>,
    stages: Vec<Stage>,
    out: Vec<Slip>,
    made: u32,
}

impl Model for PlainWords {
    ghost use Rattle.std.specs.Prelude.{[], ◌∷◌, ◌≤◌, vec_capacity};
    ghost use Rattle.ref_words.specs.Words.{Words};
    ghost use Rattle.ref_words.specs.Plain.{IsSound};

    ghost Value = { Words };

    ghost view = { λ w. record { own = w.counts.items; stages = w.stages.items; out = w.out.items; made = w.made; identity = 0 ∷ [] } };

    ghost invariant = { λ w. IsSound (record { own = w.counts.items; stages = w.stages.items; out = w.out.items; made = w.made; identity = 0 ∷ [] }) × (64 ≤ vec_capacity w.out) };
}

impl PlainWords {
    /// Counts for the places from 0 on, none of them created. It takes all the memory that the words
    /// ever need.
    pub fn new(alloc: Global, places: u32) -> Result<PlainWords, NoMemory>
        ensures words { IfOk result (λ words. words ≡ fresh_words places) }
        ensures places { IfOk result (λ words. length words.own ≡ places) }
        ensures fresh { IfOk result NoneCreated }
    {
        let counts = vec![in alloc; 0u32; places as usize]?;
        let stages = vec![in alloc; Stage::Fresh; places as usize]?;
        let out = Vec::with_capacity(alloc, MAX_OUT)?;
        Ok(PlainWords {
            counts,
            stages,
            out,
            made: 0,
        })
    }

    /// Strikes a note that is out, and opens its object unless the count is 0.
    fn settle(&mut self, slip: Slip) -> Found
        requires { IsOut self.old slip }
        ensures taken { self.new ≡ taken_back result self.old slip }
        ensures dead { (result ≡ Found.Dead) ↔ IsGone self.old slip.place }
        ensures created { IsCreated self.old slip.place }
        ensures placed { slip.place < length self.old.own }
        ensures fewer { length self.new.out + 1 ≡ length self.old.out }
        ensures bounded { own_at self.new slip.place ≤ 2147483712 }
        ensures exact { (result ≡ Found.Dead) ↔ (own_at self.old slip.place ≡ 0) }
    {
        strike(&mut self.out, slip);
        let count = self.counts[slip.place as usize];
        if count == 0 {
            return Found::Dead;
        }
        self.counts[slip.place as usize] = count + 1;
        Found::Held
    }
}

/// Strikes a note from those that are out, and keeps the room.
fn strike(out: &mut Vec<Slip>, slip: Slip)
    ensures items { out.new.items ≡ without slip out.old.items }
    ensures room { vec_capacity out.new ≡ vec_capacity out.old }
{
    out.retain(|other| *other != slip);
}

impl RefWords for PlainWords {
    type Note = PlainNote;

    ghost meaning = { λ words. words };

    ghost slip = { λ note. note };

    ghost origin = { λ _. 0 ∷ [] };

    ghost IsNew = { λ _. Unit {0} };

    ghost IsSettled = { λ _. Unit {0} };

    ghost Fits = { λ words note. IsOut words note };

    ghost MayStay = { λ _ _. ⊥ };

    ghost fits_on = { λ old new note fits same out. out };

    fn places(&self) -> usize {
        self.counts.len()
    }

    fn place_of(note: &PlainNote) -> u32 {
        note.slip.place
    }

    fn create(&mut self, place: u32) {
        self.counts[place as usize] = 1;
        self.stages[place as usize] = Stage::InUse;
    }

    fn open_known(&mut self, place: u32) {
        self.counts[place as usize] += 1;
    }

    fn send_out(&mut self, place: u32) -> PlainNote {
        self.made += 1;
        let slip = Slip {
            place,
            number: self.made,
        };
        self.out.push_reserved(slip);
        PlainNote { slip }
    }

    fn take_back(&mut self, note: PlainNote) -> Found
        requires { IsOut self.old note }
        ensures taken { self.new ≡ taken_back result self.old note }
        ensures dead { (result ≡ Found.Dead) ↔ IsGone self.old note.place }
        ensures uncounted { result ≡ Found.Dead → own_at self.old note.place ≡ 0 }
        ensures may_stay { result ≡ Found.Held → own_at self.old note.place ≡ 0 → ⊥ }
        ensures was_out { IsOut self.old note }
        ensures created { IsCreated self.old note.place }
        ensures placed { note.place < length self.old.own }
        ensures fewer { length self.new.out + 1 ≡ length self.old.out }
        ensures bounded { own_at self.new note.place ≤ 2147483712 }
    {
        let PlainNote { slip } = note;
        self.settle(slip)
    }

    fn close(&mut self, place: u32) -> Closed
        requires { 0 < own_at self.old place }
        ensures closes { self.new ≡ closed result self.old place }
        ensures last { result ≡ Closed.Last → own_at self.old place ≡ 1 }
        ensures stays { result ≡ Closed.Stays → own_at self.old place ≡ 1 → HasNoteOut self.old place }
        ensures may_stay { result ≡ Closed.Stays → own_at self.old place ≡ 1 → ⊥ }
    {
        let left = self.counts[place as usize] - 1;
        self.counts[place as usize] = left;
        if left > 0 {
            return Closed::Stays;
        }
        self.stages[place as usize] = Stage::Gone;
        Closed::Last
    }
}
