//! The kernel's objects: their rows by number, and how many references each has.
ghost use Rattle.std.specs.Prelude.{◌≡◌, ℕ, ◌+◌, ◌-◌, ◌<◌, ◌≤◌, ◌↔◌, [], None, length, false, IsTrue, IfOk, slice_index, slice_set};
ghost use Rattle.std.specs.List.{slice_index_or};
ghost use Rattle.sym_base.specs.declared.limits.TheConstants.Limits.{OBJECTS};
ghost use Rattle.ref_words.specs.Words.{NoneCreated};
ghost use Rattle.objects.specs.Calls.{counts_found, found, new_row, next_place};
ghost use Rattle.table_moves.specs.Notes.{HasNoteOf, IsNoteOut, next_slip, no_notes, notes_back, notes_of, notes_sent};
ghost use Rattle.objects.specs.Rows.{HasAlive, StandsAt, is_alive, is_there, kept_name};
ghost use Rattle.state_rows.specs.ObjectRows.{is_dead_row, is_taken, dead_row, next_number, place_of, with_object};

use objects::Made;
use ref_words::{Closed, Found, RefWords};
use state_rows::ObjectRow;
use std::alloc::Global;
use std::marker::Model;
use sym_base::{Kind, Name, NoMemory, ObjNo};

/// The table of objects. A contract sees its rows, the makings, the words that count the references, the counts by number, and the notes.
#[derive(Drop)]
pub struct ObjectTable<W: RefWords> {
    table: objects::Objects<W>,
}

impl<W: RefWords> Model for ObjectTable<W> {
    ghost use Rattle.table_moves.specs.Notes.{notes_of};
    ghost use Rattle.table_moves.specs.ObjectsView.{ObjectsView};

    ghost Value = { ObjectsView W };

    ghost view = { λ o. record { rows = o.table.rows; made = o.table.made; reuse = o.table.reuse; words = o.table.words; counts = o.table.counts; notes = notes_of (W.meaning o.table.words) } };
}

impl<W: RefWords + Drop> ObjectTable<W> {
    /// A table without objects, over words of which none is created, which uses the numbers of swept objects again or doesn't.
    pub fn new(alloc: Global, words: W, reuse: bool) -> Result<ObjectTable<W>, NoMemory>
        requires fresh { NoneCreated (W.meaning words) }
        ensures rows { IfOk result (λ o. o.rows ≡ []) }
        ensures made { IfOk result (λ o. o.made ≡ 0) }
        ensures mode { IfOk result (λ o. o.reuse ≡ reuse) }
        ensures words { IfOk result (λ o. o.words ≡ words) }
        ensures none_out { IfOk result (λ o. o.notes.out ≡ []) }
        ensures notes { IfOk result (λ o. o.notes ≡ no_notes (W.meaning words).identity (length (W.meaning words).own)) }
        ensures counts { IfOk result (λ o. (k : ℕ) → slice_index o.counts k ≡ 0) }
    {
        let table = objects::Objects::new(alloc, words, reuse)?;
        Ok(ObjectTable { table })
    }

    /// The number that the next object gets, 4,096 where none is left.
    pub fn next(&self) -> usize
        ensures number { result ≡ next_number self.now.reuse self.now.rows }
        ensures within { result ≤ length self.now.rows }
        ensures few { length self.now.rows ≤ OBJECTS }
    {
        self.table.next()
    }

    /// Whether an unswept object has this kind and name, which no session has.
    pub fn is_taken(&self, kind: Kind, name: &Name) -> bool
        ensures { result ≡ is_taken kind name.now self.now.rows }
    {
        self.table.is_taken(kind, name)
    }

    /// The object that a find by kind and name finds.
    pub fn find(&self, kind: Kind, name: &Name) -> Option<ObjNo>
        ensures { result ≡ found kind name.now self.now.rows self.now.counts }
    {
        self.table.find(kind, name)
    }

    /// Makes an object with one reference. It answers the number. A session has no name: the one given is empty. The words have a
    /// place for it. It is copied into the actions' loop over moves, though boot calls it too.
    #[inline(always)]
    pub fn make(&mut self, kind: Kind, name: &Name) -> ObjNo
        requires named { kept_name kind name.now ≡ name.now }
        requires fresh { is_taken kind name.now self.old.rows ≡ false }
        requires room { next_number self.old.reuse self.old.rows < OBJECTS }
        requires place { next_place self.old.reuse self.old.rows self.old.made < self.old.notes.places }
        ensures number { result.0 ≡ next_number self.old.reuse self.old.rows }
        ensures rows { self.new.rows ≡ with_object self.old.rows (next_number self.old.reuse self.old.rows) (new_row kind name.now self.old.made) }
        ensures makings { self.new.made ≡ self.old.made + 1 }
        ensures mode { self.new.reuse ≡ self.old.reuse }
        ensures counts { self.new.counts ≡ slice_set self.old.counts (next_number self.old.reuse self.old.rows) 1 }
        ensures one { slice_index self.new.counts (next_number self.old.reuse self.old.rows) ≡ 1 }
        ensures notes { self.new.notes ≡ self.old.notes }
    {
        match self.table.make(kind, name) {
            Made::Made(object) => object,
            Made::NameTaken | Made::Full => unreachable!(),
        }
    }

    /// The object's row; None exactly where it isn't made or is swept.
    pub fn row(&self, object: ObjNo) -> Option<ObjectRow>
        ensures { result ≡ slice_index_or self.now.rows object.0 None }
    {
        let told = self.table.row(object)?;
        Some(ObjectRow {
            kind: told.kind,
            name: told.name,
            dead: told.dead,
            place: told.place,
        })
    }

    /// The object's place, 0 where there is no such object.
    pub fn place(&self, object: ObjNo) -> u64
        ensures { result ≡ place_of (slice_index_or self.now.rows object.0 None) }
    {
        match self.table.row(object) {
            Some(told) => told.place,
            None => 0,
        }
    }

    /// The number of references to an object, 0 where there is no such object.
    pub fn count(&self, object: ObjNo) -> u32
        ensures { result ≡ slice_index self.now.counts object.0 }
    {
        self.table.count(object)
    }

    /// How many numbers objects had so far. It tells besides that the notes are those of the words.
    pub fn len(&self) -> usize
        ensures numbers { result ≡ length self.now.rows }
        ensures notes { self.now.notes ≡ notes_of (W.meaning self.now.words) }
        ensures few { result ≤ OBJECTS }
    {
        self.table.len()
    }

    /// One reference more.
    pub fn add_ref(&mut self, object: ObjNo)
        requires there { IsTrue (is_there (slice_index_or self.old.rows object.0 None)) }
        requires known { 0 < slice_index self.old.counts object.0 }
        requires few { slice_index self.old.counts object.0 < 2147483648 }
        ensures rows { self.new.rows ≡ self.old.rows }
        ensures makings { self.new.made ≡ self.old.made }
        ensures mode { self.new.reuse ≡ self.old.reuse }
        ensures counts { self.new.counts ≡ slice_set self.old.counts object.0 (slice_index self.old.counts object.0 + 1) }
        ensures notes { self.new.notes ≡ self.old.notes }
    {
        self.table.add_ref(object);
    }

    /// One reference less. The object is dead after its last one, which the words tell: at count 1 it stays only where a note of it is
    /// out.
    pub fn close_ref(&mut self, object: ObjNo) -> Closed
        requires there { IsTrue (is_there (slice_index_or self.old.rows object.0 None)) }
        requires counted { 0 < slice_index self.old.counts object.0 }
        ensures last { result ≡ Closed.Last → slice_index self.old.counts object.0 ≡ 1 }
        ensures out { result ≡ Closed.Stays → slice_index self.old.counts object.0 ≡ 1 → HasNoteOf self.old.notes (place_of (slice_index_or self.old.rows object.0 None)) }
        ensures dead { result ≡ Closed.Last → self.new.rows ≡ slice_set self.old.rows object.0 (dead_row (slice_index_or self.old.rows object.0 None)) }
        ensures stays { result ≡ Closed.Stays → self.new.rows ≡ self.old.rows }
        ensures makings { self.new.made ≡ self.old.made }
        ensures mode { self.new.reuse ≡ self.old.reuse }
        ensures counts { self.new.counts ≡ slice_set self.old.counts object.0 (slice_index self.old.counts object.0 - 1) }
        ensures notes { self.new.notes ≡ self.old.notes }
    {
        self.table.close_ref(object)
    }

    /// Sends a note out for an unswept object that has references or isn't alive. It is of the object's place.
    pub fn send_out(&mut self, object: ObjNo) -> W::Note
        requires there { IsTrue (is_there (slice_index_or self.old.rows object.0 None)) }
        requires known_or_gone { slice_index self.old.counts object.0 ≡ 0 → is_alive (slice_index_or self.old.rows object.0 None) ≡ false }
        requires few { slice_index self.old.counts object.0 < 2147483648 }
        requires few_out { length self.old.notes.out < 64 }
        requires few_made { self.old.notes.made < 4294967295 }
        ensures rows { self.new.rows ≡ self.old.rows }
        ensures makings { self.new.made ≡ self.old.made }
        ensures mode { self.new.reuse ≡ self.old.reuse }
        ensures counts { self.new.counts ≡ self.old.counts }
        ensures notes { self.new.notes ≡ notes_sent self.old.notes (place_of (slice_index_or self.old.rows object.0 None)) }
        ensures note { W.slip result ≡ next_slip self.old.notes (place_of (slice_index_or self.old.rows object.0 None)) }
        ensures is_new { W.IsNew result }
        ensures origin_is { W.origin result ≡ self.old.notes.identity }
        ensures fits { W.Fits self.new.words result }
    {
        self.table.send_out(object)
    }

    /// Takes a note back. Where the object of the note's place is alive, the reference that the note opened is counted at its number.
    pub fn take_back(&mut self, note: W::Note) -> Found
        requires settled { W.IsSettled note }
        requires fits { W.Fits self.old.words note }
        ensures rows { self.new.rows ≡ self.old.rows }
        ensures makings { self.new.made ≡ self.old.made }
        ensures mode { self.new.reuse ≡ self.old.reuse }
        ensures counts { (o : ℕ) → StandsAt self.old.rows (W.slip note).place o → self.new.counts ≡ counts_found result self.old.counts o }
        ensures gone { result ≡ Found.Dead → self.new.counts ≡ self.old.counts }
        ensures notes { self.new.notes ≡ notes_back (W.slip note) self.old.notes }
        ensures held { (o : ℕ) → StandsAt self.old.rows (W.slip note).place o → ((result ≡ Found.Held) ↔ (IsTrue (is_alive (slice_index_or self.old.rows o None)) × (place_of (slice_index_or self.old.rows o None) ≡ (W.slip note).place))) }
        ensures stands { result ≡ Found.Held → HasAlive self.old.rows (W.slip note).place }
        ensures was_out { IsNoteOut self.old.notes (W.slip note) }
        ensures placed { (W.slip note).place < self.old.made }
        ensures inside { (o : ℕ) → StandsAt self.old.rows (W.slip note).place o → result ≡ Found.Held → o < length self.old.counts }
        ensures fewer { length self.new.notes.out + 1 ≡ length self.old.notes.out }
    {
        self.table.take_back(note)
    }

    /// Removes the row of a dead object.
    pub fn sweep(&mut self, object: ObjNo)
        requires { IsTrue (is_dead_row (slice_index_or self.old.rows object.0 None)) }
        ensures rows { self.new.rows ≡ slice_set self.old.rows object.0 None }
        ensures makings { self.new.made ≡ self.old.made }
        ensures mode { self.new.reuse ≡ self.old.reuse }
        ensures counts { self.new.counts ≡ self.old.counts }
        ensures notes { self.new.notes ≡ self.old.notes }
    {
        self.table.sweep(object);
    }
}
