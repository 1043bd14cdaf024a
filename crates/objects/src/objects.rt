//! The table of objects, and its calls.
ghost use Rattle.std.specs.Prelude.{◌≡◌, ℕ, false, ◌+◌, ◌-◌, ◌^◌, ◌<◌, ◌≤◌, ◌↔◌, Some, IsTrue, IfOk, IfSome, length, position, replicate, slice_index, slice_set, vec_capacity, []};
ghost use Rattle.ref_words.specs.Words.{own_at, IsGone, IsOut, HasNoteOut, NoneCreated, opened, sent_out, taken_back, closed};
ghost use Rattle.sym_base.specs.declared.limits.TheConstants.Limits.{OBJECTS};
ghost use Rattle.sym_base.specs.declared.number.ObjNo.{ObjNo};
ghost use Rattle.objects.specs.Rows.{HasAlive, StandsAt, row_at, is_there, is_alive};
ghost use Rattle.state_rows.specs.ObjectRows.{is_session, has_name, is_taken, is_dead_row, next_number, place_of, with_object};
ghost use Rattle.objects.specs.Calls.{is_findable, made_answer, next_place, rows_made, counts_made, counts_found, makings_made, words_made, found, told, row_told, rows_closed, rows_swept};

use crate::free::FreeNumbers;
use crate::names::Names;
use crate::row::{ObjRow, kept_name};
use ref_words::{Closed, Found, RefWords};
use state_rows::{ObjectRow, is_dead_row, is_session};
use std::alloc::Global;
use std::marker::Model;
use sym_base::{Kind, Limits, Name, NoMemory, ObjNo};

/// What making an object answers.
#[derive(Clone, Copy, Debug, PartialEq, Eq)]
pub enum Made {
    Made(ObjNo),
    /// Another object of the kind has the name, and isn't swept.
    NameTaken,
    /// No number is left: 4,096 objects aren't swept, or where numbers aren't used again, 4,096 were made.
    Full,
}

/// The objects of the kernel by number (Symbian OS Internals, the chapter on kernel services, on object containers).
/// Names are unique among the unswept objects of a kind, and sessions have none. The numbers and their limit are this
/// project's own: they are given in order of making, or the number of a swept object is given again. The references
/// to an object are counted at its place, which is how many objects were made before it; each making's number is kept
/// by its place. A name is found by halving, in a list beside the rows, and the least free number by bits.
#[derive(Drop)]
pub struct Objects<W: RefWords> {
    words: W,
    counts: Vec<u32>,
    rows: Vec<Option<ObjectRow>>,
    numbers: Vec<u16>,
    reuse: bool,
    free: FreeNumbers,
    names: Names,
}

impl<W: RefWords> Model for Objects<W> {
    ghost use Rattle.std.specs.Prelude.{◌≤◌, length, min, vec_capacity};
    ghost use Rattle.objects.specs.Table.{Table};

    ghost Value = { Table W };

    ghost use Rattle.objects.specs.Kept.{AreKept};
    ghost use Rattle.objects.specs.Names.{AreListed};

    ghost view = { λ a. record { rows = a.rows.items; counts = a.counts.items; made = length a.numbers.items; reuse = a.reuse; words = a.words } };

    ghost invariant = { λ a. AreKept a.rows.items a.counts.items a.numbers.items a.reuse a.free.words (W.meaning a.words) × (min (length (W.meaning a.words).own) 4096 ≤ vec_capacity a.rows) × (length (W.meaning a.words).own ≤ vec_capacity a.numbers) × AreListed a.rows.items a.names };
}

impl<W: RefWords + Drop> Objects<W> {
    /// A table of no object, over words of any number of places, of which none is created, which uses the numbers of
    /// swept objects again or doesn't. It takes all the memory that the table ever needs. Words of more than
    /// 4,294,967,295 places, which no note could name, are NoMemory too.
    pub fn new(alloc: Global, words: W, reuse: bool) -> Result<Objects<W>, NoMemory>
        requires { NoneCreated (W.meaning words) }
        ensures table { IfOk result (λ objects. objects ≡ record { rows = []; counts = replicate OBJECTS 0; made = 0; reuse = reuse; words = words }) }
        ensures none_out { IfOk result (λ objects. (W.meaning objects.words).out ≡ []) }
        ensures unmade { IfOk result (λ objects. (W.meaning objects.words).made ≡ 0) }
        ensures uncounted { IfOk result (λ objects. (p : ℕ) → own_at (W.meaning objects.words) p ≡ 0) }
    {
        let places = words.places();
        if places > u32::MAX as usize {
            return Err(NoMemory);
        }
        let counts = vec![in alloc; 0u32; Limits::OBJECTS]?;
        let rows = Vec::with_capacity(alloc, places.min(Limits::OBJECTS))?;
        let numbers = Vec::with_capacity(alloc, places)?;
        let names = Names::new(alloc)?;
        Ok(Objects {
            words,
            counts,
            rows,
            numbers,
            reuse,
            free: FreeNumbers::all(),
            names,
        })
    }

    /// The number that the next object gets, 4,096 where none is left.
    pub fn next(&self) -> usize
        ensures number { result ≡ next_number self.now.reuse self.now.rows }
        ensures within { result ≤ length self.now.rows }
        ensures few { length self.now.rows ≤ OBJECTS }
    {
        if self.reuse {
            self.free.least()
        } else {
            self.rows.len()
        }
    }

    /// Makes an object of a kind with a name, which has one reference. A session's name isn't looked at. Where
    /// it makes one, the words have a place for it. It is copied into the actions' loop over moves, though boot calls it too.
    #[inline(always)]
    pub fn make(&mut self, kind: Kind, name: &Name) -> Made
        requires place { (o : ObjNo) → made_answer self.old.reuse kind name.now self.old.rows ≡ Made.Made o → next_place self.old.reuse self.old.rows self.old.made < length (W.meaning self.old.words).own }
        ensures answer { result ≡ made_answer self.old.reuse kind name.now self.old.rows }
        ensures rows { self.new.rows ≡ rows_made result kind name.now self.old.made self.old.rows }
        ensures counts { self.new.counts ≡ counts_made result self.old.counts }
        ensures makings { self.new.made ≡ makings_made result self.old.made }
        ensures mode { self.new.reuse ≡ self.old.reuse }
        ensures words { W.meaning self.new.words ≡ words_made result self.old.made (W.meaning self.old.words) }
        ensures one { (o : ObjNo) → result ≡ Made.Made o → slice_index self.new.counts o.0 ≡ 1 }
        ensures taken { result ≡ Made.NameTaken → self.new ≡ self.old }
        ensures full { result ≡ Made.Full → self.new ≡ self.old }
    {
        let Some(place) = self.names.new_place(&self.rows, kind, name) else {
            return Made::NameTaken;
        };
        let number = self.next();
        if number == Limits::OBJECTS {
            return Made::Full;
        }
        let made = self.numbers.len();
        self.names
            .list(&self.rows, kind, name, place, number, made as u64);
        let row = ObjectRow {
            kind,
            name: kept_name(kind, name),
            dead: false,
            place: made as u64,
        };
        place_row(&mut self.rows, number, row);
        self.counts[number] = 1;
        self.words.create(made as u32);
        self.free.take(number);
        self.numbers.push_reserved(number as u16);
        Made::Made(ObjNo(number as u16))
    }

    /// Whether an unswept object has a kind and a name, which no session has.
    pub fn is_taken(&self, kind: Kind, name: &Name) -> bool
        ensures { result ≡ is_taken kind name.now self.now.rows }
    {
        self.names.new_place(&self.rows, kind, name).is_none()
    }

    /// How many numbers objects had so far.
    pub fn len(&self) -> usize
        ensures numbers { result ≡ length self.now.rows }
        ensures few { result ≤ 4096 }
    {
        self.rows.len()
    }

    /// The unswept object of a kind with a name. None exactly where there is none, or where it has no
    /// reference and isn't dead: then it awaits a note that is out. No session is found.
    pub fn find(&self, kind: Kind, name: &Name) -> Option<ObjNo>
        ensures answer { result ≡ found kind name.now self.now.rows self.now.counts }
        ensures alone { IfSome result (λ o. (p : ℕ) → IsTrue (has_name kind name.now (row_at self.now.rows p)) → p ≡ o.0) }
    {
        if is_session(kind) {
            return None;
        }
        let place = self.place_named(kind, name)?;
        if !self.is_findable(place) {
            return None;
        }
        Some(ObjNo(place as u16))
    }

    /// The place of the unswept object of a kind with a name.
    fn place_named(&self, kind: Kind, name: &Name) -> Option<usize>
        requires { is_session kind ≡ false }
        ensures place { result ≡ position (has_name kind name.now) self.now.rows }
        ensures made { IfSome result (λ p. (p < length self.now.rows) × (p < 4096)) }
        ensures alone { IfSome result (λ p. (q : ℕ) → IsTrue (has_name kind name.now (row_at self.now.rows q)) → q ≡ p) }
    {
        match self.names.place_of(&self.rows, kind, name) {
            Ok(place) => Some(self.names.number_at(place)),
            Err(_) => None,
        }
    }

    /// Whether an object has a reference or is dead.
    fn is_findable(&self, place: usize) -> bool
        requires { place < length self.now.rows }
        ensures { result ≡ is_findable self.now.rows self.now.counts place }
    {
        self.counts[place] != 0 || is_dead_row(&self.rows[place])
    }

    /// How many references to an object the kernel itself counted, 0 where there is no such object.
    pub fn count(&self, o: ObjNo) -> u32
        ensures { result ≡ slice_index self.now.counts o.0 }
    {
        let at = o.0 as usize;
        if at < self.counts.len() {
            self.counts[at]
        } else {
            0
        }
    }

    /// The place of an unswept object, 0 where there is none.
    fn place_at(&self, o: ObjNo) -> u32
        ensures { result ≡ place_of (row_at self.now.rows o.0) }
    {
        if o.0 as usize >= self.rows.len() {
            return 0;
        }
        match &self.rows[o.0 as usize] {
            Some(row) => row.place as u32,
            None => 0,
        }
    }

    /// Adds a reference to an unswept object that has one.
    pub fn add_ref(&mut self, o: ObjNo)
        requires there { IsTrue (is_there (row_at self.old.rows o.0)) }
        requires known { 0 < slice_index self.old.counts o.0 }
        requires small { slice_index self.old.counts o.0 < 2 ^ 31 }
        ensures rows { self.new.rows ≡ self.old.rows }
        ensures counts { self.new.counts ≡ slice_set self.old.counts o.0 (slice_index self.old.counts o.0 + 1) }
        ensures makings { self.new.made ≡ self.old.made }
        ensures mode { self.new.reuse ≡ self.old.reuse }
        ensures words { W.meaning self.new.words ≡ opened (W.meaning self.old.words) (place_of (row_at self.old.rows o.0)) }
    {
        let place = self.place_at(o);
        self.counts[o.0 as usize] += 1;
        self.words.open_known(place);
    }

    /// Takes a reference of an unswept object away. At the last the object is dead.
    pub fn close_ref(&mut self, o: ObjNo) -> Closed
        requires there { IsTrue (is_there (row_at self.old.rows o.0)) }
        requires known { 0 < slice_index self.old.counts o.0 }
        ensures rows { self.new.rows ≡ rows_closed result self.old.rows o.0 }
        ensures counts { self.new.counts ≡ slice_set self.old.counts o.0 (slice_index self.old.counts o.0 - 1) }
        ensures makings { self.new.made ≡ self.old.made }
        ensures mode { self.new.reuse ≡ self.old.reuse }
        ensures words { W.meaning self.new.words ≡ closed result (W.meaning self.old.words) (place_of (row_at self.old.rows o.0)) }

        // At the last own count `Stays` comes only where a note of the object is out, and the object may stay:
        // over `PlainWords` never.
        ensures last { result ≡ Closed.Last → slice_index self.old.counts o.0 ≡ 1 }
        ensures stays { result ≡ Closed.Stays → slice_index self.old.counts o.0 ≡ 1 → HasNoteOut (W.meaning self.old.words) (place_of (row_at self.old.rows o.0)) }
        ensures may_stay { result ≡ Closed.Stays → slice_index self.old.counts o.0 ≡ 1 → W.MayStay self.old.words (place_of (row_at self.old.rows o.0)) }
    {
        let place = self.place_at(o);
        self.counts[o.0 as usize] -= 1;
        let left = self.words.close(place);
        match left {
            Closed::Stays => {}
            Closed::Last => bury(&mut self.rows, o),
        }
        left
    }

    /// Sends a note out for an unswept object that has a reference or isn't alive. It is of the object's place.
    pub fn send_out(&mut self, o: ObjNo) -> W::Note
        requires there { IsTrue (is_there (row_at self.old.rows o.0)) }
        requires known_or_gone { slice_index self.old.counts o.0 ≡ 0 → is_alive (row_at self.old.rows o.0) ≡ false }
        requires small { slice_index self.old.counts o.0 < 2 ^ 31 }
        requires few_out { length (W.meaning self.old.words).out < 64 }
        requires few_made { (W.meaning self.old.words).made < 4294967295 }
        ensures rows { self.new.rows ≡ self.old.rows }
        ensures counts { self.new.counts ≡ self.old.counts }
        ensures makings { self.new.made ≡ self.old.made }
        ensures mode { self.new.reuse ≡ self.old.reuse }
        ensures words { W.meaning self.new.words ≡ sent_out (W.meaning self.old.words) (place_of (row_at self.old.rows o.0)) }
        ensures note { W.slip result ≡ record { place = place_of (row_at self.old.rows o.0); number = (W.meaning self.old.words).made + 1 } }
        ensures is_new { W.IsNew result }
        ensures origin_is { W.origin result ≡ (W.meaning self.old.words).identity }
        ensures fits { W.Fits self.new.words result }
    {
        let place = self.place_at(o);
        self.words.send_out(place)
    }

    /// Takes a note back. Where the object of the note's place isn't gone, it has the number that it was made with, and
    /// the reference that the note opened is counted there. At that number another object may stand since.
    pub fn take_back(&mut self, note: W::Note) -> Found
        requires settled { W.IsSettled note }
        requires fits { W.Fits self.old.words note }
        ensures rows { self.new.rows ≡ self.old.rows }
        ensures counts { (o : ℕ) → StandsAt self.old.rows (W.slip note).place o → self.new.counts ≡ counts_found result self.old.counts o }
        ensures makings { self.new.made ≡ self.old.made }
        ensures mode { self.new.reuse ≡ self.old.reuse }
        ensures words { W.meaning self.new.words ≡ taken_back result (W.meaning self.old.words) (W.slip note) }
        ensures dead { (result ≡ Found.Dead) ↔ IsGone (W.meaning self.old.words) (W.slip note).place }

        // A gone object has own count 0, and one that isn't gone has it only where it may stay without: over
        // `PlainWords` never.
        ensures uncounted { result ≡ Found.Dead → own_at (W.meaning self.old.words) (W.slip note).place ≡ 0 }
        ensures may_stay { result ≡ Found.Held → own_at (W.meaning self.old.words) (W.slip note).place ≡ 0 → W.MayStay self.old.words (W.slip note).place }

        // The object was made, and is held exactly where it stands at its number and isn't dead.
        ensures made { (W.slip note).place < self.old.made }
        ensures held { (o : ℕ) → StandsAt self.old.rows (W.slip note).place o → ((result ≡ Found.Held) ↔ (IsTrue (is_alive (row_at self.old.rows o)) × (place_of (row_at self.old.rows o) ≡ (W.slip note).place))) }
        ensures gone { result ≡ Found.Dead → self.new.counts ≡ self.old.counts }
        ensures stands { result ≡ Found.Held → HasAlive self.old.rows (W.slip note).place }
        ensures inside { (o : ℕ) → StandsAt self.old.rows (W.slip note).place o → result ≡ Found.Held → o < length self.old.counts }
        ensures was_out { IsOut (W.meaning self.old.words) (W.slip note) }
        ensures fewer { length (W.meaning self.new.words).out + 1 ≡ length (W.meaning self.old.words).out }
        ensures bounded { own_at (W.meaning self.new.words) (W.slip note).place ≤ 2147483712 }
    {
        let place = W::place_of(&note) as usize;
        let found = self.words.take_back(note);
        let number = self.numbers[place];
        count_found(&mut self.counts, found, number as usize);
        found
    }

    /// Takes the row of a dead object away, and frees its name, and its number where numbers are used again.
    pub fn sweep(&mut self, o: ObjNo)
        requires { IsTrue (is_dead_row (row_at self.old.rows o.0)) }
        ensures rows { self.new.rows ≡ rows_swept self.old.rows o.0 }
        ensures counts { self.new.counts ≡ self.old.counts }
        ensures makings { self.new.made ≡ self.old.made }
        ensures mode { self.new.reuse ≡ self.old.reuse }
        ensures words { self.new.words ≡ self.old.words }
    {
        self.names.forget(&self.rows, o.0 as usize);
        self.rows[o.0 as usize] = None;
        self.free.give(o.0 as usize);
    }

    /// What is told of an object. None exactly where it isn't made or is swept.
    pub fn row(&self, o: ObjNo) -> Option<ObjRow>
        ensures { result ≡ row_told self.now.rows self.now.counts o.0 }
    {
        if o.0 as usize >= self.rows.len() {
            return None;
        }
        told(&self.rows[o.0 as usize], self.counts[o.0 as usize])
    }
}

/// What is told of a row and its count.
fn told(row: &Option<ObjectRow>, count: u32) -> Option<ObjRow>
    ensures { result ≡ told row.now count }
{
    match row {
        Some(row) => Some(ObjRow {
            kind: row.kind,
            name: row.name,
            count,
            dead: row.dead,
            place: row.place,
        }),
        None => None,
    }
}

/// The row of a new object stands at its number, or comes next.
fn place_row(rows: &mut Vec<Option<ObjectRow>>, number: usize, row: ObjectRow)
    requires within { number ≤ length rows.old.items }
    requires room { number < vec_capacity rows.old }
    requires more { length rows.old.items ≤ vec_capacity rows.old }
    ensures rows { rows.new.items ≡ with_object rows.old.items number row }
    ensures capacity { vec_capacity rows.new ≡ vec_capacity rows.old }
{
    if number < rows.len() {
        rows[number] = Some(row);
    } else {
        rows.push_reserved(Some(row));
    }
}

/// Counts the reference that a note opened, where it found its object held.
fn count_found(counts: &mut Vec<u32>, found: Found, number: usize)
    requires inside { found ≡ Found.Held → number < length counts.old.items }
    requires small { found ≡ Found.Held → slice_index counts.old.items number < 4294967295 }
    ensures { counts.new.items ≡ counts_found found counts.old.items number }
{
    match found {
        Found::Held => counts[number] += 1,
        Found::Dead => {}
    }
}

/// Notes that an object's last reference went.
fn bury(rows: &mut Vec<Option<ObjectRow>>, o: ObjNo)
    requires { o.0 < length rows.old.items }
    ensures rows { rows.new.items ≡ rows_closed Closed.Last rows.old.items o.0 }
    ensures room { vec_capacity rows.new ≡ vec_capacity rows.old }
{
    if let Some(row) = &mut rows[o.0 as usize] {
        row.dead = true;
    }
}
