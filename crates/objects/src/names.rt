//! The numbers of the objects that have names, in the order of the names.
ghost use Rattle.std.specs.Prelude.{◌≡◌, ◌<◌, false, IfOk, IsTrue, ◌≤◌, None, Some, length, slice_index, vec_capacity, vec_len, []};
ghost use Rattle.std.specs.List.{insert, remove};
ghost use Rattle.state_rows.specs.ObjectRows.{with_object};
ghost use Rattle.objects.specs.Rows.{row_at, is_there};
ghost use Rattle.objects.specs.Calls.{new_row, rows_swept};
ghost use Rattle.objects.specs.Names.{key_order, key_of, is_named, AreListed, IsPlace, IsNewPlace};

use state_rows::{ObjectRow, is_session};
use std::alloc::Global;
use std::cmp::Ordering;
use std::marker::Model;
use sym_base::{Kind, Limits, Name, NoMemory};

/// The numbers of the unswept objects that have names, by kind and name, so that a name is found by halving.
/// A contract sees the list of the numbers, of which there is room for 4,096.
#[derive(Drop)]
pub struct Names {
    numbers: Vec<u16>,
    /// Where an object was listed last. It is looked at first where one goes: often that is the youngest.
    last: usize,
}

impl Model for Names {
    ghost use Rattle.std.specs.Prelude.{ℕ, List, ◌≤◌, vec_capacity};

    ghost Value = { List ℕ };

    ghost view = { λ a. a.numbers.items };

    ghost invariant = { λ a. 4096 ≤ vec_capacity a.numbers };
}

impl Names {
    /// No number. It takes all the memory that the list ever needs.
    pub fn new(alloc: Global) -> Result<Names, NoMemory>
        ensures { IfOk result (λ names. names ≡ []) }
    {
        let numbers = Vec::with_capacity(alloc, Limits::OBJECTS)?;
        Ok(Names { numbers, last: 0 })
    }

    /// The place of the object of a kind and a name, or else the place where it would come.
    pub fn place_of(
        &self,
        rows: &[Option<ObjectRow>],
        kind: Kind,
        name: &Name,
    ) -> Result<usize, usize>
        requires { AreListed rows.now self.now }
        ensures { IsPlace rows.now self.now (record { kind = kind; name = name.now }) result }
    {
        let mut low = 0;
        let mut high = self.numbers.len();
        while low < high {
            let middle = low + (high - low) / 2;
            match order(&rows[self.numbers[middle] as usize], kind, name) {
                Ordering::Less => low = middle + 1,
                Ordering::Equal => return Ok(middle),
                Ordering::Greater => high = middle,
            }
        }
        Err(low)
    }

    /// The number at a place.
    pub fn number_at(&self, place: usize) -> usize
        requires { place < length self.now }
        ensures { result ≡ slice_index self.now place }
    {
        self.numbers[place] as usize
    }

    /// The place where a new object of a kind and a name is listed. None exactly where the name is taken; for a
    /// session, which isn't listed, any place.
    pub fn new_place(&self, rows: &[Option<ObjectRow>], kind: Kind, name: &Name) -> Option<usize>
        requires { AreListed rows.now self.now }
        ensures { IsNewPlace rows.now self.now kind name.now result }
    {
        if is_session(kind) {
            return Some(0);
        }
        match self.place_of(rows, kind, name) {
            Ok(_) => None,
            Err(place) => Some(place),
        }
    }

    /// Lists an object that is made now with a free number, where so many were made before it, at its place in the list.
    pub fn list(
        &mut self,
        rows: &[Option<ObjectRow>],
        kind: Kind,
        name: &Name,
        place: usize,
        number: usize,
        made: u64,
    )
        requires listed { AreListed rows.now self.old }
        requires is_new { IsNewPlace rows.now self.old kind name.now (Some place) }
        requires within { number ≤ length rows.now }
        requires free { row_at rows.now number ≡ None }
        requires room { number < 4096 }
        requires few { length rows.now ≤ 4096 }
        ensures { AreListed (with_object rows.now number (new_row kind name.now made)) self.new }
    {
        if !is_session(kind) {
            insert_at(&mut self.numbers, place, number as u16);
            self.last = place;
        }
    }

    /// The place of an unswept object that has a name.
    fn place_listed(
        &self,
        rows: &[Option<ObjectRow>],
        number: usize,
        row: &ObjectRow,
    ) -> Result<usize, usize>
        requires listed { AreListed rows.now self.now }
        requires row { row_at rows.now number ≡ Some row.now }
        ensures { IsPlace rows.now self.now (key_of (row_at rows.now number)) result }
    {
        let place = self.last;
        if place < self.numbers.len() && self.numbers[place] as usize == number {
            return Ok(place);
        }
        self.place_of(rows, row.kind, &row.name)
    }

    /// Takes an unswept object, whose row is about to go, out of the list.
    pub fn forget(&mut self, rows: &[Option<ObjectRow>], number: usize)
        requires listed { AreListed rows.now self.old }
        requires there { IsTrue (is_there (row_at rows.now number)) }
        ensures { AreListed (rows_swept rows.now number) self.new }
    {
        let Some(row) = &rows[number] else {
            return;
        };
        if is_session(row.kind) {
            return;
        }
        if let Ok(place) = self.place_listed(rows, number, row) {
            remove_at(&mut self.numbers, place);
        }
    }
}

/// Puts a number at a place of a list that has room. Where that is the end, no other moves.
fn insert_at(numbers: &mut Vec<u16>, place: usize, number: u16)
    requires within { place ≤ vec_len numbers.old }
    requires room { vec_len numbers.old < vec_capacity numbers.old }
    ensures items { numbers.new.items ≡ insert numbers.old.items place number }
    ensures capacity { vec_capacity numbers.old ≤ vec_capacity numbers.new }
{
    if place == numbers.len() {
        numbers.push_reserved(number);
    } else {
        numbers.insert(place, number).unwrap();
    }
}

/// Takes the number at a place out of a list. Where it is the last, no other moves.
fn remove_at(numbers: &mut Vec<u16>, place: usize)
    requires { place < vec_len numbers.old }
    ensures items { numbers.new.items ≡ remove numbers.old.items place }
    ensures capacity { vec_capacity numbers.new ≡ vec_capacity numbers.old }
{
    if place + 1 == numbers.len() {
        let _ = numbers.pop();
    } else {
        let _ = numbers.remove(place);
    }
}

/// How the key of an unswept object stands to a kind and a name.
fn order(row: &Option<ObjectRow>, kind: Kind, name: &Name) -> Ordering
    requires { IsTrue (is_named row.now) }
    ensures { result ≡ key_order (key_of row.now) (record { kind = kind; name = name.now }) }
{
    let Some(row) = row else {
        unreachable!();
    };
    let (listed, wanted) = (row.kind as u8, kind as u8);
    if listed == wanted {
        row.name.order(name)
    } else if listed < wanted {
        Ordering::Less
    } else {
        Ordering::Greater
    }
}
