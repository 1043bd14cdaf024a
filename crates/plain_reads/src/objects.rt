//! Objects by kind and name.
ghost use Rattle.std.specs.Prelude.{◌≡◌, ◌<◌, ◌≤◌, length, IfSome, position};
ghost use Rattle.std.specs.List.{list_any};
ghost use Rattle.machine.specs.Find.{findable, find_object};
ghost use Rattle.machine.specs.Moves.{next_object, no_number_left};
ghost use Rattle.state_rows.specs.ObjectRows.{first_free, has_name, named, next_number, is_taken};

use machine::{State, is_counted, object_of};
use state_rows::{ObjectRow, has_name, is_dead_row, is_session};
use sym_base::{Kind, Limits, Name, ObjNo};

/// The place of the unswept object of this kind and name.
fn place_named(kind: Kind, name: &Name, rows: &[Option<ObjectRow>]) -> Option<usize>
    ensures place { result ≡ position (has_name kind name.now) rows.now }
    ensures within { IfSome result (λ p. p < length rows.now) }
{
    rows.iter().position(|row| has_name(kind, name, row))
}

/// The number of the unswept object of this kind and name.
fn named(kind: Kind, name: &Name, rows: &[Option<ObjectRow>]) -> Option<ObjNo>
    requires { length rows.now ≤ 65536 }
    ensures { result ≡ named kind name.now rows.now }
{
    let number = place_named(kind, name, rows)?;
    Some(ObjNo(number as u16))
}

/// Whether an unswept object has this kind and name, also where it is a session's.
fn has_named(kind: Kind, name: &Name, rows: &[Option<ObjectRow>]) -> bool
    ensures { result ≡ list_any (has_name kind name.now) rows.now }
{
    rows.iter().any(|row| has_name(kind, name, row))
}

/// Whether an unswept object has this kind and name, which no session has.
pub fn is_taken(kind: Kind, name: &Name, rows: &[Option<ObjectRow>]) -> bool
    ensures { result ≡ is_taken kind name.now rows.now }
{
    !is_session(kind) && has_named(kind, name, rows)
}

/// The object, where it is dead or has a reference.
fn findable(state: &State, found: Option<ObjNo>) -> Option<ObjNo>
    ensures { result ≡ findable state.now found }
{
    let object = found?;
    if is_dead_row(&object_of(state, object)) || is_counted(state, object) {
        Some(object)
    } else {
        None
    }
}

/// The object that a find by kind and name finds. A session has no name.
pub fn find_object(state: &State, kind: Kind, name: &Name) -> Option<ObjNo>
    requires { length state.now.references.objects ≤ 65536 }
    ensures { result ≡ find_object state.now kind name.now }
{
    if is_session(kind) {
        return None;
    }
    findable(
        state,
        named(kind, name, state.references.objects.as_slice()),
    )
}

/// The least number that no unswept object has.
fn first_free(rows: &[Option<ObjectRow>]) -> usize
    ensures number { result ≡ first_free rows.now }
    ensures within { result ≤ length rows.now }
{
    for number in 0..rows.len() {
        let Some(_) = rows[number] else {
            return number;
        };
    }
    rows.len()
}

/// The number of the next object: the least that no unswept object has where numbers are used again, else the next.
fn next_number(reuse: bool, rows: &[Option<ObjectRow>]) -> usize
    ensures number { result ≡ next_number reuse rows.now }
    ensures within { result ≤ length rows.now }
{
    if reuse { first_free(rows) } else { rows.len() }
}

/// The number that a new object gets.
pub fn next_object(state: &State) -> ObjNo
    requires { length state.now.references.objects ≤ 65535 }
    ensures { result ≡ next_object state.now }
{
    let rows = state.references.objects.as_slice();
    ObjNo(next_number(state.mode.reuse, rows) as u16)
}

/// Whether no number is left for a new object.
pub fn no_number_left(state: &State) -> bool
    ensures { result ≡ no_number_left state.now }
{
    let rows = state.references.objects.as_slice();
    next_number(state.mode.reuse, rows) == Limits::OBJECTS
}
