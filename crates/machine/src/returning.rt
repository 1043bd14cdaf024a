//! Who is out.
ghost use Rattle.std.specs.Prelude.{◌≡◌, nat_lt};
ghost use Rattle.machine.specs.Out.{is_returning, seeks, outs_of};
ghost use Rattle.std.specs.List.{list_any};

use crate::rows::object_of;
use crate::{State, ThreadRow};
use entry_log::Part;
use state_rows::place_of;
use sym_base::ObjNo;

/// Whether a thread is between a find and its return.
pub fn is_returning(part: Option<Part>) -> bool
    ensures { result ≡ is_returning part }
{
    matches!(part, Some(Part::Return))
}

/// Whether a thread found an object of this number and place and hasn't come back yet.
fn seeks(object: ObjNo, place: u64, row: &Option<ThreadRow>) -> bool
    ensures { result ≡ nat_lt 0 (seeks object place row.now) }
{
    match row {
        Some(row) => {
            is_returning(row.part) && row.sought_place == place && row.sought.0 == object.0
        }
        None => false,
    }
}

/// Whether one of these threads found such an object and hasn't come back yet.
fn is_sought_by(object: ObjNo, place: u64, threads: &[Option<ThreadRow>]) -> bool
    ensures { result ≡ list_any (λ row. nat_lt 0 (seeks object place row)) threads.now }
{
    threads.iter().any(|row| seeks(object, place, row))
}

/// Whether somebody is out on an object.
pub fn is_sought(state: &State, object: ObjNo) -> bool
    ensures { result ≡ nat_lt 0 (outs_of state.now object) }
{
    let place = place_of(&object_of(state, object));
    state.mode.shared && is_sought_by(object, place, state.references.threads.as_slice())
}
