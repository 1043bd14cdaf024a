//! Burials: the calls of the supervisor's queue that finish the deaths of threads.
ghost use Rattle.std.specs.Prelude.{◌≡◌, ◌<◌, ◌≤◌, Some, IfSome, length, position};
ghost use Rattle.machine.specs.Reaping.{burial_of, threads_before, is_buried_by, buried_by};

use machine::{Role, State, ThreadRow};
use script_types::Script;
use state_rows::{FIRST_BURIAL, Stage};
use sym_base::{ObjNo, ThreadNo};

/// How many threads come before one of this role in order of object number: the supervisor is the first, then come the
/// threads of the queues, and then the declared ones.
fn threads_before(script: &Script, role: Role) -> usize
    ensures number { result ≡ threads_before script.now role }
    ensures few { result < 9223372036854775808 }
{
    match role {
        Role::Supervisor => 0,
        Role::Queue(queue) => queue as usize,
        Role::Declared(number) => 1 + script.queues.as_slice().len() + number as usize,
    }
}

/// The number of the call that buries a thread of this role.
pub fn burial_of(script: &Script, role: Role) -> usize
    ensures { result ≡ burial_of script.now role }
{
    FIRST_BURIAL + threads_before(script, role)
}

/// Whether this is the row of a cleaned thread whose burial a call is.
pub fn is_buried_by(script: &Script, dfc: usize, row: &ThreadRow) -> bool
    ensures { result ≡ is_buried_by script.now dfc (Some row.now) }
{
    burial_of(script, row.role) == dfc && row.stage == Stage::Cleaned
}

/// Whether there is such a row.
fn has_burial(script: &Script, dfc: usize, row: &Option<ThreadRow>) -> bool
    ensures { result ≡ is_buried_by script.now dfc row.now }
{
    match row {
        Some(row) => is_buried_by(script, dfc, row),
        None => false,
    }
}

/// The place of the first such row.
pub fn burial_place(script: &Script, dfc: usize, rows: &[Option<ThreadRow>]) -> Option<usize>
    ensures place { result ≡ position (is_buried_by script.now dfc) rows.now }
    ensures within { IfSome result (λ p. p < length rows.now) }
{
    rows.iter().position(|row| has_burial(script, dfc, row))
}

/// The cleaned thread whose burial a call is.
pub fn buried_by(state: &State, script: &Script, dfc: usize) -> Option<ThreadNo>
    requires { length state.now.references.threads ≤ 65535 }
    ensures { result ≡ buried_by script.now state.now dfc }
{
    let place = burial_place(script, dfc, state.references.threads.as_slice())?;
    Some(ObjNo(place as u16))
}
