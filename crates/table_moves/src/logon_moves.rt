//! Moves in the lists of logons.
ghost use Rattle.std.specs.Prelude.{◌≡◌, ◌<◌, ◌&&◌, length, map, nat_lt, slice_set};
ghost use Rattle.machine.specs.LogonMoves.{logons_moved, logons_on, without_maker};
ghost use Rattle.table_moves.specs.LogonMoved.{CanDrop, CanLogon};

use cleanup::{Cleanup, Held};
use machine::LogonMove;
use state_rows::STATUSES;
use sym_base::{ObjNo, ThreadNo};

/// Whether the lists are of these threads.
fn are_listed(cleanup: &Cleanup, one: ThreadNo, other: ThreadNo) -> bool
    ensures listed { result ≡ (nat_lt one.0 cleanup.now.threads && nat_lt other.0 cleanup.now.threads) }
    ensures threads { cleanup.now.threads ≡ length cleanup.now.duties }
{
    let threads = cleanup.threads();
    (one.0 as usize) < threads && (other.0 as usize) < threads
}

/// A thread logs on to another.
fn add(cleanup: &mut Cleanup, on: ThreadNo, by: ThreadNo, status: u8)
    requires { CanLogon (LogonMove.Add on by status) (length cleanup.old.duties) cleanup.old.logons }
    ensures { cleanup.new ≡ record cleanup.old { logons = logons_moved (LogonMove.Add on by status) cleanup.old.logons } }
{
    if are_listed(cleanup, on, by) {
        cleanup.push(on, Held::Logon(by, status));
    }
}

/// A logon on a thread goes.
fn remove(cleanup: &mut Cleanup, on: ThreadNo, by: ThreadNo, status: u8)
    requires { CanLogon (LogonMove.Remove on by status) (length cleanup.old.duties) cleanup.old.logons }
    ensures { cleanup.new ≡ record cleanup.old { logons = logons_moved (LogonMove.Remove on by status) cleanup.old.logons } }
{
    if are_listed(cleanup, on, by) {
        cleanup.remove(on, Held::Logon(by, status));
    }
}

/// No logon on a thread is left that another made.
fn drop_on(cleanup: &mut Cleanup, on: ThreadNo, by: ThreadNo)
    requires { CanDrop on by (length cleanup.old.duties) cleanup.old.logons }
    ensures { cleanup.new ≡ record cleanup.old { logons = slice_set cleanup.old.logons on.0 (without_maker by (logons_on cleanup.old.logons on)) } }
{
    if cleanup.first_logon(on).is_none() {
        return;
    }
    for status in 0..STATUSES as u8 {
        remove(cleanup, on, by, status);
    }
}

/// No logon is left that a thread made.
fn drop_by(cleanup: &mut Cleanup, by: ThreadNo)
    requires { CanLogon (LogonMove.Drop by) (length cleanup.old.duties) cleanup.old.logons }
    ensures { cleanup.new ≡ record cleanup.old { logons = map (without_maker by) cleanup.old.logons } }
{
    for on in 0..cleanup.threads() as u16 {
        drop_on(cleanup, ObjNo(on), by);
    }
}

/// One move in the lists.
pub fn move_logon(cleanup: &mut Cleanup, change: LogonMove)
    requires { CanLogon change (length cleanup.old.duties) cleanup.old.logons }
    ensures { cleanup.new ≡ record cleanup.old { logons = logons_moved change cleanup.old.logons } }
{
    match change {
        LogonMove::Add(on, by, status) => add(cleanup, on, by, status),
        LogonMove::Remove(on, by, status) => remove(cleanup, on, by, status),
        LogonMove::Drop(by) => drop_by(cleanup, by),
    }
}
