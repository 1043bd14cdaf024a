//! References that are given up, and what their threads pay for them.
ghost use Rattle.std.specs.Prelude.{◌≡◌, ◌+◌, ◌<◌, ◌≤◌, None, length, slice_set};
ghost use Rattle.std.specs.List.{slice_index_or};
ghost use Rattle.sym_base.specs.declared.number.ObjNo.{ObjNo};
ghost use Rattle.sym_base.specs.declared.limits.TheConstants.Limits.{BOOT_OBJECTS};
ghost use Rattle.machine.specs.Moves.{link_of, link_of_row};
ghost use Rattle.cleanup.specs.Lists.{list_of};
ghost use Rattle.kern_sync.specs.KernelLocks.{after_priority, with_rows};
ghost use Rattle.state_rows.specs.LockChanges.{after_sweep as locks_swept};
ghost use Rattle.state_rows.specs.ServerChanges.{IsAlone, after_sweep as servers_swept};
ghost use Rattle.readings.specs.Dying.{dead_by};
ghost use Rattle.table_moves.specs.ObjectsView.{IsHeld};
ghost use Rattle.table_moves.specs.ThreadRows.{with_threads};
ghost use Rattle.kernel_tables.specs.Choosing.{MayClose, closing_bit, mode_after};
ghost use Rattle.kernel_tables.specs.Moved.{CanMove, IsMoved, IsClosed, chosen_state, dead_of};
ghost use Rattle.kernel_tables.specs.Noted.{AreKept, TiedTables};
ghost use Rattle.kernel_tables.specs.StateOf.{state_of};

use crate::handle_moves::lose_slot;
use crate::tables::Tables;
use entry_log::Holder;
use kern_sync::KernSync;
use machine::{Mode, Move, Owed};
use procs::Procs;
use ref_words::{Closed, RefWords};
use server_table::ServerTable;
use sym_base::{Limits, ObjNo, ThreadNo};
use table_moves::{
    drop_first_owed, note_lost, owe_close, owned_lose, server_of, servers_closed, servers_lose,
    threads_closed, threads_lose,
};

/// The object, where a close of it was the last.
fn dead_of(last: bool, object: ObjNo) -> Option<ObjNo>
    ensures { result ≡ dead_of last object }
{
    if last { Some(object) } else { None }
}

/// A last close leaves nothing to choose.
fn choose(mode: &mut Mode, last: bool)
    ensures mode { (o : ObjNo) → mode.new ≡ mode_after (dead_of last o) mode.old }
    ensures shared { mode.new ≡ record mode.old { keep = mode.new.keep } }
{
    if last {
        mode.keep = false;
    }
}

/// A reference to an object with this link of its own goes. With the last one the object dies, and the thread owes the close of the
/// link, and then the sweep. It answers whether it was the last.
#[inline(always)]
fn close<W: RefWords + Drop>(
    tables: &mut Tables<W>,
    thread: ThreadNo,
    object: ObjNo,
    link: Option<ObjNo>,
) -> bool
    requires held { IsHeld tables.old.objects object }
    requires places { length (list_of tables.old.cleanup.duties thread) + 2 ≤ 16 }
    requires tied { TiedTables tables.old }
    ensures { IsClosed thread object link result tables.old tables.new }
{
    let last = tables.objects.close_ref(object) == Closed::Last;
    threads_closed(&mut tables.procs, last, object);
    servers_closed(&mut tables.servers, last, object);
    owe_close(&mut tables.cleanup, thread, last, object, link);
    choose(&mut tables.mode, last);
    last
}

/// A holder gives its reference up, and the thread owes what a last one leaves to do. An object that died of it is answered.
pub fn lose<W: RefWords + Drop>(
    tables: &mut Tables<W>,
    thread: ThreadNo,
    holder: Holder,
    object: ObjNo,
) -> Option<ObjNo>
    requires can { CanMove thread (Move.Lose holder object) (state_of tables.old) }
    requires kept { AreKept tables.old }
    requires may { MayClose tables.old.objects.notes (state_of tables.old) }
    ensures moved { IsMoved thread (Move.Lose holder object) tables.old tables.new }
    ensures dead { result ≡ dead_by (Move.Lose holder object) (chosen_state tables.old tables.new) }
{
    let link = link_of(tables, object);
    lose_slot(&mut tables.handles, holder);
    note_lost(&mut tables.cleanup, &tables.procs, holder);
    owned_lose(&mut tables.cleanup, holder, object);
    threads_lose(&mut tables.procs, holder);
    servers_lose(&mut tables.servers, holder);
    let last = close(tables, thread, object, link);
    dead_of(last, object)
}

/// A thread's link to its process.
fn process_link(procs: &Procs, thread: ThreadNo) -> Option<ObjNo>
    ensures { result ≡ link_of_row (slice_index_or procs.now.threads thread.0 None) }
{
    procs.thread(thread)?.link
}

/// An object's own reference: a thread's link to its process, or a session's to its server.
fn link_of<W: RefWords + Drop>(tables: &Tables<W>, object: ObjNo) -> Option<ObjNo>
    ensures { result ≡ link_of (state_of tables.now) object }
{
    match process_link(&tables.procs, object) {
        Some(process) => Some(process),
        None => server_of(&tables.servers, object),
    }
}

/// The thread pays a close that it owes. An object that died of it is answered.
fn pay_close<W: RefWords + Drop>(
    tables: &mut Tables<W>,
    thread: ThreadNo,
    holder: Holder,
    object: ObjNo,
) -> Option<ObjNo>
    requires can { CanMove thread (Move.Pay (Owed.Close holder object)) (state_of tables.old) }
    requires kept { AreKept tables.old }
    requires may { MayClose tables.old.objects.notes (state_of tables.old) }
    ensures moved { IsMoved thread (Move.Pay (Owed.Close holder object)) tables.old tables.new }
    ensures dead { result ≡ dead_by (Move.Pay (Owed.Close holder object)) (chosen_state tables.old tables.new) }
{
    let link = link_of(tables, object);
    drop_first_owed(&mut tables.cleanup, thread);
    let last = close(tables, thread, object, link);
    dead_of(last, object)
}

/// The row of a swept thread goes, and its priority among waiters.
fn sweep_row(procs: &mut Procs, locks: &mut KernSync, object: ObjNo)
    requires { length locks.old.priorities ≡ BOOT_OBJECTS }
    ensures rows { procs.new ≡ with_threads procs.old (slice_set procs.old.threads object.0 None) }
    ensures priorities { locks.new ≡ after_priority locks.old object 0 }
{
    procs.remove_thread(object);
    if (object.0 as usize) < Limits::BOOT_OBJECTS {
        locks.set_priority(object, 0);
    }
}

/// What stands under a swept number of locks, servers and sessions goes.
fn sweep_services(locks: &mut KernSync, servers: &mut ServerTable, object: ObjNo)
    requires locks { object.0 < length locks.old.rows.owners }
    requires servers { object.0 < length servers.old.servers }
    requires alone { IsAlone servers.old object }
    ensures locks { locks.new ≡ with_rows locks.old (locks_swept locks.old.rows object) }
    ensures servers { servers.new ≡ servers_swept servers.old object }
{
    locks.sweep(object);
    servers.sweep(object);
}

/// The thread removes all rows of a dead object.
fn pay_sweep<W: RefWords + Drop>(tables: &mut Tables<W>, thread: ThreadNo, object: ObjNo)
    requires can { CanMove thread (Move.Pay (Owed.Sweep object)) (state_of tables.old) }
    requires tied { TiedTables tables.old }
    ensures { IsMoved thread (Move.Pay (Owed.Sweep object)) tables.old tables.new }
{
    tables.objects.sweep(object);
    sweep_row(&mut tables.procs, &mut tables.locks, object);
    sweep_services(&mut tables.locks, &mut tables.servers, object);
    drop_first_owed(&mut tables.cleanup, thread);
}

/// The thread pays the oldest of what it owes. An object that died of it is answered.
pub fn pay<W: RefWords + Drop>(
    tables: &mut Tables<W>,
    thread: ThreadNo,
    what: Owed,
) -> Option<ObjNo>
    requires can { CanMove thread (Move.Pay what) (state_of tables.old) }
    requires kept { AreKept tables.old }
    requires may { closing_bit (Move.Pay what) ≡ 1 → MayClose tables.old.objects.notes (state_of tables.old) }
    ensures moved { IsMoved thread (Move.Pay what) tables.old tables.new }
    ensures dead { result ≡ dead_by (Move.Pay what) (chosen_state tables.old tables.new) }
{
    match what {
        Owed::Close(holder, object) => pay_close(tables, thread, holder, object),
        Owed::Sweep(object) => {
            pay_sweep(tables, thread, object);
            None
        }
    }
}
