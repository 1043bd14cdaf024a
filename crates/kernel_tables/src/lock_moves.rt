//! Moves in the table of mutexes and semaphores.
ghost use Rattle.std.specs.Prelude.{◌≡◌, ◌+◌, ◌<◌, ◌≤◌, ◌∷◌, [], length, slice_index, slice_set};
ghost use Rattle.sym_base.specs.declared.number.ObjNo.{ObjNo};
ghost use Rattle.entry_log.specs.declared.effect.Holder.TheVariants as holder;
ghost use Rattle.state_rows.specs.declared.duty.Owed.TheVariants as owed;
ghost use Rattle.machine.specs.LockMoves.{holding, not_holding};
ghost use Rattle.cleanup.specs.Lists.{HasSome, is_object, list_of};
ghost use Rattle.machine.specs.declared.lock_move.LockMove.{LockMove};
ghost use Rattle.machine.specs.declared.moves.Move.TheVariants as Move;
ghost use Rattle.machine.specs.Rows.{owing};
ghost use Rattle.kernel_tables.specs.LockMoved.{CanLock};
ghost use Rattle.kernel_tables.specs.Moved.{IsMoved};
ghost use Rattle.kernel_tables.specs.Noted.{AreKept};
ghost use Rattle.table_moves.specs.ObjectsView.{IsHeld};
ghost use Rattle.kernel_tables.specs.StateOf.{state_of};

use crate::tables::Tables;
use cleanup::{Cleanup, Held};
use entry_log::Holder;
use machine::{LockMove, Owed};
use ref_words::RefWords;
use state_rows::{Locked, Unlocked};
use sym_base::{ObjNo, ThreadNo};
use table_moves::{ObjectTable, owe};

/// A thread holds a mutex that nobody holds.
fn hold(cleanup: &mut Cleanup, thread: ThreadNo, mutex: ObjNo)
    requires thread { thread.0 < length cleanup.old.duties }
    requires object { mutex.0 < cleanup.old.objects }
    requires free { HasSome (is_object mutex) cleanup.old.mutexes → ⊥ }
    ensures { cleanup.new ≡ record cleanup.old { mutexes = holding cleanup.old.mutexes thread mutex } }
{
    if (thread.0 as usize) < cleanup.threads() {
        cleanup.push(thread, Held::Mutex(mutex));
    }
}

/// A thread takes a mutex, and owns it.
fn take<W: RefWords + Drop>(
    cleanup: &mut Cleanup,
    objects: &mut ObjectTable<W>,
    thread: ThreadNo,
    mutex: ObjNo,
)
    requires thread { thread.0 < length cleanup.old.duties }
    requires object { mutex.0 < cleanup.old.objects }
    requires free { HasSome (is_object mutex) cleanup.old.mutexes → ⊥ }
    requires held { IsHeld objects.old mutex }
    ensures lists { cleanup.new ≡ record cleanup.old { mutexes = holding cleanup.old.mutexes thread mutex } }
    ensures rows { objects.new.rows ≡ objects.old.rows }
    ensures counts { objects.new.counts ≡ slice_set objects.old.counts mutex.0 (slice_index objects.old.counts mutex.0 + 1) }
    ensures notes { objects.new.notes ≡ objects.old.notes }
    ensures makings { objects.new.made ≡ objects.old.made }
    ensures mode { objects.new.reuse ≡ objects.old.reuse }
{
    hold(cleanup, thread, mutex);
    objects.add_ref(mutex);
}

/// A thread gives a mutex up, and owes the close of its ownership.
fn give(cleanup: &mut Cleanup, thread: ThreadNo, mutex: ObjNo)
    requires thread { thread.0 < length cleanup.old.duties }
    requires object { mutex.0 < cleanup.old.objects }
    requires places { length (list_of cleanup.old.duties thread) + 1 ≤ 16 }
    ensures { cleanup.new ≡ record cleanup.old { mutexes = not_holding cleanup.old.mutexes thread mutex; duties = owing cleanup.old.duties thread (owed.Close (holder.Own thread) mutex ∷ []) } }
{
    if (thread.0 as usize) < cleanup.threads() {
        cleanup.remove(thread, Held::Mutex(mutex));
    }
    let close = Owed::Close(Holder::Own(thread), mutex);
    owe(cleanup, thread, close);
}

/// A thread locks a mutex.
fn lock<W: RefWords + Drop>(tables: &mut Tables<W>, mutex: ObjNo, thread: ThreadNo, locked: Locked)
    requires can { CanLock (LockMove.Lock mutex thread locked) (state_of tables.old) }
    requires kept { AreKept tables.old }
    ensures { (t : ObjNo) → IsMoved t (Move.Locks (LockMove.Lock mutex thread locked)) tables.old tables.new }
{
    if tables.locks.lock(mutex, thread) == Locked::Taken {
        take(&mut tables.cleanup, &mut tables.objects, thread, mutex);
    }
}

/// A thread unlocks a mutex.
fn unlock<W: RefWords + Drop>(
    tables: &mut Tables<W>,
    mutex: ObjNo,
    thread: ThreadNo,
    unlocked: Unlocked,
)
    requires can { CanLock (LockMove.Unlock mutex thread unlocked) (state_of tables.old) }
    requires kept { AreKept tables.old }
    ensures { (t : ObjNo) → IsMoved t (Move.Locks (LockMove.Unlock mutex thread unlocked)) tables.old tables.new }
{
    match tables.locks.unlock(mutex, thread) {
        Unlocked::Freed => give(&mut tables.cleanup, thread, mutex),
        Unlocked::Passed(waiter) => {
            give(&mut tables.cleanup, thread, mutex);
            take(&mut tables.cleanup, &mut tables.objects, waiter, mutex);
        }
        Unlocked::Level | Unlocked::NotOwner => {}
    }
}

/// A thread gives a mutex up with all its levels.
fn free<W: RefWords + Drop>(
    tables: &mut Tables<W>,
    mutex: ObjNo,
    thread: ThreadNo,
    best: Option<ThreadNo>,
)
    requires can { CanLock (LockMove.Free mutex thread best) (state_of tables.old) }
    requires kept { AreKept tables.old }
    ensures { (t : ObjNo) → IsMoved t (Move.Locks (LockMove.Free mutex thread best)) tables.old tables.new }
{
    match tables.locks.free(mutex) {
        None => give(&mut tables.cleanup, thread, mutex),
        Some(next) => {
            give(&mut tables.cleanup, thread, mutex);
            take(&mut tables.cleanup, &mut tables.objects, next, mutex);
        }
    }
}

/// One move in the table.
pub fn move_lock<W: RefWords + Drop>(tables: &mut Tables<W>, change: LockMove)
    requires can { CanLock change (state_of tables.old) }
    requires kept { AreKept tables.old }
    ensures { (t : ObjNo) → IsMoved t (Move.Locks change) tables.old tables.new }
{
    match change {
        LockMove::Start(semaphore, count) => {
            tables.locks.new_row(semaphore, Some(count as i32));
        }
        LockMove::Lock(mutex, thread, locked) => lock(tables, mutex, thread, locked),
        LockMove::Unlock(mutex, thread, unlocked) => unlock(tables, mutex, thread, unlocked),
        LockMove::Free(mutex, thread, best) => free(tables, mutex, thread, best),
        LockMove::Leave(thread) => tables.locks.remove_waiter(thread),
        LockMove::WaitOn(semaphore, thread) => {
            let _ = tables.locks.sem_wait(semaphore, thread);
        }
        LockMove::Signal(semaphore, _) => {
            let _ = tables.locks.sem_signal(semaphore);
        }
    }
}
