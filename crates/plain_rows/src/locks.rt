//! Moves in the rows of mutexes and semaphores, made on the plain machine's lists.
ghost use Rattle.std.specs.Prelude.{◌≡◌, [], ◌∷◌, ◌++◌, IfOk, OnOk, map, slice_set};
ghost use Rattle.state_rows.specs.declared.locks.Locked.TheVariants.{Again};
ghost use Rattle.state_rows.specs.declared.locks.Unlocked.TheVariants.{Level};
ghost use Rattle.machine.specs.Moves.{moved};
ghost use Rattle.machine.specs.LockMoves.{lock_moved, mutexes_moved, owed_moved};
ghost use Rattle.state_rows.specs.Locks.{count_at, waiters_at, without};
ghost use Rattle.state_rows.specs.LockChanges.{after_new_row, after_free, after_lock, after_remove, after_unlock, after_wait, after_signal, after_sweep, owner_after_lock, owner_after_unlock, once, counted};

use crate::lists::{clear_list, push_to, remove_from, unlisted};
use crate::mutexes::{give_up, owe_own, set_holding};
use crate::nano::{one_more, set_count};
use machine::{LockMove, LockRows, Move, Owed, State, row_of, set_row};
use state_rows::{Locked, MAX_COUNT, Owner, Signalled, Unlocked};
use std::alloc::Global;
use sym_base::{Items, NoMemory, ObjNo, ThreadNo};

/// The count of a semaphore.
fn count_at(rows: &LockRows, object: ObjNo) -> u32
    ensures { result ≡ count_at rows.now object }
{
    let counts = rows.counts.as_slice();
    counts.get(object.0 as usize).copied().unwrap_or(0)
}

/// A thread stands last among the waiters of an object.
fn join(rows: &mut LockRows, object: ObjNo, thread: ThreadNo) -> Result<(), NoMemory>
    ensures { OnOk result (rows.new ≡ record rows.old { waiters = slice_set rows.old.waiters object.0 (waiters_at rows.old object ++ thread ∷ []) }) }
{
    push_to(&mut rows.waiters, object, thread)
}

/// A thread doesn't stand among the waiters of an object any more.
fn leave(
    alloc: Global,
    rows: &mut LockRows,
    object: ObjNo,
    thread: ThreadNo,
) -> Result<(), NoMemory>
    ensures { OnOk result (rows.new ≡ record rows.old { waiters = slice_set rows.old.waiters object.0 (without thread (waiters_at rows.old object)) }) }
{
    remove_from(alloc, &mut rows.waiters, object, thread)
}

/// The waiters of each object without a thread.
fn left(
    alloc: Global,
    waiters: &[Items<ThreadNo>],
    thread: ThreadNo,
) -> Result<Items<Items<ThreadNo>>, NoMemory>
    ensures { IfOk result (λ left. left ≡ map (without thread) waiters.now) }
{
    let mut left = Vec::new(alloc);
    for queue in waiters {
        left.push(Items::new(unlisted(alloc, thread, queue.as_slice())?))?;
    }
    Ok(Items::new(left))
}

/// A thread stands among no waiters any more.
fn leave_all(alloc: Global, rows: &mut LockRows, thread: ThreadNo) -> Result<(), NoMemory>
    ensures { OnOk result (rows.new ≡ after_remove rows.old thread) }
{
    rows.waiters = left(alloc, rows.waiters.as_slice(), thread)?;
    Ok(())
}

/// A thread that owns a mutex once.
fn once(thread: ThreadNo) -> Option<Owner>
    ensures { result ≡ once thread }
{
    Some(Owner { thread, level: 1 })
}

/// The owner of a mutex with one level more.
fn again(owner: Option<Owner>) -> Option<Owner>
    ensures { (t : ObjNo) → result ≡ owner_after_lock owner t Again }
{
    let Owner { thread, level } = owner?;
    Some(Owner {
        thread,
        level: one_more(level),
    })
}

/// The owner of a mutex with one level less.
fn less(owner: Option<Owner>) -> Option<Owner>
    ensures { result ≡ owner_after_unlock owner Level }
{
    let Owner { thread, level } = owner?;
    Some(Owner {
        thread,
        level: level.saturating_sub(1),
    })
}

/// A thread locks a mutex, with this answer.
fn lock(
    rows: &mut LockRows,
    object: ObjNo,
    thread: ThreadNo,
    locked: Locked,
) -> Result<(), NoMemory>
    ensures { OnOk result (rows.new ≡ after_lock rows.old object thread locked) }
{
    match locked {
        Locked::Taken => set_row(&mut rows.owners, object, once(thread)),
        Locked::Again => {
            let owner = again(row_of(&rows.owners, object));
            set_row(&mut rows.owners, object, owner);
        }
        Locked::Waits => return join(rows, object, thread),
    }
    Ok(())
}

/// A mutex is unlocked, with this answer.
fn unlock(
    alloc: Global,
    rows: &mut LockRows,
    object: ObjNo,
    unlocked: Unlocked,
) -> Result<(), NoMemory>
    ensures { OnOk result (rows.new ≡ after_unlock rows.old object unlocked) }
{
    match unlocked {
        Unlocked::NotOwner => {}
        Unlocked::Level => {
            let owner = less(row_of(&rows.owners, object));
            set_row(&mut rows.owners, object, owner);
        }
        Unlocked::Freed => set_row(&mut rows.owners, object, None),
        Unlocked::Passed(waiter) => {
            set_row(&mut rows.owners, object, once(waiter));
            return leave(alloc, rows, object, waiter);
        }
    }
    Ok(())
}

/// A mutex goes to this waiter with all its levels, where there is one, and else it is free.
fn free(
    alloc: Global,
    rows: &mut LockRows,
    object: ObjNo,
    best: Option<ThreadNo>,
) -> Result<(), NoMemory>
    ensures { OnOk result (rows.new ≡ after_free rows.old object best) }
{
    match best {
        Some(waiter) => unlock(alloc, rows, object, Unlocked::Passed(waiter)),
        None => unlock(alloc, rows, object, Unlocked::Freed),
    }
}

/// A thread waits on a semaphore.
fn wait_on(rows: &mut LockRows, object: ObjNo, thread: ThreadNo) -> Result<(), NoMemory>
    ensures { OnOk result (rows.new ≡ after_wait rows.old object thread) }
{
    let count = count_at(rows, object);
    if count == 0 {
        return join(rows, object, thread);
    }
    set_count(&mut rows.counts, object, count - 1);
    Ok(())
}

/// A count that rises. At the greatest it stays.
fn counted(count: u32) -> u32
    ensures { result ≡ counted count }
{
    if count < MAX_COUNT { count + 1 } else { count }
}

/// A semaphore is signalled, with this answer.
fn signal(
    alloc: Global,
    rows: &mut LockRows,
    object: ObjNo,
    signalled: Signalled,
) -> Result<(), NoMemory>
    ensures { OnOk result (rows.new ≡ after_signal rows.old object signalled) }
{
    match signalled {
        Signalled::Overflow => {}
        Signalled::Counted => {
            let count = counted(count_at(rows, object));
            set_count(&mut rows.counts, object, count);
        }
        Signalled::Woke(waiter) => return leave(alloc, rows, object, waiter),
    }
    Ok(())
}

/// The rows of mutexes and semaphores after a move.
fn move_rows(alloc: Global, rows: &mut LockRows, change: LockMove) -> Result<(), NoMemory>
    ensures { OnOk result (rows.new ≡ lock_moved change rows.old) }
{
    match change {
        LockMove::Start(object, count) => set_count(&mut rows.counts, object, count),
        LockMove::Lock(object, thread, locked) => return lock(rows, object, thread, locked),
        LockMove::Unlock(object, _, unlocked) => return unlock(alloc, rows, object, unlocked),
        LockMove::Free(object, _, best) => return free(alloc, rows, object, best),
        LockMove::Leave(thread) => return leave_all(alloc, rows, thread),
        LockMove::WaitOn(object, thread) => return wait_on(rows, object, thread),
        LockMove::Signal(object, signalled) => return signal(alloc, rows, object, signalled),
    }
    Ok(())
}

/// The mutexes that threads hold after a move.
fn move_mutexes(
    alloc: Global,
    mutexes: &mut Items<Items<ObjNo>>,
    change: LockMove,
) -> Result<(), NoMemory>
    ensures { OnOk result (mutexes.new ≡ mutexes_moved change mutexes.old) }
{
    match change {
        LockMove::Lock(object, thread, Locked::Taken) => set_holding(mutexes, thread, object),
        LockMove::Unlock(object, thread, Unlocked::Freed) => {
            give_up(alloc, mutexes, thread, object, None)
        }
        LockMove::Unlock(object, thread, Unlocked::Passed(waiter)) => {
            give_up(alloc, mutexes, thread, object, Some(waiter))
        }
        LockMove::Free(object, thread, best) => give_up(alloc, mutexes, thread, object, best),
        _ => Ok(()),
    }
}

/// What threads owe after a move.
fn move_owed(owed: &mut Items<Items<Owed>>, change: LockMove) -> Result<(), NoMemory>
    ensures { OnOk result (owed.new ≡ owed_moved change owed.old) }
{
    match change {
        LockMove::Unlock(object, thread, Unlocked::Freed | Unlocked::Passed(_))
        | LockMove::Free(object, thread, _) => owe_own(owed, thread, object),
        _ => Ok(()),
    }
}

/// One move in the rows of mutexes and semaphores.
pub fn make_lock_move(
    alloc: Global,
    state: &mut State,
    thread: ThreadNo,
    change: LockMove,
) -> Result<(), NoMemory>
    ensures { OnOk result (state.new ≡ moved thread (Move.Locks change) state.old) }
{
    move_rows(alloc, &mut state.synchronization.locks, change)?;
    move_mutexes(alloc, &mut state.synchronization.mutexes, change)?;
    move_owed(&mut state.references.owed, change)
}

/// Nobody owns a swept object or waits for it, and its count is 0.
pub fn locks_swept(alloc: Global, rows: &mut LockRows, object: ObjNo)
    ensures { rows.new ≡ after_sweep rows.old object }
{
    set_row(&mut rows.owners, object, None);
    set_count(&mut rows.counts, object, 0);
    clear_list(alloc, &mut rows.waiters, object);
}
