//! Moves in the rows of threads that synchronize, made on the plain machine's lists.
ghost use Rattle.std.specs.Prelude.{◌≡◌, None, slice_set};
ghost use Rattle.readings.specs.Readable.{AreSmallRows};
ghost use Rattle.machine.specs.NanoMoves.{nano_moved};
ghost use Rattle.state_rows.specs.NanoChanges.{one_more, after_take, after_give, after_want, after_enter, after_leave, after_leave_all, after_suspend, after_resume, after_resume_all, after_signal, after_wait};

use machine::{
    NanoMove, NanoRows, critical_count, is_thread, mutex_holder, set_row, signal_count,
    suspend_count,
};
use sym_base::{Items, ObjNo, ThreadNo};

/// The greatest suspend count.
const MAX_SUSPENSIONS: u8 = 127;

/// Puts another count for a thread.
pub fn set_count<T: Copy>(counts: &mut Items<T>, thread: ThreadNo, count: T)
    ensures { counts.new ≡ slice_set counts.old thread.0 count }
{
    let at = thread.0 as usize;
    if at < counts.len() {
        counts.set(at, count);
    }
}

/// A count that rises. At its end it stays.
pub fn one_more(count: u64) -> u64
    ensures { result ≡ one_more count }
{
    count.saturating_add(1)
}

/// The thread takes a free fast mutex, and wants none any more.
fn take(rows: &mut NanoRows, thread: ThreadNo, fast: u8)
    ensures { rows.new ≡ after_want (after_take rows.old thread fast) thread None }
{
    if mutex_holder(rows, fast).is_none() {
        set_row(&mut rows.holders, ObjNo(fast as u16), Some(thread));
    }
    set_row(&mut rows.wants, thread, None);
}

/// The thread gives the fast mutex up that it holds.
fn give(rows: &mut NanoRows, thread: ThreadNo, fast: u8)
    ensures { rows.new ≡ after_give rows.old thread fast }
{
    if is_thread(thread, mutex_holder(rows, fast)) {
        set_row(&mut rows.holders, ObjNo(fast as u16), None);
    }
}

/// The thread wants this fast mutex, or none.
fn want(rows: &mut NanoRows, thread: ThreadNo, fast: Option<u8>)
    ensures { rows.new ≡ after_want rows.old thread fast }
{
    set_row(&mut rows.wants, thread, fast);
}

/// The thread is in one critical section more.
fn enter(rows: &mut NanoRows, thread: ThreadNo)
    ensures { rows.new ≡ after_enter rows.old thread }
{
    let count = one_more(critical_count(rows, thread));
    set_count(&mut rows.sections, thread, count);
}

/// The thread is in one critical section less.
fn leave(rows: &mut NanoRows, thread: ThreadNo)
    ensures { rows.new ≡ after_leave rows.old thread }
{
    let count = critical_count(rows, thread).saturating_sub(1);
    set_count(&mut rows.sections, thread, count);
}

/// The thread is in no critical section.
fn leave_all(rows: &mut NanoRows, thread: ThreadNo)
    ensures { rows.new ≡ after_leave_all rows.old thread }
{
    set_count(&mut rows.sections, thread, 0);
}

/// One suspension more of the thread, unless there are as many as there may be.
fn suspend(rows: &mut NanoRows, thread: ThreadNo)
    requires { AreSmallRows rows.old }
    ensures { rows.new ≡ after_suspend rows.old thread }
{
    let count = suspend_count(rows, thread);
    if count != MAX_SUSPENSIONS {
        set_count(&mut rows.suspensions, thread, count + 1);
    }
}

/// One suspension less of the thread.
fn resume(rows: &mut NanoRows, thread: ThreadNo)
    ensures { rows.new ≡ after_resume rows.old thread }
{
    let count = suspend_count(rows, thread).saturating_sub(1);
    set_count(&mut rows.suspensions, thread, count);
}

/// The thread isn't suspended any more, and wants no fast mutex.
fn release(rows: &mut NanoRows, thread: ThreadNo)
    ensures { rows.new ≡ after_want (after_resume_all rows.old thread) thread None }
{
    set_count(&mut rows.suspensions, thread, 0);
    set_row(&mut rows.wants, thread, None);
}

/// The thread's fast semaphore gets a signal.
fn raise(rows: &mut NanoRows, thread: ThreadNo)
    ensures { rows.new ≡ after_signal rows.old thread }
{
    let count = one_more(signal_count(rows, thread));
    set_count(&mut rows.signals, thread, count);
}

/// The thread takes a signal from its fast semaphore.
fn lower(rows: &mut NanoRows, thread: ThreadNo)
    ensures { rows.new ≡ after_wait rows.old thread }
{
    let count = signal_count(rows, thread).saturating_sub(1);
    set_count(&mut rows.signals, thread, count);
}

/// One move in the rows of threads that synchronize.
pub fn make_nano_move(rows: &mut NanoRows, change: NanoMove)
    requires { AreSmallRows rows.old }
    ensures { rows.new ≡ nano_moved change rows.old }
{
    match change {
        NanoMove::Take(thread, fast) => take(rows, thread, fast),
        NanoMove::Give(thread, fast) => give(rows, thread, fast),
        NanoMove::Want(thread, fast) => want(rows, thread, fast),
        NanoMove::Enter(thread) => enter(rows, thread),
        NanoMove::Leave(thread) => leave(rows, thread),
        NanoMove::LeaveAll(thread) => leave_all(rows, thread),
        NanoMove::Suspend(thread) => suspend(rows, thread),
        NanoMove::Resume(thread) => resume(rows, thread),
        NanoMove::Release(thread) => release(rows, thread),
        NanoMove::Raise(thread) => raise(rows, thread),
        NanoMove::Lower(thread) => lower(rows, thread),
    }
}
