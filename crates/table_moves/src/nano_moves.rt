//! Moves in the table of threads that synchronize.
ghost use Rattle.std.specs.Prelude.{◌≡◌, ◌<◌, length};
ghost use Rattle.machine.specs.NanoMoves.{nano_moved};
ghost use Rattle.state_rows.specs.NanoChanges.{after_leave_all, after_resume_all};
ghost use Rattle.table_moves.specs.NanoMoved.{CanNano};

use machine::NanoMove;
use nano_sync::NanoSync;
use sym_base::ThreadNo;

/// A thread leaves all its critical sections.
fn leave_all(nano: &mut NanoSync, thread: ThreadNo)
    requires { thread.0 < length nano.old.signals }
    ensures { nano.new ≡ after_leave_all nano.old thread }
{
    for _left in 0..nano.critical_count(thread) {
        let _ = nano.leave(thread);
    }
}

/// No suspension of a thread is left.
fn resume_all(nano: &mut NanoSync, thread: ThreadNo)
    requires { thread.0 < length nano.old.signals }
    ensures { nano.new ≡ after_resume_all nano.old thread }
{
    for _left in 0..nano.suspend_count(thread) {
        let _ = nano.resume(thread);
    }
}

/// A thread isn't suspended any more, and wants no fast mutex.
fn release(nano: &mut NanoSync, thread: ThreadNo)
    requires { thread.0 < length nano.old.signals }
    ensures { nano.new ≡ nano_moved (NanoMove.Release thread) nano.old }
{
    resume_all(nano, thread);
    nano.set_want(thread, None);
}

/// A thread takes a free fast mutex, and wants none any more.
fn take(nano: &mut NanoSync, thread: ThreadNo, fast: u8)
    requires { CanNano (NanoMove.Take thread fast) nano.old }
    ensures { nano.new ≡ nano_moved (NanoMove.Take thread fast) nano.old }
{
    let _ = nano.take(thread, fast);
    nano.set_want(thread, None);
}

/// One move in the table.
pub fn move_nano(nano: &mut NanoSync, change: NanoMove)
    requires { CanNano change nano.old }
    ensures { nano.new ≡ nano_moved change nano.old }
{
    match change {
        NanoMove::Take(thread, fast) => take(nano, thread, fast),
        NanoMove::Give(thread, fast) => {
            let _ = nano.give(thread, fast);
        }
        NanoMove::Want(thread, fast) => nano.set_want(thread, fast),
        NanoMove::Enter(thread) => nano.enter(thread),
        NanoMove::Leave(thread) => {
            let _ = nano.leave(thread);
        }
        NanoMove::LeaveAll(thread) => leave_all(nano, thread),
        NanoMove::Suspend(thread) => {
            let _ = nano.suspend(thread);
        }
        NanoMove::Resume(thread) => {
            let _ = nano.resume(thread);
        }
        NanoMove::Release(thread) => release(nano, thread),
        NanoMove::Raise(thread) => nano.signal(thread),
        NanoMove::Lower(thread) => {
            let _ = nano.try_wait(thread);
        }
    }
}
