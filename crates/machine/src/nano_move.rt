//! Moves in the rows of threads that synchronize.
ghost use Rattle.std.specs.Prelude.{◌≡◌};
ghost use Rattle.machine.specs.NanoMoves.{nano_thread};

use sym_base::ThreadNo;

/// One small change of what the nanokernel keeps of threads that synchronize (Symbian OS Internals, the chapter on
/// threads and processes).
#[derive(Clone, Copy)]
pub enum NanoMove {
    /// The thread takes a free fast mutex, and wants none any more.
    Take(ThreadNo, u8),
    /// The thread gives the fast mutex up that it holds.
    Give(ThreadNo, u8),
    /// The thread wants this fast mutex, or none.
    Want(ThreadNo, Option<u8>),
    /// The thread enters a critical section.
    Enter(ThreadNo),
    /// The thread leaves a critical section.
    Leave(ThreadNo),
    /// The thread leaves all its critical sections.
    LeaveAll(ThreadNo),
    /// The thread is suspended once more.
    Suspend(ThreadNo),
    /// One suspension of the thread is taken back.
    Resume(ThreadNo),
    /// The thread isn't suspended any more, and wants no fast mutex.
    Release(ThreadNo),
    /// The thread's fast semaphore gets a signal.
    Raise(ThreadNo),
    /// The thread takes a signal from its fast semaphore.
    Lower(ThreadNo),
}

impl NanoMove {
    /// The thread whose rows change.
    pub fn thread(self) -> ThreadNo
        ensures { result ≡ nano_thread self }
    {
        match self {
            NanoMove::Take(thread, _)
            | NanoMove::Give(thread, _)
            | NanoMove::Want(thread, _)
            | NanoMove::Enter(thread)
            | NanoMove::Leave(thread)
            | NanoMove::LeaveAll(thread)
            | NanoMove::Suspend(thread)
            | NanoMove::Resume(thread)
            | NanoMove::Release(thread)
            | NanoMove::Raise(thread)
            | NanoMove::Lower(thread) => thread,
        }
    }
}
