//! Moves in the rows of threads that die.
ghost use Rattle.std.specs.Prelude.{◌≡◌};
ghost use Rattle.machine.specs.DeathMoves.{death_thread};

use sym_base::{Exit, ThreadNo};

/// One small change of the row of a thread that dies (Symbian OS Internals, the chapter on threads and processes, on
/// exiting threads). The stages of a death are this project's own.
#[derive(Clone, Copy)]
pub enum DeathMove {
    /// An exit is noted of the thread, which something protects.
    Note(ThreadNo, Exit),
    /// The thread is doomed with this exit, and waits for nothing any more.
    Doom(ThreadNo, Exit),
    /// The thread has given up all that it had.
    Clean(ThreadNo),
    /// The thread's death is finished. Whoever buries it owes the close of the kernel's own reference to it.
    Bury(ThreadNo),
}

impl DeathMove {
    /// The thread whose row changes.
    pub fn thread(self) -> ThreadNo
        ensures { result ≡ death_thread self }
    {
        match self {
            DeathMove::Note(thread, _)
            | DeathMove::Doom(thread, _)
            | DeathMove::Clean(thread)
            | DeathMove::Bury(thread) => thread,
        }
    }
}
