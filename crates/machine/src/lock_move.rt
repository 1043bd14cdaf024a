//! Moves in the rows of mutexes and semaphores.
use state_rows::{Locked, Signalled, Unlocked};
use sym_base::{ObjNo, ThreadNo};

/// One small change of what the kernel keeps of mutexes and semaphores (Symbian OS Internals, the chapter on threads
/// and processes). Each has the answer that was decided.
#[derive(Clone, Copy)]
pub enum LockMove {
    /// The object, which was just made, is a semaphore with this count, 0 to 2,147,483,647.
    Start(ObjNo, u32),
    /// The thread locks the mutex: it takes it, and owns it, holds it once more, or stands among its waiters.
    Lock(ObjNo, ThreadNo, Locked),
    /// The thread unlocks the mutex: it holds it once less, or gives it up. Then it owes the close of its ownership, and
    /// where somebody waits, the waiter takes the mutex and owns it.
    Unlock(ObjNo, ThreadNo, Unlocked),
    /// The thread, which owns the mutex, gives it up with all its levels, as with the last level that is unlocked: this
    /// waiter takes it, where there is one.
    Free(ObjNo, ThreadNo, Option<ThreadNo>),
    /// The thread stands among no waiters any more.
    Leave(ThreadNo),
    /// The thread waits on the semaphore: the count falls, or at 0 the thread stands among the waiters.
    WaitOn(ObjNo, ThreadNo),
    /// The semaphore is signalled: its count rises, or a waiter goes on.
    Signal(ObjNo, Signalled),
}
