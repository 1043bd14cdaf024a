//! Rows of kernel mutexes and semaphores, and what their calls answer.
use sym_base::{Items, ThreadNo};

/// The greatest count of a semaphore. This project's own limit.
pub const MAX_COUNT: u32 = 2_147_483_647;

/// The owner of a mutex: the thread, and how often it holds the mutex, 1 or more.
#[derive(Clone, Copy, Debug, PartialEq, Eq)]
pub struct Owner {
    pub thread: ThreadNo,
    pub level: u64,
}

/// What the kernel keeps of mutexes and semaphores (Symbian OS Internals, the chapter on threads and processes), by
/// object number: the owner of a mutex, the count of a semaphore, and the threads that wait for either.
#[derive(Drop)]
pub struct LockRows {
    /// Whose each mutex is. The lists of what threads hold have the order of taking beside it (`AreLocks`: `owned` and
    /// `held`).
    pub owners: Items<Option<Owner>>,
    pub counts: Items<u32>,
    /// In order of waiting. That a thread waits is said by its own row: whoever stands here waits for the object by its row
    /// (`AreLocks`: `waiters`).
    pub waiters: Items<Items<ThreadNo>>,
}

/// What locking a mutex answers.
#[derive(Clone, Copy, Debug, PartialEq, Eq)]
pub enum Locked {
    /// The mutex was free, and the thread owns it now.
    Taken,
    /// The thread owned it already, and holds it once more.
    Again,
    /// Another thread owns it, and the thread waits.
    Waits,
}

/// What unlocking a mutex answers.
#[derive(Clone, Copy, Debug, PartialEq, Eq)]
pub enum Unlocked {
    /// The thread holds the mutex once less, and owns it still.
    Level,
    /// Nobody waits, and the mutex is free.
    Freed,
    /// A waiter owns the mutex now.
    Passed(ThreadNo),
    /// The thread doesn't own the mutex.
    NotOwner,
}

/// What signalling a semaphore answers.
#[derive(Clone, Copy, Debug, PartialEq, Eq)]
pub enum Signalled {
    /// Nobody waits, and the count is one more.
    Counted,
    /// A waiter goes on, and the count stays.
    Woke(ThreadNo),
    /// Nobody waits, and the count is the greatest already: `MAX_COUNT`.
    Overflow,
}
