//! What a thread owes, and what it has that its death gives up.
use entry_log::Holder;
use sym_base::{ObjNo, ThreadNo};

/// What a thread owes: it does this before anything else, one item an action, the oldest first. That closes and
/// sweeps are actions of their own is this project's own rule.
#[derive(Clone, Copy)]
pub enum Owed {
    /// To give up the holder's reference to the object.
    Close(Holder, ObjNo),
    /// To remove the row of a dead object.
    Sweep(ObjNo),
}

/// What a thread has beside its duties and its handles (the book's cleanup queue of a thread, in outline).
#[derive(Clone, Copy)]
pub enum Held {
    /// A kernel mutex that it holds.
    Mutex(ObjNo),
    /// A server that it owns.
    Server(ObjNo),
    /// The object that its present call uses.
    Temp(ObjNo),
    /// A logon on it: whom its death signals, and that thread's status, 0 to 15.
    Logon(ThreadNo, u8),
}
