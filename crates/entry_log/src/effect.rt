//! What an atomic action does to references, messages, locks and threads.
use sym_base::{MsgNo, ObjNo, ThreadNo};

/// Who holds a reference to an object. A pair of holder and object exists at most once.
/// That references have holders is from the book's account of access counts; the texts are this
/// project's own.
#[derive(Clone, Copy)]
pub enum Holder {
    /// The handle at an index, 0 to 255, of a process's table.
    InProcess(ObjNo, u8),
    /// The handle at an index, 0 to 255, of a thread's table.
    InThread(ThreadNo, u8),
    /// A thread's call in flight.
    Temp(ThreadNo),
    /// A thread that holds this mutex or owns this server.
    Own(ThreadNo),
    /// An object: a thread's link to its process, a session's to its server.
    Link(ObjNo),
    /// A message, which refers to its session and to its client thread.
    Message(MsgNo),
    /// The kernel itself, which holds each thread.
    Kernel,
}

/// A request status of a thread: one of its own, 0 to 15, or that of a synchronous message.
#[derive(Clone, Copy)]
pub enum StatusNo {
    Async(u8),
    Sync,
}

/// A lock: a kernel mutex by its object, or a fast mutex by its number, 0 to 15.
#[derive(Clone, Copy)]
pub enum LockNo {
    Object(ObjNo),
    Fast(u8),
}

/// One effect of an atomic action. An entry has at most four.
#[derive(Clone, Copy)]
pub enum Effect {
    /// A holder gets a reference to an object.
    Plus(Holder, ObjNo),
    /// A holder gives its reference up.
    Minus(Holder, ObjNo),
    /// The object's last reference went.
    Dead(ObjNo),
    /// A dead object's row went, and its name is free again.
    Swept(ObjNo),
    /// A thread found this object by name.
    Seek(ObjNo),
    /// A thread came to open the object that it had found, and it was dead.
    Missed(ObjNo),
    /// A message was accepted.
    Accept(MsgNo),
    /// A message was finished with this code.
    Finish(MsgNo, i32),
    /// A thread's status was completed with this code.
    Signal(ThreadNo, StatusNo, i32),
    /// A thread took a lock.
    Take(ThreadNo, LockNo),
    /// A thread gave a lock up.
    Give(ThreadNo, LockNo),
    /// A server ended.
    Terminated(ObjNo),
    /// A thread is doomed.
    Doom(ThreadNo),
    /// A thread's death is finished.
    Bury(ThreadNo),
}

impl Default for Effect {
    /// Some effect: only the unused places of `Effects` hold it.
    fn default() -> Self {
        Effect::Plus(Holder::InProcess(ObjNo(0), 0), ObjNo(0))
    }
}
