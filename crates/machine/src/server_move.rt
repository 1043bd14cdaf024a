//! Moves in the rows of servers and sessions.
use sym_base::{ObjNo, Slots, ThreadNo};

/// One small change of what the kernel keeps of servers and sessions (Symbian OS Internals, the chapter on inter-process
/// communication).
#[derive(Clone, Copy)]
pub enum ServerMove {
    /// The object, which is made next, is a server that this thread owns. It isn't closing.
    Start(ObjNo, ThreadNo),
    /// The object, which was just made, is a session of a client with these slots, the last that is linked to a server. It isn't
    /// open yet.
    Join(ObjNo, ObjNo, Slots, ThreadNo),
    /// The server is closing.
    Close(ObjNo),
    /// Each server that the thread owns is closing.
    CloseAll(ThreadNo),
    /// The session is open from now on, or isn't.
    SetOpen(ObjNo, bool),
    /// The server has ended.
    End(ObjNo),
}
