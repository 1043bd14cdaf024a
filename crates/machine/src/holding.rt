//! What a doomed thread still has.
use entry_log::Holder;
use sym_base::{MsgNo, ObjNo, ThreadNo};

/// One thing that a doomed thread still has beside what it owes, and gives up by an action of its own. A live thread gives up what
/// it has of its closing servers alone. The order in which this happens is this project's own rule.
#[derive(Clone, Copy)]
pub enum Holding {
    /// A mutex that it holds, with all its levels.
    Mutex(ObjNo),
    /// A message of a closing server.
    Message(MsgNo),
    /// A session that is linked to a closing server, and the server.
    Link(ObjNo, ObjNo),
    /// A closing server, of which no message and no link is left.
    Server(ObjNo),
    /// The object that its present call uses.
    Use(ObjNo),
    /// A handle of its own table, or of its process's, and the object.
    Handle(Holder, ObjNo),
    /// A logon on it: the thread that made it, and its status.
    Logon(ThreadNo, u8),
}
