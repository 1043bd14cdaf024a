//! Rows of servers and sessions.
use sym_base::{Items, ObjNo, Slots, ThreadNo};

/// What is kept of a server.
#[derive(Clone, Copy, Debug, PartialEq, Eq)]
pub struct ServerRow {
    /// The thread that made the server, and that receives its messages. The row says whose it is, also after its end; the list
    /// of what a thread owns has those that haven't ended, in order of making (`AreServers`: `owners` and `once`).
    pub owner: ThreadNo,
    /// Whether its handle was closed or its owner was doomed. A closing server gets no session and accepts
    /// no message.
    pub is_closing: bool,
}

/// How far a session is.
#[derive(Clone, Copy, Debug, PartialEq, Eq)]
pub enum Connection {
    /// It was made, and the message that connects it isn't accepted yet.
    New,
    /// That message was accepted.
    Open,
    /// Its handle was closed, or that message was finished with a failure.
    Closed,
}

/// What is kept of a session.
#[derive(Clone, Copy, Debug, PartialEq, Eq)]
pub struct SessionRow {
    /// The server that the session is linked to, None from when it is detached on.
    pub server: Option<ObjNo>,
    /// How many asynchronous messages it may have outstanding.
    pub slots: Slots,
    /// The thread that made the session.
    pub client: ThreadNo,
    /// Whether the session is to be opened, was opened, or was closed since. Where its server is closing the session
    /// isn't open whatever this says.
    pub connection: Connection,
}

/// What the kernel keeps of servers and sessions (Symbian OS Internals, the chapter on inter-process communication): by
/// object number the row of a server and the row of a session, None where it is no server or no session; and by the number of
/// a server the sessions that are linked to it.
#[derive(Drop)]
pub struct ServerRows {
    pub servers: Items<Option<ServerRow>>,
    /// Each session's own row says which server it is linked to.
    pub sessions: Items<Option<SessionRow>>,
    /// The same links in order of making, in which a server that ends gives them up: whoever stands here has that server in
    /// its row (`AreServers`: `linked`).
    pub linked: Items<Items<ObjNo>>,
}
