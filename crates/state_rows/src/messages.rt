//! Rows of messages.
ghost use Rattle.std.specs.Prelude.{◌≡◌};
ghost use Rattle.state_rows.specs.MessageRows.{is_async, takes_slot};

use sym_base::{Arg, Items, MsgNo, ObjNo, Slots, ThreadNo};

/// How a message was sent, and so how its client learns that it is finished.
#[derive(Clone, Copy, Debug, PartialEq, Eq)]
pub enum Way {
    /// Without waiting: the client's status of this number, 0 to 15, is signalled. It takes a message slot.
    Async(u8),
    /// The client waits for the end of the message, as connecting does too. It takes no slot.
    Sync,
    /// The session was closed, and nobody is told. It takes no slot.
    Disconnect,
}

impl Way {
    /// Whether a message sent in this way takes a slot.
    pub fn is_async(self) -> bool
        ensures { result ≡ is_async self }
    {
        matches!(self, Way::Async(_))
    }
}

/// What is kept of a message (Symbian OS Internals, the chapter on inter-process communication).
#[derive(Clone, Copy, Debug, PartialEq, Eq)]
pub struct MsgRow {
    pub session: ObjNo,
    pub server: ObjNo,
    /// The thread that sent the message.
    pub client: ThreadNo,
    /// What the client asks for: -1 connects, -2 disconnects, and the rest is the server's to define.
    pub function: i32,
    pub args: [Arg; 4],
    pub way: Way,
    /// Whether the server received the message.
    pub taken: bool,
}

/// An outstanding message: its number, the slots of its session, and its row.
#[derive(Clone, Copy, Debug, PartialEq, Eq)]
pub struct Message {
    pub number: MsgNo,
    pub slots: Slots,
    pub row: MsgRow,
}

impl Message {
    /// Whether the message takes one of the slots that a session may use.
    pub fn takes_slot(&self, s: ObjNo, slots: Slots) -> bool
        ensures { result ≡ takes_slot s slots self.now }
    {
        self.row.way.is_async()
            && match slots {
                Slots::Own(_) => self.row.session == s,
                Slots::Pool => matches!(self.slots, Slots::Pool),
            }
    }
}

/// What the kernel keeps of messages (Symbian OS Internals, the chapter on inter-process communication): servers are objects
/// below a number; the kernel's pool has so many slots, 0 to 255; the greatest message number so far; and the messages that were
/// accepted and aren't finished, in order of acceptance. The pool and the numbers are this project's own.
#[derive(Drop)]
pub struct MessageRows {
    pub objects: u16,
    pub pool: u8,
    pub accepted: u32,
    pub outstanding: Items<Message>,
}
