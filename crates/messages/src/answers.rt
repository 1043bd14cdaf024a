//! What the calls on messages answer, and an argument with another length.
ghost use Rattle.std.specs.Prelude.{◌≡◌};
ghost use Rattle.state_rows.specs.MessageRows.{with_length};
ghost use Rattle.messages.specs.Calls.{finished_of};

use state_rows::{Message, Way};
use sym_base::{Arg, MsgNo, ObjNo, ThreadNo};

/// What sending a message answers.
#[derive(Clone, Copy, Debug, PartialEq, Eq)]
pub enum Accepted {
    /// It was accepted under this number.
    Message(MsgNo),
    /// All slots are taken: so many are used, and there are so many.
    Busy { used: u32, slots: u32 },
}

/// What is left to do for a finished message.
#[derive(Clone, Copy, Debug, PartialEq, Eq)]
pub struct Finished {
    pub session: ObjNo,
    pub client: ThreadNo,
    pub way: Way,
}

/// Who has to be told that a message is finished.
pub fn finished_of(message: &Message) -> Finished
    ensures { result ≡ finished_of message.now }
{
    Finished {
        session: message.row.session,
        client: message.row.client,
        way: message.row.way,
    }
}

/// An argument with another length; a number has none, and stays.
pub fn with_length(arg: Arg, length: u16) -> Arg
    ensures { result ≡ with_length arg length }
{
    match arg {
        Arg::Number(number) => Arg::Number(number),
        Arg::Descriptor { offset, max, .. } => Arg::Descriptor {
            offset,
            length,
            max,
        },
    }
}
