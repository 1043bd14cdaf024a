//! Moves in the rows of messages.
use state_rows::MsgRow;
use sym_base::{MsgNo, ObjNo, Slots};

/// One small change of what the kernel keeps of messages (Symbian OS Internals, the chapter on inter-process
/// communication).
#[derive(Clone, Copy)]
pub enum MessageMove {
    /// A message of this row, over a session with these slots, is accepted under the next number. It refers to its session and
    /// its client.
    Accept(Slots, MsgRow),
    /// The server takes the first of its messages that it hasn't taken.
    Take(ObjNo),
    /// The message is finished with this code. Whoever finishes it owes the closes of its references to its session and its
    /// client.
    Finish(MsgNo, i32),
}
