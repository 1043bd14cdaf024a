//! The plain machine's messages, read by decisions.
ghost use Rattle.std.specs.Prelude.{◌≡◌};
ghost use Rattle.std.specs.List.{find};
ghost use Rattle.state_rows.specs.MessageRows.{is_at, waits_at, message_of, used_slots, all_slots, is_full};
ghost use Rattle.state_rows.specs.MessageChanges.{next_of};

use state_rows::{Message, MessageRows};
use sym_base::{MsgNo, ObjNo, Slots};

/// The outstanding message of a number.
pub fn message_of(rows: &MessageRows, number: MsgNo) -> Option<Message>
    ensures { result ≡ message_of rows.now number }
{
    let outstanding = rows.outstanding.as_slice();
    outstanding
        .iter()
        .copied()
        .find(|message| message.number.0 == number.0)
}

/// The first message of a server.
pub fn first_message(rows: &MessageRows, server: ObjNo) -> Option<Message>
    ensures { result ≡ find (is_at server.0) rows.now.outstanding }
{
    let outstanding = rows.outstanding.as_slice();
    outstanding
        .iter()
        .copied()
        .find(|message| message.row.server.0 == server.0)
}

/// Whether a message is a server's, and the server hasn't taken it.
fn waits_at(server: ObjNo, message: &Message) -> bool
    ensures { result ≡ waits_at server.0 message.now }
{
    message.row.server.0 == server.0 && !message.row.taken
}

/// The first message that a server hasn't taken.
fn first_untaken(rows: &MessageRows, server: ObjNo) -> Option<Message>
    ensures { result ≡ find (waits_at server.0) rows.now.outstanding }
{
    let outstanding = rows.outstanding.as_slice();
    outstanding
        .iter()
        .copied()
        .find(|message| waits_at(server, message))
}

/// The message that a server takes next.
#[tactic(auto, using(crate::proofs::First::next_as))]
pub fn next_message(rows: &MessageRows, server: ObjNo) -> Option<MsgNo>
    ensures { result ≡ next_of rows.now server }
{
    let message = first_untaken(rows, server)?;
    Some(message.number)
}

/// How many of the slots that a session may use are used.
fn used_slots(rows: &MessageRows, session: ObjNo, slots: Slots) -> usize
    ensures { result ≡ used_slots rows.now session slots }
{
    let outstanding = rows.outstanding.as_slice();
    outstanding
        .iter()
        .filter(|message| message.takes_slot(session, slots))
        .count()
}

/// How many slots a session may use.
fn all_slots(pool: u8, slots: Slots) -> u8
    ensures { result ≡ all_slots pool slots }
{
    match slots {
        Slots::Own(own) => own,
        Slots::Pool => pool,
    }
}

/// Whether all the slots that a session may use are used.
pub fn is_full(rows: &MessageRows, session: ObjNo, slots: Slots) -> bool
    ensures { result ≡ is_full rows.now session slots }
{
    used_slots(rows, session, slots) == all_slots(rows.pool, slots) as usize
}
