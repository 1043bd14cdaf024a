//! Moves in the rows of messages, made on the plain machine's lists.
ghost use Rattle.std.specs.Prelude.{◌≡◌, ◌<◌, ◌++◌, not, filter, map, IfOk, OnOk};
ghost use Rattle.machine.specs.MessageMoves.{closes_of, message_owed, messages_moved};
ghost use Rattle.machine.specs.Moves.{moved};
ghost use Rattle.machine.specs.Rows.{owing};
ghost use Rattle.state_rows.specs.MessageChanges.{added, after_finish, after_take, edited, taken, taken_row};
ghost use Rattle.state_rows.specs.MessageRows.{has_number};

use entry_log::Holder;
use machine::{MessageMove, Move, Owed, State};
use plain_reads::{message_of, next_message};
use state_rows::{Message, MessageRows, MsgRow};
use std::alloc::Global;
use sym_base::{Items, MsgNo, NoMemory, Slots, ThreadNo};

/// A message stands behind the others under the next number.
fn add(rows: &mut MessageRows, slots: Slots, row: MsgRow) -> Result<(), NoMemory>
    requires { rows.old.accepted < 4294967295 }
    ensures { OnOk result (rows.new ≡ added rows.old slots row) }
{
    let number = MsgNo(rows.accepted + 1);
    rows.outstanding.push(Message { number, slots, row })?;
    rows.accepted = number.0;
    Ok(())
}

/// A message, which was taken where it has this number.
fn taken_if(message: &Message, number: MsgNo) -> Message
    ensures { result ≡ edited number taken_row message.now }
{
    let mut message = *message;
    if message.number.0 == number.0 {
        message.row.taken = true;
    }
    message
}

/// The messages, of which the one of this number was taken.
fn with_taken(
    alloc: Global,
    messages: &[Message],
    number: MsgNo,
) -> Result<Items<Message>, NoMemory>
    ensures { IfOk result (λ all. all ≡ map (edited number taken_row) messages.now) }
{
    let mut all = Vec::new(alloc);
    for message in messages {
        all.push(taken_if(message, number))?;
    }
    Ok(Items::new(all))
}

/// The message is taken, where there is one.
fn take(alloc: Global, rows: &mut MessageRows, number: Option<MsgNo>) -> Result<(), NoMemory>
    ensures { OnOk result (rows.new ≡ taken rows.old number) }
{
    if let Some(number) = number {
        rows.outstanding = with_taken(alloc, rows.outstanding.as_slice(), number)?;
    }
    Ok(())
}

/// The messages without the one of this number.
fn without(alloc: Global, messages: &[Message], number: MsgNo) -> Result<Items<Message>, NoMemory>
    ensures { IfOk result (λ rest. rest ≡ filter (λ message. not (has_number number message)) messages.now) }
{
    let mut rest = Vec::new(alloc);
    for message in messages {
        if message.number.0 == number.0 {
            continue;
        }
        rest.push(*message)?;
    }
    Ok(Items::new(rest))
}

/// The message is outstanding no more.
fn finish(alloc: Global, rows: &mut MessageRows, number: MsgNo) -> Result<(), NoMemory>
    ensures { OnOk result (rows.new ≡ after_finish rows.old number) }
{
    rows.outstanding = without(alloc, rows.outstanding.as_slice(), number)?;
    Ok(())
}

/// Adds the closes of a message's references to its session and its client, where there is a message.
fn push_closes(duties: &mut Items<Owed>, message: Option<Message>) -> Result<(), NoMemory>
    ensures { OnOk result (duties.new ≡ duties.old ++ closes_of message) }
{
    if let Some(Message { number, row, .. }) = message {
        duties.push(Owed::Close(Holder::Message(number), row.session))?;
        duties.push(Owed::Close(Holder::Message(number), row.client))?;
    }
    Ok(())
}

/// A thread owes the closes of a message's references, where there is a message.
fn owe_closes(
    owed: &mut Items<Items<Owed>>,
    thread: ThreadNo,
    message: Option<Message>,
) -> Result<(), NoMemory>
    ensures { OnOk result (owed.new ≡ owing owed.old thread (closes_of message)) }
{
    let at = thread.0 as usize;
    if at < owed.len() {
        push_closes(owed.get_mut(at), message)?;
    }
    Ok(())
}

/// One move in the rows of messages, in an action of a thread.
pub fn make_message_move(
    alloc: Global,
    state: &mut State,
    thread: ThreadNo,
    change: MessageMove,
) -> Result<(), NoMemory>
    requires { state.old.serving.messages.accepted < 4294967295 }
    ensures { OnOk result (state.new ≡ moved thread (Move.Messages change) state.old) }
{
    match change {
        MessageMove::Accept(slots, row) => add(&mut state.serving.messages, slots, row),
        MessageMove::Take(server) => {
            let number = next_message(&state.serving.messages, server);
            take(alloc, &mut state.serving.messages, number)
        }
        MessageMove::Finish(number, _) => {
            let message = message_of(&state.serving.messages, number);
            finish(alloc, &mut state.serving.messages, number)?;
            owe_closes(&mut state.references.owed, thread, message)
        }
    }
}
