//! `complete` and `function`: what a server does with a message that it took (Symbian OS Internals, the chapter on inter-process
//! communication).
ghost use Rattle.std.specs.Prelude.{◌≡◌, ◌<◌};
ghost use Rattle.machine.specs.ServerCalls.{is_owner, taken_by, message_at, complete_message, complete_do, function_of, function_do};

use crate::messaging::{finish, owner_of};
use entry_log::{Part, Step, Word};
use machine::{Decision, ThreadRow};
use readings::Reads;
use state_rows::Message;
use step_answers::{answer, answer_at_once, refuse};
use sym_base::{Error, MsgNo, ThreadNo};

const COMPLETE: Step = Step::Of(Word::Complete, Part::Do);

const FUNCTION: Step = Step::Of(Word::Function, Part::Do);

/// Whether a thread is the owner of a server.
fn is_owner(thread: ThreadNo, owner: Option<ThreadNo>) -> bool
    ensures { result ≡ is_owner thread owner }
{
    match owner {
        Some(owner) => owner.0 == thread.0,
        None => false,
    }
}

/// A message, where a server of the thread took it.
fn taken_by<R: Reads>(reads: &R, thread: ThreadNo, found: Option<Message>) -> Option<Message>
    ensures { result ≡ taken_by (R.state reads.now) thread found }
{
    let message = found?;
    if message.row.taken && is_owner(thread, owner_of(reads, message.row.server)) {
        Some(message)
    } else {
        None
    }
}

/// The message whose number a register has, where a server of the thread took it.
pub fn message_at<R: Reads>(
    reads: &R,
    thread: ThreadNo,
    row: &ThreadRow,
    register: u8,
) -> Option<Message>
    requires readable { R.is_readable reads.now }
    requires register { register < 8 }
    ensures { result ≡ message_at (R.state reads.now) thread row.now register }
{
    let number = MsgNo(row.messages[register as usize]);
    taken_by(reads, thread, reads.message(number))
}

/// The message is finished with the code, where there is one.
fn complete_message<R: Reads>(
    decision: &mut Decision,
    reads: &R,
    thread: ThreadNo,
    code: i32,
    found: Option<Message>,
)
    ensures { decision.new ≡ complete_message (R.state reads.now) thread code found }
{
    let Some(message) = found else {
        return refuse(decision, thread, COMPLETE, Error::BadHandle);
    };
    decision.moves.clear();
    finish(&mut decision.moves, reads, &message, code);
    answer(decision, thread, COMPLETE, 0)
}

/// The message of a register is finished with a code.
pub fn complete_do<R: Reads>(
    decision: &mut Decision,
    reads: &R,
    thread: ThreadNo,
    row: &ThreadRow,
    register: u8,
    code: i32,
)
    requires readable { R.is_readable reads.now }
    requires register { register < 8 }
    ensures { decision.new ≡ complete_do (R.state reads.now) thread row.now register code }
{
    let found = message_at(reads, thread, row, register);
    complete_message(decision, reads, thread, code, found)
}

/// The function of a message is answered, where there is one.
fn function_of(decision: &mut Decision, thread: ThreadNo, found: Option<Message>)
    ensures { decision.new ≡ function_of thread found }
{
    match found {
        Some(message) => answer_at_once(decision, thread, FUNCTION, message.row.function),
        None => refuse(decision, thread, FUNCTION, Error::BadHandle),
    }
}

/// The function of a register's message is answered.
pub fn function_do<R: Reads>(
    decision: &mut Decision,
    reads: &R,
    thread: ThreadNo,
    row: &ThreadRow,
    register: u8,
)
    requires readable { R.is_readable reads.now }
    requires register { register < 8 }
    ensures { decision.new ≡ function_do (R.state reads.now) thread row.now register }
{
    function_of(decision, thread, message_at(reads, thread, row, register))
}
