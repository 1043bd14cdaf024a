//! `server` and `receive`: a server is made, and its owner takes its messages one after the other (Symbian OS Internals, the
//! chapter on inter-process communication).
ghost use Rattle.std.specs.Prelude.{◌≡◌, ◌<◌, IfSome};
ghost use Rattle.machine.specs.ServerCalls.{make_server, server_do, take_message, receive_next, receive_do, receive_came, receive_done, receive_step};

use entry_log::{Holder, Part, Step, Word};
use machine::{Decision, MessageMove, Move, NewHandle, ServerMove, ThreadRow, Waiting};
use readings::Reads;
use step_answers::{answer, answer_handle, look_kind, nothing, refuse, refuse_holder, wait_for};
use sym_base::{Error, Kind, MsgNo, Name, ObjNo, ThreadNo};

/// The step of `server`.
const SERVER: Step = Step::Of(Word::Server, Part::Do);

/// The second step of `receive`.
const RECEIVE: Step = Step::Of(Word::Receive, Part::Do);

/// The server is made with its handle, where a slot is free, and the thread owns it.
fn make_server(
    decision: &mut Decision,
    thread: ThreadNo,
    server: ObjNo,
    name: &Name,
    register: u8,
    next: Option<NewHandle>,
)
    requires { IfSome next (λ handle. handle.number < 2147483648) }
    ensures { decision.new ≡ make_server thread server name.now register next }
{
    let Some(handle) = next else {
        return refuse(decision, thread, SERVER, Error::Overflow);
    };
    decision.moves.clear();
    let start = ServerMove::Start(server, thread);
    decision.moves.push(Move::Servers(start));
    let make = Move::Make(Kind::Server, *name, Holder::Own(thread));
    decision.moves.push(make);
    decision.moves.push(Move::Gain(handle.holder, server));
    answer_handle(decision, thread, SERVER, register, handle.number)
}

/// A new server and a handle of it, where the name is free and there is room for both.
pub fn server_do<R: Reads>(
    decision: &mut Decision,
    reads: &R,
    thread: ThreadNo,
    name: &Name,
    register: u8,
)
    requires { R.is_readable reads.now }
    ensures { decision.new ≡ server_do (R.state reads.now) thread name.now register }
{
    if reads.is_taken(Kind::Server, name) {
        return refuse(decision, thread, SERVER, Error::AlreadyExists);
    }
    if reads.no_number_left() {
        return refuse(decision, thread, SERVER, Error::Overflow);
    }
    let server = reads.next_object();
    let handle = reads.thread_handle(thread);
    make_server(decision, thread, server, name, register, handle)
}

/// The first message that the server hasn't taken is taken, and its number goes to a register and is answered.
fn take_message(
    decision: &mut Decision,
    thread: ThreadNo,
    step: Step,
    server: ObjNo,
    register: u8,
    message: MsgNo,
)
    requires { message.0 < 2147483648 }
    ensures { decision.new ≡ take_message thread step server register message }
{
    decision.moves.clear();
    decision
        .moves
        .push(Move::Messages(MessageMove::Take(server)));
    let write = Move::WriteMessage(thread, register, message.0);
    decision.moves.push(write);
    answer(decision, thread, step, message.0 as i32)
}

/// The message is taken, or the thread waits for one.
fn receive_next(
    decision: &mut Decision,
    thread: ThreadNo,
    server: ObjNo,
    register: u8,
    next: Option<MsgNo>,
)
    requires { IfSome next (λ message. message.0 < 2147483648) }
    ensures { decision.new ≡ receive_next thread server register next }
{
    match next {
        Some(message) => take_message(decision, thread, RECEIVE, server, register, message),
        None => wait_for(decision, thread, RECEIVE, Waiting::Receive(server)),
    }
}

/// The second step: a message of the server that the thread uses.
fn receive_do<R: Reads>(
    decision: &mut Decision,
    reads: &R,
    thread: ThreadNo,
    register: u8,
    uses: Option<ObjNo>,
)
    requires { R.is_readable reads.now }
    ensures { decision.new ≡ receive_do (R.state reads.now) thread register uses }
{
    let Some(server) = uses else {
        return nothing(decision);
    };
    if refuse_holder(decision, reads, thread, RECEIVE) {
        return;
    }
    let next = reads.next_message(server);
    receive_next(decision, thread, server, register, next)
}

/// The last step, when a message has come.
fn receive_done<R: Reads>(
    decision: &mut Decision,
    reads: &R,
    thread: ThreadNo,
    register: u8,
    uses: Option<ObjNo>,
)
    requires { R.is_readable reads.now }
    ensures { decision.new ≡ receive_done (R.state reads.now) thread register uses }
{
    let Some(server) = uses else {
        return nothing(decision);
    };
    let Some(message) = reads.next_message(server) else {
        return nothing(decision);
    };
    let step = Step::Of(Word::Receive, Part::Done);
    take_message(decision, thread, step, server, register, message)
}

/// First the look at a handle of a server, then the message, and after a wait the message again. A thread that holds a fast mutex is
/// refused.
pub fn receive_step<R: Reads>(
    decision: &mut Decision,
    reads: &R,
    thread: ThreadNo,
    row: &ThreadRow,
    from: u8,
    to: u8,
)
    requires readable { R.is_readable reads.now }
    requires from { from < 8 }
    ensures { decision.new ≡ receive_step (R.state reads.now) thread row.now from to row.now.part }
{
    match row.part {
        None => {
            if refuse_holder(decision, reads, thread, Step::Of(Word::Receive, Part::Look)) {
                return;
            }
            look_kind(
                decision,
                reads,
                thread,
                row,
                Kind::Server,
                Word::Receive,
                from,
            )
        }
        Some(Part::Do) => receive_do(decision, reads, thread, to, row.uses),
        Some(_) => receive_done(decision, reads, thread, to, row.uses),
    }
}
