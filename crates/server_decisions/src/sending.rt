//! `send` and `call`: messages over a session, without waiting or with (Symbian OS Internals, the chapter on inter-process
//! communication). When all slots are used is this project's own rule.
ghost use Rattle.std.specs.Prelude.{◌≡◌, ◌<◌, pos};
ghost use Rattle.machine.specs.Messaging.{slots_of};
ghost use Rattle.machine.specs.SessionCalls.{args_of, send_to, send_do, send_step, call_to, call_do, call_step};
ghost use Rattle.state_rows.specs.MessageRows.{is_full};

use crate::messaging::{Content, open_server, post, slots_of};
use entry_log::{Part, Step, Word};
use machine::{Decision, Move, RequestMove, ThreadRow, Waiting};
use readings::Reads;
use script_types::Args;
use state_rows::Way;
use step_answers::{answer, answer_at_once, is_pending, look_kind, nothing, refuse, refuse_holder};
use sym_base::{Arg, Error, Kind, ObjNo, ThreadNo};

/// The second step of `send`.
const SEND: Step = Step::Of(Word::Send, Part::Do);

/// The second step of `call`.
const CALL: Step = Step::Of(Word::Call, Part::Do);

/// The four arguments of an instruction.
fn args_of(args: &Args) -> [Arg; 4]
    ensures { result ≡ args_of args.now }
{
    [args.0, args.1, args.2, args.3]
}

/// The message of an instruction, whose function is 0 to 2,147,483,647.
fn content_of(function: u32, args: &Args) -> Content
    requires { function < 2147483648 }
    ensures function { result.function ≡ pos function }
    ensures args { result.args ≡ args_of args.now }
{
    let args = args_of(args);
    Content {
        function: function as i32,
        args,
    }
}

/// Whether all the slots that a session has are used.
fn is_busy<R: Reads>(reads: &R, session: ObjNo) -> bool
    requires { R.is_readable reads.now }
    ensures { let S = R.state reads.now in result ≡ is_full S.serving.messages session (slots_of S session) }
{
    reads.is_full(session, slots_of(reads, session))
}

/// The message is sent to the session's server, where that isn't closing and a slot is free, and its status is pending.
fn send_to<R: Reads>(
    decision: &mut Decision,
    reads: &R,
    thread: ThreadNo,
    session: ObjNo,
    content: Content,
    status: u8,
    server: Option<ObjNo>,
)
    requires { R.is_readable reads.now }
    ensures { decision.new ≡ send_to (R.state reads.now) thread session content.function status content.args server }
{
    let Some(server) = server else {
        return refuse(decision, thread, SEND, Error::ServerTerminated);
    };
    if is_busy(reads, session) {
        return refuse(decision, thread, SEND, Error::ServerBusy);
    }
    decision.moves.clear();
    decision.moves.push(Move::GoOn(thread, Part::Done));
    let pending = RequestMove::SetPending(thread, status);
    decision.moves.push(Move::Requests(pending));
    post(
        &mut decision.moves,
        reads,
        thread,
        session,
        server,
        content,
        Way::Async(status),
    );
    answer(decision, thread, SEND, 0)
}

/// The second step: the message over the session that the thread uses.
fn send_do<R: Reads>(
    decision: &mut Decision,
    reads: &R,
    thread: ThreadNo,
    content: Content,
    status: u8,
    uses: Option<ObjNo>,
)
    requires { R.is_readable reads.now }
    ensures { decision.new ≡ send_do (R.state reads.now) thread content.function status content.args uses }
{
    let Some(session) = uses else {
        return nothing(decision);
    };
    if is_pending(reads, thread, status) {
        return nothing(decision);
    }
    let server = open_server(reads, session);
    send_to(decision, reads, thread, session, content, status, server)
}

/// First the look at a handle of a session, which refuses a status that is pending, and then the message. A message that was sent isn't
/// sent again.
pub fn send_step<R: Reads>(
    decision: &mut Decision,
    reads: &R,
    thread: ThreadNo,
    row: &ThreadRow,
    register: u8,
    function: u32,
    status: u8,
    args: &Args,
)
    requires readable { R.is_readable reads.now }
    requires register { register < 8 }
    requires function { function < 2147483648 }
    ensures { decision.new ≡ send_step (R.state reads.now) thread row.now register function status args.now row.now.part }
{
    match row.part {
        None => {
            if is_pending(reads, thread, status) {
                let step = Step::Of(Word::Send, Part::Look);
                return refuse(decision, thread, step, Error::InUse);
            }
            look_kind(
                decision,
                reads,
                thread,
                row,
                Kind::Session,
                Word::Send,
                register,
            )
        }
        Some(Part::Done) => nothing(decision),
        Some(_) => {
            let content = content_of(function, args);
            send_do(decision, reads, thread, content, status, row.uses)
        }
    }
}

/// The message is sent to the session's server, where that isn't closing, and the thread waits for its end.
fn call_to<R: Reads>(
    decision: &mut Decision,
    reads: &R,
    thread: ThreadNo,
    session: ObjNo,
    content: Content,
    server: Option<ObjNo>,
)
    ensures { decision.new ≡ call_to (R.state reads.now) thread session content.function content.args server }
{
    let Some(server) = server else {
        return refuse(decision, thread, CALL, Error::ServerTerminated);
    };
    decision.step = CALL;
    decision.moves.clear();
    decision.moves.push(Move::GoOn(thread, Part::Done));
    decision.moves.push(Move::Wait(thread, Waiting::Reply));
    post(
        &mut decision.moves,
        reads,
        thread,
        session,
        server,
        content,
        Way::Sync,
    );
    decision.answer = None;
}

/// The second step: the message over the session that the thread uses.
fn call_do<R: Reads>(
    decision: &mut Decision,
    reads: &R,
    thread: ThreadNo,
    content: Content,
    uses: Option<ObjNo>,
)
    ensures { decision.new ≡ call_do (R.state reads.now) thread content.function content.args uses }
{
    let Some(session) = uses else {
        return nothing(decision);
    };
    if refuse_holder(decision, reads, thread, CALL) {
        return;
    }
    let server = open_server(reads, session);
    call_to(decision, reads, thread, session, content, server)
}

/// First the look at a handle of a session, then the message, and last its reply. A thread that holds a fast mutex is refused.
pub fn call_step<R: Reads>(
    decision: &mut Decision,
    reads: &R,
    thread: ThreadNo,
    row: &ThreadRow,
    register: u8,
    function: u32,
    args: &Args,
)
    requires readable { R.is_readable reads.now }
    requires register { register < 8 }
    requires function { function < 2147483648 }
    ensures { decision.new ≡ call_step (R.state reads.now) thread row.now register function args.now row.now.part }
{
    match row.part {
        None => {
            if refuse_holder(decision, reads, thread, Step::Of(Word::Call, Part::Look)) {
                return;
            }
            look_kind(
                decision,
                reads,
                thread,
                row,
                Kind::Session,
                Word::Call,
                register,
            )
        }
        Some(Part::Do) => {
            let content = content_of(function, args);
            call_do(decision, reads, thread, content, row.uses)
        }
        Some(_) => {
            let step = Step::Of(Word::Call, Part::Done);
            answer_at_once(decision, thread, step, reads.reply_of(thread))
        }
    }
}
