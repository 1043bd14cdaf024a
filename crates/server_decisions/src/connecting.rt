//! `connect`: a session with the server of a name is made, and a message asks the server to connect it (Symbian OS Internals, the
//! chapter on inter-process communication). The split into five steps is this project's own.
ghost use Rattle.std.specs.Prelude.{◌≡◌, ◌<◌, IfSome};
ghost use Rattle.machine.specs.SessionCalls.{make_session, connect_make, fail_connect, send_connect, connect_send, end_connect, connect_done, session_made, connect_step, connect_return};
ghost use Rattle.state_rows.specs.HandleNumbers.{index_of};

use crate::messaging::{Content, post, server_to_open};
use entry_log::{Part, Step, Word};
use machine::{Decision, Move, NewHandle, ServerMove, ThreadRow, Waiting, holder_of};
use readings::Reads;
use state_rows::Way;
use step_answers::{
    answer_after, answer_handle, nothing, object_at, refuse, refuse_holder, return_to, seek,
};
use sym_base::{Error, Kind, Name, ObjNo, Slots, ThreadNo};

const MAKE: Step = Step::Of(Word::Connect, Part::Make);

const SEND: Step = Step::Of(Word::Connect, Part::Send);

/// The session is made with its handle and its link, where a slot is free, and the server isn't used any more.
fn make_session(
    decision: &mut Decision,
    thread: ThreadNo,
    server: ObjNo,
    slots: Slots,
    session: ObjNo,
    next: Option<NewHandle>,
)
    ensures { decision.new ≡ make_session thread server slots session next }
{
    let Some(handle) = next else {
        return refuse(decision, thread, MAKE, Error::Overflow);
    };
    decision.step = MAKE;
    decision.moves.clear();
    let make = Move::Make(Kind::Session, Name::EMPTY, handle.holder);
    decision.moves.push(make);
    let join = ServerMove::Join(session, server, slots, thread);
    decision.moves.push(Move::Servers(join));
    decision.moves.push(Move::Keep(thread, handle.number));
    decision.moves.push(Move::PutDown(thread));
    decision.moves.push(Move::GoOn(thread, Part::Send));
    decision.answer = None;
}

/// The third step: a session with the server that the thread uses, where that isn't closing and there is room.
fn connect_make<R: Reads>(
    decision: &mut Decision,
    reads: &R,
    thread: ThreadNo,
    slots: Slots,
    uses: Option<ObjNo>,
)
    requires { R.is_readable reads.now }
    ensures { decision.new ≡ connect_make (R.state reads.now) thread slots uses }
{
    let Some(server) = uses else {
        return nothing(decision);
    };
    let Some(row) = reads.server(server) else {
        return nothing(decision);
    };
    if row.is_closing {
        return refuse(decision, thread, MAKE, Error::ServerTerminated);
    }
    if reads.no_number_left() {
        return refuse(decision, thread, MAKE, Error::Overflow);
    }
    let session = reads.next_object();
    let handle = reads.thread_handle(thread);
    make_session(decision, thread, server, slots, session, handle)
}

/// The connection fails: the session's handle goes, and the code is answered.
fn fail_connect(
    decision: &mut Decision,
    thread: ThreadNo,
    row: &ThreadRow,
    part: Part,
    session: ObjNo,
    code: i32,
)
    requires { index_of row.now.found < 256 }
    ensures { decision.new ≡ fail_connect thread row.now part session code }
{
    let holder = holder_of(thread, row, row.found);
    let step = Step::Of(Word::Connect, part);
    answer_after(decision, thread, step, Move::Lose(holder, session), code)
}

/// The message that connects is sent to the session's server, where that isn't closing, and the session is open.
fn send_connect<R: Reads>(
    decision: &mut Decision,
    reads: &R,
    thread: ThreadNo,
    row: &ThreadRow,
    session: ObjNo,
    server: Option<ObjNo>,
)
    requires { index_of row.now.found < 256 }
    ensures { decision.new ≡ send_connect (R.state reads.now) thread row.now session server }
{
    let Some(server) = server else {
        let code = Error::ServerTerminated.code();
        return fail_connect(decision, thread, row, Part::Send, session, code);
    };
    decision.step = SEND;
    decision.moves.clear();
    decision.moves.push(Move::GoOn(thread, Part::Done));
    let open = ServerMove::SetOpen(session, true);
    decision.moves.push(Move::Servers(open));
    decision.moves.push(Move::Wait(thread, Waiting::Reply));
    post(
        &mut decision.moves,
        reads,
        thread,
        session,
        server,
        Content::CONNECT,
        Way::Sync,
    );
    decision.answer = None;
}

/// The fourth step: the message over the session that the third made.
fn connect_send<R: Reads>(
    decision: &mut Decision,
    reads: &R,
    thread: ThreadNo,
    row: &ThreadRow,
    session: Option<ObjNo>,
)
    requires { IfSome session (λ s. index_of row.now.found < 256) }
    ensures { decision.new ≡ connect_send (R.state reads.now) thread row.now session }
{
    let Some(session) = session else {
        return nothing(decision);
    };
    if refuse_holder(decision, reads, thread, SEND) {
        return;
    }
    let server = server_to_open(reads, session);
    send_connect(decision, reads, thread, row, session, server)
}

/// The server's reply: the handle goes to the register, or the connection fails.
fn end_connect(
    decision: &mut Decision,
    thread: ThreadNo,
    row: &ThreadRow,
    register: u8,
    session: ObjNo,
    code: i32,
)
    requires index { index_of row.now.found < 256 }
    requires positive { row.now.found < 2147483648 }
    ensures { decision.new ≡ end_connect thread row.now register session code }
{
    if code != 0 {
        return fail_connect(decision, thread, row, Part::Done, session, code);
    }
    decision.moves.clear();
    let step = Step::Of(Word::Connect, Part::Done);
    answer_handle(decision, thread, step, register, row.found)
}

/// The last step, when the reply has come.
fn connect_done<R: Reads>(
    decision: &mut Decision,
    reads: &R,
    thread: ThreadNo,
    row: &ThreadRow,
    register: u8,
    session: Option<ObjNo>,
)
    requires index { IfSome session (λ s. index_of row.now.found < 256) }
    requires positive { IfSome session (λ s. row.now.found < 2147483648) }
    ensures { decision.new ≡ connect_done (R.state reads.now) thread row.now register session }
{
    let Some(session) = session else {
        return nothing(decision);
    };
    let code = reads.reply_of(thread);
    end_connect(decision, thread, row, register, session, code)
}

/// The session that the steps of a `connect` made.
fn session_made<R: Reads>(reads: &R, thread: ThreadNo, row: &ThreadRow) -> Option<ObjNo>
    requires { R.is_readable reads.now }
    ensures session { result ≡ session_made (R.state reads.now) thread row.now }
    ensures index { IfSome result (λ s. index_of row.now.found < 256) }
    ensures positive { IfSome result (λ s. row.now.found < 2147483648) }
{
    object_at(reads, thread, row, row.found)
}

/// First the find of the server, after the return a session with it, then the message that connects it, and last its reply. A
/// thread that holds a fast mutex is refused.
pub fn connect_step<R: Reads>(
    decision: &mut Decision,
    reads: &R,
    thread: ThreadNo,
    row: &ThreadRow,
    name: &Name,
    slots: Slots,
    register: u8,
)
    requires { R.is_readable reads.now }
    ensures { decision.new ≡ connect_step (R.state reads.now) thread row.now name.now slots register row.now.part }
{
    match row.part {
        None => {
            if refuse_holder(decision, reads, thread, Step::Of(Word::Connect, Part::Seek)) {
                return;
            }
            seek(decision, reads, thread, Word::Connect, Kind::Server, name)
        }
        Some(Part::Make) => connect_make(decision, reads, thread, slots, row.uses),
        Some(Part::Send) => {
            let session = session_made(reads, thread, row);
            connect_send(decision, reads, thread, row, session)
        }
        Some(_) => {
            let session = session_made(reads, thread, row);
            connect_done(decision, reads, thread, row, register, session)
        }
    }
}

/// The return.
pub fn connect_return<R: Reads>(
    decision: &mut Decision,
    reads: &R,
    thread: ThreadNo,
    row: &ThreadRow,
)
    ensures { decision.new ≡ connect_return (R.state reads.now) thread row.now }
{
    return_to(decision, reads, thread, Word::Connect, Part::Make, row)
}
