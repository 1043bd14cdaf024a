//! How messages are sent and finished, in whichever step (Symbian OS Internals, the chapter on inter-process
//! communication).
ghost use Rattle.std.specs.Prelude.{◌≡◌, ◌+◌, ◌<◌, ◌≤◌, ◌++◌, length};
ghost use Rattle.machine.specs.Messaging.{slots_of, open_server, server_to_open, is_receiving, wake_receiver, post, is_refused, close_refused, reply, reply_to, finish};
ghost use Rattle.machine.specs.Rows.{thread_of};
ghost use Rattle.state_rows.specs.MessageChanges.{new_row};
ghost use Rattle.state_rows.specs.ServerRows.{is_closing, owner_of};

use machine::{MessageMove, Move, Moves, RequestMove, ServerMove, ThreadRow, Waiting};
use readings::Reads;
use state_rows::{Connection, Message, MsgRow, Stage, Way};
use step_answers::ends_wait;
use sym_base::{Arg, ObjNo, Slots, ThreadNo};

/// The function of the message that connects a session.
const CONNECTS: i32 = -1;

/// The function of the message that tells the server of a session's end.
const DISCONNECTS: i32 = -2;

/// What a client asks for in a message: a function, which is negative where the kernel sends the message itself, and four arguments.
#[derive(Clone, Copy)]
pub struct Content {
    pub function: i32,
    pub args: [Arg; 4],
}

impl Content {
    /// A session is to be connected.
    pub const CONNECT: Content = Content {
        function: CONNECTS,
        args: [Arg::Number(0); 4],
    };

    /// A session is disconnected.
    pub const DISCONNECT: Content = Content {
        function: DISCONNECTS,
        args: [Arg::Number(0); 4],
    };
}

/// The slots of a session. What is no session has the pool's.
pub fn slots_of<R: Reads>(reads: &R, session: ObjNo) -> Slots
    ensures { result ≡ slots_of (R.state reads.now) session }
{
    match reads.session(session) {
        Some(row) => row.slots,
        None => Slots::Pool,
    }
}

/// Whether a server is closing.
pub fn is_closing<R: Reads>(reads: &R, server: ObjNo) -> bool
    ensures { result ≡ is_closing (R.state reads.now).serving.servers server }
{
    match reads.server(server) {
        Some(row) => row.is_closing,
        None => false,
    }
}

/// The thread that owns a server.
pub fn owner_of<R: Reads>(reads: &R, server: ObjNo) -> Option<ThreadNo>
    ensures { result ≡ owner_of (R.state reads.now).serving.servers server }
{
    Some(reads.server(server)?.owner)
}

/// The server that accepts the message that opens a session: that of `open_server`, where the session is to be opened.
pub fn server_to_open<R: Reads>(reads: &R, session: ObjNo) -> Option<ObjNo>
    ensures { result ≡ server_to_open (R.state reads.now) session }
{
    match reads.session(session)?.connection {
        Connection::New => open_server(reads, session),
        Connection::Open | Connection::Closed => None,
    }
}

/// The server that accepts the messages of a session: the one that the session is linked to, unless it is closing.
pub fn open_server<R: Reads>(reads: &R, session: ObjNo) -> Option<ObjNo>
    ensures { result ≡ open_server (R.state reads.now) session }
{
    let server = reads.session(session)?.server?;
    if is_closing(reads, server) {
        None
    } else {
        Some(server)
    }
}

/// Whether who waits for this waits for a message of a server.
fn is_receiving(server: ObjNo, waiting: Waiting) -> bool
    ensures { result ≡ is_receiving server waiting }
{
    match waiting {
        Waiting::Receive(other) => other.0 == server.0,
        _ => false,
    }
}

/// The owner of a server waits no longer, where it waits for a message of it.
fn wake_receiver<R: Reads>(moves: &mut Moves, reads: &R, server: ObjNo, owner: Option<ThreadNo>)
    requires { length moves.old < 8 }
    ensures moves { moves.new ≡ moves.old ++ wake_receiver (R.state reads.now) server owner }
    ensures few { length moves.new ≤ length moves.old + 1 }
{
    let Some(owner) = owner else { return };
    let Some(row) = reads.thread(owner) else {
        return;
    };
    if is_receiving(server, row.waiting) {
        moves.push(Move::Wake(owner));
    }
}

/// The row of a message that is sent now.
fn new_row(session: ObjNo, server: ObjNo, client: ThreadNo, content: Content, way: Way) -> MsgRow
    ensures { result ≡ new_row session server client content.function content.args way }
{
    let args = content.args;
    MsgRow {
        session,
        server,
        client,
        function: content.function,
        args,
        way,
        taken: false,
    }
}

/// A thread's message is sent over a session to its server, behind the moves before: one move more, and another where the server's
/// owner waits for it.
pub fn post<R: Reads>(
    moves: &mut Moves,
    reads: &R,
    thread: ThreadNo,
    session: ObjNo,
    server: ObjNo,
    content: Content,
    way: Way,
)
    requires { length moves.old + 2 ≤ 8 }
    ensures moves { moves.new ≡ moves.old ++ post (R.state reads.now) thread session server content.function content.args way }
    ensures few { length moves.new ≤ length moves.old + 2 }
{
    let row = new_row(session, server, thread, content, way);
    let accept = MessageMove::Accept(slots_of(reads, session), row);
    moves.push(Move::Messages(accept));
    wake_receiver(moves, reads, server, owner_of(reads, server));
}

/// Whether a message that connects is finished with a failure.
fn is_refused(message: &Message, code: i32) -> bool
    ensures { result ≡ is_refused message.now code }
{
    message.row.function == CONNECTS && code != 0
}

/// The session of a message that connects is open no more, where the message is finished with a failure.
fn close_refused(moves: &mut Moves, message: &Message, code: i32)
    requires { length moves.old < 8 }
    ensures moves { moves.new ≡ moves.old ++ close_refused message.now code }
    ensures few { length moves.new ≤ length moves.old + 1 }
{
    if is_refused(message, code) {
        let close = ServerMove::SetOpen(message.row.session, false);
        moves.push(Move::Servers(close));
    }
}

/// The live client of a row is told of the end of its message, as it was sent: by its status, by the reply that it waits for, or
/// not at all.
fn reply<R: Reads>(
    moves: &mut Moves,
    reads: &R,
    client: ThreadNo,
    row: &ThreadRow,
    code: i32,
    way: Way,
)
    requires { length moves.old + 2 ≤ 8 }
    ensures moves { moves.new ≡ moves.old ++ reply (R.state reads.now) client row.now code way }
    ensures few { length moves.new ≤ length moves.old + 2 }
{
    match way {
        Way::Async(status) => {
            let signal = RequestMove::Signal(client, status, code);
            moves.push(Move::Requests(signal));
            if ends_wait(reads, client, status, row.waiting) {
                moves.push(Move::Wake(client));
            }
        }
        Way::Sync => {
            moves.push(Move::Requests(RequestMove::Reply(client, code)));
            moves.push(Move::Wake(client));
        }
        Way::Disconnect => {}
    }
}

/// The client is told of the end of its message, where it is live.
fn reply_to<R: Reads>(moves: &mut Moves, reads: &R, client: ThreadNo, code: i32, way: Way)
    requires { length moves.old + 2 ≤ 8 }
    ensures moves { let S = R.state reads.now in moves.new ≡ moves.old ++ reply_to S client code way (thread_of S client) }
    ensures few { length moves.new ≤ length moves.old + 2 }
{
    let Some(row) = reads.thread(client) else {
        return;
    };
    if row.stage == Stage::Live {
        reply(moves, reads, client, row, code, way);
    }
}

/// A message is finished with a code, behind the moves before: at most four moves more.
pub fn finish<R: Reads>(moves: &mut Moves, reads: &R, message: &Message, code: i32)
    requires { length moves.old + 4 ≤ 8 }
    ensures moves { moves.new ≡ moves.old ++ finish (R.state reads.now) message.now code }
    ensures few { length moves.new ≤ length moves.old + 4 }
{
    moves.push(Move::Messages(MessageMove::Finish(message.number, code)));
    close_refused(moves, message, code);
    reply_to(moves, reads, message.row.client, code, message.row.way);
}
