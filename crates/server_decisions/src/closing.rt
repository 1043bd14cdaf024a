//! What closing a handle does, in whichever step: the handle of a server, or of a session, tells more than that its reference goes
//! (Symbian OS Internals, the chapter on inter-process communication).
ghost use Rattle.std.specs.Prelude.{◌≡◌, ◌+◌, ◌≤◌, ◌++◌, length};
ghost use Rattle.machine.specs.Closing.{connected_to, disconnect, before_close, close_moves};

use crate::messaging::{Content, open_server, post};
use entry_log::Holder;
use machine::{Move, Moves, ServerMove};
use readings::Reads;
use state_rows::{Connection, Way};
use sym_base::{ObjNo, ThreadNo};

/// The server of a session, where the session is open.
fn connected_to<R: Reads>(reads: &R, session: ObjNo) -> Option<ObjNo>
    ensures { result ≡ connected_to (R.state reads.now) session }
{
    match reads.session(session)?.connection {
        Connection::Open => open_server(reads, session),
        Connection::New | Connection::Closed => None,
    }
}

/// A session that is open to this server isn't open any more, and a message tells the server so.
fn disconnect<R: Reads>(
    moves: &mut Moves,
    reads: &R,
    thread: ThreadNo,
    session: ObjNo,
    server: Option<ObjNo>,
)
    requires { length moves.old + 3 ≤ 8 }
    ensures moves { moves.new ≡ moves.old ++ disconnect (R.state reads.now) thread session server }
    ensures few { length moves.new ≤ length moves.old + 3 }
{
    let Some(server) = server else { return };
    moves.push(Move::Servers(ServerMove::SetOpen(session, false)));
    post(
        moves,
        reads,
        thread,
        session,
        server,
        Content::DISCONNECT,
        Way::Disconnect,
    );
}

/// What comes before an object's handle goes: a server begins to close, and an open session is disconnected.
fn before_close<R: Reads>(moves: &mut Moves, reads: &R, thread: ThreadNo, object: ObjNo)
    requires { length moves.old + 3 ≤ 8 }
    ensures moves { moves.new ≡ moves.old ++ before_close (R.state reads.now) thread object }
    ensures few { length moves.new ≤ length moves.old + 3 }
{
    if reads.server(object).is_some() {
        moves.push(Move::Servers(ServerMove::Close(object)));
    } else {
        disconnect(moves, reads, thread, object, connected_to(reads, object));
    }
}

/// A handle of an object is closed, behind the moves before: at most four moves more.
pub fn close_moves<R: Reads>(
    moves: &mut Moves,
    reads: &R,
    thread: ThreadNo,
    holder: Holder,
    object: ObjNo,
)
    requires { length moves.old + 4 ≤ 8 }
    ensures moves { moves.new ≡ moves.old ++ close_moves (R.state reads.now) thread holder object }
    ensures few { length moves.new ≤ length moves.old + 4 }
{
    before_close(moves, reads, thread, object);
    moves.push(Move::Lose(holder, object));
}
