//! The plain machine's servers and sessions, and what their owner has of those that are closing.
ghost use Rattle.std.specs.Prelude.{◌≡◌, Some, slice_get};
ghost use Rattle.std.specs.List.{find};
ghost use Rattle.machine.specs.Holdings.{server_holdings, held_servers};
ghost use Rattle.machine.specs.ServerMoves.{owned_by};
ghost use Rattle.state_rows.specs.ServerRows.{server_at, session_at, is_closing};

use crate::lists::{first_in, list_at};
use crate::messages::first_message;
use machine::{Holding, State, row_of};
use state_rows::{ServerRow, ServerRows, SessionRow};
use sym_base::{ObjNo, ThreadNo};

/// The row of a server.
pub fn server_at(rows: &ServerRows, object: ObjNo) -> Option<ServerRow>
    ensures { result ≡ server_at rows.now object }
{
    row_of(&rows.servers, object)
}

/// The row of a session.
pub fn session_at(rows: &ServerRows, object: ObjNo) -> Option<SessionRow>
    ensures { result ≡ session_at rows.now object }
{
    row_of(&rows.sessions, object)
}

/// Whether a server is closing.
fn is_closing(rows: &ServerRows, server: ObjNo) -> bool
    ensures { result ≡ is_closing rows.now server }
{
    match server_at(rows, server) {
        Some(row) => row.is_closing,
        None => false,
    }
}

/// The first of some servers that is closing.
fn first_closing(rows: &ServerRows, servers: &[ObjNo]) -> Option<ObjNo>
    ensures { result ≡ find (is_closing rows.now) servers.now }
{
    servers
        .iter()
        .copied()
        .find(|server| is_closing(rows, *server))
}

/// The first of what its owner has of a closing server: a message, a linked session, or the server itself.
#[tactic(auto, using(crate::proofs::Work::work_first, crate::proofs::First::kept_as))]
fn work_of(state: &State, server: ObjNo) -> Holding
    ensures { Some result ≡ slice_get (server_holdings state.now server) 0 }
{
    if let Some(message) = first_message(&state.serving.messages, server) {
        return Holding::Message(message.number);
    }
    match first_in(&state.serving.servers.linked, server) {
        Some(session) => Holding::Link(session, server),
        None => Holding::Server(server),
    }
}

/// The first of what a thread has of its closing servers.
#[tactic(auto, using(crate::proofs::Work::first_of_closing, crate::proofs::Work::none_closing))]
pub fn first_work(state: &State, thread: ThreadNo) -> Option<Holding>
    ensures { result ≡ slice_get (held_servers state.now thread) 0 }
{
    let servers = list_at(&state.serving.owned, thread);
    let server = first_closing(&state.serving.servers, servers)?;
    Some(work_of(state, server))
}
