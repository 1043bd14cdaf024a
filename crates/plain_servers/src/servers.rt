//! Moves in the rows of servers and sessions, made on the plain machine's lists.
ghost use Rattle.std.specs.Prelude.{◌≡◌, option_map, OnOk};
ghost use Rattle.machine.specs.Moves.{moved};
ghost use Rattle.machine.specs.ServerMoves.{all_closing, owned_gain, owned_lose, servers_closed, servers_lose};
ghost use Rattle.state_rows.specs.ServerChanges.{after_add_server, after_add_session, after_closing, after_detach, after_set_open, after_sweep, closing, connected, detached, opened, unlisted};
ghost use Rattle.state_rows.specs.ServerRows.{server_of};

use entry_log::Holder;
use machine::{Move, ServerMove, State, row_of, set_row};
use plain_rows::{clear_list, list_of, push_to, remove_from};
use state_rows::{Connection, ServerRow, ServerRows, SessionRow};
use std::alloc::Global;
use sym_base::{Items, NoMemory, ObjNo, Slots, ThreadNo};

/// The object is a server of this owner, and no session.
fn start(rows: &mut ServerRows, object: ObjNo, owner: ThreadNo)
    ensures { rows.new ≡ after_add_server rows.old object owner }
{
    let row = ServerRow {
        owner,
        is_closing: false,
    };
    set_row(&mut rows.servers, object, Some(row));
    set_row(&mut rows.sessions, object, None);
}

/// The object is a session that is linked to a server behind its others, and no server.
fn join(
    rows: &mut ServerRows,
    object: ObjNo,
    server: ObjNo,
    slots: Slots,
    client: ThreadNo,
) -> Result<(), NoMemory>
    ensures { OnOk result (rows.new ≡ after_add_session rows.old object server slots client) }
{
    let row = SessionRow {
        server: Some(server),
        slots,
        client,
        connection: Connection::New,
    };
    set_row(&mut rows.servers, object, None);
    set_row(&mut rows.sessions, object, Some(row));
    push_to(&mut rows.linked, server, object)
}

/// The row of a server that is closing.
fn closing(row: Option<ServerRow>) -> Option<ServerRow>
    ensures { result ≡ option_map closing row }
{
    Some(ServerRow {
        is_closing: true,
        ..row?
    })
}

/// The server is closing.
fn close(rows: &mut ServerRows, server: ObjNo)
    ensures { rows.new ≡ after_closing rows.old server }
{
    let row = closing(row_of(&rows.servers, server));
    set_row(&mut rows.servers, server, row);
}

/// These servers are closing.
fn close_all(rows: &mut ServerRows, servers: &[ObjNo])
    ensures { rows.new ≡ all_closing servers.now rows.old }
{
    for server in servers {
        close(rows, *server);
    }
}

/// How far a session is that was opened, or closed.
fn connected(to: bool) -> Connection
    ensures { result ≡ connected to }
{
    if to {
        Connection::Open
    } else {
        Connection::Closed
    }
}

/// The row of a session that was opened, or closed.
fn opened(row: Option<SessionRow>, to: bool) -> Option<SessionRow>
    ensures { result ≡ option_map (opened to) row }
{
    Some(SessionRow {
        connection: connected(to),
        ..row?
    })
}

/// The session is open from now on, or closed.
fn set_open(rows: &mut ServerRows, session: ObjNo, to: bool)
    ensures { rows.new ≡ after_set_open rows.old session to }
{
    let row = opened(row_of(&rows.sessions, session), to);
    set_row(&mut rows.sessions, session, row);
}

/// One move in the rows of servers and sessions, in an action of a thread.
pub fn make_server_move(
    state: &mut State,
    thread: ThreadNo,
    change: ServerMove,
) -> Result<(), NoMemory>
    ensures { OnOk result (state.new ≡ moved thread (Move.Servers change) state.old) }
{
    match change {
        ServerMove::Start(object, owner) => start(&mut state.serving.servers, object, owner),
        ServerMove::Join(object, server, slots, client) => {
            return join(&mut state.serving.servers, object, server, slots, client);
        }
        ServerMove::Close(server) => close(&mut state.serving.servers, server),
        ServerMove::CloseAll(owner) => {
            close_all(
                &mut state.serving.servers,
                list_of(&state.serving.owned, owner),
            );
        }
        ServerMove::SetOpen(session, to) => set_open(&mut state.serving.servers, session, to),
        ServerMove::End(_) => {}
    }
    Ok(())
}

/// The server that a session is linked to.
pub fn server_of(rows: &ServerRows, session: ObjNo) -> Option<ObjNo>
    ensures { result ≡ server_of rows.now session }
{
    row_of(&rows.sessions, session)?.server
}

/// The row of a session that is linked to no server.
fn detached(row: Option<SessionRow>) -> Option<SessionRow>
    ensures { result ≡ option_map detached row }
{
    Some(SessionRow {
        server: None,
        ..row?
    })
}

/// A session leaves the list of its server, where it has one.
fn unlist(
    alloc: Global,
    linked: &mut Items<Items<ObjNo>>,
    server: Option<ObjNo>,
    session: ObjNo,
) -> Result<(), NoMemory>
    ensures { OnOk result (linked.new ≡ unlisted server session linked.old) }
{
    match server {
        Some(server) => remove_from(alloc, linked, server, session),
        None => Ok(()),
    }
}

/// The session is linked to no server any more.
fn detach(alloc: Global, rows: &mut ServerRows, session: ObjNo) -> Result<(), NoMemory>
    ensures { OnOk result (rows.new ≡ after_detach rows.old session) }
{
    let server = server_of(rows, session);
    let row = detached(row_of(&rows.sessions, session));
    set_row(&mut rows.sessions, session, row);
    unlist(alloc, &mut rows.linked, server, session)
}

/// A holder gives its reference up: the link of a session goes.
pub fn servers_lose(alloc: Global, rows: &mut ServerRows, holder: Holder) -> Result<(), NoMemory>
    ensures { OnOk result (rows.new ≡ servers_lose holder rows.old) }
{
    match holder {
        Holder::Link(session) => detach(alloc, rows, session),
        _ => Ok(()),
    }
}

/// A session that dies is linked to no server any more.
pub fn servers_closed(
    alloc: Global,
    rows: &mut ServerRows,
    dying: bool,
    object: ObjNo,
) -> Result<(), NoMemory>
    ensures { OnOk result (rows.new ≡ servers_closed dying object rows.old) }
{
    if dying {
        detach(alloc, rows, object)
    } else {
        Ok(())
    }
}

/// A swept object is no server and no session, and none is linked to it.
pub fn servers_swept(alloc: Global, rows: &mut ServerRows, object: ObjNo)
    ensures { rows.new ≡ after_sweep rows.old object }
{
    set_row(&mut rows.servers, object, None);
    set_row(&mut rows.sessions, object, None);
    clear_list(alloc, &mut rows.linked, object);
}

/// A holder gets a reference: an owner has a server more.
pub fn owned_gain(
    owned: &mut Items<Items<ObjNo>>,
    holder: Holder,
    object: ObjNo,
) -> Result<(), NoMemory>
    ensures { OnOk result (owned.new ≡ owned_gain holder object owned.old) }
{
    match holder {
        Holder::Own(thread) => push_to(owned, thread, object),
        _ => Ok(()),
    }
}

/// A holder gives its reference up: an owner has a server less.
pub fn owned_lose(
    alloc: Global,
    owned: &mut Items<Items<ObjNo>>,
    holder: Holder,
    object: ObjNo,
) -> Result<(), NoMemory>
    ensures { OnOk result (owned.new ≡ owned_lose holder object owned.old) }
{
    match holder {
        Holder::Own(thread) => remove_from(alloc, owned, thread, object),
        _ => Ok(()),
    }
}
