//! Servers and sessions: who owns which server, what is closing, and what is linked.
ghost use Rattle.std.specs.Prelude.{◌≡◌, ◌<◌, All, IfSome, length};
ghost use Rattle.std.specs.List.{find};
ghost use Rattle.sym_base.specs.declared.limits.TheConstants.Limits.{OBJECTS};
ghost use Rattle.cleanup.specs.Lists.{list_of};
ghost use Rattle.machine.specs.ServerMoves.{all_closing, owned_gain, owned_lose, servers_closed, servers_lose};
ghost use Rattle.state_rows.specs.ServerChanges.{after_detach};
ghost use Rattle.state_rows.specs.ServerRows.{IsServer, is_closing, server_of};
ghost use Rattle.table_moves.specs.Owning.{MayDisown, MayOwn, with_owned};

use cleanup::{Cleanup, Held};
use entry_log::Holder;
use server_table::ServerTable;
use sym_base::{Limits, ObjNo, ThreadNo};

/// Whether an object is a closing server.
fn is_closing(servers: &ServerTable, object: ObjNo) -> bool
    ensures { result ≡ is_closing servers.now object }
{
    match servers.server_at(object) {
        Some(row) => row.is_closing,
        None => false,
    }
}

/// The first closing server that a thread owns, in order of making.
#[tactic(auto, using(crate::proofs::Owned::drop_at, crate::proofs::Owned::drop_end, crate::proofs::Owned::owned_at, crate::proofs::Owned::past_end))]
pub fn first_closing(cleanup: &Cleanup, servers: &ServerTable, thread: ThreadNo) -> Option<ObjNo>
    requires { cleanup.now.objects ≡ OBJECTS }
    ensures first { result ≡ find (is_closing servers.now) (list_of cleanup.now.servers thread) }
    ensures known { IfSome result (λ server. server.0 < length servers.now.servers) }
{
    if thread.0 as usize >= cleanup.threads() {
        return None;
    }
    let mut next = cleanup.next_server(thread, None);
    if next.is_none() {
        return None;
    }
    for _place in 0..Limits::OBJECTS {
        let object = next?;
        if is_closing(servers, object) {
            return Some(object);
        }
        next = cleanup.next_server(thread, Some(object));
    }
    None
}

/// Each server that a thread owns is closing.
#[tactic(auto, using(crate::proofs::Owned::drop_at, crate::proofs::Owned::drop_end, crate::proofs::Owned::owned_at, crate::proofs::Owned::past_end, crate::proofs::Owned::closing_keeps))]
pub fn close_all(servers: &mut ServerTable, cleanup: &Cleanup, thread: ThreadNo)
    requires listed { cleanup.now.objects ≡ OBJECTS }
    requires servers { All (IsServer servers.old) (list_of cleanup.now.servers thread) }
    ensures { servers.new ≡ all_closing (list_of cleanup.now.servers thread) servers.old }
{
    if thread.0 as usize >= cleanup.threads() {
        return;
    }
    let mut next = cleanup.next_server(thread, None);
    for _place in 0..Limits::OBJECTS {
        let Some(server) = next else {
            return;
        };
        servers.begin_closing(server);
        next = cleanup.next_server(thread, Some(server));
    }
}

/// The server that a session is linked to.
pub fn server_of(servers: &ServerTable, session: ObjNo) -> Option<ObjNo>
    ensures { result ≡ server_of servers.now session }
{
    servers.session_at(session)?.server
}

/// An object that is linked to a server isn't any more.
#[tactic(auto, using(crate::proofs::Owned::detached_none))]
fn detach(servers: &mut ServerTable, session: ObjNo)
    ensures { servers.new ≡ after_detach servers.old session }
{
    if server_of(servers, session).is_some() {
        servers.detach(session);
    }
}

/// A holder gives its reference up: the link of a session goes.
pub fn servers_lose(servers: &mut ServerTable, holder: Holder)
    ensures { servers.new ≡ servers_lose holder servers.old }
{
    if let Holder::Link(session) = holder {
        detach(servers, session);
    }
}

/// A reference to an object goes: with its last one a session is linked to no server any more.
pub fn servers_closed(servers: &mut ServerTable, last: bool, object: ObjNo)
    ensures { servers.new ≡ servers_closed last object servers.old }
{
    if last {
        detach(servers, object);
    }
}

/// An object is made whose first reference is the holder's: where that is an owner, it has a server more.
pub fn owned_gain(cleanup: &mut Cleanup, holder: Holder, object: ObjNo)
    requires { MayOwn cleanup.old holder object }
    ensures { cleanup.new ≡ with_owned cleanup.old (owned_gain holder object cleanup.old.servers) }
{
    let Holder::Own(thread) = holder else {
        return;
    };
    if (thread.0 as usize) < cleanup.threads() {
        cleanup.push(thread, Held::Server(object));
    }
}

/// A holder gives its reference up: where it is an owner, it has a server less.
pub fn owned_lose(cleanup: &mut Cleanup, holder: Holder, object: ObjNo)
    requires { MayDisown cleanup.old holder object }
    ensures { cleanup.new ≡ with_owned cleanup.old (owned_lose holder object cleanup.old.servers) }
{
    let Holder::Own(thread) = holder else {
        return;
    };
    if (thread.0 as usize) < cleanup.threads() {
        cleanup.remove(thread, Held::Server(object));
    }
}
