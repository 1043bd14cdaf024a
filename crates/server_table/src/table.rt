//! The table of servers and sessions, and its calls.
ghost use Rattle.std.specs.Prelude.{◌≡◌, ◌<◌, ◌↔◌, false, [], length, slice_get, IsTrue, IsNone, IsSome, IfOk, IfSome, Some};
ghost use Rattle.sym_base.specs.declared.number.ObjNo.{ObjNo};
ghost use Rattle.state_rows.specs.ServerRows.{IsServer, IsSession, server_at, session_at, linked_at, owner_of, is_closing, link_of, server_of, holds};
ghost use Rattle.state_rows.specs.ServerChanges.{no_rows, IsAlone, after_add_server, after_add_session, after_closing, after_detach, after_set_open, after_sweep, connected};

use links::Links;
use state_rows::{Connection, ServerRow, SessionRow};
use std::alloc::Global;
use std::marker::Model;
use sym_base::{NoMemory, ObjNo, Slots, ThreadNo};

/// Servers and sessions (Symbian OS Internals, the chapter on inter-process communication): who owns each
/// server, and whether it is closing; of each session its server, its slots, its client, and whether it was
/// opened; and of each server the sessions that are linked to it, in order of making. A session is linked
/// from when it is added until it is detached. That a closing server's sessions are detached one by one, in
/// order of making, is this project's own. A contract sees the rows by object number, and the linked
/// sessions by the number of their server.
///
/// No call but `new` takes memory.
#[derive(Drop)]
pub struct ServerTable {
    servers: Vec<Option<ServerRow>>,
    sessions: Vec<Option<SessionRow>>,
    links: Links,
}

impl Model for ServerTable {
    ghost use Rattle.state_rows.specs.declared.servers.ServerRows.{ServerRows};
    ghost use Rattle.server_table.specs.Kept.{AreKept, rows_of};

    ghost Value = { ServerRows };

    ghost view = { λ a. rows_of a.servers.items a.sessions.items a.links };

    ghost invariant = { λ a. AreKept a.servers.items a.sessions.items a.links };
}

impl ServerTable {
    /// A table for the objects below a number, of which none is a server or a session. It takes all the
    /// memory that the table ever needs.
    pub fn new(alloc: Global, objects: u16) -> Result<ServerTable, NoMemory>
        ensures { IfOk result (λ table. table ≡ no_rows objects) }
    {
        let servers = vec![in alloc; None; objects as usize]?;
        let sessions = vec![in alloc; None; objects as usize]?;
        let links = Links::new(alloc, objects as u32, objects as u32)?;
        Ok(ServerTable {
            servers,
            sessions,
            links,
        })
    }

    /// Makes an object a server of a thread, whatever it was before. It isn't closing.
    pub fn add_server(&mut self, o: ObjNo, owner: ThreadNo)
        requires object { o.0 < length self.old.servers }
        requires alone { IsAlone self.old o }
        ensures { self.new ≡ after_add_server self.old o owner }
    {
        self.servers[o.0 as usize] = Some(ServerRow {
            owner,
            is_closing: false,
        });
        self.sessions[o.0 as usize] = None;
    }

    /// Makes an object a session of a client at a server that isn't closing, whatever it was before. It is
    /// linked to the server behind the sessions that are linked already, and isn't open yet.
    pub fn add_session(&mut self, s: ObjNo, server: ObjNo, slots: Slots, client: ThreadNo)
        requires object { s.0 < length self.old.servers }
        requires alone { IsAlone self.old s }
        requires server { IsServer self.old server }
        requires accepts { is_closing self.old server ≡ false }
        ensures { self.new ≡ after_add_session self.old s server slots client }
    {
        self.servers[s.0 as usize] = None;
        self.sessions[s.0 as usize] = Some(SessionRow {
            server: Some(server),
            slots,
            client,
            connection: Connection::New,
        });
        self.links.push_back(server.0 as u32, s.0 as u32);
    }

    /// A server begins closing. It goes on closing where it did so already.
    pub fn begin_closing(&mut self, server: ObjNo)
        requires { IsServer self.old server }
        ensures { self.new ≡ after_closing self.old server }
    {
        let row = self.server_row(server);
        self.servers[server.0 as usize] = Some(ServerRow {
            is_closing: true,
            ..row
        });
    }

    /// The row of a server; None for every other object.
    pub fn server_at(&self, o: ObjNo) -> Option<ServerRow>
        ensures { result ≡ server_at self.now o }
    {
        *self.servers.get(o.0 as usize)?
    }

    /// The row of a session; None for every other object.
    pub fn session_at(&self, o: ObjNo) -> Option<SessionRow>
        ensures { result ≡ session_at self.now o }
    {
        *self.sessions.get(o.0 as usize)?
    }

    /// Whether an object is a closing server.
    pub fn is_closing(&self, server: ObjNo) -> bool
        requires { server.0 < length self.now.servers }
        ensures { result ≡ is_closing self.now server }
    {
        match self.servers[server.0 as usize] {
            Some(row) => row.is_closing,
            None => false,
        }
    }

    /// The thread that owns a server.
    pub fn owner(&self, server: ObjNo) -> ThreadNo
        requires { IsServer self.now server }
        ensures { Some result ≡ owner_of self.now server }
    {
        self.server_row(server).owner
    }

    /// The server that a session is linked to. None exactly where the session is detached.
    pub fn server_of(&self, s: ObjNo) -> Option<ObjNo>
        requires { IsSession self.now s }
        ensures server { result ≡ server_of self.now s }
        ensures linked { (server : ObjNo) → IsTrue (holds s (linked_at self.now server)) ↔ (result ≡ Some server) }
        ensures known { IfSome result (λ server. server.0 < length self.now.servers) }
    {
        link_of_row(self.sessions[s.0 as usize])
    }

    /// The first session in order of making that is linked to a server. None exactly where none is.
    pub fn next_link(&self, server: ObjNo) -> Option<ObjNo>
        requires { server.0 < length self.now.servers }
        ensures first { result ≡ slice_get (linked_at self.now server) 0 }
        ensures none { IsNone result ↔ (linked_at self.now server ≡ []) }
        ensures linked { IfSome result (λ s. server_of self.now s ≡ Some server) }
        ensures known { IfSome result (λ s. s.0 < length self.now.sessions) }
    {
        let node = self.links.first(server.0 as u32)?;
        Some(ObjNo(node as u16))
    }

    /// Detaches a linked session from its server.
    pub fn detach(&mut self, s: ObjNo)
        requires { IsSome (server_of self.old s) }
        ensures { self.new ≡ after_detach self.old s }
    {
        let row = self.row(s);
        self.sessions[s.0 as usize] = Some(SessionRow {
            server: None,
            ..row
        });
        self.links.unlink(s.0 as u32);
    }

    /// The row of a session.
    pub fn row(&self, s: ObjNo) -> SessionRow
        requires { IsSession self.now s }
        ensures { Some result ≡ session_at self.now s }
    {
        match self.sessions[s.0 as usize] {
            Some(row) => row,
            None => unreachable!(),
        }
    }

    /// An object is no server and no session any more. Nobody is linked to it, and it is linked to nothing.
    pub fn sweep(&mut self, o: ObjNo)
        requires object { o.0 < length self.old.servers }
        requires alone { IsAlone self.old o }
        ensures { self.new ≡ after_sweep self.old o }
    {
        let at = o.0 as usize;
        self.servers[at] = None;
        self.sessions[at] = None;
    }

    /// Notes that a session was opened, or that it was closed, and changes nothing else.
    pub fn set_open(&mut self, s: ObjNo, to: bool)
        requires { IsSession self.old s }
        ensures { self.new ≡ after_set_open self.old s to }
    {
        let row = self.row(s);
        let connection = connected(to);
        self.sessions[s.0 as usize] = Some(SessionRow { connection, ..row });
    }

    /// The row of a server.
    fn server_row(&self, server: ObjNo) -> ServerRow
        requires { IsServer self.now server }
        ensures { Some result ≡ server_at self.now server }
    {
        match self.servers[server.0 as usize] {
            Some(row) => row,
            None => unreachable!(),
        }
    }
}

/// How far a session is that was opened, or closed.
fn connected(to: bool) -> Connection
    ensures { result ≡ connected to }
{
    if to {
        Connection::Open
    } else {
        Connection::Closed
    }
}

/// The server that a session's row has.
fn link_of_row(row: Option<SessionRow>) -> Option<ObjNo>
    ensures { result ≡ link_of row }
{
    match row {
        Some(row) => row.server,
        None => None,
    }
}
