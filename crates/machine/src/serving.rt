//! The rows of servers, sessions and messages.
ghost use Rattle.std.specs.Prelude.{◌≡◌, IfOk};

use crate::lists::copied_lists;
use state_rows::{MessageRows, ServerRows};
use std::alloc::{AllocError, Global};
use sym_base::{Items, ObjNo};

/// Servers and sessions, who owns servers, and messages.
#[derive(Drop)]
pub struct Serving {
    /// Servers and sessions, and which sessions are linked to which server.
    pub servers: ServerRows,
    /// The servers that each thread owns and that haven't ended, in order of making, in which it gives them up. Whose a server
    /// is, its row says; the two agree in every state (`AreServers`: `owners` and `once`).
    pub owned: Items<Items<ObjNo>>,
    /// The outstanding messages.
    pub messages: MessageRows,
}

/// The same rows of servers and sessions, a second time.
fn copied_servers(alloc: Global, servers: &ServerRows) -> Result<ServerRows, AllocError>
    ensures { IfOk result (λ copy. copy ≡ servers.now) }
{
    Ok(ServerRows {
        servers: servers.servers.copied(alloc)?,
        sessions: servers.sessions.copied(alloc)?,
        linked: copied_lists(alloc, servers.linked.as_slice())?,
    })
}

/// The same rows of messages, a second time.
fn copied_messages(alloc: Global, messages: &MessageRows) -> Result<MessageRows, AllocError>
    ensures { IfOk result (λ copy. copy ≡ messages.now) }
{
    Ok(MessageRows {
        objects: messages.objects,
        pool: messages.pool,
        accepted: messages.accepted,
        outstanding: messages.outstanding.copied(alloc)?,
    })
}

impl Serving {
    /// The same rows, a second time.
    pub fn copied(&self, alloc: Global) -> Result<Serving, AllocError>
        ensures { IfOk result (λ copy. copy ≡ self.now) }
    {
        Ok(Serving {
            servers: copied_servers(alloc, &self.servers)?,
            owned: copied_lists(alloc, self.owned.as_slice())?,
            messages: copied_messages(alloc, &self.messages)?,
        })
    }
}
