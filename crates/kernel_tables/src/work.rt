//! What an owner has of its closing servers.
ghost use Rattle.std.specs.Prelude.{◌≡◌, ◌<◌, Some, length, slice_get};
ghost use Rattle.sym_base.specs.declared.limits.TheConstants.Limits.{OBJECTS};
ghost use Rattle.machine.specs.Holdings.{held_servers, server_holdings};
ghost use Rattle.kernel_tables.specs.StateOf.{state_of};

use crate::tables::Tables;
use machine::Holding;
use ref_words::RefWords;
use sym_base::{ObjNo, ThreadNo};
use table_moves::first_closing;

/// The first of what the owner of a closing server has of it: a message, a linked session, or the server itself.
#[tactic(auto, using(plain_reads::proofs::Work::work_first))]
fn first_of<W: RefWords + Drop>(tables: &Tables<W>, server: ObjNo) -> Holding
    requires { server.0 < length tables.now.servers.servers }
    ensures { Some result ≡ slice_get (server_holdings (state_of tables.now) server) 0 }
{
    if let Some(message) = tables.messages.first_of(server) {
        return Holding::Message(message);
    }
    match tables.servers.next_link(server) {
        Some(session) => Holding::Link(session, server),
        None => Holding::Server(server),
    }
}

/// The first of what a thread has of its closing servers.
#[inline(always)]
#[tactic(auto, using(plain_reads::proofs::Work::first_of_closing, plain_reads::proofs::Work::none_closing))]
pub fn first_work<W: RefWords + Drop>(tables: &Tables<W>, thread: ThreadNo) -> Option<Holding>
    requires { tables.now.cleanup.objects ≡ OBJECTS }
    ensures { result ≡ slice_get (held_servers (state_of tables.now) thread) 0 }
{
    let server = first_closing(&tables.cleanup, &tables.servers, thread)?;
    Some(first_of(tables, server))
}
