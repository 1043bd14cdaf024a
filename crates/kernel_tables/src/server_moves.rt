//! Moves in the tables of servers, sessions and messages.
ghost use Rattle.std.specs.Prelude.{◌≡◌};
ghost use Rattle.machine.specs.declared.message_move.MessageMove.{MessageMove};
ghost use Rattle.machine.specs.declared.server_move.ServerMove.{ServerMove};
ghost use Rattle.machine.specs.declared.moves.Move.TheVariants as Move;
ghost use Rattle.kernel_tables.specs.Moved.{IsMoved};
ghost use Rattle.kernel_tables.specs.Noted.{AreKept, TiedTables};
ghost use Rattle.kernel_tables.specs.ServerMoved.{CanAccept, CanMessage, CanServe};
ghost use Rattle.kernel_tables.specs.StateOf.{state_of};

use crate::tables::Tables;
use machine::{MessageMove, ServerMove};
use messages::Finished;
use ref_words::RefWords;
use state_rows::MsgRow;
use sym_base::{MsgNo, ObjNo, Slots, ThreadNo};
use table_moves::{close_all, owe_message};

/// An object is a session that is linked to a server.
fn join<W: RefWords + Drop>(
    tables: &mut Tables<W>,
    session: ObjNo,
    server: ObjNo,
    slots: Slots,
    client: ThreadNo,
)
    requires can { CanServe (ServerMove.Join session server slots client) (state_of tables.old) }
    requires kept { AreKept tables.old }
    ensures { (t : ObjNo) → IsMoved t (Move.Servers (ServerMove.Join session server slots client)) tables.old tables.new }
{
    tables.objects.add_ref(server);
    tables.servers.add_session(session, server, slots, client);
}

/// One move in the table of servers and sessions.
pub fn move_server<W: RefWords + Drop>(tables: &mut Tables<W>, change: ServerMove)
    requires can { CanServe change (state_of tables.old) }
    requires kept { AreKept tables.old }
    ensures { (t : ObjNo) → IsMoved t (Move.Servers change) tables.old tables.new }
{
    match change {
        ServerMove::Start(object, owner) => tables.servers.add_server(object, owner),
        ServerMove::Join(session, server, slots, client) => {
            join(tables, session, server, slots, client);
        }
        ServerMove::Close(server) => tables.servers.begin_closing(server),
        ServerMove::CloseAll(owner) => close_all(&mut tables.servers, &tables.cleanup, owner),
        ServerMove::SetOpen(session, to) => tables.servers.set_open(session, to),
        ServerMove::End(_) => {}
    }
}

/// A message is accepted, with its references to its session and its client.
fn accept<W: RefWords + Drop>(tables: &mut Tables<W>, slots: Slots, row: MsgRow)
    requires can { CanAccept (state_of tables.old) slots row }
    requires kept { AreKept tables.old }
    ensures { (t : ObjNo) → IsMoved t (Move.Messages (MessageMove.Accept slots row)) tables.old tables.new }
{
    tables.objects.add_ref(row.session);
    tables.objects.add_ref(row.client);
    let MsgRow {
        session,
        server,
        client,
        function,
        args,
        way,
        ..
    } = row;
    let _ = tables
        .messages
        .accept(session, server, client, slots, function, args, way);
}

/// A message is finished, and the thread owes the closes of its references.
fn finish<W: RefWords + Drop>(tables: &mut Tables<W>, thread: ThreadNo, number: MsgNo, code: i32)
    requires can { CanMessage thread (MessageMove.Finish number code) (state_of tables.old) }
    requires tied { TiedTables tables.old }
    ensures { IsMoved thread (Move.Messages (MessageMove.Finish number code)) tables.old tables.new }
{
    let Finished {
        session,
        client,
        ..
    } = tables.messages.finish(number);
    owe_message(&mut tables.cleanup, thread, number, session, client);
}

/// One move in the table of messages, in an action of a thread.
pub fn move_message<W: RefWords + Drop>(
    tables: &mut Tables<W>,
    thread: ThreadNo,
    change: MessageMove,
)
    requires can { CanMessage thread change (state_of tables.old) }
    requires kept { AreKept tables.old }
    ensures { IsMoved thread (Move.Messages change) tables.old tables.new }
{
    match change {
        MessageMove::Accept(slots, row) => accept(tables, slots, row),
        MessageMove::Take(server) => {
            let _ = tables.messages.take_next(server);
        }
        MessageMove::Finish(number, code) => finish(tables, thread, number, code),
    }
}
