//! A worked example: two sessions of a server are detached in order of making, once it is closing.
use crate::same::{expect_same, expect_that};
use server_table::ServerTable;
use state_rows::{Connection, SessionRow};
use sym_base::{ObjNo, Slots};

#[test]
fn sessions_go_in_order_of_making(rt: HostRuntime) {
    let (owner, client) = (ObjNo(1), ObjNo(2));
    let (server, late, early) = (ObjNo(3), ObjNo(4), ObjNo(5));
    let mut table = ServerTable::new(rt.alloc(), 6).expect(&rt, "memory");
    table.add_server(server, owner);
    table.add_session(early, server, Slots::Own(3), client);
    table.add_session(late, server, Slots::Pool, client);
    table.set_open(early, true);
    expect_same(&rt, table.owner(server), owner);
    expect_that(&rt, !table.is_closing(server));
    table.begin_closing(server);
    expect_that(&rt, table.is_closing(server));
    expect_same(&rt, table.next_link(server), Some(early));
    table.detach(early);
    expect_same(&rt, table.next_link(server), Some(late));
    expect_same(&rt, table.server_of(late), Some(server));
    table.detach(late);
    expect_same(&rt, table.next_link(server), None);
    let row = SessionRow {
        server: None,
        slots: Slots::Own(3),
        client,
        connection: Connection::Open,
    };
    expect_same(&rt, table.row(early), row);
    table.sweep(early);
    expect_that(&rt, table.session_at(early).is_none());
    drop(table);
}
