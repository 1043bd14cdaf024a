//! Worked examples: two servers, a session with two slots, and sessions of the pool.
use crate::same::{expect_same, expect_that};
use messages::{Accepted, Finished, Messages};
use state_rows::Way;
use sym_base::{Arg, MsgNo, ObjNo, Slots};

const ARGS: [Arg; 4] = [
    Arg::Number(7),
    Arg::Number(0),
    Arg::Number(0),
    Arg::Number(0),
];

#[tactic(auto, unfolding(state_rows::specs::MessageRows::most_messages))]
#[test]
fn messages_are_taken_in_order_and_finished_in_any(rt: HostRuntime) {
    let (files, fonts) = (ObjNo(3), ObjNo(4));
    let (s, other) = (ObjNo(5), ObjNo(6));
    let client = ObjNo(2);
    let mut table = Messages::new(rt.alloc(), 7, 1).expect(&rt, "memory");
    let connected = table.accept(s, files, client, Slots::Own(2), -1, ARGS, Way::Sync);
    expect_same(&rt, connected, Accepted::Message(MsgNo(1)));
    table.accept(other, fonts, client, Slots::Pool, 3, ARGS, Way::Async(0));
    table.accept(s, files, client, Slots::Own(2), 4, ARGS, Way::Async(1));
    expect_same(&rt, table.take_next(files), Some(MsgNo(1)));
    expect_same(&rt, table.take_next(files), Some(MsgNo(3)));
    expect_same(&rt, table.take_next(files), None);
    expect_that(&rt, table.taken(MsgNo(3)));
    expect_that(&rt, !table.taken(MsgNo(2)));
    let finished = Finished {
        session: s,
        client,
        way: Way::Async(1),
    };
    expect_same(&rt, table.finish(MsgNo(3)), finished);
    expect_same(&rt, table.first_of(files), Some(MsgNo(1)));
    table.finish(MsgNo(1));
    expect_same(&rt, table.first_of(files), None);
    expect_that(&rt, table.row(MsgNo(1)).is_none());
    expect_same(&rt, table.first_of(fonts), Some(MsgNo(2)));
    drop(table);
}

#[tactic(auto, unfolding(state_rows::specs::MessageRows::most_messages))]
#[test]
fn a_sender_is_told_busy_when_all_slots_are_used(rt: HostRuntime) {
    let (files, s, client) = (ObjNo(3), ObjNo(5), ObjNo(2));
    let mut table = Messages::new(rt.alloc(), 7, 1).expect(&rt, "memory");
    table.accept(s, files, client, Slots::Own(2), 1, ARGS, Way::Async(0));
    table.accept(s, files, client, Slots::Own(2), 2, ARGS, Way::Sync);
    expect_that(&rt, !table.is_full(s, Slots::Own(2)));
    table.accept(s, files, client, Slots::Own(2), 3, ARGS, Way::Async(1));
    expect_that(&rt, table.is_full(s, Slots::Own(2)));
    let busy = Accepted::Busy { used: 2, slots: 2 };
    let third = table.accept(s, files, client, Slots::Own(2), 4, ARGS, Way::Async(2));
    expect_same(&rt, third, busy);
    let closed = table.accept(s, files, client, Slots::Own(2), -2, ARGS, Way::Disconnect);
    expect_same(&rt, closed, Accepted::Message(MsgNo(4)));
    table.accept(ObjNo(4), files, client, Slots::Pool, 1, ARGS, Way::Async(3));
    let of_pool = table.accept(ObjNo(6), files, client, Slots::Pool, 1, ARGS, Way::Async(4));
    expect_same(&rt, of_pool, Accepted::Busy { used: 1, slots: 1 });
    drop(table);
}

#[tactic(auto, unfolding(state_rows::specs::MessageRows::most_messages))]
#[test]
fn a_descriptor_gets_another_length(rt: HostRuntime) {
    let shorter = Arg::Descriptor {
        offset: 64,
        length: 3,
        max: 20,
    };
    let args = [Arg::Number(7), Arg::Number(0), shorter, Arg::Number(0)];
    let mut table = Messages::new(rt.alloc(), 4, 0).expect(&rt, "memory");
    table.accept(
        ObjNo(3),
        ObjNo(1),
        ObjNo(2),
        Slots::Own(1),
        1,
        args,
        Way::Sync,
    );
    table.set_length(MsgNo(1), 2, 20);
    let row = table.row(MsgNo(1)).expect(&rt, "the message");
    let longer = Arg::Descriptor {
        offset: 64,
        length: 20,
        max: 20,
    };
    expect_same(
        &rt,
        row.args,
        [Arg::Number(7), Arg::Number(0), longer, Arg::Number(0)],
    );
    drop(table);
}
