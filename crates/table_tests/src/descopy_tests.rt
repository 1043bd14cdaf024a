//! Worked examples: a server, thread 3 of process 2, that took message 1 of a client, thread 5 of process 4 or 2.
ghost use Rattle.std.specs.Prelude.{◌≡◌, ◌<◌, IfSome};
ghost use Rattle.copy_rules.specs.Ends.{ends_of};

use crate::same::expect_same;
use copy_rules::{Ends, argument_of, process_of, read_size, stage_of};
use descopy::{Descopy, Job, Piece};
use messages::Messages;
use procs::Procs;
use state_rows::{Stage, Way};
use std::alloc::Global;
use sym_base::{Arg, MsgNo, NoMemory, ObjNo, Slots, ThreadNo};

const OURS: ObjNo = ObjNo(2);

const THEIRS: ObjNo = ObjNo(4);

/// The two processes and the two threads, the client's in this process.
fn two_threads(alloc: Global, client: ObjNo) -> Result<Procs, NoMemory> {
    let mut procs = Procs::new(alloc, 6)?;
    procs.add_process(ObjNo(2));
    procs.add_thread(ObjNo(3), ObjNo(2));
    procs.add_process(ObjNo(4));
    procs.add_thread(ObjNo(5), client);
    Ok(procs)
}

/// A message with this first argument, which the server took.
#[tactic(auto, unfolding(state_rows::specs::MessageRows::most_messages))]
fn taken_message(alloc: Global, first: Arg) -> Result<Messages, NoMemory> {
    let mut messages = Messages::new(alloc, 2, 0)?;
    let mut args = [Arg::Number(0); 4];
    args[0] = first;
    let client = ObjNo(5);
    messages.accept(
        ObjNo(0),
        ObjNo(1),
        client,
        Slots::Own(1),
        1,
        args,
        Way::Sync,
    );
    messages.take_next(ObjNo(1));
    Ok(messages)
}

/// The first piece of a copy of the first argument's bytes, from its first byte on.
fn first_piece(len: u16, at: u16) -> Job {
    Job {
        caller: ObjNo(3),
        m: MsgNo(1),
        arg: 0,
        offset: 0,
        len,
        at,
        done: 0,
    }
}

/// Sets a byte, where there is such a process.
fn put(procs: &mut Procs, p: ObjNo, at: u16, byte: u8) {
    if procs.is_process(p) && at < 1_024 {
        procs.set_byte(p, at, byte);
    }
}

/// The two ends of a copy that a message names, None where there is no such message.
fn ends_of(procs: &Procs, messages: &Messages, job: &Job) -> Option<Ends>
    requires { job.now.arg < 4 }
    ensures { IfSome result (λ ends. ends ≡ ends_of procs.now.threads messages.now job.now) }
{
    let row = messages.row(job.m)?;
    let client = procs.thread(row.client);
    let caller = procs.thread(job.caller);
    Some(Ends {
        stage: stage_of(client),
        client: process_of(client),
        argument: argument_of(&row, job.arg),
        caller: process_of(caller),
    })
}

/// A piece of a read, None where the tables don't have what it needs.
fn read(procs: &mut Procs, messages: &mut Messages, job: Job) -> Option<Piece> {
    if !messages.taken(job.m) || job.arg > 3 {
        return None;
    }
    let ends = ends_of(procs, messages, &job)?;
    if job.done > read_size(&ends, &job) {
        return None;
    }
    let mut tables = Descopy { procs, messages };
    Some(tables.read_piece(job))
}

/// A piece of a write, None where the tables don't have what it needs.
fn write(procs: &mut Procs, messages: &mut Messages, job: Job) -> Option<Piece> {
    if !messages.taken(job.m) || job.arg > 3 || job.done > job.len {
        return None;
    }
    let mut tables = Descopy { procs, messages };
    Some(tables.write_piece(job))
}

#[test]
fn a_read_goes_on_until_its_client_dies(rt: HostRuntime) {
    let mut procs = two_threads(rt.alloc(), THEIRS).expect(&rt, "memory");
    put(&mut procs, THEIRS, 63, 65);
    put(&mut procs, THEIRS, 64, 65);
    let bytes = Arg::Descriptor {
        offset: 0,
        length: 100,
        max: 100,
    };
    let mut messages = taken_message(rt.alloc(), bytes).expect(&rt, "memory");
    let first = read(&mut procs, &mut messages, first_piece(100, 0));
    expect_same(&rt, first, Some(Piece::More(64)));
    let mut job = first_piece(100, 0);
    job.done = 64;
    assert!(rt; procs.is_thread(ObjNo(5)));
    procs.set_stage(ObjNo(5), Stage::Doomed);
    let dead = read(&mut procs, &mut messages, job);
    expect_same(&rt, dead, Some(Piece::Died));
    expect_same(&rt, procs.byte_at(OURS, 63), 65);
    expect_same(&rt, procs.byte_at(OURS, 64), 0);
    assert!(rt; procs.is_thread(ObjNo(5)));
    procs.set_stage(ObjNo(5), Stage::Live);
    let last = read(&mut procs, &mut messages, job);
    expect_same(&rt, last, Some(Piece::Whole(100)));
    expect_same(&rt, procs.byte_at(OURS, 64), 65);
    drop(procs);
    drop(messages);
}

#[test]
fn a_descriptor_takes_no_more_than_it_may_have(rt: HostRuntime) {
    let mut procs = two_threads(rt.alloc(), THEIRS).expect(&rt, "memory");
    for at in 0..32 {
        put(&mut procs, OURS, at, 7);
    }
    let bytes = Arg::Descriptor {
        offset: 8,
        length: 0,
        max: 16,
    };
    let mut messages = taken_message(rt.alloc(), bytes).expect(&rt, "memory");
    let whole = write(&mut procs, &mut messages, first_piece(16, 0));
    expect_same(&rt, whole, Some(Piece::Whole(16)));
    let over = write(&mut procs, &mut messages, first_piece(17, 0));
    expect_same(&rt, over, Some(Piece::Overflow));
    expect_same(&rt, procs.byte_at(THEIRS, 8), 7);
    expect_same(&rt, procs.byte_at(THEIRS, 23), 7);
    expect_same(&rt, procs.byte_at(THEIRS, 24), 0);
    let filled = Arg::Descriptor {
        offset: 8,
        length: 16,
        max: 16,
    };
    let row = messages.row(MsgNo(1)).expect(&rt, "the message");
    expect_same(&rt, row.args[0], filled);
    drop(procs);
    drop(messages);
}

/// The first bytes of a process's memory.
fn first_bytes(procs: &Procs, p: ObjNo) -> [u8; 6] {
    [
        procs.byte_at(p, 0),
        procs.byte_at(p, 1),
        procs.byte_at(p, 2),
        procs.byte_at(p, 3),
        procs.byte_at(p, 4),
        procs.byte_at(p, 5),
    ]
}

#[test]
fn a_piece_is_read_whole_before_it_is_written(rt: HostRuntime) {
    let mut procs = two_threads(rt.alloc(), OURS).expect(&rt, "memory");
    for at in 0..4 {
        put(&mut procs, OURS, at, at as u8 + 1);
    }
    let bytes = Arg::Descriptor {
        offset: 0,
        length: 4,
        max: 4,
    };
    let mut messages = taken_message(rt.alloc(), bytes).expect(&rt, "memory");
    let whole = read(&mut procs, &mut messages, first_piece(4, 1));
    expect_same(&rt, whole, Some(Piece::Whole(4)));
    expect_same(&rt, first_bytes(&procs, OURS), [1, 1, 2, 3, 4, 0]);
    drop(procs);
    drop(messages);
}
