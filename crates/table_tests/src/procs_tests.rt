//! A worked example: a process with a thread, whose rows are written and read. And what is written to the row of a
//! thread is read from it, by the readers that no other crate calls.
use crate::same::{expect_same, expect_that};
use entry_log::Part;
use procs::Procs;
use state_rows::{Stage, Waiting};
use sym_base::{Exit, ExitKind, Name, ObjNo};

#[test]
fn rows_keep_what_was_written(rt: HostRuntime) {
    let mut procs = Procs::new(rt.alloc(), 81).expect(&rt, "memory");
    procs.add_process(ObjNo(2));
    procs.add_thread(ObjNo(3), ObjNo(2));
    expect_same(&rt, procs.process_of(ObjNo(3)), ObjNo(2));
    expect_same(&rt, procs.stage(ObjNo(3)), Stage::Live);
    procs.set_stage(ObjNo(3), Stage::Doomed);
    procs.set_waiting(ObjNo(3), Waiting::Status(4));
    procs.set_part(ObjNo(3), Some(Part::Piece));
    procs.set_uses(ObjNo(3), Some(ObjNo(2)));
    procs.set_link(ObjNo(3), Some(ObjNo(2)));
    procs.set_register(ObjNo(3), 7, 65_536);
    procs.set_byte(ObjNo(2), 1_023, 65);
    expect_same(&rt, procs.stage(ObjNo(3)), Stage::Doomed);
    expect_same(&rt, procs.waiting(ObjNo(3)), Waiting::Status(4));
    expect_same(&rt, procs.uses(ObjNo(3)), Some(ObjNo(2)));
    expect_same(&rt, procs.link(ObjNo(3)), Some(ObjNo(2)));
    expect_that(&rt, matches!(procs.part(ObjNo(3)), Some(Part::Piece)));
    expect_same(&rt, procs.register(ObjNo(3), 7), 65_536);
    expect_same(&rt, procs.message(ObjNo(3), 7), 0);
    expect_same(&rt, procs.byte(ObjNo(2), 1_023), 65);
    expect_same(&rt, procs.byte(ObjNo(2), 1_022), 0);
    expect_same(&rt, procs.byte_at(ObjNo(2), 1_023), 65);
    expect_same(&rt, procs.byte_at(ObjNo(2), 1_024), 0);
    expect_same(&rt, procs.byte_at(ObjNo(3), 0), 0);
    expect_that(&rt, procs.thread(ObjNo(3)).is_some());
    expect_that(&rt, procs.thread(ObjNo(2)).is_none());
    expect_that(&rt, procs.is_process(ObjNo(2)));
    expect_that(&rt, !procs.is_process(ObjNo(81)));
    drop(procs);
}

#[test]
fn reads_the_row_of_a_thread(rt: HostRuntime) {
    let thread = ObjNo(3);
    let exit = Exit {
        kind: ExitKind::Kill,
        category: Name::EMPTY,
        reason: 5,
    };
    let mut procs = Procs::new(rt.alloc(), 4).expect(&rt, "memory");
    procs.add_thread(thread, ObjNo(2));
    procs.set_priority(thread, 20);
    procs.set_place(thread, 7);
    procs.set_found(thread, 9);
    procs.set_noted(thread, Some(exit));
    expect_same(&rt, procs.priority(thread), 20);
    expect_same(&rt, procs.place(thread), 7);
    expect_same(&rt, procs.found(thread), 9);
    expect_that(&rt, procs.exit(thread).is_none());
    expect_that(
        &rt,
        matches!(procs.noted(thread), Some(Exit { reason: 5, .. })),
    );
    drop(procs);
}
