//! A worked example: two threads, of which one wants the fast mutex that the other holds.
use crate::same::{expect_same, expect_that};
use nano_sync::NanoSync;
use sym_base::ObjNo;

#[test]
fn threads_synchronize_by_counts_and_mutexes(rt: HostRuntime) {
    let (one, other) = (ObjNo(2), ObjNo(3));
    let mut sync = NanoSync::new(rt.alloc(), 4, 2).expect(&rt, "memory");
    expect_that(&rt, sync.take(one, 1));
    expect_that(&rt, !sync.take(other, 1));
    sync.set_want(other, Some(1));
    expect_same(&rt, sync.holder(1), Some(one));
    expect_same(&rt, sync.want(other), Some(1));
    expect_that(&rt, sync.protected(one));
    expect_that(&rt, !sync.give(other, 1));
    expect_that(&rt, sync.give(one, 1));
    expect_same(&rt, sync.held(one), None);
    sync.enter(one);
    expect_that(&rt, sync.suspend(one));
    expect_that(&rt, sync.protected(one));
    expect_that(&rt, sync.leave(one));
    expect_same(&rt, sync.suspend_count(one), 1);
    expect_that(&rt, sync.resume(one));
    expect_that(&rt, !sync.resume(one));
    sync.signal(one);
    expect_that(&rt, sync.try_wait(one));
    expect_that(&rt, !sync.try_wait(one));
    drop(sync);
}
