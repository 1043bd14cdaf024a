//! A worked example: a mutex locked twice is passed on once, to the waiter of the greatest priority.
use crate::same::{expect_same, expect_that};
use kern_sync::KernSync;
use state_rows::{Locked, Signalled, Unlocked};
use sym_base::ObjNo;

#[test]
fn waiters_are_served_by_priority(rt: HostRuntime) {
    let (a, b, c) = (ObjNo(1), ObjNo(2), ObjNo(3));
    let (mutex, semaphore) = (ObjNo(4), ObjNo(5));
    let mut sync = KernSync::new(rt.alloc(), 6, 4).expect(&rt, "memory");
    sync.new_row(mutex, None);
    sync.new_row(semaphore, Some(1));
    sync.set_priority(c, 20);
    expect_same(&rt, sync.lock(mutex, a), Locked::Taken);
    expect_same(&rt, sync.lock(mutex, a), Locked::Again);
    expect_same(&rt, sync.lock(mutex, b), Locked::Waits);
    expect_same(&rt, sync.lock(mutex, c), Locked::Waits);
    expect_same(&rt, sync.unlock(mutex, b), Unlocked::NotOwner);
    expect_same(&rt, sync.unlock(mutex, a), Unlocked::Level);
    expect_same(&rt, sync.unlock(mutex, a), Unlocked::Passed(c));
    expect_same(&rt, sync.free(mutex), Some(b));
    expect_same(&rt, sync.unlock(mutex, b), Unlocked::Freed);
    expect_that(&rt, sync.sem_wait(semaphore, a));
    expect_that(&rt, !sync.sem_wait(semaphore, a));
    expect_same(&rt, sync.best_waiter(semaphore), Some(a));
    expect_same(&rt, sync.sem_signal(semaphore), Signalled::Woke(a));
    expect_same(&rt, sync.sem_signal(semaphore), Signalled::Counted);
    sync.remove_waiter(a);
    expect_same(&rt, sync.count(semaphore), 1);
    drop(sync);
}
