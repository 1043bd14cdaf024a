//! A worked example: an interrupt queues two calls, and the one of greater priority runs first.
use crate::same::{expect_same, expect_that};
use deferred::{Deferred, DfcPlace, FIRST_BURIAL, Item};

#[test]
fn calls_run_by_priority_and_arrival(rt: HostRuntime) {
    let low = DfcPlace {
        queue: 1,
        priority: 0,
    };
    let high = DfcPlace {
        queue: 1,
        priority: 7,
    };
    let mut deferred = Deferred::new(rt.alloc(), 2, 1, &[low, high], 4).expect(&rt, "memory");
    expect_that(&rt, deferred.add_from_irq(0));
    expect_that(&rt, !deferred.add(0));
    expect_that(&rt, deferred.add_idfc(0));
    expect_that(&rt, deferred.add(FIRST_BURIAL + 3));
    expect_same(&rt, deferred.next_idfc(), Some(Item::Move(0)));
    expect_that(&rt, deferred.add(0));
    expect_that(&rt, deferred.add(1));
    expect_same(&rt, deferred.first_idfc(), Some(Item::Idfc(0)));
    expect_same(&rt, deferred.next_dfc(1), Some(1));
    expect_same(&rt, deferred.next_dfc(1), Some(0));
    expect_same(&rt, deferred.first_dfc(1), None);
    expect_same(&rt, deferred.first_dfc(0), Some(67));
    drop(deferred);
}
