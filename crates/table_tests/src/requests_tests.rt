//! A worked example: a device completes a request, and another one is cancelled.
use crate::same::{expect_same, expect_that};
use requests::{Began, PENDING, Requests};
use sym_base::ObjNo;

#[test]
fn a_request_is_completed_and_another_cancelled(rt: HostRuntime) {
    let (one, other) = (ObjNo(2), ObjNo(3));
    let mut requests = Requests::new(rt.alloc(), 4, 2).expect(&rt, "memory");
    expect_that(&rt, requests.set_pending(one, 5));
    expect_that(&rt, !requests.set_pending(one, 5));
    expect_same(&rt, requests.begin(1, one, 5), Began::Begun);
    expect_same(&rt, requests.begin(1, other, 0), Began::InUse);
    expect_same(&rt, requests.value(one, 5), PENDING);
    expect_same(&rt, requests.value(ObjNo(4), 5), 0);
    expect_same(&rt, requests.cancel(1, other), None);
    expect_same(&rt, requests.finish_device(1), Some((one, 5)));
    expect_same(&rt, requests.finish_device(1), None);
    requests.signal_sync(one, -15);
    expect_same(&rt, requests.sync_value(one), -15);
    expect_that(&rt, !requests.take_signal(one));
    expect_same(&rt, requests.begin(0, other, 3), Began::Begun);
    expect_same(&rt, requests.cancel(0, other), Some(3));
    expect_same(&rt, requests.begin(0, other, 4), Began::Begun);
    requests.drop_all(other);
    expect_same(&rt, requests.begin(0, one, 6), Began::Begun);
    drop(requests);
}
