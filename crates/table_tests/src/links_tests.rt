//! Two lists of five nodes.
use crate::same::{expect_same, expect_that};
use links::Links;

#[test]
fn nodes_leave_at_any_place(rt: HostRuntime) {
    let mut links = Links::new(rt.alloc(), 5, 2).expect(&rt, "memory");
    links.push_back(0, 3);
    links.push_back(0, 1);
    links.push_front(0, 4);
    links.push_back(1, 0);
    links.unlink(3);
    expect_same(&rt, links.first(0), Some(4));
    expect_same(&rt, links.next(4), Some(1));
    expect_same(&rt, links.pop_front(1), Some(0));
    expect_same(&rt, links.pop_front(1), None);
    expect_that(&rt, !links.is_linked(3));
    drop(links);
}
