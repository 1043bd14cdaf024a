//! A worked example: three threads, of which two are of one priority.
use crate::same::expect_same;
use ready_list::ReadyList;
use sym_base::ObjNo;

#[test]
fn threads_run_by_priority_and_arrival(rt: HostRuntime) {
    let mut list = ReadyList::new(rt.alloc(), 8).expect(&rt, "memory");
    list.add(ObjNo(3), 10);
    list.add(ObjNo(1), 20);
    list.add(ObjNo(2), 20);
    expect_same(&rt, list.pick(), Some(ObjNo(1)));
    list.rotate(20);
    expect_same(&rt, list.pick(), Some(ObjNo(2)));
    list.set_priority(ObjNo(3), 63);
    expect_same(&rt, list.pick(), Some(ObjNo(3)));
    list.remove(ObjNo(3));
    expect_same(&rt, list.priority_of(ObjNo(3)), None);
    drop(list);
}
