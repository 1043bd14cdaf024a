//! One thread's death, and what it owes.
use crate::same::{expect_same, expect_that};
use cleanup::{Cleanup, Held, Owed};
use sym_base::ObjNo;

#[test]
fn a_thread_gives_up_mutexes_before_logons(rt: HostRuntime) {
    let mut lists = Cleanup::new(rt.alloc(), 8, 32).expect(&rt, "memory");
    let t = ObjNo(3);
    lists.push(t, Held::Logon(ObjNo(4), 2));
    lists.push(t, Held::Temp(ObjNo(9)));
    lists.push(t, Held::Server(ObjNo(11)));
    lists.push(t, Held::Server(ObjNo(10)));
    lists.push(t, Held::Mutex(ObjNo(8)));
    lists.remove(ObjNo(5), Held::Mutex(ObjNo(8)));
    expect_that(&rt, matches!(lists.next(t), Some(Held::Mutex(ObjNo(8)))));
    lists.remove(t, Held::Mutex(ObjNo(8)));
    expect_that(&rt, matches!(lists.next(t), Some(Held::Server(ObjNo(11)))));
    expect_same(&rt, lists.next_server(t, Some(ObjNo(11))), Some(ObjNo(10)));
    lists.owe(t, Owed::Sweep(ObjNo(7)));
    lists.owe(t, Owed::Sweep(ObjNo(6)));
    expect_that(
        &rt,
        matches!(lists.next_owed(t), Some(Owed::Sweep(ObjNo(7)))),
    );
    expect_that(
        &rt,
        matches!(lists.first_owed(t), Some(Owed::Sweep(ObjNo(6)))),
    );
    drop(lists);
}
