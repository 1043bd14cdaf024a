//! Worked examples: one place taken and freed until its instances count from 1 again, and a table that is filled.
use crate::same::{expect_same, expect_that};
use handles::{Added, Handles};
use sym_base::ObjNo;

/// Adds a handle and removes it. None where the handle is still there, or names nothing before.
fn taken_and_freed(table: &mut Handles) -> Option<u32> {
    let Added::Handle(handle) = table.add(ObjNo(7)) else {
        return None;
    };
    let object = table.remove(handle)?;
    if object != ObjNo(7) || table.look(handle).is_some() {
        return None;
    }
    Some(handle)
}

#[test]
fn instances_count_from_1_again(rt: HostRuntime) {
    let mut table = Handles::new(rt.alloc(), false).expect(&rt, "memory");
    expect_same(&rt, taken_and_freed(&mut table), Some(65_536));
    for _ in 2..16_383 {
        expect_that(&rt, taken_and_freed(&mut table).is_some());
    }
    expect_same(&rt, taken_and_freed(&mut table), Some(1_073_676_288));
    expect_same(&rt, taken_and_freed(&mut table), Some(65_536));
    drop(table);
}

#[test]
fn a_thread_has_256_handles(rt: HostRuntime) {
    let mut table = Handles::new(rt.alloc(), true).expect(&rt, "memory");
    expect_same(&rt, table.add(ObjNo(7)), Added::Handle(1_073_807_360));
    for _ in 1..255 {
        expect_that(&rt, table.add(ObjNo(8)) != Added::Full);
    }
    expect_same(&rt, table.free_index(), 255);
    expect_same(&rt, table.add(ObjNo(9)), Added::Handle(1_073_807_615));
    expect_same(&rt, table.free_index(), 256);
    expect_same(&rt, table.slots().len(), 256);
    expect_same(&rt, table.number_at(255), 1_073_807_615);
    expect_same(&rt, table.add(ObjNo(9)), Added::Full);
    expect_same(&rt, table.look(1_073_807_615), Some(ObjNo(9)));
    expect_same(&rt, table.look(65_791), None);
    expect_same(&rt, table.next_of(255), Some((255, ObjNo(9))));
    expect_same(&rt, table.remove(1_073_807_361), Some(ObjNo(8)));
    expect_same(&rt, table.next_of(1), Some((2, ObjNo(8))));
    expect_same(&rt, table.add(ObjNo(9)), Added::Handle(1_073_872_897));
    drop(table);
}
