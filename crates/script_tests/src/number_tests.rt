//! Numbers in decimal, which nothing else reads and writes by these calls.
use crate::same::{expect_same, expect_that};
use arrayvec::ArrayVec;
use sym_base::{Items, push_number, read_number};

#[test]
fn reads_and_writes_numbers(rt: HostRuntime) {
    expect_same(&rt, read_number(b"-120"), Some(-120));
    expect_same(&rt, read_number(b"9223372036854775807"), Some(i64::MAX));
    expect_same(&rt, read_number(b"9223372036854775808"), None);
    expect_same(&rt, read_number(b"007"), None);
    let mut line: ArrayVec<u8, 512> = ArrayVec::new();
    expect_that(&rt, push_number(&mut line, -120));
    expect_that(&rt, line.as_slice() == b"-120".as_slice());
}

#[test]
fn gives_the_vector_back(rt: HostRuntime) {
    let items = Items::new(vec![in rt.alloc(); 7u8, 8].expect(&rt, "memory"));
    let vector = items.into_vec();
    expect_that(&rt, vector.as_slice() == [7u8, 8].as_slice());
}
