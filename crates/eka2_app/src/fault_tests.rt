//! Each command over sources that give few bytes a read and sinks that take few a write, and over the failure of each
//! read and of each write.
use crate::made_tests::{LOAD, MAKE};
use crate::run_tests::{BRIEFLY, REFUSED};
use crate::runs::{Case, Ends, WELL, expect_at};
use crate::sharing_tests::{ONE_WORKER, REFUSED_WORK};
use crate::status::Status;
use std::alloc::Global;
use std::process::Abort;
use std::sync::Wait;
use std::thread::Threads;

/// Reads of 16 bytes, and writes of whole pieces, none of which fails.
const STEADY: Ends = Ends {
    read: 16,
    ..crate::runs::STEADY
};

/// One case of each way in which a command that reads writes.
const READING: [Case<'static>; 5] = [WELL, BRIEFLY, REFUSED, ONE_WORKER, REFUSED_WORK];

/// One case of each way in which a command writes. Those of `check` are others'.
const EACH_COMMAND: [Case<'static>; 7] = [
    WELL,
    BRIEFLY,
    MAKE,
    LOAD,
    REFUSED,
    ONE_WORKER,
    REFUSED_WORK,
];

/// How many lines a text has.
fn lines_of(text: &str) -> u32 {
    let mut lines = 0u32;
    for byte in text.as_bytes() {
        if *byte == b'\n' {
            lines = lines.saturating_add(1);
        }
    }
    lines
}

/// The first so many lines of a text.
fn first_lines(text: &str, count: u32) -> &[u8] {
    let bytes = text.as_bytes();
    let mut left = count;
    for at in 0..bytes.len() {
        if left == 0 {
            return &bytes[..at];
        }
        if bytes[at] == b'\n' {
            left -= 1;
        }
    }
    bytes
}

/// The reads that a text takes, 16 bytes a read, with the one that finds its end.
fn reads_of(text: &str) -> u32 {
    ((text.len() / 16).min(1_000) as u32) + if text.len() % 16 == 0 { 1 } else { 2 }
}

/// After the failure of any read nothing was written. One more isn't made.
fn expect_failing_reads<R: Abort + Threads + Wait + Sync>(rt: &R, alloc: Global, case: &Case<'_>) {
    let reads = reads_of(case.script);
    for failing_read in 1..reads.saturating_add(2) {
        let ends = Ends {
            failing_read,
            ..STEADY
        };
        let (status, written) = if failing_read <= reads {
            (Status::ReadFault, b"".as_slice())
        } else {
            (case.status, case.written.as_bytes())
        };
        expect_at(rt, alloc, case, ends, status, written);
    }
}

/// After the failure of any write the lines before it were written. One more isn't made.
fn expect_failing_writes<R: Abort + Threads + Wait + Sync>(rt: &R, alloc: Global, case: &Case<'_>) {
    let lines = lines_of(case.written);
    for failing_write in 1..lines.saturating_add(2) {
        let ends = Ends {
            failing_write,
            ..STEADY
        };
        let status = if failing_write <= lines {
            Status::WriteFault
        } else {
            case.status
        };
        let written = first_lines(case.written, failing_write.saturating_sub(1));
        expect_at(rt, alloc, case, ends, status, written);
    }
}

/// How many bytes a call moves makes no difference.
fn expect_any_step<R: Abort + Threads + Wait + Sync>(rt: &R, alloc: Global, case: &Case<'_>) {
    for step in &[1, 2, 3, 7, 4096] {
        let ends = Ends {
            read: *step,
            write: *step,
            ..STEADY
        };
        let written = case.written.as_bytes();
        expect_at(rt, alloc, case, ends, case.status, written);
    }
}

/// Where a sink takes one byte a call, the failure of a call leaves exactly the bytes before it.
fn expect_failing_bytes<R: Abort + Threads + Wait + Sync>(rt: &R, alloc: Global, case: &Case<'_>) {
    let written = case.written.as_bytes();
    for count in 0..written.len().min(20) {
        let ends = Ends {
            write: 1,
            failing_write: count as u32 + 1,
            ..STEADY
        };
        let status = Status::WriteFault;
        expect_at(rt, alloc, case, ends, status, &written[..count]);
    }
}

/// A case over each failing read and write, and over short reads and writes.
pub fn expect_each_fault<R: Abort + Threads + Wait + Sync>(rt: &R, alloc: Global, case: &Case<'_>) {
    expect_failing_reads(rt, alloc, case);
    expect_failing_writes(rt, alloc, case);
    expect_failing_bytes(rt, alloc, case);
    expect_any_step(rt, alloc, case);
}

#[test]
fn each_read_fails(rt: HostRuntime) {
    for case in &READING {
        expect_failing_reads(&rt, rt.alloc(), case);
    }
}

#[test]
fn each_write_fails(rt: HostRuntime) {
    for case in &EACH_COMMAND {
        expect_failing_writes(&rt, rt.alloc(), case);
    }
}

#[test]
fn reads_and_writes_are_short(rt: HostRuntime) {
    for case in &EACH_COMMAND {
        expect_any_step(&rt, rt.alloc(), case);
    }
}

#[test]
fn each_byte_fails(rt: HostRuntime) {
    expect_failing_bytes(&rt, rt.alloc(), &WELL);
    expect_failing_bytes(&rt, rt.alloc(), &ONE_WORKER);
}
