//! Runs of the whole command over memory.
use crate::gate::OpenGate;
use crate::status::Status;
use crate::top::eka2_main;
use edge_io::{Gate, MemSink, MemSource};
use std::alloc::Global;
use std::process::Abort;
use std::sync::Wait;
use std::thread::Threads;
use worked_examples::{HANDLES_HISTORY, HANDLES_SCRIPT};

/// The most bytes that a read gives and that a write takes, the room of the sink, and the numbers of the read and the write that
/// fail, from 1: none is 0.
#[derive(Clone, Copy)]
pub struct Ends {
    pub read: usize,
    pub write: usize,
    pub room: usize,
    pub failing_read: u32,
    pub failing_write: u32,
}

/// Reads of 100 bytes, and writes of whole pieces, none of which fails.
pub const STEADY: Ends = Ends {
    read: 100,
    write: 600,
    room: 8_000,
    failing_read: 0,
    failing_write: 0,
};

/// The words of a command line.
fn words_of<R: Abort>(rt: &R, alloc: Global, texts: &[&str]) -> Vec<String> {
    let mut words = Vec::new(alloc);
    for text in texts {
        let word = String::from_str(alloc, text).expect(rt, "memory");
        words.push(word).expect(rt, "memory");
    }
    words
}

/// A source of some bytes.
fn source_of<R: Abort>(rt: &R, alloc: Global, bytes: &[u8], ends: Ends) -> MemSource {
    let bytes = Vec::from_slice(alloc, bytes).expect(rt, "memory");
    let fails = Vec::from_slice(alloc, &[ends.failing_read]).expect(rt, "memory");
    MemSource::new(bytes, ends.read.max(1), fails)
}

/// An empty sink.
fn sink_of<R: Abort>(rt: &R, alloc: Global, ends: Ends) -> MemSink {
    let fails = Vec::from_slice(alloc, &[ends.failing_write]).expect(rt, "memory");
    MemSink::new(alloc, ends.room, ends.write.max(1), fails).expect(rt, "memory")
}

/// How a run ended, and what it wrote.
#[derive(Drop)]
pub struct Outcome {
    pub status: Status,
    pub sink: MemSink,
}

/// Runs words over some bytes, behind a gate.
pub fn outcome_of<R: Abort + Threads + Wait + Sync, G: Gate + Sync>(
    rt: &R,
    alloc: Global,
    words: &[&str],
    bytes: &[u8],
    ends: Ends,
    gate: &G,
) -> Outcome {
    let words = words_of(rt, alloc, words);
    let mut source = source_of(rt, alloc, bytes, ends);
    let mut sink = sink_of(rt, alloc, ends);
    let status = eka2_main(rt, alloc, words.as_slice(), &mut source, &mut sink, gate);
    Outcome { status, sink }
}

/// Words over a script, how bytes come and go, and what is to come.
#[derive(Clone, Copy)]
pub struct Case<'a> {
    pub words: &'a [&'a str],
    pub script: &'a str,
    pub ends: Ends,
    pub status: Status,
    pub written: &'a str,
}

/// The case of a script that runs well.
pub const WELL: Case<'static> = Case {
    words: &["run"],
    script: HANDLES_SCRIPT,
    ends: STEADY,
    status: Status::Done,
    written: HANDLES_HISTORY,
};

/// Runs a case's words over its script, and compares the status and what was written with these.
pub fn expect_at<R: Abort + Threads + Wait + Sync>(
    rt: &R,
    alloc: Global,
    case: &Case<'_>,
    ends: Ends,
    status: Status,
    written: &[u8],
) {
    let script = case.script;
    let outcome = outcome_of(rt, alloc, case.words, script.as_bytes(), ends, &OpenGate);
    assert_eq!(rt; outcome.status, status, "{script}");
    assert_eq!(rt; outcome.sink.bytes(), written, "{script}");
}

/// Runs a case, and compares the status and what was written.
pub fn expect_case<R: Abort + Threads + Wait + Sync>(rt: &R, alloc: Global, case: &Case<'_>) {
    let written = case.written.as_bytes();
    expect_at(rt, alloc, case, case.ends, case.status, written);
}

/// Runs cases, one after the other.
pub fn expect_cases<R: Abort + Threads + Wait + Sync>(rt: &R, alloc: Global, cases: &[Case<'_>]) {
    for case in cases {
        expect_case(rt, alloc, case);
    }
}

/// Words that are no command: the status is Usage, and nothing is written.
pub fn expect_usage<R: Abort + Threads + Wait + Sync>(rt: &R, alloc: Global, words: &[&str]) {
    let bytes = HANDLES_SCRIPT.as_bytes();
    let outcome = outcome_of(rt, alloc, words, bytes, STEADY, &OpenGate);
    assert_eq!(rt; outcome.status, Status::Usage);
    assert!(rt; outcome.sink.bytes().is_empty());
}
