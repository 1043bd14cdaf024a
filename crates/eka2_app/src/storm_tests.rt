//! Runs in which interrupts come between any two steps of a death.
use crate::gate::OpenGate;
use crate::runs::{STEADY, outcome_of};
use crate::status::Status;
use std::alloc::Global;
use std::process::Abort;
use std::sync::Wait;
use std::thread::Threads;
use worked_examples::{
    KILLED_CLIENT_HISTORY, Storm, checksum, endings, killed_client, killed_clients, killed_servers,
    stormy_reapings,
};

/// Runs scripts that run well, and compares the checksums of what was written.
fn expect_sums<R: Abort + Threads + Wait + Sync>(rt: &R, alloc: Global, storms: &[Storm]) {
    for (at, storm) in storms.iter().enumerate() {
        let bytes = storm.script.as_bytes();
        let outcome = outcome_of(rt, alloc, &["run"], bytes, STEADY, &OpenGate);
        assert_eq!(rt; outcome.status, Status::Done, "script {at}");
        assert_eq!(rt; checksum(outcome.sink.bytes()), storm.sum, "script {at}");
    }
}

#[test]
fn a_client_is_killed_after_each_slot(rt: HostRuntime) {
    let storms = killed_clients(rt.alloc()).expect(&rt, "memory");
    expect_sums(&rt, rt.alloc(), storms.as_slice());
}

#[test]
fn a_server_is_killed_after_each_slot(rt: HostRuntime) {
    let storms = killed_servers(rt.alloc()).expect(&rt, "memory");
    expect_sums(&rt, rt.alloc(), storms.as_slice());
}

#[test]
fn interrupts_of_each_kind_come_between_any_two_steps(rt: HostRuntime) {
    let storms = stormy_reapings(rt.alloc()).expect(&rt, "memory");
    expect_sums(&rt, rt.alloc(), storms.as_slice());
}

#[test]
fn threads_of_a_process_end_in_each_order(rt: HostRuntime) {
    let storms = endings(rt.alloc()).expect(&rt, "memory");
    expect_sums(&rt, rt.alloc(), storms.as_slice());
}

#[test]
fn the_kill_between_two_pieces_is_among_them(rt: HostRuntime) {
    let script = killed_client(rt.alloc(), 28).expect(&rt, "memory");
    let bytes = script.as_bytes();
    let outcome = outcome_of(&rt, rt.alloc(), &["run"], bytes, STEADY, &OpenGate);
    let (entries, _) = KILLED_CLIENT_HISTORY
        .split_once("objects\n")
        .expect(&rt, "entries");
    assert_eq!(rt; outcome.status, Status::Done);
    assert!(rt; outcome.sink.bytes().starts_with(entries.as_bytes()));
}
