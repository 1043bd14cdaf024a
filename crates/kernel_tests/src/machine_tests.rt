//! The plain machine and the kernel make one history of a script, and leave the same objects.
use crate::alone::alone_of;
use plain_runs::ran_plain;
use std::alloc::Global;
use std::process::Abort;
use worked_examples::{
    DEATHS_SCRIPT, DYING_OBJECT_SCRIPT, DYING_SERVER_SCRIPT, HANDLES_SCRIPT, Storm, checksum,
    endings, killed_client, killed_clients, killed_servers, stormy_reapings,
};

/// Compares what both machines make of a text.
fn expect_same<R: Abort>(rt: &R, alloc: Global, script: &str) {
    let plain = ran_plain(alloc, script).expect(rt, "a plain machine");
    let alone = alone_of(rt, alloc, script);
    assert_eq!(rt;
        alone.ran.text.as_slice(),
        plain.text.as_slice(),
        "{script}"
    );
    assert_eq!(rt;
        alone.ran.rows.as_slice(),
        plain.rows.as_slice(),
        "{script}"
    );
}

#[test]
fn both_machines_make_one_history(rt: HostRuntime) {
    for script in &[
        HANDLES_SCRIPT,
        DYING_OBJECT_SCRIPT,
        DEATHS_SCRIPT,
        DYING_SERVER_SCRIPT,
    ] {
        expect_same(&rt, rt.alloc(), script);
    }
}

/// The checksum of what the plain machine makes of a text. None where it has no run.
fn plain_sum(alloc: Global, text: &str) -> Option<u64> {
    match ran_plain(alloc, text) {
        Some(plain) => Some(checksum(plain.text.as_slice())),
        None => None,
    }
}

/// Compares the checksums of what the plain machine makes of scripts.
fn expect_sums<R: Abort>(rt: &R, alloc: Global, storms: &[Storm]) {
    for (at, storm) in storms.iter().enumerate() {
        let sum = plain_sum(alloc, storm.script.as_str());
        assert_eq!(rt; sum, Some(storm.sum), "script {at}");
    }
}

#[test]
fn the_plain_machine_kills_a_client_after_each_slot(rt: HostRuntime) {
    let storms = killed_clients(rt.alloc()).expect(&rt, "memory");
    expect_sums(&rt, rt.alloc(), storms.as_slice());
}

#[test]
fn the_plain_machine_kills_a_server_after_each_slot(rt: HostRuntime) {
    let storms = killed_servers(rt.alloc()).expect(&rt, "memory");
    expect_sums(&rt, rt.alloc(), storms.as_slice());
}

#[test]
fn the_plain_machine_reaps_among_interrupts_and_ends_in_each_order(rt: HostRuntime) {
    let storms = stormy_reapings(rt.alloc()).expect(&rt, "memory");
    expect_sums(&rt, rt.alloc(), storms.as_slice());
    let storms = endings(rt.alloc()).expect(&rt, "memory");
    expect_sums(&rt, rt.alloc(), storms.as_slice());
}

/// What is told of the client's kill.
const KILL: &[u8] = b" t7 kill.do doom:5 = 0\n";

/// Whether a text has these bytes.
fn has(text: &[u8], bytes: &[u8]) -> bool {
    for at in 0..text.len() {
        if text[at..].starts_with(bytes) {
            return true;
        }
    }
    false
}

#[test]
fn an_interrupt_before_the_request_kills_nobody(rt: HostRuntime) {
    for after in 0..6 {
        let script = killed_client(rt.alloc(), after).expect(&rt, "memory");
        let alone = alone_of(&rt, rt.alloc(), script.as_str());
        assert_eq!(rt; has(alone.ran.text.as_slice(), KILL), after == 5);
    }
}
