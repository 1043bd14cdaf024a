//! Callers share a kernel: they make what one caller makes who has it alone, and come back from each find at once.
use crate::alone::alone_of;
use crate::told::{Told, told_as_alone, told_at_once};
use std::alloc::Global;
use std::process::Abort;
use worked_examples::{
    CLOSING_SERVER_HISTORY, CLOSING_SERVER_SCRIPT, CONNECTING_HISTORY, CONNECTING_SCRIPT,
    DEAD_OWNER_HISTORY, DEAD_OWNER_SCRIPT, DEAD_THREAD_HISTORY, DEAD_THREAD_SCRIPT, DEATHS_SCRIPT,
    DYING_SERVER_HISTORY, DYING_SERVER_SCRIPT, FINDING_HISTORY, FINDING_SCRIPT, HANDLES_HISTORY,
    HANDLES_SCRIPT, KILLED_CLIENT_HISTORY, KILLED_CLIENT_SCRIPT, MISSED_HISTORY, MISSED_SCRIPT,
    ONE_SLOT_HISTORY, ONE_SLOT_SCRIPT, PANIC_HISTORY, PANIC_SCRIPT, PUT_OFF_HISTORY,
    PUT_OFF_SCRIPT, TOO_LONG_HISTORY, TOO_LONG_SCRIPT,
};

/// A script, and what is written of it.
type Example = (&'static str, &'static str);

/// Scripts of which callers make what one caller alone makes.
const ALIKE: [Example; 10] = [
    (HANDLES_SCRIPT, HANDLES_HISTORY),
    (MISSED_SCRIPT, MISSED_HISTORY),
    (DEAD_THREAD_SCRIPT, DEAD_THREAD_HISTORY),
    (PUT_OFF_SCRIPT, PUT_OFF_HISTORY),
    (DEAD_OWNER_SCRIPT, DEAD_OWNER_HISTORY),
    (ONE_SLOT_SCRIPT, ONE_SLOT_HISTORY),
    (DYING_SERVER_SCRIPT, DYING_SERVER_HISTORY),
    (CLOSING_SERVER_SCRIPT, CLOSING_SERVER_HISTORY),
    (KILLED_CLIENT_SCRIPT, KILLED_CLIENT_HISTORY),
    (TOO_LONG_SCRIPT, TOO_LONG_HISTORY),
];

/// Scripts of callers who come back from each find at once.
const AT_ONCE: [Example; 3] = [
    (CONNECTING_SCRIPT, CONNECTING_HISTORY),
    (FINDING_SCRIPT, FINDING_HISTORY),
    (PANIC_SCRIPT, PANIC_HISTORY),
];

/// Compares what callers made of a script with what was expected, and with what the plain machine makes.
pub fn expect_told<R: Abort>(rt: &R, script: &str, told: &Told, expected: &str) {
    assert_eq!(rt; told.ran.text.as_slice(), expected.as_bytes(), "{script}");
    assert!(rt; told.is_plain, "{script}");
}

#[test]
fn callers_make_what_one_alone_makes(rt: HostRuntime) {
    for (script, history) in &ALIKE {
        expect_told(
            &rt,
            script,
            &told_as_alone(&rt, rt.alloc(), script),
            history,
        );
    }
}

#[test]
fn notes_come_back_at_once(rt: HostRuntime) {
    for (script, history) in &AT_ONCE {
        expect_told(&rt, script, &told_at_once(&rt, rt.alloc(), script), history);
    }
}

/// Compares what one caller alone makes of a text's schedule with what callers make who share the kernel and come back at once:
/// places, returns and the entries of nobody aside.
fn expect_both_ways<R: Abort>(rt: &R, alloc: Global, script: &str) {
    let alone = alone_of(rt, alloc, script);
    let told = told_at_once(rt, alloc, script);
    assert_eq!(rt; alone.tale.as_slice(), told.tale.as_slice(), "{script}");
    assert!(rt; told.is_plain, "{script}");
}

#[test]
fn both_ways_tell_the_same(rt: HostRuntime) {
    for script in &[HANDLES_SCRIPT, DEATHS_SCRIPT, DYING_SERVER_SCRIPT] {
        expect_both_ways(&rt, rt.alloc(), script);
    }
}
