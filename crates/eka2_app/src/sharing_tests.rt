//! Runs of the command `share`: the bytes of one worker, loads, and workers that are beside one another.
use crate::gate::OpenGate;
use crate::run_tests::{REFUSED, ROOMY};
use crate::runs::{Case, WELL, expect_cases, expect_usage, outcome_of};
use crate::status::Status;
use edge_io::Gate;
use std::sync::atomic::{AtomicBool, AtomicU32, Ordering};
use worked_examples::{FINDS_HISTORY, FINDS_SCRIPT, LOAD_LEFT, LOAD_SCRIPT};

/// The case of one worker.
pub const ONE_WORKER: Case<'static> = Case {
    words: &["share", "--workers", "1"],
    ..WELL
};

/// A refused script for one worker.
pub const REFUSED_WORK: Case<'static> = Case {
    words: &["share", "--workers", "1"],
    ..REFUSED
};

/// What one worker makes: that of `run`, with its number in either way; and of two threads that find one object it makes what it
/// opens before it draws again.
const CASES: [Case<'static>; 3] = [
    ONE_WORKER,
    Case {
        words: &["share", "--workers=1"],
        ..WELL
    },
    Case {
        script: FINDS_SCRIPT,
        written: FINDS_HISTORY,
        ..ONE_WORKER
    },
];

#[test]
fn one_worker_makes_the_run(rt: HostRuntime) {
    expect_cases(&rt, rt.alloc(), &CASES);
}

#[test]
fn workers_are_one_to_eight(rt: HostRuntime) {
    let wrong: [[&str; 3]; 6] = [
        ["share", "--workers", "0"],
        ["share", "--workers", "9"],
        ["share", "--workers", "01"],
        ["share", "--workers=", "1"],
        ["share", "workers", "1"],
        ["run", "--workers", "1"],
    ];
    for words in &wrong {
        expect_usage(&rt, rt.alloc(), words);
    }
    for word in &["--workers=0", "--workers=9", "--workers=01", "--workers"] {
        expect_usage(&rt, rt.alloc(), &["share", *word]);
    }
}

#[test]
fn workers_bring_three_clients_home(rt: HostRuntime) {
    let bytes = LOAD_SCRIPT.as_bytes();
    let words = ["share", "--workers", "1"];
    let one = outcome_of(&rt, rt.alloc(), &words, bytes, ROOMY, &OpenGate);
    assert_eq!(rt; one.status, Status::Done);
    assert!(rt; one.sink.bytes().ends_with(LOAD_LEFT));
    let words = ["share", "--workers", "4"];
    let four = outcome_of(&rt, rt.alloc(), &words, bytes, ROOMY, &OpenGate);
    assert_eq!(rt; four.status, Status::Done);
}

/// How often the first worker at the gate looks for a second one, at most.
const LOOKS: u32 = 1_000_000_000;

/// A gate at which the first worker looks for a second one.
#[derive(Drop)]
struct Meeting {
    came: AtomicU32,
    met: AtomicBool,
}

impl Gate for Meeting {
    fn before_open(&self, _place: u32) {
        if self.came.fetch_add(1, Ordering::SeqCst) > 0 {
            return;
        }
        for _ in 0..LOOKS {
            if self.came.load(Ordering::SeqCst) > 1 {
                self.met.store(true, Ordering::SeqCst);
                return;
            }
        }
    }
}

#[test]
fn two_workers_are_beside_one_another(rt: HostRuntime) {
    let gate = Meeting {
        came: AtomicU32::new(0),
        met: AtomicBool::new(false),
    };
    let words = ["share", "--workers", "2"];
    let bytes = FINDS_SCRIPT.as_bytes();
    let outcome = outcome_of(&rt, rt.alloc(), &words, bytes, ROOMY, &gate);
    assert_eq!(rt; outcome.status, Status::Done);
    assert!(rt; gate.met.load(Ordering::SeqCst));
}
