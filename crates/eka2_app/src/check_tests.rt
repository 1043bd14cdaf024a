//! Runs of the command that checks histories.
use crate::fault_tests::expect_each_fault;
use crate::gate::OpenGate;
use crate::run_tests::{UNKNOWN_WORD, UNKNOWN_WORD_SCRIPT};
use crate::runs::{Case, STEADY, WELL, outcome_of};
use crate::status::Status;
use std::alloc::Global;
use std::process::Abort;
use std::sync::Wait;
use std::thread::Threads;
use worked_examples::{DEAD_THREAD_HISTORY, DEAD_THREAD_SCRIPT, HANDLES_HISTORY, HANDLES_SCRIPT};

/// The history of the script of two handles, of which the third line tells another place of the table.
const CHANGED_HISTORY: &str = "\
1 t3 create.do +p2.0:4 = 65536
2 t3 dup.look +tmp3:4
3 t3 dup.do +p2.2:4 = 65538
4 t3 drop -tmp3:4
5 t3 close.do -p2.0:4 = 0
6 t3 close.do -p2.1:4 dead:4 = 0
7 t3 sweep swept:4
8 t3 close.do = -8
9 t3 end doom:3
10 t3 clean
11 t1 bury bury:3
12 t1 drop -krn:3 dead:3
13 t1 drop -lnk3:2 dead:2
14 t1 sweep swept:3
15 t1 sweep swept:2
16 idle wait
objects
0 process kernel 1
1 thread supervisor 1 live
end
";

/// A thread makes a mutex and closes it, and another opens it by its name.
const KEPT_SCRIPT: &str =
    "eka2 1\nprocess p\nthread a 10\ncreate mutex m r0\nclose r0\nthread b 10\nopen mutex m r0\nend\n";

/// The last reference goes while the other thread is out on the mutex, which is kept.
const KEPT_HISTORY: &str = "\
1 t3 create.do +p2.0:5 = 65536
2 t4 open.seek seek:5
3 t3 close.do -p2.0:5 = 0
4 t4 open.return +tmp4:5
5 t4 open.do +p2.0:5 = 131072
6 t4 drop -tmp4:5
objects
0 process kernel 1
1 thread supervisor 1 live
2 process p 2
3 thread a 1 live
4 thread b 1 live
5 mutex m 1
end
";

/// The text of a script and of a history behind it.
fn joined<R: Abort>(rt: &R, alloc: Global, script: &str, history: &str) -> String {
    let mut text = String::from_str(alloc, script).expect(rt, "memory");
    text.push_str(history).expect(rt, "memory");
    text
}

/// Checks a history of a script, and compares the status and what was written.
fn expect_check<R: Abort + Threads + Wait + Sync>(
    rt: &R,
    alloc: Global,
    script: &str,
    history: &str,
    status: Status,
    written: &str,
) {
    let text = joined(rt, alloc, script, history);
    let outcome = outcome_of(rt, alloc, &["check"], text.as_bytes(), STEADY, &OpenGate);
    assert_eq!(rt; outcome.status, status);
    assert_eq!(rt; outcome.sink.bytes(), written.as_bytes());
}

/// Scripts with legal histories, and what is written.
const LEGAL: [(&str, &str, &str); 3] = [
    (HANDLES_SCRIPT, HANDLES_HISTORY, "legal 16\n"),
    (DEAD_THREAD_SCRIPT, DEAD_THREAD_HISTORY, "legal 21\n"),
    (KEPT_SCRIPT, KEPT_HISTORY, "legal 6\n"),
];

#[test]
fn a_legal_history_is_counted(rt: HostRuntime) {
    for (script, history, written) in &LEGAL {
        expect_check(&rt, rt.alloc(), script, history, Status::Done, written);
    }
}

#[test]
fn another_history_has_a_first_bad_line(rt: HostRuntime) {
    let alloc = rt.alloc();
    let script = HANDLES_SCRIPT;
    let bad = Status::Illegal;
    expect_check(&rt, alloc, script, CHANGED_HISTORY, bad, "illegal 3\n");
    let unended = HANDLES_HISTORY.strip_suffix("end\n").unwrap_or("");
    expect_check(&rt, alloc, script, unended, bad, "illegal 20\n");
    let unfed = HANDLES_HISTORY.strip_suffix("\n").unwrap_or("");
    expect_check(&rt, alloc, script, unfed, bad, "illegal 20\n");
}

/// Checks a text, a script and a history behind it, over each failing read and write, and over short reads and writes.
fn expect_checked<'a, R: Abort + Threads + Wait + Sync>(
    rt: &R,
    alloc: Global,
    text: &'a str,
    status: Status,
    written: &'a str,
) {
    let case = Case {
        words: &["check"],
        script: text,
        status,
        written,
        ..WELL
    };
    expect_each_fault(rt, alloc, &case);
}

/// A script with a history, how its check ends, and what is written.
type Check = (&'static str, &'static str, Status, &'static str);

/// A legal history, an illegal one, and one of a script that is refused.
const CHECKS: [Check; 3] = [
    (HANDLES_SCRIPT, HANDLES_HISTORY, Status::Done, "legal 16\n"),
    (
        HANDLES_SCRIPT,
        CHANGED_HISTORY,
        Status::Illegal,
        "illegal 3\n",
    ),
    (
        UNKNOWN_WORD_SCRIPT,
        HANDLES_HISTORY,
        Status::Refused,
        UNKNOWN_WORD,
    ),
];

#[test]
fn checks_meet_each_fault(rt: HostRuntime) {
    for (script, history, status, written) in &CHECKS {
        let text = joined(&rt, rt.alloc(), script, history);
        expect_checked(&rt, rt.alloc(), text.as_str(), *status, written);
    }
}
