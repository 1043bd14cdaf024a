//! Scripts that are run, in whole and in brief.
use crate::gate::OpenGate;
use crate::runs::{Case, Ends, STEADY, WELL, expect_cases, expect_usage, outcome_of};
use crate::status::Status;
use std::alloc::Global;
use std::process::Abort;
use std::sync::Wait;
use std::thread::Threads;
use worked_examples::{
    CLOSING_SERVER_HISTORY, CLOSING_SERVER_SCRIPT, DEAD_OWNER_HISTORY, DEAD_OWNER_SCRIPT,
    DEAD_THREAD_HISTORY, DEAD_THREAD_SCRIPT, DYING_OBJECT_HISTORY, DYING_OBJECT_SCRIPT,
    DYING_SERVER_HISTORY, DYING_SERVER_SCRIPT, KILLED_CLIENT_HISTORY, KILLED_CLIENT_SCRIPT,
    LOAD_LEFT, LOAD_SCRIPT, MISSED_HISTORY, MISSED_SCRIPT, ONE_SLOT_HISTORY, ONE_SLOT_SCRIPT,
    OVERLAP_HISTORY, OVERLAP_SCRIPT, POOL_HISTORY, POOL_SCRIPT, PUT_OFF_HISTORY, PUT_OFF_SCRIPT,
    THIRTY_TWO_HISTORY, THIRTY_TWO_SCRIPT, TOO_LONG_HISTORY, TOO_LONG_SCRIPT,
};

const EMPTY_HISTORY: &str = "\
objects
0 process kernel 1
1 thread supervisor 1 live
end
";

/// The seventh line begins with a word that begins no line.
pub const UNKNOWN_WORD_SCRIPT: &str =
    "eka2 1\nprocess p\nthread a 10\ncreate mutex m r0\ndup r0 r1\nclose r0\nclone r1\nclose r1\nschedule\ngo 16\nend\n";

/// Its refusal.
pub const UNKNOWN_WORD: &str = "refused line 7 word\n";

const FIRST_TWO_LINES: &str = "1 t3 create.do +p2.0:4 = 65536\n2 t3 dup.look +tmp3:4\n";

/// What `brief` shows of the script of two handles.
const BRIEF: &str = "\
1 t3 create.do +p2.0:4 = 65536
3 t3 dup.do +p2.1:4 = 65537
5 t3 close.do -p2.0:4 = 0
6 t3 close.do -p2.1:4 dead:4 = 0
8 t3 close.do = -8
objects
0 process kernel 1
1 thread supervisor 1 live
end
";

/// The case of a script that is run in brief.
pub const BRIEFLY: Case<'static> = Case {
    words: &["brief"],
    written: BRIEF,
    ..WELL
};

/// A script that is refused.
pub const REFUSED: Case<'static> = Case {
    script: UNKNOWN_WORD_SCRIPT,
    status: Status::Refused,
    written: UNKNOWN_WORD,
    ..WELL
};

/// Scripts that run well, and what is written of them.
const EXAMPLES: [(&str, &str); 13] = [
    (DYING_OBJECT_SCRIPT, DYING_OBJECT_HISTORY),
    ("eka2 1\nend\n", EMPTY_HISTORY),
    (MISSED_SCRIPT, MISSED_HISTORY),
    (DEAD_THREAD_SCRIPT, DEAD_THREAD_HISTORY),
    (PUT_OFF_SCRIPT, PUT_OFF_HISTORY),
    (DEAD_OWNER_SCRIPT, DEAD_OWNER_HISTORY),
    (ONE_SLOT_SCRIPT, ONE_SLOT_HISTORY),
    (DYING_SERVER_SCRIPT, DYING_SERVER_HISTORY),
    (CLOSING_SERVER_SCRIPT, CLOSING_SERVER_HISTORY),
    (KILLED_CLIENT_SCRIPT, KILLED_CLIENT_HISTORY),
    (TOO_LONG_SCRIPT, TOO_LONG_HISTORY),
    (OVERLAP_SCRIPT, OVERLAP_HISTORY),
    (THIRTY_TWO_SCRIPT, THIRTY_TWO_HISTORY),
];

/// Further cases of scripts: in brief, refused, and with a read or a write that fails in mid-stream.
const CASES: [Case<'static>; 8] = [
    WELL,
    BRIEFLY,
    Case {
        script: POOL_SCRIPT,
        written: POOL_HISTORY,
        ..BRIEFLY
    },
    REFUSED,
    Case {
        script: "eka2 1\nschedule\ngo 3\n",
        written: "refused line 4 end\n",
        ..REFUSED
    },
    Case {
        words: &["brief"],
        ..REFUSED
    },
    Case {
        ends: Ends {
            failing_read: 2,
            ..STEADY
        },
        status: Status::ReadFault,
        written: "",
        ..WELL
    },
    Case {
        ends: Ends {
            failing_write: 3,
            ..STEADY
        },
        status: Status::WriteFault,
        written: FIRST_TWO_LINES,
        ..WELL
    },
];

#[test]
fn scripts_are_run(rt: HostRuntime) {
    expect_cases(&rt, rt.alloc(), &CASES);
}

/// Runs a script that runs well, and compares what was written.
fn expect_written<R: Abort + Threads + Wait + Sync>(
    rt: &R,
    alloc: Global,
    script: &str,
    written: &str,
) {
    let bytes = script.as_bytes();
    let outcome = outcome_of(rt, alloc, &["run"], bytes, STEADY, &OpenGate);
    assert_eq!(rt; outcome.status, Status::Done, "{script}");
    assert_eq!(rt; outcome.sink.bytes(), written.as_bytes(), "{script}");
}

#[test]
fn worked_examples_are_run(rt: HostRuntime) {
    for (script, written) in &EXAMPLES {
        expect_written(&rt, rt.alloc(), script, written);
    }
}

/// Much room, for a longer run.
pub const ROOMY: Ends = Ends {
    write: 200_000,
    room: 200_000,
    ..STEADY
};

#[test]
fn three_clients_come_and_go(rt: HostRuntime) {
    let bytes = LOAD_SCRIPT.as_bytes();
    let outcome = outcome_of(&rt, rt.alloc(), &["run"], bytes, ROOMY, &OpenGate);
    assert_eq!(rt; outcome.status, Status::Done);
    assert!(rt; outcome.sink.bytes().ends_with(LOAD_LEFT));
}

#[test]
fn other_words_are_usage(rt: HostRuntime) {
    expect_usage(&rt, rt.alloc(), &[]);
    expect_usage(&rt, rt.alloc(), &["--help"]);
    expect_usage(&rt, rt.alloc(), &["run", "x"]);
}

/// Runs an input of so many line feeds, and compares the status and what was written.
fn expect_line_feeds<R: Abort + Threads + Wait + Sync>(
    rt: &R,
    alloc: Global,
    count: usize,
    status: Status,
    written: &[u8],
) {
    let bytes = vec![in alloc; b'\n'; count].expect(rt, "memory");
    let ends = Ends {
        read: 512,
        ..STEADY
    };
    let outcome = outcome_of(rt, alloc, &["run"], bytes.as_slice(), ends, &OpenGate);
    assert_eq!(rt; outcome.status, status);
    assert_eq!(rt; outcome.sink.bytes(), written);
}

#[test]
fn an_input_of_a_byte_too_many_is_too_large(rt: HostRuntime) {
    let alloc = rt.alloc();
    expect_line_feeds(&rt, alloc, 1_048_577, Status::TooLarge, b"".as_slice());
    let refusal = b"refused line 1048577 end\n".as_slice();
    expect_line_feeds(&rt, alloc, 1_048_576, Status::Refused, refusal);
}
