//! Reading scripts, and the reasons of refusals.
use script_read::{ReadScript, Reason, RunFault, read_script};
use script_types::{Instr, Script, Slot};
use std::alloc::Global;
use std::process::Abort;
use sym_base::Kind;

/// A whole script.
pub const SCRIPT: &str =
    "eka2 1\nprocess p\nthread a 10\ncreate mutex m r0\ndup r0 r1\nclose r0\nclose r1\nclose r1\nschedule\ngo 10\nend\n";

/// The same script with comments, empty lines and more spaces, and without its last line feed.
const SPACED_SCRIPT: &str =
    "# a script\n\neka2   1\n process p \n   \nthread a 10\n create mutex m r0\ndup  r0  r1\nclose r0\nclose r1\n  # twice\nclose r1\nschedule\ngo 4\ngo 6\nend\n#";

/// A script in which a mutex dies between its search and its opening.
pub const TWO_THREADS: &str =
    "eka2 1\nprocess p\nthread a 10\ncreate mutex m r0\nclose r0\nthread b 10\nopen mutex m r1\nschedule\ngo 1\ntick\ngo 1\ntick\ngo 1\ntick\ngo 1\ntick\ngo 1\nend\n";

/// A text, and its first bad line.
struct BadText {
    text: &'static str,
    line: u32,
    reason: Reason,
}

/// A text for each reason; then the worked script, cut in its first two lines; and a line and a slot past their limits.
const BAD_TEXTS: [BadText; 18] = [
    BadText {
        text: "eka2 1\n# a\tb\nend\n",
        line: 2,
        reason: Reason::Byte,
    },
    BadText {
        text: "eka2 1\n#01234567890123456789012345678901234567890123456789012345678901234567890123456789012345678901234567890123456789012345678901234567890123456789012345678901234567890123456789012345678901234567890123456789\nend\n",
        line: 2,
        reason: Reason::Long,
    },
    BadText {
        text: "eka2 1\nEND\n",
        line: 2,
        reason: Reason::Word,
    },
    BadText {
        text: "eka2 1\nprocess p\nclose r0 r0\n",
        line: 3,
        reason: Reason::Order,
    },
    BadText {
        text: "eka2 1\nprocess p\nthread a 10\ndup r00\n",
        line: 4,
        reason: Reason::Count,
    },
    BadText {
        text: "eka2 1\nprocess p\nthread a 10\ndup r8 r00\n",
        line: 4,
        reason: Reason::Form,
    },
    BadText {
        text: "eka2 1\nprocess p\nthread a 10\nflock f16\n",
        line: 4,
        reason: Reason::Range,
    },
    BadText {
        text: "eka2 1\nprocess p\nthread a 10\nflock f15\n",
        line: 4,
        reason: Reason::Kind,
    },
    BadText {
        text: "eka2 1\nprocess p\nthread a 10\nthread a 10 held\n",
        line: 4,
        reason: Reason::Twice,
    },
    BadText {
        text: "eka2 1\n\ndfc d q 0 queue d\n",
        line: 3,
        reason: Reason::Unknown,
    },
    BadText {
        text: "eka2 1\nschedule\ngo 65536\ntick\nirq 1\n",
        line: 4,
        reason: Reason::Limit,
    },
    BadText {
        text: "eka2 1\nprocess p\n",
        line: 3,
        reason: Reason::End,
    },
    BadText {
        text: "",
        line: 1,
        reason: Reason::End,
    },
    BadText {
        text: "eka",
        line: 1,
        reason: Reason::Word,
    },
    BadText {
        text: "eka2",
        line: 1,
        reason: Reason::Count,
    },
    BadText {
        text: "eka2 1",
        line: 2,
        reason: Reason::End,
    },
    BadText {
        text: "eka2 1\n                                                                                                                                                                                                        x\nend\n",
        line: 2,
        reason: Reason::Long,
    },
    BadText {
        text: "eka2 1\nschedule\ngo 65536\ngo 1\nend\n",
        line: 4,
        reason: Reason::Limit,
    },
];

/// What reading a text answers. No text of the tests is too long.
pub fn answer(alloc: Global, text: &[u8]) -> ReadScript {
    if text.len() > 1_000_000 {
        return ReadScript::NoMemory;
    }
    read_script(alloc, text)
}

/// Whether a text is accepted.
fn is_accepted(alloc: Global, text: &[u8]) -> bool {
    matches!(answer(alloc, text), ReadScript::Script(_))
}

/// Whether this line of a text is its first bad one, for this reason.
pub fn is_refused(alloc: Global, text: &[u8], bad_line: u32, why: Reason) -> bool {
    match answer(alloc, text) {
        ReadScript::Refused { line, reason } => line == bad_line && reason == why,
        _ => false,
    }
}

fn is_worked_script(script: &Script) -> bool {
    if script.processes.len() != 1 || script.threads.len() != 1 || script.slots.len() != 10 {
        return false;
    }
    let thread = &script.threads.as_slice()[0];
    let instrs = thread.instrs.as_slice();
    instrs.len() == 5
        && script.processes.as_slice()[0].name.as_slice() == b"p".as_slice()
        && thread.name.as_slice() == b"a".as_slice()
        && thread.priority == 10
        && !thread.held
        && thread.process == Some(0)
        && matches!(instrs[0], Instr::CreateMutex(_, 0))
        && matches!(instrs[1], Instr::Dup(0, 1))
        && matches!(instrs[2], Instr::Close(0))
        && matches!(instrs[3], Instr::Close(1))
        && matches!(instrs[4], Instr::Close(1))
        && matches!(script.slots.as_slice()[9], Slot::Go)
}

fn is_script_of_two_threads(script: &Script) -> bool {
    let threads = script.threads.as_slice();
    if threads.len() != 2 || script.slots.len() != 9 {
        return false;
    }
    let first = threads[0].instrs.as_slice();
    let second = threads[1].instrs.as_slice();
    script.processes.len() == 1
        && first.len() == 2
        && second.len() == 1
        && threads[1].name.as_slice() == b"b".as_slice()
        && threads[1].process == Some(0)
        && matches!(first[0], Instr::CreateMutex(_, 0))
        && matches!(first[1], Instr::Close(0))
        && matches!(second[0], Instr::Open(Kind::Mutex, _, 1))
        && matches!(script.slots.as_slice()[1], Slot::Tick)
        && matches!(script.slots.as_slice()[8], Slot::Go)
}

/// Expects that a text is accepted as the worked script.
fn expect_worked_script(rt: &impl Abort, alloc: Global, text: &str) {
    match answer(alloc, text.as_bytes()) {
        ReadScript::Script(script) => assert!(rt; is_worked_script(&script)),
        _ => assert!(rt; false, "the script is refused"),
    }
}

#[test]
fn reads_a_script(rt: HostRuntime) {
    expect_worked_script(&rt, rt.alloc(), SCRIPT);
    expect_worked_script(&rt, rt.alloc(), SPACED_SCRIPT);
}

#[test]
fn reads_several_threads(rt: HostRuntime) {
    match answer(rt.alloc(), TWO_THREADS.as_bytes()) {
        ReadScript::Script(script) => assert!(rt; is_script_of_two_threads(&script)),
        _ => assert!(rt; false, "the script is refused"),
    }
}

#[test]
fn tells_the_first_bad_line(rt: HostRuntime) {
    for bad in &BAD_TEXTS {
        let text = bad.text;
        assert!(rt;
            is_refused(rt.alloc(), text.as_bytes(), bad.line, bad.reason),
            "{text}"
        );
    }
}

/// A script is accepted whole, and where only its last line feed is missing.
#[test]
fn refuses_a_script_that_is_cut(rt: HostRuntime) {
    let text = SCRIPT.as_bytes();
    for end in 0..text.len() + 1 {
        let is_whole = end + 1 >= text.len();
        assert!(rt; is_accepted(rt.alloc(), &text[..end]) == is_whole, "{end}");
    }
}

/// Names of 16 letters, priority 63, 65,536 slots and lines of 200 bytes are the most.
#[test]
fn reads_the_greatest_numbers(rt: HostRuntime) {
    let text =
        "eka2 1\nprocess p\nthread abcdefghijklmnop 63\nschedule\ngo 65536\nend\n#0123456789012345678901234567890123456789012345678901234567890123456789012345678901234567890123456789012345678901234567890123456789012345678901234567890123456789012345678901234567890123456789012345678\n";
    match answer(rt.alloc(), text.as_bytes()) {
        ReadScript::Script(script) => assert_eq!(rt; script.slots.len(), 65_536),
        _ => assert!(rt; false, "the script is refused"),
    }
}

#[test]
fn words_of_reasons(rt: HostRuntime) {
    let fault = RunFault::Refused {
        line: 3,
        reason: Reason::Twice,
    };
    let text = format!(in rt.alloc(); "{fault}").expect(&rt, "memory");
    assert_eq!(rt; text.as_str(), "refused line 3 twice");
}
