//! Each form of line is read and printed again; and the ends of ranges.
use crate::every_form::{EVERY_FORM, is_every_form};
use crate::tests::answer;
use script_print::print_script;
use script_read::ReadScript;
use script_words::{Fault, is_counted, keyword_of, line_fault, second_of, take_words, word_at};
use std::alloc::Global;
use std::process::Abort;

/// Lines of each kind of operand with a number that is just past an end of its range.
const PAST_THE_ENDS: [&str; 47] = [
    "eka2 0",
    "eka2 3",
    "pool -1",
    "pool 256",
    "fast -1",
    "fast 17",
    "dfcq q -1",
    "dfcq q 64",
    "dfc d q -1 queue d",
    "dfc d q 8 queue d",
    "idfc i device d16 0",
    "idfc i device d0 -2147483647",
    "idfc i device d0 2147483648",
    "irq -1 idfc i",
    "irq 32 idfc i",
    "kthread k 64 held",
    "thread a -1",
    "thread a 64",
    "go 0",
    "go 65537",
    "create mutex m r8",
    "create semaphore s -1 r0",
    "create semaphore s 2147483648 r0",
    "priority r0 -1",
    "priority r0 64",
    "kill r0 -2147483647",
    "panic r0 C 2147483648",
    "logon r0 s16",
    "flock f16",
    "request d16 s0",
    "connect f 0 r0",
    "connect f 256 r0",
    "send r0 -1 s0 0 0 0 0",
    "send r0 2147483648 s0 0 0 0 0",
    "send r0 0 s0 -2147483649 0 0 0",
    "send r0 0 s0 0 0 0 2147483648",
    "call r0 0 d:1025:0:0 0 0 0",
    "call r0 0 0 0 0 d:0:0:-1",
    "receive r0 m8",
    "read m0 -1 0 0 0",
    "read m0 4 0 0 0",
    "write m0 0 1025 0 0",
    "write m0 0 0 0 1025",
    "fill 0 -1 0",
    "fill 0 0 256",
    "peek -1",
    "peek 1024",
];

/// What is wrong with the words of a line. None where they have no first word of a line.
fn fault_in(words: &[&[u8]]) -> Option<Fault> {
    let keyword = keyword_of(word_at(words, 0))?;
    let second = second_of(false, keyword, words);
    if is_counted(keyword, second, words) {
        line_fault(keyword, second, words)
    } else {
        None
    }
}

/// What is wrong with a line.
fn fault_of<R: Abort>(rt: &R, alloc: Global, text: &str) -> Option<Fault> {
    let mut words = Vec::new(alloc);
    take_words(&mut words, text.as_bytes()).expect(rt, "memory");
    fault_in(words.as_slice())
}

#[test]
fn reads_and_prints_every_form(rt: HostRuntime) {
    let ReadScript::Script(script) = answer(rt.alloc(), EVERY_FORM.as_bytes()) else {
        panic!(rt; "a line is bad");
    };
    assert!(rt; is_every_form(&script));
    let printed = print_script(rt.alloc(), &script).expect(&rt, "memory");
    assert!(rt; printed.as_slice() == EVERY_FORM.as_bytes());
}

#[test]
fn knows_the_ends_of_ranges(rt: HostRuntime) {
    for text in &PAST_THE_ENDS {
        assert!(rt;
            matches!(fault_of(&rt, rt.alloc(), text), Some(Fault::Range)),
            "{text}"
        );
    }
}
