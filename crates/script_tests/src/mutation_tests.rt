//! Scripts that are changed at random, read, and printed again.
use crate::every_form::EVERY_FORM;
use crate::tests::{SCRIPT, TWO_THREADS};
use script_print::print_script;
use script_read::{ReadScript, read_script};
use script_words::take_words;
use std::alloc::Global;
use std::process::Abort;

/// How many texts are made of each script.
const ROUNDS: u32 = 150;

/// Numbers that follow from a seed, by a linear congruential generator.
#[derive(Drop)]
struct Draws {
    state: u64,
}

impl Draws {
    /// The next number below a bound, 0 where that is 0.
    fn below(&mut self, bound: usize) -> usize {
        self.state = self
            .state
            .wrapping_mul(6_364_136_223_846_793_005)
            .wrapping_add(1_442_695_040_888_963_407);
        (self.state >> 33) as usize % bound.max(1)
    }
}

/// The first place behind a byte from a place on, and the end of the text where there is none.
fn behind(text: &[u8], from: usize, byte: u8) -> usize {
    for at in from..text.len() {
        if text[at] == byte {
            return at + 1;
        }
    }
    text.len()
}

/// The ends of a piece of a text: a byte, a word with its space, or a line; or nothing between two of these.
fn piece(draws: &mut Draws, text: &[u8]) -> (usize, usize) {
    let anywhere = draws.below(text.len());
    let kind = draws.below(8);
    let from = match kind {
        0 => anywhere,
        1 | 2 => behind(text, anywhere, b' '),
        _ => behind(text, anywhere, b'\n'),
    };
    let upto = match kind {
        0 => from.saturating_add(1),
        1 => behind(text, from, b' '),
        3..=5 => behind(text, from, b'\n'),
        _ => from,
    };
    (from, upto)
}

/// The bytes between two places of a text, which may lie past its end or in the other order.
fn between(text: &[u8], from: usize, upto: usize) -> &[u8] {
    let upto = upto.min(text.len());
    &text[from.min(upto)..upto]
}

/// A text in which a copy of one piece stands in the place of another.
fn changed<R: Abort>(rt: &R, alloc: Global, draws: &mut Draws, text: &[u8]) -> Vec<u8> {
    let (from, upto) = piece(draws, text);
    let (copied_from, copied_upto) = piece(draws, text);
    let mut made = Vec::from_slice(alloc, between(text, 0, from)).expect(rt, "memory");
    made.extend_from_slice(between(text, copied_from, copied_upto))
        .expect(rt, "memory");
    made.extend_from_slice(between(text, upto, text.len()))
        .expect(rt, "memory");
    made
}

/// A text after one to three changes.
fn changed_often<R: Abort>(rt: &R, alloc: Global, draws: &mut Draws, text: &str) -> Vec<u8> {
    let mut made = changed(rt, alloc, draws, text.as_bytes());
    for _change in 0..draws.below(3) {
        made = changed(rt, alloc, draws, made.as_slice());
    }
    made
}

/// What reading a text answers.
#[derive(Drop)]
enum Outcome {
    /// The canonical text of what it is accepted as.
    Accepted(Vec<u8>),
    /// Its first bad line.
    Refused(u32),
}

/// Reads a text, and prints what it is accepted as.
fn read_and_print<R: Abort>(rt: &R, alloc: Global, text: &[u8]) -> Outcome {
    assert!(rt; text.len() <= 1_000_000);
    match read_script(alloc, text) {
        ReadScript::Script(script) => Outcome::Accepted(print_script(alloc, &script).expect(
            rt, "memory",
        )),
        ReadScript::Refused { line, .. } => Outcome::Refused(line),
        ReadScript::NoMemory => panic!(rt; "no memory"),
    }
}

/// Whether a line says the same in each text of a script: it has words, and is no comment, no setting that may be left
/// out, and none of the schedule's that may be cut otherwise.
fn is_kept(words: &[&[u8]]) -> bool {
    match words {
        [] => false,
        [first, ..] => {
            let word = *first;
            !(word.starts_with(b"#")
                || word == b"go".as_slice()
                || word == b"pool".as_slice()
                || word == b"fast".as_slice()
                || word == b"schedule".as_slice())
        }
    }
}

/// The words of the lines that each text of a script has, a space behind each word and a line feed behind each line.
fn bare<R: Abort>(rt: &R, alloc: Global, text: &[u8]) -> Vec<u8> {
    let mut made = Vec::new(alloc);
    let mut words = Vec::new(alloc);
    for line in text.split(|byte| *byte == b'\n') {
        take_words(&mut words, line).expect(rt, "memory");
        if is_kept(words.as_slice()) {
            for word in words.as_slice() {
                made.extend_from_slice(word).expect(rt, "memory");
                made.push(b' ').expect(rt, "memory");
            }
            made.push(b'\n').expect(rt, "memory");
        }
    }
    made
}

/// Whether a canonical text has the words of the text that it comes from, and is read to the script that it is of.
fn is_same_script<R: Abort>(rt: &R, alloc: Global, text: &[u8], canonical: &[u8]) -> bool {
    let Outcome::Accepted(again) = read_and_print(rt, alloc, canonical) else {
        return false;
    };
    let told = bare(rt, alloc, text);
    let printed = bare(rt, alloc, canonical);
    again.as_slice() == canonical && printed.as_slice() == told.as_slice()
}

/// Whether a text is accepted. The test stops where its canonical text is read to another script, or where the line
/// that is refused isn't there.
fn is_accepted<R: Abort>(rt: &R, alloc: Global, text: &[u8]) -> bool {
    match read_and_print(rt, alloc, text) {
        Outcome::Accepted(canonical) => {
            assert!(rt; is_same_script(rt, alloc, text, canonical.as_slice()));
            true
        }
        Outcome::Refused(line) => {
            let feeds = text.iter().filter(|byte| **byte == b'\n').count();
            assert!(rt; 0 < line && line as usize <= feeds.saturating_add(2));
            false
        }
    }
}

/// How many of the texts are accepted that are made of a script.
fn accepted_of<R: Abort>(rt: &R, alloc: Global, draws: &mut Draws, script: &str) -> u32 {
    let mut accepted = 0u32;
    for _round in 0..ROUNDS {
        let text = changed_often(rt, alloc, draws, script);
        if is_accepted(rt, alloc, text.as_slice()) {
            accepted = accepted.saturating_add(1);
        }
    }
    accepted
}

#[test]
fn what_is_accepted_is_printed_and_read_again(rt: HostRuntime) {
    let alloc = rt.alloc();
    let mut draws = Draws { state: 1 };
    let first = accepted_of(&rt, alloc, &mut draws, SCRIPT);
    let second = accepted_of(&rt, alloc, &mut draws, TWO_THREADS);
    let third = accepted_of(&rt, alloc, &mut draws, EVERY_FORM);
    let accepted = first.saturating_add(second).saturating_add(third);
    assert!(rt; 50 < accepted && accepted < 400, "{accepted}");
}
