//! The forms and the ranges of a whole line.
ghost use Rattle.std.specs.List.{list_all};
ghost use Rattle.std.specs.Prelude.{◌≡◌, drop, option_map, codes};
ghost use Rattle.std.specs.Str.{bytes_eq};
ghost use Rattle.script_words.specs.Faults.{fault_by, is_of_form};
ghost use Rattle.script_words.specs.LineSigns.{op_signs, are_words, is_op, operations, all_pass_as};
ghost use Rattle.script_words.specs.Pieces.{pieces};
ghost use Rattle.script_words.specs.Signs.{each_passes, has_form, is_in_range};

use crate::fault::{Fault, both_faults, word_fault};
use crate::field::is_word;
use crate::line_signs::{body_of, operands_of};
use crate::shared_operands::{CODE, DEVICE, NAME};
use script_types::{BodyKind, Keyword, Operand};

/// The words behind so many.
#[tactic(auto, using(crate::proofs::WordPlaces::pieces_behind, crate::proofs::WordPlaces::none_behind))]
pub fn words_behind<'s, 'w>(words: &'s [&'w [u8]], count: usize) -> &'s [&'w [u8]]
    ensures { pieces result.now ≡ drop count (pieces words.now) }
{
    if count <= words.len() {
        &words[count..]
    } else {
        &[]
    }
}

/// The operands of an operation that begins with this word. None where none of the body's list does.
fn operation_signs(kind: BodyKind, first: &[u8]) -> Option<&'static [Operand]>
    ensures { option_map (λ operands. operands.now) result ≡ op_signs kind first.now }
{
    match kind {
        BodyKind::Interrupt => interrupt_signs(first),
        BodyKind::Call => call_signs(first),
    }
}

/// The operands of an interrupt's operation.
fn interrupt_signs(first: &[u8]) -> Option<&'static [Operand]>
    ensures { option_map (λ operands. operands.now) result ≡ op_signs BodyKind.Interrupt first.now }
{
    if is_word(first, "idfc") || is_word(first, "dfc") {
        Some(&[NAME])
    } else {
        None
    }
}

/// The operands of a deferred function call's operation.
fn call_signs(first: &[u8]) -> Option<&'static [Operand]>
    ensures { option_map (λ operands. operands.now) result ≡ op_signs BodyKind.Call first.now }
{
    if is_word(first, "fssignal") || is_word(first, "queue") {
        Some(&[NAME])
    } else if is_word(first, "device") {
        Some(&[DEVICE, CODE])
    } else {
        None
    }
}

/// Whether a word stands between two operations.
pub fn ends_operation(word: &[u8]) -> bool
    ensures { result ≡ bytes_eq word.now (codes ";") }
{
    is_word(word, ";")
}

/// Whether a fault is one of form.
fn is_of_form(fault: Option<Fault>) -> bool
    ensures { result ≡ is_of_form fault }
{
    match fault {
        Some(Fault::Form) => true,
        _ => false,
    }
}

/// What is wrong with words: a form first.
fn words_fault(operands: &[Operand], words: &[&[u8]]) -> Option<Fault>
    ensures { result ≡ fault_by (each_passes has_form operands.now (pieces words.now)) (each_passes is_in_range operands.now (pieces words.now)) }
{
    let mut are_in_range = true;
    for i in 0..operands.len() {
        if i >= words.len() {
            return Some(Fault::Form);
        }
        let fault = word_fault(operands[i], words[i]);
        if is_of_form(fault) {
            return Some(Fault::Form);
        }
        are_in_range &= fault.is_none();
    }
    if are_in_range {
        None
    } else {
        Some(Fault::Range)
    }
}

/// What is wrong with words that must be as many as the operands.
#[tactic(auto, using(crate::proofs::WordPlaces::pieces_length))]
fn all_words_fault(operands: &[Operand], words: &[&[u8]]) -> Option<Fault>
    ensures { result ≡ fault_by (are_words has_form operands.now (pieces words.now)) (are_words is_in_range operands.now (pieces words.now)) }
{
    if words.len() == operands.len() {
        words_fault(operands, words)
    } else {
        Some(Fault::Form)
    }
}

/// What is wrong with the words of an operation of a body.
fn operation_fault(kind: BodyKind, words: &[&[u8]]) -> Option<Fault>
    ensures { result ≡ fault_by (is_op has_form kind (pieces words.now)) (is_op is_in_range kind (pieces words.now)) }
{
    if words.is_empty() {
        return Some(Fault::Form);
    }
    match operation_signs(kind, words[0]) {
        Some(operands) => all_words_fault(operands, &words[1..]),
        None => Some(Fault::Form),
    }
}

/// What is wrong with the words of a body.
fn body_fault(kind: BodyKind, words: &[&[u8]]) -> Option<Fault>
    ensures { result ≡ fault_by (list_all (is_op has_form kind) (operations (pieces words.now))) (list_all (is_op is_in_range kind) (operations (pieces words.now))) }
{
    let mut fault = None;
    for operation in words.split(|word| ends_operation(word)) {
        fault = both_faults(fault, operation_fault(kind, operation));
    }
    fault
}

/// What is wrong with the words of a line: a form first, of an operand or in the body.
#[tactic(auto, using(crate::proofs::WordFaults::line_without, crate::proofs::WordFaults::line_with))]
pub fn line_fault(keyword: Keyword, second: bool, words: &[&[u8]]) -> Option<Fault>
    ensures { result ≡ fault_by (all_pass_as has_form keyword second (pieces words.now)) (all_pass_as is_in_range keyword second (pieces words.now)) }
{
    let operands = operands_of(keyword, second);
    let fault = words_fault(operands, words_behind(words, 1));
    match body_of(keyword, second) {
        None => fault,
        Some(kind) => {
            let body = words_behind(words, operands.len() + 1);
            both_faults(fault, body_fault(kind, body))
        }
    }
}
