//! What is wrong with a word of a line, found at one look where nothing is.
ghost use Rattle.std.specs.Prelude.{◌≡◌, true, false};
ghost use Rattle.script_words.specs.Faults.{fault_by, both_faults};
ghost use Rattle.script_words.specs.Signs.{has_form, is_in_range, is_signed, is_natural, is_between, is_lettered, is_lettered_within};

use crate::argument::{is_argument, is_argument_in_range};
use crate::field::{is_number, is_object_name, is_word};
use crate::numeral::{is_between, is_natural, is_signed};
use script_types::Operand;
use sym_base::read_name;

/// What is wrong with a word, or with the words of a line.
#[derive(Clone, Copy)]
pub enum Fault {
    /// A word hasn't the form of its operand.
    Form,
    /// Each word has its form, and a number is outside its range.
    Range,
}

/// What is wrong with a word that isn't in its range.
fn fault_outside(has_form: bool) -> Option<Fault>
    ensures { result ≡ fault_by has_form false }
{
    if has_form {
        Some(Fault::Range)
    } else {
        Some(Fault::Form)
    }
}

/// What is wrong with a word that has no range.
fn fault_of_form(has_form: bool) -> Option<Fault>
    ensures { result ≡ fault_by has_form true }
{
    if has_form { None } else { Some(Fault::Form) }
}

/// What is wrong with a number from the first to the second.
#[tactic(auto, using(crate::proofs::WordFaults::natural_right))]
fn number_fault(low: u32, high: u32, word: &[u8]) -> Option<Fault>
    ensures { result ≡ fault_by (is_signed word.now) (is_natural low high word.now) }
{
    if is_natural(low, high, word) {
        None
    } else {
        fault_outside(is_signed(word))
    }
}

/// What is wrong with a number from the negative of the first to the second.
#[tactic(auto, using(crate::proofs::WordFaults::between_right))]
fn signed_fault(below: u32, above: u32, word: &[u8]) -> Option<Fault>
    ensures { result ≡ fault_by (is_signed word.now) (is_between below above word.now) }
{
    if is_between(below, above, word) {
        None
    } else {
        fault_outside(is_signed(word))
    }
}

/// What is wrong with a letter and a number.
#[tactic(auto, using(crate::proofs::WordFaults::lettered_right))]
fn lettered_fault(letter: u8, last: u8, word: &[u8]) -> Option<Fault>
    ensures { result ≡ fault_by (is_lettered letter word.now) (is_lettered_within last word.now) }
{
    match word {
        [] => Some(Fault::Form),
        [first, digits @ ..] => {
            if *first != letter {
                Some(Fault::Form)
            } else if is_natural(0, last as u32, digits) {
                None
            } else {
                fault_outside(is_number(digits))
            }
        }
    }
}

/// What is wrong with the slots of a session.
fn slots_fault(word: &[u8]) -> Option<Fault>
    ensures { result ≡ fault_by (has_form Operand.Slots word.now) (is_in_range Operand.Slots word.now) }
{
    if is_word(word, "pool") {
        None
    } else {
        number_fault(1, 255, word)
    }
}

/// What is wrong with an argument of a message.
#[tactic(auto, using(crate::proofs::WordFaults::argument_right))]
fn argument_fault(word: &[u8]) -> Option<Fault>
    ensures { result ≡ fault_by (has_form Operand.Argument word.now) (is_in_range Operand.Argument word.now) }
{
    if is_argument_in_range(word) {
        None
    } else {
        fault_outside(is_argument(word))
    }
}

/// Whether a word names a kind of object that can be opened by name.
fn is_kind(word: &[u8]) -> bool
    ensures { result ≡ has_form Operand.Kind word.now }
{
    is_word(word, "process")
        || is_word(word, "thread")
        || is_word(word, "mutex")
        || is_word(word, "semaphore")
}

/// What is wrong with two: a form first.
pub fn both_faults(one: Option<Fault>, other: Option<Fault>) -> Option<Fault>
    ensures { result ≡ both_faults one other }
{
    match (one, other) {
        (Some(Fault::Form), _) | (_, Some(Fault::Form)) => Some(Fault::Form),
        (None, None) => None,
        _ => Some(Fault::Range),
    }
}

/// What is wrong with the word of an operand.
pub fn word_fault(operand: Operand, word: &[u8]) -> Option<Fault>
    ensures { result ≡ fault_by (has_form operand word.now) (is_in_range operand word.now) }
{
    match operand {
        Operand::Number(low, high) => number_fault(low, high, word),
        Operand::Code => signed_fault(2_147_483_646, 2_147_483_647, word),
        Operand::Lettered(letter, last) => lettered_fault(letter, last, word),
        Operand::Slots => slots_fault(word),
        Operand::Argument => argument_fault(word),
        Operand::Name => fault_of_form(is_object_name(word)),
        Operand::Category => fault_of_form(read_name(word).is_some()),
        Operand::Kind => fault_of_form(is_kind(word)),
        Operand::Mutex => fault_of_form(is_word(word, "mutex")),
        Operand::Semaphore => fault_of_form(is_word(word, "semaphore")),
        Operand::Held => fault_of_form(is_word(word, "held")),
    }
}
