//! The values of a line's words, once their forms and ranges are tested.
ghost use Rattle.std.specs.Prelude.{◌≡◌, ◌≤◌, drop, neg_ℤ, pos};
ghost use Rattle.script_words.specs.LineAt.{natural, kind_named, slots_named, arg_of};
ghost use Rattle.script_words.specs.LineSigns.{word_at};
ghost use Rattle.script_words.specs.Operands.{IsNumber, IsSigned, IsName, IsSlots, IsArgument};
ghost use Rattle.script_words.specs.Pieces.{pieces};
ghost use Rattle.script_words.specs.Signs.{signed_value, lettered_value, colon_parts};

use crate::argument::{COLON, three_parts};
use crate::field::{cut, is_word, read_natural};
use crate::source::word_at;
use sym_base::{Arg, Kind, Name, Slots, read_name};

/// The number that a word is, at most `last`.
#[tactic(auto, using(crate::proofs::Operands::number_known))]
fn number(word: &[u8], last: u32) -> u32
    requires { IsNumber last word.now }
    ensures value { result ≡ natural word.now }
    ensures within { result ≤ last }
{
    read_natural(word, last).unwrap()
}

/// The number behind a word's letter, at most `last`.
#[tactic(auto, using(crate::proofs::Operands::letter_some))]
fn lettered(word: &[u8], last: u8) -> u8
    requires { IsNumber last (drop 1 word.now) }
    ensures { result ≡ lettered_value word.now }
{
    number(&word[1..], last as u32) as u8
}

/// The negative of a number.
fn negative(number: u32) -> i32
    requires { number ≤ 2147483648 }
    ensures { result ≡ neg_ℤ (pos number) }
{
    -(number as i64) as i32
}

/// The number that a word is, which may have a `-`.
fn signed(word: &[u8]) -> i32
    requires { IsSigned word.now }
    ensures { result ≡ signed_value word.now }
{
    match word {
        [b'-', digits @ ..] => negative(number(digits, 2_147_483_648)),
        _ => number(word, 2_147_483_647) as i32,
    }
}

/// The kind of object that a word names.
fn kind_named(word: &[u8]) -> Kind
    ensures { result ≡ kind_named word.now }
{
    if is_word(word, "process") {
        Kind::Process
    } else if is_word(word, "thread") {
        Kind::Thread
    } else if is_word(word, "mutex") {
        Kind::Mutex
    } else {
        Kind::Semaphore
    }
}

/// The slots of a session that a word names.
fn slots_named(word: &[u8]) -> Slots
    requires { IsSlots word.now }
    ensures { result ≡ slots_named word.now }
{
    if is_word(word, "pool") {
        Slots::Pool
    } else {
        Slots::Own(number(word, 255) as u8)
    }
}

/// The argument that a word is.
fn argument(word: &[u8]) -> Arg
    requires { IsArgument word.now }
    ensures { result ≡ arg_of (colon_parts word.now) }
{
    let Some((_, rest)) = cut(word, COLON) else {
        return Arg::Number(signed(word));
    };
    let Some((offset, length, max)) = three_parts(rest) else {
        unreachable!()
    };
    Arg::Descriptor {
        offset: number(offset, 1024) as u16,
        length: number(length, 1024) as u16,
        max: number(max, 1024) as u16,
    }
}

/// The number at a place, at most `last`.
pub fn number_at(words: &[&[u8]], at: usize, last: u32) -> u32
    requires { IsNumber last (word_at (pieces words.now) at) }
    ensures value { result ≡ natural (word_at (pieces words.now) at) }
    ensures within { result ≤ last }
{
    number(word_at(words, at), last)
}

/// The number at a place, at most `last`, as a byte.
pub fn small_at(words: &[&[u8]], at: usize, last: u8) -> u8
    requires { IsNumber last (word_at (pieces words.now) at) }
    ensures { result ≡ natural (word_at (pieces words.now) at) }
{
    number_at(words, at, last as u32) as u8
}

/// The byte at a place.
pub fn byte_at(words: &[&[u8]], at: usize) -> u8
    requires { IsNumber 255 (word_at (pieces words.now) at) }
    ensures { result ≡ natural (word_at (pieces words.now) at) }
{
    small_at(words, at, 255)
}

/// The place in memory, or the number of bytes, that stands at a place.
pub fn size_at(words: &[&[u8]], at: usize) -> u16
    requires { IsNumber 1024 (word_at (pieces words.now) at) }
    ensures { result ≡ natural (word_at (pieces words.now) at) }
{
    number_at(words, at, 1024) as u16
}

/// The place of a byte in a thread's memory that stands at a place.
pub fn address_at(words: &[&[u8]], at: usize) -> u16
    requires { IsNumber 1023 (word_at (pieces words.now) at) }
    ensures { result ≡ natural (word_at (pieces words.now) at) }
{
    number_at(words, at, 1023) as u16
}

/// The register at a place, of a handle or of a message: 0 to 7.
pub fn register_at(words: &[&[u8]], at: usize) -> u8
    requires { IsNumber 7 (drop 1 (word_at (pieces words.now) at)) }
    ensures { result ≡ lettered_value (word_at (pieces words.now) at) }
{
    lettered(word_at(words, at), 7)
}

/// The status, device or fast mutex at a place: 0 to 15.
pub fn item_at(words: &[&[u8]], at: usize) -> u8
    requires { IsNumber 15 (drop 1 (word_at (pieces words.now) at)) }
    ensures { result ≡ lettered_value (word_at (pieces words.now) at) }
{
    lettered(word_at(words, at), 15)
}

/// The code at a place.
pub fn code_at(words: &[&[u8]], at: usize) -> i32
    requires { IsSigned (word_at (pieces words.now) at) }
    ensures { result ≡ signed_value (word_at (pieces words.now) at) }
{
    signed(word_at(words, at))
}

/// The name at a place.
pub fn name_at(words: &[&[u8]], at: usize) -> Name
    requires { IsName (word_at (pieces words.now) at) }
    ensures { result ≡ word_at (pieces words.now) at }
{
    read_name(word_at(words, at)).unwrap()
}

/// The kind of object at a place.
pub fn kind_at(words: &[&[u8]], at: usize) -> Kind
    ensures { result ≡ kind_named (word_at (pieces words.now) at) }
{
    kind_named(word_at(words, at))
}

/// The slots of a session at a place.
pub fn slots_at(words: &[&[u8]], at: usize) -> Slots
    requires { IsSlots (word_at (pieces words.now) at) }
    ensures { result ≡ slots_named (word_at (pieces words.now) at) }
{
    slots_named(word_at(words, at))
}

/// The argument of a message at a place.
pub fn argument_at(words: &[&[u8]], at: usize) -> Arg
    requires { IsArgument (word_at (pieces words.now) at) }
    ensures { result ≡ arg_of (colon_parts (word_at (pieces words.now) at)) }
{
    argument(word_at(words, at))
}
