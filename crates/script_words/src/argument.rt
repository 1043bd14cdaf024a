//! The arguments of a message.
ghost use Rattle.std.specs.Prelude.{◌≡◌, ◌&&◌, option_map};
ghost use Rattle.script_words.specs.Pieces.{three_of};
ghost use Rattle.script_words.specs.Signs.{are_arg_parts, is_signed, is_number_word, is_size_word, colon_parts};

use crate::field::{cut, is_word};
use crate::numeral::{is_between, is_natural, is_signed};

/// The byte between two parts of a descriptor.
pub const COLON: u8 = b':';

/// The three parts of bytes between colons. None where there are more or fewer.
#[tactic(auto, using(crate::proofs::Arguments::three_by_none, crate::proofs::Arguments::three_by_one, crate::proofs::Arguments::three_by_three, crate::proofs::Arguments::three_by_more))]
pub fn three_parts(bytes: &[u8]) -> Option<(&[u8], &[u8], &[u8])>
    ensures { option_map (λ parts. (parts.0.now, parts.1.now, parts.2.now)) result ≡ three_of (colon_parts bytes.now) }
{
    let Some((one, rest)) = cut(bytes, COLON) else {
        return None;
    };
    let Some((two, three)) = cut(rest, COLON) else {
        return None;
    };
    if cut(three, COLON).is_some() {
        return None;
    }
    Some((one, two, three))
}

/// Whether a word is a number of bytes, or a place in memory.
fn is_size(word: &[u8]) -> bool
    ensures { result ≡ is_size_word word.now }
{
    is_natural(0, 1024, word)
}

/// Whether all four are so.
fn are_all(one: bool, two: bool, three: bool, four: bool) -> bool
    ensures { result ≡ (one && two && three && four) }
{
    one && two && three && four
}

/// Whether a word has the form of an argument: a number, or `d` and three numbers.
pub fn is_argument(word: &[u8]) -> bool
    ensures { result ≡ are_arg_parts is_signed is_signed (colon_parts word.now) }
{
    let Some((letter, rest)) = cut(word, COLON) else {
        return is_signed(word);
    };
    let Some((offset, length, max)) = three_parts(rest) else {
        return false;
    };
    let is_descriptor = is_word(letter, "d");
    are_all(
        is_descriptor,
        is_signed(offset),
        is_signed(length),
        is_signed(max),
    )
}

/// Whether the numbers of an argument are in their ranges.
pub fn is_argument_in_range(word: &[u8]) -> bool
    ensures { result ≡ are_arg_parts is_number_word is_size_word (colon_parts word.now) }
{
    let Some((letter, rest)) = cut(word, COLON) else {
        return is_between(2_147_483_648, 2_147_483_647, word);
    };
    let Some((offset, length, max)) = three_parts(rest) else {
        return false;
    };
    let is_descriptor = is_word(letter, "d");
    are_all(
        is_descriptor,
        is_size(offset),
        is_size(length),
        is_size(max),
    )
}
