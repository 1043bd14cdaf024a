//! Numbers with a range.
ghost use Rattle.std.specs.Prelude.{◌≡◌};
ghost use Rattle.script_words.specs.Signs.{is_signed, is_natural, is_between};

use crate::field::{is_number, is_word, read_natural};

/// Whether a word is a number, which may have a `-`.
pub fn is_signed(word: &[u8]) -> bool
    ensures { result ≡ is_signed word.now }
{
    match word {
        [] => false,
        [first, digits @ ..] => {
            if *first == b'-' {
                is_number(digits) && !is_word(digits, "0")
            } else {
                is_number(word)
            }
        }
    }
}

/// Whether a word is a number from the first to the second, neither of which is negative.
#[tactic(auto, unfolding(crate::specs::Fields::number_of))]
pub fn is_natural(low: u32, high: u32, word: &[u8]) -> bool
    ensures { result ≡ is_natural low high word.now }
{
    match read_natural(word, high) {
        Some(number) => low <= number,
        None => false,
    }
}

/// Whether a word is a number from the negative of the first to the second.
pub fn is_between(below: u32, above: u32, word: &[u8]) -> bool
    ensures { result ≡ is_between below above word.now }
{
    match word {
        [] => false,
        [first, digits @ ..] => {
            if *first == b'-' {
                is_natural(1, below, digits)
            } else {
                is_natural(0, above, word)
            }
        }
    }
}
