//! The parts of a line: words, numbers and names.
ghost use Rattle.std.specs.Prelude.{◌≡◌, ◌≢◌, ◌==◌, ◌&&◌, ◌||◌, ◌*◌, ◌-◌, not, nat_le, if◌then◌else◌, slice_index, ◌+◌, All, IfNone, ◌<◌, ◌≤◌, length, position, option_map, IfSome, Some, None};
ghost use Rattle.std.specs.List.{list_all};
ghost use Rattle.std.specs.Str.{bytes_eq};
ghost use Rattle.std.specs.Str.Parse.{digits_value};
ghost use Rattle.std.specs.Char.{is_ascii_digit};
ghost use Rattle.script_words.specs.Fields.{cut_of, is_number, number_of};
ghost use Rattle.script_types.specs.ObjectName.{is_lower_case, is_object_byte, is_object_name};

use memchr::memchr;
use sym_base::are_same;

/// The place of the first such byte.
fn place_of(bytes: &[u8], at: u8) -> Option<usize>
    ensures value { result ≡ position (λ byte. byte == at) bytes.now }
    ensures within { IfSome result (λ place. place < length bytes.now) }
    ensures missing { IfNone result (All (λ byte. byte ≢ at) bytes.now) }
{
    bytes.iter().position(|byte| *byte == at)
}

/// The bytes before the first `at`, and those after it. None where there is no such byte.
#[tactic(auto, using(crate::proofs::Cuts::cut_some, crate::proofs::Cuts::cut_none))]
pub fn cut(bytes: &[u8], at: u8) -> Option<(&[u8], &[u8])>
    ensures parts { option_map (λ parts. (parts.0.now, parts.1.now)) result ≡ cut_of at bytes.now }
    ensures shorter { IfSome result (λ parts. length parts.1.now < length bytes.now) }
{
    let place = place_of(bytes, at)?;
    Some((&bytes[..place], &bytes[place + 1..]))
}

/// The same, where the first `at` may stand far behind.
pub fn cut_far(bytes: &[u8], at: u8) -> Option<(&[u8], &[u8])>
    ensures parts { option_map (λ parts. (parts.0.now, parts.1.now)) result ≡ cut_of at bytes.now }
    ensures shorter { IfSome result (λ parts. length parts.1.now < length bytes.now) }
{
    match memchr(at, bytes) {
        Some(place) => Some((&bytes[..place], &bytes[place + 1..])),
        None => None,
    }
}

/// Whether the bytes are this word.
pub fn is_word(bytes: &[u8], word: &str) -> bool
    ensures { result ≡ bytes_eq bytes.now word.now }
{
    are_same(bytes, word.as_bytes())
}

/// Whether each byte of a word is a digit.
fn are_digits(word: &[u8]) -> bool
    ensures { result ≡ list_all is_ascii_digit word.now }
{
    word.iter().all(|digit| digit.is_ascii_digit())
}

/// Whether digits are no zero before another digit.
fn has_no_zero_before(digits: &[u8]) -> bool
    requires { 0 < length digits.now }
    ensures { result ≡ (length digits.now == 1 || not (slice_index digits.now 0 == 48)) }
{
    digits.len() == 1 || digits[0] != b'0'
}

/// Whether a word is a number without a sign: digits, and no zero before another.
pub fn is_number(word: &[u8]) -> bool
    ensures { result ≡ is_number word.now }
{
    !word.is_empty() && are_digits(word) && has_no_zero_before(word)
}

/// A number with one more digit. None where that is no digit, or the number greater than `max`.
fn with_digit(number: u32, digit: u8, max: u32) -> Option<u32>
    ensures { result ≡ (if is_ascii_digit digit && nat_le (number * 10 + (digit - 48)) max then Some (number * 10 + (digit - 48)) else None) }
{
    if !digit.is_ascii_digit() {
        return None;
    }
    let number = u64::from(number) * 10 + u64::from(digit - b'0');
    if number <= u64::from(max) {
        Some(number as u32)
    } else {
        None
    }
}

/// The number that digits spell. None where a byte is none, or the number greater than `max`. Each digit is looked at
/// once.
#[tactic(auto, using(crate::proofs::Numbers::digits_start, crate::proofs::Numbers::digits_none, crate::proofs::Numbers::digits_more, crate::proofs::Numbers::digits_end))]
fn read_digits(digits: &[u8], max: u32) -> Option<u32>
    ensures { result ≡ (if list_all is_ascii_digit digits.now && nat_le (digits_value 10 digits.now) max then Some (digits_value 10 digits.now) else None) }
{
    let mut number = 0;
    for i in 0..digits.len() {
        let Some(more) = with_digit(number, digits[i], max) else {
            return None;
        };
        number = more;
    }
    Some(number)
}

/// The number that a word spells. None where it spells none, or one greater than `max`.
#[tactic(auto, unfolding(crate::specs::Fields::number_of))]
pub fn read_natural(word: &[u8], max: u32) -> Option<u32>
    ensures value { result ≡ number_of max word.now }
    ensures small { IfSome result (λ number. number ≤ max) }
{
    if word.is_empty() || !has_no_zero_before(word) {
        return None;
    }
    read_digits(word, max)
}

/// Whether a byte is a lower-case letter.
fn is_lower_case(byte: u8) -> bool
    ensures { result ≡ is_lower_case byte }
{
    byte.is_ascii_lowercase()
}

/// Whether a byte may stand in an object's name after its first letter.
fn is_object_byte(byte: u8) -> bool
    ensures { result ≡ is_object_byte byte }
{
    is_lower_case(byte) || byte.is_ascii_digit() || byte == b'_'
}

/// Whether each byte of a word may stand in an object's name.
fn are_object_bytes(word: &[u8]) -> bool
    ensures { result ≡ list_all is_object_byte word.now }
{
    word.iter().all(|byte| is_object_byte(*byte))
}

/// Whether a word is the name of an object: a lower-case letter, and at most 15 more bytes, each a
/// lower-case letter, a digit or `_`.
pub fn is_object_name(word: &[u8]) -> bool
    ensures { result ≡ is_object_name word.now }
{
    match word {
        [] => false,
        [first, rest @ ..] => {
            is_lower_case(*first) && rest.len() <= 15 && are_object_bytes(rest)
        }
    }
}
