//! Numbers in decimal, as scripts and histories spell them. The forms are this project's own.
ghost use Rattle.std.specs.Fmt.{signed_decimal};
ghost use Rattle.std.specs.Prelude.{◌≡◌};
ghost use Rattle.std.specs.Str.{bytes_eq};
ghost use Rattle.sym_base.specs.Appends.{Appends};
ghost use Rattle.sym_base.specs.Spells.{Spells};

use arrayvec::ArrayVec;
use itoa::Buffer;
use std::str;

/// The number that a word spells in decimal: no sign but a `-` before a negative number, and no
/// zero before another digit. None exactly for a word that is the text of no number of 64 bits.
pub fn read_number(word: &[u8]) -> Option<i64>
    ensures { Spells word.now result }
{
    let Ok(text) = str::from_utf8(word) else {
        return None;
    };
    let Ok(number) = text.parse::<i64>() else {
        return None;
    };
    if is_text_of(number, word) {
        Some(number)
    } else {
        None
    }
}

/// Whether a word is the text of a number.
fn is_text_of(number: i64, word: &[u8]) -> bool
    ensures { result ≡ bytes_eq (signed_decimal number) word.now }
{
    let mut digits = Buffer::new();
    digits.format(number).as_bytes() == word
}

/// Adds a number in decimal to a buffer. False exactly where it doesn't fit, and then nothing changes.
pub fn push_number(out: &mut ArrayVec<u8, 512>, n: i64) -> bool
    ensures { Appends result out.old.items out.new.items (signed_decimal n) }
{
    let mut digits = Buffer::new();
    let text = digits.format(n);
    out.try_extend_from_slice(text.as_bytes()).is_ok()
}
