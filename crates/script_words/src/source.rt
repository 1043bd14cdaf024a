//! A text as lines, and a line as words.
ghost use Rattle.std.specs.Prelude.{◌≡◌, List, ℕ, ◌<◌, ◌++◌, ◌∷◌, ◌&&◌, nat_le, length, OnOk};
ghost use Rattle.script_words.specs.LineSigns.{word_at};
ghost use Rattle.script_words.specs.Pieces.{pieces, one_word};
ghost use Rattle.script_types.specs.SourceText.{text_lines, words_of, is_skipped, is_printed, is_short};

use crate::field::{cut, cut_far};
use script_types::Limits;
use sym_base::NoMemory;

/// The byte between two words, and the one that ends a line.
const SPACE: u8 = b' ';

const LINE_FEED: u8 = b'\n';

/// The first line of a text that isn't empty, without its line feed, and what stands behind it.
pub fn first_line(text: &[u8]) -> (&[u8], &[u8])
    requires { 0 < length text.now }
    ensures lines { text_lines text.now ≡ result.0.now ∷ text_lines result.1.now }
    ensures shorter { length result.1.now < length text.now }
{
    match cut_far(text, LINE_FEED) {
        Some((line, rest)) => (line, rest),
        None => (text, &text[..0]),
    }
}

/// Adds a word, where it isn't empty.
fn push_word<'a>(words: &mut Vec<&'a [u8]>, word: &'a [u8]) -> Result<(), NoMemory>
    ensures { OnOk result (pieces words.new.items ≡ pieces words.old.items ++ one_word word.now) }
{
    if !word.is_empty() {
        words.push(word)?;
    }
    Ok(())
}

/// Puts the words of a line in place of those of another.
pub fn take_words<'a>(words: &mut Vec<&'a [u8]>, line: &'a [u8]) -> Result<(), NoMemory>
    ensures { OnOk result (pieces words.new.items ≡ words_of line.now) }
{
    words.clear();
    let mut rest = line;
    while let Some((word, after)) = cut(rest, SPACE) {
        push_word(words, word)?;
        rest = after;
    }
    push_word(words, rest)?;
    Ok(())
}

/// The word at a place, without bytes where there is none.
#[tactic(auto, using(crate::proofs::WordPlaces::word_at_place, crate::proofs::WordPlaces::word_past))]
pub fn word_at<'a>(words: &[&'a [u8]], at: usize) -> &'a [u8]
    ensures { result.now ≡ word_at (pieces words.now) at }
{
    if at < words.len() { words[at] } else { &[] }
}

/// Whether a line that begins with this word is a comment.
pub fn begins_comment(word: &[u8]) -> bool
    ensures { (words : List (List ℕ)) → result ≡ is_skipped (word.now ∷ words) }
{
    match word {
        [] => false,
        [first, ..] => *first == b'#',
    }
}

/// Whether a line of these words is skipped: it has none, or is a comment.
pub fn is_skipped(words: &[&[u8]]) -> bool
    ensures { result ≡ is_skipped (pieces words.now) }
{
    words.is_empty() || begins_comment(words[0])
}

/// Whether a byte may stand in a line.
fn is_printed_byte(byte: u8) -> bool
    ensures { result ≡ (nat_le 32 byte && nat_le byte 126) }
{
    32 <= byte && byte <= 126
}

/// Whether each byte of a line may stand in it. Every byte is looked at, so that many are at a time.
pub fn is_printed(line: &[u8]) -> bool
    ensures { result ≡ is_printed line.now }
{
    let mut printed = true;
    for byte in line {
        printed &= is_printed_byte(*byte);
    }
    printed
}

/// Whether a line isn't too long.
pub fn is_short(line: &[u8]) -> bool
    ensures { result ≡ is_short line.now }
{
    line.len() <= Limits::LINE
}
