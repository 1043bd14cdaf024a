//! The first words of a line.
ghost use Rattle.std.specs.Prelude.{◌≡◌, List, ℕ, ◌∷◌, [], Some, None, MatchOption};
ghost use Rattle.script_types.specs.SourceText.{words_of};
ghost use Rattle.script_types.specs.Names.{first_two};
ghost use Rattle.script_read.specs.FileNames.{declared_by};

use script_words::{begins_comment, cut};

/// The byte between two words.
const SPACE: u8 = b' ';

/// The first word of a line, and what stands behind it. None where the line has no word.
fn first_word(line: &[u8]) -> Option<(&[u8], &[u8])>
    ensures { MatchOption result (words_of line.now ≡ [])
        (λ found. words_of line.now ≡ found.0.now ∷ words_of found.1.now) }
{
    let mut rest = line;
    while let Some((word, after)) = cut(rest, SPACE) {
        if !word.is_empty() {
            return Some((word, after));
        }
        rest = after;
    }
    if rest.is_empty() {
        None
    } else {
        Some((rest, &rest[..0]))
    }
}

/// The first word of a line that isn't skipped, and what stands behind it. None where the line is skipped.
pub fn told_word(line: &[u8]) -> Option<(&[u8], &[u8])>
    ensures { MatchOption result (declared_by (words_of line.now) ≡ None)
        (λ found. declared_by (words_of line.now) ≡ Some (first_two (found.0.now ∷ words_of found.1.now))) }
{
    let (first, rest) = first_word(line)?;
    if begins_comment(first) {
        return None;
    }
    Some((first, rest))
}

/// The second word of a line, behind its first. It is empty where there is none.
pub fn second_word(rest: &[u8]) -> &[u8]
    ensures { (first : List ℕ) → first_two (first ∷ words_of rest.now) ≡ (first, result.now) }
{
    match first_word(rest) {
        Some((word, _)) => word,
        None => &rest[..0],
    }
}
