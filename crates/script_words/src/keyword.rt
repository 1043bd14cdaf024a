//! The first words of lines.
ghost use Rattle.std.specs.List.{find};
ghost use Rattle.std.specs.Prelude.{◌≡◌, ℕ, List, [], ◌∷◌};
ghost use Rattle.std.specs.Str.{bytes_eq};
ghost use Rattle.script_types.specs.Keywords.{keyword_text, line_keywords, keyword_of, keyword_kind};

use script_types::{Keyword, LineKind};
use sym_base::{Word, are_same};

/// The first of two that a word is.
#[inline(always)]
fn either(word: &[u8], one: Keyword, other: Keyword) -> Option<Keyword>
    ensures { result ≡ find (λ k. bytes_eq word.now (keyword_text k)) (one ∷ other ∷ []) }
{
    if are_same(word, one.text()) {
        Some(one)
    } else if are_same(word, other.text()) {
        Some(other)
    } else {
        None
    }
}

/// This one, if a word is it.
#[inline(always)]
fn only(word: &[u8], one: Keyword) -> Option<Keyword>
    ensures { result ≡ find (λ k. bytes_eq word.now (keyword_text k)) (one ∷ []) }
{
    if are_same(word, one.text()) {
        Some(one)
    } else {
        None
    }
}

/// What a word begins whose first byte this is, if it is no instruction's.
fn line_keyword_with(first: u8, word: &[u8]) -> Option<Keyword>
    ensures { (rest : List ℕ) → word.now ≡ first ∷ rest → result ≡ find (λ k. bytes_eq word.now (keyword_text k)) line_keywords }
{
    match first {
        b'd' => either(word, Keyword::Dfcq, Keyword::Dfc),
        b'e' => either(word, Keyword::Eka2, Keyword::End),
        b'f' => only(word, Keyword::Fast),
        b'g' => only(word, Keyword::Go),
        b'i' => either(word, Keyword::Idfc, Keyword::Irq),
        b'k' => only(word, Keyword::Kthread),
        b'p' => either(word, Keyword::Pool, Keyword::Process),
        b's' => only(word, Keyword::Schedule),
        b't' => either(word, Keyword::Thread, Keyword::Tick),
        _ => None,
    }
}

/// What a word begins, if it is no instruction's.
fn line_keyword(word: &[u8]) -> Option<Keyword>
    ensures { result ≡ find (λ k. bytes_eq word.now (keyword_text k)) line_keywords }
{
    match word {
        [] => None,
        [first, ..] => line_keyword_with(*first, word),
    }
}

/// What a word begins. Only the words that begin with its first byte are looked at.
pub fn keyword_of(word: &[u8]) -> Option<Keyword>
    ensures { result ≡ keyword_of word.now }
{
    match Word::of(word) {
        Some(instr) => Some(Keyword::Instr(instr)),
        None => line_keyword(word),
    }
}

/// The kind of line that a word begins. An `irq` behind `schedule` is a slot.
pub fn keyword_kind(scheduled: bool, keyword: Keyword) -> LineKind
    ensures { result ≡ keyword_kind scheduled keyword }
{
    match keyword {
        Keyword::Eka2 => LineKind::Header,
        Keyword::Pool => LineKind::Pool,
        Keyword::Fast => LineKind::Fast,
        Keyword::Dfcq => LineKind::Queue,
        Keyword::Dfc => LineKind::Dfc,
        Keyword::Idfc => LineKind::Idfc,
        Keyword::Irq if scheduled => LineKind::Slot,
        Keyword::Irq => LineKind::IrqBody,
        Keyword::Kthread => LineKind::KernelThread,
        Keyword::Process => LineKind::Process,
        Keyword::Thread => LineKind::Thread,
        Keyword::Schedule => LineKind::Schedule,
        Keyword::Go | Keyword::Tick => LineKind::Slot,
        Keyword::End => LineKind::End,
        Keyword::Instr(_) => LineKind::Instr,
    }
}
