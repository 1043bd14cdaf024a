//! The operands of each line's words.
ghost use Rattle.std.specs.Prelude.{◌≡◌};
ghost use Rattle.script_types.specs.Forms.{operands_of, body_of};
ghost use Rattle.script_words.specs.LineSigns.{second_of, is_counted_as};
ghost use Rattle.script_words.specs.Pieces.{pieces};

use crate::field::is_word;
use crate::instructions::instr_operands;
use crate::shared_operands::{HELD, NAME, PRIORITY};
use crate::source::word_at;
use script_types::{BodyKind, Keyword, Operand};
use sym_base::Word;

/// Whether words are the second form of their first word: a slot behind `schedule`, a thread with a fourth
/// word, and a semaphore that is made.
#[tactic(auto, using(crate::proofs::WordPlaces::pieces_length))]
pub fn second_of(scheduled: bool, keyword: Keyword, words: &[&[u8]]) -> bool
    ensures { result ≡ second_of scheduled keyword (pieces words.now) }
{
    match keyword {
        Keyword::Irq => scheduled,
        Keyword::Kthread | Keyword::Thread => words.len() == 4,
        Keyword::Instr(Word::Create) => is_word(word_at(words, 1), "semaphore"),
        _ => false,
    }
}

/// The operands behind a line's first word, and before a body.
pub fn operands_of(keyword: Keyword, second: bool) -> &'static [Operand]
    ensures { result.now ≡ operands_of keyword second }
{
    match keyword {
        Keyword::Instr(word) => instr_operands(word, second),
        Keyword::Eka2 => &[Operand::Number(1, 2)],
        Keyword::Pool => &[Operand::Number(0, 255)],
        Keyword::Fast => &[Operand::Number(0, 16)],
        Keyword::Dfcq => &[NAME, PRIORITY],
        Keyword::Dfc => &[NAME, NAME, Operand::Number(0, 7)],
        Keyword::Idfc | Keyword::Process => &[NAME],
        Keyword::Irq => &[Operand::Number(0, 31)],
        Keyword::Kthread | Keyword::Thread if second => &[NAME, PRIORITY, HELD],
        Keyword::Kthread | Keyword::Thread => &[NAME, PRIORITY],
        Keyword::Schedule | Keyword::Tick | Keyword::End => &[],
        Keyword::Go => &[Operand::Number(1, 65_536)],
    }
}

/// Whose body ends a line.
pub fn body_of(keyword: Keyword, second: bool) -> Option<BodyKind>
    ensures { result ≡ body_of keyword second }
{
    match keyword {
        Keyword::Dfc | Keyword::Idfc => Some(BodyKind::Call),
        Keyword::Irq if !second => Some(BodyKind::Interrupt),
        _ => None,
    }
}

/// Whether the number of words is the line's: with a body, one word of it at least.
#[tactic(auto, using(crate::proofs::WordPlaces::pieces_length))]
pub fn is_counted(keyword: Keyword, second: bool, words: &[&[u8]]) -> bool
    ensures { result ≡ is_counted_as keyword second (pieces words.now) }
{
    let operands = operands_of(keyword, second);
    match body_of(keyword, second) {
        None => words.len() == operands.len() + 1,
        Some(_) => operands.len() + 2 <= words.len(),
    }
}
