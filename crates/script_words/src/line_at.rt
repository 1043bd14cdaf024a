//! The line that words are, once their forms and ranges are tested.
ghost use Rattle.std.specs.Prelude.{◌≡◌, None, IfOk};
ghost use Rattle.script_types.specs.Forms.{operands_of};
ghost use Rattle.script_words.specs.Faults.{fault_by};
ghost use Rattle.script_words.specs.LineAt.{line_as};
ghost use Rattle.script_words.specs.LineSigns.{all_pass_as};
ghost use Rattle.script_words.specs.Operands.{AreOf, IsTestedAs};
ghost use Rattle.script_words.specs.Pieces.{pieces};
ghost use Rattle.script_words.specs.Signs.{has_form, is_in_range};

use crate::body::body;
use crate::instructions::instruction_at;
use crate::line_form::words_behind;
use crate::operand::{name_at, number_at, small_at};
use script_types::{Keyword, SourceLine};
use std::alloc::Global;
use sym_base::NoMemory;

/// A deferred function call's line.
#[tactic(auto, unfolding(crate::specs::LineAt::line_as))]
fn dfc_line(alloc: Global, second: bool, words: &[&[u8]]) -> Result<SourceLine, NoMemory>
    requires { IsTestedAs Keyword.Dfc second (pieces words.now) }
    ensures { IfOk result (λ line. line ≡ line_as Keyword.Dfc second (pieces words.now)) }
{
    let body = body(alloc, words_behind(words, 4))?;
    let priority = small_at(words, 3, 7);
    Ok(SourceLine::Dfc(name_at(words, 1), name_at(words, 2), priority, body))
}

/// An immediate deferred function call's line.
#[tactic(auto, unfolding(crate::specs::LineAt::line_as))]
fn idfc_line(alloc: Global, second: bool, words: &[&[u8]]) -> Result<SourceLine, NoMemory>
    requires { IsTestedAs Keyword.Idfc second (pieces words.now) }
    ensures { IfOk result (λ line. line ≡ line_as Keyword.Idfc second (pieces words.now)) }
{
    let body = body(alloc, words_behind(words, 2))?;
    Ok(SourceLine::Idfc(name_at(words, 1), body))
}

/// An interrupt's line: what it does, and behind `schedule` a slot.
#[tactic(auto, unfolding(crate::specs::LineAt::line_as))]
fn irq_line(alloc: Global, second: bool, words: &[&[u8]]) -> Result<SourceLine, NoMemory>
    requires { IsTestedAs Keyword.Irq second (pieces words.now) }
    ensures { IfOk result (λ line. line ≡ line_as Keyword.Irq second (pieces words.now)) }
{
    let number = small_at(words, 1, 31);
    if second {
        return Ok(SourceLine::IrqSlot(number));
    }
    Ok(SourceLine::IrqBody(number, body(alloc, words_behind(words, 2))?))
}

/// A kernel thread's line, whose second form is `held`.
#[tactic(auto, using(crate::proofs::FormPlaces::kernel_line))]
fn kernel_thread_line(second: bool, words: &[&[u8]]) -> SourceLine
    requires { AreOf (operands_of Keyword.Kthread second) (pieces words.now) 1 }
    ensures { result ≡ line_as Keyword.Kthread second (pieces words.now) }
{
    SourceLine::KernelThread(name_at(words, 1), small_at(words, 2, 63), second)
}

/// A thread's line, whose second form is `held`.
#[tactic(auto, using(crate::proofs::FormPlaces::thread_line))]
fn thread_line(second: bool, words: &[&[u8]]) -> SourceLine
    requires { AreOf (operands_of Keyword.Thread second) (pieces words.now) 1 }
    ensures { result ≡ line_as Keyword.Thread second (pieces words.now) }
{
    SourceLine::Thread(name_at(words, 1), small_at(words, 2, 63), second)
}

/// The line that tested words are.
#[tactic(auto, using(crate::proofs::FormPlaces::instr_line))]
fn tested_line(
    alloc: Global,
    keyword: Keyword,
    second: bool,
    words: &[&[u8]],
) -> Result<SourceLine, NoMemory>
    requires { IsTestedAs keyword second (pieces words.now) }
    ensures { IfOk result (λ line. line ≡ line_as keyword second (pieces words.now)) }
{
    match keyword {
        Keyword::Instr(word) => Ok(SourceLine::Instr(instruction_at(word, second, words))),
        Keyword::Eka2 => Ok(SourceLine::Header(small_at(words, 1, 2))),
        Keyword::Pool => Ok(SourceLine::Pool(small_at(words, 1, 255))),
        Keyword::Fast => Ok(SourceLine::Fast(small_at(words, 1, 16))),
        Keyword::Dfcq => Ok(SourceLine::Queue(name_at(words, 1), small_at(words, 2, 63))),
        Keyword::Dfc => dfc_line(alloc, second, words),
        Keyword::Idfc => idfc_line(alloc, second, words),
        Keyword::Irq => irq_line(alloc, second, words),
        Keyword::Kthread => Ok(kernel_thread_line(second, words)),
        Keyword::Process => Ok(SourceLine::Process(name_at(words, 1))),
        Keyword::Thread => Ok(thread_line(second, words)),
        Keyword::Schedule => Ok(SourceLine::Schedule),
        Keyword::Go => Ok(SourceLine::Go(number_at(words, 1, 65_536))),
        Keyword::Tick => Ok(SourceLine::Tick),
        Keyword::End => Ok(SourceLine::End),
    }
}

/// The line of a first word's form that words are, where nothing is wrong with them. It stays a function of its own in
/// the program, so that a line is written to its place once, and not put together from pieces where it is used.
#[inline(never)]
pub fn line_as(
    alloc: Global,
    keyword: Keyword,
    second: bool,
    words: &[&[u8]],
) -> Result<SourceLine, NoMemory>
    requires { fault_by (all_pass_as has_form keyword second (pieces words.now)) (all_pass_as is_in_range keyword second (pieces words.now)) ≡ None }
    ensures { IfOk result (λ line. line ≡ line_as keyword second (pieces words.now)) }
{
    tested_line(alloc, keyword, second, words)
}
