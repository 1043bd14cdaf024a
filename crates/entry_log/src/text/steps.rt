//! The words of steps, and the text of a step.
ghost use Rattle.std.specs.Prelude.{◌≡◌, ◌+◌, ◌≤◌, [], ◌∷◌, ◌++◌, length};
ghost use Rattle.entry_log.specs.Joined.{joined};
ghost use Rattle.entry_log.specs.PartText.{part_text};
ghost use Rattle.entry_log.specs.StepText.{step_text};

use super::line::{Line, put, put_byte, put_letters, put_short};
use crate::{Part, Step};
use sym_base::Name;

/// Adds a part after a dot, at most 7 bytes.
#[tactic(auto, unfolding(crate::specs::PartText::part_text))]
fn put_part(line: &mut Line, part: Part)
    requires { length line.old.items + 7 ≤ 512 }
    ensures text { line.new.items ≡ line.old.items ++ 46 ∷ part_text part }
    ensures short { length line.new.items ≤ length line.old.items + 7 }
{
    match part {
        Part::Seek => put_letters(line, b".seek"),
        Part::Return => put_letters(line, b".return"),
        Part::Look => put_letters(line, b".look"),
        Part::Make => put_letters(line, b".make"),
        Part::Send => put_letters(line, b".send"),
        Part::Do => put_letters(line, b".do"),
        Part::Done => put_letters(line, b".done"),
        Part::Piece => put_letters(line, b".piece"),
    }
}

/// Adds `WORD.PART`.
fn put_of(line: &mut Line, word: &[u8], part: Part)
    requires { length line.old.items + length word.now + 7 ≤ 512 }
    ensures text { line.new.items ≡ line.old.items ++ joined 46 (word.now ∷ part_text part ∷ []) }
    ensures short { length line.new.items ≤ length line.old.items + length word.now + 7 }
{
    put_short(line, word);
    put_part(line, part);
}

/// Adds `FIRST.SECOND`.
fn put_two(line: &mut Line, first: &[u8], second: &[u8])
    requires { length line.old.items + length first.now + 1 + length second.now ≤ 512 }
    ensures text { line.new.items ≡ line.old.items ++ joined 46 (first.now ∷ second.now ∷ []) }
    ensures short { length line.new.items ≤ length line.old.items + length first.now + 1 + length second.now }
{
    put(line, first);
    put_byte(line, b'.');
    put(line, second);
}

/// Adds a step, at most 21 bytes.
#[tactic(auto, unfolding(crate::specs::StepText::step_text, crate::specs::StepText::step_words, crate::specs::Joined::joined, crate::specs::Joined::preceded))]
pub fn put_step(line: &mut Line, step: &Step)
    requires { length line.old.items + 21 ≤ 512 }
    ensures text { line.new.items ≡ line.old.items ++ step_text step.now }
    ensures short { length line.new.items ≤ length line.old.items + 21 }
{
    match step {
        Step::Of(word, part) => put_of(line, word.text(), *part),
        Step::RunOf(name) => put_two(line, name.as_slice(), b"run"),
        Step::MoveOf(name) => put_two(line, name.as_slice(), b"move"),
        Step::Drop => put_letters(line, b"drop"),
        Step::Sweep => put_letters(line, b"sweep"),
        Step::Finish => put_letters(line, b"finish"),
        Step::Detach => put_letters(line, b"detach"),
        Step::Stop => put_letters(line, b"stop"),
        Step::Free => put_letters(line, b"free"),
        Step::Shut => put_letters(line, b"shut"),
        Step::Tell => put_letters(line, b"tell"),
        Step::Clean => put_letters(line, b"clean"),
        Step::Flush => put_letters(line, b"flush"),
        Step::End => put_letters(line, b"end"),
        Step::Bury => put_letters(line, b"bury"),
        Step::Run => put_letters(line, b"run"),
        Step::Turn => put_letters(line, b"turn"),
        Step::Wait => put_letters(line, b"wait"),
    }
}
