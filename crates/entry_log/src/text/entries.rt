//! The line of an entry.
ghost use Rattle.std.specs.Prelude.{◌≡◌, ◌+◌, ◌≤◌, [], ◌∷◌, ◌++◌, length, decimal};
ghost use Rattle.entry_log.specs.ActorText.{actor_text};
ghost use Rattle.sym_base.specs.Appends.{Appends};
ghost use Rattle.entry_log.specs.EntryLine.{answer_words, behind_place, entry_line};
ghost use Rattle.entry_log.specs.Joined.{preceded};
ghost use Rattle.entry_log.specs.StepText.{step_text};

use super::effects::put_effects;
use super::line::{Line, put_byte, put_letters};
use super::numbers::{put_code, put_u16, put_u32};
use super::steps::put_step;
use crate::{Actor, Entry};
use arrayvec::ArrayVec;

/// Adds an actor's letters and number, at most 3 and 5 bytes.
fn put_numbered<const N: usize>(line: &mut Line, letters: &[u8; N], number: u16)
    requires { length line.old.items + length letters.now + 5 ≤ 512 }
    ensures text { line.new.items ≡ line.old.items ++ (letters.now ++ decimal number) }
    ensures short { length line.new.items ≤ length line.old.items + length letters.now + 5 }
{
    put_letters(line, letters);
    put_u16(line, number);
}

/// Adds an actor, at most 8 bytes.
#[tactic(auto, unfolding(crate::specs::ActorText::actor_text))]
fn put_actor(line: &mut Line, actor: Actor)
    requires { length line.old.items + 8 ≤ 512 }
    ensures text { line.new.items ≡ line.old.items ++ actor_text actor }
    ensures short { length line.new.items ≤ length line.old.items + 8 }
{
    match actor {
        Actor::Thread(thread) => put_numbered(line, b"t", thread.0),
        Actor::Irq(number) => put_numbered(line, b"irq", number as u16),
        Actor::Idfc => put_letters(line, b"idfc"),
        Actor::Tick => put_letters(line, b"tick"),
        Actor::Idle => put_letters(line, b"idle"),
    }
}

/// Adds the number that was answered, after an equals sign, at most 14 bytes.
fn put_number_answered(line: &mut Line, number: i32)
    requires { length line.old.items + 14 ≤ 512 }
    ensures text { line.new.items ≡ line.old.items ++ preceded 32 (answer_words (Some number)) }
    ensures short { length line.new.items ≤ length line.old.items + 14 }
{
    put_letters(line, b" = ");
    put_code(line, number);
}

/// Adds an answer, where there is one.
#[tactic(auto, unfolding(crate::specs::EntryLine::answer_words, crate::specs::Joined::preceded))]
fn put_answer(line: &mut Line, answer: Option<i32>)
    requires { length line.old.items + 14 ≤ 512 }
    ensures text { line.new.items ≡ line.old.items ++ preceded 32 (answer_words answer) }
    ensures short { length line.new.items ≤ length line.old.items + 14 }
{
    if let Some(number) = answer {
        put_number_answered(line, number);
    }
}

/// Adds an actor between two spaces, at most 10 bytes. A thread of one digit, as most are, is written at once.
#[tactic(auto, using(std::proofs::lemmas::Fmt::decimal_digit), unfolding(crate::specs::ActorText::actor_text))]
fn put_spaced_actor(line: &mut Line, actor: Actor)
    requires { length line.old.items + 10 ≤ 512 }
    ensures text { line.new.items ≡ line.old.items ++ (32 ∷ actor_text actor ++ 32 ∷ []) }
    ensures short { length line.new.items ≤ length line.old.items + 10 }
{
    match actor {
        Actor::Thread(thread) if thread.0 < 10 => {
            put_letters(line, &[b' ', b't', 48 + thread.0 as u8, b' ']);
        }
        _ => {
            put_byte(line, b' ');
            put_actor(line, actor);
            put_byte(line, b' ');
        }
    }
}

/// Adds actor and step, each after a space, at most 31 bytes.
fn put_act(line: &mut Line, entry: &Entry)
    requires { length line.old.items + 31 ≤ 512 }
    ensures text { line.new.items ≡ line.old.items
        ++ (32 ∷ actor_text entry.now.actor ++ 32 ∷ step_text entry.now.step) }
    ensures short { length line.new.items ≤ length line.old.items + 31 }
{
    put_spaced_actor(line, entry.actor);
    put_step(line, &entry.step);
}

/// Adds what stands behind the place, at most 182 bytes.
pub fn put_behind(line: &mut Line, entry: &Entry)
    requires { length line.old.items + 182 ≤ 512 }
    ensures text { line.new.items ≡ line.old.items ++ behind_place entry.now }
    ensures short { length line.new.items ≤ length line.old.items + 182 }
{
    put_act(line, entry);
    put_effects(line, entry.effects.as_slice());
    put_answer(line, entry.answer);
    put_byte(line, b'\n');
}

/// Adds the line of an entry, at most 192 bytes.
fn put_entry(line: &mut Line, entry: &Entry)
    requires { length line.old.items + 192 ≤ 512 }
    ensures text { line.new.items ≡ line.old.items ++ entry_line entry.now }
    ensures short { length line.new.items ≤ length line.old.items + 192 }
{
    put_u32(line, entry.place);
    put_behind(line, entry);
}

/// The line of an entry.
pub fn line_of_entry(entry: &Entry) -> Line
    ensures text { result.items ≡ entry_line entry.now }
    ensures short { length result.items ≤ 192 }
{
    let mut line = Line::new();
    put_entry(&mut line, entry);
    line
}

/// Adds the line of an entry, with its LF, to a buffer. False exactly where it doesn't fit, and then
/// nothing changes. The line has at most 512 bytes, so an empty buffer takes it.
pub fn entry_text(entry: &Entry, out: &mut ArrayVec<u8, 512>) -> bool
    ensures line { Appends result out.old.items out.new.items (entry_line entry.now) }
    ensures short { length (entry_line entry.now) ≤ 512 }
{
    let line = line_of_entry(entry);
    out.try_extend_from_slice(line.as_slice()).is_ok()
}
