//! What the line of an entry tells before the entry is made: who acts, and whether an object dies.
ghost use Rattle.std.specs.Prelude.{◌≡◌, option_map, Some};
ghost use Rattle.entry_log.specs.ActorText.{actor_text};
ghost use Rattle.entry_log.specs.IsEntry.{IsActor};
ghost use Rattle.script_words.specs.Fields.{number_of};
ghost use Rattle.history_check.specs.DeathText.{is_death_text, tells_death};
ghost use Rattle.history_check.specs.OfLine.{IsOfActor};

use crate::pieces::behind;
use entry_log::Actor;
use script_words::{cut, is_word, read_natural};
use sym_base::ObjNo;

/// The thread of a number.
fn thread_of(number: &[u8]) -> Option<Actor>
    ensures { result ≡ option_map (λ n. Actor.Thread (record { 0 = n })) (number_of 65535 number.now) }
{
    let number = read_natural(number, 65535)?;
    Some(Actor::Thread(ObjNo(number as u16)))
}

/// The interrupt of a number.
fn interrupt_of(number: &[u8]) -> Option<Actor>
    ensures { result ≡ option_map (λ n. Actor.Irq n) (number_of 255 number.now) }
{
    let number = read_natural(number, 255)?;
    Some(Actor::Irq(number as u8))
}

/// The actor that a word spells. None if it spells none.
fn read_actor(word: &[u8]) -> Option<Actor>
    ensures { (actor : Actor) → IsActor actor → word.now ≡ actor_text actor → result ≡ Some actor }
{
    if is_word(word, "tick") {
        return Some(Actor::Tick);
    }
    if is_word(word, "idfc") {
        return Some(Actor::Idfc);
    }
    if is_word(word, "idle") {
        return Some(Actor::Idle);
    }
    if let Some(number) = behind(word, b"irq") {
        return interrupt_of(number);
    }
    match behind(word, b"t") {
        Some(number) => thread_of(number),
        None => None,
    }
}

/// Who acts in the entry of a line: its second word says so. None if that spells no actor.
pub fn actor_of(line: &[u8]) -> Option<Actor>
    ensures { (actor : Actor) → IsOfActor line.now actor → result ≡ Some actor }
{
    let Some((_, behind)) = cut(line, b' ') else {
        return None;
    };
    match cut(behind, b' ') {
        Some((word, _)) => read_actor(word),
        None => None,
    }
}

/// Whether a word is the text of a death.
fn is_death(word: &[u8]) -> bool
    ensures { result ≡ is_death_text word.now }
{
    word.len() >= 5 && &word[..5] == b"dead:".as_slice()
}

/// Whether a death stands among the words of a line.
pub fn tells_death(line: &[u8]) -> bool
    ensures { result ≡ tells_death line.now }
{
    let mut rest = line;
    while let Some((word, behind)) = cut(rest, b' ') {
        if is_death(word) {
            return true;
        }
        rest = behind;
    }
    is_death(rest)
}
