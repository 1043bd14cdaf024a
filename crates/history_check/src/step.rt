//! One entry of a history that is checked.
ghost use Rattle.std.specs.Prelude.{◌≡◌, ◌<◌, ◌||◌, nat_eq, IsTrue, IfOk, IfSome, IfNone, length};
ghost use Rattle.script_types.specs.Source.{IsWellFormed};
ghost use Rattle.plain_machine.specs.PlainView.{PlainView};
ghost use Rattle.history_check.specs.Followed.{IsNextMade, GoesNowhere};

use crate::actor::{actor_of, tells_death};
use entry_log::Entry;
use plain_machine::Plain;
use script_words::cut;
use sym_base::NoMemory;

/// A machine isn't needed any more. Each way out of a check calls this: what a machine is made of is taken apart in one place.
pub fn let_go(_plain: Plain) {}

/// Makes the entry of the actor that the first line of a text tells, with the choice that it tells, and answers the machine
/// that goes on with it, and the entry. None if no entry may stand next with whose line the text begins.
pub fn next_entry(plain: Plain, text: &[u8]) -> Result<Option<(Plain, Entry)>, NoMemory>
    requires valid { IsWellFormed plain.script }
    requires split { IsTrue (plain.shared || nat_eq (length plain.history) 0) }
    requires few { length plain.history < 4294967295 }
    ensures next { IfOk result (λ answer. IfSome answer (λ (made : PlainView × Entry). IsNextMade plain text.now made.0 made.1)) }
    ensures bad { IfOk result (λ answer. IfNone answer (GoesNowhere plain.script plain.history text.now)) }
{
    let Some((line, _)) = cut(text, b'\n') else {
        let_go(plain);
        return Ok(None);
    };
    let Some(actor) = actor_of(line) else {
        let_go(plain);
        return Ok(None);
    };
    plain.goes_on(actor, !tells_death(line))
}
