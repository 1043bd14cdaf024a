//! What moves tell that are made in the plain machine's state, where a death is read before the move: once, for what is told and
//! for what changes.
ghost use Rattle.std.specs.Prelude.{◌≡◌, ◌+◌, ◌≤◌, ◌++◌, if◌then◌else◌, Some, None, length};
ghost use Rattle.machine.specs.Kept.{dies};
ghost use Rattle.machine.specs.Moves.{told};
ghost use Rattle.readings.specs.Dying.{dead_by};
ghost use Rattle.readings.specs.Readable.{IsReadable};

use crate::move_effects::{tell, tell_death};
use entry_log::Effects;
use machine::{Move, Owed, State, dies};
use sym_base::ObjNo;

/// The object, where it dies as a reference to it is given up.
fn dead_of(state: &State, object: ObjNo) -> Option<ObjNo>
    ensures { result ≡ (if dies state.now object then Some object else None) }
{
    if dies(state, object) {
        Some(object)
    } else {
        None
    }
}

/// The object that dies of a move. That means counting its references, up to the second.
pub fn dead_by(state: &State, change: &Move) -> Option<ObjNo>
    ensures { result ≡ dead_by change.now state.now }
{
    match *change {
        Move::Lose(_, object) => dead_of(state, object),
        Move::Pay(Owed::Close(_, object)) => dead_of(state, object),
        _ => None,
    }
}

/// Tells a move and the death of this object by it, from the state before it, behind the effects so far.
pub fn tell_whole(effects: &mut Effects, state: &State, change: &Move, dead: Option<ObjNo>)
    requires readable { IsReadable state.now }
    requires few { length effects.old + length (told change.now state.now) ≤ 4 }
    requires dead { dead ≡ dead_by change.now state.now }
    ensures { effects.new ≡ effects.old ++ told change.now state.now }
{
    tell(effects, state, change);
    tell_death(effects, dead);
}
