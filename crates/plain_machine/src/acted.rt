//! An actor's action on a state and a ready list.
ghost use Rattle.std.specs.Prelude.{◌≡◌, ◌<◌, ◌||◌, nat_eq, IsTrue, List, length, IfNone, IfOk, IfSome, OnErr, OnOk};
ghost use Rattle.sym_base.specs.declared.number.ObjNo.{ObjNo};
ghost use Rattle.script_types.specs.Shape.{IsShaped};
ghost use Rattle.machine.specs.Arrived.{arrived_next};
ghost use Rattle.machine.specs.History.{next, entry_by};
ghost use Rattle.plain_machine.specs.Allowed.{AllowsAction};
ghost use Rattle.plain_machine.specs.PlainView.{IsPlain};
ghost use Rattle.plain_machine.specs.SharedActions.{IsBarred, IsMade};

use crate::stepped::{can_act, copied, is_deathless};
use crate::transition::transition;
use entry_log::{Actor, Entry};
use machine::{Mode, State, entry_of};
use script_types::Script;
use std::alloc::Global;
use sym_base::{Items, NoMemory, ThreadNo};

/// What an actor does in a state, which is the one after it from then on: the ready list after it, and the entry at this place.
pub fn acted(
    alloc: Global,
    script: &Script,
    state: &mut State,
    ready: &Items<ThreadNo>,
    place: u32,
    actor: Actor,
) -> Result<(Items<ThreadNo>, Entry), NoMemory>
    requires shaped { IsShaped script.now }
    requires allowed { AllowsAction script.now state.old }
    ensures state { OnOk result (state.new ≡ next script.now state.old actor) }
    ensures told { IfOk result (λ (made : List ObjNo × Entry). made ≡ (arrived_next script.now state.old actor ready.now, entry_by script.now state.old place actor)) }
{
    let mut list = ready.copied(alloc)?;
    let outcome = transition(alloc, script, state, &mut list, actor)?;
    Ok((list, entry_of(place, actor, outcome)))
}

/// One action of an actor where callers share the kernel, on a machine that is taken apart: the ready list after it, beside the
/// state, and the entry that tells it, which stands last in the history from then on. It keeps what it closes if somebody is out
/// on that, or it doesn't. None if the actor may not act.
pub fn acted_shared(
    alloc: Global,
    script: &Script,
    history: &mut Items<Entry>,
    state: &mut State,
    ready: &Items<ThreadNo>,
    actor: Actor,
    keep: bool,
) -> Result<Option<(Items<ThreadNo>, Entry)>, NoMemory>
    requires plain { IsPlain script.now history.old state.old ready.now }
    requires split { IsTrue (state.old.mode.shared || nat_eq (length history.old) 0) }
    requires few { length history.old < 4294967295 }
    ensures made { IfOk result (λ answer. IfSome answer (λ (made : List ObjNo × Entry). IsMade script.now history.old history.new actor keep state.new made.0 made.1)) }
    ensures barred { IfOk result (λ answer. IfNone answer (IsBarred script.now history.old history.new actor)) }
    ensures err { OnErr result (history.new ≡ history.old) }
{
    state.mode = Mode {
        shared: true,
        keep,
        ..state.mode
    };
    if !can_act(script, state, ready.as_slice(), actor) {
        return Ok(None);
    }
    let place = history.len() as u32 + 1;
    let (list, entry) = acted(alloc, script, state, ready, place, actor)?;
    state.mode.keep = is_deathless(entry.effects.as_slice());
    let told = copied(&entry);
    history.push(entry)?;
    Ok(Some((list, told)))
}
