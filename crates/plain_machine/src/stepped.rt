//! What an actor's action is answered by, where callers share the kernel.
ghost use Rattle.std.specs.Prelude.{◌≡◌, ◌≤◌, length, true, IsTrue};
ghost use Rattle.machine.specs.History.{is_deathless, CanAct};
ghost use Rattle.machine.specs.WellFormed.{IsWellFormed};
ghost use Rattle.plain_machine.specs.Deaths.{is_death};
ghost use Rattle.std.specs.List.{list_any};

use crate::choice::chosen;
use entry_log::{Actor, Effect, Effects, Entry};
use machine::State;
use next_actions::declares_interrupt;
use readings::{Reads, may_act};
use script_types::Script;
use sym_base::ThreadNo;

/// What an actor's action is answered by.
#[derive(Drop)]
pub enum Stepped {
    /// The entry that tells it.
    Entry(Entry),
    /// The actor may not act.
    NotLegal,
}

/// Whether an actor may act.
pub fn can_act(script: &Script, state: &State, ready: &[ThreadNo], actor: Actor) -> bool
    requires formed { IsWellFormed script.now state.now ready.now }
    ensures able { IsTrue result → CanAct script.now state.now actor }
    ensures only { CanAct script.now state.now actor → IsTrue result }
{
    match actor {
        Actor::Thread(thread) => may_act(script, state, thread),
        Actor::Irq(number) => declares_interrupt(script, number),
        Actor::Idfc => state.next_immediate().is_some(),
        Actor::Tick => true,
        Actor::Idle => matches!(chosen(state, ready), Actor::Idle),
    }
}

/// Whether an effect tells of a death.
fn is_death(effect: &Effect) -> bool
    ensures { result ≡ is_death effect.now }
{
    matches!(effect, Effect::Dead(_))
}

/// Whether effects tell of a death.
fn has_death(effects: &[Effect]) -> bool
    ensures { result ≡ list_any is_death effects.now }
{
    effects.iter().any(|effect| is_death(effect))
}

/// Whether effects tell of no death.
#[tactic(auto, using(crate::proofs::Deathless::none_dead))]
pub fn is_deathless(effects: &[Effect]) -> bool
    ensures { result ≡ is_deathless effects.now }
{
    !has_death(effects)
}

/// The same effects, a second time.
fn copied_effects(effects: &[Effect]) -> Effects
    requires { length effects.now ≤ 4 }
    ensures { result ≡ effects.now }
{
    let mut copy = Effects::new();
    for effect in effects {
        copy.push(*effect);
    }
    copy
}

/// The same entry, a second time.
pub fn copied(entry: &Entry) -> Entry
    ensures { result ≡ entry.now }
{
    Entry {
        place: entry.place,
        actor: entry.actor,
        step: entry.step,
        effects: copied_effects(entry.effects.as_slice()),
        answer: entry.answer,
    }
}
