//! Equal texts mean equal histories. These calls only state facts, and change nothing.
ghost use Rattle.std.specs.Prelude.{◌≡◌, List, All, IfSome};
ghost use Rattle.entry_log.specs.HistoryText.{history_text};
ghost use Rattle.entry_log.specs.IsEntry.{IsActor, IsCode, IsEffect, IsEntry, IsHolder, IsLock, IsStatus, IsStep};
ghost use Rattle.entry_log.specs.declared.entry.FinalRow.{FinalRow};

use crate::{Actor, Effect, Entry, Holder, LockNo, StatusNo, Step};

/// The numbers of a holder fit their types.
#[tactic(auto, unfolding(crate::specs::IsEntry::IsHolder))]
fn known_holder(holder: Holder)
    ensures { IsHolder holder }
{
    match holder {
        Holder::InProcess(_, _) => {}
        Holder::InThread(_, _) => {}
        Holder::Temp(_) => {}
        Holder::Own(_) => {}
        Holder::Link(_) => {}
        Holder::Message(_) => {}
        Holder::Kernel => {}
    }
}

/// The number of a status fits its type.
#[tactic(auto, unfolding(crate::specs::IsEntry::IsStatus))]
fn known_status(status: StatusNo)
    ensures { IsStatus status }
{
    match status {
        StatusNo::Async(_) => {}
        StatusNo::Sync => {}
    }
}

/// The number of a lock fits its type.
#[tactic(auto, unfolding(crate::specs::IsEntry::IsLock))]
fn known_lock(lock: LockNo)
    ensures { IsLock lock }
{
    match lock {
        LockNo::Object(_) => {}
        LockNo::Fast(_) => {}
    }
}

/// The numbers of an effect fit their types.
#[tactic(auto, unfolding(crate::specs::IsEntry::IsEffect))]
pub fn known_effect(effect: Effect)
    ensures { IsEffect effect }
{
    match effect {
        Effect::Plus(holder, _) => known_holder(holder),
        Effect::Minus(holder, _) => known_holder(holder),
        Effect::Dead(_) => {}
        Effect::Swept(_) => {}
        Effect::Seek(_) => {}
        Effect::Missed(_) => {}
        Effect::Accept(_) => {}
        Effect::Finish(_, _) => {}
        Effect::Signal(_, status, _) => known_status(status),
        Effect::Take(_, lock) => known_lock(lock),
        Effect::Give(_, lock) => known_lock(lock),
        Effect::Terminated(_) => {}
        Effect::Doom(_) => {}
        Effect::Bury(_) => {}
    }
}

/// The numbers of effects fit their types.
pub fn known_effects(effects: &[Effect])
    ensures { All IsEffect effects.now }
{
    for effect in effects {
        known_effect(*effect);
    }
}

/// The number of an actor fits its type.
#[tactic(auto, unfolding(crate::specs::IsEntry::IsActor))]
fn known_actor(actor: Actor)
    ensures { IsActor actor }
{
    match actor {
        Actor::Thread(_) => {}
        Actor::Irq(_) => {}
        Actor::Idfc => {}
        Actor::Tick => {}
        Actor::Idle => {}
    }
}

/// The name of a deferred function call in a step is name text.
fn known_step(step: &Step)
    ensures { IsStep step.now }
{
    match step {
        Step::RunOf(name) => {
            let _bytes = name.as_slice();
        }
        Step::MoveOf(name) => {
            let _bytes = name.as_slice();
        }
        _ => {}
    }
}

/// The number of an answer fits its type.
fn known_answer(answer: Option<i32>)
    ensures { IfSome answer IsCode }
{
    if let Some(_) = answer {}
}

/// The numbers of an entry fit their types, and its names are name text.
pub fn known_entry(entry: &Entry)
    ensures { IsEntry entry.now }
{
    let _place = entry.place;
    known_actor(entry.actor);
    known_step(&entry.step);
    known_effects(entry.effects.as_slice());
    known_answer(entry.answer);
}

/// The same of each entry of a history.
pub fn known_entries(entries: &[Entry])
    ensures { All IsEntry entries.now }
{
    for entry in entries {
        known_entry(entry);
    }
}

/// Two histories of which the whole texts are equal are equal, whatever objects are left after each.
pub fn same_texts(one: &[Entry], other: &[Entry])
    ensures { (rows other_rows : List FinalRow)
        → history_text one.now rows ≡ history_text other.now other_rows → one.now ≡ other.now }
{
    known_entries(one);
    known_entries(other);
}
