//! The plain machine: the definitions, run over plain lists.
ghost use Rattle.std.specs.Prelude.{◌≡◌, ◌+◌, ◌<◌, ◌++◌, ◌||◌, nat_eq, true, false, IsTrue, [], ◌∷◌, List, length, IfOk, IfNone, IfSome, OnOk, OnErr};
ghost use Rattle.script_types.specs.Source.{IsWellFormed};
ghost use Rattle.machine.specs.FinalRows.{rows_from, IsNextRow};
ghost use Rattle.machine.specs.Arrived.{arrived};
ghost use Rattle.machine.specs.History.{after, after_in, entry_by, keeping, CanAct, IsLegalIn, IsShared};
ghost use Rattle.machine.specs.Run.{slot_actor};
ghost use Rattle.machine.specs.Slots.{IsDeclared};
ghost use Rattle.plain_machine.specs.Answered.{IfEntry, IfNotLegal};
ghost use Rattle.plain_machine.specs.PlainView.{PlainView};

use crate::acted::{acted, acted_shared};
use crate::choice::chosen;
use crate::final_rows;
use crate::stepped::Stepped;
use entry_log::{Actor, Entry, FinalRow};
use machine::{State, ready_at_boot, state_at_boot};
use script_types::{Script, Slot};
use std::alloc::Global;
use std::marker::Model;
use sym_base::{Items, NoMemory, ThreadNo};

/// A machine that runs a script as the definitions say, over plain lists. A contract sees its script, what happened so
/// far, and whether callers shared the kernel in it.
#[derive(Drop)]
pub struct Plain {
    alloc: Global,
    script: Script,
    /// Boxed, since a machine moves as a whole while the state is large.
    state: Box<State>,
    ready: Items<ThreadNo>,
    history: Items<Entry>,
}

impl Model for Plain {
    ghost use Rattle.plain_machine.specs.PlainView.{PlainView, IsPlain};

    ghost Value = { PlainView };

    ghost view = { λ p. record { script = p.script; history = p.history; shared = p.state.value.mode.shared } };

    ghost invariant = { λ p. IsPlain p.script p.history p.state.value p.ready };
}

/// Whom a slot lets act.
fn slot_actor(state: &State, ready: &[ThreadNo], slot: Slot) -> Actor
    ensures { result ≡ slot_actor state.now ready.now slot }
{
    match slot {
        Slot::Go => chosen(state, ready),
        Slot::Irq(number) => Actor::Irq(number),
        Slot::Tick => Actor::Tick,
    }
}

/// Puts another state in a state's place, and another ready list in the list's.
fn set_state(
    state: &mut Box<State>,
    ready: &mut Items<ThreadNo>,
    other: Box<State>,
    list: Items<ThreadNo>,
)
    ensures state { state.new ≡ other }
    ensures ready { ready.new ≡ list }
{
    *state = other;
    *ready = list;
}

impl Plain {
    /// The machine at boot.
    pub fn boot(alloc: Global, script: Script) -> Result<Plain, NoMemory>
        requires { IsWellFormed script }
        ensures { IfOk result (λ plain. plain ≡ record { script = script; history = []; shared = false }) }
    {
        let ready = ready_at_boot(alloc, &script)?;
        let state = Box::new(alloc, state_at_boot(alloc, &script)?)?;
        Ok(Plain {
            alloc,
            script,
            state,
            ready,
            history: Items::new(Vec::new(alloc)),
        })
    }

    /// One atomic action of the actor that the slot lets act, told by one entry more. The action is made
    /// on a copy of the state, so that at `Err` the machine is as before.
    pub fn slot(&mut self, slot: Slot) -> Result<(), NoMemory>
        requires whole { self.old.shared ≡ false }
        requires declared { IsDeclared self.old.script slot }
        requires few { length self.old.history < 4294967295 }
        ensures script { self.new.script ≡ self.old.script }
        ensures whole { self.new.shared ≡ false }
        ensures ok { let S = after self.old.script self.old.history in let qs = arrived self.old.script self.old.history in OnOk result (self.new.history ≡ self.old.history ++ entry_by self.old.script S (length self.old.history + 1) (slot_actor S qs slot) ∷ []) }
        ensures err { OnErr result (self.new ≡ self.old) }
    {
        let place = self.history.len() as u32 + 1;
        let actor = slot_actor(&self.state, self.ready.as_slice(), slot);
        let mut state = Box::new(self.alloc, self.state.copied(self.alloc)?)?;
        let (ready, entry) = acted(
            self.alloc,
            &self.script,
            &mut state,
            &self.ready,
            place,
            actor,
        )?;
        self.history.push(entry)?;
        set_state(&mut self.state, &mut self.ready, state, ready);
        Ok(())
    }

    /// One atomic action of this actor where callers share the kernel, told by one entry more, which is answered too: one that
    /// keeps what it closes where somebody is out on that, or one that doesn't. A thread that is out comes back. Where the
    /// actor may not act nothing changes. The action is made on a copy of the state, so that at `Err` the machine is as before.
    pub fn shared(&mut self, actor: Actor, keep: bool) -> Result<Stepped, NoMemory>
        requires split { IsTrue (self.old.shared || nat_eq (length self.old.history) 0) }
        requires few { length self.old.history < 4294967295 }
        ensures script { self.new.script ≡ self.old.script }
        ensures entry { IfOk result (IfEntry (λ entry. (self.new.history ≡ self.old.history ++ entry ∷ []) × (self.new.shared ≡ true) × (entry ≡ entry_by self.old.script (keeping keep (after_in true self.old.script self.old.history)) (length self.old.history + 1) actor))) }
        ensures legal { IfOk result (IfEntry (λ entry. IsShared self.new.script self.new.history)) }
        ensures refused { IfOk result (IfNotLegal (self.new ≡ self.old × (CanAct self.old.script (after_in true self.old.script self.old.history) actor → ⊥))) }
        ensures err { OnErr result (self.new ≡ self.old) }
    {
        let mut state = Box::new(self.alloc, self.state.copied(self.alloc)?)?;
        let made = acted_shared(
            self.alloc,
            &self.script,
            &mut self.history,
            &mut state,
            &self.ready,
            actor,
            keep,
        )?;
        match made {
            Some((ready, entry)) => {
                set_state(&mut self.state, &mut self.ready, state, ready);
                Ok(Stepped::Entry(entry))
            }
            None => Ok(Stepped::NotLegal),
        }
    }

    /// One atomic action of this actor where callers share the kernel, as `shared` makes it, but without a copy of the state: the
    /// machine goes on as another one, which has one entry more, and that entry is answered too. None where the actor may not act. At
    /// None and `Err` there is no machine any more.
    pub fn goes_on(self, actor: Actor, keep: bool) -> Result<Option<(Plain, Entry)>, NoMemory>
        requires split { IsTrue (self.shared || nat_eq (length self.history) 0) }
        requires few { length self.history < 4294967295 }
        ensures script { IfOk result (λ answer. IfSome answer (λ (made : PlainView × Entry). made.0.script ≡ self.script)) }
        ensures entry { IfOk result (λ answer. IfSome answer (λ (made : PlainView × Entry). (made.0.history ≡ self.history ++ made.1 ∷ []) × (made.0.shared ≡ true) × (made.1 ≡ entry_by self.script (keeping keep (after_in true self.script self.history)) (length self.history + 1) actor))) }
        ensures legal { IfOk result (λ answer. IfSome answer (λ (made : PlainView × Entry). IsShared made.0.script made.0.history)) }
        ensures refused { IfOk result (λ answer. IfNone answer (CanAct self.script (after_in true self.script self.history) actor → ⊥)) }
    {
        let Plain {
            alloc,
            script,
            mut state,
            ready,
            mut history,
        } = self;
        let made = acted_shared(
            alloc,
            &script,
            &mut history,
            &mut state,
            &ready,
            actor,
            keep,
        )?;
        match made {
            Some((ready, entry)) => {
                let plain = Plain {
                    alloc,
                    script,
                    state,
                    ready,
                    history,
                };
                Ok(Some((plain, entry)))
            }
            None => Ok(None),
        }
    }

    /// What happened so far, in order. It is a legal history of the script, as callers make it who share the kernel or as one makes
    /// it alone.
    pub fn history(&self) -> &[Entry]
        ensures entries { result.now ≡ self.now.history }
        ensures legal { IsLegalIn self.now.shared self.now.script self.now.history }
    {
        self.history.as_slice()
    }

    /// The first object that is left of the numbers from `from` on, with its count. None where there is
    /// none.
    pub fn next_row(&self, from: u16) -> Option<FinalRow>
        ensures { IsNextRow (rows_from (after_in self.now.shared self.now.script self.now.history)) from result }
    {
        final_rows::next_row(&self.state, from)
    }
}
