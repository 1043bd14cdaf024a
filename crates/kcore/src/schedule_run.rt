//! The schedule of a script, run part by part.
ghost use Rattle.std.specs.Prelude.{◌≡◌, ◌+◌, ◌<◌, ◌++◌, [], length, take, drop, get_or, false, true, IfOk};
ghost use Rattle.script_types.specs.Source.{IsWellFormed};
ghost use Rattle.script_types.specs.declared.script.Slot.TheVariants as Slot;
ghost use Rattle.machine.specs.FinalRows.{rows_from, IsNextRow};
ghost use Rattle.entry_log.specs.declared.entry.Actor.TheVariants as Actor;
ghost use Rattle.machine.specs.Arrived.{arrived};
ghost use Rattle.machine.specs.History.{after, CanAct, IsIdle, IsLegal};
ghost use Rattle.machine.specs.Run.{slot_actor};
ghost use Rattle.machine_safe.specs.ReadyHolders.{AreHoldersReady};
ghost use Rattle.machine_safe.specs.Safe.{IsSafe};
ghost use Rattle.kcore.specs.ScheduleView.{TakesOne, view_of};

use crate::boot;
use crate::final_rows::next_row;
use crate::going::{go_at, is_nobody, rest_at, slot_actor};
use crate::places::places_for;
use entry_log::{Actor, Entry, FinalRow};
use kernel_tables::Core;
use ref_words::PlainWords;
use script_types::{Script, Slot};
use std::alloc::Global;
use std::marker::Model;
use sym_base::NoMemory;

/// A run of a script's schedule, which keeps the entries of its last part alone: a core that is one kernel's, without the history.
/// A contract sees its script, how many slots it has taken, its last part, and how many entries a part has at most. It takes all
/// its memory at boot.
#[derive(Drop)]
pub struct ScheduleRun {
    pub(crate) script: Script,
    pub(crate) core: Core<PlainWords>,
    /// The entries of the last part.
    pub(crate) part: Vec<Entry>,
    /// How many slots were taken before that part.
    pub(crate) before: u32,
    /// Nobody acted last and nobody could now, so that a slot need not ask whom it lets act. It may be unset where that is so.
    pub(crate) idle: bool,
}

impl Model for ScheduleRun {
    ghost use Rattle.std.specs.Prelude.{◌+◌, length, vec_capacity};
    ghost use Rattle.kcore.specs.ScheduleView.{ScheduleView, IsScheduleRun, view_of};

    ghost Value = { ScheduleView };

    ghost view = { λ r. view_of r.script (r.before + length r.part.items) r.part.items (vec_capacity r.part) };

    ghost invariant = { λ r. IsScheduleRun r.script (r.before + length r.part.items) r.core r.idle };
}

impl ScheduleRun {
    /// The run at boot, before the first slot, with parts of so many entries at most.
    pub fn boot(alloc: Global, script: Script, size: u32) -> Result<ScheduleRun, NoMemory>
        requires { IsWellFormed script }
        ensures { IfOk result (λ run. run ≡ view_of script 0 [] size) }
    {
        let part = Vec::with_capacity(alloc, size as usize)?;
        let words = PlainWords::new(alloc, places_for(script.version, script.slots.len() as u32))?;
        let core = boot::boot(alloc, &script, words)?;
        Ok(ScheduleRun {
            script,
            core,
            part,
            before: 0,
            idle: false,
        })
    }

    /// Whether the run is marked as idle, and a slot lets the chosen actor act: nobody.
    #[inline(always)]
    fn is_pause(&self, slot: Slot) -> bool
        ensures go { result ≡ true → slot ≡ Slot.Go }
        ensures idle { result ≡ true → IsIdle self.now.script (after self.now.script self.now.history) }
    {
        match slot {
            Slot::Go => self.idle,
            Slot::Irq(_) | Slot::Tick => false,
        }
    }

    /// One atomic action of the actor that the next slot lets act, told by one entry more, of this place.
    #[inline(always)]
    fn step(&mut self, actor: Actor, place: u32)
        requires chosen { actor ≡ slot_actor (after self.old.script self.old.history) (arrived self.old.script self.old.history) (get_or self.old.script.slots self.old.taken Slot.Go) }
        requires can { CanAct self.old.script (after self.old.script self.old.history) actor }
        requires place { place ≡ self.old.taken + 1 }
        requires more { self.old.taken < length self.old.script.slots }
        requires room { length self.old.part < self.old.size }
        ensures { TakesOne self.old self.new }
    {
        self.idle = is_nobody(actor);
        go_at(&self.script, &mut self.core, &mut self.part, place, actor);
    }

    /// Nobody acts, since nobody could, told by one entry more, of this place.
    #[inline(always)]
    fn pause(&mut self, place: u32)
        requires chosen { Actor.Idle ≡ slot_actor (after self.old.script self.old.history) (arrived self.old.script self.old.history) (get_or self.old.script.slots self.old.taken Slot.Go) }
        requires can { CanAct self.old.script (after self.old.script self.old.history) Actor.Idle }
        requires place { place ≡ self.old.taken + 1 }
        requires more { self.old.taken < length self.old.script.slots }
        requires room { length self.old.part < self.old.size }
        ensures { TakesOne self.old self.new }
    {
        rest_at(&mut self.part, place);
    }

    /// Takes the next slot, which is this one, and whose entry has this place: the actor that it lets act acts.
    #[inline(always)]
    fn take_slot(&mut self, slot: Slot, place: u32)
        requires slot { slot ≡ get_or self.old.script.slots self.old.taken Slot.Go }
        requires place { place ≡ self.old.taken + 1 }
        requires more { self.old.taken < length self.old.script.slots }
        requires room { length self.old.part < self.old.size }
        ensures { TakesOne self.old self.new }
    {
        if self.is_pause(slot) {
            self.pause(place);
        } else {
            let actor = slot_actor(&self.core, slot);
            self.step(actor, place);
        }
    }

    /// Takes the next slots, as many as a part has at most or are left, and keeps their entries in place of those of the part before.
    #[inline(never)]
    pub fn next_part(&mut self)
        ensures script { self.new.script ≡ self.old.script }
        ensures size { self.new.size ≡ self.old.size }
        ensures taken { self.new.taken ≡ self.old.taken + length self.new.part }
        ensures part { self.new.part ≡ take self.old.size self.old.left }
        ensures history { self.new.history ≡ self.old.history ++ self.new.part }
        ensures left { self.new.left ≡ drop self.old.size self.old.left }
        ensures legal { IsLegal self.new.script self.new.history }
        ensures safe { IsSafe self.new.script self.new.history }
        ensures holders { AreHoldersReady self.new.script self.new.history }
    {
        self.before += self.part.len() as u32;
        self.part.clear();
        let from = self.before as usize;
        let left = self.script.slots.len() - from;
        let count = left.min(self.part.capacity());
        for at in from..from + count {
            let slot = self.script.slots.get(at);
            self.take_slot(slot, at as u32 + 1);
        }
    }

    /// The entries of the last part.
    pub fn part(&self) -> &[Entry]
        ensures { result.now ≡ self.now.part }
    {
        self.part.as_slice()
    }

    /// The first object that is left of the numbers from `from` on, with its count. None where there is none.
    pub fn next_row(&self, from: u16) -> Option<FinalRow>
        ensures { IsNextRow (rows_from (after self.now.script self.now.history)) from result }
    {
        let core = &self.core;
        next_row(&core.tables, from)
    }
}
