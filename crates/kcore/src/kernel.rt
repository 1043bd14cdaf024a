//! The kernel that a script's schedule drives, or callers who share it.
ghost use Rattle.std.specs.Prelude.{◌≡◌, ◌+◌, ◌<◌, ◌≤◌, ◌++◌, [], ◌∷◌, List, length, Bool, true, false, Some, None, option_map, IsTrue, IfOk, IfSome};
ghost use Rattle.sym_base.specs.declared.limits.TheConstants.Limits.{SHARED_HISTORY};
ghost use Rattle.ref_words.specs.Words.{NoneCreated};
ghost use Rattle.script_types.specs.declared.script.Slot.TheVariants as Slot;
ghost use Rattle.script_types.specs.Source.{IsWellFormed};
ghost use Rattle.machine.specs.Slots.{declares_interrupt, IsDeclared};
ghost use Rattle.machine.specs.FinalRows.{rows_from, IsNextRow};
ghost use Rattle.entry_log.specs.declared.entry.Actor.TheVariants as Actor;
ghost use Rattle.machine.specs.Arrived.{arrived, arrived_in};
ghost use Rattle.machine.specs.Out.{is_out};
ghost use Rattle.machine.specs.Task.{is_able};
ghost use Rattle.machine.specs.History.{after, after_in, entry_by, CanAct, IsIdle, IsLegal, IsLegalIn, IsShared};
ghost use Rattle.machine.specs.Run.{run, slot_actor};
ghost use Rattle.machine_safe.specs.FindsAndReturns.{away, is_out_actor};
ghost use Rattle.machine_safe.specs.ReadyHolders.{AreHoldersReady, AreHoldersReadyIn};
ghost use Rattle.machine_safe.specs.Safe.{IsSafe, IsSafeIn};
ghost use Rattle.machine_safe.specs.SafeWeights.{is_dying};
ghost use Rattle.machine_safe.specs.Weight.{weight_in};
ghost use Rattle.table_moves.specs.Notes.{notes_back, notes_of};
ghost use Rattle.kcore.specs.Finds.{finder};
ghost use Rattle.kcore.specs.KernelMode.{Fresh, Split, Suits, Whole, mode_of};
ghost use Rattle.kcore.specs.KernelView.{places_for};
ghost use Rattle.kcore.specs.OneMore.{ReturnsBy, SendsOut};
ghost use Rattle.kcore.specs.Sending.{notes_after};

use crate::boot;
use crate::final_rows::next_row;
use crate::going::{found_in, go, go_back, is_nobody, rest, send, slot_actor};
use crate::schedule_run::ScheduleRun;
use entry_log::{Actor, Entry, FinalRow};
use kernel_tables::Core;
use next_actions::declares_interrupt;
use readings::is_able;
use ref_words::{PlainWords, RefWords};
use script_types::{Script, Slot};
use std::alloc::Global;
use std::marker::Model;
use sym_base::{NoMemory, ThreadNo};

/// A kernel that runs a script. A contract sees its script, its history, the number of entries that it has room for, how it
/// was called, and its count words with their notes. It takes all its memory at boot.
///
/// It is called in one of two ways from its first entry on. One caller alone calls `slot` and `act`: a thread that found an
/// object by its name opens it in its next step. Or callers share it, who call `slot_out`, `act_out` and `come_back`: there such a
/// thread is out, its note goes to the caller, and it comes back with that when the caller says.
#[derive(Drop)]
pub struct Kernel<W: RefWords> {
    script: Script,
    core: Core<W>,
    history: Vec<Entry>,
    /// How many notes are out.
    out: u32,
    /// Nobody acted last and nobody could now, so that a slot need not ask whom it lets act. It may be unset where that is so.
    idle: bool,
    room: u32,
}

impl<W: RefWords> Model for Kernel<W> {
    ghost use Rattle.std.specs.Prelude.{vec_capacity};
    ghost use Rattle.kcore.specs.KernelMode.{mode_of};
    ghost use Rattle.kcore.specs.KernelView.{KernelView, IsKernel};

    ghost Value = { KernelView W };

    ghost view = { λ k. record { script = k.script; history = k.history.items; room = k.room; mode = mode_of k.core.state.mode.shared k.history.items; words = k.core.words; notes = k.core.notes } };

    ghost invariant = { λ k. IsKernel k.script k.history.items k.core k.out k.idle k.room (vec_capacity k.history) };
}

impl<W: RefWords + Drop> Kernel<W> {
    /// The kernel at boot, over words of as many places as `places_for` says, of which none is created, with room for so many entries.
    /// It takes all the memory that the kernel ever needs.
    pub fn boot(alloc: Global, script: Script, words: W, room: u32) -> Result<Kernel<W>, NoMemory>
        requires valid { IsWellFormed script }
        requires places { length (W.meaning words).own ≡ places_for script.version room }
        requires fresh { NoneCreated (W.meaning words) }
        requires room { room ≤ SHARED_HISTORY }
        ensures kernel { IfOk result (λ kernel. kernel ≡ record { script = script; history = []; room = room; mode = Fresh; words = kernel.words; notes = kernel.notes }) }
        ensures none_out { IfOk result (λ kernel. kernel.notes.out ≡ []) }
        ensures unmade { IfOk result (λ kernel. kernel.notes.made ≡ 0) }
        ensures identity { IfOk result (λ kernel. kernel.notes.identity ≡ (W.meaning words).identity) }
        ensures legal { IfOk result (λ kernel. IsLegal kernel.script kernel.history) }
        ensures safe { IfOk result (λ kernel. IsSafe kernel.script kernel.history) }
        ensures holders { IfOk result (λ kernel. AreHoldersReady kernel.script kernel.history) }
    {
        let history = Vec::with_capacity(alloc, room as usize)?;
        let core = boot::boot(alloc, &script, words)?;
        Ok(Kernel {
            script,
            core,
            history,
            out: 0,
            idle: false,
            room,
        })
    }

    /// One atomic action of an actor that may act, told by one entry more, where one caller calls the kernel alone.
    fn step(&mut self, actor: Actor)
        requires mode { Suits false self.old.mode }
        requires can { CanAct self.old.script (after self.old.script self.old.history) actor }
        requires room { length self.old.history < self.old.room }
        ensures script { self.new.script ≡ self.old.script }
        ensures room { self.new.room ≡ self.old.room }
        ensures mode { self.new.mode ≡ Whole }
        ensures entry { self.new.history ≡ self.old.history ++ entry_by self.old.script (after self.old.script self.old.history) (length self.old.history + 1) actor ∷ [] }
        ensures legal { IsLegal self.new.script self.new.history }
        ensures safe { IsSafe self.new.script self.new.history }
        ensures holders { AreHoldersReady self.new.script self.new.history }
    {
        self.idle = is_nobody(actor);
        go(&self.script, &mut self.core, &mut self.history, actor);
    }

    /// Nobody acts, since nobody could, told by one entry more, where one caller calls the kernel alone.
    #[inline(always)]
    fn pause(&mut self)
        requires mode { Suits false self.old.mode }
        requires can { CanAct self.old.script (after self.old.script self.old.history) Actor.Idle }
        requires room { length self.old.history < self.old.room }
        ensures script { self.new.script ≡ self.old.script }
        ensures room { self.new.room ≡ self.old.room }
        ensures mode { self.new.mode ≡ Whole }
        ensures entry { self.new.history ≡ self.old.history ++ entry_by self.old.script (after self.old.script self.old.history) (length self.old.history + 1) Actor.Idle ∷ [] }
        ensures legal { IsLegal self.new.script self.new.history }
        ensures safe { IsSafe self.new.script self.new.history }
        ensures holders { AreHoldersReady self.new.script self.new.history }
    {
        rest(&mut self.history);
    }

    /// One atomic action of an actor that may act and isn't out, told by one entry more, where callers share the kernel. The note of
    /// what it found goes out.
    fn step_out(&mut self, actor: Actor) -> Option<W::Note>
        requires mode { Suits true self.old.mode }
        requires can { CanAct self.old.script (after_in true self.old.script self.old.history) actor }
        requires stays { is_out_actor (after_in true self.old.script self.old.history) actor ≡ false }
        requires room { length self.old.history + away (after_in true self.old.script self.old.history) + 2 ≤ self.old.room }
        ensures script { self.new.script ≡ self.old.script }
        ensures room { self.new.room ≡ self.old.room }
        ensures mode { self.new.mode ≡ Split }
        ensures entry { SendsOut self.old.script self.old.history self.new.history actor (option_map (λ note. W.slip note) result) }
        ensures notes { self.new.notes ≡ notes_after (option_map (λ note. W.slip note) result) self.old.notes }
        ensures note { IfSome result (λ note. W.IsNew note × (W.origin note ≡ self.new.notes.identity) × W.Fits self.new.words note) }
        ensures legal { IsShared self.new.script self.new.history }
        ensures safe { IsSafeIn true self.new.script self.new.history }
        ensures holders { AreHoldersReadyIn true self.new.script self.new.history }
    {
        self.idle = false;
        self.core.share();
        let at = self.history.as_slice().len();
        go(&self.script, &mut self.core, &mut self.history, actor);
        let found = found_in(self.history[at].effects.as_slice());
        send(&mut self.core, &mut self.out, found)
    }

    /// One atomic action of the actor that the slot lets act (of an interrupt, one that the script declares), told by one entry
    /// more, where callers share the kernel. A thread that finds an object by its name is out from then on: its note is
    /// answered, with which it comes back later.
    pub fn slot_out(&mut self, slot: Slot) -> Option<W::Note>
        requires mode { Suits true self.old.mode }
        requires declared { IsDeclared self.old.script slot }
        requires room { length self.old.history + away (after_in true self.old.script self.old.history) + 2 ≤ self.old.room }
        ensures script { self.new.script ≡ self.old.script }
        ensures room { self.new.room ≡ self.old.room }
        ensures mode { self.new.mode ≡ Split }
        ensures entry { let S = after_in true self.old.script self.old.history in let qs = arrived_in true self.old.script self.old.history in SendsOut self.old.script self.old.history self.new.history (slot_actor S qs slot) (option_map (λ note. W.slip note) result) }
        ensures notes { self.new.notes ≡ notes_after (option_map (λ note. W.slip note) result) self.old.notes }
        ensures note { IfSome result (λ note. W.IsNew note × (W.origin note ≡ self.new.notes.identity) × W.Fits self.new.words note) }
        ensures legal { IsShared self.new.script self.new.history }
        ensures safe { IsSafeIn true self.new.script self.new.history }
        ensures holders { AreHoldersReadyIn true self.new.script self.new.history }
    {
        let actor = slot_actor(&self.core, slot);
        self.step_out(actor)
    }

    /// One atomic action of an able thread, whoever the schedule would choose, told by one entry more, where callers share the
    /// kernel. Where it finds an object by its name it is out from then on, and its note is answered. One that is doomed weighs
    /// less afterwards.
    pub fn act_out(&mut self, t: ThreadNo) -> Option<W::Note>
        requires mode { Suits true self.old.mode }
        requires able { IsTrue (is_able self.old.script (after_in true self.old.script self.old.history) t) }
        requires room { length self.old.history + away (after_in true self.old.script self.old.history) + 2 ≤ self.old.room }
        ensures script { self.new.script ≡ self.old.script }
        ensures room { self.new.room ≡ self.old.room }
        ensures mode { self.new.mode ≡ Split }
        ensures entry { SendsOut self.old.script self.old.history self.new.history (Actor.Thread t) (option_map (λ note. W.slip note) result) }
        ensures notes { self.new.notes ≡ notes_after (option_map (λ note. W.slip note) result) self.old.notes }
        ensures note { IfSome result (λ note. W.IsNew note × (W.origin note ≡ self.new.notes.identity) × W.Fits self.new.words note) }
        ensures legal { IsShared self.new.script self.new.history }
        ensures safe { IsSafeIn true self.new.script self.new.history }
        ensures holders { AreHoldersReadyIn true self.new.script self.new.history }
        ensures lighter { is_dying (after_in true self.old.script self.old.history) t ≡ true → weight_in (after_in true self.new.script self.new.history) t < weight_in (after_in true self.old.script self.old.history) t }
    {
        self.step_out(Actor::Thread(t))
    }

    /// A thread comes back with the settled note of its find, told by one entry more. Note k is that of the k-th find of the
    /// history. That the thread is out then follows, since the note is. One that is doomed weighs less afterwards.
    pub fn come_back(&mut self, t: ThreadNo, note: W::Note)
        requires mode { self.old.mode ≡ Split }
        requires settled { W.IsSettled note }
        requires fits { W.Fits self.old.words note }
        requires its { finder (W.slip note).number self.old.history ≡ Some t }
        requires room { length self.old.history + away (after_in true self.old.script self.old.history) ≤ self.old.room }
        ensures script { self.new.script ≡ self.old.script }
        ensures room { self.new.room ≡ self.old.room }
        ensures mode { self.new.mode ≡ Split }
        ensures was_out { is_out (after_in true self.old.script self.old.history) t ≡ true }
        ensures entry { ReturnsBy self.old.script self.old.history self.new.history t }
        ensures notes { self.new.notes ≡ notes_back (W.slip note) self.old.notes }
        ensures fewer { length self.new.notes.out + 1 ≡ length self.old.notes.out }
        ensures legal { IsShared self.new.script self.new.history }
        ensures safe { IsSafeIn true self.new.script self.new.history }
        ensures holders { AreHoldersReadyIn true self.new.script self.new.history }
        ensures lighter { is_dying (after_in true self.old.script self.old.history) t ≡ true → weight_in (after_in true self.new.script self.new.history) t < weight_in (after_in true self.old.script self.old.history) t }
    {
        self.idle = false;
        self.core.share();
        go_back(&self.script, &mut self.core, &mut self.history, t, note);
        self.out -= 1;
    }

    /// Whether a thread may act: it is ready, and wants no fast mutex that another holds.
    pub fn able(&self, t: ThreadNo) -> bool
        ensures { (shared : Bool) → Suits shared self.now.mode → result ≡ is_able self.now.script (after_in shared self.now.script self.now.history) t }
    {
        let core = &self.core;
        is_able(&self.script, &core.tables, t)
    }

    /// How many threads are out, each with its note.
    pub fn notes_out(&self) -> u32
        ensures away { Suits true self.now.mode → result ≡ away (after_in true self.now.script self.now.history) }
        ensures many { result ≡ length self.now.notes.out }
        ensures notes { self.now.notes ≡ notes_of (W.meaning self.now.words) }
    {
        // Whose notes these are is told by the table of objects.
        let core = &self.core;
        let _ = core.tables.objects.len();
        self.out
    }

    /// Whether the script declares an interrupt of this number, so that a slot may bring it.
    pub fn declares(&self, k: u8) -> bool
        ensures { result ≡ declares_interrupt self.now.script k }
    {
        declares_interrupt(&self.script, k)
    }

    /// What happened so far, in order. It is a legal history of the script, as one caller makes it or as callers make it who
    /// share the kernel; its references, deaths, messages, servers, busy answers, waits and the weights of doomed threads are
    /// safe; and after it whoever holds a fast mutex is ready. A kernel without entries is called in either way yet.
    pub fn history(&self) -> &[Entry]
        ensures entries { result.now ≡ self.now.history }
        ensures mode { (shared : Bool) → Suits shared self.now.mode → self.now.mode ≡ mode_of shared self.now.history }
        ensures legal { (shared : Bool) → Suits shared self.now.mode → IsLegalIn shared self.now.script self.now.history }
        ensures safe { (shared : Bool) → Suits shared self.now.mode → IsSafeIn shared self.now.script self.now.history }
        ensures holders { (shared : Bool) → Suits shared self.now.mode → AreHoldersReadyIn shared self.now.script self.now.history }
    {
        self.history.as_slice()
    }

    /// The first object that is left of the numbers from `from` on, with its count. None where there is
    /// none.
    pub fn next_row(&self, from: u16) -> Option<FinalRow>
        ensures { (shared : Bool) → Suits shared self.now.mode → IsNextRow (rows_from (after_in shared self.now.script self.now.history)) from result }
    {
        let core = &self.core;
        next_row(&core.tables, from)
    }
}

impl Kernel<PlainWords> {
    /// The kernel that has run the whole schedule of a script, each slot of which made one entry. It has room for no more.
    pub fn after_run(alloc: Global, script: Script) -> Result<Kernel<PlainWords>, NoMemory>
        requires { IsWellFormed script }
        ensures script { IfOk result (λ kernel. kernel.script ≡ script) }
        ensures history { IfOk result (λ kernel. kernel.history ≡ run script) }
        ensures room { IfOk result (λ kernel. kernel.room ≡ length script.slots) }
        ensures mode { IfOk result (λ kernel. Suits false kernel.mode) }
        ensures legal { IfOk result (λ kernel. IsLegal kernel.script kernel.history) }
        ensures safe { IfOk result (λ kernel. IsSafe kernel.script kernel.history) }
        ensures holders { IfOk result (λ kernel. AreHoldersReady kernel.script kernel.history) }
    {
        let room = script.slots.len() as u32;
        let mut run = ScheduleRun::boot(alloc, script, room)?;
        run.next_part();
        Ok(Kernel {
            script: run.script,
            core: run.core,
            history: run.part,
            out: 0,
            idle: run.idle,
            room,
        })
    }

    /// Whether the kernel is marked as idle, and a slot lets the chosen actor act: nobody.
    #[inline(always)]
    fn is_pause(&self, slot: Slot) -> bool
        ensures go { result ≡ true → slot ≡ Slot.Go }
        ensures idle { result ≡ true → Suits false self.now.mode → IsIdle self.now.script (after self.now.script self.now.history) }
    {
        match slot {
            Slot::Go => self.idle,
            Slot::Irq(_) | Slot::Tick => false,
        }
    }

    /// One atomic action of the actor that the slot lets act (of an interrupt, one that the script declares),
    /// told by one entry more.
    pub fn slot(&mut self, slot: Slot)
        requires mode { Suits false self.old.mode }
        requires declared { IsDeclared self.old.script slot }
        requires room { length self.old.history < self.old.room }
        ensures script { self.new.script ≡ self.old.script }
        ensures room { self.new.room ≡ self.old.room }
        ensures mode { self.new.mode ≡ Whole }
        ensures entry { let S = after self.old.script self.old.history in let qs = arrived self.old.script self.old.history in self.new.history ≡ self.old.history ++ entry_by self.old.script S (length self.old.history + 1) (slot_actor S qs slot) ∷ [] }
        ensures legal { IsLegal self.new.script self.new.history }
        ensures safe { IsSafe self.new.script self.new.history }
        ensures holders { AreHoldersReady self.new.script self.new.history }
    {
        if self.is_pause(slot) {
            self.pause();
        } else {
            let actor = slot_actor(&self.core, slot);
            self.step(actor);
        }
    }

    /// One atomic action of an able thread, told by one entry more, whoever the schedule would choose. One that is doomed
    /// weighs less afterwards, so it acts no more often than it weighs and others add.
    pub fn act(&mut self, t: ThreadNo)
        requires mode { Suits false self.old.mode }
        requires able { IsTrue (is_able self.old.script (after self.old.script self.old.history) t) }
        requires room { length self.old.history < self.old.room }
        ensures script { self.new.script ≡ self.old.script }
        ensures room { self.new.room ≡ self.old.room }
        ensures mode { self.new.mode ≡ Whole }
        ensures entry { self.new.history ≡ self.old.history ++ entry_by self.old.script (after self.old.script self.old.history) (length self.old.history + 1) (Actor.Thread t) ∷ [] }
        ensures legal { IsLegal self.new.script self.new.history }
        ensures safe { IsSafe self.new.script self.new.history }
        ensures holders { AreHoldersReady self.new.script self.new.history }
        ensures lighter { is_dying (after self.old.script self.old.history) t ≡ true → weight_in (after self.new.script self.new.history) t < weight_in (after self.old.script self.old.history) t }
    {
        self.step(Actor::Thread(t));
    }
}
