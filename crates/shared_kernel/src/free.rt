//! A kernel that callers drive as they like, as a lock keeps it.
ghost use Rattle.std.specs.Prelude.{◌≡◌, ◌+◌, ◌≤◌, [], IfOk, true, nat_lt};
ghost use Rattle.script_types.specs.Source.{IsWellFormed};
ghost use Rattle.machine.specs.History.{IsShared};
ghost use Rattle.machine.specs.Slots.{IsDeclared};
ghost use Rattle.machine_safe.specs.Safe.{IsSafeIn};
ghost use Rattle.kcore.specs.KernelMode.{mode_of};
ghost use Rattle.turn_lock.specs.Log.{Begins};
ghost use Rattle.shared_kernel.specs.Does.{undeclared, DoesAct, DoesSlot};
ghost use Rattle.shared_kernel.specs.Returns.{GivesBack, IsOpened};
ghost use Rattle.shared_kernel.specs.Values.{base_of};

use crate::acting::{act_out, come_back, entries, slot_out};
use crate::answers::Did;
use crate::base::KernelBase;
use count_rule::{StateSeat, Ticket};
use kcore::{Kernel, places_for};
use script_types::{Script, Slot};
use std::alloc::Global;
use std::marker::Model;
use sym_base::{Limits, NoMemory, ThreadNo};
use turn_lock::History;

/// A kernel that callers drive as they like. A contract sees the kernel.
#[derive(Drop)]
pub(crate) struct Free {
    kernel: Kernel<StateSeat>,
}

impl Model for Free {
    ghost use Rattle.ref_words.specs.Words.{Words};
    ghost use Rattle.kcore.specs.KernelView.{KernelView};
    ghost use Rattle.shared_kernel.specs.Values.{IsShareable};

    ghost Value = { KernelView Words };

    ghost view = { λ f. f.kernel };

    ghost invariant = { λ f. IsShareable f.kernel };
}

impl History for Free {
    type Base = KernelBase;

    ghost use Rattle.shared_kernel.specs.Values.{base_of};

    ghost entries = { λ k. k.history };

    ghost base = { λ k. base_of k };
}

/// Whether there is no room for an entry and a return beside so many entries, and the returns of so many threads.
fn is_full(entries: u32, out: u32) -> bool
    requires few { entries ≤ 131072 }
    requires few_out { out ≤ 131072 }
    ensures { result ≡ nat_lt 131072 (entries + out + 2) }
{
    entries + out + 2 > Limits::SHARED_HISTORY as u32
}

impl Free {
    /// The kernel at boot.
    pub(crate) fn new(alloc: Global, script: Script) -> Result<Free, NoMemory>
        requires valid { IsWellFormed script }
        ensures script { IfOk result (λ made. made.script ≡ script) }
        ensures empty { IfOk result (λ made. made.history ≡ []) }
    {
        let room = Limits::SHARED_HISTORY as u32;
        let words = StateSeat::new(alloc, places_for(script.version, room))?;
        let kernel = Kernel::boot(alloc, script, words, room)?;
        Ok(Free { kernel })
    }

    /// The number of a slot's interrupt that the script doesn't declare.
    fn undeclared(&self, slot: Slot) -> Option<u8>
        ensures { result ≡ undeclared self.now.script slot }
    {
        let Slot::Irq(k) = slot else {
            return None;
        };
        if self.kernel.declares(k) {
            None
        } else {
            Some(k)
        }
    }

    /// The actor of a slot acts whose interrupt is declared, if there is room.
    fn slot_declared(&mut self, slot: Slot) -> Did
        requires { IsDeclared self.old.script slot }
        ensures base { base_of self.new ≡ base_of self.old }
        ensures grown { Begins self.old.history self.new.history }
        ensures does { DoesSlot (base_of self.old) slot result self.old.history self.new.history }
        ensures legal { IsShared self.new.script self.new.history }
        ensures safe { IsSafeIn true self.new.script self.new.history }
    {
        let made = entries(&self.kernel);
        let out = self.kernel.notes_out();
        if is_full(made, out) {
            return Did::Full { entries: made, out };
        }
        slot_out(&mut self.kernel, slot).did()
    }

    /// The actor of a slot acts.
    pub(crate) fn slot(&mut self, slot: Slot) -> Did
        ensures base { base_of self.new ≡ base_of self.old }
        ensures grown { Begins self.old.history self.new.history }
        ensures does { DoesSlot (base_of self.old) slot result self.old.history self.new.history }
        ensures legal { IsShared self.new.script self.new.history }
        ensures safe { IsSafeIn true self.new.script self.new.history }
    {
        // The history so far is a legal one, also where nothing is done.
        let _ = entries(&self.kernel);
        match self.undeclared(slot) {
            Some(k) => Did::NoInterrupt { k },
            None => self.slot_declared(slot),
        }
    }

    /// A thread acts.
    pub(crate) fn act(&mut self, thread: ThreadNo) -> Did
        ensures base { base_of self.new ≡ base_of self.old }
        ensures grown { Begins self.old.history self.new.history }
        ensures does { DoesAct (base_of self.old) thread result self.old.history self.new.history }
        ensures legal { IsShared self.new.script self.new.history }
        ensures safe { IsSafeIn true self.new.script self.new.history }
    {
        let made = entries(&self.kernel);
        let out = self.kernel.notes_out();
        if is_full(made, out) {
            return Did::Full { entries: made, out };
        }
        if !self.kernel.able(thread) {
            return Did::NotAble { place: made };
        }
        act_out(&mut self.kernel, thread).did()
    }

    /// A thread comes back with its ticket. It answers the place of the return.
    pub(crate) fn give_back(&mut self, thread: ThreadNo, ticket: Ticket) -> u32
        requires opened { IsOpened (base_of self.old) self.old.history thread ticket }
        ensures base { base_of self.new ≡ base_of self.old }
        ensures grown { Begins self.old.history self.new.history }
        ensures back { GivesBack (base_of self.old) thread result self.old.history self.new.history }
        ensures legal { IsShared self.new.script self.new.history }
        ensures safe { IsSafeIn true self.new.script self.new.history }
    {
        come_back(&mut self.kernel, thread, ticket)
    }

    /// The kernel, once nobody drives it.
    pub(crate) fn into_kernel(self) -> Kernel<StateSeat>
        ensures kernel { result ≡ self }
        ensures mode { result.mode ≡ mode_of true result.history }
        ensures safe { IsSafeIn true result.script result.history }
        ensures legal { IsShared result.script result.history }
    {
        let Free { kernel } = self;
        let _ = kernel.history();
        kernel
    }
}
