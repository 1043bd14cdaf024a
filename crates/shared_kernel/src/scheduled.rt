//! A kernel that its schedule drives, as a lock keeps it.
ghost use Rattle.std.specs.Prelude.{◌≡◌, [], IfOk, true};
ghost use Rattle.script_types.specs.Source.{IsWellFormed};
ghost use Rattle.machine.specs.SharedRun.{IsSharedPart};
ghost use Rattle.machine_safe.specs.Safe.{IsSafeIn};
ghost use Rattle.kcore.specs.KernelMode.{mode_of};
ghost use Rattle.turn_lock.specs.Log.{Begins};
ghost use Rattle.shared_kernel.specs.Draws.{Draws};
ghost use Rattle.shared_kernel.specs.Returns.{GivesBack, IsOpened};
ghost use Rattle.shared_kernel.specs.Values.{base_of};

use crate::acting::{come_back, entries, slot_out};
use crate::answers::Drew;
use crate::base::KernelBase;
use count_rule::{StateSeat, Ticket};
use kcore::{Kernel, places_for};
use script_types::{Script, Slot};
use std::alloc::Global;
use std::marker::Model;
use sym_base::{Items, Limits, NoMemory, ThreadNo};
use turn_lock::History;

/// A kernel with its schedule, of which so many slots are taken. A contract sees the kernel.
#[derive(Drop)]
pub(crate) struct Scheduled {
    kernel: Kernel<StateSeat>,
    slots: Items<Slot>,
    taken: u32,
}

impl Model for Scheduled {
    ghost use Rattle.ref_words.specs.Words.{Words};
    ghost use Rattle.kcore.specs.KernelView.{KernelView};
    ghost use Rattle.shared_kernel.specs.Values.{IsScheduled};

    ghost Value = { KernelView Words };

    ghost view = { λ s. s.kernel };

    ghost invariant = { λ s. IsScheduled s.kernel s.slots s.taken };
}

impl History for Scheduled {
    type Base = KernelBase;

    ghost use Rattle.shared_kernel.specs.Values.{base_of};

    ghost entries = { λ k. k.history };

    ghost base = { λ k. base_of k };
}

impl Scheduled {
    /// The kernel at boot.
    pub(crate) fn new(alloc: Global, script: Script) -> Result<Scheduled, NoMemory>
        requires valid { IsWellFormed script }
        ensures script { IfOk result (λ made. made.script ≡ script) }
        ensures empty { IfOk result (λ made. made.history ≡ []) }
    {
        let slots = script.slots.copied(alloc)?;
        let room = Limits::SHARED_HISTORY as u32;
        let words = StateSeat::new(alloc, places_for(script.version, room))?;
        let kernel = Kernel::boot(alloc, script, words, room)?;
        Ok(Scheduled {
            kernel,
            slots,
            taken: 0,
        })
    }

    /// The next slot's actor acts, if a slot is left.
    pub(crate) fn draw(&mut self) -> Drew
        ensures base { base_of self.new ≡ base_of self.old }
        ensures grown { Begins self.old.history self.new.history }
        ensures draws { Draws (base_of self.old) result self.old.history self.new.history }
        ensures part { IsSharedPart self.new.script self.new.history }
        ensures safe { IsSafeIn true self.new.script self.new.history }
    {
        let next = self.taken as usize;
        if next >= self.slots.len() {
            return Drew::NoSlot {
                place: entries(&self.kernel),
            };
        }
        let slot = self.slots.get(next);
        let acted = slot_out(&mut self.kernel, slot);
        self.taken += 1;
        acted.drew()
    }

    /// A thread comes back with its ticket. It answers the place of the return.
    pub(crate) fn give_back(&mut self, thread: ThreadNo, ticket: Ticket) -> u32
        requires opened { IsOpened (base_of self.old) self.old.history thread ticket }
        ensures base { base_of self.new ≡ base_of self.old }
        ensures grown { Begins self.old.history self.new.history }
        ensures back { GivesBack (base_of self.old) thread result self.old.history self.new.history }
        ensures part { IsSharedPart self.new.script self.new.history }
        ensures safe { IsSafeIn true self.new.script self.new.history }
    {
        come_back(&mut self.kernel, thread, ticket)
    }

    /// The kernel, once nobody drives it.
    pub(crate) fn into_kernel(self) -> Kernel<StateSeat>
        ensures kernel { result ≡ self }
        ensures mode { result.mode ≡ mode_of true result.history }
        ensures safe { IsSafeIn true result.script result.history }
        ensures part { IsSharedPart result.script result.history }
    {
        let Scheduled { kernel, .. } = self;
        let _ = kernel.history();
        kernel
    }
}
