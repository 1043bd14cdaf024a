//! The tables of the nanokernel, the choice that they give, and its interrupts.
ghost use Rattle.std.specs.Prelude.{◌≡◌, ℕ, ◌+◌, ◌<◌, ◌==◌, ◌&&◌, All, is_none, length, position, IfOk};
ghost use Rattle.sym_base.specs.declared.limits.TheConstants.Limits.{BOOT_OBJECTS};
ghost use Rattle.state_rows.specs.DeclaredCalls.{calls_of};
ghost use Rattle.state_rows.specs.Deferred.{IsKnown};
ghost use Rattle.state_rows.specs.DeferredChanges.{after_items};
ghost use Rattle.state_rows.specs.Nano.{wanted_holder};
ghost use Rattle.state_rows.specs.NanoChanges.{new_rows};
ghost use Rattle.ready_list.specs.Ready.{no_threads};
ghost use Rattle.script_types.specs.Shape.{IsShaped};
ghost use Rattle.script_types.specs.Source.{IsWellFormed};
ghost use Rattle.nano.specs.declared.interrupts.InterruptBody.{InterruptBody};
ghost use Rattle.nano.specs.Choice.{chosen, after_tick, is_listed};
ghost use Rattle.nano.specs.Interrupts.{interrupts_of, items_at};

use crate::choice::{chosen, tick, wanted_holder};
use crate::interrupts::{InterruptBody, interrupt, interrupts_of};
use deferred::Deferred;
use entry_log::Actor;
use nano_sync::NanoSync;
use ready_list::ReadyList;
use script_types::Script;
use state_rows::declared_places;
use std::alloc::Global;
use sym_base::{Items, Limits, NoMemory, ThreadNo};

/// The nanokernel (Symbian OS Internals, the chapters on threads and processes and on interrupts): the queues of ready
/// threads, what it keeps of threads that synchronize, the queues of deferred function calls, and what interrupts add to
/// these. The three tables are lent to whoever makes a step.
#[derive(Drop)]
pub struct Nano {
    /// The ready threads by priority.
    pub ready: ReadyList,
    /// Fast semaphores, fast mutexes, critical sections and suspension.
    pub sync: NanoSync,
    /// Immediate deferred function calls, and deferred ones.
    pub deferred: Deferred,
    /// The declared interrupts, which stay.
    pub interrupts: Items<InterruptBody>,
}

impl Nano {
    /// The tables for a script's threads, of which none is ready, and for its deferred function calls, of which none is
    /// queued. They have a row for each object that stands at boot and for each fast mutex of the script. It takes all
    /// the memory that they ever need.
    pub fn new(alloc: Global, script: &Script) -> Result<Nano, NoMemory>
        requires { IsWellFormed script.now }
        ensures ready { IfOk result (λ nano. nano.ready ≡ no_threads BOOT_OBJECTS) }
        ensures sync { IfOk result (λ nano. nano.sync ≡ new_rows (2 + length script.now.processes + length script.now.queues + length script.now.threads) script.now.fast) }
        ensures deferred { IfOk result (λ nano. nano.deferred ≡ calls_of script.now) }
        ensures interrupts { IfOk result (λ nano. nano.interrupts ≡ interrupts_of script.now) }

        // What an interrupt adds is what the queues are made for.
        ensures known { IfOk result (λ nano. (k : ℕ) → All (IsKnown nano.deferred) (items_at nano.interrupts k)) }
    {
        Ok(Nano {
            ready: ReadyList::new(alloc, Limits::BOOT_OBJECTS as u16)?,
            sync: new_sync(alloc, script)?,
            deferred: new_deferred(alloc, script)?,
            interrupts: interrupts_of(alloc, script)?,
        })
    }

    /// Who acts next: the immediate queue, where it has an item; else the ready thread of the greatest priority that has
    /// been ready longest, or, where it wants a fast mutex that is held, the holder of that in its place; nobody where
    /// no thread is ready.
    pub fn chosen(&self) -> Actor
        ensures { result ≡ chosen self.now.ready self.now.sync self.now.deferred }
    {
        chosen(&self.ready, &self.sync, &self.deferred)
    }

    /// The interrupt of a number comes: what its body names joins the immediate queue, in order. An interrupt that isn't
    /// declared adds nothing.
    pub fn interrupt(&mut self, k: u8)
        requires { All (IsKnown self.old.deferred) (items_at self.old.interrupts k) }
        ensures deferred { self.new.deferred ≡ after_items self.old.deferred (items_at self.old.interrupts k) }
        ensures ready { self.new.ready ≡ self.old.ready }
        ensures sync { self.new.sync ≡ self.old.sync }
        ensures interrupts { self.new.interrupts ≡ self.old.interrupts }
    {
        let interrupts = self.interrupts.as_slice();
        if let Some(place) = place_of(interrupts, k) {
            interrupt(&mut self.deferred, interrupts[place].items.as_slice());
        }
    }

    /// A time slice ends: the ready thread of the greatest priority that has been ready longest goes behind its
    /// equals, unless it holds a fast mutex. It does so also where the holder of what it wants runs in its place.
    pub fn tick(&mut self)
        ensures ready { self.new.ready ≡ after_tick self.old.ready self.old.sync }
        ensures sync { self.new.sync ≡ self.old.sync }
        ensures deferred { self.new.deferred ≡ self.old.deferred }
        ensures interrupts { self.new.interrupts ≡ self.old.interrupts }
    {
        tick(&mut self.ready, &self.sync);
    }

    /// Whether a thread is able to act: it is ready, and wants no fast mutex that is held. False exactly where it isn't.
    pub fn able(&self, t: ThreadNo) -> bool
        requires { t.0 < self.now.ready.threads }
        ensures { result ≡ (is_listed self.now.ready t && is_none (wanted_holder self.now.sync t)) }
    {
        self.ready.priority_of(t).is_some() && wanted_holder(&self.sync, t).is_none()
    }
}

/// The rows of threads that synchronize: one for each object that stands at boot, and for each fast mutex.
fn new_sync(alloc: Global, script: &Script) -> Result<NanoSync, NoMemory>
    requires { IsShaped script.now }
    ensures { IfOk result (λ sync. sync ≡ new_rows (2 + length script.now.processes + length script.now.queues + length script.now.threads) script.now.fast) }
{
    let objects = 2 + script.processes.len() + script.queues.len() + script.threads.len();
    NanoSync::new(alloc, objects as u16, script.fast)
}

/// The queues of deferred function calls: the supervisor's and each declared one. Each thread has a burial.
pub fn new_deferred(alloc: Global, script: &Script) -> Result<Deferred, NoMemory>
    requires { IsShaped script.now }
    ensures { IfOk result (λ deferred. deferred ≡ calls_of script.now) }
{
    let queues = 1 + script.queues.len();
    let burials = queues + script.threads.len();
    let places = declared_places(alloc, script)?;
    Deferred::new(
        alloc,
        queues as u8,
        script.idfcs.len() as u8,
        &places,
        burials as u8,
    )
}

/// The place of the interrupt of a number among the declared ones.
fn place_of(interrupts: &[InterruptBody], k: u8) -> Option<usize>
    ensures { result ≡ position (λ (declared : InterruptBody). declared.number == k) interrupts.now }
{
    interrupts.iter().position(|declared| declared.number == k)
}
