//! The queues of deferred function calls.
ghost use Rattle.std.specs.Prelude.{◌≡◌, IfOk, slice_get};
ghost use Rattle.script_types.specs.Shape.{IsShaped};
ghost use Rattle.state_rows.specs.declared.deferred.Item.TheVariants.{Move};
ghost use Rattle.state_rows.specs.Deferred.{is_queued, next_immediate, next_of, queue_of};
ghost use Rattle.state_rows.specs.DeclaredCalls.{calls_of};
ghost use Rattle.machine.specs.DeferredMoves.{deferred_moved};
ghost use Rattle.machine.specs.Fits.{FitsDeferred};

use deferred::Deferred;
use machine::DeferredMove;
use nano::new_deferred;
use script_types::Script;
use state_rows::Item;
use std::alloc::Global;
use std::marker::Model;
use sym_base::NoMemory;

/// No call of a script has this number, or a greater one.
const NUMBERS: usize = 256;

/// The queues of deferred function calls, and how many there are beside the immediate one. A contract sees their rows.
/// What is past them reads as empty.
#[derive(Drop)]
pub struct CallQueues {
    count: u8,
    calls: Deferred,
}

impl Model for CallQueues {
    ghost use Rattle.std.specs.Prelude.{◌≡◌, ◌≤◌, length};
    ghost use Rattle.state_rows.specs.declared.deferred.DeferredRows.{DeferredRows};

    ghost Value = { DeferredRows };

    ghost view = { λ q. q.calls };

    ghost invariant = { λ q. (length q.calls.queues ≡ q.count) × (length q.calls.places ≤ 256) };
}

impl CallQueues {
    /// Nothing is queued, in the supervisor's queue and in each declared one. Each thread has a burial.
    #[tactic(auto, using(crate::proofs::Places::few_places))]
    pub fn new(alloc: Global, script: &Script) -> Result<CallQueues, NoMemory>
        requires { IsShaped script.now }
        ensures { IfOk result (λ queues. queues ≡ calls_of script.now) }
    {
        Ok(CallQueues {
            count: 1 + script.queues.len() as u8,
            calls: new_deferred(alloc, script)?,
        })
    }

    /// The queues themselves.
    pub fn calls(&self) -> &Deferred
        ensures { result.now ≡ self.now }
    {
        &self.calls
    }

    /// The call of a queue that runs next.
    pub fn next_call(&self, queue: u8) -> Option<usize>
        ensures { result ≡ next_of self.now queue }
    {
        if queue >= self.count {
            return None;
        }
        let dfc = self.calls.first_dfc(queue)?;
        Some(dfc as usize)
    }

    /// The oldest item of the immediate queue.
    pub fn next_immediate(&self) -> Option<Item>
        ensures { result ≡ next_immediate self.now }
    {
        self.calls.first_idfc()
    }

    /// Whether a deferred function call stands in the immediate queue or in its own.
    pub fn is_queued(&self, dfc: u8) -> bool
        ensures { result ≡ is_queued self.now (Move dfc) }
    {
        self.calls.is_queued(dfc)
    }

    /// The queue of a deferred function call.
    pub fn queue_of(&self, dfc: usize) -> u8
        ensures { result ≡ queue_of self.now dfc }
    {
        if dfc < NUMBERS {
            self.calls.queue_of(dfc as u8)
        } else {
            0
        }
    }

    /// One move in the queues.
    pub fn change(&mut self, change: DeferredMove)
        requires { FitsDeferred change self.old }
        ensures { self.new ≡ deferred_moved change self.old }
    {
        match change {
            DeferredMove::AddImmediate(item) => {
                let _ = self.calls.add_idfc(item);
            }
            DeferredMove::AddFromInterrupt(dfc) => {
                let _ = self.calls.add_from_irq(dfc);
            }
            DeferredMove::Add(dfc, _) => {
                let _ = self.calls.add(dfc as u8);
            }
            DeferredMove::TakeImmediate => {
                let _ = self.calls.next_idfc();
            }
            DeferredMove::Take(queue) => {
                let _ = self.calls.next_dfc(queue);
            }
        }
    }
}
