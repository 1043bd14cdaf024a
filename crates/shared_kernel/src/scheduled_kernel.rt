//! A kernel that its callers drive by its schedule.
ghost use Rattle.std.specs.Prelude.{◌≡◌, ◌<◌, ◌≤◌, ℕ, [], List, map, All, Contains, IfOk, true};
ghost use Rattle.script_types.specs.Source.{IsWellFormed};
ghost use Rattle.machine.specs.SharedRun.{IsSharedPart};
ghost use Rattle.machine_safe.specs.Safe.{IsSafeIn};
ghost use Rattle.kcore.specs.KernelMode.{mode_of};
ghost use Rattle.turn_lock.specs.declared.view.Logged.{Logged};
ghost use Rattle.turn_lock.specs.Log.{entries_of};
ghost use Rattle.turn_lock.specs.Passes.{caller_of, known_of, numbers, sight_of, IsFree, IsWhole, MadeByPasses};
ghost use Rattle.shared_kernel.specs.Draws.{DrewBy};
ghost use Rattle.shared_kernel.specs.Returns.{GaveBackBy, IsOpened};

use crate::answers::Drew;
use crate::base::{KernelBase, Pass};
use crate::scheduled::Scheduled;
use count_rule::{StateSeat, Ticket};
use kcore::Kernel;
use script_types::Script;
use std::alloc::Global;
use std::marker::Model;
use std::sync::Wait;
use sym_base::{NoMemory, ThreadNo};
use turn_lock::Turns;

/// A kernel that callers in many threads drive by its script's schedule: any of them takes the next slot. A contract sees
/// which lock it is, whose base has the script.
#[derive(Drop)]
pub struct ScheduledKernel {
    turns: Turns<Scheduled>,
}

impl Model for ScheduledKernel {
    ghost use Rattle.turn_lock.specs.LockId.{LockId};
    ghost use Rattle.shared_kernel.specs.declared.base.KernelBase.{KernelBase};

    ghost Value = { LockId KernelBase };

    ghost view = { λ k. k.turns };
}

impl ScheduledKernel {
    /// The kernel of a script at boot, and 1 to 16 passes, whose callers are numbered from 0. It takes all the memory that
    /// the kernel and its callers ever need.
    pub fn new(
        alloc: Global,
        script: Script,
        passes: u32,
    ) -> Result<(ScheduledKernel, Vec<Pass>), NoMemory>
        requires valid { IsWellFormed script }
        requires some { 0 < passes }
        requires few { passes ≤ 16 }
        ensures script { IfOk result (λ made. made.0.base.script ≡ script) }
        ensures passes { IfOk result (λ made. made.0.passes ≡ passes) }
        ensures free { IfOk result (λ made. All (IsFree made.0) made.1.items) }
        ensures callers { IfOk result (λ made. map caller_of made.1.items ≡ numbers 0 passes) }
        ensures known { IfOk result (λ made. All (λ p. known_of p ≡ []) made.1.items) }
    {
        let scheduled = Scheduled::new(alloc, script)?;
        let (turns, passes) = Turns::new(alloc, scheduled, passes)?;
        Ok((ScheduledKernel { turns }, passes))
    }

    /// In a turn, the actor of the next slot acts, unless no slot is left. A thread that finds an object is out until its
    /// ticket is given back. It waits for the pass's turn, and no clause says that the turn is ever got.
    pub fn draw<R: Wait>(&self, rt: &R, pass: &mut Pass) -> Drew
        requires { IsFree self.now pass.old }
        ensures free { IsFree self.now pass.new }
        ensures caller { caller_of pass.new ≡ caller_of pass.old }
        ensures drew { DrewBy self.now.base (sight_of self.now pass.old) (sight_of self.now pass.new) result }

        // What the pass knows then is a part of a run of the schedule by callers who share the kernel, and each entry of it is
        // of one of the passes.
        ensures part { IsSharedPart self.now.base.script (entries_of (known_of pass.new)) }
        ensures safe { IsSafeIn true self.now.base.script (entries_of (known_of pass.new)) }
        ensures made { MadeByPasses self.now pass.new }
    {
        let mut turn = self.turns.enter(rt, pass);
        let drew = turn.value().draw();
        self.turns.leave(pass, turn);
        drew
    }

    /// In a turn, a thread comes back whose find the pass knows, with the ticket of that find, which has opened its object
    /// or found it dead. It answers the place of the return. It waits for the pass's turn.
    pub fn give_back<R: Wait>(&self, rt: &R, pass: &mut Pass, t: ThreadNo, ticket: Ticket) -> u32
        requires free { IsFree self.now pass.old }
        requires opened { IsOpened self.now.base (entries_of (known_of pass.old)) t ticket }
        ensures free { IsFree self.now pass.new }
        ensures caller { caller_of pass.new ≡ caller_of pass.old }
        ensures back { GaveBackBy self.now.base (sight_of self.now pass.old) (sight_of self.now pass.new) t result }
        ensures part { IsSharedPart self.now.base.script (entries_of (known_of pass.new)) }
        ensures safe { IsSafeIn true self.now.base.script (entries_of (known_of pass.new)) }
        ensures made { MadeByPasses self.now pass.new }
    {
        let mut turn = self.turns.enter(rt, pass);
        let place = turn.value().give_back(t, ticket);
        self.turns.leave(pass, turn);
        place
    }

    /// The kernel, once all passes come back.
    pub fn finish(self, passes: Vec<Pass>) -> Kernel<StateSeat>
        requires free { All (IsFree self) passes.items }
        requires all { (caller : ℕ) → caller < self.passes → Contains (map caller_of passes.items) caller }
        ensures script { result.script ≡ self.base.script }
        ensures mode { result.mode ≡ mode_of true result.history }
        ensures part { IsSharedPart result.script result.history }
        ensures safe { IsSafeIn true result.script result.history }

        // Its history is the whole log: it begins with what each pass knows, and has no entries but those that the passes'
        // callers made.
        ensures whole { (log : List Logged) × (result.history ≡ entries_of log) × IsWhole passes.items log }
    {
        let ScheduledKernel { turns } = self;
        turns.close(passes).into_kernel()
    }
}
