//! A kernel that its callers drive as they like.
ghost use Rattle.std.specs.Prelude.{◌≡◌, ◌<◌, ◌≤◌, ℕ, [], List, map, All, Contains, IfOk, true};
ghost use Rattle.script_types.specs.Source.{IsWellFormed};
ghost use Rattle.machine.specs.History.{IsShared};
ghost use Rattle.machine_safe.specs.Safe.{IsSafeIn};
ghost use Rattle.kcore.specs.KernelMode.{mode_of};
ghost use Rattle.turn_lock.specs.declared.view.Logged.{Logged};
ghost use Rattle.turn_lock.specs.Log.{entries_of, longer, Begins};
ghost use Rattle.turn_lock.specs.Passes.{caller_of, known_of, numbers, own_of, sight_of, IsFree, IsWhole, MadeByPasses};
ghost use Rattle.shared_kernel.specs.Does.{ActedBy, SlottedBy};
ghost use Rattle.shared_kernel.specs.Returns.{GaveBackBy, IsOpened};

use crate::answers::Did;
use crate::base::{KernelBase, Pass};
use crate::free::Free;
use count_rule::{StateSeat, Ticket};
use kcore::Kernel;
use script_types::{Script, Slot};
use std::alloc::Global;
use std::marker::Model;
use std::sync::Wait;
use sym_base::{NoMemory, ThreadNo};
use turn_lock::Turns;

/// A kernel that callers in many threads drive as they like: whichever able thread may act, and whichever interrupt may come.
/// A contract sees which lock it is, whose base has the script.
#[derive(Drop)]
pub struct SharedKernel {
    turns: Turns<Free>,
}

impl Model for SharedKernel {
    ghost use Rattle.turn_lock.specs.LockId.{LockId};
    ghost use Rattle.shared_kernel.specs.declared.base.KernelBase.{KernelBase};

    ghost Value = { LockId KernelBase };

    ghost view = { λ k. k.turns };
}

impl SharedKernel {
    /// The kernel of a script at boot, and 1 to 16 passes, whose callers are numbered from 0. It takes all the memory that
    /// the kernel and its callers ever need.
    pub fn new(
        alloc: Global,
        script: Script,
        passes: u32,
    ) -> Result<(SharedKernel, Vec<Pass>), NoMemory>
        requires valid { IsWellFormed script }
        requires some { 0 < passes }
        requires few { passes ≤ 16 }
        ensures script { IfOk result (λ made. made.0.base.script ≡ script) }
        ensures passes { IfOk result (λ made. made.0.passes ≡ passes) }
        ensures free { IfOk result (λ made. All (IsFree made.0) made.1.items) }
        ensures callers { IfOk result (λ made. map caller_of made.1.items ≡ numbers 0 passes) }
        ensures known { IfOk result (λ made. All (λ p. known_of p ≡ []) made.1.items) }
    {
        let free = Free::new(alloc, script)?;
        let (turns, passes) = Turns::new(alloc, free, passes)?;
        Ok((SharedKernel { turns }, passes))
    }

    /// In a turn, the actor of a slot acts, if its interrupt is declared and there is room. It waits for the pass's turn.
    pub fn slot<R: Wait>(&self, rt: &R, pass: &mut Pass, slot: Slot) -> Did
        requires { IsFree self.now pass.old }
        ensures free { IsFree self.now pass.new }
        ensures caller { caller_of pass.new ≡ caller_of pass.old }
        ensures did { SlottedBy self.now.base (sight_of self.now pass.old) (sight_of self.now pass.new) slot result }
        ensures legal { IsShared self.now.base.script (entries_of (known_of pass.new)) }
        ensures safe { IsSafeIn true self.now.base.script (entries_of (known_of pass.new)) }
        ensures made { MadeByPasses self.now pass.new }
    {
        let mut turn = self.turns.enter(rt, pass);
        let did = turn.value().slot(slot);
        self.turns.leave(pass, turn);
        did
    }

    /// In a turn, a thread acts, if there is room and it is able. It waits for the pass's turn.
    pub fn act<R: Wait>(&self, rt: &R, pass: &mut Pass, t: ThreadNo) -> Did
        requires { IsFree self.now pass.old }
        ensures free { IsFree self.now pass.new }
        ensures caller { caller_of pass.new ≡ caller_of pass.old }
        ensures did { ActedBy self.now.base (sight_of self.now pass.old) (sight_of self.now pass.new) t result }
        ensures legal { IsShared self.now.base.script (entries_of (known_of pass.new)) }
        ensures safe { IsSafeIn true self.now.base.script (entries_of (known_of pass.new)) }
        ensures made { MadeByPasses self.now pass.new }
    {
        let mut turn = self.turns.enter(rt, pass);
        let did = turn.value().act(t);
        self.turns.leave(pass, turn);
        did
    }

    /// In a turn, a thread comes back whose find the pass knows, with the ticket of that find, which has opened its object
    /// or found it dead. It answers the place of the return. It waits for the pass's turn.
    pub fn give_back<R: Wait>(&self, rt: &R, pass: &mut Pass, t: ThreadNo, ticket: Ticket) -> u32
        requires free { IsFree self.now pass.old }
        requires opened { IsOpened self.now.base (entries_of (known_of pass.old)) t ticket }
        ensures free { IsFree self.now pass.new }
        ensures caller { caller_of pass.new ≡ caller_of pass.old }
        ensures back { GaveBackBy self.now.base (sight_of self.now pass.old) (sight_of self.now pass.new) t result }
        ensures legal { IsShared self.now.base.script (entries_of (known_of pass.new)) }
        ensures safe { IsSafeIn true self.now.base.script (entries_of (known_of pass.new)) }
        ensures made { MadeByPasses self.now pass.new }
    {
        let mut turn = self.turns.enter(rt, pass);
        let place = turn.value().give_back(t, ticket);
        self.turns.leave(pass, turn);
        place
    }

    /// Two callers tell each other what they know: both know the longer of the two prefixes afterwards. `one` stays the first
    /// caller's pass, and the answered one is the second caller's.
    pub fn meet(&self, one: &mut Pass, other: Pass) -> Pass
        requires one { IsFree self.now one.old }
        requires other { IsFree self.now other }
        ensures one { IsFree self.now one.new }
        ensures other { IsFree self.now result }
        ensures one_caller { caller_of one.new ≡ caller_of one.old }
        ensures other_caller { caller_of result ≡ caller_of other }
        ensures known { known_of one.new ≡ longer (known_of one.old) (known_of other) }
        ensures same { known_of result ≡ known_of one.new }
        ensures begins { Begins (known_of one.old) (known_of one.new) }
        ensures other_begins { Begins (known_of other) (known_of one.new) }
        ensures own { own_of one.new ≡ own_of one.old }
        ensures other_own { own_of result ≡ own_of other }
        ensures made { MadeByPasses self.now one.new }
        ensures other_made { MadeByPasses self.now result }
    {
        self.turns.meet(one, other)
    }

    /// The kernel, once all passes come back.
    pub fn finish(self, passes: Vec<Pass>) -> Kernel<StateSeat>
        requires free { All (IsFree self) passes.items }
        requires all { (caller : ℕ) → caller < self.passes → Contains (map caller_of passes.items) caller }
        ensures script { result.script ≡ self.base.script }
        ensures mode { result.mode ≡ mode_of true result.history }
        ensures legal { IsShared result.script result.history }
        ensures safe { IsSafeIn true result.script result.history }
        ensures whole { (log : List Logged) × (result.history ≡ entries_of log) × IsWhole passes.items log }
    {
        let SharedKernel { turns } = self;
        turns.close(passes).into_kernel()
    }
}
