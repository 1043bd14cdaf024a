//! The laws of who acts next over whole histories.
ghost use Rattle.std.specs.Prelude.{Bool};
ghost use Rattle.script_types.specs.Source.{IsWellFormed};
ghost use Rattle.machine.specs.Arrived.{arrived_in};
ghost use Rattle.machine.specs.Choice.{chosen};
ghost use Rattle.machine.specs.History.{after_in, CanAct};
ghost use Rattle.machine_safe.specs.DoomedAble.{AreDoomedAble};
ghost use Rattle.machine_safe.specs.IdleChoice.{IsIdleChoice};
ghost use Rattle.machine_safe.specs.ReadyHolders.{AreHoldersReadyIn};

use entry_log::Entry;
use script_types::Script;

/// After every history of a well-formed script, as one caller makes it or as callers make it who share the kernel,
/// the holder of a fast mutex is ready: it waits for nothing, nothing stops it, and it has something left to do. So
/// whoever is chosen may act, also where that is the holder of what the best ready thread wants (Symbian OS
/// Internals, the chapter on threads and processes, on fast mutexes). This call only states it, and changes nothing.
pub fn holders_are_ready(script: &Script, history: &[Entry])
    requires valid { IsWellFormed script.now }
    ensures ready { (shared : Bool) → AreHoldersReadyIn shared script.now history.now }
    ensures able { (shared : Bool) → CanAct script.now (after_in shared script.now history.now) (chosen (after_in shared script.now history.now) (arrived_in shared script.now history.now)) }
{}

/// After every such history of a well-formed script nobody is chosen exactly where nobody could act: no item waits in
/// the immediate queue, and no thread is able. So that Idle may act is said of the state alone, and the ready list,
/// by which the choice is made, says the same. This call only states it, and changes nothing.
pub fn idle_is_chosen(script: &Script, history: &[Entry])
    requires valid { IsWellFormed script.now }
    ensures { (shared : Bool) → IsIdleChoice shared script.now history.now }
{}

/// After every such history of a well-formed script each doomed thread that isn't out is able to act: it waits for
/// nothing, nothing stops it, and it wants no fast mutex that is held. So the action by which it is reaped can be made.
/// This call only states it, and changes nothing.
pub fn doomed_are_able(script: &Script, history: &[Entry])
    requires valid { IsWellFormed script.now }
    ensures { (shared : Bool) → AreDoomedAble shared script.now history.now }
{}
