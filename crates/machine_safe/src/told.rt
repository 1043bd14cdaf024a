//! What a history tells of the state that it leaves.
ghost use Rattle.std.specs.Prelude.{Bool};
ghost use Rattle.script_types.specs.Source.{IsWellFormed as IsWellFormedScript};
ghost use Rattle.machine.specs.Arrived.{arrived_in};
ghost use Rattle.machine.specs.History.{after_in, IsLegal, IsLegalIn};
ghost use Rattle.machine.specs.WellFormed.{IsWellFormed};
ghost use Rattle.machine_safe.specs.Laws.{HoldersAreTold, HoldersAreUnique, LeavesNothing, TellsZero};

use entry_log::Entry;
use script_types::Script;

/// Every history of a well-formed script leaves a well-formed state: handle tables, threads and duties keep their
/// bounds, an object is alive exactly where something refers to it or somebody is out on it, the sweep of each dead
/// one is owed once, and the ready list has exactly the threads that are ready, each once. This call only states it,
/// and changes nothing.
pub fn state_is_well_formed(script: &Script, history: &[Entry])
    requires valid { IsWellFormedScript script.now }
    ensures formed { (shared : Bool) → IsWellFormed script.now (after_in shared script.now history.now) (arrived_in shared script.now history.now) }
{}

/// Of a number that no object has nothing is left, but what the history told of it: it is no thread, no server and no
/// session, nothing refers to it, nobody owns it or waits for it, it counts nothing, and no sweep of it is owed. So where a
/// number is used again, its new object begins as the first one did. This call only states it, and changes nothing.
pub fn nothing_is_left(script: &Script, history: &[Entry])
    requires valid { IsWellFormedScript script.now }
    ensures { (shared : Bool) → LeavesNothing shared script.now history.now }
{}

/// After every legal history of a well-formed script each holder holds what the effects tell, and no reference twice.
/// This call only states it, and changes nothing.
pub fn holders_are_told(script: &Script, history: &[Entry])
    requires valid { IsWellFormedScript script.now }
    ensures told { (shared : Bool) → IsLegalIn shared script.now history.now → HoldersAreTold shared script.now history.now }
    ensures unique { (shared : Bool) → IsLegalIn shared script.now history.now → HoldersAreUnique shared script.now history.now }
{}

/// Within every legal history of a well-formed script the count of an object that the history tells is 0 exactly
/// where no reference to the object stands in the state. This call only states it, and changes nothing.
pub fn zero_counts_are_told(script: &Script, history: &[Entry])
    requires valid { IsWellFormedScript script.now }
    requires legal { IsLegal script.now history.now }
    ensures zero { TellsZero script.now history.now }
{}
