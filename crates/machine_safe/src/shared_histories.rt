//! The laws of histories of callers who share the kernel.
ghost use Rattle.std.specs.Prelude.{◌≡◌, length};
ghost use Rattle.script_types.specs.Source.{IsWellFormed};
ghost use Rattle.machine.specs.History.{IsLegalIn, IsShared};
ghost use Rattle.machine.specs.SharedRun.{IsSharedPart, IsSharedRun, slots_taken};
ghost use Rattle.machine_safe.specs.FindsAndReturns.{AreFindsCounted, ComesBackNext, ReturnsExactly, finds_in, returns_in};
ghost use Rattle.machine_safe.specs.Losses.{TakesOneAway};

use entry_log::Entry;
use script_types::Script;

/// Each entry of a legal history, also of one of callers who share the kernel, takes one reference away at most, and a
/// return takes none. So an entry has one choice at most: whether an object is kept on which somebody is out, as its last
/// reference goes. This call only states it, and changes nothing.
pub fn one_reference_goes(shared: bool, script: &Script, history: &[Entry])
    requires valid { IsWellFormed script.now }
    requires legal { IsLegalIn shared script.now history.now }
    ensures { TakesOneAway history.now }
{}

/// Where callers share the kernel, as many threads are out as there are finds without their return: nobody is out exactly
/// if a history has as many returns as finds. Whoever is out makes its return when it acts, and nobody else makes one; so
/// whoever found an object makes its return with its next entry. This call only states it, and changes nothing.
pub fn finds_and_returns_count(script: &Script, history: &[Entry])
    requires valid { IsWellFormed script.now }
    requires shared { IsShared script.now history.now }
    ensures counted { AreFindsCounted script.now history.now }
    ensures returns { ReturnsExactly script.now history.now }
    ensures next { ComesBackNext history.now }
{}

/// A part of a shared run is the whole of one if it has as many entries that aren't returns as the script has slots, and a
/// return for each find. This call only states it, and changes nothing.
pub fn whole_run_is_shared(script: &Script, history: &[Entry])
    requires valid { IsWellFormed script.now }
    requires part { IsSharedPart script.now history.now }
    requires all { slots_taken history.now ≡ length script.now.slots }
    requires back { returns_in history.now ≡ finds_in history.now }
    ensures { IsSharedRun script.now history.now }
{}
