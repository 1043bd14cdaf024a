//! A legal history is one of callers who share the kernel.
ghost use Rattle.machine.specs.History.{IsLegal};
ghost use Rattle.machine_safe.specs.SharedReading.{IsSharedToo};

use entry_log::Entry;
use script_types::Script;

/// Every legal history of a script is also one of callers who share the kernel: the one in which whoever found an object
/// comes back when it is chosen, and nothing is kept without a reference. It leaves the same rows in both readings. A thread
/// between its find and its return is out where callers share the kernel, and then may come back at any time; each other
/// thread is able to act in both readings or in none. This call only states it, and changes nothing.
pub fn legal_is_shared(script: &Script, history: &[Entry])
    requires legal { IsLegal script.now history.now }
    ensures { IsSharedToo script.now history.now }
{}
