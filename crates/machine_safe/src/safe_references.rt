//! The laws of references, deaths, messages, servers, busy answers and waits over whole histories.
ghost use Rattle.std.specs.Prelude.{false, true};
ghost use Rattle.script_types.specs.Source.{IsWellFormed};
ghost use Rattle.machine.specs.History.{IsLegal, IsShared};
ghost use Rattle.machine_safe.specs.SafeBusy.{IsSafeBusy};
ghost use Rattle.machine_safe.specs.SafeDeaths.{IsSafeDeaths};
ghost use Rattle.machine_safe.specs.SafeMessages.{IsSafeMessages};
ghost use Rattle.machine_safe.specs.SafeReferences.{IsSafeReferences};
ghost use Rattle.machine_safe.specs.SafeServers.{IsSafeServers};
ghost use Rattle.machine_safe.specs.SafeWaits.{IsSafeWaits};
ghost use Rattle.machine_safe.specs.SafeWeights.{IsSafeWeights};

use entry_log::Entry;
use script_types::Script;

/// In every legal history of a well-formed script an object dies once at most, exactly where its last reference goes,
/// nobody opens it afterwards, also who found it before, and its row goes once, after its death. A reference is added
/// only where its holder doesn't hold the object, and taken away only where it does. And a thread is doomed, cleaned
/// and buried once at most each, in this order; after its doom it takes no lock and gets no signal; as it is cleaned
/// it has given all locks and all references of its own back; and then it never acts, and holds, owes and gets
/// nothing, also where its row is swept, nor does the table of its process get anything once all threads of that are
/// cleaned. Messages are accepted in order of their numbers, in a step that accepts, with the status that the
/// client's instruction names, each over a session of a server that isn't closing, and finished once at most, by that
/// server's owner, with the code of its `complete` or, where the server is closing, as terminated; beside that end
/// stands what the client is told, and nothing else: the code, by the status that it sent the message with, unless it
/// was doomed since the acceptance or the message disconnects. A server ends once at most, where it is closing; each
/// of its messages is finished then, and nothing is accepted beside; and as a thread is cleaned each server that it
/// made has ended. And a `send` to a server that isn't closing answers KErrServerBusy exactly where all slots are
/// used of its session, which the look of that `send` found, and is accepted else. And the step in which nobody acts
/// is the actor idle's alone. And a doomed thread weighs less after each action of
/// its own, and others add to its weight only a handle of its process's table, 4, and a logon on it, 1; so it acts no more often
/// than it weighed at its doom and they added, and then it is cleaned. This call only states it, and changes nothing.
pub fn legal_is_safe(script: &Script, history: &[Entry])
    requires valid { IsWellFormed script.now }
    requires legal { IsLegal script.now history.now }
    ensures safe { IsSafeReferences false script.now history.now }
    ensures deaths { IsSafeDeaths false script.now history.now }
    ensures messages { IsSafeMessages script.now history.now }
    ensures servers { IsSafeServers history.now }
    ensures busy { IsSafeBusy script.now history.now }
    ensures waits { IsSafeWaits history.now }
    ensures weights { IsSafeWeights false script.now history.now }
{}

/// The same holds of every history that callers make who share the kernel: there whoever found an object by its name
/// is out until it comes back, at any later place. So an object whose last reference goes while somebody is out on it
/// may live on, and whoever comes back then opens it. But one that died stays dead: who found it before opens
/// nothing. That nothing is left of an object's count and no death is told is excused only where somebody is out on
/// it who has no entry any more, so that the history doesn't tell what its return would have been. This call only
/// states it, and changes nothing.
pub fn shared_is_safe(script: &Script, history: &[Entry])
    requires valid { IsWellFormed script.now }
    requires legal { IsShared script.now history.now }
    ensures safe { IsSafeReferences true script.now history.now }
    ensures deaths { IsSafeDeaths true script.now history.now }
    ensures messages { IsSafeMessages script.now history.now }
    ensures servers { IsSafeServers history.now }
    ensures busy { IsSafeBusy script.now history.now }
    ensures waits { IsSafeWaits history.now }
    ensures weights { IsSafeWeights true script.now history.now }
{}
