//! Who acts next, and what the end of a time slice does.
ghost use Rattle.std.specs.Prelude.{◌≡◌};
ghost use Rattle.state_rows.specs.Nano.{wanted_holder};
ghost use Rattle.nano.specs.Choice.{chosen, after_tick};

use deferred::Deferred;
use entry_log::Actor;
use nano_sync::NanoSync;
use ready_list::ReadyList;
use sym_base::ThreadNo;

/// The thread that holds the fast mutex which a thread wants. None where it wants none, or nobody holds that.
pub fn wanted_holder(sync: &NanoSync, t: ThreadNo) -> Option<ThreadNo>
    ensures { result ≡ wanted_holder sync.now t }
{
    let wanted = sync.want(t)?;
    sync.holder(wanted)
}

/// Who acts next, of these tables: the immediate queue, where it has an item; else the first thread of the highest
/// queue, or, where that wants a fast mutex that is held, the holder of it; nobody where all queues are empty.
pub fn chosen(ready: &ReadyList, sync: &NanoSync, deferred: &Deferred) -> Actor
    ensures { result ≡ chosen ready.now sync.now deferred.now }
{
    if deferred.first_idfc().is_some() {
        return Actor::Idfc;
    }
    match ready.pick() {
        None => Actor::Idle,
        Some(first) => Actor::Thread(wanted_holder(sync, first).unwrap_or(first)),
    }
}

/// The end of a time slice, of these tables: the first thread of the highest queue stands behind its equals, unless it
/// holds a fast mutex.
pub fn tick(ready: &mut ReadyList, sync: &NanoSync)
    ensures { ready.new ≡ after_tick ready.old sync.now }
{
    let Some(first) = ready.pick() else {
        return;
    };
    if sync.held(first).is_some() {
        return;
    }
    if let Some(priority) = ready.priority_of(first) {
        ready.rotate(priority);
    }
}
