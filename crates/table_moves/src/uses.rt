//! What threads' calls use, noted for their deaths.
ghost use Rattle.std.specs.Prelude.{◌≡◌, None, Some};
ghost use Rattle.std.specs.List.{slice_index_or};
ghost use Rattle.machine.specs.Moves.{use_of_row};
ghost use Rattle.table_moves.specs.Noted.{AreNoted, MayUse, with_use, use_gained, use_lost};

use cleanup::{Cleanup, Held};
use entry_log::Holder;
use procs::Procs;
use sym_base::{ObjNo, ThreadNo};

/// The object that a thread's instruction uses.
pub fn use_of(procs: &Procs, thread: ThreadNo) -> Option<ObjNo>
    ensures { result ≡ use_of_row (slice_index_or procs.now.threads thread.0 None) }
{
    procs.thread(thread)?.uses
}

/// A thread's call uses an object from now on.
fn begin_use(cleanup: &mut Cleanup, thread: ThreadNo, object: ObjNo)
    requires { slice_index_or cleanup.old.temporary thread.0 None ≡ None }
    ensures { cleanup.new ≡ with_use cleanup.old thread (Some object) }
{
    if (thread.0 as usize) < cleanup.threads() {
        cleanup.push(thread, Held::Temp(object));
    }
}

/// What a thread's call uses isn't used any more.
fn end_use(cleanup: &mut Cleanup, thread: ThreadNo, uses: Option<ObjNo>)
    requires { slice_index_or cleanup.old.temporary thread.0 None ≡ uses }
    ensures { cleanup.new ≡ with_use cleanup.old thread None }
{
    let Some(object) = uses else {
        return;
    };
    if (thread.0 as usize) < cleanup.threads() {
        cleanup.remove(thread, Held::Temp(object));
    }
}

/// A holder gets a reference: where it is a thread's call, that uses the object.
pub fn note_gain(cleanup: &mut Cleanup, holder: Holder, object: ObjNo)
    requires { MayUse cleanup.old holder }
    ensures { cleanup.new ≡ use_gained holder object cleanup.old }
{
    if let Holder::Temp(thread) = holder {
        begin_use(cleanup, thread, object);
    }
}

/// A holder gives its reference up: where it is a thread's call, that uses nothing any more.
pub fn note_lost(cleanup: &mut Cleanup, procs: &Procs, holder: Holder)
    requires { AreNoted cleanup.old procs.now.threads }
    ensures { cleanup.new ≡ use_lost holder cleanup.old }
{
    if let Holder::Temp(thread) = holder {
        end_use(cleanup, thread, use_of(procs, thread));
    }
}

/// A thread's instruction is over, and uses nothing any more.
pub fn note_end(cleanup: &mut Cleanup, procs: &Procs, thread: ThreadNo)
    requires { AreNoted cleanup.old procs.now.threads }
    ensures { cleanup.new ≡ with_use cleanup.old thread None }
{
    end_use(cleanup, thread, use_of(procs, thread));
}
