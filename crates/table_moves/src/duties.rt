//! What threads owe, in the lists that their deaths read.
ghost use Rattle.std.specs.Prelude.{◌≡◌, ◌+◌, ◌≤◌, [], ◌∷◌, length};
ghost use Rattle.cleanup.specs.Lists.{list_of};
ghost use Rattle.entry_log.specs.declared.effect.Holder.TheVariants as holder;
ghost use Rattle.state_rows.specs.declared.duty.Owed.TheVariants as owed;
ghost use Rattle.machine.specs.Moves.{owed_by_close, owed_link, owed_use};
ghost use Rattle.machine.specs.Rows.{owing, without_first, first_of};
ghost use Rattle.table_moves.specs.Noted.{with_duties};

use cleanup::Cleanup;
use entry_log::Holder;
use machine::Owed;
use sym_base::{MsgNo, ObjNo, ThreadNo};

/// A thread owes one thing more.
pub fn owe(cleanup: &mut Cleanup, thread: ThreadNo, what: Owed)
    requires { length (list_of cleanup.old.duties thread) + 1 ≤ 16 }
    ensures { cleanup.new ≡ with_duties cleanup.old (owing cleanup.old.duties thread (what ∷ [])) }
{
    if (thread.0 as usize) < cleanup.threads() {
        cleanup.owe(thread, what);
    }
}

/// A thread owes the close of an object's own link, where it has one.
fn owe_link(cleanup: &mut Cleanup, thread: ThreadNo, object: ObjNo, link: Option<ObjNo>)
    requires { length (list_of cleanup.old.duties thread) + 1 ≤ 16 }
    ensures { cleanup.new ≡ with_duties cleanup.old (owing cleanup.old.duties thread (owed_link object link)) }
{
    if let Some(process) = link {
        owe(cleanup, thread, Owed::Close(Holder::Link(object), process));
    }
}

/// A thread owes what a close leaves to do: where it was of the last reference, the close of the object's own
/// link, and then the sweep.
pub fn owe_close(
    cleanup: &mut Cleanup,
    thread: ThreadNo,
    last: bool,
    object: ObjNo,
    link: Option<ObjNo>,
)
    requires { length (list_of cleanup.old.duties thread) + 2 ≤ 16 }
    ensures { cleanup.new ≡ with_duties cleanup.old (owing cleanup.old.duties thread (owed_by_close last object link)) }
{
    if last {
        owe_link(cleanup, thread, object, link);
        owe(cleanup, thread, Owed::Sweep(object));
    }
}

/// A thread owes the closes of a finished message's references, to its session and to its client.
pub fn owe_message(
    cleanup: &mut Cleanup,
    thread: ThreadNo,
    number: MsgNo,
    session: ObjNo,
    client: ThreadNo,
)
    requires { length (list_of cleanup.old.duties thread) + 2 ≤ 16 }
    ensures { cleanup.new ≡ with_duties cleanup.old (owing cleanup.old.duties thread (owed.Close (holder.Message number) session ∷ owed.Close (holder.Message number) client ∷ [])) }
{
    owe(
        cleanup,
        thread,
        Owed::Close(Holder::Message(number), session),
    );
    owe(
        cleanup,
        thread,
        Owed::Close(Holder::Message(number), client),
    );
}

/// A thread owes the close of its temporary reference, where it has one.
pub fn owe_use(cleanup: &mut Cleanup, thread: ThreadNo, uses: Option<ObjNo>)
    requires { length (list_of cleanup.old.duties thread) + 1 ≤ 16 }
    ensures { cleanup.new ≡ with_duties cleanup.old (owing cleanup.old.duties thread (owed_use thread uses)) }
{
    if let Some(object) = uses {
        owe(cleanup, thread, Owed::Close(Holder::Temp(thread), object));
    }
}

/// A thread doesn't owe the oldest of its duties any more.
pub fn drop_first_owed(cleanup: &mut Cleanup, thread: ThreadNo)
    ensures { cleanup.new ≡ with_duties cleanup.old (without_first cleanup.old.duties thread) }
{
    if (thread.0 as usize) < cleanup.threads() {
        let _ = cleanup.next_owed(thread);
    }
}

/// The oldest of what a thread owes.
pub fn first_owed(cleanup: &Cleanup, thread: ThreadNo) -> Option<Owed>
    ensures { result ≡ first_of (list_of cleanup.now.duties thread) }
{
    if thread.0 as usize >= cleanup.threads() {
        return None;
    }
    cleanup.first_owed(thread)
}
