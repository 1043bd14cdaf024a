//! Actions of a kernel that callers share, each told by its entry's place and what it found.
ghost use Rattle.std.specs.Prelude.{◌≡◌, ◌≢◌, ◌+◌, ◌≤◌, ◌++◌, List, [], ◌∷◌, length, true, IsTrue, IfSome};
ghost use Rattle.entry_log.specs.declared.entry.Actor.{Actor};
ghost use Rattle.entry_log.specs.declared.entry.Actor.TheVariants as actor;
ghost use Rattle.entry_log.specs.declared.entry.Entry.{Entry};
ghost use Rattle.machine.specs.History.{after_in, IsShared};
ghost use Rattle.machine.specs.Slots.{IsDeclared};
ghost use Rattle.machine.specs.Task.{is_able};
ghost use Rattle.machine_safe.specs.Safe.{IsSafeIn};
ghost use Rattle.kcore.specs.KernelMode.{Suits};
ghost use Rattle.kcore.specs.OneMore.{SendsOut};
ghost use Rattle.shared_kernel.specs.Acts.{Acts};
ghost use Rattle.shared_kernel.specs.Does.{slot_after};
ghost use Rattle.shared_kernel.specs.Returns.{GivesBack, IsOpened};
ghost use Rattle.shared_kernel.specs.Told.{slip_of, thread_in, IsUnopened};
ghost use Rattle.shared_kernel.specs.Values.{base_of, IsShareable};

use crate::acted::Acted;
use count_rule::{StateSeat, Ticket};
use entry_log::{Actor, Entry};
use kcore::Kernel;
use script_types::Slot;
use sym_base::ThreadNo;

/// How many entries there are.
pub(crate) fn entries(kernel: &Kernel<StateSeat>) -> u32
    requires mode { Suits true kernel.now.mode }
    requires few { length kernel.now.history ≤ 131072 }
    ensures entries { result ≡ length kernel.now.history }
    ensures legal { IsShared kernel.now.script kernel.now.history }
    ensures safe { IsSafeIn true kernel.now.script kernel.now.history }
{
    kernel.history().len() as u32
}

/// The thread that made the last entry. None where no thread did.
fn last_thread(history: &[Entry]) -> Option<ThreadNo>
    requires { length history.now ≢ 0 }
    ensures { (before : List Entry) → (e : Entry) → history.now ≡ before ++ e ∷ [] → result ≡ thread_in e.actor }
{
    match history[history.len() - 1].actor {
        Actor::Thread(thread) => Some(thread),
        _ => None,
    }
}

/// What came of the last entry, from which this ticket went out, if any.
fn told(kernel: &Kernel<StateSeat>, sent: Option<Ticket>) -> Acted
    requires few { length kernel.now.history ≤ 131072 }
    requires some { length kernel.now.history ≢ 0 }
    requires unopened { IfSome sent (IsUnopened (base_of kernel.now)) }
    ensures { (old : List Entry) → (actor : Actor) → SendsOut kernel.now.script old kernel.now.history actor (slip_of sent)
        → Acts (base_of kernel.now) old kernel.now.history actor result }
{
    let history = kernel.history();
    let place = history.len() as u32;
    match sent {
        None => Acted::Entry { place },
        Some(ticket) => match last_thread(history) {
            Some(thread) => Acted::Seek {
                place,
                thread,
                ticket,
            },
            // A find is a thread's, so this doesn't come.
            None => Acted::Entry { place },
        },
    }
}

/// The actor acts that a slot lets act.
pub(crate) fn slot_out(kernel: &mut Kernel<StateSeat>, slot: Slot) -> Acted
    requires shareable { IsShareable kernel.old }
    requires declared { IsDeclared kernel.old.script slot }
    requires room { length kernel.old.history + length kernel.old.notes.out + 2 ≤ 131072 }
    ensures base { base_of kernel.new ≡ base_of kernel.old }
    ensures acts { Acts (base_of kernel.old) kernel.old.history kernel.new.history (slot_after kernel.old.script kernel.old.history slot) result }
    ensures out { length kernel.new.notes.out ≤ length kernel.old.notes.out + 1 }
    ensures shareable { IsShareable kernel.new }
    ensures legal { IsShared kernel.new.script kernel.new.history }
    ensures safe { IsSafeIn true kernel.new.script kernel.new.history }
{
    // How many notes are out tells how many threads are.
    let _ = kernel.notes_out();
    let sent = kernel.slot_out(slot);
    told(kernel, sent)
}

/// An able thread acts.
pub(crate) fn act_out(kernel: &mut Kernel<StateSeat>, thread: ThreadNo) -> Acted
    requires shareable { IsShareable kernel.old }
    requires able { IsTrue (is_able kernel.old.script (after_in true kernel.old.script kernel.old.history) thread) }
    requires room { length kernel.old.history + length kernel.old.notes.out + 2 ≤ 131072 }
    ensures base { base_of kernel.new ≡ base_of kernel.old }
    ensures acts { Acts (base_of kernel.old) kernel.old.history kernel.new.history (actor.Thread thread) result }
    ensures out { length kernel.new.notes.out ≤ length kernel.old.notes.out + 1 }
    ensures shareable { IsShareable kernel.new }
    ensures legal { IsShared kernel.new.script kernel.new.history }
    ensures safe { IsSafeIn true kernel.new.script kernel.new.history }
{
    let _ = kernel.notes_out();
    let sent = kernel.act_out(thread);
    told(kernel, sent)
}

/// A thread comes back with its ticket. It answers the place of the return.
pub(crate) fn come_back(kernel: &mut Kernel<StateSeat>, thread: ThreadNo, ticket: Ticket) -> u32
    requires shareable { IsShareable kernel.old }
    requires opened { IsOpened (base_of kernel.old) kernel.old.history thread ticket }
    ensures base { base_of kernel.new ≡ base_of kernel.old }
    ensures back { GivesBack (base_of kernel.old) thread result kernel.old.history kernel.new.history }
    ensures fewer { length kernel.new.notes.out + 1 ≡ length kernel.old.notes.out }
    ensures shareable { IsShareable kernel.new }
    ensures legal { IsShared kernel.new.script kernel.new.history }
    ensures safe { IsSafeIn true kernel.new.script kernel.new.history }
{
    // A kernel that has entries is one that callers share, and its notes are those of its words.
    let _ = kernel.history();
    let _ = kernel.notes_out();
    kernel.come_back(thread, ticket);
    entries(kernel)
}
