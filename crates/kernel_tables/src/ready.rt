//! The queues of ready threads follow the moves of an action: who becomes ready comes, and who has nothing left to
//! do leaves at the end.
ghost use Rattle.std.specs.Prelude.{◌≡◌, ℕ, ◌<◌, true, false, List, [], ◌∷◌};
ghost use Rattle.sym_base.specs.declared.limits.TheConstants.Limits.{BOOT_OBJECTS};
ghost use Rattle.sym_base.specs.declared.number.ObjNo.{ObjNo};
ghost use Rattle.machine.specs.Arrivals.{arrive, one_of, taken_out, threads_of, unlisted};
ghost use Rattle.ready_list.specs.Arrival.{AreQueuesOf};
ghost use Rattle.ready_list.specs.Ready.{IsReady};
ghost use Rattle.machine.specs.Choice.{chosen, priority_of};
ghost use Rattle.machine.specs.Tick.{after_tick};
ghost use Rattle.kernel_tables.specs.Moved.{AreKnown};
ghost use Rattle.kernel_tables.specs.OwnMoves.{AreOwn, IsOwn};
ghost use Rattle.kernel_tables.specs.ReadyQueues.{Follow, FollowsMove, pairs, leave, leave_along};
ghost use Rattle.kernel_tables.specs.StateOf.{state_of};

use crate::own_moves::are_own;
use crate::staying::is_running;
use crate::tables::Tables;
use entry_log::Actor;
use machine::{Move, Owed, TouchedThreads, touched};
use readings::{is_ready, wanted_holder};
use ready_list::ReadyList;
use ref_words::RefWords;
use script_types::Script;
use sym_base::{Limits, ThreadNo};

/// A thread comes behind the others of its priority, where it is ready and stands in no queue.
fn arrive<W: RefWords + Drop>(
    script: &Script,
    tables: &Tables<W>,
    ready: &mut ReadyList,
    thread: Option<ThreadNo>,
)
    requires known { AreKnown (state_of tables.now) }
    requires size { ready.old.threads ≡ BOOT_OBJECTS }
    ensures size { ready.new.threads ≡ BOOT_OBJECTS }
    ensures queues { Follow (priority_of (state_of tables.now)) (arrive script.now (state_of tables.now) (one_of thread)) ready.old ready.new }
{
    let Some(thread) = thread else {
        return;
    };
    if thread.0 as usize >= Limits::BOOT_OBJECTS {
        return;
    }
    if ready.priority_of(thread).is_some() {
        return;
    }
    if !is_ready(script, tables, thread) {
        return;
    }
    if let Some(row) = tables.procs.thread(thread) {
        ready.add(thread, row.priority);
    }
}

/// Those come that a move touched.
pub fn arrive_touched<W: RefWords + Drop>(
    script: &Script,
    tables: &Tables<W>,
    ready: &mut ReadyList,
    touched: TouchedThreads,
)
    requires known { AreKnown (state_of tables.now) }
    requires size { ready.old.threads ≡ BOOT_OBJECTS }
    ensures size { ready.new.threads ≡ BOOT_OBJECTS }
    ensures queues { Follow (priority_of (state_of tables.now)) (arrive script.now (state_of tables.now) (threads_of touched)) ready.old ready.new }
{
    arrive(script, tables, ready, touched.first);
    arrive(script, tables, ready, touched.second);
}

/// Whether a thread stands in a queue.
pub fn is_queued(ready: &ReadyList, thread: ThreadNo) -> bool
    requires { ready.now.threads ≡ BOOT_OBJECTS }
    ensures there { result ≡ true → IsReady ready.now thread }
    ensures absent { result ≡ false → thread.0 < BOOT_OBJECTS → ¬ IsReady ready.now thread }
{
    (thread.0 as usize) < Limits::BOOT_OBJECTS && ready.priority_of(thread).is_some()
}

/// Takes a thread off the queues, where it stands in one.
fn take_off(ready: &mut ReadyList, thread: ThreadNo)
    requires { ready.old.threads ≡ BOOT_OBJECTS }
    ensures size { ready.new.threads ≡ BOOT_OBJECTS }
    ensures queues { (rank : ObjNo → ℕ) → Follow rank (unlisted thread) ready.old ready.new }
{
    if thread.0 as usize >= Limits::BOOT_OBJECTS {
        return;
    }
    if ready.priority_of(thread).is_some() {
        ready.remove(thread);
    }
}

/// A thread whose priority a move sets leaves, and so comes anew; one whose row is swept leaves.
fn take_out(ready: &mut ReadyList, change: &Move)
    requires { ready.old.threads ≡ BOOT_OBJECTS }
    ensures size { ready.new.threads ≡ BOOT_OBJECTS }
    ensures queues { (rank : ObjNo → ℕ) → Follow rank (taken_out change.now) ready.old ready.new }
{
    match *change {
        Move::SetPriority(thread, _) => take_off(ready, thread),
        Move::Pay(Owed::Sweep(object)) => take_off(ready, object),
        _ => {}
    }
}

/// The queues follow a move: whom it takes out leaves, and then those come that it touched. They stay if the move is the own one of a
/// thread that stands in a queue, as most moves are.
#[inline(always)]
pub fn follow_move<W: RefWords + Drop>(
    script: &Script,
    tables: &Tables<W>,
    ready: &mut ReadyList,
    thread: ThreadNo,
    change: &Move,
    own: bool,
)
    requires known { AreKnown (state_of tables.now) }
    requires size { ready.old.threads ≡ BOOT_OBJECTS }
    requires alone { own ≡ true → IsOwn thread change.now × IsReady ready.old thread }
    ensures size { ready.new.threads ≡ BOOT_OBJECTS }
    ensures stays { own ≡ true → ready.new ≡ ready.old }
    ensures queues { FollowsMove script.now thread change.now (state_of tables.now) ready.old ready.new }
{
    if own {
        return;
    }
    take_out(ready, change);
    arrive_touched(script, tables, ready, touched(thread, change));
}

/// A thread leaves, where a look at what it does next tells that it isn't ready.
#[inline(never)]
fn leave_unready<W: RefWords + Drop>(
    script: &Script,
    tables: &Tables<W>,
    ready: &mut ReadyList,
    thread: ThreadNo,
)
    requires { ready.old.threads ≡ BOOT_OBJECTS }
    ensures size { ready.new.threads ≡ BOOT_OBJECTS }
    ensures queues { (rank : ObjNo → ℕ) → Follow rank (leave script.now (state_of tables.now) (thread ∷ [])) ready.old ready.new }
{
    if !is_ready(script, tables, thread) {
        take_off(ready, thread);
    }
}

/// A thread that isn't ready leaves, if it stands in a queue.
#[inline(always)]
fn leave<W: RefWords + Drop>(
    script: &Script,
    tables: &Tables<W>,
    ready: &mut ReadyList,
    thread: Option<ThreadNo>,
)
    requires { ready.old.threads ≡ BOOT_OBJECTS }
    ensures size { ready.new.threads ≡ BOOT_OBJECTS }
    ensures queues { (rank : ObjNo → ℕ) → Follow rank (leave script.now (state_of tables.now) (one_of thread)) ready.old ready.new }
{
    let Some(thread) = thread else {
        return;
    };
    if is_running(tables, thread) || !is_queued(ready, thread) {
        return;
    }
    leave_unready(script, tables, ready, thread);
}

/// Of those that a move touched, who isn't ready leaves.
fn leave_touched<W: RefWords + Drop>(
    script: &Script,
    tables: &Tables<W>,
    ready: &mut ReadyList,
    touched: TouchedThreads,
)
    requires { ready.old.threads ≡ BOOT_OBJECTS }
    ensures size { ready.new.threads ≡ BOOT_OBJECTS }
    ensures queues { (rank : ObjNo → ℕ) → Follow rank (leave script.now (state_of tables.now) (threads_of touched)) ready.old ready.new }
{
    leave(script, tables, ready, touched.first);
    leave(script, tables, ready, touched.second);
}

/// Of those that the moves of an action touched, who isn't ready leaves.
#[inline(never)]
fn leave_each<W: RefWords + Drop>(
    script: &Script,
    tables: &Tables<W>,
    ready: &mut ReadyList,
    thread: ThreadNo,
    moves: &[Move],
)
    requires { ready.old.threads ≡ BOOT_OBJECTS }
    ensures size { ready.new.threads ≡ BOOT_OBJECTS }
    ensures queues { (rank : ObjNo → ℕ) → Follow rank (leave_along script.now (state_of tables.now) thread moves.now) ready.old ready.new }
{
    for change in moves {
        leave_touched(script, tables, ready, touched(thread, change));
    }
}

/// Of those that the moves of an action touched, who isn't ready leaves: nobody, where they touched the acting thread alone and it runs on.
#[inline(always)]
pub fn leave_along<W: RefWords + Drop>(
    script: &Script,
    tables: &Tables<W>,
    ready: &mut ReadyList,
    thread: ThreadNo,
    moves: &[Move],
)
    requires { ready.old.threads ≡ BOOT_OBJECTS }
    ensures size { ready.new.threads ≡ BOOT_OBJECTS }
    ensures queues { (rank : ObjNo → ℕ) → Follow rank (leave_along script.now (state_of tables.now) thread moves.now) ready.old ready.new }
{
    if is_running(tables, thread) && are_own(thread, moves) {
        return;
    }
    leave_each(script, tables, ready, thread, moves);
}

/// Of those that the moves of an action touched, who isn't ready leaves: nobody, if they are all the acting thread's own and it runs on.
#[inline(always)]
pub fn leave_unless_own<W: RefWords + Drop>(
    script: &Script,
    tables: &Tables<W>,
    ready: &mut ReadyList,
    thread: ThreadNo,
    moves: &[Move],
    own: bool,
)
    requires size { ready.old.threads ≡ BOOT_OBJECTS }
    requires own { own ≡ true → AreOwn thread moves.now }
    ensures size { ready.new.threads ≡ BOOT_OBJECTS }
    ensures queues { (rank : ObjNo → ℕ) → Follow rank (leave_along script.now (state_of tables.now) thread moves.now) ready.old ready.new }
{
    if own && is_running(tables, thread) {
        return;
    }
    leave_each(script, tables, ready, thread, moves);
}

/// Whom the queues let act: the oldest item of the immediate queue, where it has one; else the first thread of the highest
/// queue, or who acts in its place, or nobody.
#[tactic(auto, using(crate::proofs::ReadyChanges::chosen_follows))]
pub fn chosen<W: RefWords + Drop>(tables: &Tables<W>, ready: &ReadyList) -> Actor
    ensures { (qs : List ObjNo) → AreQueuesOf (pairs (priority_of (state_of tables.now)) qs) ready.now → result ≡ chosen (state_of tables.now) qs }
{
    nano::chosen(ready, &tables.nano, tables.deferred.calls())
}

/// Puts the first thread of the highest queue behind its equals, unless it holds a fast mutex.
pub fn turn<W: RefWords + Drop>(tables: &Tables<W>, ready: &mut ReadyList)
    requires { ready.old.threads ≡ BOOT_OBJECTS }
    ensures size { ready.new.threads ≡ BOOT_OBJECTS }
    ensures queues { Follow (priority_of (state_of tables.now)) (after_tick (state_of tables.now)) ready.old ready.new }
{
    nano::tick(ready, &tables.nano);
}
