//! How a doomed thread gives up what it has, one thing an action, and is cleaned and buried at last; and how a live thread gives up
//! what it has of its closing servers. The order is this project's own.
ghost use Rattle.std.specs.Prelude.{◌≡◌, ◌++◌, [], ◌∷◌, Some, None, slice_get};
ghost use Rattle.entry_log.specs.declared.effect.Holder.TheVariants.{InThread};
ghost use Rattle.entry_log.specs.declared.step.Step.TheVariants as step;
ghost use Rattle.machine.specs.declared.moves.Move.TheVariants as move;
ghost use Rattle.machine.specs.Closing.{close_moves};
ghost use Rattle.machine.specs.Holdings.{held_handles, holdings, process_handles};
ghost use Rattle.machine.specs.Reaping.{free_mutex, tell_logon, finish_message, stop, give_up, clean, bury};
ghost use Rattle.machine.specs.Rows.{table_of, thread_of};
ghost use Rattle.machine.specs.Steps.{decision_of_row, decision_of_task};
ghost use Rattle.machine.specs.Task.{dying_task};
ghost use Rattle.next_actions.specs.NextActions.{IsDoomed, dying_at, has_any, holdings_at};

use decisions::{add_call, close_moves, finish, is_woken, nothing, reason_of};
use entry_log::{Holder, Step};
use machine::{
    DeathMove, Decision, DeferredMove, Holding, LockMove, LogonMove, Move, RequestMove, ServerMove,
    ThreadRow,
};
use readings::{Reads, burial_of};
use script_types::Script;
use state_rows::{Message, Stage};
use sym_base::{Error, ObjNo, ThreadNo};

/// The first handle of a thread's own table.
#[tactic(auto, using(crate::proofs::First::handles_first))]
fn own_handle<R: Reads>(reads: &R, thread: ThreadNo) -> Option<Holding>
    requires { R.is_readable reads.now }
    ensures { result ≡ slice_get (held_handles (InThread thread) 0 (table_of (R.state reads.now) thread)) 0 }
{
    let (index, object) = reads.first_handle(thread)?;
    Some(Holding::Handle(Holder::InThread(thread, index), object))
}

/// The first handle of the table of a thread's process, where the thread is the only one of it that isn't cleaned yet.
#[tactic(auto, using(crate::proofs::First::handles_first, machine::proofs::DoomedHandles::doomed_handles))]
fn process_handle<R: Reads>(reads: &R, thread: ThreadNo, row: &ThreadRow) -> Option<Holding>
    requires readable { R.is_readable reads.now }
    requires row { thread_of (R.state reads.now) thread ≡ Some row.now }
    requires doomed { row.now.stage ≡ Stage.Doomed }
    ensures { result ≡ slice_get (process_handles (R.state reads.now) thread row.now.process) 0 }
{
    let process = row.process;
    if !reads.has_one_left(process) {
        return None;
    }
    let (index, object) = reads.first_handle(process)?;
    Some(Holding::Handle(Holder::InProcess(process, index), object))
}

/// The first handle that the doomed thread of a row gives up: of its own table, and then of its process's.
#[tactic(auto, using(crate::proofs::First::first_here_of, crate::proofs::First::first_behind))]
fn first_handle<R: Reads>(reads: &R, thread: ThreadNo, row: &ThreadRow) -> Option<Holding>
    requires readable { R.is_readable reads.now }
    requires row { thread_of (R.state reads.now) thread ≡ Some row.now }
    requires doomed { row.now.stage ≡ Stage.Doomed }
    ensures { let S = R.state reads.now in result ≡ slice_get (held_handles (InThread thread) 0 (table_of S thread) ++ process_handles S thread row.now.process) 0 }
{
    match own_handle(reads, thread) {
        Some(handle) => Some(handle),
        None => process_handle(reads, thread, row),
    }
}

/// The first of what the doomed thread of a row still has.
#[tactic(auto, using(crate::proofs::First::of_mutex, crate::proofs::First::of_work, crate::proofs::First::of_use, crate::proofs::First::of_handle, crate::proofs::First::of_logon, crate::proofs::First::of_none))]
fn first_holding<R: Reads>(reads: &R, thread: ThreadNo, row: &ThreadRow) -> Option<Holding>
    requires readable { R.is_readable reads.now }
    requires row { thread_of (R.state reads.now) thread ≡ Some row.now }
    requires doomed { row.now.stage ≡ Stage.Doomed }
    ensures { result ≡ slice_get (holdings (R.state reads.now) thread row.now) 0 }
{
    if let Some(mutex) = reads.first_mutex(thread) {
        return Some(Holding::Mutex(mutex));
    }
    if let Some(work) = reads.first_work(thread) {
        return Some(work);
    }
    if let Some(object) = row.uses {
        return Some(Holding::Use(object));
    }
    if let Some(handle) = first_handle(reads, thread, row) {
        return Some(handle);
    }
    let (by, status) = reads.first_logon(thread)?;
    Some(Holding::Logon(by, status))
}

/// A mutex goes, with all its levels at once, and the waiter that gets it waits no longer.
fn free_mutex(decision: &mut Decision, thread: ThreadNo, mutex: ObjNo, best: Option<ThreadNo>)
    ensures { decision.new ≡ free_mutex thread mutex best }
{
    decision.step = Step::Free;
    decision.moves.clear();
    decision
        .moves
        .push(Move::Locks(LockMove::Free(mutex, thread, best)));
    if let Some(waiter) = best {
        decision.moves.push(Move::Wake(waiter));
    }
    decision.answer = None;
}

/// A reference goes.
fn lose(decision: &mut Decision, step: Step, holder: Holder, object: ObjNo)
    ensures { decision.new ≡ record { step = step; moves = move.Lose holder object ∷ []; answer = None } }
{
    decision.step = step;
    decision.moves.clear();
    decision.moves.push(Move::Lose(holder, object));
    decision.answer = None;
}

/// A logon goes, and its status is completed with the reason of the exit.
fn tell_logon<R: Reads>(
    decision: &mut Decision,
    reads: &R,
    thread: ThreadNo,
    row: &ThreadRow,
    other: ThreadNo,
    status: u8,
)
    ensures { decision.new ≡ tell_logon (R.state reads.now) thread row.now other status }
{
    decision.step = Step::Tell;
    decision.moves.clear();
    let remove = LogonMove::Remove(thread, other, status);
    decision.moves.push(Move::Logons(remove));
    let signal = RequestMove::Signal(other, status, reason_of(row.exit));
    decision.moves.push(Move::Requests(signal));
    if is_woken(reads, other, status, reads.thread(other).copied()) {
        decision.moves.push(Move::Wake(other));
    }
    decision.answer = None;
}

/// A message of a closing server is finished, where it is outstanding.
fn finish_message<R: Reads>(decision: &mut Decision, reads: &R, found: Option<Message>)
    ensures { decision.new ≡ finish_message (R.state reads.now) found }
{
    let Some(message) = found else {
        return nothing(decision);
    };
    decision.step = Step::Finish;
    decision.moves.clear();
    let code = Error::ServerTerminated.code();
    finish(&mut decision.moves, reads, &message, code);
    decision.answer = None;
}

/// A closing server ends, of which nothing else is left.
fn stop(decision: &mut Decision, thread: ThreadNo, server: ObjNo)
    ensures { decision.new ≡ stop thread server }
{
    decision.step = Step::Stop;
    decision.moves.clear();
    decision.moves.push(Move::Servers(ServerMove::End(server)));
    decision.moves.push(Move::Lose(Holder::Own(thread), server));
    decision.answer = None;
}

/// A handle is closed.
fn shut<R: Reads>(
    decision: &mut Decision,
    reads: &R,
    thread: ThreadNo,
    holder: Holder,
    object: ObjNo,
)
    ensures { decision.new ≡ record { step = step.Shut; moves = close_moves (R.state reads.now) thread holder object; answer = None } }
{
    decision.step = Step::Shut;
    decision.moves.clear();
    close_moves(&mut decision.moves, reads, thread, holder, object);
    decision.answer = None;
}

/// One thing goes that the thread of a row has.
pub fn give_up<R: Reads>(
    decision: &mut Decision,
    reads: &R,
    thread: ThreadNo,
    row: &ThreadRow,
    what: Holding,
)
    requires { R.is_readable reads.now }
    ensures { decision.new ≡ give_up (R.state reads.now) thread row.now what }
{
    match what {
        Holding::Mutex(mutex) => {
            free_mutex(decision, thread, mutex, reads.best_waiter(mutex));
        }
        Holding::Message(number) => finish_message(decision, reads, reads.message(number)),
        Holding::Link(session, server) => {
            lose(decision, Step::Detach, Holder::Link(session), server);
        }
        Holding::Server(server) => stop(decision, thread, server),
        Holding::Use(object) => lose(decision, Step::Drop, Holder::Temp(thread), object),
        Holding::Handle(holder, object) => shut(decision, reads, thread, holder, object),
        Holding::Logon(other, status) => {
            tell_logon(decision, reads, thread, row, other, status);
        }
    }
}

/// Nothing is left: the thread of a row is cleaned, and its burial joins the supervisor's queue.
fn clean<R: Reads>(
    decision: &mut Decision,
    script: &Script,
    reads: &R,
    thread: ThreadNo,
    row: &ThreadRow,
)
    ensures { decision.new ≡ clean script.now (R.state reads.now) thread row.now }
{
    decision.step = Step::Clean;
    decision.moves.clear();
    decision.moves.push(Move::Death(DeathMove::Clean(thread)));
    let burial = burial_of(script, row.role);
    decision.moves.push(add_call(reads, burial));
    decision.answer = None;
}

/// What the doomed thread of a row does that owes nothing: it gives up the first of what it has, and at last it is cleaned.
/// Whether it gave something up.
#[tactic(auto, using(crate::proofs::First::dying_first, crate::proofs::First::dying_last, crate::proofs::First::some_first, crate::proofs::First::none_first))]
fn reap_row<R: Reads>(
    decision: &mut Decision,
    script: &Script,
    reads: &R,
    thread: ThreadNo,
    row: &ThreadRow,
) -> bool
    requires readable { R.is_readable reads.now }
    requires row { thread_of (R.state reads.now) thread ≡ Some row.now }
    requires doomed { row.now.stage ≡ Stage.Doomed }
    ensures decided { let S = R.state reads.now in decision.new ≡ decision_of_task script.now S thread row.now (dying_task (holdings S thread row.now)) }
    ensures given { result ≡ has_any (holdings (R.state reads.now) thread row.now) }
{
    match first_holding(reads, thread, row) {
        Some(what) => {
            give_up(decision, reads, thread, row, what);
            true
        }
        None => {
            clean(decision, script, reads, thread, row);
            false
        }
    }
}

/// What a doomed thread does that owes nothing: it gives up the first of what it has, and at last it is cleaned. Whether it
/// gave something up.
pub fn reap<R: Reads>(decision: &mut Decision, script: &Script, reads: &R, thread: ThreadNo) -> bool
    requires readable { R.is_readable reads.now }
    requires doomed { IsDoomed (thread_of (R.state reads.now) thread) }
    ensures decided { let S = R.state reads.now in decision.new ≡ decision_of_row script.now S thread (thread_of S thread) (dying_at S thread (thread_of S thread)) }
    ensures given { let S = R.state reads.now in result ≡ has_any (holdings_at S thread (thread_of S thread)) }
{
    match reads.thread(thread) {
        Some(row) => reap_row(decision, script, reads, thread, row),
        None => {
            nothing(decision);
            false
        }
    }
}

/// The call leaves its queue, and the thread is buried whose burial it is.
pub fn bury<R: Reads>(decision: &mut Decision, script: &Script, reads: &R, dfc: usize)
    requires { R.is_readable reads.now }
    ensures { decision.new ≡ bury script.now (R.state reads.now) dfc }
{
    decision.step = Step::Bury;
    decision.moves.clear();
    let take = DeferredMove::Take(reads.queue_of(dfc));
    decision.moves.push(Move::Deferred(take));
    if let Some(thread) = reads.buried_by(script, dfc) {
        decision.moves.push(Move::Death(DeathMove::Bury(thread)));
    }
    decision.answer = None;
}
