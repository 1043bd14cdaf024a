//! `flock`, `funlock`, `fswait`, `fssignal`, `enter`, `leave` and `queue`: what the nanokernel has (Symbian OS Internals,
//! the chapters on threads and processes and on interrupts). Fast mutexes don't nest: a thread that wants one that is
//! held stays ready, and the holder runs in its place. Only its own thread waits on a fast semaphore, and signals are kept
//! by count. In a critical section a thread isn't stopped. What a thread does at its list's end that is protected is this
//! project's own rule.
ghost use Rattle.std.specs.Prelude.{◌≡◌, ◌≤◌, length};
ghost use Rattle.script_types.specs.Shape.{IsShaped};
ghost use Rattle.machine.specs.Bodies.{add_call};
ghost use Rattle.machine.specs.CriticalSection.{enter_do, leave_do, give_held, flush};
ghost use Rattle.machine.specs.FastMutex.{flock_do, flock_done, flock_step, funlock_do};
ghost use Rattle.machine.specs.FastSemaphore.{fswait_do, fswait_step, signal_move, signal_thread, signal_found, fssignal_do};
ghost use Rattle.machine.specs.Queueing.{queue_named, queue_do};
ghost use Rattle.state_rows.specs.Nano.{is_holder};

use crate::dooms::{doom_noted, doom_where, noted_of};
use entry_log::{Part, Step, Word};
use machine::{Decision, DeferredMove, Move, Moves, NanoMove, ThreadRow, Waiting};
use readings::Reads;
use script_types::Script;
use state_rows::{Stage, dfc_named};
use step_answers::{
    answer, answer_after, answer_at_once, go_on, nothing, refuse, refuse_holder, wait_for,
};
use sym_base::{Error, Kind, Name, ObjNo, ThreadNo};

/// The step of `fssignal`.
const SIGNAL: Step = Step::Of(Word::Fssignal, Part::Do);

/// The step of `queue`.
const QUEUE: Step = Step::Of(Word::Queue, Part::Do);

/// The fast mutex is taken where it is free. Else the thread wants it from now on.
fn flock_do<R: Reads>(decision: &mut Decision, reads: &R, thread: ThreadNo, fast: u8)
    ensures { decision.new ≡ flock_do (R.state reads.now) thread fast }
{
    let step = Step::Of(Word::Flock, Part::Do);
    if reads.holder(fast).is_none() {
        let take = Move::Nano(NanoMove::Take(thread, fast));
        return answer_after(decision, thread, step, take, 0);
    }
    let want = Move::Nano(NanoMove::Want(thread, Some(fast)));
    go_on(decision, thread, step, want, Part::Done)
}

/// The thread takes what it wants, which is free by now.
fn flock_done(decision: &mut Decision, thread: ThreadNo, want: Option<u8>)
    ensures { decision.new ≡ flock_done thread want }
{
    let Some(fast) = want else {
        return nothing(decision);
    };
    let take = Move::Nano(NanoMove::Take(thread, fast));
    answer_after(decision, thread, Step::Of(Word::Flock, Part::Done), take, 0)
}

/// First the fast mutex is taken or wanted, and what is wanted is taken later. A thread that holds a fast
/// mutex is refused.
pub fn flock_step<R: Reads>(
    decision: &mut Decision,
    reads: &R,
    thread: ThreadNo,
    fast: u8,
    part: Option<Part>,
)
    ensures { decision.new ≡ flock_step (R.state reads.now) thread fast part }
{
    if part.is_some() {
        return flock_done(decision, thread, reads.want(thread));
    }
    if refuse_holder(decision, reads, thread, Step::Of(Word::Flock, Part::Do)) {
        return;
    }
    flock_do(decision, reads, thread, fast)
}

/// Whether a thread holds a fast mutex.
fn is_holder<R: Reads>(reads: &R, thread: ThreadNo, fast: u8) -> bool
    ensures { result ≡ is_holder (R.state reads.now).synchronization.nano thread fast }
{
    match reads.holder(fast) {
        Some(holder) => holder.0 == thread.0,
        None => false,
    }
}

/// The thread gives up a fast mutex that it holds.
pub fn funlock_do<R: Reads>(decision: &mut Decision, reads: &R, thread: ThreadNo, fast: u8)
    ensures { decision.new ≡ funlock_do (R.state reads.now) thread fast }
{
    let step = Step::Of(Word::Funlock, Part::Do);
    if !is_holder(reads, thread, fast) {
        return refuse(decision, thread, step, Error::General);
    }
    decision.moves.clear();
    decision
        .moves
        .push(Move::Nano(NanoMove::Give(thread, fast)));
    let unprotected = reads.critical_count(thread) == 0;
    let noted = noted_of(reads, thread);
    doom_where(&mut decision.moves, unprotected, thread, noted);
    answer(decision, thread, step, 0)
}

/// The thread takes a signal where one is there. Else it waits for one.
fn fswait_do<R: Reads>(decision: &mut Decision, reads: &R, thread: ThreadNo)
    ensures { decision.new ≡ fswait_do (R.state reads.now) thread }
{
    let step = Step::Of(Word::Fswait, Part::Do);
    if reads.signal_count(thread) == 0 {
        return wait_for(decision, thread, step, Waiting::Fast);
    }
    let lower = Move::Nano(NanoMove::Lower(thread));
    answer_after(decision, thread, step, lower, 0)
}

/// First the signal is taken or waited for, and when the wait is over the instruction is too. A thread that
/// holds a fast mutex is refused.
pub fn fswait_step<R: Reads>(
    decision: &mut Decision,
    reads: &R,
    thread: ThreadNo,
    part: Option<Part>,
)
    ensures { decision.new ≡ fswait_step (R.state reads.now) thread part }
{
    if part.is_some() {
        let step = Step::Of(Word::Fswait, Part::Done);
        return answer_at_once(decision, thread, step, 0);
    }
    if refuse_holder(decision, reads, thread, Step::Of(Word::Fswait, Part::Do)) {
        return;
    }
    fswait_do(decision, reads, thread)
}

/// What a signal does to a thread: its wait for one ends, or its count rises.
pub fn signal_move(other: ThreadNo, waiting: Waiting) -> Move
    ensures { result ≡ signal_move other waiting }
{
    match waiting {
        Waiting::Fast => Move::Wake(other),
        _ => Move::Nano(NanoMove::Raise(other)),
    }
}

/// The signal of a thread, which died where it has no row any more.
fn signal_thread(decision: &mut Decision, thread: ThreadNo, other: ThreadNo, row: Option<ThreadRow>)
    ensures { decision.new ≡ signal_thread thread other row }
{
    let Some(row) = row else {
        return refuse(decision, thread, SIGNAL, Error::Died);
    };
    if row.stage != Stage::Live {
        return refuse(decision, thread, SIGNAL, Error::Died);
    }
    let signal = signal_move(other, row.waiting);
    answer_after(decision, thread, SIGNAL, signal, 0)
}

/// The signal of the thread that was found.
fn signal_found<R: Reads>(
    decision: &mut Decision,
    reads: &R,
    thread: ThreadNo,
    found: Option<ObjNo>,
)
    ensures { decision.new ≡ signal_found (R.state reads.now) thread found }
{
    let Some(other) = found else {
        return refuse(decision, thread, SIGNAL, Error::Died);
    };
    signal_thread(decision, thread, other, reads.thread(other).copied())
}

/// The signal of the thread of a name.
pub fn fssignal_do<R: Reads>(decision: &mut Decision, reads: &R, thread: ThreadNo, name: &Name)
    requires { R.is_readable reads.now }
    ensures { decision.new ≡ fssignal_do (R.state reads.now) thread name.now }
{
    signal_found(decision, reads, thread, reads.find(Kind::Thread, name))
}

/// The thread enters a critical section.
pub fn enter_do(decision: &mut Decision, thread: ThreadNo)
    ensures { decision.new ≡ enter_do thread }
{
    let enter = Move::Nano(NanoMove::Enter(thread));
    answer_after(decision, thread, Step::Of(Word::Enter, Part::Do), enter, 0)
}

/// The thread leaves a critical section, where it is in one.
pub fn leave_do<R: Reads>(decision: &mut Decision, reads: &R, thread: ThreadNo)
    ensures { decision.new ≡ leave_do (R.state reads.now) thread }
{
    let step = Step::Of(Word::Leave, Part::Do);
    if reads.critical_count(thread) == 0 {
        return refuse(decision, thread, step, Error::General);
    }
    decision.moves.clear();
    decision.moves.push(Move::Nano(NanoMove::Leave(thread)));
    let unprotected = reads.critical_count(thread) == 1 && !reads.is_holding(thread);
    let noted = noted_of(reads, thread);
    doom_where(&mut decision.moves, unprotected, thread, noted);
    answer(decision, thread, step, 0)
}

/// The thread gives up the fast mutex that it holds, if there is one.
fn give_held(moves: &mut Moves, thread: ThreadNo, held: Option<u8>)
    ensures moves { moves.new ≡ give_held thread held }
    ensures few { length moves.new ≤ 1 }
{
    moves.clear();
    if let Some(fast) = held {
        moves.push(Move::Nano(NanoMove::Give(thread, fast)));
    }
}

/// At its list's end the thread gives up what protects it.
pub fn flush<R: Reads>(decision: &mut Decision, reads: &R, thread: ThreadNo)
    requires { R.is_readable reads.now }
    ensures { decision.new ≡ flush (R.state reads.now) thread }
{
    decision.step = Step::Flush;
    give_held(&mut decision.moves, thread, reads.held(thread));
    decision.moves.push(Move::Nano(NanoMove::LeaveAll(thread)));
    doom_noted(&mut decision.moves, thread, noted_of(reads, thread));
    decision.answer = None;
}

/// A deferred function call joins its own queue.
pub fn add_call<R: Reads>(reads: &R, dfc: usize) -> Move
    ensures { result ≡ add_call (R.state reads.now) dfc }
{
    Move::Deferred(DeferredMove::Add(dfc, reads.queue_of(dfc)))
}

/// The call joins its queue, unless it is queued already.
fn queue_named<R: Reads>(decision: &mut Decision, reads: &R, thread: ThreadNo, dfc: Option<u8>)
    ensures { decision.new ≡ queue_named (R.state reads.now) thread dfc }
{
    let Some(dfc) = dfc else {
        return nothing(decision);
    };
    if reads.is_queued(dfc) {
        return answer_at_once(decision, thread, QUEUE, 0);
    }
    answer_after(decision, thread, QUEUE, add_call(reads, dfc as usize), 1)
}

/// The deferred function call of a name joins its queue.
pub fn queue_do<R: Reads>(
    decision: &mut Decision,
    script: &Script,
    reads: &R,
    thread: ThreadNo,
    name: &Name,
)
    requires { IsShaped script.now }
    ensures { decision.new ≡ queue_do script.now (R.state reads.now) thread name.now }
{
    queue_named(decision, reads, thread, dfc_named(script, name))
}
