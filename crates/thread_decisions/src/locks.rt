//! `lock`, `unlock`, `wait` and `signal`: kernel mutexes, which nest, and kernel semaphores (the chapter on threads and
//! processes). A mutex that is given up goes to a waiter at once, and so does a signal; it counts where nobody waits.
ghost use Rattle.std.specs.Prelude.{◌≡◌, ◌<◌};
ghost use Rattle.machine.specs.MutexCalls.{lock_by, lock_do, lock_step, unlock_by, unlock_do, unlock_step};
ghost use Rattle.machine.specs.SemaphoreCalls.{wait_on, wait_do, wait_step, signal_by, signal_do, signal_step};
ghost use Rattle.state_rows.specs.LockChanges.{lock_answer, unlock_answer, signal_answer};

use entry_log::{Part, Step, Word};
use machine::{Decision, LockMove, Move, ThreadRow};
use readings::Reads;
use state_rows::{Locked, MAX_COUNT, Owner, Signalled, Unlocked};
use step_answers::{
    answer, answer_after, answer_at_once, look_kind, nothing, refuse, refuse_holder, wait_at,
};
use sym_base::{Error, Kind, ObjNo, ThreadNo};

const LOCK: Step = Step::Of(Word::Lock, Part::Do);

const UNLOCK: Step = Step::Of(Word::Unlock, Part::Do);

const WAIT: Step = Step::Of(Word::Wait, Part::Do);

const SIGNAL: Step = Step::Of(Word::Signal, Part::Do);

/// What a lock of a mutex with this owner answers.
fn lock_answer(owner: Option<Owner>, thread: ThreadNo) -> Locked
    ensures { result ≡ lock_answer owner thread }
{
    match owner {
        None => Locked::Taken,
        Some(owner) if owner.thread.0 == thread.0 => Locked::Again,
        Some(_) => Locked::Waits,
    }
}

/// The thread takes the mutex, holds it once more, or waits for it.
fn lock_by(decision: &mut Decision, thread: ThreadNo, object: ObjNo, locked: Locked)
    ensures { decision.new ≡ lock_by thread object locked }
{
    let lock = LockMove::Lock(object, thread, locked);
    match locked {
        Locked::Waits => wait_at(decision, thread, LOCK, object, lock),
        Locked::Taken | Locked::Again => {
            answer_after(decision, thread, LOCK, Move::Locks(lock), 0)
        }
    }
}

/// The second step of `lock`. A server isn't locked.
fn lock_do<R: Reads>(decision: &mut Decision, reads: &R, thread: ThreadNo, uses: Option<ObjNo>)
    ensures { decision.new ≡ lock_do (R.state reads.now) thread uses }
{
    let Some(object) = uses else {
        return nothing(decision);
    };
    if refuse_holder(decision, reads, thread, LOCK) {
        return;
    }
    if reads.server(object).is_some() {
        return nothing(decision);
    }
    let locked = lock_answer(reads.lock_owner(object), thread);
    lock_by(decision, thread, object, locked)
}

/// First the look, then the lock, and after a wait the answer. A thread that holds a fast mutex is refused.
pub fn lock_step<R: Reads>(
    decision: &mut Decision,
    reads: &R,
    thread: ThreadNo,
    row: &ThreadRow,
    register: u8,
)
    requires readable { R.is_readable reads.now }
    requires register { register < 8 }
    ensures { decision.new ≡ lock_step (R.state reads.now) thread row.now register row.now.part }
{
    match row.part {
        None => {
            if refuse_holder(decision, reads, thread, Step::Of(Word::Lock, Part::Look)) {
                return;
            }
            look_kind(
                decision,
                reads,
                thread,
                row,
                Kind::Mutex,
                Word::Lock,
                register,
            )
        }
        Some(Part::Do) => lock_do(decision, reads, thread, row.uses),
        Some(_) => answer_at_once(decision, thread, Step::Of(Word::Lock, Part::Done), 0),
    }
}

/// What a thread's unlock of a mutex with this owner and this best waiter answers.
fn unlock_answer(owner: Option<Owner>, thread: ThreadNo, best: Option<ThreadNo>) -> Unlocked
    ensures { result ≡ unlock_answer owner thread best }
{
    match owner {
        Some(owner) if owner.thread.0 == thread.0 => {
            if owner.level > 1 {
                return Unlocked::Level;
            }
            match best {
                None => Unlocked::Freed,
                Some(waiter) => Unlocked::Passed(waiter),
            }
        }
        _ => Unlocked::NotOwner,
    }
}

/// The thread holds the mutex once less, or gives it up, and a waiter that gets it waits no longer.
fn unlock_by(decision: &mut Decision, thread: ThreadNo, object: ObjNo, unlocked: Unlocked)
    ensures { decision.new ≡ unlock_by thread object unlocked }
{
    let unlock = Move::Locks(LockMove::Unlock(object, thread, unlocked));
    match unlocked {
        Unlocked::NotOwner => refuse(decision, thread, UNLOCK, Error::General),
        Unlocked::Level | Unlocked::Freed => answer_after(decision, thread, UNLOCK, unlock, 0),
        Unlocked::Passed(waiter) => {
            decision.moves.clear();
            decision.moves.push(unlock);
            decision.moves.push(Move::Wake(waiter));
            answer(decision, thread, UNLOCK, 0)
        }
    }
}

/// The second step of `unlock`.
fn unlock_do<R: Reads>(decision: &mut Decision, reads: &R, thread: ThreadNo, uses: Option<ObjNo>)
    requires { R.is_readable reads.now }
    ensures { decision.new ≡ unlock_do (R.state reads.now) thread uses }
{
    let Some(object) = uses else {
        return nothing(decision);
    };
    let best = reads.best_waiter(object);
    let unlocked = unlock_answer(reads.lock_owner(object), thread, best);
    unlock_by(decision, thread, object, unlocked)
}

/// First the look, and then the unlock.
pub fn unlock_step<R: Reads>(
    decision: &mut Decision,
    reads: &R,
    thread: ThreadNo,
    row: &ThreadRow,
    register: u8,
)
    requires readable { R.is_readable reads.now }
    requires register { register < 8 }
    ensures { decision.new ≡ unlock_step (R.state reads.now) thread row.now register row.now.part }
{
    if row.part.is_some() {
        return unlock_do(decision, reads, thread, row.uses);
    }
    look_kind(
        decision,
        reads,
        thread,
        row,
        Kind::Mutex,
        Word::Unlock,
        register,
    )
}

/// The count falls, or the thread waits where it is 0.
fn wait_on(decision: &mut Decision, thread: ThreadNo, object: ObjNo, count: u32)
    ensures { decision.new ≡ wait_on thread object count }
{
    let wait = LockMove::WaitOn(object, thread);
    if count == 0 {
        wait_at(decision, thread, WAIT, object, wait)
    } else {
        answer_after(decision, thread, WAIT, Move::Locks(wait), 0)
    }
}

/// The second step of `wait`.
fn wait_do<R: Reads>(decision: &mut Decision, reads: &R, thread: ThreadNo, uses: Option<ObjNo>)
    ensures { decision.new ≡ wait_do (R.state reads.now) thread uses }
{
    let Some(object) = uses else {
        return nothing(decision);
    };
    if refuse_holder(decision, reads, thread, WAIT) {
        return;
    }
    wait_on(decision, thread, object, reads.lock_count(object))
}

/// First the look, then the wait, and once a signal came the answer. A thread that holds a fast mutex is refused.
pub fn wait_step<R: Reads>(
    decision: &mut Decision,
    reads: &R,
    thread: ThreadNo,
    row: &ThreadRow,
    register: u8,
)
    requires readable { R.is_readable reads.now }
    requires register { register < 8 }
    ensures { decision.new ≡ wait_step (R.state reads.now) thread row.now register row.now.part }
{
    match row.part {
        None => {
            if refuse_holder(decision, reads, thread, Step::Of(Word::Wait, Part::Look)) {
                return;
            }
            look_kind(
                decision,
                reads,
                thread,
                row,
                Kind::Semaphore,
                Word::Wait,
                register,
            )
        }
        Some(Part::Do) => wait_do(decision, reads, thread, row.uses),
        Some(_) => answer_at_once(decision, thread, Step::Of(Word::Wait, Part::Done), 0),
    }
}

/// What a signal of a semaphore with this best waiter and this count answers.
fn signal_answer(best: Option<ThreadNo>, count: u32) -> Signalled
    ensures { result ≡ signal_answer best count }
{
    match best {
        Some(waiter) => Signalled::Woke(waiter),
        None if count < MAX_COUNT => Signalled::Counted,
        None => Signalled::Overflow,
    }
}

/// A waiter goes on, or the count rises.
fn signal_by(decision: &mut Decision, thread: ThreadNo, object: ObjNo, signalled: Signalled)
    ensures { decision.new ≡ signal_by thread object signalled }
{
    let signal = Move::Locks(LockMove::Signal(object, signalled));
    match signalled {
        Signalled::Overflow => refuse(decision, thread, SIGNAL, Error::Overflow),
        Signalled::Counted => answer_after(decision, thread, SIGNAL, signal, 0),
        Signalled::Woke(waiter) => {
            decision.moves.clear();
            decision.moves.push(signal);
            decision.moves.push(Move::Wake(waiter));
            answer(decision, thread, SIGNAL, 0)
        }
    }
}

/// The second step of `signal`.
fn signal_do<R: Reads>(decision: &mut Decision, reads: &R, thread: ThreadNo, uses: Option<ObjNo>)
    requires { R.is_readable reads.now }
    ensures { decision.new ≡ signal_do (R.state reads.now) thread uses }
{
    let Some(object) = uses else {
        return nothing(decision);
    };
    let signalled = signal_answer(reads.best_waiter(object), reads.lock_count(object));
    signal_by(decision, thread, object, signalled)
}

/// First the look, and then the signal.
pub fn signal_step<R: Reads>(
    decision: &mut Decision,
    reads: &R,
    thread: ThreadNo,
    row: &ThreadRow,
    register: u8,
)
    requires readable { R.is_readable reads.now }
    requires register { register < 8 }
    ensures { decision.new ≡ signal_step (R.state reads.now) thread row.now register row.now.part }
{
    if row.part.is_some() {
        return signal_do(decision, reads, thread, row.uses);
    }
    look_kind(
        decision,
        reads,
        thread,
        row,
        Kind::Semaphore,
        Word::Signal,
        register,
    )
}
