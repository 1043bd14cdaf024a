//! `suspend`, `resume` and `priority`: calls on a thread, by a handle of it. That a thread is suspended at most
//! 127 times, and nobody calls on the supervisor, are this project's own rules.
ghost use Rattle.std.specs.Prelude.{◌≡◌, ◌<◌, Some};
ghost use Rattle.machine.specs.ThreadCalls.{refusal_of_role, refusal_of, suspend_move, resume_move, move_or_refuse, unless_refused, call_on, suspend_step, resume_step, priority_step};
ghost use Rattle.machine.specs.declared.moves.Move.TheVariants.{SetPriority};
ghost use Rattle.sym_base.specs.declared.error.Error.TheVariants as error;
ghost use Rattle.sym_base.specs.declared.word.Word.TheVariants as word;

use entry_log::{Part, Step, Word};
use machine::{Decision, Move, NanoMove, Role, ThreadRow};
use readings::Reads;
use state_rows::Stage;
use step_answers::{answer_after, look_kind, nothing, refuse};
use sym_base::{Error, Kind, ObjNo, ThreadNo};

/// The greatest suspend count.
const MAX_SUSPENSIONS: u8 = 127;

/// Why a call on a thread of this role is refused: nobody may call on the supervisor and the thread of a queue.
fn refusal_of_role(role: Role) -> Option<Error>
    ensures { result ≡ refusal_of_role role }
{
    match role {
        Role::Supervisor | Role::Queue(_) => Some(Error::PermissionDenied),
        Role::Declared(_) => None,
    }
}

/// Why a call on a thread is refused, None where it isn't. A thread without a row died.
pub fn refusal_of(row: Option<ThreadRow>) -> Option<Error>
    ensures { result ≡ refusal_of row }
{
    let Some(row) = row else {
        return Some(Error::Died);
    };
    match refusal_of_role(row.role) {
        Some(refusal) => Some(refusal),
        None if row.stage == Stage::Live => None,
        None => Some(Error::Died),
    }
}

/// One suspension more, None where there are as many as there may be.
fn suspend_move<R: Reads>(reads: &R, other: ThreadNo) -> Option<Move>
    ensures { result ≡ suspend_move (R.state reads.now) other }
{
    if reads.suspend_count(other) == MAX_SUSPENSIONS {
        return None;
    }
    Some(Move::Nano(NanoMove::Suspend(other)))
}

/// One suspension less, None where there is none.
fn resume_move<R: Reads>(reads: &R, other: ThreadNo) -> Option<Move>
    ensures { result ≡ resume_move (R.state reads.now) other }
{
    if reads.suspend_count(other) == 0 {
        return None;
    }
    Some(Move::Nano(NanoMove::Resume(other)))
}

/// The call's move, or an error where there is none.
fn move_or_refuse(
    decision: &mut Decision,
    thread: ThreadNo,
    word: Word,
    error: Error,
    change: Option<Move>,
)
    ensures { decision.new ≡ move_or_refuse thread word error change }
{
    let step = Step::Of(word, Part::Do);
    match change {
        Some(change) => answer_after(decision, thread, step, change, 0),
        None => refuse(decision, thread, step, error),
    }
}

/// A call on a thread: a refusal comes before the call's own error.
fn unless_refused(
    decision: &mut Decision,
    thread: ThreadNo,
    word: Word,
    refusal: Option<Error>,
    error: Error,
    change: Option<Move>,
)
    ensures { decision.new ≡ unless_refused thread word refusal error change }
{
    match refusal {
        Some(refusal) => refuse(decision, thread, Step::Of(word, Part::Do), refusal),
        None => move_or_refuse(decision, thread, word, error, change),
    }
}

/// The second step of `suspend`, on the thread that is used.
fn suspend_do<R: Reads>(decision: &mut Decision, reads: &R, thread: ThreadNo, uses: Option<ObjNo>)
    ensures { decision.new ≡ call_on (R.state reads.now) thread word.Suspend error.Overflow (suspend_move (R.state reads.now)) uses }
{
    let Some(other) = uses else {
        return nothing(decision);
    };
    let refusal = refusal_of(reads.thread(other).copied());
    let change = suspend_move(reads, other);
    unless_refused(
        decision,
        thread,
        Word::Suspend,
        refusal,
        Error::Overflow,
        change,
    )
}

/// The second step of `resume`.
fn resume_do<R: Reads>(decision: &mut Decision, reads: &R, thread: ThreadNo, uses: Option<ObjNo>)
    ensures { decision.new ≡ call_on (R.state reads.now) thread word.Resume error.General (resume_move (R.state reads.now)) uses }
{
    let Some(other) = uses else {
        return nothing(decision);
    };
    let refusal = refusal_of(reads.thread(other).copied());
    let change = resume_move(reads, other);
    unless_refused(
        decision,
        thread,
        Word::Resume,
        refusal,
        Error::General,
        change,
    )
}

/// The second step of `priority`.
fn priority_do<R: Reads>(
    decision: &mut Decision,
    reads: &R,
    thread: ThreadNo,
    priority: u8,
    uses: Option<ObjNo>,
)
    ensures { decision.new ≡ call_on (R.state reads.now) thread word.Priority error.General (λ u. Some (SetPriority u priority)) uses }
{
    let Some(other) = uses else {
        return nothing(decision);
    };
    let refusal = refusal_of(reads.thread(other).copied());
    let change = Some(Move::SetPriority(other, priority));
    unless_refused(
        decision,
        thread,
        Word::Priority,
        refusal,
        Error::General,
        change,
    )
}

/// A look at a handle of a thread, and one suspension more of it.
pub fn suspend_step<R: Reads>(
    decision: &mut Decision,
    reads: &R,
    thread: ThreadNo,
    row: &ThreadRow,
    register: u8,
)
    requires readable { R.is_readable reads.now }
    requires register { register < 8 }
    ensures { decision.new ≡ suspend_step (R.state reads.now) thread row.now register row.now.part }
{
    match row.part {
        None => look_kind(
            decision,
            reads,
            thread,
            row,
            Kind::Thread,
            Word::Suspend,
            register,
        ),
        Some(_) => suspend_do(decision, reads, thread, row.uses),
    }
}

/// A look at a handle of a thread, and one suspension less of it.
pub fn resume_step<R: Reads>(
    decision: &mut Decision,
    reads: &R,
    thread: ThreadNo,
    row: &ThreadRow,
    register: u8,
)
    requires readable { R.is_readable reads.now }
    requires register { register < 8 }
    ensures { decision.new ≡ resume_step (R.state reads.now) thread row.now register row.now.part }
{
    match row.part {
        None => look_kind(
            decision,
            reads,
            thread,
            row,
            Kind::Thread,
            Word::Resume,
            register,
        ),
        Some(_) => resume_do(decision, reads, thread, row.uses),
    }
}

/// A look at a handle of a thread, and another priority of it.
pub fn priority_step<R: Reads>(
    decision: &mut Decision,
    reads: &R,
    thread: ThreadNo,
    row: &ThreadRow,
    register: u8,
    priority: u8,
)
    requires readable { R.is_readable reads.now }
    requires register { register < 8 }
    ensures { decision.new ≡ priority_step (R.state reads.now) thread row.now register priority row.now.part }
{
    match row.part {
        None => look_kind(
            decision,
            reads,
            thread,
            row,
            Kind::Thread,
            Word::Priority,
            register,
        ),
        Some(_) => priority_do(decision, reads, thread, priority, row.uses),
    }
}
