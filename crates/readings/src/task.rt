//! What a thread does next.
ghost use Rattle.std.specs.Prelude.{◌≡◌, List, Some, is_some, option_copied};
ghost use Rattle.machine.specs.declared.holding.Holding.{Holding};
ghost use Rattle.machine.specs.declared.task.Task.{Task};
ghost use Rattle.machine.specs.Rows.{first_owed, thread_of};
ghost use Rattle.machine.specs.Task.{instruction, served_queue, next_call, task_of_row, by_stage, live_task, is_wait, is_waiting_row, is_stopped, is_ready, is_unspent, is_able, may_act, declared_of};
ghost use Rattle.machine.specs.Out.{is_out};
ghost use Rattle.state_rows.specs.Nano.{is_protected, wanted_holder};

use crate::Reads;
use machine::{Role, ThreadRow, Waiting, is_returning};
use script_types::{Instr, Script, ThreadDecl};
use state_rows::Stage;
use sym_base::ThreadNo;

/// The declaration of a thread: the supervisor and the thread of a queue have none.
fn declared_of(script: &Script, role: Role) -> Option<&ThreadDecl>
    ensures { option_copied result ≡ declared_of script.now role }
{
    match role {
        Role::Declared(number) => script.threads.as_slice().get(number as usize),
        Role::Supervisor | Role::Queue(_) => None,
    }
}

/// The instruction that a thread is at, None at its list's end.
pub fn instruction<'a>(script: &'a Script, row: &ThreadRow) -> Option<&'a Instr>
    ensures { option_copied result ≡ instruction script.now row.now }
{
    let declared = declared_of(script, row.role)?;
    let at = row.next_instruction as usize;
    declared.instrs.as_slice().get(at)
}

/// The queue of deferred function calls that a thread of this role serves.
fn served_queue(role: Role) -> Option<u8>
    ensures { result ≡ served_queue role }
{
    match role {
        Role::Supervisor => Some(0),
        Role::Queue(queue) => Some(queue),
        Role::Declared(_) => None,
    }
}

/// The call that comes next of the queue that a thread of this role serves.
pub fn next_call<R: Reads>(reads: &R, role: Role) -> Option<usize>
    ensures { result ≡ next_call (R.state reads.now).synchronization.deferred role }
{
    let queue = served_queue(role)?;
    reads.next_call(queue)
}

/// Whether a thread of this role serves a queue of deferred function calls.
pub fn serves_queue(role: Role) -> bool
    ensures { result ≡ is_some (served_queue role) }
{
    served_queue(role).is_some()
}

/// Whether the thread of this row is in the middle of its life, or of its death, with something to do there: who serves a queue has a
/// call of it, and any other thread has at least its end to come.
#[tactic(auto, using(crate::proofs::Active::live_some))]
fn is_active<R: Reads>(reads: &R, row: &ThreadRow) -> bool
    ensures { (has : List Holding) (own : Task) → result ≡ is_some (by_stage row.now.stage has (live_task row.now.role (next_call (R.state reads.now).synchronization.deferred row.now.role) own)) }
{
    match row.stage {
        Stage::Live => !serves_queue(row.role) || next_call(reads, row.role).is_some(),
        Stage::Doomed => true,
        Stage::Cleaned | Stage::Buried => false,
    }
}

/// Whether the thread of this row has something to do: its return, something that it owes, or what its stage leaves to do.
#[tactic(auto, using(crate::proofs::Active::task_some))]
fn has_task<R: Reads>(script: &Script, reads: &R, thread: ThreadNo, row: &ThreadRow) -> bool
    ensures { let S = R.state reads.now in result ≡ is_some (task_of_row script.now S thread (Some row.now)) }
{
    is_active(reads, row)
        || reads.first_owed(thread).is_some()
        || is_returning(row.part) && instruction(script, row).is_some()
}

/// Whether a thread waits for something.
fn is_wait(waiting: Waiting) -> bool
    ensures { result ≡ is_wait waiting }
{
    match waiting {
        Waiting::Nothing => false,
        Waiting::Lock(_)
        | Waiting::Fast
        | Waiting::Any
        | Waiting::Status(_)
        | Waiting::Reply
        | Waiting::Receive(_) => true,
    }
}

/// Whether the thread of this row waits, or is out where callers share the kernel.
fn is_waiting_row(shared: bool, row: &ThreadRow) -> bool
    ensures { result ≡ is_waiting_row shared (Some row.now) }
{
    is_wait(row.waiting) || shared && is_returning(row.part)
}

/// Whether the thread of this row is stopped: it is live and suspended, and nothing protects it from that.
fn is_stopped<R: Reads>(reads: &R, thread: ThreadNo, row: &ThreadRow) -> bool
    requires { thread_of (R.state reads.now) thread ≡ Some row.now }
    ensures { result ≡ is_stopped (R.state reads.now) thread }
{
    reads.suspend_count(thread) != 0 && row.stage == Stage::Live && !reads.is_protected(thread)
}

/// Whether a thread is live or doomed: a cleaned or a buried one does nothing any more.
fn is_unspent(stage: Stage) -> bool
    ensures { result ≡ is_unspent stage }
{
    match stage {
        Stage::Live | Stage::Doomed => true,
        Stage::Cleaned | Stage::Buried => false,
    }
}

/// A thread is ready if it is live or doomed, doesn't wait, isn't stopped, and has something to do.
pub fn is_ready<R: Reads>(script: &Script, reads: &R, thread: ThreadNo) -> bool
    ensures { result ≡ is_ready script.now (R.state reads.now) thread }
{
    let Some(row) = reads.thread(thread) else {
        return false;
    };
    if !is_unspent(row.stage) {
        return false;
    }
    if is_waiting_row(reads.is_shared(), row) || is_stopped(reads, thread, row) {
        return false;
    }
    has_task(script, reads, thread, row)
}

/// The thread that holds the fast mutex that a thread wants, if there is one.
pub fn wanted_holder<R: Reads>(reads: &R, thread: ThreadNo) -> Option<ThreadNo>
    ensures { result ≡ wanted_holder (R.state reads.now).synchronization.nano thread }
{
    let fast = reads.want(thread)?;
    reads.holder(fast)
}

/// A thread is able to act where it is ready and doesn't want a fast mutex that is held.
pub fn is_able<R: Reads>(script: &Script, reads: &R, thread: ThreadNo) -> bool
    ensures { result ≡ is_able script.now (R.state reads.now) thread }
{
    is_ready(script, reads, thread) && wanted_holder(reads, thread).is_none()
}

/// Whether a thread is out.
fn is_out<R: Reads>(reads: &R, thread: ThreadNo) -> bool
    ensures { result ≡ is_out (R.state reads.now) thread }
{
    match reads.thread(thread) {
        Some(row) => reads.is_shared() && is_returning(row.part),
        None => false,
    }
}

/// A thread may act where it is able, and where it is out.
pub fn may_act<R: Reads>(script: &Script, reads: &R, thread: ThreadNo) -> bool
    ensures { result ≡ may_act script.now (R.state reads.now) thread }
{
    is_able(script, reads, thread) || is_out(reads, thread)
}
