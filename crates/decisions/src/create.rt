//! `create`: a new object and a handle of it.
ghost use Rattle.std.specs.Prelude.{◌≡◌, ◌<◌, ◌++◌, length, IfSome};
ghost use Rattle.machine.specs.Create.{start_moves, make_with_handle, create_do, create_mutex_do, create_semaphore_do};

use entry_log::{Part, Step, Word};
use machine::{Decision, LockMove, Move, NewHandle, ThreadRow};
use readings::Reads;
use step_answers::{answer_handle, refuse};
use sym_base::{Error, Kind, Name, ThreadNo};

const STEP: Step = Step::Of(Word::Create, Part::Do);

/// What follows the making of an object: nothing, or a semaphore's start.
fn push_start(decision: &mut Decision, start: Option<LockMove>)
    requires { length decision.old.moves < 8 }
    ensures { decision.new ≡ record decision.old { moves = decision.old.moves ++ start_moves start } }
{
    if let Some(start) = start {
        decision.moves.push(Move::Locks(start));
    }
}

/// The object is made with its handle, where a slot is free.
fn make_with_handle(
    decision: &mut Decision,
    thread: ThreadNo,
    kind: Kind,
    name: &Name,
    start: Option<LockMove>,
    register: u8,
    next: Option<NewHandle>,
)
    requires { IfSome next (λ handle. handle.number < 2147483648) }
    ensures { decision.new ≡ make_with_handle thread kind name.now start register next }
{
    let Some(handle) = next else {
        return refuse(decision, thread, STEP, Error::Overflow);
    };
    decision.moves.clear();
    decision.moves.push(Move::Make(kind, *name, handle.holder));
    push_start(decision, start);
    answer_handle(decision, thread, STEP, register, handle.number)
}

/// A new object and a handle of it, where the name is free and there is room for both.
fn create_do<R: Reads>(
    decision: &mut Decision,
    reads: &R,
    thread: ThreadNo,
    row: &ThreadRow,
    kind: Kind,
    name: &Name,
    start: Option<LockMove>,
    register: u8,
)
    requires { R.is_readable reads.now }
    ensures { decision.new ≡ create_do (R.state reads.now) thread row.now kind name.now start register }
{
    if reads.is_taken(kind, name) {
        return refuse(decision, thread, STEP, Error::AlreadyExists);
    }
    if reads.no_number_left() {
        return refuse(decision, thread, STEP, Error::Overflow);
    }
    let handle = reads.process_handle(row.process);
    make_with_handle(decision, thread, kind, name, start, register, handle)
}

/// A new mutex.
pub fn create_mutex_do<R: Reads>(
    decision: &mut Decision,
    reads: &R,
    thread: ThreadNo,
    row: &ThreadRow,
    name: &Name,
    register: u8,
)
    requires { R.is_readable reads.now }
    ensures { decision.new ≡ create_mutex_do (R.state reads.now) thread row.now name.now register }
{
    create_do(
        decision,
        reads,
        thread,
        row,
        Kind::Mutex,
        name,
        None,
        register,
    )
}

/// A new semaphore, which starts with a count.
pub fn create_semaphore_do<R: Reads>(
    decision: &mut Decision,
    reads: &R,
    thread: ThreadNo,
    row: &ThreadRow,
    name: &Name,
    count: u32,
    register: u8,
)
    requires { R.is_readable reads.now }
    ensures { decision.new ≡ create_semaphore_do (R.state reads.now) thread row.now name.now count register }
{
    let start = Some(LockMove::Start(reads.next_object(), count));
    create_do(
        decision,
        reads,
        thread,
        row,
        Kind::Semaphore,
        name,
        start,
        register,
    )
}
