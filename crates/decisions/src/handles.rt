//! `open`: an object is found by its kind and name, opened, and gets a handle. `dup` and `duplocal`: a look at a handle,
//! and a second handle of its object. `close`: a handle goes, and with it a reference; a server begins to close, and a
//! session is disconnected.
ghost use Rattle.std.specs.Prelude.{◌≡◌, ◌<◌, IfSome};
ghost use Rattle.machine.specs.Close.{close_handle, close_do};
ghost use Rattle.machine.specs.Dup.{kind_stays, stays_with_thread, dup_do, dup_step, duplocal_step};
ghost use Rattle.machine.specs.Open.{open_do, open_step, open_return};
ghost use Rattle.state_rows.specs.HandleNumbers.{index_of};

use entry_log::{Part, Step, Word};
use machine::{Decision, NewHandle, ThreadRow, holder_of};
use readings::Reads;
use server_decisions::close_moves;
use state_rows::ObjectRow;
use step_answers::{
    answer, give_handle, look, nothing, object_at, refuse, refuse_holder, return_to, seek,
};
use sym_base::{Error, Kind, Name, ObjNo, ThreadNo};

const OPEN: Step = Step::Of(Word::Open, Part::Do);

const CLOSE: Step = Step::Of(Word::Close, Part::Do);

/// The third step: a handle of what the thread uses.
fn open_do<R: Reads>(
    decision: &mut Decision,
    reads: &R,
    thread: ThreadNo,
    row: &ThreadRow,
    register: u8,
    uses: Option<ObjNo>,
)
    requires { R.is_readable reads.now }
    ensures { decision.new ≡ open_do (R.state reads.now) thread row.now register uses }
{
    let Some(object) = uses else {
        return nothing(decision);
    };
    let handle = reads.process_handle(row.process);
    give_handle(decision, thread, OPEN, object, register, handle)
}

/// First the find, and after the return a handle. A thread that holds a fast mutex is refused.
pub fn open_step<R: Reads>(
    decision: &mut Decision,
    reads: &R,
    thread: ThreadNo,
    row: &ThreadRow,
    kind: Kind,
    name: &Name,
    register: u8,
)
    requires { R.is_readable reads.now }
    ensures { decision.new ≡ open_step (R.state reads.now) thread row.now kind name.now register row.now.part }
{
    if row.part.is_some() {
        return open_do(decision, reads, thread, row, register, row.uses);
    }
    if refuse_holder(decision, reads, thread, Step::Of(Word::Open, Part::Seek)) {
        return;
    }
    seek(decision, reads, thread, Word::Open, kind, name)
}

/// The return.
pub fn open_return<R: Reads>(decision: &mut Decision, reads: &R, thread: ThreadNo, row: &ThreadRow)
    ensures { decision.new ≡ open_return (R.state reads.now) thread row.now }
{
    return_to(decision, reads, thread, Word::Open, Part::Do, row)
}

/// Whether objects of this kind stay with the thread that made them.
fn kind_stays(kind: Kind) -> bool
    ensures { result ≡ kind_stays kind }
{
    match kind {
        Kind::Server | Kind::Session => true,
        Kind::Process | Kind::Thread | Kind::Mutex | Kind::Semaphore => false,
    }
}

/// Whether an object stays with the thread that made it.
fn stays_with_thread(row: Option<ObjectRow>) -> bool
    ensures { result ≡ stays_with_thread row }
{
    match row {
        Some(row) => kind_stays(row.kind),
        None => false,
    }
}

/// The second step: one handle more of what the thread uses, the next of a table.
fn dup_do<R: Reads>(
    decision: &mut Decision,
    reads: &R,
    thread: ThreadNo,
    word: Word,
    to: u8,
    handle: Option<NewHandle>,
    uses: Option<ObjNo>,
)
    requires { IfSome handle (λ handle. handle.number < 2147483648) }
    ensures { decision.new ≡ dup_do (R.state reads.now) thread word to handle uses }
{
    let step = Step::Of(word, Part::Do);
    let Some(object) = uses else {
        return nothing(decision);
    };
    if stays_with_thread(reads.object(object)) {
        return refuse(decision, thread, step, Error::PermissionDenied);
    }
    give_handle(decision, thread, step, object, to, handle)
}

/// First the look, and then the second handle, in the process's table.
pub fn dup_step<R: Reads>(
    decision: &mut Decision,
    reads: &R,
    thread: ThreadNo,
    row: &ThreadRow,
    from: u8,
    to: u8,
)
    requires readable { R.is_readable reads.now }
    requires from { from < 8 }
    ensures { decision.new ≡ dup_step (R.state reads.now) thread row.now from to row.now.part }
{
    if row.part.is_none() {
        return look(decision, reads, thread, row, Word::Dup, from);
    }
    let handle = reads.process_handle(row.process);
    dup_do(decision, reads, thread, Word::Dup, to, handle, row.uses)
}

/// First the look, and then the second handle, in the thread's own table.
pub fn duplocal_step<R: Reads>(
    decision: &mut Decision,
    reads: &R,
    thread: ThreadNo,
    row: &ThreadRow,
    from: u8,
    to: u8,
)
    requires readable { R.is_readable reads.now }
    requires from { from < 8 }
    ensures { decision.new ≡ duplocal_step (R.state reads.now) thread row.now from to row.now.part }
{
    if row.part.is_none() {
        return look(decision, reads, thread, row, Word::Duplocal, from);
    }
    let handle = reads.thread_handle(thread);
    dup_do(
        decision,
        reads,
        thread,
        Word::Duplocal,
        to,
        handle,
        row.uses,
    )
}

/// The handle is closed, where there is such a handle.
fn close_handle<R: Reads>(
    decision: &mut Decision,
    reads: &R,
    thread: ThreadNo,
    row: &ThreadRow,
    handle: u32,
    found: Option<ObjNo>,
)
    requires { IfSome found (λ o. index_of handle < 256) }
    ensures { decision.new ≡ close_handle (R.state reads.now) thread row.now handle found }
{
    let Some(object) = found else {
        return refuse(decision, thread, CLOSE, Error::BadHandle);
    };
    decision.moves.clear();
    let holder = holder_of(thread, row, handle);
    close_moves(&mut decision.moves, reads, thread, holder, object);
    answer(decision, thread, CLOSE, 0)
}

/// The close of the handle in a register.
pub fn close_do<R: Reads>(
    decision: &mut Decision,
    reads: &R,
    thread: ThreadNo,
    row: &ThreadRow,
    register: u8,
)
    requires readable { R.is_readable reads.now }
    requires register { register < 8 }
    ensures { decision.new ≡ close_do (R.state reads.now) thread row.now register }
{
    let handle = row.registers[register as usize];
    let found = object_at(reads, thread, row, handle);
    close_handle(decision, reads, thread, row, handle, found)
}
