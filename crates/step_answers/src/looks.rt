//! The first step of the instructions that name an object by a handle.
ghost use Rattle.std.specs.Prelude.{◌≡◌, ◌<◌, IfSome};
ghost use Rattle.machine.specs.Handles.{object_at};
ghost use Rattle.state_rows.specs.HandleNumbers.{index_of};
ghost use Rattle.machine.specs.Look.{look_at, look, is_of_kind, of_kind, look_kind};

use crate::decide::{go_on, refuse};
use entry_log::{Holder, Part, Step, Word};
use machine::{Decision, Move, ThreadRow, owner_of};
use readings::Reads;
use state_rows::ObjectRow;
use sym_base::{Error, Kind, ObjNo, ThreadNo};

/// The object that a thread's handle names.
pub fn object_at<R: Reads>(
    reads: &R,
    thread: ThreadNo,
    row: &ThreadRow,
    handle: u32,
) -> Option<ObjNo>
    requires { R.is_readable reads.now }
    ensures object { result ≡ object_at (R.state reads.now) thread row.now handle }
    ensures index { IfSome result (λ o. index_of handle < 256) }
    ensures positive { IfSome result (λ o. handle < 2147483648) }
{
    reads.handle(owner_of(thread, row, handle), handle)
}

/// The thread uses the object from now on, where there is one.
fn look_at(decision: &mut Decision, thread: ThreadNo, word: Word, found: Option<ObjNo>)
    ensures { decision.new ≡ look_at thread word found }
{
    let step = Step::Of(word, Part::Look);
    match found {
        Some(object) => {
            let gain = Move::Gain(Holder::Temp(thread), object);
            go_on(decision, thread, step, gain, Part::Do)
        }
        None => refuse(decision, thread, step, Error::BadHandle),
    }
}

/// The look at the handle in a register.
pub fn look<R: Reads>(
    decision: &mut Decision,
    reads: &R,
    thread: ThreadNo,
    row: &ThreadRow,
    word: Word,
    register: u8,
)
    requires readable { R.is_readable reads.now }
    requires register { register < 8 }
    ensures { decision.new ≡ look (R.state reads.now) thread row.now word register }
{
    let handle = row.registers[register as usize];
    look_at(
        decision,
        thread,
        word,
        object_at(reads, thread, row, handle),
    )
}

/// Whether an object is of a kind.
fn is_of_kind(kind: Kind, row: Option<ObjectRow>) -> bool
    ensures { result ≡ is_of_kind kind row }
{
    match row {
        Some(row) => row.kind.is(kind),
        None => false,
    }
}

/// An object, where it is of a kind.
fn of_kind<R: Reads>(reads: &R, kind: Kind, found: Option<ObjNo>) -> Option<ObjNo>
    ensures { result ≡ of_kind (R.state reads.now) kind found }
{
    let object = found?;
    if is_of_kind(kind, reads.object(object)) {
        Some(object)
    } else {
        None
    }
}

/// The look at the handle in a register, which has to be of an object of a kind.
pub fn look_kind<R: Reads>(
    decision: &mut Decision,
    reads: &R,
    thread: ThreadNo,
    row: &ThreadRow,
    kind: Kind,
    word: Word,
    register: u8,
)
    requires readable { R.is_readable reads.now }
    requires register { register < 8 }
    ensures { decision.new ≡ look_kind (R.state reads.now) thread row.now kind word register }
{
    let handle = row.registers[register as usize];
    let found = object_at(reads, thread, row, handle);
    look_at(decision, thread, word, of_kind(reads, kind, found))
}
