//! The first two steps of the instructions that find an object by its kind and name: the find, and the
//! return, which opens what was found.
ghost use Rattle.std.specs.Prelude.{◌≡◌};
ghost use Rattle.machine.specs.Find.{seek_object, seek, is_open, return_to};

use crate::decide::{answer_after, one_move, refuse};
use entry_log::{Part, Step, Word};
use machine::{Decision, Move, ThreadRow};
use readings::Reads;
use state_rows::{ObjectRow, Stage};
use sym_base::{Error, Kind, Name, ObjNo, ThreadNo};

/// The thread found the object, where there is one, and comes to open it next.
fn seek_object(decision: &mut Decision, thread: ThreadNo, word: Word, found: Option<ObjNo>)
    ensures { decision.new ≡ seek_object thread word found }
{
    let step = Step::Of(word, Part::Seek);
    match found {
        Some(object) => one_move(decision, step, Move::Find(thread, object)),
        None => refuse(decision, thread, step, Error::NotFound),
    }
}

/// The find of an object of a kind and name.
pub fn seek<R: Reads>(
    decision: &mut Decision,
    reads: &R,
    thread: ThreadNo,
    word: Word,
    kind: Kind,
    name: &Name,
)
    requires { R.is_readable reads.now }
    ensures { decision.new ≡ seek (R.state reads.now) thread word kind name.now }
{
    seek_object(decision, thread, word, reads.find(kind, name))
}

/// Whether the object of a place may be opened: it is there and isn't dead. At its number another object may stand since.
fn is_open(place: u64, row: Option<ObjectRow>) -> bool
    ensures { result ≡ is_open place row }
{
    match row {
        Some(row) => !row.dead && row.place == place,
        None => false,
    }
}

/// The thread uses what it found from now on, unless that died since.
pub fn return_to<R: Reads>(
    decision: &mut Decision,
    reads: &R,
    thread: ThreadNo,
    word: Word,
    next: Part,
    row: &ThreadRow,
)
    ensures { decision.new ≡ return_to (R.state reads.now) thread row.now word next }
{
    let step = Step::Of(word, Part::Return);
    let object = row.sought;
    if is_open(row.sought_place, reads.object(object)) {
        return one_move(decision, step, Move::Open(thread, object, next));
    }
    let missed = Move::Miss(thread, object);
    if row.stage != Stage::Live {
        return one_move(decision, step, missed);
    }
    answer_after(decision, thread, step, missed, Error::NotFound.code())
}
