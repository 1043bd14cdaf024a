//! `fill` and `peek`: the memory of the thread's process. `read` and `write`: a server copies bytes between its client's
//! memory and its own, a piece a step (Symbian OS Internals, the chapter on inter-process communication, on descriptors
//! of clients).
ghost use Rattle.std.specs.Prelude.{◌≡◌, ◌≤◌, ◌<◌, Some};
ghost use Rattle.copy_rules.specs.declared.job.Piece.TheVariants as Piece;
ghost use Rattle.machine.specs.Copying.{copy_piece, first_job, message_ends, next_job, read_next, read_piece, read_step, whole_answer, write_next, write_piece, write_step};
ghost use Rattle.machine.specs.MemoryCalls.{fill_do, peek_do};

use crate::completing::message_at;
use copy_rules::{
    CopyMove, Ends, Job, Piece, argument_of, process_of, read_answer, read_size, stage_of,
    write_answer,
};
use entry_log::{Part, Step, Word};
use machine::{Decision, Move, ThreadRow};
use readings::Reads;
use state_rows::{MEMORY, Message};
use step_answers::{answer_after, answer_at_once, nothing, refuse};
use sym_base::{Error, ThreadNo};

/// The step of `read`.
const READ: Step = Step::Of(Word::Read, Part::Piece);

/// The step of `write`.
const WRITE: Step = Step::Of(Word::Write, Part::Piece);

/// So many bytes from an offset on get a value, unless they pass the memory's end.
pub fn fill_do(
    decision: &mut Decision,
    thread: ThreadNo,
    row: &ThreadRow,
    at: u16,
    length: u16,
    byte: u8,
)
    ensures { decision.new ≡ fill_do thread row.now at length byte }
{
    let step = Step::Of(Word::Fill, Part::Do);
    if at as usize + length as usize > MEMORY {
        return refuse(decision, thread, step, Error::Argument);
    }
    let fill = Move::Fill(row.process, at, length, byte);
    answer_after(decision, thread, step, fill, 0)
}

/// The byte at an offset is answered.
pub fn peek_do<R: Reads>(
    decision: &mut Decision,
    reads: &R,
    thread: ThreadNo,
    row: &ThreadRow,
    at: u16,
)
    ensures { decision.new ≡ peek_do (R.state reads.now) thread row.now at }
{
    let step = Step::Of(Word::Peek, Part::Do);
    let byte = reads.byte(row.process, at);
    answer_at_once(decision, thread, step, i32::from(byte))
}

/// Bytes are left: the piece is copied, and the thread keeps how many are copied then.
fn copy_more(decision: &mut Decision, thread: ThreadNo, step: Step, copy: CopyMove, done: u16)
    ensures { decision.new ≡ copy_piece thread step copy (Piece.More done) }
{
    decision.step = step;
    decision.moves.clear();
    decision.moves.push(Move::Copies(copy));
    decision.moves.push(Move::GoOn(thread, Part::Piece));
    decision.moves.push(Move::Keep(thread, done as u32));
    decision.answer = None;
}

/// What a whole copy answers: a read the number of its bytes, a write 0.
fn whole_answer(copy: &CopyMove, size: u16) -> i32
    ensures { result ≡ whole_answer copy.now size }
{
    match copy {
        CopyMove::Read(_) => i32::from(size),
        CopyMove::Write(_) => 0,
    }
}

/// A piece by what it answers: bytes are left, or the copy is whole, or it is refused.
fn copy_piece(decision: &mut Decision, thread: ThreadNo, step: Step, copy: CopyMove, piece: Piece)
    ensures { decision.new ≡ copy_piece thread step copy piece }
{
    match piece {
        Piece::More(done) => copy_more(decision, thread, step, copy, done),
        Piece::Whole(size) => {
            let code = whole_answer(&copy, size);
            answer_after(decision, thread, step, Move::Copies(copy), code)
        }
        Piece::BadDescriptor => refuse(decision, thread, step, Error::BadDescriptor),
        Piece::Argument => refuse(decision, thread, step, Error::Argument),
        Piece::Overflow => refuse(decision, thread, step, Error::Overflow),
        Piece::Died => refuse(decision, thread, step, Error::Died),
    }
}

/// The ends of a copy between a message's client and a thread of this row.
fn message_ends<R: Reads>(reads: &R, row: &ThreadRow, message: &Message, arg: u8) -> Ends
    requires { arg < 4 }
    ensures { result ≡ message_ends (R.state reads.now) row.now message.now arg }
{
    let client = reads.thread(message.row.client);
    Ends {
        stage: stage_of(client),
        client: process_of(client),
        argument: argument_of(&message.row, arg),
        caller: row.process,
    }
}

/// A copy whose earlier pieces copied no bytes yet.
fn first_job(thread: ThreadNo, message: &Message, arg: u8, offset: u16, len: u16, at: u16) -> Job
    ensures { result ≡ first_job thread message.now arg offset len at }
{
    Job {
        caller: thread,
        m: message.number,
        arg,
        offset,
        len,
        at,
        done: 0,
    }
}

/// The next piece of a copy of so many bytes.
fn next_job(row: &ThreadRow, job: &Job, size: u16) -> Job
    ensures job { result ≡ next_job row.now job.now size }
    ensures done { result.done ≤ size }
{
    let mut next = *job;
    next.done = row.found.min(size as u32) as u16;
    next
}

/// The next piece of a read between these ends.
fn read_next(decision: &mut Decision, thread: ThreadNo, row: &ThreadRow, ends: &Ends, job: &Job)
    ensures { decision.new ≡ read_next thread row.now ends.now job.now }
{
    let next = next_job(row, job, read_size(ends, job));
    let piece = read_answer(ends, &next);
    copy_piece(decision, thread, READ, CopyMove::Read(next), piece)
}

/// The next piece of a write between these ends.
fn write_next(decision: &mut Decision, thread: ThreadNo, row: &ThreadRow, ends: &Ends, job: &Job)
    ensures { decision.new ≡ write_next thread row.now ends.now job.now }
{
    let next = next_job(row, job, job.len);
    let piece = write_answer(ends, &next);
    copy_piece(decision, thread, WRITE, CopyMove::Write(next), piece)
}

/// A piece of a read: the number of a message that a server of the thread took is in a register; from a byte of its argument's
/// bytes on, so many are copied to a place of the thread's process.
fn read_piece<R: Reads>(
    decision: &mut Decision,
    reads: &R,
    thread: ThreadNo,
    row: &ThreadRow,
    register: u8,
    arg: u8,
    offset: u16,
    len: u16,
    at: u16,
)
    requires readable { R.is_readable reads.now }
    requires register { register < 8 }
    requires arg { arg < 4 }
    ensures { decision.new ≡ read_piece (R.state reads.now) thread row.now register arg offset len at }
{
    let Some(message) = message_at(reads, thread, row, register) else {
        return refuse(decision, thread, READ, Error::BadHandle);
    };
    let ends = message_ends(reads, row, &message, arg);
    let job = first_job(thread, &message, arg, offset, len, at);
    read_next(decision, thread, row, &ends, &job)
}

/// A piece of a write: the same the other way.
fn write_piece<R: Reads>(
    decision: &mut Decision,
    reads: &R,
    thread: ThreadNo,
    row: &ThreadRow,
    register: u8,
    arg: u8,
    offset: u16,
    len: u16,
    from: u16,
)
    requires readable { R.is_readable reads.now }
    requires register { register < 8 }
    requires arg { arg < 4 }
    ensures { decision.new ≡ write_piece (R.state reads.now) thread row.now register arg offset len from }
{
    let Some(message) = message_at(reads, thread, row, register) else {
        return refuse(decision, thread, WRITE, Error::BadHandle);
    };
    let ends = message_ends(reads, row, &message, arg);
    let job = first_job(thread, &message, arg, offset, len, from);
    write_next(decision, thread, row, &ends, &job)
}

/// The next piece of a read.
pub fn read_step<R: Reads>(
    decision: &mut Decision,
    reads: &R,
    thread: ThreadNo,
    row: &ThreadRow,
    register: u8,
    arg: u8,
    offset: u16,
    len: u16,
    at: u16,
)
    requires readable { R.is_readable reads.now }
    requires register { register < 8 }
    requires arg { arg < 4 }
    ensures { decision.new ≡ read_step (R.state reads.now) thread row.now register arg offset len at row.now.part }
{
    match row.part {
        Some(Part::Done) => nothing(decision),
        _ => read_piece(decision, reads, thread, row, register, arg, offset, len, at),
    }
}

/// The next piece of a write.
pub fn write_step<R: Reads>(
    decision: &mut Decision,
    reads: &R,
    thread: ThreadNo,
    row: &ThreadRow,
    register: u8,
    arg: u8,
    offset: u16,
    len: u16,
    from: u16,
)
    requires readable { R.is_readable reads.now }
    requires register { register < 8 }
    requires arg { arg < 4 }
    ensures { decision.new ≡ write_step (R.state reads.now) thread row.now register arg offset len from row.now.part }
{
    match row.part {
        Some(Part::Done) => nothing(decision),
        _ => write_piece(
            decision, reads, thread, row, register, arg, offset, len, from,
        ),
    }
}
