//! Pieces of copies, made on the plain machine's lists.
ghost use Rattle.std.specs.Prelude.{◌≡◌, ◌+◌, ◌≤◌, IfOk, OnOk, length, map, pos, slice_set, take};
ghost use Rattle.std.specs.List.{slice_index_or};
ghost use Rattle.sym_base.specs.declared.kind.Arg.TheVariants.{Number};
ghost use Rattle.state_rows.specs.MessageChanges.{edited, resized};
ghost use Rattle.state_rows.specs.MessageRows.{row_of, with_length};
ghost use Rattle.copy_rules.specs.Ends.{ends_of};
ghost use Rattle.copy_rules.specs.Memory.{byte_of, bytes_from, copied, overwritten, with_memory};
ghost use Rattle.copy_rules.specs.Pieces.{caller_place, client_place, with_length_set};
ghost use Rattle.copy_rules.specs.declared.job.CopyMove.TheVariants as CopyMove;
ghost use Rattle.machine.specs.Moves.{moved};

use copy_rules::{
    CopyMove, Ends, Job, PIECE, piece_size, process_of, read_refusal, read_size, stage_of,
    start_of, write_refusal,
};
use machine::{Move, State, thread_in};
use plain_reads::message_of;
use state_rows::{Message, MessageRows, MsgRow, Stage};
use std::alloc::Global;
use sym_base::{Arg, Items, MsgNo, NoMemory, ObjNo, ThreadNo};

/// A place in the memory of a process, also one past its end.
#[derive(Clone, Copy)]
struct Point {
    process: ObjNo,
    at: usize,
}

/// A byte of a process, 0 past its end.
fn byte_at(memories: &[Option<Items<u8>>], process: ObjNo, at: usize) -> u8
    ensures { result ≡ byte_of memories.now process at }
{
    match memories.get(process.0 as usize) {
        Some(Some(bytes)) => bytes.as_slice().get(at).copied().unwrap_or(0),
        _ => 0,
    }
}

/// So many bytes of a process from a place on, in front of others that mean nothing.
fn read_bytes(memories: &[Option<Items<u8>>], from: Point, count: u16) -> [u8; PIECE]
    requires few { count ≤ 64 }
    requires place { from.at ≤ 262143 }
    ensures { take count result ≡ bytes_from memories.now (record { process = from.process; at = from.at }) count }
{
    let mut piece = [0; PIECE];
    for k in 0..count {
        piece[k as usize] = byte_at(memories, from.process, from.at + k as usize);
    }
    piece
}

/// The bytes, of which those from an offset on are the piece's.
fn overwritten(alloc: Global, bytes: &[u8], at: usize, piece: &[u8]) -> Result<Items<u8>, NoMemory>
    requires { at + length piece.now ≤ 524287 }
    ensures { IfOk result (λ all. all ≡ overwritten at piece.now bytes.now) }
{
    let mut all = Vec::new(alloc);
    all.extend_from_slice(&bytes[..at.min(bytes.len())])?;
    all.extend_from_slice(piece)?;
    all.extend_from_slice(&bytes[(at + piece.len()).min(bytes.len())..])?;
    Ok(Items::new(all))
}

/// A piece is written to the memory of a process, where there is one.
fn write_bytes(
    alloc: Global,
    memories: &mut Items<Option<Items<u8>>>,
    to: Point,
    piece: &[u8],
) -> Result<(), NoMemory>
    requires few { length piece.now ≤ 64 }
    requires place { to.at ≤ 262143 }
    ensures { OnOk result (memories.new ≡ with_memory memories.old to.process (overwritten to.at piece.now)) }
{
    let number = to.process.0 as usize;
    if number >= memories.len() {
        return Ok(());
    }
    if let Some(bytes) = memories.get_mut(number) {
        *bytes = overwritten(alloc, bytes.as_slice(), to.at, piece)?;
    }
    Ok(())
}

/// A piece of so many bytes is copied. All are read before one is written.
fn copy(
    alloc: Global,
    memories: &mut Items<Option<Items<u8>>>,
    from: Point,
    to: Point,
    count: u16,
) -> Result<(), NoMemory>
    requires few { count ≤ 64 }
    requires from { from.at ≤ 262143 }
    requires to { to.at ≤ 262143 }
    ensures { OnOk result (memories.new ≡ copied memories.old (record { process = from.process; at = from.at }) (record { process = to.process; at = to.at }) count) }
{
    let piece = read_bytes(memories.as_slice(), from, count);
    write_bytes(alloc, memories, to, &piece[..count as usize])
}

/// An argument with another length; a number has none, and stays.
fn with_length(arg: Arg, length: u16) -> Arg
    ensures { result ≡ with_length arg length }
{
    match arg {
        Arg::Number(number) => Arg::Number(number),
        Arg::Descriptor { offset, max, .. } => Arg::Descriptor {
            offset,
            length,
            max,
        },
    }
}

/// An argument gets this length, where there are so many.
fn set_argument(args: &mut [Arg], arg: u8, length: u16)
    ensures { args.new ≡ slice_set args.old arg (with_length (slice_index_or args.old arg (Number (pos 0))) length) }
{
    let at = arg as usize;
    if at < args.len() {
        args[at] = with_length(args[at], length);
    }
}

/// The row of a message, of which an argument has this length, where it has so many.
fn resized(row: &MsgRow, arg: u8, length: u16) -> MsgRow
    ensures { result ≡ resized arg length row.now }
{
    let mut row = *row;
    set_argument(&mut row.args[..], arg, length);
    row
}

/// A message, of which an argument has this length where it has this number.
fn resized_if(message: &Message, number: MsgNo, arg: u8, length: u16) -> Message
    ensures { result ≡ edited number (resized arg length) message.now }
{
    let mut message = *message;
    if message.number.0 == number.0 {
        message.row = resized(&message.row, arg, length);
    }
    message
}

/// The messages, of which an argument of the one of this number has this length.
fn with_resized(
    alloc: Global,
    messages: &[Message],
    number: MsgNo,
    arg: u8,
    length: u16,
) -> Result<Items<Message>, NoMemory>
    ensures { IfOk result (λ all. all ≡ map (edited number (resized arg length)) messages.now) }
{
    let mut all = Vec::new(alloc);
    for message in messages {
        all.push(resized_if(message, number, arg, length))?;
    }
    Ok(Items::new(all))
}

/// The last piece of a write tells the descriptor how many bytes it has.
fn set_length(alloc: Global, rows: &mut MessageRows, job: &Job) -> Result<(), NoMemory>
    requires { job.now.offset + job.now.len ≤ 65535 }
    ensures { OnOk result (rows.new ≡ with_length_set rows.old job.now) }
{
    let count = piece_size(job.len, job.done);
    if job.done as usize + (count as usize) < job.len as usize {
        return Ok(());
    }
    let length = job.offset + job.len;
    rows.outstanding = with_resized(alloc, rows.outstanding.as_slice(), job.m, job.arg, length)?;
    Ok(())
}

/// The row of a message.
fn row_of(rows: &MessageRows, number: MsgNo) -> Option<MsgRow>
    ensures { result ≡ row_of rows.now number }
{
    let message = message_of(rows, number)?;
    Some(message.row)
}

/// One of some arguments, the number 0 past the last.
fn argument_in(args: &[Arg], arg: u8) -> Arg
    ensures { result ≡ slice_index_or args.now arg (Number (pos 0)) }
{
    args.get(arg as usize).copied().unwrap_or(Arg::Number(0))
}

/// The two ends of a copy. Without a message the client is nobody.
fn ends_of(state: &State, job: &Job) -> Ends
    ensures { result ≡ ends_of state.now.references.threads state.now.serving.messages job.now }
{
    let caller = process_of(thread_in(&state.references.threads, job.caller));
    let Some(row) = row_of(&state.serving.messages, job.m) else {
        return Ends {
            stage: Stage::Buried,
            client: ObjNo(0),
            argument: Arg::Number(0),
            caller,
        };
    };
    let client = thread_in(&state.references.threads, row.client);
    Ends {
        stage: stage_of(client),
        client: process_of(client),
        argument: argument_in(&row.args[..], job.arg),
        caller,
    }
}

/// Where the bytes of the next piece are in the memory of the client's process.
fn client_point(ends: &Ends, job: &Job) -> Point
    ensures place { client_place ends.now job.now ≡ record { process = result.process; at = result.at } }
    ensures small { result.at ≤ 262143 }
{
    Point {
        process: ends.client,
        at: start_of(ends.argument) as usize + job.offset as usize + job.done as usize,
    }
}

/// Where the bytes of the next piece are in the memory of the caller's process.
fn caller_point(ends: &Ends, job: &Job) -> Point
    ensures place { caller_place ends.now job.now ≡ record { process = result.process; at = result.at } }
    ensures small { result.at ≤ 262143 }
{
    Point {
        process: ends.caller,
        at: job.at as usize + job.done as usize,
    }
}

/// A piece of a read.
fn read_piece(alloc: Global, state: &mut State, thread: ThreadNo, job: &Job) -> Result<(), NoMemory>
    ensures { OnOk result (state.new ≡ moved thread (Move.Copies (CopyMove.Read job.now)) state.old) }
{
    let ends = ends_of(state, job);
    if read_refusal(&ends, job).is_some() {
        return Ok(());
    }
    let from = client_point(&ends, job);
    let to = caller_point(&ends, job);
    let count = piece_size(read_size(&ends, job), job.done);
    copy(alloc, &mut state.services.memories, from, to, count)
}

/// A piece of a write.
fn write_piece(
    alloc: Global,
    state: &mut State,
    thread: ThreadNo,
    job: &Job,
) -> Result<(), NoMemory>
    ensures { OnOk result (state.new ≡ moved thread (Move.Copies (CopyMove.Write job.now)) state.old) }
{
    let ends = ends_of(state, job);
    if write_refusal(&ends, job).is_some() {
        return Ok(());
    }
    let from = caller_point(&ends, job);
    let to = client_point(&ends, job);
    let count = piece_size(job.len, job.done);
    copy(alloc, &mut state.services.memories, from, to, count)?;
    set_length(alloc, &mut state.serving.messages, job)
}

/// One piece of a copy, in an action of a thread.
pub fn make_copy(
    alloc: Global,
    state: &mut State,
    thread: ThreadNo,
    change: &CopyMove,
) -> Result<(), NoMemory>
    ensures { OnOk result (state.new ≡ moved thread (Move.Copies change.now) state.old) }
{
    match change {
        CopyMove::Read(job) => read_piece(alloc, state, thread, job),
        CopyMove::Write(job) => write_piece(alloc, state, thread, job),
    }
}
