//! The tests of a copy, in their order. Which they are, and their order, are this project's own.
ghost use Rattle.std.specs.Prelude.{◌≡◌};
ghost use Rattle.copy_rules.specs.Refusals.{is_descriptor, is_live, is_outside, is_too_long, length_of, max_of, read_refusal, start_of, write_refusal};

use crate::ends::Ends;
use crate::job::{Job, Piece};
use state_rows::{MEMORY, Stage};
use sym_base::Arg;

/// Whether a thread lives.
fn is_live(stage: Stage) -> bool
    ensures { result ≡ is_live stage }
{
    matches!(stage, Stage::Live)
}

/// Whether an argument is a descriptor that has no more bytes than it may have, all within the memory of a process.
fn is_descriptor(argument: Arg) -> bool
    ensures { result ≡ is_descriptor argument }
{
    match argument {
        Arg::Number(_) => false,
        Arg::Descriptor {
            offset,
            length,
            max,
        } => length <= max && offset as usize + max as usize <= MEMORY,
    }
}

/// Where the bytes of a descriptor begin in the client's memory.
pub fn start_of(argument: Arg) -> u16
    ensures { result ≡ start_of argument }
{
    match argument {
        Arg::Number(_) => 0,
        Arg::Descriptor { offset, .. } => offset,
    }
}

/// How many bytes a descriptor has.
pub fn length_of(argument: Arg) -> u16
    ensures { result ≡ length_of argument }
{
    match argument {
        Arg::Number(_) => 0,
        Arg::Descriptor { length, .. } => length,
    }
}

/// How many bytes a descriptor may have.
fn max_of(argument: Arg) -> u16
    ensures { result ≡ max_of argument }
{
    match argument {
        Arg::Number(_) => 0,
        Arg::Descriptor { max, .. } => max,
    }
}

/// Whether a copy begins behind the descriptor's bytes, or goes past the end of the caller's memory.
fn is_outside(argument: Arg, job: &Job) -> bool
    ensures { result ≡ is_outside argument job.now }
{
    length_of(argument) < job.offset || MEMORY < job.at as usize + job.len as usize
}

/// Whether a descriptor may not have the bytes that would be written.
fn is_too_long(argument: Arg, job: &Job) -> bool
    ensures { result ≡ is_too_long argument job.now }
{
    (max_of(argument) as usize) < job.offset as usize + job.len as usize
}

/// What a read is refused for. None exactly where it passes all the tests.
pub fn read_refusal(ends: &Ends, job: &Job) -> Option<Piece>
    ensures { result ≡ read_refusal ends.now job.now }
{
    if !is_live(ends.stage) {
        Some(Piece::Died)
    } else if !is_descriptor(ends.argument) {
        Some(Piece::BadDescriptor)
    } else if is_outside(ends.argument, job) {
        Some(Piece::Argument)
    } else {
        None
    }
}

/// What a write is refused for. None exactly where it passes all the tests.
pub fn write_refusal(ends: &Ends, job: &Job) -> Option<Piece>
    ensures { result ≡ write_refusal ends.now job.now }
{
    match read_refusal(ends, job) {
        Some(refusal) => Some(refusal),
        None if is_too_long(ends.argument, job) => Some(Piece::Overflow),
        None => None,
    }
}
