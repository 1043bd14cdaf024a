//! How many bytes a copy has, and how many of them one piece.
ghost use Rattle.std.specs.Prelude.{◌≡◌, ◌≤◌};
ghost use Rattle.copy_rules.specs.Pieces.{read_answer, write_answer};
ghost use Rattle.copy_rules.specs.Refusals.{read_refusal, write_refusal};
ghost use Rattle.copy_rules.specs.Sizes.{GoesOn, piece_answer, piece_size, read_size};

use crate::ends::Ends;
use crate::job::{Job, Piece};
use crate::refusals::{length_of, read_refusal, write_refusal};

/// The most bytes of a piece.
pub const PIECE: usize = 64;

/// How many bytes a read has.
pub fn read_size(ends: &Ends, job: &Job) -> u16
    ensures { result ≡ read_size ends.now job.now }
{
    job.len
        .min(length_of(ends.argument).saturating_sub(job.offset))
}

/// How many bytes the next piece of a copy has, 0 to 64.
pub fn piece_size(size: u16, done: u16) -> u16
    ensures { result ≡ piece_size size done }
{
    size.saturating_sub(done).min(PIECE as u16)
}

/// What the next piece of a copy answers.
pub fn piece_answer(size: u16, done: u16) -> Piece
    requires { done ≤ size }
    ensures { result ≡ piece_answer size done }
{
    let copied = done + piece_size(size, done);
    if copied < size {
        Piece::More(copied)
    } else {
        Piece::Whole(size)
    }
}

/// What the next piece of a read answers. The earlier ones copied no more bytes than it has.
pub fn read_answer(ends: &Ends, job: &Job) -> Piece
    requires { GoesOn (read_refusal ends.now job.now) (read_size ends.now job.now) job.now.done }
    ensures { result ≡ read_answer ends.now job.now }
{
    match read_refusal(ends, job) {
        Some(refusal) => refusal,
        None => piece_answer(read_size(ends, job), job.done),
    }
}

/// What the next piece of a write answers. The earlier ones copied no more bytes than it has.
pub fn write_answer(ends: &Ends, job: &Job) -> Piece
    requires { GoesOn (write_refusal ends.now job.now) job.now.len job.now.done }
    ensures { result ≡ write_answer ends.now job.now }
{
    match write_refusal(ends, job) {
        Some(refusal) => refusal,
        None => piece_answer(job.len, job.done),
    }
}
