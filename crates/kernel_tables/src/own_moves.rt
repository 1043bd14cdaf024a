//! Moves that touch no thread but the one that acts, as most do: the queues of ready threads don't change by them.
ghost use Rattle.std.specs.Prelude.{◌≡◌, true};
ghost use Rattle.kernel_tables.specs.OwnMoves.{AreOwn, IsOwn};

use machine::{MessageMove, Move, Owed};
use sym_base::{Limits, ThreadNo};

/// Whether a move touches no other thread than the one that acts, and takes nobody out of the queues. Of rare moves it isn't told.
pub fn is_own(thread: ThreadNo, change: &Move) -> bool
    ensures { result ≡ true → IsOwn thread change.now }
{
    match *change {
        Move::Make(_, _, _)
        | Move::Gain(_, _)
        | Move::Lose(_, _)
        | Move::Keep(_, _)
        | Move::Write(_, _, _)
        | Move::WriteMessage(_, _, _)
        | Move::Requests(_)
        | Move::Logons(_)
        | Move::Servers(_)
        | Move::Messages(MessageMove::Accept(_, _))
        | Move::Messages(MessageMove::Take(_))
        | Move::Messages(MessageMove::Finish(_, _))
        | Move::Fill(_, _, _, _)
        | Move::Copies(_)
        | Move::Pay(Owed::Close(_, _)) => true,
        Move::Pay(Owed::Sweep(object)) => object.0 as usize >= Limits::BOOT_OBJECTS,
        Move::Find(other, _)
        | Move::Open(other, _, _)
        | Move::Miss(other, _)
        | Move::GoOn(other, _)
        | Move::PutDown(other)
        | Move::Advance(other)
        | Move::Wait(other, _)
        | Move::Wake(other) => other.0 == thread.0,
        _ => false,
    }
}

/// Whether each of these moves does.
pub fn are_own(thread: ThreadNo, moves: &[Move]) -> bool
    ensures { result ≡ true → AreOwn thread moves.now }
{
    for change in moves {
        if !is_own(thread, change) {
            return false;
        }
    }
    true
}
