//! The threads that a move touches.
ghost use Rattle.std.specs.Prelude.{◌≡◌, None, Some};
ghost use Rattle.machine.specs.Arrivals.{touched, threads_of};
ghost use Rattle.machine.specs.DeferredMoves.{thread_of_queue};

use crate::{DeathMove, DeferredMove, LockMove, MessageMove, Move, Owed};
use sym_base::{ObjNo, ThreadNo};

/// The threads whose readiness a move may change: up to two, the first before the second.
#[derive(Clone, Copy)]
pub struct TouchedThreads {
    pub first: Option<ThreadNo>,
    pub second: Option<ThreadNo>,
}

/// One thread.
fn one(thread: ThreadNo) -> TouchedThreads
    ensures { result ≡ record { first = Some thread; second = None } }
{
    TouchedThreads {
        first: Some(thread),
        second: None,
    }
}

/// The thread that serves a queue of deferred function calls: the supervisor is object 1, and the threads of the others
/// stand right behind it.
pub fn thread_of_queue(queue: u8) -> ThreadNo
    ensures { result ≡ thread_of_queue queue }
{
    ObjNo(1 + queue as u16)
}

/// The threads whose readiness a move in an action of a thread may change.
pub fn touched(thread: ThreadNo, change: &Move) -> TouchedThreads
    ensures { threads_of result ≡ touched thread change.now }
{
    match *change {
        Move::Lose(_, _)
        | Move::Pay(Owed::Close(_, _))
        | Move::Messages(MessageMove::Finish(_, _)) => one(thread),
        Move::Find(other, _)
        | Move::Open(other, _, _)
        | Move::Miss(other, _)
        | Move::GoOn(other, _)
        | Move::Advance(other)
        | Move::Wait(other, _)
        | Move::Wake(other)
        | Move::PutDown(other)
        | Move::Locks(LockMove::Unlock(_, other, _) | LockMove::Free(_, other, _))
        | Move::SetPriority(other, _) => one(other),
        Move::Nano(change) => one(change.thread()),
        Move::Death(DeathMove::Bury(other)) => TouchedThreads {
            first: Some(thread),
            second: Some(other),
        },
        Move::Death(change) => one(change.thread()),
        Move::Deferred(DeferredMove::Add(_, queue) | DeferredMove::Take(queue)) => {
            one(thread_of_queue(queue))
        }
        Move::Pay(Owed::Sweep(object)) => TouchedThreads {
            first: Some(thread),
            second: Some(object),
        },
        _ => TouchedThreads {
            first: None,
            second: None,
        },
    }
}
