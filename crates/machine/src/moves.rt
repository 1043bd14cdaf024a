//! What actions are made of. A step of the kernel changes several rows at once; here each small change is
//! a move of its own (the split is this project's own).
ghost use Rattle.std.specs.Prelude.{◌≡◌, ◌<◌, ◌≤◌, [], ◌∷◌, ◌++◌, length};

use crate::{
    DeathMove, DeferredMove, LockMove, LogonMove, MessageMove, NanoMove, RequestMove, ServerMove,
    Waiting,
};
use copy_rules::CopyMove;
use entry_log::{Holder, Part};
use state_rows::Owed;
use std::marker::Model;
use sym_base::{Kind, Name, ObjNo, ThreadNo};

/// One small change of the state.
#[derive(Clone, Copy)]
pub enum Move {
    /// Makes an object of this kind and name, whose first reference is the holder's.
    Make(Kind, Name, Holder),
    /// The holder gets a reference to the object.
    Gain(Holder, ObjNo),
    /// The holder gives its reference to the object up. Whoever gives the last one up owes the close of the
    /// object's own link, and then its sweep.
    Lose(Holder, ObjNo),
    /// The thread found the object by its name, and comes back next. That is no reference.
    Find(ThreadNo, ObjNo),
    /// The thread comes back and opens the object that it had found, which it uses from then on, and goes on to this step.
    Open(ThreadNo, ObjNo, Part),
    /// The thread comes back to the object that it had found, and that was dead.
    Miss(ThreadNo, ObjNo),
    /// The thread goes on to this step of its instruction.
    GoOn(ThreadNo, Part),
    /// The thread keeps a number that a step of its instruction found, for the steps to come.
    Keep(ThreadNo, u32),
    /// The thread's register, 0 to 7, gets a value.
    Write(ThreadNo, u8, u32),
    /// The thread's register for messages, 0 to 7, gets the number of one.
    WriteMessage(ThreadNo, u8, u32),
    /// The thread owes the close of its temporary reference, where it has one, and its instruction goes on.
    PutDown(ThreadNo),
    /// The thread goes on to its next instruction, and owes the close of its temporary reference, where it
    /// has one.
    Advance(ThreadNo),
    /// The thread waits for this from now on.
    Wait(ThreadNo, Waiting),
    /// The thread's wait is over.
    Wake(ThreadNo),
    /// The thread gets a priority, 0 to 63.
    SetPriority(ThreadNo, u8),
    /// What the nanokernel keeps of a thread that synchronizes changes.
    Nano(NanoMove),
    /// What the nanokernel keeps of deferred function calls changes.
    Deferred(DeferredMove),
    /// What the kernel keeps of requests changes.
    Requests(RequestMove),
    /// What the kernel keeps of mutexes and semaphores changes, and with it who owns a mutex.
    Locks(LockMove),
    /// What the kernel keeps of logons changes.
    Logons(LogonMove),
    /// What the kernel keeps of a thread that dies changes.
    Death(DeathMove),
    /// What the kernel keeps of servers and sessions changes, and with it what a thread owns.
    Servers(ServerMove),
    /// What the kernel keeps of messages changes.
    Messages(MessageMove),
    /// Bytes of the process's memory, from an offset on and so many, get a value.
    Fill(ObjNo, u16, u16, u8),
    /// A piece of a copy between a server and its client is copied.
    Copies(CopyMove),
    /// The acting thread pays this, the oldest of what it owes.
    Pay(Owed),
}

impl Default for Move {
    /// Some move: the unused places of `Moves` hold it.
    fn default() -> Self {
        Move::Advance(ObjNo(0))
    }
}

/// The most moves that an action is made of.
pub const MAX_MOVES: usize = 8;

/// The moves of an action in their order, at most eight. A contract sees the list.
#[derive(Drop)]
pub struct Moves {
    places: [Move; MAX_MOVES],
    count: usize,
}

impl Model for Moves {
    ghost use Rattle.std.specs.Prelude.{List, ◌≡◌, ◌≤◌, length, take};
    ghost use Rattle.machine.specs.declared.moves.Move.{Move};

    ghost Value = { List Move };

    ghost view = { λ m. take m.count m.places };

    ghost invariant = { λ m. (length m.places ≡ 8) × (m.count ≤ 8) };
}

impl Moves {
    /// No move.
    pub fn new() -> Self
        ensures { result ≡ [] }
    {
        Moves {
            places: [Move::default(); MAX_MOVES],
            count: 0,
        }
    }

    /// The moves in their order.
    pub fn as_slice(&self) -> &[Move]
        ensures moves { result.now ≡ self.now }
        ensures few { length self.now ≤ 8 }
    {
        &self.places[..self.count]
    }

    /// There is no move any more.
    pub fn clear(&mut self)
        ensures { self.new ≡ [] }
    {
        self.count = 0;
    }

    /// Adds a move at the end.
    pub fn push(&mut self, step: Move)
        requires { length self.old < 8 }
        ensures { self.new ≡ self.old ++ step ∷ [] }
    {
        self.places[self.count] = step;
        self.count += 1;
    }
}
