//! The step that an entry tells.
use sym_base::{Name, Word};

/// A part of an instruction that is one atomic action.
#[derive(Clone, Copy)]
pub enum Part {
    Seek,
    Return,
    Look,
    Make,
    Send,
    Do,
    Done,
    Piece,
}

/// What an atomic action is. The split of calls into steps is this project's own.
#[derive(Clone, Copy)]
pub enum Step {
    /// A part of an instruction.
    Of(Word, Part),
    /// The body of the deferred function call of this name runs.
    RunOf(Name),
    /// The deferred function call of this name moves from the queue of immediate ones to its own.
    MoveOf(Name),
    /// A thread gives up a reference that it owes.
    Drop,
    /// A thread removes the row of a dead object.
    Sweep,
    /// The owner of a closing server finishes a message.
    Finish,
    /// The owner of a closing server closes a session's link.
    Detach,
    /// The owner of a closing server ends it.
    Stop,
    /// A doomed thread gives a mutex up.
    Free,
    /// A doomed thread closes a handle.
    Shut,
    /// A doomed thread signals the one who logged on to it.
    Tell,
    /// A doomed thread has nothing left.
    Clean,
    /// A thread at its list's end leaves its critical section.
    Flush,
    /// A thread is at its list's end.
    End,
    /// The supervisor finishes a thread's death.
    Bury,
    /// An interrupt's body runs.
    Run,
    /// A time slice ends.
    Turn,
    /// Nobody is able.
    Wait,
}
