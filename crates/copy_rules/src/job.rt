//! What a piece of a copy is asked for, and what it answers.
use sym_base::{MsgNo, ObjNo, ThreadNo};

/// A piece of a copy between the client of a message and the thread that received it (Symbian OS Internals, the
/// chapter on inter-process communication: a server reads and writes its client's memory through the descriptors
/// that the client sent). That a copy is made in pieces is this project's own.
#[derive(Clone, Copy)]
pub struct Job {
    /// The thread that copies, into or out of the memory of its own process.
    pub caller: ThreadNo,
    pub m: MsgNo,
    /// Which argument of the message is the client's descriptor, 0 to 3.
    pub arg: u8,
    /// From which byte of the descriptor on, 0 to 1,024.
    pub offset: u16,
    /// How many bytes are asked for, 0 to 1,024.
    pub len: u16,
    /// From which byte of the caller's memory on, 0 to 1,024.
    pub at: u16,
    /// How many bytes the earlier pieces copied.
    pub done: u16,
}

/// What a piece answers.
#[derive(Clone, Copy, Debug, PartialEq, Eq)]
pub enum Piece {
    /// Bytes are left. So many are copied by now.
    More(u16),
    /// No bytes are left. The copy has so many.
    Whole(u16),
    /// The argument isn't a descriptor, or one with more bytes than it may have, or one that could go past the end of
    /// the client's memory.
    BadDescriptor,
    /// The copy begins behind the descriptor's bytes, or goes past the end of the caller's memory.
    Argument,
    /// The descriptor may not have as many bytes as would be written.
    Overflow,
    /// The client isn't live.
    Died,
}

/// One piece of a copy, as a change of what the kernel keeps: of the memories of processes, and of how many bytes a
/// descriptor has.
#[derive(Clone, Copy)]
pub enum CopyMove {
    /// Bytes of the client's descriptor are copied into the memory of the caller's process.
    Read(Job),
    /// Bytes of the caller's process are copied into the client's descriptor.
    Write(Job),
}

/// A place in the memory of a process: so many bytes from its beginning.
#[derive(Clone, Copy)]
pub struct Place {
    pub process: ObjNo,
    pub at: u16,
}
