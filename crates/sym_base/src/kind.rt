//! Kinds of kernel objects, and the small values that rows and messages carry.
ghost use Rattle.std.specs.Prelude.{◌≡◌, ◌==◌};
ghost use Rattle.sym_base.specs.KindNumber.{kind_number};

use crate::Name;

/// The kinds of kernel object that the model has (Symbian OS Internals, the chapter on kernel services).
#[derive(Clone, Copy, Debug, PartialEq, Eq)]
pub enum Kind {
    Process,
    Thread,
    Mutex,
    Semaphore,
    Server,
    Session,
}

impl Kind {
    /// Whether two kinds are the same.
    pub fn is(self, other: Kind) -> bool
        ensures { result ≡ (kind_number self == kind_number other) }
    {
        self as u8 == other as u8
    }
}

/// How a thread ended (the chapter on threads and processes).
#[derive(Clone, Copy, Debug, PartialEq, Eq)]
pub enum ExitKind {
    Kill,
    Terminate,
    Panic,
}

/// A thread's exit. Only a panic has a category; of another exit the category is empty.
#[derive(Clone, Copy)]
pub struct Exit {
    pub kind: ExitKind,
    pub category: Name,
    pub reason: i32,
}

/// The message slots of a session: its own, 1 to 255, or the kernel's pool (the chapter on
/// inter-process communication).
#[derive(Clone, Copy, Debug, PartialEq, Eq)]
pub enum Slots {
    Own(u8),
    Pool,
}

/// One of a message's four arguments: a number, or a descriptor in the client's memory.
#[derive(Clone, Copy, Debug, PartialEq, Eq)]
pub enum Arg {
    Number(i32),
    /// Offset, length and maximum length, each 0 to 1,024 bytes.
    Descriptor { offset: u16, length: u16, max: u16 },
}
