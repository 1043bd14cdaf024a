//! What a script declares: queues, deferred function calls, interrupts, processes and threads.
use crate::Instrs;
use sym_base::{Items, Name};

/// One operation of the body of an interrupt or of a deferred function call.
#[derive(Clone, Copy)]
pub enum Op {
    /// Queues the immediate deferred function call of this name.
    Idfc(Name),
    /// Queues the deferred function call of this name, to be moved to its queue.
    Dfc(Name),
    /// Signals the fast semaphore of the thread of this name.
    Fssignal(Name),
    /// Completes the outstanding request of a device, 0 to 15, with a code.
    Device(u8, i32),
    /// Queues the deferred function call of this name at its queue.
    Queue(Name),
}

/// A body: one to four operations.
pub type Ops = Items<Op>;

/// A queue of deferred function calls, served by a thread of its own with a priority of 0 to 63.
#[derive(Drop)]
pub struct QueueDecl {
    pub name: Name,
    pub priority: u8,
}

/// A deferred function call, its queue, and its priority there, 0 to 7.
#[derive(Drop)]
pub struct DfcDecl {
    pub name: Name,
    pub queue: Name,
    pub priority: u8,
    pub body: Ops,
}

/// An immediate deferred function call.
#[derive(Drop)]
pub struct IdfcDecl {
    pub name: Name,
    pub body: Ops,
}

/// The body of an interrupt, 0 to 31.
#[derive(Drop)]
pub struct IrqBody {
    pub number: u8,
    pub body: Ops,
}

/// A process.
#[derive(Clone, Copy)]
pub struct ProcessDecl {
    pub name: Name,
}

/// A thread: its priority, 0 to 63, whether it starts suspended, the number of its process among
/// the declared ones from 0, None for a kernel thread, and its instructions.
#[derive(Drop)]
pub struct ThreadDecl {
    pub name: Name,
    pub priority: u8,
    pub held: bool,
    pub process: Option<u8>,
    pub instrs: Instrs,
}
