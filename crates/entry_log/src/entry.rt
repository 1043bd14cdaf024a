//! One line of a history, and one of the objects that are left.
use crate::{Effects, Step};
use sym_base::{Exit, Kind, Name, ObjNo, ThreadNo};

/// Who acts.
#[derive(Clone, Copy)]
pub enum Actor {
    Thread(ThreadNo),
    /// The interrupt of this number, 0 to 31.
    Irq(u8),
    /// The queue of immediate deferred function calls.
    Idfc,
    /// The end of a time slice.
    Tick,
    /// Nobody.
    Idle,
}

/// One atomic action: its place in the history from 1, who acted, what it was, what it did, and
/// what it answered.
#[derive(Drop)]
pub struct Entry {
    pub place: u32,
    pub actor: Actor,
    pub step: Step,
    pub effects: Effects,
    pub answer: Option<i32>,
}

/// An object that is left: its number, kind, name (empty for a session), the number of its
/// references, and of a thread its exit, None while it lives.
#[derive(Clone, Copy)]
pub struct FinalRow {
    pub object: ObjNo,
    pub kind: Kind,
    pub name: Name,
    pub count: u32,
    pub exit: Option<Exit>,
}
