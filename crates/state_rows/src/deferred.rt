//! Rows of deferred function calls.

use sym_base::Items;

/// Where a deferred function call waits: the number of its queue, and its priority there, 0 to 7, of which
/// 7 is served first (Symbian OS Internals, the chapter on interrupts).
#[derive(Clone, Copy, Debug, PartialEq, Eq)]
pub struct DfcPlace {
    pub queue: u8,
    pub priority: u8,
}

/// What the immediate queue has: an immediate deferred function call to be run, or a deferred function call
/// that an interrupt queued and that is to be moved to its own queue.
#[derive(Clone, Copy, Debug, PartialEq, Eq)]
pub enum Item {
    Idfc(u8),
    Move(u8),
}

/// What the nanokernel keeps of deferred function calls (Symbian OS Internals, the chapter on interrupts): how many
/// immediate ones there are; of each other one, by number, its queue and its priority there; the items of the
/// immediate queue; and the calls of each other queue by their numbers. Each queue is in order of arrival. Queue 0 is
/// the supervisor's.
#[derive(Drop)]
pub struct DeferredRows {
    pub idfcs: u8,
    pub places: Items<DfcPlace>,
    pub immediate: Items<Item>,
    pub queues: Items<Items<usize>>,
}
