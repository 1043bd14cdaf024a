//! What passes know. No value of these types is ever made: they are what proofs say of a pass.
use entry_log::Entry;
use std::collections::LinkedList;

/// One entry of a lock's log, with the number of the caller that made it.
pub struct Logged {
    pub caller: u32,
    pub entry: Entry,
}

/// What one caller knows: the base of the lock's value, how many passes the lock has, its own number, and the log up to
/// some entry.
pub struct Sight<B> {
    pub base: B,
    pub passes: u32,
    pub caller: u32,
    pub known: LinkedList<Logged>,
}

/// Where a pass is in its turn, by the number that it drew, and what it knows.
pub enum View<B> {
    /// In no turn. It knows for any number of callers: for one, but while passes are made, meet or are closed.
    Free(LinkedList<Sight<B>>),
    /// It has drawn its number, and waits.
    Drawn(u64, Sight<B>),
    /// It is its turn.
    Up(u64, Sight<B>),
    /// It has taken the slot.
    Holding(u64, Sight<B>),
    /// The slot is empty, and its value is lent.
    Lent(u64, Sight<B>),
    /// The value is in the slot again, and what it gained isn't in the log yet.
    Left(u64, Sight<B>, LinkedList<Entry>),
}
