//! What calls of a shared kernel answer.
use count_rule::Ticket;
use sym_base::ThreadNo;

/// What came of an action that a caller asked for.
#[derive(Drop)]
pub enum Did {
    /// An entry was made at this place, and nothing was found.
    Entry {
        place: u32,
    },
    /// The entry tells that its thread found an object, which the ticket opens. The thread is out until the ticket is given back.
    Seek {
        place: u32,
        thread: ThreadNo,
        ticket: Ticket,
    },
    /// The thread may not act after so many entries.
    NotAble {
        place: u32,
    },
    /// The script declares no interrupt of this number.
    NoInterrupt {
        k: u8,
    },
    /// There is no room for an entry and a return beside so many entries, and the returns of so many threads.
    Full {
        entries: u32,
        out: u32,
    },
}

/// What came of a slot that a caller drew.
#[derive(Drop)]
pub enum Drew {
    /// An entry was made at this place, and nothing was found.
    Entry {
        place: u32,
    },
    /// The entry tells that its thread found an object, which the ticket opens. The thread is out until the ticket is given back.
    Seek {
        place: u32,
        thread: ThreadNo,
        ticket: Ticket,
    },
    /// After so many entries no slot is left.
    NoSlot {
        place: u32,
    },
}
