//! What the seats of the table know. These values exist in proofs alone: no value of them is made.

use ref_words::{Found, Slip, Stage};

/// What the state seat knows: what the kernel itself counted. Contracts read the arrays as lists, of any length.
pub struct Counted {
    /// The references that the kernel counted, by place.
    pub own: [u32; 0],
    /// The stages of the places.
    pub stages: [Stage; 0],
    /// The notes that are out.
    pub out: [Slip; 0],
    /// How many notes were made.
    pub made: u32,
    /// How many tickets came back dead, by place.
    pub late: [u32; 0],
    /// The place whose last close failed, until its close is made.
    pub closing: Option<u32>,
    /// The ticket that was joined last, until it is looked for.
    pub joined: Option<Joined>,
}

/// A ticket that was joined: its note, what it had found, and the notes that were out before.
pub struct Joined {
    pub slip: Slip,
    pub found: Found,
    pub before: [Slip; 0],
}

/// What a seat knows.
pub enum View {
    /// The state seat, which stands in the kernel.
    Kernel(Counted),
    /// A ticket: the note that it is for, and what its open found, if it has opened.
    Ticket(Slip, Option<Found>),
    /// A ticket that came back, which is none any more.
    Spent,
}
