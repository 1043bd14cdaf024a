//! What the calls on reference counts answer, and the stage that a place is in.

/// What becomes of a note that comes back. The notes, and this answer, are this project's own.
#[derive(Clone, Copy, Debug, PartialEq, Eq)]
pub enum Found {
    /// The note opened its object: one more reference stands.
    Held,
    /// The object's last reference went before.
    Dead,
}

/// What a close leaves (Symbian OS Internals, the chapter on kernel services: a reference-counted object
/// tells its last close).
#[derive(Clone, Copy, Debug, PartialEq, Eq)]
pub enum Closed {
    Stays,
    /// It was the last reference, and the object is gone.
    Last,
}

/// Whether a place's object was made, and whether its last reference went.
#[derive(Clone, Copy, Debug, PartialEq, Eq)]
pub enum Stage {
    Fresh,
    InUse,
    Gone,
}
