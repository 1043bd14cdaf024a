//! What an actor is going to do.
use crate::Decision;

/// A body that runs, one operation after the other: of the declared interrupt of this number, or of the immediate or the
/// other deferred function call of this number.
#[derive(Clone, Copy)]
pub enum Body {
    Interrupt(u8),
    Immediate(u8),
    Deferred(u8),
}

/// What an actor is going to do: what was decided at once, or a body, each of whose operations is decided when
/// its turn comes.
#[derive(Drop)]
pub enum Plan {
    Decided(Decision),
    Runs(Body),
}
