//! What is told of a note.

/// The place that a note was made for, and its number, which counts the notes from 1 in order of making.
#[derive(Clone, Copy, Debug, PartialEq, Eq)]
pub struct Slip {
    pub place: u32,
    pub number: u32,
}
