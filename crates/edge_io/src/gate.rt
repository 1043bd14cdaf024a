//! What a worker passes before it opens an object.

/// A gate that a worker passes before it opens the object that it has found, at no time in which it keeps others from the
/// kernel. A program's gate does nothing; a test's may see that two workers are inside at once.
pub trait Gate {
    /// A worker is about to open what the entry at this place found.
    fn before_open(&self, place: u32);
}
