//! Want of memory, the one answer that no clause ties to a cause.
use std::alloc::{AllocError, AllocFailed};
use thiserror::Error;

/// Memory that was asked for wasn't given. No clause says when this answer comes; a call that has it says what
/// stands after it. Tests show that it doesn't come with ample memory.
#[derive(Debug, Drop, Error)]
#[error("out of memory")]
pub struct NoMemory;

impl From<AllocError> for NoMemory {
    fn from(_: AllocError) -> Self {
        NoMemory
    }
}

impl<T: Drop> From<AllocFailed<T>> for NoMemory {
    fn from(_: AllocFailed<T>) -> Self {
        NoMemory
    }
}
