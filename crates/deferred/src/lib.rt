//! Deferred function calls: the immediate queue and the queues of the threads that run the others.
#![tactic(auto)]

mod item;
mod queues;

pub use queues::{Deferred, FIRST_BURIAL};
pub use state_rows::{DfcPlace, Item};
