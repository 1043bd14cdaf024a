//! Messages between clients and servers, from when they are accepted until they are finished.
#![tactic(auto)]

mod answers;
mod records;
mod table;

pub use answers::{Accepted, Finished};
pub use table::Messages;
