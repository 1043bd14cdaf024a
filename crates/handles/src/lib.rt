//! Handle tables of processes and threads.
#![tactic(auto)]

mod free;
mod table;
mod used;

pub use table::{Added, Handles};
