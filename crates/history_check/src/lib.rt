//! Whether a text is the history of a script, as callers make it who share the kernel, and which line of it is the first
//! bad one.
#![tactic(auto)]

mod actor;
mod check;
mod known;
mod parts;
mod pieces;
mod rows;
mod step;

pub use check::{Checked, check_history};
pub use parts::parts_of;
