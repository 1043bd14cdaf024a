//! The threads that are ready to run, by priority and in order of arrival.
#![tactic(auto)]

mod mask;
mod ready;

pub use ready::{PRIORITIES, ReadyList};
