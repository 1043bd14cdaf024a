//! Steps of instructions: one step of the instruction that a thread is at, made in the kernel's tables.
#![tactic(auto)]

mod next;
mod step;

pub use next::{Next, phase_of};
pub use step::{ExecUser, Outcome};
