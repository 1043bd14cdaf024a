//! What each actor does next, decided from what a state reads as: a thread, the oldest item of the immediate
//! queue, and the body of an interrupt or of a deferred function call, operation by operation. For the plain
//! machine and for the kernel.
#![tactic(auto)]

mod bodies;
mod immediate;
mod reaping;
mod tasks;

pub use bodies::{declares_interrupt, leave_queue, op_moves, ops_of, step_of_body};
pub use immediate::immediate_action;
pub use reaping::{bury, reap};
pub use tasks::{NextAction, decide_action, next_action, pay};
