//! What each step of an instruction decides to do, from what a state reads as: for the plain machine and for the
//! kernel. Names and handles are decided here. What threads do to themselves and to each other is decided in
//! `thread_decisions`, and what servers and their clients do in `server_decisions`.
#![tactic(auto)]

mod create;
mod handles;
mod steps;

pub use server_decisions::{close_moves, finish};
pub use step_answers::{is_woken, nothing};
pub use steps::{decide_step, return_of};
pub use thread_decisions::{add_call, doom, end, flush, plain_exit, reason_of, signal_move};
