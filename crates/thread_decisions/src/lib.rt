//! What threads do to themselves and to each other, decided from what a state reads as: how they synchronize, wait for
//! requests, call on each other, and come to die.
#![tactic(auto)]

mod dooms;
mod exit_calls;
mod fast_objects;
mod locks;
mod logon_calls;
mod request_calls;
mod thread_calls;

pub use dooms::{doom, end, plain_exit};
pub use exit_calls::{exit_do, exittype_step, kill_step, panic_step, terminate_step};
pub use fast_objects::{
    add_call, enter_do, flock_step, flush, fssignal_do, fswait_step, funlock_do, leave_do,
    queue_do, signal_move,
};
pub use locks::{lock_step, signal_step, unlock_step, wait_step};
pub use logon_calls::{logon_step, reason_of};
pub use request_calls::{cancel_do, request_do, status_do, waitany_step, waitfor_step};
pub use thread_calls::{priority_step, resume_step, suspend_step};
