//! What every decision uses: how a step answers, refuses, or goes on, how it looks at a handle, how it finds an object by
//! its name and returns to it, and what the statuses of requests are to the waits for them.
#![tactic(auto)]

mod decide;
mod find;
mod looks;
mod statuses;

pub use decide::{
    answer, answer_after, answer_at_once, answer_handle, give_handle, go_on, nothing, refuse,
    refuse_holder, wait_at, wait_for,
};
pub use find::{return_to, seek};
pub use looks::{look, look_kind, object_at};
pub use statuses::{ends_wait, is_pending, is_woken};
