//! What decisions read of a state, who is ready and able to act, and what moves tell: for the plain machine and
//! for the kernel.
#![tactic(auto)]

mod deaths;
mod move_effects;
mod plain;
mod reads;
mod task;

pub use deaths::{dead_by, tell_whole};
pub use move_effects::{tell, tell_death, tell_message, tell_request};
pub use plain_reads::{
    burial_of, burial_place, first_of_greatest, first_used, is_buried_by, is_left, is_one_left,
    is_queued,
};
pub use reads::Reads;
pub use task::{instruction, is_able, is_ready, may_act, next_call, serves_queue, wanted_holder};
