//! Workers: threads of the host that draw the slots of a schedule from one kernel.
#![tactic(auto)]

mod share;
mod work;

pub use share::make_shared_history;
