//! A kernel that callers in many threads drive: by its schedule alone, or as they like.
#![tactic(auto)]

mod acted;
mod acting;
mod answers;
mod base;
mod free;
mod scheduled;
mod scheduled_kernel;
mod shared_kernel;

pub use answers::{Did, Drew};
pub use base::{KernelBase, Pass};
pub use scheduled_kernel::ScheduledKernel;
pub use shared_kernel::SharedKernel;
