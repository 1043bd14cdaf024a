//! Deaths: a thread is doomed, gives up what it has one thing an action, and is buried, made in the kernel's tables.
#![tactic(auto)]

mod death;
mod decide;

pub use death::Death;
pub use decide::Reaped;
