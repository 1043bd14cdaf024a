//! The nanokernel's choice of who acts next, and its interrupts.
#![tactic(auto)]

mod choice;
mod interrupts;
mod nano;

pub use choice::{chosen, tick, wanted_holder};
pub use interrupts::{InterruptBody, interrupt};
pub use nano::{Nano, new_deferred};
