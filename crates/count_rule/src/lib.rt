//! Count words, which tickets raise outside the kernel's lock.
#![tactic(auto)]

mod plays;
mod rule;
mod share;
mod state_seat;
mod steps;
mod ticket;
mod view;

pub use rule::MARK;
pub use state_seat::StateSeat;
pub use ticket::Ticket;
