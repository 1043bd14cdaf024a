//! What each thread owes, and what its death gives up, in lists by thread.
#![tactic(auto)]

mod cleanup;
mod duties;
mod items;

pub use cleanup::Cleanup;
pub use duties::DUTIES;
pub use state_rows::{Held, Owed};
