//! Asynchronous requests: what devices have to complete, the statuses of requests, and the semaphore by
//! which a thread waits for a completion.
#![tactic(auto)]

mod drops;
mod table;

pub use state_rows::{PENDING, Request, STATUSES};
pub use table::{Began, Requests};
