//! What the nanokernel keeps of threads that synchronize: fast semaphores, fast mutexes, critical
//! sections and suspension.
#![tactic(auto)]

mod sync;

pub use sync::{MAX_SUSPENSIONS, NanoSync};
