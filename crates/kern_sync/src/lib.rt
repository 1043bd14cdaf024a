//! Kernel mutexes and semaphores, and the threads that wait for them.
#![tactic(auto)]

mod sync;

pub use sync::KernSync;
