//! Rows of threads and processes: what the kernel keeps of each thread, and the memory of each process.
#![tactic(auto)]

mod procs;

pub use procs::Procs;
