//! Where input comes from and output goes to: a source and a sink of bytes, each with a count of its
//! faults, over memory and over the standard reader and writer. The real kernel has no such layer:
//! it is this project's own.
#![tactic(auto)]

mod failed;
mod gate;
mod mem_sink;
mod mem_source;
mod sink;
mod source;
mod std_sink;
mod std_source;

pub use failed::Failed;
pub use gate::Gate;
pub use mem_sink::MemSink;
pub use mem_source::MemSource;
pub use sink::{Sink, write_whole};
pub use source::Source;
pub use std_sink::StdSink;
pub use std_source::StdSource;
