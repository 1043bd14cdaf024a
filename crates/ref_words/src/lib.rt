//! Reference counts of kernel objects, which the kernel shares with callers that hold notes.
#![tactic(auto)]

mod answer;
mod plain;
mod slip;
mod words;

pub use answer::{Closed, Found, Stage};
pub use plain::{PlainNote, PlainWords};
pub use slip::Slip;
pub use words::RefWords;
