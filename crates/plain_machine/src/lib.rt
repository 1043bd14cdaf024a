//! The plain machine: the definitions, run over plain lists.
#![tactic(auto)]

mod acted;
mod action;
mod arrivals;
mod choice;
mod closes;
mod course;
mod final_rows;
mod perform;
mod plain;
mod slots;
mod stepped;
mod tick;
mod transition;

pub use plain::Plain;
pub use stepped::Stepped;
