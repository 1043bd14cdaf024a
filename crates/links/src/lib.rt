//! Lists of numbered nodes that are linked by index, so that a node leaves the middle of a list at once.
#![tactic(auto)]

mod links;
mod neighbours;

pub use links::Links;
