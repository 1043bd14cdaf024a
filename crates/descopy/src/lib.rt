//! Copies between a server and its client, which are made in pieces.
#![tactic(auto)]

mod bytes;
mod copies;
mod ends;

pub use copies::Descopy;
pub use copy_rules::{Job, Piece};
