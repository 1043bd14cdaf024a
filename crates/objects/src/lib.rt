//! Kernel objects: their kinds, names and reference counts.
#![tactic(auto)]

mod free;
mod names;
mod objects;
mod row;

pub use objects::{Made, Objects};
pub use row::ObjRow;
