//! Servers and sessions, and the links between them.
#![tactic(auto)]

mod table;

pub use table::ServerTable;
