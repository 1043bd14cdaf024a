//! Makes scripts from a number: a file server with four clients, whose rounds are drawn.
#![tactic(auto)]

mod draws;
mod made;
mod round;
mod threads;

pub use made::make_script;
