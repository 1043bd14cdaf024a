//! Prints a script: its canonical text, which is accepted as that script.
#![tactic(auto)]

mod print;
mod print_bodies;
mod print_instr;
mod print_slots;
mod word;

pub use print::print_script;
