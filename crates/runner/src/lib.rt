//! The commands: a script that is read is run and its history written, in whole or in brief, or by workers that share the
//! kernel; a script is made from a number and written; or it is made, run, and summed up in a line.
#![tactic(auto)]

mod accepted;
mod brief;
mod check;
mod detail;
mod history;
mod input;
mod lines;
mod load;
mod make;
mod output;
mod run;
mod schedule;
mod shared;
mod summary;
mod verdict;

pub use brief::run_brief;
pub use check::run_check;
pub use history::make_history;
pub use load::run_load;
pub use make::write_made;
pub use schedule::run_schedule;
pub use shared::run_shared;
