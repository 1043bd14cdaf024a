//! The kernel: tables with kept counts, whose every action is the one of the definitions.
#![tactic(auto)]

mod act;
mod back;
mod bodies;
mod boot;
mod boot_objects;
mod boot_tables;
mod deaths;
mod final_rows;
mod going;
mod interrupts;
mod kernel;
mod made;
mod places;
mod plans;
mod schedule_run;

pub use kernel::Kernel;
pub use places::places_for;
pub use schedule_run::ScheduleRun;
