//! Tests of the kernel beside the plain machine and beside histories that were worked out apart from the program: of one
//! caller who has it alone, and of callers who share it.
#![tactic(auto)]

#[cfg(test)]
mod act_tests;
#[cfg(test)]
mod alone;
#[cfg(test)]
mod caller_tests;
#[cfg(test)]
mod callers;
#[cfg(test)]
mod late_tests;
#[cfg(test)]
mod machine_tests;
#[cfg(test)]
mod tales;
#[cfg(test)]
mod told;
