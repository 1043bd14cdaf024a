//! Tests of what host threads make of count words and of the lock.
#![tactic(auto)]

#[cfg(test)]
mod count_rule_tests;
#[cfg(test)]
mod turn_lock_tests;
