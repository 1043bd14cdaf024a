//! Tests of a kernel that callers in many threads share: in turn, from threads of the host, and by workers.
#![tactic(auto)]

#[cfg(test)]
mod caller_tests;
#[cfg(test)]
mod calls;
#[cfg(test)]
mod judged_tests;
#[cfg(test)]
mod thread_tests;
