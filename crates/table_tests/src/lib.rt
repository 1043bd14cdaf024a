//! Tests of the crates of tables: worked examples of their calls. A test ends by `drop` of the tables that it owns: the
//! checker goes through that once for each type, and not once more in each test.
#![tactic(auto)]

#[cfg(test)]
mod cleanup_tests;
#[cfg(test)]
mod deferred_tests;
#[cfg(test)]
mod descopy_tests;
#[cfg(test)]
mod handles_tests;
#[cfg(test)]
mod kern_sync_tests;
#[cfg(test)]
mod links_tests;
#[cfg(test)]
mod messages_tests;
#[cfg(test)]
mod nano_sync_tests;
#[cfg(test)]
mod nano_tests;
#[cfg(test)]
mod objects_tests;
#[cfg(test)]
mod procs_tests;
#[cfg(test)]
mod ready_list_tests;
#[cfg(test)]
mod ref_words_tests;
#[cfg(test)]
mod requests_tests;
#[cfg(test)]
mod same;
#[cfg(test)]
mod server_table_tests;
