//! Tests of the crates of texts: reading and printing scripts, lines of entries, sources and sinks, and made scripts.
#![tactic(auto)]

#[cfg(test)]
mod declaration_tests;
#[cfg(test)]
mod edge_io_tests;
#[cfg(test)]
mod entry_log_tests;
#[cfg(test)]
mod every_form;
#[cfg(test)]
mod form_tests;
#[cfg(test)]
mod load_maker_tests;
#[cfg(test)]
mod mutation_tests;
#[cfg(test)]
mod number_tests;
#[cfg(test)]
mod print_tests;
#[cfg(test)]
mod same;
#[cfg(test)]
mod tests;
