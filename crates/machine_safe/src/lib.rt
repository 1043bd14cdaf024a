//! The laws of whole histories: references, deaths, messages, servers and busy answers are safe, the holder of a fast
//! mutex and whoever is doomed can act, nobody is chosen where nobody could act, and a history tells what its state has.
#![tactic(auto)]

mod ready_holders;
mod safe_references;
mod shared_histories;
mod shared_reading;
mod told;

pub use ready_holders::{doomed_are_able, holders_are_ready, idle_is_chosen};
pub use safe_references::{legal_is_safe, shared_is_safe};
pub use shared_histories::{finds_and_returns_count, one_reference_goes, whole_run_is_shared};
pub use shared_reading::legal_is_shared;
pub use told::{holders_are_told, nothing_is_left, state_is_well_formed, zero_counts_are_told};
