//! Scripts, and what is written of them: histories that were worked out apart from the program, by hand or by a simulator
//! that was written apart from it.
#![tactic(auto)]

mod at_once;
mod copies;
mod deaths;
mod handles;
mod interrupts;
mod servers;
mod storm_tables;
mod storms;

pub use at_once::{
    CONNECTING_HISTORY, CONNECTING_SCRIPT, FINDING_HISTORY, FINDING_SCRIPT, PANIC_HISTORY,
    PANIC_SCRIPT,
};
pub use copies::{
    KILLED_CLIENT_HISTORY, KILLED_CLIENT_SCRIPT, LOAD_LEFT, LOAD_SCRIPT, OVERLAP_HISTORY,
    OVERLAP_SCRIPT, TOO_LONG_HISTORY, TOO_LONG_SCRIPT,
};
pub use deaths::{
    DEAD_OWNER_HISTORY, DEAD_OWNER_SCRIPT, DEAD_THREAD_HISTORY, DEAD_THREAD_SCRIPT, DEATHS_SCRIPT,
    MISSED_HISTORY, MISSED_SCRIPT, PUT_OFF_HISTORY, PUT_OFF_SCRIPT,
};
pub use handles::{
    DYING_OBJECT_HISTORY, DYING_OBJECT_SCRIPT, FINDS_HISTORY, FINDS_SCRIPT, HANDLES_HISTORY,
    HANDLES_SCRIPT,
};
pub use interrupts::{THIRTY_TWO_HISTORY, THIRTY_TWO_SCRIPT};
pub use servers::{
    CLOSING_SERVER_HISTORY, CLOSING_SERVER_SCRIPT, DYING_SERVER_HISTORY, DYING_SERVER_SCRIPT,
    ONE_SLOT_HISTORY, ONE_SLOT_SCRIPT, POOL_HISTORY, POOL_SCRIPT,
};
pub use storms::{
    Storm, checksum, endings, killed_client, killed_clients, killed_servers, stormy_reapings,
};
