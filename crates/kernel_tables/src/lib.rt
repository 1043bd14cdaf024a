//! The kernel's tables: what the moves of actions do to them, and to the queues of ready threads.
#![tactic(auto)]

mod closings;
mod copy_moves;
mod death_moves;
mod handle_moves;
mod kernel_core;
mod kernel_notes;
mod lock_moves;
mod moves;
mod note_moves;
mod own_moves;
mod reading;
mod ready;
mod server_moves;
mod staying;
mod tables;
mod work;

pub use kernel_core::Core;
pub use table_moves::{CallQueues, ObjectTable};
pub use tables::Tables;
