//! The kernel's definitions over plain lists, what they have in common with the kernel's tables, and the
//! laws of the states that histories leave.
#![tactic(auto)]

mod boot;
mod boot_lists;
mod boot_rows;
mod boot_state;
mod count;
mod death_move;
mod decision;
mod deferred_move;
mod handles;
mod holding;
mod lists;
mod lock_move;
mod logon_move;
mod message_move;
mod mode;
mod moves;
mod nano_move;
mod nano_rows;
mod plan;
mod references;
mod request_move;
mod returning;
mod rows;
mod server_move;
mod services;
mod serving;
mod spans;
mod state;
mod synchronization;
mod task;
mod touches;

pub use boot::{Born, all_born};
pub use boot_lists::ready_from;
pub use boot_state::{boot_of, ready_at_boot, state_at_boot, uses_again};
pub use copy_rules::{CopyMove, Job};
pub use count::{count_of, dies, is_counted};
pub use death_move::DeathMove;
pub use decision::{Decision, Outcome, entry_of};
pub use deferred_move::DeferredMove;
pub use handles::{NewHandle, holder_of, owner_of, process_handle, thread_handle};
pub use holding::Holding;
pub use lock_move::LockMove;
pub use logon_move::LogonMove;
pub use message_move::MessageMove;
pub use mode::Mode;
pub use moves::{MAX_MOVES, Move, Moves};
pub use nano_move::NanoMove;
pub use nano_rows::{
    critical_count, held_place, is_protected, is_thread, mutex_holder, signal_count, suspend_count,
    wanted_mutex,
};
pub use plan::{Body, Plan};
pub use references::References;
pub use request_move::RequestMove;
pub use returning::is_returning;
pub use rows::{first_owed, object_of, row_of, set_row, set_slot, table_of, thread_in, thread_of};
pub use server_move::ServerMove;
pub use services::Services;
pub use serving::Serving;
pub use state::State;
pub use state_rows::{
    DeferredRows, HandleSlot, LockRows, NanoRows, Owed, RequestRows, Role, ThreadRow, Waiting,
};
pub use synchronization::Synchronization;
pub use task::Task;
pub use touches::{TouchedThreads, thread_of_queue, touched};
