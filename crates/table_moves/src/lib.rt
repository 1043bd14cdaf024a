//! Moves in single tables of the kernel.
#![tactic(auto)]

mod call_queues;
mod death_moves;
mod duties;
mod logon_moves;
mod nano_moves;
mod object_table;
mod request_moves;
mod servers;
mod threads;
mod uses;

pub use call_queues::CallQueues;
pub use death_moves::{move_row, owe_burial};
pub use duties::{drop_first_owed, first_owed, owe, owe_close, owe_message, owe_use};
pub use logon_moves::move_logon;
pub use nano_moves::move_nano;
pub use object_table::ObjectTable;
pub use request_moves::move_request;
pub use servers::{
    close_all, first_closing, owned_gain, owned_lose, server_of, servers_closed, servers_lose,
};
pub use threads::{
    fill, threads_advance, threads_closed, threads_find, threads_gain, threads_go_on, threads_keep,
    threads_lose, threads_miss, threads_open, threads_set_priority, threads_wait, threads_write,
    threads_write_message,
};
pub use uses::{note_end, note_gain, note_lost, use_of};
