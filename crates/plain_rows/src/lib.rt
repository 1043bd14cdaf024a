//! The plain machine's changes of its lists: each kind of move in the rows of requests, logons, locks and the like, and the
//! parts of those moves that change several.
#![tactic(auto)]

mod calls;
mod deaths;
mod duties;
mod lists;
mod locks;
mod logons;
mod memory;
mod mutexes;
mod nano;
mod requests;
mod thread_rows;

pub use calls::make_deferred_move;
pub use deaths::make_death_move;
pub use duties::{drop_first_owed, owe_close, owe_use};
pub use lists::{clear_list, list_of, push_to, remove_from, unlisted};
pub use locks::{locks_swept, make_lock_move};
pub use logons::make_logon_move;
pub use memory::fill_memory;
pub use nano::make_nano_move;
pub use requests::make_request_move;
pub use thread_rows::{
    threads_advance, threads_closed, threads_find, threads_gain, threads_go_on, threads_keep,
    threads_lose, threads_miss, threads_open, threads_set_priority, threads_wait, threads_write,
    threads_write_message,
};
