//! What decisions read of the plain machine's state, where it isn't one row: what is first in a list, who is served next, what is
//! found by name, and what a thread's death or the end of its servers gives up.
#![tactic(auto)]

mod burials;
mod calls;
mod choice;
mod holdings;
mod lists;
mod locks;
mod messages;
mod objects;
mod requests;
mod servers;

pub use burials::{burial_of, burial_place, buried_by, is_buried_by};
pub use calls::{is_call_queued, is_queued, next_immediate, next_of, queue_of};
pub use choice::first_of_greatest;
pub use holdings::{first_handle, first_used, has_one_left, is_left, is_one_left};
pub use lists::first_in;
pub use locks::{best_waiter, byte_of, lock_count};
pub use messages::{is_full, message_of, next_message};
pub use objects::{find_object, is_taken, next_object, no_number_left};
pub use requests::{reply_of, request_at, request_signals, value_of};
pub use servers::{first_work, server_at, session_at};
