//! Rows of the kernel's state, which the definitions and the kernel's tables have in common.
#![tactic(auto)]

mod declared_calls;
mod deferred;
mod duty;
mod handle_slot;
mod locks;
mod messages;
mod nano;
mod object;
mod requests;
mod servers;
mod thread;

pub use declared_calls::{FIRST_BURIAL, calls_of, declared_places, dfc_named, idfc_named};
pub use deferred::{DeferredRows, DfcPlace, Item};
pub use duty::{Held, Owed};
pub use handle_slot::{
    HandleSlot, free_index, handle_number, index_of, is_local, look, next_instance, slot_at,
};
pub use locks::{LockRows, Locked, MAX_COUNT, Owner, Signalled, Unlocked};
pub use messages::{Message, MessageRows, MsgRow, Way};
pub use nano::NanoRows;
pub use object::{MAX_OBJECTS, ObjectRow, dead_row, has_name, is_dead_row, is_session, place_of};
pub use requests::{PENDING, Request, RequestRows, STATUSES};
pub use servers::{Connection, ServerRow, ServerRows, SessionRow};
pub use thread::{MEMORY, REGISTERS, Role, Stage, ThreadRow, Waiting};
