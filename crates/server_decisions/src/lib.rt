//! What servers and their clients do, decided from what a state reads as: sessions are made and closed, messages are sent
//! over them, received and finished, and bytes of memory read, written and copied.
#![tactic(auto)]

mod closing;
mod completing;
mod connecting;
mod memory;
mod messaging;
mod sending;
mod serving;

pub use closing::close_moves;
pub use completing::{complete_do, function_do};
pub use connecting::{connect_return, connect_step};
pub use memory::{fill_do, peek_do, read_step, write_step};
pub use messaging::finish;
pub use sending::{call_step, send_step};
pub use serving::{receive_step, server_do};
