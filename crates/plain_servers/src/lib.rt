//! The plain machine's changes of its lists of servers, sessions and messages, and the pieces of copies between their two ends.
#![tactic(auto)]

mod copies;
mod messages;
mod servers;

pub use copies::make_copy;
pub use messages::make_message_move;
pub use servers::{
    make_server_move, owned_gain, owned_lose, server_of, servers_closed, servers_lose,
    servers_swept,
};
