//! The rules of copies between a server and its client: what a piece is asked for, what it is tested for, how many bytes
//! it has, and where they are.
#![tactic(auto)]

mod ends;
mod job;
mod places;
mod refusals;
mod sizes;

pub use ends::{Ends, argument_of, process_of, stage_of};
pub use job::{CopyMove, Job, Piece, Place};
pub use places::{caller_place, client_place};
pub use refusals::{read_refusal, start_of, write_refusal};
pub use sizes::{PIECE, piece_answer, piece_size, read_answer, read_size, write_answer};
