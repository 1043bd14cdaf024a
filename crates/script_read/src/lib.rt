//! Reads a script's text: which script the bytes spell, or where and why they are refused.
#![tactic(auto)]

mod context;
mod declarations;
mod fault;
mod first_words;
mod judge;
mod known;
mod law;
mod limits;
mod name_set;
mod order;
mod progress;
mod read;
mod reason;
mod standing;
mod taken_names;

pub use fault::RunFault;
pub use law::accepted_or_bad;
pub use read::{ReadScript, read_script};
pub use reason::Reason;
pub use script_print::print_script;
