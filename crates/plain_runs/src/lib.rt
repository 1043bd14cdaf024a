//! What the plain machine makes of a script's text, as text, and whether it makes a history too. Tests of the machines
//! call it.
#![tactic(auto)]

mod judge;
mod plain;
mod scripts;
mod texts;

pub use judge::is_plain_too;
pub use plain::ran_plain;
pub use scripts::script_of;
pub use texts::{Line, NUMBERS, Ran, Rows, line_of_entry, lines_of, ran_of};
