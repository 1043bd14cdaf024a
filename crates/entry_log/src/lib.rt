//! Entries of a history, and their text.
#![tactic(auto)]

mod effect;
mod effects;
mod entry;
mod law;
mod step;
mod text;

pub use effect::{Effect, Holder, LockNo, StatusNo};
pub use effects::Effects;
pub use entry::{Actor, Entry, FinalRow};
pub use law::{known_effect, known_effects, known_entries, known_entry, same_texts};
pub use step::{Part, Step};
pub use sym_base::Word;
pub use text::{EntryLine, Line, entry_text, final_text, line_of_entry, line_of_row};
