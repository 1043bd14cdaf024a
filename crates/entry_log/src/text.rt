//! The text of entries and of final rows. All printed texts are this project's own.
mod effects;
mod entries;
mod entry_line;
mod holders;
mod line;
mod numbers;
mod rows;
mod steps;

pub use entries::{entry_text, line_of_entry};
pub use entry_line::EntryLine;
pub use line::Line;
pub use rows::{final_text, line_of_row};
