//! The words of a script's lines: their forms, their ranges, and what they are.
#![tactic(auto)]

mod argument;
mod body;
mod fault;
mod field;
mod instructions;
mod keyword;
mod line_at;
mod line_form;
mod line_signs;
mod numeral;
mod operand;
mod shared_operands;
mod source;

pub use fault::Fault;
pub use field::{cut, is_word, read_natural};
pub use keyword::{keyword_kind, keyword_of};
pub use line_at::line_as;
pub use line_form::line_fault;
pub use line_signs::{is_counted, second_of};
pub use script_types::Keyword;
pub use source::{
    begins_comment, first_line, is_printed, is_short, is_skipped, take_words, word_at,
};
