//! The grammar: which bytes are accepted as which script. Crates that run scripts take any well-formed one.
#![tactic(auto)]

mod law;

pub use law::is_well_formed;
