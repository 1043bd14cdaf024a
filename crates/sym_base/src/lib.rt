//! Numbers, kinds, names and lists that every crate of the kernel model speaks of.
#![tactic(auto)]

mod decimal;
mod error;
mod items;
mod kind;
mod limits;
mod memory;
mod name;
mod number;
mod same;
mod word;

pub use decimal::{push_number, read_number};
pub use error::Error;
pub use items::Items;
pub use kind::{Arg, Exit, ExitKind, Kind, Slots};
pub use limits::Limits;
pub use memory::NoMemory;
pub use name::{MAX_NAME, Name, read_name};
pub use number::{MsgNo, ObjNo, ThreadNo};
pub use same::are_same;
pub use word::Word;
