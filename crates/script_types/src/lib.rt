//! A script as plain values: what it declares, each thread's instructions, and the schedule.
#![tactic(auto)]

mod context;
mod declaration;
mod instruction;
mod keyword;
mod law;
mod operand;
mod script;
mod source_line;

pub use context::Context;
pub use declaration::{DfcDecl, IdfcDecl, IrqBody, Op, Ops, ProcessDecl, QueueDecl, ThreadDecl};
pub use instruction::{Args, Instr, Instrs};
pub use keyword::Keyword;
pub use law::{is_shaped, names_resolve, numbers_are_in_range};
pub use operand::{BodyKind, Operand};
pub use script::{Script, Slot};
pub use source_line::{LineKind, SourceLine};
pub use sym_base::Limits;
