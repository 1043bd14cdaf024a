//! The two ends of a copy.
ghost use Rattle.std.specs.Prelude.{◌≡◌, ◌<◌, length, option_copied};
ghost use Rattle.copy_rules.specs.Ends.{argument_of, process_of, stage_of};

use state_rows::{MsgRow, Stage, ThreadRow};
use sym_base::{Arg, ObjNo};

/// The two ends of a copy.
#[derive(Clone, Copy)]
pub struct Ends {
    /// How far the death of the client is.
    pub stage: Stage,
    /// The client's process.
    pub client: ObjNo,
    /// The argument of the message.
    pub argument: Arg,
    /// The caller's process.
    pub caller: ObjNo,
}

/// How far the death of a thread is. One without a row is buried.
pub fn stage_of(row: Option<&ThreadRow>) -> Stage
    ensures { result ≡ stage_of (option_copied row.entry) }
{
    match row {
        Some(row) => row.stage,
        None => Stage::Buried,
    }
}

/// The process of a thread, the kernel's where it has no row.
pub fn process_of(row: Option<&ThreadRow>) -> ObjNo
    ensures { result ≡ process_of (option_copied row.entry) }
{
    match row {
        Some(row) => row.process,
        None => ObjNo(0),
    }
}

/// An argument of a message, 0 to 3.
pub fn argument_of(row: &MsgRow, arg: u8) -> Arg
    requires { arg < 4 }
    ensures { result ≡ argument_of row.now arg }
{
    row.args[arg as usize]
}
