//! What a thread does next.
use crate::Holding;
use script_types::Instr;
use state_rows::Owed;

/// What a thread does next. That what is owed comes before instructions is this project's own rule, and so is how a
/// thread dies.
#[derive(Clone, Copy)]
pub enum Task {
    /// It comes to open the object that this instruction found by its name.
    Return(Instr),
    /// It pays the oldest of what it owes.
    Pay(Owed),
    /// It gives up the first of what it has: it is doomed, or a server that it owns is closing.
    GiveUp(Holding),
    /// It is doomed, and has given up all.
    Clean,
    /// It runs the call of its queue that comes next.
    RunDfc(u8),
    /// It buries the thread whose burial this call is, the next of its queue.
    Bury(usize),
    /// It makes the next step of its instruction.
    Step(Instr),
    /// At its list's end it gives up what protects it.
    Flush,
    /// At its list's end it ends.
    End,
}
