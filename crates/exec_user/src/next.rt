//! What comes after a step of an instruction. That the steps of an instruction have numbers, its phases, is this project's own.
ghost use Rattle.std.specs.Prelude.{◌≡◌, option_copied};
ghost use Rattle.exec_user.specs.Phases.{answered, doom_in, dooms_of, goes_on, next_of, phase_of};

use entry_log::Part;
use machine::{DeathMove, Move, ThreadRow, Waiting};
use sym_base::{Exit, ThreadNo};

/// What comes after a step of an instruction.
#[derive(Clone, Copy)]
pub enum Next {
    /// The instruction goes on to the step of this phase.
    Phase(u8),
    /// The thread waits. Once its wait is over, the instruction goes on.
    Waits,
    /// The instruction is over.
    Done,
    /// The step doomed this thread with this exit. The instruction is over where the step answered.
    Dooms(ThreadNo, Exit),
}

/// The phase of an instruction whose next step is this part, None being its first: 0 to 8.
pub fn phase_of(part: Option<Part>) -> u8
    ensures { result ≡ phase_of part }
{
    match part {
        None => 0,
        Some(Part::Seek) => 1,
        Some(Part::Return) => 2,
        Some(Part::Look) => 3,
        Some(Part::Make) => 4,
        Some(Part::Send) => 5,
        Some(Part::Do) => 6,
        Some(Part::Done) => 7,
        Some(Part::Piece) => 8,
    }
}

/// What comes after a step that didn't answer, for the thread of this row.
fn goes_on(row: &ThreadRow) -> Next
    ensures { result ≡ goes_on row.now }
{
    match row.waiting {
        Waiting::Nothing => Next::Phase(phase_of(row.part)),
        _ => Next::Waits,
    }
}

/// The end of the instruction where a step answered, else what the thread's row says.
fn answered(answer: Option<i32>, row: Option<&ThreadRow>) -> Next
    ensures { result ≡ answered answer (option_copied row.entry) }
{
    match (answer, row) {
        (None, Some(row)) => goes_on(row),
        _ => Next::Done,
    }
}

/// The thread that a move dooms, and its exit.
fn doom_in(change: &Move) -> Option<(ThreadNo, Exit)>
    ensures { result ≡ doom_in change.now }
{
    match change {
        Move::Death(DeathMove::Doom(thread, exit)) => Some((*thread, *exit)),
        _ => None,
    }
}

/// The first thread that moves doom, and its exit.
fn dooms_of(moves: &[Move]) -> Option<(ThreadNo, Exit)>
    ensures { result ≡ dooms_of moves.now }
{
    for index in 0..moves.len() {
        if let Some(doomed) = doom_in(&moves[index]) {
            return Some(doomed);
        }
    }
    None
}

/// What comes after a step with these moves: the thread that it doomed, the end of the instruction where it answered, else
/// what the thread's row says.
pub fn next_of(moves: &[Move], answer: Option<i32>, row: Option<&ThreadRow>) -> Next
    ensures { result ≡ next_of moves.now answer (option_copied row.entry) }
{
    match dooms_of(moves) {
        Some((thread, exit)) => Next::Dooms(thread, exit),
        None => answered(answer, row),
    }
}
