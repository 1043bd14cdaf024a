//! Moves in the rows of threads that die, made on the plain machine's lists.
ghost use Rattle.std.specs.Prelude.{◌≡◌, option_map, OnOk};
ghost use Rattle.machine.specs.DeathMoves.{death_owed, death_row, death_thread};
ghost use Rattle.machine.specs.Moves.{moved};
ghost use Rattle.machine.specs.Rows.{with_row};

use entry_log::Holder;
use machine::{DeathMove, Move, Owed, State, ThreadRow, Waiting};
use state_rows::Stage;
use sym_base::{Items, NoMemory, ThreadNo};

/// The row of a thread changes.
fn change_row(row: &mut ThreadRow, change: &DeathMove)
    ensures { row.new ≡ death_row change.now row.old }
{
    match *change {
        DeathMove::Note(_, exit) => row.noted = Some(exit),
        DeathMove::Doom(_, exit) => {
            row.stage = Stage::Doomed;
            row.exit = Some(exit);
            row.waiting = Waiting::Nothing;
        }
        DeathMove::Clean(_) => row.stage = Stage::Cleaned,
        DeathMove::Bury(_) => row.stage = Stage::Buried,
    }
}

/// The row changes, where there is one.
fn change_where(row: &mut Option<ThreadRow>, change: &DeathMove)
    ensures { row.new ≡ option_map (death_row change.now) row.old }
{
    if let Some(row) = row {
        change_row(row, change);
    }
}

/// The row of a thread that dies changes.
fn change_threads(threads: &mut Items<Option<ThreadRow>>, change: &DeathMove)
    ensures { threads.new ≡ with_row threads.old (death_thread change.now) (death_row change.now) }
{
    let at = change.thread().0 as usize;
    if at < threads.len() {
        change_where(threads.get_mut(at), change);
    }
}

/// Whoever buries a thread owes the close of the kernel's own reference to it.
fn owe_burial(
    owed: &mut Items<Items<Owed>>,
    thread: ThreadNo,
    change: &DeathMove,
) -> Result<(), NoMemory>
    ensures { OnOk result (owed.new ≡ death_owed thread change.now owed.old) }
{
    let at = thread.0 as usize;
    if let DeathMove::Bury(other) = *change {
        if at < owed.len() {
            owed.get_mut(at).push(Owed::Close(Holder::Kernel, other))?;
        }
    }
    Ok(())
}

/// One move in the rows of threads that die, in an action of a thread.
pub fn make_death_move(
    state: &mut State,
    thread: ThreadNo,
    change: &DeathMove,
) -> Result<(), NoMemory>
    ensures { OnOk result (state.new ≡ moved thread (Move.Death change.now) state.old) }
{
    change_threads(&mut state.references.threads, change);
    owe_burial(&mut state.references.owed, thread, change)
}
