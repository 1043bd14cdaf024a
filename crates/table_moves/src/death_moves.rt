//! Moves in the rows of threads that die.
ghost use Rattle.std.specs.Prelude.{◌≡◌, ◌+◌, ◌≤◌, Some, length};
ghost use Rattle.cleanup.specs.Lists.{list_of};
ghost use Rattle.machine.specs.DeathMoves.{death_owed, death_row, death_thread};
ghost use Rattle.machine.specs.Rows.{with_row};
ghost use Rattle.table_moves.specs.Dying.{waited, with_exit, with_stage};
ghost use Rattle.table_moves.specs.Noted.{with_duties};
ghost use Rattle.table_moves.specs.ThreadRows.{with_threads};

use crate::duties::owe;
use cleanup::Cleanup;
use entry_log::Holder;
use machine::{DeathMove, Owed, Waiting};
use procs::Procs;
use state_rows::Stage;
use sym_base::{Exit, ThreadNo};

/// An exit is noted of a thread.
fn note(procs: &mut Procs, thread: ThreadNo, exit: Exit)
    ensures { procs.new ≡ with_threads procs.old (with_row procs.old.threads thread (death_row (DeathMove.Note thread exit))) }
{
    if procs.is_thread(thread) {
        procs.set_noted(thread, Some(exit));
    }
}

/// A thread's wait is over.
fn end_wait(procs: &mut Procs, thread: ThreadNo)
    ensures { procs.new ≡ with_threads procs.old (with_row procs.old.threads thread waited) }
{
    if procs.is_thread(thread) {
        procs.set_waiting(thread, Waiting::Nothing);
    }
}

/// A thread has this exit.
fn set_exit(procs: &mut Procs, thread: ThreadNo, exit: Exit)
    ensures { procs.new ≡ with_threads procs.old (with_row procs.old.threads thread (with_exit exit)) }
{
    if procs.is_thread(thread) {
        procs.set_exit(thread, Some(exit));
    }
}

/// A thread's death is at this stage.
fn set_stage(procs: &mut Procs, thread: ThreadNo, stage: Stage)
    ensures { procs.new ≡ with_threads procs.old (with_row procs.old.threads thread (with_stage stage)) }
{
    if procs.is_thread(thread) {
        procs.set_stage(thread, stage);
    }
}

/// A thread is doomed with this exit.
fn doom(procs: &mut Procs, thread: ThreadNo, exit: Exit)
    ensures { procs.new ≡ with_threads procs.old (with_row procs.old.threads thread (death_row (DeathMove.Doom thread exit))) }
{
    end_wait(procs, thread);
    set_exit(procs, thread, exit);
    set_stage(procs, thread, Stage::Doomed);
}

/// A thread has given up all that it had.
fn clean(procs: &mut Procs, thread: ThreadNo)
    ensures { procs.new ≡ with_threads procs.old (with_row procs.old.threads thread (death_row (DeathMove.Clean thread))) }
{
    set_stage(procs, thread, Stage::Cleaned);
}

/// A thread's death is finished.
fn bury(procs: &mut Procs, thread: ThreadNo)
    ensures { procs.new ≡ with_threads procs.old (with_row procs.old.threads thread (death_row (DeathMove.Bury thread))) }
{
    set_stage(procs, thread, Stage::Buried);
}

/// The row of a thread that dies changes.
pub fn move_row(procs: &mut Procs, change: &DeathMove)
    ensures { procs.new ≡ with_threads procs.old (with_row procs.old.threads (death_thread change.now) (death_row change.now)) }
{
    match *change {
        DeathMove::Note(thread, exit) => note(procs, thread, exit),
        DeathMove::Doom(thread, exit) => doom(procs, thread, exit),
        DeathMove::Clean(thread) => clean(procs, thread),
        DeathMove::Bury(thread) => bury(procs, thread),
    }
}

/// Whoever buries a thread owes the close of the kernel's own reference to it.
pub fn owe_burial(cleanup: &mut Cleanup, thread: ThreadNo, change: &DeathMove)
    requires { length (list_of cleanup.old.duties thread) + 1 ≤ 16 }
    ensures { cleanup.new ≡ with_duties cleanup.old (death_owed thread change.now cleanup.old.duties) }
{
    match *change {
        DeathMove::Bury(other) => owe(cleanup, thread, Owed::Close(Holder::Kernel, other)),
        DeathMove::Note(_, _) | DeathMove::Doom(_, _) | DeathMove::Clean(_) => {}
    }
}
