//! Moves of a thread's death in the kernel's tables.
ghost use Rattle.std.specs.Prelude.{◌≡◌};
ghost use Rattle.kernel_tables.specs.Moved.{CanMove, IsMoved};
ghost use Rattle.kernel_tables.specs.Noted.{TiedTables};
ghost use Rattle.kernel_tables.specs.StateOf.{state_of};

use crate::tables::Tables;
use machine::{DeathMove, Move};
use ref_words::RefWords;
use sym_base::ThreadNo;
use table_moves::{move_row, owe_burial};

/// One move in the rows of threads that die, in an action of a thread.
pub fn move_death<W: RefWords + Drop>(tables: &mut Tables<W>, thread: ThreadNo, change: &DeathMove)
    requires can { CanMove thread (Move.Death change.now) (state_of tables.old) }
    requires tied { TiedTables tables.old }
    ensures { IsMoved thread (Move.Death change.now) tables.old tables.new }
{
    move_row(&mut tables.procs, change);
    owe_burial(&mut tables.cleanup, thread, change);
}
