//! Pieces of copies between the memories of processes, in the kernel's tables.
ghost use Rattle.std.specs.Prelude.{◌≡◌, ◌<◌, ◌≤◌, IsTrue};
ghost use Rattle.state_rows.specs.MessageRows.{is_taken};
ghost use Rattle.copy_rules.specs.declared.job.CopyMove.TheVariants as CopyMove;
ghost use Rattle.copy_rules.specs.Ends.{ends_of};
ghost use Rattle.copy_rules.specs.Pieces.{messages_after_write};
ghost use Rattle.copy_rules.specs.Sizes.{read_size, write_size};
ghost use Rattle.descopy.specs.Pieces.{after_read, after_write};
ghost use Rattle.machine.specs.FitsCopies.{FitsCopies};
ghost use Rattle.machine.specs.declared.moves.Move.TheVariants as Move;
ghost use Rattle.kernel_tables.specs.Moved.{IsMoved};
ghost use Rattle.kernel_tables.specs.Noted.{TiedTables};
ghost use Rattle.kernel_tables.specs.StateOf.{state_of};
ghost use Rattle.sym_base.specs.declared.number.ObjNo.{ObjNo};

use crate::tables::Tables;
use copy_rules::{CopyMove, Job};
use descopy::Descopy;
use messages::Messages;
use procs::Procs;
use ref_words::RefWords;

/// A piece of a read.
fn read_piece(procs: &mut Procs, messages: &mut Messages, job: Job)
    requires taken { IsTrue (is_taken messages.old job.m) }
    requires arg { job.arg < 4 }
    requires done { job.done ≤ read_size (ends_of procs.old.threads messages.old job) job }
    ensures copied { procs.new ≡ after_read procs.old (ends_of procs.old.threads messages.old job) job }
    ensures messages { messages.new ≡ messages.old }
{
    let mut copying = Descopy { procs, messages };
    let _ = copying.read_piece(job);
}

/// A piece of a write.
fn write_piece(procs: &mut Procs, messages: &mut Messages, job: Job)
    requires taken { IsTrue (is_taken messages.old job.m) }
    requires arg { job.arg < 4 }
    requires done { job.done ≤ write_size job }
    ensures copied { procs.new ≡ after_write procs.old (ends_of procs.old.threads messages.old job) job }
    ensures length { messages.new ≡ messages_after_write messages.old (ends_of procs.old.threads messages.old job) job }
{
    let mut copying = Descopy { procs, messages };
    let _ = copying.write_piece(job);
}

/// A piece of a read, in the tables.
fn read<W: RefWords + Drop>(tables: &mut Tables<W>, job: Job)
    requires can { FitsCopies (CopyMove.Read job) (state_of tables.old) }
    requires tied { TiedTables tables.old }
    ensures { (t : ObjNo) → IsMoved t (Move.Copies (CopyMove.Read job)) tables.old tables.new }
{
    read_piece(&mut tables.procs, &mut tables.messages, job)
}

/// A piece of a write, in the tables.
fn write<W: RefWords + Drop>(tables: &mut Tables<W>, job: Job)
    requires can { FitsCopies (CopyMove.Write job) (state_of tables.old) }
    requires tied { TiedTables tables.old }
    ensures { (t : ObjNo) → IsMoved t (Move.Copies (CopyMove.Write job)) tables.old tables.new }
{
    write_piece(&mut tables.procs, &mut tables.messages, job)
}

/// One piece of a copy.
pub fn move_copy<W: RefWords + Drop>(tables: &mut Tables<W>, change: CopyMove)
    requires can { FitsCopies change (state_of tables.old) }
    requires tied { TiedTables tables.old }
    ensures { (t : ObjNo) → IsMoved t (Move.Copies change) tables.old tables.new }
{
    match change {
        CopyMove::Read(job) => read(tables, job),
        CopyMove::Write(job) => write(tables, job),
    }
}
