//! A move by which a note comes back.
ghost use Rattle.std.specs.Prelude.{◌≡◌, ◌+◌, length};
ghost use Rattle.entry_log.specs.declared.effect.Holder.TheVariants as holder;
ghost use Rattle.state_rows.specs.ObjectRows.{place_of};
ghost use Rattle.objects.specs.Rows.{StandsAt};
ghost use Rattle.machine.specs.declared.moves.Move.TheVariants as Move;
ghost use Rattle.machine.specs.Rows.{object_of, thread_of};
ghost use Rattle.machine.specs.WellFormed.{IsAlive};
ghost use Rattle.table_moves.specs.Notes.{IsNoteOut, notes_back};
ghost use Rattle.kernel_tables.specs.Moved.{IsMovedTo, UsesNothing};
ghost use Rattle.kernel_tables.specs.Noted.{AreKept};
ghost use Rattle.kernel_tables.specs.StateOf.{state_of};

use crate::tables::Tables;
use entry_log::{Holder, Part};
use ref_words::RefWords;
use sym_base::{ObjNo, ThreadNo};
use table_moves::{note_gain, threads_open};

/// A thread comes back with its note and opens an object that is alive, and goes on to this step. The reference that the note opened is
/// its own.
pub fn open_noted<W: RefWords + Drop>(
    tables: &mut Tables<W>,
    thread: ThreadNo,
    object: ObjNo,
    part: Part,
    note: W::Note,
)
    requires settled { W.IsSettled note }
    requires fits { W.Fits tables.old.objects.words note }
    requires sought { IsNoteOut tables.old.objects.notes (W.slip note) → StandsAt tables.old.objects.rows (W.slip note).place object.0 }
    requires place { IsNoteOut tables.old.objects.notes (W.slip note) → (W.slip note).place ≡ place_of (object_of (state_of tables.old) object) }
    requires alive { IsAlive (object_of (state_of tables.old) object) }
    requires unused { IsNoteOut tables.old.objects.notes (W.slip note) → UsesNothing (thread_of (state_of tables.old) thread) }
    requires kept { AreKept tables.old }
    ensures moved { (t : ObjNo) → IsMovedTo (notes_back (W.slip note) tables.old.objects.notes) t (Move.Open thread object part) tables.old tables.new }
    ensures was_out { IsNoteOut tables.old.objects.notes (W.slip note) }
    ensures fewer { length tables.new.objects.notes.out + 1 ≡ length tables.old.objects.notes.out }
{
    let _ = tables.objects.take_back(note);
    note_gain(&mut tables.cleanup, Holder::Temp(thread), object);
    threads_open(&mut tables.procs, thread, object, part);
}
