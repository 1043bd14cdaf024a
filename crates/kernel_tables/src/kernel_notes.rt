//! Notes that the core sends out and takes back.
ghost use Rattle.std.specs.Prelude.{◌≡◌, ◌+◌, ◌<◌, false, [], ◌∷◌, length};
ghost use Rattle.state_rows.specs.ObjectRows.{place_of};
ghost use Rattle.objects.specs.Rows.{HasAlive, StandsAt, is_alive};
ghost use Rattle.machine.specs.declared.moves.Move.TheVariants as Move;
ghost use Rattle.machine.specs.References.{count_of};
ghost use Rattle.machine.specs.Rows.{object_of, thread_of};
ghost use Rattle.machine.specs.WellFormed.{IsAlive};
ghost use Rattle.table_moves.specs.Notes.{IsNoteOut, next_slip, notes_back, notes_sent};
ghost use Rattle.table_moves.specs.ObjectsView.{IsThere};
ghost use Rattle.kernel_tables.specs.Moved.{MoveRuns, UsesNothing};
ghost use Rattle.kernel_tables.specs.Performed.{IsPerformed};

use crate::kernel_core::Core;
use crate::note_moves::open_noted;
use crate::ready::arrive_touched;
use entry_log::{Effect, Effects, Holder, Part};
use machine::{Move, touched};
use ref_words::RefWords;
use script_types::Script;
use sym_base::{ObjNo, ThreadNo};

impl<W: RefWords + Drop> Core<W> {
    /// Sends a note out for an unswept object that has references or isn't alive, of its place. The tables stand for the same state.
    pub fn send_out(&mut self, object: ObjNo) -> W::Note
        requires there { IsThere (object_of self.old.state object) }
        requires known_or_gone { count_of self.old.state object ≡ 0 → is_alive (object_of self.old.state object) ≡ false }
        requires few { count_of self.old.state object < 65536 }
        requires few_out { length self.old.notes.out < 64 }
        requires few_made { self.old.notes.made < 4294967295 }
        ensures state { self.new.state ≡ self.old.state }
        ensures ready { self.new.ready ≡ self.old.ready }
        ensures decision { self.new.decision ≡ self.old.decision }
        ensures notes { self.new.notes ≡ notes_sent self.old.notes (place_of (object_of self.old.state object)) }
        ensures note { W.slip result ≡ next_slip self.old.notes (place_of (object_of self.old.state object)) }
        ensures is_new { W.IsNew result }
        ensures origin_is { W.origin result ≡ self.old.notes.identity }
        ensures fits { W.Fits self.new.words result }
    {
        self.tables.objects.send_out(object)
    }

    /// A note comes back whose object isn't alive any more, and opens nothing. The tables stand for the same state.
    pub fn drop_note(&mut self, note: W::Note)
        requires settled { W.IsSettled note }
        requires fits { W.Fits self.old.words note }
        requires over { IsNoteOut self.old.notes (W.slip note) → HasAlive self.old.state.references.objects (W.slip note).place → ⊥ }
        ensures state { self.new.state ≡ self.old.state }
        ensures ready { self.new.ready ≡ self.old.ready }
        ensures decision { self.new.decision ≡ self.old.decision }
        ensures notes { self.new.notes ≡ notes_back (W.slip note) self.old.notes }
        ensures was_out { IsNoteOut self.old.notes (W.slip note) }
        ensures fewer { length self.new.notes.out + 1 ≡ length self.old.notes.out }
    {
        let _ = self.tables.objects.take_back(note);
    }

    /// A thread comes back with its note, opens an object that is alive, and goes on to this step. Its effect comes into an empty list.
    /// What is asked of the note's object and of the thread is asked only of a note that is out: that this one is, is told.
    pub fn open_back(
        &mut self,
        script: &Script,
        thread: ThreadNo,
        object: ObjNo,
        part: Part,
        note: W::Note,
        effects: &mut Effects,
    )
        requires settled { W.IsSettled note }
        requires fits { W.Fits self.old.words note }
        requires sought { IsNoteOut self.old.notes (W.slip note) → StandsAt self.old.state.references.objects (W.slip note).place object.0 }
        requires place { IsNoteOut self.old.notes (W.slip note) → (W.slip note).place ≡ place_of (object_of self.old.state object) }
        requires alive { IsAlive (object_of self.old.state object) }
        requires unused { IsNoteOut self.old.notes (W.slip note) → UsesNothing (thread_of self.old.state thread) }
        requires runs { IsNoteOut self.old.notes (W.slip note) → MoveRuns script.now thread (Move.Open thread object part) self.old.state }
        requires empty { effects.old ≡ [] }
        ensures decision { self.new.decision ≡ self.old.decision }
        ensures notes { self.new.notes ≡ notes_back (W.slip note) self.old.notes }
        ensures was_out { IsNoteOut self.old.notes (W.slip note) }
        ensures fewer { length self.new.notes.out + 1 ≡ length self.old.notes.out }
        ensures performed { IsPerformed script.now thread (Move.Open thread object part ∷ []) self.old.state self.new.state self.old.ready self.new.ready [] effects.new }
    {
        let change = Move::Open(thread, object, part);
        effects.push(Effect::Plus(Holder::Temp(thread), object));
        open_noted(&mut self.tables, thread, object, part, note);
        arrive_touched(
            script,
            &self.tables,
            &mut self.ready,
            touched(thread, &change),
        );
    }
}
