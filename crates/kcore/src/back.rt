//! A thread comes back from a find with its note.
ghost use Rattle.std.specs.Prelude.{◌≡◌, ◌+◌, Some, true, false, [], length};
ghost use Rattle.sym_base.specs.declared.word.Word.{Word};
ghost use Rattle.script_types.specs.Shape.{IsShaped};
ghost use Rattle.entry_log.specs.declared.step.Part.{Part};
ghost use Rattle.state_rows.specs.declared.thread.ThreadRow.{ThreadRow};
ghost use Rattle.machine.specs.Find.{is_open, return_to};
ghost use Rattle.machine.specs.Rows.{object_of, thread_of};
ghost use Rattle.machine.specs.Steps.{decision_of};
ghost use Rattle.table_moves.specs.Notes.{IsNoteOut, notes_back};
ghost use Rattle.kernel_tables.specs.CoreView.{RunsScript};
ghost use Rattle.kcore.specs.Done.{CarriesOut, WasMade};
ghost use Rattle.kcore.specs.Sending.{MayComeBack, part_in, part_of_move};
ghost use Rattle.kcore.specs.Told.{IsTold, told_in};

use crate::plans::finish;
use entry_log::{Effects, Entry, Part};
use kernel_tables::Core;
use machine::{Decision, Move};
use next_actions::decide_action;
use ref_words::RefWords;
use script_types::Script;
use sym_base::{ObjNo, ThreadNo};

/// The number that a thread's find found.
fn found_by<W: RefWords + Drop>(core: &Core<W>, thread: ThreadNo) -> ObjNo
    ensures { (row : ThreadRow) → thread_of core.now.state thread ≡ Some row → result ≡ row.sought }
{
    match core.tables.procs.thread(thread) {
        Some(row) => row.sought,
        None => ObjNo(0),
    }
}

/// Whether an object of a place has this number and isn't dead.
fn is_open<W: RefWords + Drop>(core: &Core<W>, object: ObjNo, place: u32) -> bool
    ensures { result ≡ is_open place (object_of core.now.state object) }
{
    match core.tables.objects.row(object) {
        Some(row) => !row.dead && row.place == u64::from(place),
        None => false,
    }
}

/// The step to which a return goes on that opens something by this move.
fn part_of_move(change: &Move) -> Part
    ensures { result ≡ part_of_move change.now }
{
    match *change {
        Move::Open(_, _, part) => part,
        _ => Part::Do,
    }
}

/// The step to which the return goes on that was decided.
fn part_back(decision: &Decision) -> Part
    ensures { result ≡ part_in decision.now.moves }
{
    match decision.moves.as_slice().get(0) {
        Some(change) => part_of_move(change),
        None => Part::Do,
    }
}

/// The return of a thread is decided: it comes before all else that the thread does.
fn decide_back<W: RefWords + Drop>(script: &Script, core: &mut Core<W>, thread: ThreadNo)
    requires shaped { IsShaped script.now }
    ensures decision { (row : ThreadRow) (word : Word) (part : Part) → decision_of script.now core.old.state thread ≡ return_to core.old.state thread row word part → core.new.decision ≡ decision_of script.now core.old.state thread }
    ensures state { core.new.state ≡ core.old.state }
    ensures ready { core.new.ready ≡ core.old.ready }
    ensures words { core.new.words ≡ core.old.words }
    ensures notes { core.new.notes ≡ core.old.notes }
{
    let _ = decide_action(&mut core.decision, script, &core.tables, thread);
}

/// The return that was decided opens the note's object, which is alive. The reference that the note opened is the thread's from now on.
fn open_back<W: RefWords + Drop>(
    script: &Script,
    core: &mut Core<W>,
    thread: ThreadNo,
    object: ObjNo,
    note: W::Note,
    effects: &mut Effects,
)
    requires runs { RunsScript script.now core.old }
    requires may { MayComeBack script.now (W.slip note) thread core.old.notes core.old.state }
    requires settled { W.IsSettled note }
    requires fits { W.Fits core.old.words note }
    requires object { (row : ThreadRow) → thread_of core.old.state thread ≡ Some row → object ≡ row.sought }
    requires opened { is_open (W.slip note).place (object_of core.old.state object) ≡ true }
    requires decided { IsNoteOut core.old.notes (W.slip note) → core.old.decision ≡ decision_of script.now core.old.state thread }
    requires empty { effects.old ≡ [] }
    ensures made { WasMade script.now thread core.old.decision core.old core.new effects.new }
    ensures notes { core.new.notes ≡ notes_back (W.slip note) core.old.notes }
    ensures was_out { IsNoteOut core.old.notes (W.slip note) }
    ensures fewer { length core.new.notes.out + 1 ≡ length core.old.notes.out }
{
    let part = part_back(&core.decision);
    core.open_back(script, thread, object, part, note, effects);
}

/// The return that was decided finds the note's object dead or swept. The note is dropped.
fn miss_back<W: RefWords + Drop>(
    script: &Script,
    core: &mut Core<W>,
    thread: ThreadNo,
    note: W::Note,
    effects: &mut Effects,
)
    requires runs { RunsScript script.now core.old }
    requires may { MayComeBack script.now (W.slip note) thread core.old.notes core.old.state }
    requires settled { W.IsSettled note }
    requires fits { W.Fits core.old.words note }
    requires shut { (row : ThreadRow) → thread_of core.old.state thread ≡ Some row → is_open (W.slip note).place (object_of core.old.state row.sought) ≡ false }
    requires decided { IsNoteOut core.old.notes (W.slip note) → core.old.decision ≡ decision_of script.now core.old.state thread }
    requires empty { effects.old ≡ [] }
    ensures made { WasMade script.now thread core.old.decision core.old core.new effects.new }
    ensures notes { core.new.notes ≡ notes_back (W.slip note) core.old.notes }
    ensures was_out { IsNoteOut core.old.notes (W.slip note) }
    ensures fewer { length core.new.notes.out + 1 ≡ length core.old.notes.out }
{
    core.drop_note(note);
    let _ = core.make(script, thread, effects);
}

/// The return that was decided is made, and the note is no longer out.
fn make_back<W: RefWords + Drop>(
    script: &Script,
    core: &mut Core<W>,
    thread: ThreadNo,
    note: W::Note,
    effects: &mut Effects,
)
    requires runs { RunsScript script.now core.old }
    requires may { MayComeBack script.now (W.slip note) thread core.old.notes core.old.state }
    requires settled { W.IsSettled note }
    requires fits { W.Fits core.old.words note }
    requires decided { IsNoteOut core.old.notes (W.slip note) → core.old.decision ≡ decision_of script.now core.old.state thread }
    requires empty { effects.old ≡ [] }
    ensures made { WasMade script.now thread core.old.decision core.old core.new effects.new }
    ensures notes { core.new.notes ≡ notes_back (W.slip note) core.old.notes }
    ensures was_out { IsNoteOut core.old.notes (W.slip note) }
    ensures fewer { length core.new.notes.out + 1 ≡ length core.old.notes.out }
{
    let object = found_by(core, thread);
    if is_open(core, object, W::place_of(&note)) {
        open_back(script, core, thread, object, note, effects);
    } else {
        miss_back(script, core, thread, note, effects);
    }
}

/// The return of a thread that is out, with its note.
pub fn come_back<W: RefWords + Drop>(
    script: &Script,
    core: &mut Core<W>,
    thread: ThreadNo,
    note: W::Note,
    entry: &mut Entry,
)
    requires runs { RunsScript script.now core.old }
    requires may { MayComeBack script.now (W.slip note) thread core.old.notes core.old.state }
    requires settled { W.IsSettled note }
    requires fits { W.Fits core.old.words note }
    requires empty { entry.old.effects ≡ [] }
    ensures told { IsTold entry.old entry.new }
    ensures does { CarriesOut script.now thread core.old core.new (told_in entry.new) (decision_of script.now core.old.state thread) }
    ensures notes { core.new.notes ≡ notes_back (W.slip note) core.old.notes }
    ensures was_out { IsNoteOut core.old.notes (W.slip note) }
    ensures fewer { length core.new.notes.out + 1 ≡ length core.old.notes.out }
{
    decide_back(script, core, thread);
    make_back(script, core, thread, note, &mut entry.effects);
    finish(script, core, thread, false, entry);
}
