//! The history goes on: an actor acts, and the last entry tells what it did.
ghost use Rattle.std.specs.Prelude.{◌≡◌, ◌≢◌, ◌+◌, ◌<◌, ◌≤◌, ◌++◌, ◌∷◌, List, [], length, None, true, false, IfSome, option_map, vec_capacity};
ghost use Rattle.sym_base.specs.declared.limits.TheConstants.Limits.{SHARED_HISTORY};
ghost use Rattle.sym_base.specs.declared.number.ObjNo.{ObjNo};
ghost use Rattle.entry_log.specs.declared.entry.Actor.TheVariants.{Thread};
ghost use Rattle.ready_list.specs.Arrival.{AreQueuesOf};
ghost use Rattle.machine.specs.Choice.{priority_of};
ghost use Rattle.machine.specs.History.{entry_of, CanAct};
ghost use Rattle.machine.specs.Run.{slot_actor};
ghost use Rattle.machine_safe.specs.FindsAndReturns.{is_out_actor};
ghost use Rattle.table_moves.specs.Notes.{IsNoteOut, notes_back};
ghost use Rattle.kernel_tables.specs.Choosing.{MayChoose};
ghost use Rattle.kernel_tables.specs.CoreView.{RunsScript};
ghost use Rattle.kernel_tables.specs.ReadyQueues.{pairs};
ghost use Rattle.kcore.specs.Acting.{acting, Went, WentAt};
ghost use Rattle.kcore.specs.Finds.{found_in, seek_in};
ghost use Rattle.kcore.specs.Sending.{MayComeBack, MaySend, notes_after, slip_after};

use crate::act::transition;
use crate::back::come_back;
use entry_log::{Actor, Effect, Effects, Entry, Step};
use kernel_tables::Core;
use ref_words::RefWords;
use script_types::{Script, Slot};
use sym_base::{ObjNo, ThreadNo};

/// The interrupt that a slot brings. Most slots bring none.
#[cold]
#[inline(never)]
fn interrupt(number: u8) -> Actor
    ensures { result ≡ Actor.Irq number }
{
    Actor::Irq(number)
}

/// Whom a slot lets act.
pub fn slot_actor<W: RefWords + Drop>(core: &Core<W>, slot: Slot) -> Actor
    ensures { (qs : List ObjNo) → AreQueuesOf (pairs (priority_of core.now.state) qs) core.now.ready → result ≡ slot_actor core.now.state qs slot }
{
    match slot {
        Slot::Go => core.chosen(),
        Slot::Irq(number) => interrupt(number),
        Slot::Tick => Actor::Tick,
    }
}

/// An entry of an actor at a place, which tells nothing yet.
fn new_entry(place: u32, actor: Actor) -> Entry
    ensures { result ≡ entry_of place actor (record { step = Step.Wait; effects = []; answer = None }) }
{
    Entry {
        place,
        actor,
        step: Step::Wait,
        effects: Effects::new(),
        answer: None,
    }
}

/// Whether an actor is nobody.
#[inline(always)]
pub fn is_nobody(actor: Actor) -> bool
    ensures nobody { result ≡ true → actor ≡ Actor.Idle }
    ensures somebody { result ≡ false → actor ≢ Actor.Idle }
{
    matches!(actor, Actor::Idle)
}

/// Nobody acts, told by one entry more, of this place in the history.
#[inline(always)]
pub fn rest_at(entries: &mut Vec<Entry>, place: u32)
    requires { length entries.old.items < vec_capacity entries.old }
    ensures longer { entries.new.items ≡ entries.old.items ++ entry_of place Actor.Idle (record { step = Step.Wait; effects = []; answer = None }) ∷ [] }
    ensures capacity { vec_capacity entries.new ≡ vec_capacity entries.old }
{
    entries.push_reserved(new_entry(place, Actor::Idle));
}

/// The same behind a whole history.
#[inline(always)]
pub fn rest(history: &mut Vec<Entry>)
    requires few { length history.old.items < SHARED_HISTORY }
    requires room { length history.old.items < vec_capacity history.old }
    ensures longer { history.new.items ≡ history.old.items ++ entry_of (length history.old.items + 1) Actor.Idle (record { step = Step.Wait; effects = []; answer = None }) ∷ [] }
    ensures capacity { vec_capacity history.old ≤ vec_capacity history.new }
{
    let place = history.as_slice().len() as u32 + 1;
    rest_at(history, place);
}

/// One atomic action of an actor that may act and isn't out, told by one entry more, of this place in the history.
pub fn go_at<W: RefWords + Drop>(
    script: &Script,
    core: &mut Core<W>,
    entries: &mut Vec<Entry>,
    place: u32,
    actor: Actor,
)
    requires runs { RunsScript script.now core.old }
    requires may { MayChoose (acting actor) core.old.notes core.old.state }
    requires can { CanAct script.now core.old.state actor }
    requires stays { is_out_actor core.old.state actor ≡ false }
    requires room { length entries.old.items < vec_capacity entries.old }
    ensures went { WentAt script.now place entries.old.items entries.new.items core.old core.new actor }
    ensures notes { core.new.notes ≡ core.old.notes }
    ensures capacity { vec_capacity entries.new ≡ vec_capacity entries.old }
{
    let at = entries.as_slice().len();
    entries.push_reserved(new_entry(place, actor));
    transition(script, core, actor, &mut entries[at]);
}

/// The same behind a whole history.
pub fn go<W: RefWords + Drop>(
    script: &Script,
    core: &mut Core<W>,
    history: &mut Vec<Entry>,
    actor: Actor,
)
    requires runs { RunsScript script.now core.old }
    requires may { MayChoose (acting actor) core.old.notes core.old.state }
    requires can { CanAct script.now core.old.state actor }
    requires stays { is_out_actor core.old.state actor ≡ false }
    requires few { length history.old.items < SHARED_HISTORY }
    requires room { length history.old.items < vec_capacity history.old }
    ensures went { Went script.now history.old.items history.new.items core.old core.new actor }
    ensures notes { core.new.notes ≡ core.old.notes }
    ensures capacity { vec_capacity history.old ≤ vec_capacity history.new }
{
    let place = history.as_slice().len() as u32 + 1;
    go_at(script, core, history, place, actor);
}

/// A thread comes back from a find with the note of it, told by one entry more.
pub fn go_back<W: RefWords + Drop>(
    script: &Script,
    core: &mut Core<W>,
    history: &mut Vec<Entry>,
    thread: ThreadNo,
    note: W::Note,
)
    requires runs { RunsScript script.now core.old }
    requires may { MayComeBack script.now (W.slip note) thread core.old.notes core.old.state }
    requires settled { W.IsSettled note }
    requires fits { W.Fits core.old.words note }
    requires few { length history.old.items ≤ SHARED_HISTORY }
    requires room { IsNoteOut core.old.notes (W.slip note) → length history.old.items < vec_capacity history.old }
    ensures went { Went script.now history.old.items history.new.items core.old core.new (Thread thread) }
    ensures notes { core.new.notes ≡ notes_back (W.slip note) core.old.notes }
    ensures was_out { IsNoteOut core.old.notes (W.slip note) }
    ensures fewer { length core.new.notes.out + 1 ≡ length core.old.notes.out }
    ensures capacity { vec_capacity history.old ≤ vec_capacity history.new }
{
    let at = history.as_slice().len();
    let mut entry = new_entry(at as u32 + 1, Actor::Thread(thread));
    come_back(script, core, thread, note, &mut entry);
    history.push_reserved(entry);
}

/// The object that an effect finds by its name.
fn seek_in(effect: &Effect) -> Option<ObjNo>
    ensures { result ≡ seek_in effect.now }
{
    match *effect {
        Effect::Seek(object) => Some(object),
        _ => None,
    }
}

/// The object that effects find by its name.
pub fn found_in(effects: &[Effect]) -> Option<ObjNo>
    ensures { result ≡ found_in effects.now }
{
    for effect in effects {
        if let Some(object) = seek_in(effect) {
            return Some(object);
        }
    }
    None
}

/// Sends the note of what was found out, if anything was.
pub fn send<W: RefWords + Drop>(
    core: &mut Core<W>,
    out: &mut u32,
    found: Option<ObjNo>,
) -> Option<W::Note>
    requires may { IfSome found (λ object. MaySend core.old.notes core.old.state object) }
    requires counted { out.old ≡ length core.old.notes.out }
    ensures state { core.new.state ≡ core.old.state }
    ensures ready { core.new.ready ≡ core.old.ready }
    ensures slip { option_map (λ note. W.slip note) result ≡ slip_after core.old.state found core.old.notes }
    ensures notes { core.new.notes ≡ notes_after (slip_after core.old.state found core.old.notes) core.old.notes }
    ensures note { IfSome result (λ note. W.IsNew note × (W.origin note ≡ core.new.notes.identity) × W.Fits core.new.words note) }
    ensures counted { out.new ≡ length core.new.notes.out }
{
    let Some(object) = found else {
        return None;
    };
    let note = core.send_out(object);
    *out += 1;
    Some(note)
}
