//! Callers who share a kernel: they keep the notes of the threads that are out, and bring them back when they like.
ghost use Rattle.std.specs.Prelude.{◌≡◌, ◌+◌, ◌≤◌, ◌++◌, ◌∷◌, [], ℕ, List, IfOk, IfSome, IsTrue, None, Some, length, get_or, set, true};
ghost use Rattle.sym_base.specs.declared.number.ObjNo.{ObjNo};
ghost use Rattle.script_types.specs.Source.{IsWellFormed};
ghost use Rattle.entry_log.specs.declared.entry.Actor.TheVariants.{Thread};
ghost use Rattle.entry_log.specs.declared.entry.Entry.{Entry};
ghost use Rattle.ref_words.specs.declared.slip.Slip.{Slip};
ghost use Rattle.machine.specs.History.{after_in};
ghost use Rattle.machine.specs.Slots.{IsDeclared};
ghost use Rattle.machine_safe.specs.FindsAndReturns.{away};
ghost use Rattle.table_moves.specs.Notes.{notes_of};
ghost use Rattle.kcore.specs.KernelMode.{Suits, mode_of};
ghost use Rattle.kernel_tests.specs.Callers.{notes_kept};

use entry_log::{Actor, Entry, FinalRow};
use kcore::{Kernel, places_for};
use ref_words::{PlainNote, PlainWords};
use script_types::{Script, Slot};
use std::alloc::Global;
use std::marker::Model;
use std::mem;
use sym_base::{NoMemory, ObjNo, ThreadNo};

/// The entries that the kernel has room for.
const ROOM: u32 = 1000;

/// Above the number of each thread of the scripts.
const THREADS: usize = 32;

/// What a caller does.
#[derive(Clone, Copy)]
pub enum Deed {
    /// A slot of a schedule comes.
    Comes(Slot),
    /// A thread acts, whoever the schedule would choose.
    Acts(ThreadNo),
    /// A thread that is out comes back with its note.
    Returns(ThreadNo),
    /// A slot of a schedule comes, and whoever finds an object comes back at once.
    AtOnce(Slot),
}

/// Whether the kernel has room for an entry, and for the returns of all who are out then.
fn has_room(kernel: &Kernel<PlainWords>) -> bool
    requires suits { Suits true kernel.now.mode }
    requires room { kernel.now.room ≡ 1000 }
    ensures room { IsTrue result → length kernel.now.history + away (after_in true kernel.now.script kernel.now.history) + 2 ≤ kernel.now.room }
    ensures notes { kernel.now.notes ≡ notes_of kernel.now.words }
    ensures mode { kernel.now.mode ≡ mode_of true kernel.now.history }
{
    let made = kernel.history().len() as u64;
    let out = kernel.notes_out() as u64;
    made + out + 2 <= ROOM as u64
}

/// Whether a slot may come: of an interrupt, one that the script declares.
fn may_come(kernel: &Kernel<PlainWords>, slot: Slot) -> bool
    ensures { IsTrue result → IsDeclared kernel.now.script slot }
{
    match slot {
        Slot::Irq(number) => kernel.declares(number),
        Slot::Go | Slot::Tick => true,
    }
}

/// The thread whose entry is the last one. The kernel's own where it is no thread's.
fn last_thread(history: &[Entry]) -> ThreadNo
    ensures { (before : List Entry) (e : Entry) (t : ObjNo) → history.now ≡ before ++ e ∷ [] → e.actor ≡ Thread t → result ≡ t }
{
    match history.last() {
        Some(entry) => match entry.actor {
            Actor::Thread(thread) => thread,
            _ => ObjNo(0),
        },
        None => ObjNo(0),
    }
}

/// Nobody has a note.
fn no_notes(alloc: Global) -> Result<Vec<Option<PlainNote>>, NoMemory>
    ensures { IfOk result (λ notes. (t : ℕ) → get_or notes.items t None ≡ None) }
{
    let mut notes = Vec::new(alloc);
    for _thread in 0..THREADS {
        notes.push(None)?;
    }
    Ok(notes)
}

/// The note that a thread was answered is kept at its number.
fn keep(notes: &mut Vec<Option<PlainNote>>, thread: ThreadNo, note: Option<PlainNote>)
    ensures { notes.new.items ≡ notes_kept notes.old.items thread.0 note }
{
    let at = thread.0 as usize;
    if let Some(note) = note {
        if at < notes.len() {
            notes[at] = Some(note);
        }
    }
}

/// The note of a thread. None where it has none.
fn take(notes: &mut Vec<Option<PlainNote>>, thread: ThreadNo) -> Option<PlainNote>
    ensures taken { IfSome result (λ note. get_or notes.old.items thread.0 None ≡ Some note) }
    ensures left { notes.new.items ≡ set notes.old.items thread.0 None }
{
    let at = thread.0 as usize;
    if at < notes.len() {
        mem::replace(&mut notes[at], None)
    } else {
        None
    }
}

/// A kernel that callers share, with the notes of the threads that are out, each at its thread's number.
#[derive(Drop)]
pub struct Callers {
    kernel: Kernel<PlainWords>,
    notes: Vec<Option<PlainNote>>,
}

impl Model for Callers {
    ghost use Rattle.ref_words.specs.Words.{Words};
    ghost use Rattle.kcore.specs.KernelView.{KernelView};
    ghost use Rattle.kernel_tests.specs.Callers.{AreCallers};

    ghost Value = { KernelView Words };

    ghost view = { λ c. c.kernel };

    ghost invariant = { λ c. AreCallers 1000 c.kernel c.notes.items };
}

impl Callers {
    /// A kernel that nobody has called yet.
    pub fn new(alloc: Global, script: Script) -> Result<Callers, NoMemory>
        requires { IsWellFormed script }
    {
        let notes = no_notes(alloc)?;
        let words = PlainWords::new(alloc, places_for(script.version, ROOM))?;
        let kernel = Kernel::boot(alloc, script, words, ROOM)?;
        let callers = Callers { kernel, notes };
        Ok(callers)
    }

    /// A slot comes.
    fn comes(&mut self, slot: Slot) {
        if !has_room(&self.kernel) {
            return;
        }
        if !may_come(&self.kernel, slot) {
            return;
        }
        let note = self.kernel.slot_out(slot);
        let _out = self.kernel.notes_out();
        let thread = last_thread(self.kernel.history());
        keep(&mut self.notes, thread, note);
    }

    /// A thread acts.
    fn acts(&mut self, thread: ThreadNo) {
        if !has_room(&self.kernel) {
            return;
        }
        if !self.kernel.able(thread) {
            return;
        }
        let note = self.kernel.act_out(thread);
        let _out = self.kernel.notes_out();
        keep(&mut self.notes, thread, note);
    }

    /// A thread that is out comes back.
    fn returns(&mut self, thread: ThreadNo) {
        if !has_room(&self.kernel) {
            return;
        }
        let Some(note) = take(&mut self.notes, thread) else {
            return;
        };
        self.kernel.come_back(thread, note);
    }

    /// A slot comes, and whoever finds an object comes back at once.
    fn comes_at_once(&mut self, slot: Slot) {
        self.comes(slot);
        let thread = last_thread(self.kernel.history());
        self.returns(thread);
    }

    /// Does what a caller does, told by an entry. Nothing where the caller may not do it, or there is no room.
    pub fn does(&mut self, deed: Deed) {
        match deed {
            Deed::Comes(slot) => self.comes(slot),
            Deed::Acts(thread) => self.acts(thread),
            Deed::Returns(thread) => self.returns(thread),
            Deed::AtOnce(slot) => self.comes_at_once(slot),
        }
    }

    /// What happened so far, in order.
    pub fn history(&self) -> &[Entry] {
        self.kernel.history()
    }

    /// The first object that is left of the numbers from `from` on.
    pub fn next_row(&self, from: u16) -> Option<FinalRow> {
        self.kernel.next_row(from)
    }
}
