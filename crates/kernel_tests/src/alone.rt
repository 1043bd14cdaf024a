//! A kernel that one caller has alone, and that takes each slot of a schedule.
ghost use Rattle.std.specs.Prelude.{◌≡◌, [], length};
ghost use Rattle.kcore.specs.KernelMode.{Fresh};
ghost use Rattle.script_types.specs.Source.{IsWellFormed};

use crate::callers::Deed;
use crate::tales::tale_of;
use entry_log::{Actor, Entry, Part, Step};
use kcore::{Kernel, places_for};
use plain_runs::{NUMBERS, Ran, Rows, ran_of, script_of};
use ref_words::PlainWords;
use script_types::{Script, Slot};
use std::alloc::Global;
use std::process::Abort;
use sym_base::NoMemory;

/// What the kernel made of a script.
#[derive(Drop)]
pub struct Alone {
    pub ran: Ran,
    /// The history without places, returns and the entries of nobody.
    pub tale: Vec<u8>,
    /// What callers do who share a kernel, to make the same.
    pub deeds: Vec<Deed>,
}

/// The kernel takes each slot of its script's schedule.
fn take_slots(kernel: &mut Kernel<PlainWords>, slots: &[Slot])
    requires valid { IsWellFormed kernel.old.script }
    requires slots { slots.now ≡ kernel.old.script.slots }
    requires room { kernel.old.room ≡ length slots.now }
    requires empty { kernel.old.history ≡ [] }
    requires fresh { kernel.old.mode ≡ Fresh }
{
    for slot in slots {
        kernel.slot(*slot);
    }
}

/// The lines of the objects that are left.
fn rows_of<R: Abort>(rt: &R, alloc: Global, kernel: &Kernel<PlainWords>) -> Rows {
    let mut rows = Rows::new(alloc);
    for number in 0..NUMBERS {
        rows.add(number, kernel.next_row(number))
            .expect(rt, "memory");
    }
    rows
}

/// What callers do to make this entry, which one caller alone makes in this slot: a thread comes back by itself, and whatever
/// else is done comes by the slot.
fn deed_like(entry: &Entry, slot: Slot) -> Deed {
    match (entry.actor, entry.step) {
        (Actor::Thread(thread), Step::Of(_, Part::Return)) => Deed::Returns(thread),
        _ => Deed::Comes(slot),
    }
}

/// What callers do to make a history that one caller alone makes in these slots.
fn deeds_like<R: Abort>(rt: &R, alloc: Global, history: &[Entry], slots: &[Slot]) -> Vec<Deed> {
    let mut deeds = Vec::new(alloc);
    for (entry, slot) in history.iter().zip(slots) {
        deeds.push(deed_like(entry, *slot)).expect(rt, "memory");
    }
    deeds
}

/// What the kernel makes of its script's schedule.
fn alone_in<R: Abort>(
    rt: &R,
    alloc: Global,
    kernel: &mut Kernel<PlainWords>,
    slots: &[Slot],
) -> Alone
    requires valid { IsWellFormed kernel.old.script }
    requires slots { slots.now ≡ kernel.old.script.slots }
    requires room { kernel.old.room ≡ length slots.now }
    requires empty { kernel.old.history ≡ [] }
    requires fresh { kernel.old.mode ≡ Fresh }
{
    take_slots(kernel, slots);
    let rows = rows_of(rt, alloc, kernel);
    let ran = ran_of(alloc, kernel.history(), rows).expect(rt, "memory");
    let tale = tale_of(alloc, kernel.history()).expect(rt, "memory");
    let deeds = deeds_like(rt, alloc, kernel.history(), slots);
    Alone { ran, tale, deeds }
}

/// What a kernel makes of a script.
#[tactic(auto, using(machine_laws::proofs::ValidSlots::valid_slots_few))]
fn alone_by<R: Abort>(rt: &R, alloc: Global, script: Script) -> Result<Alone, NoMemory>
    requires { IsWellFormed script }
{
    let slots = script.slots.copied(alloc)?;
    let room = slots.len() as u32;
    let words = PlainWords::new(alloc, places_for(script.version, room))?;
    let mut kernel = Box::new(alloc, Kernel::boot(alloc, script, words, room)?)?;
    Ok(alone_in(rt, alloc, &mut kernel, slots.as_slice()))
}

/// What a kernel makes of a text.
pub fn alone_of<R: Abort>(rt: &R, alloc: Global, text: &str) -> Alone {
    let script = script_of(alloc, text).expect(rt, "a script");
    alone_by(rt, alloc, script).expect(rt, "a kernel")
}
