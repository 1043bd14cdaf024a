//! What callers make who share a kernel, beside the plain machine.
ghost use Rattle.script_types.specs.Source.{IsWellFormed};

use crate::alone::alone_of;
use crate::callers::{Callers, Deed};
use crate::tales::tale_of;
use plain_runs::{NUMBERS, Ran, Rows, is_plain_too, ran_of, script_of};
use script_types::{Script, Slot};
use std::alloc::Global;
use std::process::Abort;

/// What callers made of a text's script.
#[derive(Drop)]
pub struct Told {
    pub ran: Ran,
    /// The history without places, returns and the entries of nobody.
    pub tale: Vec<u8>,
    /// Whether the plain machine makes the same history.
    pub is_plain: bool,
}

/// Callers do all this, one after the other.
fn do_all(callers: &mut Callers, deeds: &[Deed]) {
    for deed in deeds {
        callers.does(*deed);
    }
}

/// The lines of the objects that are left.
fn rows_of<R: Abort>(rt: &R, alloc: Global, callers: &Callers) -> Rows {
    let mut rows = Rows::new(alloc);
    for number in 0..NUMBERS {
        rows.add(number, callers.next_row(number))
            .expect(rt, "memory");
    }
    rows
}

/// What these callers make of a text's script by all this.
fn told_in<R: Abort>(
    rt: &R,
    alloc: Global,
    text: &str,
    callers: &mut Callers,
    deeds: &[Deed],
) -> Told {
    do_all(callers, deeds);
    let is_plain = is_plain_too(alloc, text, callers.history());
    let rows = rows_of(rt, alloc, callers);
    let ran = ran_of(alloc, callers.history(), rows).expect(rt, "memory");
    let tale = tale_of(alloc, callers.history()).expect(rt, "memory");
    Told {
        ran,
        tale,
        is_plain,
    }
}

/// What callers make of a script and its text by all this.
fn told_by<R: Abort>(rt: &R, alloc: Global, text: &str, script: Script, deeds: &[Deed]) -> Told
    requires { IsWellFormed script }
{
    let made = Callers::new(alloc, script).expect(rt, "callers");
    let mut callers = Box::new(alloc, made).expect(rt, "memory");
    told_in(rt, alloc, text, &mut callers, deeds)
}

/// What callers make of a text's script by all this.
pub fn told_after<R: Abort>(rt: &R, alloc: Global, text: &str, deeds: &[Deed]) -> Told {
    let script = script_of(alloc, text).expect(rt, "a script");
    told_by(rt, alloc, text, script, deeds)
}

/// What callers make who do what one caller alone does.
pub fn told_as_alone<R: Abort>(rt: &R, alloc: Global, text: &str) -> Told {
    let alone = alone_of(rt, alloc, text);
    told_after(rt, alloc, text, alone.deeds.as_slice())
}

/// Each of these slots comes, and whoever finds an object comes back at once.
fn deeds_at_once<R: Abort>(rt: &R, alloc: Global, slots: &[Slot]) -> Vec<Deed> {
    let mut deeds = Vec::new(alloc);
    for slot in slots {
        deeds.push(Deed::AtOnce(*slot)).expect(rt, "memory");
    }
    deeds
}

/// What callers make of a text's schedule who come back from each find at once.
pub fn told_at_once<R: Abort>(rt: &R, alloc: Global, text: &str) -> Told {
    let script = script_of(alloc, text).expect(rt, "a script");
    let deeds = deeds_at_once(rt, alloc, script.slots.as_slice());
    told_by(rt, alloc, text, script, deeds.as_slice())
}
