//! The plain machine, which takes each slot of a schedule.
ghost use Rattle.std.specs.Prelude.{◌≡◌, [], false};
ghost use Rattle.script_types.specs.Source.{IsWellFormed};

use crate::scripts::script_of;
use crate::texts::{NUMBERS, Ran, Rows, ran_of};
use plain_machine::Plain;
use script_types::{Script, Slot};
use std::alloc::{AllocError, Global};
use sym_base::NoMemory;

/// The plain machine takes each slot of its script's schedule.
fn take_slots(plain: &mut Plain, slots: &[Slot]) -> Result<(), NoMemory>
    requires valid { IsWellFormed plain.old.script }
    requires slots { slots.now ≡ plain.old.script.slots }
    requires empty { plain.old.history ≡ [] }
    requires whole { plain.old.shared ≡ false }
{
    for slot in slots {
        plain.slot(*slot)?;
    }
    Ok(())
}

/// The lines of the objects that are left.
fn rows_of(alloc: Global, plain: &Plain) -> Result<Rows, AllocError> {
    let mut rows = Rows::new(alloc);
    for number in 0..NUMBERS {
        rows.add(number, plain.next_row(number))?;
    }
    Ok(rows)
}

/// What the plain machine makes of its script's schedule.
fn ran_in(alloc: Global, plain: &mut Plain, slots: &[Slot]) -> Result<Ran, NoMemory>
    requires valid { IsWellFormed plain.old.script }
    requires slots { slots.now ≡ plain.old.script.slots }
    requires empty { plain.old.history ≡ [] }
    requires whole { plain.old.shared ≡ false }
{
    take_slots(plain, slots)?;
    let rows = rows_of(alloc, plain)?;
    let ran = ran_of(alloc, plain.history(), rows)?;
    Ok(ran)
}

/// What a plain machine makes of a script.
fn ran_by(alloc: Global, script: Script) -> Result<Ran, NoMemory>
    requires { IsWellFormed script }
{
    let slots = script.slots.copied(alloc)?;
    let mut plain = Box::new(alloc, Plain::boot(alloc, script)?)?;
    ran_in(alloc, &mut plain, slots.as_slice())
}

/// What the plain machine makes of a text. None where it has no run.
pub fn ran_plain(alloc: Global, text: &str) -> Option<Ran> {
    match script_of(alloc, text) {
        Some(script) => ran_by(alloc, script).ok(),
        None => None,
    }
}
