//! The lines of a schedule.
ghost use Rattle.std.specs.Prelude.{◌≡◌, ℕ, ◌+◌, ◌<◌, ◌≤◌, ◌^◌, List, [], ◌∷◌, ◌++◌, replicate, IfOk, OnOk};
ghost use Rattle.script_print.specs.CanonicalText.{source_texts, slots_lines, schedule_lines};
ghost use Rattle.script_types.specs.declared.script.Slot.{Slot};

use crate::word::{Word, put_line};
use script_types::Slot;
use script_words::Keyword;
use sym_base::NoMemory;

/// Adds the line of so many slots in which the chosen actor acts, where there are any.
fn put_run(out: &mut Vec<u8>, count: usize) -> Result<(), NoMemory>
    ensures { OnOk result (out.new.items ≡ out.old.items ++ source_texts (slots_lines (replicate count Slot.Go))) }
{
    if count == 0 {
        return Ok(());
    }
    put_line(out, Keyword::Go, &[Word::Number(count as u64)])
}

/// Adds the line of a slot behind so many in which the chosen actor acts and whose line isn't written
/// yet. The answer is how many those are then.
fn put_slot(out: &mut Vec<u8>, run: usize, slot: Slot) -> Result<usize, NoMemory>
    requires { run + 1 < 2 ^ 64 }
    ensures text { IfOk result (λ next. (rest : List Slot) → out.new.items ++ source_texts (slots_lines (replicate next Slot.Go ++ rest))
        ≡ out.old.items ++ source_texts (slots_lines (replicate run Slot.Go ++ slot ∷ rest))) }
    ensures bound { IfOk result (λ next. next ≤ run + 1) }
{
    match slot {
        Slot::Go => Ok(run + 1),
        Slot::Irq(number) => {
            put_run(out, run)?;
            put_line(out, Keyword::Irq, &[Word::Number(u64::from(number))])?;
            Ok(0)
        }
        Slot::Tick => {
            put_run(out, run)?;
            put_line(out, Keyword::Tick, &[])?;
            Ok(0)
        }
    }
}

/// Adds the lines of slots.
fn put_slots(out: &mut Vec<u8>, slots: &[Slot]) -> Result<(), NoMemory>
    ensures { OnOk result (out.new.items ≡ out.old.items ++ source_texts (slots_lines slots.now)) }
{
    let mut run = 0;
    for slot in slots {
        run = put_slot(out, run, *slot)?;
    }
    put_run(out, run)
}

/// Adds the lines of a schedule, where it has slots.
pub fn put_schedule(out: &mut Vec<u8>, slots: &[Slot]) -> Result<(), NoMemory>
    ensures { OnOk result (out.new.items ≡ out.old.items ++ source_texts (schedule_lines slots.now)) }
{
    if slots.is_empty() {
        return Ok(());
    }
    put_line(out, Keyword::Schedule, &[])?;
    put_slots(out, slots)
}
