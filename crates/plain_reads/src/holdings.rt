//! Handles in the plain machine's tables, and how many threads of a process are left, read by decisions.
ghost use Rattle.std.specs.Prelude.{◌≡◌, ◌-◌, ◌^◌, ◌≤◌, ◌==◌, Some, if◌then◌else◌, length, min};
ghost use Rattle.machine.specs.Holdings.{first_used, has_one_left, left_of};
ghost use Rattle.machine.specs.References.{total};
ghost use Rattle.machine.specs.Rows.{table_of};

use machine::{HandleSlot, State, ThreadRow, table_of};
use state_rows::Stage;
use sym_base::ObjNo;

/// The first slot of a table with an object, by index.
pub fn first_used(slots: &[HandleSlot]) -> Option<(u8, ObjNo)>
    requires { length slots.now ≤ 256 }
    ensures { result ≡ first_used 0 slots.now }
{
    for index in 0..slots.len() {
        if let Some(object) = slots[index].object {
            return Some((index as u8, object));
        }
    }
    None
}

/// The first handle of a table by index, and its object.
pub fn first_handle(state: &State, owner: ObjNo) -> Option<(u8, ObjNo)>
    requires { length (table_of state.now owner) ≤ 256 }
    ensures { result ≡ first_used 0 (table_of state.now owner) }
{
    first_used(table_of(state, owner))
}

/// Whether this is the row of a thread of a process that isn't cleaned yet.
pub fn is_left(process: ObjNo, row: &ThreadRow) -> bool
    ensures { left_of process (Some row.now) ≡ (if result then 1 else 0) }
{
    row.process.0 == process.0 && matches!(row.stage, Stage::Live | Stage::Doomed)
}

/// 1 where there is such a row, else 0.
fn left_of(process: ObjNo, row: &Option<ThreadRow>) -> u32
    ensures { result ≡ left_of process row.now }
{
    match row {
        Some(row) if is_left(process, row) => 1,
        _ => 0,
    }
}

/// How many threads of a process aren't cleaned yet. The number stands still at the end of its type.
fn threads_left(process: ObjNo, rows: &[Option<ThreadRow>]) -> u32
    ensures { result ≡ min (total (left_of process) rows.now) (2 ^ 32 - 1) }
{
    let mut left: u32 = 0;
    for row in rows {
        left = left.saturating_add(left_of(process, row));
    }
    left
}

/// Whether just one of the threads with these rows is of a process and isn't cleaned yet.
#[tactic(auto, using(machine::proofs::Capped::capped_is_one))]
pub fn is_one_left(process: ObjNo, rows: &[Option<ThreadRow>]) -> bool
    ensures { result ≡ (total (left_of process) rows.now == 1) }
{
    threads_left(process, rows) == 1
}

/// Whether just one thread of a process isn't cleaned yet.
pub fn has_one_left(state: &State, process: ObjNo) -> bool
    ensures { result ≡ has_one_left state.now process }
{
    is_one_left(process, state.references.threads.as_slice())
}
