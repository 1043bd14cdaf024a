//! The objects that are left.
ghost use Rattle.std.specs.Prelude.{◌≡◌, ℕ, ◌<◌, ◌≤◌, length};
ghost use Rattle.sym_base.specs.declared.number.ObjNo.{ObjNo};
ghost use Rattle.machine.specs.Rows.{thread_of};
ghost use Rattle.machine.specs.FinalRows.{exit_of_row, rows_from, IsNextRow};
ghost use Rattle.machine.specs.References.{count_of};

use entry_log::FinalRow;
use machine::{State, count_of, thread_in};
use sym_base::{Exit, ObjNo};

/// The exit of a thread that is doomed or dead. Nothing else has one.
fn exit_of(state: &State, object: ObjNo) -> Option<Exit>
    ensures { result ≡ exit_of_row (thread_of state.now object) }
{
    thread_in(&state.references.threads, object)?.exit
}

/// The first object that isn't swept of the numbers from `from` on, with its count.
#[tactic(auto, using(machine_laws::proofs::Reached::LeftRows::rows_from_swept, machine_laws::proofs::Reached::LeftRows::rows_from_left))]
pub fn next_row(state: &State, from: u16) -> Option<FinalRow>
    requires few { length state.now.references.objects ≤ 4096 }
    requires counts { (object : ObjNo) → count_of state.now object < 65536 }
    ensures { IsNextRow (rows_from state.now) from result }
{
    for number in from..state.references.objects.len() as u16 {
        if let Some(row) = state.references.objects.get(number as usize) {
            return Some(FinalRow {
                object: ObjNo(number),
                kind: row.kind,
                name: row.name,
                count: count_of(state, ObjNo(number)),
                exit: exit_of(state, ObjNo(number)),
            });
        }
    }
    None
}
