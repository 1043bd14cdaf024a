//! The objects that are left, told one after the other.
ghost use Rattle.std.specs.Prelude.{◌≡◌, None};
ghost use Rattle.std.specs.List.{slice_index_or};
ghost use Rattle.machine.specs.FinalRows.{exit_of_row, rows_from, IsNextRow};
ghost use Rattle.kernel_tables.specs.Noted.{AreKept};
ghost use Rattle.kernel_tables.specs.StateOf.{state_of};

use entry_log::FinalRow;
use kernel_tables::Tables;
use procs::Procs;
use ref_words::RefWords;
use sym_base::{Exit, ObjNo};

/// The exit of a thread that is doomed or dead. Nothing else has one.
fn exit_of(procs: &Procs, object: ObjNo) -> Option<Exit>
    ensures { result ≡ exit_of_row (slice_index_or procs.now.threads object.0 None) }
{
    procs.thread(object)?.exit
}

/// The first object that isn't swept of the numbers from `from` on, with its count.
pub fn next_row<W: RefWords + Drop>(tables: &Tables<W>, from: u16) -> Option<FinalRow>
    requires { AreKept tables.now }
    ensures { IsNextRow (rows_from (state_of tables.now)) from result }
{
    for number in from..tables.objects.len() as u16 {
        if let Some(row) = tables.objects.row(ObjNo(number)) {
            return Some(FinalRow {
                object: ObjNo(number),
                kind: row.kind,
                name: row.name,
                count: tables.objects.count(ObjNo(number)),
                exit: exit_of(&tables.procs, ObjNo(number)),
            });
        }
    }
    None
}
