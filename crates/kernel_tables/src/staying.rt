//! Who is ready by its row alone, without a look at what it does next: most threads at most times.
ghost use Rattle.std.specs.Prelude.{◌≡◌, true, not};
ghost use Rattle.script_types.specs.declared.script.Script.{Script};
ghost use Rattle.machine.specs.Task.{is_ready, is_wait};
ghost use Rattle.kernel_tables.specs.RunsOn.{is_busy, runs_on};
ghost use Rattle.kernel_tables.specs.StateOf.{state_of};

use crate::tables::Tables;
use machine::{Role, ThreadRow, Waiting, is_returning};
use readings::Reads;
use ref_words::RefWords;
use state_rows::Stage;
use sym_base::ThreadNo;

/// Whether a thread has something to do by its stage and its role alone.
fn is_busy(stage: Stage, role: Role) -> bool
    ensures { result ≡ is_busy stage role }
{
    match stage {
        Stage::Live => match role {
            Role::Declared(_) => true,
            Role::Supervisor | Role::Queue(_) => false,
        },
        Stage::Doomed => true,
        Stage::Cleaned | Stage::Buried => false,
    }
}

/// Whether a thread waits for nothing.
fn waits_for_nothing(waiting: Waiting) -> bool
    ensures { result ≡ not (is_wait waiting) }
{
    match waiting {
        Waiting::Nothing => true,
        Waiting::Lock(_)
        | Waiting::Fast
        | Waiting::Any
        | Waiting::Status(_)
        | Waiting::Reply
        | Waiting::Receive(_) => false,
    }
}

/// Whether the thread of this row is ready, unless it is suspended.
fn runs_on(row: &ThreadRow) -> bool
    ensures { result ≡ runs_on row.now }
{
    is_busy(row.stage, row.role) && waits_for_nothing(row.waiting) && !is_returning(row.part)
}

/// Whether a thread is ready by its row alone, and isn't suspended.
#[inline(always)]
#[tactic(auto, using(crate::proofs::RunningOn::runs_ready))]
pub fn is_running<W: RefWords + Drop>(tables: &Tables<W>, thread: ThreadNo) -> bool
    ensures { (script : Script) → result ≡ true → is_ready script (state_of tables.now) thread ≡ true }
{
    match tables.thread(thread) {
        Some(row) => runs_on(row) && tables.suspend_count(thread) == 0,
        None => false,
    }
}
