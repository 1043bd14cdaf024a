//! The command `load`.
ghost use Rattle.std.specs.Prelude.{◌≡◌, ◌≤◌, ◌⊎◌, IfOk, IfErr, IsOk, OnOk, Err};
ghost use Rattle.edge_io.specs.Faults.{Rose};
ghost use Rattle.edge_io.specs.Written.{Wrote, WrotePrefix};
ghost use Rattle.load_maker.specs.Made.{made};
ghost use Rattle.machine.specs.History.{IsLegal};
ghost use Rattle.machine.specs.Run.{run};
ghost use Rattle.machine_safe.specs.Safe.{IsSafe};
ghost use Rattle.runner.specs.Complete.{Stayed};
ghost use Rattle.runner.specs.MadeText.{summary_of, load_text};

use crate::summary::{Summary, summary_of, write_summary};
use edge_io::Sink;
use kcore::ScheduleRun;
use load_maker::make_script;
use script_read::RunFault;
use std::alloc::Global;
use sym_base::NoMemory;

/// How many entries of a run are kept at once.
const PART: u32 = 64;

/// Runs the script of a seed and a size, and sums its run up.
fn load(alloc: Global, seed: u64, size: u32) -> Result<Summary, NoMemory>
    requires some { 1 ≤ size }
    requires few { size ≤ 500 }
    ensures value { IfOk result (λ summary. summary ≡ summary_of (made seed size)) }
    ensures legal { OnOk result (IsLegal (made seed size) (run (made seed size))) }
    ensures safe { OnOk result (IsSafe (made seed size) (run (made seed size))) }
{
    let script = make_script(alloc, seed, size)?;
    let slots = script.slots.len();
    let mut schedule = ScheduleRun::boot(alloc, script, PART)?;
    let summary = summary_of(slots, &mut schedule);
    drop(schedule);
    Ok(summary)
}

/// Makes the script of a seed and a size, which is the number of each client's rounds, 1 to 500, runs it, and writes one
/// line of what the run comes to: its slots, its entries, the messages accepted and finished, and the objects that are
/// left. After `WriteFault` a prefix of the line stands, and after `NoMemory` nothing was written. The other faults don't
/// come.
pub fn run_load<K: Sink>(alloc: Global, seed: u64, size: u32, sink: &mut K) -> Result<(), RunFault>
    requires some { 1 ≤ size }
    requires few { size ≤ 500 }
    ensures done { OnOk result (Wrote (K.written sink.old) (K.written sink.new) (load_text seed size)) }
    ensures legal { OnOk result (IsLegal (made seed size) (run (made seed size))) }
    ensures safe { OnOk result (IsSafe (made seed size) (run (made seed size))) }
    ensures write_fault { result ≡ Err RunFault.WriteFault → Rose (K.faults sink.old) (K.faults sink.new) }
    ensures front { result ≡ Err RunFault.WriteFault
        → WrotePrefix (K.written sink.old) (K.written sink.new) (load_text seed size) }
    ensures memory_silent { result ≡ Err RunFault.NoMemory → K.written sink.new ≡ K.written sink.old }
    ensures faults { IfErr result (λ fault. (fault ≡ RunFault.WriteFault) ⊎ (fault ≡ RunFault.NoMemory)) }

    // Completeness: where the count of faults didn't rise, the line was written, but for want of memory.
    ensures complete { Stayed (K.faults sink.old) (K.faults sink.new)
        → IsOk result ⊎ (result ≡ Err RunFault.NoMemory) }
{
    let Ok(summary) = load(alloc, seed, size) else {
        return Err(RunFault::NoMemory);
    };
    match write_summary(sink, summary) {
        Ok(()) => Ok(()),
        Err(_) => Err(RunFault::WriteFault),
    }
}
