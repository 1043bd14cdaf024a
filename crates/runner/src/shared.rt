//! The command `share`.
ghost use Rattle.std.specs.Prelude.{◌≡◌, ◌≢◌, ◌<◌, ◌≤◌, ◌⊎◌, ℕ, IsSomeAnd, IfErr, IsOk, OnOk, Err};
ghost use Rattle.edge_io.specs.Faults.{Rose};
ghost use Rattle.runner.specs.Complete.{Stayed};
ghost use Rattle.runner.specs.Inputs.{IsAtEnd, IsInput, IsBadInput, IsLargeInput, Took, TookAtMost};
ghost use Rattle.runner.specs.Outputs.{IsSharedTextOf, WrotePart, WroteRefusalOf, WroteShared, WroteSharedFront, WroteWhole};
ghost use Rattle.script_read.specs.declared.reason.Reason.{Reason};
ghost use Rattle.script_types.specs.Source.{IsWellFormed};
ghost use Rattle.script_types.specs.declared.script.Script.{Script};

use crate::accepted::read_accepted;
use crate::detail::Detail;
use crate::output::write_kernel;
use edge_io::{Gate, Sink, Source};
use script_read::RunFault;
use script_types::Script;
use std::alloc::Global;
use std::sync::Wait;
use std::thread::Threads;
use workers::make_shared_history;

/// Runs a script by so many workers and writes their history. Nothing is written before the whole history is made.
fn share_script<R: Threads + Wait + Sync, K: Sink, G: Gate + Sync>(
    rt: &R,
    alloc: Global,
    count: u32,
    script: Script,
    sink: &mut K,
    gate: &G,
) -> Result<(), RunFault>
    requires valid { IsWellFormed script }
    requires some { 0 < count }
    requires few { count ≤ 8 }
    ensures whole { OnOk result (WroteWhole (IsSharedTextOf script) (K.written sink.old) (K.written sink.new)) }
    ensures front { result ≡ Err RunFault.WriteFault → WrotePart (IsSharedTextOf script) (K.written sink.old) (K.written sink.new) }
    ensures fault { result ≡ Err RunFault.WriteFault → Rose (K.faults sink.old) (K.faults sink.new) }
    ensures silent { result ≡ Err RunFault.NoMemory → K.written sink.new ≡ K.written sink.old }
    ensures faults { IfErr result (λ fault. (fault ≡ RunFault.WriteFault) ⊎ (fault ≡ RunFault.NoMemory)) }
    ensures never_falls { K.faults sink.old ≤ K.faults sink.new }
{
    let Ok(kernel) = make_shared_history(rt, alloc, script, count, gate) else {
        return Err(RunFault::NoMemory);
    };
    match write_kernel(sink, Detail::Whole, kernel) {
        Ok(()) => Ok(()),
        Err(_) => Err(RunFault::WriteFault),
    }
}

/// Reads a script, lets so many workers, 1 to 8, run it, and writes the history that they made: threads of the host that draw
/// the slots of its schedule from one kernel, each of which opens what a slot's thread found while others may act. Which
/// history comes depends on the host, but it is that of a whole run by callers who share the kernel. Before each open a worker
/// passes the gate. What is read, refused and answered is as in `run_schedule`. It waits for the workers, and no clause says
/// that they come to an end.
pub fn run_shared<R: Threads + Wait + Sync, S: Source, K: Sink, G: Gate + Sync>(
    rt: &R,
    alloc: Global,
    count: u32,
    source: &mut S,
    sink: &mut K,
    gate: &G,
) -> Result<(), RunFault>
    requires some { 0 < count }
    requires few_workers { count ≤ 8 }
    ensures done { OnOk result (WroteShared (S.left source.old) (K.written sink.old) (K.written sink.new)) }
    ensures at_end { OnOk result (IsAtEnd (S.left source.new)) }
    ensures refused { (line : ℕ) → (why : Reason) → result ≡ Err (RunFault.Refused line why)
        → WroteRefusalOf line why (S.left source.old) (K.written sink.old) (K.written sink.new) }
    ensures refused_at_end { (line : ℕ) → (why : Reason) → result ≡ Err (RunFault.Refused line why)
        → IsAtEnd (S.left source.new) }

    // TooLarge exactly where more bytes were taken than a script may have.
    ensures large { result ≡ Err RunFault.TooLarge → Took 1048577 (S.left source.old) (S.left source.new) }
    ensures few { result ≢ Err RunFault.TooLarge → TookAtMost 1048576 (S.left source.old) (S.left source.new) }
    ensures large_silent { result ≡ Err RunFault.TooLarge → K.written sink.new ≡ K.written sink.old }

    ensures read_fault { result ≡ Err RunFault.ReadFault → Rose (S.faults source.old) (S.faults source.new) }
    ensures write_fault { result ≡ Err RunFault.WriteFault → Rose (K.faults sink.old) (K.faults sink.new) }
    ensures front { result ≡ Err RunFault.WriteFault
        → WroteSharedFront (S.left source.old) (K.written sink.old) (K.written sink.new) }
    ensures read_silent { result ≡ Err RunFault.ReadFault → K.written sink.new ≡ K.written sink.old }
    ensures memory_silent { result ≡ Err RunFault.NoMemory → K.written sink.new ≡ K.written sink.old }

    // Completeness: where no count of faults rose, the input alone decides, but for want of memory.
    ensures accepted { (script : Script) → IsSomeAnd (S.left source.old) (λ bytes. IsInput bytes script)
        → Stayed (S.faults source.old) (S.faults source.new) → Stayed (K.faults sink.old) (K.faults sink.new)
        → IsOk result ⊎ (result ≡ Err RunFault.NoMemory) }
    ensures bad { (line : ℕ) → (why : Reason) → IsSomeAnd (S.left source.old) (λ bytes. IsBadInput bytes line why)
        → Stayed (S.faults source.old) (S.faults source.new) → Stayed (K.faults sink.old) (K.faults sink.new)
        → (result ≡ Err (RunFault.Refused line why)) ⊎ (result ≡ Err RunFault.NoMemory) }
    ensures too_large { IsSomeAnd (S.left source.old) IsLargeInput
        → Stayed (S.faults source.old) (S.faults source.new)
        → (result ≡ Err RunFault.TooLarge) ⊎ (result ≡ Err RunFault.NoMemory) }
{
    match read_accepted(alloc, source, sink) {
        Ok(script) => share_script(rt, alloc, count, script, sink, gate),
        Err(fault) => Err(fault),
    }
}
