//! Reading a script, running it, and writing what a command shows of it.
ghost use Rattle.std.specs.Prelude.{◌≡◌, ◌≢◌, ◌≤◌, ◌⊎◌, ℕ, is_some, IsSomeAnd, IfErr, IsOk, OnOk, Err};
ghost use Rattle.edge_io.specs.Faults.{Rose};
ghost use Rattle.edge_io.specs.Written.{Wrote, WrotePrefix};
ghost use Rattle.machine.specs.History.{IsLegal};
ghost use Rattle.machine.specs.Run.{run};
ghost use Rattle.machine_safe.specs.Safe.{IsSafe};
ghost use Rattle.runner.specs.Complete.{Stayed};
ghost use Rattle.runner.specs.Inputs.{IsAtEnd, IsInput, IsBadInput, IsLargeInput, Took, TookAtMost};
ghost use Rattle.runner.specs.Outputs.{WroteRun, WroteRefusalOf, WroteFront};
ghost use Rattle.runner.specs.RunText.{shown_text};
ghost use Rattle.script_read.specs.declared.reason.Reason.{Reason};
ghost use Rattle.script_types.specs.Source.{IsWellFormed};
ghost use Rattle.script_types.specs.declared.script.Script.{Script};

use crate::accepted::read_accepted;
use crate::detail::Detail;
use crate::history::make_history;
use crate::output::write_kernel;
use edge_io::{Sink, Source};
use script_read::RunFault;
use script_types::Script;
use std::alloc::Global;

/// Runs a script and writes its history, or the part that the detail shows. Nothing is written before the whole history is made.
fn run_script<K: Sink>(
    alloc: Global,
    detail: Detail,
    script: Script,
    sink: &mut K,
) -> Result<(), RunFault>
    requires { IsWellFormed script }
    ensures whole { OnOk result (Wrote (K.written sink.old) (K.written sink.new) (shown_text detail script)) }
    ensures legal { OnOk result (IsLegal script (run script)) }
    ensures safe { OnOk result (IsSafe script (run script)) }
    ensures front { result ≡ Err RunFault.WriteFault → WrotePrefix (K.written sink.old) (K.written sink.new) (shown_text detail script) }
    ensures fault { result ≡ Err RunFault.WriteFault → Rose (K.faults sink.old) (K.faults sink.new) }
    ensures silent { result ≡ Err RunFault.NoMemory → K.written sink.new ≡ K.written sink.old }
    ensures faults { IfErr result (λ fault. (fault ≡ RunFault.WriteFault) ⊎ (fault ≡ RunFault.NoMemory)) }
    ensures tells { is_some (K.written sink.new) ≡ is_some (K.written sink.old) }
    ensures never_falls { K.faults sink.old ≤ K.faults sink.new }
{
    let Ok(kernel) = make_history(alloc, script) else {
        return Err(RunFault::NoMemory);
    };
    match write_kernel(sink, detail, kernel) {
        Ok(()) => Ok(()),
        Err(_) => Err(RunFault::WriteFault),
    }
}

/// Reads a script, runs it and writes the part of its history that the detail shows. The clauses are those of the
/// commands `run` and `brief`.
pub fn run_shown<S: Source, K: Sink>(
    alloc: Global,
    detail: Detail,
    source: &mut S,
    sink: &mut K,
) -> Result<(), RunFault>
    ensures done { OnOk result (WroteRun (shown_text detail) (S.left source.old) (K.written sink.old) (K.written sink.new)) }
    ensures at_end { OnOk result (IsAtEnd (S.left source.new)) }
    ensures refused { (line : ℕ) → (why : Reason) → result ≡ Err (RunFault.Refused line why)
        → WroteRefusalOf line why (S.left source.old) (K.written sink.old) (K.written sink.new) }
    ensures refused_at_end { (line : ℕ) → (why : Reason) → result ≡ Err (RunFault.Refused line why)
        → IsAtEnd (S.left source.new) }

    // TooLarge exactly where more bytes were taken than a script may have.
    ensures large { result ≡ Err RunFault.TooLarge → Took 1048577 (S.left source.old) (S.left source.new) }
    ensures few { result ≢ Err RunFault.TooLarge → TookAtMost 1048576 (S.left source.old) (S.left source.new) }
    ensures large_silent { result ≡ Err RunFault.TooLarge → K.written sink.new ≡ K.written sink.old }

    ensures read_fault { result ≡ Err RunFault.ReadFault → Rose (S.faults source.old) (S.faults source.new) }
    ensures write_fault { result ≡ Err RunFault.WriteFault → Rose (K.faults sink.old) (K.faults sink.new) }
    ensures front { result ≡ Err RunFault.WriteFault
        → WroteFront (shown_text detail) (S.left source.old) (K.written sink.old) (K.written sink.new) }
    ensures read_silent { result ≡ Err RunFault.ReadFault → K.written sink.new ≡ K.written sink.old }
    ensures memory_silent { result ≡ Err RunFault.NoMemory → K.written sink.new ≡ K.written sink.old }

    // Completeness: where no count of faults rose, the input alone decides, but for want of memory.
    ensures accepted { (script : Script) → IsSomeAnd (S.left source.old) (λ bytes. IsInput bytes script)
        → Stayed (S.faults source.old) (S.faults source.new) → Stayed (K.faults sink.old) (K.faults sink.new)
        → IsOk result ⊎ (result ≡ Err RunFault.NoMemory) }
    ensures bad { (line : ℕ) → (why : Reason) → IsSomeAnd (S.left source.old) (λ bytes. IsBadInput bytes line why)
        → Stayed (S.faults source.old) (S.faults source.new) → Stayed (K.faults sink.old) (K.faults sink.new)
        → (result ≡ Err (RunFault.Refused line why)) ⊎ (result ≡ Err RunFault.NoMemory) }
    ensures too_large { IsSomeAnd (S.left source.old) IsLargeInput
        → Stayed (S.faults source.old) (S.faults source.new)
        → (result ≡ Err RunFault.TooLarge) ⊎ (result ≡ Err RunFault.NoMemory) }
{
    match read_accepted(alloc, source, sink) {
        Ok(script) => run_script(alloc, detail, script, sink),
        Err(fault) => Err(fault),
    }
}
