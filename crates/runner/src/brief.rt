//! The command `brief`.
ghost use Rattle.std.specs.Prelude.{◌≡◌, ◌≢◌, ◌⊎◌, ℕ, IsSomeAnd, IsOk, OnOk, Err};
ghost use Rattle.edge_io.specs.Faults.{Rose};
ghost use Rattle.runner.specs.Complete.{Stayed};
ghost use Rattle.runner.specs.Inputs.{IsAtEnd, IsInput, IsBadInput, IsLargeInput, Took, TookAtMost};
ghost use Rattle.runner.specs.Outputs.{WroteRun, WroteRefusalOf, WroteFront};
ghost use Rattle.runner.specs.RunText.{brief_text};
ghost use Rattle.script_read.specs.declared.reason.Reason.{Reason};
ghost use Rattle.script_types.specs.declared.script.Script.{Script};

use crate::detail::Detail;
use crate::run::run_shown;
use edge_io::{Sink, Source};
use script_read::RunFault;
use std::alloc::Global;

/// Reads a script and runs it as `run_schedule` does, and writes the entries that have an answer, with their places
/// in the whole history, and then the objects that are left. What is read, refused and answered is as there.
pub fn run_brief<S: Source, K: Sink>(
    alloc: Global,
    source: &mut S,
    sink: &mut K,
) -> Result<(), RunFault>
    ensures done { OnOk result (WroteRun brief_text (S.left source.old) (K.written sink.old) (K.written sink.new)) }
    ensures at_end { OnOk result (IsAtEnd (S.left source.new)) }
    ensures refused { (line : ℕ) → (why : Reason) → result ≡ Err (RunFault.Refused line why)
        → WroteRefusalOf line why (S.left source.old) (K.written sink.old) (K.written sink.new) }
    ensures refused_at_end { (line : ℕ) → (why : Reason) → result ≡ Err (RunFault.Refused line why)
        → IsAtEnd (S.left source.new) }

    // TooLarge exactly where more bytes were taken than a script may have.
    ensures large { result ≡ Err RunFault.TooLarge → Took 1048577 (S.left source.old) (S.left source.new) }
    ensures few { result ≢ Err RunFault.TooLarge → TookAtMost 1048576 (S.left source.old) (S.left source.new) }
    ensures large_silent { result ≡ Err RunFault.TooLarge → K.written sink.new ≡ K.written sink.old }

    ensures read_fault { result ≡ Err RunFault.ReadFault → Rose (S.faults source.old) (S.faults source.new) }
    ensures write_fault { result ≡ Err RunFault.WriteFault → Rose (K.faults sink.old) (K.faults sink.new) }
    ensures front { result ≡ Err RunFault.WriteFault
        → WroteFront brief_text (S.left source.old) (K.written sink.old) (K.written sink.new) }
    ensures read_silent { result ≡ Err RunFault.ReadFault → K.written sink.new ≡ K.written sink.old }
    ensures memory_silent { result ≡ Err RunFault.NoMemory → K.written sink.new ≡ K.written sink.old }

    // Completeness: where no count of faults rose, the input alone decides, but for want of memory.
    ensures accepted { (script : Script) → IsSomeAnd (S.left source.old) (λ bytes. IsInput bytes script)
        → Stayed (S.faults source.old) (S.faults source.new) → Stayed (K.faults sink.old) (K.faults sink.new)
        → IsOk result ⊎ (result ≡ Err RunFault.NoMemory) }
    ensures bad { (line : ℕ) → (why : Reason) → IsSomeAnd (S.left source.old) (λ bytes. IsBadInput bytes line why)
        → Stayed (S.faults source.old) (S.faults source.new) → Stayed (K.faults sink.old) (K.faults sink.new)
        → (result ≡ Err (RunFault.Refused line why)) ⊎ (result ≡ Err RunFault.NoMemory) }
    ensures too_large { IsSomeAnd (S.left source.old) IsLargeInput
        → Stayed (S.faults source.old) (S.faults source.new)
        → (result ≡ Err RunFault.TooLarge) ⊎ (result ≡ Err RunFault.NoMemory) }
{
    run_shown(alloc, Detail::Brief, source, sink)
}
