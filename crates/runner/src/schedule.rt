//! The command `run`.
ghost use Rattle.std.specs.Prelude.{◌≡◌, ◌≢◌, ◌⊎◌, ℕ, IsSomeAnd, IsOk, OnOk, Err};
ghost use Rattle.edge_io.specs.Faults.{Rose};
ghost use Rattle.runner.specs.Complete.{Stayed};
ghost use Rattle.runner.specs.Inputs.{IsAtEnd, IsInput, IsBadInput, IsLargeInput, Took, TookAtMost};
ghost use Rattle.runner.specs.Outputs.{WroteRun, WroteRefusalOf, WroteFront};
ghost use Rattle.runner.specs.RunText.{run_text};
ghost use Rattle.script_read.specs.declared.reason.Reason.{Reason};
ghost use Rattle.script_types.specs.declared.script.Script.{Script};

use crate::detail::Detail;
use crate::run::run_shown;
use edge_io::{Sink, Source};
use script_read::RunFault;
use std::alloc::Global;

/// Reads a script, runs it and writes its history. The whole input is read before it is judged, and
/// the whole history is made before its first byte is written. Of a script that is refused one line is
/// written, which tells its first bad line, from 1, and why it is bad. Of an input of more than
/// 1,048,576 bytes one byte too many is read, and nothing is written. After `WriteFault` a prefix of the
/// text stands, and after the other faults nothing was written.
pub fn run_schedule<S: Source, K: Sink>(
    alloc: Global,
    source: &mut S,
    sink: &mut K,
) -> Result<(), RunFault>
    ensures done { OnOk result (WroteRun run_text (S.left source.old) (K.written sink.old) (K.written sink.new)) }
    ensures at_end { OnOk result (IsAtEnd (S.left source.new)) }
    ensures refused { (line : ℕ) → (why : Reason) → result ≡ Err (RunFault.Refused line why)
        → WroteRefusalOf line why (S.left source.old) (K.written sink.old) (K.written sink.new) }
    ensures refused_at_end { (line : ℕ) → (why : Reason) → result ≡ Err (RunFault.Refused line why)
        → IsAtEnd (S.left source.new) }

    // TooLarge exactly where more bytes were taken than a script may have.
    ensures large { result ≡ Err RunFault.TooLarge → Took 1048577 (S.left source.old) (S.left source.new) }
    ensures few { result ≢ Err RunFault.TooLarge → TookAtMost 1048576 (S.left source.old) (S.left source.new) }
    ensures large_silent { result ≡ Err RunFault.TooLarge → K.written sink.new ≡ K.written sink.old }

    ensures read_fault { result ≡ Err RunFault.ReadFault → Rose (S.faults source.old) (S.faults source.new) }
    ensures write_fault { result ≡ Err RunFault.WriteFault → Rose (K.faults sink.old) (K.faults sink.new) }
    ensures front { result ≡ Err RunFault.WriteFault
        → WroteFront run_text (S.left source.old) (K.written sink.old) (K.written sink.new) }
    ensures read_silent { result ≡ Err RunFault.ReadFault → K.written sink.new ≡ K.written sink.old }
    ensures memory_silent { result ≡ Err RunFault.NoMemory → K.written sink.new ≡ K.written sink.old }

    // Completeness: where no count of faults rose, the input alone decides, but for want of memory.
    ensures accepted { (script : Script) → IsSomeAnd (S.left source.old) (λ bytes. IsInput bytes script)
        → Stayed (S.faults source.old) (S.faults source.new) → Stayed (K.faults sink.old) (K.faults sink.new)
        → IsOk result ⊎ (result ≡ Err RunFault.NoMemory) }
    ensures bad { (line : ℕ) → (why : Reason) → IsSomeAnd (S.left source.old) (λ bytes. IsBadInput bytes line why)
        → Stayed (S.faults source.old) (S.faults source.new) → Stayed (K.faults sink.old) (K.faults sink.new)
        → (result ≡ Err (RunFault.Refused line why)) ⊎ (result ≡ Err RunFault.NoMemory) }
    ensures too_large { IsSomeAnd (S.left source.old) IsLargeInput
        → Stayed (S.faults source.old) (S.faults source.new)
        → (result ≡ Err RunFault.TooLarge) ⊎ (result ≡ Err RunFault.NoMemory) }
{
    run_shown(alloc, Detail::Whole, source, sink)
}
