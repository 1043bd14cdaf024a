//! Reading a script, or writing why it is refused.
ghost use Rattle.std.specs.Prelude.{◌≡◌, ◌≢◌, ◌≤◌, ◌⊎◌, ℕ, is_some, IsSomeAnd, IfOk, IfSome, IsOk, OnOk, Err};
ghost use Rattle.edge_io.specs.Faults.{Rose};
ghost use Rattle.runner.specs.Complete.{Stayed};
ghost use Rattle.runner.specs.Inputs.{IsAtEnd, IsInput, IsBadInput, IsLargeInput, Took, TookAtMost};
ghost use Rattle.runner.specs.Outputs.{WroteRefusalOf, WroteRefusalFront};
ghost use Rattle.script_read.specs.declared.reason.Reason.{Reason};
ghost use Rattle.script_types.specs.Source.{IsWellFormed};
ghost use Rattle.script_types.specs.declared.script.Script.{Script};

use crate::input::read_input;
use crate::output::write_refusal;
use edge_io::{Sink, Source};
use script_grammar::is_well_formed;
use script_read::{ReadScript, RunFault, read_script};
use script_types::{Limits, Script};
use std::alloc::Global;

/// Reads the whole input, and the script that it is. Of a script that is refused one line is written, which tells its first
/// bad line and why it is bad.
pub fn read_accepted<S: Source, K: Sink>(
    alloc: Global,
    source: &mut S,
    sink: &mut K,
) -> Result<Script, RunFault>
    ensures valid { IfOk result IsWellFormed }
    ensures input { IfOk result (λ script. IfSome (S.left source.old) (λ bytes. IsInput bytes script)) }
    ensures untouched { OnOk result (sink.new ≡ sink.old) }
    ensures at_end { OnOk result (IsAtEnd (S.left source.new)) }
    ensures refused { (line : ℕ) → (why : Reason) → result ≡ Err (RunFault.Refused line why)
        → WroteRefusalOf line why (S.left source.old) (K.written sink.old) (K.written sink.new) }
    ensures refused_at_end { (line : ℕ) → (why : Reason) → result ≡ Err (RunFault.Refused line why)
        → IsAtEnd (S.left source.new) }

    // TooLarge exactly where more bytes were taken than a script may have.
    ensures large { result ≡ Err RunFault.TooLarge → Took 1048577 (S.left source.old) (S.left source.new) }
    ensures few { result ≢ Err RunFault.TooLarge → TookAtMost 1048576 (S.left source.old) (S.left source.new) }
    ensures large_silent { result ≡ Err RunFault.TooLarge → K.written sink.new ≡ K.written sink.old }

    ensures read_fault { result ≡ Err RunFault.ReadFault → Rose (S.faults source.old) (S.faults source.new) }
    ensures write_fault { result ≡ Err RunFault.WriteFault → Rose (K.faults sink.old) (K.faults sink.new) }
    ensures front { result ≡ Err RunFault.WriteFault
        → WroteRefusalFront (S.left source.old) (K.written sink.old) (K.written sink.new) }
    ensures read_silent { result ≡ Err RunFault.ReadFault → K.written sink.new ≡ K.written sink.old }
    ensures memory_silent { result ≡ Err RunFault.NoMemory → K.written sink.new ≡ K.written sink.old }

    // Completeness: where no count of faults rose, the input alone decides, but for want of memory.
    ensures accepted { (script : Script) → IsSomeAnd (S.left source.old) (λ bytes. IsInput bytes script)
        → Stayed (S.faults source.old) (S.faults source.new) → Stayed (K.faults sink.old) (K.faults sink.new)
        → IsOk result ⊎ (result ≡ Err RunFault.NoMemory) }
    ensures bad { (line : ℕ) → (why : Reason) → IsSomeAnd (S.left source.old) (λ bytes. IsBadInput bytes line why)
        → Stayed (S.faults source.old) (S.faults source.new) → Stayed (K.faults sink.old) (K.faults sink.new)
        → (result ≡ Err (RunFault.Refused line why)) ⊎ (result ≡ Err RunFault.NoMemory) }
    ensures too_large { IsSomeAnd (S.left source.old) IsLargeInput
        → Stayed (S.faults source.old) (S.faults source.new)
        → (result ≡ Err RunFault.TooLarge) ⊎ (result ≡ Err RunFault.NoMemory) }
{
    let input = read_input(alloc, source, Limits::INPUT)?;
    match read_script(alloc, input.as_slice()) {
        ReadScript::Script(script) => {
            is_well_formed(&script);
            Ok(script)
        }
        ReadScript::Refused { line, reason } => match write_refusal(sink, line, reason) {
            Ok(()) => Err(RunFault::Refused { line, reason }),
            Err(_) => Err(RunFault::WriteFault),
        },
        ReadScript::NoMemory => Err(RunFault::NoMemory),
    }
}
