//! The command `check`.
ghost use Rattle.std.specs.Prelude.{◌≡◌, ◌≢◌, ◌≤◌, ◌⊎◌, ℕ, List, true, IsSomeAnd, IfErr, IfOk, is_some, Ok, Err};
ghost use Rattle.edge_io.specs.Faults.{Rose};
ghost use Rattle.edge_io.specs.Written.{Wrote, WrotePrefix};
ghost use Rattle.entry_log.specs.declared.entry.Entry.{Entry};
ghost use Rattle.history_check.specs.Checks.{IsTextOf};
ghost use Rattle.history_check.specs.Legality.{IsAnswer, IsIllegalText, IsLegalText};
ghost use Rattle.machine_safe.specs.Safe.{IsSafeIn};
ghost use Rattle.runner.specs.Checking.{IsBadCheckInput, IsCheckedAs, IsLargeCheckInput, WroteAnswerFront, WroteCheckRefusal, WroteVerdict, WroteVerdictFront, verdict_text};
ghost use Rattle.runner.specs.Complete.{Stayed};
ghost use Rattle.runner.specs.Inputs.{IsAtEnd, Took, TookAtMost};
ghost use Rattle.script_read.specs.declared.reason.Reason.{Reason};
ghost use Rattle.script_types.specs.Source.{IsWellFormed};
ghost use Rattle.script_types.specs.declared.script.Script.{Script};

use crate::input::read_input;
use crate::output::write_refusal;
use crate::verdict::write_verdict;
use edge_io::{Sink, Source};
use history_check::{Checked, check_history, parts_of};
use script_grammar::is_well_formed;
use script_read::{ReadScript, RunFault, read_script};
use script_types::Script;
use std::alloc::Global;

/// The most bytes of a script with a history behind it. The limit is this project's own.
const MOST_BYTES: usize = 16_777_216;

/// Checks a history of a script, and writes what that came to.
fn check_text<K: Sink>(
    alloc: Global,
    script: Script,
    text: &[u8],
    sink: &mut K,
) -> Result<Checked, RunFault>
    requires { IsWellFormed script }
    ensures answer { IfOk result (IsAnswer script text.now) }
    ensures whole { IfOk result (λ checked. Wrote (K.written sink.old) (K.written sink.new) (verdict_text checked)) }
    ensures told { result ≢ Ok Checked.NoMemory }
    ensures safe { (history : List Entry) → IsTextOf script history text.now → IsSafeIn true script history }
    ensures legal { (entries : ℕ) → IsLegalText script text.now entries → Stayed (K.faults sink.old) (K.faults sink.new)
        → (result ≡ Ok (Checked.Legal entries)) ⊎ (result ≡ Err RunFault.NoMemory) }
    ensures illegal { (line : ℕ) → IsIllegalText script text.now line → Stayed (K.faults sink.old) (K.faults sink.new)
        → (result ≡ Ok (Checked.Illegal line)) ⊎ (result ≡ Err RunFault.NoMemory) }
    ensures front { result ≡ Err RunFault.WriteFault
        → WroteAnswerFront script text.now (K.written sink.old) (K.written sink.new) }
    ensures fault { result ≡ Err RunFault.WriteFault → Rose (K.faults sink.old) (K.faults sink.new) }
    ensures silent { result ≡ Err RunFault.NoMemory → K.written sink.new ≡ K.written sink.old }
    ensures faults { IfErr result (λ fault. (fault ≡ RunFault.WriteFault) ⊎ (fault ≡ RunFault.NoMemory)) }
    ensures tells { is_some (K.written sink.new) ≡ is_some (K.written sink.old) }
    ensures never_falls { K.faults sink.old ≤ K.faults sink.new }
{
    let checked = check_history(alloc, script, text);
    match checked {
        Checked::NoMemory => Err(RunFault::NoMemory),
        _ => match write_verdict(sink, checked) {
            Ok(()) => Ok(checked),
            Err(_) => Err(RunFault::WriteFault),
        },
    }
}

/// Reads a script and a history behind it, and writes one line that says whether the history is legal, as callers make it
/// who share the kernel: how many entries it has, or its first bad line. Of a script that is refused one line is written,
/// which tells its first bad line and why it is bad. Of an input of more than 16,777,216 bytes one byte too many is read,
/// and nothing is written. After `WriteFault` a prefix of the line stands, and after the other faults nothing was written.
pub fn run_check<S: Source, K: Sink>(
    alloc: Global,
    source: &mut S,
    sink: &mut K,
) -> Result<Checked, RunFault>
    ensures legal { (entries : ℕ) → result ≡ Ok (Checked.Legal entries)
        → WroteVerdict (Checked.Legal entries) (S.left source.old) (K.written sink.old) (K.written sink.new) }
    ensures illegal { (line : ℕ) → result ≡ Ok (Checked.Illegal line)
        → WroteVerdict (Checked.Illegal line) (S.left source.old) (K.written sink.old) (K.written sink.new) }
    ensures told { result ≢ Ok Checked.NoMemory }
    ensures at_end { IfOk result (λ checked. IsAtEnd (S.left source.new)) }
    ensures refused { (line : ℕ) → (why : Reason) → result ≡ Err (RunFault.Refused line why)
        → WroteCheckRefusal line why (S.left source.old) (K.written sink.old) (K.written sink.new) }
    ensures refused_at_end { (line : ℕ) → (why : Reason) → result ≡ Err (RunFault.Refused line why)
        → IsAtEnd (S.left source.new) }

    // TooLarge exactly if more bytes were taken than a check reads.
    ensures large { result ≡ Err RunFault.TooLarge → Took 16777217 (S.left source.old) (S.left source.new) }
    ensures few { result ≢ Err RunFault.TooLarge → TookAtMost 16777216 (S.left source.old) (S.left source.new) }
    ensures large_silent { result ≡ Err RunFault.TooLarge → K.written sink.new ≡ K.written sink.old }

    ensures read_fault { result ≡ Err RunFault.ReadFault → Rose (S.faults source.old) (S.faults source.new) }
    ensures write_fault { result ≡ Err RunFault.WriteFault → Rose (K.faults sink.old) (K.faults sink.new) }
    ensures front { result ≡ Err RunFault.WriteFault
        → WroteVerdictFront (S.left source.old) (K.written sink.old) (K.written sink.new) }
    ensures read_silent { result ≡ Err RunFault.ReadFault → K.written sink.new ≡ K.written sink.old }
    ensures memory_silent { result ≡ Err RunFault.NoMemory → K.written sink.new ≡ K.written sink.old }

    // Completeness: if no count of faults rose, the input alone decides, but for want of memory.
    ensures decided_legal { (script : Script) → (entries : ℕ)
        → IsSomeAnd (S.left source.old) (λ bytes. IsCheckedAs bytes script (Checked.Legal entries))
        → Stayed (S.faults source.old) (S.faults source.new) → Stayed (K.faults sink.old) (K.faults sink.new)
        → (result ≡ Ok (Checked.Legal entries)) ⊎ (result ≡ Err RunFault.NoMemory) }
    ensures decided_illegal { (script : Script) → (line : ℕ)
        → IsSomeAnd (S.left source.old) (λ bytes. IsCheckedAs bytes script (Checked.Illegal line))
        → Stayed (S.faults source.old) (S.faults source.new) → Stayed (K.faults sink.old) (K.faults sink.new)
        → (result ≡ Ok (Checked.Illegal line)) ⊎ (result ≡ Err RunFault.NoMemory) }
    ensures bad { (line : ℕ) → (why : Reason) → IsSomeAnd (S.left source.old) (λ bytes. IsBadCheckInput bytes line why)
        → Stayed (S.faults source.old) (S.faults source.new) → Stayed (K.faults sink.old) (K.faults sink.new)
        → (result ≡ Err (RunFault.Refused line why)) ⊎ (result ≡ Err RunFault.NoMemory) }
    ensures too_large { IsSomeAnd (S.left source.old) IsLargeCheckInput
        → Stayed (S.faults source.old) (S.faults source.new)
        → (result ≡ Err RunFault.TooLarge) ⊎ (result ≡ Err RunFault.NoMemory) }
{
    let input = read_input(alloc, source, MOST_BYTES)?;
    let (script, history) = parts_of(input.as_slice());
    match read_script(alloc, script) {
        ReadScript::Script(script) => {
            is_well_formed(&script);
            check_text(alloc, script, history, sink)
        }
        ReadScript::Refused { line, reason } => match write_refusal(sink, line, reason) {
            Ok(()) => Err(RunFault::Refused { line, reason }),
            Err(_) => Err(RunFault::WriteFault),
        },
        ReadScript::NoMemory => Err(RunFault::NoMemory),
    }
}
