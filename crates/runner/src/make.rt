//! The command `make`.
ghost use Rattle.std.specs.Prelude.{◌≡◌, ◌≤◌, ◌⊎◌, is_some, IfOk, IfErr, IsOk, OnOk, Err};
ghost use Rattle.edge_io.specs.Faults.{Rose};
ghost use Rattle.edge_io.specs.Written.{Wrote, WrotePrefix};
ghost use Rattle.load_maker.specs.Made.{made};
ghost use Rattle.runner.specs.Complete.{Stayed};
ghost use Rattle.runner.specs.MadeText.{made_text};
ghost use Rattle.script_grammar.specs.Accepted.{IsAccepted};

use crate::lines::write_lines;
use edge_io::Sink;
use load_maker::make_script;
use script_print::print_script;
use script_read::RunFault;
use std::alloc::Global;
use sym_base::NoMemory;

/// The canonical text of the script of a seed and a size.
fn made_text(alloc: Global, seed: u64, size: u32) -> Result<Vec<u8>, NoMemory>
    requires some { 1 ≤ size }
    requires few { size ≤ 500 }
    ensures text { IfOk result (λ text. text.items ≡ made_text seed size) }
    ensures accepted { OnOk result (IsAccepted (made_text seed size) (made seed size)) }
{
    let script = make_script(alloc, seed, size)?;
    print_script(alloc, &script)
}

/// Makes the script of a seed and a size, which is the number of each client's rounds, 1 to 500, and writes its
/// canonical text, which is read as that script again. After `WriteFault` a prefix of the text stands, and after
/// `NoMemory` nothing was written. The other faults don't come.
pub fn write_made<K: Sink>(
    alloc: Global,
    seed: u64,
    size: u32,
    sink: &mut K,
) -> Result<(), RunFault>
    requires some { 1 ≤ size }
    requires few { size ≤ 500 }
    ensures done { OnOk result (Wrote (K.written sink.old) (K.written sink.new) (made_text seed size)) }
    ensures accepted { OnOk result (IsAccepted (made_text seed size) (made seed size)) }
    ensures write_fault { result ≡ Err RunFault.WriteFault → Rose (K.faults sink.old) (K.faults sink.new) }
    ensures front { result ≡ Err RunFault.WriteFault
        → WrotePrefix (K.written sink.old) (K.written sink.new) (made_text seed size) }
    ensures memory_silent { result ≡ Err RunFault.NoMemory → K.written sink.new ≡ K.written sink.old }
    ensures faults { IfErr result (λ fault. (fault ≡ RunFault.WriteFault) ⊎ (fault ≡ RunFault.NoMemory)) }

    // Completeness: where the count of faults didn't rise, the text was written, but for want of memory.
    ensures complete { Stayed (K.faults sink.old) (K.faults sink.new)
        → IsOk result ⊎ (result ≡ Err RunFault.NoMemory) }
{
    let Ok(text) = made_text(alloc, seed, size) else {
        return Err(RunFault::NoMemory);
    };
    match write_lines(sink, text.as_slice()) {
        Ok(()) => Ok(()),
        Err(_) => Err(RunFault::WriteFault),
    }
}
