//! The history of a script, made by a kernel.
ghost use Rattle.std.specs.Prelude.{IfOk};
ghost use Rattle.runner.specs.RunText.{HasRun};
ghost use Rattle.script_types.specs.Source.{IsWellFormed};

use kcore::Kernel;
use ref_words::PlainWords;
use script_types::Script;
use std::alloc::Global;
use sym_base::NoMemory;

/// Makes the whole history of a script: each slot of its schedule makes one entry.
pub fn make_history(alloc: Global, script: Script) -> Result<Kernel<PlainWords>, NoMemory>
    requires { IsWellFormed script }
    ensures { IfOk result (λ kernel. HasRun script kernel) }
{
    Kernel::after_run(alloc, script)
}
