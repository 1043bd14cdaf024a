//! Reading the whole input.
ghost use Rattle.std.specs.Prelude.{◌≡◌, ◌≢◌, ◌+◌, ◌<◌, ◌≤◌, ◌⊎◌, is_some, vec_len, IfOk, IfErr, IfSome, Err};
ghost use Rattle.edge_io.specs.Faults.{Rose};
ghost use Rattle.edge_io.specs.Left.{preceded};
ghost use Rattle.runner.specs.Inputs.{IsAtEnd, Took, TookAtMost};
ghost use Rattle.script_read.specs.declared.fault.RunFault.TheVariants.{ReadFault, NoMemory, TooLarge};

use edge_io::Source;
use script_read::RunFault;
use std::alloc::Global;

/// Reads the input to its end. `TooLarge` comes at the first byte past the limit.
pub fn read_input<S: Source>(
    alloc: Global,
    source: &mut S,
    limit: usize,
) -> Result<Vec<u8>, RunFault>
    requires bounded { limit < 4294967295 }
    ensures within { IfOk result (λ input. vec_len input ≤ limit) }
    ensures whole { IfOk result (λ input. IfSome (S.left source.old) (λ bytes. bytes ≡ input.items)) }
    ensures at_end { IfOk result (λ input. IsAtEnd (S.left source.new)) }
    ensures few { result ≢ Err TooLarge → TookAtMost limit (S.left source.old) (S.left source.new) }
    ensures large { result ≡ Err TooLarge → Took (limit + 1) (S.left source.old) (S.left source.new) }
    ensures fault { result ≡ Err ReadFault → Rose (S.faults source.old) (S.faults source.new) }
    ensures faults { IfErr result (λ fault. (fault ≡ ReadFault) ⊎ (fault ≡ NoMemory) ⊎ (fault ≡ TooLarge)) }
    ensures tells { is_some (S.left source.new) ≡ is_some (S.left source.old) }
    ensures never_falls { S.faults source.old ≤ S.faults source.new }
{
    let mut buffer = [0; 512];
    let mut input = Vec::new(alloc);
    loop {
        let room = buffer.len().min(limit + 1 - input.len());
        let Ok(count) = source.read(&mut buffer[..room]) else {
            return Err(RunFault::ReadFault);
        };
        if count == 0 {
            return Ok(input);
        }
        if count > limit - input.len() {
            return Err(RunFault::TooLarge);
        }
        if input.extend_from_slice(&buffer[..count]).is_err() {
            return Err(RunFault::NoMemory);
        }
    }
}
