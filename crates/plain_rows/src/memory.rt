//! The memory of processes, on the plain machine's lists.
ghost use Rattle.std.specs.Prelude.{◌≡◌, ◌+◌, ◌≤◌, ◌++◌, IfOk, OnOk, replicate};
ghost use Rattle.std.specs.List.{slice_index_or};
ghost use Rattle.machine.specs.Memory.{filled, with_memory};

use std::alloc::Global;
use sym_base::{Items, NoMemory, ObjNo};

/// Adds a byte so often.
fn push_times(all: &mut Vec<u8>, times: usize, byte: u8) -> Result<(), NoMemory>
    ensures { OnOk result (all.new.items ≡ all.old.items ++ replicate times byte) }
{
    for _time in 0..times {
        all.push(byte)?;
    }
    Ok(())
}

/// The bytes, of which so many from an offset on have a value.
fn filled(
    alloc: Global,
    bytes: &[u8],
    at: usize,
    length: usize,
    byte: u8,
) -> Result<Items<u8>, NoMemory>
    requires { at + length ≤ 131070 }
    ensures { IfOk result (λ all. all ≡ filled at length byte bytes.now) }
{
    let mut all = Vec::new(alloc);
    all.extend_from_slice(&bytes[..at.min(bytes.len())])?;
    push_times(&mut all, length, byte)?;
    all.extend_from_slice(&bytes[(at + length).min(bytes.len())..])?;
    Ok(Items::new(all))
}

/// So many bytes of a process from an offset on get a value.
pub fn fill_memory(
    alloc: Global,
    memories: &mut Items<Option<Items<u8>>>,
    process: ObjNo,
    at: u16,
    length: u16,
    byte: u8,
) -> Result<(), NoMemory>
    ensures { OnOk result (memories.new ≡ with_memory memories.old process (filled at length byte)) }
{
    let number = process.0 as usize;
    if number >= memories.len() {
        return Ok(());
    }
    if let Some(bytes) = memories.get_mut(number) {
        *bytes = filled(alloc, bytes.as_slice(), at as usize, length as usize, byte)?;
    }
    Ok(())
}
