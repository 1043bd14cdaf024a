//! What the kernel keeps for processes beside their objects.
ghost use Rattle.std.specs.Prelude.{◌≡◌, IfOk};

use std::alloc::{AllocError, Global};
use sym_base::Items;

/// What the kernel keeps for processes beside their objects: their memory.
#[derive(Drop)]
pub struct Services {
    /// The 1,024 bytes of each process, None at the number of a thread.
    pub memories: Items<Option<Items<u8>>>,
}

/// The same bytes, a second time.
fn copied_memory(alloc: Global, memory: &Option<Items<u8>>) -> Result<Option<Items<u8>>, AllocError>
    ensures { IfOk result (λ copy. copy ≡ memory.now) }
{
    match memory {
        Some(bytes) => Ok(Some(bytes.copied(alloc)?)),
        None => Ok(None),
    }
}

/// The same memories, a second time.
fn copied_memories(
    alloc: Global,
    memories: &[Option<Items<u8>>],
) -> Result<Items<Option<Items<u8>>>, AllocError>
    ensures { IfOk result (λ copies. copies ≡ memories.now) }
{
    let mut copies = Vec::new(alloc);
    for memory in memories {
        copies.push(copied_memory(alloc, memory)?)?;
    }
    Ok(Items::new(copies))
}

impl Services {
    /// The same memories, a second time.
    pub fn copied(&self, alloc: Global) -> Result<Services, AllocError>
        ensures { IfOk result (λ copy. copy ≡ self.now) }
    {
        Ok(Services {
            memories: copied_memories(alloc, self.memories.as_slice())?,
        })
    }
}
