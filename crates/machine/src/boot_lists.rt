//! Lists at boot, with an item for each object that stands there.
ghost use Rattle.std.specs.Prelude.{◌≡◌, ◌≤◌, [], IfOk, length, map, replicate};
ghost use Rattle.machine.specs.Boot.{objects_from, ready_from, memory_of};
ghost use Rattle.state_rows.specs.HandleSlots.{fresh_slot};

use crate::boot::Born;
use crate::{HandleSlot, ThreadRow};
use state_rows::{MEMORY, ObjectRow};
use std::alloc::Global;
use sym_base::{Items, Limits, NoMemory, ObjNo, ThreadNo};

/// An empty handle table.
fn fresh_table(alloc: Global) -> Result<Items<HandleSlot>, NoMemory>
    ensures { IfOk result (λ table. table ≡ replicate 256 fresh_slot) }
{
    let slots = [HandleSlot::FRESH; Limits::HANDLES];
    Ok(Items::new(Vec::from_slice(alloc, &slots)?))
}

/// An empty handle table for each.
pub fn fresh_tables(alloc: Global, all: &[Born]) -> Result<Items<Items<HandleSlot>>, NoMemory>
    ensures { IfOk result (λ tables. tables ≡ map (λ _. replicate 256 fresh_slot) all.now) }
{
    let mut tables = Vec::new(alloc);
    for _born in all {
        tables.push(fresh_table(alloc)?)?;
    }
    Ok(Items::new(tables))
}

/// An empty list for each.
pub fn empty_lists<T: Copy>(alloc: Global, all: &[Born]) -> Result<Items<Items<T>>, NoMemory>
    ensures { IfOk result (λ lists. lists ≡ map (λ _. []) all.now) }
{
    let mut lists = Vec::new(alloc);
    for _born in all {
        lists.push(Items::new(Vec::new(alloc)))?;
    }
    Ok(Items::new(lists))
}

/// The ready list at boot of what stands then: the threads that are declared and aren't held are ready, in order of number.
pub fn ready_from(alloc: Global, all: &[Born]) -> Result<Items<ThreadNo>, NoMemory>
    requires { length all.now ≤ 65536 }
    ensures { IfOk result (λ ready. ready ≡ ready_from 0 all.now) }
{
    let mut ready = Vec::new(alloc);
    for (n, born) in all.iter().enumerate() {
        if !born.works {
            continue;
        }
        ready.push(ObjNo(n as u16))?;
    }
    Ok(Items::new(ready))
}

/// The objects of what stands at boot, each with its number as its place.
pub fn objects_of(alloc: Global, all: &[Born]) -> Result<Items<Option<ObjectRow>>, NoMemory>
    ensures { IfOk result (λ objects. objects ≡ objects_from 0 all.now) }
{
    let mut objects = Vec::new(alloc);
    for (n, born) in all.iter().enumerate() {
        objects.push(Some(ObjectRow {
            place: n as u64,
            ..born.object
        }))?;
    }
    Ok(Items::new(objects))
}

/// The threads of what stands at boot.
pub fn threads_of(alloc: Global, all: &[Born]) -> Result<Items<Option<ThreadRow>>, NoMemory>
    ensures { IfOk result (λ threads. threads ≡ map (λ b. b.thread) all.now) }
{
    let mut threads = Vec::new(alloc);
    for born in all {
        threads.push(born.thread)?;
    }
    Ok(Items::new(threads))
}

/// So many bytes of memory, each 0.
fn zero_bytes(alloc: Global, size: usize) -> Result<Items<u8>, NoMemory>
    ensures { IfOk result (λ bytes. bytes ≡ replicate size 0) }
{
    Ok(Items::new(vec![in alloc; 0u8; size]?))
}

/// The memory of what stands at boot: a process has 1,024 zero bytes, and a thread none.
fn memory_of(alloc: Global, born: &Born) -> Result<Option<Items<u8>>, NoMemory>
    ensures { IfOk result (λ memory. memory ≡ memory_of born.now) }
{
    match born.thread {
        Some(_) => Ok(None),
        None => Ok(Some(zero_bytes(alloc, MEMORY)?)),
    }
}

/// The memories of what stands at boot.
pub fn memories_of(alloc: Global, all: &[Born]) -> Result<Items<Option<Items<u8>>>, NoMemory>
    ensures { IfOk result (λ memories. memories ≡ map memory_of all.now) }
{
    let mut memories = Vec::new(alloc);
    for born in all {
        memories.push(memory_of(alloc, born)?)?;
    }
    Ok(Items::new(memories))
}
