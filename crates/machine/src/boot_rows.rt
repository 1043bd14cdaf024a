//! Rows at boot of what threads synchronize by, ask for and serve: there is nothing in them yet.
ghost use Rattle.std.specs.Prelude.{◌≡◌, [], IfOk, map, pos, replicate};
ghost use Rattle.sym_base.specs.declared.limits.TheConstants.Limits.{DEVICES, OBJECTS};
ghost use Rattle.state_rows.specs.RequestChanges.{new_rows as request_rows};
ghost use Rattle.state_rows.specs.LockChanges.{new_rows as lock_rows};
ghost use Rattle.state_rows.specs.ServerChanges.{no_rows};
ghost use Rattle.state_rows.specs.MessageChanges.{no_messages};
ghost use Rattle.machine.specs.Boot.{held_count, nano_of};

use crate::boot::Born;
use crate::{LockRows, NanoRows, RequestRows};
use state_rows::{MessageRows, STATUSES, ServerRows};
use std::alloc::Global;
use sym_base::{Items, Limits, NoMemory};

/// The suspend count of each: a thread that is declared as held is suspended once.
fn suspensions_of(alloc: Global, all: &[Born]) -> Result<Items<u8>, NoMemory>
    ensures { IfOk result (λ suspensions. suspensions ≡ map held_count all.now) }
{
    let mut suspensions = Vec::new(alloc);
    for born in all {
        suspensions.push(if born.held { 1u8 } else { 0u8 })?;
    }
    Ok(Items::new(suspensions))
}

/// The rows of threads that synchronize: nobody has a signal, is in a critical section, or wants or holds a
/// fast mutex.
pub fn nano_of(alloc: Global, fast: u8, all: &[Born]) -> Result<NanoRows, NoMemory>
    ensures { IfOk result (λ nano. nano ≡ nano_of fast all.now) }
{
    Ok(NanoRows {
        signals: Items::new(vec![in alloc; 0u64; all.len()]?),
        suspensions: suspensions_of(alloc, all)?,
        sections: Items::new(vec![in alloc; 0u64; all.len()]?),
        wants: Items::new(vec![in alloc; None; all.len()]?),
        holders: Items::new(vec![in alloc; None; fast as usize]?),
    })
}

/// The statuses of so many threads, each 0.
fn no_statuses(alloc: Global, threads: usize) -> Result<Items<[i32; STATUSES]>, NoMemory>
    ensures { IfOk result (λ statuses. statuses ≡ replicate threads (replicate 16 (pos 0))) }
{
    let mut statuses = Vec::new(alloc);
    for _thread in 0..threads {
        statuses.push([0i32; STATUSES])?;
    }
    Ok(Items::new(statuses))
}

/// No request, and statuses and semaphores that are 0, of so many threads.
pub fn no_requests(alloc: Global, threads: usize) -> Result<RequestRows, NoMemory>
    ensures { IfOk result (λ requests. requests ≡ request_rows threads DEVICES) }
{
    Ok(RequestRows {
        devices: Items::new(vec![in alloc; None; Limits::DEVICES]?),
        statuses: no_statuses(alloc, threads)?,
        signals: Items::new(vec![in alloc; 0u64; threads]?),
        replies: Items::new(vec![in alloc; 0i32; threads]?),
    })
}

/// So many lists with nothing in them.
fn no_lists<T: Copy>(alloc: Global, objects: usize) -> Result<Items<Items<T>>, NoMemory>
    ensures { IfOk result (λ lists. lists ≡ replicate objects []) }
{
    let mut lists = Vec::new(alloc);
    for _object in 0..objects {
        lists.push(Items::new(Vec::new(alloc)))?;
    }
    Ok(Items::new(lists))
}

/// So many mutexes and semaphores that nobody owns or waits for, and whose counts are 0.
pub fn no_locks(alloc: Global, objects: usize) -> Result<LockRows, NoMemory>
    ensures { IfOk result (λ locks. locks ≡ lock_rows objects) }
{
    Ok(LockRows {
        owners: Items::new(vec![in alloc; None; objects]?),
        counts: Items::new(vec![in alloc; 0u32; objects]?),
        waiters: no_lists(alloc, objects)?,
    })
}

/// So many objects, of which none is a server or a session.
pub fn no_servers(alloc: Global, objects: usize) -> Result<ServerRows, NoMemory>
    ensures { IfOk result (λ servers. servers ≡ no_rows objects) }
{
    Ok(ServerRows {
        servers: Items::new(vec![in alloc; None; objects]?),
        sessions: Items::new(vec![in alloc; None; objects]?),
        linked: no_lists(alloc, objects)?,
    })
}

/// No message, where the kernel's pool has so many slots.
pub fn no_messages(alloc: Global, pool: u8) -> MessageRows
    ensures { result ≡ no_messages OBJECTS pool }
{
    MessageRows {
        objects: Limits::OBJECTS as u16,
        pool,
        accepted: 0,
        outstanding: Items::new(Vec::new(alloc)),
    }
}
