//! The state at boot.
ghost use Rattle.std.specs.Prelude.{◌≡◌, ◌≤◌, [], IfOk, length, map, replicate};
ghost use Rattle.script_types.specs.Shape.{IsShaped};
ghost use Rattle.sym_base.specs.declared.limits.TheConstants.Limits.{DEVICES, OBJECTS};
ghost use Rattle.state_rows.specs.HandleSlots.{fresh_slot};
ghost use Rattle.state_rows.specs.RequestChanges.{new_rows as request_rows};
ghost use Rattle.state_rows.specs.LockChanges.{new_rows as lock_rows};
ghost use Rattle.state_rows.specs.ServerChanges.{no_rows};
ghost use Rattle.state_rows.specs.MessageChanges.{no_messages};
ghost use Rattle.machine.specs.Boot.{nano_of, memory_of, objects_from, uses_again, boot_of, boot, ready_at_boot};

use crate::boot::{Born, all_born};
use crate::boot_lists::{
    empty_lists, fresh_tables, memories_of, objects_of, ready_from, threads_of,
};
use crate::boot_rows::{nano_of, no_locks, no_messages, no_requests, no_servers};
use crate::{DeferredRows, Mode, References, Services, Serving, State, Synchronization};
use script_types::Script;
use state_rows::calls_of;
use std::alloc::Global;
use sym_base::{Items, Limits, NoMemory, ThreadNo};

/// What stands at boot, each with an empty table, and owing nothing.
fn references_of(alloc: Global, all: &[Born]) -> Result<References, NoMemory>
    requires { length all.now ≤ 65536 }
    ensures { IfOk result (λ references. references ≡ record { objects = objects_from 0 all.now; made = length all.now; handles = map (λ _. replicate 256 fresh_slot) all.now; threads = map (λ b. b.thread) all.now; owed = map (λ _. []) all.now }) }
{
    let objects = objects_of(alloc, all)?;
    let handles = fresh_tables(alloc, all)?;
    let threads = threads_of(alloc, all)?;
    let owed = empty_lists(alloc, all)?;
    Ok(References {
        objects,
        made: all.len() as u64,
        handles,
        threads,
        owed,
    })
}

/// Nobody synchronizes, asks for anything, locks, or is logged on to.
fn synchronization_of(
    alloc: Global,
    fast: u8,
    calls: DeferredRows,
    all: &[Born],
) -> Result<Synchronization, NoMemory>
    ensures { IfOk result (λ synchronization. synchronization ≡ record { nano = nano_of fast all.now; deferred = calls; requests = request_rows (length all.now) DEVICES; locks = lock_rows OBJECTS; mutexes = map (λ _. []) all.now; logons = map (λ _. []) all.now }) }
{
    let mutexes = empty_lists(alloc, all)?;
    let logons = empty_lists(alloc, all)?;
    let locks = no_locks(alloc, Limits::OBJECTS)?;
    let requests = no_requests(alloc, all.len())?;
    let nano = nano_of(alloc, fast, all)?;
    Ok(Synchronization {
        nano,
        deferred: calls,
        requests,
        locks,
        mutexes,
        logons,
    })
}

/// There is no server and no message, and nobody owns a server.
fn serving_of(alloc: Global, pool: u8, all: &[Born]) -> Result<Serving, NoMemory>
    ensures { IfOk result (λ serving. serving ≡ record { servers = no_rows OBJECTS; owned = map (λ _. []) all.now; messages = no_messages OBJECTS pool }) }
{
    let servers = no_servers(alloc, Limits::OBJECTS)?;
    let owned = empty_lists(alloc, all)?;
    let messages = no_messages(alloc, pool);
    Ok(Serving {
        servers,
        owned,
        messages,
    })
}

/// Each byte of a process is 0 at boot.
fn services_of(alloc: Global, all: &[Born]) -> Result<Services, NoMemory>
    ensures { IfOk result (λ services. services ≡ record { memories = map memory_of all.now }) }
{
    let memories = memories_of(alloc, all)?;
    Ok(Services { memories })
}

/// Whether the kernel of a script of this version uses the numbers of swept objects again: from version 2 on.
pub fn uses_again(version: u8) -> bool
    ensures { result ≡ uses_again version }
{
    version > 1
}

/// The state in which these stand, each with an empty table, nothing that it owes or holds and no logon, no device with a request,
/// no server, and no message; the kernel's pool has so many slots for messages, and numbers are used again or aren't.
#[tactic(auto, unfolding(crate::specs::Boot::boot_of))]
pub fn boot_of(
    alloc: Global,
    reuse: bool,
    pool: u8,
    fast: u8,
    calls: DeferredRows,
    all: &[Born],
) -> Result<State, NoMemory>
    requires { length all.now ≤ 65536 }
    ensures { IfOk result (λ state. state ≡ boot_of reuse pool fast calls all.now) }
{
    let services = services_of(alloc, all)?;
    let references = references_of(alloc, all)?;
    let serving = serving_of(alloc, pool, all)?;
    let synchronization = synchronization_of(alloc, fast, calls, all)?;
    Ok(State {
        mode: Mode {
            shared: false,
            keep: false,
            reuse,
        },
        references,
        synchronization,
        serving,
        services,
    })
}

/// The state at boot.
#[tactic(auto, using(crate::proofs::BornFew::born_few), unfolding(crate::specs::Boot::boot_of))]
pub fn state_at_boot(alloc: Global, script: &Script) -> Result<State, NoMemory>
    requires { IsShaped script.now }
    ensures { IfOk result (λ state. state ≡ boot script.now) }
{
    let all = all_born(alloc, script)?;
    let calls = calls_of(alloc, script)?;
    let reuse = uses_again(script.version);
    boot_of(
        alloc,
        reuse,
        script.pool,
        script.fast,
        calls,
        all.as_slice(),
    )
}

/// The ready list at boot: the threads that are declared and aren't held, in order of number.
#[tactic(auto, using(crate::proofs::BornFew::born_few))]
pub fn ready_at_boot(alloc: Global, script: &Script) -> Result<Items<ThreadNo>, NoMemory>
    requires { IsShaped script.now }
    ensures { IfOk result (λ ready. ready ≡ ready_at_boot script.now) }
{
    let all = all_born(alloc, script)?;
    ready_from(alloc, all.as_slice())
}
