//! The deferred function calls that a script declares: their numbers, and their queues at boot.
ghost use Rattle.std.specs.Prelude.{◌≡◌, ◌+◌, ◌≤◌, ◌<◌, [], All, length, map, replicate, IfOk, IfSome};
ghost use Rattle.script_types.specs.Shape.{IsShaped};
ghost use Rattle.state_rows.specs.DeclaredCalls.{idfc_named, dfc_named, queue_named, place_of, calls_of};
ghost use Rattle.state_rows.specs.DeferredChanges.{places_of};

use crate::{DeferredRows, DfcPlace};
use script_types::{DfcDecl, Script};
use std::alloc::Global;
use sym_base::{Items, Name, NoMemory};

/// The number of the first burial: declared deferred function calls have numbers below it.
pub const FIRST_BURIAL: usize = 64;

/// Where burials wait: the supervisor's queue, at the greatest priority.
const BURIAL: DfcPlace = DfcPlace {
    queue: 0,
    priority: 7,
};

/// The number of the immediate deferred function call of a name. None exactly where none is declared.
pub fn idfc_named(script: &Script, name: &Name) -> Option<u8>
    requires { IsShaped script.now }
    ensures number { result ≡ idfc_named script.now name.now }
    ensures known { IfSome result (λ item. item < length script.now.idfcs) }
{
    let place = script
        .idfcs
        .as_slice()
        .iter()
        .position(|idfc| name.is(&idfc.name))?;
    Some(place as u8)
}

/// The number of the deferred function call of a name. None exactly where none is declared.
pub fn dfc_named(script: &Script, name: &Name) -> Option<u8>
    requires { IsShaped script.now }
    ensures number { result ≡ dfc_named script.now name.now }
    ensures known { IfSome result (λ dfc. dfc < length script.now.dfcs) }
{
    let place = script
        .dfcs
        .as_slice()
        .iter()
        .position(|dfc| name.is(&dfc.name))?;
    Some(place as u8)
}

/// The number of the queue of a name: the supervisor's is queue 0.
fn queue_named(script: &Script, name: &Name) -> u8
    requires { IsShaped script.now }
    ensures number { result ≡ queue_named script.now name.now }
    ensures known { result < 1 + length script.now.queues }
{
    let place = script
        .queues
        .as_slice()
        .iter()
        .position(|queue| name.is(&queue.name));
    match place {
        None => 0,
        Some(place) => place as u8 + 1,
    }
}

/// Where a deferred function call waits.
fn place_of(script: &Script, declared: &DfcDecl) -> DfcPlace
    requires { IsShaped script.now }
    ensures place { result ≡ place_of script.now declared.now }
    ensures known { result.queue < 1 + length script.now.queues }
{
    DfcPlace {
        queue: queue_named(script, &declared.queue),
        priority: declared.priority,
    }
}

/// Where each declared deferred function call waits, in order.
pub fn declared_places(alloc: Global, script: &Script) -> Result<Vec<DfcPlace>, NoMemory>
    requires { IsShaped script.now }
    ensures places { IfOk result (λ places. places.items ≡ map (place_of script.now) script.now.dfcs) }
    ensures known { IfOk result (λ places. All (λ place. place.queue < 1 + length script.now.queues) places.items) }
{
    let mut places = Vec::new(alloc);
    for declared in script.dfcs.as_slice() {
        places.push(place_of(script, declared))?;
    }
    Ok(places)
}

/// The places of all calls: behind the declared ones those of so many burials.
fn all_places(alloc: Global, script: &Script, burials: usize) -> Result<Items<DfcPlace>, NoMemory>
    requires shaped { IsShaped script.now }
    requires few { burials ≤ 64 }
    ensures { IfOk result (λ places. places ≡ places_of (map (place_of script.now) script.now.dfcs) burials) }
{
    let mut places = declared_places(alloc, script)?;
    for _number in places.len()..FIRST_BURIAL + burials {
        places.push(BURIAL)?;
    }
    Ok(Items::new(places))
}

/// So many empty queues.
fn empty_queues(alloc: Global, count: usize) -> Result<Items<Items<usize>>, NoMemory>
    requires { count ≤ 8 }
    ensures { IfOk result (λ queues. queues ≡ replicate count []) }
{
    let mut queues = Vec::new(alloc);
    for _queue in 0..count {
        queues.push(Items::new(Vec::new(alloc)))?;
    }
    Ok(Items::new(queues))
}

/// Nothing is queued, in the supervisor's queue and in each declared one. Each thread has a burial.
pub fn calls_of(alloc: Global, script: &Script) -> Result<DeferredRows, NoMemory>
    requires { IsShaped script.now }
    ensures { IfOk result (λ calls. calls ≡ calls_of script.now) }
{
    let burials = 1 + script.queues.len() + script.threads.len();
    Ok(DeferredRows {
        idfcs: script.idfcs.len() as u8,
        places: all_places(alloc, script, burials)?,
        immediate: Items::new(Vec::new(alloc)),
        queues: empty_queues(alloc, 1 + script.queues.len())?,
    })
}
