//! The rows by which threads wait for each other, for devices, and for the end of threads.
ghost use Rattle.std.specs.Prelude.{◌≡◌, IfOk};

use crate::lists::copied_lists;
use state_rows::{DeferredRows, LockRows, NanoRows, RequestRows};
use std::alloc::{AllocError, Global};
use sym_base::{Items, ObjNo, ThreadNo};

/// What threads synchronize by: the nanokernel's objects, deferred function calls, requests, locks and logons.
#[derive(Drop)]
pub struct Synchronization {
    /// Fast semaphores, fast mutexes, critical sections and suspension.
    pub nano: NanoRows,
    /// The queues of deferred function calls.
    pub deferred: DeferredRows,
    /// Devices' requests, statuses and request semaphores.
    pub requests: RequestRows,
    /// Mutexes and semaphores, and who waits for them.
    pub locks: LockRows,
    /// The mutexes that each thread holds, in order of taking, in which it gives them up as it dies. Whose a mutex is, the rows
    /// of mutexes say; the two agree in every state (`AreLocks`: `owned` and `held`).
    pub mutexes: Items<Items<ObjNo>>,
    /// The logons on each thread, in order of making: the thread that made each, and its status, 0 to 15, which is going to tell
    /// the death.
    pub logons: Items<Items<(ThreadNo, u8)>>,
}

/// The same rows of threads that synchronize, a second time.
fn copied_nano(alloc: Global, nano: &NanoRows) -> Result<NanoRows, AllocError>
    ensures { IfOk result (λ copy. copy ≡ nano.now) }
{
    Ok(NanoRows {
        signals: nano.signals.copied(alloc)?,
        suspensions: nano.suspensions.copied(alloc)?,
        sections: nano.sections.copied(alloc)?,
        wants: nano.wants.copied(alloc)?,
        holders: nano.holders.copied(alloc)?,
    })
}

/// The same rows of deferred function calls, a second time.
fn copied_deferred(alloc: Global, deferred: &DeferredRows) -> Result<DeferredRows, AllocError>
    ensures { IfOk result (λ copy. copy ≡ deferred.now) }
{
    Ok(DeferredRows {
        idfcs: deferred.idfcs,
        places: deferred.places.copied(alloc)?,
        immediate: deferred.immediate.copied(alloc)?,
        queues: copied_lists(alloc, deferred.queues.as_slice())?,
    })
}

/// The same rows of requests, a second time.
fn copied_requests(alloc: Global, requests: &RequestRows) -> Result<RequestRows, AllocError>
    ensures { IfOk result (λ copy. copy ≡ requests.now) }
{
    Ok(RequestRows {
        devices: requests.devices.copied(alloc)?,
        statuses: requests.statuses.copied(alloc)?,
        signals: requests.signals.copied(alloc)?,
        replies: requests.replies.copied(alloc)?,
    })
}

/// The same rows of mutexes and semaphores, a second time.
fn copied_locks(alloc: Global, locks: &LockRows) -> Result<LockRows, AllocError>
    ensures { IfOk result (λ copy. copy ≡ locks.now) }
{
    Ok(LockRows {
        owners: locks.owners.copied(alloc)?,
        counts: locks.counts.copied(alloc)?,
        waiters: copied_lists(alloc, locks.waiters.as_slice())?,
    })
}

/// Mutexes, what each thread holds of them, and the logons on it, a second time.
fn copied_holdings(
    alloc: Global,
    rows: &Synchronization,
) -> Result<(LockRows, Items<Items<ObjNo>>, Items<Items<(ThreadNo, u8)>>), AllocError>
    ensures { IfOk result (λ copy. copy ≡ (rows.now.locks, rows.now.mutexes, rows.now.logons)) }
{
    let mutexes = copied_lists(alloc, rows.mutexes.as_slice())?;
    let logons = copied_lists(alloc, rows.logons.as_slice())?;
    let locks = copied_locks(alloc, &rows.locks)?;
    Ok((locks, mutexes, logons))
}

/// Deferred function calls, requests, and what the nanokernel keeps, a second time.
fn copied_signals(
    alloc: Global,
    rows: &Synchronization,
) -> Result<(DeferredRows, RequestRows, NanoRows), AllocError>
    ensures { IfOk result (λ copy. copy ≡ (rows.now.deferred, rows.now.requests, rows.now.nano)) }
{
    let deferred = copied_deferred(alloc, &rows.deferred)?;
    let requests = copied_requests(alloc, &rows.requests)?;
    let nano = copied_nano(alloc, &rows.nano)?;
    Ok((deferred, requests, nano))
}

impl Synchronization {
    /// The same rows, a second time.
    pub fn copied(&self, alloc: Global) -> Result<Synchronization, AllocError>
        ensures { IfOk result (λ copy. copy ≡ self.now) }
    {
        let (locks, mutexes, logons) = copied_holdings(alloc, self)?;
        let (deferred, requests, nano) = copied_signals(alloc, self)?;
        Ok(Synchronization {
            nano,
            deferred,
            requests,
            locks,
            mutexes,
            logons,
        })
    }
}
