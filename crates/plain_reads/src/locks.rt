//! The plain machine's mutexes, semaphores and memory, read by decisions.
ghost use Rattle.std.specs.Prelude.{◌≡◌, [], slice_index_or};
ghost use Rattle.machine.specs.Choice.{priority_of};
ghost use Rattle.machine.specs.Memory.{byte_of};
ghost use Rattle.state_rows.specs.Locks.{count_at, waiters_at, best_waiter};

use crate::choice::first_of_greatest;
use crate::lists::list_at;
use machine::State;
use sym_base::{Items, ObjNo, ThreadNo};

/// The count of a semaphore.
pub fn lock_count(state: &State, semaphore: ObjNo) -> u32
    ensures { result ≡ count_at state.now.synchronization.locks semaphore }
{
    let counts = state.synchronization.locks.counts.as_slice();
    counts.get(semaphore.0 as usize).copied().unwrap_or(0)
}

/// The threads that wait for an object, in order of waiting.
fn waiters_at(state: &State, object: ObjNo) -> &[ThreadNo]
    ensures { result.now ≡ waiters_at state.now.synchronization.locks object }
{
    list_at(&state.synchronization.locks.waiters, object)
}

/// The waiter of a mutex or semaphore that is served next.
pub fn best_waiter(state: &State, object: ObjNo) -> Option<ThreadNo>
    ensures { result ≡ best_waiter (priority_of state.now) state.now.synchronization.locks object }
{
    first_of_greatest(state, waiters_at(state, object))
}

/// A byte of a process.
pub fn byte_of(memories: &[Option<Items<u8>>], process: ObjNo, at: u16) -> u8
    ensures { result ≡ byte_of memories.now process at }
{
    match memories.get(process.0 as usize) {
        Some(Some(bytes)) => bytes.as_slice().get(at as usize).copied().unwrap_or(0),
        _ => 0,
    }
}
