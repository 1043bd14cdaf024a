//! Reading the rows of threads that synchronize. A number without a row reads as none, and a count without one
//! as 0.
ghost use Rattle.std.specs.Prelude.{◌≡◌, ◌<◌, length, IfSome, position};
ghost use Rattle.state_rows.specs.Nano.{signal_count, suspend_count, critical_count, want_of, holder_of, is_thread, is_protected};

use crate::NanoRows;
use crate::rows::row_of;
use sym_base::{ObjNo, ThreadNo};

/// How many signals are at a thread's fast semaphore.
pub fn signal_count(rows: &NanoRows, thread: ThreadNo) -> u64
    ensures { result ≡ signal_count rows.now thread }
{
    let at = thread.0 as usize;
    if at < rows.signals.len() {
        rows.signals.get(at)
    } else {
        0
    }
}

/// How many suspensions of a thread aren't resumed.
pub fn suspend_count(rows: &NanoRows, thread: ThreadNo) -> u8
    ensures { result ≡ suspend_count rows.now thread }
{
    let at = thread.0 as usize;
    if at < rows.suspensions.len() {
        rows.suspensions.get(at)
    } else {
        0
    }
}

/// How many critical sections a thread is in.
pub fn critical_count(rows: &NanoRows, thread: ThreadNo) -> u64
    ensures { result ≡ critical_count rows.now thread }
{
    let at = thread.0 as usize;
    if at < rows.sections.len() {
        rows.sections.get(at)
    } else {
        0
    }
}

/// The fast mutex that a thread wants.
pub fn wanted_mutex(rows: &NanoRows, thread: ThreadNo) -> Option<u8>
    ensures { result ≡ want_of rows.now thread }
{
    row_of(&rows.wants, thread)
}

/// The thread that holds a fast mutex.
pub fn mutex_holder(rows: &NanoRows, fast: u8) -> Option<ThreadNo>
    ensures { result ≡ holder_of rows.now fast }
{
    row_of(&rows.holders, ObjNo(fast as u16))
}

/// Whether a holder is a thread.
pub fn is_thread(thread: ThreadNo, holder: Option<ThreadNo>) -> bool
    ensures { result ≡ is_thread thread holder }
{
    match holder {
        Some(holder) => holder.0 == thread.0,
        None => false,
    }
}

/// The place of the fast mutex that a thread holds.
pub fn held_place(holders: &[Option<ThreadNo>], thread: ThreadNo) -> Option<usize>
    ensures place { result ≡ position (is_thread thread) holders.now }
    ensures within { IfSome result (λ f. f < length holders.now) }
{
    holders.iter().position(|holder| is_thread(thread, *holder))
}

/// Whether a thread holds a fast mutex or is in a critical section.
pub fn is_protected(rows: &NanoRows, thread: ThreadNo) -> bool
    ensures { result ≡ is_protected rows.now thread }
{
    held_place(rows.holders.as_slice(), thread).is_some() || critical_count(rows, thread) != 0
}
