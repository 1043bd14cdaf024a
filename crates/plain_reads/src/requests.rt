//! The plain machine's rows of requests, read by decisions. A number without a row reads as none, and a value or a
//! count without one as 0.
ghost use Rattle.std.specs.Prelude.{◌≡◌};
ghost use Rattle.state_rows.specs.Requests.{request_at, value_of, signal_count, reply_of};

use machine::{RequestRows, row_of};
use state_rows::Request;
use sym_base::{ObjNo, ThreadNo};

/// The request that a device has to complete.
pub fn request_at(rows: &RequestRows, device: u8) -> Option<Request>
    ensures { result ≡ request_at rows.now device }
{
    row_of(&rows.devices, ObjNo(device as u16))
}

/// The value of a thread's status.
pub fn value_of(rows: &RequestRows, thread: ThreadNo, status: u8) -> i32
    ensures { result ≡ value_of rows.now thread status }
{
    let Some(values) = rows.statuses.as_slice().get(thread.0 as usize) else {
        return 0;
    };
    match values.get(status as usize) {
        Some(value) => *value,
        None => 0,
    }
}

/// How many signals are at a thread's request semaphore.
pub fn request_signals(rows: &RequestRows, thread: ThreadNo) -> u64
    ensures { result ≡ signal_count rows.now thread }
{
    match rows.signals.as_slice().get(thread.0 as usize) {
        Some(count) => *count,
        None => 0,
    }
}

/// The reply to a thread's synchronous message.
pub fn reply_of(rows: &RequestRows, thread: ThreadNo) -> i32
    ensures { result ≡ reply_of rows.now thread }
{
    match rows.replies.as_slice().get(thread.0 as usize) {
        Some(code) => *code,
        None => 0,
    }
}
