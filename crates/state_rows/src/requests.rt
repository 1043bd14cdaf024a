//! Rows of requests.

use sym_base::{Items, ThreadNo};

/// How many statuses each thread has. The number is this project's own.
pub const STATUSES: usize = 16;

/// The value of a status whose request isn't completed: KRequestPending.
pub const PENDING: i32 = -2_147_483_647;

/// A request that a device has to complete: the thread that made it, and which of the thread's statuses
/// tells its completion.
#[derive(Clone, Copy, Debug, PartialEq, Eq)]
pub struct Request {
    pub thread: ThreadNo,
    pub status: u8,
}

/// What the kernel keeps of asynchronous requests (Symbian OS Internals, the chapter on inter-thread communication):
/// of each device, by number, the request that it has to complete; of each thread, by number, the values of its
/// sixteen statuses, the signals of its request semaphore, and the status of its synchronous message. Devices, the
/// number of statuses and the last one are this project's own.
#[derive(Drop)]
pub struct RequestRows {
    pub devices: Items<Option<Request>>,
    pub statuses: Items<[i32; STATUSES]>,
    pub signals: Items<u64>,
    pub replies: Items<i32>,
}
