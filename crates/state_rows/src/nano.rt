//! Rows of threads that synchronize.

use sym_base::{Items, ThreadNo};

/// What the nanokernel keeps of threads that synchronize (Symbian OS Internals, the chapter on threads and
/// processes): of each thread, by number, the signals of its fast semaphore, its suspend count, its critical
/// count and the fast mutex that it wants; of each fast mutex, by number, the thread that holds it.
#[derive(Drop)]
pub struct NanoRows {
    pub signals: Items<u64>,
    pub suspensions: Items<u8>,
    pub sections: Items<u64>,
    pub wants: Items<Option<u8>>,
    pub holders: Items<Option<ThreadNo>>,
}
