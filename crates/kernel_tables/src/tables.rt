//! The kernel's tables.

use cleanup::Cleanup;
use handles::Handles;
use kern_sync::KernSync;
use machine::Mode;
use messages::Messages;
use nano_sync::NanoSync;
use procs::Procs;
use ref_words::RefWords;
use requests::Requests;
use server_table::ServerTable;
use sym_base::Items;
use table_moves::{CallQueues, ObjectTable};

/// All tables but the history and the queues of ready threads. Each list is indexed by object number.
#[derive(Drop)]
pub struct Tables<W: RefWords> {
    /// How the kernel is called, and what the present action may still choose.
    pub mode: Mode,
    pub objects: ObjectTable<W>,
    /// The handle table of each process and thread.
    pub handles: Items<Handles>,
    /// The row of each thread, and the memory of each process.
    pub procs: Procs,
    /// What each thread owes, the oldest first, and what its death gives up.
    pub cleanup: Cleanup,
    /// Fast semaphores, fast mutexes, critical sections and suspension.
    pub nano: NanoSync,
    /// Deferred function calls, and the immediate ones.
    pub deferred: CallQueues,
    /// Mutexes and semaphores, and the threads that wait for them.
    pub locks: KernSync,
    /// Requests of devices, statuses and request semaphores.
    pub requests: Requests,
    /// Servers and sessions, and which sessions are linked to which server.
    pub servers: ServerTable,
    /// The outstanding messages.
    pub messages: Messages,
}
