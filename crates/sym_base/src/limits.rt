//! The limits of a script, of the kernel that runs it, and of its history.

/// The greatest numbers that a script and its run may have. All are this project's own. Code, specs and
/// proofs cite them by these names.
pub struct Limits;

impl Limits {
    /// The bytes of the whole text.
    pub const INPUT: usize = 1_048_576;
    /// The bytes of a line.
    pub const LINE: usize = 200;
    /// The declared queues of deferred function calls.
    pub const QUEUES: usize = 7;
    /// The deferred function calls.
    pub const DFCS: usize = 64;
    /// The immediate deferred function calls.
    pub const IDFCS: usize = 64;
    /// The interrupts.
    pub const INTERRUPTS: usize = 32;
    /// The operations of a body.
    pub const OPERATIONS: usize = 4;
    /// The declared processes.
    pub const PROCESSES: usize = 16;
    /// The threads, with the supervisor and those of the queues.
    pub const THREADS: usize = 64;
    /// The instructions of a thread.
    pub const THREAD_INSTRUCTIONS: usize = 16_384;
    /// The instructions of all threads.
    pub const INSTRUCTIONS: usize = 65_536;
    /// The slots of the schedule.
    pub const SLOTS: usize = 65_536;
    /// The slots of the kernel's message pool.
    pub const POOL: usize = 255;
    /// The fast mutexes.
    pub const FAST_MUTEXES: usize = 16;
    /// The devices.
    pub const DEVICES: usize = 16;
    /// The processes and threads that stand at boot: the declared processes and the kernel's own, and the
    /// threads.
    pub const BOOT_OBJECTS: usize = 81;
    /// The objects that a kernel makes.
    pub const OBJECTS: usize = 4_096;
    /// The handles of a table.
    pub const HANDLES: usize = 256;
    /// The entries of a history that one schedule drives.
    pub const HISTORY: usize = 65_536;
    /// The entries of a history that several threads drive.
    pub const SHARED_HISTORY: usize = 131_072;
}
