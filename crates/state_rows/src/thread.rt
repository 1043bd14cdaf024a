//! The row of a thread.
ghost use Rattle.std.specs.Prelude.{◌≡◌};
ghost use Rattle.state_rows.specs.ThreadRows.{new_thread};

use entry_log::Part;
use sym_base::{Exit, ObjNo};

/// The bytes of a process's memory. This project's own limit: the memory stands for the process's chunks.
pub const MEMORY: usize = 1_024;

/// The registers of a thread, r0 to r7, and likewise its message numbers, m0 to m7. This project's own limit.
pub const REGISTERS: usize = 8;

/// What a thread carries out.
#[derive(Clone, Copy)]
pub enum Role {
    /// The kernel's own thread, which serves queue 0 of deferred function calls.
    Supervisor,
    /// The thread of a queue of deferred function calls, of which the script declares the first as number 1.
    Queue(u8),
    /// The instructions of the thread that the script declares at this place, from 0.
    Declared(u8),
}

/// How far the death of a thread is (Symbian OS Internals, the chapter on threads and processes, on exiting threads).
/// That it goes by these four is this project's own rule.
#[derive(Clone, Copy, Debug, PartialEq, Eq)]
pub enum Stage {
    Live,
    /// It has an exit, and gives up what it has.
    Doomed,
    /// It has given up all, and awaits its burial.
    Cleaned,
    /// Its death is finished.
    Buried,
}

/// What a thread waits for.
#[derive(Clone, Copy, Debug, PartialEq, Eq)]
pub enum Waiting {
    Nothing,
    /// A kernel mutex or semaphore.
    Lock(ObjNo),
    /// A signal of its fast semaphore.
    Fast,
    /// A signal of its request semaphore.
    Any,
    /// A signal of its request semaphore, and the completion of this status, 0 to 15.
    Status(u8),
    /// The reply to its synchronous message.
    Reply,
    /// A message of this server.
    Receive(ObjNo),
}

/// What the kernel keeps of a thread (Symbian OS Internals, the chapter on threads and processes). The registers and
/// the stages of a death are this project's own.
#[derive(Clone, Copy)]
pub struct ThreadRow {
    pub role: Role,
    /// The process whose handles it uses.
    pub process: ObjNo,
    /// Its reference to its process, until it is given up: it never leads elsewhere (`IsThread`: `link`).
    pub link: Option<ObjNo>,
    pub stage: Stage,
    /// None exactly where no exit is set.
    pub exit: Option<Exit>,
    /// The exit that was noted while the thread was protected. None exactly where none is noted.
    pub noted: Option<Exit>,
    /// 0 to 63, the greatest first.
    pub priority: u8,
    pub waiting: Waiting,
    /// The number of instructions that are behind it.
    pub next_instruction: u32,
    /// The next step of its present instruction, None before the first.
    pub part: Option<Part>,
    /// What the steps of its present instruction found: a handle, or a number of bytes that were copied. The step to come
    /// says which.
    pub found: u32,
    /// The object that a find found. It is read only while the return comes next.
    pub sought: ObjNo,
    /// The place of that object. Another object may have its number since, which has another place.
    pub sought_place: u64,
    /// The object that its present instruction uses, to which it has a temporary reference.
    pub uses: Option<ObjNo>,
    /// r0 to r7.
    pub registers: [u32; REGISTERS],
    /// m0 to m7.
    pub messages: [u32; REGISTERS],
}

impl ThreadRow {
    /// The row of a thread that was just added: it is live, with priority 0, and waits for nothing.
    pub fn new(process: ObjNo) -> ThreadRow
        ensures { result ≡ new_thread process }
    {
        ThreadRow {
            role: Role::Supervisor,
            process,
            link: None,
            stage: Stage::Live,
            exit: None,
            noted: None,
            priority: 0,
            waiting: Waiting::Nothing,
            next_instruction: 0,
            part: None,
            found: 0,
            sought: ObjNo(0),
            sought_place: 0,
            uses: None,
            registers: [0; REGISTERS],
            messages: [0; REGISTERS],
        }
    }
}
