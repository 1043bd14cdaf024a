//! The instructions of a thread.
use sym_base::{Arg, Items, Kind, Name, Slots};

/// The four arguments of a message.
#[derive(Clone, Copy)]
pub struct Args(pub Arg, pub Arg, pub Arg, pub Arg);

/// One instruction: its operands in the order of its words. Registers are 0 to 7, and so are the
/// registers that hold messages. Statuses and devices are 0 to 15. An exit and a completion have a code.
#[derive(Clone, Copy)]
pub enum Instr {
    /// Makes a mutex of this name, and puts a handle of it in the register.
    CreateMutex(Name, u8),
    /// Makes a semaphore of this name with a count, and puts a handle of it in the register.
    CreateSemaphore(Name, u32, u8),
    /// Finds the object of this kind and name, and puts a handle of it in the register.
    Open(Kind, Name, u8),
    /// Makes a second handle of the first register's object, and puts it in the second register.
    Dup(u8, u8),
    /// The same, in the thread's own table.
    DupLocal(u8, u8),
    /// Closes the register's handle.
    Close(u8),
    /// Takes a mutex, or waits for it.
    Lock(u8),
    /// Gives a mutex back, by one level.
    Unlock(u8),
    /// Takes one from a semaphore's count, or waits for it.
    Wait(u8),
    /// Adds one to a semaphore's count, or ends a wait.
    Signal(u8),
    /// Suspends a thread.
    Suspend(u8),
    /// Takes one suspension of a thread back.
    Resume(u8),
    /// Gives a thread a priority, 0 to 63.
    Priority(u8, u8),
    /// Ends a thread, with a code.
    Kill(u8, i32),
    /// Ends a thread as terminated, with a code.
    Terminate(u8, i32),
    /// Ends a thread as panicked, with a category and a code.
    Panic(u8, Name, i32),
    /// Answers how a thread ended.
    ExitType(u8),
    /// Asks for a status to be completed when a thread ends.
    Logon(u8, u8),
    /// Ends the thread itself, with a code.
    Exit(i32),
    /// Takes a fast mutex, or wants it.
    Flock(u8),
    /// Gives a fast mutex back.
    Funlock(u8),
    /// Waits on the thread's own fast semaphore.
    Fswait,
    /// Signals the fast semaphore of the thread of this name.
    Fssignal(Name),
    /// Enters a critical section.
    Enter,
    /// Leaves a critical section.
    Leave,
    /// Queues the deferred function call of this name.
    Queue(Name),
    /// Starts a request of a device, with a status.
    Request(u8, u8),
    /// Cancels the thread's request of a device.
    Cancel(u8),
    /// Waits for a signal of any request.
    WaitAny,
    /// Waits for a status to be completed.
    WaitFor(u8),
    /// Answers a status.
    Status(u8),
    /// Makes a server of this name, and puts a handle of it in the register.
    Server(Name, u8),
    /// Makes a session with the server of this name, with message slots, and puts a handle of it in the
    /// register.
    Connect(Name, Slots, u8),
    /// Sends a message over the register's session: its function, the status to be completed, and its
    /// arguments.
    Send(u8, u32, u8, Args),
    /// Sends a message and waits for its completion.
    Call(u8, u32, Args),
    /// Takes a message of the register's server, or waits for one, and puts its number in the second
    /// register.
    Receive(u8, u8),
    /// Completes a message with a code.
    Complete(u8, i32),
    /// Answers the function of a message.
    Function(u8),
    /// Copies from the memory that an argument of a message describes: the message, the number of the
    /// argument, 0 to 3, the offset there, the length, and the place in the thread's own memory.
    Read(u8, u8, u16, u16, u16),
    /// Copies to the memory that an argument of a message describes.
    Write(u8, u8, u16, u16, u16),
    /// Sets so many bytes of memory from a place on.
    Fill(u16, u16, u8),
    /// Answers the byte of memory at a place, 0 to 1,023.
    Peek(u16),
}

/// A thread's instructions, in order.
pub type Instrs = Items<Instr>;
