//! Moves in the rows of requests.
use sym_base::ThreadNo;

/// One small change of what the kernel keeps of asynchronous requests (Symbian OS Internals, the chapter on
/// inter-thread communication).
#[derive(Clone, Copy)]
pub enum RequestMove {
    /// The device gets a request of the thread, whose status is pending from now on.
    Begin(u8, ThreadNo, u8),
    /// The device's request, of this thread and status, is completed with a code: the status has it, and the thread
    /// one signal more.
    Complete(u8, ThreadNo, u8, i32),
    /// The thread's status is pending from now on.
    SetPending(ThreadNo, u8),
    /// The thread's status is completed with a code: it has that, and the thread one signal more.
    Signal(ThreadNo, u8, i32),
    /// No device has a request of the thread any more.
    DropAll(ThreadNo),
    /// The thread takes a signal from its request semaphore.
    TakeSignal(ThreadNo),
    /// The thread's synchronous message is replied to with a code, and its request semaphore stays as it is.
    Reply(ThreadNo, i32),
}
