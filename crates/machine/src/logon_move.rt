//! Moves in the rows of logons.
use sym_base::ThreadNo;

/// One small change of what the kernel keeps of logons (Symbian OS Internals, the chapter on threads and processes).
#[derive(Clone, Copy)]
pub enum LogonMove {
    /// On the first thread the second logs on: this status of the second is going to tell the death of the first.
    Add(ThreadNo, ThreadNo, u8),
    /// The logon on the first thread goes that the second made with this status.
    Remove(ThreadNo, ThreadNo, u8),
    /// No logon is left that the thread made.
    Drop(ThreadNo),
}
