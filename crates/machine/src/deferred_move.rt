//! Moves in the rows of deferred function calls.

/// One small change of what the nanokernel keeps of deferred function calls (Symbian OS Internals, the chapter on
/// interrupts). What is queued already isn't queued again.
#[derive(Clone, Copy)]
pub enum DeferredMove {
    /// The immediate deferred function call of this number joins the immediate queue.
    AddImmediate(u8),
    /// The deferred function call of this number joins the immediate queue, to be moved.
    AddFromInterrupt(u8),
    /// The deferred function call of this number joins its own queue, which is this.
    Add(usize, u8),
    /// The oldest item leaves the immediate queue.
    TakeImmediate,
    /// The call that comes next leaves this queue.
    Take(u8),
}
