//! The kinds of operand: what a word behind the first of a line may be.

/// What a word stands for. Each kind has a form, and its numbers have a range. The kinds are this
/// project's own.
#[derive(Clone, Copy)]
pub enum Operand {
    /// A number from the first to the second, neither of which is negative.
    Number(u32, u32),
    /// A code: -2147483646 to 2147483647.
    Code,
    /// A letter, and a number from 0 on that is at most the second: `r0` to `r7` are registers.
    Lettered(u8, u8),
    /// A name of an object.
    Name,
    /// The category of a panic.
    Category,
    /// A kind of object that can be opened by name.
    Kind,
    /// The word `mutex`.
    Mutex,
    /// The word `semaphore`.
    Semaphore,
    /// The word `held`.
    Held,
    /// The slots of a session: 1 to 255, or `pool`.
    Slots,
    /// An argument of a message.
    Argument,
}

/// Whose body the last words of a line are.
#[derive(Clone, Copy)]
pub enum BodyKind {
    /// An interrupt's.
    Interrupt,
    /// A deferred function call's.
    Call,
}
