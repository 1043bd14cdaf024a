//! The error codes that the kernel answers.
ghost use Rattle.std.specs.Prelude.{◌≡◌};
ghost use Rattle.sym_base.specs.ErrorCode.{error_code};

/// An error of Symbian OS, by the name that the system gives its code (`NotFound` is KErrNotFound). Which call
/// answers which error is this project's own rule.
#[derive(Clone, Copy, Debug, PartialEq, Eq)]
pub enum Error {
    /// -1: nothing has this name, or no such request stands.
    NotFound,
    /// -2: the caller may not do this now, as an unlock by another than the owner.
    General,
    /// -3: a request was cancelled.
    Cancel,
    /// -6: an argument is out of bounds.
    Argument,
    /// -8: a handle, or a message, names nothing that fits the call.
    BadHandle,
    /// -9: a table is full, or a count at its end.
    Overflow,
    /// -11: the name is taken.
    AlreadyExists,
    /// -13: the thread isn't live.
    Died,
    /// -14: a status is pending, a device in use, or a fast mutex held.
    InUse,
    /// -15: the server is closing, or ended.
    ServerTerminated,
    /// -16: all message slots of the session are taken.
    ServerBusy,
    /// -38: an argument is no descriptor, or one that can't be.
    BadDescriptor,
    /// -46: the object, or the thread, isn't one that the caller may use so.
    PermissionDenied,
}

impl Error {
    /// The number that the system gives the error.
    pub fn code(self) -> i32
        ensures { result ≡ error_code self }
    {
        match self {
            Error::NotFound => -1,
            Error::General => -2,
            Error::Cancel => -3,
            Error::Argument => -6,
            Error::BadHandle => -8,
            Error::Overflow => -9,
            Error::AlreadyExists => -11,
            Error::Died => -13,
            Error::InUse => -14,
            Error::ServerTerminated => -15,
            Error::ServerBusy => -16,
            Error::BadDescriptor => -38,
            Error::PermissionDenied => -46,
        }
    }
}
