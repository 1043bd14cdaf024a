//! How the command ends.
ghost use Rattle.std.specs.Prelude.{◌≡◌};
ghost use Rattle.std.specs.Option.{option_copied};
ghost use Rattle.eka2_app.specs.StatusNumber.{status_number, status_message, status_of, status_of_check};

use history_check::Checked;
use script_read::RunFault;

/// How the command ended.
#[derive(Clone, Copy, Debug, PartialEq, Eq)]
pub enum Status {
    /// All that the command writes was written.
    Done,
    /// The words are no command.
    Usage,
    /// The script is refused, and one line that says so was written.
    Refused,
    /// The source failed.
    ReadFault,
    /// The sink failed.
    WriteFault,
    /// Memory that was asked for wasn't given; nothing was written.
    NoMemory,
    /// The input has more bytes than the command takes.
    TooLarge,
    /// The history that was checked isn't legal, and one line that says so was written.
    Illegal,
}

impl Status {
    /// How a command ended that did all, or met a fault.
    pub fn of(outcome: Result<(), RunFault>) -> Status
        ensures { result ≡ status_of outcome }
    {
        match outcome {
            Ok(()) => Status::Done,
            Err(RunFault::Refused { .. }) => Status::Refused,
            Err(RunFault::ReadFault) => Status::ReadFault,
            Err(RunFault::WriteFault) => Status::WriteFault,
            Err(RunFault::NoMemory) => Status::NoMemory,
            Err(RunFault::TooLarge) => Status::TooLarge,
        }
    }

    /// How the check of a history ended, or that it met a fault.
    pub fn of_check(outcome: Result<Checked, RunFault>) -> Status
        ensures { result ≡ status_of_check outcome }
    {
        match outcome {
            Ok(Checked::Legal { .. }) => Status::Done,
            Ok(Checked::Illegal { .. }) => Status::Illegal,
            Ok(Checked::NoMemory) => Status::NoMemory,
            Err(fault) => Status::of(Err(fault)),
        }
    }

    /// The number that the process ends with.
    pub fn number(self) -> u8
        ensures { result ≡ status_number self }
    {
        match self {
            Status::Done => 0,
            Status::Usage => 2,
            Status::Refused => 3,
            Status::ReadFault => 4,
            Status::WriteFault => 5,
            Status::NoMemory => 6,
            Status::TooLarge => 7,
            Status::Illegal => 8,
        }
    }

    /// What standard error is told, behind `eka2: `. None where all went well.
    pub fn message(self) -> Option<&'static str>
        ensures { option_copied result ≡ status_message self }
    {
        match self {
            Status::Done => None,
            Status::Usage => Some("usage"),
            Status::Refused => Some("refused"),
            Status::ReadFault => Some("read fault"),
            Status::WriteFault => Some("write fault"),
            Status::NoMemory => Some("no memory"),
            Status::TooLarge => Some("too large"),
            Status::Illegal => Some("illegal"),
        }
    }
}
