//! Why a run wrote no history, or not the whole of it.
use crate::Reason;
use thiserror::Error;

/// A run that ended without its whole history.
#[derive(Debug, Drop, Error)]
pub enum RunFault {
    /// The script is refused: its first bad line, from 1, and why it is bad.
    #[error("refused line {line} {reason}")]
    Refused { line: u32, reason: Reason },
    /// The source failed.
    #[error("the script could not be read")]
    ReadFault,
    /// The sink failed.
    #[error("the history could not be written")]
    WriteFault,
    /// Memory that was asked for wasn't given; nothing was written.
    #[error("out of memory")]
    NoMemory,
    /// The input has more bytes than a script may have.
    #[error("the script is too large")]
    TooLarge,
}
