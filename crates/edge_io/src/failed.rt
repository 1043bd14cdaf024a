//! The one error of a read or a write.
use thiserror::Error;

/// A read or a write failed, and moved no byte. The count of faults says so: it rose, or stands at
/// its last value, where it stays.
#[derive(Debug, Drop, Error)]
#[error("a read or a write failed")]
pub struct Failed;
