//! What the lines so far make.
use crate::Script;

/// The script so far, the rank of the last line, None before the first, and whether that line is a
/// process's, behind which its thread must follow.
#[derive(Drop)]
pub struct Context {
    pub script: Script,
    pub rank: Option<u8>,
    pub awaits_thread: bool,
}
