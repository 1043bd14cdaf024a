//! Numbers of objects and messages.

/// The number of a kernel object, in order of making from 0. A number isn't used again.
/// The numbers, and the limit of 4,096 objects, are this project's own.
#[derive(Clone, Copy, Debug, PartialEq, Eq)]
pub struct ObjNo(pub u16);

/// The object number of a thread.
pub type ThreadNo = ObjNo;

/// The number of a message, in order of acceptance from 1. This project's own.
#[derive(Clone, Copy, Debug, PartialEq, Eq)]
pub struct MsgNo(pub u32);
