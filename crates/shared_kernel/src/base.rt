//! What never changes of a kernel that callers share, and their passes.
use script_types::Script;
use std::collections::LinkedList;

/// What never changes of a kernel that callers share: its script, and the identity of its count words. It is what proofs say
/// of a kernel: no value of it is ever made.
pub struct KernelBase {
    pub script: Script,
    pub identity: LinkedList<u64>,
}

/// A caller's pass of a kernel, of either kind.
pub type Pass = turn_lock::Pass<KernelBase>;
