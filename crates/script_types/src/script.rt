//! A whole script.
use crate::{DfcDecl, IdfcDecl, IrqBody, ProcessDecl, QueueDecl, ThreadDecl};
use sym_base::Items;

/// A slot of the schedule. The schedule decides the order of actions under `run`.
#[derive(Clone, Copy)]
pub enum Slot {
    /// The chosen actor acts once.
    Go,
    /// The interrupt of this number comes.
    Irq(u8),
    /// A time slice ends.
    Tick,
}

/// A script: its version, which is 1 or 2, the slots of the kernel's message pool, the number of fast mutexes, what it declares, in
/// the order of its lines, and its schedule. From version 2 on the kernel uses the numbers of swept objects again.
#[derive(Drop)]
pub struct Script {
    pub version: u8,
    pub pool: u8,
    pub fast: u8,
    pub queues: Items<QueueDecl>,
    pub dfcs: Items<DfcDecl>,
    pub idfcs: Items<IdfcDecl>,
    pub irqs: Items<IrqBody>,
    pub processes: Items<ProcessDecl>,
    pub threads: Items<ThreadDecl>,
    pub slots: Items<Slot>,
}
