//! The lines of a script's text, between the bytes and the script.
use crate::{Instr, Ops};
use sym_base::Name;

/// One line of a script's text. The forms of its words are part of the line. The ranges of its numbers
/// and which lines may follow one another aren't. The lines are this project's own.
#[derive(Drop)]
pub enum SourceLine {
    /// `eka2 V`: the first line of a script, whose version is 1 or 2.
    Header(u8),
    /// `pool N`: the slots of the kernel's message pool, 0 to 255.
    Pool(u8),
    /// `fast N`: the number of fast mutexes, 0 to 16.
    Fast(u8),
    /// `dfcq NAME P`: a queue of deferred function calls, and its thread with a priority of 0 to 63.
    Queue(Name, u8),
    /// `dfc NAME QUEUE P BODY`: a deferred function call, its queue, and its priority there, 0 to 7.
    Dfc(Name, Name, u8, Ops),
    /// `idfc NAME BODY`: an immediate deferred function call.
    Idfc(Name, Ops),
    /// `irq K BODY`: what the interrupt K does, 0 to 31.
    IrqBody(u8, Ops),
    /// `kthread NAME P`, or `kthread NAME P held`: a kernel thread with a priority of 0 to 63, and
    /// whether it starts suspended.
    KernelThread(Name, u8, bool),
    /// `process NAME`.
    Process(Name),
    /// `thread NAME P`, or `thread NAME P held`: a thread of the process whose line came last.
    Thread(Name, u8, bool),
    /// An instruction of the thread whose line came last.
    Instr(Instr),
    /// `schedule`: the slots follow.
    Schedule,
    /// `go N`: 1 to 65,536 slots in each of which the chosen actor acts once.
    Go(u32),
    /// `irq K`: one slot in which the interrupt K comes.
    IrqSlot(u8),
    /// `tick`: one slot in which a time slice ends.
    Tick,
    /// `end`: the last line.
    End,
}

/// The kinds of line, as far as their order goes.
#[derive(Clone, Copy)]
pub enum LineKind {
    Header,
    Pool,
    Fast,
    Queue,
    Dfc,
    Idfc,
    IrqBody,
    KernelThread,
    Process,
    Thread,
    Instr,
    Schedule,
    Slot,
    End,
}
