//! The limits of a script, line by line.
ghost use Rattle.std.specs.Prelude.{◌≡◌, ◌+◌, nat_lt, nat_le, length, IsTrue};
ghost use Rattle.script_read.specs.Counts.{adds_instr};
ghost use Rattle.script_types.specs.Context.{after};
ghost use Rattle.script_types.specs.Stands.{all_instrs, last_instrs, is_within};

use script_types::{Context, Limits, Script, SourceLine, ThreadDecl};

/// The most declared threads before one more: that one and the supervisor are threads of the script too.
const MAX_THREADS_BEFORE: usize = Limits::THREADS - 2;

/// The instructions of the last thread.
#[tactic(auto, using(crate::proofs::LastThread::last_instrs_none))]
fn last_instrs(threads: &[ThreadDecl]) -> usize
    ensures { result ≡ last_instrs threads.now }
{
    if threads.is_empty() {
        return 0;
    }
    threads[threads.len() - 1].instrs.len()
}

/// Whether the sum of two numbers is at most this one.
fn is_sum_within(first: usize, second: usize, most: usize) -> bool
    ensures { result ≡ nat_le (first + second) most }
{
    first <= most && second <= most - first
}

/// Whether one more thread may be declared. Each queue has one.
fn has_room_for_thread(script: &Script) -> bool
    ensures { result ≡ nat_lt (length script.now.queues + length script.now.threads) 63 }
{
    is_sum_within(
        script.queues.len(),
        script.threads.len(),
        MAX_THREADS_BEFORE,
    )
}

/// Whether no number of the script is past its limit behind one more line. `instructions` are those of
/// all threads so far, which the caller counts.
pub fn is_within(context: &Context, instructions: usize, line: &SourceLine) -> bool
    requires { instructions ≡ all_instrs context.now.script.threads }
    ensures { result ≡ is_within context.now line.now }
{
    let script = &context.script;
    match line {
        SourceLine::Queue(..) => script.queues.len() < Limits::QUEUES,
        SourceLine::Dfc(_, _, _, body) => {
            script.dfcs.len() < Limits::DFCS && body.len() <= Limits::OPERATIONS
        }
        SourceLine::Idfc(_, body) => {
            script.idfcs.len() < Limits::IDFCS && body.len() <= Limits::OPERATIONS
        }
        SourceLine::IrqBody(_, body) => {
            script.irqs.len() < Limits::INTERRUPTS && body.len() <= Limits::OPERATIONS
        }
        SourceLine::KernelThread(..) | SourceLine::Thread(..) => has_room_for_thread(script),
        SourceLine::Process(_) => script.processes.len() < Limits::PROCESSES,
        SourceLine::Instr(_) => {
            last_instrs(script.threads.as_slice()) < Limits::THREAD_INSTRUCTIONS
                && instructions < Limits::INSTRUCTIONS
        }
        SourceLine::Go(count) => {
            is_sum_within(script.slots.len(), *count as usize, Limits::SLOTS)
        }
        SourceLine::IrqSlot(_) | SourceLine::Tick => script.slots.len() < Limits::SLOTS,
        _ => true,
    }
}

/// Whether a line is one more instruction of a thread.
fn adds_instr(context: &Context, line: &SourceLine) -> bool
    ensures { result ≡ adds_instr context.now line.now }
{
    match line {
        SourceLine::Instr(_) => context.script.threads.len() > 0,
        _ => false,
    }
}

/// The instructions of all threads behind one more line, from those before it.
#[tactic(auto, using(crate::proofs::Instructions::instrs_after, crate::proofs::Instructions::has_room))]
pub fn instrs_after(context: &Context, instructions: usize, line: &SourceLine) -> usize
    requires before { instructions ≡ all_instrs context.now.script.threads }
    requires within { IsTrue (is_within context.now line.now) }
    ensures { result ≡ all_instrs (after context.now line.now).script.threads }
{
    if adds_instr(context, line) {
        instructions + 1
    } else {
        instructions
    }
}
