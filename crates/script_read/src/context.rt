//! What one more line makes.
ghost use Rattle.std.specs.Prelude.{◌≡◌, ◌++◌, replicate, length, ◌≤◌, OnOk, None, Some, []};
ghost use Rattle.script_types.specs.Context.{start, kind_of, told, with_instr, after, is_process, last_of};
ghost use Rattle.script_types.specs.declared.script.Slot.TheVariants.{Go};

use crate::order::{rank_of, rank_or};
use script_types::{
    Context, DfcDecl, IdfcDecl, Instr, IrqBody, LineKind, ProcessDecl, QueueDecl, Script, Slot,
    SourceLine, ThreadDecl,
};
use std::alloc::Global;
use sym_base::{Items, Name, NoMemory};

/// A list without items.
fn no_items<T>(alloc: Global) -> Items<T>
    ensures { result ≡ [] }
{
    Items::new(Vec::new(alloc))
}

/// What no lines make: an empty script.
pub fn new_context(alloc: Global) -> Context
    ensures { result ≡ start }
{
    let script = Script {
        version: 1,
        pool: 0,
        fast: 0,
        queues: no_items(alloc),
        dfcs: no_items(alloc),
        idfcs: no_items(alloc),
        irqs: no_items(alloc),
        processes: no_items(alloc),
        threads: no_items(alloc),
        slots: no_items(alloc),
    };
    Context {
        script,
        rank: None,
        awaits_thread: false,
    }
}

/// The kind of a line.
pub fn kind_of(line: &SourceLine) -> LineKind
    ensures { result ≡ kind_of line.now }
{
    match line {
        SourceLine::Header(_) => LineKind::Header,
        SourceLine::Pool(_) => LineKind::Pool,
        SourceLine::Fast(_) => LineKind::Fast,
        SourceLine::Queue(..) => LineKind::Queue,
        SourceLine::Dfc(..) => LineKind::Dfc,
        SourceLine::Idfc(..) => LineKind::Idfc,
        SourceLine::IrqBody(..) => LineKind::IrqBody,
        SourceLine::KernelThread(..) => LineKind::KernelThread,
        SourceLine::Process(_) => LineKind::Process,
        SourceLine::Thread(..) => LineKind::Thread,
        SourceLine::Instr(_) => LineKind::Instr,
        SourceLine::Schedule => LineKind::Schedule,
        SourceLine::Go(_) | SourceLine::IrqSlot(_) | SourceLine::Tick => LineKind::Slot,
        SourceLine::End => LineKind::End,
    }
}

/// Adds so many slots in which the chosen actor acts.
#[tactic(auto, using(crate::proofs::Replicated::run_more))]
fn push_slots(slots: &mut Items<Slot>, count: u32) -> Result<(), NoMemory>
    ensures { OnOk result (slots.new ≡ slots.old ++ replicate count Go) }
{
    for _i in 0..count {
        slots.push(Slot::Go)?;
    }
    Ok(())
}

/// Adds an instruction to the last thread.
#[tactic(auto, using(crate::proofs::LastThread::with_instr_last, crate::proofs::LastThread::with_instr_none))]
fn push_instr(threads: &mut Items<ThreadDecl>, what: Instr) -> Result<(), NoMemory>
    ensures { OnOk result (threads.new ≡ with_instr threads.old what) }
{
    let count = threads.len();
    if count == 0 {
        return Ok(());
    }
    let last = threads.get_mut(count - 1);
    last.instrs.push(what)?;
    Ok(())
}

/// A thread without instructions.
fn new_thread(
    alloc: Global,
    name: Name,
    priority: u8,
    held: bool,
    process: Option<u8>,
) -> ThreadDecl
    ensures { result ≡ record { name = name; priority = priority; held = held; process = process; instrs = [] } }
{
    ThreadDecl {
        name,
        priority,
        held,
        process,
        instrs: Items::new(Vec::new(alloc)),
    }
}

/// The number of the last process.
fn last_process(script: &Script) -> u8
    requires { length script.now.processes ≤ 16 }
    ensures { result ≡ last_of script.now.processes }
{
    let count = script.processes.len();
    if count == 0 { 0 } else { (count - 1) as u8 }
}

/// Adds a line to a script.
fn tell(alloc: Global, script: &mut Script, line: SourceLine) -> Result<(), NoMemory>
    requires { length script.old.processes ≤ 16 }
    ensures { OnOk result (script.new ≡ told script.old line) }
{
    match line {
        SourceLine::Schedule | SourceLine::End => {}
        SourceLine::Header(version) => script.version = version,
        SourceLine::Pool(count) => script.pool = count,
        SourceLine::Fast(count) => script.fast = count,
        SourceLine::Queue(name, priority) => script.queues.push(QueueDecl { name, priority })?,
        SourceLine::Dfc(name, queue, priority, body) => script.dfcs.push(DfcDecl {
            name,
            queue,
            priority,
            body,
        })?,
        SourceLine::Idfc(name, body) => script.idfcs.push(IdfcDecl { name, body })?,
        SourceLine::IrqBody(number, body) => script.irqs.push(IrqBody { number, body })?,
        SourceLine::KernelThread(name, priority, held) => {
            let thread = new_thread(alloc, name, priority, held, None);
            script.threads.push(thread)?
        }
        SourceLine::Process(name) => script.processes.push(ProcessDecl { name })?,
        SourceLine::Thread(name, priority, held) => {
            let process = last_process(script);
            let thread = new_thread(alloc, name, priority, held, Some(process));
            script.threads.push(thread)?
        }
        SourceLine::Instr(what) => push_instr(&mut script.threads, what)?,
        SourceLine::Go(count) => push_slots(&mut script.slots, count)?,
        SourceLine::IrqSlot(number) => script.slots.push(Slot::Irq(number))?,
        SourceLine::Tick => script.slots.push(Slot::Tick)?,
    }
    Ok(())
}

/// Adds a line to what the lines so far make.
pub fn add_line(alloc: Global, context: &mut Context, line: SourceLine) -> Result<(), NoMemory>
    requires { length context.old.script.processes ≤ 16 }
    ensures { OnOk result (context.new ≡ after context.old line) }
{
    let kind = kind_of(&line);
    tell(alloc, &mut context.script, line)?;
    context.rank = Some(rank_of(rank_or(context.rank), kind));
    context.awaits_thread = matches!(kind, LineKind::Process);
    Ok(())
}
