//! Bodies: what interrupts and deferred function calls do, one operation after the other, each decided in the state
//! that the earlier ones left (Symbian OS Internals, the chapter on interrupts).
ghost use Rattle.std.specs.Prelude.{◌≡◌, ◌==◌, ◌<◌, ◌≤◌, length, option_copied, position, IfSome};
ghost use Rattle.machine.specs.Bodies.{add_call, queue_immediate, queue_to_move, queue_call, signal_row, signal_object, complete, op_moves, irq_of, ops_of_irq, ops_of, step_of_body, leave_queue};
ghost use Rattle.machine.specs.Slots.{declares_interrupt};
ghost use Rattle.script_types.specs.Shape.{IsShaped};
ghost use Rattle.script_types.specs.declared.declaration.IrqBody.{IrqBody};

use decisions::{add_call, is_woken, signal_move};
use entry_log::Step;
use machine::{Body, DeferredMove, Move, Moves, RequestMove, ThreadRow};
use readings::Reads;
use script_types::{IrqBody, Op, Script};
use state_rows::{Request, Stage, dfc_named, idfc_named};
use sym_base::{Kind, ObjNo, ThreadNo};

/// An immediate deferred function call joins the immediate queue.
fn queue_immediate(moves: &mut Moves, item: Option<u8>)
    ensures moves { moves.new ≡ queue_immediate item }
    ensures few { length moves.new ≤ 1 }
{
    moves.clear();
    if let Some(item) = item {
        moves.push(Move::Deferred(DeferredMove::AddImmediate(item)));
    }
}

/// A deferred function call joins the immediate queue, to be moved.
fn queue_to_move(moves: &mut Moves, dfc: Option<u8>)
    ensures moves { moves.new ≡ queue_to_move dfc }
    ensures few { length moves.new ≤ 1 }
{
    moves.clear();
    if let Some(dfc) = dfc {
        moves.push(Move::Deferred(DeferredMove::AddFromInterrupt(dfc)));
    }
}

/// A deferred function call joins its own queue.
fn queue_call<R: Reads>(moves: &mut Moves, reads: &R, dfc: Option<u8>)
    ensures moves { moves.new ≡ queue_call (R.state reads.now) dfc }
    ensures few { length moves.new ≤ 1 }
{
    moves.clear();
    if let Some(dfc) = dfc {
        moves.push(add_call(reads, dfc as usize));
    }
}

/// A signal of the fast semaphore of the thread of a row. Nothing, where it isn't live.
fn signal_row(moves: &mut Moves, other: ThreadNo, row: Option<ThreadRow>)
    ensures moves { moves.new ≡ signal_row other row }
    ensures few { length moves.new ≤ 1 }
{
    moves.clear();
    if let Some(row) = row {
        if row.stage == Stage::Live {
            moves.push(signal_move(other, row.waiting));
        }
    }
}

/// A signal of the fast semaphore of a thread. Nothing, where there is no such thread.
fn signal_object<R: Reads>(moves: &mut Moves, reads: &R, found: Option<ObjNo>)
    ensures moves { moves.new ≡ signal_object (R.state reads.now) found }
    ensures few { length moves.new ≤ 1 }
{
    match found {
        Some(other) => signal_row(moves, other, reads.thread(other).copied()),
        None => moves.clear(),
    }
}

/// A device completes its request, where it has one, and the thread's wait ends, where it was for that.
fn complete<R: Reads>(moves: &mut Moves, reads: &R, device: u8, code: i32, request: Option<Request>)
    ensures moves { moves.new ≡ complete (R.state reads.now) device code request }
    ensures few { length moves.new ≤ 2 }
{
    moves.clear();
    let Some(Request { thread, status }) = request else {
        return;
    };
    let completed = RequestMove::Complete(device, thread, status, code);
    moves.push(Move::Requests(completed));
    if is_woken(reads, thread, status, reads.thread(thread).copied()) {
        moves.push(Move::Wake(thread));
    }
}

/// What an operation does, in place of the moves before: at most two moves.
pub fn op_moves<R: Reads>(moves: &mut Moves, script: &Script, reads: &R, op: &Op)
    requires shaped { IsShaped script.now }
    requires readable { R.is_readable reads.now }
    ensures moves { moves.new ≡ op_moves script.now (R.state reads.now) op.now }
    ensures few { length moves.new ≤ 2 }
{
    match op {
        Op::Idfc(name) => queue_immediate(moves, idfc_named(script, name)),
        Op::Dfc(name) => queue_to_move(moves, dfc_named(script, name)),
        Op::Fssignal(name) => signal_object(moves, reads, reads.find(Kind::Thread, name)),
        Op::Device(device, code) => {
            complete(moves, reads, *device, *code, reads.request_at(*device))
        }
        Op::Queue(name) => queue_call(moves, reads, dfc_named(script, name)),
    }
}

/// Whether a script declares an interrupt of this number.
pub fn declares_interrupt(script: &Script, number: u8) -> bool
    ensures { result ≡ declares_interrupt script.now number }
{
    let irqs = script.irqs.as_slice();
    irqs.iter().any(|irq| irq.number == number)
}

/// The place of the interrupt of a number among the declared ones.
fn irq_place(script: &Script, number: u8) -> Option<usize>
    ensures { result ≡ position (λ (irq : IrqBody). irq.number == number) script.now.irqs }
{
    let irqs = script.irqs.as_slice();
    irqs.iter().position(|irq| irq.number == number)
}

/// What is declared of the interrupt of a number.
fn irq_of(script: &Script, number: u8) -> Option<&IrqBody>
    ensures { option_copied result ≡ irq_of script.now number }
{
    let place = irq_place(script, number)?;
    script.irqs.as_slice().get(place)
}

/// The operations of a body, in their order.
pub fn ops_of(script: &Script, body: Body) -> &[Op]
    ensures { result.now ≡ ops_of script.now body }
{
    match body {
        Body::Interrupt(number) => match irq_of(script, number) {
            Some(irq) => irq.body.as_slice(),
            None => &[],
        },
        Body::Immediate(item) => match script.idfcs.as_slice().get(item as usize) {
            Some(idfc) => idfc.body.as_slice(),
            None => &[],
        },
        Body::Deferred(dfc) => match script.dfcs.as_slice().get(dfc as usize) {
            Some(dfc) => dfc.body.as_slice(),
            None => &[],
        },
    }
}

/// The step of a body's entry.
pub fn step_of_body(script: &Script, body: Body) -> Step
    ensures { result ≡ step_of_body script.now body }
{
    match body {
        Body::Interrupt(_) => Step::Run,
        Body::Immediate(item) => match script.idfcs.as_slice().get(item as usize) {
            Some(idfc) => Step::RunOf(idfc.name),
            None => Step::Wait,
        },
        Body::Deferred(dfc) => match script.dfcs.as_slice().get(dfc as usize) {
            Some(dfc) => Step::RunOf(dfc.name),
            None => Step::Wait,
        },
    }
}

/// A call leaves its queue before its body runs, in place of the moves before: at most one move.
pub fn leave_queue<R: Reads>(moves: &mut Moves, reads: &R, body: Body)
    ensures moves { moves.new ≡ leave_queue (R.state reads.now) body }
    ensures few { length moves.new ≤ 1 }
{
    moves.clear();
    match body {
        Body::Interrupt(_) => {}
        Body::Immediate(_) => moves.push(Move::Deferred(DeferredMove::TakeImmediate)),
        Body::Deferred(dfc) => {
            let take = DeferredMove::Take(reads.queue_of(dfc as usize));
            moves.push(Move::Deferred(take));
        }
    }
}
