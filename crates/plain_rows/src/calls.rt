//! Moves in the rows of deferred function calls, made on the plain machine's lists.
ghost use Rattle.std.specs.Prelude.{◌≡◌, [], ◌∷◌, ◌++◌, IfOk, OnOk, slice_set};
ghost use Rattle.std.specs.List.{slice_index_or};
ghost use Rattle.machine.specs.DeferredMoves.{deferred_moved};
ghost use Rattle.state_rows.specs.DeferredChanges.{after_add_idfc, after_add_from_irq, after_add, after_next_idfc, after_next_dfc, without, left};

use machine::{DeferredMove, DeferredRows};
use plain_reads::{is_call_queued, is_queued, next_of, queue_of};
use state_rows::Item;
use std::alloc::Global;
use sym_base::{Items, NoMemory};

/// The immediate deferred function call joins the immediate queue, unless it is queued.
fn add_immediate(rows: &mut DeferredRows, item: u8) -> Result<(), NoMemory>
    ensures { OnOk result (rows.new ≡ after_add_idfc rows.old item) }
{
    if !is_queued(rows, Item::Idfc(item)) {
        rows.immediate.push(Item::Idfc(item))?;
    }
    Ok(())
}

/// The deferred function call joins the immediate queue, to be moved, unless it is queued.
fn add_to_move(rows: &mut DeferredRows, dfc: u8) -> Result<(), NoMemory>
    ensures { OnOk result (rows.new ≡ after_add_from_irq rows.old dfc) }
{
    if !is_queued(rows, Item::Move(dfc)) {
        rows.immediate.push(Item::Move(dfc))?;
    }
    Ok(())
}

/// A call stands last in this queue.
fn push_call(queues: &mut Items<Items<usize>>, queue: u8, dfc: usize) -> Result<(), NoMemory>
    ensures { OnOk result (queues.new ≡ slice_set queues.old queue (slice_index_or queues.old queue [] ++ dfc ∷ [])) }
{
    let at = queue as usize;
    if at < queues.len() {
        let calls = queues.get_mut(at);
        calls.push(dfc)?;
    }
    Ok(())
}

/// The deferred function call joins its own queue, unless it is queued.
fn add(rows: &mut DeferredRows, dfc: usize) -> Result<(), NoMemory>
    ensures { OnOk result (rows.new ≡ after_add rows.old dfc) }
{
    if !is_call_queued(rows, dfc) {
        let queue = queue_of(rows, dfc);
        push_call(&mut rows.queues, queue, dfc)?;
    }
    Ok(())
}

/// The oldest item leaves the immediate queue.
fn take_immediate(rows: &mut DeferredRows)
    ensures { rows.new ≡ after_next_idfc rows.old }
{
    let _ = rows.immediate.take_first();
}

/// The calls without one.
fn without(alloc: Global, dfc: usize, calls: &[usize]) -> Result<Vec<usize>, NoMemory>
    ensures { IfOk result (λ rest. rest.items ≡ without dfc calls.now) }
{
    let mut rest = Vec::new(alloc);
    for other in calls {
        if *other == dfc {
            continue;
        }
        rest.push(*other)?;
    }
    Ok(rest)
}

/// The calls without one, where there is one.
fn left(alloc: Global, dfc: Option<usize>, calls: &[usize]) -> Result<Vec<usize>, NoMemory>
    ensures { IfOk result (λ rest. rest.items ≡ left dfc calls.now) }
{
    match dfc {
        Some(dfc) => without(alloc, dfc, calls),
        None => Ok(Vec::from_slice(alloc, calls)?),
    }
}

/// A call leaves this queue, where there is one.
fn leave_queue(
    alloc: Global,
    queues: &mut Items<Items<usize>>,
    queue: u8,
    dfc: Option<usize>,
) -> Result<(), NoMemory>
    ensures { OnOk result (queues.new ≡ slice_set queues.old queue (left dfc (slice_index_or queues.old queue []))) }
{
    let at = queue as usize;
    if at < queues.len() {
        let calls = queues.get_mut(at);
        *calls = Items::new(left(alloc, dfc, calls.as_slice())?);
    }
    Ok(())
}

/// The call that comes next leaves its queue.
fn take(alloc: Global, rows: &mut DeferredRows, queue: u8) -> Result<(), NoMemory>
    ensures { OnOk result (rows.new ≡ after_next_dfc rows.old queue) }
{
    let dfc = next_of(rows, queue);
    leave_queue(alloc, &mut rows.queues, queue, dfc)
}

/// One move in the rows of deferred function calls.
pub fn make_deferred_move(
    alloc: Global,
    rows: &mut DeferredRows,
    change: DeferredMove,
) -> Result<(), NoMemory>
    ensures { OnOk result (rows.new ≡ deferred_moved change rows.old) }
{
    match change {
        DeferredMove::AddImmediate(item) => add_immediate(rows, item),
        DeferredMove::AddFromInterrupt(dfc) => add_to_move(rows, dfc),
        DeferredMove::Add(dfc, _) => add(rows, dfc),
        DeferredMove::TakeImmediate => {
            take_immediate(rows);
            Ok(())
        }
        DeferredMove::Take(queue) => take(alloc, rows, queue),
    }
}
