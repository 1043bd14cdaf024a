//! The plain machine's rows of deferred function calls, read by decisions. A number without a row reads as 0, and a
//! queue that isn't there as empty.
ghost use Rattle.std.specs.Prelude.{◌≡◌};
ghost use Rattle.std.specs.List.{list_any};
ghost use Rattle.plain_reads.specs.BestSoFar.{better};
ghost use Rattle.state_rows.specs.declared.deferred.Item.TheVariants.{Move};
ghost use Rattle.state_rows.specs.Deferred.{queue_at, queue_of, priority_of, next_of, next_immediate, holds, is_same, is_queued};

use machine::DeferredRows;
use state_rows::Item;
use sym_base::Items;

/// The queue of a deferred function call.
pub fn queue_of(rows: &DeferredRows, dfc: usize) -> u8
    ensures { result ≡ queue_of rows.now dfc }
{
    match rows.places.as_slice().get(dfc) {
        Some(place) => place.queue,
        None => 0,
    }
}

/// The priority of a deferred function call in its queue.
fn priority_of(rows: &DeferredRows, dfc: usize) -> u8
    ensures { result ≡ priority_of rows.now dfc }
{
    match rows.places.as_slice().get(dfc) {
        Some(place) => place.priority,
        None => 0,
    }
}

/// The calls that stand in a queue.
fn queue_at(rows: &DeferredRows, queue: u8) -> &[usize]
    ensures { result.now ≡ queue_at rows.now queue }
{
    let at = queue as usize;
    if at < rows.queues.len() {
        rows.queues.as_slice()[at].as_slice()
    } else {
        &[]
    }
}

/// The best so far, where a call more has come: that one only where its priority is greater.
fn better(rows: &DeferredRows, best: Option<usize>, next: usize) -> Option<usize>
    ensures { result ≡ better (priority_of rows.now) best next }
{
    match best {
        Some(first) if priority_of(rows, first) >= priority_of(rows, next) => Some(first),
        _ => Some(next),
    }
}

/// The call of a queue that runs next: of those of the greatest priority the first.
#[tactic(auto, using(crate::proofs::Best::best_step, crate::proofs::Best::best_alone))]
pub fn next_of(rows: &DeferredRows, queue: u8) -> Option<usize>
    ensures { result ≡ next_of rows.now queue }
{
    let mut best = None;
    for dfc in queue_at(rows, queue) {
        best = better(rows, best, *dfc);
    }
    best
}

/// The oldest item of the immediate queue.
pub fn next_immediate(rows: &DeferredRows) -> Option<Item>
    ensures { result ≡ next_immediate rows.now }
{
    rows.immediate.as_slice().first().copied()
}

/// Whether a list of calls holds one.
fn holds(dfc: usize, calls: &Items<usize>) -> bool
    ensures { result ≡ holds dfc calls.now }
{
    calls.as_slice().iter().any(|other| *other == dfc)
}

/// Whether two items are the same.
fn is_same(one: Item, other: &Item) -> bool
    ensures { result ≡ is_same one other.now }
{
    match (one, *other) {
        (Item::Idfc(one), Item::Idfc(other)) => other == one,
        (Item::Move(one), Item::Move(other)) => other == one,
        _ => false,
    }
}

/// Whether an item stands in the immediate queue.
fn is_immediate(rows: &DeferredRows, item: Item) -> bool
    ensures { result ≡ list_any (is_same item) rows.now.immediate }
{
    rows.immediate
        .as_slice()
        .iter()
        .any(|other| is_same(item, other))
}

/// Whether a deferred function call stands in a queue of its kind.
fn is_in_queues(rows: &DeferredRows, dfc: usize) -> bool
    ensures { result ≡ list_any (holds dfc) rows.now.queues }
{
    rows.queues.as_slice().iter().any(|calls| holds(dfc, calls))
}

/// Whether a deferred function call is the one that an item moves.
fn is_moved(dfc: usize, item: &Item) -> bool
    ensures { result ≡ is_same (Move dfc) item.now }
{
    match *item {
        Item::Idfc(_) => false,
        Item::Move(other) => other as usize == dfc,
    }
}

/// Whether a deferred function call stands in the immediate queue, to be moved.
fn is_to_move(rows: &DeferredRows, dfc: usize) -> bool
    ensures { result ≡ list_any (is_same (Move dfc)) rows.now.immediate }
{
    rows.immediate
        .as_slice()
        .iter()
        .any(|item| is_moved(dfc, item))
}

/// Whether a deferred function call stands in a queue.
pub fn is_call_queued(rows: &DeferredRows, dfc: usize) -> bool
    ensures { result ≡ is_queued rows.now (Move dfc) }
{
    is_to_move(rows, dfc) || is_in_queues(rows, dfc)
}

/// Whether an item stands in a queue.
pub fn is_queued(rows: &DeferredRows, item: Item) -> bool
    ensures { result ≡ is_queued rows.now item }
{
    match item {
        Item::Idfc(_) => is_immediate(rows, item),
        Item::Move(dfc) => is_call_queued(rows, dfc as usize),
    }
}
