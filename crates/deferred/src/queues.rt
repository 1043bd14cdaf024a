//! The immediate queue and the queues of deferred function calls.
ghost use Rattle.std.specs.Prelude.{◌≡◌, false, [], ℕ, ◌+◌, ◌<◌, ◌≤◌, ◌++◌, ◌∷◌, ◌↔◌, not, None, IsNone, All, length, map, replicate, slice_get, slice_set, if◌then◌else◌, IfOk, IfSome};
ghost use Rattle.std.specs.List.{list_any};
ghost use Rattle.links.specs.Linked.{holds, list_at};
ghost use Rattle.state_rows.specs.declared.deferred.Item.TheVariants.{Idfc, Move};
ghost use Rattle.state_rows.specs.Deferred.{IsKnown, is_queued, queue_at, queue_of, next_of};
ghost use Rattle.state_rows.specs.DeferredChanges.{places_of, new_calls, after_add_idfc, after_add_from_irq, after_add, after_next_idfc, after_next_dfc};

use crate::item::item_of;
use links::Links;
use state_rows::{DfcPlace, Item};
use std::alloc::Global;
use std::marker::Model;
use sym_base::NoMemory;

/// The number of the first burial. Declared deferred function calls have numbers below it, and the burial
/// of the k-th thread has the number 64 + k.
pub const FIRST_BURIAL: u8 = 64;

/// Where burials wait: the supervisor's queue, at the greatest priority.
const BURIAL: DfcPlace = DfcPlace {
    queue: 0,
    priority: 7,
};

/// The list of the immediate queue. The list behind it is queue 0, and so on.
const IMMEDIATE: u32 = 0;

/// The immediate deferred function calls and the deferred function calls that are queued (Symbian OS
/// Internals, the chapter on interrupts). The immediate queue is served in order, before any thread goes
/// on. Each other queue is served by a thread of its own, by priority and then in order of arrival; queue 0
/// is the supervisor's. What is queued already isn't queued again. That the burial of a dead thread is
/// such a call is this project's own. A contract sees the queues, each in order of arrival.
///
/// No call but `new` takes memory.
#[derive(Drop)]
pub struct Deferred {
    idfcs: u8,
    places: Vec<DfcPlace>,
    priorities: Vec<u8>,
    links: Links,
}

impl Model for Deferred {
    ghost use Rattle.state_rows.specs.declared.deferred.DeferredRows.{DeferredRows};
    ghost use Rattle.deferred.specs.Kept.{AreKept, calls_of};

    ghost Value = { DeferredRows };

    ghost view = { λ a. calls_of a.idfcs a.places.items a.links };

    ghost invariant = { λ a. AreKept a.idfcs a.places.items a.priorities.items a.links };
}

impl Deferred {
    /// Empty queues: an immediate one for the immediate calls below a number, and as many others as
    /// `queues` says, for the declared calls and for so many burials. It takes all the memory that the
    /// queues ever need.
    pub fn new(
        alloc: Global,
        queues: u8,
        idfcs: u8,
        dfcs: &[DfcPlace],
        burials: u8,
    ) -> Result<Deferred, NoMemory>
        requires some { 0 < queues }
        requires few { length dfcs.now ≤ 64 }
        requires burials { burials ≤ 64 }
        requires queues { All (λ place. place.queue < queues) dfcs.now }
        ensures { IfOk result (λ deferred. deferred ≡ new_calls queues idfcs dfcs.now burials) }
    {
        let places = all_places(alloc, dfcs, burials)?;
        let priorities = priorities(alloc, &places, idfcs)?;
        let links = Links::new(alloc, priorities.len() as u32, queues as u32 + 1)?;
        Ok(Deferred {
            idfcs,
            places,
            priorities,
            links,
        })
    }

    /// Puts an immediate deferred function call behind the others of the immediate queue. False exactly
    /// where it stands there already, and then nothing changes.
    pub fn add_idfc(&mut self, item: u8) -> bool
        requires { item < self.old.idfcs }
        ensures answer { result ≡ not (is_queued self.old (Idfc item)) }
        ensures after { self.new ≡ after_add_idfc self.old item }
        ensures unchanged { result ≡ false → self.new ≡ self.old }
    {
        let node = self.places.len() as u32 + item as u32;
        enqueue(&mut self.links, IMMEDIATE, node)
    }

    /// Puts a deferred function call behind the others of the immediate queue, to be moved from there to its
    /// own, as an interrupt does. False exactly where it stands in either queue already, and then nothing
    /// changes.
    pub fn add_from_irq(&mut self, dfc: u8) -> bool
        requires { dfc < length self.old.places }
        ensures answer { result ≡ not (is_queued self.old (Move dfc)) }
        ensures after { self.new ≡ after_add_from_irq self.old dfc }
        ensures unchanged { result ≡ false → self.new ≡ self.old }
    {
        enqueue(&mut self.links, IMMEDIATE, dfc as u32)
    }

    /// Puts a deferred function call behind the others of its own queue. False exactly where it stands in
    /// either queue already, and then nothing changes.
    pub fn add(&mut self, dfc: u8) -> bool
        requires { dfc < length self.old.places }
        ensures answer { result ≡ not (is_queued self.old (Move dfc)) }
        ensures after { self.new ≡ after_add self.old dfc }
        ensures unchanged { result ≡ false → self.new ≡ self.old }
    {
        let place = self.places[dfc as usize];
        enqueue(&mut self.links, list_of(place.queue), dfc as u32)
    }

    /// Takes the oldest item off the immediate queue. None exactly where that queue is empty. What was
    /// taken may be queued again.
    pub fn next_idfc(&mut self) -> Option<Item>
        ensures first { result ≡ slice_get self.old.immediate 0 }
        ensures none { IsNone result ↔ (self.old.immediate ≡ []) }
        ensures after { self.new ≡ after_next_idfc self.old }
        ensures known { IfSome result (λ item. IsKnown self.old item) }
        ensures free { IfSome result (λ item. is_queued self.new item ≡ false) }
    {
        let node = self.links.pop_front(IMMEDIATE)?;
        Some(item_of(self.places.len() as u32, node))
    }

    /// The oldest item of the immediate queue, which stays there. None exactly where that queue is empty.
    pub fn first_idfc(&self) -> Option<Item>
        ensures first { result ≡ slice_get self.now.immediate 0 }
        ensures none { IsNone result ↔ (self.now.immediate ≡ []) }
        ensures known { IfSome result (λ item. IsKnown self.now item) }
    {
        let node = self.links.first(IMMEDIATE)?;
        Some(item_of(self.places.len() as u32, node))
    }

    /// Takes the call of the greatest priority off a queue, and of these the one that came first. None
    /// exactly where the queue is empty. What was taken may be queued again.
    pub fn next_dfc(&mut self, queue: u8) -> Option<u8>
        requires { queue < length self.old.queues }
        ensures first { result ≡ next_of self.old queue }
        ensures none { IsNone result ↔ (queue_at self.old queue ≡ []) }
        ensures after { self.new ≡ after_next_dfc self.old queue }
        ensures known { IfSome result (λ dfc. dfc < length self.old.places) }
        ensures free { IfSome result (λ dfc. is_queued self.new (Move dfc) ≡ false) }
    {
        let dfc = self.first_dfc(queue)?;
        self.links.unlink(dfc as u32);
        Some(dfc)
    }

    /// The call of the greatest priority of a queue, and of these the one that came first. It stays there.
    /// None exactly where the queue is empty.
    pub fn first_dfc(&self, queue: u8) -> Option<u8>
        requires { queue < length self.now.queues }
        ensures first { result ≡ next_of self.now queue }
        ensures none { IsNone result ↔ (queue_at self.now queue ≡ []) }
        ensures known { IfSome result (λ dfc. dfc < length self.now.places) }
    {
        let node = self
            .links
            .first_of_greatest(list_of(queue), &self.priorities)?;
        Some(node as u8)
    }

    /// The queue of a deferred function call, 0 past the calls' numbers.
    pub fn queue_of(&self, dfc: u8) -> u8
        ensures { result ≡ queue_of self.now dfc }
    {
        match self.places.get(dfc as usize) {
            Some(place) => place.queue,
            None => 0,
        }
    }

    /// Whether a deferred function call stands in the immediate queue or in its own. False past the calls' numbers.
    pub fn is_queued(&self, dfc: u8) -> bool
        ensures { result ≡ is_queued self.now (Move dfc) }
    {
        (dfc as usize) < self.places.len() && self.links.is_linked(dfc as u32)
    }
}

/// The list in which a queue's calls stand.
fn list_of(queue: u8) -> u32
    ensures { result ≡ queue + 1 }
{
    IMMEDIATE + 1 + queue as u32
}

/// Puts a node behind the others of a list, unless it stands on some list already.
fn enqueue(links: &mut Links, list: u32, node: u32) -> bool
    requires list { list < length links.old.lists }
    requires node { node < links.old.nodes }
    ensures answer { result ≡ not (list_any (holds node) links.old.lists) }
    ensures after { links.new ≡ record links.old { lists = if list_any (holds node) links.old.lists then links.old.lists else slice_set links.old.lists list (list_at links.old list ++ node ∷ []) } }
{
    if links.is_linked(node) {
        return false;
    }
    links.push_back(list, node);
    true
}

/// The places of all numbers: those of the declared calls, and behind them those of burials.
fn all_places(alloc: Global, dfcs: &[DfcPlace], burials: u8) -> Result<Vec<DfcPlace>, NoMemory>
    requires { length dfcs.now ≤ 64 }
    ensures { IfOk result (λ places. places.items ≡ places_of dfcs.now burials) }
{
    let mut places = Vec::from_slice(alloc, dfcs)?;
    for _number in dfcs.len()..FIRST_BURIAL as usize + burials as usize {
        places.push(BURIAL)?;
    }
    Ok(places)
}

/// The priority of each call, and 0 for each of so many immediate calls, which have none.
fn priorities(alloc: Global, places: &[DfcPlace], idfcs: u8) -> Result<Vec<u8>, NoMemory>
    ensures { IfOk result (λ priorities. priorities.items ≡ map (λ place. place.priority) places.now ++ replicate idfcs 0) }
{
    let mut priorities = Vec::with_capacity(alloc, places.len() + idfcs as usize)?;
    for place in places {
        priorities.push_reserved(place.priority);
    }
    for _idfc in 0..idfcs {
        priorities.push_reserved(0);
    }
    Ok(priorities)
}
