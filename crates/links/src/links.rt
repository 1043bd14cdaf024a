//! Lists of nodes, linked by index.
ghost use Rattle.std.specs.Prelude.{◌≡◌, ◌<◌, ◌≤◌, ◌↔◌, [], IsTrue, IsNone, Some, IfOk, IfSome, length, ℕ, slice_get, slice_index, slice_index_or};
ghost use Rattle.sym_base.specs.Greatest.{unless_greater, first_of_greatest};
ghost use Rattle.links.specs.Linked.{Linked, empty_lists, list_at, IsLinked, pushed_back, pushed_front, popped_front, unlinked, ChangesItsListAlone, IsFollower, IsNoneAtLast, AreApart};

use crate::neighbours::Neighbours;
use std::alloc::Global;
use std::marker::Model;
use sym_base::NoMemory;

/// A fixed number of lists of numbered nodes, each node on one list at most. No call but `new` takes memory. The
/// kernel's queues are doubly linked lists (Symbian OS Internals, the chapter on the nanokernel's priority lists);
/// that a node is a number is this project's own. A contract sees the lists.
#[derive(Drop)]
pub struct Links {
    nodes: u32,
    neighbours: Neighbours,
}

impl Model for Links {
    ghost use Rattle.links.specs.Linked.{Linked};
    ghost use Rattle.links.specs.Rings.{AreLinked, lists_of};

    ghost Value = { Linked };

    ghost view = { λ a. record { nodes = a.nodes; lists = lists_of a.nodes a.neighbours.next.items } };

    ghost invariant = { λ a. AreLinked a.nodes a.neighbours.next.items a.neighbours.previous.items (lists_of a.nodes a.neighbours.next.items) };
}

impl Links {
    /// Empty lists for the nodes and lists below two numbers. It takes all the memory that they ever need;
    /// 4,294,967,296 nodes and lists together are too many for any memory.
    pub fn new(alloc: Global, nodes: u32, lists: u32) -> Result<Links, NoMemory>
        ensures { IfOk result (λ links. links ≡ empty_lists nodes lists) }
    {
        let Some(entries) = nodes.checked_add(lists) else {
            return Err(NoMemory);
        };
        let next = alone(alloc, entries)?;
        let previous = alone(alloc, entries)?;
        Ok(Links {
            nodes,
            neighbours: Neighbours { next, previous },
        })
    }

    /// Puts a node that is on no list behind the others of a list.
    pub fn push_back(&mut self, list: u32, node: u32)
        requires list { list < length self.old.lists }
        requires node { node < self.old.nodes }
        requires free { ¬ IsLinked self.old node }
        ensures { self.new ≡ pushed_back self.old list node }
    {
        let end = self.nodes + list;
        let last = self.neighbours.previous(end);
        self.neighbours.insert(last, node, end);
    }

    /// Puts a node that is on no list before the others of a list.
    pub fn push_front(&mut self, list: u32, node: u32)
        requires list { list < length self.old.lists }
        requires node { node < self.old.nodes }
        requires free { ¬ IsLinked self.old node }
        ensures { self.new ≡ pushed_front self.old list node }
    {
        let end = self.nodes + list;
        let first = self.neighbours.next(end);
        self.neighbours.insert(end, node, first);
    }

    /// Takes a node off its list.
    pub fn unlink(&mut self, node: u32)
        requires node { node < self.old.nodes }
        requires linked { IsLinked self.old node }
        ensures unlinked { self.new ≡ unlinked self.old node }
        ensures alone { ChangesItsListAlone self.old self.new node }
        ensures free { ¬ IsLinked self.new node }
    {
        let before = self.neighbours.previous(node);
        let after = self.neighbours.next(node);
        self.neighbours.remove(before, node, after);
    }

    /// Takes the first node off a list. None exactly where the list is empty.
    pub fn pop_front(&mut self, list: u32) -> Option<u32>
        requires { list < length self.old.lists }
        ensures first { result ≡ slice_get (list_at self.old list) 0 }
        ensures none { IsNone result ↔ (list_at self.old list ≡ []) }
        ensures popped { self.new ≡ popped_front self.old list }
        ensures below { IfSome result (λ node. node < self.old.nodes) }
        ensures free { IfSome result (λ node. ¬ IsLinked self.new node) }
    {
        let end = self.nodes + list;
        let node = self.neighbours.next(end);
        if node == end {
            return None;
        }
        let after = self.neighbours.next(node);
        self.neighbours.remove(end, node, after);
        Some(node)
    }

    /// The first node of a list. None exactly where the list is empty.
    pub fn first(&self, list: u32) -> Option<u32>
        requires { list < length self.now.lists }
        ensures first { result ≡ slice_get (list_at self.now list) 0 }
        ensures none { IsNone result ↔ (list_at self.now list ≡ []) }
        ensures below { IfSome result (λ node. node < self.now.nodes) }
        ensures few { length (list_at self.now list) ≤ self.now.nodes }
    {
        let node = self.neighbours.next(self.nodes + list);
        if node < self.nodes { Some(node) } else { None }
    }

    /// The node that follows a node on its list. None exactly at the last one.
    pub fn next(&self, node: u32) -> Option<u32>
        requires { IsLinked self.now node }
        ensures follower { IsFollower self.now node result }
        ensures none { IsNoneAtLast self.now node result }
        ensures below { IfSome result (λ node. node < self.now.nodes) }
    {
        let after = self.neighbours.next(node);
        if after < self.nodes {
            Some(after)
        } else {
            None
        }
    }

    /// Of the nodes of a list the first of the greatest weight, where each node has a weight. None exactly
    /// where the list is empty. Unlike the other calls it goes over the list.
    pub fn first_of_greatest(&self, list: u32, weights: &[u8]) -> Option<u32>
        requires list { list < length self.now.lists }
        requires weighed { length weights.now ≡ self.now.nodes }
        ensures first { result ≡ first_of_greatest (λ node. slice_index_or weights.now node 0) (list_at self.now list) }
        ensures none { IsNone result ↔ (list_at self.now list ≡ []) }
        ensures linked { IfSome result (λ node. IsLinked self.now node) }
        ensures below { IfSome result (λ node. node < self.now.nodes) }
    {
        let mut node = self.first(list)?;
        let mut best = node;
        for place in 0..self.nodes {
            let Some(after) = self.next(node) else {
                return Some(best);
            };
            best = heavier(weights, best, after);
            node = after;
        }
        Some(best)
    }

    /// Whether a node is on a list. Each node stands at one place at most.
    pub fn is_linked(&self, node: u32) -> bool
        requires { node < self.now.nodes }
        ensures linked { IsTrue result ↔ IsLinked self.now node }
        ensures apart { AreApart self.now }
    {
        self.neighbours.next(node) != node
    }
}

/// A node, unless another has a greater weight.
fn heavier(weights: &[u8], node: u32, other: u32) -> u32
    requires node { node < length weights.now }
    requires other { other < length weights.now }
    ensures { Some result ≡ unless_greater (λ node. slice_index_or weights.now node 0) node (Some other) }
{
    if weights[node as usize] < weights[other as usize] {
        other
    } else {
        node
    }
}

/// Neighbours that each lead to themselves, below a number.
fn alone(alloc: Global, entries: u32) -> Result<Vec<u32>, NoMemory>
    ensures { IfOk result (λ made. (length made.items ≡ entries) × ((k : ℕ) → k < entries → slice_index made.items k ≡ k)) }
{
    let mut made = Vec::with_capacity(alloc, entries as usize)?;
    for entry in 0..entries {
        made.push_reserved(entry);
    }
    Ok(made)
}
