//! Numbered items in lists by thread.
ghost use Rattle.std.specs.Prelude.{◌≡◌, ◌<◌, ◌≤◌, IfOk, IfSome, length, slice_get};
ghost use Rattle.links.specs.Linked.{Linked, empty_lists, holds, list_at, IsLinked, IsFollower, IsNoneAtLast, pushed_back, with_list, without};

use links::Links;
use std::alloc::Global;
use std::marker::Model;
use sym_base::{NoMemory, ThreadNo};

/// A list of numbered items for each thread. An item stands in the list of one thread at most, and the
/// thread is kept beside it. A contract sees the lists.
#[derive(Drop)]
pub struct ThreadItems {
    links: Links,
    owners: Vec<u16>,
}

impl Model for ThreadItems {
    ghost use Rattle.links.specs.Linked.{Linked};
    ghost use Rattle.links.specs.Owned.{AreOwned};

    ghost Value = { Linked };

    ghost view = { λ a. a.links };

    ghost invariant = { λ a. AreOwned a.links a.owners.items };
}

impl ThreadItems {
    /// Empty lists for the items and threads below two numbers. It takes all the memory that they ever
    /// need.
    pub fn new(alloc: Global, items: u32, threads: u16) -> Result<ThreadItems, NoMemory>
        ensures { IfOk result (λ lists. lists ≡ empty_lists items threads) }
    {
        let links = Links::new(alloc, items, threads as u32)?;
        let owners = vec![in alloc; 0u16; items as usize]?;
        Ok(ThreadItems { links, owners })
    }

    /// Puts an item that no thread has behind the others of a thread.
    pub fn push(&mut self, t: ThreadNo, item: u32)
        requires thread { t.0 < length self.old.lists }
        requires item { item < self.old.nodes }
        requires free { ¬ IsLinked self.old item }
        ensures { self.new ≡ pushed_back self.old t.0 item }
    {
        self.links.push_back(t.0 as u32, item);
        self.owners[item as usize] = t.0;
    }

    /// Takes an item out of a thread's list. Where it isn't there nothing changes.
    pub fn remove(&mut self, t: ThreadNo, item: u32)
        requires thread { t.0 < length self.old.lists }
        requires item { item < self.old.nodes }
        ensures { self.new ≡ with_list self.old t.0 (without item (list_at self.old t.0)) }
    {
        if self.links.is_linked(item) && self.owners[item as usize] == t.0 {
            self.links.unlink(item);
        }
    }

    /// The first item of a thread. None exactly where it has none.
    pub fn first(&self, t: ThreadNo) -> Option<u32>
        requires { t.0 < length self.now.lists }
        ensures first { result ≡ slice_get (list_at self.now t.0) 0 }
        ensures below { IfSome result (λ item. item < self.now.nodes) }
        ensures few { length (list_at self.now t.0) ≤ self.now.nodes }
    {
        self.links.first(t.0 as u32)
    }

    /// The item that stands behind an item of a thread. None exactly at the last one.
    pub fn next(&self, item: u32) -> Option<u32>
        requires { IsLinked self.now item }
        ensures follower { IsFollower self.now item result }
        ensures none { IsNoneAtLast self.now item result }
        ensures below { IfSome result (λ item. item < self.now.nodes) }
    {
        self.links.next(item)
    }
}
