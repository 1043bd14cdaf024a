//! Queues of ready threads, one for each priority.
ghost use Rattle.std.specs.Prelude.{◌≡◌, ◌<◌, ◌↔◌, [], All, IsNone, IfOk, IfSome};
ghost use Rattle.ready_list.specs.Ready.{IsReady, no_threads, added, removed, rotated, moved, first_of_highest, priority_of};

use crate::mask::{highest_bit, with_bit, without_bit};
use links::Links;
use std::alloc::Global;
use std::marker::Model;
use sym_base::{NoMemory, ObjNo, ThreadNo};

/// The number of priorities. 0 is the lowest.
pub const PRIORITIES: u8 = 64;

/// The ready list of the nanokernel: a queue of threads for each of the 64 priorities, each in order of
/// arrival, and a word whose bits tell which queues have a thread (Symbian OS Internals, the chapter on
/// threads and processes). A contract sees the queues by priority. No call but `new` takes memory.
#[derive(Drop)]
pub struct ReadyList {
    threads: u16,
    links: Links,
    priorities: Vec<u8>,
    mask: u64,
}

impl Model for ReadyList {
    ghost use Rattle.ready_list.specs.Ready.{Ready};
    ghost use Rattle.ready_list.specs.Kept.{AreKept, queues_of};

    ghost Value = { Ready };

    ghost view = { λ a. record { threads = a.threads; queues = queues_of a.links.lists } };

    ghost invariant = { λ a. AreKept a.threads a.links a.priorities.items a.mask };
}

impl ReadyList {
    /// A list for the threads below a number, of which none is ready. It takes all the memory that the
    /// list ever needs.
    pub fn new(alloc: Global, threads: u16) -> Result<ReadyList, NoMemory>
        ensures { IfOk result (λ list. list ≡ no_threads threads) }
    {
        let links = Links::new(alloc, threads as u32, PRIORITIES as u32)?;
        let priorities = vec![in alloc; 0u8; threads as usize]?;
        Ok(ReadyList {
            threads,
            links,
            priorities,
            mask: 0,
        })
    }

    /// Makes a thread ready, behind the others of its priority.
    pub fn add(&mut self, t: ThreadNo, priority: u8)
        requires thread { t.0 < self.old.threads }
        requires priority { priority < 64 }
        requires fresh { ¬ IsReady self.old t }
        ensures { self.new ≡ added self.old t priority }
    {
        self.links.push_back(priority as u32, t.0 as u32);
        self.priorities[t.0 as usize] = priority;
        self.mask = with_bit(self.mask, priority);
    }

    /// Takes a ready thread off the list.
    pub fn remove(&mut self, t: ThreadNo)
        requires thread { t.0 < self.old.threads }
        requires ready { IsReady self.old t }
        ensures { self.new ≡ removed self.old t }
    {
        let priority = self.priorities[t.0 as usize];
        self.links.unlink(t.0 as u32);
        if self.links.first(priority as u32).is_none() {
            self.mask = without_bit(self.mask, priority);
        }
    }

    /// Puts the first thread of a priority behind the others of that priority, as the end of its time
    /// slice does. Where none of that priority is ready, nothing changes.
    pub fn rotate(&mut self, priority: u8)
        requires { priority < 64 }
        ensures { self.new ≡ rotated self.old priority }
    {
        if let Some(first) = self.links.pop_front(priority as u32) {
            self.links.push_back(priority as u32, first);
        }
    }

    /// Gives a ready thread a priority. It is a new arrival, also where its priority is the same.
    pub fn set_priority(&mut self, t: ThreadNo, priority: u8)
        requires thread { t.0 < self.old.threads }
        requires priority { priority < 64 }
        requires ready { IsReady self.old t }
        ensures { self.new ≡ moved self.old t priority }
    {
        self.remove(t);
        self.add(t, priority);
    }

    /// The thread of the greatest priority, and of these the first that arrived. None exactly where
    /// nobody is ready.
    pub fn pick(&self) -> Option<ThreadNo>
        ensures picked { result ≡ first_of_highest self.now.queues }
        ensures none { IsNone result ↔ All (λ queue. queue ≡ []) self.now.queues }
        ensures known { IfSome result (λ t. t.0 < self.now.threads) }
    {
        let priority = highest_bit(self.mask)?;
        let first = self.links.first(priority as u32)?;
        Some(ObjNo(first as u16))
    }

    /// The priority at which a thread is ready. None exactly where it isn't ready.
    pub fn priority_of(&self, t: ThreadNo) -> Option<u8>
        requires { t.0 < self.now.threads }
        ensures found { result ≡ priority_of self.now t }
        ensures none { IsNone result ↔ (¬ IsReady self.now t) }
        ensures ranged { IfSome result (λ p. p < 64) }
    {
        if self.links.is_linked(t.0 as u32) {
            Some(self.priorities[t.0 as usize])
        } else {
            None
        }
    }
}
