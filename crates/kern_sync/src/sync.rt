//! The table of mutexes and semaphores, and its calls.
ghost use Rattle.std.specs.Prelude.{◌≡◌, ℕ, pos, ◌≤ℤ◌, false, ◌<◌, ◌≤◌, ◌↔◌, [], not, ◌==◌, IsNone, IsSome, length, slice_set, IfOk, IfSome};
ghost use Rattle.links.specs.Linked.{with_list};
ghost use Rattle.sym_base.specs.declared.number.ObjNo.{ObjNo};
ghost use Rattle.state_rows.specs.Locks.{owner_at, count_at, waiters_at, is_waiting};
ghost use Rattle.kern_sync.specs.KernelLocks.{new_locks, best_of, with_rows, without_best, after_priority};
ghost use Rattle.state_rows.specs.NanoChanges.{one_more};
ghost use Rattle.state_rows.specs.LockChanges.{start_count, after_new_row, lock_answer, after_lock, unlock_answer, after_unlock, after_free, after_wait, signal_answer, after_signal, after_sweep, after_remove};
ghost use Rattle.state_rows.specs.declared.locks.Locked.TheVariants.{Waits};
ghost use Rattle.state_rows.specs.declared.locks.Unlocked.TheVariants.{NotOwner, Passed};
ghost use Rattle.state_rows.specs.declared.locks.Signalled.TheVariants.{Overflow, Woke};

use links::Links;
use state_rows::{Locked, MAX_COUNT, Owner, Signalled, Unlocked};
use std::alloc::Global;
use std::marker::Model;
use sym_base::{NoMemory, ObjNo, ThreadNo};

/// Kernel mutexes and semaphores (Symbian OS Internals, the chapter on threads and processes): who owns
/// each mutex and how often, the count of each semaphore, and the threads that wait for one of either. A
/// waiter is served by its priority, which is that of the thread when it is served, and then in order of
/// waiting; a mutex that is passed on belongs to the waiter at once. That priorities aren't inherited, and
/// the greatest count, are this project's own. A contract sees the owners and counts by object, the
/// waiters of each object in order of waiting, and the priorities by thread.
///
/// No call but `new` takes memory.
#[derive(Drop)]
pub struct KernSync {
    owners: Vec<Option<Owner>>,
    counts: Vec<u32>,
    priorities: Vec<u8>,
    links: Links,
}

impl Model for KernSync {
    ghost use Rattle.kern_sync.specs.KernelLocks.{KernelLocks};
    ghost use Rattle.kern_sync.specs.Kept.{AreKept, locks_of};

    ghost Value = { KernelLocks };

    ghost view = { λ a. locks_of a.owners.items a.counts.items a.priorities.items a.links };

    ghost invariant = { λ a. AreKept a.owners.items a.counts.items a.priorities.items a.links };
}

impl KernSync {
    /// A table for the objects below a number and the threads below another. Nobody owns or waits for
    /// anything, and every count and priority is 0. It takes all the memory that the table ever needs.
    pub fn new(alloc: Global, objects: u16, threads: u16) -> Result<KernSync, NoMemory>
        ensures { IfOk result (λ table. table ≡ new_locks objects threads) }
    {
        let owners = vec![in alloc; None; objects as usize]?;
        let counts = vec![in alloc; 0u32; objects as usize]?;
        let priorities = vec![in alloc; 0u8; threads as usize]?;
        let links = Links::new(alloc, threads as u32, objects as u32)?;
        Ok(KernSync {
            owners,
            counts,
            priorities,
            links,
        })
    }

    /// Makes an object a free mutex, or a semaphore with a count.
    pub fn new_row(&mut self, o: ObjNo, start: Option<i32>)
        requires object { o.0 < length self.old.rows.owners }
        requires free { owner_at self.old.rows o ≡ None }
        requires alone { waiters_at self.old.rows o ≡ [] }
        requires count { IfSome start (λ count. pos 0 ≤ℤ count) }
        ensures { self.new ≡ with_rows self.old (after_new_row self.old.rows o start) }
    {
        self.counts[o.0 as usize] = count_from(start);
    }

    /// Locks a mutex for a thread. Where another thread owns it the thread, which waits for nothing yet, waits,
    /// behind the others; where the thread owns it already its level rises, unless it is at the end of its 64 bits.
    pub fn lock(&mut self, o: ObjNo, t: ThreadNo) -> Locked
        requires object { o.0 < length self.old.rows.owners }
        requires thread { lock_answer (owner_at self.old.rows o) t ≡ Waits → t.0 < length self.old.priorities }
        requires waits { lock_answer (owner_at self.old.rows o) t ≡ Waits → is_waiting self.old.rows t ≡ false }
        ensures answer { result ≡ lock_answer (owner_at self.old.rows o) t }
        ensures after { self.new ≡ with_rows self.old (after_lock self.old.rows o t result) }
    {
        match self.owners[o.0 as usize] {
            None => {
                self.owners[o.0 as usize] = Some(Owner {
                    thread: t,
                    level: 1,
                });
                Locked::Taken
            }
            Some(Owner { thread, level }) if thread == t => {
                self.owners[o.0 as usize] = Some(Owner {
                    thread,
                    level: one_more(level),
                });
                Locked::Again
            }
            Some(_) => {
                self.links.push_back(o.0 as u32, t.0 as u32);
                Locked::Waits
            }
        }
    }

    /// Unlocks a mutex once. Where that was the last level of its owner, the mutex is passed to the best
    /// waiter, or is free where nobody waits. NotOwner exactly where the thread doesn't own it, and then
    /// nothing changes.
    pub fn unlock(&mut self, o: ObjNo, t: ThreadNo) -> Unlocked
        requires object { o.0 < length self.old.rows.owners }
        ensures answer { result ≡ unlock_answer (owner_at self.old.rows o) t (best_of self.old o) }
        ensures after { self.new ≡ with_rows self.old (after_unlock self.old.rows o result) }
        ensures unchanged { result ≡ NotOwner → self.new ≡ self.old }
        ensures woken { (u : ObjNo) → result ≡ Passed u → (u.0 < length self.old.priorities) × (is_waiting self.new.rows u ≡ false) }
    {
        let Some(Owner { thread, level }) = self.owners[o.0 as usize] else {
            return Unlocked::NotOwner;
        };
        if thread != t {
            return Unlocked::NotOwner;
        }
        if level > 1 {
            self.owners[o.0 as usize] = Some(Owner {
                thread,
                level: level - 1,
            });
            return Unlocked::Level;
        }
        match self.free(o) {
            None => Unlocked::Freed,
            Some(next) => Unlocked::Passed(next),
        }
    }

    /// Takes a mutex from its owner, all levels at once, and passes it to the best waiter. None exactly
    /// where nobody waits, and then the mutex is free.
    pub fn free(&mut self, o: ObjNo) -> Option<ThreadNo>
        requires object { o.0 < length self.old.rows.owners }
        requires owned { IsSome (owner_at self.old.rows o) }
        ensures answer { result ≡ best_of self.old o }
        ensures none { IsNone result ↔ (waiters_at self.old.rows o ≡ []) }
        ensures after { self.new ≡ with_rows self.old (after_free self.old.rows o (best_of self.old o)) }
        ensures woken { IfSome result (λ t. (t.0 < length self.old.priorities) × (is_waiting self.new.rows t ≡ false)) }
    {
        let next = self.take_best(o);
        self.owners[o.0 as usize] = match next {
            None => None,
            Some(thread) => Some(Owner { thread, level: 1 }),
        };
        next
    }

    /// Takes one from the count of a semaphore, for a thread that waits for nothing yet where the count is 0. False exactly where
    /// the count is 0, and then the thread waits, behind the others.
    pub fn sem_wait(&mut self, o: ObjNo, t: ThreadNo) -> bool
        requires object { o.0 < length self.old.rows.owners }
        requires thread { count_at self.old.rows o ≡ 0 → t.0 < length self.old.priorities }
        requires waits { count_at self.old.rows o ≡ 0 → is_waiting self.old.rows t ≡ false }
        ensures answer { result ≡ not (count_at self.old.rows o == 0) }
        ensures after { self.new ≡ with_rows self.old (after_wait self.old.rows o t) }
    {
        let count = self.counts[o.0 as usize];
        if count == 0 {
            self.links.push_back(o.0 as u32, t.0 as u32);
            return false;
        }
        self.counts[o.0 as usize] = count - 1;
        true
    }

    /// Signals a semaphore: the best waiter goes on, or the count rises where nobody waits. Overflow
    /// exactly where nobody waits and the count is 2,147,483,647, and then nothing changes.
    pub fn sem_signal(&mut self, o: ObjNo) -> Signalled
        requires { o.0 < length self.old.rows.owners }
        ensures answer { result ≡ signal_answer (best_of self.old o) (count_at self.old.rows o) }
        ensures after { self.new ≡ with_rows self.old (after_signal self.old.rows o result) }
        ensures unchanged { result ≡ Overflow → self.new ≡ self.old }
        ensures woken { (u : ObjNo) → result ≡ Woke u → (u.0 < length self.old.priorities) × (is_waiting self.new.rows u ≡ false) }
    {
        if let Some(t) = self.take_best(o) {
            return Signalled::Woke(t);
        }
        let count = self.counts[o.0 as usize];
        if count >= MAX_COUNT {
            return Signalled::Overflow;
        }
        self.counts[o.0 as usize] = count + 1;
        Signalled::Counted
    }

    /// Nobody owns an object or waits for it any more, and its count is 0.
    pub fn sweep(&mut self, o: ObjNo)
        requires { o.0 < length self.old.rows.owners }
        ensures { self.new ≡ with_rows self.old (after_sweep self.old.rows o) }
    {
        self.owners[o.0 as usize] = None;
        self.counts[o.0 as usize] = 0;
        empty_list(&mut self.links, o.0 as u32);
    }

    /// Ends the wait of a thread. Where it waits for nothing, nothing changes.
    pub fn remove_waiter(&mut self, t: ThreadNo)
        requires { t.0 < length self.old.priorities }
        ensures after { self.new ≡ with_rows self.old (after_remove self.old.rows t) }
        ensures unchanged { (is_waiting self.old.rows t ≡ false) → self.new ≡ self.old }
        ensures ended { is_waiting self.new.rows t ≡ false }
    {
        if self.links.is_linked(t.0 as u32) {
            self.links.unlink(t.0 as u32);
        }
    }

    /// Sets a thread's priority. A thread that waits keeps its place among the waiters of its priority
    /// that the order of waiting gives it.
    pub fn set_priority(&mut self, t: ThreadNo, priority: u8)
        requires { t.0 < length self.old.priorities }
        ensures { self.new ≡ after_priority self.old t priority }
    {
        self.priorities[t.0 as usize] = priority;
    }

    /// Who owns a mutex, and how often. None exactly where nobody does.
    pub fn owner(&self, o: ObjNo) -> Option<Owner>
        requires { o.0 < length self.now.rows.owners }
        ensures { result ≡ owner_at self.now.rows o }
    {
        self.owners[o.0 as usize]
    }

    /// The count of a semaphore.
    pub fn count(&self, o: ObjNo) -> u32
        requires { o.0 < length self.now.rows.owners }
        ensures { result ≡ count_at self.now.rows o }
    {
        self.counts[o.0 as usize]
    }

    /// The waiter that is served next: of those of the greatest priority the one that waits longest. None
    /// exactly where nobody waits.
    pub fn best_waiter(&self, o: ObjNo) -> Option<ThreadNo>
        requires { o.0 < length self.now.rows.owners }
        ensures best { result ≡ best_of self.now o }
        ensures none { IsNone result ↔ (waiters_at self.now.rows o ≡ []) }
        ensures known { IfSome result (λ t. t.0 < length self.now.priorities) }
    {
        let node = self.links.first_of_greatest(o.0 as u32, &self.priorities)?;
        Some(ObjNo(node as u16))
    }

    /// Who owns the mutex of a number. None also where the table isn't made for the number.
    pub fn owner_at(&self, o: ObjNo) -> Option<Owner>
        ensures { result ≡ owner_at self.now.rows o }
    {
        if (o.0 as usize) < self.owners.len() {
            self.owner(o)
        } else {
            None
        }
    }

    /// The count of the semaphore of a number, 0 also where the table isn't made for the number.
    pub fn count_at(&self, o: ObjNo) -> u32
        ensures { result ≡ count_at self.now.rows o }
    {
        if (o.0 as usize) < self.owners.len() {
            self.count(o)
        } else {
            0
        }
    }

    /// The waiter that is served next. None also where the table isn't made for the number.
    pub fn best_at(&self, o: ObjNo) -> Option<ThreadNo>
        ensures { result ≡ best_of self.now o }
    {
        if (o.0 as usize) < self.owners.len() {
            self.best_waiter(o)
        } else {
            None
        }
    }

    /// Takes the waiter that is served next off its list.
    fn take_best(&mut self, o: ObjNo) -> Option<ThreadNo>
        requires { o.0 < length self.old.rows.owners }
        ensures best { result ≡ best_of self.old o }
        ensures none { IsNone result ↔ (waiters_at self.old.rows o ≡ []) }
        ensures after { self.new ≡ without_best self.old o }
        ensures woken { IfSome result (λ t. (t.0 < length self.old.priorities) × (is_waiting self.new.rows t ≡ false)) }
    {
        let t = self.best_waiter(o)?;
        self.links.unlink(t.0 as u32);
        Some(t)
    }
}

/// One level more. At the end of its 64 bits it stands still.
fn one_more(level: u64) -> u64
    ensures { result ≡ one_more level }
{
    level.saturating_add(1)
}

/// The count that a row starts with: that of a semaphore, and 0 for a mutex.
fn count_from(start: Option<i32>) -> u32
    requires { IfSome start (λ count. pos 0 ≤ℤ count) }
    ensures { result ≡ start_count start }
{
    match start {
        None => 0,
        Some(count) => count as u32,
    }
}

/// Takes each node of a list out of it.
fn empty_list(links: &mut Links, list: u32)
    requires { list < length links.old.lists }
    ensures { links.new ≡ with_list links.old list [] }
{
    while let Some(_node) = links.pop_front(list) {}
}
