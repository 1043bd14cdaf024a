//! The lists from which a thread's death is read.
ghost use Rattle.std.specs.Prelude.{◌≡◌, ◌+◌, ◌*◌, ◌^◌, ◌<◌, ◌↔◌, [], IsNone, IsTrue, IfOk, length, slice_get};
ghost use Rattle.std.specs.List.{list_any};
ghost use Rattle.std.specs.Option.{ForSome};
ghost use Rattle.cleanup.specs.Lists.{Lists, empty_lists, list_of, is_object, pushed, removed, IsKnown, HasPlace, held_of, owed, first_done, next_after, IsNoneAtEnd, IsWalk};
ghost use Rattle.cleanup.specs.Nodes.{logon};
ghost use Rattle.links.specs.Linked.{empty_lists as no_items};

use crate::duties::{DUTIES, Duties};
use crate::items::ThreadItems;
use state_rows::{Held, Owed};
use std::alloc::Global;
use std::marker::Model;
use sym_base::{NoMemory, ObjNo, ThreadNo};

/// The statuses of a thread.
const STATUSES: u8 = 16;

/// For each thread what it owes, the mutexes that it holds, the servers that it owns, what its present call
/// uses, and the logons on it, each in order of owing, taking or making. A thread's death in stages gives
/// them up one by one (Symbian OS Internals, the chapter on threads and processes, tells of the cleanup
/// queue of a thread; the order is this project's own). No call but `new` takes memory.
#[derive(Drop)]
pub struct Cleanup {
    duties: Duties,
    mutexes: ThreadItems,
    servers: ThreadItems,
    temporary: Vec<Option<ObjNo>>,
    logons: ThreadItems,
}

impl Model for Cleanup {
    ghost use Rattle.std.specs.Prelude.{◌≡◌, ◌*◌, ◌^◌, ◌<◌, length, map};
    ghost use Rattle.cleanup.specs.Lists.{Lists};
    ghost use Rattle.cleanup.specs.Nodes.{object, logon};

    ghost Value = { Lists };

    ghost view = { λ a. record { threads = length a.temporary.items; objects = a.mutexes.nodes; duties = a.duties; mutexes = map (map object) a.mutexes.lists; servers = map (map object) a.servers.lists; temporary = a.temporary.items; logons = map (map logon) a.logons.lists } };

    ghost use Rattle.cleanup.specs.Tables.{AreSized};

    ghost invariant = { λ a. AreSized (length a.temporary.items) a.duties a.mutexes a.servers a.logons };
}

/// Empty lists of mutexes, of servers and of logons, for the threads and objects below two numbers.
fn empty_items(
    alloc: Global,
    threads: u16,
    objects: u16,
) -> Result<(ThreadItems, ThreadItems, ThreadItems), NoMemory>
    ensures { IfOk result (λ lists. lists ≡ (no_items objects threads, no_items objects threads, no_items (threads * 16) threads)) }
{
    let mutexes = ThreadItems::new(alloc, objects as u32, threads)?;
    let servers = ThreadItems::new(alloc, objects as u32, threads)?;
    let logons = ThreadItems::new(alloc, threads as u32 * STATUSES as u32, threads)?;
    Ok((mutexes, servers, logons))
}

impl Cleanup {
    /// Empty lists for the threads and objects below two numbers. It takes all the memory that they ever
    /// need.
    pub fn new(alloc: Global, threads: u16, objects: u16) -> Result<Cleanup, NoMemory>
        ensures { IfOk result (λ lists. lists ≡ empty_lists threads objects) }
    {
        let (mutexes, servers, logons) = empty_items(alloc, threads, objects)?;
        let temporary = vec![in alloc; None; threads as usize]?;
        let duties = Duties::new(alloc, threads)?;
        Ok(Cleanup {
            duties,
            mutexes,
            servers,
            temporary,
            logons,
        })
    }

    /// The number of threads, each of which has its lists.
    pub fn threads(&self) -> usize
        ensures threads { result ≡ self.now.threads }
        ensures duties { result ≡ length self.now.duties }
        ensures temporary { result ≡ length self.now.temporary }
        ensures servers { result ≡ length self.now.servers }
    {
        self.temporary.len()
    }

    /// Lists a thing that a thread has, behind the others of its kind.
    pub fn push(&mut self, t: ThreadNo, what: Held)
        requires thread { t.0 < self.old.threads }
        requires known { IsKnown self.old what }
        requires place { HasPlace self.old t what }
        ensures { self.new ≡ pushed self.old t what }
    {
        match what {
            Held::Mutex(o) => self.mutexes.push(t, o.0 as u32),
            Held::Server(o) => self.servers.push(t, o.0 as u32),
            Held::Temp(o) => self.temporary[t.0 as usize] = Some(o),
            Held::Logon(u, status) => self.logons.push(t, logon_item(u, status)),
        }
    }

    /// Strikes a thing from a thread's lists. Where it isn't there nothing changes.
    pub fn remove(&mut self, t: ThreadNo, what: Held)
        requires thread { t.0 < self.old.threads }
        requires known { IsKnown self.old what }
        ensures { self.new ≡ removed self.old t what }
    {
        match what {
            Held::Mutex(o) => self.mutexes.remove(t, o.0 as u32),
            Held::Server(o) => self.servers.remove(t, o.0 as u32),
            Held::Temp(o) => {
                if self.temporary[t.0 as usize] == Some(o) {
                    self.temporary[t.0 as usize] = None;
                }
            }
            Held::Logon(u, status) => self.logons.remove(t, logon_item(u, status)),
        }
    }

    /// What a thread's death gives up next: the mutexes first, then the servers, what its call uses, and
    /// the logons. None exactly where it has none of these.
    pub fn next(&self, t: ThreadNo) -> Option<Held>
        requires { t.0 < self.now.threads }
        ensures first { result ≡ slice_get (held_of self.now t) 0 }
        ensures none { IsNone result ↔ (held_of self.now t ≡ []) }
    {
        if let Some(item) = self.mutexes.first(t) {
            return Some(Held::Mutex(ObjNo(item as u16)));
        }
        if let Some(item) = self.servers.first(t) {
            return Some(Held::Server(ObjNo(item as u16)));
        }
        if let Some(o) = self.temporary[t.0 as usize] {
            return Some(Held::Temp(o));
        }
        let item = self.logons.first(t)?;
        Some(Held::Logon(
            ObjNo((item / STATUSES as u32) as u16),
            (item % STATUSES as u32) as u8,
        ))
    }

    /// The first of the mutexes that a thread holds. None exactly where it holds none.
    pub fn first_mutex(&self, t: ThreadNo) -> Option<ObjNo>
        ensures { result ≡ slice_get (list_of self.now.mutexes t) 0 }
    {
        if t.0 as usize >= self.temporary.len() {
            return None;
        }
        let item = self.mutexes.first(t)?;
        Some(ObjNo(item as u16))
    }

    /// The first of the logons on a thread: the thread that made it, and its status. None exactly where it has none.
    pub fn first_logon(&self, t: ThreadNo) -> Option<(ThreadNo, u8)>
        ensures { result ≡ slice_get (list_of self.now.logons t) 0 }
    {
        if t.0 as usize >= self.temporary.len() {
            return None;
        }
        Some(logon_of(self.logons.first(t)?))
    }

    /// A thread owes one thing more, behind the others.
    pub fn owe(&mut self, t: ThreadNo, what: Owed)
        requires thread { t.0 < self.old.threads }
        requires place { length (list_of self.old.duties t) < DUTIES }
        ensures { self.new ≡ owed self.old t what }
    {
        self.duties.owe(t, what);
    }

    /// Takes the oldest of what a thread owes. None exactly where it owes nothing.
    pub fn next_owed(&mut self, t: ThreadNo) -> Option<Owed>
        requires { t.0 < self.old.threads }
        ensures first { result ≡ slice_get (list_of self.old.duties t) 0 }
        ensures none { IsNone result ↔ (list_of self.old.duties t ≡ []) }
        ensures done { self.new ≡ first_done self.old t }
    {
        self.duties.take_first(t)
    }

    /// The oldest of what a thread owes. None exactly where it owes nothing.
    pub fn first_owed(&self, t: ThreadNo) -> Option<Owed>
        requires { t.0 < self.now.threads }
        ensures first { result ≡ slice_get (list_of self.now.duties t) 0 }
        ensures none { IsNone result ↔ (list_of self.now.duties t ≡ []) }
    {
        self.duties.first(t)
    }

    /// The first of a thread's servers, or the one that was made after one of them. None exactly where it
    /// has no server, or none after that one.
    pub fn next_server(&self, t: ThreadNo, after: Option<ObjNo>) -> Option<ObjNo>
        requires thread { t.0 < self.now.threads }
        requires own { ForSome after (λ o. IsTrue (list_any (is_object o) (list_of self.now.servers t))) }
        ensures next { result ≡ next_after after (list_of self.now.servers t) }
        ensures none { IsNoneAtEnd after (list_of self.now.servers t) result }
        ensures walk { IsWalk self.now.objects after (list_of self.now.servers t) result }
    {
        let Some(o) = after else {
            let item = self.servers.first(t)?;
            return Some(ObjNo(item as u16));
        };
        let item = self.servers.next(o.0 as u32)?;
        Some(ObjNo(item as u16))
    }
}

/// The logon that an item stands for.
fn logon_of(item: u32) -> (ThreadNo, u8)
    requires { item < 2 ^ 20 }
    ensures { result ≡ logon item }
{
    (
        ObjNo((item / STATUSES as u32) as u16),
        (item % STATUSES as u32) as u8,
    )
}

/// The item of a logon: each thread has as many as statuses.
fn logon_item(u: ThreadNo, status: u8) -> u32
    requires { status < 16 }
    ensures { result ≡ 16 * u.0 + status }
{
    STATUSES as u32 * u.0 as u32 + status as u32
}
