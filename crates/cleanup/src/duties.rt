//! What threads owe.
ghost use Rattle.std.specs.Prelude.{◌≡◌, [], ◌<◌, IfOk, drop, length, replicate, slice_get, slice_set};
ghost use Rattle.cleanup.specs.Lists.{list_of, with_last};

use links::Links;
use state_rows::Owed;
use std::alloc::Global;
use std::marker::Model;
use sym_base::{NoMemory, ObjNo, ThreadNo};

/// The places that each thread has for what it owes. A thread that owes something does that first, so it
/// owes nothing as it takes a step. A step owes three closes at most: those of a finished message's session
/// and client, and that of what the call used. To close a last reference owes less than it pays: the close
/// of the object's link and the sweep, in place of a close. Counting 4 for a close, 2 for that of a link and
/// 1 for a sweep, a thread never owes more than 12, and each thing that it owes counts at least 1. So these
/// places always suffice. The number is this project's own.
pub const DUTIES: u16 = 16;

/// What each thread owes, in order of owing. A contract sees the lists by thread.
#[derive(Drop)]
pub struct Duties {
    threads: u16,
    links: Links,
    rows: Vec<Owed>,
}

impl Model for Duties {
    ghost use Rattle.std.specs.Prelude.{List};
    ghost use Rattle.state_rows.specs.declared.duty.Owed.{Owed};
    ghost use Rattle.cleanup.specs.Nodes.{HavePlaces, duties_of};

    ghost Value = { List (List Owed) };

    ghost view = { λ a. duties_of a.threads a.links a.rows.items };

    ghost invariant = { λ a. HavePlaces a.threads a.links a.rows.items };
}

impl Duties {
    /// Lists for the threads below a number, none of which owes anything. It takes all the memory that
    /// they ever need.
    pub fn new(alloc: Global, threads: u16) -> Result<Duties, NoMemory>
        ensures { IfOk result (λ duties. duties ≡ replicate threads []) }
    {
        let places = threads as u32 * DUTIES as u32;
        let rows = vec![in alloc; Owed::Sweep(ObjNo(0)); places as usize]?;
        let mut links = Links::new(alloc, places, 2 * threads as u32)?;
        for node in 0..places {
            links.push_back(threads as u32 + node / DUTIES as u32, node);
        }
        Ok(Duties {
            threads,
            links,
            rows,
        })
    }

    /// A thread owes one thing more.
    pub fn owe(&mut self, t: ThreadNo, what: Owed)
        requires thread { t.0 < length self.old }
        requires place { length (list_of self.old t) < DUTIES }
        ensures { self.new ≡ with_last self.old t what }
    {
        let Some(node) = self.links.pop_front(self.threads as u32 + t.0 as u32) else {
            return;
        };
        self.rows[node as usize] = what;
        self.links.push_back(t.0 as u32, node);
    }

    /// Takes the oldest of what a thread owes. None exactly where it owes nothing.
    pub fn take_first(&mut self, t: ThreadNo) -> Option<Owed>
        requires { t.0 < length self.old }
        ensures first { result ≡ slice_get (list_of self.old t) 0 }
        ensures taken { self.new ≡ slice_set self.old t.0 (drop 1 (list_of self.old t)) }
    {
        let node = self.links.pop_front(t.0 as u32)?;
        self.links.push_back(self.threads as u32 + t.0 as u32, node);
        Some(self.rows[node as usize])
    }

    /// The oldest of what a thread owes. None exactly where it owes nothing.
    pub fn first(&self, t: ThreadNo) -> Option<Owed>
        requires { t.0 < length self.now }
        ensures { result ≡ slice_get (list_of self.now t) 0 }
    {
        let node = self.links.first(t.0 as u32)?;
        Some(self.rows[node as usize])
    }
}
