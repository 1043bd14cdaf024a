//! The table of threads that synchronize, and its calls.
ghost use Rattle.std.specs.Prelude.{◌≡◌, ◌≢◌, ℕ, ◌-◌, true, false, ◌<◌, ◌≤◌, ◌↔◌, not, ◌==◌, None, length, IfOk, IfSome};
ghost use Rattle.std.specs.Option.{ForSome};
ghost use Rattle.sym_base.specs.declared.number.ObjNo.{ObjNo};
ghost use Rattle.state_rows.specs.Nano.{signal_count, suspend_count, critical_count, want_of, holder_of, is_thread, is_free, is_holder, held_by, is_protected};
ghost use Rattle.state_rows.specs.NanoChanges.{new_rows, after_take, after_give, after_enter, after_leave, after_signal, after_wait, after_suspend, after_resume, after_want, one_more};

use std::alloc::Global;
use std::marker::Model;
use sym_base::{NoMemory, ThreadNo};

/// The greatest suspend count. The limit is this project's own.
pub const MAX_SUSPENSIONS: u8 = 127;

/// What the nanokernel keeps of threads that synchronize (Symbian OS Internals, the chapter on threads and
/// processes): of each thread the count of its fast semaphore, its suspend count, its critical count and
/// the fast mutex that it wants, and of each fast mutex the thread that holds it. A thread holds at most
/// one fast mutex, as in EKA2. A contract sees the lists of these. Nothing clears a count: whoever wants it
/// to be 0 calls `resume` or `leave` until that answers false. A thread or a fast mutex past the table's reads as one
/// of which nothing is kept.
#[derive(Drop)]
pub struct NanoSync {
    signals: Vec<u64>,
    suspensions: Vec<u8>,
    sections: Vec<u64>,
    wants: Vec<Option<u8>>,
    holders: Vec<Option<ThreadNo>>,
}

impl Model for NanoSync {
    ghost use Rattle.state_rows.specs.declared.nano.NanoRows.{NanoRows};
    ghost use Rattle.state_rows.specs.NanoSound.{AreNanoRows};

    ghost Value = { NanoRows };

    ghost view = { λ a. record { signals = a.signals.items; suspensions = a.suspensions.items; sections = a.sections.items; wants = a.wants.items; holders = a.holders.items } };

    ghost invariant = { λ a. AreNanoRows (record { signals = a.signals.items; suspensions = a.suspensions.items; sections = a.sections.items; wants = a.wants.items; holders = a.holders.items }) };
}

impl NanoSync {
    /// A table for the threads below a number and the fast mutexes below another, in which every count is
    /// 0 and nobody holds or wants a fast mutex. It takes all the memory that the table ever needs.
    pub fn new(alloc: Global, threads: u16, fast: u8) -> Result<NanoSync, NoMemory>
        ensures { IfOk result (λ table. table ≡ new_rows threads fast) }
    {
        let signals = vec![in alloc; 0u64; threads as usize]?;
        let suspensions = vec![in alloc; 0u8; threads as usize]?;
        let sections = vec![in alloc; 0u64; threads as usize]?;
        let wants = vec![in alloc; None; threads as usize]?;
        let holders = vec![in alloc; None; fast as usize]?;
        Ok(NanoSync {
            signals,
            suspensions,
            sections,
            wants,
            holders,
        })
    }

    /// Gives a free fast mutex to a thread that holds none. False exactly where another holds it, and then
    /// nothing changes.
    pub fn take(&mut self, t: ThreadNo, f: u8) -> bool
        requires thread { t.0 < length self.old.signals }
        requires mutex { f < length self.old.holders }
        requires holds_none { held_by self.old t ≡ None }
        ensures answer { result ≡ is_free self.old f }
        ensures after { self.new ≡ after_take self.old t f }
        ensures unchanged { result ≡ false → self.new ≡ self.old }

        // From then on the thread holds this mutex, and every other one holds what it held.
        ensures own { result ≡ true → held_by self.new t ≡ Some f }
        ensures others { (u : ObjNo) → u ≢ t → held_by self.new u ≡ held_by self.old u }
    {
        let holder = &mut self.holders[f as usize];
        if holder.is_some() {
            return false;
        }
        *holder = Some(t);
        true
    }

    /// Makes a fast mutex free that a thread holds. False exactly where that thread doesn't hold it, and
    /// then nothing changes.
    pub fn give(&mut self, t: ThreadNo, f: u8) -> bool
        requires thread { t.0 < length self.old.signals }
        requires mutex { f < length self.old.holders }
        ensures answer { result ≡ is_holder self.old t f }
        ensures after { self.new ≡ after_give self.old t f }
        ensures unchanged { result ≡ false → self.new ≡ self.old }

        // From then on the thread holds none, and every other one holds what it held.
        ensures own { result ≡ true → held_by self.new t ≡ None }
        ensures others { (u : ObjNo) → u ≢ t → held_by self.new u ≡ held_by self.old u }
    {
        let holder = &mut self.holders[f as usize];
        if !is_thread(*holder, t) {
            return false;
        }
        *holder = None;
        true
    }

    /// The thread that holds a fast mutex. None exactly where nobody holds it.
    pub fn holder(&self, f: u8) -> Option<ThreadNo>
        ensures holder { result ≡ holder_of self.now f }
        ensures known { IfSome result (λ t. t.0 < length self.now.signals) }
    {
        *self.holders.get(f as usize)?
    }

    /// The fast mutex that a thread holds. None exactly where it holds none.
    pub fn held(&self, t: ThreadNo) -> Option<u8>
        ensures held { result ≡ held_by self.now t }

        // A thread holds what it is the holder of, and nothing else.
        ensures exact { (f : ℕ) → (result ≡ Some f) ↔ (holder_of self.now f ≡ Some t) }
    {
        let place = self
            .holders
            .iter()
            .position(|holder| is_thread(*holder, t))?;
        Some(place as u8)
    }

    /// Notes the fast mutex that a thread wants, or that it wants none.
    pub fn set_want(&mut self, t: ThreadNo, f: Option<u8>)
        requires thread { t.0 < length self.old.signals }
        requires mutex { ForSome f (λ wanted. wanted < length self.old.holders) }
        ensures { self.new ≡ after_want self.old t f }
    {
        self.wants[t.0 as usize] = f;
    }

    /// The fast mutex that a thread wants. None exactly where it wants none.
    pub fn want(&self, t: ThreadNo) -> Option<u8>
        ensures want { result ≡ want_of self.now t }
        ensures known { IfSome result (λ f. f < length self.now.holders) }
    {
        *self.wants.get(t.0 as usize)?
    }

    /// Takes a thread into one critical section more. A count at the end of its 64 bits stays there.
    pub fn enter(&mut self, t: ThreadNo)
        requires { t.0 < length self.old.signals }
        ensures { self.new ≡ after_enter self.old t }
    {
        raise(&mut self.sections[t.0 as usize]);
    }

    /// Takes a thread out of a critical section. False exactly where it is in none, and then nothing
    /// changes.
    pub fn leave(&mut self, t: ThreadNo) -> bool
        requires { t.0 < length self.old.signals }
        ensures answer { result ≡ not (critical_count self.old t == 0) }
        ensures after { self.new ≡ after_leave self.old t }
        ensures unchanged { result ≡ false → self.new ≡ self.old }
    {
        lower(&mut self.sections[t.0 as usize])
    }

    /// How many critical sections a thread is in.
    pub fn critical_count(&self, t: ThreadNo) -> u64
        ensures { result ≡ critical_count self.now t }
    {
        self.sections.get(t.0 as usize).copied().unwrap_or(0)
    }

    /// Whether a thread holds a fast mutex or is in a critical section. Its suspension and its death wait
    /// until it is neither.
    pub fn protected(&self, t: ThreadNo) -> bool
        ensures { result ≡ is_protected self.now t }
    {
        self.held(t).is_some() || self.critical_count(t) != 0
    }

    /// Adds a signal to a thread's fast semaphore. A count at the end of its 64 bits stays there.
    pub fn signal(&mut self, t: ThreadNo)
        requires { t.0 < length self.old.signals }
        ensures { self.new ≡ after_signal self.old t }
    {
        raise(&mut self.signals[t.0 as usize]);
    }

    /// Takes a signal from a thread's fast semaphore. False exactly where none is there, and then nothing
    /// changes.
    pub fn try_wait(&mut self, t: ThreadNo) -> bool
        requires { t.0 < length self.old.signals }
        ensures answer { result ≡ not (signal_count self.old t == 0) }
        ensures after { self.new ≡ after_wait self.old t }
        ensures unchanged { result ≡ false → self.new ≡ self.old }
    {
        lower(&mut self.signals[t.0 as usize])
    }

    /// How many signals are at a thread's fast semaphore.
    pub fn signal_count(&self, t: ThreadNo) -> u64
        ensures { result ≡ signal_count self.now t }
    {
        self.signals.get(t.0 as usize).copied().unwrap_or(0)
    }

    /// Suspends a thread once more. False exactly where its suspend count is 127, and then nothing changes.
    pub fn suspend(&mut self, t: ThreadNo) -> bool
        requires { t.0 < length self.old.signals }
        ensures answer { result ≡ not (suspend_count self.old t == 127) }
        ensures after { self.new ≡ after_suspend self.old t }
        ensures unchanged { result ≡ false → self.new ≡ self.old }
    {
        let count = &mut self.suspensions[t.0 as usize];
        if *count == MAX_SUSPENSIONS {
            return false;
        }
        *count += 1;
        true
    }

    /// Takes one suspension of a thread back. False exactly where its suspend count is 0, and then nothing
    /// changes.
    pub fn resume(&mut self, t: ThreadNo) -> bool
        requires { t.0 < length self.old.signals }
        ensures answer { result ≡ not (suspend_count self.old t == 0) }
        ensures after { self.new ≡ after_resume self.old t }
        ensures unchanged { result ≡ false → self.new ≡ self.old }
    {
        let count = &mut self.suspensions[t.0 as usize];
        if *count == 0 {
            return false;
        }
        *count -= 1;
        true
    }

    /// How many suspensions of a thread aren't resumed, at most 127.
    pub fn suspend_count(&self, t: ThreadNo) -> u8
        ensures count { result ≡ suspend_count self.now t }
        ensures limited { result ≤ 127 }
    {
        self.suspensions.get(t.0 as usize).copied().unwrap_or(0)
    }
}

/// Whether a holder is a thread.
fn is_thread(holder: Option<ThreadNo>, t: ThreadNo) -> bool
    ensures { result ≡ is_thread t holder }
{
    match holder {
        Some(holder) => holder == t,
        None => false,
    }
}

/// Adds one to a count. At its end it stays.
fn raise(count: &mut u64)
    ensures { count.new ≡ one_more count.old }
{
    *count = count.saturating_add(1);
}

/// Takes one off a count. False exactly where it is 0, and then it stays.
fn lower(count: &mut u64) -> bool
    ensures answer { result ≡ not (count.old == 0) }
    ensures after { count.new ≡ count.old - 1 }
{
    if *count == 0 {
        return false;
    }
    *count -= 1;
    true
}
