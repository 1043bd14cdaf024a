//! The table of requests and statuses, and its calls.
ghost use Rattle.std.specs.Prelude.{◌≡◌, false, ◌<◌, not, ◌==◌, None, length, IfOk, IfSome, IsTrue, replicate, pos};
ghost use Rattle.state_rows.specs.Requests.{request_at, status_of, value_of, pending, is_pending, signal_count, reply_of};
ghost use Rattle.state_rows.specs.RequestChanges.{new_rows, after_begin, after_finish, after_cancel, after_drop, after_set_pending, after_signal, after_take, after_reply};
ghost use Rattle.requests.specs.Calls.{begin_answer, parts_of};

use crate::drops::drop_requests;
use state_rows::{PENDING, Request, STATUSES};
use std::alloc::Global;
use std::marker::Model;
use sym_base::{NoMemory, ThreadNo};

/// What beginning a request answers.
#[derive(Clone, Copy, Debug, PartialEq, Eq)]
pub enum Began {
    Begun,
    /// The device has another request to complete.
    InUse,
}

/// Asynchronous requests (Symbian OS Internals, the chapter on inter-thread communication): of each device
/// the request that it has to complete, at most one; and of each thread its statuses s0 to s15, the count
/// of its request semaphore, and the status of its synchronous message, which leaves the semaphore alone.
/// The devices, that each has one request at a time, that a thread has sixteen statuses, and that a
/// synchronous message has a status of its own are this project's rules. A contract sees the lists of these. A
/// device, a thread or a status past the table's reads as one of which nothing is kept.
#[derive(Drop)]
pub struct Requests {
    devices: Vec<Option<Request>>,
    statuses: Vec<[i32; STATUSES]>,
    signals: Vec<u64>,
    replies: Vec<i32>,
}

impl Model for Requests {
    ghost use Rattle.state_rows.specs.declared.requests.RequestRows.{RequestRows};
    ghost use Rattle.state_rows.specs.RequestSound.{AreRequestRows};

    ghost Value = { RequestRows };

    ghost view = { λ a. record { devices = a.devices.items; statuses = a.statuses.items; signals = a.signals.items; replies = a.replies.items } };

    ghost invariant = { λ a. AreRequestRows (record { devices = a.devices.items; statuses = a.statuses.items; signals = a.signals.items; replies = a.replies.items }) };
}

impl Requests {
    /// A table for the threads below a number and the devices below another, in which no device has a
    /// request and every status and semaphore is 0. It takes all the memory that the table ever needs.
    pub fn new(alloc: Global, threads: u16, devices: u8) -> Result<Requests, NoMemory>
        ensures { IfOk result (λ table. table ≡ new_rows threads devices) }
    {
        let devices = vec![in alloc; None; devices as usize]?;
        let statuses = new_statuses(alloc, threads)?;
        let signals = vec![in alloc; 0u64; threads as usize]?;
        let replies = vec![in alloc; 0i32; threads as usize]?;
        Ok(Requests {
            devices,
            statuses,
            signals,
            replies,
        })
    }

    /// Gives a device a request to complete, by a thread's status. InUse exactly where it has one already,
    /// and then nothing changes.
    pub fn begin(&mut self, device: u8, t: ThreadNo, s: u8) -> Began
        requires device { device < length self.old.devices }
        requires thread { t.0 < length self.old.signals }
        requires status { s < 16 }
        ensures answer { result ≡ begin_answer self.old device }
        ensures after { self.new ≡ after_begin self.old device t s }
        ensures unchanged { result ≡ Began.InUse → self.new ≡ self.old }
    {
        let request = &mut self.devices[device as usize];
        if request.is_some() {
            return Began::InUse;
        }
        *request = Some(Request {
            thread: t,
            status: s,
        });
        Began::Begun
    }

    /// The request that a device has to complete. None exactly where it has none.
    pub fn request_at(&self, device: u8) -> Option<Request>
        ensures request { result ≡ request_at self.now device }
        ensures known { IfSome result (λ request. (request.thread.0 < length self.now.signals) × (request.status < 16)) }
    {
        *self.devices.get(device as usize)?
    }

    /// Takes the request of a device away, as the device completes it. None exactly where it has none.
    pub fn finish_device(&mut self, device: u8) -> Option<(ThreadNo, u8)>
        requires { device < length self.old.devices }
        ensures answer { result ≡ parts_of (request_at self.old device) }
        ensures after { self.new ≡ after_finish self.old device }
        ensures unchanged { result ≡ None → self.new ≡ self.old }
        ensures known { IfSome result (λ request. (request.0.0 < length self.old.signals) × (request.1 < 16)) }
    {
        let request = self.devices[device as usize].take()?;
        Some((request.thread, request.status))
    }

    /// Takes a thread's request of a device away, and tells its status. None exactly where the device has
    /// none of that thread, and then nothing changes.
    pub fn cancel(&mut self, device: u8, t: ThreadNo) -> Option<u8>
        requires device { device < length self.old.devices }
        requires thread { t.0 < length self.old.signals }
        ensures answer { result ≡ status_of t (request_at self.old device) }
        ensures after { self.new ≡ after_cancel self.old device t }
        ensures unchanged { result ≡ None → self.new ≡ self.old }
        ensures known { IfSome result (λ s. s < 16) }
    {
        let request = self.devices[device as usize]?;
        if request.thread != t {
            return None;
        }
        self.devices[device as usize] = None;
        Some(request.status)
    }

    /// Takes every device's request of a thread away.
    pub fn drop_all(&mut self, t: ThreadNo)
        requires { t.0 < length self.old.signals }
        ensures { self.new ≡ after_drop self.old t }
    {
        drop_requests(&mut self.devices, t);
    }

    /// Makes a status pending. False exactly where it is pending already, and then nothing changes.
    pub fn set_pending(&mut self, t: ThreadNo, s: u8) -> bool
        requires thread { t.0 < length self.old.signals }
        requires status { s < 16 }
        ensures answer { result ≡ not (is_pending self.old t s) }
        ensures after { self.new ≡ after_set_pending self.old t s }
        ensures told { value_of self.new t s ≡ pending }
        ensures unchanged { result ≡ false → self.new ≡ self.old }
    {
        let status = &mut self.statuses[t.0 as usize][s as usize];
        if *status == PENDING {
            return false;
        }
        *status = PENDING;
        true
    }

    /// Completes a pending status with a code, and adds a signal to the thread's request semaphore. A count at the end
    /// of its 64 bits stays there.
    pub fn signal(&mut self, t: ThreadNo, s: u8, code: i32)
        requires thread { t.0 < length self.old.signals }
        requires status { s < 16 }
        requires pending { IsTrue (is_pending self.old t s) }
        ensures after { self.new ≡ after_signal self.old t s code }
        ensures told { value_of self.new t s ≡ code }
    {
        self.statuses[t.0 as usize][s as usize] = code;
        let signals = &mut self.signals[t.0 as usize];
        *signals = signals.saturating_add(1);
    }

    /// Takes a signal from a thread's request semaphore. False exactly where none is there, and then nothing
    /// changes.
    pub fn take_signal(&mut self, t: ThreadNo) -> bool
        requires { t.0 < length self.old.signals }
        ensures answer { result ≡ not (signal_count self.old t == 0) }
        ensures after { self.new ≡ after_take self.old t }
        ensures unchanged { result ≡ false → self.new ≡ self.old }
    {
        let count = &mut self.signals[t.0 as usize];
        if *count == 0 {
            return false;
        }
        *count -= 1;
        true
    }

    /// How many signals are at a thread's request semaphore.
    pub fn signal_count(&self, t: ThreadNo) -> u64
        ensures { result ≡ signal_count self.now t }
    {
        self.signals.get(t.0 as usize).copied().unwrap_or(0)
    }

    /// The value of a status: 0 at first, then `PENDING` or the code of its last completion.
    pub fn value(&self, t: ThreadNo, s: u8) -> i32
        ensures { result ≡ value_of self.now t s }
    {
        let Some(statuses) = self.statuses.get(t.0 as usize) else {
            return 0;
        };
        statuses.get(s as usize).copied().unwrap_or(0)
    }

    /// Writes the code of a thread's synchronous message. The thread's semaphore and statuses stay.
    pub fn signal_sync(&mut self, t: ThreadNo, code: i32)
        requires { t.0 < length self.old.signals }
        ensures { self.new ≡ after_reply self.old t code }
    {
        self.replies[t.0 as usize] = code;
    }

    /// The code of a thread's last synchronous message, 0 at first.
    pub fn sync_value(&self, t: ThreadNo) -> i32
        ensures { result ≡ reply_of self.now t }
    {
        self.replies.get(t.0 as usize).copied().unwrap_or(0)
    }
}

/// The statuses of so many threads, each 0.
fn new_statuses(alloc: Global, threads: u16) -> Result<Vec<[i32; STATUSES]>, NoMemory>
    ensures { IfOk result (λ statuses. statuses.items ≡ replicate threads (replicate 16 (pos 0))) }
{
    let mut statuses = Vec::with_capacity(alloc, threads as usize)?;
    for _ in 0..threads {
        statuses.push([0; STATUSES])?;
    }
    Ok(statuses)
}
