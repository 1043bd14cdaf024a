//! The table of threads and processes, and its calls.
ghost use Rattle.std.specs.Prelude.{◌≡◌, ◌+◌, ◌<◌, ◌≤◌, IsTrue, IfOk, is_some, length, option_copied, replicate, slice_index, slice_index_or, slice_set, None};
ghost use Rattle.procs.specs.Rows.{no_rows, is_thread, is_process, IsFresh, row_of, bytes_of, byte_at, filled, with_row, with_process, no_bytes};
ghost use Rattle.state_rows.specs.ThreadRows.{new_thread};

mod reading;
mod writing;

use state_rows::{MEMORY, ThreadRow};
use std::alloc::Global;
use std::marker::Model;
use sym_base::{Items, NoMemory, ObjNo, ThreadNo};

/// What the kernel keeps of its threads and processes (Symbian OS Internals, the chapter on threads and processes), by
/// object number. A contract sees the row of each thread and the bytes of each process.
#[derive(Drop)]
pub struct Procs {
    threads: Vec<Option<ThreadRow>>,
    processes: Vec<Option<Items<u8>>>,
    /// Zero bytes for the processes to come.
    spare: Vec<Items<u8>>,
}

impl Model for Procs {
    ghost use Rattle.procs.specs.ProcsRows.{ProcsRows};

    ghost Value = { ProcsRows };

    ghost use Rattle.procs.specs.Kept.{AreKept};

    ghost view = { λ a. record { threads = a.threads.items; processes = a.processes.items } };

    ghost invariant = { λ a. AreKept a.threads.items a.processes.items a.spare.items };
}

impl Procs {
    /// A table for the threads and processes of the numbers below `objects`, of which none is added. It takes all the
    /// memory that the table ever needs: 1,024 bytes and two rows for each number.
    pub fn new(alloc: Global, objects: u16) -> Result<Procs, NoMemory>
        ensures { IfOk result (λ procs. procs ≡ no_rows objects) }
    {
        let objects = objects as usize;
        Ok(Procs {
            threads: no_rows(alloc, objects)?,
            processes: no_rows(alloc, objects)?,
            spare: zero_memories(alloc, objects)?,
        })
    }

    /// Adds a process, whose bytes are 0.
    pub fn add_process(&mut self, p: ObjNo)
        requires { IsFresh self.old p }
        ensures { self.new ≡ with_process self.old p no_bytes }
    {
        self.processes[p.0 as usize] = self.spare.pop();
    }

    /// Adds a thread of a process. It is live, with priority 0, and waits for nothing; it has no reference to its process,
    /// no exit and no noted exit, and 0 in its place, what its steps found, and each register. Its role is set afterwards.
    pub fn add_thread(&mut self, t: ThreadNo, process: ObjNo)
        requires { IsFresh self.old t }
        ensures { self.new ≡ with_row self.old t (new_thread process) }
    {
        self.threads[t.0 as usize] = Some(ThreadRow::new(process));
    }

    /// Adds a thread with a row.
    pub fn add_row(&mut self, t: ThreadNo, row: ThreadRow)
        requires { IsFresh self.old t }
        ensures { self.new ≡ with_row self.old t row }
    {
        self.threads[t.0 as usize] = Some(row);
    }

    /// The row of a thread that was added.
    pub fn row(&self, t: ThreadNo) -> &ThreadRow
        requires { IsTrue (is_thread self.now t) }
        ensures { result.now ≡ row_of self.now t }
    {
        match &self.threads[t.0 as usize] {
            Some(row) => row,
            None => unreachable!(),
        }
    }

    /// The row of a thread. None exactly where no thread of the number was added.
    pub fn thread(&self, t: ThreadNo) -> Option<&ThreadRow>
        ensures { option_copied result ≡ slice_index_or self.now.threads t.0 None }
    {
        let at = t.0 as usize;
        if at < self.threads.len() {
            self.threads[at].as_ref()
        } else {
            None
        }
    }

    /// The rows of all threads, by number: none where no thread of the number was added.
    pub fn threads(&self) -> &[Option<ThreadRow>]
        ensures rows { result.now ≡ self.now.threads }
        ensures few { length result.now ≤ 65535 }
    {
        &self.threads
    }

    /// Removes the row of a thread. Where no thread of the number was added nothing changes.
    pub fn remove_thread(&mut self, t: ThreadNo)
        ensures { self.new ≡ record self.old { threads = slice_set self.old.threads t.0 None } }
    {
        let at = t.0 as usize;
        if at < self.threads.len() {
            self.threads[at] = None;
        }
    }

    /// Whether a thread of the number was added.
    pub fn is_thread(&self, t: ThreadNo) -> bool
        ensures { result ≡ is_thread self.now t }
    {
        let at = t.0 as usize;
        at < self.threads.len() && self.threads[at].is_some()
    }

    /// Whether a process of the number was added.
    pub fn is_process(&self, p: ObjNo) -> bool
        ensures { result ≡ is_process self.now p }
    {
        let at = p.0 as usize;
        at < self.processes.len() && self.processes[at].is_some()
    }

    /// A byte of a process's memory.
    pub fn byte(&self, p: ObjNo, at: u16) -> u8
        requires process { IsTrue (is_process self.now p) }
        requires inside { at < 1024 }
        ensures { result ≡ slice_index (bytes_of self.now p) at }
    {
        match &self.processes[p.0 as usize] {
            Some(bytes) => bytes.get(at as usize),
            None => unreachable!(),
        }
    }

    /// A byte of a process's memory, 0 where no process of the number was added or the byte is past the memory's end.
    pub fn byte_at(&self, p: ObjNo, at: u16) -> u8
        ensures { result ≡ byte_at self.now p at }
    {
        let (process, at) = (p.0 as usize, at as usize);
        if process >= self.processes.len() {
            return 0;
        }
        match &self.processes[process] {
            Some(bytes) if at < bytes.len() => bytes.get(at),
            _ => 0,
        }
    }

    /// Sets a byte of a process's memory, and changes nothing else.
    pub fn set_byte(&mut self, p: ObjNo, at: u16, to: u8)
        requires process { IsTrue (is_process self.old p) }
        requires inside { at < 1024 }
        ensures after { self.new ≡ with_process self.old p (slice_set (bytes_of self.old p) at to) }
        ensures size { length (bytes_of self.old p) ≡ 1024 }
    {
        if let Some(bytes) = &mut self.processes[p.0 as usize] {
            bytes.set(at as usize, to);
        }
    }

    /// Sets bytes of a process's memory, from an offset on, to one value, and changes nothing else.
    pub fn fill(&mut self, p: ObjNo, at: u16, length: u16, to: u8)
        requires process { IsTrue (is_process self.old p) }
        requires inside { at + length ≤ 1024 }
        ensures { self.new ≡ with_process self.old p (filled at length to (bytes_of self.old p)) }
    {
        if let Some(bytes) = &mut self.processes[p.0 as usize] {
            bytes.fill(at as usize, length as usize, to);
        }
    }
}

/// As many places without a row.
fn no_rows<T>(alloc: Global, count: usize) -> Result<Vec<Option<T>>, NoMemory>
    ensures { IfOk result (λ rows. rows.items ≡ replicate count None) }
{
    let mut rows = Vec::with_capacity(alloc, count)?;
    for _ in 0..count {
        rows.push_reserved(None);
    }
    Ok(rows)
}

/// Memories of 1,024 zero bytes each.
fn zero_memories(alloc: Global, count: usize) -> Result<Vec<Items<u8>>, NoMemory>
    ensures { IfOk result (λ memories. memories.items ≡ replicate count no_bytes) }
{
    let mut memories = Vec::with_capacity(alloc, count)?;
    for _ in 0..count {
        memories.push_reserved(Items::new(vec![in alloc; 0; MEMORY]?));
    }
    Ok(memories)
}
