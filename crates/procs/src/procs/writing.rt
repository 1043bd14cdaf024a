//! Writing the row of a thread, field by field.
ghost use Rattle.std.specs.Prelude.{◌≡◌, ◌+◌, ◌<◌, IsTrue, None, slice_set};
ghost use Rattle.procs.specs.Rows.{is_thread, row_of, with_row};

use crate::Procs;
use entry_log::Part;
use state_rows::{Stage, Waiting};
use sym_base::{Exit, ObjNo, ThreadNo};

impl Procs {
    /// Sets a thread's reference to its process, or that it is given up, and changes nothing else.
    pub fn set_link(&mut self, t: ThreadNo, to: Option<ObjNo>)
        requires { IsTrue (is_thread self.old t) }
        ensures { self.new ≡ with_row self.old t (record (row_of self.old t) { link = to }) }
    {
        if let Some(row) = &mut self.threads[t.0 as usize] {
            row.link = to;
        }
    }

    /// Sets how far the death of a thread is, and changes nothing else.
    pub fn set_stage(&mut self, t: ThreadNo, to: Stage)
        requires { IsTrue (is_thread self.old t) }
        ensures { self.new ≡ with_row self.old t (record (row_of self.old t) { stage = to }) }
    {
        if let Some(row) = &mut self.threads[t.0 as usize] {
            row.stage = to;
        }
    }

    /// Sets the priority of a thread, and changes nothing else.
    pub fn set_priority(&mut self, t: ThreadNo, to: u8)
        requires { IsTrue (is_thread self.old t) }
        ensures { self.new ≡ with_row self.old t (record (row_of self.old t) { priority = to }) }
    {
        if let Some(row) = &mut self.threads[t.0 as usize] {
            row.priority = to;
        }
    }

    /// Sets what a thread waits for, and changes nothing else.
    pub fn set_waiting(&mut self, t: ThreadNo, to: Waiting)
        requires { IsTrue (is_thread self.old t) }
        ensures { self.new ≡ with_row self.old t (record (row_of self.old t) { waiting = to }) }
    {
        if let Some(row) = &mut self.threads[t.0 as usize] {
            row.waiting = to;
        }
    }

    /// Sets the exit of a thread, or that it has none, and changes nothing else.
    pub fn set_exit(&mut self, t: ThreadNo, to: Option<Exit>)
        requires { IsTrue (is_thread self.old t) }
        ensures { self.new ≡ with_row self.old t (record (row_of self.old t) { exit = to }) }
    {
        if let Some(row) = &mut self.threads[t.0 as usize] {
            row.exit = to;
        }
    }

    /// Notes an exit of a thread, or that there is none, and changes nothing else.
    pub fn set_noted(&mut self, t: ThreadNo, to: Option<Exit>)
        requires { IsTrue (is_thread self.old t) }
        ensures { self.new ≡ with_row self.old t (record (row_of self.old t) { noted = to }) }
    {
        if let Some(row) = &mut self.threads[t.0 as usize] {
            row.noted = to;
        }
    }

    /// Sets the number of instructions that are behind a thread, and changes nothing else.
    pub fn set_place(&mut self, t: ThreadNo, to: u32)
        requires { IsTrue (is_thread self.old t) }
        ensures { self.new ≡ with_row self.old t (record (row_of self.old t) { next_instruction = to }) }
    {
        if let Some(row) = &mut self.threads[t.0 as usize] {
            row.next_instruction = to;
        }
    }

    /// A thread goes on to its next instruction, of which nothing is found and used yet, and changes nothing else.
    pub fn advance(&mut self, t: ThreadNo)
        requires thread { IsTrue (is_thread self.old t) }
        requires place { (row_of self.old t).next_instruction < 4294967295 }
        ensures { self.new ≡ with_row self.old t (record (row_of self.old t) { next_instruction = (row_of self.old t).next_instruction + 1; part = None; found = 0; uses = None }) }
    {
        if let Some(row) = &mut self.threads[t.0 as usize] {
            row.next_instruction += 1;
            row.part = None;
            row.found = 0;
            row.uses = None;
        }
    }

    /// Sets the next step of a thread's present instruction, or that its first is to come, and changes nothing else.
    pub fn set_part(&mut self, t: ThreadNo, to: Option<Part>)
        requires { IsTrue (is_thread self.old t) }
        ensures { self.new ≡ with_row self.old t (record (row_of self.old t) { part = to }) }
    {
        if let Some(row) = &mut self.threads[t.0 as usize] {
            row.part = to;
        }
    }

    /// Sets the handle or the number of bytes that the steps of a thread's present instruction found, and changes nothing else.
    pub fn set_found(&mut self, t: ThreadNo, to: u32)
        requires { IsTrue (is_thread self.old t) }
        ensures { self.new ≡ with_row self.old t (record (row_of self.old t) { found = to }) }
    {
        if let Some(row) = &mut self.threads[t.0 as usize] {
            row.found = to;
        }
    }

    /// Sets the object that a thread's find found, and its place, and changes nothing else.
    pub fn set_sought(&mut self, t: ThreadNo, object: ObjNo, place: u64)
        requires { IsTrue (is_thread self.old t) }
        ensures { self.new ≡ with_row self.old t (record (row_of self.old t) { sought = object; sought_place = place }) }
    {
        if let Some(row) = &mut self.threads[t.0 as usize] {
            row.sought = object;
            row.sought_place = place;
        }
    }

    /// Sets the object that a thread's present instruction uses, or that it uses none, and changes nothing else.
    pub fn set_uses(&mut self, t: ThreadNo, to: Option<ObjNo>)
        requires { IsTrue (is_thread self.old t) }
        ensures { self.new ≡ with_row self.old t (record (row_of self.old t) { uses = to }) }
    {
        if let Some(row) = &mut self.threads[t.0 as usize] {
            row.uses = to;
        }
    }

    /// Sets a register r0 to r7 of a thread, and changes nothing else.
    pub fn set_register(&mut self, t: ThreadNo, x: u8, to: u32)
        requires thread { IsTrue (is_thread self.old t) }
        requires register { x < 8 }
        ensures { self.new ≡ with_row self.old t (record (row_of self.old t) { registers = slice_set (row_of self.old t).registers x to }) }
    {
        if let Some(row) = &mut self.threads[t.0 as usize] {
            row.registers[x as usize] = to;
        }
    }

    /// Sets a message number m0 to m7 of a thread, and changes nothing else.
    pub fn set_message(&mut self, t: ThreadNo, x: u8, to: u32)
        requires thread { IsTrue (is_thread self.old t) }
        requires message { x < 8 }
        ensures { self.new ≡ with_row self.old t (record (row_of self.old t) { messages = slice_set (row_of self.old t).messages x to }) }
    {
        if let Some(row) = &mut self.threads[t.0 as usize] {
            row.messages[x as usize] = to;
        }
    }
}
