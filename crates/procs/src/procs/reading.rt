//! Reading the row of a thread, field by field.
ghost use Rattle.std.specs.Prelude.{◌≡◌, ◌<◌, ◌↔◌, IsTrue, IsNone, slice_index, None};
ghost use Rattle.procs.specs.Rows.{is_thread, row_of};

use crate::Procs;
use entry_log::Part;
use state_rows::{Stage, Waiting};
use sym_base::{Exit, ObjNo, ThreadNo};

impl Procs {
    /// The process of a thread.
    pub fn process_of(&self, t: ThreadNo) -> ObjNo
        requires { IsTrue (is_thread self.now t) }
        ensures { result ≡ (row_of self.now t).process }
    {
        self.row(t).process
    }

    /// A thread's reference to its process. None exactly where it is given up.
    pub fn link(&self, t: ThreadNo) -> Option<ObjNo>
        requires { IsTrue (is_thread self.now t) }
        ensures { result ≡ (row_of self.now t).link }
    {
        self.row(t).link
    }

    /// How far the death of a thread is.
    pub fn stage(&self, t: ThreadNo) -> Stage
        requires { IsTrue (is_thread self.now t) }
        ensures { result ≡ (row_of self.now t).stage }
    {
        self.row(t).stage
    }

    /// The priority of a thread.
    pub fn priority(&self, t: ThreadNo) -> u8
        requires { IsTrue (is_thread self.now t) }
        ensures { result ≡ (row_of self.now t).priority }
    {
        self.row(t).priority
    }

    /// What a thread waits for.
    pub fn waiting(&self, t: ThreadNo) -> Waiting
        requires { IsTrue (is_thread self.now t) }
        ensures { result ≡ (row_of self.now t).waiting }
    {
        self.row(t).waiting
    }

    /// The exit of a thread. None exactly where no exit is set.
    pub fn exit(&self, t: ThreadNo) -> Option<Exit>
        requires { IsTrue (is_thread self.now t) }
        ensures exit { result ≡ (row_of self.now t).exit }
        ensures none { IsNone result ↔ ((row_of self.now t).exit ≡ None) }
    {
        self.row(t).exit
    }

    /// The exit that was noted while a thread was protected. None exactly where none is noted.
    pub fn noted(&self, t: ThreadNo) -> Option<Exit>
        requires { IsTrue (is_thread self.now t) }
        ensures noted { result ≡ (row_of self.now t).noted }
        ensures none { IsNone result ↔ ((row_of self.now t).noted ≡ None) }
    {
        self.row(t).noted
    }

    /// The number of instructions that are behind a thread.
    pub fn place(&self, t: ThreadNo) -> u32
        requires { IsTrue (is_thread self.now t) }
        ensures { result ≡ (row_of self.now t).next_instruction }
    {
        self.row(t).next_instruction
    }

    /// The next step of a thread's present instruction. None exactly before the first.
    pub fn part(&self, t: ThreadNo) -> Option<Part>
        requires { IsTrue (is_thread self.now t) }
        ensures { result ≡ (row_of self.now t).part }
    {
        self.row(t).part
    }

    /// What the steps of a thread's present instruction found: a handle or a number of bytes.
    pub fn found(&self, t: ThreadNo) -> u32
        requires { IsTrue (is_thread self.now t) }
        ensures { result ≡ (row_of self.now t).found }
    {
        self.row(t).found
    }

    /// The object that a thread's present instruction uses. None exactly where it uses none.
    pub fn uses(&self, t: ThreadNo) -> Option<ObjNo>
        requires { IsTrue (is_thread self.now t) }
        ensures { result ≡ (row_of self.now t).uses }
    {
        self.row(t).uses
    }

    /// A register r0 to r7 of a thread, by its number.
    pub fn register(&self, t: ThreadNo, x: u8) -> u32
        requires thread { IsTrue (is_thread self.now t) }
        requires register { x < 8 }
        ensures { result ≡ slice_index (row_of self.now t).registers x }
    {
        self.row(t).registers[x as usize]
    }

    /// A message number m0 to m7 of a thread, by its number.
    pub fn message(&self, t: ThreadNo, x: u8) -> u32
        requires thread { IsTrue (is_thread self.now t) }
        requires message { x < 8 }
        ensures { result ≡ slice_index (row_of self.now t).messages x }
    {
        self.row(t).messages[x as usize]
    }
}
