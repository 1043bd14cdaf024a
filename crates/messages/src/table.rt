//! The table of messages, and its calls.
ghost use Rattle.std.specs.Prelude.{◌≡◌, ℕ, ◌+◌, ◌<◌, ◌≤◌, ◌↔◌, [], ◌∷◌, ◌++◌, length, count_by, slice_get, map, IsNone, IsSome, IfOk, IfSome, Some, false};
ghost use Rattle.state_rows.specs.declared.messages.MessageRows.{MessageRows};
ghost use Rattle.state_rows.specs.MessageRows.{most_messages, message_of, IsOutstanding, row_of, is_taken, messages_at, untaken_at, used_slots, all_slots, is_full, takes_slot};
ghost use Rattle.state_rows.specs.MessageChanges.{no_messages, new_row, added, next_number, next_of, number_of, after_take, after_finish, HasRoomAt, after_set_length};
ghost use Rattle.messages.specs.Calls.{accept_answer, after_accept, finished_of};
ghost use Rattle.links.specs.Linked.{unlinked};

use crate::answers::{Accepted, Finished, finished_of, with_length};
use crate::records::{Records, Stored};
use links::Links;
use state_rows::{Message, MsgRow, Way};
use std::alloc::Global;
use std::marker::Model;
use sym_base::{Arg, MsgNo, NoMemory, ObjNo, Slots, ThreadNo};

/// The messages between clients and servers (Symbian OS Internals, the chapter on inter-process
/// communication): who sent each one to whom, what it asks for, and whether its server took it. A message is
/// outstanding from when it is accepted until it is finished. The numbers, when a sender is told that the
/// server is busy, and that the slots are counted so, are this project's own. A contract sees the
/// outstanding messages in order of acceptance.
///
/// No call but `new` takes memory.
#[derive(Drop)]
pub struct Messages {
    objects: u16,
    pool: u8,
    accepted: u32,
    records: Records,
    outstanding: Links,
    untaken: Links,
}

impl Model for Messages {
    ghost use Rattle.state_rows.specs.declared.messages.MessageRows.{MessageRows};
    ghost use Rattle.messages.specs.Queued.{AreMessages, rows_of};

    ghost Value = { MessageRows };

    ghost view = { λ a. rows_of a.pool a.accepted a.records a.outstanding };

    ghost invariant = { λ a. AreMessages a.objects a.accepted a.records a.outstanding a.untaken };
}

impl Messages {
    /// No messages yet, at servers that are objects below a number, with so many slots in the kernel's pool.
    /// It takes all the memory that 5,184 messages ever need.
    pub fn new(alloc: Global, objects: u16, pool: u8) -> Result<Messages, NoMemory>
        ensures { IfOk result (λ table. table ≡ no_messages objects pool) }
    {
        let records = Records::new(alloc)?;
        let outstanding = Links::new(alloc, records.key_count(), objects as u32)?;
        let untaken = Links::new(alloc, records.key_count(), objects as u32)?;
        Ok(Messages {
            objects,
            pool,
            accepted: 0,
            records,
            outstanding,
            untaken,
        })
    }

    /// Accepts a message of a session at a server, under the next number, or turns it away: Busy exactly
    /// where it is sent without waiting and the used slots that its session may use equal all of them.
    /// Both are told then, and nothing changes. Fewer than 5,184 messages are outstanding before, and fewer
    /// than 4,294,967,295 were accepted: a kernel has no more.
    pub fn accept(
        &mut self,
        s: ObjNo,
        server: ObjNo,
        client: ThreadNo,
        slots: Slots,
        function: i32,
        args: [Arg; 4],
        way: Way,
    ) -> Accepted
        requires server { server.0 < self.old.objects }
        requires room { length self.old.outstanding < most_messages }
        requires number { self.old.accepted < 4294967295 }
        ensures answer { result ≡ accept_answer self.old slots (new_row s server client function args way) }
        ensures accepted { self.new ≡ after_accept self.old slots (new_row s server client function args way) }
    {
        if way.is_async() && self.is_full(s, slots) {
            return Accepted::Busy {
                used: self.records.used(s, slots),
                slots: self.all_slots(slots),
            };
        }
        let row = MsgRow {
            session: s,
            server,
            client,
            function,
            args,
            way,
            taken: false,
        };
        Accepted::Message(self.add(slots, row))
    }

    /// Takes the next message of a server, which is the first that it hasn't taken. None exactly where no
    /// message of the server is untaken.
    pub fn take_next(&mut self, server: ObjNo) -> Option<MsgNo>
        requires { server.0 < self.old.objects }
        ensures first { result ≡ next_of self.old server }
        ensures none { IsNone result ↔ (untaken_at self.old server ≡ []) }
        ensures taken { self.new ≡ after_take self.old server }
    {
        let key = self.untaken.first(server.0 as u32)?;
        self.untaken.unlink(key);
        let message = self.records.message(key);
        let mut row = message.row;
        row.taken = true;
        self.records.set_row(key, row);
        Some(message.number)
    }

    /// The first message of a server in order of acceptance, taken or not. None exactly where none of its
    /// messages is outstanding.
    pub fn first_of(&self, server: ObjNo) -> Option<MsgNo>
        ensures first { result ≡ number_of (slice_get (messages_at self.now server) 0) }
        ensures none { IsNone result ↔ (messages_at self.now server ≡ []) }
    {
        if server.0 >= self.objects {
            return None;
        }
        let key = self.outstanding.first(server.0 as u32)?;
        Some(self.records.message(key).number)
    }

    /// The message that a server takes next, which is the first that it hasn't taken. None exactly where no
    /// message of the server is untaken.
    pub fn next_untaken(&self, server: ObjNo) -> Option<MsgNo>
        ensures next { result ≡ next_of self.now server }
        ensures given { IfSome result (λ m. m.0 ≤ self.now.accepted) }
    {
        if server.0 >= self.objects {
            return None;
        }
        let next = self.untaken.first(server.0 as u32)?;
        Some(self.records.message(next).number)
    }

    /// The greatest number of a message so far, 0 where none was accepted.
    pub fn accepted(&self) -> u32
        ensures { result ≡ self.now.accepted }
    {
        self.accepted
    }

    /// The message of a number. None exactly where it isn't outstanding.
    pub fn message(&self, m: MsgNo) -> Option<Message>
        ensures { result ≡ message_of self.now m }
    {
        let stored = self.records.find(m)?;
        Some(stored.message)
    }

    /// Whether a message is outstanding and was taken.
    pub fn taken(&self, m: MsgNo) -> bool
        ensures { result ≡ is_taken self.now m }
    {
        match self.row(m) {
            Some(row) => row.taken,
            None => false,
        }
    }

    /// Finishes an outstanding message: it is no more, and its slot is free. Tells whom it concerns.
    pub fn finish(&mut self, m: MsgNo) -> Finished
        requires { IsOutstanding self.old m }
        ensures finished { IfSome (message_of self.old m) (λ message. result ≡ finished_of message) }
        ensures gone { self.new ≡ after_finish self.old m }
    {
        let Some(Stored { key, message }) = self.records.find(m) else {
            unreachable!();
        };
        leave(&mut self.outstanding, key);
        leave(&mut self.untaken, key);
        self.records.remove(m);
        finished_of(&message)
    }

    /// The row of a message. None exactly where it isn't outstanding.
    pub fn row(&self, m: MsgNo) -> Option<MsgRow>
        ensures { result ≡ row_of self.now m }
    {
        let stored = self.records.find(m)?;
        Some(stored.message.row)
    }

    /// Whether all the slots that a session may use are used.
    pub fn is_full(&self, s: ObjNo, slots: Slots) -> bool
        ensures { result ≡ is_full self.now s slots }
    {
        self.records.used(s, slots) == self.all_slots(slots)
    }

    /// Sets the length of an argument of an outstanding message, which is a descriptor with room for it, and
    /// changes nothing else. `arg` is 0 to 3, and the length is in bytes.
    pub fn set_length(&mut self, m: MsgNo, arg: u8, length: u16)
        requires outstanding { IsOutstanding self.old m }
        requires arg { arg < 4 }
        requires room { IfSome (message_of self.old m) (HasRoomAt arg length) }
        ensures { self.new ≡ after_set_length self.old m arg length }
    {
        let Some(Stored { key, message }) = self.records.find(m) else {
            unreachable!();
        };
        let mut row = message.row;
        row.args[arg as usize] = with_length(row.args[arg as usize], length);
        self.records.set_row(key, row);
    }

    /// How many slots a session may use.
    fn all_slots(&self, slots: Slots) -> u32
        ensures { result ≡ all_slots self.now.pool slots }
    {
        match slots {
            Slots::Own(slots) => slots as u32,
            Slots::Pool => self.pool as u32,
        }
    }

    /// Accepts a message under the next number.
    fn add(&mut self, slots: Slots, row: MsgRow) -> MsgNo
        requires server { row.server.0 < self.old.objects }
        requires untaken { row.taken ≡ false }
        requires room { length self.old.outstanding < most_messages }
        requires number { self.old.accepted < 4294967295 }
        ensures number { result ≡ next_number self.old }
        ensures added { self.new ≡ added self.old slots row }
    {
        let number = MsgNo(self.accepted + 1);
        let key = self.records.add(Message { number, slots, row });
        self.accepted = number.0;
        self.outstanding.push_back(row.server.0 as u32, key);
        self.untaken.push_back(row.server.0 as u32, key);
        number
    }
}

/// Takes a node off its list, where it is on one.
fn leave(queue: &mut Links, node: u32)
    requires { node < queue.old.nodes }
    ensures { queue.new ≡ unlinked queue.old node }
{
    if queue.is_linked(node) {
        queue.unlink(node);
    }
}
