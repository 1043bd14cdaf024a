//! The messages themselves, each under a key of its own.
ghost use Rattle.std.specs.Prelude.{◌≡◌, ◌≢◌, ◌<◌, All, [], ◌∷◌, ◌++◌, false, filter, map, not, count_by, length, slice_index, IsSome, IfOk, IfSome, IfNone};
ghost use Rattle.std.specs.List.{find};
ghost use Rattle.state_rows.specs.MessageRows.{most_messages, takes_slot};
ghost use Rattle.messages.specs.Kept.{IsRising, has_key, is_numbered, stored_under, with_row, IsUnder};

use slab::Slab;
use state_rows::{Message, MsgRow};
use std::alloc::Global;
use std::marker::Model;
use sym_base::{MsgNo, NoMemory, ObjNo, Slots};

/// How many messages may be outstanding at once: one for each of the 16 statuses of 64 threads, one for
/// each thread that waits, and the disconnect messages of 4,096 sessions.
const MOST_MESSAGES: usize = 5_184;

/// A message and the key that it is kept under.
#[derive(Clone, Copy)]
pub struct Stored {
    pub key: u32,
    pub message: Message,
}

/// The outstanding messages, each under a key that it has until it is finished. A contract sees them with
/// their keys, in order of acceptance.
#[derive(Drop)]
pub struct Records {
    /// The numbers of the messages, which rise.
    numbers: Vec<u32>,
    /// Beside each number the key of its message.
    keys: Vec<u32>,
    slab: Slab<Message>,
}

impl Model for Records {
    ghost use Rattle.std.specs.Prelude.{◌≤◌, vec_capacity};
    ghost use Rattle.state_rows.specs.MessageRows.{most_messages};
    ghost use Rattle.messages.specs.Kept.{Store, AreKept, store_of};

    ghost Value = { Store };

    ghost view = { λ a. store_of a.keys.items a.slab };

    ghost invariant = { λ a. AreKept a.numbers.items a.keys.items a.slab × (most_messages ≤ vec_capacity a.numbers) × (most_messages ≤ vec_capacity a.keys) × (most_messages ≤ a.slab.capacity) };
}

impl Records {
    /// No messages. It takes all the memory that they ever need.
    pub fn new(alloc: Global) -> Result<Records, NoMemory>
        ensures { IfOk result (λ records. records.stored ≡ []) }
    {
        let numbers = Vec::with_capacity(alloc, MOST_MESSAGES)?;
        let keys = Vec::with_capacity(alloc, MOST_MESSAGES)?;
        let slab = Slab::with_capacity(alloc, MOST_MESSAGES)?;
        if slab.capacity() > u32::MAX as usize {
            return Err(NoMemory);
        }
        Ok(Records {
            numbers,
            keys,
            slab,
        })
    }

    /// All keys are below this number.
    pub fn key_count(&self) -> u32
        ensures { result ≡ self.now.keys }
    {
        self.slab.capacity() as u32
    }

    /// Keeps a message behind the others, whose numbers are less, and answers its key.
    pub fn add(&mut self, message: Message) -> u32
        requires room { length self.old.stored < most_messages }
        requires later { All (λ one. one.message.number.0 < message.number.0) self.old.stored }
        ensures added { self.new ≡ record self.old { stored = self.old.stored ++ record { key = result; message = message } ∷ [] } }
        ensures fresh { All (λ one. has_key result one ≡ false) self.old.stored }
        ensures below { result < self.old.keys }
    {
        let key = self.slab.insert_reserved(message) as u32;
        self.numbers.push_reserved(message.number.0);
        self.keys.push_reserved(key);
        key
    }

    /// A message and its key. None exactly where no message has the number.
    pub fn find(&self, m: MsgNo) -> Option<Stored>
        ensures found { result ≡ find (is_numbered m) self.now.stored }
        ensures under { IfSome result (IsUnder self.now) }
    {
        let place = place_of(&self.numbers, m)?;
        let key = self.keys[place];
        Some(Stored {
            key,
            message: self.slab[key as usize],
        })
    }

    /// The message under a key.
    pub fn message(&self, key: u32) -> Message
        requires { IsSome (stored_under self.now key) }
        ensures { IsUnder self.now (record { key = key; message = result }) }
    {
        self.slab[key as usize]
    }

    /// Changes the row of a message.
    pub fn set_row(&mut self, key: u32, row: MsgRow)
        requires { IsSome (stored_under self.old key) }
        ensures { self.new ≡ record self.old { stored = map (with_row key row) self.old.stored } }
    {
        self.slab[key as usize].row = row;
    }

    /// Lets go of a message, whose key another may have then.
    pub fn remove(&mut self, m: MsgNo)
        ensures { self.new ≡ record self.old { stored = filter (λ one. not (is_numbered m one)) self.old.stored } }
    {
        let Some(place) = place_of(&self.numbers, m) else {
            return;
        };
        self.numbers.remove(place);
        let key = self.keys.remove(place);
        self.slab.remove(key as usize);
    }

    /// How many of the messages take one of the slots that a session may use.
    pub fn used(&self, s: ObjNo, slots: Slots) -> u32
        ensures { result ≡ count_by (λ one. takes_slot s slots one.message) self.now.stored }
    {
        let mut used = 0;
        for key in self.keys.iter() {
            if self.slab[*key as usize].takes_slot(s, slots) {
                used += 1;
            }
        }
        used
    }
}

/// The place of a number among numbers that rise.
fn place_of(numbers: &[u32], m: MsgNo) -> Option<usize>
    requires { IsRising numbers.now }
    ensures found { IfSome result (λ place. (place < length numbers.now) × (slice_index numbers.now place ≡ m.0)) }
    ensures absent { IfNone result (All (λ number. number ≢ m.0) numbers.now) }
{
    numbers.binary_search(&m.0).ok()
}
