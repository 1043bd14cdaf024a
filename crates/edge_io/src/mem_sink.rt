//! A sink in memory.
ghost use Rattle.std.specs.Prelude.{◌≡◌, ◌<◌, ◌≤◌, ◌||◌, [], length, take, is_err, IfOk, OnErr, Some};
ghost use Rattle.edge_io.specs.Calls.{is_failing};
ghost use Rattle.edge_io.specs.MemSink.{is_full, amount_taken, after_write, after_failed_write};

use crate::{Failed, Sink};
use std::alloc::{AllocError, Global};
use std::marker::Model;

/// A sink in memory, with room for so many bytes. It takes a few bytes a call, and fails at the calls
/// that its maker names, and where its room is full. A contract sees what was written and what decides
/// the next call.
#[derive(Drop)]
pub struct MemSink {
    bytes: Vec<u8>,
    room: usize,
    step: usize,
    calls: u32,
    fails: Vec<u32>,
    faults: u64,
}

impl Model for MemSink {
    ghost use Rattle.edge_io.specs.MemSink.{Store};
    ghost use Rattle.std.specs.Prelude.{◌≤◌, ◌<◌, length};
    ghost use Rattle.std.specs.Vec.{vec_capacity};

    ghost Value = { Store };

    ghost view = { λ a. record { written = a.bytes.items; room = a.room; step = a.step; calls = a.calls; fails = a.fails.items; faults = a.faults } };

    ghost invariant = { λ a. (length a.bytes.items ≤ a.room) × (a.room ≤ vec_capacity a.bytes) × (0 < a.step) };
}

impl MemSink {
    /// A sink with room for `room` bytes, whose memory it takes here, that takes at most `step` bytes a
    /// call. The calls whose numbers, from 1, stand in `fails` fail.
    pub fn new(alloc: Global, room: usize, step: usize, fails: Vec<u32>) -> Result<Self, AllocError>
        requires { 0 < step }
        ensures { IfOk result (λ sink. sink ≡ record { written = []; room = room; step = step; calls = 0; fails = fails.items; faults = 0 }) }
    {
        Ok(MemSink {
            bytes: Vec::with_capacity(alloc, room)?,
            room,
            step,
            calls: 0,
            fails,
            faults: 0,
        })
    }

    /// What was written.
    pub fn bytes(&self) -> &[u8]
        ensures { result.now ≡ self.now.written }
    {
        self.bytes.as_slice()
    }
}

impl Sink for MemSink {
    ghost written = { λ a. Some a.written };

    ghost faults = { λ a. a.faults };

    /// Fails exactly where the call's number is named, or where the room is full and the piece has
    /// bytes. Else it takes as many bytes as the piece, the step and the room left allow. The count of
    /// calls stands still at 2^32 - 1.
    fn write(&mut self, piece: &[u8]) -> Result<usize, Failed>
        ensures fails { is_err result ≡ (is_failing self.old.fails self.old.calls || is_full self.old piece.now) }
        ensures amount { IfOk result (λ n. n ≡ amount_taken self.old piece.now) }
        ensures after { IfOk result (λ n. self.new ≡ after_write self.old (take n piece.now)) }
        ensures after_failed { OnErr result (self.new ≡ after_failed_write self.old) }

        // The rest of what each sink promises follows. These two rest on a step above 0 and on a
        // count that is a u64.
        ensures some { 0 < length piece.now → IfOk result (λ n. 0 < n) }
        ensures never_falls { self.old.faults ≤ self.new.faults }
    {
        self.calls = self.calls.saturating_add(1);
        let room = self.room - self.bytes.len();
        if self.fails.contains(&self.calls) || (room == 0 && !piece.is_empty()) {
            self.faults = self.faults.saturating_add(1);
            return Err(Failed);
        }
        let count = self.step.min(piece.len()).min(room);
        self.bytes.extend_from_slice(&piece[..count]).unwrap();
        Ok(count)
    }
}
