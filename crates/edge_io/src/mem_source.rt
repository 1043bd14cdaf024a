//! A source in memory.
ghost use Rattle.std.specs.Prelude.{◌≡◌, ◌<◌, ◌≤◌, ◌↔◌, [], ◌++◌, length, take, drop, is_err, IfOk, OnErr, Some};
ghost use Rattle.edge_io.specs.Calls.{is_failing};
ghost use Rattle.edge_io.specs.MemSource.{amount_given, after_read, after_failed_read};

use crate::{Failed, Source};
use std::marker::Model;

/// A source over bytes in memory. It gives a few bytes a call, and fails at the calls that its maker
/// names. A contract sees what is left and what decides the next call.
#[derive(Drop)]
pub struct MemSource {
    bytes: Vec<u8>,
    at: usize,
    step: usize,
    calls: u32,
    fails: Vec<u32>,
    faults: u64,
}

impl Model for MemSource {
    ghost use Rattle.edge_io.specs.MemSource.{Supply};
    ghost use Rattle.std.specs.Prelude.{◌≤◌, drop, length, ◌<◌};

    ghost Value = { Supply };

    ghost view = { λ a. record { left = drop a.at a.bytes.items; step = a.step; calls = a.calls; fails = a.fails.items; faults = a.faults } };

    ghost invariant = { λ a. (a.at ≤ length a.bytes.items) × (0 < a.step) };
}

impl MemSource {
    /// A source of these bytes, at most `step` of them a call. The calls whose numbers, from 1, stand
    /// in `fails` fail.
    pub fn new(bytes: Vec<u8>, step: usize, fails: Vec<u32>) -> Self
        requires { 0 < step }
        ensures { result ≡ record { left = bytes.items; step = step; calls = 0; fails = fails.items; faults = 0 } }
    {
        MemSource {
            bytes,
            at: 0,
            step,
            calls: 0,
            fails,
            faults: 0,
        }
    }
}

impl Source for MemSource {
    ghost left = { λ a. Some a.left };

    ghost faults = { λ a. a.faults };

    /// Fails exactly where the call's number is named. Else it gives as many bytes as the buffer, the
    /// step and what is left allow. The count of calls stands still at 2^32 - 1.
    fn read(&mut self, buf: &mut [u8]) -> Result<usize, Failed>
        ensures fails { is_err result ≡ is_failing self.old.fails self.old.calls }
        ensures amount { IfOk result (λ n. n ≡ amount_given self.old (length buf.old)) }
        ensures gave { IfOk result (λ n. buf.new ≡ take n self.old.left ++ drop n buf.old) }
        ensures after { IfOk result (λ n. self.new ≡ after_read self.old n) }
        ensures after_failed { OnErr result (self.new ≡ after_failed_read self.old) }
        ensures kept { OnErr result (buf.new ≡ buf.old) }

        // The rest of what each source promises follows. These two rest on a step above 0 and on a
        // count that is a u64.
        ensures end { 0 < length buf.new → IfOk result (λ n. (n ≡ 0) ↔ (self.old.left ≡ [])) }
        ensures never_falls { self.old.faults ≤ self.new.faults }
    {
        self.calls = self.calls.saturating_add(1);
        if self.fails.contains(&self.calls) {
            self.faults = self.faults.saturating_add(1);
            return Err(Failed);
        }
        let rest = &self.bytes[self.at..];
        let count = self.step.min(buf.len()).min(rest.len());
        buf[..count].copy_from_slice(&rest[..count]);
        self.at += count;
        Ok(count)
    }
}
