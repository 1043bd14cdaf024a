//! A source over a reader of the standard library.
ghost use Rattle.std.specs.Prelude.{◌≡◌, ◌≤◌, length, IfOk, OnOk, OnErr};
ghost use Rattle.std.specs.Io.KnownBytes.{ReadConsumes};
ghost use Rattle.edge_io.specs.Calls.{next_fault};

use crate::{Failed, Source};
use std::io::Read;
use std::marker::Model;

/// A source over a standard reader. It tells nothing of the bytes. A contract sees the reader
/// and the count of faults. It takes no memory.
#[derive(Drop)]
pub struct StdSource<R> {
    input: R,
    faults: u64,
}

impl<R> Model for StdSource<R> {
    ghost use Rattle.edge_io.specs.Adapted.{Adapted};

    ghost Value = { Adapted R };

    ghost view = { λ a. record { inner = a.input; faults = a.faults } };
}

impl<R: Read> StdSource<R> {
    /// A source over this reader, with no fault yet.
    pub fn new(input: R) -> Self
        ensures { result ≡ record { inner = input; faults = 0 } }
    {
        StdSource { input, faults: 0 }
    }
}

impl<R: Read> Source for StdSource<R> {
    ghost use Rattle.std.specs.Prelude.{None};

    ghost left = { λ _. None };

    ghost faults = { λ a. a.faults };

    /// The count rises where the reader fails, and only there.
    fn read(&mut self, buf: &mut [u8]) -> Result<usize, Failed>
        ensures stays { OnOk result (self.new.faults ≡ self.old.faults) }
        ensures rises { OnErr result (self.new.faults ≡ next_fault self.old.faults) }

        // What the reader tells of its bytes stays true.
        ensures bytes { ReadConsumes (R.remaining self.old.inner) (R.remaining self.new.inner) result buf.new }

        // What each source promises and isn't said by these.
        ensures count { IfOk result (λ n. n ≤ length buf.new) }
        ensures never_falls { self.old.faults ≤ self.new.faults }
    {
        match self.input.read(buf) {
            Ok(count) => Ok(count),
            Err(_) => {
                self.faults = self.faults.saturating_add(1);
                Err(Failed)
            }
        }
    }
}
