//! A sink over a writer of the standard library.
ghost use Rattle.std.specs.Prelude.{◌≡◌, ◌<◌, ◌≤◌, length, IfOk, OnOk, OnErr};
ghost use Rattle.std.specs.Io.KnownBytes.{WriteAppends};
ghost use Rattle.edge_io.specs.Calls.{next_fault};

use crate::{Failed, Sink};
use std::io::Write;
use std::marker::Model;

/// A sink over a standard writer, to which each write goes at once. It tells nothing of the bytes. A
/// contract sees the writer and the count of faults. It takes no memory.
#[derive(Drop)]
pub struct StdSink<W> {
    output: W,
    faults: u64,
}

impl<W> Model for StdSink<W> {
    ghost use Rattle.edge_io.specs.Adapted.{Adapted};

    ghost Value = { Adapted W };

    ghost view = { λ a. record { inner = a.output; faults = a.faults } };
}

impl<W: Write> StdSink<W> {
    /// A sink over this writer, with no fault yet.
    pub fn new(output: W) -> Self
        ensures { result ≡ record { inner = output; faults = 0 } }
    {
        StdSink { output, faults: 0 }
    }
}

impl<W: Write> Sink for StdSink<W> {
    ghost use Rattle.std.specs.Prelude.{None};

    ghost written = { λ _. None };

    ghost faults = { λ a. a.faults };

    /// The count rises where the writer fails, or takes none of a piece with bytes, and only there.
    fn write(&mut self, piece: &[u8]) -> Result<usize, Failed>
        ensures stays { OnOk result (self.new.faults ≡ self.old.faults) }
        ensures rises { OnErr result (self.new.faults ≡ next_fault self.old.faults) }

        // What the writer tells of its bytes stays true.
        ensures bytes { WriteAppends (W.contents self.old.inner) (W.contents self.new.inner) result piece.now }

        // What each sink promises and isn't said by these.
        ensures count { IfOk result (λ n. n ≤ length piece.now) }
        ensures some { 0 < length piece.now → IfOk result (λ n. 0 < n) }
        ensures never_falls { self.old.faults ≤ self.new.faults }
    {
        match self.output.write(piece) {
            Ok(count) if count > 0 || piece.is_empty() => Ok(count),
            _ => {
                self.faults = self.faults.saturating_add(1);
                Err(Failed)
            }
        }
    }
}
