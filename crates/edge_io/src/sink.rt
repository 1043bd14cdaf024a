//! Where bytes go.
ghost use Rattle.std.specs.Prelude.{◌≡◌, ℕ, ◌<◌, ◌≤◌, List, Option, length, take, is_some, IfOk, OnOk, OnErr};
ghost use Rattle.edge_io.specs.Faults.{Rose};
ghost use Rattle.edge_io.specs.Written.{Wrote, WrotePrefix};

use crate::Failed;

/// A sink of bytes.
pub trait Sink {
    /// The bytes written so far, where the sink tells them.
    ghost written: { Self → Option (List ℕ) };

    /// How often a write failed. It never falls, and stands still at 2^64 - 1.
    ghost faults: { Self → ℕ };

    /// Takes bytes from the start of the piece and answers how many: at least one of a piece that
    /// has any. `Failed` takes none.
    fn write(&mut self, piece: &[u8]) -> Result<usize, Failed>
        ensures count { IfOk result (λ n. n ≤ length piece.now) }
        ensures some { 0 < length piece.now → IfOk result (λ n. 0 < n) }
        ensures moved { IfOk result (λ n. Wrote (written self.old) (written self.new) (take n piece.now)) }
        ensures failed { OnErr result (written self.new ≡ written self.old) }
        ensures tells { is_some (written self.new) ≡ is_some (written self.old) }
        ensures fault { OnErr result (Rose (faults self.old) (faults self.new)) }
        ensures never_falls { faults self.old ≤ faults self.new };
}

/// Writes the whole piece, by as many writes as it takes, and takes no memory. After `Failed` a
/// prefix of it was written.
pub fn write_whole<K: Sink>(sink: &mut K, piece: &[u8]) -> Result<(), Failed>
    ensures whole { OnOk result (Wrote (K.written sink.old) (K.written sink.new) piece.now) }
    ensures front { OnErr result (WrotePrefix (K.written sink.old) (K.written sink.new) piece.now) }
    ensures tells { is_some (K.written sink.new) ≡ is_some (K.written sink.old) }
    ensures fault { OnErr result (Rose (K.faults sink.old) (K.faults sink.new)) }
    ensures never_falls { K.faults sink.old ≤ K.faults sink.new }
{
    let mut done = 0;
    while done < piece.len() {
        done += sink.write(&piece[done..])?;
    }
    Ok(())
}
