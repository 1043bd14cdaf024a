//! Where bytes come from.
ghost use Rattle.std.specs.Prelude.{◌≡◌, ℕ, ◌<◌, ◌≤◌, ◌↔◌, List, [], Option, length, take, is_some, IfOk, IfSome, OnErr};
ghost use Rattle.edge_io.specs.Faults.{Rose};
ghost use Rattle.edge_io.specs.Left.{preceded};

use crate::Failed;

/// A source of bytes.
pub trait Source {
    /// The bytes still to come, where the source tells them.
    ghost left: { Self → Option (List ℕ) };

    /// How often a read failed. It never falls, and stands still at 2^64 - 1.
    ghost faults: { Self → ℕ };

    /// Moves bytes to the start of the buffer and answers how many. What the rest of the buffer
    /// holds afterwards is left open. `Failed` moves none.
    fn read(&mut self, buf: &mut [u8]) -> Result<usize, Failed>
        ensures count { IfOk result (λ n. n ≤ length buf.new) }

        // What was left is what was read, and then what is left now.
        ensures moved { IfOk result (λ n. preceded (take n buf.new) (left self.new) ≡ left self.old) }

        // A buffer with room stays without bytes exactly at the end of the input.
        ensures end { 0 < length buf.new → IfOk result (λ n. IfSome (left self.old) (λ bytes. (n ≡ 0) ↔ (bytes ≡ []))) }
        ensures failed { OnErr result (left self.new ≡ left self.old) }
        ensures tells { is_some (left self.new) ≡ is_some (left self.old) }
        ensures fault { OnErr result (Rose (faults self.old) (faults self.new)) }
        ensures never_falls { faults self.old ≤ faults self.new };
}
