//! The items that stand in the immediate queue, and the nodes that stand for them.
ghost use Rattle.std.specs.Prelude.{◌≡◌, ◌+◌, ◌<◌, ◌≤◌};
ghost use Rattle.deferred.specs.Kept.{item_of};

use state_rows::Item;

/// The item whose number a node is, where so many numbers are those of deferred function calls.
pub fn item_of(calls: u32, node: u32) -> Item
    requires few { calls ≤ 128 }
    requires node { node < calls + 256 }
    ensures { result ≡ item_of calls node }
{
    if node < calls {
        Item::Move(node as u8)
    } else {
        Item::Idfc((node - calls) as u8)
    }
}
