//! The places of a handle table that are in use.
ghost use Rattle.std.specs.Prelude.{◌≡◌, ◌<◌, length, IfSome};
ghost use Rattle.handles.specs.Used.{next_used};

use state_rows::HandleSlot;
use sym_base::ObjNo;

/// The least index from `from` on whose place is in use, and the object there. None where there is none.
pub fn next_used(slots: &[HandleSlot], from: usize) -> Option<(usize, ObjNo)>
    ensures used { result ≡ next_used slots.now from }
    ensures inside { IfSome result (λ used. used.0 < length slots.now) }
{
    for index in from..slots.len() {
        if let Some(object) = slots[index].object {
            return Some((index, object));
        }
    }
    None
}
