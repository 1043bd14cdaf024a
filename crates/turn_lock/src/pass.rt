//! A caller's right to take turns.
ghost use Rattle.std.specs.Prelude.{◌≡◌, [], ◌∷◌};

use crate::view::View;
use atomic_table::{Badge, Seat};
use std::mem;

/// A caller's pass of a lock. It has no bytes, and doesn't name the type of the lock's value. A contract sees its
/// caller's number (`caller_of`), the prefix of the log that it knows (`known_of`), and whether it is in a turn
/// (`IsFree`, `IsInTurn`). A pass is this project's own.
#[derive(Drop)]
pub struct Pass<B> {
    pub(crate) badge: Badge<View<B>>,
}

impl<B> Pass<B> {
    /// The seat to step with. Until the badge is put back, the pass has none.
    pub(crate) fn lift<S>(&mut self) -> Seat<S, View<B>>
        requires { (v : View B) × (self.old.badge.views ≡ v ∷ []) }
        ensures { (result.table_id ≡ self.old.badge.table_id) × (self.old.badge.views ≡ result.me.0 ∷ []) × (result.me.1 ≡ []) }
    {
        mem::replace(&mut self.badge, Badge::blank()).into_seat()
    }
}
