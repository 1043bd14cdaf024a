//! The right to the lock's value, while it is a pass's turn.
ghost use Rattle.std.specs.Prelude.{◌≡◌};
ghost use Rattle.std.specs.Borrow.{sem, Lends};

/// A pass's turn, with the lock's value. It can't be dropped: `Turns::leave` takes it, so that nobody is kept
/// waiting by a turn that was forgotten. It is this project's own.
pub struct Turn<V> {
    pub(crate) value: V,
}

impl<V> Turn<V> {
    ghost use Rattle.turn_lock.specs.contracts.turn.Turn.{the_row};

    /// The value, which is the caller's until it leaves.
    pub fn value(&mut self) -> &mut V
        ensures* writes_back { sem 𝓛 (Lends (the_row V.row) V.row self.entry result (λ w. record { value = w })) }
        ensures value { result.now ≡ self.old.value }
    {
        &mut self.value
    }
}
