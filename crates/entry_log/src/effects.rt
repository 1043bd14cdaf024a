//! The effects of one entry.
ghost use Rattle.std.specs.Prelude.{◌≡◌, ◌<◌, ◌≤◌, [], ◌∷◌, ◌++◌, length};

use crate::Effect;
use arrayvec::ArrayVec;
use std::marker::Model;

/// The most effects that an entry has.
pub const MAX_EFFECTS: usize = 4;

/// The effects of an entry in their order, at most four. A contract sees the list.
#[derive(Drop)]
pub struct Effects {
    effects: ArrayVec<Effect, 4>,
}

impl Model for Effects {
    ghost use Rattle.std.specs.Prelude.{List};
    ghost use Rattle.entry_log.specs.declared.effect.Effect.{Effect};

    ghost Value = { List Effect };

    ghost view = { λ e. e.effects.items };
}

impl Effects {
    /// No effect.
    pub fn new() -> Self
        ensures { result ≡ [] }
    {
        Effects {
            effects: ArrayVec::new(),
        }
    }

    /// The effects in their order.
    pub fn as_slice(&self) -> &[Effect]
        ensures effects { result.now ≡ self.now }
        ensures few { length self.now ≤ 4 }
    {
        self.effects.as_slice()
    }

    /// Adds an effect at the end.
    pub fn push(&mut self, effect: Effect)
        requires { length self.old < 4 }
        ensures { self.new ≡ self.old ++ effect ∷ [] }
    {
        self.effects.push(effect);
    }
}
