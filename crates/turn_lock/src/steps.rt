//! The kinds of step, by what each tells. These types are for proofs alone.
ghost use Rattle.turn_lock.specs.Steps.{drew, looked, lent, retook, published, met, took, gave_back};
ghost use Rattle.turn_lock.specs.Shares.{first_of, others_of, both_of, spent};

use crate::History;
use crate::view::View;
use atomic_table::{Join, Play, Split};

/// A pass draws the next number.
pub(crate) struct Draw;

impl<V: History> Play<Option<V>, View<V::Base>> for Draw {
    ghost then = { λ _. drew };
}

/// A pass looks whether its number has its turn.
pub(crate) struct Look;

impl<V: History> Play<Option<V>, View<V::Base>> for Look {
    ghost then = { λ _. looked };
}

/// The pass whose turn it is takes the slot with the value.
pub(crate) struct Take;

impl<V: History> Play<Option<V>, View<V::Base>> for Take {
    ghost then = { λ _. took V.entries V.base };
}

/// It gives the slot back empty, and the value is lent.
pub(crate) struct Lend;

impl<V: History> Play<Option<V>, View<V::Base>> for Lend {
    ghost then = { λ _. lent };
}

/// It takes the empty slot.
pub(crate) struct Retake;

impl<V: History> Play<Option<V>, View<V::Base>> for Retake {
    ghost then = { λ _. retook };
}

/// It gives the slot back with the value.
pub(crate) struct GiveBack;

impl<V: History> Play<Option<V>, View<V::Base>> for GiveBack {
    ghost then = { λ _. gave_back V.entries V.base };
}

/// What the value gained comes into the log, and the next number has its turn.
pub(crate) struct Publish;

impl<V: History> Play<Option<V>, View<V::Base>> for Publish {
    ghost then = { λ _. published };
}

/// What two callers know is compared.
pub(crate) struct Meet;

impl<V: History> Play<Option<V>, View<V::Base>> for Meet {
    ghost then = { λ _. met };
}

/// The first caller is cut off from the others.
pub(crate) struct First;

impl<B> Split<View<B>> for First {
    ghost left = { first_of };

    ghost right = { others_of };
}

/// What two passes know is put together, and the second is spent.
pub(crate) struct Both;

impl<B> Join<View<B>> for Both {
    ghost both = { both_of };

    ghost spent = { spent };
}
