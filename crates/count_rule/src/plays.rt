//! The kinds of atomic step, and what each tells its seat.
ghost use Rattle.std.specs.Prelude.{ℕ};
ghost use Rattle.count_rule.specs.Moves.{opens, creates, opens_known, tries_last, closes, looks, sent, new_ticket, joined_with};
ghost use Rattle.count_rule.specs.declared.view.View.TheVariants.{Spent};

use crate::view::View;
use atomic_table::{Join, Play, Split};
use std::marker::{Brand, PhantomData};

/// A ticket opens its object.
pub(crate) struct Open;

impl Play<(), View> for Open {
    ghost then = { opens };
}

/// The kernel creates.
pub(crate) struct Create;

impl Play<(), View> for Create {
    ghost then = { creates };
}

/// The kernel adds a reference to an object that has one.
pub(crate) struct OpenKnown;

impl Play<(), View> for OpenKnown {
    ghost then = { opens_known };
}

/// The last close, or one that fails.
pub(crate) struct CloseLast;

impl Play<(), View> for CloseLast {
    ghost then = { tries_last };
}

/// A close that leaves a reference.
pub(crate) struct Close;

impl Play<(), View> for Close {
    ghost then = { closes };
}

/// The look after a join.
pub(crate) struct Look;

impl Play<(), View> for Look {
    ghost then = { looks };
}

/// A place that a proof picks.
pub(crate) trait At {
    ghost place: { ℕ };
}

impl At for Brand {
    ghost place = { 0 };
}

/// The kernel sends a ticket out for a place.
pub(crate) struct SendOut<A: At>(PhantomData<A>);

impl<A: At> Split<View> for SendOut<A> {
    ghost left = { sent A.place };

    ghost right = { new_ticket A.place };
}

/// A ticket comes back.
pub(crate) struct TakeBack;

impl Join<View> for TakeBack {
    ghost both = { joined_with };

    ghost spent = { Spent };
}
