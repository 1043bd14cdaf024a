//! Tickets, which open their objects outside the kernel's lock.
ghost use Rattle.std.specs.Prelude.{◌≡◌, Some, None};
ghost use Rattle.count_rule.specs.Shows.{IsFoundAt};

use crate::rule::CountSeat;
use crate::share::Share;
use crate::steps;
use ref_words::Found;
use std::marker::Model;

/// What the finder of an object carries through the time in which others work: a note that opens its
/// object by one addition, outside the kernel's lock. It has its own share of the table of words.
///
/// A contract sees its place and number, what its open found, and the identity of the words that made it.
/// In EKA2 an object that was found by name is opened under the system lock (Symbian OS Internals, the
/// chapter on kernel services); that it may be opened outside of it is this project's own.
#[derive(Drop)]
pub struct Ticket {
    pub(crate) share: Share,
    pub(crate) seat: CountSeat,
    pub(crate) place: u32,
    pub(crate) found: Option<Found>,
}

impl Model for Ticket {
    ghost use Rattle.count_rule.specs.Moves.{slip_of};
    ghost use Rattle.count_rule.specs.Seats.{Note, IsTicket, identity_of};

    ghost Value = { Note };

    ghost view = { λ t. record { slip = slip_of t.seat.me.0; found = t.found; identity = identity_of t.seat.table_id } };

    ghost invariant = { λ t. IsTicket t.share t.seat t.place t.found };
}

impl Ticket {
    /// The place of the object that it is for.
    pub fn place(&self) -> u32
        ensures { result ≡ self.now.slip.place }
    {
        self.place
    }

    /// Opens its object, by one addition to the word of its place, in which the old word decides: Dead exactly
    /// where the place is gone at this step. The ticket keeps its hold until it comes back.
    pub fn open(&mut self) -> Found
        requires { self.old.found ≡ None }
        ensures settled { self.new ≡ record self.old { found = Some result } }

        // At its step the words showed what the kernel knew, and the place was gone exactly where the answer is Dead.
        ensures at_its_step { IsFoundAt self.old.slip result }
    {
        let found = steps::open(self.share.table(), &mut self.seat, self.place);
        self.found = Some(found);
        found
    }
}
