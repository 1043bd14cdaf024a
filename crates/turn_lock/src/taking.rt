//! How the value leaves its slot and comes back.
ghost use Rattle.std.specs.Prelude.{◌≡◌, List};
ghost use Rattle.entry_log.specs.declared.entry.Entry.{Entry};
ghost use Rattle.turn_lock.specs.Waits.{IsUp, Lends, MayReturn, Returns};

use crate::History;
use crate::steps::{GiveBack, Lend, Retake, Take};
use crate::turns::Turns;
use crate::view::View;
use crate::waiting::SERVING;
use atomic_table::Seat;

/// The slot with the value.
pub(crate) const SLOT: usize = 0;

impl<V: History> Turns<V> {
    /// Takes the value out of its slot.
    pub(crate) fn lend(&self, seat: &mut Seat<Option<V>, View<V::Base>>) -> V
        requires table { seat.old.table_id ≡ self.now.table }
        requires up { IsUp seat.old.me }
        ensures table { seat.new.table_id ≡ seat.old.table_id }
        ensures lends { Lends V.entries V.base seat.old.me result seat.new.me }
    {
        let shared = &self.table.shared;
        shared.load::<Take>(seat, SERVING);
        let slot = shared.exchange(seat, SLOT, None);
        shared.load::<Lend>(seat, SERVING);
        slot.unwrap()
    }

    /// Puts the value into the slot again.
    pub(crate) fn give_back(&self, seat: &mut Seat<Option<V>, View<V::Base>>, value: V)
        requires table { seat.old.table_id ≡ self.now.table }
        requires may { (gain : List Entry) × MayReturn V.entries V.base seat.old.me value gain }
        ensures table { seat.new.table_id ≡ seat.old.table_id }
        ensures returns { Returns V.entries V.base seat.old.me value seat.new.me }
    {
        let shared = &self.table.shared;
        shared.load::<Retake>(seat, SERVING);
        match shared.exchange(seat, SLOT, Some(value)) {
            None => {}
            Some(_) => unreachable!(),
        }
        shared.load::<GiveBack>(seat, SERVING);
    }
}
