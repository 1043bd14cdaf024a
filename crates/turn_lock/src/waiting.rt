//! How a pass waits for its turn.
ghost use Rattle.std.specs.Prelude.{◌≡◌};
ghost use Rattle.turn_lock.specs.Waits.{IsOne, Waited};

use crate::History;
use crate::steps::{Draw, Look};
use crate::turns::Turns;
use crate::view::View;
use atomic_table::Seat;
use crossbeam_utils::Backoff;
use std::sync::Wait;
use std::time::Duration;

/// The word with the number that is drawn next.
pub(crate) const NEXT: usize = 0;

/// The word with the number whose turn it is.
pub(crate) const SERVING: usize = 1;

/// For how many microseconds a pass sleeps between two looks.
const SLEEP: u64 = 50;

impl<V: History> Turns<V> {
    /// Draws a number and looks until it has its turn.
    pub(crate) fn wait<R: Wait>(&self, rt: &R, seat: &mut Seat<Option<V>, View<V::Base>>)
        requires table { seat.old.table_id ≡ self.now.table }
        requires one { IsOne seat.old.me }
        ensures table { seat.new.table_id ≡ seat.old.table_id }
        ensures waited { Waited seat.old.me seat.new.me }
    {
        let ticket = self.table.shared.fetch_add::<Draw>(seat, NEXT, 1);
        let backoff = Backoff::new();
        for _ in rt.forever() {
            let serving = self.table.shared.load::<Look>(seat, SERVING);
            if serving == ticket {
                return;
            }
            self.pause(rt, &backoff, serving, ticket.wrapping_sub(serving));
        }
        unreachable!()
    }

    /// The pass that is served next spins at first, then yields the processor, and at last sleeps for a little. One that has others
    /// before it sleeps at once.
    fn pause<R: Wait>(&self, rt: &R, backoff: &Backoff, serving: u64, ahead: u64) {
        if ahead == 1 && !backoff.is_completed() {
            backoff.snooze();
            return;
        }
        let seen = (serving % (1 << 32)) as u32;
        self.table
            .shared
            .park_timeout(rt, SERVING, seen, Duration::from_micros(SLEEP));
    }
}
