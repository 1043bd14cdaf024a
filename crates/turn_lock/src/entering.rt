//! How a pass enters its turn, and leaves it.
ghost use Rattle.std.specs.Prelude.{◌≡◌, ◌++◌};
ghost use Rattle.turn_lock.specs.Log.{Begins, entries_of, under, gained};
ghost use Rattle.turn_lock.specs.Passes.{caller_of, known_of, own_of, IsFree, IsInTurn, MadeByPasses};

use crate::History;
use crate::pass::Pass;
use crate::steps::Publish;
use crate::turn::Turn;
use crate::turns::Turns;
use crate::waiting::SERVING;
use std::sync::Wait;

impl<V: History> Turns<V> {
    /// Waits until it is the pass's turn, and lends the lock's value. It has no refusal, and no clause says that a
    /// turn is ever got: one that another pass doesn't leave keeps all later ones waiting.
    pub fn enter<R: Wait>(&self, rt: &R, pass: &mut Pass<V::Base>) -> Turn<V>
        requires { IsFree self.now pass.old }
        ensures turn { IsInTurn self.now pass.new }
        ensures caller { caller_of pass.new ≡ caller_of pass.old }

        // The pass knows a prefix of the log, which begins with what it knew before. Its own entries are the same, and
        // each entry has the number of one of the lock's passes.
        ensures known { Begins (known_of pass.old) (known_of pass.new) }
        ensures own { own_of pass.new ≡ own_of pass.old }
        ensures made { MadeByPasses self.now pass.new }

        // The entries of that prefix are the list of the value, which has the lock's base.
        ensures list { V.entries result.value ≡ entries_of (known_of pass.new) }
        ensures base { V.base result.value ≡ self.now.base }
    {
        let mut seat = pass.lift::<Option<V>>();
        self.wait(rt, &mut seat);
        let value = self.lend(&mut seat);
        pass.badge = seat.into_badge();
        Turn { value }
    }

    /// Ends the turn: the value is the lock's again, and the log gets what it gained in the turn, under the
    /// number of the pass's caller.
    pub fn leave(&self, pass: &mut Pass<V::Base>, turn: Turn<V>)
        requires turn { IsInTurn self.now pass.old }
        requires base { V.base turn.value ≡ self.now.base }
        requires grown { Begins (entries_of (known_of pass.old)) (V.entries turn.value) }
        ensures free { IsFree self.now pass.new }
        ensures caller { caller_of pass.new ≡ caller_of pass.old }

        // The pass knows the log: what it knew, and then what the value gained, and nothing else. Each entry has the
        // number of one of the lock's passes.
        ensures known { known_of pass.new ≡ known_of pass.old ++ under (caller_of pass.old) (gained (known_of pass.old) (V.entries turn.value)) }
        ensures own { own_of pass.new ≡ own_of pass.old ++ gained (known_of pass.old) (V.entries turn.value) }
        ensures list { entries_of (known_of pass.new) ≡ V.entries turn.value }
        ensures made { MadeByPasses self.now pass.new }
    {
        let Turn { value } = turn;
        let mut seat = pass.lift::<Option<V>>();
        self.give_back(&mut seat, value);
        self.table
            .shared
            .fetch_add::<Publish>(&mut seat, SERVING, 1);
        pass.badge = seat.into_badge();
    }
}
