//! How two callers tell each other what they know.
ghost use Rattle.std.specs.Prelude.{◌≡◌};
ghost use Rattle.turn_lock.specs.Log.{Begins, longer};
ghost use Rattle.turn_lock.specs.Passes.{caller_of, known_of, own_of, IsFree, MadeByPasses};

use crate::History;
use crate::pass::Pass;
use crate::steps::{Both, First, Meet};
use crate::turns::Turns;
use crate::waiting::SERVING;

impl<V: History> Turns<V> {
    /// Both callers know afterwards the longer of what each of them knew. `one` stays the first caller's pass, and
    /// the answered one is the second caller's. It takes no memory, and waits for nobody.
    pub fn meet(&self, one: &mut Pass<V::Base>, other: Pass<V::Base>) -> Pass<V::Base>
        requires one { IsFree self.now one.old }
        requires other { IsFree self.now other }
        ensures one { IsFree self.now one.new }
        ensures other { IsFree self.now result }
        ensures one_caller { caller_of one.new ≡ caller_of one.old }
        ensures other_caller { caller_of result ≡ caller_of other }
        ensures known { known_of one.new ≡ longer (known_of one.old) (known_of other) }
        ensures same { known_of result ≡ known_of one.new }

        // It begins with what each of them knew, and has no entries of theirs beyond that.
        ensures begins { Begins (known_of one.old) (known_of one.new) }
        ensures other_begins { Begins (known_of other) (known_of one.new) }
        ensures own { own_of one.new ≡ own_of one.old }
        ensures other_own { own_of result ≡ own_of other }

        // Each entry of it has the number of one of the lock's passes.
        ensures made { MadeByPasses self.now one.new }
        ensures other_made { MadeByPasses self.now result }
    {
        let shared = &self.table.shared;
        let mut seat = one.lift::<Option<V>>();
        let Pass { badge } = other;
        shared.join_seat::<Both>(&mut seat, badge.into_seat());
        shared.load::<Meet>(&mut seat, SERVING);
        let answered = shared.split_seat::<First>(&mut seat);
        one.badge = seat.into_badge();
        Pass {
            badge: answered.into_badge(),
        }
    }
}
