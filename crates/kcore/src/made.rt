//! The moves that a body made.
ghost use Rattle.std.specs.Prelude.{◌≡◌, ◌+◌, ◌<◌, ◌≤◌, [], ◌∷◌, ◌++◌, length};

use arrayvec::ArrayVec;
use machine::Move;
use std::marker::Model;

/// The moves that a body made, at most nine: a call leaves its queue, and each of four operations makes two. A
/// contract sees the list.
#[derive(Drop)]
pub struct Made {
    moves: ArrayVec<Move, 9>,
}

impl Model for Made {
    ghost use Rattle.std.specs.Prelude.{List};
    ghost use Rattle.machine.specs.declared.moves.Move.{Move};

    ghost Value = { List Move };

    ghost view = { λ m. m.moves.items };
}

impl Made {
    /// No move.
    pub fn new() -> Self
        ensures { result ≡ [] }
    {
        Made {
            moves: ArrayVec::new(),
        }
    }

    /// The moves in their order.
    pub fn as_slice(&self) -> &[Move]
        ensures { result.now ≡ self.now }
    {
        self.moves.as_slice()
    }

    /// Adds a move at the end.
    pub fn push(&mut self, change: Move)
        requires { length self.old < 9 }
        ensures { self.new ≡ self.old ++ change ∷ [] }
    {
        let _ = self.moves.try_extend_from_slice(&[change]);
    }
}

/// Adds moves behind those so far.
pub fn add_moves(made: &mut Made, moves: &[Move])
    requires { length made.old + length moves.now ≤ 9 }
    ensures { made.new ≡ made.old ++ moves.now }
{
    for change in moves {
        made.push(*change);
    }
}
