//! What an action is going to do, and what it leaves beside the state.
ghost use Rattle.std.specs.Prelude.{◌≡◌};
ghost use Rattle.machine.specs.Decide.{nothing};
ghost use Rattle.machine.specs.History.{entry_of};

use crate::Moves;
use entry_log::{Actor, Effects, Entry, Step};

/// What an action does, decided from the state before it: its step, the moves that it is made of, and its
/// answer.
#[derive(Drop)]
pub struct Decision {
    pub step: Step,
    pub moves: Moves,
    pub answer: Option<i32>,
}

impl Decision {
    /// The decision that nobody acts.
    pub fn new() -> Self
        ensures { result ≡ nothing }
    {
        Decision {
            step: Step::Wait,
            moves: Moves::new(),
            answer: None,
        }
    }
}

/// What an action leaves beside the state: its step, its effects, and its answer.
#[derive(Drop)]
pub struct Outcome {
    pub step: Step,
    pub effects: Effects,
    pub answer: Option<i32>,
}

/// The entry of an action at a place.
pub fn entry_of(place: u32, actor: Actor, outcome: Outcome) -> Entry
    ensures { result ≡ entry_of place actor outcome }
{
    let Outcome {
        step,
        effects,
        answer,
    } = outcome;
    Entry {
        place,
        actor,
        step,
        effects,
        answer,
    }
}
