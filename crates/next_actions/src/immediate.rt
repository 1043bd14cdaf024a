//! What the oldest item of the immediate queue does: its body runs, or it moves to its own queue.
ghost use Rattle.std.specs.Prelude.{◌≡◌, slice_get};
ghost use Rattle.next_actions.specs.Planned.{planned};
ghost use Rattle.machine.specs.Interrupts.{step_of_move, move_call, item_plan, immediate_plan};
ghost use Rattle.state_rows.specs.Deferred.{next_immediate};

use decisions::{add_call, nothing};
use entry_log::Step;
use machine::{Body, Decision, DeferredMove, Move};
use readings::Reads;
use script_types::Script;
use state_rows::Item;

/// The step of a deferred function call that moves to its own queue.
fn step_of_move(script: &Script, dfc: u8) -> Step
    ensures { result ≡ step_of_move (slice_get script.now.dfcs dfc) }
{
    match script.dfcs.as_slice().get(dfc as usize) {
        Some(declared) => Step::MoveOf(declared.name),
        None => Step::Wait,
    }
}

/// A deferred function call leaves the immediate queue and joins its own.
fn move_call<R: Reads>(decision: &mut Decision, script: &Script, reads: &R, dfc: u8)
    ensures { decision.new ≡ move_call script.now (R.state reads.now) dfc }
{
    decision.step = step_of_move(script, dfc);
    decision.moves.clear();
    decision
        .moves
        .push(Move::Deferred(DeferredMove::TakeImmediate));
    decision.moves.push(add_call(reads, dfc as usize));
    decision.answer = None;
}

/// What an item of the immediate queue does: a body that runs, or what was decided.
fn item_action<R: Reads>(
    decision: &mut Decision,
    script: &Script,
    reads: &R,
    item: Item,
) -> Option<Body>
    ensures { planned decision.new result ≡ item_plan script.now (R.state reads.now) item }
{
    match item {
        Item::Idfc(item) => Some(Body::Immediate(item)),
        Item::Move(dfc) => {
            move_call(decision, script, reads, dfc);
            None
        }
    }
}

/// What the oldest item of the immediate queue does, nothing where there is none: a body that runs, or what was decided.
pub fn immediate_action<R: Reads>(
    decision: &mut Decision,
    script: &Script,
    reads: &R,
) -> Option<Body>
    ensures { let S = R.state reads.now in planned decision.new result ≡ immediate_plan script.now S (next_immediate S.synchronization.deferred) }
{
    match reads.next_immediate() {
        Some(item) => item_action(decision, script, reads, item),
        None => {
            nothing(decision);
            None
        }
    }
}
