//! How a step answers, refuses, or goes on to the next step of its instruction. Each writes the decision in place of
//! the one before.
ghost use Rattle.std.specs.Prelude.{◌≡◌, ◌<◌, [], ◌∷◌, length, if◌then◌else◌, is_some, IfSome};
ghost use Rattle.state_rows.specs.Nano.{held_by};
ghost use Rattle.sym_base.specs.declared.error.Error.TheVariants.{InUse};
ghost use Rattle.machine.specs.Decide.{nothing, answer, refuse, one_move, go_on, wait_for, wait_at, answer_handle, give_handle};

use entry_log::{Part, Step};
use machine::{Decision, LockMove, Move, NewHandle, Waiting};
use readings::Reads;
use sym_base::{Error, ObjNo, ThreadNo};

/// Nobody acts.
pub fn nothing(decision: &mut Decision)
    ensures { decision.new ≡ nothing }
{
    decision.step = Step::Wait;
    decision.moves.clear();
    decision.answer = None;
}

/// The instruction is over: after the moves so far it answers a number.
pub fn answer(decision: &mut Decision, thread: ThreadNo, step: Step, code: i32)
    requires { length decision.old.moves < 8 }
    ensures { decision.new ≡ answer thread step decision.old.moves code }
{
    decision.step = step;
    decision.moves.push(Move::Advance(thread));
    decision.answer = Some(code);
}

/// The instruction is over: after this move it answers a number.
pub fn answer_after(decision: &mut Decision, thread: ThreadNo, step: Step, change: Move, code: i32)
    ensures { decision.new ≡ answer thread step (change ∷ []) code }
{
    decision.moves.clear();
    decision.moves.push(change);
    answer(decision, thread, step, code);
}

/// The instruction is over without a move, and answers a number.
pub fn answer_at_once(decision: &mut Decision, thread: ThreadNo, step: Step, code: i32)
    ensures { decision.new ≡ answer thread step [] code }
{
    decision.moves.clear();
    answer(decision, thread, step, code);
}

/// The instruction is over, and answers an error.
pub fn refuse(decision: &mut Decision, thread: ThreadNo, step: Step, error: Error)
    ensures { decision.new ≡ refuse thread step error }
{
    answer_at_once(decision, thread, step, error.code());
}

/// This move alone, by which the instruction goes on.
pub fn one_move(decision: &mut Decision, step: Step, change: Move)
    ensures { decision.new ≡ one_move step change }
{
    decision.step = step;
    decision.moves.clear();
    decision.moves.push(change);
    decision.answer = None;
}

/// The instruction goes on to another step, with this move.
pub fn go_on(decision: &mut Decision, thread: ThreadNo, step: Step, change: Move, part: Part)
    ensures { decision.new ≡ go_on thread step change part }
{
    decision.step = step;
    decision.moves.clear();
    decision.moves.push(Move::GoOn(thread, part));
    decision.moves.push(change);
    decision.answer = None;
}

/// The thread waits for this, and its instruction goes on to its last step once the wait is over.
pub fn wait_for(decision: &mut Decision, thread: ThreadNo, step: Step, what: Waiting)
    ensures { decision.new ≡ wait_for thread step what }
{
    go_on(decision, thread, step, Move::Wait(thread, what), Part::Done);
}

/// Refuses a thread that holds a fast mutex what may block, and answers whether it did.
pub fn refuse_holder<R: Reads>(
    decision: &mut Decision,
    reads: &R,
    thread: ThreadNo,
    step: Step,
) -> bool
    ensures holds { result ≡ is_some (held_by (R.state reads.now).synchronization.nano thread) }
    ensures decision { decision.new ≡ (if result then refuse thread step InUse else decision.old) }
{
    let holds = reads.is_holding(thread);
    if holds {
        refuse(decision, thread, step, Error::InUse);
    }
    holds
}

/// The thread waits for an object, as this move says.
pub fn wait_at(decision: &mut Decision, thread: ThreadNo, step: Step, object: ObjNo, lock: LockMove)
    ensures { decision.new ≡ wait_at thread step object lock }
{
    wait_for(decision, thread, step, Waiting::Lock(object));
    decision.moves.push(Move::Locks(lock));
}

/// The instruction is over: after the moves so far a new handle's number goes to a register and is answered.
pub fn answer_handle(
    decision: &mut Decision,
    thread: ThreadNo,
    step: Step,
    register: u8,
    handle: u32,
)
    requires number { handle < 2147483648 }
    requires room { length decision.old.moves < 7 }
    ensures { decision.new ≡ answer_handle thread step decision.old.moves register handle }
{
    decision.moves.push(Move::Write(thread, register, handle));
    answer(decision, thread, step, handle as i32);
}

/// The next handle of a table is the object's, where a slot is free.
pub fn give_handle(
    decision: &mut Decision,
    thread: ThreadNo,
    step: Step,
    object: ObjNo,
    register: u8,
    next: Option<NewHandle>,
)
    requires { IfSome next (λ handle. handle.number < 2147483648) }
    ensures { decision.new ≡ give_handle thread step object register next }
{
    let Some(handle) = next else {
        return refuse(decision, thread, step, Error::Overflow);
    };
    decision.moves.clear();
    decision.moves.push(Move::Gain(handle.holder, object));
    answer_handle(decision, thread, step, register, handle.number);
}
