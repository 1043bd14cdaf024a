//! What a thread does next: its return, what it owes, a call of its queue, the work of its closing servers, its instruction, or what is
//! left at its list's end.
ghost use Rattle.std.specs.Prelude.{◌≡◌, true, IsTrue, Some, if◌then◌else◌, option_copied, option_map};
ghost use Rattle.script_types.specs.Shape.{IsShaped};
ghost use Rattle.state_rows.specs.Nano.{is_protected};
ghost use Rattle.machine.specs.Bodies.{decision_by};
ghost use Rattle.machine.specs.CriticalSection.{flush};
ghost use Rattle.machine.specs.Dooms.{end};
ghost use Rattle.machine.specs.Rows.{first_owed, thread_of};
ghost use Rattle.machine.specs.Steps.{pay_step, pay, decision_of_task, decision_of_row, decision_of};
ghost use Rattle.machine.specs.Task.{call_task, end_task, task_of_row, task_of, may_act};
ghost use Rattle.next_actions.specs.NextActions.{IsStepOf, Suits, SuitsRow, decided_by};
ghost use Rattle.next_actions.specs.Planned.{planned};
ghost use Rattle.next_actions.specs.TaskParts.{own_task, task_alive, task_at_stage, task_behind_return};
ghost use Rattle.sym_base.specs.declared.number.ObjNo.{ObjNo};
ghost use Rattle.script_types.specs.declared.script.Script.{Script};
ghost use Rattle.machine.specs.declared.state.State.{State};
ghost use Rattle.state_rows.specs.declared.thread.Stage.TheVariants.{Live};
ghost use Rattle.state_rows.specs.declared.thread.ThreadRow.{ThreadRow};

use crate::reaping::{bury, give_up, reap};
use decisions::{decide_step, end, flush, nothing, return_of};
use entry_log::Step;
use machine::{Body, Decision, Move, Owed, ThreadRow, is_returning};
use readings::{Reads, instruction, may_act, next_call, serves_queue};
use script_types::{Instr, Script};
use state_rows::{FIRST_BURIAL, Stage};
use sym_base::ThreadNo;

/// What a thread that may act does next.
pub enum NextAction<'a> {
    /// What was decided: a return, a payment, the work of a closing server, or what protects it and is given up at its list's end.
    Decided,
    /// A body of a deferred function call runs.
    Runs(Body),
    /// The next step of this instruction.
    Steps(&'a Instr),
    /// It is doomed and owes nothing: it gives up the first of what it has, or is cleaned.
    Dies,
    /// It is at its list's end, and nothing protects it: it ends.
    Ends,
    /// It buries a thread, whose burial this call is.
    Buries(usize),
}

/// What is told of the payment of an item that a thread owes.
fn pay_step(what: Owed) -> Step
    ensures { result ≡ pay_step what }
{
    match what {
        Owed::Close(_, _) => Step::Drop,
        Owed::Sweep(_) => Step::Sweep,
    }
}

/// The payment of one item that a thread owes.
pub fn pay(decision: &mut Decision, what: Owed)
    ensures { decision.new ≡ pay what }
{
    decision.step = pay_step(what);
    decision.moves.clear();
    decision.moves.push(Move::Pay(what));
    decision.answer = None;
}

/// What a live thread does at its list's end: it gives up what protects it, if it is protected, and else it ends.
fn end_of_list<'a, R: Reads>(decision: &mut Decision, reads: &R, thread: ThreadNo) -> NextAction<'a>
    requires { R.is_readable reads.now }
    ensures decided { (script : Script) (row : ThreadRow) → let S = R.state reads.now in decided_by script thread S (Some row) decision.new result ≡ decision_of_row script S thread (Some row) (Some (end_task (is_protected S.synchronization.nano thread))) }
    ensures step { IsStepOf (Some (end_task (is_protected (R.state reads.now).synchronization.nano thread))) result }
    ensures suits { (row : ThreadRow) → row.stage ≡ Live → SuitsRow (R.state reads.now) thread row result }
{
    if reads.is_protected(thread) {
        flush(decision, reads, thread);
        NextAction::Decided
    } else {
        NextAction::Ends
    }
}

/// What a thread does that serves a queue: this call of it runs, or buries a thread.
fn serve<'a>(decision: &mut Decision, call: Option<usize>) -> NextAction<'a>
    ensures decided { (script : Script) (S : State) (t : ObjNo) (row : ThreadRow) → decided_by script t S (Some row) decision.new result ≡ decision_of_row script S t (Some row) (option_map call_task call) }
    ensures step { IsStepOf (option_map call_task call) result }
    ensures suits { (S : State) (t : ObjNo) (row : ThreadRow) → SuitsRow S t row result }
{
    match call {
        Some(dfc) if dfc < FIRST_BURIAL => NextAction::Runs(Body::Deferred(dfc as u8)),
        Some(dfc) => NextAction::Buries(dfc),
        None => {
            nothing(decision);
            NextAction::Decided
        }
    }
}

/// What a live thread does that owes nothing and serves no queue: the work of its closing servers, its instruction, or what is left at
/// its list's end.
#[tactic(auto, using(crate::proofs::First::work_first, crate::proofs::First::work_none))]
fn work_or_step<'a, R: Reads>(
    decision: &mut Decision,
    reads: &R,
    thread: ThreadNo,
    row: &ThreadRow,
    instr: Option<&'a Instr>,
) -> NextAction<'a>
    requires { R.is_readable reads.now }
    ensures decided { (script : Script) → let S = R.state reads.now in decided_by script thread S (Some row.now) decision.new result ≡ decision_of_row script S thread (Some row.now) (Some (own_task S thread (option_copied instr.entry))) }
    ensures step { IsStepOf (Some (own_task (R.state reads.now) thread (option_copied instr.entry))) result }
    ensures suits { row.now.stage ≡ Live → SuitsRow (R.state reads.now) thread row.now result }
{
    if let Some(what) = reads.first_work(thread) {
        give_up(decision, reads, thread, row, what);
        return NextAction::Decided;
    }
    match instr {
        Some(instr) => NextAction::Steps(instr),
        None => end_of_list(decision, reads, thread),
    }
}

/// What a live thread does that owes nothing: a call of its queue, or what is its own to do.
fn live<'a, R: Reads>(
    decision: &mut Decision,
    reads: &R,
    thread: ThreadNo,
    row: &ThreadRow,
    instr: Option<&'a Instr>,
) -> NextAction<'a>
    requires { R.is_readable reads.now }
    ensures decided { (script : Script) → let S = R.state reads.now in decided_by script thread S (Some row.now) decision.new result ≡ decision_of_row script S thread (Some row.now) (task_alive S thread row.now (option_copied instr.entry)) }
    ensures step { IsStepOf (task_alive (R.state reads.now) thread row.now (option_copied instr.entry)) result }
    ensures suits { row.now.stage ≡ Live → SuitsRow (R.state reads.now) thread row.now result }
{
    if serves_queue(row.role) {
        return serve(decision, next_call(reads, row.role));
    }
    work_or_step(decision, reads, thread, row, instr)
}

/// What a thread does that owes nothing, by its stage.
fn run_or_step<'a, R: Reads>(
    decision: &mut Decision,
    script: &Script,
    reads: &R,
    thread: ThreadNo,
    row: &ThreadRow,
    instr: Option<&'a Instr>,
) -> NextAction<'a>
    requires readable { R.is_readable reads.now }
    requires row { thread_of (R.state reads.now) thread ≡ Some row.now }
    ensures decided { let S = R.state reads.now in decided_by script.now thread S (Some row.now) decision.new result ≡ decision_of_row script.now S thread (Some row.now) (task_at_stage S thread row.now (option_copied instr.entry)) }
    ensures step { IsStepOf (task_at_stage (R.state reads.now) thread row.now (option_copied instr.entry)) result }
    ensures suits { SuitsRow (R.state reads.now) thread row.now result }
{
    match row.stage {
        Stage::Live => live(decision, reads, thread, row, instr),
        Stage::Doomed => NextAction::Dies,
        Stage::Cleaned | Stage::Buried => {
            nothing(decision);
            NextAction::Decided
        }
    }
}

/// What a thread does where it isn't at a return: the oldest of what it owes comes first.
fn pay_or_step<'a, R: Reads>(
    decision: &mut Decision,
    script: &Script,
    reads: &R,
    thread: ThreadNo,
    row: &ThreadRow,
    instr: Option<&'a Instr>,
) -> NextAction<'a>
    requires readable { R.is_readable reads.now }
    requires row { thread_of (R.state reads.now) thread ≡ Some row.now }
    ensures decided { let S = R.state reads.now in decided_by script.now thread S (Some row.now) decision.new result ≡ decision_of_row script.now S thread (Some row.now) (task_behind_return S thread row.now (option_copied instr.entry)) }
    ensures step { IsStepOf (task_behind_return (R.state reads.now) thread row.now (option_copied instr.entry)) result }
    ensures suits { SuitsRow (R.state reads.now) thread row.now result }
{
    if let Some(what) = reads.first_owed(thread) {
        pay(decision, what);
        return NextAction::Decided;
    }
    run_or_step(decision, script, reads, thread, row, instr)
}

/// What the thread of this row does next: its return, where it is at one, comes before all else.
fn action_of_row<'a, R: Reads>(
    decision: &mut Decision,
    script: &'a Script,
    reads: &R,
    thread: ThreadNo,
    row: &ThreadRow,
) -> NextAction<'a>
    requires readable { R.is_readable reads.now }
    requires row { thread_of (R.state reads.now) thread ≡ Some row.now }
    ensures decided { let S = R.state reads.now in decided_by script.now thread S (Some row.now) decision.new result ≡ decision_of_row script.now S thread (Some row.now) (task_of_row script.now S thread (Some row.now)) }
    ensures step { let S = R.state reads.now in IsStepOf (task_of_row script.now S thread (Some row.now)) result }
    ensures suits { Suits script.now (R.state reads.now) thread (Some row.now) result }
{
    let instr = instruction(script, row);
    match instr {
        Some(instr) if is_returning(row.part) => {
            return_of(decision, reads, thread, row, instr);
            NextAction::Decided
        }
        _ => pay_or_step(decision, script, reads, thread, row, instr),
    }
}

/// What a thread that may act does next: what was decided, a body that runs, the next step of its instruction, which
/// `decide_step` decides, or its death, which `reap` and `end` decide, or a burial, which `bury` does.
pub fn next_action<'a, R: Reads>(
    decision: &mut Decision,
    script: &'a Script,
    reads: &R,
    thread: ThreadNo,
) -> NextAction<'a>
    requires readable { R.is_readable reads.now }
    requires able { IsTrue (may_act script.now (R.state reads.now) thread) }
    ensures decided { let S = R.state reads.now in decided_by script.now thread S (thread_of S thread) decision.new result ≡ decision_of script.now S thread }
    ensures step { let S = R.state reads.now in IsStepOf (task_of script.now S thread) result }
    ensures suits { let S = R.state reads.now in Suits script.now S thread (thread_of S thread) result }
{
    match reads.thread(thread) {
        Some(row) => action_of_row(decision, script, reads, thread, row),
        None => {
            nothing(decision);
            NextAction::Decided
        }
    }
}

/// What a thread that may act does next, with its instruction's step decided.
#[tactic(auto, using(machine::proofs::Instructions::task_has_registers, machine::proofs::Instructions::task_has_ranges))]
fn decide_actor<R: Reads>(
    decision: &mut Decision,
    script: &Script,
    reads: &R,
    thread: ThreadNo,
) -> Option<Body>
    requires shaped { IsShaped script.now }
    requires readable { R.is_readable reads.now }
    requires able { IsTrue (may_act script.now (R.state reads.now) thread) }
    ensures { let S = R.state reads.now in decision_by script.now thread S (planned decision.new result) ≡ decision_of script.now S thread }
{
    match next_action(decision, script, reads, thread) {
        NextAction::Decided => None,
        NextAction::Runs(body) => Some(body),
        NextAction::Steps(instr) => {
            decide_step(decision, script, reads, thread, instr);
            None
        }
        NextAction::Dies => {
            reap(decision, script, reads, thread);
            None
        }
        NextAction::Ends => {
            end(decision, thread);
            None
        }
        NextAction::Buries(dfc) => {
            bury(decision, script, reads, dfc);
            None
        }
    }
}

/// What a thread does in its next action: a body that runs, or what was decided. Nothing, where it may not act.
pub fn decide_action<R: Reads>(
    decision: &mut Decision,
    script: &Script,
    reads: &R,
    thread: ThreadNo,
) -> Option<Body>
    requires shaped { IsShaped script.now }
    requires readable { R.is_readable reads.now }
    ensures { let S = R.state reads.now in decision_by script.now thread S (planned decision.new result) ≡ decision_of script.now S thread }
{
    if !may_act(script, reads, thread) {
        nothing(decision);
        return None;
    }
    decide_actor(decision, script, reads, thread)
}
