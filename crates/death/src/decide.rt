//! What the steps of a death decide (Symbian OS Internals, the chapter on threads, processes and libraries, on how a thread
//! dies). The order in which things are given up is this project's own.
ghost use Rattle.std.specs.Prelude.{◌≡◌, Some};
ghost use Rattle.machine.specs.declared.task.Task.TheVariants.{Clean};
ghost use Rattle.machine.specs.Rows.{first_owed, thread_of};
ghost use Rattle.machine.specs.Steps.{decision_of};
ghost use Rattle.machine.specs.Task.{task_of};
ghost use Rattle.next_actions.specs.NextActions.{holdings_at};
ghost use Rattle.death.specs.Dying.{IfNothingLeft, IsReapable, ends_with, reaped_of};

use decisions::doom;
use entry_log::Step;
use machine::Decision;
use next_actions::{pay, reap};
use readings::Reads;
use script_types::Script;
use sym_base::{Exit, ThreadNo};

/// What came of reaping a thread.
#[derive(Clone, Copy)]
pub enum Reaped {
    /// The oldest of what it owed was paid, or the first of what it had was given up.
    Step,
    /// It owes nothing and has nothing. What it does next is to be cleaned.
    NothingLeft,
}

/// A thread ends with this exit: it is doomed.
pub fn decide_doom(decision: &mut Decision, thread: ThreadNo, exit: Exit)
    ensures { decision.new ≡ ends_with thread exit }
{
    decision.step = Step::End;
    decision.moves.clear();
    doom(&mut decision.moves, thread, exit);
    decision.answer = None;
}

/// What a doomed thread does that owes nothing: the first of what it has goes, or it is cleaned.
#[tactic(auto, using(crate::proofs::Dying::reaps, crate::proofs::Dying::cleans))]
fn decide_given<R: Reads>(
    decision: &mut Decision,
    script: &Script,
    reads: &R,
    thread: ThreadNo,
) -> Reaped
    requires readable { R.is_readable reads.now }
    requires dying { IsReapable script.now (R.state reads.now) thread }
    requires paid { first_owed (R.state reads.now) thread ≡ None }
    ensures decided { decision.new ≡ decision_of script.now (R.state reads.now) thread }
    ensures left { let S = R.state reads.now in result ≡ reaped_of None (holdings_at S thread (thread_of S thread)) }
    ensures next { IfNothingLeft result (task_of script.now (R.state reads.now) thread ≡ Some Clean) }
{
    if reap(decision, script, reads, thread) {
        Reaped::Step
    } else {
        Reaped::NothingLeft
    }
}

/// What a doomed thread does: the oldest of what it owes is paid, or the first of what it has goes, or it is cleaned.
#[tactic(auto, using(crate::proofs::Dying::pays))]
pub fn decide_reaped<R: Reads>(
    decision: &mut Decision,
    script: &Script,
    reads: &R,
    thread: ThreadNo,
) -> Reaped
    requires readable { R.is_readable reads.now }
    requires dying { IsReapable script.now (R.state reads.now) thread }
    ensures decided { decision.new ≡ decision_of script.now (R.state reads.now) thread }
    ensures left { let S = R.state reads.now in result ≡ reaped_of (first_owed S thread) (holdings_at S thread (thread_of S thread)) }
    ensures next { IfNothingLeft result (task_of script.now (R.state reads.now) thread ≡ Some Clean) }
{
    match reads.first_owed(thread) {
        Some(what) => {
            pay(decision, what);
            Reaped::Step
        }
        None => decide_given(decision, script, reads, thread),
    }
}
