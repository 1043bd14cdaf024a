//! The thread of greatest priority among some, of the plain machine's state.
ghost use Rattle.std.specs.Prelude.{◌≡◌};
ghost use Rattle.sym_base.specs.Greatest.{first_of_greatest};
ghost use Rattle.machine.specs.Choice.{priority_of};
ghost use Rattle.plain_reads.specs.BestSoFar.{better};

use machine::{State, thread_in};
use sym_base::ThreadNo;

/// The priority of a thread, 0 where there is none.
fn priority_of(state: &State, thread: ThreadNo) -> u8
    ensures { result ≡ priority_of state.now thread }
{
    match thread_in(&state.references.threads, thread) {
        Some(row) => row.priority,
        None => 0,
    }
}

/// The best so far, where a thread more has come: that one only where its priority is greater.
fn better(state: &State, best: Option<ThreadNo>, next: ThreadNo) -> Option<ThreadNo>
    ensures { result ≡ better (priority_of state.now) best next }
{
    match best {
        Some(first) if priority_of(state, first) >= priority_of(state, next) => Some(first),
        _ => Some(next),
    }
}

/// The first of the greatest priority among threads. None where there are none.
#[tactic(auto, using(crate::proofs::Best::best_step, crate::proofs::Best::best_alone))]
pub fn first_of_greatest(state: &State, threads: &[ThreadNo]) -> Option<ThreadNo>
    ensures { result ≡ first_of_greatest (priority_of state.now) threads.now }
{
    let mut best = None;
    for thread in threads {
        best = better(state, best, *thread);
    }
    best
}
