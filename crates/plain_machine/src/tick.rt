//! `tick`: a time slice ends.
ghost use Rattle.state_rows.specs.Nano.{turned};
ghost use Rattle.std.specs.Prelude.{◌≡◌, IfOk, OnOk};
ghost use Rattle.machine.specs.Tick.{after_tick, moved_behind, tick};
ghost use Rattle.machine.specs.Transition.{left};

use crate::choice::first_ready;
use entry_log::{Effects, Step};
use machine::{Outcome, State};
use plain_rows::unlisted;
use readings::Reads;
use std::alloc::Global;
use sym_base::{Items, NoMemory, ThreadNo};

/// The list, where this thread gets a new arrival.
fn moved_behind(
    alloc: Global,
    list: &[ThreadNo],
    first: Option<ThreadNo>,
) -> Result<Items<ThreadNo>, NoMemory>
    ensures { IfOk result (λ next. next ≡ moved_behind list.now first) }
{
    let Some(first) = first else {
        return Ok(Items::new(Vec::from_slice(alloc, list)?));
    };
    let mut next = unlisted(alloc, first, list)?;
    next.push(first)?;
    Ok(Items::new(next))
}

/// The thread whose turn ends: one that holds a fast mutex is spared.
fn turned(state: &State, first: Option<ThreadNo>) -> Option<ThreadNo>
    ensures { result ≡ turned state.now.synchronization.nano first }
{
    let first = first?;
    if state.is_holding(first) {
        None
    } else {
        Some(first)
    }
}

/// The ready thread of greatest priority that has been ready longest goes behind its equals, unless it holds
/// a fast mutex.
pub fn tick(alloc: Global, state: &State, ready: &mut Items<ThreadNo>) -> Result<Outcome, NoMemory>
    ensures outcome { IfOk result (λ outcome. left state.now outcome ≡ tick state.now) }
    ensures ready { OnOk result (ready.new ≡ after_tick state.now ready.old) }
{
    let first = turned(state, first_ready(state, ready.as_slice()));
    *ready = moved_behind(alloc, ready.as_slice(), first)?;
    Ok(Outcome {
        step: Step::Turn,
        effects: Effects::new(),
        answer: None,
    })
}
