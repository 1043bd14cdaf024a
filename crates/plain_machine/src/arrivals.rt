//! The ready list along the moves of an action.
ghost use Rattle.std.specs.Prelude.{◌≡◌, IfOk, OnOk, filter};
ghost use Rattle.machine.specs.Arrivals.{is_listed, taken_out, one_of, threads_of, arrive};
ghost use Rattle.machine.specs.Task.{is_ready};

use machine::{Move, Owed, State, TouchedThreads};
use plain_rows::unlisted;
use readings::is_ready;
use script_types::Script;
use std::alloc::Global;
use sym_base::{Items, NoMemory, ThreadNo};

/// Whether a thread stands in a list.
fn is_listed(list: &[ThreadNo], thread: ThreadNo) -> bool
    ensures { result ≡ is_listed list.now thread }
{
    list.iter().any(|other| other.0 == thread.0)
}

/// A thread whose priority a move sets leaves the list first, and so arrives anew. One whose row is swept leaves it.
pub fn take_out(alloc: Global, change: Move, list: &mut Items<ThreadNo>) -> Result<(), NoMemory>
    ensures { OnOk result (list.new ≡ taken_out change list.old) }
{
    let thread = match change {
        Move::SetPriority(thread, _) => thread,
        Move::Pay(Owed::Sweep(object)) => object,
        _ => return Ok(()),
    };
    *list = Items::new(unlisted(alloc, thread, list.as_slice())?);
    Ok(())
}

/// A thread comes behind the others, where it is ready and doesn't stand in the list.
fn arrive(
    script: &Script,
    state: &State,
    thread: Option<ThreadNo>,
    list: &mut Items<ThreadNo>,
) -> Result<(), NoMemory>
    ensures { OnOk result (list.new ≡ arrive script.now state.now (one_of thread) list.old) }
{
    let Some(thread) = thread else {
        return Ok(());
    };
    if is_ready(script, state, thread) && !is_listed(list.as_slice(), thread) {
        list.push(thread)?;
    }
    Ok(())
}

/// Those come that a move touched.
pub fn arrive_touched(
    script: &Script,
    state: &State,
    touched: TouchedThreads,
    list: &mut Items<ThreadNo>,
) -> Result<(), NoMemory>
    ensures { OnOk result (list.new ≡ arrive script.now state.now (threads_of touched) list.old) }
{
    arrive(script, state, touched.first, list)?;
    arrive(script, state, touched.second, list)
}

/// Those of the list that are ready.
pub fn still_ready(
    alloc: Global,
    script: &Script,
    state: &State,
    list: &[ThreadNo],
) -> Result<Items<ThreadNo>, NoMemory>
    ensures { IfOk result (λ ready. ready ≡ filter (is_ready script.now state.now) list.now) }
{
    let mut ready = Vec::new(alloc);
    for thread in list {
        if is_ready(script, state, *thread) {
            ready.push(*thread)?;
        }
    }
    Ok(Items::new(ready))
}
