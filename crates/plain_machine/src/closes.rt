//! References that are given up, on the plain machine's lists.
ghost use Rattle.std.specs.Prelude.{◌≡◌, OnOk};
ghost use Rattle.machine.specs.Kept.{dies};
ghost use Rattle.machine.specs.Moves.{link_of, link_of_row, moved, objects_closed};
ghost use Rattle.machine.specs.Rows.{thread_of};
ghost use Rattle.readings.specs.Dying.{dead_by};

use crate::slots::lose_slot;
use entry_log::Holder;
use machine::{Move, Owed, State, row_of, set_row, thread_in};
use plain_rows::{drop_first_owed, locks_swept, owe_close, threads_closed, threads_lose};
use plain_servers::{owned_lose, server_of, servers_closed, servers_lose, servers_swept};
use state_rows::{ObjectRow, dead_row};
use std::alloc::Global;
use sym_base::{Items, NoMemory, ObjNo, ThreadNo};

/// An object that dies as a reference is given up is dead from then on.
fn close_object(objects: &mut Items<Option<ObjectRow>>, dying: bool, object: ObjNo)
    ensures { objects.new ≡ objects_closed dying object objects.old }
{
    if dying {
        let dead = dead_row(row_of(objects, object));
        set_row(objects, object, dead);
    }
}

/// The link of a thread to its process.
fn process_link(state: &State, object: ObjNo) -> Option<ObjNo>
    ensures { result ≡ link_of_row (thread_of state.now object) }
{
    thread_in(&state.references.threads, object)?.link
}

/// An object's own reference: a thread's link to its process, or a session's to its server.
fn link_of(state: &State, object: ObjNo) -> Option<ObjNo>
    ensures { result ≡ link_of state.now object }
{
    match process_link(state, object) {
        Some(process) => Some(process),
        None => server_of(&state.serving.servers, object),
    }
}

/// A holder gives its reference up, of which the object dies or not, and the thread owes what a close leaves to do.
pub fn lose(
    alloc: Global,
    state: &mut State,
    thread: ThreadNo,
    holder: Holder,
    object: ObjNo,
    dying: bool,
) -> Result<(), NoMemory>
    requires { dying ≡ dies state.old object }
    ensures { OnOk result (state.new ≡ moved thread (Move.Lose holder object) state.old) }
{
    let link = link_of(state, object);
    lose_slot(&mut state.references.handles, holder);
    threads_lose(&mut state.references.threads, holder);
    servers_lose(alloc, &mut state.serving.servers, holder)?;
    owned_lose(alloc, &mut state.serving.owned, holder, object)?;
    close_object(&mut state.references.objects, dying, object);
    threads_closed(&mut state.references.threads, dying, object);
    servers_closed(alloc, &mut state.serving.servers, dying, object)?;
    owe_close(&mut state.references.owed, thread, dying, object, link)
}

/// The thread pays a close that it owes, of which the object dies or not.
fn pay_close(
    alloc: Global,
    state: &mut State,
    thread: ThreadNo,
    holder: Holder,
    object: ObjNo,
    dying: bool,
) -> Result<(), NoMemory>
    requires { dying ≡ dies state.old object }
    ensures { OnOk result (state.new ≡ moved thread (Move.Pay (Owed.Close holder object)) state.old) }
{
    let link = link_of(state, object);
    close_object(&mut state.references.objects, dying, object);
    threads_closed(&mut state.references.threads, dying, object);
    servers_closed(alloc, &mut state.serving.servers, dying, object)?;
    drop_first_owed(&mut state.references.owed, thread);
    owe_close(&mut state.references.owed, thread, dying, object, link)
}

/// The thread removes all rows of a dead object.
fn pay_sweep(alloc: Global, state: &mut State, thread: ThreadNo, object: ObjNo)
    ensures { state.new ≡ moved thread (Move.Pay (Owed.Sweep object)) state.old }
{
    set_row(&mut state.references.objects, object, None);
    set_row(&mut state.references.threads, object, None);
    locks_swept(alloc, &mut state.synchronization.locks, object);
    servers_swept(alloc, &mut state.serving.servers, object);
    drop_first_owed(&mut state.references.owed, thread);
}

/// The thread pays the oldest of what it owes, of which this object dies.
#[tactic(auto, using(crate::proofs::MoveDeaths::dies_of_pay))]
pub fn pay(
    alloc: Global,
    state: &mut State,
    thread: ThreadNo,
    what: Owed,
    dead: Option<ObjNo>,
) -> Result<(), NoMemory>
    requires { dead ≡ dead_by (Move.Pay what) state.old }
    ensures { OnOk result (state.new ≡ moved thread (Move.Pay what) state.old) }
{
    match what {
        Owed::Close(holder, object) => {
            pay_close(alloc, state, thread, holder, object, dead.is_some())
        }
        Owed::Sweep(object) => {
            pay_sweep(alloc, state, thread, object);
            Ok(())
        }
    }
}
