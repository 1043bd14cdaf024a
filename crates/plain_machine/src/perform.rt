//! The moves of an action, made on the plain machine's lists.
ghost use Rattle.std.specs.Prelude.{◌≡◌, ◌+◌, ◌≤◌, length, OnOk};
ghost use Rattle.machine.specs.Moves.{use_of, moved};
ghost use Rattle.machine.specs.Room.{HasRoom, AreSmallTables};
ghost use Rattle.plain_machine.specs.Allowed.{IsSmall};
ghost use Rattle.readings.specs.Dying.{dead_by};
ghost use Rattle.state_rows.specs.ObjectRows.{with_object};

use crate::closes::{lose, pay};
use crate::slots::gain_slot;
use entry_log::Holder;
use machine::{Move, State, Waiting, object_of, thread_in};
use plain_reads::next_object;
use plain_rows::{
    fill_memory, make_death_move, make_deferred_move, make_lock_move, make_logon_move,
    make_nano_move, make_request_move, owe_use, threads_advance, threads_find, threads_gain,
    threads_go_on, threads_keep, threads_lose, threads_miss, threads_open, threads_set_priority,
    threads_wait, threads_write, threads_write_message,
};
use plain_servers::{make_copy, make_message_move, make_server_move, owned_gain};
use state_rows::{ObjectRow, place_of};
use std::alloc::Global;
use sym_base::{Items, Kind, Name, NoMemory, ObjNo, ThreadNo};

/// The object that a thread's instruction uses.
fn use_of(state: &State, thread: ThreadNo) -> Option<ObjNo>
    ensures { result ≡ use_of state.now thread }
{
    thread_in(&state.references.threads, thread)?.uses
}

/// The row of an object stands at a number that has none, or that comes next.
fn place_object(
    objects: &mut Items<Option<ObjectRow>>,
    number: ObjNo,
    row: ObjectRow,
) -> Result<(), NoMemory>
    ensures { OnOk result (objects.new ≡ with_object objects.old number.0 row) }
{
    let at = number.0 as usize;
    if at < objects.len() {
        objects.set(at, Some(row));
    } else {
        objects.push(Some(row))?;
    }
    Ok(())
}

/// Makes an object, whose first reference is the holder's.
fn make(
    state: &mut State,
    thread: ThreadNo,
    kind: Kind,
    name: Name,
    holder: Holder,
) -> Result<(), NoMemory>
    requires { HasRoom 1 state.old }
    ensures { OnOk result (state.new ≡ moved thread (Move.Make kind name holder) state.old) }
{
    let object = next_object(state);
    let row = ObjectRow {
        kind,
        name,
        dead: false,
        place: state.references.made,
    };
    place_object(&mut state.references.objects, object, row)?;
    state.references.made += 1;
    gain_slot(&mut state.references.handles, holder, object);
    threads_gain(&mut state.references.threads, holder, object);
    owned_gain(&mut state.serving.owned, holder, object)
}

/// The thread goes on to its next instruction, and owes the close of what it used.
fn advance(state: &mut State, thread: ThreadNo, other: ThreadNo) -> Result<(), NoMemory>
    requires { HasRoom 1 state.old }
    ensures { OnOk result (state.new ≡ moved thread (Move.Advance other) state.old) }
{
    let uses = use_of(state, other);
    threads_advance(&mut state.references.threads, other);
    owe_use(&mut state.references.owed, other, uses)
}

/// The thread owes the close of what it used, and doesn't use it any more.
fn put_down(state: &mut State, thread: ThreadNo, other: ThreadNo) -> Result<(), NoMemory>
    ensures { OnOk result (state.new ≡ moved thread (Move.PutDown other) state.old) }
{
    let uses = use_of(state, other);
    threads_lose(&mut state.references.threads, Holder::Temp(other));
    owe_use(&mut state.references.owed, other, uses)
}

/// A holder gets a reference.
fn gain(state: &mut State, thread: ThreadNo, holder: Holder, object: ObjNo)
    requires { AreSmallTables state.old.references.handles }
    ensures { state.new ≡ moved thread (Move.Gain holder object) state.old }
{
    gain_slot(&mut state.references.handles, holder, object);
    threads_gain(&mut state.references.threads, holder, object);
}

/// One move in an action of a thread, of which this object dies.
#[tactic(auto, using(crate::proofs::MoveDeaths::dies_of_lose))]
pub fn make_move(
    alloc: Global,
    state: &mut State,
    thread: ThreadNo,
    change: Move,
    dead: Option<ObjNo>,
) -> Result<(), NoMemory>
    requires room { HasRoom 1 state.old }
    requires small { IsSmall state.old }
    requires dead { dead ≡ dead_by change state.old }
    ensures { OnOk result (state.new ≡ moved thread change state.old) }
{
    match change {
        Move::Make(kind, name, holder) => return make(state, thread, kind, name, holder),
        Move::Lose(holder, object) => {
            return lose(alloc, state, thread, holder, object, dead.is_some());
        }
        Move::PutDown(other) => return put_down(state, thread, other),
        Move::Advance(other) => return advance(state, thread, other),
        Move::Pay(what) => return pay(alloc, state, thread, what, dead),
        Move::Gain(holder, object) => gain(state, thread, holder, object),
        Move::Open(other, object, part) => {
            threads_open(&mut state.references.threads, other, object, part);
        }
        Move::Miss(other, _) => threads_miss(&mut state.references.threads, other),
        Move::Find(other, object) => {
            let place = place_of(&object_of(state, object));
            threads_find(&mut state.references.threads, other, object, place);
        }
        Move::GoOn(other, part) => threads_go_on(&mut state.references.threads, other, part),
        Move::Keep(other, number) => threads_keep(&mut state.references.threads, other, number),
        Move::Write(other, register, value) => {
            threads_write(&mut state.references.threads, other, register, value);
        }
        Move::WriteMessage(other, register, number) => {
            threads_write_message(&mut state.references.threads, other, register, number);
        }
        Move::Wait(other, what) => threads_wait(&mut state.references.threads, other, what),
        Move::Wake(other) => threads_wait(&mut state.references.threads, other, Waiting::Nothing),
        Move::SetPriority(other, priority) => {
            threads_set_priority(&mut state.references.threads, other, priority);
        }
        Move::Nano(change) => make_nano_move(&mut state.synchronization.nano, change),
        Move::Deferred(change) => {
            return make_deferred_move(alloc, &mut state.synchronization.deferred, change);
        }
        Move::Requests(change) => {
            return make_request_move(alloc, &mut state.synchronization.requests, change);
        }
        Move::Locks(change) => return make_lock_move(alloc, state, thread, change),
        Move::Logons(change) => {
            return make_logon_move(alloc, &mut state.synchronization.logons, change);
        }
        Move::Death(change) => return make_death_move(state, thread, &change),
        Move::Servers(change) => return make_server_move(state, thread, change),
        Move::Messages(change) => return make_message_move(alloc, state, thread, change),
        Move::Fill(process, at, length, byte) => {
            return fill_memory(
                alloc,
                &mut state.services.memories,
                process,
                at,
                length,
                byte,
            );
        }
        Move::Copies(change) => return make_copy(alloc, state, thread, &change),
    }
    Ok(())
}
