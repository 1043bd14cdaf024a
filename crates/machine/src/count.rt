//! Counting references by going over the rows that hold one, up to a number at which counting stops: whether an object has
//! a further reference is known at the second, and the rows behind aren't looked at.
ghost use Rattle.std.specs.Prelude.{◌≡◌, ◌+◌, ◌<◌, ◌≤◌, if◌then◌else◌, min, nat_lt};
ghost use Rattle.machine.specs.References.{total, same, option_names, slot_names, thread_names, owed_names, mutex_names, session_names, message_names, server_names, kernel_names, stage_holds, count_of};
ghost use Rattle.machine.specs.Kept.{is_kept, dies};

use crate::returning::is_sought;
use crate::rows::thread_of;
use crate::{HandleSlot, Owed, State, ThreadRow};
use state_rows::{Message, SessionRow, Stage};
use sym_base::{Items, ObjNo};

/// 1 where the two are one object, else 0.
fn same(one: ObjNo, object: ObjNo) -> u32
    ensures number { result ≡ same one object }
    ensures bit { result ≤ 1 }
{
    if one.0 == object.0 { 1 } else { 0 }
}

/// 1 where there is an object and it is this one.
fn option_names(object: ObjNo, one: Option<ObjNo>) -> u32
    ensures number { result ≡ option_names object one }
    ensures bit { result ≤ 1 }
{
    match one {
        Some(one) => same(one, object),
        None => 0,
    }
}

/// How often a thread refers to an object.
fn thread_names(object: ObjNo, row: &Option<ThreadRow>) -> u32
    ensures { result ≡ thread_names object row.now }
{
    match row {
        Some(row) => option_names(object, row.link) + option_names(object, row.uses),
        None => 0,
    }
}

/// How often an item that is owed stands for a reference to an object.
fn owed_names(object: ObjNo, owed: &Owed) -> u32
    ensures { result ≡ owed_names object owed.now }
{
    match owed {
        Owed::Close(_, one) => same(*one, object),
        Owed::Sweep(_) => 0,
    }
}

/// So many references more, up to the number at which counting stops.
fn counted(count: u32, more: u32, most: u32) -> u32
    ensures { result ≡ min (count + more) most }
{
    count.saturating_add(more).min(most)
}

/// Whether a slot of a handle table is a handle of an object.
fn is_handle_of(object: ObjNo, slot: &HandleSlot) -> bool
    ensures { slot_names object slot.now ≡ (if result then 1 else 0) }
{
    match &slot.object {
        Some(one) => one.0 == object.0,
        None => false,
    }
}

/// So many references, and those of a handle table to an object. Most slots are free: of those no more is looked at.
fn table_total(object: ObjNo, table: &[HandleSlot], count: u32, most: u32) -> u32
    requires { count ≤ most }
    ensures { result ≡ min (count + total (slot_names object) table.now) most }
{
    let mut count = count;
    for slot in table {
        if is_handle_of(object, slot) {
            if most - count <= 1 {
                return most;
            }
            count += 1;
        }
    }
    count
}

/// So many references, and those of the handle tables to an object.
fn tables_total(object: ObjNo, tables: &[Items<HandleSlot>], count: u32, most: u32) -> u32
    requires { count ≤ most }
    ensures { result ≡ min (count + total (total (slot_names object)) tables.now) most }
{
    let mut count = count;
    for table in tables {
        if count == most {
            return most;
        }
        count = table_total(object, table.as_slice(), count, most);
    }
    count
}

/// So many references, and those of the threads to an object.
fn threads_total(object: ObjNo, threads: &[Option<ThreadRow>], count: u32, most: u32) -> u32
    requires { count ≤ most }
    ensures { result ≡ min (count + total (thread_names object) threads.now) most }
{
    let mut count = count;
    for row in threads {
        if count == most {
            return most;
        }
        count = counted(count, thread_names(object, row), most);
    }
    count
}

/// So many references, and those that what a thread owes stands for.
fn duties_total(object: ObjNo, duties: &[Owed], count: u32, most: u32) -> u32
    requires { count ≤ most }
    ensures { result ≡ min (count + total (owed_names object) duties.now) most }
{
    let mut count = count;
    for owed in duties {
        if count == most {
            return most;
        }
        count = counted(count, owed_names(object, owed), most);
    }
    count
}

/// So many references, and those that what the threads owe stands for.
fn owed_total(object: ObjNo, owed: &[Items<Owed>], count: u32, most: u32) -> u32
    requires { count ≤ most }
    ensures { result ≡ min (count + total (total (owed_names object)) owed.now) most }
{
    let mut count = count;
    for duties in owed {
        if count == most {
            return most;
        }
        count = duties_total(object, duties.as_slice(), count, most);
    }
    count
}

/// So many references, and those of a thread that owns an object, by the mutexes that it holds or the servers that it made.
fn listed_total(object: ObjNo, owned: &[ObjNo], count: u32, most: u32) -> u32
    requires { count ≤ most }
    ensures { result ≡ min (count + total (mutex_names object) owned.now) most }
{
    let mut count = count;
    for one in owned {
        if count == most {
            return most;
        }
        count = counted(count, same(*one, object), most);
    }
    count
}

/// So many references, and those of the threads that own an object.
fn lists_total(object: ObjNo, lists: &[Items<ObjNo>], count: u32, most: u32) -> u32
    requires { count ≤ most }
    ensures { result ≡ min (count + total (total (mutex_names object)) lists.now) most }
{
    let mut count = count;
    for owned in lists {
        if count == most {
            return most;
        }
        count = listed_total(object, owned.as_slice(), count, most);
    }
    count
}

/// Whether this is the row of a session that is linked to this server.
fn is_linked_to(object: ObjNo, session: &Option<SessionRow>) -> bool
    ensures { session_names object session.now ≡ (if result then 1 else 0) }
{
    match session {
        Some(row) => match &row.server {
            Some(one) => one.0 == object.0,
            None => false,
        },
        None => false,
    }
}

/// So many references, and those of the sessions that are linked to an object. Most numbers have no session.
fn sessions_total(object: ObjNo, sessions: &[Option<SessionRow>], count: u32, most: u32) -> u32
    requires { count ≤ most }
    ensures { result ≡ min (count + total (session_names object) sessions.now) most }
{
    if count == most {
        return most;
    }
    let mut count = count;
    for session in sessions {
        if is_linked_to(object, session) {
            if most - count <= 1 {
                return most;
            }
            count += 1;
        }
    }
    count
}

/// How often a message refers to an object: to its session and to its client.
fn message_names(object: ObjNo, message: &Message) -> u32
    ensures number { result ≡ message_names object message.now }
    ensures few { result ≤ 2 }
{
    same(message.row.session, object) + same(message.row.client, object)
}

/// So many references, and those of the outstanding messages to an object.
fn messages_total(object: ObjNo, outstanding: &[Message], count: u32, most: u32) -> u32
    requires { count ≤ most }
    ensures { result ≡ min (count + total (message_names object) outstanding.now) most }
{
    let mut count = count;
    for message in outstanding {
        if count == most {
            return most;
        }
        count = counted(count, message_names(object, message), most);
    }
    count
}

/// So many references, and those of servers, sessions and messages to an object.
fn serving_total(state: &State, object: ObjNo, count: u32, most: u32) -> u32
    requires { count ≤ most }
    ensures { result ≡ min (count + server_names state.now object) most }
{
    let count = messages_total(
        object,
        state.serving.messages.outstanding.as_slice(),
        count,
        most,
    );
    let count = lists_total(object, state.serving.owned.as_slice(), count, most);
    sessions_total(
        object,
        state.serving.servers.sessions.as_slice(),
        count,
        most,
    )
}

/// 1 until a thread's burial, then 0.
fn stage_holds(stage: Stage) -> u32
    ensures number { result ≡ stage_holds stage }
    ensures bit { result ≤ 1 }
{
    match stage {
        Stage::Buried => 0,
        Stage::Live | Stage::Doomed | Stage::Cleaned => 1,
    }
}

/// How often the kernel itself refers to an object: it holds each thread until its burial.
fn kernel_names(state: &State, object: ObjNo) -> u32
    ensures number { result ≡ kernel_names state.now object }
    ensures bit { result ≤ 1 }
{
    match thread_of(state, object) {
        Some(row) => stage_holds(row.stage),
        None => 0,
    }
}

/// The number of references to an object, up to a number at which counting stops. The short lists come first.
fn capped_count(state: &State, object: ObjNo, most: u32) -> u32
    requires { 1 ≤ most }
    ensures { result ≡ min (count_of state.now object) most }
{
    let count = kernel_names(state, object);
    let count = threads_total(object, state.references.threads.as_slice(), count, most);
    let count = owed_total(object, state.references.owed.as_slice(), count, most);
    let count = lists_total(
        object,
        state.synchronization.mutexes.as_slice(),
        count,
        most,
    );
    let count = tables_total(object, state.references.handles.as_slice(), count, most);
    serving_total(state, object, count, most)
}

/// The count of an object: the number of references to it.
pub fn count_of(state: &State, object: ObjNo) -> u32
    requires { count_of state.now object < 65536 }
    ensures { result ≡ count_of state.now object }
{
    capped_count(state, object, u32::MAX)
}

/// Whether an object has a reference.
#[tactic(auto, using(crate::proofs::Capped::one_above_none))]
pub fn is_counted(state: &State, object: ObjNo) -> bool
    ensures { result ≡ nat_lt 0 (count_of state.now object) }
{
    capped_count(state, object, 1) == 1
}

/// Whether an object on which somebody is out is kept as its last reference is given up.
fn is_kept(state: &State, object: ObjNo) -> bool
    ensures { result ≡ is_kept state.now object }
{
    state.mode.keep && is_sought(state, object)
}

/// Whether an object dies as one of its references is given up: it has no other, and isn't kept.
#[tactic(auto, using(crate::proofs::Capped::two_is_one))]
pub fn dies(state: &State, object: ObjNo) -> bool
    ensures { result ≡ dies state.now object }
{
    capped_count(state, object, 2) == 1 && !is_kept(state, object)
}
