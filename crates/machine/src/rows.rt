//! Reading and changing lists of rows by number. A number without a row reads as none, and changing it
//! changes nothing.
ghost use Rattle.std.specs.Prelude.{◌≡◌, [], None, option_copied, slice_set};
ghost use Rattle.std.specs.List.{slice_index_or};
ghost use Rattle.machine.specs.Rows.{object_of, thread_of, table_of, owed_of, first_owed};

use crate::{HandleSlot, Owed, State, ThreadRow};
use state_rows::ObjectRow;
use sym_base::{Items, ObjNo, ThreadNo};

/// The row of a number, None past the list's end.
pub fn row_of<T: Copy>(rows: &Items<Option<T>>, number: ObjNo) -> Option<T>
    ensures { result ≡ slice_index_or rows.now number.0 None }
{
    let at = number.0 as usize;
    if at < rows.len() { rows.get(at) } else { None }
}

/// Puts another row for a number.
pub fn set_row<T: Copy>(rows: &mut Items<Option<T>>, number: ObjNo, row: Option<T>)
    ensures { rows.new ≡ slice_set rows.old number.0 row }
{
    let at = number.0 as usize;
    if at < rows.len() {
        rows.set(at, row);
    }
}

/// The object of this number, where it was made and isn't swept.
pub fn object_of(state: &State, object: ObjNo) -> Option<ObjectRow>
    ensures { result ≡ object_of state.now object }
{
    row_of(&state.references.objects, object)
}

/// The thread of this number.
pub fn thread_of(state: &State, thread: ThreadNo) -> Option<ThreadRow>
    ensures { result ≡ thread_of state.now thread }
{
    row_of(&state.references.threads, thread)
}

/// The thread of this number, where its row stands.
pub fn thread_in(threads: &Items<Option<ThreadRow>>, thread: ThreadNo) -> Option<&ThreadRow>
    ensures { option_copied result ≡ slice_index_or threads.now thread.0 None }
{
    let at = thread.0 as usize;
    if at < threads.len() {
        threads.as_slice()[at].as_ref()
    } else {
        None
    }
}

/// The handle table of a process or a thread.
pub fn table_of(state: &State, owner: ObjNo) -> &[HandleSlot]
    ensures { result.now ≡ table_of state.now owner }
{
    let at = owner.0 as usize;
    if at < state.references.handles.len() {
        state.references.handles.as_slice()[at].as_slice()
    } else {
        &[]
    }
}

/// What a thread owes, the oldest first.
fn owed_of(state: &State, thread: ThreadNo) -> &[Owed]
    ensures { result.now ≡ owed_of state.now thread }
{
    let at = thread.0 as usize;
    if at < state.references.owed.len() {
        state.references.owed.as_slice()[at].as_slice()
    } else {
        &[]
    }
}

/// The oldest of what a thread owes.
pub fn first_owed(state: &State, thread: ThreadNo) -> Option<Owed>
    ensures { result ≡ first_owed state.now thread }
{
    owed_of(state, thread).first().copied()
}

/// Puts another slot into this table.
fn set_in_table(table: &mut Items<HandleSlot>, index: usize, slot: HandleSlot)
    ensures { table.new ≡ slice_set table.old index slot }
{
    if index < table.len() {
        table.set(index, slot);
    }
}

/// Puts another slot into the table of a process or a thread.
pub fn set_slot(tables: &mut Items<Items<HandleSlot>>, owner: ObjNo, index: usize, slot: HandleSlot)
    ensures { tables.new ≡ slice_set tables.old owner.0 (slice_set (slice_index_or tables.old owner.0 []) index slot) }
{
    let at = owner.0 as usize;
    if at < tables.len() {
        set_in_table(tables.get_mut(at), index, slot);
    }
}
