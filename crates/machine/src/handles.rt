//! Handles of processes and threads: the next one of a table, and whose table a handle is in.
ghost use Rattle.std.specs.Prelude.{◌≡◌, ◌<◌, ◌≤◌, length, false, true, IfSome};
ghost use Rattle.state_rows.specs.HandleNumbers.{index_of};
ghost use Rattle.state_rows.specs.HandleSlots.{slot_at, free_index, new_handle};
ghost use Rattle.machine.specs.Handles.{next_handle, owner_of, holder_of};
ghost use Rattle.entry_log.specs.declared.effect.Holder.TheVariants.{InProcess, InThread};

use crate::{HandleSlot, ThreadRow};
use entry_log::Holder;
use state_rows::{handle_number, index_of, is_local, next_instance};
use sym_base::{ObjNo, ThreadNo};

/// The handle that a table gives next: whose reference it is, with its index, 0 to 255; and its number.
#[derive(Clone, Copy)]
pub struct NewHandle {
    pub holder: Holder,
    pub number: u32,
}

/// The number that the handle at a table's least free index gets, in a thread's table (`local`) or a process's.
fn number_at(local: bool, table: &[HandleSlot], index: usize) -> u32
    requires least { index ≡ free_index table.now }
    requires inside { index < length table.now }
    requires size { length table.now ≤ 256 }
    requires instance { (slot_at table.now (free_index table.now)).instance ≤ 16383 }
    ensures number { result ≡ new_handle local table.now }
    ensures positive { result < 2147483648 }
{
    handle_number(local, index, next_instance(table[index].instance))
}

/// The handle that a process's table gives next, whose least free index this is. None where no slot is free.
pub fn process_handle(process: ObjNo, table: &[HandleSlot], index: usize) -> Option<NewHandle>
    requires least { index ≡ free_index table.now }
    requires inside { index ≤ length table.now }
    requires size { length table.now ≤ 256 }
    requires instance { (slot_at table.now (free_index table.now)).instance ≤ 16383 }
    ensures handle { result ≡ next_handle false (InProcess process) table.now }
    ensures positive { IfSome result (λ handle. handle.number < 2147483648) }
{
    if index == table.len() {
        return None;
    }
    Some(NewHandle {
        holder: Holder::InProcess(process, index as u8),
        number: number_at(false, table, index),
    })
}

/// The handle that a thread's table gives next, whose least free index this is. None where no slot is free.
pub fn thread_handle(thread: ThreadNo, table: &[HandleSlot], index: usize) -> Option<NewHandle>
    requires least { index ≡ free_index table.now }
    requires inside { index ≤ length table.now }
    requires size { length table.now ≤ 256 }
    requires instance { (slot_at table.now (free_index table.now)).instance ≤ 16383 }
    ensures handle { result ≡ next_handle true (InThread thread) table.now }
    ensures positive { IfSome result (λ handle. handle.number < 2147483648) }
{
    if index == table.len() {
        return None;
    }
    Some(NewHandle {
        holder: Holder::InThread(thread, index as u8),
        number: number_at(true, table, index),
    })
}

/// Whose table a handle is in.
pub fn owner_of(thread: ThreadNo, row: &ThreadRow, handle: u32) -> ObjNo
    ensures { result ≡ owner_of thread row.now handle }
{
    if is_local(handle) {
        thread
    } else {
        row.process
    }
}

/// The holder whose reference a handle is.
pub fn holder_of(thread: ThreadNo, row: &ThreadRow, handle: u32) -> Holder
    requires { index_of handle < 256 }
    ensures { result ≡ holder_of thread row.now handle }
{
    let index = index_of(handle) as u8;
    if is_local(handle) {
        Holder::InThread(thread, index)
    } else {
        Holder::InProcess(row.process, index)
    }
}
