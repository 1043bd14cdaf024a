//! The places of a handle table, and the numbers of their handles.
ghost use Rattle.std.specs.Prelude.{◌≡◌, ◌<◌, ◌≤◌, length, IfSome};
ghost use Rattle.state_rows.specs.HandleNumbers.{handle_number, index_of, is_local, next_instance};
ghost use Rattle.state_rows.specs.HandleSlots.{slot_at, free_index, look};

use sym_base::{Limits, ObjNo};

/// The last instance that a place has before they count from 1 again.
const MAX_INSTANCE: u16 = 16_383;

/// What an instance is multiplied by in a handle's number.
const INSTANCE_UNIT: u32 = 65_536;

/// The bit of a handle's number that tells a thread's table from a process's.
const LOCAL_BIT: u32 = 1_073_741_824;

/// One place of a handle table (Symbian OS Internals, the chapter on kernel services, on handles). How numbers
/// are made of index and instance is this project's own rule.
#[derive(Clone, Copy)]
pub struct HandleSlot {
    /// The instance of the place's last handle, 1 to 16,383; 0 where the place was never taken.
    pub instance: u16,
    /// The object of the handle; None where the place is free.
    pub object: Option<ObjNo>,
}

impl HandleSlot {
    /// A place that was never taken.
    pub const FRESH: HandleSlot = HandleSlot {
        instance: 0,
        object: None,
    };
}

/// The instance after this one: they count from 1 to 16,383, and then from 1 again.
pub fn next_instance(instance: u16) -> u16
    requires { instance ≤ 16383 }
    ensures next { result ≡ next_instance instance }
    ensures counted { 1 ≤ result }
    ensures small { result ≤ 16383 }
{
    if instance == MAX_INSTANCE {
        1
    } else {
        instance + 1
    }
}

/// The number of the handle with an index and an instance, in a thread's table (`local`) or a process's.
pub fn handle_number(local: bool, index: usize, instance: u16) -> u32
    requires index { index < Limits.HANDLES }
    requires instance { instance ≤ 16383 }
    ensures number { result ≡ handle_number local index instance }
    ensures positive { result < 2147483648 }
{
    let number = index as u32 + INSTANCE_UNIT * u32::from(instance);
    if local { number + LOCAL_BIT } else { number }
}

/// The slot of an index, a fresh one past the table's end.
pub fn slot_at(slots: &[HandleSlot], index: usize) -> HandleSlot
    ensures { result ≡ slot_at slots.now index }
{
    if index < slots.len() {
        slots[index]
    } else {
        HandleSlot::FRESH
    }
}

/// The least free index of a table, its length where no place is free.
pub fn free_index(slots: &[HandleSlot]) -> usize
    ensures least { result ≡ free_index slots.now }
    ensures within { result ≤ length slots.now }
{
    for (index, slot) in slots.iter().enumerate() {
        if slot.object.is_none() {
            return index;
        }
    }
    slots.len()
}

/// The index in a handle's number.
pub fn index_of(handle: u32) -> usize
    ensures { result ≡ index_of handle }
{
    (handle % INSTANCE_UNIT) as usize
}

/// Whether a number is that of a handle in a thread's table.
pub fn is_local(handle: u32) -> bool
    ensures { result ≡ is_local handle }
{
    handle >= LOCAL_BIT
}

/// The object that a handle names in a thread's table (`local`) or a process's. None exactly for a free place or
/// another instance.
pub fn look(local: bool, slots: &[HandleSlot], handle: u32) -> Option<ObjNo>
    ensures { result ≡ look local slots.now handle }
{
    let slot = slots.get(index_of(handle))?;
    let first = if local { LOCAL_BIT / INSTANCE_UNIT } else { 0 };
    if first + u32::from(slot.instance) == handle / INSTANCE_UNIT {
        slot.object
    } else {
        None
    }
}
