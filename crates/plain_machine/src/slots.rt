//! The slots of handle tables, on the plain machine's lists.
ghost use Rattle.std.specs.Prelude.{◌≡◌};
ghost use Rattle.machine.specs.Handles.{taken_slot, freed_slot, with_slot};
ghost use Rattle.machine.specs.Moves.{tables_gain, tables_lose};
ghost use Rattle.machine.specs.Room.{AreSmallTables};

use entry_log::Holder;
use machine::{HandleSlot, set_slot};
use plain_rows::list_of;
use state_rows::{next_instance, slot_at};
use sym_base::{Items, ObjNo};

/// The slot of an index takes a handle of the object.
fn take_slot(tables: &mut Items<Items<HandleSlot>>, owner: ObjNo, index: usize, object: ObjNo)
    requires { AreSmallTables tables.old }
    ensures { tables.new ≡ with_slot tables.old owner index (taken_slot object) }
{
    let slot = slot_at(list_of(tables, owner), index);
    let taken = HandleSlot {
        instance: next_instance(slot.instance),
        object: Some(object),
    };
    set_slot(tables, owner, index, taken);
}

/// The handle of the slot of an index goes.
fn free_slot(tables: &mut Items<Items<HandleSlot>>, owner: ObjNo, index: usize)
    ensures { tables.new ≡ with_slot tables.old owner index freed_slot }
{
    let freed = HandleSlot {
        object: None,
        ..slot_at(list_of(tables, owner), index)
    };
    set_slot(tables, owner, index, freed);
}

/// A holder gets a reference: where it is a handle, that stands in its slot.
pub fn gain_slot(tables: &mut Items<Items<HandleSlot>>, holder: Holder, object: ObjNo)
    requires { AreSmallTables tables.old }
    ensures { tables.new ≡ tables_gain holder object tables.old }
{
    match holder {
        Holder::InProcess(owner, index) => take_slot(tables, owner, index as usize, object),
        Holder::InThread(owner, index) => take_slot(tables, owner, index as usize, object),
        _ => {}
    }
}

/// A holder gives its reference up: where it is a handle, that goes.
pub fn lose_slot(tables: &mut Items<Items<HandleSlot>>, holder: Holder)
    ensures { tables.new ≡ tables_lose holder tables.old }
{
    match holder {
        Holder::InProcess(owner, index) => free_slot(tables, owner, index as usize),
        Holder::InThread(owner, index) => free_slot(tables, owner, index as usize),
        _ => {}
    }
}
