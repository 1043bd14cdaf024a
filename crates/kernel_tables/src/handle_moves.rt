//! Handles in a move: each stands at the least free place of its table, or goes from its place.
ghost use Rattle.std.specs.Prelude.{◌≡◌, ◌<◌, [], length};
ghost use Rattle.std.specs.List.{slice_index_or};
ghost use Rattle.state_rows.specs.HandleSlots.{free_index};
ghost use Rattle.machine.specs.Moves.{tables_gain, tables_lose};
ghost use Rattle.machine.specs.Handles.{with_slot, taken_slot, freed_slot};
ghost use Rattle.kernel_tables.specs.Moved.{TakesLeast};
ghost use Rattle.kernel_tables.specs.StateOf.{slots_of};

use entry_log::Holder;
use handles::Handles;
use sym_base::{Items, ObjNo};

/// The least free place of a handle table takes an object.
fn take_place(tables: &mut Items<Handles>, owner: ObjNo, object: ObjNo)
    requires { let slots = slice_index_or (slots_of tables.old) owner.0 [] in free_index slots < length slots }
    ensures { let slots = slice_index_or (slots_of tables.old) owner.0 [] in slots_of tables.new ≡ with_slot (slots_of tables.old) owner (free_index slots) (taken_slot object) }
{
    let at = owner.0 as usize;
    if at < tables.len() {
        let _ = tables.get_mut(at).add(object);
    }
}

/// A place of a handle table is free.
fn free_place(tables: &mut Items<Handles>, owner: ObjNo, index: u8)
    ensures { slots_of tables.new ≡ with_slot (slots_of tables.old) owner index freed_slot }
{
    let at = owner.0 as usize;
    if at < tables.len() {
        let table = tables.get_mut(at);
        let _ = table.remove(table.number_at(index));
    }
}

/// A holder gets a reference: where it is a handle, that stands in the least free place.
#[inline(always)]
pub fn gain_slot(tables: &mut Items<Handles>, holder: Holder, object: ObjNo)
    requires { TakesLeast (slots_of tables.old) holder }
    ensures { slots_of tables.new ≡ tables_gain holder object (slots_of tables.old) }
{
    match holder {
        Holder::InProcess(owner, _) => take_place(tables, owner, object),
        Holder::InThread(owner, _) => take_place(tables, owner, object),
        _ => {}
    }
}

/// A holder gives its reference up: where it is a handle, that goes.
#[inline(always)]
pub fn lose_slot(tables: &mut Items<Handles>, holder: Holder)
    ensures { slots_of tables.new ≡ tables_lose holder (slots_of tables.old) }
{
    match holder {
        Holder::InProcess(owner, index) => free_place(tables, owner, index),
        Holder::InThread(owner, index) => free_place(tables, owner, index),
        _ => {}
    }
}
