//! One handle table, and its calls.
ghost use Rattle.std.specs.Prelude.{◌≡◌, ℕ, ◌≤◌, ◌↔◌, IfOk};
ghost use Rattle.state_rows.specs.HandleNumbers.{index_of};
ghost use Rattle.state_rows.specs.HandleSlots.{IsTable, slot_at, free_index, handle_count, look};
ghost use Rattle.handles.specs.Used.{next_used};
ghost use Rattle.handles.specs.Table.{no_handles, number_at, add_answer, table_added, table_removed};

use crate::free::FreePlaces;
use crate::used::next_used;
use state_rows::{HandleSlot, handle_number, index_of, look, next_instance};
use std::alloc::Global;
use std::marker::Model;
use sym_base::{Limits, NoMemory, ObjNo};

/// What adding a handle answers.
#[derive(Clone, Copy, Debug, PartialEq, Eq)]
pub enum Added {
    /// The number of the new handle.
    Handle(u32),
    /// The table has 256 handles.
    Full,
}

/// The handles of a process or of a thread: a map from index to instance and object (Symbian OS Internals, the
/// chapter on kernel services, on handles). A new handle gets the least free of 256 places. A contract sees whether
/// the table is a thread's, and the list of the places.
#[derive(Drop)]
pub struct Handles {
    local: bool,
    slots: Vec<HandleSlot>,
    free: FreePlaces,
}

impl Model for Handles {
    ghost use Rattle.handles.specs.HandleTable.{HandleTable};

    ghost Value = { HandleTable };

    ghost use Rattle.handles.specs.Kept.{AreKept};

    ghost view = { λ a. record { local = a.local; slots = a.slots.items } };

    ghost invariant = { λ a. AreKept a.slots.items a.free.words };
}

impl Handles {
    /// A table without handles, of a thread (`local`) or of a process. It takes all the memory that the table ever
    /// needs.
    pub fn new(alloc: Global, local: bool) -> Result<Handles, NoMemory>
        ensures { IfOk result (λ table. table ≡ no_handles local) }
    {
        Ok(Handles {
            local,
            slots: vec![in alloc; HandleSlot::FRESH; Limits::HANDLES]?,
            free: FreePlaces::all(),
        })
    }

    /// The places of the table, by index.
    pub fn slots(&self) -> &[HandleSlot]
        ensures slots { result.now ≡ self.now.slots }
        ensures table { IsTable self.now.slots }
    {
        &self.slots
    }

    /// The least free index, 256 where no place is free.
    pub fn free_index(&self) -> usize
        ensures least { result ≡ free_index self.now.slots }
        ensures within { result ≤ Limits.HANDLES }
    {
        self.free.least()
    }

    /// The number of the handle at an index, which has that of its place's last handle where the place is free.
    pub fn number_at(&self, index: u8) -> u32
        ensures number { result ≡ number_at self.now index }
        ensures place { index_of result ≡ index }
        ensures object { look self.now.local self.now.slots result ≡ (slot_at self.now.slots index).object }
    {
        let index = usize::from(index);
        handle_number(self.local, index, self.slots[index].instance)
    }

    /// Adds a handle of an object at the least free place. `Full` comes exactly at 256 handles, and then nothing
    /// changes.
    pub fn add(&mut self, o: ObjNo) -> Added
        ensures answer { result ≡ add_answer self.old }
        ensures table { self.new ≡ table_added self.old o }
        ensures full { (result ≡ Added.Full) ↔ (handle_count self.old.slots ≡ Limits.HANDLES) }
        ensures found { (h : ℕ) → result ≡ Added.Handle h → look self.new.local self.new.slots h ≡ Some o }
    {
        let index = self.free_index();
        if index == Limits::HANDLES {
            return Added::Full;
        }
        let instance = next_instance(self.slots[index].instance);
        self.slots[index] = HandleSlot {
            instance,
            object: Some(o),
        };
        self.free.take(index);
        Added::Handle(handle_number(self.local, index, instance))
    }

    /// The object that a handle names. None exactly for a free place or another instance.
    pub fn look(&self, handle: u32) -> Option<ObjNo>
        ensures { result ≡ look self.now.local self.now.slots handle }
    {
        look(self.local, &self.slots, handle)
    }

    /// Takes a handle away, and answers its object: its place is free and keeps its instance. None exactly for a free
    /// place or another instance, and then nothing changes.
    pub fn remove(&mut self, handle: u32) -> Option<ObjNo>
        ensures object { result ≡ look self.old.local self.old.slots handle }
        ensures table { self.new ≡ table_removed self.old handle }
        ensures gone { look self.new.local self.new.slots handle ≡ None }
    {
        let object = look(self.local, &self.slots, handle);
        if object.is_some() {
            let index = index_of(handle);
            self.slots[index].object = None;
            self.free.give(index);
        }
        object
    }

    /// The least index whose place is in use, and the object there. None where no place is in use.
    pub fn first(&self) -> Option<(u8, ObjNo)>
        ensures { result ≡ next_used self.now.slots 0 }
    {
        let place = self.free.least_taken();
        if place == Limits::HANDLES {
            return None;
        }
        let object = self.slots[place].object?;
        Some((place as u8, object))
    }

    /// The least index from `from` on whose place is in use, and the object there. None where there is none.
    pub fn next_of(&self, from: u16) -> Option<(u8, ObjNo)>
        ensures { result ≡ next_used self.now.slots from }
    {
        let (index, object) = next_used(&self.slots, from as usize)?;
        Some((index as u8, object))
    }
}
