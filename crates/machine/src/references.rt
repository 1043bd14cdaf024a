//! The rows that references stand in, and the objects that live by them.
ghost use Rattle.std.specs.Prelude.{◌≡◌, IfOk};

use crate::lists::copied_lists;
use state_rows::{HandleSlot, ObjectRow, Owed, ThreadRow};
use std::alloc::{AllocError, Global};
use sym_base::Items;

/// Objects, handle tables, threads' rows and what threads owe: what a reference is taken in and given up from.
#[derive(Drop)]
pub struct References {
    /// Each object by number; None at a number that was swept and that no object has since.
    pub objects: Items<Option<ObjectRow>>,
    /// How many objects were made, with those that stand at boot: the place of the next one.
    pub made: u64,
    /// The handle table of each process and thread.
    pub handles: Items<Items<HandleSlot>>,
    /// Each thread; None at the number of a process, and once it is swept. The supervisor has a row too.
    pub threads: Items<Option<ThreadRow>>,
    /// What each thread owes, in order of owing.
    pub owed: Items<Items<Owed>>,
}

impl References {
    /// The same rows, a second time.
    pub fn copied(&self, alloc: Global) -> Result<References, AllocError>
        ensures { IfOk result (λ copy. copy ≡ self.now) }
    {
        Ok(References {
            objects: self.objects.copied(alloc)?,
            made: self.made,
            handles: copied_lists(alloc, self.handles.as_slice())?,
            threads: self.threads.copied(alloc)?,
            owed: copied_lists(alloc, self.owed.as_slice())?,
        })
    }
}
