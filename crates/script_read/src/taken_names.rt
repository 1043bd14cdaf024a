//! The names that no later line may declare again.
ghost use Rattle.script_read.specs.NameNumbers.{ListsNames};
ghost use Rattle.script_types.specs.Context.{empty_script};

use crate::name_set::NameSet;
use std::alloc::Global;

/// The names that the lines so far declare, by the kind of what has them.
#[derive(Drop)]
pub struct TakenNames {
    /// Of the threads, the kernel threads, and the queues, each of which has a thread.
    pub threads: NameSet,
    /// Of the processes.
    pub processes: NameSet,
    /// Of the deferred function calls.
    pub dfcs: NameSet,
    /// Of the immediate deferred function calls.
    pub idfcs: NameSet,
}

impl TakenNames {
    /// Before the first line: none.
    pub fn new(alloc: Global) -> Self
        ensures { ListsNames result empty_script }
    {
        TakenNames {
            threads: NameSet::new(alloc),
            processes: NameSet::new(alloc),
            dfcs: NameSet::new(alloc),
            idfcs: NameSet::new(alloc),
        }
    }
}
