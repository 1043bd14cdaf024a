//! The kernel's state as plain lists of rows, indexed by number, in groups.
ghost use Rattle.std.specs.Prelude.{◌≡◌, IfOk};

use crate::{Mode, References, Services, Serving, Synchronization};
use std::alloc::{AllocError, Global};

/// The whole state. Each list is indexed by object number. The ready list stands beside it: no action reads it.
#[derive(Drop)]
pub struct State {
    /// How the kernel is called, and what the present action chooses.
    pub mode: Mode,
    /// Objects, handle tables, threads' rows and what threads owe.
    pub references: References,
    /// What threads synchronize by.
    pub synchronization: Synchronization,
    /// Servers, sessions and messages.
    pub serving: Serving,
    /// What the kernel keeps for processes beside their objects.
    pub services: Services,
}

impl State {
    /// A second state that is the same.
    pub fn copied(&self, alloc: Global) -> Result<State, AllocError>
        ensures { IfOk result (λ copy. copy ≡ self.now) }
    {
        Ok(State {
            mode: self.mode,
            services: self.services.copied(alloc)?,
            references: self.references.copied(alloc)?,
            serving: self.serving.copied(alloc)?,
            synchronization: self.synchronization.copied(alloc)?,
        })
    }
}
