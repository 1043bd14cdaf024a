//! An action under way on the plain machine's lists.
ghost use Rattle.std.specs.Prelude.{◌≡◌, IfOk, OnOk, filter};
ghost use Rattle.machine.specs.Task.{is_ready};
ghost use Rattle.plain_machine.specs.Courses.{new_course, told_at_end};

use crate::arrivals::still_ready;
use entry_log::{Effects, Step};
use machine::{Outcome, State};
use script_types::Script;
use std::alloc::Global;
use sym_base::{Items, NoMemory, ThreadNo};

/// An action under way: what it told so far, and the ready list so far.
#[derive(Drop)]
pub struct Course {
    pub effects: Effects,
    pub ready: Items<ThreadNo>,
}

impl Course {
    /// An action begins with this ready list: nothing is told yet.
    pub fn start(alloc: Global, ready: &Items<ThreadNo>) -> Result<Course, NoMemory>
        ensures { IfOk result (λ course. course ≡ new_course ready.now) }
    {
        Ok(Course {
            effects: Effects::new(),
            ready: ready.copied(alloc)?,
        })
    }

    /// The action is over: those that aren't ready in the state that it left leave the list, which stands beside that state
    /// from now on.
    pub fn end(
        self,
        alloc: Global,
        script: &Script,
        state: &State,
        ready: &mut Items<ThreadNo>,
        step: Step,
        answer: Option<i32>,
    ) -> Result<Outcome, NoMemory>
        ensures outcome { IfOk result (λ outcome. outcome ≡ told_at_end self step answer) }
        ensures ready { OnOk result (ready.new ≡ filter (is_ready script.now state.now) self.ready) }
    {
        let Course {
            effects,
            ready: arrived,
        } = self;
        *ready = still_ready(alloc, script, state, arrived.as_slice())?;
        Ok(Outcome {
            step,
            effects,
            answer,
        })
    }
}
