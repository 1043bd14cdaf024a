//! The steps of a death, made in the kernel's core.
ghost use Rattle.std.specs.Prelude.{◌≡◌, [], Some};
ghost use Rattle.machine.specs.declared.task.Task.TheVariants.{Clean};
ghost use Rattle.machine.specs.Rows.{first_owed, thread_of};
ghost use Rattle.machine.specs.Steps.{decision_of};
ghost use Rattle.machine.specs.Task.{task_of};
ghost use Rattle.kernel_tables.specs.Choosing.{MayChoose};
ghost use Rattle.kernel_tables.specs.CoreView.{RunsScript};
ghost use Rattle.kernel_tables.specs.Performed.{IsMade};
ghost use Rattle.next_actions.specs.NextActions.{holdings_at};
ghost use Rattle.death.specs.Dying.{IfNothingLeft, IfStep, IsReapable, MayBury, MayEnd, ends_with, reaped_of};

use crate::decide::{Reaped, decide_doom, decide_reaped};
use entry_log::Effects;
use kernel_tables::Core;
use next_actions::bury;
use ref_words::RefWords;
use script_types::Script;
use sym_base::{Exit, ThreadNo};

/// The kernel's core, lent for a while to the steps of a death that change it.
#[derive(Drop)]
pub struct Death<'a, W: RefWords> {
    pub core: &'a mut Core<W>,
}

impl<'a, W: RefWords + Drop> Death<'a, W> {
    /// A live thread that nothing protects ends: it is doomed with this exit.
    pub fn doom(&mut self, script: &Script, t: ThreadNo, exit: Exit, effects: &mut Effects)
        requires runs { RunsScript script.now self.old.core.now }
        requires choice { MayChoose t self.old.core.now.notes self.old.core.now.state }
        requires may { MayEnd self.old.core.now.state t }
        requires empty { effects.old ≡ [] }
        ensures same_core { self.new.core.ghost_name ≡ self.old.core.ghost_name }
        ensures made { IsMade script.now t (ends_with t exit) self.old.core.now self.new.core.now effects.new }
    {
        let core = &mut *self.core;
        decide_doom(&mut core.decision, t, exit);
        let _ = core.make(script, t, effects);
    }

    /// One action of an able, doomed thread: the oldest of what it owes is paid, else the first of what it has is given up.
    /// Where nothing is left of both, nothing changes, and what was decided is that it is cleaned.
    pub fn reap_one(&mut self, script: &Script, t: ThreadNo, effects: &mut Effects) -> Reaped
        requires runs { RunsScript script.now self.old.core.now }
        requires choice { MayChoose t self.old.core.now.notes self.old.core.now.state }
        requires dying { IsReapable script.now self.old.core.now.state t }
        requires empty { effects.old ≡ [] }
        ensures same_core { self.new.core.ghost_name ≡ self.old.core.ghost_name }
        ensures left { let S = self.old.core.now.state in result ≡ reaped_of (first_owed S t) (holdings_at S t (thread_of S t)) }
        ensures made { IfStep result (IsMade script.now t (decision_of script.now self.old.core.now.state t) self.old.core.now self.new.core.now effects.new) }
        ensures nothing { IfNothingLeft result ((self.new.core.now ≡ record self.old.core.now { decision = decision_of script.now self.old.core.now.state t }) × (effects.new ≡ [])) }
        ensures next { IfNothingLeft result (task_of script.now self.old.core.now.state t ≡ Some Clean) }
    {
        let core = &mut *self.core;
        match decide_reaped(&mut core.decision, script, &core.tables, t) {
            Reaped::Step => {
                let _ = core.make(script, t, effects);
                Reaped::Step
            }
            Reaped::NothingLeft => Reaped::NothingLeft,
        }
    }

    /// The burial that is the next call of an able thread's queue: the call leaves the queue, and the cleaned thread is buried
    /// whose burial it is.
    pub fn bury(&mut self, script: &Script, t: ThreadNo, dfc: usize, effects: &mut Effects)
        requires runs { RunsScript script.now self.old.core.now }
        requires choice { MayChoose t self.old.core.now.notes self.old.core.now.state }
        requires may { MayBury script.now self.old.core.now.state t dfc }
        requires empty { effects.old ≡ [] }
        ensures same_core { self.new.core.ghost_name ≡ self.old.core.ghost_name }
        ensures made { IsMade script.now t (decision_of script.now self.old.core.now.state t) self.old.core.now self.new.core.now effects.new }
    {
        let core = &mut *self.core;
        bury(&mut core.decision, script, &core.tables, dfc);
        let _ = core.make(script, t, effects);
    }
}
