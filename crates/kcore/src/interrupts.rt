//! Actions of which no thread is the actor: those of interrupts and of the immediate queue.
ghost use Rattle.std.specs.Prelude.{◌≡◌, []};
ghost use Rattle.state_rows.specs.Deferred.{next_immediate};
ghost use Rattle.machine.specs.declared.plan.Body.TheVariants.{Interrupt};
ghost use Rattle.machine.specs.declared.plan.Plan.TheVariants.{Runs};
ghost use Rattle.machine.specs.Bodies.{decision_by};
ghost use Rattle.machine.specs.Interrupts.{immediate_plan, supervisor};
ghost use Rattle.kernel_tables.specs.Choosing.{MayChoose};
ghost use Rattle.kernel_tables.specs.CoreView.{RunsScript};
ghost use Rattle.kcore.specs.Done.{CarriesOut};
ghost use Rattle.kcore.specs.Told.{IsTold, told_in};

use crate::bodies::run_body;
use crate::plans::follow;
use entry_log::Entry;
use kernel_tables::Core;
use machine::Body;
use next_actions::immediate_action;
use ref_words::RefWords;
use script_types::Script;
use sym_base::{ObjNo, ThreadNo};

/// The supervisor, which stands for the thread that acts where none does.
const SUPERVISOR: ThreadNo = ObjNo(1);

/// An interrupt: its body runs.
pub fn interrupt<W: RefWords + Drop>(
    script: &Script,
    core: &mut Core<W>,
    number: u8,
    entry: &mut Entry,
)
    requires runs { RunsScript script.now core.old }
    requires may { MayChoose supervisor core.old.notes core.old.state }
    requires empty { entry.old.effects ≡ [] }
    ensures told { IsTold entry.old entry.new }
    ensures does { CarriesOut script.now supervisor core.old core.new (told_in entry.new) (decision_by script.now supervisor core.old.state (Runs (Interrupt number))) }
    ensures notes { core.new.notes ≡ core.old.notes }
{
    let body = Body::Interrupt(number);
    run_body(script, core, SUPERVISOR, body, entry);
}

/// The oldest item of the immediate queue runs, or moves to its own queue.
pub fn immediate<W: RefWords + Drop>(script: &Script, core: &mut Core<W>, entry: &mut Entry)
    requires runs { RunsScript script.now core.old }
    requires may { MayChoose supervisor core.old.notes core.old.state }
    requires empty { entry.old.effects ≡ [] }
    ensures told { IsTold entry.old entry.new }
    ensures does { let S = core.old.state in CarriesOut script.now supervisor core.old core.new (told_in entry.new) (decision_by script.now supervisor S (immediate_plan script.now S (next_immediate S.synchronization.deferred))) }
    ensures notes { core.new.notes ≡ core.old.notes }
{
    let body = immediate_action(&mut core.decision, script, &core.tables);
    follow(script, core, SUPERVISOR, body, entry);
}
