//! Actions: of a thread, of an interrupt or of the immediate queue, or the end of a time slice.
ghost use Rattle.std.specs.Prelude.{◌≡◌, [], None, IsTrue, false};
ghost use Rattle.machine.specs.Choice.{priority_of};
ghost use Rattle.machine.specs.History.{CanAct};
ghost use Rattle.machine.specs.Steps.{decision_of};
ghost use Rattle.machine.specs.Task.{is_able};
ghost use Rattle.machine.specs.Tick.{after_tick};
ghost use Rattle.machine_safe.specs.FindsAndReturns.{is_out_actor};
ghost use Rattle.exec_user.specs.Stepping.{IsAtStep, step_at};
ghost use Rattle.kernel_tables.specs.Choosing.{MayChoose};
ghost use Rattle.kernel_tables.specs.CoreView.{RunsScript};
ghost use Rattle.kernel_tables.specs.ReadyQueues.{Follow};
ghost use Rattle.kcore.specs.Acting.{acting, IsNoThread};
ghost use Rattle.kcore.specs.Done.{Acts, CarriesOut};
ghost use Rattle.kcore.specs.Told.{IsTold, told_in};

use crate::bodies::run_body;
use crate::deaths::{bury, end, reap};
use crate::interrupts::{immediate, interrupt};
use crate::plans::{carry_out, finish};
use entry_log::{Actor, Entry, Step};
use exec_user::ExecUser;
use kernel_tables::Core;
use next_actions::{NextAction, next_action};
use ref_words::RefWords;
use script_types::{Instr, Script};
use sym_base::ThreadNo;

/// A step of the instruction that a thread is at.
fn step<W: RefWords + Drop>(
    script: &Script,
    core: &mut Core<W>,
    thread: ThreadNo,
    instr: &Instr,
    entry: &mut Entry,
)
    requires runs { RunsScript script.now core.old }
    requires at { IsAtStep script.now core.old.state thread instr.now }
    requires may { MayChoose thread core.old.notes core.old.state }
    requires empty { entry.old.effects ≡ [] }
    ensures told { IsTold entry.old entry.new }
    ensures does { CarriesOut script.now thread core.old core.new (told_in entry.new) (step_at script.now core.old.state thread instr.now) }
    ensures notes { core.new.notes ≡ core.old.notes }
{
    let mut user = ExecUser { core };
    let own = user.tell_step(script, thread, instr, &mut entry.effects);
    finish(script, core, thread, own, entry);
}

/// The next action of an able thread, decided in the place of the decision before it.
fn act<W: RefWords + Drop>(script: &Script, core: &mut Core<W>, thread: ThreadNo, entry: &mut Entry)
    requires runs { RunsScript script.now core.old }
    requires able { IsTrue (is_able script.now core.old.state thread) }
    requires may { MayChoose thread core.old.notes core.old.state }
    requires empty { entry.old.effects ≡ [] }
    ensures told { IsTold entry.old entry.new }
    ensures does { CarriesOut script.now thread core.old core.new (told_in entry.new) (decision_of script.now core.old.state thread) }
    ensures notes { core.new.notes ≡ core.old.notes }
{
    match next_action(&mut core.decision, script, &core.tables, thread) {
        NextAction::Decided => carry_out(script, core, thread, entry),
        NextAction::Runs(body) => run_body(script, core, thread, body, entry),
        NextAction::Steps(instr) => step(script, core, thread, instr, entry),
        NextAction::Dies => reap(script, core, thread, entry),
        NextAction::Ends => end(script, core, thread, entry),
        NextAction::Buries(dfc) => bury(script, core, thread, dfc, entry),
    }
}

/// The end of a time slice.
fn tick<W: RefWords + Drop>(core: &mut Core<W>, entry: &mut Entry)
    requires empty { entry.old.effects ≡ [] }
    ensures told { IsTold entry.old entry.new }
    ensures state { core.new.state ≡ core.old.state }
    ensures queues { Follow (priority_of core.old.state) (after_tick core.old.state) core.old.ready core.new.ready }
    ensures notes { core.new.notes ≡ core.old.notes }
    ensures outcome { told_in entry.new ≡ record { step = Step.Turn; effects = []; answer = None } }
{
    core.turn();
    entry.step = Step::Turn;
    entry.answer = None;
}

/// An action of an actor that is no thread, and nobody's. Most actions are a thread's.
#[cold]
#[inline(never)]
fn threadless_transition<W: RefWords + Drop>(
    script: &Script,
    core: &mut Core<W>,
    actor: Actor,
    entry: &mut Entry,
)
    requires runs { RunsScript script.now core.old }
    requires may { MayChoose (acting actor) core.old.notes core.old.state }
    requires can { CanAct script.now core.old.state actor }
    requires none { IsNoThread actor }
    requires empty { entry.old.effects ≡ [] }
    requires blank { told_in entry.old ≡ record { step = Step.Wait; effects = []; answer = None } }
    ensures told { IsTold entry.old entry.new }
    ensures does { Acts script.now core.old core.new (told_in entry.new) actor }
    ensures notes { core.new.notes ≡ core.old.notes }
{
    match actor {
        Actor::Tick => tick(core, entry),
        Actor::Irq(number) => interrupt(script, core, number, entry),
        Actor::Idfc => immediate(script, core, entry),
        Actor::Idle => {}
        Actor::Thread(_thread) => {}
    }
}

/// An action of an actor that isn't out, told by an entry that tells as yet that nobody acted.
pub fn transition<W: RefWords + Drop>(
    script: &Script,
    core: &mut Core<W>,
    actor: Actor,
    entry: &mut Entry,
)
    requires runs { RunsScript script.now core.old }
    requires may { MayChoose (acting actor) core.old.notes core.old.state }
    requires can { CanAct script.now core.old.state actor }
    requires stays { is_out_actor core.old.state actor ≡ false }
    requires empty { entry.old.effects ≡ [] }
    requires blank { told_in entry.old ≡ record { step = Step.Wait; effects = []; answer = None } }
    ensures told { IsTold entry.old entry.new }
    ensures does { Acts script.now core.old core.new (told_in entry.new) actor }
    ensures notes { core.new.notes ≡ core.old.notes }
{
    if let Actor::Thread(thread) = actor {
        act(script, core, thread, entry);
    } else {
        threadless_transition(script, core, actor, entry);
    }
}
