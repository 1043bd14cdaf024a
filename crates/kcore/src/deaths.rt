//! Deaths: a thread ends, is reaped or buries another, told by its entry.
ghost use Rattle.std.specs.Prelude.{◌≡◌, []};
ghost use Rattle.machine.specs.Dooms.{end};
ghost use Rattle.machine.specs.Steps.{decision_of};
ghost use Rattle.death.specs.Dying.{IsReapable, MayBury, MayEnd};
ghost use Rattle.kernel_tables.specs.Choosing.{MayChoose};
ghost use Rattle.kernel_tables.specs.CoreView.{RunsScript};
ghost use Rattle.kcore.specs.Done.{CarriesOut};
ghost use Rattle.kcore.specs.Told.{IsTold, told_in};

use crate::plans::{carry_out, finish};
use death::{Death, Reaped};
use decisions::plain_exit;
use entry_log::Entry;
use kernel_tables::Core;
use ref_words::RefWords;
use script_types::Script;
use sym_base::{ExitKind, ThreadNo};

/// A live thread that nothing protects ends.
pub fn end<W: RefWords + Drop>(
    script: &Script,
    core: &mut Core<W>,
    thread: ThreadNo,
    entry: &mut Entry,
)
    requires runs { RunsScript script.now core.old }
    requires may_choose { MayChoose thread core.old.notes core.old.state }
    requires may { MayEnd core.old.state thread }
    requires empty { entry.old.effects ≡ [] }
    ensures told { IsTold entry.old entry.new }
    ensures does { CarriesOut script.now thread core.old core.new (told_in entry.new) (end thread) }
    ensures notes { core.new.notes ≡ core.old.notes }
{
    let exit = plain_exit(ExitKind::Kill, 0);
    let mut death = Death { core };
    death.doom(script, thread, exit, &mut entry.effects);
    finish(script, core, thread, false, entry);
}

/// A doomed thread pays or gives up one thing, or is cleaned, where nothing is left.
#[tactic(auto, using(kernel_tables::proofs::GoingActions::able_goes))]
pub fn reap<W: RefWords + Drop>(
    script: &Script,
    core: &mut Core<W>,
    thread: ThreadNo,
    entry: &mut Entry,
)
    requires runs { RunsScript script.now core.old }
    requires may_choose { MayChoose thread core.old.notes core.old.state }
    requires dying { IsReapable script.now core.old.state thread }
    requires empty { entry.old.effects ≡ [] }
    ensures told { IsTold entry.old entry.new }
    ensures does { CarriesOut script.now thread core.old core.new (told_in entry.new) (decision_of script.now core.old.state thread) }
    ensures notes { core.new.notes ≡ core.old.notes }
{
    let mut death = Death { core };
    match death.reap_one(script, thread, &mut entry.effects) {
        Reaped::NothingLeft => carry_out(script, core, thread, entry),
        Reaped::Step => finish(script, core, thread, false, entry),
    }
}

/// A thread buries another, whose burial this call of its queue is.
pub fn bury<W: RefWords + Drop>(
    script: &Script,
    core: &mut Core<W>,
    thread: ThreadNo,
    dfc: usize,
    entry: &mut Entry,
)
    requires runs { RunsScript script.now core.old }
    requires may_choose { MayChoose thread core.old.notes core.old.state }
    requires may { MayBury script.now core.old.state thread dfc }
    requires empty { entry.old.effects ≡ [] }
    ensures told { IsTold entry.old entry.new }
    ensures does { CarriesOut script.now thread core.old core.new (told_in entry.new) (decision_of script.now core.old.state thread) }
    ensures notes { core.new.notes ≡ core.old.notes }
{
    let mut death = Death { core };
    death.bury(script, thread, dfc, &mut entry.effects);
    finish(script, core, thread, false, entry);
}
