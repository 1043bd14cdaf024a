//! What was decided is carried out: moves that were decided at once, or a body.
ghost use Rattle.std.specs.Prelude.{◌≡◌, true, []};
ghost use Rattle.script_types.specs.Shape.{IsShaped};
ghost use Rattle.next_actions.specs.Planned.{planned};
ghost use Rattle.machine.specs.declared.decision.Decision.{Decision};
ghost use Rattle.machine.specs.Bodies.{decision_by};
ghost use Rattle.kernel_tables.specs.Choosing.{MayChoose};
ghost use Rattle.kernel_tables.specs.CoreView.{CoreView};
ghost use Rattle.kernel_tables.specs.OwnMoves.{AreOwn};
ghost use Rattle.kernel_tables.specs.Performed.{ActionGoes};
ghost use Rattle.kcore.specs.Done.{CarriesOut, WasMade};
ghost use Rattle.kcore.specs.Told.{IsTold, told_in};

use crate::bodies::run_body;
use entry_log::Entry;
use kernel_tables::Core;
use machine::Body;
use ref_words::RefWords;
use script_types::Script;
use sym_base::ThreadNo;

/// The end of an action that was made: whoever isn't ready any more leaves, and the entry, which has the effects, tells the rest.
/// It may be told that the action touched no other thread.
#[inline(always)]
pub fn finish<W: RefWords + Drop>(
    script: &Script,
    core: &mut Core<W>,
    thread: ThreadNo,
    own: bool,
    entry: &mut Entry,
)
    requires own { own ≡ true → AreOwn thread core.old.decision.moves }
    ensures told { IsTold entry.old entry.new }
    ensures does { (d : Decision) (old : CoreView W) → WasMade script.now thread d old core.old entry.old.effects → CarriesOut script.now thread old core.new (told_in entry.new) d }
    ensures notes { core.new.notes ≡ core.old.notes }
{
    core.leave(script, thread, own);
    entry.step = core.decision.step;
    entry.answer = core.decision.answer;
}

/// What was decided for a thread.
#[inline(always)]
pub fn carry_out<W: RefWords + Drop>(
    script: &Script,
    core: &mut Core<W>,
    thread: ThreadNo,
    entry: &mut Entry,
)
    requires may { MayChoose thread core.old.notes core.old.state }
    requires goes { ActionGoes script.now thread core.old.decision.moves core.old.state }
    requires empty { entry.old.effects ≡ [] }
    ensures told { IsTold entry.old entry.new }
    ensures does { CarriesOut script.now thread core.old core.new (told_in entry.new) core.old.decision }
    ensures notes { core.new.notes ≡ core.old.notes }
{
    let own = core.make(script, thread, &mut entry.effects);
    finish(script, core, thread, own, entry);
}

/// What was decided for a thread, or a body, where there is one.
pub fn follow<W: RefWords + Drop>(
    script: &Script,
    core: &mut Core<W>,
    thread: ThreadNo,
    body: Option<Body>,
    entry: &mut Entry,
)
    requires shaped { IsShaped script.now }
    requires may { MayChoose thread core.old.notes core.old.state }
    requires goes { ActionGoes script.now thread (decision_by script.now thread core.old.state (planned core.old.decision body)).moves core.old.state }
    requires empty { entry.old.effects ≡ [] }
    ensures told { IsTold entry.old entry.new }
    ensures does { CarriesOut script.now thread core.old core.new (told_in entry.new) (decision_by script.now thread core.old.state (planned core.old.decision body)) }
    ensures notes { core.new.notes ≡ core.old.notes }
{
    match body {
        None => carry_out(script, core, thread, entry),
        Some(body) => run_body(script, core, thread, body, entry),
    }
}
