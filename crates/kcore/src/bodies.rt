//! Bodies: what interrupts and deferred function calls do, one operation after the other, each decided in the tables that
//! the earlier ones left. Whoever isn't ready leaves the queues once, at the end.
ghost use Rattle.std.specs.Prelude.{◌≡◌, ◌+◌, ◌*◌, ◌≤◌, ◌++◌, Bool, [], length};
ghost use Rattle.script_types.specs.Shape.{IsShaped};
ghost use Rattle.machine.specs.Bodies.{leave_queue, op_moves, ops_moves, run_body};
ghost use Rattle.machine.specs.History.{keeping};
ghost use Rattle.machine.specs.Moves.{tell};
ghost use Rattle.kernel_tables.specs.Choosing.{MayChoose};
ghost use Rattle.kernel_tables.specs.Moved.{MovesGo};
ghost use Rattle.kernel_tables.specs.Performed.{ActionGoes, IsPerformed};
ghost use Rattle.kcore.specs.Done.{CarriesOut};
ghost use Rattle.kcore.specs.Told.{IsTold, told_in};

use crate::made::{Made, add_moves};
use entry_log::{Effects, Entry};
use kernel_tables::Core;
use machine::Body;
use next_actions::{leave_queue, op_moves, ops_of, step_of_body};
use ref_words::RefWords;
use script_types::{Op, Script};
use sym_base::ThreadNo;

/// An operation: its moves are decided and made.
fn run_op<W: RefWords + Drop>(
    script: &Script,
    core: &mut Core<W>,
    thread: ThreadNo,
    op: &Op,
    effects: &mut Effects,
)
    requires shaped { IsShaped script.now }
    requires may { MayChoose thread core.old.notes core.old.state }
    requires go { (keep : Bool) → MovesGo script.now thread (op_moves script.now core.old.state op.now) (keeping keep core.old.state) }
    requires few { (keep : Bool) → length effects.old + length (tell thread (op_moves script.now core.old.state op.now) (keeping keep core.old.state)) ≤ 4 }
    ensures moves { core.new.decision.moves ≡ op_moves script.now core.old.state op.now }
    ensures short { length (op_moves script.now core.old.state op.now) ≤ 2 }
    ensures performed { IsPerformed script.now thread (op_moves script.now core.old.state op.now) core.old.state core.new.state core.old.ready core.new.ready effects.old effects.new }
    ensures notes { core.new.notes ≡ core.old.notes }
    ensures may { MayChoose thread core.new.notes core.new.state }
{
    op_moves(&mut core.decision.moves, script, &core.tables, op);
    let _ = core.perform(script, thread, effects);
}

/// Operations, one after the other.
fn run_ops<W: RefWords + Drop>(
    script: &Script,
    core: &mut Core<W>,
    thread: ThreadNo,
    ops: &[Op],
    effects: &mut Effects,
    made: &mut Made,
)
    requires shaped { IsShaped script.now }
    requires may { MayChoose thread core.old.notes core.old.state }
    requires go { (keep : Bool) → MovesGo script.now thread (ops_moves script.now thread core.old.state ops.now) (keeping keep core.old.state) }
    requires few { (keep : Bool) → length effects.old + length (tell thread (ops_moves script.now thread core.old.state ops.now) (keeping keep core.old.state)) ≤ 4 }
    requires short { length made.old + 2 * length ops.now ≤ 9 }
    ensures performed { IsPerformed script.now thread (ops_moves script.now thread core.old.state ops.now) core.old.state core.new.state core.old.ready core.new.ready effects.old effects.new }
    ensures notes { core.new.notes ≡ core.old.notes }
    ensures made { made.new ≡ made.old ++ ops_moves script.now thread core.old.state ops.now }
{
    for op in ops {
        run_op(script, core, thread, op, effects);
        add_moves(made, core.decision.moves.as_slice());
    }
}

/// A call leaves its queue before its body runs.
fn leave_own_queue<W: RefWords + Drop>(
    script: &Script,
    core: &mut Core<W>,
    thread: ThreadNo,
    body: Body,
    effects: &mut Effects,
)
    requires may { MayChoose thread core.old.notes core.old.state }
    requires go { (keep : Bool) → MovesGo script.now thread (leave_queue core.old.state body) (keeping keep core.old.state) }
    requires few { (keep : Bool) → length effects.old + length (tell thread (leave_queue core.old.state body) (keeping keep core.old.state)) ≤ 4 }
    ensures moves { core.new.decision.moves ≡ leave_queue core.old.state body }
    ensures short { length (leave_queue core.old.state body) ≤ 1 }
    ensures performed { IsPerformed script.now thread (leave_queue core.old.state body) core.old.state core.new.state core.old.ready core.new.ready effects.old effects.new }
    ensures notes { core.new.notes ≡ core.old.notes }
    ensures may { MayChoose thread core.new.notes core.new.state }
{
    leave_queue(&mut core.decision.moves, &core.tables, body);
    let _ = core.perform(script, thread, effects);
}

/// A body, run in an action of a thread. Each operation is decided in the place of the moves before it.
pub fn run_body<W: RefWords + Drop>(
    script: &Script,
    core: &mut Core<W>,
    thread: ThreadNo,
    body: Body,
    entry: &mut Entry,
)
    requires shaped { IsShaped script.now }
    requires may { MayChoose thread core.old.notes core.old.state }
    requires goes { ActionGoes script.now thread (run_body script.now thread core.old.state body).moves core.old.state }
    requires empty { entry.old.effects ≡ [] }
    ensures told { IsTold entry.old entry.new }
    ensures does { CarriesOut script.now thread core.old core.new (told_in entry.new) (run_body script.now thread core.old.state body) }
    ensures notes { core.new.notes ≡ core.old.notes }
{
    let mut made = Made::new();
    leave_own_queue(script, core, thread, body, &mut entry.effects);
    add_moves(&mut made, core.decision.moves.as_slice());
    let ops = ops_of(script, body);
    run_ops(script, core, thread, ops, &mut entry.effects, &mut made);
    core.leave_along(script, thread, made.as_slice());
    entry.step = step_of_body(script, body);
    entry.answer = None;
}
