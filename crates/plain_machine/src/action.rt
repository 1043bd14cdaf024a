//! Actions, made on the plain machine's lists move by move.
ghost use Rattle.std.specs.Prelude.{◌≡◌, ◌+◌, ◌*◌, ◌≤◌, length, IfOk, OnOk};
ghost use Rattle.script_types.specs.Shape.{IsShaped};
ghost use Rattle.next_actions.specs.Planned.{planned};
ghost use Rattle.machine.specs.Arrivals.{ready_after};
ghost use Rattle.machine.specs.Bodies.{ops_moves, run_body, decision_by};
ghost use Rattle.machine.specs.Moves.{perform, tell};
ghost use Rattle.machine.specs.Room.{HasRoom};
ghost use Rattle.machine.specs.Transition.{carried_out, left};
ghost use Rattle.plain_machine.specs.Allowed.{IsSmall, TellsFew};
ghost use Rattle.plain_machine.specs.Courses.{course_after};

use crate::arrivals::{arrive_touched, take_out};
use crate::course::Course;
use crate::perform::make_move;
use machine::{Body, Decision, Move, Moves, Outcome, State, touched};
use next_actions::{leave_queue, op_moves, ops_of, step_of_body};
use readings::{dead_by, tell_whole};
use script_types::{Op, Script};
use std::alloc::Global;
use sym_base::{Items, NoMemory, ThreadNo};

/// Moves in an action of a thread, one after the other.
fn make_moves(
    alloc: Global,
    script: &Script,
    state: &mut State,
    thread: ThreadNo,
    moves: &[Move],
    course: &mut Course,
) -> Result<(), NoMemory>
    requires room { HasRoom (length moves.now) state.old }
    requires small { IsSmall state.old }
    requires few { length course.old.effects + length (tell thread moves.now state.old) ≤ 4 }
    ensures state { OnOk result (state.new ≡ perform thread moves.now state.old) }
    ensures course { OnOk result (course.new ≡ course_after script.now thread moves.now state.old course.old) }
{
    for change in moves {
        let dead = dead_by(state, change);
        tell_whole(&mut course.effects, state, change, dead);
        make_move(alloc, state, thread, *change, dead)?;
        take_out(alloc, *change, &mut course.ready)?;
        arrive_touched(script, state, touched(thread, change), &mut course.ready)?;
    }
    Ok(())
}

/// The operations of a body, each decided in the state that the earlier ones left.
fn run_operations(
    alloc: Global,
    script: &Script,
    state: &mut State,
    thread: ThreadNo,
    ops: &[Op],
    course: &mut Course,
) -> Result<(), NoMemory>
    requires shaped { IsShaped script.now }
    requires room { HasRoom (2 * length ops.now) state.old }
    requires small { IsSmall state.old }
    requires few { length course.old.effects + length (tell thread (ops_moves script.now thread state.old ops.now) state.old) ≤ 4 }
    ensures state { OnOk result (state.new ≡ perform thread (ops_moves script.now thread state.old ops.now) state.old) }
    ensures course { OnOk result (course.new ≡ course_after script.now thread (ops_moves script.now thread state.old ops.now) state.old course.old) }
{
    let mut moves = Moves::new();
    for op in ops {
        op_moves(&mut moves, script, state, op);
        make_moves(alloc, script, state, thread, moves.as_slice(), course)?;
    }
    Ok(())
}

/// A body runs, behind the leave of its call's queue.
pub fn run_body(
    alloc: Global,
    script: &Script,
    state: &mut State,
    ready: &mut Items<ThreadNo>,
    thread: ThreadNo,
    body: Body,
) -> Result<Outcome, NoMemory>
    requires shaped { IsShaped script.now }
    requires room { HasRoom 9 state.old }
    requires small { IsSmall state.old }
    requires few { TellsFew thread state.old (run_body script.now thread state.old body) }
    ensures state { IfOk result (λ outcome. left state.new outcome ≡ carried_out script.now thread state.old (run_body script.now thread state.old body)) }
    ensures ready { OnOk result (ready.new ≡ ready_after script.now thread (run_body script.now thread state.old body).moves state.old ready.old) }
{
    let mut course = Course::start(alloc, ready)?;
    let mut leave = Moves::new();
    leave_queue(&mut leave, state, body);
    make_moves(alloc, script, state, thread, leave.as_slice(), &mut course)?;
    run_operations(
        alloc,
        script,
        state,
        thread,
        ops_of(script, body),
        &mut course,
    )?;
    course.end(
        alloc,
        script,
        state,
        ready,
        step_of_body(script, body),
        None,
    )
}

/// What was decided on.
fn carry_out(
    alloc: Global,
    script: &Script,
    state: &mut State,
    ready: &mut Items<ThreadNo>,
    thread: ThreadNo,
    decision: Decision,
) -> Result<Outcome, NoMemory>
    requires room { HasRoom 9 state.old }
    requires small { IsSmall state.old }
    requires few { TellsFew thread state.old decision }
    ensures state { IfOk result (λ outcome. left state.new outcome ≡ carried_out script.now thread state.old decision) }
    ensures ready { OnOk result (ready.new ≡ ready_after script.now thread decision.moves state.old ready.old) }
{
    let Decision {
        step,
        moves,
        answer,
    } = decision;
    let mut course = Course::start(alloc, ready)?;
    make_moves(alloc, script, state, thread, moves.as_slice(), &mut course)?;
    course.end(alloc, script, state, ready, step, answer)
}

/// What was decided for a thread, or a body, where there is one.
pub fn follow(
    alloc: Global,
    script: &Script,
    state: &mut State,
    ready: &mut Items<ThreadNo>,
    thread: ThreadNo,
    decision: Decision,
    body: Option<Body>,
) -> Result<Outcome, NoMemory>
    requires shaped { IsShaped script.now }
    requires room { HasRoom 9 state.old }
    requires small { IsSmall state.old }
    requires few { TellsFew thread state.old (decision_by script.now thread state.old (planned decision body)) }
    ensures state { IfOk result (λ outcome. left state.new outcome ≡ carried_out script.now thread state.old (decision_by script.now thread state.old (planned decision body))) }
    ensures ready { OnOk result (ready.new ≡ ready_after script.now thread (decision_by script.now thread state.old (planned decision body)).moves state.old ready.old) }
{
    match body {
        None => carry_out(alloc, script, state, ready, thread, decision),
        Some(body) => run_body(alloc, script, state, ready, thread, body),
    }
}
