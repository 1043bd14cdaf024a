//! Actions of actors on the plain machine's lists.
ghost use Rattle.std.specs.Prelude.{◌≡◌, IfOk, OnOk};
ghost use Rattle.entry_log.specs.declared.entry.Actor.TheVariants.{Thread, Irq, Idfc};
ghost use Rattle.script_types.specs.Shape.{IsShaped};
ghost use Rattle.machine.specs.Arrived.{arrived_next};
ghost use Rattle.machine.specs.History.{transition};
ghost use Rattle.machine.specs.Interrupts.{immediate, interrupt};
ghost use Rattle.machine.specs.Transition.{idle, act, left};
ghost use Rattle.plain_machine.specs.Allowed.{AllowsAction};

use crate::action::{follow, run_body};
use crate::tick::tick;
use entry_log::{Actor, Effects, Step};
use machine::{Body, Decision, Outcome, State};
use next_actions::{decide_action, immediate_action};
use script_types::Script;
use std::alloc::Global;
use sym_base::{Items, NoMemory, ObjNo, ThreadNo};

/// The supervisor, which stands for the thread that acts where none does.
const SUPERVISOR: ThreadNo = ObjNo(1);

/// Nobody acts.
fn idle(state: &State) -> Outcome
    ensures { left state.now result ≡ idle state.now }
{
    Outcome {
        step: Step::Wait,
        effects: Effects::new(),
        answer: None,
    }
}

/// An action of a thread.
#[tactic(auto, unfolding(machine::specs::Transition::act))]
fn act(
    alloc: Global,
    script: &Script,
    state: &mut State,
    ready: &mut Items<ThreadNo>,
    thread: ThreadNo,
) -> Result<Outcome, NoMemory>
    requires shaped { IsShaped script.now }
    requires allowed { AllowsAction script.now state.old }
    ensures state { IfOk result (λ outcome. left state.new outcome ≡ act script.now state.old thread) }
    ensures ready { OnOk result (ready.new ≡ arrived_next script.now state.old (Thread thread) ready.old) }
{
    let mut decision = Decision::new();
    let body = decide_action(&mut decision, script, state, thread);
    follow(alloc, script, state, ready, thread, decision, body)
}

/// The oldest item of the immediate queue.
#[tactic(auto, unfolding(machine::specs::Interrupts::immediate))]
fn immediate(
    alloc: Global,
    script: &Script,
    state: &mut State,
    ready: &mut Items<ThreadNo>,
) -> Result<Outcome, NoMemory>
    requires shaped { IsShaped script.now }
    requires allowed { AllowsAction script.now state.old }
    ensures state { IfOk result (λ outcome. left state.new outcome ≡ immediate script.now state.old) }
    ensures ready { OnOk result (ready.new ≡ arrived_next script.now state.old Idfc ready.old) }
{
    let mut decision = Decision::new();
    let body = immediate_action(&mut decision, script, state);
    follow(alloc, script, state, ready, SUPERVISOR, decision, body)
}

/// An interrupt.
#[tactic(auto, unfolding(machine::specs::Interrupts::interrupt))]
fn interrupt(
    alloc: Global,
    script: &Script,
    state: &mut State,
    ready: &mut Items<ThreadNo>,
    number: u8,
) -> Result<Outcome, NoMemory>
    requires shaped { IsShaped script.now }
    requires allowed { AllowsAction script.now state.old }
    ensures state { IfOk result (λ outcome. left state.new outcome ≡ interrupt script.now state.old number) }
    ensures ready { OnOk result (ready.new ≡ arrived_next script.now state.old (Irq number) ready.old) }
{
    run_body(
        alloc,
        script,
        state,
        ready,
        SUPERVISOR,
        Body::Interrupt(number),
    )
}

/// An action of an actor.
pub fn transition(
    alloc: Global,
    script: &Script,
    state: &mut State,
    ready: &mut Items<ThreadNo>,
    actor: Actor,
) -> Result<Outcome, NoMemory>
    requires shaped { IsShaped script.now }
    requires allowed { AllowsAction script.now state.old }
    ensures state { IfOk result (λ outcome. left state.new outcome ≡ transition script.now state.old actor) }
    ensures ready { OnOk result (ready.new ≡ arrived_next script.now state.old actor ready.old) }
{
    match actor {
        Actor::Thread(thread) => act(alloc, script, state, ready, thread),
        Actor::Irq(number) => interrupt(alloc, script, state, ready, number),
        Actor::Idfc => immediate(alloc, script, state, ready),
        Actor::Tick => tick(alloc, state, ready),
        Actor::Idle => Ok(idle(state)),
    }
}
