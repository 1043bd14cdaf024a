//! A step: it is decided of the tables as they stand, and its moves are made in them.
ghost use Rattle.std.specs.Prelude.{◌≡◌, true, []};
ghost use Rattle.machine.specs.Rows.{thread_of};
ghost use Rattle.kernel_tables.specs.Choosing.{MayChoose};
ghost use Rattle.kernel_tables.specs.CoreView.{RunsScript};
ghost use Rattle.kernel_tables.specs.OwnMoves.{AreOwn};
ghost use Rattle.kernel_tables.specs.Performed.{IsMade};
ghost use Rattle.exec_user.specs.Phases.{next_of, phase_at};
ghost use Rattle.exec_user.specs.Stepping.{IsAtStep, step_at};

use crate::next::{Next, next_of, phase_of};
use decisions::decide_step;
use entry_log::Effects;
use kernel_tables::Core;
use readings::Reads;
use ref_words::RefWords;
use script_types::{Instr, Script};
use sym_base::ThreadNo;

/// The phase that a thread's instruction is in, 0 where there is no such thread.
fn phase_at<W: RefWords + Drop>(core: &Core<W>, t: ThreadNo) -> u8
    ensures { result ≡ phase_at core.now.state t }
{
    match core.tables.thread(t) {
        Some(row) => phase_of(row.part),
        None => 0,
    }
}

/// What a step leaves beside the tables: its effects, its answer, and what comes after it.
#[derive(Drop)]
pub struct Outcome {
    pub effects: Effects,
    pub answer: Option<i32>,
    pub next: Next,
}

/// The kernel's core, lent for a while to the steps that change it.
#[derive(Drop)]
pub struct ExecUser<'a, W: RefWords> {
    pub core: &'a mut Core<W>,
}

impl<'a, W: RefWords + Drop> ExecUser<'a, W> {
    /// One step of the instruction that an able thread is at, as `step` makes it, in whatever phase it is. Its effects come
    /// into an empty list of the caller's. True only if its moves touched no other thread.
    pub fn tell_step(
        &mut self,
        script: &Script,
        t: ThreadNo,
        instr: &Instr,
        effects: &mut Effects,
    ) -> bool
        requires runs { RunsScript script.now self.old.core.now }
        requires may { MayChoose t self.old.core.now.notes self.old.core.now.state }
        requires at { IsAtStep script.now self.old.core.now.state t instr.now }
        requires empty { effects.old ≡ [] }
        ensures same_core { self.new.core.ghost_name ≡ self.old.core.ghost_name }
        ensures made { IsMade script.now t (step_at script.now self.old.core.now.state t instr.now) self.old.core.now self.new.core.now effects.new }
        ensures own { result ≡ true → AreOwn t (step_at script.now self.old.core.now.state t instr.now).moves }
    {
        let core = &mut *self.core;
        decide_step(&mut core.decision, script, &core.tables, t, instr);
        core.make(script, t, effects)
    }

    /// One step of the instruction that an able thread is at, in the phase that it is in. All its moves are made, and
    /// whom they make ready comes; whoever isn't ready any more stays in the queues until the entry's end.
    pub fn step(&mut self, script: &Script, t: ThreadNo, instr: &Instr, phase: u8) -> Outcome
        requires runs { RunsScript script.now self.old.core.now }
        requires may { MayChoose t self.old.core.now.notes self.old.core.now.state }
        requires at { IsAtStep script.now self.old.core.now.state t instr.now }
        requires phase { phase ≡ phase_at self.old.core.now.state t }
        ensures same_core { self.new.core.ghost_name ≡ self.old.core.ghost_name }
        ensures made { IsMade script.now t (step_at script.now self.old.core.now.state t instr.now) self.old.core.now self.new.core.now result.effects }
        ensures answer { result.answer ≡ (step_at script.now self.old.core.now.state t instr.now).answer }
        ensures next { result.next ≡ next_of (step_at script.now self.old.core.now.state t instr.now).moves result.answer (thread_of self.new.core.now.state t) }
    {
        prove_eq!(phase, phase_at(self.core, t));
        let mut effects = Effects::new();
        let _ = self.tell_step(script, t, instr, &mut effects);
        let core = &*self.core;
        let answer = core.decision.answer;
        let moves = core.decision.moves.as_slice();
        Outcome {
            effects,
            answer,
            next: next_of(moves, answer, core.tables.thread(t)),
        }
    }
}
