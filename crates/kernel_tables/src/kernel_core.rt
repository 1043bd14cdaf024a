//! The core of the kernel: what its actions change.
ghost use Rattle.std.specs.Prelude.{◌≡◌, ℕ, ◌+◌, ◌≤◌, Bool, true, [], List, length};
ghost use Rattle.sym_base.specs.declared.limits.TheConstants.Limits.{BOOT_OBJECTS};
ghost use Rattle.sym_base.specs.declared.number.ObjNo.{ObjNo};
ghost use Rattle.ready_list.specs.Arrival.{AreQueuesOf};
ghost use Rattle.machine.specs.Choice.{chosen, priority_of};
ghost use Rattle.machine.specs.History.{keeping};
ghost use Rattle.machine.specs.Moves.{tell};
ghost use Rattle.machine.specs.References.{total};
ghost use Rattle.machine.specs.Tick.{after_tick};
ghost use Rattle.kernel_tables.specs.Choosing.{MayChoose, closing_bit, sharing};
ghost use Rattle.kernel_tables.specs.Moved.{MovesGo, making_bit};
ghost use Rattle.kernel_tables.specs.Noted.{AreKept};
ghost use Rattle.kernel_tables.specs.OwnMoves.{AreOwn};
ghost use Rattle.kernel_tables.specs.Performed.{ActionGoes, IsMade, IsPerformed};
ghost use Rattle.kernel_tables.specs.ReadyQueues.{Follow, leave_along, pairs};
ghost use Rattle.kernel_tables.specs.StateOf.{state_of};

use crate::moves::make_move;
use crate::own_moves::are_own;
use crate::ready::{chosen, follow_move, is_queued, leave_along, leave_unless_own, turn};
use crate::tables::Tables;
use entry_log::{Actor, Effects};
use machine::{Decision, Mode, Move};
use readings::tell_death;
use ready_list::ReadyList;
use ref_words::RefWords;
use script_types::Script;
use std::marker::Model;
use sym_base::ThreadNo;

/// The tables, the queues of ready threads, and what was decided last. A contract sees the definitions' state in place of the
/// tables, and the words that count the references, with their notes. What the tables keep beside the rows is always what the rows say.
#[derive(Drop)]
pub struct Core<W: RefWords> {
    pub tables: Tables<W>,
    pub ready: ReadyList,
    /// What was decided last: its place is used again.
    pub decision: Decision,
}

impl<W: RefWords> Model for Core<W> {
    ghost use Rattle.kernel_tables.specs.CoreView.{CoreView, IsCore};
    ghost use Rattle.kernel_tables.specs.StateOf.{state_of};

    ghost Value = { CoreView W };

    ghost view = { λ c. record { state = state_of c.tables; ready = c.ready; decision = c.decision; words = c.tables.objects.words; notes = c.tables.objects.notes } };

    ghost invariant = { λ c. IsCore c.tables c.ready };
}

impl<W: RefWords + Drop> Core<W> {
    /// A core over these tables and queues. Nothing was decided yet.
    pub fn new(tables: Tables<W>, ready: ReadyList) -> Core<W>
        requires kept { AreKept tables }
        requires size { ready.threads ≡ BOOT_OBJECTS }
        ensures state { result.state ≡ state_of tables }
        ensures ready { result.ready ≡ ready }
        ensures words { result.words ≡ tables.objects.words }
        ensures notes { result.notes ≡ tables.objects.notes }
    {
        Core {
            tables,
            ready,
            decision: Decision::new(),
        }
    }

    /// The moves that were decided are made in an action of a thread, one after the other. What they tell comes behind what was
    /// told before, and whom they make ready comes. Whoever isn't ready any more stays in the queues. It answers whether the moves are
    /// all known for the thread's own: the queues don't change then.
    pub fn perform(&mut self, script: &Script, thread: ThreadNo, effects: &mut Effects) -> bool
        requires go { (keep : Bool) → MovesGo script.now thread self.old.decision.moves (keeping keep self.old.state) }
        requires few { (keep : Bool) → length effects.old + length (tell thread self.old.decision.moves (keeping keep self.old.state)) ≤ 4 }
        requires once { total closing_bit self.old.decision.moves ≤ 1 }
        requires makes { total making_bit self.old.decision.moves ≤ 1 }
        requires may { MayChoose thread self.old.notes self.old.state }
        ensures decision { self.new.decision ≡ self.old.decision }
        ensures notes { self.new.notes ≡ self.old.notes }
        ensures performed { IsPerformed script.now thread self.old.decision.moves self.old.state self.new.state self.old.ready self.new.ready effects.old effects.new }
        ensures own { result ≡ true → AreOwn thread self.old.decision.moves }
    {
        let tables = &mut self.tables;
        let ready = &mut self.ready;
        let moves = self.decision.moves.as_slice();
        let own = is_queued(ready, thread) && are_own(thread, moves);
        for change in moves {
            let dead = make_move(tables, thread, change, effects);
            tell_death(effects, dead);
            follow_move(script, tables, ready, thread, change, own);
        }
        own
    }

    /// The action of a thread that was decided is made. Its effects come into an empty list. It answers whether its moves are all known
    /// for the thread's own.
    pub fn make(&mut self, script: &Script, thread: ThreadNo, effects: &mut Effects) -> bool
        requires goes { ActionGoes script.now thread self.old.decision.moves self.old.state }
        requires may { MayChoose thread self.old.notes self.old.state }
        requires empty { effects.old ≡ [] }
        ensures made { IsMade script.now thread self.old.decision self.old self.new effects.new }
        ensures own { result ≡ true → AreOwn thread self.old.decision.moves }
    {
        self.perform(script, thread, effects)
    }

    /// Callers share the kernel, and the next action keeps what it closes.
    pub fn share(&mut self)
        ensures state { self.new.state ≡ sharing self.old.state }
        ensures ready { self.new.ready ≡ self.old.ready }
        ensures decision { self.new.decision ≡ self.old.decision }
        ensures words { self.new.words ≡ self.old.words }
        ensures notes { self.new.notes ≡ self.old.notes }
    {
        self.tables.mode = Mode {
            shared: true,
            keep: true,
            ..self.tables.mode
        };
    }

    /// Of those that moves in an action of a thread touched, who isn't ready leaves the queues.
    pub fn leave_along(&mut self, script: &Script, thread: ThreadNo, moves: &[Move])
        ensures state { self.new.state ≡ self.old.state }
        ensures words { self.new.words ≡ self.old.words }
        ensures notes { self.new.notes ≡ self.old.notes }
        ensures queues { (rank : ObjNo → ℕ) → Follow rank (leave_along script.now self.old.state thread moves.now) self.old.ready self.new.ready }
    {
        leave_along(script, &self.tables, &mut self.ready, thread, moves);
    }

    /// Of those that the moves touched that were decided for a thread, who isn't ready leaves the queues. The caller may know that the moves
    /// are all the thread's own.
    pub fn leave(&mut self, script: &Script, thread: ThreadNo, own: bool)
        requires own { own ≡ true → AreOwn thread self.old.decision.moves }
        ensures state { self.new.state ≡ self.old.state }
        ensures words { self.new.words ≡ self.old.words }
        ensures notes { self.new.notes ≡ self.old.notes }
        ensures decision { self.new.decision ≡ self.old.decision }
        ensures queues { (rank : ObjNo → ℕ) → Follow rank (leave_along script.now self.old.state thread self.old.decision.moves) self.old.ready self.new.ready }
    {
        let moves = self.decision.moves.as_slice();
        leave_unless_own(script, &self.tables, &mut self.ready, thread, moves, own);
    }

    /// Whom the queues let act.
    pub fn chosen(&self) -> Actor
        ensures { (qs : List ObjNo) → AreQueuesOf (pairs (priority_of self.now.state) qs) self.now.ready → result ≡ chosen self.now.state qs }
    {
        chosen(&self.tables, &self.ready)
    }

    /// A time slice ends: the first thread of the highest queue goes behind its equals, unless it holds a fast mutex.
    pub fn turn(&mut self)
        ensures state { self.new.state ≡ self.old.state }
        ensures words { self.new.words ≡ self.old.words }
        ensures notes { self.new.notes ≡ self.old.notes }
        ensures queues { Follow (priority_of self.old.state) (after_tick self.old.state) self.old.ready self.new.ready }
    {
        turn(&self.tables, &mut self.ready);
    }
}
