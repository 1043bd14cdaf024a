//! `logon`: a status that tells a thread's death (the chapter on threads and processes).
ghost use Rattle.std.specs.Prelude.{◌≡◌, ◌<◌};
ghost use Rattle.machine.specs.LogonCalls.{reason_of, logon_move, logon_row, logon_do, logon_step};

use entry_log::{Part, Step, Word};
use machine::{Decision, LogonMove, Move, RequestMove, ThreadRow};
use readings::Reads;
use state_rows::Stage;
use step_answers::{answer, is_pending, look_kind, nothing, refuse};
use sym_base::{Error, Exit, Kind, ObjNo, ThreadNo};

/// The reason of an exit, 0 without one.
pub fn reason_of(exit: Option<Exit>) -> i32
    ensures { result ≡ reason_of exit }
{
    match exit {
        Some(exit) => exit.reason,
        None => 0,
    }
}

/// A cleaned or buried thread tells its exit at once, and another when it dies.
fn logon_move(thread: ThreadNo, other: ThreadNo, status: u8, row: &ThreadRow) -> Move
    ensures { result ≡ logon_move thread other status row.now.exit row.now.stage }
{
    match row.stage {
        Stage::Cleaned | Stage::Buried => {
            Move::Requests(RequestMove::Signal(thread, status, reason_of(row.exit)))
        }
        Stage::Live | Stage::Doomed => Move::Logons(LogonMove::Add(other, thread, status)),
    }
}

/// The second step: the status is pending, and tells the death then or at once.
fn logon_do<R: Reads>(
    decision: &mut Decision,
    reads: &R,
    thread: ThreadNo,
    status: u8,
    uses: Option<ObjNo>,
)
    ensures { decision.new ≡ logon_do (R.state reads.now) thread status uses }
{
    let Some(other) = uses else {
        return nothing(decision);
    };
    if is_pending(reads, thread, status) {
        return nothing(decision);
    }
    let Some(row) = reads.thread(other) else {
        return nothing(decision);
    };
    decision.moves.clear();
    let pending = RequestMove::SetPending(thread, status);
    decision.moves.push(Move::Requests(pending));
    decision.moves.push(logon_move(thread, other, status, row));
    answer(decision, thread, Step::Of(Word::Logon, Part::Do), 0)
}

/// First the look at a handle of a thread, which refuses a status that is pending, and then the logon.
pub fn logon_step<R: Reads>(
    decision: &mut Decision,
    reads: &R,
    thread: ThreadNo,
    row: &ThreadRow,
    register: u8,
    status: u8,
)
    requires readable { R.is_readable reads.now }
    requires register { register < 8 }
    ensures { decision.new ≡ logon_step (R.state reads.now) thread row.now register status row.now.part }
{
    if row.part.is_some() {
        return logon_do(decision, reads, thread, status, row.uses);
    }
    if is_pending(reads, thread, status) {
        let step = Step::Of(Word::Logon, Part::Look);
        return refuse(decision, thread, step, Error::InUse);
    }
    look_kind(
        decision,
        reads,
        thread,
        row,
        Kind::Thread,
        Word::Logon,
        register,
    )
}
