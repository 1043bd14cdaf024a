//! Dooms: how a thread comes to die (Symbian OS Internals, the chapter on threads and processes, on exiting threads).
//! While something protects it, its exit is noted, and the step that ends the protection dooms it.
ghost use Rattle.std.specs.Prelude.{◌≡◌, ◌+◌, ◌≤◌, ◌++◌, length};
ghost use Rattle.machine.specs.Dooms.{doom, doom_noted, doom_or_note, doom_where, end, killed, noted_of, plain_exit};

use entry_log::Step;
use machine::{
    DeathMove, Decision, LockMove, LogonMove, Move, Moves, NanoMove, RequestMove, ServerMove,
};
use readings::Reads;
use sym_base::{Exit, ExitKind, Name, ThreadNo};

/// An exit without a category.
pub fn plain_exit(kind: ExitKind, reason: i32) -> Exit
    ensures { result ≡ plain_exit kind reason }
{
    Exit {
        kind,
        category: Name::EMPTY,
        reason,
    }
}

/// The doom of a thread, behind the moves before.
pub fn doom(moves: &mut Moves, thread: ThreadNo, exit: Exit)
    requires { length moves.old + 6 ≤ 8 }
    ensures moves { moves.new ≡ moves.old ++ doom thread exit }
    ensures few { length moves.new ≤ length moves.old + 6 }
{
    moves.push(Move::Locks(LockMove::Leave(thread)));
    moves.push(Move::Nano(NanoMove::Release(thread)));
    moves.push(Move::Requests(RequestMove::DropAll(thread)));
    moves.push(Move::Logons(LogonMove::Drop(thread)));
    moves.push(Move::Servers(ServerMove::CloseAll(thread)));
    moves.push(Move::Death(DeathMove::Doom(thread, exit)));
}

/// The exit that is noted of a thread.
pub fn noted_of<R: Reads>(reads: &R, thread: ThreadNo) -> Option<Exit>
    ensures { result ≡ noted_of (R.state reads.now) thread }
{
    reads.thread(thread)?.noted
}

/// A protected thread's exit is noted, and another thread is doomed.
pub fn doom_or_note<R: Reads>(moves: &mut Moves, reads: &R, thread: ThreadNo, exit: Exit)
    requires { length moves.old + 6 ≤ 8 }
    ensures moves { moves.new ≡ moves.old ++ doom_or_note (R.state reads.now) thread exit }
    ensures few { length moves.new ≤ length moves.old + 6 }
{
    if reads.is_protected(thread) {
        moves.push(Move::Death(DeathMove::Note(thread, exit)));
    } else {
        doom(moves, thread, exit);
    }
}

/// The doom of a thread that nothing protects any more, where an exit is noted.
pub fn doom_noted(moves: &mut Moves, thread: ThreadNo, noted: Option<Exit>)
    requires { length moves.old + 6 ≤ 8 }
    ensures moves { moves.new ≡ moves.old ++ doom_noted thread noted }
    ensures few { length moves.new ≤ length moves.old + 6 }
{
    if let Some(exit) = noted {
        doom(moves, thread, exit);
    }
}

/// The same, where this ends the protection.
pub fn doom_where(moves: &mut Moves, unprotected: bool, thread: ThreadNo, noted: Option<Exit>)
    requires { length moves.old + 6 ≤ 8 }
    ensures moves { moves.new ≡ moves.old ++ doom_where unprotected thread noted }
    ensures few { length moves.new ≤ length moves.old + 6 }
{
    if unprotected {
        doom_noted(moves, thread, noted);
    }
}

/// At its list's end a thread that nothing protects ends.
pub fn end(decision: &mut Decision, thread: ThreadNo)
    ensures { decision.new ≡ end thread }
{
    decision.step = Step::End;
    decision.moves.clear();
    doom(&mut decision.moves, thread, plain_exit(ExitKind::Kill, 0));
    decision.answer = None;
}
