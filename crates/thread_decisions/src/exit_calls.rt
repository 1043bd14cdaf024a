//! `kill`, `terminate`, `panic`, `exittype` and `exit`: threads that die by a call, and what is told of it (the chapter
//! on threads and processes). That an exit is noted but once is this project's own rule.
ghost use Rattle.std.specs.Prelude.{◌≡◌, ◌<◌, pos};
ghost use Rattle.machine.specs.Dooms.{noted_of, plain_exit};
ghost use Rattle.machine.specs.ExitCalls.{exit_unless_noted, exit_on, exit_step, type_of_exit, exit_type, exittype_step, exit_do};
ghost use Rattle.sym_base.specs.declared.kind.ExitKind.TheVariants as kind;
ghost use Rattle.sym_base.specs.declared.word.Word.TheVariants as word;

use crate::dooms::{doom, doom_or_note, noted_of, plain_exit};
use crate::thread_calls::refusal_of;
use entry_log::{Part, Step, Word};
use machine::{Decision, ThreadRow};
use readings::Reads;
use step_answers::{answer, answer_at_once, look_kind, nothing, refuse};
use sym_base::{Error, Exit, ExitKind, Kind, Name, ObjNo, ThreadNo};

/// The thread is doomed, or its exit is noted, where none is noted already.
fn exit_unless_noted<R: Reads>(
    decision: &mut Decision,
    reads: &R,
    thread: ThreadNo,
    other: ThreadNo,
    word: Word,
    exit: Exit,
)
    ensures { let S = R.state reads.now in decision.new ≡ exit_unless_noted S thread other word exit (noted_of S other) }
{
    let step = Step::Of(word, Part::Do);
    if noted_of(reads, other).is_some() {
        return refuse(decision, thread, step, Error::Died);
    }
    decision.moves.clear();
    doom_or_note(&mut decision.moves, reads, other, exit);
    answer(decision, thread, step, 0)
}

/// The second step: a refusal comes first.
fn exit_on<R: Reads>(
    decision: &mut Decision,
    reads: &R,
    thread: ThreadNo,
    word: Word,
    exit: Exit,
    uses: Option<ObjNo>,
)
    ensures { decision.new ≡ exit_on (R.state reads.now) thread word exit uses }
{
    let Some(other) = uses else {
        return nothing(decision);
    };
    match refusal_of(reads.thread(other).copied()) {
        Some(refusal) => refuse(decision, thread, Step::Of(word, Part::Do), refusal),
        None => exit_unless_noted(decision, reads, thread, other, word, exit),
    }
}

/// A look at a handle of a thread, and its exit.
fn exit_step<R: Reads>(
    decision: &mut Decision,
    reads: &R,
    thread: ThreadNo,
    row: &ThreadRow,
    word: Word,
    register: u8,
    exit: Exit,
)
    requires readable { R.is_readable reads.now }
    requires register { register < 8 }
    ensures { decision.new ≡ exit_step (R.state reads.now) thread row.now word register exit row.now.part }
{
    match row.part {
        None => look_kind(decision, reads, thread, row, Kind::Thread, word, register),
        Some(_) => exit_on(decision, reads, thread, word, exit, row.uses),
    }
}

/// A look at a handle of a thread, and its kill.
pub fn kill_step<R: Reads>(
    decision: &mut Decision,
    reads: &R,
    thread: ThreadNo,
    row: &ThreadRow,
    register: u8,
    reason: i32,
)
    requires readable { R.is_readable reads.now }
    requires register { register < 8 }
    ensures { decision.new ≡ exit_step (R.state reads.now) thread row.now word.Kill register (plain_exit kind.Kill reason) row.now.part }
{
    let exit = plain_exit(ExitKind::Kill, reason);
    exit_step(decision, reads, thread, row, Word::Kill, register, exit)
}

/// A look at a handle of a thread, and its end by another.
pub fn terminate_step<R: Reads>(
    decision: &mut Decision,
    reads: &R,
    thread: ThreadNo,
    row: &ThreadRow,
    register: u8,
    reason: i32,
)
    requires readable { R.is_readable reads.now }
    requires register { register < 8 }
    ensures { decision.new ≡ exit_step (R.state reads.now) thread row.now word.Terminate register (plain_exit kind.Terminate reason) row.now.part }
{
    let exit = plain_exit(ExitKind::Terminate, reason);
    exit_step(
        decision,
        reads,
        thread,
        row,
        Word::Terminate,
        register,
        exit,
    )
}

/// A look at a handle of a thread, and its panic, which has a category.
pub fn panic_step<R: Reads>(
    decision: &mut Decision,
    reads: &R,
    thread: ThreadNo,
    row: &ThreadRow,
    register: u8,
    category: Name,
    reason: i32,
)
    requires readable { R.is_readable reads.now }
    requires register { register < 8 }
    ensures { decision.new ≡ exit_step (R.state reads.now) thread row.now word.Panic register (record { kind = kind.Panic; category = category; reason = reason }) row.now.part }
{
    let exit = Exit {
        kind: ExitKind::Panic,
        category,
        reason,
    };
    exit_step(decision, reads, thread, row, Word::Panic, register, exit)
}

/// The number of the kind of an exit. That of a thread that is live is pending, 3.
fn type_of_exit(exit: Option<Exit>) -> i32
    ensures { result ≡ pos (type_of_exit exit) }
{
    match exit {
        None => 3,
        Some(exit) => match exit.kind {
            ExitKind::Kill => 0,
            ExitKind::Terminate => 1,
            ExitKind::Panic => 2,
        },
    }
}

/// The number of the exit of the thread of a row.
fn exit_type(row: Option<ThreadRow>) -> i32
    ensures { result ≡ pos (exit_type row) }
{
    match row {
        Some(row) => type_of_exit(row.exit),
        None => type_of_exit(None),
    }
}

/// A look at a handle of a thread, and how it died.
pub fn exittype_step<R: Reads>(
    decision: &mut Decision,
    reads: &R,
    thread: ThreadNo,
    row: &ThreadRow,
    register: u8,
)
    requires readable { R.is_readable reads.now }
    requires register { register < 8 }
    ensures { decision.new ≡ exittype_step (R.state reads.now) thread row.now register row.now.part }
{
    if row.part.is_none() {
        return look_kind(
            decision,
            reads,
            thread,
            row,
            Kind::Thread,
            Word::Exittype,
            register,
        );
    }
    let Some(other) = row.uses else {
        return nothing(decision);
    };
    let code = exit_type(reads.thread(other).copied());
    answer_at_once(decision, thread, Step::Of(Word::Exittype, Part::Do), code)
}

/// The thread is doomed, where nothing protects it.
pub fn exit_do<R: Reads>(decision: &mut Decision, reads: &R, thread: ThreadNo, reason: i32)
    ensures { decision.new ≡ exit_do (R.state reads.now) thread reason }
{
    let step = Step::Of(Word::Exit, Part::Do);
    if reads.is_protected(thread) {
        return refuse(decision, thread, step, Error::InUse);
    }
    decision.step = step;
    decision.moves.clear();
    doom(
        &mut decision.moves,
        thread,
        plain_exit(ExitKind::Kill, reason),
    );
    decision.answer = None;
}
