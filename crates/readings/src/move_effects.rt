//! What moves tell.
ghost use Rattle.std.specs.Prelude.{◌≡◌, ◌+◌, ◌≤◌, [], ◌∷◌, ◌++◌, length};
ghost use Rattle.machine.specs.declared.state.State.{State};
ghost use Rattle.readings.specs.Dying.{dead_told, told_alive};
ghost use Rattle.machine.specs.NanoMoves.{nano_told};
ghost use Rattle.machine.specs.RequestMoves.{request_told};
ghost use Rattle.machine.specs.DeathMoves.{death_told};
ghost use Rattle.machine.specs.LockMoves.{lock_told};
ghost use Rattle.machine.specs.ServerMoves.{server_told};
ghost use Rattle.machine.specs.MessageMoves.{message_told};
ghost use Rattle.entry_log.specs.declared.effect.Effect.TheVariants.{Plus, Take, Accept};
ghost use Rattle.entry_log.specs.declared.effect.Holder.TheVariants.{Own, Message};
ghost use Rattle.entry_log.specs.declared.effect.LockNo.TheVariants.{Object};

use crate::reads::Reads;
use entry_log::{Effect, Effects, Holder, LockNo, StatusNo};
use machine::{DeathMove, LockMove, MessageMove, Move, NanoMove, Owed, RequestMove, ServerMove};
use state_rows::{Locked, Unlocked};
use sym_base::{MsgNo, ObjNo, ThreadNo};

/// Tells the payment of an item, but for a death.
fn tell_payment(effects: &mut Effects, what: Owed)
    requires { length effects.old + 1 ≤ 4 }
    ensures { (S : State) → effects.new ≡ effects.old ++ told_alive (Move.Pay what) S }
{
    match what {
        Owed::Close(holder, object) => effects.push(Effect::Minus(holder, object)),
        Owed::Sweep(object) => effects.push(Effect::Swept(object)),
    }
}

/// Tells a move in the rows of threads that synchronize: who took and gave which fast mutex.
fn tell_nano(effects: &mut Effects, change: NanoMove)
    requires { length effects.old + length (nano_told change) ≤ 4 }
    ensures { effects.new ≡ effects.old ++ nano_told change }
{
    match change {
        NanoMove::Take(thread, fast) => effects.push(Effect::Take(thread, LockNo::Fast(fast))),
        NanoMove::Give(thread, fast) => effects.push(Effect::Give(thread, LockNo::Fast(fast))),
        _ => {}
    }
}

/// Tells a move in the rows of requests: which status of whom got which code.
pub fn tell_request(effects: &mut Effects, change: RequestMove)
    requires { length effects.old + length (request_told change) ≤ 4 }
    ensures { effects.new ≡ effects.old ++ request_told change }
{
    match change {
        RequestMove::Complete(_, thread, status, code) => {
            effects.push(Effect::Signal(thread, StatusNo::Async(status), code));
        }
        RequestMove::Signal(thread, status, code) => {
            effects.push(Effect::Signal(thread, StatusNo::Async(status), code));
        }
        RequestMove::Reply(thread, code) => {
            effects.push(Effect::Signal(thread, StatusNo::Sync, code));
        }
        RequestMove::Begin(_, _, _)
        | RequestMove::SetPending(_, _)
        | RequestMove::DropAll(_)
        | RequestMove::TakeSignal(_) => {}
    }
}

/// Tells that a thread took a mutex, and owns it.
fn tell_taken(effects: &mut Effects, thread: ThreadNo, mutex: ObjNo)
    requires { length effects.old + 2 ≤ 4 }
    ensures { effects.new ≡ effects.old ++ Take thread (Object mutex) ∷ Plus (Own thread) mutex ∷ [] }
{
    effects.push(Effect::Take(thread, LockNo::Object(mutex)));
    effects.push(Effect::Plus(Holder::Own(thread), mutex));
}

/// Tells a move in the rows of mutexes and semaphores: who took and gave which mutex, and who owns it from now on.
fn tell_lock(effects: &mut Effects, change: LockMove)
    requires { length effects.old + length (lock_told change) ≤ 4 }
    ensures { effects.new ≡ effects.old ++ lock_told change }
{
    match change {
        LockMove::Lock(mutex, thread, Locked::Taken) => tell_taken(effects, thread, mutex),
        LockMove::Unlock(mutex, thread, Unlocked::Freed) => {
            effects.push(Effect::Give(thread, LockNo::Object(mutex)));
        }
        LockMove::Unlock(mutex, thread, Unlocked::Passed(waiter)) => {
            effects.push(Effect::Give(thread, LockNo::Object(mutex)));
            tell_taken(effects, waiter, mutex);
        }
        LockMove::Free(mutex, thread, best) => {
            effects.push(Effect::Give(thread, LockNo::Object(mutex)));
            if let Some(waiter) = best {
                tell_taken(effects, waiter, mutex);
            }
        }
        _ => {}
    }
}

/// Tells a move in the row of a thread that dies: who is doomed, and who is buried.
fn tell_dying(effects: &mut Effects, change: DeathMove)
    requires { length effects.old + length (death_told change) ≤ 4 }
    ensures { effects.new ≡ effects.old ++ death_told change }
{
    match change {
        DeathMove::Doom(thread, _) => effects.push(Effect::Doom(thread)),
        DeathMove::Bury(thread) => effects.push(Effect::Bury(thread)),
        DeathMove::Note(_, _) | DeathMove::Clean(_) => {}
    }
}

/// Tells a move in the rows of servers and sessions: a session's link to its server, and the end of a server.
fn tell_server(effects: &mut Effects, change: ServerMove)
    requires { length effects.old + length (server_told change) ≤ 4 }
    ensures { effects.new ≡ effects.old ++ server_told change }
{
    match change {
        ServerMove::Join(session, server, _, _) => {
            effects.push(Effect::Plus(Holder::Link(session), server));
        }
        ServerMove::End(server) => effects.push(Effect::Terminated(server)),
        ServerMove::Start(_, _)
        | ServerMove::Close(_)
        | ServerMove::CloseAll(_)
        | ServerMove::SetOpen(_, _) => {}
    }
}

/// Tells that a message is accepted under a number, and refers to its session and its client.
fn tell_accepted(effects: &mut Effects, number: MsgNo, session: ObjNo, client: ThreadNo)
    requires { length effects.old + 3 ≤ 4 }
    ensures { effects.new ≡ effects.old ++ Accept number ∷ Plus (Message number) session ∷ Plus (Message number) client ∷ [] }
{
    effects.push(Effect::Accept(number));
    effects.push(Effect::Plus(Holder::Message(number), session));
    effects.push(Effect::Plus(Holder::Message(number), client));
}

/// Tells a move in the rows of messages, from the state before it: which message is accepted, or finished with which code.
pub fn tell_message<R: Reads>(effects: &mut Effects, reads: &R, change: &MessageMove)
    requires readable { R.is_readable reads.now }
    requires few { length effects.old + length (message_told change.now (R.state reads.now).serving.messages) ≤ 4 }
    ensures { effects.new ≡ effects.old ++ message_told change.now (R.state reads.now).serving.messages }
{
    match *change {
        MessageMove::Accept(_, row) => {
            let number = MsgNo(reads.accepted() + 1);
            tell_accepted(effects, number, row.session, row.client);
        }
        MessageMove::Take(_) => {}
        MessageMove::Finish(number, code) => effects.push(Effect::Finish(number, code)),
    }
}

/// Tells a move but for a death, from the state before it, behind the effects so far.
#[inline(always)]
pub fn tell<R: Reads>(effects: &mut Effects, reads: &R, change: &Move)
    requires readable { R.is_readable reads.now }
    requires few { length effects.old + length (told_alive change.now (R.state reads.now)) ≤ 4 }
    ensures { effects.new ≡ effects.old ++ told_alive change.now (R.state reads.now) }
{
    match *change {
        Move::Make(_, _, holder) => {
            let object = reads.next_object();
            effects.push(Effect::Plus(holder, object));
        }
        Move::Gain(holder, object) => effects.push(Effect::Plus(holder, object)),
        Move::Lose(holder, object) => effects.push(Effect::Minus(holder, object)),
        Move::Find(_, object) => effects.push(Effect::Seek(object)),
        Move::Open(thread, object, _) => {
            effects.push(Effect::Plus(Holder::Temp(thread), object));
        }
        Move::Miss(_, object) => effects.push(Effect::Missed(object)),
        Move::Nano(change) => tell_nano(effects, change),
        Move::Requests(change) => tell_request(effects, change),
        Move::Locks(change) => tell_lock(effects, change),
        Move::Death(change) => tell_dying(effects, change),
        Move::Servers(change) => tell_server(effects, change),
        Move::Messages(change) => tell_message(effects, reads, &change),
        Move::GoOn(_, _)
        | Move::Keep(_, _)
        | Move::Write(_, _, _)
        | Move::WriteMessage(_, _, _)
        | Move::PutDown(_)
        | Move::Advance(_)
        | Move::Wait(_, _)
        | Move::Wake(_)
        | Move::SetPriority(_, _)
        | Move::Deferred(_)
        | Move::Logons(_)
        | Move::Fill(_, _, _, _)
        | Move::Copies(_) => {}
        Move::Pay(what) => tell_payment(effects, what),
    }
}

/// Tells the death of an object, where one died.
pub fn tell_death(effects: &mut Effects, dead: Option<ObjNo>)
    requires { length effects.old + length (dead_told dead) ≤ 4 }
    ensures { effects.new ≡ effects.old ++ dead_told dead }
{
    if let Some(object) = dead {
        effects.push(Effect::Dead(object));
    }
}
