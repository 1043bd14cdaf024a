//! Moves in the kernel's tables: each changes the rows, and the counts move with what it tells.
ghost use Rattle.std.specs.Prelude.{◌≡◌, ◌+◌, ◌≤◌, ◌++◌, length};
ghost use Rattle.sym_base.specs.declared.number.ObjNo.{ObjNo};
ghost use Rattle.machine.specs.MessageMoves.{message_told};
ghost use Rattle.machine.specs.RequestMoves.{request_told};
ghost use Rattle.readings.specs.Dying.{dead_by, told_alive};
ghost use Rattle.table_moves.specs.RequestMoved.{CanRequest};
ghost use Rattle.kernel_tables.specs.Choosing.{MayClose, closing_bit};
ghost use Rattle.kernel_tables.specs.Moved.{CanMake, CanGain, CanAdvance, CanMove, HasPlaceFor, IsMoved, IsRare, chosen_state, making_bit};
ghost use Rattle.kernel_tables.specs.Noted.{AreKept, TiedTables};
ghost use Rattle.kernel_tables.specs.ServerMoved.{CanMessage};
ghost use Rattle.kernel_tables.specs.StateOf.{state_of};

use crate::closings::{lose, pay};
use crate::copy_moves::move_copy;
use crate::death_moves::move_death;
use crate::handle_moves::gain_slot;
use crate::lock_moves::move_lock;
use crate::server_moves::{move_message, move_server};
use crate::tables::Tables;
use entry_log::{Effects, Holder, Part};
use machine::{MessageMove, Move, RequestMove, Waiting};
use readings::{tell, tell_message, tell_request};
use ref_words::RefWords;
use sym_base::{Kind, Name, ObjNo, ThreadNo};
use table_moves::{
    fill, move_logon, move_nano, move_request, note_end, note_gain, owe_use, owned_gain,
    threads_advance, threads_find, threads_gain, threads_go_on, threads_keep, threads_lose,
    threads_miss, threads_open, threads_set_priority, threads_wait, threads_write,
    threads_write_message, use_of,
};

/// Makes an object, whose first reference is the holder's.
fn make<W: RefWords + Drop>(tables: &mut Tables<W>, kind: Kind, name: Name, holder: Holder)
    requires can { CanMake kind name holder (state_of tables.old) }
    requires place { HasPlaceFor 1 tables.old }
    requires kept { AreKept tables.old }
    ensures { (t : ObjNo) → IsMoved t (Move.Make kind name holder) tables.old tables.new }
{
    let object = tables.objects.make(kind, &name);
    gain_slot(&mut tables.handles, holder, object);
    note_gain(&mut tables.cleanup, holder, object);
    owned_gain(&mut tables.cleanup, holder, object);
    threads_gain(&mut tables.procs, holder, object);
}

/// A holder gets a reference.
fn gain<W: RefWords + Drop>(tables: &mut Tables<W>, holder: Holder, object: ObjNo)
    requires can { CanGain holder object (state_of tables.old) }
    requires kept { AreKept tables.old }
    ensures { (t : ObjNo) → IsMoved t (Move.Gain holder object) tables.old tables.new }
{
    tables.objects.add_ref(object);
    gain_slot(&mut tables.handles, holder, object);
    note_gain(&mut tables.cleanup, holder, object);
    threads_gain(&mut tables.procs, holder, object);
}

/// A thread comes back and opens an object, and goes on to this step.
fn open_found<W: RefWords + Drop>(
    tables: &mut Tables<W>,
    thread: ThreadNo,
    object: ObjNo,
    part: Part,
)
    requires can { CanGain (Holder.Temp thread) object (state_of tables.old) }
    requires kept { AreKept tables.old }
    ensures { (t : ObjNo) → IsMoved t (Move.Open thread object part) tables.old tables.new }
{
    tables.objects.add_ref(object);
    note_gain(&mut tables.cleanup, Holder::Temp(thread), object);
    threads_open(&mut tables.procs, thread, object, part);
}

/// The thread goes on to its next instruction, and owes the close of what it used.
fn advance<W: RefWords + Drop>(tables: &mut Tables<W>, thread: ThreadNo)
    requires can { CanAdvance thread (state_of tables.old) }
    requires tied { TiedTables tables.old }
    ensures { (t : ObjNo) → IsMoved t (Move.Advance thread) tables.old tables.new }
{
    let uses = use_of(&tables.procs, thread);
    note_end(&mut tables.cleanup, &tables.procs, thread);
    threads_advance(&mut tables.procs, thread);
    owe_use(&mut tables.cleanup, thread, uses);
}

/// A thread's temporary reference goes, and it owes the close of what it used.
fn put_down<W: RefWords + Drop>(tables: &mut Tables<W>, thread: ThreadNo)
    requires can { CanMove thread (Move.PutDown thread) (state_of tables.old) }
    requires tied { TiedTables tables.old }
    ensures { (t : ObjNo) → IsMoved t (Move.PutDown thread) tables.old tables.new }
{
    let uses = use_of(&tables.procs, thread);
    note_end(&mut tables.cleanup, &tables.procs, thread);
    threads_lose(&mut tables.procs, Holder::Temp(thread));
    owe_use(&mut tables.cleanup, thread, uses);
}

/// A thread gets a priority, among the ready threads and among waiters.
fn set_priority<W: RefWords + Drop>(tables: &mut Tables<W>, thread: ThreadNo, priority: u8)
    requires can { CanMove thread (Move.SetPriority thread priority) (state_of tables.old) }
    requires tied { TiedTables tables.old }
    ensures { (t : ObjNo) → IsMoved t (Move.SetPriority thread priority) tables.old tables.new }
{
    if !tables.procs.is_thread(thread) {
        return;
    }
    threads_set_priority(&mut tables.procs, thread, priority);
    tables.locks.set_priority(thread, priority);
}

/// The place of an object that is found is noted in the thread's row.
fn find<W: RefWords + Drop>(tables: &mut Tables<W>, thread: ThreadNo, object: ObjNo)
    requires { TiedTables tables.old }
    ensures { (t : ObjNo) → IsMoved t (Move.Find thread object) tables.old tables.new }
{
    let place = tables.objects.place(object);
    threads_find(&mut tables.procs, thread, object, place);
}

/// One move in the table of requests, which is told.
#[inline(never)]
fn make_request<W: RefWords + Drop>(
    tables: &mut Tables<W>,
    change: &RequestMove,
    effects: &mut Effects,
)
    requires can { CanRequest change.now (state_of tables.old).synchronization.requests }
    requires kept { AreKept tables.old }
    requires few { length effects.old + length (request_told change.now) ≤ 4 }
    ensures moved { (t : ObjNo) → IsMoved t (Move.Requests change.now) tables.old tables.new }
    ensures told { effects.new ≡ effects.old ++ request_told change.now }
{
    tell_request(effects, *change);
    move_request(&mut tables.requests, *change);
}

/// One move in the table of messages in an action of a thread, which is told from the state before it.
#[inline(never)]
fn make_message<W: RefWords + Drop>(
    tables: &mut Tables<W>,
    thread: ThreadNo,
    change: &MessageMove,
    effects: &mut Effects,
)
    requires can { CanMessage thread change.now (state_of tables.old) }
    requires kept { AreKept tables.old }
    requires few { length effects.old + length (message_told change.now (state_of tables.old).serving.messages) ≤ 4 }
    ensures moved { IsMoved thread (Move.Messages change.now) tables.old tables.new }
    ensures told { effects.new ≡ effects.old ++ message_told change.now (state_of tables.old).serving.messages }
{
    tell_message(effects, tables, change);
    move_message(tables, thread, *change);
}

/// One move of a rare kind in an action of a thread, which is told from the state before it. Such moves stand apart from the others,
/// so that these don't make places for what they carry.
#[inline(never)]
fn make_rare<W: RefWords + Drop>(
    tables: &mut Tables<W>,
    thread: ThreadNo,
    change: &Move,
    effects: &mut Effects,
)
    requires can { CanMove thread change.now (state_of tables.old) }
    requires kept { AreKept tables.old }
    requires few { length effects.old + length (told_alive change.now (state_of tables.old)) ≤ 4 }
    requires rare { IsRare change.now }
    ensures moved { IsMoved thread change.now tables.old tables.new }
    ensures told { effects.new ≡ effects.old ++ told_alive change.now (state_of tables.old) }
{
    tell(effects, tables, change);
    match *change {
        Move::SetPriority(other, priority) => set_priority(tables, other, priority),
        Move::Nano(change) => move_nano(&mut tables.nano, change),
        Move::Deferred(change) => tables.deferred.change(change),
        Move::Locks(change) => move_lock(tables, change),
        Move::Logons(change) => move_logon(&mut tables.cleanup, change),
        Move::Death(change) => move_death(tables, thread, &change),
        Move::Servers(change) => move_server(tables, change),
        Move::Fill(process, at, length, byte) => {
            fill(&mut tables.procs, process, at, length, byte);
        }
        Move::Copies(change) => move_copy(tables, change),
        _ => unreachable!(),
    }
}

/// One move in an action of a thread, which is told from the state before it, but for a death, if it tells something. An object that
/// died of it is answered.
#[inline(always)]
pub fn make_move<W: RefWords + Drop>(
    tables: &mut Tables<W>,
    thread: ThreadNo,
    change: &Move,
    effects: &mut Effects,
) -> Option<ObjNo>
    requires can { CanMove thread change.now (state_of tables.old) }
    requires place { HasPlaceFor (making_bit change.now) tables.old }
    requires kept { AreKept tables.old }
    requires may { closing_bit change.now ≡ 1 → MayClose tables.old.objects.notes (state_of tables.old) }
    requires few { length effects.old + length (told_alive change.now (state_of tables.old)) ≤ 4 }
    ensures moved { IsMoved thread change.now tables.old tables.new }
    ensures dead { result ≡ dead_by change.now (chosen_state tables.old tables.new) }
    ensures told { effects.new ≡ effects.old ++ told_alive change.now (state_of tables.old) }
{
    match *change {
        Move::Make(kind, name, holder) => {
            tell(effects, tables, change);
            make(tables, kind, name, holder);
        }
        Move::Gain(holder, object) => {
            tell(effects, tables, change);
            gain(tables, holder, object);
        }
        Move::Lose(holder, object) => {
            tell(effects, tables, change);
            return lose(tables, thread, holder, object);
        }
        Move::Pay(what) => {
            tell(effects, tables, change);
            return pay(tables, thread, what);
        }
        Move::Find(other, object) => {
            tell(effects, tables, change);
            find(tables, other, object);
        }
        Move::Open(other, object, part) => {
            tell(effects, tables, change);
            open_found(tables, other, object, part);
        }
        Move::Miss(other, _) => {
            tell(effects, tables, change);
            threads_miss(&mut tables.procs, other);
        }
        Move::GoOn(other, part) => threads_go_on(&mut tables.procs, other, part),
        Move::Keep(other, number) => threads_keep(&mut tables.procs, other, number),
        Move::Write(other, register, value) => {
            threads_write(&mut tables.procs, other, register, value);
        }
        Move::WriteMessage(other, register, number) => {
            threads_write_message(&mut tables.procs, other, register, number);
        }
        Move::PutDown(other) => put_down(tables, other),
        Move::Advance(other) => advance(tables, other),
        Move::Wait(other, what) => threads_wait(&mut tables.procs, other, what),
        Move::Wake(other) => threads_wait(&mut tables.procs, other, Waiting::Nothing),
        Move::Requests(ref change) => make_request(tables, change, effects),
        Move::Messages(ref change) => make_message(tables, thread, change, effects),
        _ => make_rare(tables, thread, change, effects),
    }
    None
}
