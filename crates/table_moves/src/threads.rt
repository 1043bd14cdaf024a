//! Rows of threads: one change of a thread's row each, and none where there is no such thread.
ghost use Rattle.std.specs.Prelude.{◌≡◌, ◌+◌, ◌<◌, ◌≤◌, None, Some, slice_set};
ghost use Rattle.machine.specs.Moves.{with_use, unlinked, with_found, with_opened, with_missed, with_kept, with_message, with_part, with_register, advanced, with_waiting, with_priority, threads_gain, threads_lose, threads_closed};
ghost use Rattle.machine.specs.Memory.{filled, with_memory};
ghost use Rattle.machine.specs.Room.{MayAdvance};
ghost use Rattle.machine.specs.Rows.{with_row};
ghost use Rattle.table_moves.specs.ThreadRows.{with_sought, with_threads};

use entry_log::{Holder, Part};
use procs::Procs;
use state_rows::Waiting;
use sym_base::{ObjNo, ThreadNo};

/// A thread's call uses this object, or nothing.
fn set_use(procs: &mut Procs, thread: ThreadNo, uses: Option<ObjNo>)
    ensures { procs.new ≡ with_threads procs.old (with_row procs.old.threads thread (with_use uses)) }
{
    if procs.is_thread(thread) {
        procs.set_uses(thread, uses);
    }
}

/// A holder gets a reference: where it is a thread's call, that uses the object.
pub fn threads_gain(procs: &mut Procs, holder: Holder, object: ObjNo)
    ensures { procs.new ≡ with_threads procs.old (threads_gain holder object procs.old.threads) }
{
    if let Holder::Temp(thread) = holder {
        set_use(procs, thread, Some(object));
    }
}

/// A holder gives its reference up: where it is a thread's call, that uses nothing any more.
pub fn threads_lose(procs: &mut Procs, holder: Holder)
    ensures { procs.new ≡ with_threads procs.old (threads_lose holder procs.old.threads) }
{
    if let Holder::Temp(thread) = holder {
        set_use(procs, thread, None);
    }
}

/// A reference to an object goes: with the last one its own link is taken off its row.
pub fn threads_closed(procs: &mut Procs, last: bool, object: ObjNo)
    ensures { procs.new ≡ with_threads procs.old (threads_closed last object procs.old.threads) }
{
    if last && procs.is_thread(object) {
        procs.set_link(object, None);
    }
}

/// A thread's find found this object, of this place.
fn threads_seek(procs: &mut Procs, thread: ThreadNo, object: ObjNo, place: u64)
    ensures { procs.new ≡ with_threads procs.old (with_row procs.old.threads thread (with_sought object place)) }
{
    if procs.is_thread(thread) {
        procs.set_sought(thread, object, place);
    }
}

/// A thread found an object of a place, and comes back next.
pub fn threads_find(procs: &mut Procs, thread: ThreadNo, object: ObjNo, place: u64)
    ensures { procs.new ≡ with_threads procs.old (with_row procs.old.threads thread (with_found object place)) }
{
    threads_seek(procs, thread, object, place);
    threads_go_on(procs, thread, Part::Return);
}

/// A thread comes back and opens an object, and goes on to a step of its instruction.
pub fn threads_open(procs: &mut Procs, thread: ThreadNo, object: ObjNo, part: Part)
    ensures { procs.new ≡ with_threads procs.old (with_row procs.old.threads thread (with_opened object part)) }
{
    set_use(procs, thread, Some(object));
    threads_go_on(procs, thread, part);
}

/// A thread comes back to an object that was dead.
pub fn threads_miss(procs: &mut Procs, thread: ThreadNo)
    ensures { procs.new ≡ with_threads procs.old (with_row procs.old.threads thread with_missed) }
{
    if procs.is_thread(thread) {
        procs.set_part(thread, None);
    }
}

/// A thread keeps a number that a step of its instruction found.
pub fn threads_keep(procs: &mut Procs, thread: ThreadNo, number: u32)
    ensures { procs.new ≡ with_threads procs.old (with_row procs.old.threads thread (with_kept number)) }
{
    if procs.is_thread(thread) {
        procs.set_found(thread, number);
    }
}

/// A thread goes on to a step of its instruction.
pub fn threads_go_on(procs: &mut Procs, thread: ThreadNo, part: Part)
    ensures { procs.new ≡ with_threads procs.old (with_row procs.old.threads thread (with_part part)) }
{
    if procs.is_thread(thread) {
        procs.set_part(thread, Some(part));
    }
}

/// A register of a thread gets a value.
pub fn threads_write(procs: &mut Procs, thread: ThreadNo, register: u8, value: u32)
    requires { register < 8 }
    ensures { procs.new ≡ with_threads procs.old (with_row procs.old.threads thread (with_register register value)) }
{
    if procs.is_thread(thread) {
        procs.set_register(thread, register, value);
    }
}

/// A register of a thread for messages gets the number of one.
pub fn threads_write_message(procs: &mut Procs, thread: ThreadNo, register: u8, number: u32)
    requires { register < 8 }
    ensures { procs.new ≡ with_threads procs.old (with_row procs.old.threads thread (with_message register number)) }
{
    if procs.is_thread(thread) {
        procs.set_message(thread, register, number);
    }
}

/// A thread goes on to its next instruction.
pub fn threads_advance(procs: &mut Procs, thread: ThreadNo)
    requires { MayAdvance 1 procs.old.threads }
    ensures { procs.new ≡ with_threads procs.old (with_row procs.old.threads thread advanced) }
{
    if procs.is_thread(thread) {
        procs.advance(thread);
    }
}

/// A thread waits for this from now on.
pub fn threads_wait(procs: &mut Procs, thread: ThreadNo, what: Waiting)
    ensures { procs.new ≡ with_threads procs.old (with_row procs.old.threads thread (with_waiting what)) }
{
    if procs.is_thread(thread) {
        procs.set_waiting(thread, what);
    }
}

/// A thread gets a priority.
pub fn threads_set_priority(procs: &mut Procs, thread: ThreadNo, priority: u8)
    ensures { procs.new ≡ with_threads procs.old (with_row procs.old.threads thread (with_priority priority)) }
{
    if procs.is_thread(thread) {
        procs.set_priority(thread, priority);
    }
}

/// Bytes of a process's memory, from an offset on, get a value.
pub fn fill(procs: &mut Procs, process: ObjNo, at: u16, length: u16, byte: u8)
    requires { at + length ≤ 1024 }
    ensures { procs.new ≡ record procs.old { processes = with_memory procs.old.processes process (filled at length byte) } }
{
    if procs.is_process(process) {
        procs.fill(process, at, length, byte);
    }
}
