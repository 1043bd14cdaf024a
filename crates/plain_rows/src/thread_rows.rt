//! Changes of threads' rows. A number without a row stays without one.
ghost use Rattle.std.specs.Prelude.{◌≡◌, ◌<◌, Some, option_map, slice_set};
ghost use Rattle.std.specs.List.{slice_index_or};
ghost use Rattle.machine.specs.Moves.{with_use, unlinked, with_found, with_opened, with_missed, with_kept, with_part, with_register, with_message, advanced, with_waiting, with_priority, threads_gain, threads_lose, threads_closed};
ghost use Rattle.machine.specs.Room.{MayAdvance};
ghost use Rattle.machine.specs.Rows.{with_row};
ghost use Rattle.state_rows.specs.declared.thread.ThreadRow.{ThreadRow};

use entry_log::{Holder, Part};
use machine::{ThreadRow, Waiting};
use sym_base::{Items, ObjNo, ThreadNo};

/// The row has another use.
fn with_use(row: &mut Option<ThreadRow>, uses: Option<ObjNo>)
    ensures { row.new ≡ option_map (with_use uses) row.old }
{
    if let Some(row) = row {
        row.uses = uses;
    }
}

/// The row has no link any more.
fn unlinked(row: &mut Option<ThreadRow>)
    ensures { row.new ≡ option_map unlinked row.old }
{
    if let Some(row) = row {
        row.link = None;
    }
}

/// The row has what was found, and the return comes next.
fn with_found(row: &mut Option<ThreadRow>, object: ObjNo, place: u64)
    ensures { row.new ≡ option_map (with_found object place) row.old }
{
    if let Some(row) = row {
        row.sought = object;
        row.sought_place = place;
        row.part = Some(Part::Return);
    }
}

/// The row uses what was opened, and goes on to this step.
fn with_opened(row: &mut Option<ThreadRow>, object: ObjNo, part: Part)
    ensures { row.new ≡ option_map (with_opened object part) row.old }
{
    if let Some(row) = row {
        row.uses = Some(object);
        row.part = Some(part);
    }
}

/// The row is back from what it missed.
fn with_missed(row: &mut Option<ThreadRow>)
    ensures { row.new ≡ option_map with_missed row.old }
{
    if let Some(row) = row {
        row.part = None;
    }
}

/// The row has a number that was found.
fn with_kept(row: &mut Option<ThreadRow>, number: u32)
    ensures { row.new ≡ option_map (with_kept number) row.old }
{
    if let Some(row) = row {
        row.found = number;
    }
}

/// The row has another next step.
fn with_part(row: &mut Option<ThreadRow>, part: Part)
    ensures { row.new ≡ option_map (with_part part) row.old }
{
    if let Some(row) = row {
        row.part = Some(part);
    }
}

/// A register gets a value.
fn set_register(registers: &mut [u32; 8], register: u8, value: u32)
    ensures { registers.new ≡ slice_set registers.old register value }
{
    let at = register as usize;
    if at < registers.len() {
        registers[at] = value;
    }
}

/// The row has a value in a register.
fn with_register(row: &mut Option<ThreadRow>, register: u8, value: u32)
    ensures { row.new ≡ option_map (with_register register value) row.old }
{
    if let Some(row) = row {
        set_register(&mut row.registers, register, value);
    }
}

/// The row has the number of a message in a register.
fn with_message(row: &mut Option<ThreadRow>, register: u8, number: u32)
    ensures { row.new ≡ option_map (with_message register number) row.old }
{
    if let Some(row) = row {
        set_register(&mut row.messages, register, number);
    }
}

/// The row is at its next instruction.
fn advanced(row: &mut Option<ThreadRow>)
    requires { (r : ThreadRow) → row.old ≡ Some r → r.next_instruction < 4294967295 }
    ensures { row.new ≡ option_map advanced row.old }
{
    if let Some(row) = row {
        row.next_instruction += 1;
        row.part = None;
        row.found = 0;
        row.uses = None;
    }
}

/// The row has what the thread waits for.
fn with_waiting(row: &mut Option<ThreadRow>, what: Waiting)
    ensures { row.new ≡ option_map (with_waiting what) row.old }
{
    if let Some(row) = row {
        row.waiting = what;
    }
}

/// The row has another priority.
fn with_priority(row: &mut Option<ThreadRow>, priority: u8)
    ensures { row.new ≡ option_map (with_priority priority) row.old }
{
    if let Some(row) = row {
        row.priority = priority;
    }
}

/// A holder gets a reference: only a thread's temporary one stands in its row.
pub fn threads_gain(threads: &mut Items<Option<ThreadRow>>, holder: Holder, object: ObjNo)
    ensures { threads.new ≡ threads_gain holder object threads.old }
{
    if let Holder::Temp(thread) = holder {
        let at = thread.0 as usize;
        if at < threads.len() {
            with_use(threads.get_mut(at), Some(object));
        }
    }
}

/// A holder gives its reference up.
pub fn threads_lose(threads: &mut Items<Option<ThreadRow>>, holder: Holder)
    ensures { threads.new ≡ threads_lose holder threads.old }
{
    if let Holder::Temp(thread) = holder {
        let at = thread.0 as usize;
        if at < threads.len() {
            with_use(threads.get_mut(at), None);
        }
    }
}

/// As a thread dies its own link is taken off its row.
pub fn threads_closed(threads: &mut Items<Option<ThreadRow>>, dying: bool, object: ObjNo)
    ensures { threads.new ≡ threads_closed dying object threads.old }
{
    if dying {
        let at = object.0 as usize;
        if at < threads.len() {
            unlinked(threads.get_mut(at));
        }
    }
}

/// The thread found an object of a place, and comes back next.
pub fn threads_find(
    threads: &mut Items<Option<ThreadRow>>,
    thread: ThreadNo,
    object: ObjNo,
    place: u64,
)
    ensures { threads.new ≡ with_row threads.old thread (with_found object place) }
{
    let at = thread.0 as usize;
    if at < threads.len() {
        with_found(threads.get_mut(at), object, place);
    }
}

/// The thread comes back and opens an object, and goes on to this step.
pub fn threads_open(
    threads: &mut Items<Option<ThreadRow>>,
    thread: ThreadNo,
    object: ObjNo,
    part: Part,
)
    ensures { threads.new ≡ with_row threads.old thread (with_opened object part) }
{
    let at = thread.0 as usize;
    if at < threads.len() {
        with_opened(threads.get_mut(at), object, part);
    }
}

/// The thread comes back to an object that was dead.
pub fn threads_miss(threads: &mut Items<Option<ThreadRow>>, thread: ThreadNo)
    ensures { threads.new ≡ with_row threads.old thread with_missed }
{
    let at = thread.0 as usize;
    if at < threads.len() {
        with_missed(threads.get_mut(at));
    }
}

/// The thread keeps a number that it found.
pub fn threads_keep(threads: &mut Items<Option<ThreadRow>>, thread: ThreadNo, number: u32)
    ensures { threads.new ≡ with_row threads.old thread (with_kept number) }
{
    let at = thread.0 as usize;
    if at < threads.len() {
        with_kept(threads.get_mut(at), number);
    }
}

/// The thread goes on to this step.
pub fn threads_go_on(threads: &mut Items<Option<ThreadRow>>, thread: ThreadNo, part: Part)
    ensures { threads.new ≡ with_row threads.old thread (with_part part) }
{
    let at = thread.0 as usize;
    if at < threads.len() {
        with_part(threads.get_mut(at), part);
    }
}

/// The thread's register gets a value.
pub fn threads_write(
    threads: &mut Items<Option<ThreadRow>>,
    thread: ThreadNo,
    register: u8,
    value: u32,
)
    ensures { threads.new ≡ with_row threads.old thread (with_register register value) }
{
    let at = thread.0 as usize;
    if at < threads.len() {
        with_register(threads.get_mut(at), register, value);
    }
}

/// The thread's register for messages gets the number of one.
pub fn threads_write_message(
    threads: &mut Items<Option<ThreadRow>>,
    thread: ThreadNo,
    register: u8,
    number: u32,
)
    ensures { threads.new ≡ with_row threads.old thread (with_message register number) }
{
    let at = thread.0 as usize;
    if at < threads.len() {
        with_message(threads.get_mut(at), register, number);
    }
}

/// The thread goes on to its next instruction.
pub fn threads_advance(threads: &mut Items<Option<ThreadRow>>, thread: ThreadNo)
    requires { MayAdvance 1 threads.old }
    ensures { threads.new ≡ with_row threads.old thread advanced }
{
    let at = thread.0 as usize;
    if at < threads.len() {
        advanced(threads.get_mut(at));
    }
}

/// The thread waits for this.
pub fn threads_wait(threads: &mut Items<Option<ThreadRow>>, thread: ThreadNo, what: Waiting)
    ensures { threads.new ≡ with_row threads.old thread (with_waiting what) }
{
    let at = thread.0 as usize;
    if at < threads.len() {
        with_waiting(threads.get_mut(at), what);
    }
}

/// The thread gets a priority.
pub fn threads_set_priority(threads: &mut Items<Option<ThreadRow>>, thread: ThreadNo, priority: u8)
    ensures { threads.new ≡ with_row threads.old thread (with_priority priority) }
{
    let at = thread.0 as usize;
    if at < threads.len() {
        with_priority(threads.get_mut(at), priority);
    }
}
