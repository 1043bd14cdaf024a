//! The tables and the queues of ready threads at boot.
ghost use Rattle.std.specs.Prelude.{if◌then◌else◌, ◌≡◌, ◌<◌, ◌≤◌, false, true, length, map, replicate, IfOk, slice_set};
ghost use Rattle.sym_base.specs.declared.limits.TheConstants.Limits.{BOOT_OBJECTS, DEVICES, OBJECTS, HANDLES};
ghost use Rattle.sym_base.specs.declared.number.ObjNo.{ObjNo};
ghost use Rattle.script_types.specs.Source.{IsWellFormed};
ghost use Rattle.script_types.specs.Shape.{IsShaped};
ghost use Rattle.state_rows.specs.DeclaredCalls.{calls_of};
ghost use Rattle.ref_words.specs.Words.{NoneCreated};
ghost use Rattle.machine.specs.Arrivals.{is_listed};
ghost use Rattle.machine.specs.Boot.{boot, born, nano_of, ready_at_boot, uses_again};
ghost use Rattle.machine.specs.Choice.{priority_of};
ghost use Rattle.state_rows.specs.HandleSlots.{fresh_slot};
ghost use Rattle.machine.specs.WellFormed.{AreApart};
ghost use Rattle.state_rows.specs.MessageChanges.{no_messages};
ghost use Rattle.state_rows.specs.Nano.{suspend_count};
ghost use Rattle.state_rows.specs.RequestChanges.{new_rows as request_rows};
ghost use Rattle.cleanup.specs.Lists.{empty_lists};
ghost use Rattle.table_moves.specs.Notes.{no_notes};
ghost use Rattle.kcore.specs.BootTable.{AreTables, AreThreadTables, born_priority, born_rows, no_servers};
ghost use Rattle.kernel_tables.specs.Noted.{AreKept};
ghost use Rattle.kernel_tables.specs.ReadyQueues.{AreReady};
ghost use Rattle.kernel_tables.specs.StateOf.{slots_of, state_of};

use crate::boot_objects::counted;
use crate::boot_tables::{ServerTables, locks_of, priority_at, procs_of, server_tables};
use cleanup::Cleanup;
use handles::Handles;
use kern_sync::KernSync;
use kernel_tables::{CallQueues, Core, ObjectTable, Tables};
use machine::{Born, Mode, all_born, ready_from, uses_again};
use nano_sync::NanoSync;
use procs::Procs;
use ready_list::ReadyList;
use ref_words::RefWords;
use requests::Requests;
use script_types::Script;
use std::alloc::Global;
use sym_base::{Items, Kind, Limits, NoMemory, ObjNo, ThreadNo};

/// An empty handle table for each.
fn fresh_handles(alloc: Global, all: &[Born]) -> Result<Items<Handles>, NoMemory>
    ensures { IfOk result (λ tables. slots_of tables ≡ map (λ _. replicate HANDLES fresh_slot) all.now) }
{
    let mut tables = Vec::new(alloc);
    for born in all {
        tables.push(Handles::new(alloc, born.object.kind == Kind::Thread)?)?;
    }
    Ok(Items::new(tables))
}

/// Suspends a thread once, where it is declared as held.
fn hold(nano: &mut NanoSync, thread: ThreadNo, held: bool)
    requires thread { thread.0 < length nano.old.signals }
    requires none { suspend_count nano.old thread ≡ 0 }
    ensures { nano.new ≡ record nano.old { suspensions = slice_set nano.old.suspensions thread.0 (if held then 1 else 0) } }
{
    if held {
        let _ = nano.suspend(thread);
    }
}

/// The table of threads that synchronize, of which those are suspended that are declared as held.
fn nano_of(alloc: Global, fast: u8, all: &[Born]) -> Result<NanoSync, NoMemory>
    requires { length all.now < 65536 }
    ensures { IfOk result (λ nano. nano ≡ nano_of fast all.now) }
{
    let mut nano = NanoSync::new(alloc, all.len() as u16, fast)?;
    for (number, born) in all.iter().enumerate() {
        hold(&mut nano, ObjNo(number as u16), born.held);
    }
    Ok(nano)
}

/// No device has a request, and each status and semaphore is 0.
fn requests_of(alloc: Global, all: &[Born]) -> Result<Requests, NoMemory>
    requires { length all.now < 65536 }
    ensures { IfOk result (λ requests. requests ≡ request_rows (length all.now) DEVICES) }
{
    Requests::new(alloc, all.len() as u16, Limits::DEVICES as u8)
}

/// The queues of ready threads, by their priorities at boot.
fn queues_of(alloc: Global, all: &[Born], threads: &[ThreadNo]) -> Result<ReadyList, NoMemory>
    requires once { AreApart threads.now }
    requires known { (t : ObjNo) → is_listed threads.now t ≡ true → t.0 < BOOT_OBJECTS }
    requires ranged { (t : ObjNo) → is_listed threads.now t ≡ true → born_priority all.now t < 64 }
    ensures { IfOk result (λ list. AreReady (born_priority all.now) threads.now list) }
{
    let mut list = ReadyList::new(alloc, Limits::BOOT_OBJECTS as u16)?;
    for thread in threads {
        list.add(*thread, priority_at(all, *thread));
    }
    Ok(list)
}

/// The handle tables, which are empty, and the lists of what each owes and has, which have nothing.
#[derive(Drop)]
struct EmptyTables {
    handles: Items<Handles>,
    cleanup: Cleanup,
}

/// Makes those for each of the objects that stand.
fn empty_tables(alloc: Global, all: &[Born]) -> Result<EmptyTables, NoMemory>
    requires { length all.now < 65536 }
    ensures handles { IfOk result (λ made. slots_of made.handles ≡ map (λ _. replicate HANDLES fresh_slot) all.now) }
    ensures cleanup { IfOk result (λ made. made.cleanup ≡ empty_lists (length all.now) OBJECTS) }
{
    let handles = fresh_handles(alloc, all)?;
    let cleanup = Cleanup::new(alloc, all.len() as u16, Limits::OBJECTS as u16)?;
    Ok(EmptyTables { handles, cleanup })
}

/// The threads' rows with the processes' memories, and the locks.
#[derive(Drop)]
struct ThreadTables {
    procs: Procs,
    locks: KernSync,
}

/// Makes those of the threads that stand: nobody owns or waits for a lock.
fn thread_tables(alloc: Global, all: &[Born]) -> Result<ThreadTables, NoMemory>
    requires { length all.now ≤ BOOT_OBJECTS }
    ensures { IfOk result (λ made. AreThreadTables (born_rows all.now) made.procs made.locks) }
{
    let procs = procs_of(alloc, all)?;
    let locks = locks_of(alloc, all)?;
    Ok(ThreadTables { procs, locks })
}

/// The tables of threads that synchronize, of deferred function calls, and of requests.
#[derive(Drop)]
struct CallTables {
    nano: NanoSync,
    deferred: CallQueues,
    requests: Requests,
}

/// Makes those of the script: nothing is queued or asked for.
fn call_tables(alloc: Global, script: &Script, all: &[Born]) -> Result<CallTables, NoMemory>
    requires shaped { IsShaped script.now }
    requires few { length all.now < 65536 }
    ensures nano { IfOk result (λ made. made.nano ≡ nano_of script.now.fast all.now) }
    ensures deferred { IfOk result (λ made. made.deferred ≡ calls_of script.now) }
    ensures requests { IfOk result (λ made. made.requests ≡ request_rows (length all.now) DEVICES) }
{
    let nano = nano_of(alloc, script.fast, all)?;
    let deferred = CallQueues::new(alloc, script)?;
    let requests = requests_of(alloc, all)?;
    Ok(CallTables {
        nano,
        deferred,
        requests,
    })
}

/// All tables but that of objects.
#[derive(Drop)]
struct OtherTables {
    empty: EmptyTables,
    threads: ThreadTables,
    calls: CallTables,
    serving: ServerTables,
}

/// Makes those that stand at boot. It is taken into its caller, so that they are moved once less.
#[inline(always)]
fn other_tables(alloc: Global, script: &Script, all: &[Born]) -> Result<OtherTables, NoMemory>
    requires shaped { IsShaped script.now }
    requires few { length all.now ≤ BOOT_OBJECTS }
    ensures threads { IfOk result (λ made. AreThreadTables (born_rows all.now) made.threads.procs made.threads.locks) }
    ensures handles { IfOk result (λ made. slots_of made.empty.handles ≡ map (λ _. replicate HANDLES fresh_slot) all.now) }
    ensures cleanup { IfOk result (λ made. made.empty.cleanup ≡ empty_lists (length all.now) OBJECTS) }
    ensures nano { IfOk result (λ made. made.calls.nano ≡ nano_of script.now.fast all.now) }
    ensures deferred { IfOk result (λ made. made.calls.deferred ≡ calls_of script.now) }
    ensures requests { IfOk result (λ made. made.calls.requests ≡ request_rows (length all.now) DEVICES) }
    ensures servers { IfOk result (λ made. made.serving.servers ≡ no_servers) }
    ensures messages { IfOk result (λ made. made.serving.messages ≡ no_messages OBJECTS script.now.pool) }
{
    let empty = empty_tables(alloc, all)?;
    let threads = thread_tables(alloc, all)?;
    let calls = call_tables(alloc, script, all)?;
    let serving = server_tables(alloc, script)?;
    Ok(OtherTables {
        empty,
        threads,
        calls,
        serving,
    })
}

/// The tables of what stands at boot, over its objects.
fn tables_of<W: RefWords + Drop>(
    alloc: Global,
    script: &Script,
    all: &[Born],
    objects: ObjectTable<W>,
) -> Result<Tables<W>, NoMemory>
    requires shaped { IsShaped script.now }
    requires few { length all.now ≤ BOOT_OBJECTS }
    ensures { IfOk result (λ tables. AreTables script.now all.now objects tables) }
{
    let OtherTables {
        empty,
        threads,
        calls,
        serving,
    } = other_tables(alloc, script, all)?;
    Ok(Tables {
        mode: Mode {
            shared: false,
            keep: false,
            reuse: uses_again(script.version),
        },
        objects,
        handles: empty.handles,
        procs: threads.procs,
        locks: threads.locks,
        cleanup: empty.cleanup,
        nano: calls.nano,
        deferred: calls.deferred,
        requests: calls.requests,
        servers: serving.servers,
        messages: serving.messages,
    })
}

/// The tables at boot.
fn tables_at_boot<W: RefWords + Drop>(
    alloc: Global,
    script: &Script,
    words: W,
    all: &[Born],
) -> Result<Tables<W>, NoMemory>
    requires valid { IsWellFormed script.now }
    requires places { 81 ≤ length (W.meaning words).own }
    requires numbers { uses_again script.now.version ≡ false → OBJECTS ≤ length (W.meaning words).own }
    requires fresh { NoneCreated (W.meaning words) }
    requires born { all.now ≡ born script.now }
    ensures state { IfOk result (λ tables. state_of tables ≡ boot script.now) }
    ensures kept { IfOk result (λ tables. AreKept tables) }
    ensures made { IfOk result (λ tables. tables.objects.made ≡ length (born script.now)) }
    ensures notes { IfOk result (λ tables. tables.objects.notes ≡ no_notes (W.meaning words).identity (length (W.meaning words).own)) }
{
    let objects = counted(alloc, words, all, uses_again(script.version))?;
    let tables = tables_of(alloc, script, all, objects)?;
    Ok(tables)
}

/// The core at boot.
pub fn boot<W: RefWords + Drop>(
    alloc: Global,
    script: &Script,
    words: W,
) -> Result<Core<W>, NoMemory>
    requires valid { IsWellFormed script.now }
    requires places { 81 ≤ length (W.meaning words).own }
    requires numbers { uses_again script.now.version ≡ false → OBJECTS ≤ length (W.meaning words).own }
    requires fresh { NoneCreated (W.meaning words) }
    ensures state { IfOk result (λ core. core.state ≡ boot script.now) }
    ensures queues { IfOk result (λ core. AreReady (priority_of (boot script.now)) (ready_at_boot script.now) core.ready) }
    ensures notes { IfOk result (λ core. core.notes ≡ no_notes (W.meaning words).identity (length (W.meaning words).own)) }
{
    let born = all_born(alloc, script)?;
    let all = born.as_slice();
    let threads = ready_from(alloc, all)?;
    let ready = queues_of(alloc, all, threads.as_slice())?;
    let tables = tables_at_boot(alloc, script, words, all)?;
    Ok(Core::new(tables, ready))
}
