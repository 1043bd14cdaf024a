//! Who stands at boot.
ghost use Rattle.std.specs.Prelude.{◌≡◌, ◌+◌, ◌≤◌, ◌++◌, [], ◌∷◌, IfOk, OnOk, length, vec_len};
ghost use Rattle.script_types.specs.Shape.{IsShaped};
ghost use Rattle.machine.specs.Boot.{boot_object, born_process, new_thread, born_thread, born_queue, born_queues, is_of, born_threads, born_supervisor, born_kernel, born};

use crate::spans::{Span, spans_of};
use crate::{Role, ThreadRow};
use script_types::{QueueDecl, Script, ThreadDecl};
use state_rows::ObjectRow;
use std::alloc::Global;
use sym_base::{Items, Kind, Name, NoMemory, ObjNo, read_name};

/// A process or thread that stands at boot; of a thread its row, whether it is ready, and whether it is suspended.
#[derive(Clone, Copy)]
pub struct Born {
    pub object: ObjectRow,
    pub thread: Option<ThreadRow>,
    pub works: bool,
    pub held: bool,
}

/// The kernel's own process.
const KERNEL: ObjNo = ObjNo(0);

/// The priority of the supervisor.
const SUPERVISOR_PRIORITY: u8 = 48;

/// An object that stands at boot. Its place is its number, which isn't known yet.
fn boot_object(kind: Kind, name: Name) -> ObjectRow
    ensures { result ≡ boot_object kind name }
{
    ObjectRow {
        kind,
        name,
        dead: false,
        place: 0,
    }
}

/// A process.
fn born_process(name: Name) -> Born
    ensures { result ≡ born_process name }
{
    Born {
        object: boot_object(Kind::Process, name),
        thread: None,
        works: false,
        held: false,
    }
}

/// A thread of this process.
fn new_thread(process: ObjNo, role: Role, priority: u8) -> ThreadRow
    ensures { result ≡ new_thread process.0 role priority }
{
    ThreadRow {
        role,
        link: Some(process),
        priority,
        ..ThreadRow::new(process)
    }
}

/// The thread that is declared at this place.
fn born_thread(process: ObjNo, number: u8, declared: &ThreadDecl) -> Born
    ensures { result ≡ born_thread process.0 number declared.now }
{
    Born {
        object: boot_object(Kind::Thread, declared.name),
        thread: Some(new_thread(process, Role::Declared(number), declared.priority)),
        works: !declared.held,
        held: declared.held,
    }
}

/// The thread of a queue of deferred function calls.
fn born_queue(queue: u8, declared: &QueueDecl) -> Born
    ensures { result ≡ born_queue queue declared.now }
{
    Born {
        object: boot_object(Kind::Thread, declared.name),
        thread: Some(new_thread(KERNEL, Role::Queue(queue), declared.priority)),
        works: false,
        held: false,
    }
}

/// Adds one more.
fn add(all: &mut Vec<Born>, one: Born) -> Result<(), NoMemory>
    ensures ok { OnOk result (all.new.items ≡ all.old.items ++ one ∷ []) }
    ensures few { vec_len all.new ≤ vec_len all.old + 1 }
{
    all.extend_from_slice(&[one])?;
    Ok(())
}

/// Adds the threads of the queues of deferred function calls.
fn push_queues(all: &mut Vec<Born>, queues: &[QueueDecl]) -> Result<(), NoMemory>
    requires { length queues.now ≤ 63 }
    ensures ok { OnOk result (all.new.items ≡ all.old.items ++ born_queues 1 queues.now) }
    ensures few { vec_len all.new ≤ vec_len all.old + 63 }
{
    for (k, declared) in queues.iter().enumerate() {
        add(all, born_queue(k as u8 + 1, declared))?;
    }
    Ok(())
}

/// Whether a declared thread is of the process at a place among the declared ones, or, with none, a kernel thread.
fn is_of(process: Option<u8>, of: Option<u8>) -> bool
    ensures { result ≡ is_of process of }
{
    match (process, of) {
        (Some(process), Some(number)) => number == process,
        (None, None) => true,
        _ => false,
    }
}

/// Adds the threads of a process, or the kernel threads, among those that are declared from a place on.
fn push_threads(
    all: &mut Vec<Born>,
    process: Option<u8>,
    number: ObjNo,
    first: usize,
    threads: &[ThreadDecl],
) -> Result<(), NoMemory>
    requires { first + length threads.now ≤ 63 }
    ensures ok { OnOk result (all.new.items ≡ all.old.items ++ born_threads process number.0 first threads.now) }
    ensures few { vec_len all.new ≤ vec_len all.old + 63 }
{
    for (k, declared) in threads.iter().enumerate() {
        if !is_of(process, declared.process) {
            continue;
        }
        add(all, born_thread(number, (first + k) as u8, declared))?;
    }
    Ok(())
}

/// The supervisor.
fn born_supervisor() -> Born
    ensures { result ≡ born_supervisor }
{
    Born {
        object: boot_object(Kind::Thread, read_name(b"supervisor").unwrap()),
        thread: Some(new_thread(KERNEL, Role::Supervisor, SUPERVISOR_PRIORITY)),
        works: false,
        held: false,
    }
}

/// The kernel's own process with its threads: the supervisor, the threads of queues, and the kernel threads.
fn born_kernel(alloc: Global, script: &Script) -> Result<Vec<Born>, NoMemory>
    requires { IsShaped script.now }
    ensures ok { IfOk result (λ all. all.items ≡ born_kernel script.now) }
    ensures few { IfOk result (λ all. vec_len all ≤ 128) }
{
    let mut all = Vec::new(alloc);
    add(&mut all, born_process(read_name(b"kernel").unwrap()))?;
    add(&mut all, born_supervisor())?;
    push_queues(&mut all, script.queues.as_slice())?;
    push_threads(&mut all, None, KERNEL, 0, script.threads.as_slice())?;
    Ok(all)
}

/// All that stands at boot, in order of object number: the kernel's process with its threads, and then each process with
/// its threads behind it.
pub fn all_born(alloc: Global, script: &Script) -> Result<Items<Born>, NoMemory>
    requires { IsShaped script.now }
    ensures { IfOk result (λ all. all ≡ born script.now) }
{
    let mut all = born_kernel(alloc, script)?;
    let threads = script.threads.as_slice();
    let spans = spans_of(script);
    for (j, process) in script.processes.as_slice().iter().enumerate() {
        let number = ObjNo(all.len() as u16);
        add(&mut all, born_process(process.name))?;
        let Span { first, end } = spans[j];
        push_threads(&mut all, Some(j as u8), number, first, &threads[first..end])?;
    }
    Ok(Items::new(all))
}
