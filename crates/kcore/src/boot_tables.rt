//! The tables of threads, processes, locks, servers and messages at boot.
ghost use Rattle.std.specs.Prelude.{◌≡◌, ◌<◌, ◌≤◌, length, map, IfOk, slice_set};
ghost use Rattle.sym_base.specs.declared.limits.TheConstants.Limits.{BOOT_OBJECTS, OBJECTS};
ghost use Rattle.kcore.specs.BootTable.{born_priority, born_rows, no_locks, no_servers};
ghost use Rattle.machine.specs.Boot.{memory_of_row};
ghost use Rattle.machine.specs.Choice.{priority_of_row};
ghost use Rattle.procs.specs.Rows.{IsFresh};
ghost use Rattle.state_rows.specs.MessageChanges.{no_messages};
ghost use Rattle.kernel_tables.specs.Noted.{AreRanked};

use kern_sync::KernSync;
use machine::{Born, ThreadRow};
use messages::Messages;
use procs::Procs;
use script_types::Script;
use server_table::ServerTable;
use std::alloc::Global;
use sym_base::{Limits, NoMemory, ObjNo, ThreadNo};

/// Adds a thread with its row, or a process.
fn add(procs: &mut Procs, number: ObjNo, row: Option<ThreadRow>)
    requires { IsFresh procs.old number }
    ensures { procs.new ≡ record procs.old { threads = slice_set procs.old.threads number.0 row; processes = slice_set procs.old.processes number.0 (memory_of_row row) } }
{
    match row {
        Some(row) => procs.add_row(number, row),
        None => procs.add_process(number),
    }
}

/// The threads' rows, and the processes' memories.
pub fn procs_of(alloc: Global, all: &[Born]) -> Result<Procs, NoMemory>
    requires { length all.now < 65536 }
    ensures { IfOk result (λ procs. procs ≡ record { threads = born_rows all.now; processes = map memory_of_row (born_rows all.now) }) }
{
    let mut procs = Procs::new(alloc, all.len() as u16)?;
    for (number, born) in all.iter().enumerate() {
        add(&mut procs, ObjNo(number as u16), born.thread);
    }
    Ok(procs)
}

/// The priority of a thread, 0 of a process.
fn priority_of(born: &Born) -> u8
    ensures { result ≡ priority_of_row born.now.thread }
{
    match &born.thread {
        Some(row) => row.priority,
        None => 0,
    }
}

/// The priority of the thread of a number, 0 where there is none.
#[tactic(auto, using(crate::proofs::BootCounts::row_at, crate::proofs::BootCounts::no_row_at))]
pub fn priority_at(all: &[Born], thread: ThreadNo) -> u8
    ensures { result ≡ born_priority all.now thread }
{
    match all.get(thread.0 as usize) {
        Some(born) => priority_of(born),
        None => 0,
    }
}

/// Nobody owns or waits for anything, and each thread has its priority.
pub fn locks_of(alloc: Global, all: &[Born]) -> Result<KernSync, NoMemory>
    requires { length all.now ≤ BOOT_OBJECTS }
    ensures rows { IfOk result (λ locks. locks.rows ≡ no_locks) }
    ensures ranks { IfOk result (λ locks. AreRanked locks.priorities (born_rows all.now)) }
    ensures sized { IfOk result (λ locks. length locks.priorities ≡ BOOT_OBJECTS) }
{
    let mut locks = KernSync::new(alloc, Limits::OBJECTS as u16, Limits::BOOT_OBJECTS as u16)?;
    for (number, born) in all.iter().enumerate() {
        locks.set_priority(ObjNo(number as u16), priority_of(born));
    }
    Ok(locks)
}

/// The tables of servers, with their sessions, and of messages.
#[derive(Drop)]
pub struct ServerTables {
    pub servers: ServerTable,
    pub messages: Messages,
}

/// There is no server and no session yet, and no message. The script's pool is the kernel's.
#[tactic(auto, unfolding(crate::specs::BootTable::no_servers))]
pub fn server_tables(alloc: Global, script: &Script) -> Result<ServerTables, NoMemory>
    ensures servers { IfOk result (λ made. made.servers ≡ no_servers) }
    ensures messages { IfOk result (λ made. made.messages ≡ no_messages OBJECTS script.now.pool) }
{
    let servers = ServerTable::new(alloc, Limits::OBJECTS as u16)?;
    let messages = Messages::new(alloc, Limits::OBJECTS as u16, script.pool)?;
    Ok(ServerTables { servers, messages })
}
