//! A whole script, made from a number.
ghost use Rattle.std.specs.Prelude.{◌≡◌, ◌≤◌, IfOk};
ghost use Rattle.load_maker.specs.Made.{made, processes, threads};
ghost use Rattle.script_types.specs.Source.{IsWellFormed};

use crate::draws::Draws;
use crate::round::numbered;
use crate::threads::{Client, next_client, server_thread};
use script_types::{ProcessDecl, Script, Slot, ThreadDecl};
use std::alloc::Global;
use sym_base::{Items, NoMemory, read_name};

/// The number of clients.
const CLIENTS: u8 = 4;

/// The messages that connect the clients' sessions and disconnect them.
const OF_SESSIONS: u32 = 8;

/// The processes: that of the server, and one for each client.
fn processes(alloc: Global) -> Result<Vec<ProcessDecl>, NoMemory>
    ensures { IfOk result (λ all. all.items ≡ processes) }
{
    let mut all = Vec::new(alloc);
    all.push(ProcessDecl {
        name: read_name(b"fs").unwrap(),
    })?;
    for client in 0..CLIENTS {
        all.push(ProcessDecl {
            name: numbered(b'p', client),
        })?;
    }
    Ok(all)
}

/// The threads: that of the server, and one for each client.
fn threads(alloc: Global, seed: u64, size: u32) -> Result<Vec<ThreadDecl>, NoMemory>
    requires { size ≤ 500 }
    ensures { IfOk result (λ all. all.items ≡ threads seed size) }
{
    let mut draws = Draws { state: seed };
    let mut threads = Vec::new(alloc);
    let mut messages = OF_SESSIONS;
    for client in 0..CLIENTS {
        let Client {
            thread,
            messages: sent,
        } = next_client(alloc, &mut draws, client, size)?;
        threads.push(thread)?;
        messages += sent;
    }
    threads.insert(0, server_thread(alloc, messages)?)?;
    Ok(threads)
}

/// The script of a seed and a size, which is the number of each client's rounds, 1 to 500: a file server with four
/// clients that send it messages, make mutexes and fill memory, in rounds drawn from the seed, and a schedule of
/// 200 slots and 60 for each round. `Err` comes only for want of memory. The script is this project's own.
pub fn make_script(alloc: Global, seed: u64, size: u32) -> Result<Script, NoMemory>
    requires some { 1 ≤ size }
    requires few { size ≤ 500 }
    ensures made { IfOk result (λ script. script ≡ made seed size) }
    ensures well_formed { IfOk result (λ script. IsWellFormed script) }
{
    let processes = processes(alloc)?;
    let threads = threads(alloc, seed, size)?;
    let slots = vec![in alloc; Slot::Go; 200 + 60 * size as usize]?;
    Ok(Script {
        version: 1,
        pool: 0,
        fast: 0,
        queues: Items::new(Vec::new(alloc)),
        dfcs: Items::new(Vec::new(alloc)),
        idfcs: Items::new(Vec::new(alloc)),
        irqs: Items::new(Vec::new(alloc)),
        processes: Items::new(processes),
        threads: Items::new(threads),
        slots: Items::new(slots),
    })
}
