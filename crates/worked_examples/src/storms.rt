//! Scripts in which interrupts come between any two steps of a death.
use crate::storm_tables::{
    ENDING, ENDING_SUMS, KILLED_CLIENT, KILLED_CLIENT_SUMS, KILLED_SERVER, KILLED_SERVER_SUMS,
    KINDS, ORDERS, REAPED, REAPED_SUMS,
};
use std::alloc::{AllocError, Global};

/// A script, and the checksum of what is written of it, which a simulator gave that was made apart from the program.
#[derive(Drop)]
pub struct Storm {
    pub script: String,
    pub sum: u64,
}

/// The FNV-1a checksum of some bytes.
pub fn checksum(bytes: &[u8]) -> u64 {
    let mut sum = 0xcbf2_9ce4_8422_2325u64;
    for byte in bytes {
        sum = (sum ^ u64::from(*byte)).wrapping_mul(0x0000_0100_0000_01b3);
    }
    sum
}

/// Threads with a schedule of so many slots, and an interrupt after some of them.
fn interrupted(
    alloc: Global,
    threads: &str,
    after: usize,
    slots: usize,
) -> Result<String, AllocError> {
    let rest = slots.saturating_sub(after);
    if after == 0 {
        format!(in alloc; "{threads}irq 0\ngo {rest}\nend\n")
    } else {
        format!(in alloc; "{threads}go {after}\nirq 0\ngo {rest}\nend\n")
    }
}

/// A client that is killed after so many of 80 slots.
pub fn killed_client(alloc: Global, after: usize) -> Result<String, AllocError> {
    interrupted(alloc, KILLED_CLIENT, after, 80)
}

/// The same after each of 0 to 60 slots.
pub fn killed_clients(alloc: Global) -> Result<Vec<Storm>, AllocError> {
    let mut storms = Vec::new(alloc);
    for (after, sum) in KILLED_CLIENT_SUMS.iter().enumerate() {
        let script = killed_client(alloc, after)?;
        storms.push(Storm { script, sum: *sum })?;
    }
    Ok(storms)
}

/// A server that is killed after each of 0 to 92 of 100 slots.
pub fn killed_servers(alloc: Global) -> Result<Vec<Storm>, AllocError> {
    let mut storms = Vec::new(alloc);
    for (after, sum) in KILLED_SERVER_SUMS.iter().enumerate() {
        let script = interrupted(alloc, KILLED_SERVER, after, 100)?;
        storms.push(Storm { script, sum: *sum })?;
    }
    Ok(storms)
}

/// The reaping, with this interrupt and so many slots again and again.
fn stormy(alloc: Global, kind: u32, slots: u32) -> Result<String, AllocError> {
    let mut text = format!(in alloc; "{REAPED}go 43\nirq 0\ngo 5\n")?;
    for _ in 0..20 {
        let storm = format!(in alloc; "irq {kind}\ngo {slots}\n")?;
        text.push_str(storm.as_str())?;
    }
    text.push_str("go 30\nend\n")?;
    Ok(text)
}

/// A thread that is reaped, with interrupts of each of five kinds between any two steps.
pub fn stormy_reapings(alloc: Global) -> Result<Vec<Storm>, AllocError> {
    let mut storms = Vec::new(alloc);
    for ((kind, slots), sum) in KINDS.iter().zip(&REAPED_SUMS) {
        let script = stormy(alloc, *kind, *slots)?;
        storms.push(Storm { script, sum: *sum })?;
    }
    Ok(storms)
}

/// The three threads that end, in this order.
fn ending(alloc: Global, order: &[u32; 3]) -> Result<String, AllocError> {
    let [first, second, last] = *order;
    format!(in alloc;
        "{ENDING}go 16\nirq {first}\ngo 6\nirq {second}\ngo 6\nirq {last}\ngo 6\ngo 40\nend\n"
    )
}

/// Three threads of a process that end, in each order.
pub fn endings(alloc: Global) -> Result<Vec<Storm>, AllocError> {
    let mut storms = Vec::new(alloc);
    for (order, sum) in ORDERS.iter().zip(&ENDING_SUMS) {
        let script = ending(alloc, order)?;
        storms.push(Storm { script, sum: *sum })?;
    }
    Ok(storms)
}
