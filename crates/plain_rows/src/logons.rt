//! Moves in the rows of logons, made on the plain machine's lists.
ghost use Rattle.std.specs.Prelude.{◌≡◌, ◌∷◌, ◌++◌, [], map, slice_set, IfOk, OnOk};
ghost use Rattle.machine.specs.LogonMoves.{is_logon, is_made_by, logons_moved, logons_on, without_logon, without_maker};

use machine::LogonMove;
use std::alloc::Global;
use sym_base::{Items, NoMemory, ThreadNo};

/// A logon: the thread that made it, and its status.
type Logon = (ThreadNo, u8);

/// Whether a logon was made by this thread.
fn is_made_by(thread: ThreadNo, logon: Logon) -> bool
    ensures { result ≡ is_made_by thread logon }
{
    logon.0.0 == thread.0
}

/// Whether a logon was made by this thread with this status.
fn is_logon(thread: ThreadNo, status: u8, logon: Logon) -> bool
    ensures { result ≡ is_logon thread status logon }
{
    is_made_by(thread, logon) && logon.1 == status
}

/// Logons without one.
fn without_logon(
    alloc: Global,
    thread: ThreadNo,
    status: u8,
    logons: &[Logon],
) -> Result<Items<Logon>, NoMemory>
    ensures { IfOk result (λ rest. rest ≡ without_logon thread status logons.now) }
{
    let mut rest = Vec::new(alloc);
    for logon in logons {
        if is_logon(thread, status, *logon) {
            continue;
        }
        rest.push(*logon)?;
    }
    Ok(Items::new(rest))
}

/// Logons without those that a thread made.
fn without_maker(
    alloc: Global,
    thread: ThreadNo,
    logons: &[Logon],
) -> Result<Items<Logon>, NoMemory>
    ensures { IfOk result (λ rest. rest ≡ without_maker thread logons.now) }
{
    let mut rest = Vec::new(alloc);
    for logon in logons {
        if is_made_by(thread, *logon) {
            continue;
        }
        rest.push(*logon)?;
    }
    Ok(Items::new(rest))
}

/// The logons on each thread without those that a thread made.
fn without_maker_each(
    alloc: Global,
    thread: ThreadNo,
    lists: &[Items<Logon>],
) -> Result<Items<Items<Logon>>, NoMemory>
    ensures { IfOk result (λ rest. rest ≡ map (without_maker thread) lists.now) }
{
    let mut rest = Vec::new(alloc);
    for logons in lists {
        rest.push(without_maker(alloc, thread, logons.as_slice())?)?;
    }
    Ok(Items::new(rest))
}

/// A thread logs on to another.
fn add(lists: &mut Items<Items<Logon>>, on: ThreadNo, logon: Logon) -> Result<(), NoMemory>
    ensures { OnOk result (lists.new ≡ slice_set lists.old on.0 (logons_on lists.old on ++ logon ∷ [])) }
{
    let at = on.0 as usize;
    if at < lists.len() {
        lists.get_mut(at).push(logon)?;
    }
    Ok(())
}

/// A logon on a thread goes.
fn remove(
    alloc: Global,
    lists: &mut Items<Items<Logon>>,
    on: ThreadNo,
    by: ThreadNo,
    status: u8,
) -> Result<(), NoMemory>
    ensures { OnOk result (lists.new ≡ slice_set lists.old on.0 (without_logon by status (logons_on lists.old on))) }
{
    let at = on.0 as usize;
    if at < lists.len() {
        let logons = lists.get_mut(at);
        *logons = without_logon(alloc, by, status, logons.as_slice())?;
    }
    Ok(())
}

/// One move in the rows of logons.
pub fn make_logon_move(
    alloc: Global,
    lists: &mut Items<Items<Logon>>,
    change: LogonMove,
) -> Result<(), NoMemory>
    ensures { OnOk result (lists.new ≡ logons_moved change lists.old) }
{
    match change {
        LogonMove::Add(on, by, status) => add(lists, on, (by, status)),
        LogonMove::Remove(on, by, status) => remove(alloc, lists, on, by, status),
        LogonMove::Drop(by) => {
            *lists = without_maker_each(alloc, by, lists.as_slice())?;
            Ok(())
        }
    }
}
