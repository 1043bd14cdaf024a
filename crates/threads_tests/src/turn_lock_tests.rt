//! Callers in host threads, which append to one list.
ghost use Rattle.std.specs.Prelude.{◌≡◌, ℕ, ◌<◌, ◌≤◌, IfOk, All, length, slice_index_or};
ghost use Rattle.turn_lock.specs.Log.{Begins};
ghost use Rattle.turn_lock.specs.Passes.{IsFree, caller_of};

use entry_log::{Actor, Effects, Entry, Step};
use std::alloc::{AllocError, Global};
use std::process::Abort;
use std::sync::Wait;
use std::sync::atomic::{AtomicU16, Ordering};
use std::thread;
use std::thread::Threads;
use sym_base::{NoMemory, ObjNo};
use turn_lock::{History, Pass, Turns};

/// How many turns each caller takes, and how many entries it appends in a turn: 10,000 in all.
const TURNS: u32 = 1_250;

const ENTRIES: u32 = 8;

/// How long a turn works, in rounds of a few nanoseconds, so that callers meet: some as long as an action of a kernel.
const WORK: u32 = 50_000;

/// A list of entries, with a number that never changes.
#[derive(Drop)]
struct Pile {
    name: u32,
    made: Vec<Entry>,
}

impl History for Pile {
    type Base = u32;

    ghost entries = { λ pile. pile.made.items };

    ghost base = { λ pile. pile.name };
}

impl Pile {
    /// Adds an entry of a thread, with this number, unless there is no memory.
    fn add(&mut self, thread: u16, number: u32, answer: i32)
        ensures name { self.new.name ≡ self.old.name }
        ensures made { Begins self.old.made.items self.new.made.items }
    {
        let entry = Entry {
            place: number,
            actor: Actor::Thread(ObjNo(thread)),
            step: Step::Drop,
            effects: Effects::new(),
            answer: Some(answer),
        };
        let _ = self.made.push(entry);
    }

    /// Works, and adds the entries of a turn, with numbers from this one on.
    fn add_all(&mut self, thread: u16, first: u32)
        ensures name { self.new.name ≡ self.old.name }
        ensures made { Begins self.old.made.items self.new.made.items }
    {
        let mut worked = first;
        for _ in 0..WORK {
            worked = worked.wrapping_mul(1_664_525).wrapping_add(1_013_904_223);
        }
        for k in 0..ENTRIES {
            self.add(thread, first.wrapping_add(k), (worked >> 1) as i32);
        }
    }
}

/// Takes its turns, and appends the entries of each, as the thread of the next free number.
fn append<R: Wait>(
    rt: &R,
    lock: &Turns<Pile>,
    threads: &AtomicU16,
    mut pass: Pass<u32>,
) -> Pass<u32>
    requires { IsFree lock.now pass }
    ensures free { IsFree lock.now result }
    ensures caller { caller_of result ≡ caller_of pass }
{
    let thread = threads.fetch_add(1, Ordering::SeqCst);
    for number in 0..TURNS {
        let mut turn = lock.enter(rt, &mut pass);
        turn.value().add_all(thread, number * ENTRIES);
        lock.leave(&mut pass, turn);
    }
    pass
}

/// Lets each pass append from a host thread of its own.
fn append_all<R: Threads + Wait + Sync>(
    rt: &R,
    lock: &Turns<Pile>,
    passes: Vec<Pass<u32>>,
) -> Result<Vec<Pass<u32>>, AllocError>
    requires { All (IsFree lock.now) passes.items }
    ensures free { IfOk result (λ v. All (IsFree lock.now) v.items) }
    ensures len { IfOk result (λ v. length v.items ≡ length passes.items) }
    ensures callers { IfOk result (λ v. (i : ℕ) (d : _) → i < length passes.items → caller_of (slice_index_or v.items i d) ≡ caller_of (slice_index_or passes.items i d)) }
{
    let threads = AtomicU16::new(0);
    thread::map_vec(
        rt,
        passes,
        &|pass: Pass<u32>| -> Pass<u32>
            requires { IsFree lock.now pass }
            ensures { IsFree lock.entry.now result × (caller_of result ≡ caller_of pass) }
        { append(rt, lock, &threads, pass) },
    )
}

/// The list, once so many callers have appended their entries.
fn list_of<R: Threads + Wait + Sync>(
    rt: &R,
    alloc: Global,
    callers: u32,
) -> Result<Vec<Entry>, NoMemory>
    requires { (0 < callers) × (callers ≤ 16) }
{
    let pile = Pile {
        name: 7,
        made: Vec::with_capacity(alloc, 131_072)?,
    };
    let (lock, passes) = Turns::new(alloc, pile, callers)?;
    let passes = append_all(rt, &lock, passes)?;
    Ok(lock.close(passes).made)
}

/// Whether the list has all entries of so many threads, each thread's in the order of their numbers, and no others.
fn each_once(list: &[Entry], counts: &mut [u32]) -> bool {
    for entry in list {
        let Actor::Thread(ObjNo(thread)) = entry.actor else {
            return false;
        };
        let Some(count) = counts.get_mut(thread as usize) else {
            return false;
        };
        if *count != entry.place {
            return false;
        }
        *count = count.saturating_add(1);
    }
    counts.iter().all(|count| *count == TURNS * ENTRIES)
}

/// Compares the list of so many callers with what it should have, with a count for each of them.
fn expect_each_once<R: Abort + Threads + Wait + Sync>(
    rt: &R,
    alloc: Global,
    callers: u32,
    counts: &mut [u32],
)
    requires { (0 < callers) × (callers ≤ 16) }
{
    let list = list_of(rt, alloc, callers).expect(rt, "memory");
    assert!(rt; each_once(&list, counts));
}

#[test]
fn one_caller_appends_each_entry_once(rt: HostRuntime) {
    expect_each_once(&rt, rt.alloc(), 1, &mut [0; 1]);
}

#[test]
fn two_callers_append_each_entry_once(rt: HostRuntime) {
    expect_each_once(&rt, rt.alloc(), 2, &mut [0; 2]);
}

#[test]
fn four_callers_append_each_entry_once(rt: HostRuntime) {
    expect_each_once(&rt, rt.alloc(), 4, &mut [0; 4]);
}

#[test]
fn eight_callers_append_each_entry_once(rt: HostRuntime) {
    expect_each_once(&rt, rt.alloc(), 8, &mut [0; 8]);
}
