//! Histories that workers make, judged entry by entry by the plain machine.
ghost use Rattle.std.specs.Prelude.{◌<◌, ◌≤◌};
ghost use Rattle.script_types.specs.Source.{IsWellFormed};

use edge_io::Gate;
use plain_runs::{is_plain_too, script_of};
use script_types::Script;
use std::alloc::Global;
use std::process::Abort;
use std::sync::Wait;
use std::thread::Threads;
use sym_base::NoMemory;
use worked_examples::{
    CLOSING_SERVER_SCRIPT, DEAD_OWNER_SCRIPT, DEATHS_SCRIPT, DYING_OBJECT_SCRIPT,
    DYING_SERVER_SCRIPT, FINDS_SCRIPT, KILLED_CLIENT_SCRIPT, LOAD_SCRIPT, MISSED_SCRIPT,
    ONE_SLOT_SCRIPT, POOL_SCRIPT,
};
use workers::make_shared_history;

/// Scripts that workers run.
const JUDGED: [&str; 10] = [
    DYING_OBJECT_SCRIPT,
    DEATHS_SCRIPT,
    MISSED_SCRIPT,
    DEAD_OWNER_SCRIPT,
    POOL_SCRIPT,
    DYING_SERVER_SCRIPT,
    CLOSING_SERVER_SCRIPT,
    FINDS_SCRIPT,
    ONE_SLOT_SCRIPT,
    KILLED_CLIENT_SCRIPT,
];

/// A gate that keeps nobody.
struct OpenGate;

impl Gate for OpenGate {
    fn before_open(&self, _place: u32) {}
}

/// Whether what so many workers make of a script and its text is made by the plain machine too.
fn judged<R: Threads + Wait + Sync>(
    rt: &R,
    alloc: Global,
    text: &str,
    script: Script,
    count: u32,
) -> Result<bool, NoMemory>
    requires valid { IsWellFormed script }
    requires some { 0 < count }
    requires few { count ≤ 8 }
{
    let made = make_shared_history(rt, alloc, script, count, &OpenGate)?;
    let kernel = Box::new(alloc, made)?;
    Ok(is_plain_too(alloc, text, kernel.history()))
}

/// Whether what so many workers make of a text's script is made by the plain machine too.
fn is_judged_well<R: Threads + Wait + Sync>(rt: &R, alloc: Global, text: &str, count: u32) -> bool
    requires some { 0 < count }
    requires few { count ≤ 8 }
{
    match script_of(alloc, text) {
        Some(script) => matches!(judged(rt, alloc, text, script, count), Ok(true)),
        None => false,
    }
}

/// Compares what one worker makes of a text's script, and what each number of workers up to eight makes, with the plain machine.
fn expect_judged_well<R: Abort + Threads + Wait + Sync>(rt: &R, alloc: Global, text: &str) {
    for more in 0..8 {
        assert!(rt;
            is_judged_well(rt, alloc, text, more + 1),
            "{more} workers beside the first: {text}"
        );
    }
}

#[test]
fn the_plain_machine_makes_what_workers_made(rt: HostRuntime) {
    for text in &JUDGED {
        expect_judged_well(&rt, rt.alloc(), text);
    }
}

#[test]
fn the_plain_machine_makes_what_four_workers_made_of_a_load(rt: HostRuntime) {
    assert!(rt; is_judged_well(&rt, rt.alloc(), LOAD_SCRIPT, 4));
}
