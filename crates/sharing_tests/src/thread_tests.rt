//! Callers in threads of the host that a program starts on its own: each lets the threads of one kernel act, in turns, and opens
//! what they find with no turn held.
ghost use Rattle.std.specs.Prelude.{◌≡◌, All, IfOk, map};
ghost use Rattle.script_types.specs.Source.{IsWellFormed};
ghost use Rattle.turn_lock.specs.Passes.{caller_of, IsFree};

use crate::caller_tests::THREE_SCRIPT;
use crate::calls::{finds, opened};
use plain_runs::{is_plain_too, script_of};
use script_types::Script;
use shared_kernel::{Pass, SharedKernel};
use std::alloc::{AllocError, Global};
use std::sync::Wait;
use std::thread;
use std::thread::Threads;
use sym_base::{NoMemory, ObjNo, ThreadNo};
use worked_examples::FINDS_SCRIPT;

/// How often each caller asks that a thread acts.
const TURNS: u16 = 60;

/// Above the number of each thread of the scripts.
const THREADS: u16 = 6;

/// A thread acts, if it may. What it finds is opened with no turn held, and then it comes back.
fn act<R: Wait>(rt: &R, kernel: &SharedKernel, pass: &mut Pass, thread: ThreadNo)
    requires { IsFree kernel.now pass.old }
    ensures free { IsFree kernel.now pass.new }
    ensures caller { caller_of pass.new ≡ caller_of pass.old }
{
    let Some((thread, ticket)) = finds(rt, kernel, pass, thread) else {
        return;
    };
    let (ticket, _found) = opened(ticket);
    let _ = kernel.give_back(rt, pass, thread, ticket);
}

/// A caller lets one thread after the other act.
fn drive<R: Wait>(rt: &R, kernel: &SharedKernel, mut pass: Pass) -> Pass
    requires { IsFree kernel.now pass }
    ensures free { IsFree kernel.now result }
    ensures caller { caller_of result ≡ caller_of pass }
{
    for turn in 0..TURNS {
        act(rt, kernel, &mut pass, ObjNo(turn % THREADS));
    }
    pass
}

/// Each caller drives the kernel from a thread of the host.
fn drive_all<R: Threads + Wait + Sync>(
    rt: &R,
    kernel: &SharedKernel,
    passes: Vec<Pass>,
) -> Result<Vec<Pass>, AllocError>
    requires { All (IsFree kernel.now) passes.items }
    ensures free { IfOk result (λ done. All (IsFree kernel.now) done.items) }
    ensures callers { IfOk result (λ done. map caller_of done.items ≡ map caller_of passes.items) }
{
    thread::map_vec(
        rt,
        passes,
        &|pass: Pass| -> Pass
            requires { IsFree kernel.now pass }
            ensures { IsFree kernel.entry.now result × (caller_of result ≡ caller_of pass) }
        { drive(rt, kernel, pass) },
    )
}

/// Whether what four callers make of a text's script is made by the plain machine too.
fn is_driven_well<R: Threads + Wait + Sync>(
    rt: &R,
    alloc: Global,
    script: Script,
    text: &str,
) -> Result<bool, NoMemory>
    requires { IsWellFormed script }
{
    let (kernel, passes) = SharedKernel::new(alloc, script, 4)?;
    let kernel = Box::new(alloc, kernel)?;
    let passes = drive_all(rt, &kernel, passes)?;
    let whole = Box::new(alloc, Box::into_inner(kernel).finish(passes))?;
    Ok(is_plain_too(alloc, text, whole.history()))
}

#[test]
fn the_plain_machine_makes_what_callers_made_in_threads(rt: HostRuntime) {
    for text in &[THREE_SCRIPT, FINDS_SCRIPT] {
        let script = script_of(rt.alloc(), text).expect(&rt, "a script");
        let well = is_driven_well(&rt, rt.alloc(), script, text);
        assert!(rt; matches!(well, Ok(true)), "{text}");
    }
}
