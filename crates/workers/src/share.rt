//! The history that workers make of a script.
ghost use Rattle.std.specs.Prelude.{◌≡◌, ◌≤◌, ◌<◌, true, All, map, IfOk};
ghost use Rattle.script_types.specs.Source.{IsWellFormed};
ghost use Rattle.machine.specs.SharedRun.{IsSharedRun};
ghost use Rattle.machine_safe.specs.Safe.{IsSafeIn};
ghost use Rattle.kcore.specs.KernelMode.{mode_of};
ghost use Rattle.turn_lock.specs.Passes.{caller_of};
ghost use Rattle.workers.specs.Rested.{IsRested, IsThrough};

use crate::work::work;
use count_rule::StateSeat;
use edge_io::Gate;
use kcore::Kernel;
use script_types::Script;
use shared_kernel::{Pass, ScheduledKernel};
use std::alloc::{AllocError, Global};
use std::sync::Wait;
use std::thread;
use std::thread::Threads;
use sym_base::NoMemory;

/// Lets each pass work in a thread of the host. Where no memory is left for the threads, some may have worked already.
fn work_all<R: Threads + Wait + Sync, G: Gate + Sync>(
    rt: &R,
    kernel: &ScheduledKernel,
    gate: &G,
    passes: Vec<Pass>,
) -> Result<Vec<Pass>, AllocError>
    requires rested { All (IsRested kernel.now) passes.items }
    ensures through { IfOk result (λ done. All (IsThrough kernel.now) done.items) }
    ensures callers { IfOk result (λ done. map caller_of done.items ≡ map caller_of passes.items) }
{
    thread::map_vec(
        rt,
        passes,
        &|pass: Pass| -> Pass
            requires { IsRested kernel.now pass }
            ensures { IsThrough kernel.entry.now result × (caller_of result ≡ caller_of pass) }
        { work(rt, kernel, gate, pass) },
    )
}

/// Makes a whole run of a script's schedule by so many workers that share the kernel.
pub fn make_shared_history<R: Threads + Wait + Sync, G: Gate + Sync>(
    rt: &R,
    alloc: Global,
    script: Script,
    count: u32,
    gate: &G,
) -> Result<Kernel<StateSeat>, NoMemory>
    requires valid { IsWellFormed script }
    requires some { 0 < count }
    requires few { count ≤ 8 }
    ensures script { IfOk result (λ kernel. kernel.script ≡ script) }
    ensures mode { IfOk result (λ kernel. kernel.mode ≡ mode_of true kernel.history) }
    ensures run { IfOk result (λ kernel. IsSharedRun kernel.script kernel.history) }
    ensures safe { IfOk result (λ kernel. IsSafeIn true kernel.script kernel.history) }
{
    let (kernel, passes) = ScheduledKernel::new(alloc, script, count)?;
    let passes = work_all(rt, &kernel, gate, passes)?;
    Ok(kernel.finish(passes))
}
