//! A thread acts that the schedule would choose later.
ghost use Rattle.std.specs.Prelude.{◌≡◌, []};
ghost use Rattle.kcore.specs.KernelMode.{Fresh};
ghost use Rattle.script_types.specs.Source.{IsWellFormed};

use kcore::{Kernel, places_for};
use plain_runs::{lines_of, script_of};
use ref_words::PlainWords;
use script_types::Script;
use std::alloc::Global;
use sym_base::{NoMemory, ObjNo};
use worked_examples::DYING_OBJECT_SCRIPT;

/// What is told once the last thread acts, which the schedule would choose later. Nothing where the first one may act,
/// or the last one may not.
fn told_of_last(alloc: Global, kernel: &mut Kernel<PlainWords>) -> Result<Vec<u8>, NoMemory>
    requires room { kernel.old.room ≡ 1 }
    requires empty { kernel.old.history ≡ [] }
    requires fresh { kernel.old.mode ≡ Fresh }
{
    if kernel.able(ObjNo(1)) {
        return Ok(Vec::new(alloc));
    }
    if kernel.able(ObjNo(4)) {
        kernel.act(ObjNo(4));
    }
    let told = lines_of(alloc, kernel.history())?;
    Ok(told)
}

/// The same of the kernel of a script at boot, with room for one entry.
fn told_by_last(alloc: Global, script: Script) -> Result<Vec<u8>, NoMemory>
    requires { IsWellFormed script }
{
    let words = PlainWords::new(alloc, places_for(script.version, 1))?;
    let mut kernel = Box::new(alloc, Kernel::boot(alloc, script, words, 1)?)?;
    told_of_last(alloc, &mut kernel)
}

#[test]
fn a_thread_that_is_not_chosen_acts(rt: HostRuntime) {
    let script = script_of(rt.alloc(), DYING_OBJECT_SCRIPT).expect(&rt, "a script");
    let told = told_by_last(rt.alloc(), script).expect(&rt, "a kernel");
    assert_eq!(rt; told.as_slice(), b"1 t4 open.seek = -1\n".as_slice());
}
