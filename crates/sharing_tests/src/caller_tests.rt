//! Three callers who drive a shared kernel as they like, as threads of a program's own may: each has its pass, opens what it
//! found with no turn held, and gives its ticket back. Under a script that uses numbers again nobody gets a later object of
//! a number.
ghost use Rattle.std.specs.Prelude.{◌≡◌, ◌<◌, ◌++◌, [], ◌∷◌, vec_len, IfOk};
ghost use Rattle.script_types.specs.Source.{IsWellFormed};
ghost use Rattle.turn_lock.specs.Passes.{caller_of, IsFree};

use crate::calls::{acts, finds, opened, waits};
use plain_runs::{lines_of, script_of};
use ref_words::Found;
use script_types::Script;
use shared_kernel::{Pass, SharedKernel};
use std::alloc::{AllocError, Global};
use std::process::Abort;
use std::sync::Wait;
use sym_base::{NoMemory, ObjNo};

/// A thread makes a mutex and closes it, and another opens it by its name.
const TWO_SCRIPT: &str =
    "eka2 1\nprocess p\nthread a 10\ncreate mutex m r0\nclose r0\nthread b 10\nopen mutex m r0\nend\n";

/// Two threads open it.
pub const THREE_SCRIPT: &str =
    "eka2 1\nprocess p\nthread a 10\ncreate mutex m r0\nclose r0\nthread b 10\nopen mutex m r0\nthread c 10\nopen mutex m r0\nend\n";

/// The mutex is opened before its last handle goes.
const HELD_HISTORY: &str = "\
1 t3 create.do +p2.0:5 = 65536
2 t4 open.seek seek:5
3 t3 close.do -p2.0:5 = 0
4 t4 open.return +tmp4:5
5 t4 open.do +p2.0:5 = 131072
6 t4 drop -tmp4:5
";

/// It is opened after that.
const DEAD_HISTORY: &str = "\
1 t3 create.do +p2.0:5 = 65536
2 t4 open.seek seek:5
3 t3 close.do -p2.0:5 dead:5 = 0
4 t4 open.return missed:5 = -1
";

/// While it lives by a ticket alone nobody finds it.
const UNFOUND_HISTORY: &str = "\
1 t3 create.do +p2.0:6 = 65536
2 t4 open.seek seek:6
3 t3 close.do -p2.0:6 = 0
4 t5 open.seek = -1
5 t4 open.return +tmp4:6
";

/// A thread makes a mutex, closes it and makes another, and a second thread opens the first by its name.
const AGAIN_SCRIPT: &str =
    "eka2 2\nprocess p\nthread a 10\ncreate mutex m r0\nclose r0\ncreate mutex n r0\nthread b 10\nopen mutex m r1\nend\n";

/// The other mutex has the number of the first before the second thread comes back, which misses what it found.
const AGAIN_HISTORY: &str = "\
1 t3 create.do +p2.0:5 = 65536
2 t4 open.seek seek:5
3 t3 close.do -p2.0:5 dead:5 = 0
4 t3 sweep swept:5
5 t3 create.do +p2.0:5 = 131072
6 t4 open.return missed:5 = -1
";

/// A caller that opens what it found before the last handle goes. Whether each call answered so.
fn open_in_time<R: Wait>(
    rt: &R,
    kernel: &SharedKernel,
    first: &mut Pass,
    second: &mut Pass,
    third: &mut Pass,
) -> bool
    requires free { IsFree kernel.now first.old × IsFree kernel.now second.old × IsFree kernel.now third.old }
    ensures free { IsFree kernel.now first.new × IsFree kernel.now second.new × IsFree kernel.now third.new }
    ensures callers { (caller_of first.new ≡ caller_of first.old) × (caller_of second.new ≡ caller_of second.old) × (caller_of third.new ≡ caller_of third.old) }
{
    let made = acts(rt, kernel, first, ObjNo(3));
    let Some((thread, ticket)) = finds(rt, kernel, second, ObjNo(4)) else {
        return false;
    };
    let out = waits(rt, kernel, third, ObjNo(4));
    let (ticket, found) = opened(ticket);
    let closed = acts(rt, kernel, first, ObjNo(3));
    let _ = kernel.give_back(rt, second, thread, ticket);
    let taken = acts(rt, kernel, second, ObjNo(4));
    let dropped = acts(rt, kernel, third, ObjNo(4));
    made && out && found == Found::Held && closed && taken && dropped
}

/// A caller that opens what it found after that. Whether each call answered so.
fn open_too_late<R: Wait>(
    rt: &R,
    kernel: &SharedKernel,
    first: &mut Pass,
    second: &mut Pass,
    third: &mut Pass,
) -> bool
    requires free { IsFree kernel.now first.old × IsFree kernel.now second.old × IsFree kernel.now third.old }
    ensures free { IsFree kernel.now first.new × IsFree kernel.now second.new × IsFree kernel.now third.new }
    ensures callers { (caller_of first.new ≡ caller_of first.old) × (caller_of second.new ≡ caller_of second.old) × (caller_of third.new ≡ caller_of third.old) }
{
    let made = acts(rt, kernel, first, ObjNo(3));
    let Some((thread, ticket)) = finds(rt, kernel, second, ObjNo(4)) else {
        return false;
    };
    let closed = acts(rt, kernel, first, ObjNo(3));
    let (ticket, found) = opened(ticket);
    let out = waits(rt, kernel, third, ObjNo(4));
    let _ = kernel.give_back(rt, second, thread, ticket);
    made && closed && found == Found::Dead && out
}

/// A caller finds nothing, since what it looks for lives by another's ticket alone. Whether each call answered so.
fn find_nothing<R: Wait>(
    rt: &R,
    kernel: &SharedKernel,
    first: &mut Pass,
    second: &mut Pass,
    third: &mut Pass,
) -> bool
    requires free { IsFree kernel.now first.old × IsFree kernel.now second.old × IsFree kernel.now third.old }
    ensures free { IsFree kernel.now first.new × IsFree kernel.now second.new × IsFree kernel.now third.new }
    ensures callers { (caller_of first.new ≡ caller_of first.old) × (caller_of second.new ≡ caller_of second.old) × (caller_of third.new ≡ caller_of third.old) }
{
    let made = acts(rt, kernel, first, ObjNo(3));
    let Some((thread, ticket)) = finds(rt, kernel, second, ObjNo(4)) else {
        return false;
    };
    let (ticket, found) = opened(ticket);
    let closed = acts(rt, kernel, first, ObjNo(3));
    let unfound = acts(rt, kernel, third, ObjNo(5));
    let _ = kernel.give_back(rt, second, thread, ticket);
    made && found == Found::Held && closed && unfound
}

/// A caller that opens what it found once another object has its number. Whether each call answered so.
fn open_after_another<R: Wait>(
    rt: &R,
    kernel: &SharedKernel,
    first: &mut Pass,
    second: &mut Pass,
    third: &mut Pass,
) -> bool
    requires free { IsFree kernel.now first.old × IsFree kernel.now second.old × IsFree kernel.now third.old }
    ensures free { IsFree kernel.now first.new × IsFree kernel.now second.new × IsFree kernel.now third.new }
    ensures callers { (caller_of first.new ≡ caller_of first.old) × (caller_of second.new ≡ caller_of second.old) × (caller_of third.new ≡ caller_of third.old) }
{
    let made = acts(rt, kernel, first, ObjNo(3));
    let Some((thread, ticket)) = finds(rt, kernel, second, ObjNo(4)) else {
        return false;
    };
    let closed = acts(rt, kernel, first, ObjNo(3));
    let swept = acts(rt, kernel, third, ObjNo(3));
    let another = acts(rt, kernel, first, ObjNo(3));
    let (ticket, found) = opened(ticket);
    let _ = kernel.give_back(rt, second, thread, ticket);
    made && closed && swept && another && found == Found::Dead
}

/// What three callers do.
#[derive(Clone, Copy)]
enum Story {
    /// A caller opens what it found before the last handle goes.
    OpenInTime,
    /// A caller opens what it found after that.
    OpenTooLate,
    /// A caller finds nothing, since what it looks for lives by another's ticket alone.
    FindNothing,
    /// A caller opens what it found once another object has its number.
    OpenAfterAnother,
}

/// Lets three callers do this. Whether each call answered so.
fn is_told<R: Wait>(
    rt: &R,
    kernel: &SharedKernel,
    first: &mut Pass,
    second: &mut Pass,
    third: &mut Pass,
    story: Story,
) -> bool
    requires free { IsFree kernel.now first.old × IsFree kernel.now second.old × IsFree kernel.now third.old }
    ensures free { IsFree kernel.now first.new × IsFree kernel.now second.new × IsFree kernel.now third.new }
    ensures callers { (caller_of first.new ≡ caller_of first.old) × (caller_of second.new ≡ caller_of second.old) × (caller_of third.new ≡ caller_of third.old) }
{
    match story {
        Story::OpenInTime => open_in_time(rt, kernel, first, second, third),
        Story::OpenTooLate => open_too_late(rt, kernel, first, second, third),
        Story::FindNothing => find_nothing(rt, kernel, first, second, third),
        Story::OpenAfterAnother => open_after_another(rt, kernel, first, second, third),
    }
}

/// Takes the pass of the caller of the greatest number that is left.
fn take_pass(passes: &mut Vec<Pass>) -> Pass
    requires { 0 < vec_len passes.old }
    ensures { passes.old.items ≡ passes.new.items ++ result ∷ [] }
{
    passes.pop().unwrap()
}

/// The passes of three callers.
fn three(alloc: Global, first: Pass, second: Pass, third: Pass) -> Result<Vec<Pass>, AllocError>
    ensures { IfOk result (λ passes. passes.items ≡ first ∷ second ∷ third ∷ []) }
{
    let mut passes = Vec::with_capacity(alloc, 3)?;
    passes.push(first)?;
    passes.push(second)?;
    passes.push(third)?;
    Ok(passes)
}

/// The lines of the history that three callers make of a script. None where a call answered otherwise.
fn told_by<R: Wait>(
    rt: &R,
    alloc: Global,
    script: Script,
    story: Story,
) -> Result<Option<Vec<u8>>, NoMemory>
    requires { IsWellFormed script }
{
    let (kernel, mut passes) = SharedKernel::new(alloc, script, 3)?;
    let kernel = Box::new(alloc, kernel)?;
    let mut third = take_pass(&mut passes);
    let mut second = take_pass(&mut passes);
    let mut first = take_pass(&mut passes);
    let well = is_told(rt, &kernel, &mut first, &mut second, &mut third, story);
    let back = three(alloc, first, second, third)?;
    let whole = Box::new(alloc, Box::into_inner(kernel).finish(back))?;
    let lines = lines_of(alloc, whole.history())?;
    Ok(if well { Some(lines) } else { None })
}

/// Compares the lines of the history that three callers make of a script.
fn expect_story<R: Abort + Wait>(
    rt: &R,
    alloc: Global,
    script: &str,
    story: Story,
    expected: &str,
) {
    let read = script_of(alloc, script).expect(rt, "a script");
    let told = told_by(rt, alloc, read, story).expect(rt, "memory");
    let lines = told.expect(rt, "the answer of each call");
    assert_eq!(rt; lines.as_slice(), expected.as_bytes());
}

#[test]
fn an_object_stays_for_the_caller_that_opened_it(rt: HostRuntime) {
    expect_story(&rt, rt.alloc(), TWO_SCRIPT, Story::OpenInTime, HELD_HISTORY);
}

#[test]
fn a_caller_that_opens_too_late_finds_an_object_dead(rt: HostRuntime) {
    expect_story(
        &rt,
        rt.alloc(),
        TWO_SCRIPT,
        Story::OpenTooLate,
        DEAD_HISTORY,
    );
}

#[test]
fn what_lives_by_a_ticket_alone_is_not_found(rt: HostRuntime) {
    expect_story(
        &rt,
        rt.alloc(),
        THREE_SCRIPT,
        Story::FindNothing,
        UNFOUND_HISTORY,
    );
}

#[test]
fn a_later_object_of_a_number_is_not_opened(rt: HostRuntime) {
    expect_story(
        &rt,
        rt.alloc(),
        AGAIN_SCRIPT,
        Story::OpenAfterAnother,
        AGAIN_HISTORY,
    );
}
