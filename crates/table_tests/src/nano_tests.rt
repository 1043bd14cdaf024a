//! Worked examples: a thread wants the fast mutex that one of lower priority holds, and two interrupts come before both.
//! And the nanokernel's tables of a script that was read.
ghost use Rattle.std.specs.Prelude.{ℕ, All};
ghost use Rattle.state_rows.specs.Deferred.{IsKnown};
ghost use Rattle.nano.specs.Interrupts.{items_at};

use crate::same::{expect_same, expect_that};
use deferred::Deferred;
use entry_log::Actor;
use nano::{Nano, chosen, interrupt};
use nano_sync::NanoSync;
use ready_list::ReadyList;
use script_grammar::is_well_formed;
use script_read::{ReadScript, read_script};
use state_rows::{DfcPlace, Item};
use std::alloc::Global;
use std::process::Abort;
use sym_base::{Items, ObjNo};

/// The calls of queue 1, the second of which has the greater priority.
const CALLS: [DfcPlace; 2] = [
    DfcPlace {
        queue: 1,
        priority: 0,
    },
    DfcPlace {
        queue: 1,
        priority: 7,
    },
];

#[test]
fn the_holder_of_a_fast_mutex_runs(rt: HostRuntime) {
    let (low, high) = (ObjNo(2), ObjNo(3));
    let mut nano = Nano {
        ready: ReadyList::new(rt.alloc(), 4).expect(&rt, "memory"),
        sync: NanoSync::new(rt.alloc(), 4, 1).expect(&rt, "memory"),
        deferred: Deferred::new(rt.alloc(), 1, 0, &[], 4).expect(&rt, "memory"),
        interrupts: Items::new(Vec::new(rt.alloc())),
    };
    expect_that(&rt, matches!(nano.chosen(), Actor::Idle));
    nano.ready.add(low, 10);
    nano.ready.add(high, 20);
    expect_that(&rt, matches!(nano.chosen(), Actor::Thread(ObjNo(3))));
    expect_that(&rt, nano.sync.take(low, 0));
    nano.sync.set_want(high, Some(0));
    expect_that(&rt, matches!(nano.chosen(), Actor::Thread(ObjNo(2))));
    expect_that(&rt, nano.able(low));
    expect_that(&rt, !nano.able(high));
    nano.tick();
    expect_that(&rt, nano.sync.give(low, 0));
    expect_that(&rt, matches!(nano.chosen(), Actor::Thread(ObjNo(3))));
    drop(nano);
}

#[test]
fn interrupts_come_before_threads(rt: HostRuntime) {
    let mut ready = ReadyList::new(rt.alloc(), 4).expect(&rt, "memory");
    let sync = NanoSync::new(rt.alloc(), 4, 1).expect(&rt, "memory");
    let mut deferred = Deferred::new(rt.alloc(), 2, 1, &CALLS, 4).expect(&rt, "memory");
    ready.add(ObjNo(3), 63);
    interrupt(&mut deferred, &[Item::Move(0), Item::Idfc(0)]);
    interrupt(&mut deferred, &[Item::Idfc(0), Item::Move(1)]);
    expect_that(&rt, matches!(chosen(&ready, &sync, &deferred), Actor::Idfc));
    expect_same(&rt, deferred.next_idfc(), Some(Item::Move(0)));
    expect_that(&rt, deferred.add(0));
    expect_same(&rt, deferred.next_idfc(), Some(Item::Idfc(0)));
    expect_same(&rt, deferred.next_idfc(), Some(Item::Move(1)));
    expect_that(&rt, deferred.add(1));
    expect_that(
        &rt,
        matches!(chosen(&ready, &sync, &deferred), Actor::Thread(ObjNo(3))),
    );
    expect_same(&rt, deferred.next_dfc(1), Some(1));
    expect_same(&rt, deferred.next_dfc(1), Some(0));
    drop(ready);
    drop(sync);
    drop(deferred);
}

/// A queue with a call of it, an immediate call, and an interrupt that queues both.
const INTERRUPT: &str =
    "eka2 1\nfast 1\ndfcq q 20\ndfc d q 3 device d0 1\nidfc i queue d\nirq 5 idfc i ; dfc d\nprocess p\nthread a 10\nend\n";

/// The tables of the nanokernel of a text's script.
fn nano_of<R: Abort>(rt: &R, alloc: Global, text: &str) -> Nano
    ensures { (k : ℕ) → All (IsKnown result.deferred) (items_at result.interrupts k) }
{
    assert!(rt; text.len() <= 4_096);
    match read_script(alloc, text.as_bytes()) {
        ReadScript::Script(script) => {
            is_well_formed(&script);
            Nano::new(alloc, &script).expect(rt, "memory")
        }
        ReadScript::Refused { .. } | ReadScript::NoMemory => panic!(rt; "a line is bad"),
    }
}

#[test]
fn makes_the_tables_of_a_nanokernel(rt: HostRuntime) {
    let mut nano = nano_of(&rt, rt.alloc(), INTERRUPT);
    expect_that(&rt, matches!(nano.chosen(), Actor::Idle));
    expect_same(&rt, nano.sync.holder(0), None);
    expect_same(&rt, nano.deferred.queue_of(0), 1);
    nano.interrupt(5);
    expect_same(&rt, nano.deferred.next_idfc(), Some(Item::Idfc(0)));
    expect_same(&rt, nano.deferred.next_idfc(), Some(Item::Move(0)));
    expect_same(&rt, nano.deferred.next_idfc(), None);
    drop(nano);
}
