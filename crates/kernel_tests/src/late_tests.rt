//! Callers share a kernel, and notes come back late, and in another order.
use crate::caller_tests::expect_told;
use crate::callers::Deed;
use crate::told::told_after;
use script_types::Slot;
use sym_base::ObjNo;
use worked_examples::{DYING_OBJECT_HISTORY, DYING_OBJECT_SCRIPT};

/// A thread finds a mutex, which its maker closes.
const FOUND_SCRIPT: &str =
    "eka2 1\nprocess p\nthread a 10\ncreate mutex m r0\nclose r0\nthread b 10\nopen mutex m r0\nend\n";

/// Nobody sweeps it up before the note comes back.
const FOUND_HISTORY: &str = "\
1 t3 create.do +p2.0:5 = 65536
2 t4 open.seek seek:5
3 t3 close.do -p2.0:5 dead:5 = 0
4 t4 open.return missed:5 = -1
objects
0 process kernel 1
1 thread supervisor 1 live
2 process p 2
3 thread a 1 live
4 thread b 1 live
5 mutex m 0
end
";

/// Two threads find a mutex, which its maker closes.
const CLOSED_SCRIPT: &str =
    "eka2 1\nprocess p\nthread a 10\ncreate mutex m r0\nclose r0\nthread b 10\nopen mutex m r0\nthread c 10\nopen mutex m r0\nschedule\ngo 1\nend\n";

/// One has found it before the close, and one before the sweep. Both miss it, and the note of the one is back after the other's.
const CLOSED_HISTORY: &str = "\
1 t3 create.do +p2.0:6 = 65536
2 t4 open.seek seek:6
3 t3 close.do -p2.0:6 dead:6 = 0
4 t5 open.seek seek:6
5 t3 sweep swept:6
6 t5 open.return missed:6 = -1
7 t4 open.return missed:6 = -1
objects
0 process kernel 1
1 thread supervisor 1 live
2 process p 3
3 thread a 1 live
4 thread b 1 live
5 thread c 1 live
end
";

/// Two threads find a mutex, which stays, and come back in the other order.
const CROSSED_HISTORY: &str = "\
1 t3 create.do +p2.0:6 = 65536
2 t4 open.seek seek:6
3 t5 open.seek seek:6
4 t5 open.return +tmp5:6
5 t5 open.do +p2.1:6 = 65537
6 t4 open.return +tmp4:6
7 t5 drop -tmp5:6
8 t4 open.do +p2.2:6 = 65538
9 t4 drop -tmp4:6
objects
0 process kernel 1
1 thread supervisor 1 live
2 process p 3
3 thread a 1 live
4 thread b 1 live
5 thread c 1 live
6 mutex m 3
end
";

/// A thread is killed while it is out.
const KILLED_SCRIPT: &str =
    "eka2 1\nprocess p\nthread a 10\ncreate mutex m r0\nopen thread b r1\nkill r1 4\nthread b 10\nopen mutex m r2\nschedule\ngo 1\nend\n";

/// It opens what it found as it comes back, and gives that up as it dies.
const KILLED_HISTORY: &str = "\
1 t3 create.do +p2.0:5 = 65536
2 t4 open.seek seek:5
3 t3 open.seek seek:4
4 t3 open.return +tmp3:4
5 t3 open.do +p2.1:4 = 65537
6 t3 drop -tmp3:4
7 t3 kill.look +tmp3:4
8 t3 kill.do doom:4 = 0
9 t4 open.return +tmp4:5
10 t4 drop -tmp4:5
11 t4 clean
12 t3 drop -tmp3:4
13 t1 bury bury:4
14 t1 drop -krn:4
objects
0 process kernel 1
1 thread supervisor 1 live
2 process p 2
3 thread a 1 live
4 thread b 1 kill 4
5 mutex m 1
end
";

/// A thread makes a mutex, closes it and makes another of its name, which gets its number. A second thread opens it by its name.
const SAME_NAME_SCRIPT: &str =
    "eka2 2\nprocess p\nthread a 10\ncreate mutex m r0\nclose r0\ncreate mutex m r0\nthread b 10\nopen mutex m r1\nend\n";

/// The second thread found the first, and misses it though the other has its name and number.
const SAME_NAME_HISTORY: &str = "\
1 t3 create.do +p2.0:5 = 65536
2 t4 open.seek seek:5
3 t3 close.do -p2.0:5 dead:5 = 0
4 t3 sweep swept:5
5 t3 create.do +p2.0:5 = 131072
6 t4 open.return missed:5 = -1
objects
0 process kernel 1
1 thread supervisor 1 live
2 process p 2
3 thread a 1 live
4 thread b 1 live
5 mutex m 1
end
";

/// A thread that is out does not act.
const OUT: [Deed; 6] = [
    Deed::Acts(ObjNo(3)),
    Deed::Acts(ObjNo(4)),
    Deed::Acts(ObjNo(4)),
    Deed::Acts(ObjNo(3)),
    Deed::Acts(ObjNo(4)),
    Deed::Returns(ObjNo(4)),
];

/// A note comes back between the last close and the sweep.
const BETWEEN: [Deed; 9] = [
    Deed::Acts(ObjNo(3)),
    Deed::Comes(Slot::Tick),
    Deed::Acts(ObjNo(4)),
    Deed::Comes(Slot::Tick),
    Deed::Acts(ObjNo(3)),
    Deed::Comes(Slot::Tick),
    Deed::Returns(ObjNo(4)),
    Deed::Comes(Slot::Tick),
    Deed::Acts(ObjNo(3)),
];

/// Notes come back after the last close.
const AFTER_CLOSE: [Deed; 7] = [
    Deed::Acts(ObjNo(3)),
    Deed::Acts(ObjNo(4)),
    Deed::Acts(ObjNo(3)),
    Deed::Acts(ObjNo(5)),
    Deed::Acts(ObjNo(3)),
    Deed::Returns(ObjNo(5)),
    Deed::Returns(ObjNo(4)),
];

/// Notes come back in another order.
const CROSSED: [Deed; 11] = [
    Deed::Acts(ObjNo(3)),
    Deed::Acts(ObjNo(4)),
    Deed::Acts(ObjNo(4)),
    Deed::Acts(ObjNo(5)),
    Deed::Returns(ObjNo(5)),
    Deed::Acts(ObjNo(5)),
    Deed::Returns(ObjNo(4)),
    Deed::Returns(ObjNo(4)),
    Deed::Acts(ObjNo(5)),
    Deed::Acts(ObjNo(4)),
    Deed::Acts(ObjNo(4)),
];

/// A note comes back after the death of its thread.
const AFTER_DEATH: [Deed; 15] = [
    Deed::Acts(ObjNo(3)),
    Deed::Acts(ObjNo(4)),
    Deed::Acts(ObjNo(3)),
    Deed::Returns(ObjNo(3)),
    Deed::Comes(Slot::Go),
    Deed::Comes(Slot::Go),
    Deed::Comes(Slot::Go),
    Deed::Comes(Slot::Go),
    Deed::Acts(ObjNo(4)),
    Deed::Returns(ObjNo(4)),
    Deed::Acts(ObjNo(4)),
    Deed::Acts(ObjNo(4)),
    Deed::Acts(ObjNo(3)),
    Deed::Acts(ObjNo(1)),
    Deed::Acts(ObjNo(1)),
];

/// A note comes back once another object has the number of what it found.
const AFTER_ANOTHER: [Deed; 6] = [
    Deed::Acts(ObjNo(3)),
    Deed::Acts(ObjNo(4)),
    Deed::Acts(ObjNo(3)),
    Deed::Acts(ObjNo(3)),
    Deed::Acts(ObjNo(3)),
    Deed::Returns(ObjNo(4)),
];

/// What callers do with a script, and what is told of it.
#[derive(Clone, Copy)]
struct Late<'a> {
    script: &'a str,
    deeds: &'a [Deed],
    history: &'a str,
}

/// All of them.
const LATE: [Late<'static>; 6] = [
    Late {
        script: FOUND_SCRIPT,
        deeds: &OUT,
        history: FOUND_HISTORY,
    },
    Late {
        script: DYING_OBJECT_SCRIPT,
        deeds: &BETWEEN,
        history: DYING_OBJECT_HISTORY,
    },
    Late {
        script: CLOSED_SCRIPT,
        deeds: &AFTER_CLOSE,
        history: CLOSED_HISTORY,
    },
    Late {
        script: CLOSED_SCRIPT,
        deeds: &CROSSED,
        history: CROSSED_HISTORY,
    },
    Late {
        script: KILLED_SCRIPT,
        deeds: &AFTER_DEATH,
        history: KILLED_HISTORY,
    },
    Late {
        script: SAME_NAME_SCRIPT,
        deeds: &AFTER_ANOTHER,
        history: SAME_NAME_HISTORY,
    },
];

#[test]
fn notes_come_back_late(rt: HostRuntime) {
    for late in &LATE {
        let told = told_after(&rt, rt.alloc(), late.script, late.deeds);
        expect_told(&rt, late.script, &told, late.history);
    }
}
