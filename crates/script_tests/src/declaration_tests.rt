//! What the lines of a whole file declare, by the lines that name it before.
use crate::tests::is_refused;
use script_read::Reason;

/// Lines in any order, with spaces, comments and bad lines among them. They follow a line that names something, and none
/// of them that isn't skipped may stand there: the second is the first bad one.
const FILE: &str =
    "#thread x\n  dfcq   work 300\nkthread main\n dfc late\nidfc soon nowhere\nirq 7\nirq 07\nschedule\nirq 8\nthread end";

/// A line, and whether the lines behind it declare what it names.
struct Naming {
    line: &'static str,
    is_known: bool,
}

/// Threads, calls of both sorts and queues, and names of one sort that are declared as another.
const NAMINGS: [Naming; 11] = [
    Naming {
        line: "idfc i fssignal work",
        is_known: true,
    },
    Naming {
        line: "idfc i fssignal main",
        is_known: true,
    },
    Naming {
        line: "idfc i fssignal end",
        is_known: true,
    },
    Naming {
        line: "idfc i fssignal x",
        is_known: false,
    },
    Naming {
        line: "idfc i fssignal late",
        is_known: false,
    },
    Naming {
        line: "idfc i queue late",
        is_known: true,
    },
    Naming {
        line: "idfc i queue soon",
        is_known: false,
    },
    Naming {
        line: "irq 3 idfc soon",
        is_known: true,
    },
    Naming {
        line: "irq 3 idfc late",
        is_known: false,
    },
    Naming {
        line: "dfc d work 0 queue d",
        is_known: true,
    },
    Naming {
        line: "dfc d main 0 queue d",
        is_known: false,
    },
];

/// An interrupt that a line declares before the schedule, and one that the schedule alone names.
const INTERRUPTS: &str = "eka2 1\nidfc i device d0 1\nirq 7 idfc i\nschedule\nirq 7\nirq 8\nend\n";

#[test]
fn keeps_what_each_line_declares(rt: HostRuntime) {
    for naming in &NAMINGS {
        let named = naming.line;
        let text = format!(in rt.alloc(); "eka2 1\n{named}\n{FILE}").expect(&rt, "memory");
        let is_well = if naming.is_known {
            is_refused(rt.alloc(), text.as_bytes(), 4, Reason::Order)
        } else {
            is_refused(rt.alloc(), text.as_bytes(), 2, Reason::Unknown)
        };
        assert!(rt; is_well, "{named}");
    }
}

#[test]
fn no_slot_declares_an_interrupt(rt: HostRuntime) {
    assert!(rt; is_refused(rt.alloc(), INTERRUPTS.as_bytes(), 6, Reason::Unknown));
}
