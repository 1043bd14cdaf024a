//! Many interrupts at once.

/// As many interrupts as calls may be queued, each of which queues the call that is queued already.
pub const THIRTY_TWO_SCRIPT: &str =
    "eka2 1\nidfc w device d0 0\nirq 0 idfc w\nschedule\nirq 0\nirq 0\nirq 0\nirq 0\nirq 0\nirq 0\nirq 0\nirq 0\nirq 0\nirq 0\nirq 0\nirq 0\nirq 0\nirq 0\nirq 0\nirq 0\nirq 0\nirq 0\nirq 0\nirq 0\nirq 0\nirq 0\nirq 0\nirq 0\nirq 0\nirq 0\nirq 0\nirq 0\nirq 0\nirq 0\nirq 0\nirq 0\ngo 2\nend\n";

/// Its history.
pub const THIRTY_TWO_HISTORY: &str = "\
1 irq0 run
2 irq0 run
3 irq0 run
4 irq0 run
5 irq0 run
6 irq0 run
7 irq0 run
8 irq0 run
9 irq0 run
10 irq0 run
11 irq0 run
12 irq0 run
13 irq0 run
14 irq0 run
15 irq0 run
16 irq0 run
17 irq0 run
18 irq0 run
19 irq0 run
20 irq0 run
21 irq0 run
22 irq0 run
23 irq0 run
24 irq0 run
25 irq0 run
26 irq0 run
27 irq0 run
28 irq0 run
29 irq0 run
30 irq0 run
31 irq0 run
32 irq0 run
33 idfc w.run
34 idle wait
objects
0 process kernel 1
1 thread supervisor 1 live
end
";
