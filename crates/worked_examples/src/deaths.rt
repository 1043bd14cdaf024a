//! Threads that die.

/// A thread finds a mutex, and before it opens it another closes it and ends.
pub const MISSED_SCRIPT: &str =
    "eka2 1\nidfc w device d0 0\nirq 0 idfc w\nprocess p\nthread h 20\ncreate mutex m r0\nrequest d0 s0\nwaitany\nclose r0\nthread a 10\nopen mutex m r1\nschedule\ngo 4\nirq 0\ngo 12\nend\n";

/// Its history.
pub const MISSED_HISTORY: &str = "\
1 t3 create.do +p2.0:5 = 65536
2 t3 request.do = 0
3 t3 waitany.do
4 t4 open.seek seek:5
5 irq0 run
6 idfc w.run signal:3:0:0
7 t3 waitany.done = 0
8 t3 close.do -p2.0:5 dead:5 = 0
9 t3 sweep swept:5
10 t3 end doom:3
11 t3 clean
12 t1 bury bury:3
13 t1 drop -krn:3 dead:3
14 t1 drop -lnk3:2
15 t1 sweep swept:3
16 t4 open.return missed:5 = -1
17 t4 end doom:4
objects
0 process kernel 1
1 thread supervisor 1 live
2 process p 1
4 thread a 1 kill 0
end
";

/// A thread was found by its name, and before it is opened it dies.
pub const DEAD_THREAD_SCRIPT: &str =
    "eka2 1\nidfc w device d0 0\nirq 0 idfc w\nprocess p\nthread h 20\nopen thread c r0\nrequest d0 s0\nwaitany\nkill r0 4\nthread c 10\nopen thread h r1\nschedule\ngo 7\nirq 0\ngo 13\nend\n";

/// Its history.
pub const DEAD_THREAD_HISTORY: &str = "\
1 t3 open.seek seek:4
2 t3 open.return +tmp3:4
3 t3 open.do +p2.0:4 = 65536
4 t3 drop -tmp3:4
5 t3 request.do = 0
6 t3 waitany.do
7 t4 open.seek seek:3
8 irq0 run
9 idfc w.run signal:3:0:0
10 t3 waitany.done = 0
11 t3 kill.look +tmp3:4
12 t3 kill.do doom:4 = 0
13 t3 drop -tmp3:4
14 t3 end doom:3
15 t3 clean
16 t1 bury bury:3
17 t1 drop -krn:3 dead:3
18 t1 drop -lnk3:2
19 t1 sweep swept:3
20 t4 open.return missed:3
21 t4 shut -p2.0:4
objects
0 process kernel 1
1 thread supervisor 1 live
2 process p 1
4 thread c 1 kill 4
end
";

/// A kill is put off by a fast mutex.
pub const PUT_OFF_SCRIPT: &str =
    "eka2 1\nfast 1\nkthread k 10\nflock f0\nfssignal z\nfunlock f0\nkthread z 20\nfswait\nopen thread k r0\nkill r0 5\nschedule\ngo 18\nend\n";

/// Its history.
pub const PUT_OFF_HISTORY: &str = "\
1 t3 fswait.do
2 t2 flock.do take:2:f0 = 0
3 t2 fssignal.do = 0
4 t3 fswait.done = 0
5 t3 open.seek seek:2
6 t3 open.return +tmp3:2
7 t3 open.do +p0.0:2 = 65536
8 t3 drop -tmp3:2
9 t3 kill.look +tmp3:2
10 t3 kill.do = 0
11 t3 drop -tmp3:2
12 t3 end doom:3
13 t3 clean
14 t1 bury bury:3
15 t1 drop -krn:3 dead:3
16 t1 drop -lnk3:0
17 t1 sweep swept:3
18 t2 funlock.do give:2:f0 doom:2 = 0
objects
0 process kernel 2
1 thread supervisor 1 live
2 thread k 2 kill 5
end
";

/// A thread dies that has locked a mutex twice, for which another waits.
pub const DEAD_OWNER_SCRIPT: &str =
    "eka2 1\nidfc w device d0 0\nirq 0 idfc w\nprocess p1\nthread a 20\ncreate mutex m r0\nlock r0\nlock r0\nrequest d0 s0\nwaitany\nexit 1\nprocess p2\nthread b 10\nopen mutex m r0\nlock r0\nschedule\ngo 15\nirq 0\ngo 13\nend\n";

/// Its history.
pub const DEAD_OWNER_HISTORY: &str = "\
1 t3 create.do +p2.0:6 = 65536
2 t3 lock.look +tmp3:6
3 t3 lock.do take:3:6 +own3:6 = 0
4 t3 drop -tmp3:6
5 t3 lock.look +tmp3:6
6 t3 lock.do = 0
7 t3 drop -tmp3:6
8 t3 request.do = 0
9 t3 waitany.do
10 t5 open.seek seek:6
11 t5 open.return +tmp5:6
12 t5 open.do +p4.0:6 = 65536
13 t5 drop -tmp5:6
14 t5 lock.look +tmp5:6
15 t5 lock.do
16 irq0 run
17 idfc w.run signal:3:0:0
18 t3 waitany.done = 0
19 t3 exit.do doom:3
20 t3 free give:3:6 take:5:6 +own5:6
21 t3 drop -own3:6
22 t3 shut -p2.0:6
23 t3 clean
24 t1 bury bury:3
25 t1 drop -krn:3 dead:3
26 t1 drop -lnk3:2 dead:2
27 t1 sweep swept:3
28 t1 sweep swept:2
29 t5 lock.done = 0
objects
0 process kernel 1
1 thread supervisor 1 live
4 process p2 1
5 thread b 1 live
6 mutex m 3
end
";

/// A kill is put off by a critical section, a logon is told, and a mutex passes on from its dead owner.
pub const DEATHS_SCRIPT: &str =
    "eka2 1\nkthread k 10\ncreate mutex m r0\nlock r0\nenter\nfssignal z\nleave\nkthread z 20\nfswait\nopen thread k r0\nlogon r0 s0\nopen mutex m r1\nkill r0 5\nlock r1\nwaitfor s0\nschedule\ngo 50\nend\n";
