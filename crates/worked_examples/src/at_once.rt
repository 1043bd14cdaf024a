//! Callers who come back from each find at once, among ticks and interrupts.

/// Clients connect to a server that comes and goes, among ticks and interrupts.
pub const CONNECTING_SCRIPT: &str =
    "eka2 1\ndfcq q0 48\ndfcq q1 62\ndfc d0 q0 6 fssignal t3 ; device d2 -15 ; fssignal t3 ; device d0 0\ndfc d1 q0 7 device d0 -1 ; device d0 7 ; fssignal t0\ndfc d2 q0 5 device d1 -2147483646 ; fssignal t1 ; fssignal t3 ; queue d3\ndfc d3 supervisor 7 fssignal t0\nidfc i0 device d0 0 ; device d1 5 ; device d2 -1 ; device d3 0\nidfc i1 device d2 2147483647 ; fssignal t2\nirq 0 dfc d0 ; idfc i0\nirq 1 dfc d2 ; dfc d1\nprocess p0\nthread t0 6\nserver v0 r0\nclose r0\nserver v0 r0\nreceive r0 m0\ncomplete m0 0\nclose r0\nserver v0 r0\nclose r0\nexit 7\nthread t1 6\nconnect v0 1 r1\nclose r1\nconnect v0 1 r1\nclose r1\nconnect v0 1 r1\nclose r1\nconnect v0 1 r1\nclose r1\nopen mutex m0 r5\ncreate mutex m0 r5\nprocess p1\nthread t2 8\nclose r1\nconnect v0 1 r1\nclose r1\nconnect v0 1 r1\nclose r1\nexit -5\nthread t3 6\nconnect v0 1 r1\nclose r1\nconnect v0 1 r1\nclose r1\nclose r1\nconnect v0 1 r1\nclose r1\nschedule\ntick\ngo 8\ngo 7\ngo 11\nirq 0\ngo 10\ntick\ntick\ngo 1\ngo 3\ntick\ngo 12\ngo 9\ngo 4\nirq 0\nirq 1\ngo 9\ntick\ntick\ngo 12\ntick\ntick\ngo 6\ntick\ntick\ntick\ntick\ntick\ngo 12\nend\n";

/// Its history as one worker makes it, who opens what it found and comes back at once, worked out apart from the program.
pub const CONNECTING_HISTORY: &str = "\
1 tick turn
2 t8 close.do = -8
3 t8 connect.seek = -1
4 t8 close.do = -8
5 t8 connect.seek = -1
6 t8 close.do = -8
7 t8 exit.do doom:8
8 t8 clean
9 t1 bury bury:8
10 t1 drop -krn:8 dead:8
11 t1 drop -lnk8:7
12 t1 sweep swept:8
13 t5 server.do +own5:10 +t5.0:10 = 1073807360
14 t5 close.do -t5.0:10 = 0
15 t5 stop ended:10 -own5:10 dead:10
16 t5 sweep swept:10
17 t5 server.do +own5:11 +t5.0:11 = 1073872896
18 t5 receive.look +tmp5:11
19 t5 receive.do
20 t6 connect.seek seek:11
21 t6 connect.return +tmp6:11
22 t9 connect.seek seek:11
23 t9 connect.return +tmp9:11
24 t6 connect.make +t6.0:12 +lnk12:11
25 t6 drop -tmp6:11
26 t6 connect.send accept:1 +msg1:12 +msg1:6
27 t9 connect.make +t9.0:13 +lnk13:11
28 t9 drop -tmp9:11
29 t9 connect.send accept:2 +msg2:13 +msg2:9
30 irq0 run
31 idfc d0.move
32 idfc i0.run
33 t2 d0.run
34 t5 receive.done = 1
35 t5 drop -tmp5:11
36 t5 complete.do finish:1:0 signal:6:w:0 = 0
37 t5 drop -msg1:12
38 t5 drop -msg1:6
39 t5 close.do -t5.0:11 = 0
40 t5 finish finish:2:-15 signal:9:w:-15
41 tick turn
42 tick turn
43 t9 connect.done -t9.0:13 = -15
44 t9 close.do = -8
45 t9 connect.seek seek:11
46 t9 connect.return +tmp9:11
47 t5 drop -msg2:13 dead:13
48 tick turn
49 t6 connect.done = 1073807360
50 t6 close.do -t6.0:12 dead:12 = 0
51 t6 drop -lnk12:11
52 t6 sweep swept:12
53 t6 connect.seek seek:11
54 t6 connect.return +tmp6:11
55 t9 connect.make = -15
56 t9 drop -tmp9:11
57 t9 close.do = -8
58 t9 close.do = -8
59 t9 connect.seek seek:11
60 t9 connect.return +tmp9:11
61 t5 drop -msg2:9
62 t5 drop -lnk13:11
63 t5 sweep swept:13
64 t5 stop ended:11 -own5:11
65 t5 server.do = -11
66 t5 close.do = -8
67 t5 exit.do doom:5
68 t5 clean
69 t1 bury bury:5
70 t1 drop -krn:5 dead:5
71 t1 drop -lnk5:4
72 t1 sweep swept:5
73 t6 connect.make = -15
74 t6 drop -tmp6:11
75 t6 close.do = -8
76 irq0 run
77 irq1 run
78 idfc d0.move
79 idfc i0.run
80 idfc d2.move
81 idfc d1.move
82 t2 d1.run
83 t2 d0.run
84 t2 d2.run
85 t1 d3.run
86 t6 connect.seek seek:11
87 t6 connect.return +tmp6:11
88 tick turn
89 tick turn
90 t9 connect.make = -15
91 t9 drop -tmp9:11
92 t9 close.do = -8
93 t9 end doom:9
94 t9 clean
95 t1 bury bury:9
96 t1 drop -krn:9 dead:9
97 t1 drop -lnk9:7 dead:7
98 t1 sweep swept:9
99 t1 sweep swept:7
100 t6 connect.make = -15
101 t6 drop -tmp6:11 dead:11
102 tick turn
103 tick turn
104 t6 sweep swept:11
105 t6 close.do = -8
106 t6 connect.seek = -1
107 t6 close.do = -8
108 t6 open.seek = -1
109 t6 create.do +p4.0:14 = 65536
110 tick turn
111 tick turn
112 tick turn
113 tick turn
114 tick turn
115 t6 end doom:6
116 t6 shut -p4.0:14 dead:14
117 t6 sweep swept:14
118 t6 clean
119 t1 bury bury:6
120 t1 drop -krn:6 dead:6
121 t1 drop -lnk6:4 dead:4
122 t1 sweep swept:6
123 t1 sweep swept:4
124 idle wait
125 idle wait
126 idle wait
objects
0 process kernel 3
1 thread supervisor 1 live
2 thread q0 1 live
3 thread q1 1 live
end
";

/// Threads find a semaphore, another thread and themselves, among interrupts and ticks.
pub const FINDING_SCRIPT: &str =
    "eka2 1\nfast 1\nidfc i0 device d0 0 ; device d1 5 ; device d2 -1 ; device d3 0\nidfc i1 fssignal k2 ; fssignal k0 ; fssignal k2 ; fssignal k2\nirq 0 idfc i0 ; idfc i1\nirq 1 idfc i0 ; idfc i0\nkthread k0 47\nfswait\nflock f0\nfunlock f0\nexit 0\nkthread k1 46\nenter\nflock f0\nfssignal k2\nfssignal k2\nrequest d1 s2\ncancel d1\nfunlock f0\nleave\nkthread k2 46\ncreate semaphore s1 0 r7\nopen semaphore s1 r7\ncreate mutex m0 r0\nlock r0\nrequest d2 s1\nwaitfor s1\nkthread k3 46 held\ncreate mutex m0 r4\nopen mutex m0 r4\nlock r4\nrequest d3 s0\nwaitfor s0\nexit 1\nprocess p0\nthread t0 46\nrequest d0 s1\nwaitfor s1\nopen process p0 r5\nexit 2147483647\nthread t1 46\nserver v0 r2\nreceive r2 m0\ncomplete m0 0\nreceive r2 m0\nfunction m0\ncomplete m0 0\nrequest d1 s1\nwaitfor s1\nrequest d1 s1\nwaitfor s1\nopen thread t2 r7\nrequest d3 s0\nwaitany\nkill r7 0\nrequest d1 s10\nrequest d1 s2\nstatus s10\ncreate mutex m1 r5\nopen mutex m1 r5\nlock r5\nrequest d1 s2\nwaitany\nunlock r5\nlock r5\nlock r5\nrequest d1 s0\nwaitany\nunlock r5\nrequest d1 s2\nwaitfor s2\nkill r7 0\nthread t2 46\nopen thread t4 r7\nrequest d2 s2\nwaitfor s2\nkill r7 4\ncreate mutex m0 r0\nprocess p1\nthread t3 46\nserver v0 r1\nreceive r1 m2\nfunction m2\ncomplete m2 0\nreceive r1 m1\nwrite m1 0 0 16 0\ncomplete m1 0\nreceive r1 m2\nwrite m2 0 0 65 16\nread m2 3 120 200 500\nwrite m2 1 0 200 900\ncomplete m2 0\nopen thread k2 r7\nrequest d3 s1\nwaitany\nterminate r7 5\ncreate semaphore s1 0 r5\nopen semaphore s1 r5\nthread t4 46\nopen thread t4 r0\nresume r0\nrequest d0 s1\nopen thread supervisor r4\nschedule\nirq 0\ngo 2\ngo 2\ngo 1\ngo 3\ntick\nirq 0\ngo 5\ngo 1\ngo 1\nirq 0\ngo 2\ngo 4\nirq 0\ngo 1\ngo 3\ngo 5\ngo 3\ngo 1\ngo 1\ngo 4\ntick\ngo 1\nirq 0\nirq 0\ngo 3\nend\n";

/// Its history as one worker makes it.
pub const FINDING_HISTORY: &str = "\
1 irq0 run
2 idfc i0.run
3 idfc i1.run
4 t2 fswait.do = 0
5 t2 flock.do take:2:f0 = 0
6 t2 funlock.do give:2:f0 = 0
7 t2 exit.do doom:2
8 t2 clean
9 t1 bury bury:2
10 tick turn
11 irq0 run
12 idfc i0.run
13 idfc i1.run
14 t1 drop -krn:2 dead:2
15 t1 drop -lnk2:0
16 t1 sweep swept:2
17 t3 enter.do = 0
18 t3 flock.do take:3:f0 = 0
19 irq0 run
20 idfc i0.run
21 idfc i1.run
22 t3 fssignal.do = 0
23 t3 fssignal.do = 0
24 t3 request.do = 0
25 t3 cancel.do signal:3:2:-3 = 0
26 irq0 run
27 idfc i0.run
28 idfc i1.run
29 t3 funlock.do give:3:f0 = 0
30 t3 leave.do = 0
31 t3 end doom:3
32 t3 clean
33 t1 bury bury:3
34 t1 drop -krn:3 dead:3
35 t1 drop -lnk3:0
36 t1 sweep swept:3
37 t4 create.do +p0.0:13 = 65536
38 t4 open.seek seek:13
39 t4 open.return +tmp4:13
40 t7 request.do = 0
41 t7 waitfor.do
42 t8 server.do +own8:14 +t8.0:14 = 1073807360
43 t8 receive.look +tmp8:14
44 t8 receive.do
45 t9 open.seek seek:12
46 t9 open.return +tmp9:12
47 tick turn
48 t12 open.seek seek:12
49 t12 open.return +tmp12:12
50 irq0 run
51 irq0 run
52 idfc i0.run signal:7:1:0
53 idfc i1.run
54 t4 open.do +p0.1:13 = 65537
objects
0 process kernel 3
1 thread supervisor 1 live
4 thread k2 1 live
5 thread k3 1 live
6 process p0 3
7 thread t0 1 live
8 thread t1 1 live
9 thread t2 1 live
10 process p1 2
11 thread t3 1 live
12 thread t4 3 live
13 semaphore s1 3
14 server v0 3
end
";

/// A thread finds another and ends it by a panic.
pub const PANIC_SCRIPT: &str =
    "eka2 1\npool 1\nfast 3\ndfcq q0 20\ndfcq q1 20\ndfc d0 q1 1 fssignal k0 ; device d2 0\ndfc d1 supervisor 4 device d2 0 ; device d1 2147483647 ; device d1 0\ndfc d2 q1 5 fssignal k0 ; device d0 -2147483646 ; device d2 -1\ndfc d3 q1 4 fssignal k0\nidfc i0 device d0 9 ; device d1 5 ; device d2 -1 ; device d3 0\nidfc i1 fssignal k0 ; queue d0 ; device d2 0 ; device d2 0\nirq 0 idfc i0 ; dfc d1\nkthread k0 46\nrequest d0 s2\nwaitfor s2\nenter\nqueue d0\nqueue d1\nleave\nleave\nprocess p0\nthread t0 47\ndup r2 r4\nopen thread t1 r3\npanic r3 a-b 0\npanic r3 a-b 0\nclose r3\nprocess p1\nthread t1 46\nrequest d2 s1\nwaitfor s1\nopen mutex a r7\nthread t2 47\nrequest d3 s0\nwaitany\ncreate mutex m0 r4\nclose r4\nopen mutex m0 r4\nclose r4\nrequest d0 s0\nwaitfor s0\nschedule\ntick\ngo 11\ntick\ngo 2\ntick\ngo 3\nirq 0\ngo 6\ntick\ngo 2\ntick\ngo 11\ntick\ngo 2\ngo 2\nirq 0\ngo 7\ntick\ngo 1\ntick\ngo 5\ntick\ngo 1\ntick\ngo 3\nend\n";

/// Its history as one worker makes it.
pub const PANIC_HISTORY: &str = "\
1 tick turn
2 t9 request.do = 0
3 t9 waitany.do
4 t6 dup.look = -8
5 t6 open.seek seek:8
6 t6 open.return +tmp6:8
7 t6 open.do +p5.0:8 = 65536
8 t6 drop -tmp6:8
9 t6 panic.look +tmp6:8
10 t6 panic.do doom:8 = 0
11 t6 drop -tmp6:8
12 t6 panic.look +tmp6:8
13 t6 panic.do = -13
14 tick turn
15 t6 drop -tmp6:8
16 t6 close.do -p5.0:8 = 0
17 tick turn
18 t6 end doom:6
19 t6 clean
20 t1 bury bury:6
21 irq0 run
22 idfc i0.run signal:9:0:0
23 idfc d1.move
24 t1 drop -krn:6 dead:6
25 t1 drop -lnk6:5 dead:5
26 t1 sweep swept:6
27 t1 sweep swept:5
28 tick turn
29 t1 d1.run
30 t9 waitany.done = 0
31 tick turn
32 t9 create.do +p7.0:10 = 65536
33 t9 close.do -p7.0:10 dead:10 = 0
34 t9 sweep swept:10
35 t9 open.seek = -1
36 t9 close.do = -8
37 t9 request.do = 0
38 t9 waitfor.do
39 t4 request.do = -14
40 t4 waitfor.do
41 t8 clean
42 t1 bury bury:8
43 tick turn
44 t1 drop -krn:8 dead:8
45 t1 drop -lnk8:7
46 t1 sweep swept:8
47 idle wait
48 irq0 run
49 idfc i0.run signal:9:0:9
50 idfc d1.move
51 t1 d1.run
52 t9 waitfor.done = 9
53 t9 end doom:9
54 t9 clean
55 t1 bury bury:9
56 tick turn
57 t1 drop -krn:9 dead:9
58 tick turn
59 t1 drop -lnk9:7 dead:7
60 t1 sweep swept:9
61 t1 sweep swept:7
62 idle wait
63 idle wait
64 tick turn
65 idle wait
66 tick turn
67 idle wait
68 idle wait
69 idle wait
objects
0 process kernel 4
1 thread supervisor 1 live
2 thread q0 1 live
3 thread q1 1 live
4 thread k0 1 live
end
";
