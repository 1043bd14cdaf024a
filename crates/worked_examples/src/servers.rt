//! Servers, sessions and messages.

/// A session with one message slot, which the first message has when the second is sent.
pub const ONE_SLOT_SCRIPT: &str =
    "eka2 1\nidfc w device d0 0\nirq 0 idfc w\nprocess ps\nthread sv 20\nserver files r0\nreceive r0 m0\ncomplete m0 0\nreceive r0 m1\nrequest d0 s0\nwaitany\ncomplete m1 5\nreceive r0 m2\nprocess pc\nthread c 10\nconnect files 1 r0\nsend r0 1 s0 0 0 0 0\nsend r0 2 s1 0 0 0 0\nwaitfor s0\nsend r0 3 s1 0 0 0 0\nschedule\ngo 27\nirq 0\ngo 10\nend\n";

/// Its history.
pub const ONE_SLOT_HISTORY: &str = "\
1 t3 server.do +own3:6 +t3.0:6 = 1073807360
2 t3 receive.look +tmp3:6
3 t3 receive.do
4 t5 connect.seek seek:6
5 t5 connect.return +tmp5:6
6 t5 connect.make +t5.0:7 +lnk7:6
7 t5 drop -tmp5:6
8 t5 connect.send accept:1 +msg1:7 +msg1:5
9 t3 receive.done = 1
10 t3 drop -tmp3:6
11 t3 complete.do finish:1:0 signal:5:w:0 = 0
12 t3 drop -msg1:7
13 t3 drop -msg1:5
14 t3 receive.look +tmp3:6
15 t3 receive.do
16 t5 connect.done = 1073807360
17 t5 send.look +tmp5:7
18 t5 send.do accept:2 +msg2:7 +msg2:5 = 0
19 t3 receive.done = 2
20 t3 drop -tmp3:6
21 t3 request.do = 0
22 t3 waitany.do
23 t5 drop -tmp5:7
24 t5 send.look +tmp5:7
25 t5 send.do = -16
26 t5 drop -tmp5:7
27 t5 waitfor.do
28 irq0 run
29 idfc w.run signal:3:0:0
30 t3 waitany.done = 0
31 t3 complete.do finish:2:5 signal:5:0:5 = 0
32 t3 drop -msg2:7
33 t3 drop -msg2:5
34 t3 receive.look +tmp3:6
35 t3 receive.do
36 t5 waitfor.done = 5
37 t5 send.look +tmp5:7
38 t5 send.do accept:3 +msg3:7 +msg3:5 = 0
objects
0 process kernel 1
1 thread supervisor 1 live
2 process ps 1
3 thread sv 1 live
4 process pc 1
5 thread c 2 live
6 server files 4
7 session - 3
end
";

/// Two sessions that use a pool of one slot.
pub const POOL_SCRIPT: &str =
    "eka2 1\npool 1\nidfc w device d0 0\nirq 0 idfc w\nprocess ps\nthread sv 20\nserver files r0\nreceive r0 m0\ncomplete m0 0\nreceive r0 m1\ncomplete m1 0\nreceive r0 m2\nrequest d0 s0\nwaitany\nprocess pc\nthread c 10\nconnect files pool r0\nconnect files pool r1\nsend r0 1 s0 0 0 0 0\nsend r1 1 s1 0 0 0 0\nschedule\ngo 38\nend\n";

/// What `brief` shows of it.
pub const POOL_HISTORY: &str = "\
1 t3 server.do +own3:6 +t3.0:6 = 1073807360
9 t3 receive.done = 1
11 t3 complete.do finish:1:0 signal:5:w:0 = 0
16 t5 connect.done = 1073807360
22 t3 receive.done = 2
24 t3 complete.do finish:2:0 signal:5:w:0 = 0
29 t5 connect.done = 1073807361
31 t5 send.do accept:3 +msg3:7 +msg3:5 = 0
32 t3 receive.done = 3
34 t3 request.do = 0
38 t5 send.do = -16
objects
0 process kernel 1
1 thread supervisor 1 live
2 process ps 1
3 thread sv 1 live
4 process pc 1
5 thread c 2 live
6 server files 4
7 session - 2
8 session - 2
end
";

/// A server dies with a message taken, and with two messages of a dead client queued.
pub const DYING_SERVER_SCRIPT: &str =
    "eka2 1\nidfc w device d0 0\nirq 0 idfc w\nprocess ps\nthread sv 20\nserver files r0\nreceive r0 m0\ncomplete m0 0\nreceive r0 m1\nreceive r0 m2\ncomplete m2 0\nrequest d0 s0\nwaitany\nexit 9\nprocess pc\nthread c 10\nconnect files 2 r0\nsend r0 1 s0 0 0 0 0\nwaitany\nstatus s0\nprocess pe\nthread e 9\nconnect files 2 r0\nsend r0 1 s0 0 0 0 0\nschedule\ngo 45\nirq 0\ngo 29\nend\n";

/// Its history.
pub const DYING_SERVER_HISTORY: &str = "\
1 t3 server.do +own3:8 +t3.0:8 = 1073807360
2 t3 receive.look +tmp3:8
3 t3 receive.do
4 t5 connect.seek seek:8
5 t5 connect.return +tmp5:8
6 t5 connect.make +t5.0:9 +lnk9:8
7 t5 drop -tmp5:8
8 t5 connect.send accept:1 +msg1:9 +msg1:5
9 t3 receive.done = 1
10 t3 drop -tmp3:8
11 t3 complete.do finish:1:0 signal:5:w:0 = 0
12 t3 drop -msg1:9
13 t3 drop -msg1:5
14 t3 receive.look +tmp3:8
15 t3 receive.do
16 t5 connect.done = 1073807360
17 t5 send.look +tmp5:9
18 t5 send.do accept:2 +msg2:9 +msg2:5 = 0
19 t3 receive.done = 2
20 t3 drop -tmp3:8
21 t3 receive.look +tmp3:8
22 t3 receive.do
23 t5 drop -tmp5:9
24 t5 waitany.do
25 t7 connect.seek seek:8
26 t7 connect.return +tmp7:8
27 t7 connect.make +t7.0:10 +lnk10:8
28 t7 drop -tmp7:8
29 t7 connect.send accept:3 +msg3:10 +msg3:7
30 t3 receive.done = 3
31 t3 drop -tmp3:8
32 t3 complete.do finish:3:0 signal:7:w:0 = 0
33 t3 drop -msg3:10
34 t3 drop -msg3:7
35 t3 request.do = 0
36 t3 waitany.do
37 t7 connect.done = 1073807360
38 t7 send.look +tmp7:10
39 t7 send.do accept:4 +msg4:10 +msg4:7 = 0
40 t7 drop -tmp7:10
41 t7 end doom:7
42 t7 shut accept:5 +msg5:10 +msg5:7 -t7.0:10
43 t7 clean
44 t1 bury bury:7
45 t1 drop -krn:7
46 irq0 run
47 idfc w.run signal:3:0:0
48 t3 waitany.done = 0
49 t3 exit.do doom:3
50 t3 finish finish:2:-15 signal:5:0:-15
51 t3 drop -msg2:9
52 t3 drop -msg2:5
53 t3 finish finish:4:-15
54 t3 drop -msg4:10
55 t3 drop -msg4:7
56 t3 finish finish:5:-15
57 t3 drop -msg5:10 dead:10
58 t3 drop -msg5:7 dead:7
59 t3 drop -lnk10:8
60 t3 sweep swept:10
61 t3 drop -lnk7:6 dead:6
62 t3 sweep swept:7
63 t3 sweep swept:6
64 t3 detach -lnk9:8
65 t3 stop ended:8 -own3:8
66 t3 shut -t3.0:8 dead:8
67 t3 sweep swept:8
68 t3 clean
69 t1 bury bury:3
70 t1 drop -krn:3 dead:3
71 t1 drop -lnk3:2 dead:2
72 t1 sweep swept:3
73 t1 sweep swept:2
74 t5 waitany.done = 0
75 t5 status.do = -15
objects
0 process kernel 1
1 thread supervisor 1 live
4 process pc 1
5 thread c 1 live
9 session - 1
end
";

/// A session dies while its server is closing.
pub const CLOSING_SERVER_SCRIPT: &str =
    "eka2 1\nprocess ps\nthread sv 10\nserver files r0\nreceive r0 m0\ncomplete m0 0\nexit 1\nprocess pc\nthread c 10\nconnect files 1 r0\nclose r0\nschedule\ngo 14\ntick\ngo 2\ntick\ngo 1\ntick\ngo 2\nend\n";

/// Its history.
pub const CLOSING_SERVER_HISTORY: &str = "\
1 t3 server.do +own3:6 +t3.0:6 = 1073807360
2 t3 receive.look +tmp3:6
3 t3 receive.do
4 t5 connect.seek seek:6
5 t5 connect.return +tmp5:6
6 t5 connect.make +t5.0:7 +lnk7:6
7 t5 drop -tmp5:6
8 t5 connect.send accept:1 +msg1:7 +msg1:5
9 t3 receive.done = 1
10 t3 drop -tmp3:6
11 t3 complete.do finish:1:0 signal:5:w:0 = 0
12 t3 drop -msg1:7
13 t3 drop -msg1:5
14 t3 exit.do doom:3
15 tick turn
16 t5 connect.done = 1073807360
17 t5 close.do -t5.0:7 dead:7 = 0
18 tick turn
19 t3 stop ended:6 -own3:6
20 tick turn
21 t5 drop -lnk7:6
22 t5 sweep swept:7
objects
0 process kernel 1
1 thread supervisor 1 live
2 process ps 1
3 thread sv 1 kill 1
4 process pc 1
5 thread c 1 live
6 server files 1
end
";
