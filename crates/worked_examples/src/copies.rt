//! Servers that copy bytes of their clients, and a longer run.

/// A client is killed between two pieces of a copy.
pub const KILLED_CLIENT_SCRIPT: &str =
    "eka2 1\nidfc w device d0 0\nirq 0 idfc w\nprocess ps\nthread sv 20\nserver files r0\nreceive r0 m0\ncomplete m0 0\nreceive r0 m1\nread m1 0 0 100 0\npeek 63\npeek 64\nprocess pc\nthread c 10\nfill 0 100 65\nconnect files 1 r0\ncall r0 1 d:0:100:100 0 0 0\nprocess pz\nthread z 30\nopen thread c r0\nrequest d0 s0\nwaitany\nkill r0 4\nschedule\ngo 28\nirq 0\ngo 16\nend\n";

/// Its history.
pub const KILLED_CLIENT_HISTORY: &str = "\
1 t7 open.seek seek:5
2 t7 open.return +tmp7:5
3 t7 open.do +p6.0:5 = 65536
4 t7 drop -tmp7:5
5 t7 request.do = 0
6 t7 waitany.do
7 t3 server.do +own3:8 +t3.0:8 = 1073807360
8 t3 receive.look +tmp3:8
9 t3 receive.do
10 t5 fill.do = 0
11 t5 connect.seek seek:8
12 t5 connect.return +tmp5:8
13 t5 connect.make +t5.0:9 +lnk9:8
14 t5 drop -tmp5:8
15 t5 connect.send accept:1 +msg1:9 +msg1:5
16 t3 receive.done = 1
17 t3 drop -tmp3:8
18 t3 complete.do finish:1:0 signal:5:w:0 = 0
19 t3 drop -msg1:9
20 t3 drop -msg1:5
21 t3 receive.look +tmp3:8
22 t3 receive.do
23 t5 connect.done = 1073807360
24 t5 call.look +tmp5:9
25 t5 call.do accept:2 +msg2:9 +msg2:5
26 t3 receive.done = 2
27 t3 drop -tmp3:8
28 t3 read.piece
29 irq0 run
30 idfc w.run signal:7:0:0
31 t7 waitany.done = 0
32 t7 kill.look +tmp7:5
33 t7 kill.do doom:5 = 0
34 t7 drop -tmp7:5
35 t7 end doom:7
36 t7 shut -p6.0:5
37 t7 clean
38 t1 bury bury:7
39 t1 drop -krn:7 dead:7
40 t1 drop -lnk7:6 dead:6
41 t1 sweep swept:7
42 t1 sweep swept:6
43 t3 read.piece = -13
44 t3 peek.do = 65
45 t3 peek.do = 0
objects
0 process kernel 1
1 thread supervisor 1 live
2 process ps 1
3 thread sv 1 live
4 process pc 1
5 thread c 2 kill 4
8 server files 3
9 session - 3
end
";

/// A descriptor takes as many bytes as it may have, and not one more.
pub const TOO_LONG_SCRIPT: &str =
    "eka2 1\nprocess ps\nthread sv 20\nserver files r0\nfill 0 32 7\nreceive r0 m0\ncomplete m0 0\nreceive r0 m1\nwrite m1 0 0 16 0\nwrite m1 0 0 17 0\ncomplete m1 3\nprocess pc\nthread c 10\nconnect files 1 r0\ncall r0 1 d:8:0:16 0 0 0\npeek 8\npeek 24\nschedule\ngo 41\nend\n";

/// Its history.
pub const TOO_LONG_HISTORY: &str = "\
1 t3 server.do +own3:6 +t3.0:6 = 1073807360
2 t3 fill.do = 0
3 t3 receive.look +tmp3:6
4 t3 receive.do
5 t5 connect.seek seek:6
6 t5 connect.return +tmp5:6
7 t5 connect.make +t5.0:7 +lnk7:6
8 t5 drop -tmp5:6
9 t5 connect.send accept:1 +msg1:7 +msg1:5
10 t3 receive.done = 1
11 t3 drop -tmp3:6
12 t3 complete.do finish:1:0 signal:5:w:0 = 0
13 t3 drop -msg1:7
14 t3 drop -msg1:5
15 t3 receive.look +tmp3:6
16 t3 receive.do
17 t5 connect.done = 1073807360
18 t5 call.look +tmp5:7
19 t5 call.do accept:2 +msg2:7 +msg2:5
20 t3 receive.done = 2
21 t3 drop -tmp3:6
22 t3 write.piece = 0
23 t3 write.piece = -9
24 t3 complete.do finish:2:3 signal:5:w:3 = 0
25 t3 drop -msg2:7
26 t3 drop -msg2:5
27 t3 end doom:3
28 t3 detach -lnk7:6
29 t3 stop ended:6 -own3:6
30 t3 shut -t3.0:6 dead:6
31 t3 sweep swept:6
32 t3 clean
33 t1 bury bury:3
34 t1 drop -krn:3 dead:3
35 t1 drop -lnk3:2 dead:2
36 t1 sweep swept:3
37 t1 sweep swept:2
38 t5 call.done = 3
39 t5 drop -tmp5:7
40 t5 peek.do = 7
41 t5 peek.do = 0
objects
0 process kernel 1
1 thread supervisor 1 live
4 process pc 1
5 thread c 1 live
7 session - 1
end
";

/// A server and its client in one process, and a copy that lies over its own bytes.
pub const OVERLAP_SCRIPT: &str =
    "eka2 1\nprocess p\nthread sv 20\nserver files r0\nreceive r0 m0\ncomplete m0 0\nreceive r0 m1\nread m1 0 0 66 1\npeek 1\npeek 2\npeek 64\npeek 65\npeek 66\ncomplete m1 0\nthread c 10\nfill 0 1 1\nfill 63 1 7\nfill 64 1 8\nfill 65 1 9\nconnect files 1 r0\ncall r0 1 d:0:66:66 0 0 0\nschedule\ngo 31\nend\n";

/// Its history.
pub const OVERLAP_HISTORY: &str = "\
1 t3 server.do +own3:5 +t3.0:5 = 1073807360
2 t3 receive.look +tmp3:5
3 t3 receive.do
4 t4 fill.do = 0
5 t4 fill.do = 0
6 t4 fill.do = 0
7 t4 fill.do = 0
8 t4 connect.seek seek:5
9 t4 connect.return +tmp4:5
10 t4 connect.make +t4.0:6 +lnk6:5
11 t4 drop -tmp4:5
12 t4 connect.send accept:1 +msg1:6 +msg1:4
13 t3 receive.done = 1
14 t3 drop -tmp3:5
15 t3 complete.do finish:1:0 signal:4:w:0 = 0
16 t3 drop -msg1:6
17 t3 drop -msg1:4
18 t3 receive.look +tmp3:5
19 t3 receive.do
20 t4 connect.done = 1073807360
21 t4 call.look +tmp4:6
22 t4 call.do accept:2 +msg2:6 +msg2:4
23 t3 receive.done = 2
24 t3 drop -tmp3:5
25 t3 read.piece
26 t3 read.piece = 66
27 t3 peek.do = 1
28 t3 peek.do = 0
29 t3 peek.do = 7
30 t3 peek.do = 7
31 t3 peek.do = 9
objects
0 process kernel 1
1 thread supervisor 1 live
2 process p 2
3 thread sv 1 live
4 thread c 2 live
5 server files 3
6 session - 3
end
";

/// Three clients of one server, each with a call, a send and a close; all threads end.
pub const LOAD_SCRIPT: &str =
    "eka2 1\nidfc w device d0 0\nirq 0 idfc w\nprocess fs\nthread sv 30\nserver files r0\nreceive r0 m0\ncomplete m0 0\nreceive r0 m0\ncomplete m0 0\nreceive r0 m0\ncomplete m0 0\nreceive r0 m0\ncomplete m0 0\nreceive r0 m0\ncomplete m0 0\nreceive r0 m0\ncomplete m0 0\nreceive r0 m0\ncomplete m0 0\nreceive r0 m0\ncomplete m0 0\nreceive r0 m0\ncomplete m0 0\nreceive r0 m0\ncomplete m0 0\nreceive r0 m0\ncomplete m0 0\nreceive r0 m0\ncomplete m0 0\nprocess pa\nthread a 12\nconnect files 2 r0\nfill 0 16 65\ncall r0 1 d:0:16:16 0 0 0\nsend r0 2 s0 0 0 0 0\nwaitfor s0\nclose r0\nrequest d0 s1\nwaitfor s1\nprocess pb\nthread b 11\nconnect files 2 r0\nfill 0 16 65\ncall r0 1 d:0:16:16 0 0 0\nsend r0 2 s0 0 0 0 0\nwaitfor s0\nclose r0\nprocess pc\nthread c 10\nconnect files 2 r0\nfill 0 16 65\ncall r0 1 d:0:16:16 0 0 0\nsend r0 2 s0 0 0 0 0\nwaitfor s0\nclose r0\nschedule\ngo 2000\nirq 0\ngo 1999\nend\n";

/// What is left at its end.
pub const LOAD_LEFT: &[u8] = b"objects\n0 process kernel 1\n1 thread supervisor 1 live\nend\n";
