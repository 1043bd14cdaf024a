//! Handles, and an object that dies between its find and its open.

/// A thread makes a mutex with two handles, closes both, and ends.
pub const HANDLES_SCRIPT: &str =
    "eka2 1\nprocess p\nthread a 10\ncreate mutex m r0\ndup r0 r1\nclose r0\nclose r1\nclose r1\nschedule\ngo 16\nend\n";

/// Its history.
pub const HANDLES_HISTORY: &str = "\
1 t3 create.do +p2.0:4 = 65536
2 t3 dup.look +tmp3:4
3 t3 dup.do +p2.1:4 = 65537
4 t3 drop -tmp3:4
5 t3 close.do -p2.0:4 = 0
6 t3 close.do -p2.1:4 dead:4 = 0
7 t3 sweep swept:4
8 t3 close.do = -8
9 t3 end doom:3
10 t3 clean
11 t1 bury bury:3
12 t1 drop -krn:3 dead:3
13 t1 drop -lnk3:2 dead:2
14 t1 sweep swept:3
15 t1 sweep swept:2
16 idle wait
objects
0 process kernel 1
1 thread supervisor 1 live
end
";

/// An object dies between its find and its open, and its last close and its sweep stand apart.
pub const DYING_OBJECT_SCRIPT: &str =
    "eka2 1\nprocess p\nthread a 10\ncreate mutex m r0\nclose r0\nthread b 10\nopen mutex m r1\nschedule\ngo 1\ntick\ngo 1\ntick\ngo 1\ntick\ngo 1\ntick\ngo 1\nend\n";

/// Its history.
pub const DYING_OBJECT_HISTORY: &str = "\
1 t3 create.do +p2.0:5 = 65536
2 tick turn
3 t4 open.seek seek:5
4 tick turn
5 t3 close.do -p2.0:5 dead:5 = 0
6 tick turn
7 t4 open.return missed:5 = -1
8 tick turn
9 t3 sweep swept:5
objects
0 process kernel 1
1 thread supervisor 1 live
2 process p 2
3 thread a 1 live
4 thread b 1 live
end
";

/// Two threads that find one object, in two slots.
pub const FINDS_SCRIPT: &str =
    "eka2 1\nprocess p\nthread a 10\nopen process p r0\nthread b 10\nopen process p r0\nschedule\ngo 2\nend\n";

/// What one worker makes of it: it opens what it found before it draws again.
pub const FINDS_HISTORY: &str = "\
1 t3 open.seek seek:2
2 t3 open.return +tmp3:2
3 t4 open.seek seek:2
4 t4 open.return +tmp4:2
objects
0 process kernel 1
1 thread supervisor 1 live
2 process p 4
3 thread a 1 live
4 thread b 1 live
end
";
