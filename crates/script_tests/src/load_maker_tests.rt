//! Scripts that were made, against what was worked out apart from the program.
use crate::same::expect_same;
use load_maker::make_script;
use script_print::print_script;

/// The first lines of seed 7 and three rounds.
const HEAD: &str = "eka2 1\nprocess fs\nthread sv 30\nserver files r0\n";

/// A message that the server serves. There are 14: of the rounds drawn, six send one.
const SERVED: &str = "receive r0 m0\ncomplete m0 0\n";

const MESSAGES: usize = 14;

/// The clients and the schedule.
const CLIENTS: [&str; 5] = [
    "process p0\nthread c0 10\nconnect files 3 r0\nfill 0 64 0\nsend r0 2 s0 0 0 0 0\nwaitfor s0\nsend r0 2 s0 0 0 0 0\nwaitfor s0\n",
    "process p1\nthread c1 11\nconnect files 2 r0\nfill 0 64 0\ncall r0 1 0 0 0 0\ncall r0 1 0 0 0 0\n",
    "process p2\nthread c2 12\nconnect files 2 r0\ncreate mutex x2 r1\nclose r1\nfill 0 64 1\nfill 0 64 2\n",
    "process p3\nthread c3 13\nconnect files 3 r0\ncall r0 1 0 0 0 0\nsend r0 2 s0 0 0 0 0\nwaitfor s0\ncreate mutex x3 r1\nclose r1\n",
    "schedule\ngo 380\nend\n",
];

#[test]
fn seed_7_with_3_rounds(rt: HostRuntime) {
    let mut wanted = HEAD.as_bytes().to_vec(rt.alloc()).expect(&rt, "memory");
    for _ in 0..MESSAGES {
        wanted
            .extend_from_slice(SERVED.as_bytes())
            .expect(&rt, "memory");
    }
    for client in &CLIENTS {
        wanted
            .extend_from_slice(client.as_bytes())
            .expect(&rt, "memory");
    }
    let script = make_script(rt.alloc(), 7, 3).expect(&rt, "memory");
    expect_same(
        &rt,
        print_script(rt.alloc(), &script)
            .expect(&rt, "memory")
            .as_slice(),
        wanted.as_slice(),
    );
}

/// Of 400 rounds drawn from seed 7, 199 send a message, so that with those of connections the server serves 207.
#[test]
fn seed_7_with_100_rounds(rt: HostRuntime) {
    let script = make_script(rt.alloc(), 7, 100).expect(&rt, "memory");
    expect_same(&rt, script.slots.len(), 6200);
    let threads = script.threads.as_slice();
    assert_eq!(rt; threads.len(), 5);
    expect_same(&rt, threads[0].instrs.len(), 1 + 2 * 207);
}
