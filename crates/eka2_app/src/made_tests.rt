//! Scripts that are made from a number, and printed or run.
use crate::runs::{Case, Ends, STEADY, WELL, expect_cases, expect_usage};
use crate::status::Status;

/// The script of the greatest seed with one round, worked out apart from the program.
const MADE: &str = "\
eka2 1
process fs
thread sv 30
server files r0
receive r0 m0
complete m0 0
receive r0 m0
complete m0 0
receive r0 m0
complete m0 0
receive r0 m0
complete m0 0
receive r0 m0
complete m0 0
receive r0 m0
complete m0 0
receive r0 m0
complete m0 0
receive r0 m0
complete m0 0
process p0
thread c0 10
connect files 2 r0
fill 0 64 0
process p1
thread c1 11
connect files 2 r0
create mutex x1 r1
close r1
process p2
thread c2 12
connect files 1 r0
fill 0 64 0
process p3
thread c3 13
connect files 1 r0
fill 0 64 0
schedule
go 260
end
";

/// The line of the script of seed 7 with one round, worked out apart from the program: eight connections and
/// disconnections, and two calls.
const LOADED: &str = "slots 260 entries 260 accepted 10 finished 10 objects 2\n";

/// The case of a script that is made.
pub const MAKE: Case<'static> = Case {
    words: &["make", "18446744073709551615", "1"],
    script: "",
    written: MADE,
    ..WELL
};

/// The case of a made script that is loaded.
pub const LOAD: Case<'static> = Case {
    words: &["load", "7", "1"],
    written: LOADED,
    ..MAKE
};

/// Both, and a write of each that fails.
const CASES: [Case<'static>; 4] = [
    MAKE,
    LOAD,
    Case {
        ends: Ends {
            failing_write: 3,
            ..STEADY
        },
        status: Status::WriteFault,
        written: "eka2 1\nprocess fs\n",
        ..MAKE
    },
    Case {
        ends: Ends {
            failing_write: 1,
            ..STEADY
        },
        status: Status::WriteFault,
        written: "",
        ..LOAD
    },
];

#[test]
fn scripts_are_made_and_loaded(rt: HostRuntime) {
    expect_cases(&rt, rt.alloc(), &CASES);
}

#[test]
fn numbers_are_canonical_and_in_range(rt: HostRuntime) {
    let wrong: [[&str; 2]; 9] = [
        ["1", "501"],
        ["1", "0"],
        ["01", "1"],
        ["1", "01"],
        ["+1", "1"],
        ["-1", "1"],
        ["", "1"],
        ["18446744073709551616", "1"],
        ["1", "4294967297"],
    ];
    for [seed, size] in &wrong {
        expect_usage(&rt, rt.alloc(), &["make", seed, size]);
    }
}
