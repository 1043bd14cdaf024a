//! Printing what was read.
use crate::same::{expect_same, expect_that};
use script_print::print_script;
use script_read::{ReadScript, read_script};
use std::alloc::Global;

/// A script with comments, empty lines, further spaces and neighbouring runs of slots, and without its
/// last line feed.
const SPACED: &str =
    "# two processes\n\neka2   1\n process  p\nthread a 10\n create mutex m r0\n   \ndup  r0  r1 \nthread b 5\nopen mutex m r2\nprocess q\n# the last\nthread c 63\nclose r7\nschedule\n go 2\ngo 3\ntick\ntick\ngo 1\nend";

/// Its canonical text.
const CANONICAL: &str =
    "eka2 1\nprocess p\nthread a 10\ncreate mutex m r0\ndup r0 r1\nthread b 5\nopen mutex m r2\nprocess q\nthread c 63\nclose r7\nschedule\ngo 5\ntick\ntick\ngo 1\nend\n";

/// Whether this is the canonical text of what a text is accepted as.
fn is_canonical(alloc: Global, text: &str, wanted: &str) -> bool {
    if text.len() > 4096 {
        return false;
    }
    let ReadScript::Script(script) = read_script(alloc, text.as_bytes()) else {
        return false;
    };
    match print_script(alloc, &script) {
        Ok(printed) => printed.as_slice() == wanted.as_bytes(),
        Err(_) => false,
    }
}

#[test]
fn prints_a_script(rt: HostRuntime) {
    expect_that(&rt, is_canonical(rt.alloc(), SPACED, CANONICAL));
    expect_that(&rt, is_canonical(rt.alloc(), CANONICAL, CANONICAL));
    expect_that(
        &rt,
        is_canonical(rt.alloc(), "eka2 1\nschedule\nend\n", "eka2 1\nend\n"),
    );
    expect_that(
        &rt,
        is_canonical(rt.alloc(), " eka2  2\nend", "eka2 2\nend\n"),
    );
}

/// The version of a short text's script. None where it has no script.
fn version_of(alloc: Global, text: &str) -> Option<u8> {
    if text.len() > 4096 {
        return None;
    }
    match read_script(alloc, text.as_bytes()) {
        ReadScript::Script(script) => Some(script.version),
        _ => None,
    }
}

#[test]
fn reads_each_version(rt: HostRuntime) {
    expect_same(&rt, version_of(rt.alloc(), "eka2 1\nend\n"), Some(1));
    expect_same(&rt, version_of(rt.alloc(), "eka2 2\nend\n"), Some(2));
}
