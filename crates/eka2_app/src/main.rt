//! The command `eka2`: runs scripts on the kernel model, by one caller or by workers that share it, and prints their
//! histories and the objects that are left, checks histories, and makes scripts.
#![tactic(auto)]

#[cfg(test)]
mod check_tests;
#[cfg(test)]
mod fault_tests;
mod gate;
#[cfg(test)]
mod made_tests;
#[cfg(test)]
mod run_tests;
#[cfg(test)]
mod runs;
#[cfg(test)]
mod sharing_tests;
mod status;
#[cfg(test)]
mod storm_tests;
mod top;
mod words;

use edge_io::{StdSink, StdSource};
use gate::OpenGate;
use std::process::ExitCode;

/// Runs the command's words over standard input and output. A status other than Done is told by one
/// line on standard error, and is the number that the process ends with.
fn main(rt: HostRuntime) -> ExitCode {
    let mut source = StdSource::new(rt.stdin());
    let mut sink = StdSink::new(rt.stdout());
    let status = match words::given_words(&rt, rt.alloc()) {
        Ok(words) => top::eka2_main(
            &rt,
            rt.alloc(),
            words.as_slice(),
            &mut source,
            &mut sink,
            &OpenGate,
        ),
        Err(status) => status,
    };
    if let Some(message) = status.message() {
        let _ = eprintln!(rt; "eka2: {message}");
    }
    ExitCode::from(status.number())
}
