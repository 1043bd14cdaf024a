//! What the tables say of the two ends of a copy.
ghost use Rattle.std.specs.Prelude.{◌≡◌, ◌<◌, IsTrue};
ghost use Rattle.state_rows.specs.MessageRows.{is_taken};
ghost use Rattle.copy_rules.specs.Ends.{ends_of};

use copy_rules::{Ends, Job, argument_of, process_of, stage_of};
use messages::Messages;
use procs::Procs;

/// The two ends of a copy that a message names which was taken.
pub fn ends_of(procs: &Procs, messages: &Messages, job: &Job) -> Ends
    requires taken { IsTrue (is_taken messages.now job.now.m) }
    requires arg { job.now.arg < 4 }
    ensures { result ≡ ends_of procs.now.threads messages.now job.now }
{
    let Some(row) = messages.row(job.m) else {
        unreachable!();
    };
    let client = procs.thread(row.client);
    let caller = procs.thread(job.caller);
    Ends {
        stage: stage_of(client),
        client: process_of(client),
        argument: argument_of(&row, job.arg),
        caller: process_of(caller),
    }
}
