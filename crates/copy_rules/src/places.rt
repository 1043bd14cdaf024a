//! Where the bytes of a piece are.
ghost use Rattle.std.specs.Prelude.{◌≡◌, ◌+◌, ◌^◌, ◌<◌};
ghost use Rattle.copy_rules.specs.Refusals.{start_of};
ghost use Rattle.copy_rules.specs.Pieces.{caller_place, client_place};

use crate::ends::Ends;
use crate::job::{Job, Place};
use crate::refusals::start_of;

/// Where the bytes of the next piece are in the memory of the client's process.
pub fn client_place(ends: &Ends, job: &Job) -> Place
    requires { start_of ends.now.argument + job.now.offset + job.now.done < 2 ^ 16 }
    ensures { result ≡ client_place ends.now job.now }
{
    Place {
        process: ends.client,
        at: start_of(ends.argument) + job.offset + job.done,
    }
}

/// Where the bytes of the next piece are in the memory of the caller's process.
pub fn caller_place(ends: &Ends, job: &Job) -> Place
    requires { job.now.at + job.now.done < 2 ^ 16 }
    ensures { result ≡ caller_place ends.now job.now }
{
    Place {
        process: ends.caller,
        at: job.at + job.done,
    }
}
