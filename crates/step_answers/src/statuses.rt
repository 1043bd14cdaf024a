//! The statuses of requests, and the waits for them.
ghost use Rattle.std.specs.Prelude.{◌≡◌, [], ◌∷◌, if◌then◌else◌};
ghost use Rattle.machine.specs.Bodies.{ends_wait, end_wait};
ghost use Rattle.machine.specs.declared.moves.Move.TheVariants.{Wake};
ghost use Rattle.state_rows.specs.Requests.{is_pending};

use machine::{ThreadRow, Waiting};
use readings::Reads;
use state_rows::PENDING;
use sym_base::ThreadNo;

/// Whether a thread's status waits for its completion.
pub fn is_pending<R: Reads>(reads: &R, thread: ThreadNo, status: u8) -> bool
    ensures { result ≡ is_pending (R.state reads.now).synchronization.requests thread status }
{
    reads.value_of(thread, status) == PENDING
}

/// Whether a thread's wait ends when one of its statuses is completed.
pub fn ends_wait<R: Reads>(reads: &R, thread: ThreadNo, status: u8, waiting: Waiting) -> bool
    ensures { result ≡ ends_wait (R.state reads.now) thread status waiting }
{
    match waiting {
        Waiting::Any => true,
        Waiting::Status(other) => other == status || !is_pending(reads, thread, other),
        _ => false,
    }
}

/// Whether the wait of the thread of this row ends then.
pub fn is_woken<R: Reads>(reads: &R, thread: ThreadNo, status: u8, row: Option<ThreadRow>) -> bool
    ensures { end_wait (R.state reads.now) thread status row ≡ (if result then Wake thread ∷ [] else []) }
{
    match row {
        Some(row) => ends_wait(reads, thread, status, row.waiting),
        None => false,
    }
}
