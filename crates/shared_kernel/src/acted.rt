//! What came of an action.
ghost use Rattle.std.specs.Prelude.{◌≡◌};
ghost use Rattle.shared_kernel.specs.Acts.{did_of, drew_of};

use crate::answers::{Did, Drew};
use count_rule::Ticket;
use sym_base::ThreadNo;

/// What came of an action: an entry at a place, which may tell of a find.
#[derive(Drop)]
pub(crate) enum Acted {
    Entry {
        place: u32,
    },
    Seek {
        place: u32,
        thread: ThreadNo,
        ticket: Ticket,
    },
}

impl Acted {
    /// As a caller is told it who asked for the action.
    pub(crate) fn did(self) -> Did
        ensures { result ≡ did_of self }
    {
        match self {
            Acted::Entry { place } => Did::Entry { place },
            Acted::Seek {
                place,
                thread,
                ticket,
            } => Did::Seek {
                place,
                thread,
                ticket,
            },
        }
    }

    /// As a caller is told it who drew a slot.
    pub(crate) fn drew(self) -> Drew
        ensures { result ≡ drew_of self }
    {
        match self {
            Acted::Entry { place } => Drew::Entry { place },
            Acted::Seek {
                place,
                thread,
                ticket,
            } => Drew::Seek {
                place,
                thread,
                ticket,
            },
        }
    }
}
