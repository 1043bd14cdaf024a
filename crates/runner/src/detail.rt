//! How much of a history is written.
ghost use Rattle.std.specs.Prelude.{◌≡◌};
ghost use Rattle.runner.specs.RunText.{shows};

use entry_log::Entry;

/// How much of a history is written.
#[derive(Clone, Copy)]
pub enum Detail {
    /// Each entry.
    Whole,
    /// The entries that have an answer.
    Brief,
}

impl Detail {
    /// Whether an entry is written.
    pub fn shows(self, entry: &Entry) -> bool
        ensures { result ≡ shows self entry.now }
    {
        match self {
            Detail::Whole => true,
            Detail::Brief => entry.answer.is_some(),
        }
    }
}
