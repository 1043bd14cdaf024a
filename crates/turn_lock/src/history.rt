//! What a lock knows of the value that it keeps.
ghost use Rattle.std.specs.Prelude.{List};
ghost use Rattle.entry_log.specs.declared.entry.Entry.{Entry};

/// A value that keeps its own history: a list of entries, and a base that never changes. A kernel's base is
/// its script. What a lock promises of its value, it promises of these two. The trait is this project's own.
pub trait History {
    /// What the value was made from.
    type Base;

    /// The entries that were made in the value so far.
    ghost entries: { Self → List Entry };

    /// What never changes of it.
    ghost base: { Self → Self.Base };
}
