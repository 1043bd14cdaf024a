//! Why a script is refused.
ghost use Rattle.std.specs.Prelude.{◌≡◌, ◌≤◌, length};

use std::fmt;

/// What is wrong with the first bad line of a script. The reasons are tried in this order. They are this
/// project's own.
#[derive(Clone, Copy, Debug, PartialEq, Eq)]
pub enum Reason {
    /// A byte of the line isn't 32 to 126.
    Byte,
    /// The line has more than 200 bytes.
    Long,
    /// The first word begins no line.
    Word,
    /// The line may not stand here.
    Order,
    /// The number of words isn't the line's.
    Count,
    /// A word hasn't the form of its place.
    Form,
    /// A number is outside its range.
    Range,
    /// An instruction of kernel threads stands in a thread of a process.
    Kind,
    /// An earlier line declared this already.
    Twice,
    /// No line declares what is named.
    Unknown,
    /// The line passes a limit of the kernel's tables.
    Limit,
    /// The file ends without its last line.
    End,
}

impl Reason {
    ghost use Rattle.script_read.specs.Refusal.{reason_word};

    /// The word that a refusal has for the reason.
    pub fn word(&self) -> &'static str
        ensures word { result.now ≡ reason_word self.now }
        ensures short { length result.now ≤ 7 }
    {
        match self {
            Reason::Byte => "byte",
            Reason::Long => "long",
            Reason::Word => "word",
            Reason::Order => "order",
            Reason::Count => "count",
            Reason::Form => "form",
            Reason::Range => "range",
            Reason::Kind => "kind",
            Reason::Twice => "twice",
            Reason::Unknown => "unknown",
            Reason::Limit => "limit",
            Reason::End => "end",
        }
    }
}

impl fmt::Display for Reason {
    ghost use Rattle.std.specs.Prelude.{Some};
    ghost use Rattle.script_read.specs.Refusal.{reason_word};

    ghost output = { λ reason. Some (reason_word reason) };

    fn fmt<W: fmt::Write>(&self, f: &mut fmt::Formatter<W>) -> fmt::Result {
        f.write_str(self.word())
    }
}
