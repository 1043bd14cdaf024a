//! The first words of lines.
ghost use Rattle.std.specs.Prelude.{◌≡◌};
ghost use Rattle.script_types.specs.Keywords.{keyword_text};

use sym_base::Word;

/// A word that begins a line of a script: a declaration's, the schedule's, or an instruction's. The lines
/// are this project's own.
#[derive(Clone, Copy)]
pub enum Keyword {
    Eka2,
    Pool,
    Fast,
    Dfcq,
    Dfc,
    Idfc,
    Irq,
    Kthread,
    Process,
    Thread,
    Schedule,
    Go,
    Tick,
    End,
    /// The word of an instruction.
    Instr(Word),
}

impl Keyword {
    /// The word itself.
    pub fn text(self) -> &'static [u8]
        ensures { result.now ≡ keyword_text self }
    {
        match self {
            Keyword::Eka2 => b"eka2",
            Keyword::Pool => b"pool",
            Keyword::Fast => b"fast",
            Keyword::Dfcq => b"dfcq",
            Keyword::Dfc => b"dfc",
            Keyword::Idfc => b"idfc",
            Keyword::Irq => b"irq",
            Keyword::Kthread => b"kthread",
            Keyword::Process => b"process",
            Keyword::Thread => b"thread",
            Keyword::Schedule => b"schedule",
            Keyword::Go => b"go",
            Keyword::Tick => b"tick",
            Keyword::End => b"end",
            Keyword::Instr(word) => word.text(),
        }
    }
}
