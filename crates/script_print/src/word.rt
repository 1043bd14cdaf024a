//! Words, as they are printed.
ghost use Rattle.std.specs.Fmt.{signed_decimal};
ghost use Rattle.std.specs.List.{flat_map};
ghost use Rattle.std.specs.Prelude.{◌≡◌, [], ◌∷◌, ◌++◌, decimal, map, OnOk};
ghost use Rattle.script_print.specs.CanonicalText.{spaced};
ghost use Rattle.script_types.specs.Keywords.{keyword_text};
ghost use Rattle.script_print.specs.PrintedWord.{word_text};
ghost use Rattle.script_types.specs.Operands.{kind_word, slots_word, arg_word};

use itoa::Buffer;
use script_words::Keyword;
use sym_base::{Arg, Kind, Name, NoMemory, Slots};

/// A word of a printed line.
#[derive(Clone, Copy)]
pub enum Word {
    /// A word that also begins a line.
    Key(Keyword),
    /// `device`, which begins an operation alone.
    Device,
    /// `held`: the thread starts suspended.
    Held,
    /// `;`: another operation follows.
    Next,
    /// A name, or the category of a panic.
    Named(Name),
    /// The kind of an object.
    Kinded(Kind),
    /// A number without a sign.
    Number(u64),
    /// A number that may have a sign.
    Code(i32),
    /// A register, as `r0`.
    Register(u8),
    /// A register of a message, as `m0`.
    Message(u8),
    /// A status, as `s0`.
    Status(u8),
    /// A device, as `d0`.
    DeviceNumber(u8),
    /// A fast mutex, as `f0`.
    FastMutex(u8),
    /// The slots of a session: their number, or `pool`.
    Slotted(Slots),
    /// An argument of a message.
    Argument(Arg),
}

/// Adds bytes to a text.
pub fn put(out: &mut Vec<u8>, bytes: &[u8]) -> Result<(), NoMemory>
    ensures { OnOk result (out.new.items ≡ out.old.items ++ bytes.now) }
{
    out.extend_from_slice(bytes)?;
    Ok(())
}

/// Adds a number without a sign.
fn put_number(out: &mut Vec<u8>, number: u64) -> Result<(), NoMemory>
    ensures { OnOk result (out.new.items ≡ out.old.items ++ decimal number) }
{
    let mut digits = Buffer::new();
    put(out, digits.format(number).as_bytes())
}

/// Adds a number that may have a sign.
fn put_code(out: &mut Vec<u8>, number: i32) -> Result<(), NoMemory>
    ensures { OnOk result (out.new.items ≡ out.old.items ++ signed_decimal number) }
{
    let mut digits = Buffer::new();
    put(out, digits.format(number).as_bytes())
}

/// Adds a letter and a number behind it.
#[tactic(auto, using(std::proofs::Common::append_assoc))]
fn put_lettered(out: &mut Vec<u8>, letter: u8, number: u8) -> Result<(), NoMemory>
    ensures { OnOk result (out.new.items ≡ out.old.items ++ letter ∷ decimal number) }
{
    put(out, &[letter])?;
    put_number(out, u64::from(number))
}

/// Adds the word of a kind.
fn put_kind(out: &mut Vec<u8>, kind: Kind) -> Result<(), NoMemory>
    ensures { OnOk result (out.new.items ≡ out.old.items ++ kind_word kind) }
{
    match kind {
        Kind::Process => put(out, b"process"),
        Kind::Thread => put(out, b"thread"),
        Kind::Mutex => put(out, b"mutex"),
        Kind::Semaphore => put(out, b"semaphore"),
        Kind::Server => put(out, b"server"),
        Kind::Session => put(out, b"session"),
    }
}

/// Adds the slots of a session.
fn put_slots(out: &mut Vec<u8>, slots: Slots) -> Result<(), NoMemory>
    ensures { OnOk result (out.new.items ≡ out.old.items ++ slots_word slots) }
{
    match slots {
        Slots::Own(count) => put_number(out, u64::from(count)),
        Slots::Pool => put(out, b"pool"),
    }
}

/// Adds an argument of a message.
fn put_argument(out: &mut Vec<u8>, argument: Arg) -> Result<(), NoMemory>
    ensures { OnOk result (out.new.items ≡ out.old.items ++ arg_word argument) }
{
    match argument {
        Arg::Number(number) => put_code(out, number),
        Arg::Descriptor {
            offset,
            length,
            max,
        } => {
            put(out, b"d:")?;
            put_number(out, u64::from(offset))?;
            put(out, b":")?;
            put_number(out, u64::from(length))?;
            put(out, b":")?;
            put_number(out, u64::from(max))
        }
    }
}

/// Adds a word.
fn put_word(out: &mut Vec<u8>, word: Word) -> Result<(), NoMemory>
    ensures { OnOk result (out.new.items ≡ out.old.items ++ word_text word) }
{
    match word {
        Word::Key(keyword) => put(out, keyword.text()),
        Word::Device => put(out, b"device"),
        Word::Held => put(out, b"held"),
        Word::Next => put(out, b";"),
        Word::Named(name) => put(out, name.as_slice()),
        Word::Kinded(kind) => put_kind(out, kind),
        Word::Number(number) => put_number(out, number),
        Word::Code(number) => put_code(out, number),
        Word::Register(number) => put_lettered(out, b'r', number),
        Word::Message(number) => put_lettered(out, b'm', number),
        Word::Status(number) => put_lettered(out, b's', number),
        Word::DeviceNumber(number) => put_lettered(out, b'd', number),
        Word::FastMutex(number) => put_lettered(out, b'f', number),
        Word::Slotted(slots) => put_slots(out, slots),
        Word::Argument(argument) => put_argument(out, argument),
    }
}

/// Adds words, with a space before each.
pub fn put_words(out: &mut Vec<u8>, words: &[Word]) -> Result<(), NoMemory>
    ensures { OnOk result (out.new.items ≡ out.old.items ++ flat_map (λ word. 32 ∷ word) (map word_text words.now)) }
{
    for word in words {
        put(out, b" ")?;
        put_word(out, *word)?;
    }
    Ok(())
}

/// Adds the front of a line, which begins with this word.
pub fn put_front(out: &mut Vec<u8>, first: Keyword, words: &[Word]) -> Result<(), NoMemory>
    ensures { OnOk result (out.new.items ≡ out.old.items ++ spaced (keyword_text first ∷ map word_text words.now)) }
{
    put(out, first.text())?;
    put_words(out, words)
}

/// Ends a line.
pub fn put_end(out: &mut Vec<u8>) -> Result<(), NoMemory>
    ensures { OnOk result (out.new.items ≡ out.old.items ++ 10 ∷ []) }
{
    put(out, b"\n")
}

/// Adds a line, which begins with this word.
pub fn put_line(out: &mut Vec<u8>, first: Keyword, words: &[Word]) -> Result<(), NoMemory>
    ensures { OnOk result (out.new.items ≡ out.old.items ++ (spaced (keyword_text first ∷ map word_text words.now) ++ 10 ∷ [])) }
{
    put_front(out, first, words)?;
    put_end(out)
}
