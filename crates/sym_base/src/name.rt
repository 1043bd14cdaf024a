//! Names of objects and categories of panics.
ghost use Rattle.std.specs.Prelude.{◌≡◌, ◌≤◌, length, IsTrue};
ghost use Rattle.std.specs.List.{list_all};
ghost use Rattle.std.specs.Cmp.Lexicographic.{slice_cmp};
ghost use Rattle.std.specs.Ordering.{nat_cmp};
ghost use Rattle.std.specs.Str.{bytes_eq};
ghost use Rattle.sym_base.specs.NameText.{name_byte, name_of};

use std::cmp::Ordering;
use std::marker::Model;

/// The most bytes that a name has.
pub const MAX_NAME: usize = 16;

/// A name: 1 to 16 bytes, each a letter, a digit, `_` or `-`. It is empty where there is none, as in
/// the row of a session. A contract sees the list of its bytes.
#[derive(Clone, Copy)]
pub struct Name {
    bytes: [u8; 16],
    len: u8,
}

impl Model for Name {
    ghost use Rattle.std.specs.Prelude.{ℕ, List, ◌++◌, ◌-◌, length, take, replicate};

    ghost Value = { List ℕ };

    ghost use Rattle.sym_base.specs.Padded.{IsPadded, padded_again};

    ghost view = { λ a. take a.len a.bytes };

    ghost invariant = { λ a. IsPadded a.bytes a.len };

    ghost inverse = { λ text. record { bytes = text ++ replicate (16 - length text) 0; len = length text } };

    ghost inverse_ok = { λ a h. padded_again a h };
}

impl Name {
    /// No name, as a session has.
    pub const EMPTY: Name = Name {
        bytes: [0; 16],
        len: 0,
    };

    /// The bytes of the name.
    pub fn as_slice(&self) -> &[u8]
        ensures bytes { result.now ≡ self.now }
        ensures text { IsTrue (list_all name_byte self.now) }
        ensures short { length self.now ≤ 16 }
    {
        &self.bytes[..self.len as usize]
    }

    /// Whether two names have the same bytes.
    pub fn is(&self, other: &Name) -> bool
        ensures { result ≡ bytes_eq self.now other.now }
    {
        self.as_slice() == other.as_slice()
    }

    /// How two names stand in order, byte by byte. A name's bytes and the zeros behind them are one number of 128 bits.
    pub fn order(&self, other: &Name) -> Ordering
        ensures { result ≡ slice_cmp nat_cmp self.now other.now }
    {
        u128::from_be_bytes(self.bytes).cmp(&u128::from_be_bytes(other.bytes))
    }
}

/// Whether a byte may stand in a name.
fn is_name_byte(byte: u8) -> bool
    ensures { result ≡ name_byte byte }
{
    byte.is_ascii_alphanumeric() || byte == b'_' || byte == b'-'
}

/// Whether each byte of a word may stand in a name.
fn is_name_text(word: &[u8]) -> bool
    ensures { result ≡ list_all name_byte word.now }
{
    word.iter().all(|byte| is_name_byte(*byte))
}

/// The name that a word spells: 1 to 16 letters, digits, `_` and `-`. None exactly for another word.
pub fn read_name(word: &[u8]) -> Option<Name>
    ensures { result ≡ name_of word.now }
{
    if word.is_empty() || word.len() > MAX_NAME || !is_name_text(word) {
        return None;
    }
    Some(padded(word))
}

/// A name with these bytes.
fn padded(word: &[u8]) -> Name
    requires text { IsTrue (list_all name_byte word.now) }
    requires short { length word.now ≤ 16 }
    ensures { result ≡ word.now }
{
    let mut bytes = [0; 16];
    bytes[..word.len()].copy_from_slice(word);
    Name {
        bytes,
        len: word.len() as u8,
    }
}
