//! A line that is being written.
ghost use Rattle.std.specs.Prelude.{◌≡◌, ◌+◌, ◌<◌, ◌≤◌, [], ◌∷◌, ◌++◌, length, take};

use std::marker::Model;

/// The bytes of a line, of which there are at most 512, its LF among them. A contract sees their list.
/// Nothing is written when it gets shorter, so that one line is made of another without cost.
#[derive(Drop)]
pub struct Line {
    bytes: [u8; 512],
    len: usize,
}

impl Model for Line {
    ghost use Rattle.std.specs.Prelude.{◌≡◌, ◌≤◌, ℕ, length, take};
    ghost use Rattle.arrayvec.specs.ArrayVec.{ArrayVec as Items};

    ghost Value = { Items ℕ };

    ghost view = { λ l. record { items = take l.len l.bytes } };

    ghost invariant = { λ l. (l.len ≤ 512) × (length l.bytes ≡ 512) };
}

impl Line {
    /// An empty line.
    pub fn new() -> Self
        ensures { result.items ≡ [] }
    {
        Line {
            bytes: [0; 512],
            len: 0,
        }
    }

    /// The bytes.
    pub fn as_slice(&self) -> &[u8]
        ensures bytes { result.now ≡ self.now.items }
        ensures short { length self.now.items ≤ 512 }
    {
        &self.bytes[..self.len]
    }

    /// How many there are.
    pub fn len(&self) -> usize
        ensures { result ≡ length self.now.items }
    {
        self.len
    }

    /// Adds a byte.
    pub(super) fn push(&mut self, byte: u8)
        requires { length self.old.items < 512 }
        ensures items { self.new.items ≡ self.old.items ++ byte ∷ [] }
    {
        let len = self.len;
        self.bytes[len] = byte;
        self.len = len + 1;
    }

    /// Keeps the first bytes alone.
    pub(super) fn keep(&mut self, len: usize)
        requires { len ≤ length self.old.items }
        ensures { self.new.items ≡ take len self.old.items }
    {
        self.len = len;
    }
}

/// Adds a byte.
pub fn put_byte(line: &mut Line, byte: u8)
    requires { length line.old.items + 1 ≤ 512 }
    ensures { line.new.items ≡ line.old.items ++ byte ∷ [] }
{
    line.push(byte);
}

/// Adds a piece that fits.
pub fn put(line: &mut Line, piece: &[u8])
    requires { length line.old.items + length piece.now ≤ 512 }
    ensures { line.new.items ≡ line.old.items ++ piece.now }
{
    for byte in piece {
        line.push(*byte);
    }
}

/// Adds a few letters that fit.
pub fn put_letters<const N: usize>(line: &mut Line, letters: &[u8; N])
    requires { length line.old.items + length letters.now ≤ 512 }
    ensures { line.new.items ≡ line.old.items ++ letters.now }
{
    for letter in letters {
        line.push(*letter);
    }
}

/// Adds a piece that fits. Pieces of two to nine bytes, as words are, cost no call.
pub fn put_short(line: &mut Line, piece: &[u8])
    requires { length line.old.items + length piece.now ≤ 512 }
    ensures { line.new.items ≡ line.old.items ++ piece.now }
{
    match piece {
        [a, b] => put_letters(line, &[*a, *b]),
        [a, b, c] => put_letters(line, &[*a, *b, *c]),
        [a, b, c, d] => put_letters(line, &[*a, *b, *c, *d]),
        [a, b, c, d, e] => put_letters(line, &[*a, *b, *c, *d, *e]),
        [a, b, c, d, e, f] => put_letters(line, &[*a, *b, *c, *d, *e, *f]),
        [a, b, c, d, e, f, g] => put_letters(line, &[*a, *b, *c, *d, *e, *f, *g]),
        [a, b, c, d, e, f, g, h] => put_letters(line, &[*a, *b, *c, *d, *e, *f, *g, *h]),
        [a, b, c, d, e, f, g, h, i] => put_letters(line, &[*a, *b, *c, *d, *e, *f, *g, *h, *i]),
        _ => put(line, piece),
    }
}
