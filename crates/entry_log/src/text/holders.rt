//! The text of the holder of a reference.
ghost use Rattle.std.specs.Prelude.{◌≡◌, ◌+◌, ◌≤◌, [], ◌∷◌, ◌++◌, length, decimal};
ghost use Rattle.entry_log.specs.HolderText.{holder_text};
ghost use Rattle.entry_log.specs.Joined.{joined};

use super::line::{Line, put_byte, put_letters};
use super::numbers::{put_u8, put_u16, put_u32};
use crate::Holder;

/// Adds `LETTERS NUMBER`, without the space.
fn put_numbered<const N: usize>(line: &mut Line, letters: &[u8; N], number: u32)
    requires { length line.old.items + length letters.now + 10 ≤ 512 }
    ensures text { line.new.items ≡ line.old.items ++ (letters.now ++ decimal number) }
    ensures short { length line.new.items ≤ length line.old.items + length letters.now + 10 }
{
    put_letters(line, letters);
    put_u32(line, number);
}

/// Adds the handle at an index of a table, as `p2.0`.
fn put_handle(line: &mut Line, letter: u8, owner: u16, index: u8)
    requires { length line.old.items + 10 ≤ 512 }
    ensures text { line.new.items
        ≡ line.old.items ++ joined 46 ((letter ∷ decimal owner) ∷ decimal index ∷ []) }
    ensures short { length line.new.items ≤ length line.old.items + 10 }
{
    put_byte(line, letter);
    put_u16(line, owner);
    put_byte(line, b'.');
    put_u8(line, index);
}

/// Adds a holder, at most 13 bytes.
#[tactic(auto, unfolding(crate::specs::HolderText::holder_text))]
pub fn put_holder(line: &mut Line, holder: &Holder)
    requires { length line.old.items + 13 ≤ 512 }
    ensures text { line.new.items ≡ line.old.items ++ holder_text holder.now }
    ensures short { length line.new.items ≤ length line.old.items + 13 }
{
    match holder {
        Holder::InProcess(process, index) => put_handle(line, b'p', process.0, *index),
        Holder::InThread(thread, index) => put_handle(line, b't', thread.0, *index),
        Holder::Temp(thread) => put_numbered(line, b"tmp", thread.0 as u32),
        Holder::Own(thread) => put_numbered(line, b"own", thread.0 as u32),
        Holder::Link(object) => put_numbered(line, b"lnk", object.0 as u32),
        Holder::Message(message) => put_numbered(line, b"msg", message.0),
        Holder::Kernel => put_letters(line, b"krn"),
    }
}
