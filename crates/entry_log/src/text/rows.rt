//! The line of an object that is left.
ghost use Rattle.std.specs.Prelude.{◌≡◌, ◌+◌, ◌≤◌, ◌∷◌, ◌++◌, [], length, codes, decimal};
ghost use Rattle.std.specs.Fmt.{signed_decimal};
ghost use Rattle.sym_base.specs.Appends.{Appends};
ghost use Rattle.entry_log.specs.FinalLine.{exit_words, final_line, kind_text, life_words, shown_name};
ghost use Rattle.entry_log.specs.Joined.{preceded};

use super::line::{Line, put};
use super::numbers::{put_code, put_u16, put_u32};
use crate::FinalRow;
use arrayvec::ArrayVec;
use sym_base::{Exit, ExitKind, Kind, Name};

/// A kind's word.
#[tactic(auto, unfolding(crate::specs::FinalLine::kind_text))]
fn kind_bytes(kind: Kind) -> &'static [u8]
    ensures text { result.now ≡ kind_text kind }
    ensures short { length result.now ≤ 9 }
{
    match kind {
        Kind::Process => b"process",
        Kind::Thread => b"thread",
        Kind::Mutex => b"mutex",
        Kind::Semaphore => b"semaphore",
        Kind::Server => b"server",
        Kind::Session => b"session",
    }
}

/// Adds a name, or `-` where there is none, at most 16 bytes.
fn put_name(line: &mut Line, name: &Name)
    requires { length line.old.items + 16 ≤ 512 }
    ensures text { line.new.items ≡ line.old.items ++ shown_name name.now }
    ensures short { length line.new.items ≤ length line.old.items + 16 }
{
    let bytes = name.as_slice();
    if bytes.is_empty() {
        put(line, b"-");
    } else {
        put(line, bytes);
    }
}

/// Adds `WORD REASON` after a space.
fn put_reason(line: &mut Line, word: &[u8], reason: i32)
    requires { length line.old.items + length word.now + 13 ≤ 512 }
    ensures text { line.new.items ≡ line.old.items ++ preceded 32 (word.now ∷ signed_decimal reason ∷ []) }
    ensures short { length line.new.items ≤ length line.old.items + length word.now + 13 }
{
    put(line, b" ");
    put(line, word);
    put(line, b" ");
    put_code(line, reason);
}

/// Adds a panic's category and reason after spaces, at most 35 bytes.
fn put_panic(line: &mut Line, category: &Name, reason: i32)
    requires { length line.old.items + 35 ≤ 512 }
    ensures text { line.new.items ≡ line.old.items
        ++ preceded 32 (codes "panic" ∷ category.now ∷ signed_decimal reason ∷ []) }
    ensures short { length line.new.items ≤ length line.old.items + 35 }
{
    put(line, b" panic");
    put_reason(line, category.as_slice(), reason);
}

/// Adds how a thread ended, at most 35 bytes.
#[tactic(auto, unfolding(crate::specs::FinalLine::exit_words))]
fn put_exit(line: &mut Line, exit: &Exit)
    requires { length line.old.items + 35 ≤ 512 }
    ensures text { line.new.items ≡ line.old.items ++ preceded 32 (exit_words exit.now.kind exit.now) }
    ensures short { length line.new.items ≤ length line.old.items + 35 }
{
    match exit.kind {
        ExitKind::Kill => put_reason(line, b"kill", exit.reason),
        ExitKind::Terminate => put_reason(line, b"terminate", exit.reason),
        ExitKind::Panic => put_panic(line, &exit.category, exit.reason),
    }
}

/// Adds a thread's life, at most 35 bytes.
#[tactic(auto, unfolding(crate::specs::FinalLine::life_words, crate::specs::Joined::preceded))]
fn put_thread_life(line: &mut Line, exit: &Option<Exit>)
    requires { length line.old.items + 35 ≤ 512 }
    ensures text { line.new.items ≡ line.old.items ++ preceded 32 (life_words Kind.Thread exit.now) }
    ensures short { length line.new.items ≤ length line.old.items + 35 }
{
    match exit {
        None => put(line, b" live"),
        Some(exit) => put_exit(line, exit),
    }
}

/// Adds the life of a row's object, where that is a thread, at most 35 bytes.
fn put_life(line: &mut Line, row: &FinalRow)
    requires { length line.old.items + 35 ≤ 512 }
    ensures text { line.new.items ≡ line.old.items ++ preceded 32 (life_words row.now.kind row.now.exit) }
    ensures short { length line.new.items ≤ length line.old.items + 35 }
{
    match row.kind {
        Kind::Thread => put_thread_life(line, &row.exit),
        _ => {}
    }
}

/// Adds what stands before a thread's life: number, kind, name and count, at most 43 bytes.
fn put_head(line: &mut Line, row: &FinalRow)
    requires { length line.old.items + 43 ≤ 512 }
    ensures text { line.new.items ≡ line.old.items ++ (decimal row.now.object.0 ++ 32 ∷ kind_text row.now.kind
        ++ 32 ∷ shown_name row.now.name ++ 32 ∷ decimal row.now.count) }
    ensures short { length line.new.items ≤ length line.old.items + 43 }
{
    put_u16(line, row.object.0);
    put(line, b" ");
    put(line, kind_bytes(row.kind));
    put(line, b" ");
    put_name(line, &row.name);
    put(line, b" ");
    put_u32(line, row.count);
}

/// Adds the line of an object that is left, at most 79 bytes.
fn put_row(line: &mut Line, row: &FinalRow)
    requires { length line.old.items + 79 ≤ 512 }
    ensures text { line.new.items ≡ line.old.items ++ final_line row.now }
    ensures short { length line.new.items ≤ length line.old.items + 79 }
{
    put_head(line, row);
    put_life(line, row);
    put(line, b"\n");
}

/// The line of an object that is left.
pub fn line_of_row(row: &FinalRow) -> Line
    ensures text { result.items ≡ final_line row.now }
    ensures short { length result.items ≤ 79 }
{
    let mut line = Line::new();
    put_row(&mut line, row);
    line
}

/// Adds the line of an object that is left, with its LF, to a buffer. False exactly where it doesn't
/// fit, and then nothing changes. The line has at most 512 bytes, so an empty buffer takes it.
pub fn final_text(row: &FinalRow, out: &mut ArrayVec<u8, 512>) -> bool
    ensures line { Appends result out.old.items out.new.items (final_line row.now) }
    ensures short { length (final_line row.now) ≤ 512 }
{
    let line = line_of_row(row);
    out.try_extend_from_slice(line.as_slice()).is_ok()
}
