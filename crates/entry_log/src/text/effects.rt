//! The text of effects.
ghost use Rattle.std.specs.Prelude.{◌≡◌, ◌+◌, ◌*◌, ◌≤◌, [], ◌∷◌, ◌++◌, length, codes, decimal, map};
ghost use Rattle.std.specs.Fmt.{signed_decimal};
ghost use Rattle.entry_log.specs.EffectText.{effect_text, lock_text, status_text};
ghost use Rattle.entry_log.specs.HolderText.{holder_text};
ghost use Rattle.entry_log.specs.Joined.{joined, preceded};

use super::holders::put_holder;
use super::line::{Line, put_byte, put_letters};
use super::numbers::{put_code, put_u8, put_u16, put_u32};
use crate::{Effect, Holder, LockNo, StatusNo};

/// Adds a status, at most 3 bytes.
#[tactic(auto, unfolding(crate::specs::EffectText::status_text))]
fn put_status(line: &mut Line, status: StatusNo)
    requires { length line.old.items + 3 ≤ 512 }
    ensures text { line.new.items ≡ line.old.items ++ status_text status }
    ensures short { length line.new.items ≤ length line.old.items + 3 }
{
    match status {
        StatusNo::Async(number) => put_u8(line, number),
        StatusNo::Sync => put_byte(line, b'w'),
    }
}

/// Adds a fast mutex, as `f3`.
fn put_fast(line: &mut Line, number: u8)
    requires { length line.old.items + 4 ≤ 512 }
    ensures text { line.new.items ≡ line.old.items ++ (102 ∷ decimal number) }
    ensures short { length line.new.items ≤ length line.old.items + 4 }
{
    put_byte(line, b'f');
    put_u8(line, number);
}

/// Adds a lock, at most 5 bytes.
#[tactic(auto, unfolding(crate::specs::EffectText::lock_text))]
fn put_lock(line: &mut Line, lock: LockNo)
    requires { length line.old.items + 5 ≤ 512 }
    ensures text { line.new.items ≡ line.old.items ++ lock_text lock }
    ensures short { length line.new.items ≤ length line.old.items + 5 }
{
    match lock {
        LockNo::Object(object) => put_u16(line, object.0),
        LockNo::Fast(number) => put_fast(line, number),
    }
}

/// Adds `NAME:NUMBER`.
fn put_numbered<const N: usize>(line: &mut Line, name: &[u8; N], number: u32)
    requires { length line.old.items + length name.now + 11 ≤ 512 }
    ensures text { line.new.items ≡ line.old.items ++ joined 58 (name.now ∷ decimal number ∷ []) }
    ensures short { length line.new.items ≤ length line.old.items + length name.now + 11 }
{
    put_letters(line, name);
    put_byte(line, b':');
    put_u32(line, number);
}

/// Adds `SIGN HOLDER:OBJECT`, without the space.
fn put_reference(line: &mut Line, sign: u8, holder: &Holder, object: u16)
    requires { length line.old.items + 20 ≤ 512 }
    ensures text { line.new.items
        ≡ line.old.items ++ joined 58 ((sign ∷ holder_text holder.now) ∷ decimal object ∷ []) }
    ensures short { length line.new.items ≤ length line.old.items + 20 }
{
    put_byte(line, sign);
    put_holder(line, holder);
    put_byte(line, b':');
    put_u16(line, object);
}

/// Adds `NAME:THREAD:LOCK`.
fn put_locking<const N: usize>(line: &mut Line, name: &[u8; N], thread: u16, lock: LockNo)
    requires { length line.old.items + length name.now + 17 ≤ 512 }
    ensures text { line.new.items
        ≡ line.old.items ++ joined 58 (name.now ∷ decimal thread ∷ lock_text lock ∷ []) }
    ensures short { length line.new.items ≤ length line.old.items + length name.now + 17 }
{
    put_numbered(line, name, thread as u32);
    put_byte(line, b':');
    put_lock(line, lock);
}

/// Adds the finish of a message, at most 29 bytes.
fn put_finish(line: &mut Line, message: u32, code: i32)
    requires { length line.old.items + 29 ≤ 512 }
    ensures text { line.new.items
        ≡ line.old.items ++ joined 58 (codes "finish" ∷ decimal message ∷ signed_decimal code ∷ []) }
    ensures short { length line.new.items ≤ length line.old.items + 29 }
{
    put_numbered(line, b"finish", message);
    put_byte(line, b':');
    put_code(line, code);
}

/// Adds the completion of a status, at most 33 bytes.
fn put_signal(line: &mut Line, thread: u16, status: StatusNo, code: i32)
    requires { length line.old.items + 33 ≤ 512 }
    ensures text { line.new.items ≡ line.old.items
        ++ joined 58 (codes "signal" ∷ decimal thread ∷ status_text status ∷ signed_decimal code ∷ []) }
    ensures short { length line.new.items ≤ length line.old.items + 33 }
{
    put_numbered(line, b"signal", thread as u32);
    put_byte(line, b':');
    put_status(line, status);
    put_byte(line, b':');
    put_code(line, code);
}

/// Adds an effect, at most 33 bytes.
#[tactic(auto, unfolding(crate::specs::EffectText::effect_text, crate::specs::EffectText::effect_fields))]
fn put_effect(line: &mut Line, effect: &Effect)
    requires { length line.old.items + 33 ≤ 512 }
    ensures text { line.new.items ≡ line.old.items ++ effect_text effect.now }
    ensures short { length line.new.items ≤ length line.old.items + 33 }
{
    match effect {
        Effect::Plus(holder, object) => put_reference(line, b'+', holder, object.0),
        Effect::Minus(holder, object) => put_reference(line, b'-', holder, object.0),
        Effect::Dead(object) => put_numbered(line, b"dead", object.0 as u32),
        Effect::Swept(object) => put_numbered(line, b"swept", object.0 as u32),
        Effect::Seek(object) => put_numbered(line, b"seek", object.0 as u32),
        Effect::Missed(object) => put_numbered(line, b"missed", object.0 as u32),
        Effect::Accept(message) => put_numbered(line, b"accept", message.0),
        Effect::Finish(message, code) => put_finish(line, message.0, *code),
        Effect::Signal(thread, status, code) => put_signal(line, thread.0, *status, *code),
        Effect::Take(thread, lock) => put_locking(line, b"take", thread.0, *lock),
        Effect::Give(thread, lock) => put_locking(line, b"give", thread.0, *lock),
        Effect::Terminated(server) => put_numbered(line, b"ended", server.0 as u32),
        Effect::Doom(thread) => put_numbered(line, b"doom", thread.0 as u32),
        Effect::Bury(thread) => put_numbered(line, b"bury", thread.0 as u32),
    }
}

/// Adds each effect after a space, at most 34 bytes each.
pub fn put_effects(line: &mut Line, effects: &[Effect])
    requires { length line.old.items + 34 * length effects.now ≤ 512 }
    ensures text { line.new.items ≡ line.old.items ++ preceded 32 (map effect_text effects.now) }
    ensures short { length line.new.items ≤ length line.old.items + 34 * length effects.now }
{
    for effect in effects {
        put_byte(line, b' ');
        put_effect(line, effect);
    }
}
