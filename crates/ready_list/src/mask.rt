//! A word with a bit for each priority.
ghost use Rattle.std.specs.Prelude.{◌≡◌, ◌≢◌, ℕ, ◌<◌, IfNone, IfSome};
ghost use Rattle.std.specs.Int.{bit_at};

/// The word with the bit of a priority set.
pub fn with_bit(mask: u64, priority: u8) -> u64
    requires { priority < 64 }
    ensures own { bit_at result priority ≡ 1 }
    ensures others { (p : ℕ) → p < 64 → p ≢ priority → bit_at result p ≡ bit_at mask p }
{
    mask | 1 << priority
}

/// The word with the bit of a priority cleared.
pub fn without_bit(mask: u64, priority: u8) -> u64
    requires { priority < 64 }
    ensures own { bit_at result priority ≡ 0 }
    ensures others { (p : ℕ) → p < 64 → p ≢ priority → bit_at result p ≡ bit_at mask p }
{
    mask & !(1 << priority)
}

/// The highest priority whose bit is set. None where no bit is.
pub fn highest_bit(mask: u64) -> Option<u8>
    ensures low { IfSome result (λ priority. priority < 64) }
    ensures set { IfSome result (λ priority. bit_at mask priority ≡ 1) }
    ensures above { IfSome result (λ priority. (p : ℕ) → priority < p → bit_at mask p ≡ 0) }
    ensures none { IfNone result ((p : ℕ) → bit_at mask p ≡ 0) }
{
    if mask == 0 {
        return None;
    }
    Some((63 - mask.leading_zeros()) as u8)
}
