//! Which numbers are free.
ghost use Rattle.std.specs.Prelude.{◌≡◌, ◌≢◌, ℕ, ◌<◌, ◌≤◌, length};
ghost use Rattle.objects.specs.Bits.{bit_of};

/// A bit for each of the 4,096 numbers, 1 where no unswept object has it, in 64 words: so the least free number is
/// found without a search through the rows.
#[derive(Drop)]
pub struct FreeNumbers {
    pub words: [u64; 64],
    ghost sized: { length words ≡ 64 },
}

impl FreeNumbers {
    /// Each number is free.
    pub fn all() -> FreeNumbers
        ensures { (i : ℕ) → i < 4096 → bit_of result.words i ≡ 1 }
    {
        FreeNumbers {
            words: [u64::MAX; 64],
        }
    }

    /// The least free number, 4,096 where none is free.
    pub fn least(&self) -> usize
        ensures within { result ≤ 4096 }
        ensures free { result < 4096 → bit_of self.now.words result ≡ 1 }
        ensures below { (i : ℕ) → i < result → bit_of self.now.words i ≡ 0 }
    {
        for (place, word) in self.words.iter().enumerate() {
            if *word != 0 {
                return 64 * place + word.trailing_zeros() as usize;
            }
        }
        4096
    }

    /// A number is free no more.
    pub fn take(&mut self, number: usize)
        requires { number < 4096 }
        ensures taken { bit_of self.new.words number ≡ 0 }
        ensures others { (i : ℕ) → i < 4096 → i ≢ number → bit_of self.new.words i ≡ bit_of self.old.words i }
    {
        self.words[number / 64] &= !(1 << (number % 64));
    }

    /// A number is free.
    pub fn give(&mut self, number: usize)
        requires { number < 4096 }
        ensures free { bit_of self.new.words number ≡ 1 }
        ensures others { (i : ℕ) → i < 4096 → i ≢ number → bit_of self.new.words i ≡ bit_of self.old.words i }
    {
        self.words[number / 64] |= 1 << (number % 64);
    }
}
