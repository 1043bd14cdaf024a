//! Which places of a handle table are free.
ghost use Rattle.std.specs.Prelude.{◌≡◌, ◌≢◌, ℕ, ◌<◌, ◌≤◌, length};
ghost use Rattle.handles.specs.Bits.{bit_of};

/// A bit for each of the 256 places of a table, 1 where it is free, in four words: so the least free place is
/// found without a search through the places.
#[derive(Drop)]
pub struct FreePlaces {
    pub words: [u64; 4],
    ghost sized: { length words ≡ 4 },
}

impl FreePlaces {
    /// Each place is free.
    pub fn all() -> FreePlaces
        ensures { (i : ℕ) → i < 256 → bit_of result.words i ≡ 1 }
    {
        FreePlaces {
            words: [u64::MAX; 4],
        }
    }

    /// The least free place, 256 where none is free.
    pub fn least(&self) -> usize
        ensures within { result ≤ 256 }
        ensures free { result < 256 → bit_of self.now.words result ≡ 1 }
        ensures below { (i : ℕ) → i < result → bit_of self.now.words i ≡ 0 }
    {
        for (place, word) in self.words.iter().enumerate() {
            if *word != 0 {
                return 64 * place + word.trailing_zeros() as usize;
            }
        }
        256
    }

    /// The least place that isn't free, 256 where each is free.
    pub fn least_taken(&self) -> usize
        ensures within { result ≤ 256 }
        ensures taken { result < 256 → bit_of self.now.words result ≡ 0 }
        ensures below { (i : ℕ) → i < result → bit_of self.now.words i ≡ 1 }
    {
        for (place, word) in self.words.iter().enumerate() {
            if *word != u64::MAX {
                return 64 * place + word.trailing_ones() as usize;
            }
        }
        256
    }

    /// A place is free no more.
    pub fn take(&mut self, place: usize)
        requires { place < 256 }
        ensures taken { bit_of self.new.words place ≡ 0 }
        ensures others { (i : ℕ) → i < 256 → i ≢ place → bit_of self.new.words i ≡ bit_of self.old.words i }
    {
        self.words[place / 64] &= !(1 << (place % 64));
    }

    /// A place is free.
    pub fn give(&mut self, place: usize)
        requires { place < 256 }
        ensures free { bit_of self.new.words place ≡ 1 }
        ensures others { (i : ℕ) → i < 256 → i ≢ place → bit_of self.new.words i ≡ bit_of self.old.words i }
    {
        self.words[place / 64] |= 1 << (place % 64);
    }
}
