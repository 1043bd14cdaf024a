//! The numbers that a script is made from.
ghost use Rattle.std.specs.Prelude.{◌≡◌};
ghost use Rattle.load_maker.specs.Draws.{next, number_of};

/// What the state is multiplied with, and what is added to it, modulo 2^64 (the constants of D. Knuth's MMIX).
const MULTIPLIER: u64 = 6_364_136_223_846_793_005;

const INCREMENT: u64 = 1_442_695_040_888_963_407;

/// A linear congruential generator.
#[derive(Drop)]
pub struct Draws {
    pub state: u64,
}

impl Draws {
    /// The next number: the upper 31 bits of the next state.
    #[tactic(auto, using(crate::proofs::Wrapping::next_wraps), unfolding(crate::specs::Draws::number_of))]
    pub fn draw(&mut self) -> u64
        ensures state { self.new.state ≡ next self.old.state }
        ensures number { result ≡ number_of self.new.state }
    {
        self.state = self.state.wrapping_mul(MULTIPLIER).wrapping_add(INCREMENT);
        self.state >> 33
    }
}
