// SPDX-License-Identifier: MIT
//! Numbers that follow from a seed.
ghost use Rattle.std.specs.Prelude.{◌≤◌};

/// A generator of numbers, SplitMix64 by Steele, Lea and Flood.
#[derive(Drop)]
pub struct Random {
    state: u64,
}

impl Random {
    /// The generator that begins at a seed.
    pub fn new(seed: u64) -> Self {
        Random { state: seed }
    }

    /// The next number.
    pub fn number(&mut self) -> u64 {
        self.state = self.state.wrapping_add(0x9e37_79b9_7f4a_7c15);
        let mut mixed = self.state;
        mixed = (mixed ^ (mixed >> 30)).wrapping_mul(0xbf58_476d_1ce4_e5b9);
        mixed = (mixed ^ (mixed >> 27)).wrapping_mul(0x94d0_49bb_1331_11eb);
        mixed ^ (mixed >> 31)
    }

    /// The next number below a bound; 0 where that is 0.
    pub fn below(&mut self, bound: u64) -> u64
        ensures { result ≤ bound }
    {
        let number = self.number();
        if bound == 0 { 0 } else { number % bound }
    }

    /// The next byte.
    pub fn byte(&mut self) -> u8 {
        (self.number() % 256) as u8
    }

    /// Whether the next number is one of so many.
    pub fn is_one_of(&mut self, many: u64) -> bool {
        self.below(many) == 0
    }
}
