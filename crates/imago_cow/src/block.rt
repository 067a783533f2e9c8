// SPDX-License-Identifier: MIT
//! The length of guest blocks and data blocks.
ghost use Rattle.std.specs.Prelude.{◌≡◌, ℕ, ◌/◌, ◌%◌, ◌^◌, ◌<◌, IsTrue};
ghost use Rattle.std.specs.Int.{is_power_of_two};

/// The length of a block in bytes, which is a power of two. Which block an offset lies in, and how
/// far behind its beginning, is told without a division.
#[derive(Clone, Copy)]
pub struct BlockSize {
    pub(crate) length: u64,
    /// The exponent of that power.
    shift: u32,
    ghost power: { length ≡ 2 ^ shift },
    ghost within: { shift < 64 },
}

impl BlockSize {
    /// Blocks of so many bytes.
    pub(crate) fn new(bytes: u64) -> BlockSize
        requires { IsTrue (is_power_of_two bytes) }
        ensures { result.length ≡ bytes }
    {
        BlockSize {
            length: bytes,
            shift: bytes.ilog2(),
        }
    }

    /// The number of the block that an offset lies in.
    pub(crate) fn number(self, offset: u64) -> u64
        ensures { result ≡ offset / self.length }
    {
        offset >> self.shift
    }

    /// How far behind the beginning of its block an offset lies.
    pub(crate) fn rest(self, offset: u64) -> u64
        ensures value { result ≡ offset % self.length }
        ensures below { result < self.length }
    {
        offset & (self.length - 1)
    }
}
