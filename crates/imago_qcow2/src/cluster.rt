// SPDX-License-Identifier: MIT
//! The length of clusters, by which guest clusters are found.
ghost use Rattle.std.specs.Prelude.{◌≡◌, ℕ, ◌-◌, ◌*◌, ◌/◌, ◌%◌, ◌^◌, ◌<◌, ◌≤◌};
ghost use Rattle.imago_qcow2.specs.Header.{IsClusterSize};
ghost use Rattle.imago_qcow2.specs.Entry.{cluster_bits, offset_bits};

/// The length of a cluster in bytes, which is a power of two. So is the number of entries in an L2
/// table, and how many bytes of the disk one is for. All that is asked of an offset is told without
/// a division.
#[derive(Clone, Copy)]
pub(crate) struct ClusterSize {
    pub(crate) length: u64,
    /// The exponent of that power.
    bits: u32,
    ghost power: { length ≡ 2 ^ bits },
    ghost least: { 9 ≤ bits },
    ghost most: { bits ≤ 21 },
    ghost shortest: { 512 ≤ length },
    ghost longest: { length ≤ 2 ^ 21 },
    ghost is_bits: { bits ≡ cluster_bits length },
}

impl ClusterSize {
    /// Clusters of that length.
    pub(crate) fn of_length(size: u64) -> ClusterSize
        requires { IsClusterSize size }
        ensures { result.length ≡ size }
    {
        ClusterSize {
            length: size,
            bits: size.trailing_zeros(),
        }
    }

    /// How many entries an L2 table has.
    pub(crate) fn entries(self) -> u64
        ensures value { result ≡ self.length / 8 }
        ensures least { 64 ≤ result }
        ensures most { result ≤ 262144 }
    {
        self.length / 8
    }

    /// How far behind the beginning of its cluster an offset lies, in bytes.
    pub(crate) fn rest(self, offset: u64) -> u64
        ensures value { result ≡ offset % self.length }
        ensures below { result < self.length }
    {
        offset & (self.length - 1)
    }

    /// How many offsets the bits of an L2 entry tell apart that say where a compressed cluster's
    /// stream begins.
    pub(crate) fn stream_offsets(self) -> u64
        ensures value { result ≡ 2 ^ offset_bits (cluster_bits self.length) }
        ensures least { 2 ^ 49 ≤ result }
    {
        2u64.pow(62 - (self.bits - 8))
    }

    /// The index of an offset's entry in its L2 table.
    pub(crate) fn l2_index(self, offset: u64) -> u64
        ensures value { result ≡ offset / self.length % (self.length / 8) }
        ensures below { result < self.length / 8 }
    {
        (offset >> self.bits) & (self.entries() - 1)
    }

    /// The index of an offset's entry in the L1 table.
    pub(crate) fn l1_index(self, offset: u64) -> u64
        ensures { result ≡ offset / (self.length / 8 * self.length) }
    {
        offset >> (2 * self.bits - 3)
    }

    /// How many bytes, from an offset on, belong to its L2 table.
    pub(crate) fn left_of_table(self, offset: u64) -> u64
        ensures { result ≡ self.length / 8 * self.length
            - offset % (self.length / 8 * self.length) }
    {
        let span = self.entries() * self.length;
        span - (offset & (span - 1))
    }
}
