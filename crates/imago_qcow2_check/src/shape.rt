// SPDX-License-Identifier: MIT
//! The clusters of a file.
ghost use Rattle.std.specs.Prelude.{◌≡◌, ℕ, List, ◌+◌, ◌-◌, ◌*◌, ◌/◌, ◌%◌, ◌^◌, ◌<◌, ◌≤◌, length};
ghost use Rattle.std.specs.Prelude.{IfOk, IfSome};
ghost use Rattle.std.specs.Prelude.{Some, None};
ghost use Rattle.std.specs.Int.{div_ceil};
ghost use Rattle.imago_qcow2.specs.Entry.{cluster_bits};

/// The file, by which its entries are looked at.
#[derive(Clone, Copy)]
pub(crate) struct Shape {
    /// The file's length in bytes.
    pub(crate) file: u64,
    /// A cluster's length in bytes, which is a power of two.
    pub(crate) cluster: u64,
    /// The exponent of that power.
    pub(crate) bits: u32,
    /// The version of the format.
    pub(crate) version: u32,
    /// How many clusters the file has. The last one may be cut.
    pub(crate) clusters: usize,
    ghost power: { cluster ≡ 2 ^ bits },
    ghost least: { 9 ≤ bits },
    ghost most: { bits ≤ 21 },
    ghost shortest: { 512 ≤ cluster },
    ghost longest: { cluster ≤ 2 ^ 21 },
    ghost is_bits: { bits ≡ cluster_bits cluster },
    ghost all: { clusters ≡ div_ceil file cluster },
    ghost few: { clusters < 2 ^ 40 },
}

impl Shape {
    ghost use Rattle.imago_qcow2.specs.Header.{IsClusterSize};
    ghost use Rattle.imago_qcow2_check.specs.Clusters.{passes};
    ghost use Rattle.imago_qcow2_check.specs.Tallies.{setting_of};

    /// The shape of a file of that length, if it has fewer than 2^40 clusters.
    pub(crate) fn new(file: u64, cluster: u64, version: u32) -> Option<Shape>
        requires { IsClusterSize cluster }
        ensures clusters { IfSome result (λ s. s.clusters ≡ div_ceil file cluster) }
        ensures file { IfSome result (λ s. s.file ≡ file) }
        ensures cluster { IfSome result (λ s. s.cluster ≡ cluster) }
        ensures version { IfSome result (λ s. s.version ≡ version) }
    {
        let clusters = file.div_ceil(cluster);
        if clusters >= 1 << 40 {
            return None;
        }
        Some(Shape {
            file,
            cluster,
            bits: cluster.trailing_zeros(),
            version,
            clusters: clusters as usize,
        })
    }

    /// Whether so many bytes from an offset on, if there are any, don't end in a cluster of the
    /// file.
    #[tactic(auto, unfolding(crate::specs::Clusters::passes))]
    pub(crate) fn passes(self, at: u64, count: u64) -> bool
        ensures { (counts : List ℕ) → result ≡ passes (setting_of self counts) at count }
    {
        if count == 0 {
            return false;
        }
        let end = self.clusters as u64 * self.cluster;
        end < count || end - count < at
    }

    /// The number of the cluster in which that offset lies.
    pub(crate) fn cluster_at(self, at: u64) -> u64
        ensures { result ≡ at / self.cluster }
    {
        at >> self.bits
    }

    /// How far behind the beginning of its cluster an offset lies, in bytes.
    pub(crate) fn rest(self, at: u64) -> u64
        ensures { result ≡ at % self.cluster }
    {
        at & (self.cluster - 1)
    }
}
