// SPDX-License-Identifier: MIT
//! What the entries of an image's tables say.
ghost use Rattle.std.specs.Prelude.{◌≡◌, ℕ, ◌^◌, ◌<◌, IfSome, None, true, false};
ghost use Rattle.imago_qcow2.specs.Entry.{table_in_entry, cluster_in_entry};
ghost use Rattle.imago_qcow2.specs.Entry.{cluster_bits, compressed_in_entry};

use crate::cluster::ClusterSize;

/// An entry's lower 56 bits are an offset of the file; its upper 8 say other things.
pub(crate) const OFFSETS: u64 = 1 << 56;

/// The bit of an entry that says nothing here: that the cluster is used once.
pub(crate) const COPIED: u64 = 1 << 63;

/// The bit of an L2 entry that is set for a compressed cluster. The bits below say where it stands.
const COMPRESSED: u64 = 1 << 62;

/// What an entry of the L1 table says of its L2 table.
#[derive(Clone, Copy, Debug, PartialEq, Eq)]
pub enum L2Table {
    /// There is none: its guest clusters lead to the layer below.
    Absent,
    /// It stands at that offset of the file, in bytes.
    Stored(u64),
    /// The entry is invalid, and so are its guest clusters.
    Invalid,
}

/// What an entry of an L2 table says of its guest cluster.
#[derive(Clone, Copy, Debug, PartialEq, Eq)]
pub enum GuestCluster {
    /// It leads to the layer below.
    Absent,
    /// It is an explicit zero.
    Zero,
    /// It stands at that offset of the file, in bytes.
    Stored(u64),
    /// It is compressed, to a stream of at most so many bytes at that offset of the file.
    Compressed {
        /// Where the stream begins in the file, in bytes.
        at: u64,
        /// How many bytes of the file the stream may have. Others may follow it among these, and
        /// the file may end before they do.
        length: u64,
    },
    /// The entry is invalid.
    Invalid,
}

impl GuestCluster {
    /// Where the stream of a compressed cluster begins in the file, and how many bytes of it the
    /// stream may have.
    pub(crate) fn stream(self) -> Option<(u64, u64)>
        ensures yes { IfSome result (λ s. self ≡ GuestCluster.Compressed s.0 s.1) }
        ensures no { result ≡ None → (at n : ℕ) → self ≡ GuestCluster.Compressed at n → ⊥ }
    {
        match self {
            GuestCluster::Compressed { at, length: count } => Some((at, count)),
            GuestCluster::Absent
            | GuestCluster::Zero
            | GuestCluster::Stored(_)
            | GuestCluster::Invalid => None,
        }
    }
}

/// What an L1 entry says, in a file of that length whose clusters have that length.
#[tactic(auto, unfolding(crate::specs::Entry::table_in_entry))]
pub(crate) fn table_in(file: u64, cluster: u64, entry: u64) -> L2Table
    requires positive { 0 < cluster }
    requires most { cluster < 2 ^ 32 }
    ensures says { result ≡ table_in_entry file cluster entry }
    ensures small { (at : ℕ) → result ≡ L2Table.Stored at → at < 2 ^ 56 }
{
    let low = entry % OFFSETS;
    let high = entry / OFFSETS;
    if high % 128 != 0 || low % cluster != 0 {
        return L2Table::Invalid;
    }
    if low == 0 {
        return L2Table::Absent;
    }
    if file < low + cluster {
        return L2Table::Invalid;
    }
    L2Table::Stored(low)
}

/// What an L2 entry says of a compressed cluster, in an image whose clusters have that length.
#[tactic(auto, unfolding(crate::specs::Entry::compressed_in_entry))]
fn compressed_in(cluster: ClusterSize, entry: u64) -> GuestCluster
    ensures says { result ≡ compressed_in_entry (cluster_bits cluster.length) entry }
    ensures other { (at : ℕ) → result ≡ GuestCluster.Stored at → ⊥ }
{
    let offsets = cluster.stream_offsets();
    let at = entry % offsets;
    let sectors = entry % COMPRESSED / offsets;
    GuestCluster::Compressed {
        at,
        length: (sectors + 1) * 512 - at % 512,
    }
}

/// What an L2 entry says, in an image of that version whose clusters have that length.
#[tactic(auto, unfolding(crate::specs::Entry::cluster_in_entry))]
pub(crate) fn cluster_in(version: u32, cluster: ClusterSize, entry: u64) -> GuestCluster
    ensures says { result ≡ cluster_in_entry version cluster.length entry }
    ensures small { (at : ℕ) → result ≡ GuestCluster.Stored at → at < 2 ^ 56 }
{
    let low = entry % OFFSETS;
    let high = entry / OFFSETS;
    if high / 64 % 2 == 1 {
        return compressed_in(cluster, entry);
    }
    if high % 64 != 0 || cluster.rest(low - low % 2) != 0 {
        return GuestCluster::Invalid;
    }
    if low % 2 == 1 {
        return if version < 3 {
            GuestCluster::Invalid
        } else {
            GuestCluster::Zero
        };
    }
    if low == 0 {
        return GuestCluster::Absent;
    }
    GuestCluster::Stored(low)
}

/// Whether an L2 entry says that its guest cluster stands at that offset of the file, in either
/// version. Nothing but its lower 63 bits is looked at where these say another offset.
pub(crate) fn says_stored(cluster: ClusterSize, entry: u64, at: u64) -> bool
    ensures yes { result ≡ true → (version : ℕ)
        → cluster_in_entry version cluster.length entry ≡ GuestCluster.Stored at }
    ensures no { result ≡ false → (version : ℕ)
        → cluster_in_entry version cluster.length entry ≡ GuestCluster.Stored at → ⊥ }
{
    if entry % COPIED != at {
        return false;
    }
    if at == 0 || at >= OFFSETS {
        return false;
    }
    cluster.rest(at) == 0
}
