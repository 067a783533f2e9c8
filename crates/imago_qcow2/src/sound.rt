// SPDX-License-Identifier: MIT
//! Whether a look at the tables alone shows that all of a disk can be read.
ghost use Rattle.std.specs.Prelude.{◌≡◌, ℕ, ◌+◌, ◌*◌, ◌<◌, ◌≤◌, ◌/◌, ◌↔◌, IsTrue, true, false};
ghost use Rattle.std.specs.Prelude.{length};
ghost use Rattle.imago_qcow2.specs.Qcow2Image.{header_in, loaded_in};
ghost use Rattle.imago_qcow2.specs.Sound.{IsSound, IsEntrySound, IsSoundIn, IsSoundAt};
ghost use Rattle.imago_qcow2.specs.Tables.{loaded_cluster};

use crate::cluster::ClusterSize;
use crate::entry::{COPIED, GuestCluster, OFFSETS, cluster_in};
use crate::header::{Compression, Header};
use crate::number::number64;
use crate::qcow2::Qcow2;
use crate::table::HeldTable;
use imago_storage::storage::Storage;

/// Whether a guest cluster can be read as its entry says, of a file of that length.
fn is_sound(cluster: GuestCluster, compression: Compression, file: u64) -> bool
    ensures { IsTrue result ↔ IsSound compression file cluster }
{
    match cluster {
        GuestCluster::Absent | GuestCluster::Zero => true,
        GuestCluster::Stored(at) => at < file,
        GuestCluster::Compressed { .. } => compression == Compression::Deflate,
        GuestCluster::Invalid => false,
    }
}

/// Whether the guest cluster of that entry of an L2 table can be read so. Most entries are such that
/// three tests of their lower 63 bits show it.
fn is_entry_sound(header: &Header, cluster: ClusterSize, file: u64, entry: u64) -> bool
    ensures { IsTrue result ↔ IsEntrySound header.now cluster.length file entry }
{
    let at = entry % COPIED;
    if at < file && at < OFFSETS && cluster.rest(at) == 0 {
        return true;
    }
    is_sound(
        cluster_in(header.version, cluster, entry),
        header.compression,
        file,
    )
}

/// Whether those of an L2 table's entries from `first` on, up to `end`, can be read so.
fn are_entries_sound(
    table: &[u8],
    first: usize,
    end: usize,
    header: &Header,
    cluster: ClusterSize,
    file: u64,
) -> bool
    requires { 8 * end ≤ length table.now }
    ensures sound { result ≡ true → (e : ℕ) → first ≤ e → e < end
        → IsSoundIn header.now cluster.length file table.now e }
    ensures unsound { result ≡ false → (e : ℕ) × (first ≤ e) × (e < end)
        × (IsSoundIn header.now cluster.length file table.now e → ⊥) }
{
    for index in first..end {
        if !is_entry_sound(header, cluster, file, number64(table, 8 * index)) {
            return false;
        }
    }
    true
}

impl<S: Storage> Qcow2<S> {
    /// Whether guest clusters of one L2 table can be read so: those of its entries from `first` on,
    /// up to `end`, of which there is one at least.
    fn is_table_sound(&self, table: usize, first: u64, end: u64, file: u64) -> bool
        requires table { table < length self.now.tables.l1.items }
        requires some { first < end }
        requires end { end ≤ self.now.cluster.length / 8 }
        ensures sound { result ≡ true → (e : ℕ) → first ≤ e → e < end
            → IsSoundAt (loaded_in self.now) file (table * (self.now.cluster.length / 8) + e) }
        ensures unsound { result ≡ false → (e : ℕ) × (first ≤ e) × (e < end)
            × (IsSoundAt (loaded_in self.now) file (table * (self.now.cluster.length / 8) + e)
            → ⊥) }
    {
        match self.tables.l1[table] {
            HeldTable::Absent => true,
            HeldTable::Loaded(number) => are_entries_sound(
                &self.tables.l2[number],
                first as usize,
                end as usize,
                &self.header,
                self.cluster,
                file,
            ),
            HeldTable::Invalid => false,
        }
    }

    /// How many guest clusters from that one on are seen to be such that they can be read so, of
    /// the `total` of the disk: those of a run of absent ones, or else the rest of an L2 table's.
    /// 0 is that one of these can't.
    fn sound_from(&self, guest: u64, total: u64, file: u64) -> u64
        requires inside { guest < total }
        requires total { total ≤ length self.now.tables.l1.items * (self.now.cluster.length / 8) }
        ensures sound { (j : ℕ) → j < result → IsSoundAt (loaded_in self.now) file (guest + j) }
        ensures unsound { result ≡ 0 → (k : ℕ) × (k < total)
            × (IsSoundAt (loaded_in self.now) file k → ⊥) }
    {
        let entries = self.cluster.entries();
        let table = (guest / entries) as usize;
        let first = guest % entries;
        let absent = self.absent.count_from(&self.tables, table, first, entries);
        if absent > 0 {
            return absent;
        }
        let count = (entries - first).min(total - guest);
        if self.is_table_sound(table, first, first + count, file) {
            count
        } else {
            0
        }
    }

    /// Whether each guest cluster can be read as its entry says, of a file of that length in bytes:
    /// no entry is invalid, each cluster that is stored begins before the file ends, and those that
    /// are compressed are deflated. Nothing is read, and no stream is decoded. The entries of an L2
    /// table are looked at one after the other; runs of absent clusters at its beginning, and L2
    /// tables that have no others, are passed over in one step.
    pub fn is_sound(&self, file: u64) -> bool
        ensures sound { result ≡ true → (offset : ℕ) → «offset» < (header_in self.now).size
            → IsSound (header_in self.now).compression file
            (loaded_cluster (loaded_in self.now) («offset» / (loaded_in self.now).cluster)) }
        ensures unsound { result ≡ false → (offset : ℕ) × («offset» < (header_in self.now).size)
            × (IsSound (header_in self.now).compression file
            (loaded_cluster (loaded_in self.now) («offset» / (loaded_in self.now).cluster)) → ⊥) }
    {
        let total = self.header.size.div_ceil(self.cluster.length);
        let mut guest: u64 = 0;
        while guest < total {
            let count = self.sound_from(guest, total, file);
            if count == 0 {
                return false;
            }
            guest = guest.saturating_add(count);
        }
        true
    }
}
