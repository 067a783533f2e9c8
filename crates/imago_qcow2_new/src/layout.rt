// SPDX-License-Identifier: MIT
//! Where everything stands in a new file.
ghost use Rattle.std.specs.Prelude.{◌≡◌, ◌+◌, ◌*◌, ◌/◌, ◌%◌, ◌^◌, ◌<◌, ◌≤◌, IfOk};
ghost use Rattle.std.specs.Int.{next_multiple_of};
ghost use Rattle.imago_qcow2_new.specs.Header.{number_of};

use crate::counts::{counted, plus, starts_of, times};
use crate::extents::{Extents, rounded_up};
use crate::format::{Backing, Format, FormatError};
use crate::header::NewHeader;
use crate::l2::{count_tables, tables_of};
use crate::names::names_of;
use std::alloc::Global;

/// Where everything stands in a new file, in this order: the header, the table of reference count
/// blocks, these blocks, the L1 table, the L2 tables that there are, and the clusters of the disk
/// that are stored, in the disk's order. Offsets and lengths are in bytes.
#[derive(Drop)]
pub struct Layout {
    pub(crate) header: NewHeader,
    /// The length of a cluster in bytes.
    pub(crate) cluster: u64,
    /// The L2 entry of a cluster that isn't stored.
    pub(crate) gap: u64,
    /// How many blocks of reference counts there are.
    pub(crate) blocks: u64,
    /// Where they begin.
    pub(crate) blocks_start: u64,
    /// Where the L2 tables begin.
    pub(crate) tables_start: u64,
    /// Where the data begin.
    pub(crate) data_start: u64,
    /// Where they end.
    pub(crate) end: u64,
    /// The L2 tables that there are, in the space of all that there may be.
    pub(crate) tables: Extents,
    /// The clusters of the disk that are stored.
    pub(crate) clusters: Extents,
    /// The disk's size in whole clusters.
    pub(crate) length: u64,
    ghost least: { 9 ≤ header.cluster_bits },
    ghost most: { header.cluster_bits ≤ 21 },
    ghost power: { cluster ≡ 2 ^ header.cluster_bits },
    ghost names: { header.names.start < 2 ^ 32 },
    ghost few: { header.l1_count ≤ 4194304 },
    ghost covers: { header.size ≤ header.l1_count * (cluster / 8 * cluster) },
    ghost gap_is: { gap ≤ 1 },
    ghost gap_known: { gap + 2 ≤ number_of header.version },
    ghost blocks_behind: { cluster ≤ blocks_start },
    ghost blocks_whole: { blocks_start % cluster ≡ 0 },
    ghost l1_at: { header.l1_start ≡ blocks_start + blocks * cluster },
    ghost l1_whole: { header.l1_start % cluster ≡ 0 },
    ghost tables_behind: { header.l1_start + 8 * header.l1_count ≤ tables_start },
    ghost tables_near: { tables_start < header.l1_start + 8 * header.l1_count + cluster },
    ghost tables_whole: { tables_start % cluster ≡ 0 },
    ghost data_at: { data_start ≡ tables_start + tables.stored },
    ghost end_at: { end ≡ data_start + clusters.stored },
    ghost small: { end ≤ 2 ^ 56 },
    ghost tables_unit: { tables.unit ≡ cluster },
    ghost clusters_unit: { clusters.unit ≡ cluster },
    ghost tables_inside: { tables.end ≤ header.l1_count * cluster },
    ghost clusters_inside: { clusters.end ≤ length },
    ghost length_whole: { length % cluster ≡ 0 },
    ghost length_near: { length < header.size + cluster },
    ghost size_inside: { header.size ≤ length },
    ghost size_small: { header.size ≤ 2 ^ 62 },
    ghost name_short: { header.names.count ≤ 1023 },
    ghost counts_at: { header.counts_start ≡ cluster },
    ghost counts_few: { header.counts_clusters < 2 ^ 32 },
    ghost blocks_at: { blocks_start ≡ cluster + header.counts_clusters * cluster },
    ghost blocks_named: { blocks ≤ header.counts_clusters * (cluster / 8) },
    ghost all_counted: { end / cluster ≤ blocks * (cluster / 2) },
    ghost name_inside: { header.names.start + header.names.count + 112 ≤ cluster },
}

/// The greatest size of a disk, in bytes.
const LARGEST_DISK: u64 = 1 << 62;

/// The unit of a disk's size, in bytes.
const SECTOR: u64 = 512;

/// The greatest length of a file, in bytes: what an entry's offset can say.
pub(crate) const LONGEST_FILE: u64 = 1 << 56;

/// The size of a disk that has so many bytes at least: in whole sectors of 512 bytes.
pub fn rounded_size(size: u64) -> Result<u64, FormatError>
    ensures least { IfOk result (λ n. size ≤ n) }
    ensures most { IfOk result (λ n. n ≤ 2 ^ 62) }
    ensures value { IfOk result (λ n. n ≡ next_multiple_of size 512) }
{
    if size > LARGEST_DISK {
        return Err(FormatError::TooLarge);
    }
    Ok(rounded_up(size, SECTOR))
}

/// The length of a cluster in bytes.
pub fn cluster_length(cluster_bits: u32) -> Result<u64, FormatError>
    ensures power { IfOk result (λ n. n ≡ 2 ^ cluster_bits) }
    ensures least_bits { IfOk result (λ _. 9 ≤ cluster_bits) }
    ensures most_bits { IfOk result (λ _. cluster_bits ≤ 21) }
    ensures least { IfOk result (λ n. 512 ≤ n) }
    ensures most { IfOk result (λ n. n ≤ 2097152) }
{
    if cluster_bits < 9 || cluster_bits > 21 {
        return Err(FormatError::ClusterBits);
    }
    Ok(power_of(cluster_bits))
}

/// 2 to that power.
fn power_of(bits: u32) -> u64
    requires least { 9 ≤ bits }
    requires most { bits ≤ 21 }
    ensures value { result ≡ 2 ^ bits }
    ensures least { 512 ≤ result }
    ensures most { result ≤ 2097152 }
{
    2u64.pow(bits)
}

impl Layout {
    ghost use Rattle.imago_qcow2_new.specs.Layout.{IsLayoutOf, file_length, size_of};
    ghost use Rattle.imago_qcow2_new.specs.Names.{HasNamesOf};

    /// Where everything stands in a file of a disk of that size, of which these clusters are
    /// stored, in units of [`cluster_length`]. The disk's size is rounded up to whole sectors of
    /// 512 bytes.
    ///
    /// # Errors
    ///
    /// Each [`FormatError`] says what can't be; [`FormatError::Memory`] is a refusal of memory, of
    /// which 24 bytes for each run of L2 tables are taken.
    pub fn new(
        alloc: Global,
        format: Format,
        size: u64,
        stored: Extents,
        backing: Option<Backing<'_>>,
    ) -> Result<Layout, FormatError>
        ensures layout { IfOk result (IsLayoutOf format size) }
        ensures names { IfOk result (HasNamesOf backing.entry) }
        ensures clusters { IfOk result (λ l. l.clusters ≡ stored) }
    {
        let gap = format.gaps.entry();
        if gap > 0 && format.version.number() < 3 {
            return Err(FormatError::NoZeroes);
        }
        let size = rounded_size(size)?;
        let cluster = cluster_length(format.cluster_bits)?;
        let l1_count = count_tables(size, cluster)?;
        let length = rounded_up(size, cluster);
        if stored.unit != cluster || stored.end > length {
            return Err(FormatError::OtherClusters);
        }
        let names = names_of(alloc, backing, cluster)?;
        let tables = tables_of(alloc, &stored, cluster, l1_count, gap)?;
        let used = plus(tables.stored, stored.stored)?;
        let others = counted(used, l1_count, cluster)?;
        let starts = starts_of(others, l1_count, cluster)?;
        let data_start = plus(starts.tables_start, tables.stored)?;
        let end = plus(data_start, stored.stored)?;
        if end > LONGEST_FILE || end / cluster > times(starts.blocks, cluster / 2)? {
            return Err(FormatError::TooLarge);
        }
        Ok(Layout {
            header: NewHeader {
                version: format.version,
                cluster_bits: format.cluster_bits,
                size,
                l1_count,
                l1_start: starts.l1_start,
                counts_start: cluster,
                counts_clusters: starts.counts,
                names,
            },
            cluster,
            gap,
            blocks: starts.blocks,
            blocks_start: starts.blocks_start,
            tables_start: starts.tables_start,
            data_start,
            end,
            tables,
            clusters: stored,
            length,
        })
    }
    /// The length of the file in bytes.
    pub fn file_length(&self) -> u64
        ensures { result ≡ file_length self.now }
    {
        self.end
    }

    /// The disk's size in bytes.
    pub fn disk_size(&self) -> u64
        ensures { result ≡ size_of self.now }
    {
        self.header.size
    }
}
