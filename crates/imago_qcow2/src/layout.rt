// SPDX-License-Identifier: MIT
//! Where the tables of an image lie in its file, and what their entries say: for who keeps these
//! alone in memory.
ghost use Rattle.std.specs.Prelude.{◌≡◌, ℕ, ◌+◌, ◌*◌, ◌^◌, ◌<◌, ◌≤◌, length, IfOk, IfErr, Err};
ghost use Rattle.std.specs.Prelude.{List, OnOk};
ghost use Rattle.imago_storage.specs.declared.error.Error.TheVariants.{Memory};
ghost use Rattle.imago_qcow2.specs.Numbers.{be64};
ghost use Rattle.imago_qcow2.specs.Fault.{error_of, by_fault};
ghost use Rattle.imago_qcow2.specs.Header.{header_of};
ghost use Rattle.imago_qcow2.specs.Entry.{cluster_length, l1_start, table_in_entry};
ghost use Rattle.imago_qcow2.specs.Entry.{cluster_in_entry};
ghost use Rattle.imago_qcow2.specs.Header.{IsClusterSize};
ghost use Rattle.imago_qcow2.specs.Limit.{tables_length, l1_length as l1_length_of};
ghost use Rattle.imago_qcow2.specs.Opening.{table_count};

use crate::cluster::ClusterSize;
use crate::entry::{GuestCluster, L2Table, cluster_in, table_in};
use crate::fault::{HeaderFault, OpenFault};
use crate::header;
use crate::number::{number32, number64};
use crate::table::refuse_over;
use std::alloc::Global;

/// The most bytes that the L1 table of a file has, as QEMU opens it.
pub const LONGEST_L1: u64 = 32 << 20;

/// The most bytes that the tables of a file may have, unless whoever opens it says otherwise: 256
/// MiB, which are enough for a disk of less than 2 TiB in clusters of 64 KiB.
pub const USUAL_TABLES: u64 = 256 << 20;

/// Where the header says how many entries of 8 bytes the L1 table has.
const L1_COUNT: usize = 36;

/// The L1 table of a file, as far as the disk needs it.
#[derive(Clone, Copy, Debug, PartialEq, Eq)]
pub struct L1Table {
    /// Where it begins in the file, in bytes.
    pub start: u64,
    /// How many entries of 8 bytes the disk needs.
    pub count: u64,
    /// The length of a cluster, and so of an L2 table, in bytes.
    pub cluster: u64,
}

/// Where the L1 table of a file of that length lies, by the first 112 bytes of the file, with 0
/// past its end. The fault of a header is the one for which
/// [`open_image`](crate::qcow2::Qcow2::open_image) refuses it.
pub fn l1_table(head: &[u8], file: u64) -> Result<L1Table, HeaderFault>
    requires { 112 ≤ length head.now }
    ensures start { IfOk result (λ t. t.start ≡ l1_start head.now) }
    ensures count { IfOk result (λ t. t.count ≡ table_count head.now) }
    ensures cluster { IfOk result (λ t. t.cluster ≡ cluster_length head.now) }
    ensures least { IfOk result (λ t. 512 ≤ t.cluster) }
    ensures most { IfOk result (λ t. t.cluster ≤ 2 ^ 21) }
    ensures inside { IfOk result (λ t. t.start + 8 * t.count ≤ file) }
    ensures refused { IfErr result (λ f. header_of head.now file ≡ Err (error_of f)) }
{
    let header = header::read(head, file)?;
    let cluster = header.cluster_size;
    Ok(L1Table {
        start: header.l1_start,
        count: header.size.div_ceil(cluster / 8 * cluster),
        cluster,
    })
}

/// How many bytes the L1 table of a file has, by the first bytes of the file: it may have more
/// entries than the disk needs.
pub fn l1_length(head: &[u8]) -> u64
    requires { 40 ≤ length head.now }
    ensures { result ≡ l1_length_of head.now }
{
    8 * number32(head, L1_COUNT) as u64
}

/// Refuses the tables of a file of that length, by the entries of its L1 table that the disk needs:
/// 8 bytes for each, and a cluster for each L2 table that they name, counted once.
///
/// [`OpenFault::TablesTooLarge`] are tables of more than so many bytes. No L2 table is read for it.
/// [`OpenFault::Driver`] is no memory.
pub fn refuse_tables(
    alloc: Global,
    entries: &[u8],
    cluster: u64,
    file: u64,
    most: u64,
) -> Result<(), OpenFault>
    requires positive { 0 < cluster }
    requires longest { cluster ≤ 2 ^ 21 }
    ensures within { (bytes : List ℕ) (count : ℕ) → file ≡ length bytes
        → length entries.now ≡ 8 * count
        → OnOk result (tables_length bytes cluster entries.now count ≤ most) }
    ensures refused { IfErr result (by_fault (λ e. e ≡ Memory)
        ((bytes : List ℕ) (count : ℕ) → file ≡ length bytes → length entries.now ≡ 8 * count
        → most < tables_length bytes cluster entries.now count)) }
{
    refuse_over(alloc, entries, cluster, file, most)
}

/// What an entry of the L1 table of a file of that length says: the one of that index in these
/// bytes of the table.
pub fn l2_table(entries: &[u8], index: u64, cluster: u64, file: u64) -> L2Table
    requires within { 8 * index + 8 ≤ length entries.now }
    requires positive { 0 < cluster }
    requires most { cluster < 2 ^ 32 }
    ensures says { result ≡ table_in_entry file cluster (be64 entries.now (8 * index)) }
    ensures small { (at : ℕ) → result ≡ L2Table.Stored at → at < 2 ^ 56 }
{
    table_in(file, cluster, number64(entries, (8 * index) as usize))
}

/// What an entry of an L2 table says of its guest cluster, in an image of that version whose
/// clusters have that length in bytes.
pub fn guest_cluster(entry: u64, cluster: u64, version: u32) -> GuestCluster
    requires { IsClusterSize cluster }
    ensures says { result ≡ cluster_in_entry version cluster entry }
    ensures small { (at : ℕ) → result ≡ GuestCluster.Stored at → at < 2 ^ 56 }
{
    cluster_in(version, ClusterSize::of_length(cluster), entry)
}
