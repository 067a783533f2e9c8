// SPDX-License-Identifier: MIT
//! Whether each entry of a qcow2 file's tables can be read. L2 tables are read one at a time.
ghost use Rattle.std.specs.Prelude.{◌≡◌, ℕ, List, ◌+◌, ◌-◌, ◌*◌, ◌/◌, ◌%◌, ◌<◌, ◌≤◌, ◌^◌, length};
ghost use Rattle.std.specs.Prelude.{Decides, not, is_some, IfOk, Ok, IsTrue};
ghost use Rattle.imago_storage.specs.Bytes.{IsReadAt};
ghost use Rattle.imago_qcow2.specs.Numbers.{be64};
ghost use Rattle.imago_qcow2.specs.Entry.{table_in_entry};
ghost use Rattle.imago_qcow2.specs.Header.{header_of, IsClusterSize, IsSound};
ghost use Rattle.imago_qcow2.specs.Opening.{table_count};
ghost use Rattle.imago_qcow2.specs.Limit.{l1_length as l1_length_of};
ghost use Rattle.imago_img_checks.specs.Vetted.{IsThere, IsSafeCluster, AreSafeTables};
ghost use Rattle.imago_img_checks.specs.Vetted.{named_by, named_tables};
ghost use Rattle.imago_img_checks.specs.VettedParts.{IsEntrySafe, IsTableSafe, AreEntriesSafe};

use crate::finding::{EntryFault, Fault, Findings};
use imago_qcow2::entry::{GuestCluster, L2Table};
use imago_qcow2::header::{Compression, Header};
use imago_qcow2::layout::{LONGEST_L1, guest_cluster, l1_length, l1_table, l2_table};
use imago_qcow2::number::number64;
use imago_storage::error::Error;
use imago_storage::ext::StorageExt;
use imago_storage::storage::Storage;
use std::alloc::Global;

/// What a file and its header say, by which its entries are looked at.
#[derive(Clone, Copy)]
struct Shape {
    /// The file's length in bytes.
    file: u64,
    /// A cluster's length in bytes.
    cluster: u64,
    version: u32,
    compression: Compression,
}

impl Shape {
    /// How many bytes the file's last cluster lacks.
    fn lacking(self) -> u64
        requires { 0 < self.cluster }
        ensures { result ≡ (self.cluster - self.file % self.cluster) % self.cluster }
    {
        (self.cluster - self.file % self.cluster) % self.cluster
    }

    /// Whether bytes that begin at that offset, so many as are named, are in the file, whose last
    /// cluster may be cut.
    fn has(self, at: u64, count: u64) -> bool
        requires { 0 < self.cluster }
        ensures { Decides result (IsThere self.file self.cluster at count) }
    {
        if at >= self.file {
            return false;
        }
        count <= (self.file - at).saturating_add(self.lacking())
    }

    /// What is wrong with what an L2 entry says, if anything is.
    fn cluster_fault(self, says: GuestCluster) -> Option<EntryFault>
        requires { 0 < self.cluster }
        ensures { Decides (not (is_some result))
            (IsSafeCluster self.file self.cluster self.compression says) }
    {
        match says {
            GuestCluster::Absent | GuestCluster::Zero => None,
            GuestCluster::Stored(at) => self.stored_fault(at, self.cluster),
            GuestCluster::Compressed { at, length: count } => self.stream_fault(at, count),
            GuestCluster::Invalid => Some(EntryFault::Invalid),
        }
    }

    /// The same of bytes that it names.
    fn stored_fault(self, at: u64, count: u64) -> Option<EntryFault>
        requires { 0 < self.cluster }
        ensures { Decides (not (is_some result)) (IsThere self.file self.cluster at count) }
    {
        if self.has(at, count) {
            None
        } else {
            Some(EntryFault::PastEnd)
        }
    }

    /// The same of a compressed cluster.
    fn stream_fault(self, at: u64, count: u64) -> Option<EntryFault>
        requires { 0 < self.cluster }
        ensures { Decides (not (is_some result)) (IsThere self.file self.cluster at count
            × (self.compression ≡ Compression.Deflate)) }
    {
        match self.compression {
            Compression::Deflate => self.stored_fault(at, count),
            Compression::Zstd => Some(EntryFault::Zstd),
        }
    }
}

/// Whether each entry of an L2 table, which begins at that offset of the file, can be read.
fn look_at_entries(
    shape: Shape,
    table: &[u8],
    at: u64,
    findings: &mut Findings,
) -> Result<bool, Error>
    requires size { IsClusterSize shape.cluster }
    requires positive { 0 < shape.cluster }
    ensures { IfOk result (λ safe. Decides safe ((j : ℕ) → j < length table.now / 8
        → IsEntrySafe shape (be64 table.now (8 * j)))) }
{
    let mut safe = true;
    for index in 0..table.len() / 8 {
        let entry = number64(table, 8 * index);
        let here = look_at_entry(shape, entry, at.saturating_add(8 * index as u64), findings)?;
        safe = safe && here;
    }
    Ok(safe)
}

/// The same of one entry, which stands at that offset.
fn look_at_entry(shape: Shape, entry: u64, at: u64, findings: &mut Findings) -> Result<bool, Error>
    requires size { IsClusterSize shape.cluster }
    requires positive { 0 < shape.cluster }
    ensures { IfOk result (λ safe. Decides safe (IsEntrySafe shape entry)) }
{
    let says = guest_cluster(entry, shape.cluster, shape.version);
    match shape.cluster_fault(says) {
        None => Ok(true),
        Some(fault) => {
            findings.add(Fault::L2Entry(fault), Some(at))?;
            Ok(false)
        }
    }
}

/// The same of the L2 table that an L1 entry names, if it names one. The L1 entry stands at that
/// offset. There is a buffer for the table.
fn look_at_table<S: Storage>(
    storage: &S,
    alloc: Global,
    shape: Shape,
    says: L2Table,
    place: u64,
    table: &mut [u8],
    findings: &mut Findings,
) -> Result<bool, Error>
    requires size { IsClusterSize shape.cluster }
    requires positive { 0 < shape.cluster }
    requires whole { length table.old ≡ shape.cluster }
    ensures whole { length table.new ≡ shape.cluster }
    ensures safe { IsTrue (S.features storage.now).tells_bytes
        → IfOk result (λ safe. Decides safe (IsTableSafe shape (S.bytes storage.now) says)) }
{
    match says {
        L2Table::Absent => Ok(true),
        L2Table::Stored(at) => {
            storage.read(alloc, table, at)?;
            look_at_entries(shape, table, at, findings)
        }
        L2Table::Invalid => {
            findings.add(Fault::L1Entry(EntryFault::Invalid), Some(place))?;
            Ok(false)
        }
    }
}

/// The same of all L1 entries of the disk, which begin at that offset.
fn look_at_l1<S: Storage>(
    storage: &S,
    alloc: Global,
    shape: Shape,
    entries: &[u8],
    start: u64,
    table: &mut [u8],
    findings: &mut Findings,
) -> Result<bool, Error>
    requires size { IsClusterSize shape.cluster }
    requires positive { 0 < shape.cluster }
    requires most { shape.cluster ≤ 2 ^ 21 }
    requires whole { length table.old ≡ shape.cluster }
    ensures safe { IsTrue (S.features storage.now).tells_bytes
        → IfOk result (λ safe. Decides safe
        (AreEntriesSafe shape (S.bytes storage.now) entries.now (length entries.now / 8))) }
{
    let mut safe = true;
    for index in 0..entries.len() / 8 {
        let says = l2_table(entries, index as u64, shape.cluster, shape.file);
        let place = start.saturating_add(8 * index as u64);
        let here = look_at_table(storage, alloc, shape, says, place, table, findings)?;
        safe = safe && here;
    }
    Ok(safe)
}

/// Whether an L1 entry names an L2 table, as 1 or 0.
fn one_if_named(says: L2Table) -> u64
    ensures value { result ≡ named_by says }
    ensures most { result ≤ 1 }
{
    match says {
        L2Table::Stored(_) => 1,
        L2Table::Absent | L2Table::Invalid => 0,
    }
}

/// How many L1 entries name an L2 table.
fn count_tables(shape: Shape, entries: &[u8]) -> u64
    requires positive { 0 < shape.cluster }
    requires most { shape.cluster ≤ 2 ^ 21 }
    ensures count { result ≡ named_tables
        (λ i. table_in_entry shape.file shape.cluster (be64 entries.now (8 * i)))
        (length entries.now / 8) }
    ensures most { result ≤ length entries.now / 8 }
{
    let mut count: u64 = 0;
    for index in 0..entries.len() / 8 {
        count += one_if_named(l2_table(entries, index as u64, shape.cluster, shape.file));
    }
    count
}

/// The bytes of the file from an offset on.
pub fn read_bytes<S: Storage>(
    storage: &S,
    alloc: Global,
    at: u64,
    count: u64,
) -> Result<Vec<u8>, Error>
    ensures whole { IfOk result (λ v. length v.items ≡ count) }
    ensures read { IsTrue (S.features storage.now).tells_bytes
        → IfOk result (λ v. IsReadAt (S.bytes storage.now) at v.items) }
{
    let mut bytes = vec![in alloc; 0u8; count as usize]?;
    storage.read(alloc, &mut bytes, at)?;
    Ok(bytes)
}

/// The disk needs no more of the L1 table than the header of the file, which has that length, says
/// that there is. This is a law of such a header, and nothing is done.
fn no_more_is_needed(head: &[u8], header: Header, file: u64)
    requires says { header_of head.now file ≡ Ok header }
    requires sound { IsSound head.now file header }
    ensures { 8 * table_count head.now ≤ l1_length_of head.now }
{}

/// Whether the tables of a file of that length, whose header says that, have at most so many bytes,
/// and each of their entries can be read. An L1 table of more than 32 MiB isn't read.
pub fn vet_tables<S: Storage>(
    storage: &S,
    alloc: Global,
    head: &[u8],
    header: Header,
    file: u64,
    most: u64,
    findings: &mut Findings,
) -> Result<bool, Error>
    requires len { 112 ≤ length head.now }
    requires says { header_of head.now file ≡ Ok header }
    requires sound { IsSound head.now file header }
    ensures { IsTrue (S.features storage.now).tells_bytes → file ≡ length (S.bytes storage.now)
        → IsReadAt (S.bytes storage.now) 0 head.now
        → IfOk result (λ safe. Decides safe (AreSafeTables most (S.bytes storage.now))) }
{
    let Ok(l1) = l1_table(head, file) else {
        return Ok(false);
    };
    let said = l1_length(head);
    if said > LONGEST_L1 {
        findings.add(Fault::LongTable(said), Some(l1.start))?;
        return Ok(false);
    }
    no_more_is_needed(head, header, file);
    let count = 8 * l1.count;
    let entries = read_bytes(storage, alloc, l1.start, count)?;
    let shape = Shape {
        file,
        cluster: l1.cluster,
        version: header.version(),
        compression: header.compression(),
    };
    let taken = count + l1.cluster * count_tables(shape, &entries);
    if taken > most {
        findings.add(Fault::Tables { taken, most }, Some(l1.start))?;
        return Ok(false);
    }
    let mut table = vec![in alloc; 0u8; l1.cluster as usize]?;
    look_at_l1(
        storage, alloc, shape, &entries, l1.start, &mut table, findings,
    )
}
