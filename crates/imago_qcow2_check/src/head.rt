// SPDX-License-Identifier: MIT
//! What the header of a file says of the parts that use clusters.
ghost use Rattle.std.specs.Prelude.{◌≡◌, ℕ, List, ◌+◌, ◌*◌, ◌/◌, ◌%◌, ◌^◌, ◌<◌, ◌≤◌, length, IfOk};
ghost use Rattle.std.specs.Prelude.{OnOk, IsOk, IsTrue};
ghost use Rattle.imago_qcow2.specs.Header.{IsClusterSize, header_of, own_length, features_at};
ghost use Rattle.std.specs.Prelude.{true, nat_eq, if◌then◌else◌};
ghost use Rattle.imago_qcow2.specs.Numbers.{be32};
ghost use Rattle.imago_qcow2.specs.Entry.{cluster_length};
ghost use Rattle.imago_qcow2.specs.Backing.{extensions_end};
ghost use Rattle.imago_qcow2_check.specs.Known.{is_known_type, bitmaps_type, known_from};
ghost use Rattle.imago_qcow2_check.specs.Known.{IsKnown};
ghost use Rattle.imago_qcow2_check.specs.Bitmaps.{extension_from, bitmaps_extension};
ghost use Rattle.imago_qcow2_check.specs.HeadParts.{IsHead};
ghost use Rattle.imago_qcow2_check.specs.Counts.{count_order};

use crate::fault::CheckError;
use imago_qcow2::header::{self, HEAD_LENGTH};
use imago_qcow2::number::{number32, number64};
use imago_storage::ext::StorageExt;
use imago_storage::storage::Storage;
use std::alloc::Global;

/// The most entries that the L1 table may have: 32 MiB.
const MOST_L1_ENTRIES: u32 = 4_194_304;

/// The most bytes that the table of blocks of counts may have.
const LONGEST_COUNT_TABLE: u64 = 8 << 20;

/// The most snapshots that there may be.
const MOST_SNAPSHOTS: u32 = 65536;

/// The type of the header extension that says where bitmaps are.
const BITMAPS: u32 = 0x2385_2875;

/// The autoclear feature that says that bitmaps are valid.
const VALID_BITMAPS: u64 = 1;

/// What the header says.
#[derive(Clone, Copy)]
pub(crate) struct Head {
    /// The file's length in bytes.
    pub(crate) file: u64,
    /// A cluster's length in bytes.
    pub(crate) cluster: u64,
    pub(crate) version: u32,
    /// How many bits a reference count has, by the base 2 logarithm.
    pub(crate) order: u32,
    /// Where the table of blocks of counts begins, in bytes, and how long it is.
    pub(crate) blocks_start: u64,
    pub(crate) blocks_length: usize,
    /// Where the L1 table begins, in bytes, and how many entries it has.
    pub(crate) l1_start: u64,
    pub(crate) l1_count: u32,
    /// Where the table of snapshots begins, in bytes, and how many there are.
    pub(crate) snapshots_start: u64,
    pub(crate) snapshots_count: u32,
    /// Where the header extension of bitmaps begins that are valid, or 0.
    pub(crate) bitmaps: u64,
}

/// Whether header extensions of that type are known, and use no cluster that isn't counted: the
/// format of the backing file, the names of features, bitmaps, and the name of an external data
/// file.
fn is_known(kind: u32) -> bool
    ensures { result ≡ is_known_type kind }
{
    kind == 0xe279_2aca || kind == 0x6803_f857 || kind == BITMAPS || kind == 0x4441_5441
}

/// Where the last extension of bitmaps begins, behind one of that type: there, or where one was found
/// before.
fn bitmaps_by(kind: u32, at: u64, found: u64) -> u64
    ensures { result ≡ (if nat_eq kind bitmaps_type then at else found) }
{
    if kind == BITMAPS {
        return at;
    }
    found
}

/// The type of the header extension at that offset of the file, and the length of what it holds, in
/// bytes.
fn extension_at<S: Storage>(storage: &S, alloc: Global, at: u64) -> Result<(u32, u64), CheckError>
    ensures kind { IsTrue (S.features storage.now).tells_bytes
        → IfOk result (λ r. r.0 ≡ be32 (S.bytes storage.now) at) }
    ensures count { IsTrue (S.features storage.now).tells_bytes
        → IfOk result (λ r. r.1 ≡ be32 (S.bytes storage.now) (at + 4)) }
    ensures small { IfOk result (λ r. r.1 < 2 ^ 32) }
{
    let mut head = [0u8; 8];
    storage.read(alloc, &mut head, at)?;
    Ok((number32(&head, 0), number32(&head, 4) as u64))
}

/// Where the last header extension of bitmaps begins, or 0, if all extensions are known. They stand
/// from the offset on, and don't pass the end.
fn check_extensions<S: Storage>(
    storage: &S,
    alloc: Global,
    start: u64,
    end: u64,
) -> Result<u64, CheckError>
    requires { end ≤ 2 ^ 21 }
    ensures known { IsTrue (S.features storage.now).tells_bytes
        → OnOk result (known_from (S.bytes storage.now) start end ≡ true) }
    ensures bitmaps { IsTrue (S.features storage.now).tells_bytes
        → IfOk result (λ b. b ≡ extension_from (S.bytes storage.now) 0 start end) }
{
    let mut at = start;
    let mut bitmaps = 0;
    while at < end {
        let (kind, count) = extension_at(storage, alloc, at)?;
        if kind == 0 {
            return Ok(bitmaps);
        }
        if end - at < 8 + count {
            return Err(CheckError::Extensions);
        }
        if !is_known(kind) {
            return Err(CheckError::UnknownExtension(kind));
        }
        bitmaps = bitmaps_by(kind, at, bitmaps);
        at += 8 + count.next_multiple_of(8);
    }
    Ok(bitmaps)
}

/// How many bits a reference count has, by the base 2 logarithm.
#[tactic(auto, unfolding(crate::specs::Counts::count_order))]
fn order_of(head: &[u8]) -> u32
    requires { 112 ≤ length head.now }
    ensures { result ≡ count_order head.now }
{
    if number32(head, 4) < 3 {
        return 4;
    }
    number32(head, 96)
}

/// What the first bytes of a file of that length say.
fn head_by(head: &[u8], file: u64) -> Result<Head, CheckError>
    requires { 112 ≤ length head.now }
    ensures header { OnOk result (IsOk (header_of head.now file)) }
    ensures says { IfOk result (IsHead head.now) }
    ensures file { IfOk result (λ h. h.file ≡ file) }
    ensures size { IfOk result (λ h. IsClusterSize h.cluster) }
    ensures widths { IfOk result (λ h. h.order ≤ 6) }
{
    let header = match header::read(head, file) {
        Ok(header) => header,
        Err(fault) => return Err(CheckError::Header(fault)),
    };
    let order = order_of(head);
    let cluster = header.cluster_size();
    let blocks_start = number64(head, 48);
    let blocks_length = number32(head, 56) as u64 * cluster;
    let l1_count = number32(head, 36);
    let snapshots_start = number64(head, 64);
    let snapshots_count = number32(head, 60);
    if l1_count > MOST_L1_ENTRIES {
        return Err(CheckError::LongTable);
    }
    if order > 6 || blocks_start % cluster != 0 || blocks_length > LONGEST_COUNT_TABLE {
        return Err(CheckError::CountTable);
    }
    if snapshots_start % cluster != 0 || snapshots_count > MOST_SNAPSHOTS {
        return Err(CheckError::SnapshotTable);
    }
    Ok(Head {
        file,
        cluster,
        version: header.version(),
        order,
        blocks_start,
        blocks_length: blocks_length as usize,
        l1_start: number64(head, 40),
        l1_count,
        snapshots_start,
        snapshots_count,
        bitmaps: 0,
    })
}

/// The autoclear features. Version 2 has none.
#[tactic(auto, unfolding(imago_qcow2::specs::Header::features_at))]
fn autoclear_features(head: &[u8]) -> u64
    requires { 112 ≤ length head.now }
    ensures { result ≡ features_at head.now 88 }
{
    if number32(head, 4) < 3 {
        return 0;
    }
    number64(head, 88)
}

/// The header's own length in bytes.
#[tactic(auto, unfolding(imago_qcow2::specs::Header::own_length))]
fn length_of(head: &[u8]) -> u64
    requires { 112 ≤ length head.now }
    ensures { result ≡ own_length head.now }
{
    if number32(head, 4) < 3 {
        return 72;
    }
    number32(head, 100) as u64
}

/// Where header extensions end at the latest: at the backing file's name, or with the first
/// cluster.
fn end_of(head: &[u8], cluster: u64) -> u64
    requires { 112 ≤ length head.now }
    ensures most { result ≤ cluster }
    ensures says { cluster ≡ cluster_length head.now → result ≡ extensions_end head.now }
{
    let name = number64(head, 8);
    if name == 0 {
        return cluster;
    }
    cluster.min(name)
}

/// Where the header extension of bitmaps begins that are valid, or 0, if a file whose header is sound
/// has nothing that may use clusters and isn't known.
fn check_known<S: Storage>(
    storage: &S,
    alloc: Global,
    head: &[u8],
    cluster: u64,
) -> Result<u64, CheckError>
    requires len { 112 ≤ length head.now }
    requires most { cluster ≤ 2 ^ 21 }
    ensures features { OnOk result (features_at head.now 88 < 2) }
    ensures extensions { IsTrue (S.features storage.now).tells_bytes
        → cluster ≡ cluster_length head.now → OnOk result
        (known_from (S.bytes storage.now) (own_length head.now) (extensions_end head.now) ≡ true) }
    ensures bitmaps { IsTrue (S.features storage.now).tells_bytes
        → cluster ≡ cluster_length head.now → IfOk result
        (λ b. b ≡ (if nat_eq (features_at head.now 88 % 2) 0 then 0 else
        extension_from (S.bytes storage.now) 0 (own_length head.now) (extensions_end head.now))) }
{
    let features = autoclear_features(head);
    if features > VALID_BITMAPS {
        return Err(CheckError::UnknownFeatures(features));
    }
    let bitmaps = check_extensions(storage, alloc, length_of(head), end_of(head, cluster))?;
    if features == 0 {
        return Ok(0);
    }
    Ok(bitmaps)
}

/// Reads the header of a file. Refused are a header that has a fault, tables that are too long, and
/// an image with something that may use clusters and isn't known.
pub(crate) fn read_head<S: Storage>(storage: &S, alloc: Global) -> Result<Head, CheckError>
    ensures header { IsTrue (S.features storage.now).tells_bytes → OnOk result
        (IsOk (header_of (S.bytes storage.now) (length (S.bytes storage.now)))) }
    ensures says { IsTrue (S.features storage.now).tells_bytes
        → IfOk result (IsHead (S.bytes storage.now)) }
    ensures known { IsTrue (S.features storage.now).tells_bytes
        → OnOk result (IsKnown (S.bytes storage.now)) }
    ensures bitmaps { IsTrue (S.features storage.now).tells_bytes
        → IfOk result (λ h. h.bitmaps ≡ bitmaps_extension (S.bytes storage.now)) }
    ensures file { IfOk result (λ h. h.file ≡ length (S.bytes storage.now)) }
    ensures size { IfOk result (λ h. IsClusterSize h.cluster) }
    ensures widths { IfOk result (λ h. h.order ≤ 6) }
{
    let file = storage.size()?;
    let mut head = [0u8; HEAD_LENGTH];
    storage.read(alloc, &mut head, 0)?;
    let says = head_by(&head, file)?;
    let bitmaps = check_known(storage, alloc, &head, says.cluster)?;
    Ok(Head { bitmaps, ..says })
}
