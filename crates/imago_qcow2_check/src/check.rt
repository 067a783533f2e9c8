// SPDX-License-Identifier: MIT
//! The check of a file.
ghost use Rattle.std.specs.Prelude.{◌≡◌, ℕ, List, ◌+◌, ◌*◌, ◌/◌, ◌^◌, ◌<◌, ◌≤◌, length};
ghost use Rattle.std.specs.Prelude.{slice_index, min, OnOk, IfOk, IsOk, IsTrue};
ghost use Rattle.imago_storage.specs.Bytes.{IsReadAt};
ghost use Rattle.imago_qcow2.specs.Header.{IsClusterSize, header_of};
ghost use Rattle.imago_qcow2_check.specs.Tallies.{setting_of, Adds};
ghost use Rattle.imago_qcow2_check.specs.HeadParts.{IsHead};
ghost use Rattle.imago_qcow2_check.specs.CountParts.{count_from};
ghost use Rattle.imago_qcow2_check.specs.Counts.{count_of, blocks_count, blocks_start};
ghost use Rattle.imago_qcow2_check.specs.Bitmaps.{bitmaps_extension};
ghost use Rattle.imago_qcow2_check.specs.Uses.{setting, uses_of};
ghost use Rattle.imago_qcow2_check.specs.Faults.{corruptions_of, leaks_of, verdict_of};
ghost use Rattle.imago_qcow2_check.specs.Faults.{entry_faults};
ghost use Rattle.imago_qcow2_check.specs.Faults.{table_faults_of};
ghost use Rattle.imago_qcow2_check.specs.Clusters.{cluster_count};
ghost use Rattle.imago_qcow2_check.specs.Known.{IsKnown};
ghost use Rattle.imago_qcow2_check.specs.Verdicts.{IsVerdict};

use crate::bitmaps::look_at_bitmaps;
use crate::blocks::{compare, look_at_blocks, look_for_shared};
use crate::counts::read_counts;
use crate::entry::Place;
use crate::fault::{CheckError, Fault, Table, Verdict};
use crate::head::{Head, read_head};
use crate::shape::Shape;
use crate::snapshots::look_at_snapshots;
use crate::tables::{look_at_l1, read_bytes};
use crate::tally::Tally;
use imago_storage::storage::Storage;
use std::alloc::Global;

/// How many bytes are kept for each cluster of the file: its count, and how often it is used.
const PER_CLUSTER: u64 = 8;

/// What a check may take.
#[derive(Clone, Copy, Debug, PartialEq, Eq)]
pub struct Limits {
    /// How many bytes of memory counts and uses may have: 8 for each cluster of the file.
    pub memory: u64,
    /// How many faults are kept.
    pub faults: usize,
}

/// What a check found.
#[derive(Drop, Debug)]
pub struct Report {
    /// How many clusters are used more often than their counts say, and how many faults entries
    /// have.
    pub corruptions: u64,
    /// How many clusters are used less often than their counts say.
    pub leaks: u64,
    /// The first faults, in the order in which they were found.
    pub faults: Vec<Fault>,
}

impl Report {
    /// What is said of the file.
    pub fn verdict(&self) -> Verdict
        ensures { result ≡ verdict_of self.now.corruptions self.now.leaks }
    {
        if self.corruptions > 0 {
            return Verdict::Corrupt;
        }
        if self.leaks > 0 {
            return Verdict::Leaks;
        }
        Verdict::Faultless
    }
}

/// The shape of a file whose header says this, if counts and uses need no more memory than that.
fn shape_of(head: Head, limits: Limits) -> Result<Shape, CheckError>
    requires { IsClusterSize head.cluster }
    ensures within { IfOk result (λ s. 8 * s.clusters ≤ limits.memory) }
    ensures file { IfOk result (λ s. s.file ≡ head.file) }
    ensures cluster { IfOk result (λ s. s.cluster ≡ head.cluster) }
    ensures version { IfOk result (λ s. s.version ≡ head.version) }
{
    if head.file.div_ceil(head.cluster) > limits.memory / PER_CLUSTER {
        return Err(CheckError::TooLarge);
    }
    match Shape::new(head.file, head.cluster, head.version) {
        Some(shape) => Ok(shape),
        None => Err(CheckError::TooLarge),
    }
}

/// Counts all uses of clusters.
fn count_uses<S: Storage>(
    storage: &S,
    alloc: Global,
    head: Head,
    shape: Shape,
    counts: &[u32],
    table: &[u8],
    tally: &mut Tally,
) -> Result<(), CheckError>
    requires all { length tally.old.uses.items ≡ shape.clusters }
    ensures all { OnOk result (length tally.new.uses.items ≡ shape.clusters) }
    ensures told { IsTrue (S.features storage.now).tells_bytes
        → IsHead (S.bytes storage.now) head
        → head.bitmaps ≡ bitmaps_extension (S.bytes storage.now)
        → setting_of shape counts.now ≡ setting (S.bytes storage.now)
        → length table.now ≡ head.blocks_length
        → IsReadAt (S.bytes storage.now) head.blocks_start table.now
        → OnOk result
        (Adds tally.old tally.new (uses_of (S.bytes storage.now))
        (table_faults_of (S.bytes storage.now))) }
{
    tally.use_bytes(shape, 0, shape.cluster)?;
    let place = Place {
        table: head.l1_start,
        active: true,
    };
    look_at_l1(storage, alloc, shape, counts, place, head.l1_count, tally)?;
    look_at_snapshots(
        storage,
        alloc,
        shape,
        counts,
        head.snapshots_start,
        head.snapshots_count,
        tally,
    )?;
    look_at_blocks(shape, table, head.blocks_start, tally)?;
    look_at_bitmaps(storage, alloc, shape, head.bitmaps, tally)?;
    Ok(())
}

/// Counts faults and leaks of a file.
fn count<S: Storage>(storage: &S, alloc: Global, limits: Limits) -> Result<Report, CheckError>
    ensures corruptions { IsTrue (S.features storage.now).tells_bytes
        → IfOk result (λ r. r.corruptions ≡ corruptions_of (S.bytes storage.now)) }
    ensures leaks { IsTrue (S.features storage.now).tells_bytes
        → IfOk result (λ r. r.leaks ≡ leaks_of (S.bytes storage.now)) }
    ensures header { IsTrue (S.features storage.now).tells_bytes → OnOk result
        (IsOk (header_of (S.bytes storage.now) (length (S.bytes storage.now)))) }
    ensures known { IsTrue (S.features storage.now).tells_bytes
        → OnOk result (IsKnown (S.bytes storage.now)) }
    ensures within { IsTrue (S.features storage.now).tells_bytes → OnOk result
        (8 * cluster_count (setting (S.bytes storage.now)) ≤ limits.memory) }
{
    let head = read_head(storage, alloc)?;
    let shape = shape_of(head, limits)?;
    let table = read_bytes(storage, alloc, head.blocks_start, head.blocks_length)?;
    let counts = read_counts(storage, alloc, shape, head.order, &table)?;
    let mut tally = Tally::new(alloc, shape.clusters, limits.faults)?;
    count_uses(storage, alloc, head, shape, &counts, &table, &mut tally)?;
    look_for_shared(shape, &table, head.blocks_start, &mut tally)?;
    compare(shape.cluster, &counts, &mut tally)?;
    Ok(Report {
        corruptions: tally.corruptions,
        leaks: tally.leaks,
        faults: tally.faults,
    })
}

/// Checks a qcow2 file: counts how often each of its clusters is used, and compares that with its
/// reference count. It reads the header, the tables and the reference counts, and changes nothing.
///
/// A file that can't be checked is a [`CheckError`]: its header has a fault, something in it may
/// use clusters and isn't known, counts and uses need more memory than the limit, or a read was
/// refused. So no leak is told of a file in which something isn't known.
pub fn check<S: Storage>(storage: &S, alloc: Global, limits: Limits) -> Result<Report, CheckError>
    ensures corruptions { IsTrue (S.features storage.now).tells_bytes
        → IfOk result (λ r. r.corruptions ≡ corruptions_of (S.bytes storage.now)) }
    ensures leaks { IsTrue (S.features storage.now).tells_bytes
        → IfOk result (λ r. r.leaks ≡ leaks_of (S.bytes storage.now)) }
    ensures verdict { IsTrue (S.features storage.now).tells_bytes → IfOk result
        (λ r. IsVerdict (S.bytes storage.now) (verdict_of r.corruptions r.leaks)) }
    ensures header { IsTrue (S.features storage.now).tells_bytes → OnOk result
        (IsOk (header_of (S.bytes storage.now) (length (S.bytes storage.now)))) }
    ensures known { IsTrue (S.features storage.now).tells_bytes
        → OnOk result (IsKnown (S.bytes storage.now)) }
    ensures within { IsTrue (S.features storage.now).tells_bytes → OnOk result
        (8 * cluster_count (setting (S.bytes storage.now)) ≤ limits.memory) }
{
    let report = count(storage, alloc, limits)?;
    Ok(report)
}
