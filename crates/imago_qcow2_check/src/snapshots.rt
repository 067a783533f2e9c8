// SPDX-License-Identifier: MIT
//! The table of snapshots, and the tables of each.
ghost use Rattle.std.specs.Prelude.{◌≡◌, ℕ, List, ◌+◌, ◌-◌, ◌*◌, ◌/◌, ◌%◌, ◌^◌, ◌<◌, ◌≤◌, length};
ghost use Rattle.std.specs.Prelude.{nat_eq, nat_lt, not, ◌||◌, OnOk, IfOk, IsTrue};
ghost use Rattle.std.specs.Int.{next_multiple_of};
ghost use Rattle.imago_qcow2_check.specs.Sums.{total, one_if};
ghost use Rattle.imago_qcow2_check.specs.Clusters.{use_of, past_fault};
ghost use Rattle.imago_qcow2_check.specs.Snapshots.{snapshot_l1, snapshot_l1_count, snapshot_end};
ghost use Rattle.imago_qcow2_check.specs.Snapshots.{snapshots_end, snapshot_at, is_long_table};
ghost use Rattle.imago_qcow2_check.specs.Uses.{snapshot_uses, snapshot_faults, snapshots_uses};
ghost use Rattle.imago_qcow2_check.specs.Uses.{snapshot_tables_faults, snapshots_faults};
ghost use Rattle.imago_qcow2_check.specs.SnapshotParts.{IsSnapshot};
ghost use Rattle.imago_qcow2_check.specs.Tallies.{setting_of, Adds};

use crate::counts::number16;
use crate::entry::Place;
use crate::fault::{CheckError, Fault, Table};
use crate::shape::Shape;
use crate::tables::look_at_l1;
use crate::tally::Tally;
use imago_qcow2::number::{number32, number64};
use imago_storage::ext::StorageExt;
use imago_storage::storage::Storage;
use std::alloc::Global;

/// The most entries that the L1 table of a snapshot may have: 32 MiB.
const MOST_ENTRIES: u32 = 4_194_304;

/// The most bytes of extra data that a snapshot's entry may have, as qemu reads it.
const LONGEST_EXTRA: u32 = 1024;

/// The most bytes that the table of snapshots may have, as qemu reads it.
const LONGEST_TABLE: u64 = 64 << 20;

/// What is looked at of a snapshot.
#[derive(Clone, Copy)]
pub(crate) struct Snapshot {
    /// Where its L1 table begins.
    pub(crate) l1_start: u64,
    /// How many entries that has.
    pub(crate) l1_count: u32,
    /// How many bytes of extra data its own entry has.
    pub(crate) extra: u32,
    /// Where that entry ends.
    pub(crate) end: u64,
}

/// The snapshot whose entry begins there.
fn read_snapshot<S: Storage>(storage: &S, alloc: Global, at: u64) -> Result<Snapshot, CheckError>
    requires { at < 2 ^ 63 }
    ensures { IsTrue (S.features storage.now).tells_bytes
        → IfOk result (IsSnapshot (S.bytes storage.now) at) }
{
    let mut head = [0u8; 40];
    storage.read(alloc, &mut head, at)?;
    let extra = number32(&head, 36);
    Ok(Snapshot {
        l1_start: number64(&head, 0),
        l1_count: number32(&head, 8),
        extra,
        end: at + 40 + extra as u64 + number16(&head, 12) + number16(&head, 14),
    })
}

/// Whether a snapshot's L1 table doesn't begin where a cluster does, or is too long.
fn is_invalid(shape: Shape, snapshot: Snapshot) -> bool
    ensures { result ≡ (not (nat_eq (snapshot.l1_start % shape.cluster) 0)
        || nat_lt 4194304 snapshot.l1_count) }
{
    if shape.rest(snapshot.l1_start) != 0 {
        return true;
    }
    snapshot.l1_count > MOST_ENTRIES
}

/// Looks at the tables of a snapshot, whose entry begins there.
fn look_at_tables<S: Storage>(
    storage: &S,
    alloc: Global,
    shape: Shape,
    counts: &[u32],
    snapshot: Snapshot,
    at: u64,
    tally: &mut Tally,
) -> Result<(), CheckError>
    requires all { length tally.old.uses.items ≡ shape.clusters }
    ensures all { OnOk result (length tally.new.uses.items ≡ shape.clusters) }
    ensures told { IsTrue (S.features storage.now).tells_bytes
        → IsSnapshot (S.bytes storage.now) at snapshot → OnOk result
        (Adds tally.old tally.new
        (snapshot_uses (setting_of shape counts.now) (S.bytes storage.now) at)
        (snapshot_tables_faults (setting_of shape counts.now) (S.bytes storage.now) at)) }
{
    if is_invalid(shape, snapshot) {
        let fault = Fault::InvalidEntry {
            table: Table::Snapshots,
            at,
        };
        tally.tell(true, fault)?;
        return Ok(());
    }
    let place = Place {
        table: snapshot.l1_start,
        active: false,
    };
    look_at_l1(
        storage,
        alloc,
        shape,
        counts,
        place,
        snapshot.l1_count,
        tally,
    )?;
    Ok(())
}

/// Looks at a snapshot, whose entry begins there, and at its tables.
fn look_at_snapshot<S: Storage>(
    storage: &S,
    alloc: Global,
    shape: Shape,
    counts: &[u32],
    snapshot: Snapshot,
    at: u64,
    tally: &mut Tally,
) -> Result<(), CheckError>
    requires all { length tally.old.uses.items ≡ shape.clusters }
    ensures all { OnOk result (length tally.new.uses.items ≡ shape.clusters) }
    ensures told { IsTrue (S.features storage.now).tells_bytes
        → IsSnapshot (S.bytes storage.now) at snapshot → OnOk result
        (Adds tally.old tally.new
        (snapshot_uses (setting_of shape counts.now) (S.bytes storage.now) at)
        (snapshot_faults (setting_of shape counts.now) (S.bytes storage.now) at)) }
{
    let fault = Fault::LongExtra {
        at,
        length: snapshot.extra,
    };
    tally.tell(snapshot.extra > LONGEST_EXTRA, fault)?;
    look_at_tables(storage, alloc, shape, counts, snapshot, at, tally)?;
    Ok(())
}

/// Looks at a snapshot behind the end of another one, and answers where its entry ends.
fn look_at_next<S: Storage>(
    storage: &S,
    alloc: Global,
    shape: Shape,
    counts: &[u32],
    end: u64,
    tally: &mut Tally,
) -> Result<u64, CheckError>
    requires all { length tally.old.uses.items ≡ shape.clusters }
    ensures all { OnOk result (length tally.new.uses.items ≡ shape.clusters) }
    ensures told { IsTrue (S.features storage.now).tells_bytes → OnOk result
        (Adds tally.old tally.new
        (snapshot_uses (setting_of shape counts.now) (S.bytes storage.now)
        (next_multiple_of end 8))
        (snapshot_faults (setting_of shape counts.now) (S.bytes storage.now)
        (next_multiple_of end 8))) }
    ensures end { IsTrue (S.features storage.now).tells_bytes
        → IfOk result
        (λ e. e ≡ snapshot_end (S.bytes storage.now) (next_multiple_of end 8)) }
    ensures behind { IfOk result (λ e. end ≤ e) }
{
    if end > shape.file || end > 1 << 62 {
        return Err(CheckError::SnapshotTable);
    }
    let at = end.next_multiple_of(8);
    let snapshot = read_snapshot(storage, alloc, at)?;
    look_at_snapshot(storage, alloc, shape, counts, snapshot, at, tally)?;
    if snapshot.end < end {
        return Err(CheckError::SnapshotTable);
    }
    Ok(snapshot.end)
}

/// Counts the uses of clusters by the table of snapshots, of so many bytes, and its own faults.
fn name_table(shape: Shape, start: u64, size: u64, tally: &mut Tally) -> Result<(), CheckError>
    requires all { length tally.old.uses.items ≡ shape.clusters }
    ensures { (counts : List ℕ) → OnOk result
        (Adds tally.old tally.new (use_of (setting_of shape counts) start size)
        (past_fault (setting_of shape counts) start size + one_if (is_long_table size))) }
{
    tally.name(shape, start, size, Table::Header, 64)?;
    let fault = Fault::LongSnapshots {
        start,
        length: size,
    };
    tally.tell(size > LONGEST_TABLE, fault)?;
    Ok(())
}

/// Looks at the table of snapshots, of so many entries from `start` on, and at the tables of each.
pub(crate) fn look_at_snapshots<S: Storage>(
    storage: &S,
    alloc: Global,
    shape: Shape,
    counts: &[u32],
    start: u64,
    count: u32,
    tally: &mut Tally,
) -> Result<(), CheckError>
    requires all { length tally.old.uses.items ≡ shape.clusters }
    ensures all { OnOk result (length tally.new.uses.items ≡ shape.clusters) }
    ensures told { IsTrue (S.features storage.now).tells_bytes → OnOk result
        (Adds tally.old tally.new
        (snapshots_uses (setting_of shape counts.now) (S.bytes storage.now) start count)
        (snapshots_faults (setting_of shape counts.now) (S.bytes storage.now) start count)) }
{
    let mut end = start;
    for _index in 0..count {
        end = look_at_next(storage, alloc, shape, counts, end, tally)?;
    }
    name_table(shape, start, end - start, tally)?;
    Ok(())
}
