// SPDX-License-Identifier: MIT
//! The entries of L1 and L2 tables.
ghost use Rattle.std.specs.Prelude.{◌≡◌, ℕ, List, ◌+◌, ◌-◌, ◌*◌, ◌/◌, ◌%◌, ◌^◌, ◌<◌, ◌≤◌, length};
ghost use Rattle.std.specs.Prelude.{OnOk};
ghost use Rattle.imago_qcow2.specs.Numbers.{be64};
ghost use Rattle.imago_qcow2_check.specs.Sums.{total, one_if};
ghost use Rattle.imago_qcow2_check.specs.Entries.{offset_of, is_copied, length_at, data_start};
ghost use Rattle.imago_qcow2_check.specs.Entries.{data_length};
ghost use Rattle.imago_qcow2_check.specs.Entries.{copied_fault, cluster_copied_fault};
ghost use Rattle.imago_qcow2_check.specs.Entries.{invalid_cluster, invalid_table};
ghost use Rattle.imago_qcow2_check.specs.Entries.{cluster_use, cluster_faults, l2_entry_use};
ghost use Rattle.imago_qcow2_check.specs.Entries.{l2_entry_faults, l1_entry_use, l1_entry_faults};
ghost use Rattle.imago_qcow2_check.specs.Tallies.{setting_of, Adds};

use crate::fault::{CheckError, Fault, Table};
use crate::shape::Shape;
use crate::tally::Tally;
use imago_qcow2::entry::{GuestCluster, L2Table};
use imago_qcow2::layout::{guest_cluster, l2_table};
use imago_qcow2::number::number64;

/// The bits of an entry below those that say other things than an offset.
pub(crate) const OFFSETS: u64 = 1 << 56;

/// The bit that says that what the entry names has the reference count 1.
const COPIED: u64 = 1 << 63;

/// What is looked at where an entry of a table stands.
#[derive(Clone, Copy)]
pub(crate) struct Place {
    /// Where the table begins in the file.
    pub(crate) table: u64,
    /// Whether it belongs to the image, and not to a snapshot.
    pub(crate) active: bool,
}

impl Place {
    /// Where the entry of that index stands in the file.
    fn entry(self, index: u64) -> u64 {
        self.table.wrapping_add(index.wrapping_mul(8))
    }
}

/// The offset in an entry.
pub(crate) fn offset_in(entry: u64) -> u64
    ensures value { result ≡ offset_of entry }
    ensures small { result < 2 ^ 56 }
{
    let low = entry % OFFSETS;
    low - low % 512
}

/// How many bytes stand at an offset that an entry has.
pub(crate) fn length_of(shape: Shape, offset: u64) -> u64
    ensures { result ≡ length_at shape.cluster offset }
{
    if offset == 0 { 0 } else { shape.cluster }
}

/// Where the data of a guest cluster stand in the file, and how many bytes they are.
fn data_of(shape: Shape, entry: u64, says: GuestCluster) -> (u64, u64)
    ensures start { result.0 ≡ data_start says entry }
    ensures length { result.1 ≡ data_length shape.cluster says entry }
{
    if let GuestCluster::Compressed { at, length: count } = says {
        return (at, count);
    }
    let offset = offset_in(entry);
    (offset, length_of(shape, offset))
}

/// Whether the copied bit of an entry disagrees with the reference count of what it names.
#[tactic(auto, unfolding(crate::specs::Entries::copied_fault))]
fn disagrees(shape: Shape, counts: &[u32], active: bool, offset: u64, entry: u64) -> bool
    ensures { one_if result ≡ copied_fault (setting_of shape counts.now) active offset entry }
{
    if !active || offset == 0 {
        return false;
    }
    let index = shape.cluster_at(offset) as usize;
    let once = index < counts.len() && counts[index] == 1;
    once != (entry >= COPIED)
}

/// The same of an L2 entry, which says that. It is never set for a compressed cluster.
fn cluster_disagrees(
    shape: Shape,
    counts: &[u32],
    active: bool,
    entry: u64,
    says: GuestCluster,
) -> bool
    ensures { one_if result
        ≡ cluster_copied_fault (setting_of shape counts.now) active entry says }
{
    match says {
        GuestCluster::Compressed { .. } => entry >= COPIED,
        _ => disagrees(shape, counts, active, offset_in(entry), entry),
    }
}

/// Whether an L2 entry that says that is invalid.
fn is_invalid(says: GuestCluster) -> bool
    ensures { result ≡ invalid_cluster says }
{
    match says {
        GuestCluster::Invalid => true,
        _ => false,
    }
}

/// Whether an L1 entry that says that is invalid.
fn is_invalid_table(says: L2Table) -> bool
    ensures { result ≡ invalid_table says }
{
    match says {
        L2Table::Invalid => true,
        _ => false,
    }
}

/// Looks at an L2 entry, which says that.
fn look_at_cluster(
    shape: Shape,
    counts: &[u32],
    place: Place,
    index: u64,
    entry: u64,
    says: GuestCluster,
    tally: &mut Tally,
) -> Result<(), CheckError>
    requires all { length tally.old.uses.items ≡ shape.clusters }
    ensures { OnOk result
        (Adds tally.old tally.new (cluster_use (setting_of shape counts.now) entry says)
        (cluster_faults (setting_of shape counts.now) place.active entry says)) }
{
    let (start, count) = data_of(shape, entry, says);
    let at = place.entry(index);
    tally.name(shape, start, count, Table::L2, at)?;
    tally.tell(
        is_invalid(says),
        Fault::InvalidEntry {
            table: Table::L2,
            at,
        },
    )?;
    let copied = cluster_disagrees(shape, counts, place.active, entry, says);
    tally.tell(
        copied,
        Fault::CopiedBit {
            table: Table::L2,
            at,
        },
    )?;
    Ok(())
}

/// Looks at an L2 entry.
fn look_at_l2_entry(
    shape: Shape,
    counts: &[u32],
    place: Place,
    index: u64,
    entry: u64,
    tally: &mut Tally,
) -> Result<(), CheckError>
    requires all { length tally.old.uses.items ≡ shape.clusters }
    ensures { OnOk result
        (Adds tally.old tally.new (l2_entry_use (setting_of shape counts.now) entry)
        (l2_entry_faults (setting_of shape counts.now) place.active entry)) }
{
    // most entries of a sparse disk
    if entry == 0 {
        return Ok(());
    }
    let says = guest_cluster(entry, shape.cluster, shape.version);
    look_at_cluster(shape, counts, place, index, entry, says, tally)?;
    Ok(())
}

/// Looks at the entries of an L2 table.
pub(crate) fn look_at_l2(
    shape: Shape,
    counts: &[u32],
    place: Place,
    table: &[u8],
    tally: &mut Tally,
) -> Result<(), CheckError>
    requires all { length tally.old.uses.items ≡ shape.clusters }
    requires whole { length table.now ≡ shape.cluster }
    ensures { OnOk result
        (Adds tally.old tally.new
        (λ n. total (λ j. l2_entry_use (setting_of shape counts.now) (be64 table.now (8 * j)) n)
        (shape.cluster / 8))
        (total (λ j. l2_entry_faults (setting_of shape counts.now) place.active
        (be64 table.now (8 * j))) (shape.cluster / 8))) }
{
    for index in 0..table.len() / 8 {
        let entry = number64(table, 8 * index);
        look_at_l2_entry(shape, counts, place, index as u64, entry, tally)?;
    }
    Ok(())
}

/// Looks at an L1 entry alone.
pub(crate) fn look_at_l1_entry(
    shape: Shape,
    counts: &[u32],
    place: Place,
    entries: &[u8],
    index: u64,
    tally: &mut Tally,
) -> Result<(), CheckError>
    requires within { 8 * index + 8 ≤ length entries.now }
    requires all { length tally.old.uses.items ≡ shape.clusters }
    ensures { OnOk result
        (Adds tally.old tally.new
        (l1_entry_use (setting_of shape counts.now) (be64 entries.now (8 * index)))
        (l1_entry_faults (setting_of shape counts.now) place.active
        (be64 entries.now (8 * index)))) }
{
    let entry = number64(entries, (8 * index) as usize);
    let offset = offset_in(entry);
    let at = place.entry(index);
    let count = length_of(shape, offset);
    tally.use_bytes(shape, offset, count)?;
    let invalid = is_invalid_table(l2_table(entries, index, shape.cluster, shape.file));
    tally.tell(
        invalid,
        Fault::InvalidEntry {
            table: Table::L1,
            at,
        },
    )?;
    let copied = disagrees(shape, counts, place.active, offset, entry);
    tally.tell(
        copied,
        Fault::CopiedBit {
            table: Table::L1,
            at,
        },
    )?;
    Ok(())
}
