// SPDX-License-Identifier: MIT
//! L1 tables, and the L2 tables that they name.
ghost use Rattle.std.specs.Prelude.{◌≡◌, ℕ, List, ◌+◌, ◌-◌, ◌*◌, ◌/◌, ◌%◌, ◌^◌, ◌<◌, ◌≤◌, length};
ghost use Rattle.std.specs.Prelude.{OnOk, IfOk, IsTrue};
ghost use Rattle.imago_storage.specs.Bytes.{IsReadAt};
ghost use Rattle.imago_qcow2.specs.Numbers.{be64};
ghost use Rattle.imago_qcow2_check.specs.Sums.{total};
ghost use Rattle.imago_qcow2_check.specs.Entries.{names_table as is_table, named_use, named_faults};
ghost use Rattle.imago_qcow2_check.specs.Entries.{table_use, table_faults, l1_uses, l1_faults};
ghost use Rattle.imago_qcow2_check.specs.Tallies.{setting_of, Adds};

use crate::entry::{Place, look_at_l1_entry, look_at_l2, offset_in};
use crate::fault::{CheckError, Table};
use crate::shape::Shape;
use crate::tally::Tally;
use imago_qcow2::number::number64;
use imago_storage::ext::StorageExt;
use imago_storage::storage::Storage;
use std::alloc::Global;

/// The bytes of the file from an offset on.
pub(crate) fn read_bytes<S: Storage>(
    storage: &S,
    alloc: Global,
    at: u64,
    count: usize,
) -> Result<Vec<u8>, CheckError>
    ensures whole { IfOk result (λ v. length v.items ≡ count) }
    ensures read { IsTrue (S.features storage.now).tells_bytes
        → IfOk result (λ v. IsReadAt (S.bytes storage.now) at v.items) }
{
    let mut bytes = vec![in alloc; 0u8; count]?;
    storage.read(alloc, &mut bytes, at)?;
    Ok(bytes)
}

/// Whether an L1 entry names an L2 table, all of which is in the file.
fn names_table(shape: Shape, entry: u64) -> bool
    ensures { (counts : List ℕ) → result ≡ is_table (setting_of shape counts) entry }
{
    let offset = offset_in(entry);
    offset != 0 && shape.file >= offset + shape.cluster
}

/// Looks at the L2 table that an L1 entry names, if it names one.
fn look_at_named<S: Storage>(
    storage: &S,
    alloc: Global,
    shape: Shape,
    counts: &[u32],
    place: Place,
    entry: u64,
    table: &mut [u8],
    tally: &mut Tally,
) -> Result<(), CheckError>
    requires all { length tally.old.uses.items ≡ shape.clusters }
    requires whole { length table.old ≡ shape.cluster }
    ensures all { OnOk result (length tally.new.uses.items ≡ shape.clusters) }
    ensures told { IsTrue (S.features storage.now).tells_bytes → OnOk result
        (Adds tally.old tally.new
        (named_use (setting_of shape counts.now) (S.bytes storage.now) entry)
        (named_faults (setting_of shape counts.now) (S.bytes storage.now) place.active entry)) }
{
    if !names_table(shape, entry) {
        return Ok(());
    }
    let offset = offset_in(entry);
    storage.read(alloc, table, offset)?;
    let inner = Place {
        table: offset,
        active: place.active,
    };
    look_at_l2(shape, counts, inner, table, tally)?;
    Ok(())
}

/// Looks at the entries of an L1 table, and at the L2 tables that they name, for which there is a
/// buffer.
fn look_at_entries<S: Storage>(
    storage: &S,
    alloc: Global,
    shape: Shape,
    counts: &[u32],
    place: Place,
    entries: &[u8],
    table: &mut [u8],
    tally: &mut Tally,
) -> Result<(), CheckError>
    requires all { length tally.old.uses.items ≡ shape.clusters }
    requires whole { length table.old ≡ shape.cluster }
    ensures all { OnOk result (length tally.new.uses.items ≡ shape.clusters) }
    ensures told { IsTrue (S.features storage.now).tells_bytes → OnOk result
        (Adds tally.old tally.new
        (λ n. total (λ i. table_use (setting_of shape counts.now) (S.bytes storage.now)
        (be64 entries.now (8 * i)) n) (length entries.now / 8))
        (total (λ i. table_faults (setting_of shape counts.now) (S.bytes storage.now)
        place.active (be64 entries.now (8 * i))) (length entries.now / 8))) }
{
    for index in 0..entries.len() / 8 {
        look_at_l1_entry(shape, counts, place, entries, index as u64, tally)?;
        let entry = number64(entries, 8 * index);
        look_at_named(storage, alloc, shape, counts, place, entry, table, tally)?;
    }
    Ok(())
}

/// Looks at an L1 table of so many entries.
pub(crate) fn look_at_l1<S: Storage>(
    storage: &S,
    alloc: Global,
    shape: Shape,
    counts: &[u32],
    place: Place,
    count: u32,
    tally: &mut Tally,
) -> Result<(), CheckError>
    requires all { length tally.old.uses.items ≡ shape.clusters }
    ensures all { OnOk result (length tally.new.uses.items ≡ shape.clusters) }
    ensures told { IsTrue (S.features storage.now).tells_bytes → OnOk result
        (Adds tally.old tally.new
        (l1_uses (setting_of shape counts.now) (S.bytes storage.now) place.table count)
        (l1_faults (setting_of shape counts.now) (S.bytes storage.now) place.active place.table
        count)) }
{
    let bytes = 8 * count as u64;
    tally.name(shape, place.table, bytes, Table::L1, place.table)?;
    let entries = read_bytes(storage, alloc, place.table, bytes as usize)?;
    let mut table = read_bytes(storage, alloc, 0, shape.cluster as usize)?;
    look_at_entries(
        storage, alloc, shape, counts, place, &entries, &mut table, tally,
    )?;
    Ok(())
}
