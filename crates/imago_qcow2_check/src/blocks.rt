// SPDX-License-Identifier: MIT
//! The table of blocks of reference counts, and the comparison of counts and uses.
ghost use Rattle.std.specs.Prelude.{◌≡◌, ℕ, List, ◌+◌, ◌*◌, ◌/◌, ◌%◌, ◌^◌, ◌<◌, ◌≤◌, length};
ghost use Rattle.std.specs.Prelude.{slice_index, OnOk};
ghost use Rattle.imago_storage.specs.Bytes.{IsReadAt};
ghost use Rattle.imago_qcow2.specs.Numbers.{be64};
ghost use Rattle.imago_qcow2_check.specs.Sums.{total, one_if};
ghost use Rattle.imago_qcow2_check.specs.Uses.{block_length, block_use, block_faults, blocks_uses};
ghost use Rattle.imago_qcow2_check.specs.Uses.{blocks_faults};
ghost use Rattle.imago_qcow2_check.specs.Faults.{shared_fault, is_overused, is_leaked};
ghost use Rattle.imago_qcow2_check.specs.Tallies.{setting_of, Adds};
ghost use Rattle.imago_qcow2_check.specs.Compared.{IsCompared};

use crate::fault::{CheckError, Fault, Table};
use crate::shape::Shape;
use crate::tally::Tally;
use imago_qcow2::number::number64;

/// The length of the block of counts that an entry names.
fn length_of(shape: Shape, entry: u64) -> u64
    ensures { result ≡ block_length shape.cluster entry }
{
    if entry == 0 || shape.rest(entry) != 0 {
        return 0;
    }
    shape.cluster
}

/// Looks at an entry of the table of blocks of counts, which stands at that offset.
fn look_at_block(shape: Shape, entry: u64, at: u64, tally: &mut Tally) -> Result<(), CheckError>
    requires all { length tally.old.uses.items ≡ shape.clusters }
    ensures { (counts : List ℕ) → OnOk result
        (Adds tally.old tally.new (block_use (setting_of shape counts) entry)
        (block_faults (setting_of shape counts) entry)) }
{
    let fault = Fault::InvalidEntry {
        table: Table::CountBlocks,
        at,
    };
    tally.tell(shape.rest(entry) != 0, fault)?;
    let count = length_of(shape, entry);
    tally.name(shape, entry, count, Table::CountBlocks, at)?;
    Ok(())
}

/// Looks at the entries of the table of blocks of counts, which begins at that offset.
fn look_at_entries(
    shape: Shape,
    table: &[u8],
    start: u64,
    tally: &mut Tally,
) -> Result<(), CheckError>
    requires all { length tally.old.uses.items ≡ shape.clusters }
    ensures { (counts : List ℕ) → OnOk result
        (Adds tally.old tally.new
        (λ n. total (λ i. block_use (setting_of shape counts) (be64 table.now (8 * i)) n)
        (length table.now / 8))
        (total (λ i. block_faults (setting_of shape counts) (be64 table.now (8 * i)))
        (length table.now / 8))) }
{
    for index in 0..table.len() / 8 {
        let entry = number64(table, 8 * index);
        let at = start.wrapping_add(8 * index as u64);
        look_at_block(shape, entry, at, tally)?;
    }
    Ok(())
}

/// Looks at the table of blocks of counts, which begins at that offset, and at its entries.
pub(crate) fn look_at_blocks(
    shape: Shape,
    table: &[u8],
    start: u64,
    tally: &mut Tally,
) -> Result<(), CheckError>
    requires all { length tally.old.uses.items ≡ shape.clusters }
    ensures all { OnOk result (length tally.new.uses.items ≡ shape.clusters) }
    ensures adds { (counts bytes : List ℕ) → IsReadAt bytes start table.now → OnOk result
        (Adds tally.old tally.new
        (blocks_uses (setting_of shape counts) bytes start (length table.now))
        (blocks_faults (setting_of shape counts) bytes start (length table.now))) }
{
    tally.name(shape, start, table.len() as u64, Table::Header, 48)?;
    look_at_entries(shape, table, start, tally)?;
    Ok(())
}

/// Whether a block of counts that an entry names is used for something else, or named twice.
#[tactic(auto, unfolding(crate::specs::Faults::shared_fault))]
fn is_shared(shape: Shape, uses: &[u32], entry: u64) -> bool
    requires { length uses.now ≡ shape.clusters }
    ensures { (counts : List ℕ) → one_if result
        ≡ shared_fault (setting_of shape counts) (slice_index uses.now) entry }
{
    if length_of(shape, entry) == 0 || shape.passes(entry, shape.cluster) {
        return false;
    }
    uses[shape.cluster_at(entry) as usize] != 1
}

/// Looks for blocks of counts that are used for something else, or named twice, once all uses are
/// counted.
pub(crate) fn look_for_shared(
    shape: Shape,
    table: &[u8],
    start: u64,
    tally: &mut Tally,
) -> Result<(), CheckError>
    requires all { length tally.old.uses.items ≡ shape.clusters }
    ensures { (counts : List ℕ) → OnOk result
        (Adds tally.old tally.new (λ n. 0)
        (total (λ i. shared_fault (setting_of shape counts) (slice_index tally.old.uses.items)
        (be64 table.now (8 * i))) (length table.now / 8))) }
{
    for index in 0..table.len() / 8 {
        let entry = number64(table, 8 * index);
        let at = start.wrapping_add(8 * index as u64);
        let shared = is_shared(shape, &tally.uses, entry);
        tally.tell(shared, Fault::SharedBlock { at, start: entry })?;
    }
    Ok(())
}

/// Compares how often each cluster is used with its count.
pub(crate) fn compare(cluster: u64, counts: &[u32], tally: &mut Tally) -> Result<(), CheckError>
    requires all { length tally.old.uses.items ≡ length counts.now }
    ensures { OnOk result
        (IsCompared (slice_index counts.now) (slice_index tally.old.uses.items)
        (length counts.now) tally.old tally.new) }
{
    for index in 0..counts.len() {
        let count = counts[index];
        let uses = tally.uses_of(index);
        if uses == u32::MAX {
            return Err(CheckError::TooManyUses);
        }
        let at = (index as u64).wrapping_mul(cluster);
        tally.tell(count < uses, Fault::Overused { at, count, uses })?;
        tally.tell_leak(uses < count, Fault::Leaked { at, count, uses })?;
    }
    Ok(())
}
