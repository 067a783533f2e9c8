// SPDX-License-Identifier: MIT
//! Guest blocks by ranges of the disk.
ghost use Rattle.std.specs.Prelude.{◌≡◌, ◌≢◌, ℕ, ◌+◌, ◌*◌, ◌/◌, ◌%◌, ◌^◌, ◌<◌, ◌≤◌, ◌⊎◌, length};
ghost use Rattle.std.specs.Prelude.{Option, Some, None, slice_get, slice_set, true};
ghost use Rattle.imago_cow.specs.Table.{without_data};
ghost use Rattle.imago_cow.specs.TableView.{entries_of, held_of, count_of};
ghost use Rattle.imago_cow.specs.Guest.{IsCleared, IsExact, IsWholePart, AreWholeCleared, IsMade};
ghost use Rattle.imago_cow.specs.declared.table.GuestBlock.{GuestBlock};
ghost use Rattle.imago_cow.specs.Cow.{table_view};
ghost use Rattle.imago_drivers.specs.Operation.{Zero, DiscardToZero, DiscardToAny};
ghost use Rattle.imago_drivers.specs.Operation.{DiscardToBacking};
ghost use Rattle.imago_drivers.specs.Changes.{unspecified, to_backing};
ghost use Rattle.imago_drivers.specs.Calls.{IsZeroCall, IsDiscard};

use crate::block::BlockSize;
use crate::table::{Table, WithoutData};
use imago_storage::error::Error;

/// The first guest block that begins at the offset or behind it.
pub(crate) fn first_whole(block: BlockSize, offset: u64) -> u64
    requires positive { 0 < block.length }
    ensures begins { offset ≤ result * block.length }
    ensures near { result * block.length < offset + block.length }
{
    let index = block.number(offset);
    if block.rest(offset) == 0 {
        return index;
    }
    index + 1
}

/// The guest block that the whole ones before that end stop at: the disk's end ends its last one.
fn last_whole(block: BlockSize, size: u64, end: u64, guest_blocks: u64) -> u64
    requires positive { 0 < block.length }
    requires inside { end ≤ size }
    requires covers { size ≤ guest_blocks * block.length }
    ensures cut { end < size → (result * block.length ≤ end)
        × (end < result * block.length + block.length) }
    ensures all { size ≤ end → result ≡ guest_blocks }
    ensures within { result ≤ guest_blocks }
{
    if end < size {
        return block.number(end);
    }
    guest_blocks
}

/// Makes the guest blocks from `first` on and before `last` explicit zeroes, or absent.
fn clear_range(table: &mut Table, first: u64, last: u64, kind: WithoutData)
    requires ordered { first ≤ last }
    requires within { last ≤ length (entries_of table.old) }
    ensures cleared { IsCleared first last (without_data kind) (entries_of table.old)
        (entries_of table.new) }
    ensures held { held_of table.new ≡ held_of table.old }
    ensures count { count_of table.new ≡ count_of table.old }
{
    for index in first..last {
        table.clear(index as usize, kind);
    }
}

/// Makes the guest blocks that lie in the range explicit zeroes, or absent, and answers the part
/// that they hold. It takes no memory, and is never refused.
pub(crate) fn clear_whole(
    table: &mut Table,
    block: BlockSize,
    size: u64,
    offset: u64,
    count: u64,
    kind: WithoutData,
) -> (u64, u64)
    requires positive { 0 < block.length }
    requires inside { offset + count ≤ size }
    requires exact { IsExact size block.length (entries_of table.old) }
    ensures part { IsWholePart block.length size offset count result.0 result.1 }
    ensures cleared { AreWholeCleared block.length size offset count (without_data kind)
        (entries_of table.old) (entries_of table.new) }
    ensures held { held_of table.new ≡ held_of table.old }
    ensures count { count_of table.new ≡ count_of table.old }
{
    let end = offset + count;
    let first = first_whole(block, offset);
    let last = last_whole(block, size, end, table.len() as u64);
    if last <= first {
        return (offset, 0);
    }
    clear_range(table, first, last, kind);
    let start = first * block.length;
    if end < size {
        return (start, last * block.length - start);
    }
    (start, end - start)
}

/// Makes the guest blocks that lie in the range explicit zeroes. It is never refused.
pub(crate) fn make_zero(
    table: &mut Table,
    block: BlockSize,
    size: u64,
    offset: u64,
    count: u64,
) -> Result<(u64, u64), Error>
    requires positive { 0 < block.length }
    requires inside { offset + count ≤ size }
    requires exact { IsExact size block.length (entries_of table.old) }
    ensures zero { (f : _) (faults : ℕ) (bytes : _)
        → IsZeroCall Zero offset count
        (table_view f faults bytes size block.length table.old None)
        (table_view f faults bytes size block.length table.new None)
        result }
    ensures to_zero { (f : _) (faults : ℕ) (bytes : _)
        → IsZeroCall DiscardToZero offset count
        (table_view f faults bytes size block.length table.old None)
        (table_view f faults bytes size block.length table.new None)
        result }
    ensures made { IsMade offset count size block.length GuestBlock.Zero (entries_of table.old)
        (entries_of table.new) result }
    ensures to_any { (f : _) (faults : ℕ) (bytes : _)
        → IsDiscard (λ _ _. unspecified) DiscardToAny offset count
        (table_view f faults bytes size block.length table.old None)
        (table_view f faults bytes size block.length table.new None)
        result }
    ensures same_length { length (entries_of table.new) ≡ length (entries_of table.old) }
    ensures held { held_of table.new ≡ held_of table.old }
    ensures count { count_of table.new ≡ count_of table.old }
{
    Ok(clear_whole(table, block, size, offset, count, WithoutData::Zero))
}

/// Makes the guest blocks that lie in the range absent. It is never refused.
pub(crate) fn make_absent(
    table: &mut Table,
    block: BlockSize,
    size: u64,
    offset: u64,
    count: u64,
) -> Result<(u64, u64), Error>
    requires positive { 0 < block.length }
    requires inside { offset + count ≤ size }
    requires exact { IsExact size block.length (entries_of table.old) }
    ensures made { IsMade offset count size block.length GuestBlock.Absent (entries_of table.old)
        (entries_of table.new) result }
    ensures to_backing { (f : _) (faults : ℕ) (bytes : _)
        → IsDiscard (to_backing true) DiscardToBacking offset count
        (table_view f faults bytes size block.length table.old None)
        (table_view f faults bytes size block.length table.new None)
        result }
    ensures same_length { length (entries_of table.new) ≡ length (entries_of table.old) }
    ensures held { held_of table.new ≡ held_of table.old }
    ensures count { count_of table.new ≡ count_of table.old }
{
    Ok(clear_whole(table, block, size, offset, count, WithoutData::Absent))
}
