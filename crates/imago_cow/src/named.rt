// SPDX-License-Identifier: MIT
//! Which bytes of the storage places of the disk stand in.
ghost use Rattle.std.specs.Prelude.{◌≡◌, ◌≢◌, ℕ, ◌+◌, ◌*◌, ◌^◌, ◌<◌, ◌≤◌, Some, slice_get, true};
ghost use Rattle.std.specs.Prelude.{false};
ghost use Rattle.imago_drivers.specs.Place.{BytesAreWritable, HasStranger};
ghost use Rattle.imago_cow.specs.declared.table.GuestBlock.{GuestBlock};
ghost use Rattle.imago_cow.specs.TableView.{entries_of, count_of};
ghost use Rattle.imago_cow.specs.Guest.{IsExact, cow_place};

use crate::block::BlockSize;
use crate::table::Table;

/// Whether places of the disk stand in the first `until` bytes of a data block.
fn shows(table: &Table, block: u64, size: u64, number: u64, until: u64) -> bool
    requires exact { IsExact size block (entries_of table.now) }
    requires fits { size < 2 ^ 64 }
    ensures shown { result ≡ true
        → (i : ℕ) × (slice_get (entries_of table.now) i ≡ Some (GuestBlock.Data number))
        × (i * block + until ≤ size) }
    ensures stranger { result ≡ false
        → (i : ℕ)
        → slice_get (entries_of table.now) i ≡ Some (GuestBlock.Data number)
        → size < i * block + until }
{
    match table.owner(number) {
        Some(index) => until <= size - index as u64 * block,
        None => false,
    }
}

/// Whether places of the disk stand in each byte of a range of the storage.
pub(crate) fn all_shown(
    table: &Table,
    block: BlockSize,
    size: u64,
    storage: usize,
    offset: u64,
    count: u64,
) -> bool
    requires positive { 0 < block.length }
    requires exact { IsExact size block.length (entries_of table.now) }
    requires fits { size < 2 ^ 64 }
    requires addressed { count_of table.now * block.length < 2 ^ 64 }
    requires some { 0 < count }
    ensures shown { (bytes : _)
        → result ≡ true
        → (storage ≡ 0)
        × BytesAreWritable (cow_place bytes size block.length (entries_of table.now)) 0 offset
        count }
    ensures within { result ≡ true → offset + count ≤ count_of table.now * block.length }
    ensures stranger { (bytes : _)
        → result ≡ false
        → HasStranger (cow_place bytes size block.length (entries_of table.now)) storage offset
        count }
{
    let end = table.block_count() * block.length;
    if storage != 0 {
        return false;
    }
    if count > end {
        return false;
    }
    if offset > end - count {
        return false;
    }
    let last = block.number(offset + (count - 1));
    for number in block.number(offset)..last + 1 {
        let until = block.length.min(offset + count - number * block.length);
        if !shows(table, block.length, size, number, until) {
            return false;
        }
    }
    true
}
