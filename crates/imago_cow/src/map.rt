// SPDX-License-Identifier: MIT
//! How places of the disk are mapped, and whose a byte of the storage is.
ghost use Rattle.std.specs.Prelude.{◌≡◌, ℕ, ◌+◌, ◌-◌, ◌*◌, ◌/◌, ◌%◌, ◌^◌, ◌<◌, ◌≤◌, min, length};
ghost use Rattle.std.specs.Prelude.{Some, slice_get};
ghost use Rattle.imago_drivers.specs.Mapping.{IsRight};
ghost use Rattle.imago_cow.specs.TableView.{entries_of, held_of, count_of};
ghost use Rattle.imago_cow.specs.Guest.{IsExact, cow_place};
ghost use Rattle.imago_cow.specs.Cow.{in_block};

use crate::block::BlockSize;
use crate::table::{GuestBlock, Table};
use imago_drivers::drivers::ShallowMapping;

/// What the guest block of an offset is.
pub(crate) fn entry_at(table: &Table, block: BlockSize, offset: u64) -> GuestBlock
    requires { offset / block.length < length (entries_of table.now) }
    ensures { slice_get (entries_of table.now) (offset / block.length) ≡ Some result }
{
    table.get(block.number(offset) as usize)
}

/// What the places of the disk from the offset on are, and how many of them: no further than the
/// guest block.
pub(crate) fn map_place(
    table: &Table,
    block: BlockSize,
    size: u64,
    offset: u64,
    max_length: u64,
) -> (ShallowMapping, u64)
    requires positive { 0 < block.length }
    requires exact { IsExact size block.length (entries_of table.now) }
    requires addressed { count_of table.now * block.length < 2 ^ 64 }
    ensures right { (bytes : _)
        → IsRight (cow_place bytes size block.length (entries_of table.now)) offset max_length
        result.0 result.1 }
    ensures part { result.1 ≡ min (in_block block.length offset max_length) (size - offset) }
{
    if offset >= size {
        return (ShallowMapping::Eof, 0);
    }
    let rest = block.rest(offset);
    let count = max_length.min(block.length - rest).min(size - offset);
    match entry_at(table, block, offset) {
        GuestBlock::Absent => {
            let mapping = ShallowMapping::Indirect {
                offset,
                writable: false,
            };
            (mapping, count)
        }
        GuestBlock::Zero => (ShallowMapping::Zero { explicit: true }, count),
        GuestBlock::Data(number) => {
            let mapping = ShallowMapping::Raw {
                storage: 0,
                offset: number * block.length + rest,
                writable: true,
            };
            (mapping, count)
        }
    }
}
