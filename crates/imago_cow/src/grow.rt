// SPDX-License-Identifier: MIT
//! The growth of a copy-on-write disk.
ghost use Rattle.std.specs.Prelude.{◌≡◌, ◌≢◌, ℕ, ◌+◌, ◌*◌, ◌/◌, ◌%◌, ◌<◌, ◌≤◌, ◌⊎◌, IfErr, OnOk};
ghost use Rattle.std.specs.Prelude.{OnErr, slice_get};
ghost use Rattle.std.specs.Prelude.{None, Ok, Err};
ghost use Rattle.imago_storage.specs.Error.{IsExtRefusal};
ghost use Rattle.imago_cow.specs.Copies.{IsRefusedBelow};
ghost use Rattle.imago_drivers.specs.Calls.{IsGrowth};
ghost use Rattle.imago_drivers.specs.LayerBelow.{lent};
ghost use Rattle.imago_drivers.specs.declared.format.PreallocateMode.{PreallocateMode};
ghost use Rattle.imago_cow.specs.TableView.{entries_of, held_of, count_of, room_of, KeepsRoom};
ghost use Rattle.imago_cow.specs.TableView.{IsReady, IsIdle};
ghost use Rattle.imago_cow.specs.Guest.{IsExact};
ghost use Rattle.imago_cow.specs.Cut.{shows_below};
ghost use Rattle.imago_cow.specs.CopyCalls.{AreAddedInTurn, IsFilledAndAdded, IsCopiedInGrowth};
ghost use Rattle.imago_cow.specs.Grown.{AreGrown, size_after};
ghost use Rattle.imago_cow.specs.Cow.{table_view};

use crate::cut::{empty_cut, fill_cut, restore_cut};
use crate::guest::first_whole;
use crate::guest_blocks::{Growth, add_blocks, add_new, adds_nothing};
use crate::table::{Table, WithoutData};
use imago_drivers::layer::LowerLayer;
use imago_storage::error::Error;
use imago_storage::storage::Storage;
use std::alloc::Global;

/// Makes room for the entries of the guest blocks that the grown disk needs. [`Error::Memory`] is
/// no room for them.
fn reserve_new(table: &mut Table, growth: Growth) -> Result<(), Error>
    requires positive { 0 < growth.block.length }
    requires grows { growth.size < growth.new_size }
    requires exact { IsExact growth.size growth.block.length (entries_of table.old) }
    ensures entries { entries_of table.new ≡ entries_of table.old }
    ensures held { held_of table.new ≡ held_of table.old }
    ensures count { count_of table.new ≡ count_of table.old }
    ensures room { OnOk result (growth.new_size ≤ room_of table.new * growth.block.length) }
    ensures memory { IfErr result (λ e. e ≡ Error.Memory) }
{
    let wanted = first_whole(growth.block, growth.new_size) as usize;
    table.reserve(wanted - table.len())
}

/// Fills the guest block that the old end cuts, and adds those behind it, for a growth whose new
/// places are specified. So data blocks are taken in the order of guest blocks. Refused, all is as
/// it was.
fn grow_with<S: Storage, B: LowerLayer>(
    storage: &mut S,
    faults: &mut u64,
    table: &mut Table,
    alloc: Global,
    below: Option<&B>,
    growth: Growth,
) -> Result<(), Error>
    requires idle { IsIdle growth.size growth.block.length table.old }
    requires grows { growth.size < growth.new_size }
    requires some { growth.mode ≢ PreallocateMode.None }
    ensures call { IsGrowth growth.mode (lent B.as_layer_below below.entry) growth.new_size
        (table_view (S.features storage.old) (S.fault_count storage.old + faults.old)
        (S.bytes storage.old) growth.size growth.block.length table.old None)
        (table_view (S.features storage.old) (S.fault_count storage.new + faults.new)
        (S.bytes storage.new) (size_after growth.size growth.new_size result) growth.block.length
        table.new None) result }
    ensures blocks { OnOk result
        (AreGrown growth.mode growth.block.length growth.size (entries_of table.old)
        (entries_of table.new)) }
    ensures exact_now { OnOk result
        (IsExact growth.new_size growth.block.length (entries_of table.new)) }
    ensures entries { OnErr result (entries_of table.new ≡ entries_of table.old) }
    ensures added { (wanted : ℕ)
        → growth.new_size ≤ wanted * growth.block.length
        → wanted * growth.block.length < growth.new_size + growth.block.length
        → growth.size % growth.block.length ≡ 0
        → AreAddedInTurn S.features S.bytes S.fault_count S.work S.maintenance
        (lent B.as_layer_below below.entry) (shows_below growth.mode) growth.block.length
        growth.new_size wanted (entries_of table.old) (count_of table.old) storage.old storage.new
        result }
    ensures filled { (wanted : ℕ)
        → growth.new_size ≤ wanted * growth.block.length
        → wanted * growth.block.length < growth.new_size + growth.block.length
        → 0 < growth.size % growth.block.length
        → IsFilledAndAdded S.features S.bytes S.fault_count S.work S.maintenance
        (lent B.as_layer_below below.entry) (shows_below growth.mode) growth.block.length
        growth.size growth.new_size wanted (entries_of table.old) (count_of table.old)
        (slice_get (entries_of table.old) (growth.size / growth.block.length)) storage.old
        storage.new result }
    ensures ready { IsReady growth.block.length table.new }
    ensures by_name { IfErr result (λ e. IsExtRefusal e ⊎ IsRefusedBelow B.reads below.entry e) }
    ensures features { S.features storage.new ≡ S.features storage.old }
    ensures room { KeepsRoom table.old table.new }
{
    let was = empty_cut(table, growth.block, growth.size);
    fill_cut(storage, faults, table, alloc, below, growth)?;
    if let Err(e) = add_new(storage, faults, table, alloc, below, growth) {
        restore_cut(table, growth.block, growth.size, was);
        return Err(e);
    }
    Ok(())
}

/// Grows the disk: makes room in the table, fills the guest block that the old end cuts as the mode
/// says, and adds those behind it. Refused, all is as it was, but for data blocks that are free;
/// the storage isn't touched before there is the room.
pub(crate) fn grow<S: Storage, B: LowerLayer>(
    storage: &mut S,
    faults: &mut u64,
    table: &mut Table,
    alloc: Global,
    below: Option<&B>,
    growth: Growth,
) -> Result<(), Error>
    requires idle { IsIdle growth.size growth.block.length table.old }
    requires grows { growth.size < growth.new_size }
    ensures call { IsGrowth growth.mode (lent B.as_layer_below below.entry) growth.new_size
        (table_view (S.features storage.old) (S.fault_count storage.old + faults.old)
        (S.bytes storage.old) growth.size growth.block.length table.old None)
        (table_view (S.features storage.old) (S.fault_count storage.new + faults.new)
        (S.bytes storage.new) (size_after growth.size growth.new_size result) growth.block.length
        table.new None) result }
    ensures blocks { OnOk result
        (AreGrown growth.mode growth.block.length growth.size (entries_of table.old)
        (entries_of table.new)) }
    ensures exact_now { OnOk result
        (IsExact growth.new_size growth.block.length (entries_of table.new)) }
    ensures entries { OnErr result (entries_of table.new ≡ entries_of table.old) }
    ensures ready { IsReady growth.block.length table.new }
    ensures by_name { IfErr result (λ e. IsExtRefusal e ⊎ IsRefusedBelow B.reads below.entry e) }
    ensures features { S.features storage.new ≡ S.features storage.old }
    ensures copies { IsCopiedInGrowth S.features S.bytes S.fault_count S.work S.maintenance
        (lent B.as_layer_below below.entry) growth.mode (entries_of table.old)
        (count_of table.old) growth.block.length growth.size growth.new_size storage.old storage.new
        result }
    ensures room_first { OnErr result
        ((storage.new ≡ storage.old)
        ⊎ (growth.new_size ≤ room_of table.new * growth.block.length)) }
{
    if adds_nothing(growth.mode) {
        add_blocks(table, growth, WithoutData::Absent)?;
        return Ok(());
    }
    reserve_new(table, growth)?;
    grow_with(storage, faults, table, alloc, below, growth)
}
