// SPDX-License-Identifier: MIT
//! How the guest blocks follow the size of the disk.
ghost use Rattle.std.specs.Prelude.{◌≡◌, ◌≢◌, ℕ, ◌+◌, ◌-◌, ◌*◌, ◌^◌, ◌<◌, ◌≤◌, ◌⊎◌, min, max};
ghost use Rattle.std.specs.Prelude.{length, take, None, Some, Ok, OnOk, OnErr, IfOk, IfErr};
ghost use Rattle.std.specs.Prelude.{IsErrOf, IsTrue, true, false};
ghost use Rattle.imago_drivers.specs.Calls.{IsShrink};
ghost use Rattle.imago_drivers.specs.declared.format.PreallocateMode.{PreallocateMode};
ghost use Rattle.imago_drivers.specs.LayerBelow.{lent};
ghost use Rattle.imago_cow.specs.Guest.{IsExact, AreAdded};
ghost use Rattle.imago_cow.specs.Copies.{IsLendingCall};
ghost use Rattle.imago_cow.specs.CopyCalls.{IsPushedCopy, ArePushedInTurn, AreAddedInTurn};
ghost use Rattle.imago_cow.specs.Growth.{IsPushed, IsBounded, KeepsBytes};
ghost use Rattle.imago_cow.specs.Cut.{shows_below};
ghost use Rattle.imago_cow.specs.Grown.{ArePushed, HasNew};
ghost use Rattle.imago_cow.specs.Cow.{table_view};
ghost use Rattle.imago_cow.specs.Table.{without_data, named_count, is_absent, IsLowestUnused};
ghost use Rattle.imago_cow.specs.TableView.{entries_of, held_of, count_of, room_of, KeepsRoom};
ghost use Rattle.imago_cow.specs.TableView.{IsReady, IsIdle, TakesOne};

use crate::block::BlockSize;
use crate::copy::{CopyStart, copy_old};
use crate::guest::first_whole;
use crate::table::{Table, WithoutData, leads_below};
use imago_drivers::drivers::PreallocateMode;
use imago_drivers::layer::LowerLayer;
use imago_storage::error::Error;
use imago_storage::storage::Storage;
use std::alloc::Global;

/// A growth of a disk.
#[derive(Clone, Copy)]
pub(crate) struct Growth {
    /// A guest block's length in bytes.
    pub(crate) block: BlockSize,
    /// The old size in bytes.
    pub(crate) size: u64,
    /// The size in bytes that it grows to.
    pub(crate) new_size: u64,
    /// What new places show.
    pub(crate) mode: PreallocateMode,
}

/// Guest blocks that a growth adds in data blocks of their own.
#[derive(Clone, Copy)]
pub(crate) struct Missing {
    /// A guest block's length in bytes.
    pub(crate) block: BlockSize,
    /// The size in bytes that the disk grows to.
    pub(crate) new_size: u64,
    /// How many they are.
    pub(crate) count: usize,
}

/// What new places show: those of a guest block of that kind.
pub(crate) fn kind_of_new(mode: PreallocateMode) -> WithoutData
    ensures { is_absent result ≡ shows_below mode }
{
    match mode {
        PreallocateMode::None | PreallocateMode::Zero => WithoutData::Zero,
        PreallocateMode::FormatAllocate
        | PreallocateMode::FullAllocate
        | PreallocateMode::WriteData => WithoutData::Absent,
    }
}

/// Whether new places are unspecified.
pub(crate) fn adds_nothing(mode: PreallocateMode) -> bool
    ensures none { result ≡ true → mode ≡ PreallocateMode.None }
    ensures some { result ≡ false → mode ≢ PreallocateMode.None }
{
    match mode {
        PreallocateMode::None => true,
        PreallocateMode::Zero
        | PreallocateMode::FormatAllocate
        | PreallocateMode::FullAllocate
        | PreallocateMode::WriteData => false,
    }
}

/// Cuts the disk to that size, which is less. The guest blocks behind it are dropped, and their
/// data blocks are free. It takes no memory, and is never refused.
pub(crate) fn shrink(table: &mut Table, block: BlockSize, size: u64, new_size: u64)
    requires positive { 0 < block.length }
    requires exact { IsExact size block.length (entries_of table.old) }
    requires less { new_size < size }
    ensures shrunk { (f : _) (faults : ℕ) (bytes : _)
        → IsShrink new_size
        (table_view f faults bytes size block.length table.old None)
        (table_view f faults bytes new_size block.length table.new None) (Ok tt) }
    ensures exact { IsExact new_size block.length (entries_of table.new) }
    ensures entries { entries_of table.new ≡ take (length (entries_of table.new))
        (entries_of table.old) }
    ensures held { held_of table.new ≡ held_of table.old }
    ensures count { count_of table.new ≡ count_of table.old }
{
    table.truncate(first_whole(block, new_size) as usize);
}

/// Adds absent guest blocks, or explicit zeroes, up to the disk's new size. [`Error::Memory`] is no
/// room for their entries; it leaves all as it was.
pub(crate) fn add_blocks(table: &mut Table, growth: Growth, kind: WithoutData) -> Result<(), Error>
    requires positive { 0 < growth.block.length }
    requires exact { IsExact growth.size growth.block.length (entries_of table.old) }
    requires grows { growth.size ≤ growth.new_size }
    ensures added { OnOk result (AreAdded (without_data kind) (entries_of table.old)
        (entries_of table.new)) }
    ensures prefix { take (length (entries_of table.old)) (entries_of table.new)
        ≡ entries_of table.old }
    ensures named { named_count (entries_of table.new) ≡ named_count (entries_of table.old) }
    ensures exact { OnOk result
        (IsExact growth.new_size growth.block.length (entries_of table.new)) }
    ensures unchanged { OnErr result (entries_of table.new ≡ entries_of table.old) }
    ensures held { held_of table.new ≡ held_of table.old }
    ensures count { count_of table.new ≡ count_of table.old }
    ensures room { KeepsRoom table.old table.new }
    ensures memory { IfErr result (λ e. e ≡ Error.Memory) }
{
    let wanted = first_whole(growth.block, growth.new_size) as usize;
    table.grow(wanted - table.len(), kind)
}

/// Takes the lowest free data block, or a new one where none is free, and holds it.
/// [`Error::WrapAround`] is a new one that would end past the greatest offset of a storage, and
/// [`Error::Memory`] no room for its record; either leaves all as it was.
pub(crate) fn take_block(table: &mut Table, block: u64) -> Result<u64, Error>
    requires spent { held_of table.old ≡ None }
    requires addressed { count_of table.old * block < 2 ^ 64 }
    ensures entries { entries_of table.new ≡ entries_of table.old }
    ensures lowest { IfOk result
        (λ j. IsLowestUnused (entries_of table.old) None (count_of table.old) j) }
    ensures counted { IfOk result (λ j. count_of table.new ≡ max (count_of table.old) (j + 1)) }
    ensures held { IfOk result (λ j. held_of table.new ≡ Some j) }
    ensures fits { IfOk result (λ j. j * block + block < 2 ^ 64) }
    ensures addressed { count_of table.new * block < 2 ^ 64 }
    ensures added { count_of table.new ≤ max (count_of table.old)
        (named_count (entries_of table.old) + 1) }
    ensures room { KeepsRoom table.old table.new }
    ensures released { OnErr result (held_of table.new ≡ None) }
    ensures only { IfErr result (λ e. (e ≡ Error.WrapAround) ⊎ (e ≡ Error.Memory)) }
    ensures wraps { IsErrOf result Error.WrapAround
        → 2 ^ 64 ≤ (named_count (entries_of table.old) + 1) * block }
{
    let Some(start) = table.next().checked_mul(block) else {
        return Err(Error::WrapAround);
    };
    if block > u64::MAX - start {
        return Err(Error::WrapAround);
    }
    table.take()
}

/// Adds a guest block in a data block of its own, with the bytes that the layer below has there, as
/// far as the end of the grown disk. Refused, the data block is given back.
fn push_filled<S: Storage, B: LowerLayer>(
    storage: &mut S,
    faults: &mut u64,
    table: &mut Table,
    alloc: Global,
    below: Option<&B>,
    missing: Missing,
) -> Result<(), Error>
    requires ready { IsReady missing.block.length table.old }
    requires begins { length (entries_of table.old) * missing.block.length < missing.new_size }
    requires reserved { length (entries_of table.old) < room_of table.old }
    ensures pushed { OnOk result
        (IsPushed (lent B.as_layer_below below.entry).at (S.features storage.old).keeps_data
        (lent B.as_layer_below below.entry).tells_bytes missing.block.length missing.new_size
        (entries_of table.old) (entries_of table.new) (S.bytes storage.old) (S.bytes storage.new)) }
    ensures refused { OnErr result (entries_of table.new ≡ entries_of table.old) }
    ensures copies { IsPushedCopy S.features S.bytes S.fault_count S.work S.maintenance
        (lent B.as_layer_below below.entry) missing.block.length missing.new_size
        (entries_of table.old) (count_of table.old) (entries_of table.new) (count_of table.new)
        storage.old storage.new result }
    ensures bytes { OnErr result
        (KeepsBytes (S.features storage.old).keeps_data missing.block.length
        (length (entries_of table.old) * missing.block.length)
        (entries_of table.old) (S.bytes storage.old) (S.bytes storage.new)) }
    ensures ready { IsReady missing.block.length table.new }
    ensures taken { TakesOne table.old table.new }
    ensures bounded { (most : ℕ)
        → count_of table.old ≤ most
        → named_count (entries_of table.old) + 1 ≤ most
        → IsBounded (S.features storage.old) (lent B.as_layer_below below.entry)
        missing.block.length most
        (λ p. (length (entries_of table.old) * missing.block.length ≤ p) × (p < missing.new_size))
        (count_of table.new) (S.bytes storage.old) (S.bytes storage.new) result }
    ensures call { IsLendingCall B.as_layer_below B.reads below.entry (S.features storage.old)
        (S.features storage.new) (S.bytes storage.old) (S.bytes storage.new)
        (S.fault_count storage.old + faults.old) (S.fault_count storage.new + faults.new) result }
{
    let offset = table.len() as u64 * missing.block.length;
    let count = missing.block.length.min(missing.new_size - offset);
    let number = take_block(table, missing.block.length)?;
    let start = CopyStart {
        kind: WithoutData::Absent,
        offset,
        to: number * missing.block.length,
    };
    match copy_old(storage, faults, alloc, below, start, count) {
        Ok(()) => {
            table.push_held();
            Ok(())
        }
        Err(e) => {
            table.release();
            Err(e)
        }
    }
}

/// Adds so many guest blocks in data blocks of their own, with the bytes that the layer below has
/// there, as far as the end of the grown disk. Refused, those that were added stay.
pub(crate) fn push_blocks<S: Storage, B: LowerLayer>(
    storage: &mut S,
    faults: &mut u64,
    table: &mut Table,
    alloc: Global,
    below: Option<&B>,
    missing: Missing,
) -> Result<(), Error>
    requires ready { IsReady missing.block.length table.old }
    requires ends { (length (entries_of table.old) + missing.count) * missing.block.length
        < missing.new_size + missing.block.length }
    requires reserved { length (entries_of table.old) + missing.count ≤ room_of table.old }
    ensures pushed { OnOk result
        (ArePushed (lent B.as_layer_below below.entry).at (S.features storage.old).keeps_data
        (lent B.as_layer_below below.entry).tells_bytes missing.block.length missing.new_size
        (entries_of table.old) (entries_of table.new)
        (S.bytes storage.old) (S.bytes storage.new) (count_of table.old) (count_of table.new)
        missing.count) }
    ensures prefix { take (length (entries_of table.old)) (entries_of table.new)
        ≡ entries_of table.old }
    ensures copies { ArePushedInTurn S.features S.bytes S.fault_count S.work S.maintenance
        (lent B.as_layer_below below.entry) missing.block.length missing.new_size missing.count
        (entries_of table.old) (count_of table.old) storage.old storage.new result }
    ensures bytes { KeepsBytes (S.features storage.old).keeps_data missing.block.length
        (length (entries_of table.old) * missing.block.length)
        (entries_of table.old) (S.bytes storage.old) (S.bytes storage.new) }
    ensures ready { IsReady missing.block.length table.new }
    ensures room { KeepsRoom table.old table.new }
    ensures bounded { (most : ℕ)
        → count_of table.old ≤ most
        → named_count (entries_of table.old) + missing.count ≤ most
        → IsBounded (S.features storage.old) (lent B.as_layer_below below.entry)
        missing.block.length most
        (λ p. (length (entries_of table.old) * missing.block.length ≤ p) × (p < missing.new_size))
        (count_of table.new) (S.bytes storage.old) (S.bytes storage.new) result }
    ensures call { IsLendingCall B.as_layer_below B.reads below.entry (S.features storage.old)
        (S.features storage.new) (S.bytes storage.old) (S.bytes storage.new)
        (S.fault_count storage.old + faults.old) (S.fault_count storage.new + faults.new) result }
{
    for _ in 0..missing.count {
        push_filled(storage, faults, table, alloc, below, missing)?;
    }
    Ok(())
}

/// Adds the guest blocks that the grown disk needs, as explicit zeroes, or in data blocks with the
/// bytes that the layer below has there where new places show it. Refused, the entries are as they
/// were.
pub(crate) fn add_new<S: Storage, B: LowerLayer>(
    storage: &mut S,
    faults: &mut u64,
    table: &mut Table,
    alloc: Global,
    below: Option<&B>,
    growth: Growth,
) -> Result<(), Error>
    requires idle { IsIdle growth.size growth.block.length table.old }
    requires grows { growth.size ≤ growth.new_size }
    ensures added { OnOk result
        (HasNew (lent B.as_layer_below below.entry).at growth.mode
        (S.features storage.old).keeps_data (lent B.as_layer_below below.entry).tells_bytes
        growth.block.length growth.new_size
        (entries_of table.old) (entries_of table.new) (S.bytes storage.old) (S.bytes storage.new)) }
    ensures prefix { take (length (entries_of table.old)) (entries_of table.new)
        ≡ entries_of table.old }
    ensures refused { OnErr result (entries_of table.new ≡ entries_of table.old) }
    ensures copies { (wanted : ℕ)
        → growth.new_size ≤ wanted * growth.block.length
        → wanted * growth.block.length < growth.new_size + growth.block.length
        → AreAddedInTurn S.features S.bytes S.fault_count S.work S.maintenance
        (lent B.as_layer_below below.entry) (shows_below growth.mode) growth.block.length
        growth.new_size wanted (entries_of table.old) (count_of table.old) storage.old storage.new
        result }
    ensures bytes { KeepsBytes (S.features storage.old).keeps_data growth.block.length
        (length (entries_of table.old) * growth.block.length)
        (entries_of table.old) (S.bytes storage.old) (S.bytes storage.new) }
    ensures ready { IsReady growth.block.length table.new }
    ensures room { KeepsRoom table.old table.new }
    ensures bounded { (most wanted : ℕ)
        → growth.new_size ≤ wanted * growth.block.length
        → wanted * growth.block.length < growth.new_size + growth.block.length
        → count_of table.old ≤ most
        → (shows_below growth.mode ≡ true → named_count (entries_of table.old)
        + (wanted - length (entries_of table.old)) ≤ most)
        → IsBounded (S.features storage.old) (lent B.as_layer_below below.entry)
        growth.block.length most
        (λ p. (shows_below growth.mode ≡ true)
        × (length (entries_of table.old) * growth.block.length ≤ p) × (p < growth.new_size))
        (count_of table.new) (S.bytes storage.old) (S.bytes storage.new) result }
    ensures call { IsLendingCall B.as_layer_below B.reads below.entry (S.features storage.old)
        (S.features storage.new) (S.bytes storage.old) (S.bytes storage.new)
        (S.fault_count storage.old + faults.old) (S.fault_count storage.new + faults.new) result }
{
    if !leads_below(kind_of_new(growth.mode)) {
        return add_blocks(table, growth, WithoutData::Zero);
    }
    let old = table.len();
    let missing = Missing {
        block: growth.block,
        new_size: growth.new_size,
        count: first_whole(growth.block, growth.new_size) as usize - old,
    };
    table.reserve(missing.count)?;
    if let Err(e) = push_blocks(storage, faults, table, alloc, below, missing) {
        table.truncate(old);
        return Err(e);
    }
    Ok(())
}
