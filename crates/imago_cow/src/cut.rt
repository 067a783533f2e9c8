// SPDX-License-Identifier: MIT
//! The guest block that the disk's end cuts, in a growth.
ghost use Rattle.std.specs.Prelude.{◌≡◌, ◌≢◌, ℕ, ◌+◌, ◌-◌, ◌*◌, ◌/◌, ◌%◌, ◌^◌, ◌<◌, ◌≤◌, ◌⊎◌};
ghost use Rattle.std.specs.Prelude.{max, IsOk};
ghost use Rattle.std.specs.Prelude.{length, List, slice_index, slice_get, IsTrue, IfOk};
ghost use Rattle.std.specs.Prelude.{IfErr, IfSome, OnOk, OnErr, Some, None, true, false};
ghost use Rattle.imago_storage.specs.Features.{len_align};
ghost use Rattle.imago_drivers.specs.Place.{Byte};
ghost use Rattle.imago_drivers.specs.LayerBelow.{lent};
ghost use Rattle.imago_drivers.specs.Reasons.{allowed};
ghost use Rattle.imago_cow.specs.declared.table.GuestBlock.{GuestBlock};
ghost use Rattle.imago_cow.specs.Table.{named_count, without_data, is_absent};
ghost use Rattle.imago_cow.specs.TableView.{entries_of, held_of, count_of, KeepsRoom};
ghost use Rattle.imago_cow.specs.TableView.{IsReady, TakesOne};
ghost use Rattle.imago_cow.specs.Guest.{entry_place, is_data};
ghost use Rattle.imago_drivers.specs.declared.format.PreallocateMode.{PreallocateMode};
ghost use Rattle.imago_cow.specs.Copies.{IsLendingCall, old_value};
ghost use Rattle.imago_cow.specs.CopyCalls.{IsCutCopied, IsCutTaken, IsFilledFirst};
ghost use Rattle.imago_cow.specs.Growth.{IsBounded, fill_reasons};
ghost use Rattle.imago_cow.specs.Grown.{IsCutGrown};
ghost use Rattle.imago_cow.specs.Cut.{IsCutEmpty, IsCutEntered, IsCutFilled, IsCutRead, IsTaken};
ghost use Rattle.imago_cow.specs.Cut.{AreInBlock, IsPutIn, shows_below};

use crate::block::BlockSize;
use crate::copy::{CopyStart, copy_old};
use crate::guest_blocks::{Growth, adds_nothing, kind_of_new, take_block};
use crate::map::entry_at;
use crate::table::{GuestBlock, Table, WithoutData, leads_below};
use imago_drivers::layer::LowerLayer;
use imago_storage::error::Error;
use imago_storage::storage::Storage;
use std::alloc::Global;

/// What a growth fills the guest block that the disk's end cuts with.
#[derive(Clone, Copy)]
struct Cut {
    /// A guest block's length.
    block: BlockSize,
    /// The old size.
    size: u64,
    /// How many of its places the growth adds.
    count: u64,
    /// What the guest block is.
    kind: WithoutData,
    /// What the new places show: those of a guest block of that kind.
    new_kind: WithoutData,
}

/// Copies what the guest block shows before the disk's old end, and then what its new places are to
/// show, to a data block that begins at `start`.
fn fill_both<S: Storage, B: LowerLayer>(
    storage: &mut S,
    faults: &mut u64,
    alloc: Global,
    below: Option<&B>,
    cut: Cut,
    start: u64,
) -> Result<(), Error>
    requires positive { 0 < cut.block.length }
    requires in_block { AreInBlock cut.block.length cut.size cut.count }
    requires fits { start + cut.block.length < 2 ^ 64 }
    ensures before { IsTrue (S.features storage.old).keeps_data
        → IsTrue (lent B.as_layer_below below.entry).tells_bytes
        → OnOk result
        ((k : ℕ)
        → k < cut.size % cut.block.length
        → old_value (lent B.as_layer_below below.entry).at (is_absent cut.kind)
        (cut.size - cut.size % cut.block.length + k)
        ≡ Byte (slice_index (S.bytes storage.new) (start + k))) }
    ensures behind { IsTrue (S.features storage.old).keeps_data
        → IsTrue (lent B.as_layer_below below.entry).tells_bytes
        → OnOk result
        ((k : ℕ)
        → k < cut.count
        → old_value (lent B.as_layer_below below.entry).at (is_absent cut.new_kind) (cut.size + k)
        ≡ Byte (slice_index (S.bytes storage.new) (start + cut.size % cut.block.length + k))) }
    ensures copies { IsCutCopied S.features S.bytes S.fault_count S.work S.maintenance
        (lent B.as_layer_below below.entry) (is_absent cut.kind) (is_absent cut.new_kind)
        cut.block.length cut.size cut.count start storage.old storage.new result }
    ensures outside { IsTrue (S.features storage.old).keeps_data
        → (p : ℕ)
        → (p < start) ⊎ (start + cut.block.length ≤ p)
        → slice_index (S.bytes storage.new) p ≡ slice_index (S.bytes storage.old) p }
    ensures no_longer { length (S.bytes storage.new)
        ≤ max (length (S.bytes storage.old))
        (start + cut.block.length + (len_align (S.features storage.old) - 1)) }
    ensures call { IsLendingCall B.as_layer_below B.reads below.entry (S.features storage.old)
        (S.features storage.new) (S.bytes storage.old) (S.bytes storage.new)
        (S.fault_count storage.old + faults.old) (S.fault_count storage.new + faults.new) result }
    ensures refusals { (limit : ℕ) (entries : _) (new_size : ℕ)
        → start + cut.block.length ≤ limit
        → cut.size + cut.count ≤ new_size
        → (is_absent cut.kind ≡ true → slice_get entries (cut.size / cut.block.length)
        ≡ Some GuestBlock.Absent)
        → IfErr result
        (allowed
        (fill_reasons (S.features storage.old) (lent B.as_layer_below below.entry) limit
        (IsCutRead cut.block.length cut.size entries (is_absent cut.new_kind) new_size))) }
{
    let rest = cut.block.rest(cut.size);
    let before = CopyStart {
        kind: cut.kind,
        offset: cut.size - rest,
        to: start,
    };
    copy_old(storage, faults, alloc, below, before, rest)?;
    let behind = CopyStart {
        kind: cut.new_kind,
        offset: cut.size,
        to: start + rest,
    };
    copy_old(storage, faults, alloc, below, behind, cut.count)
}

/// Takes a data block for the guest block, fills it, and enters it. Refused, the data block is
/// given back.
fn fill_taken<S: Storage, B: LowerLayer>(
    storage: &mut S,
    faults: &mut u64,
    table: &mut Table,
    alloc: Global,
    below: Option<&B>,
    cut: Cut,
) -> Result<(), Error>
    requires ready { IsReady cut.block.length table.old }
    requires in_block { AreInBlock cut.block.length cut.size cut.count }
    requires within { cut.size / cut.block.length < length (entries_of table.old) }
    requires empty { slice_get (entries_of table.old) (cut.size / cut.block.length)
        ≡ Some (without_data cut.kind) }
    ensures entered { IsTrue (S.features storage.old).keeps_data
        → OnOk result
        (IsTaken (lent B.as_layer_below below.entry).at
        (lent B.as_layer_below below.entry).tells_bytes cut.block.length cut.size cut.count
        (is_absent cut.kind) (is_absent cut.new_kind) (entries_of table.old) (entries_of table.new)
        (S.bytes storage.old) (S.bytes storage.new)) }
    ensures entries { IsPutIn (cut.size / cut.block.length) (entries_of table.old)
        (entries_of table.new) result }
    ensures copies { IsCutTaken S.features S.bytes S.fault_count S.work S.maintenance
        (lent B.as_layer_below below.entry) (is_absent cut.kind) (is_absent cut.new_kind)
        cut.block.length cut.size cut.count (entries_of table.old) (count_of table.old)
        (entries_of table.new) (count_of table.new) storage.old storage.new result }
    ensures places { IsTrue (S.features storage.old).keeps_data
        → (p : ℕ)
        → entry_place (S.bytes storage.new) cut.block.length p
        (slice_get (entries_of table.old) (p / cut.block.length))
        ≡ entry_place (S.bytes storage.old) cut.block.length p
        (slice_get (entries_of table.old) (p / cut.block.length)) }
    ensures ready { IsReady cut.block.length table.new }
    ensures taken { TakesOne table.old table.new }
    ensures no_longer { length (S.bytes storage.new)
        ≤ max (length (S.bytes storage.old))
        (max (count_of table.old) (named_count (entries_of table.old) + 1) * cut.block.length
        + (len_align (S.features storage.old) - 1)) }
    ensures call { IsLendingCall B.as_layer_below B.reads below.entry (S.features storage.old)
        (S.features storage.new) (S.bytes storage.old) (S.bytes storage.new)
        (S.fault_count storage.old + faults.old) (S.fault_count storage.new + faults.new) result }
    ensures refusals { (new_size : ℕ)
        → cut.size + cut.count ≤ new_size
        → IfErr result
        (allowed
        (fill_reasons (S.features storage.old) (lent B.as_layer_below below.entry)
        (max (count_of table.old) (named_count (entries_of table.old) + 1) * cut.block.length)
        (IsCutRead cut.block.length cut.size (entries_of table.old) (is_absent cut.new_kind)
        new_size))) }
{
    let number = take_block(table, cut.block.length)?;
    let start = number * cut.block.length;
    match fill_both(storage, faults, alloc, below, cut, start) {
        Ok(()) => {
            table.enter(cut.block.number(cut.size) as usize);
            Ok(())
        }
        Err(e) => {
            table.release();
            Err(e)
        }
    }
}

/// Fills the guest block that the disk's old end cuts, up to the new end, as the mode says: `None`
/// leaves it, and so does
/// `Zero` an explicit zero. Refused, no place before the old end changed.
pub(crate) fn fill_cut<S: Storage, B: LowerLayer>(
    storage: &mut S,
    faults: &mut u64,
    table: &mut Table,
    alloc: Global,
    below: Option<&B>,
    growth: Growth,
) -> Result<(), Error>
    requires ready { IsReady growth.block.length table.old }
    requires grows { growth.size < growth.new_size }
    requires within { 0 < growth.size % growth.block.length → growth.size / growth.block.length
        < length (entries_of table.old) }
    ensures filled { OnOk result
        (IsCutFilled (lent B.as_layer_below below.entry).at growth.mode
        (S.features storage.old).keeps_data (lent B.as_layer_below below.entry).tells_bytes
        growth.block.length growth.size growth.new_size (entries_of table.old)
        (entries_of table.new) (S.bytes storage.old) (S.bytes storage.new)) }
    ensures entries { OnErr result (entries_of table.new ≡ entries_of table.old) }
    ensures idle { growth.size % growth.block.length ≡ 0
        → IsOk result × (storage.new ≡ storage.old)
        × (entries_of table.new ≡ entries_of table.old)
        × (count_of table.new ≡ count_of table.old) }
    ensures copies { 0 < growth.size % growth.block.length
        → growth.mode ≢ PreallocateMode.None
        → IsFilledFirst S.features S.bytes S.fault_count S.work S.maintenance
        (lent B.as_layer_below below.entry) (shows_below growth.mode) growth.block.length
        growth.size growth.new_size (entries_of table.old) (count_of table.old)
        (slice_get (entries_of table.old) (growth.size / growth.block.length))
        (entries_of table.new) (count_of table.new) storage.old storage.new result }
    ensures entry { OnOk result (IsCutEntered growth.block.length growth.size (entries_of table.old)
        (entries_of table.new)) }
    ensures grown { OnOk result
        (IsCutGrown growth.mode growth.block.length growth.size (entries_of table.old)
        (entries_of table.new)) }
    ensures places { IsTrue (S.features storage.old).keeps_data
        → (p : ℕ)
        → p < growth.size
        → entry_place (S.bytes storage.new) growth.block.length p
        (slice_get (entries_of table.old) (p / growth.block.length))
        ≡ entry_place (S.bytes storage.old) growth.block.length p
        (slice_get (entries_of table.old) (p / growth.block.length)) }
    ensures ready { IsReady growth.block.length table.new }
    ensures room { KeepsRoom table.old table.new }
    ensures bounded { (most : ℕ)
        → count_of table.old ≤ most
        → (0 < growth.size % growth.block.length
        → is_data (slice_get (entries_of table.old) (growth.size / growth.block.length)) ≡ false
        → named_count (entries_of table.old) + 1 ≤ most)
        → IsBounded (S.features storage.old) (lent B.as_layer_below below.entry)
        growth.block.length most
        (IsCutRead growth.block.length growth.size (entries_of table.old) (shows_below growth.mode)
        growth.new_size)
        (count_of table.new) (S.bytes storage.old) (S.bytes storage.new) result }
    ensures call { IsLendingCall B.as_layer_below B.reads below.entry (S.features storage.old)
        (S.features storage.new) (S.bytes storage.old) (S.bytes storage.new)
        (S.fault_count storage.old + faults.old) (S.fault_count storage.new + faults.new) result }
{
    let rest = growth.block.rest(growth.size);
    if rest == 0 {
        return Ok(());
    }
    if adds_nothing(growth.mode) {
        return Ok(());
    }
    let new_kind = kind_of_new(growth.mode);
    let count = (growth.block.length - rest).min(growth.new_size - growth.size);
    let cut = Cut {
        block: growth.block,
        size: growth.size,
        count,
        kind: WithoutData::Absent,
        new_kind,
    };
    match entry_at(table, growth.block, growth.size) {
        GuestBlock::Absent => fill_taken(storage, faults, table, alloc, below, cut),
        GuestBlock::Zero => {
            if !leads_below(new_kind) {
                return Ok(());
            }
            let zero = Cut {
                kind: WithoutData::Zero,
                ..cut
            };
            fill_taken(storage, faults, table, alloc, below, zero)
        }
        GuestBlock::Data(number) => {
            let start = CopyStart {
                kind: new_kind,
                offset: growth.size,
                to: number * growth.block.length + rest,
            };
            copy_old(storage, faults, alloc, below, start, count)
        }
    }
}

/// What the guest block that the disk's end cuts is, where it isn't data.
pub(crate) fn empty_cut(table: &Table, block: BlockSize, size: u64) -> Option<WithoutData>
    requires positive { 0 < block.length }
    requires within { 0 < size % block.length
        → size / block.length < length (entries_of table.now) }
    ensures empty { IsCutEmpty block.length size (entries_of table.now) result }
    ensures within { IfSome result (λ k. size / block.length < length (entries_of table.now)) }
{
    if block.rest(size) == 0 {
        return None;
    }
    match entry_at(table, block, size) {
        GuestBlock::Absent => Some(WithoutData::Absent),
        GuestBlock::Zero => Some(WithoutData::Zero),
        GuestBlock::Data(_) => None,
    }
}

/// Makes the guest block that the disk's end cuts again what it was, and its data block free.
pub(crate) fn restore_cut(table: &mut Table, block: BlockSize, size: u64, was: Option<WithoutData>)
    requires positive { 0 < block.length }
    requires within { IfSome was (λ k. size / block.length < length (entries_of table.old)) }
    ensures restored { (old : List GuestBlock)
        → IsCutEmpty block.length size old was
        → IsCutEntered block.length size old (entries_of table.old)
        → entries_of table.new ≡ old }
    ensures held { held_of table.new ≡ held_of table.old }
    ensures count { count_of table.new ≡ count_of table.old }
    ensures room { KeepsRoom table.old table.new }
{
    let Some(kind) = was else {
        return;
    };
    table.clear(block.number(size) as usize, kind);
}
