// SPDX-License-Identifier: MIT
//! The copying of what places without data show into a data block.
ghost use Rattle.std.specs.Prelude.{◌≡◌, ℕ, ◌+◌, ◌-◌, ◌%◌, ◌^◌, ◌<◌, ◌≤◌, ◌⊎◌, ◌&&◌, max, length};
ghost use Rattle.std.specs.Prelude.{slice_index, IsTrue, IfOk, IfErr, OnOk, IsErrOf, true, false};
ghost use Rattle.imago_storage.specs.Faults.{CountsFaults};
ghost use Rattle.imago_storage.specs.Features.{len_align};
ghost use Rattle.imago_drivers.specs.Place.{Byte};
ghost use Rattle.imago_drivers.specs.Lengths.{padded_to};
ghost use Rattle.imago_drivers.specs.LayerBelow.{lent};
ghost use Rattle.imago_drivers.specs.Reasons.{allowed};
ghost use Rattle.imago_cow.specs.Copies.{are_told};
ghost use Rattle.imago_cow.specs.Copies.{old_value, HasOldBytes, IsOldRead, IsCopyAnswer};
ghost use Rattle.imago_cow.specs.Copies.{IsLendingCall, old_reasons, copy_reasons, round_reasons};
ghost use Rattle.imago_cow.specs.Copies.{block_from, block_until};
ghost use Rattle.imago_cow.specs.CopyCalls.{CopiesZeroes, IsWritten, IsCopied, IsRoundCopied};
ghost use Rattle.imago_cow.specs.Table.{is_absent};

use crate::block::BlockSize;
use crate::table::{WithoutData, leads_below};
use crate::zero::{shows_zeroes, takes_zeroes, zero_bytes};
use imago_drivers::drivers::Ticket;
use imago_drivers::layer::LowerLayer;
use imago_drivers::stored::write_bytes;
use imago_storage::error::Error;
use imago_storage::storage::Storage;
use std::alloc::Global;

/// Fills the buffer with what places without data show from the offset on: the layer below where
/// their guest block is absent, else zeroes. A refusal is the layer's own.
fn read_old<B: LowerLayer>(
    alloc: Global,
    below: Option<&B>,
    kind: WithoutData,
    buf: &mut [u8],
    offset: u64,
) -> Result<(), Error>
    ensures bytes { IsTrue (are_told (lent B.as_layer_below below.entry) (is_absent kind))
        → OnOk result
        (HasOldBytes (lent B.as_layer_below below.entry).at (is_absent kind) offset buf.new) }
    ensures answered { IsOldRead B.reads below.entry (is_absent kind) offset (length buf.old)
        result }
    ensures device { IsErrOf result Error.Device
        → (lent B.as_layer_below below.entry).is_reliable ≡ false }
    ensures refusals { IfErr result
        (allowed (old_reasons (lent B.as_layer_below below.entry) (is_absent kind) offset
        (length buf.old))) }
{
    if !leads_below(kind) {
        buf.fill(0);
        return Ok(());
    }
    let Some(layer) = below else {
        buf.fill(0);
        return Ok(());
    };
    layer.read(alloc, buf, offset)
}

/// Where a copy of what places without data show begins.
#[derive(Clone, Copy)]
pub(crate) struct CopyStart {
    /// What their guest block is.
    pub(crate) kind: WithoutData,
    /// The first place.
    pub(crate) offset: u64,
    /// Where it goes in the storage.
    pub(crate) to: u64,
}

/// Whether places without data show zeroes for certain, to a range that the storage's zero write
/// takes as it is.
#[tactic(auto, unfolding(crate::specs::CopyCalls::CopiesZeroes))]
fn copies_zeroes<S: Storage, B: LowerLayer>(
    storage: &S,
    below: Option<&B>,
    start: CopyStart,
    count: u64,
) -> bool
    ensures zeroes { result ≡ true
        → (p : ℕ)
        → start.offset ≤ p
        → old_value (lent B.as_layer_below below.entry).at (is_absent start.kind) p ≡ Byte 0 }
    ensures begins { result ≡ true → start.to % (S.features storage.now).zero_align ≡ 0 }
    ensures whole { result ≡ true → count % (S.features storage.now).zero_align ≡ 0 }
    ensures certain { result ≡ true
        → CopiesZeroes (S.features storage.now) (lent B.as_layer_below below.entry)
        (is_absent start.kind) start.offset count start.to }
    ensures other { result ≡ false
        → CopiesZeroes (S.features storage.now) (lent B.as_layer_below below.entry)
        (is_absent start.kind) start.offset count start.to
        → ⊥ }
{
    shows_zeroes(below, start.kind, start.offset) && takes_zeroes(storage, start.to, count)
}

/// Copies what places without data show through the buffer to the storage, as many as the buffer
/// holds. A failed read of the layer below raises the count of faults. What the read is refused for
/// is the answer.
#[tactic(auto, unfolding(crate::specs::CopyCalls::IsWritten))]
fn copy_through<S: Storage, B: LowerLayer>(
    storage: &mut S,
    faults: &mut u64,
    alloc: Global,
    below: Option<&B>,
    start: CopyStart,
    buf: &mut [u8],
) -> Result<(), Error>
    ensures copied { IsTrue (S.features storage.old).keeps_data
        → IsTrue (lent B.as_layer_below below.entry).tells_bytes
        → OnOk result
        ((k : ℕ)
        → k < length buf.old
        → old_value (lent B.as_layer_below below.entry).at (is_absent start.kind) (start.offset + k)
        ≡ Byte (slice_index (S.bytes storage.new) (start.to + k))) }
    ensures answered { IsCopyAnswer B.reads below.entry (is_absent start.kind) start.offset
        (length buf.old) result }
    ensures copies { IsWritten S.features S.bytes S.fault_count S.work S.maintenance
        (lent B.as_layer_below below.entry) (is_absent start.kind) start.offset
        (length buf.old) start.to storage.old storage.new result }
    ensures outside { IsTrue (S.features storage.old).keeps_data
        → (p : ℕ)
        → (p < start.to) ⊎ (start.to + length buf.old ≤ p)
        → slice_index (S.bytes storage.new) p ≡ slice_index (S.bytes storage.old) p }
    ensures no_shorter { length (S.bytes storage.old) ≤ length (S.bytes storage.new) }
    ensures no_longer { length (S.bytes storage.new)
        ≤ max (length (S.bytes storage.old))
        (padded_to (S.features storage.old) start.to (length buf.old)) }
    ensures features { S.features storage.new ≡ S.features storage.old }
    ensures faults { CountsFaults
        ((S.features storage.old).is_reliable && (lent B.as_layer_below below.entry).is_reliable)
        (S.fault_count storage.old + faults.old) (S.fault_count storage.new + faults.new) result }
    ensures refusals { 0 < length buf.old
        → IfErr result
        (allowed
        (copy_reasons (S.features storage.old) (lent B.as_layer_below below.entry)
        (is_absent start.kind) start.offset (length buf.old) start.to)) }
{
    match read_old(alloc, below, start.kind, &mut *buf, start.offset) {
        Ok(()) => write_bytes(storage, alloc, buf, start.to),
        Err(Error::Device) => {
            *faults = faults.saturating_add(1);
            Err(Error::Device)
        }
        Err(e) => Err(e),
    }
}

/// Copies what `count` places without data show to the storage. A failed read of the layer below
/// raises the count of faults. What shows zeroes for certain isn't read: the storage's own zero
/// write makes it, where that takes the range as it is.
pub(crate) fn copy_old<S: Storage, B: LowerLayer>(
    storage: &mut S,
    faults: &mut u64,
    alloc: Global,
    below: Option<&B>,
    start: CopyStart,
    count: u64,
) -> Result<(), Error>
    ensures copied { IsTrue (S.features storage.old).keeps_data
        → IsTrue (lent B.as_layer_below below.entry).tells_bytes
        → OnOk result
        ((k : ℕ)
        → k < count
        → old_value (lent B.as_layer_below below.entry).at (is_absent start.kind) (start.offset + k)
        ≡ Byte (slice_index (S.bytes storage.new) (start.to + k))) }
    ensures copies { IsCopied S.features S.bytes S.fault_count S.work S.maintenance
        (lent B.as_layer_below below.entry) (is_absent start.kind) start.offset count
        start.to storage.old storage.new result }
    ensures outside { IsTrue (S.features storage.old).keeps_data
        → (p : ℕ)
        → (p < start.to) ⊎ (start.to + count ≤ p)
        → slice_index (S.bytes storage.new) p ≡ slice_index (S.bytes storage.old) p }
    ensures no_longer { length (S.bytes storage.new)
        ≤ max (length (S.bytes storage.old)) (padded_to (S.features storage.old) start.to count) }
    ensures call { IsLendingCall B.as_layer_below B.reads below.entry (S.features storage.old)
        (S.features storage.new) (S.bytes storage.old) (S.bytes storage.new)
        (S.fault_count storage.old + faults.old) (S.fault_count storage.new + faults.new) result }
    ensures refusals { IfErr result
        (allowed
        (copy_reasons (S.features storage.old) (lent B.as_layer_below below.entry)
        (is_absent start.kind) start.offset count start.to)) }
{
    if count == 0 {
        return Ok(());
    }
    if copies_zeroes(&*storage, below, start, count) {
        return zero_bytes(storage, alloc, start.to, count);
    }
    let mut bytes = vec![in alloc; 0u8; count as usize]?;
    copy_through(storage, faults, alloc, below, start, &mut bytes)
}

/// A range of one guest block that is prepared for a write.
#[derive(Clone, Copy)]
pub(crate) struct Part {
    /// A guest block's length.
    pub(crate) block: BlockSize,
    /// The disk's size.
    pub(crate) size: u64,
    pub(crate) offset: u64,
    pub(crate) run: u64,
    /// What the guest block is.
    pub(crate) kind: WithoutData,
    /// The range itself isn't copied.
    pub(crate) overwrite: bool,
    /// What its mapping holds.
    pub(crate) state: Ticket,
}

/// Copies what the guest block of a part shows, within the disk, to a data block that begins at
/// `start`. For overwriting the range itself is left out.
pub(crate) fn copy_round<S: Storage, B: LowerLayer>(
    storage: &mut S,
    faults: &mut u64,
    alloc: Global,
    below: Option<&B>,
    part: Part,
    start: u64,
) -> Result<(), Error>
    requires positive { 0 < part.block.length }
    requires inside { part.offset + part.run ≤ part.size }
    requires in_block { part.offset % part.block.length + part.run ≤ part.block.length }
    requires fits { start + part.block.length < 2 ^ 64 }
    ensures copied { IsTrue (S.features storage.old).keeps_data
        → IsTrue (lent B.as_layer_below below.entry).tells_bytes
        → OnOk result
        ((p : ℕ)
        → block_from part.block.length part.offset ≤ p
        → p < block_until part.block.length part.size part.offset
        → (part.overwrite ≡ true → (p < part.offset) ⊎ (part.offset + part.run ≤ p))
        → old_value (lent B.as_layer_below below.entry).at (is_absent part.kind) p
        ≡ Byte (slice_index (S.bytes storage.new)
        (start + (p - block_from part.block.length part.offset)))) }
    ensures copies { IsRoundCopied S.features S.bytes S.fault_count S.work S.maintenance
        (lent B.as_layer_below below.entry) (is_absent part.kind) part.overwrite
        part.block.length part.size part.offset part.run start storage.old storage.new result }
    ensures outside { IsTrue (S.features storage.old).keeps_data
        → (p : ℕ)
        → (p < start) ⊎ (start + part.block.length ≤ p)
        → slice_index (S.bytes storage.new) p ≡ slice_index (S.bytes storage.old) p }
    ensures no_longer { length (S.bytes storage.new)
        ≤ max (length (S.bytes storage.old))
        (start + part.block.length + (len_align (S.features storage.old) - 1)) }
    ensures call { IsLendingCall B.as_layer_below B.reads below.entry (S.features storage.old)
        (S.features storage.new) (S.bytes storage.old) (S.bytes storage.new)
        (S.fault_count storage.old + faults.old) (S.fault_count storage.new + faults.new) result }
    ensures refusals { IfErr result
        (allowed
        (round_reasons (S.features storage.old) (lent B.as_layer_below below.entry)
        (is_absent part.kind) part.overwrite part.block.length part.size part.offset part.run
        start)) }
{
    let rest = part.block.rest(part.offset);
    let from = part.offset - rest;
    let count = part.block.length.min(part.size - from);
    let first = CopyStart {
        kind: part.kind,
        offset: from,
        to: start,
    };
    if !part.overwrite {
        return copy_old(storage, faults, alloc, below, first, count);
    }
    copy_old(storage, faults, alloc, below, first, rest)?;
    let behind = rest + part.run;
    let second = CopyStart {
        kind: part.kind,
        offset: from + behind,
        to: start + behind,
    };
    copy_old(storage, faults, alloc, below, second, count - behind)
}
