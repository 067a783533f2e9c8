// SPDX-License-Identifier: MIT
//! Reads, writes and discards of any range.
ghost use Rattle.std.specs.Prelude.{◌≡◌, ◌+◌, ◌-◌, ◌<◌, ◌≤◌, ◌*◌, length, min, false, OnOk, IfErr};
ghost use Rattle.std.specs.Prelude.{IsErrOf, IsTrue};
ghost use Rattle.std.specs.Int.{next_multiple_of};
ghost use Rattle.imago_storage.specs.Blocks.{IsInParts, IsInBlocks};
ghost use Rattle.imago_storage.specs.Bytes.{splice, zero_extended, WriteOutcome, IsReadAt};
ghost use Rattle.imago_storage.specs.Calls.{IsRangeRead, IsRangeWrite, IsRangeDiscard};
ghost use Rattle.imago_storage.specs.Error.{IsDeviceOrMemory};
ghost use Rattle.imago_storage.specs.Faults.{CountsFaults};
ghost use Rattle.imago_storage.specs.Features.{IsAlignedRequest, RequestMayRunOut};
ghost use Rattle.imago_storage.specs.IoCount.{AddsAtMost};
ghost use Rattle.imago_storage.specs.Steps.{IsUpdated, IsMadeInSteps, steps_of_blocks, steps_from};

use crate::align::{aligned_blocks, discard_align, length_align, padded_request, whole_blocks};
use crate::bytes::overwrite;
use crate::error::Error;
use crate::storage::{Storage, zero_buffer};
use std::alloc::Global;

/// How many blocks the padded range of a read may have to be read by way of one buffer.
const BOUNCED_BLOCKS: u64 = 2;

/// Reads a range: as it is where it is aligned, by way of a buffer of the padded range where that
/// is one block or two, and else in up to three parts.
#[tactic(auto, using(std::proofs::lemmas::List::places))]
pub(crate) fn read_any<S: Storage>(
    storage: &S,
    alloc: Global,
    buf: &mut [u8],
    offset: u64,
) -> Result<(), Error>
    ensures { IsRangeRead (S.features storage.now) (S.bytes storage.now) offset (length buf.old)
        buf.new result }
{
    if buf.is_empty() {
        return Ok(());
    }
    let Some((start, len)) = padded_request(storage, offset, buf.len() as u64) else {
        return Err(Error::WrapAround);
    };
    if start == offset && len == buf.len() as u64 {
        return storage.pure_readv(buf, offset);
    }
    let align = length_align(storage);
    if len <= align.saturating_mul(BOUNCED_BLOCKS) {
        let mut bounce = zero_buffer(alloc, len as usize)?;
        return read_within(storage, &mut bounce, buf, start, (offset - start) as usize);
    }
    // one block serves the first part and the last one
    let mut block = zero_buffer(alloc, align as usize)?;
    read_parts(storage, &mut block, buf, offset, start, len)
}

/// Reads three blocks or more of which the first or the last one isn't read whole: a part of the
/// first block, and then from a block's start on.
fn read_parts<S: Storage>(
    storage: &S,
    block: &mut [u8],
    buf: &mut [u8],
    offset: u64,
    start: u64,
    len: u64,
) -> Result<(), Error>
    requires parts { IsInParts (S.features storage.now) (length block.old) offset (length buf.old)
        start len }
    requires long { 2 * length block.old < len }
    ensures bytes { IsTrue (S.features storage.now).tells_bytes
        → OnOk result (IsReadAt (S.bytes storage.now) offset buf.new) }
    ensures only { IfErr result IsDeviceOrMemory }
    ensures device { IsErrOf result Error.Device → (S.features storage.now).is_reliable ≡ false }
{
    let align = block.len();
    let head = (offset - start) as usize;
    if head == 0 {
        return read_blocks(storage, block, buf, offset);
    }
    let (front, rest) = buf.split_at_mut(align - head);
    read_within(storage, block, front, start, head)?;
    read_blocks(storage, block, rest, start + align as u64)
}

/// Reads from a block's start on: whole blocks straight into the buffer, then a part of the last
/// one.
fn read_blocks<S: Storage>(
    storage: &S,
    block: &mut [u8],
    buf: &mut [u8],
    start: u64,
) -> Result<(), Error>
    requires { IsInBlocks (S.features storage.now) (length block.old) start (length buf.old) }
    ensures bytes { IsTrue (S.features storage.now).tells_bytes
        → OnOk result (IsReadAt (S.bytes storage.now) start buf.new) }
    ensures only { IfErr result IsDeviceOrMemory }
    ensures device { IsErrOf result Error.Device → (S.features storage.now).is_reliable ≡ false }
{
    let whole = whole_blocks(buf.len(), block.len());
    if whole == buf.len() {
        return storage.pure_readv(buf, start);
    }
    let (blocks, last) = buf.split_at_mut(whole);
    storage.pure_readv(blocks, start)?;
    read_within(storage, block, last, start + whole as u64, 0)
}

/// Reads a part of an aligned range, by way of a buffer of that range.
fn read_within<S: Storage>(
    storage: &S,
    bounce: &mut [u8],
    buf: &mut [u8],
    start: u64,
    head: usize,
) -> Result<(), Error>
    requires aligned { IsAlignedRequest (S.features storage.now) start (length bounce.old) }
    requires fits { head + length buf.old ≤ length bounce.old }
    ensures bytes { IsTrue (S.features storage.now).tells_bytes
        → OnOk result (IsReadAt (S.bytes storage.now) (start + head) buf.new) }
    ensures only { IfErr result IsDeviceOrMemory }
    ensures device { IsErrOf result Error.Device → (S.features storage.now).is_reliable ≡ false }
{
    storage.pure_readv(bounce, start)?;
    buf.copy_from_slice(&bounce[head..head + buf.len()]);
    Ok(())
}

/// Writes a range: as it is where it is aligned, and else in up to three parts.
#[tactic(auto, using(crate::proofs::Writes::write_work))]
pub(crate) fn write_any<S: Storage>(
    storage: &mut S,
    alloc: Global,
    source: &[u8],
    offset: u64,
) -> Result<(), Error>
    ensures { IsRangeWrite S.features S.bytes S.fault_count S.work S.maintenance offset source.now
        storage.old storage.new result }
{
    if source.is_empty() {
        return Ok(());
    }
    let Some((start, len)) = padded_request(&*storage, offset, source.len() as u64) else {
        return Err(Error::WrapAround);
    };
    if start == offset && len == source.len() as u64 {
        return storage.pure_writev(source, offset);
    }
    // one block serves the first part and the last one
    let mut block = zero_buffer(alloc, length_align(&*storage) as usize)?;
    write_parts(storage, &mut block, source, offset, start, len)
}

/// Writes a request that isn't aligned: a first block of which it leaves a part, and then from a
/// block's start on.
pub(crate) fn write_parts<S: Storage>(
    storage: &mut S,
    block: &mut [u8],
    source: &[u8],
    offset: u64,
    start: u64,
    len: u64,
) -> Result<(), Error>
    requires { IsInParts (S.features storage.old) (length block.old) offset (length source.now)
        start len }
    ensures written { WriteOutcome (S.features storage.old).keeps_data (S.bytes storage.old)
        (splice (zero_extended (S.bytes storage.old) (start + len)) offset source.now)
        (S.bytes storage.new) result }
    ensures features { S.features storage.new ≡ S.features storage.old }
    ensures work { AddsAtMost 2 (min (2 * length block.old) len) 3 len (S.work storage.old)
        (S.work storage.new) }
    ensures memory { IsErrOf result Error.Memory
        → RequestMayRunOut (S.features storage.old) (length (S.bytes storage.old)) (start + len) }
    ensures only { IfErr result IsDeviceOrMemory }
    ensures cause { CountsFaults (S.features storage.old).is_reliable (S.fault_count storage.old)
        (S.fault_count storage.new) result }
    ensures performed { IsMadeInSteps S.features S.bytes S.maintenance (length block.old)
        (steps_from (length block.old) (offset - start) offset source.now) storage.old storage.new
        result }
{
    let align = block.len();
    let head = (offset - start) as usize;
    if head == 0 {
        return write_blocks(storage, block, source, offset);
    }
    if source.len() <= align - head {
        return update_block(storage, block, source, start, head);
    }
    let first = align - head;
    update_block(storage, block, &source[..first], start, head)?;
    write_blocks(storage, block, &source[first..], start + align as u64)
}

/// Writes from a block's start on: whole blocks at once, then a part of the last one.
fn write_blocks<S: Storage>(
    storage: &mut S,
    block: &mut [u8],
    source: &[u8],
    start: u64,
) -> Result<(), Error>
    requires { IsInBlocks (S.features storage.old) (length block.old) start (length source.now) }
    ensures written { WriteOutcome (S.features storage.old).keeps_data (S.bytes storage.old)
        (splice
        (zero_extended (S.bytes storage.old)
        (start + next_multiple_of (length source.now) (length block.old)))
        start source.now)
        (S.bytes storage.new) result }
    ensures features { S.features storage.new ≡ S.features storage.old }
    ensures work { AddsAtMost 1 (length block.old) 2
        (next_multiple_of (length source.now) (length block.old))
        (S.work storage.old) (S.work storage.new) }
    ensures memory { IsErrOf result Error.Memory
        → RequestMayRunOut (S.features storage.old) (length (S.bytes storage.old))
        (start + next_multiple_of (length source.now) (length block.old)) }
    ensures only { IfErr result IsDeviceOrMemory }
    ensures cause { CountsFaults (S.features storage.old).is_reliable (S.fault_count storage.old)
        (S.fault_count storage.new) result }
    ensures performed { IsMadeInSteps S.features S.bytes S.maintenance (length block.old)
        (steps_of_blocks (length block.old) start source.now) storage.old storage.new result }
{
    let whole = whole_blocks(source.len(), block.len());
    if whole == 0 {
        return update_block(storage, block, source, start, 0);
    }
    storage.pure_writev(&source[..whole], start)?;
    if whole == source.len() {
        return Ok(());
    }
    update_block(storage, block, &source[whole..], start + whole as u64, 0)
}

/// Reads a block, changes a part of it, and writes it back.
fn update_block<S: Storage>(
    storage: &mut S,
    block: &mut [u8],
    source: &[u8],
    start: u64,
    head: usize,
) -> Result<(), Error>
    requires aligned { IsAlignedRequest (S.features storage.old) start (length block.old) }
    requires fits { head + length source.now ≤ length block.old }
    ensures written { WriteOutcome (S.features storage.old).keeps_data (S.bytes storage.old)
        (splice (zero_extended (S.bytes storage.old) (start + length block.old)) (start + head)
        source.now)
        (S.bytes storage.new) result }
    ensures features { S.features storage.new ≡ S.features storage.old }
    ensures work { AddsAtMost 1 (length block.old) 1 (length block.old) (S.work storage.old)
        (S.work storage.new) }
    ensures memory { IsErrOf result Error.Memory
        → RequestMayRunOut (S.features storage.old) (length (S.bytes storage.old))
        (start + length block.old) }
    ensures only { IfErr result IsDeviceOrMemory }
    ensures cause { CountsFaults (S.features storage.old).is_reliable (S.fault_count storage.old)
        (S.fault_count storage.new) result }
    ensures performed { IsUpdated S.features S.bytes S.maintenance (length block.old) start head
        source.now storage.old storage.new result }
{
    storage.pure_readv_mut(block, start)?;
    overwrite(block, source, head);
    storage.pure_writev(block, start)
}

/// Discards the aligned part of a range, if it has one. A discard that isn't offered is no refusal.
pub(crate) fn discard_any<S: Storage>(storage: &mut S, offset: u64, count: u64) -> Result<(), Error>
    ensures { IsRangeDiscard S.features S.bytes S.fault_count S.maintenance offset count storage.old
        storage.new result }
{
    let align = discard_align(&*storage);
    let Some((start, end)) = aligned_blocks(align, offset, count) else {
        return Err(Error::WrapAround);
    };
    if end <= start {
        return Ok(());
    }
    match storage.pure_discard(start, end - start) {
        Err(Error::Unsupported) => Ok(()),
        answer => answer,
    }
}
