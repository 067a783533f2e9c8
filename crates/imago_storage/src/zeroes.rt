// SPDX-License-Identifier: MIT
//! Zero writes of any range.
ghost use Rattle.std.specs.Prelude.{◌≡◌, ◌≢◌, ℕ, ◌+◌, ◌-◌, ◌%◌, ◌<◌, ◌≤◌, ◌⊎◌, ◌^◌, length, max};
ghost use Rattle.std.specs.Prelude.{min, replicate, OnOk, IfOk, IfErr, IsErrOf, IsOk, Ok, Err};
ghost use Rattle.std.specs.Prelude.{◌↔◌, List};
ghost use Rattle.imago_storage.specs.Bytes.{splice, zero_extended, WriteOutcome};
ghost use Rattle.imago_storage.specs.Calls.{IsRangeZeroing, ShowsNoChange, IsUnsupportedZeroing};
ghost use Rattle.imago_storage.specs.Error.{IsExtRefusal, IsPureRefusal, IsZeroRefusal};
ghost use Rattle.imago_storage.specs.Faults.{CountsFaults};
ghost use Rattle.imago_storage.specs.Features.{InPlace, AsData, MayRunOut};
ghost use Rattle.imago_storage.specs.Features.{IsAlignedRequest, IsAlignedTo, RequestMayRunOut};
ghost use Rattle.imago_storage.specs.Features.{ZeroesMayRunOut, len_align, zero_piece};
ghost use Rattle.imago_storage.specs.Features.{zero_support};
ghost use Rattle.imago_storage.specs.IoCount.{AddsAtMost, IsWriteWork, IsEdgedWork};
ghost use Rattle.imago_storage.specs.Padding.{padded_end, Wraps, IsAlignedPart, IsSomePart};
ghost use Rattle.imago_storage.specs.Zeroes.{HasZeroed, ZeroedPart, EdgeWraps, DataWraps};
ghost use Rattle.imago_storage.specs.Zeroes.{IsAlignedZeroing, IsPartAndEdges, HasZeroes};
ghost use Rattle.imago_storage.specs.Zeroes.{IsCutInPieces, IsZeroesWritten, edge_ranges};
ghost use Rattle.imago_storage.specs.Zeroes.{data_ranges};
ghost use Rattle.imago_storage.specs.Steps.{IsMadeInSteps, write_steps, AreMadeInOrder};
ghost use Rattle.imago_storage.specs.Steps.{pieces_of};

use crate::align::{
    aligned_blocks, head_length, length_align, padded_request, remainder, zero_align,
};
use crate::error::Error;
use crate::request::write_parts;
use crate::storage::{Storage, ZERO_PIECE, ZeroKind, zero_buffer};
use std::alloc::Global;

/// What zeroes are written from as data.
#[derive(Drop)]
struct ZeroStock {
    zeroes: Vec<u8>,
    /// One block, for requests that aren't aligned.
    block: Vec<u8>,
}

/// That many zeroes, and a block of the storage. Refused, it is [`Error::Memory`].
fn zero_stock<S: Storage>(storage: &S, alloc: Global, count: u64) -> Result<ZeroStock, Error>
    ensures zeroes { IfOk result (λ s. s.zeroes.items ≡ replicate count 0) }
    ensures block { IfOk result (λ s. length s.block.items ≡ len_align (S.features storage.now)) }
    ensures memory { IfErr result (λ e. e ≡ Error.Memory) }
{
    let zeroes = zero_buffer(alloc, count as usize)?;
    let block = zero_buffer(alloc, length_align(storage) as usize)?;
    Ok(ZeroStock { zeroes, block })
}

/// Zeroes a range: its part that is aligned to the zero alignment by a zero write of the storage,
/// and what stands before and behind it as data; the whole range as data where it has no such part,
/// or where the storage refuses that zero write as unsupported.
pub(crate) fn zero_any<S: Storage>(
    storage: &mut S,
    alloc: Global,
    offset: u64,
    count: u64,
    kind: ZeroKind,
) -> Result<(), Error>
    ensures { IsRangeZeroing S.features S.bytes S.fault_count S.work S.maintenance kind
        (zero_support (S.features storage.old) kind) offset count storage.old storage.new result }
{
    if count == 0 {
        return Ok(());
    }
    let align = zero_align(&*storage);
    let Some((start, end)) = aligned_blocks(align, offset, count) else {
        return Err(Error::WrapAround);
    };
    let range = ZeroRange {
        offset,
        count,
        start,
        end,
    };
    zero_nonempty(storage, alloc, range, kind)
}

/// A range, and its part from `start` to `end` that is aligned for zero writes. The part is empty
/// where it ends by its start. All in bytes.
#[derive(Clone, Copy)]
struct ZeroRange {
    offset: u64,
    count: u64,
    start: u64,
    end: u64,
}

/// Zeroes a range that isn't empty.
fn zero_nonempty<S: Storage>(
    storage: &mut S,
    alloc: Global,
    range: ZeroRange,
    kind: ZeroKind,
) -> Result<(), Error>
    requires part { IsAlignedPart (S.features storage.old).zero_align range.offset range.count
        range.start range.end }
    requires some { 0 < range.count }
    ensures { IsRangeZeroing S.features S.bytes S.fault_count S.work S.maintenance kind
        (zero_support (S.features storage.old) kind) range.offset range.count storage.old
        storage.new result }
{
    if range.end <= range.start {
        return zero_by_writes(storage, alloc, range.offset, range.count);
    }
    match zero_part_and_edges(storage, alloc, range, kind) {
        Err(Error::Unsupported) => zero_by_writes(storage, alloc, range.offset, range.count),
        Err(refusal) => Err(refusal),
        Ok(()) => Ok(()),
    }
}

/// Zeroes the aligned part of a range by a zero write of the storage, and then its edges as data.
/// Where that zero write is refused as unsupported, so is this, with bytes and the count of faults
/// as they were.
fn zero_part_and_edges<S: Storage>(
    storage: &mut S,
    alloc: Global,
    range: ZeroRange,
    kind: ZeroKind,
) -> Result<(), Error>
    requires { IsSomePart (S.features storage.old).zero_align range.offset range.count range.start
        range.end }
    ensures written { HasZeroed (S.features storage.old) (S.bytes storage.old) range.offset
        range.count
        (S.bytes storage.new)
        result }
    ensures wraps { IsErrOf result Error.WrapAround
        → EdgeWraps (S.features storage.old) range.offset range.count }
    ensures fits { OnOk result (¬ EdgeWraps (S.features storage.old) range.offset range.count) }
    ensures unsupported { IsErrOf result Error.Unsupported
        → IsUnsupportedZeroing S.features S.bytes S.fault_count
        (zero_support (S.features storage.old) kind) (range.end - range.start) storage.old
        storage.new }
    ensures refused { zero_support (S.features storage.old) kind ≡ AsData
        → (range.end - range.start) % (S.features storage.old).mem_align ≢ 0
        → IsErrOf result Error.Unsupported ⊎ IsErrOf result Error.Memory }
    ensures features { S.features storage.new ≡ S.features storage.old }
    ensures only { IfErr result IsZeroRefusal }
    ensures cause { CountsFaults (S.features storage.old).is_reliable (S.fault_count storage.old)
        (S.fault_count storage.new) result }
    ensures memory { IsErrOf result Error.Memory
        → range.start ≡ range.offset
        → range.end ≡ range.offset + range.count
        → zero_support (S.features storage.old) kind ≡ InPlace
        → MayRunOut (S.features storage.old).zero_memory (length (S.bytes storage.old))
        (range.offset + range.count) }
    ensures early { IsErrOf result Error.Memory
        → (¬ ZeroesMayRunOut (S.features storage.old) (length (S.bytes storage.old))
        (range.offset + range.count + (len_align (S.features storage.old) - 1)))
        → ShowsNoChange S.features S.bytes S.fault_count storage.old storage.new }
    ensures performed { ((storage.new ≡ storage.old) × IsErrOf result Error.Memory)
        ⊎ IsPartAndEdges S.features S.bytes S.maintenance S.work (S.features storage.old) kind
        range.offset range.count range.start range.end storage.old storage.new result }
{
    if range.start == range.offset && range.end == range.offset + range.count {
        return zero_aligned(storage, alloc, range.start, range.end - range.start, kind);
    }
    // all memory is asked for before anything is written
    let edge = (range.start - range.offset).max(range.offset + range.count - range.end);
    let mut stock = zero_stock(&*storage, alloc, edge)?;
    zero_aligned(storage, alloc, range.start, range.end - range.start, kind)?;
    zero_edges(storage, &stock.zeroes, &mut stock.block, range)
}

/// Zeroes as data what stands before and behind the aligned part of a range, which is zeroed
/// already.
fn zero_edges<S: Storage>(
    storage: &mut S,
    zeroes: &[u8],
    block: &mut [u8],
    range: ZeroRange,
) -> Result<(), Error>
    requires part { IsSomePart (S.features storage.old).zero_align range.offset range.count
        range.start range.end }
    requires zeroes { HasZeroes
        (max (range.start - range.offset) (range.offset + range.count - range.end)) zeroes.now }
    requires block { length block.old ≡ len_align (S.features storage.old) }
    ensures written { (old : List ℕ)
        → HasZeroed {T = Unit {0}} (S.features storage.old) old range.start
        (range.end - range.start)
        (S.bytes storage.old) (Ok tt)
        → HasZeroed (S.features storage.old) old range.offset range.count (S.bytes storage.new)
        result }
    ensures wraps { IsErrOf result Error.WrapAround
        → EdgeWraps (S.features storage.old) range.offset range.count }
    ensures fits { OnOk result (¬ EdgeWraps (S.features storage.old) range.offset range.count) }
    ensures features { S.features storage.new ≡ S.features storage.old }
    ensures only { IfErr result IsExtRefusal }
    ensures cause { CountsFaults (S.features storage.old).is_reliable (S.fault_count storage.old)
        (S.fault_count storage.new) result }
    ensures memory { IsErrOf result Error.Memory
        → RequestMayRunOut (S.features storage.old) (length (S.bytes storage.old))
        (range.offset + range.count + (len_align (S.features storage.old) - 1)) }
    ensures work { IsEdgedWork 2 (len_align (S.features storage.old))
        (zero_piece (S.features storage.old))
        (range.start - range.offset + (range.offset + range.count - range.end)) (S.work storage.old)
        (S.work storage.new) }
    ensures performed { AreMadeInOrder (IsZeroesWritten S.features S.bytes S.maintenance)
        (edge_ranges range.offset range.count range.start range.end) storage.old storage.new
        result }
{
    zero_from(
        storage,
        zeroes,
        block,
        range.offset,
        range.start - range.offset,
    )?;
    zero_from(
        storage,
        zeroes,
        block,
        range.end,
        range.offset + range.count - range.end,
    )
}

/// Zeroes an aligned range by the storage's zero write of that kind.
fn zero_aligned<S: Storage>(
    storage: &mut S,
    alloc: Global,
    offset: u64,
    count: u64,
    kind: ZeroKind,
) -> Result<(), Error>
    requires { IsAlignedTo (S.features storage.old).zero_align offset count }
    ensures written { HasZeroed (S.features storage.old) (S.bytes storage.old) offset count
        (S.bytes storage.new)
        result }
    ensures unsupported { IsErrOf result Error.Unsupported
        → IsUnsupportedZeroing S.features S.bytes S.fault_count
        (zero_support (S.features storage.old) kind) count storage.old storage.new }
    ensures refused { zero_support (S.features storage.old) kind ≡ AsData
        → count % (S.features storage.old).mem_align ≢ 0
        → IsErrOf result Error.Unsupported }
    ensures features { S.features storage.new ≡ S.features storage.old }
    ensures only { IfErr result IsPureRefusal }
    ensures cause { CountsFaults (S.features storage.old).is_reliable (S.fault_count storage.old)
        (S.fault_count storage.new) result }
    ensures memory { IsErrOf result Error.Memory
        → zero_support (S.features storage.old) kind ≡ InPlace
        → MayRunOut (S.features storage.old).zero_memory (length (S.bytes storage.old))
        (offset + count) }
    ensures early { IsErrOf result Error.Memory
        → (¬ ZeroesMayRunOut (S.features storage.old) (length (S.bytes storage.old))
        (offset + count))
        → ShowsNoChange S.features S.bytes S.fault_count storage.old storage.new }
    ensures performed { IsAlignedZeroing S.features S.bytes S.maintenance S.work
        (S.features storage.old) kind offset count storage.old storage.new result }
{
    match kind {
        ZeroKind::Any => storage.pure_write_zeroes(alloc, offset, count),
        ZeroKind::Allocated => storage.pure_write_allocated_zeroes(alloc, offset, count),
    }
}

/// Writes that many zeroes out of a buffer of zeroes, with a block of the storage where they aren't
/// aligned.
fn zero_from<S: Storage>(
    storage: &mut S,
    zeroes: &[u8],
    block: &mut [u8],
    offset: u64,
    count: u64,
) -> Result<(), Error>
    requires zeroes { HasZeroes count zeroes.now }
    requires block { IsAlignedRequest (S.features storage.old) offset count
        ⊎ (length block.old ≡ len_align (S.features storage.old)) }
    ensures written { ZeroedPart (S.features storage.old) (S.bytes storage.old) offset count
        (S.bytes storage.new)
        result }
    ensures wraps { IsErrOf result Error.WrapAround ↔ Wraps (S.features storage.old) offset count }
    ensures features { S.features storage.new ≡ S.features storage.old }
    ensures only { IfErr result IsExtRefusal }
    ensures cause { CountsFaults (S.features storage.old).is_reliable (S.fault_count storage.old)
        (S.fault_count storage.new) result }
    ensures memory { IsErrOf result Error.Memory
        → RequestMayRunOut (S.features storage.old) (length (S.bytes storage.old))
        (offset + count + (len_align (S.features storage.old) - 1)) }
    ensures work { IsWriteWork (S.features storage.old) offset count (S.work storage.old)
        (S.work storage.new) }
    ensures direct { IsAlignedRequest (S.features storage.old) offset count
        → AddsAtMost 0 0 1 count (S.work storage.old) (S.work storage.new) }
    ensures performed { IsZeroesWritten S.features S.bytes S.maintenance offset count storage.old
        storage.new result }
{
    write_by(storage, block, &zeroes[..count as usize], offset)
}

/// Writes a range as [`write_any`](crate::request::write_any) does, with a block that is there
/// already where the range isn't aligned.
fn write_by<S: Storage>(
    storage: &mut S,
    block: &mut [u8],
    source: &[u8],
    offset: u64,
) -> Result<(), Error>
    requires { IsAlignedRequest (S.features storage.old) offset (length source.now)
        ⊎ (length block.old ≡ len_align (S.features storage.old)) }
    ensures empty { length source.now ≡ 0 → IsOk result × (storage.new ≡ storage.old) }
    ensures written { 0 < length source.now
        → WriteOutcome (S.features storage.old).keeps_data (S.bytes storage.old)
        (splice
        (zero_extended (S.bytes storage.old)
        (padded_end (S.features storage.old) offset (length source.now)))
        offset source.now)
        (S.bytes storage.new) result }
    ensures wraps { IsErrOf result Error.WrapAround
        ↔ Wraps (S.features storage.old) offset (length source.now) }
    ensures features { S.features storage.new ≡ S.features storage.old }
    ensures only { IfErr result IsExtRefusal }
    ensures cause { CountsFaults (S.features storage.old).is_reliable (S.fault_count storage.old)
        (S.fault_count storage.new) result }
    ensures memory { IsErrOf result Error.Memory
        → RequestMayRunOut (S.features storage.old) (length (S.bytes storage.old))
        (padded_end (S.features storage.old) offset (length source.now)) }
    ensures work { IsWriteWork (S.features storage.old) offset (length source.now)
        (S.work storage.old) (S.work storage.new) }
    ensures direct { IsAlignedRequest (S.features storage.old) offset (length source.now)
        → AddsAtMost 0 0 1 (length source.now) (S.work storage.old) (S.work storage.new) }
    ensures performed { (¬ Wraps (S.features storage.old) offset (length source.now))
        → IsMadeInSteps S.features S.bytes S.maintenance (len_align (S.features storage.old))
        (write_steps (S.features storage.old) offset source.now) storage.old storage.new result }
    ensures nothing { Wraps (S.features storage.old) offset (length source.now)
        → (storage.new ≡ storage.old) × (result ≡ Err Error.WrapAround) }
{
    if source.is_empty() {
        return Ok(());
    }
    let Some((start, len)) = padded_request(&*storage, offset, source.len() as u64) else {
        return Err(Error::WrapAround);
    };
    if start == offset && len == source.len() as u64 {
        return storage.pure_writev(source, offset);
    }
    write_parts(storage, block, source, offset, start, len)
}

/// Writes zeroes as data: up to the first multiple of the request alignment, where the range
/// doesn't start at one, and then in whole pieces, all from one buffer. All memory is asked for
/// before the first write; a range that is aligned needs no block beside the zeroes.
fn zero_by_writes<S: Storage>(
    storage: &mut S,
    alloc: Global,
    offset: u64,
    count: u64,
) -> Result<(), Error>
    requires some { 0 < count }
    requires ends { offset + count < 2 ^ 64 }
    ensures written { HasZeroed (S.features storage.old) (S.bytes storage.old) offset count
        (S.bytes storage.new)
        result }
    ensures wraps { IsErrOf result Error.WrapAround
        → DataWraps (S.features storage.old) offset count }
    ensures fits { OnOk result (¬ DataWraps (S.features storage.old) offset count) }
    ensures features { S.features storage.new ≡ S.features storage.old }
    ensures only { IfErr result IsExtRefusal }
    ensures cause { CountsFaults (S.features storage.old).is_reliable (S.fault_count storage.old)
        (S.fault_count storage.new) result }
    ensures early { IsErrOf result Error.Memory
        → (¬ RequestMayRunOut (S.features storage.old) (length (S.bytes storage.old))
        (offset + count + (len_align (S.features storage.old) - 1)))
        → storage.new ≡ storage.old }
    ensures work { IsEdgedWork 2 (len_align (S.features storage.old))
        (zero_piece (S.features storage.old)) count (S.work storage.old) (S.work storage.new) }
    ensures performed { ((storage.new ≡ storage.old) × IsErrOf result Error.Memory)
        ⊎ AreMadeInOrder (IsZeroesWritten S.features S.bytes S.maintenance)
        (data_ranges (S.features storage.old) offset count) storage.old storage.new result }
{
    let align = length_align(&*storage);
    let piece = align.max(ZERO_PIECE);
    let first = head_length(&*storage, offset, count);
    if first == 0 && remainder(count, align) == 0 {
        let zeroes = zero_buffer(alloc, piece.min(count) as usize)?;
        return zero_pieces(storage, &zeroes, &mut [], piece, offset, count);
    }
    let mut stock = zero_stock(&*storage, alloc, piece.min(count))?;
    if first == 0 {
        return zero_pieces(
            storage,
            &stock.zeroes,
            &mut stock.block,
            piece,
            offset,
            count,
        );
    }
    zero_from(storage, &stock.zeroes, &mut stock.block, offset, first)?;
    if first == count {
        return Ok(());
    }
    zero_pieces(
        storage,
        &stock.zeroes,
        &mut stock.block,
        piece,
        offset + first,
        count - first,
    )
}

/// Writes zeroes as data from a multiple of the request alignment on, in pieces from a buffer of
/// zeroes.
fn zero_pieces<S: Storage>(
    storage: &mut S,
    zeroes: &[u8],
    block: &mut [u8],
    piece: u64,
    offset: u64,
    count: u64,
) -> Result<(), Error>
    requires zeroes { HasZeroes (min piece count) zeroes.now }
    requires block { (count % len_align (S.features storage.old) ≡ 0)
        ⊎ (length block.old ≡ len_align (S.features storage.old)) }
    requires pieces { IsCutInPieces (S.features storage.old) piece offset count }
    ensures written { HasZeroed (S.features storage.old) (S.bytes storage.old) offset count
        (S.bytes storage.new)
        result }
    ensures wraps { IsErrOf result Error.WrapAround → Wraps (S.features storage.old) offset count }
    ensures fits { OnOk result (¬ Wraps (S.features storage.old) offset count) }
    ensures features { S.features storage.new ≡ S.features storage.old }
    ensures only { IfErr result IsExtRefusal }
    ensures cause { CountsFaults (S.features storage.old).is_reliable (S.fault_count storage.old)
        (S.fault_count storage.new) result }
    ensures memory { IsErrOf result Error.Memory
        → RequestMayRunOut (S.features storage.old) (length (S.bytes storage.old))
        (offset + count + (len_align (S.features storage.old) - 1)) }
    ensures work { IsEdgedWork 1 (len_align (S.features storage.old)) piece count
        (S.work storage.old) (S.work storage.new) }
    ensures performed { AreMadeInOrder (IsZeroesWritten S.features S.bytes S.maintenance)
        (pieces_of piece offset count) storage.old storage.new result }
{
    let mut done = 0;
    while done < count {
        let next = piece.min(count - done);
        zero_from(storage, zeroes, block, offset + done, next)?;
        done += next;
    }
    Ok(())
}
