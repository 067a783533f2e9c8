// SPDX-License-Identifier: MIT
//! Reads and writes of the storage bytes that places of the disk stand in.
ghost use Rattle.std.specs.Prelude.{◌≡◌, ℕ, ◌+◌, ◌<◌, length, Some, slice_get, IfErr, OnOk, OnErr};
ghost use Rattle.std.specs.Prelude.{IsOk, IsTrue, IsErrOf, slice_index, true, false};
ghost use Rattle.imago_storage.specs.Bytes.{IsReadAt};
ghost use Rattle.imago_storage.specs.Calls.{IsRangeRead, IsRangeWrite};
ghost use Rattle.imago_storage.specs.Faults.{CountsFaults};
ghost use Rattle.imago_storage.specs.Error.{IsExtRefusal};
ghost use Rattle.imago_storage.specs.Features.{IsAlignedRequest, MayRunOut};
ghost use Rattle.imago_storage.specs.Padding.{Wraps};
ghost use Rattle.imago_drivers.specs.Ranges.{HasBytes};
ghost use Rattle.imago_drivers.specs.Reasons.{allowed};
ghost use Rattle.imago_drivers.specs.Done.{stored_read_reasons, stored_write_reasons};
ghost use Rattle.imago_drivers.specs.Prepared.{IsPut};
ghost use Rattle.imago_drivers.specs.Lengths.{GrowAt};
ghost use Rattle.imago_cow.specs.declared.table.GuestBlock.{GuestBlock};
ghost use Rattle.imago_cow.specs.Guest.{cow_place};
ghost use Rattle.imago_cow.specs.Cow.{cow_view};

use imago_drivers::stored::write_bytes;
use imago_storage::error::Error;
use imago_storage::ext::StorageExt;
use imago_storage::storage::Storage;
use std::alloc::Global;

/// Fills the buffer with bytes of the storage, as a mapping names them.
pub(crate) fn read_stored<S: Storage>(
    storage: &S,
    alloc: Global,
    buf: &mut [u8],
    offset: u64,
) -> Result<(), Error>
    ensures read { IsRangeRead (S.features storage.now) (S.bytes storage.now) offset
        (length buf.old) buf.new result }
    ensures bytes { IsTrue (S.features storage.now).tells_bytes
        → OnOk result (IsReadAt (S.bytes storage.now) offset buf.new) }
    ensures refusals { (faults size block : ℕ) (entries : _) (blocks : ℕ) (waiting : _)
        → 0 < block
        → ((i j : ℕ) → slice_get entries i ≡ Some (GuestBlock.Data j) → j < blocks)
        → IfErr result
        (allowed
        (stored_read_reasons
        (cow_view (S.features storage.now) faults (S.bytes storage.now) size block entries blocks
        waiting) 0 offset
        (length buf.old))) }
{
    storage.read(alloc, buf, offset)
}

/// Writes bytes of the storage that places of the disk stand in.
pub(crate) fn write_stored<S: Storage>(
    storage: &mut S,
    alloc: Global,
    source: &[u8],
    offset: u64,
) -> Result<(), Error>
    ensures call { IsRangeWrite S.features S.bytes S.fault_count S.work S.maintenance offset
        source.now storage.old storage.new result }
    ensures written { (size block : ℕ) (entries : _)
        → OnOk result
        (IsPut 0 offset source.now false (S.features storage.old).keeps_data
        (cow_place (S.bytes storage.old) size block entries)
        (cow_place (S.bytes storage.new) size block entries)) }
    ensures torn { (size block : ℕ) (entries : _)
        → OnErr result
        (IsPut 0 offset source.now true (S.features storage.old).keeps_data
        (cow_place (S.bytes storage.old) size block entries)
        (cow_place (S.bytes storage.new) size block entries)) }
    ensures bytes { IsTrue (S.features storage.old).keeps_data
        → OnOk result
        (HasBytes false offset (length source.now) (λ k. slice_index source.now k)
        (S.bytes storage.old) (S.bytes storage.new)) }
    ensures torn_bytes { IsTrue (S.features storage.old).keeps_data
        → OnErr result
        (HasBytes true offset (length source.now) (λ k. slice_index source.now k)
        (S.bytes storage.old) (S.bytes storage.new)) }
    ensures empty { length source.now ≡ 0 → IsOk result }
    ensures only { IfErr result IsExtRefusal }
    ensures wraps { IsErrOf result Error.WrapAround
        → Wraps (S.features storage.old) offset (length source.now) }
    ensures memory { IsErrOf result Error.Memory
        → IsAlignedRequest (S.features storage.old) offset (length source.now)
        → MayRunOut (S.features storage.old).write_memory (length (S.bytes storage.old))
        (offset + length source.now) }
    ensures lengths { (faults size block : ℕ) (entries : _) (blocks : ℕ) (waiting : _)
        → GrowAt 0 offset (length source.now)
        (cow_view (S.features storage.old) faults (S.bytes storage.old) size block entries blocks
        waiting).stores
        (cow_view (S.features storage.new) faults (S.bytes storage.new) size block entries blocks
        waiting).stores }
    ensures features { S.features storage.new ≡ S.features storage.old }
    ensures cause { CountsFaults (S.features storage.old).is_reliable (S.fault_count storage.old)
        (S.fault_count storage.new) result }
    ensures refusals { (faults size block : ℕ) (entries : _) (blocks : ℕ) (waiting : _)
        → 0 < block
        → ((i j : ℕ) → slice_get entries i ≡ Some (GuestBlock.Data j) → j < blocks)
        → IfErr result
        (allowed
        (stored_write_reasons
        (cow_view (S.features storage.old) faults (S.bytes storage.old) size block entries blocks
        waiting) 0 offset
        (length source.now))) }
{
    write_bytes(storage, alloc, source, offset)
}
