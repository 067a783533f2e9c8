// SPDX-License-Identifier: MIT
//! Bytes of a storage, for drivers whose places stand in one.
ghost use Rattle.std.specs.Prelude.{◌≡◌, ◌+◌, ◌≤◌, max, length, slice_index, IsTrue, IsOk, IfErr};
ghost use Rattle.std.specs.Prelude.{OnOk, OnErr, IsErrOf, true, false};
ghost use Rattle.imago_storage.specs.Error.{IsExtRefusal};
ghost use Rattle.imago_storage.specs.Calls.{IsRangeWrite};
ghost use Rattle.imago_storage.specs.Faults.{CountsFaults};
ghost use Rattle.imago_storage.specs.Features.{MayRunOut, IsAlignedRequest};
ghost use Rattle.imago_storage.specs.Padding.{Wraps, padded_end};
ghost use Rattle.imago_drivers.specs.Lengths.{padded_to};
ghost use Rattle.imago_drivers.specs.Ranges.{HasBytes};

use imago_storage::error::Error;
use imago_storage::ext::StorageExt;
use imago_storage::storage::Storage;
use std::alloc::Global;

/// Writes bytes of a storage, at its `offset`-th byte. Where the storage keeps data: refused, each
/// byte of the range is old or new; no byte outside the range changes, and what is added behind it
/// is zero. The storage becomes no shorter, and, where it grows, no longer than the padded end of
/// the range, less than one alignment past it.
///
/// It is refused as [`StorageExt::write`] is: [`Error::WrapAround`] where a request of the
/// storage's alignment around the range would end past `u64::MAX`, [`Error::Memory`] only where the
/// storage takes memory or the range isn't aligned, and [`Error::Device`] only where a device
/// failed. It is that one write: no other call is made of the storage.
pub fn write_bytes<S: Storage>(
    storage: &mut S,
    alloc: Global,
    source: &[u8],
    offset: u64,
) -> Result<(), Error>
    ensures call { IsRangeWrite S.features S.bytes S.fault_count S.work S.maintenance offset
        source.now storage.old storage.new result }
    ensures empty { length source.now ≡ 0 → IsOk result × (storage.new ≡ storage.old) }
    ensures written { IsTrue (S.features storage.old).keeps_data
        → OnOk result
        (HasBytes false offset (length source.now) (λ k. slice_index source.now k)
        (S.bytes storage.old) (S.bytes storage.new)) }
    ensures torn { IsTrue (S.features storage.old).keeps_data
        → OnErr result
        (HasBytes true offset (length source.now) (λ k. slice_index source.now k)
        (S.bytes storage.old) (S.bytes storage.new)) }
    ensures no_shorter { length (S.bytes storage.old) ≤ length (S.bytes storage.new) }
    ensures no_longer { length (S.bytes storage.new)
        ≤ max (length (S.bytes storage.old))
        (padded_end (S.features storage.old) offset (length source.now)) }
    ensures near { length (S.bytes storage.new)
        ≤ max (length (S.bytes storage.old))
        (padded_to (S.features storage.old) offset (length source.now)) }
    ensures features { S.features storage.new ≡ S.features storage.old }
    ensures only { IfErr result IsExtRefusal }
    ensures wraps { IsErrOf result Error.WrapAround
        → Wraps (S.features storage.old) offset (length source.now) }
    ensures cause { CountsFaults (S.features storage.old).is_reliable (S.fault_count storage.old)
        (S.fault_count storage.new) result }
    ensures memory { IsErrOf result Error.Memory
        → IsAlignedRequest (S.features storage.old) offset (length source.now)
        → MayRunOut (S.features storage.old).write_memory (length (S.bytes storage.old))
        (offset + length source.now) }
{
    storage.write(alloc, source, offset)
}
