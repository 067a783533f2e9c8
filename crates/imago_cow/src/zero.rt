// SPDX-License-Identifier: MIT
//! Data blocks that are filled with zeroes.
ghost use Rattle.std.specs.Prelude.{◌≡◌, ◌≢◌, ℕ, ◌%◌, ◌<◌, ◌≤◌, ◌⊎◌, max, length, IsTrue, IfErr};
ghost use Rattle.std.specs.Prelude.{OnOk, OnErr, IsErrOf, true, false};
ghost use Rattle.imago_cow.specs.CopyCalls.{IsZeroed};
ghost use Rattle.imago_storage.specs.Error.{IsExtRefusal};
ghost use Rattle.imago_storage.specs.Faults.{CountsFaults};
ghost use Rattle.imago_storage.specs.Padding.{Wraps};
ghost use Rattle.imago_drivers.specs.LayerBelow.{lent};
ghost use Rattle.imago_drivers.specs.Lengths.{padded_to};
ghost use Rattle.imago_drivers.specs.Place.{Byte};
ghost use Rattle.imago_drivers.specs.Ranges.{HasBytes};
ghost use Rattle.imago_cow.specs.Copies.{old_value};
ghost use Rattle.imago_cow.specs.Table.{is_absent};

use crate::table::{WithoutData, leads_below};
use imago_drivers::layer::LowerLayer;
use imago_storage::align::zero_align;
use imago_storage::error::Error;
use imago_storage::ext::StorageExt;
use imago_storage::storage::Storage;
use std::alloc::Global;

/// Whether places without data show zeroes from the offset on for certain: explicit zeroes, or what
/// stands past the end of the layer below.
pub(crate) fn shows_zeroes<B: LowerLayer>(below: Option<&B>, kind: WithoutData, offset: u64) -> bool
    ensures zeroes { result ≡ true
        → (p : ℕ)
        → offset ≤ p
        → old_value (lent B.as_layer_below below.entry).at (is_absent kind) p ≡ Byte 0 }
    ensures certain { result ≡ true
        → (is_absent kind ≡ false) ⊎ ((lent B.as_layer_below below.entry).size ≤ offset) }
    ensures other { result ≡ false
        → (is_absent kind ≡ true) × (offset < (lent B.as_layer_below below.entry).size) }
{
    if !leads_below(kind) {
        return true;
    }
    match below {
        Some(layer) => layer.size() <= offset,
        None => true,
    }
}

/// Whether the storage's zero write takes a range as it is.
pub(crate) fn takes_zeroes<S: Storage>(storage: &S, offset: u64, count: u64) -> bool
    ensures start { result ≡ true → offset % (S.features storage.now).zero_align ≡ 0 }
    ensures whole { result ≡ true → count % (S.features storage.now).zero_align ≡ 0 }
    ensures other { result ≡ false
        → (offset % (S.features storage.now).zero_align ≢ 0)
        ⊎ (count % (S.features storage.now).zero_align ≢ 0) }
{
    let align = zero_align(storage);
    if offset % align != 0 {
        return false;
    }
    count % align == 0
}

/// Zeroes a range that the storage's zero write takes as it is. Where the storage keeps data:
/// refused, each byte of the range is old or zero, and no other one changes.
#[tactic(auto, unfolding(crate::specs::CopyCalls::IsZeroed))]
pub(crate) fn zero_bytes<S: Storage>(
    storage: &mut S,
    alloc: Global,
    offset: u64,
    count: u64,
) -> Result<(), Error>
    requires some { 0 < count }
    requires start { offset % (S.features storage.old).zero_align ≡ 0 }
    requires whole { count % (S.features storage.old).zero_align ≡ 0 }
    ensures call { IsZeroed S.features S.bytes S.fault_count S.work S.maintenance offset count
        storage.old storage.new result }
    ensures written { IsTrue (S.features storage.old).keeps_data
        → OnOk result
        (HasBytes false offset count (λ k. 0) (S.bytes storage.old) (S.bytes storage.new)) }
    ensures torn { IsTrue (S.features storage.old).keeps_data
        → OnErr result
        (HasBytes true offset count (λ k. 0) (S.bytes storage.old) (S.bytes storage.new)) }
    ensures no_shorter { length (S.bytes storage.old) ≤ length (S.bytes storage.new) }
    ensures near { length (S.bytes storage.new)
        ≤ max (length (S.bytes storage.old)) (padded_to (S.features storage.old) offset count) }
    ensures features { S.features storage.new ≡ S.features storage.old }
    ensures only { IfErr result IsExtRefusal }
    ensures wraps { IsErrOf result Error.WrapAround → Wraps (S.features storage.old) offset count }
    ensures cause { CountsFaults (S.features storage.old).is_reliable (S.fault_count storage.old)
        (S.fault_count storage.new) result }
{
    storage.write_zeroes(alloc, offset, count)
}
