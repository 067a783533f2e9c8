// SPDX-License-Identifier: MIT
//! Which calls of raw images succeed over storages whose devices never fail. Each function makes
//! the call of [`FormatAccess`] that it is named for; what lies below the image doesn't matter. The
//! modules beside this one say it of their own storages.
ghost use Rattle.std.specs.Prelude.{◌≡◌, ◌+◌, ◌≤◌, ◌<◌, ◌^◌, true, length, IsOk};
ghost use Rattle.imago_storage.specs.Features.{InPlace, MayRunOut};
ghost use Rattle.imago_storage.specs.Features.{IsAlignedRequest, IsAlignedTo, OthersMayRunOut};
ghost use Rattle.imago_drivers.specs.Room.{HasRoom};
ghost use Rattle.imago_drivers.specs.RawImage.{storage_in, size_of, writability_of};
ghost use Rattle.imago_access.specs.Chain.{driver};
ghost use Rattle.imago_access.specs.Success.{Succeeds};
ghost use Rattle.imago.specs.Faultless.{IsFaultless};

use super::drivers::{raw_image_stands_in_its_storage, raw_images_refuse_nothing};
use super::images::{
    discards_succeed, flushes_succeed, mappings_succeed, reads_succeed, writes_succeed,
    zero_writes_succeed,
};
use crate::error::Error;
use crate::raw::Raw;
use crate::{FormatAccess, Mapping, Storage};
use std::alloc::Global;

/// A read inside the disk, with room for its padding.
pub(super) fn read<S: Storage>(
    alloc: Global,
    image: &FormatAccess<Raw<S>>,
    buf: &mut [u8],
    offset: u64,
) -> Result<(), Error>
    requires faultless { IsFaultless S.features S.fault_count }
    requires inside { offset + length buf.old ≤ size_of (driver image.now) }
    requires room { size_of (driver image.now) < 2 ^ 64
        → HasRoom (S.features (storage_in (driver image.now))) offset (length buf.old) }
    ensures succeeds { Succeeds
        (IsAlignedRequest (S.features (storage_in (driver image.now))) offset (length buf.old)
        × (MayRunOut (S.features (storage_in (driver image.now))).read_memory
        (length (S.bytes (storage_in (driver image.now)))) (offset + length buf.old) → ⊥)) result }
    ensures fits { size_of (driver image.now) < 2 ^ 64 }
{
    reads_succeed::<Raw<S>>();
    let raw = image.inner();
    raw_images_refuse_nothing(raw);
    raw_image_stands_in_its_storage(raw);
    image.read(alloc, buf, offset)
}

/// A mapping of any range.
pub(super) fn get_mapping<S: Storage>(
    image: &FormatAccess<Raw<S>>,
    offset: u64,
    max_length: u64,
) -> Result<(Mapping, u64), Error>
    requires faultless { IsFaultless S.features S.fault_count }
    ensures { IsOk result }
{
    mappings_succeed::<Raw<S>>();
    raw_images_refuse_nothing(image.inner());
    image.get_mapping(offset, max_length)
}

/// A write inside the disk of a writable image, with room for its padding.
pub(super) fn write<S: Storage>(
    alloc: Global,
    image: &mut FormatAccess<Raw<S>>,
    source: &[u8],
    offset: u64,
) -> Result<(), Error>
    requires faultless { IsFaultless S.features S.fault_count }
    requires writable { writability_of (driver image.old) ≡ true }
    requires inside { offset + length source.now ≤ size_of (driver image.old) }
    requires room { size_of (driver image.old) < 2 ^ 64
        → HasRoom (S.features (storage_in (driver image.old))) offset (length source.now) }
    ensures succeeds { Succeeds
        (IsAlignedRequest (S.features (storage_in (driver image.old))) offset (length source.now)
        × (MayRunOut (S.features (storage_in (driver image.old))).write_memory
        (length (S.bytes (storage_in (driver image.old)))) (offset + length source.now) → ⊥))
        result }
    ensures stored { size_of (driver image.old)
        ≤ length (S.bytes (storage_in (driver image.old))) }
    ensures fits { size_of (driver image.old) < 2 ^ 64 }
{
    writes_succeed::<Raw<S>>();
    let raw = image.inner();
    raw_images_refuse_nothing(raw);
    raw_image_stands_in_its_storage(raw);
    image.write(alloc, source, offset)
}

/// A zero write inside the disk of a writable image, with room for its padding, over a storage that
/// zeroes in place.
pub(super) fn write_zeroes<S: Storage>(
    alloc: Global,
    image: &mut FormatAccess<Raw<S>>,
    offset: u64,
    count: u64,
) -> Result<(), Error>
    requires faultless { IsFaultless S.features S.fault_count }
    requires in_place { (S.features (storage_in (driver image.old))).zeroes ≡ InPlace }
    requires writable { writability_of (driver image.old) ≡ true }
    requires inside { offset + count ≤ size_of (driver image.old) }
    requires room { size_of (driver image.old) < 2 ^ 64
        → HasRoom (S.features (storage_in (driver image.old))) offset count }
    ensures succeeds { Succeeds
        (IsAlignedTo (S.features (storage_in (driver image.old))).zero_align offset count
        × (MayRunOut (S.features (storage_in (driver image.old))).zero_memory
        (length (S.bytes (storage_in (driver image.old)))) (offset + count) → ⊥)) result }
    ensures stored { size_of (driver image.old)
        ≤ length (S.bytes (storage_in (driver image.old))) }
    ensures fits { size_of (driver image.old) < 2 ^ 64 }
{
    zero_writes_succeed::<Raw<S>>();
    let raw = image.inner();
    raw_images_refuse_nothing(raw);
    raw_image_stands_in_its_storage(raw);
    image.write_zeroes(alloc, offset, count)
}

/// A discard inside the disk of a writable image.
pub(super) fn discard_to_any<S: Storage>(
    alloc: Global,
    image: &mut FormatAccess<Raw<S>>,
    offset: u64,
    count: u64,
) -> Result<(), Error>
    requires faultless { IsFaultless S.features S.fault_count }
    requires writable { writability_of (driver image.old) ≡ true }
    requires inside { offset + count ≤ size_of (driver image.old) }
    ensures succeeds { Succeeds
        (IsAlignedTo (S.features (storage_in (driver image.old))).discard_align offset count
        × (OthersMayRunOut (S.features (storage_in (driver image.old))) → ⊥)) result }
    ensures fits { size_of (driver image.old) < 2 ^ 64 }
{
    discards_succeed::<Raw<S>>();
    let raw = image.inner();
    raw_images_refuse_nothing(raw);
    raw_image_stands_in_its_storage(raw);
    image.discard_to_any(alloc, offset, count)
}

/// A flush.
pub(super) fn flush<S: Storage>(image: &mut FormatAccess<Raw<S>>) -> Result<(), Error>
    requires faultless { IsFaultless S.features S.fault_count }
    ensures { Succeeds
        (OthersMayRunOut (S.features (storage_in (driver image.old))) → ⊥) result }
{
    flushes_succeed::<Raw<S>>();
    raw_images_refuse_nothing(image.inner());
    image.flush()
}
