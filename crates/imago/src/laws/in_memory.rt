// SPDX-License-Identifier: MIT
//! Which calls of raw images in memory succeed. Each function makes the call of [`FormatAccess`]
//! that it is named for, and its contract says it in words of the call alone. What lies below the
//! image doesn't matter: a raw driver refers to no layer below.
ghost use Rattle.std.specs.Prelude.{◌≡◌, ◌+◌, ◌≤◌, true, length, IsOk, IfErr};
ghost use Rattle.imago_storage.specs.Features.{IsAlignedRequest, IsAlignedTo};
ghost use Rattle.imago_drivers.specs.Room.{HasRoom};
ghost use Rattle.imago_drivers.specs.RawImage.{storage_in, size_of, writability_of};
ghost use Rattle.imago_access.specs.Chain.{driver};

use super::faultless;
use crate::error::Error;
use crate::mem::MemStorage;
use crate::raw::Raw;
use crate::{FormatAccess, Mapping, Storage};
use std::alloc::Global;

/// A read inside the disk, with room for its padding, is refused for want of memory alone. An
/// aligned one takes none, and succeeds.
pub fn read(
    alloc: Global,
    image: &FormatAccess<Raw<MemStorage>>,
    buf: &mut [u8],
    offset: u64,
) -> Result<(), Error>
    requires inside { offset + length buf.old ≤ size_of (driver image.now) }
    requires room { HasRoom (⟦<MemStorage as Storage>⟧.features (storage_in (driver image.now)))
        offset (length buf.old) }
    ensures only { IfErr result (λ e. e ≡ Error.Memory) }
    ensures aligned { IsAlignedRequest
        (⟦<MemStorage as Storage>⟧.features (storage_in (driver image.now))) offset
        (length buf.old) → IsOk result }
{
    faultless::read(alloc, image, buf, offset)
}

/// A mapping of any range succeeds.
pub fn get_mapping(
    image: &FormatAccess<Raw<MemStorage>>,
    offset: u64,
    max_length: u64,
) -> Result<(Mapping, u64), Error>
    ensures { IsOk result }
{
    faultless::get_mapping(image, offset, max_length)
}

/// A write inside the disk of a writable image, with room for its padding, is refused for want of
/// memory alone. An aligned one takes none, and succeeds.
pub fn write(
    alloc: Global,
    image: &mut FormatAccess<Raw<MemStorage>>,
    source: &[u8],
    offset: u64,
) -> Result<(), Error>
    requires writable { writability_of (driver image.old) ≡ true }
    requires inside { offset + length source.now ≤ size_of (driver image.old) }
    requires room { HasRoom (⟦<MemStorage as Storage>⟧.features (storage_in (driver image.old)))
        offset (length source.now) }
    ensures only { IfErr result (λ e. e ≡ Error.Memory) }
    ensures aligned { IsAlignedRequest
        (⟦<MemStorage as Storage>⟧.features (storage_in (driver image.old))) offset
        (length source.now) → IsOk result }
{
    faultless::write(alloc, image, source, offset)
}

/// A zero write inside the disk of a writable image, with room for its padding, is refused for want
/// of memory alone. One that is aligned to the storage's zero writes takes none, and succeeds.
pub fn write_zeroes(
    alloc: Global,
    image: &mut FormatAccess<Raw<MemStorage>>,
    offset: u64,
    count: u64,
) -> Result<(), Error>
    requires writable { writability_of (driver image.old) ≡ true }
    requires inside { offset + count ≤ size_of (driver image.old) }
    requires room { HasRoom (⟦<MemStorage as Storage>⟧.features (storage_in (driver image.old)))
        offset count }
    ensures only { IfErr result (λ e. e ≡ Error.Memory) }
    ensures aligned { IsAlignedTo
        (⟦<MemStorage as Storage>⟧.features (storage_in (driver image.old))).zero_align offset count
        → IsOk result }
{
    faultless::write_zeroes(alloc, image, offset, count)
}

/// A discard inside the disk of a writable image is refused for want of memory alone. One that is
/// aligned to the storage's discards takes none, and succeeds.
pub fn discard_to_any(
    alloc: Global,
    image: &mut FormatAccess<Raw<MemStorage>>,
    offset: u64,
    count: u64,
) -> Result<(), Error>
    requires writable { writability_of (driver image.old) ≡ true }
    requires inside { offset + count ≤ size_of (driver image.old) }
    ensures only { IfErr result (λ e. e ≡ Error.Memory) }
    ensures aligned { IsAlignedTo
        (⟦<MemStorage as Storage>⟧.features (storage_in (driver image.old))).discard_align offset
        count
        → IsOk result }
{
    faultless::discard_to_any(alloc, image, offset, count)
}

/// A flush succeeds.
pub fn flush(image: &mut FormatAccess<Raw<MemStorage>>) -> Result<(), Error>
    ensures { IsOk result }
{
    faultless::flush(image)
}
