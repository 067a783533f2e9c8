// SPDX-License-Identifier: MIT
//! Which calls of raw images over a [`Null`] storage succeed: those inside the disk, and a mapping
//! and a flush always. Each function makes the call of [`FormatAccess`] that it is named for.
ghost use Rattle.std.specs.Prelude.{◌≡◌, ◌+◌, ◌≤◌, true, length, IsOk};
ghost use Rattle.imago_drivers.specs.RawImage.{size_of, writability_of};
ghost use Rattle.imago_access.specs.Chain.{driver};

use super::faultless;
use crate::error::Error;
use crate::null::Null;
use crate::raw::Raw;
use crate::{FormatAccess, Mapping};
use std::alloc::Global;

/// A read inside the disk succeeds.
pub fn read(
    alloc: Global,
    image: &FormatAccess<Raw<Null>>,
    buf: &mut [u8],
    offset: u64,
) -> Result<(), Error>
    requires inside { offset + length buf.old ≤ size_of (driver image.now) }
    ensures { IsOk result }
{
    faultless::read(alloc, image, buf, offset)
}

/// A mapping of any range succeeds.
pub fn get_mapping(
    image: &FormatAccess<Raw<Null>>,
    offset: u64,
    max_length: u64,
) -> Result<(Mapping, u64), Error>
    ensures { IsOk result }
{
    faultless::get_mapping(image, offset, max_length)
}

/// A write inside the disk of a writable image succeeds.
pub fn write(
    alloc: Global,
    image: &mut FormatAccess<Raw<Null>>,
    source: &[u8],
    offset: u64,
) -> Result<(), Error>
    requires writable { writability_of (driver image.old) ≡ true }
    requires inside { offset + length source.now ≤ size_of (driver image.old) }
    ensures { IsOk result }
{
    faultless::write(alloc, image, source, offset)
}

/// A zero write inside the disk of a writable image succeeds.
pub fn write_zeroes(
    alloc: Global,
    image: &mut FormatAccess<Raw<Null>>,
    offset: u64,
    count: u64,
) -> Result<(), Error>
    requires writable { writability_of (driver image.old) ≡ true }
    requires inside { offset + count ≤ size_of (driver image.old) }
    ensures { IsOk result }
{
    faultless::write_zeroes(alloc, image, offset, count)
}

/// A discard inside the disk of a writable image succeeds.
pub fn discard_to_any(
    alloc: Global,
    image: &mut FormatAccess<Raw<Null>>,
    offset: u64,
    count: u64,
) -> Result<(), Error>
    requires writable { writability_of (driver image.old) ≡ true }
    requires inside { offset + count ≤ size_of (driver image.old) }
    ensures { IsOk result }
{
    faultless::discard_to_any(alloc, image, offset, count)
}

/// A flush succeeds.
pub fn flush(image: &mut FormatAccess<Raw<Null>>) -> Result<(), Error>
    ensures { IsOk result }
{
    faultless::flush(image)
}
