// SPDX-License-Identifier: MIT
//! Laws of raw images over files: functions whose contracts follow from those of the calls that
//! they make.
ghost use Rattle.std.specs.Prelude.{◌≡◌, ◌+◌, ◌<◌, None, length, true, IsTrue, IsErrOf, OnOk};
ghost use Rattle.imago_access.specs.Chain.{driver, backing};
ghost use Rattle.imago_drivers.specs.RawImage.{storage_in};

use crate::file::FileStorage;
use crate::host::{HostFile, MemoryFile};
use imago_access::access::FormatAccess;
use imago_drivers::drivers::FormatDriverInstance;
use imago_drivers::raw::Raw;
use imago_storage::error::Error;
use imago_storage::storage::Storage;
use std::alloc::Global;

/// What is written to a raw image over a file that tells what it holds is read back, whatever file
/// it is. The refusals are those of [`write`](FormatAccess::write) and
/// [`read`](FormatAccess::read).
pub fn write_then_read<F: HostFile>(
    alloc: Global,
    image: &mut FormatAccess<Raw<FileStorage<F>>>,
    source: &[u8],
    buf: &mut [u8],
    offset: u64,
) -> Result<(), Error>
    requires alone { backing image.old ≡ None }
    requires told { IsTrue (⟦<FileStorage<F> as Storage>⟧.features
        (storage_in (driver image.old))).tells_bytes }
    requires same_length { length buf.old ≡ length source.now }
    ensures { OnOk result (buf.new ≡ source.now) }
{
    image.write(alloc, source, offset)?;
    image.read(alloc, buf, offset)
}

/// The same over a file in memory, of which nothing else is required.
pub fn write_then_read_memory(
    alloc: Global,
    image: &mut FormatAccess<Raw<FileStorage<MemoryFile>>>,
    source: &[u8],
    buf: &mut [u8],
    offset: u64,
) -> Result<(), Error>
    requires alone { backing image.old ≡ None }
    requires same_length { length buf.old ≡ length source.now }
    ensures { OnOk result (buf.new ≡ source.now) }
{
    write_then_read(alloc, image, source, buf, offset)
}

/// A write that passes the end of a raw image over any file, also one that tells nothing, is
/// refused as [`Error::BeyondDisk`], and changes nothing.
pub fn write_past_end<F: HostFile>(
    alloc: Global,
    image: &mut FormatAccess<Raw<FileStorage<F>>>,
    source: &[u8],
    offset: u64,
) -> Result<(), Error>
    requires writable { (⟦<Raw<FileStorage<F>> as FormatDriverInstance>⟧.view
        (driver image.old)).abilities.is_writable ≡ true }
    requires past { (⟦<Raw<FileStorage<F>> as FormatDriverInstance>⟧.view (driver image.old)).size
        < offset + length source.now }
    ensures refused { IsErrOf result Error.BeyondDisk }
    ensures same { image.new ≡ image.old }
{
    image.write(alloc, source, offset)
}
