// SPDX-License-Identifier: MIT
//! What is written is what is read.
ghost use Rattle.std.specs.Prelude.{◌≡◌, length, IsTrue, OnOk, None};
ghost use Rattle.imago_access.specs.Chain.{driver, keeps_data};

use crate::error::Error;
use crate::{FormatAccess, FormatDriverInstance};
use std::alloc::Global;

/// Writes bytes to an image, and reads them back into a buffer of the same length. Where both calls
/// succeed, the buffer has these bytes, whatever driver the image has, and whatever layers lie
/// below it: the driver's storages keep what is written, and the layers below tell their bytes.
///
/// The refusals are those of [`write`](FormatAccess::write) and [`read`](FormatAccess::read).
pub fn write_then_read<D: FormatDriverInstance>(
    alloc: Global,
    image: &mut FormatAccess<D>,
    source: &[u8],
    buf: &mut [u8],
    offset: u64,
) -> Result<(), Error>
    requires none_waits { (D.view (driver image.old)).pending ≡ None }
    requires keeps_data { IsTrue (keeps_data D.view image.old) }
    requires same_length { length buf.old ≡ length source.now }
    ensures { OnOk result (buf.new ≡ source.now) }
{
    image.write(alloc, source, offset)?;
    image.read(alloc, buf, offset)
}
