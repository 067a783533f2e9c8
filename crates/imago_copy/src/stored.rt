// SPDX-License-Identifier: MIT
//! Bytes of a run, read from where the run says that they stand.
ghost use Rattle.std.specs.Prelude.{◌≡◌, ◌+◌, ◌<◌, ◌≤◌, ◌^◌, length, IsTrue, OnOk};
ghost use Rattle.imago_access.specs.Chain.{disk_value, tells_bytes};
ghost use Rattle.imago_access.specs.ReaderOf.{image_of, IsKeeping};
ghost use Rattle.imago_access.specs.Target.{target};
ghost use Rattle.imago_drivers.specs.Place.{HasValues};
ghost use Rattle.imago_copy.specs.Runs.{IsRunAt};

use crate::ends::layer_at;
use crate::runs::{Kind, Run};
use imago_access::reader::Reader;
use imago_drivers::drivers::FormatDriverInstance;
use imago_storage::error::Error;
use std::alloc::Global;

/// Fills the buffer with bytes of a run of the reader's image, from that many of its bytes on.
///
/// The image told what the run is, and doesn't change: so zeroes are known, and stored bytes are
/// read from their storage by the layer's driver, with no mapping in between. Special bytes are
/// read through the reader.
pub(crate) fn read_run<D: FormatDriverInstance>(
    alloc: Global,
    reader: &mut Reader<'_, D>,
    run: Run,
    skipped: u64,
    buf: &mut [u8],
) -> Result<(), Error>
    requires keeping { IsKeeping D.view reader.old }
    requires run { IsRunAt (target D.view (image_of reader.old)) run.at run }
    requires inside { skipped + length buf.old ≤ run.count }
    requires fits { run.at + skipped < 2 ^ 64 }
    ensures image { image_of reader.new ≡ image_of reader.old }
    ensures keeping { IsKeeping D.view reader.new }
    ensures bytes { IsTrue (tells_bytes D.view (image_of reader.old)) → OnOk result
        (HasValues (disk_value D.view (image_of reader.old)) (run.at + skipped) buf.new) }
{
    match run.kind {
        Kind::Zero => {
            buf.fill(0);
            Ok(())
        }
        Kind::Stored {
            layer,
            storage,
            offset,
        } if layer < usize::MAX => match (
            layer_at(reader.image(), layer),
            offset.checked_add(skipped),
        ) {
            (Some(found), Some(first)) => found.inner().read_mapped(alloc, storage, buf, first),
            _ => reader.read(alloc, buf, run.at + skipped),
        },
        _ => reader.read(alloc, buf, run.at + skipped),
    }
}
