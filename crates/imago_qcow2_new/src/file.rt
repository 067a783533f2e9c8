// SPDX-License-Identifier: MIT
//! A new file of an image's disk, in one call.
ghost use Rattle.std.specs.Prelude.{◌≡◌, [], OnOk, IfSome, IsTrue};
ghost use Rattle.imago_access.specs.Chain.{tells_bytes};
ghost use Rattle.imago_access.specs.Disk.{disk};
ghost use Rattle.imago_qcow2_new.specs.Image.{IsQcow2In};

use crate::format::Format;
use crate::scan::layout_of;
use crate::write::{NewFileError, write_image};
use imago_access::access::FormatAccess;
use imago_copy::target::Target;
use imago_drivers::drivers::FormatDriverInstance;
use std::alloc::Global;

/// Puts a new qcow2 file of an image's disk into a target that is empty. The image is one over any
/// chain of layers; the file has no layer below. Clusters that are zero aren't stored. The disk is
/// read by way of the buffer: first to find these, as [`layout_of`] says, and then to write the
/// others.
///
/// What the target has then is a file of that format for the disk (`IsSparseQcow2Of`), which is said
/// where the target tells what it has, and the image tells its bytes: its header has no fault, its
/// disk is the image's, byte for byte, with zeroes up to the next multiple of 512 bytes, and each
/// of its clusters is used once and has the reference count 1. It is as short as it can be: each
/// cluster of the disk that is stored has a byte that isn't 0, and each table is one that is needed.
///
/// Where the length of the file has to be known before, [`layout_of`] and [`write_image`] do the
/// same in two steps.
///
/// # Errors
///
/// Those of [`layout_of`] and of [`write_image`]. What was put in until then stays in the target:
/// it is no file to keep.
pub fn write_file<D: FormatDriverInstance, T: Target>(
    alloc: Global,
    image: &FormatAccess<D>,
    format: Format,
    target: &mut T,
    buf: &mut [u8],
) -> Result<(), NewFileError>
    ensures same { T.made_for target.new ≡ T.made_for target.old }
    ensures written { IfSome (T.contents target.old) (λ there. there ≡ [])
        → IsTrue (tells_bytes D.view image.now) → OnOk result (IsQcow2In format
        (disk D.view image.now) (T.contents target.old) (T.contents target.new)) }
{
    let layout = layout_of(alloc, image, format, None, buf)?;
    write_image(alloc, image, &layout, target, buf)?;
    Ok(())
}
