// SPDX-License-Identifier: MIT
//! Whether two images show the same.
ghost use Rattle.std.specs.Prelude.{◌≡◌, true, false, IsTrue, IfOk, IfSome};
ghost use Rattle.imago_copy.specs.Differences.{IsFirstDifferentValue};
ghost use Rattle.imago_disk.specs.Disk.{values, is_told};
ghost use Rattle.imago_images.specs.Gate.{folder_path};
ghost use Rattle.imago_img_disks.specs.Disks.{AreCompared, ArePathsOfOne, NamesStandAlike};
ghost use Rattle.imago_img_disks.specs.Disks.{AreSaidAlike, is_left_out, opened_as};

use crate::image::{CHUNK, FileDisk, not_read, opened, readable_size};
use imago_any_driver::any::AnyDriver;
use imago_disk::disk::{Disk, Unread};
use imago_drivers::drivers::FormatDriverInstance;
use imago_images::files::Files;
use imago_images::format::ImageFormat;
use imago_images::gate::folder_of;
use imago_images::opening::Opening;
use imago_img_files::failure::Failure;
use imago_img_files::host::Host;
use imago_storage::error::Error;
use imago_storage::storage::Storage;
use std::alloc::Global;

/// What is found of two images.
#[derive(Clone, Copy)]
pub struct Comparison {
    /// The sizes of their disks, in bytes.
    pub sizes: (u64, u64),
    /// The first offset at which the disks differ, if they do. Behind the end of the shorter one
    /// all is 0. It isn't looked for where the sizes have to be the same, and aren't.
    pub difference: Option<u64>,
}

/// Where the disks of two images differ first, if they do. What the images' files have says what
/// the disks are. The second image is opened as the first one, but for its format, which may be
/// said too. Two paths of one image are the same, and no data is read then; nor is it where the
/// disks have to have the same size, and haven't.
pub fn compare_images<H: Host>(
    host: &H,
    first: &str,
    second: &str,
    how: Opening,
    other: Option<ImageFormat>,
    same_size: bool,
) -> Result<Comparison, Failure>
    ensures { IfOk result (λ found. IfSome (H.contents host.now)
        (λ files. AreCompared how other same_size files first.now second.now found.sizes.0
        found.sizes.1 found.difference)) }
{
    let alloc = host.alloc();
    let left = opened(host, first, how)?;
    let (size, _) = readable_size(alloc, first, &left)?;
    if are_said_alike(how.format, other, first, second)
        && are_paths_of_one(host, first, second, left.format())
    {
        return Ok(Comparison {
            sizes: (size, size),
            difference: None,
        });
    }
    let right = opened(host, second, said_of_second(how, other))?;
    let (other_size, _) = readable_size(alloc, second, &right)?;
    match compared(
        alloc,
        &left,
        &right,
        leaves_out(same_size, size, other_size),
    ) {
        Ok(difference) => Ok(Comparison {
            sizes: (size, other_size),
            difference,
        }),
        Err(cause) => Err(not_compared(alloc, first, &left, &right, cause)),
    }
}

/// Why the disks of two images weren't compared, of which the first one has that path: where it is
/// known of a file of either, that is named.
fn not_compared<H: Host>(
    alloc: Global,
    first: &str,
    left: &FileDisk<'_, H>,
    right: &FileDisk<'_, H>,
    cause: Error,
) -> Failure {
    match left.why(cause) {
        Unread::File(file) => Failure::of_faulty(alloc, file),
        Unread::Other(cause) => not_read(alloc, first, right, cause),
    }
}

/// How the second image is opened, by how the first one is, and its own format.
fn said_of_second(how: Opening, other: Option<ImageFormat>) -> Opening
    ensures { result ≡ opened_as how other }
{
    Opening {
        format: other,
        ..how
    }
}

/// Whether the same is said of the formats of the files of two paths. Where nothing is said, their
/// names have to say the same, since a name may refuse what the file begins as.
fn are_said_alike(
    one: Option<ImageFormat>,
    other: Option<ImageFormat>,
    first: &str,
    second: &str,
) -> bool
    ensures { result ≡ true → AreSaidAlike one other first.now second.now }
{
    match (one, other) {
        (None, None) => ImageFormat::by_name(first) == ImageFormat::by_name(second),
        (Some(ImageFormat::Raw), Some(ImageFormat::Raw))
        | (Some(ImageFormat::Vmdk), Some(ImageFormat::Vmdk))
        | (Some(ImageFormat::Qcow2), Some(ImageFormat::Qcow2)) => true,
        _ => false,
    }
}

/// Whether two disks have to have the same size, and haven't. Where they differ isn't looked for
/// then.
pub fn leaves_out(same_size: bool, size: u64, other_size: u64) -> bool
    ensures { result ≡ is_left_out same_size size other_size }
{
    same_size && size != other_size
}

/// Whether two paths are those of one image, which has that format.
fn are_paths_of_one<H: Files>(host: &H, first: &str, second: &str, format: ImageFormat) -> bool
    ensures { result ≡ true → IfSome (H.contents host.now)
        (λ files. ArePathsOfOne files first.now second.now format) }
{
    if first == second {
        return true;
    }
    stand_alike(first, second, format) && host.is_same_file(first, second).unwrap_or(false)
}

/// Whether the names of other files that an image of that format has stand for the same files under
/// both of its paths.
fn stand_alike(first: &str, second: &str, format: ImageFormat) -> bool
    ensures { result ≡ true → NamesStandAlike first.now second.now format }
{
    match format {
        ImageFormat::Raw => true,
        _ => folder_of(first) == folder_of(second),
    }
}

/// The first offset at which two disks differ, if they do and it isn't left out.
fn compared<S: Storage>(
    alloc: Global,
    left: &Disk<S>,
    right: &Disk<S>,
    skips: bool,
) -> Result<Option<u64>, Error>
    ensures { skips ≡ false → IsTrue
        (is_told ⟦<AnyDriver<S> as FormatDriverInstance>⟧.view left.now) → IsTrue
        (is_told ⟦<AnyDriver<S> as FormatDriverInstance>⟧.view right.now)
        → IfOk result (λ found. IsFirstDifferentValue
        (values ⟦<AnyDriver<S> as FormatDriverInstance>⟧.view left.now)
        (values ⟦<AnyDriver<S> as FormatDriverInstance>⟧.view right.now) found) }
{
    if skips {
        return Ok(None);
    }
    let mut left_buf = vec![in alloc; 0u8; CHUNK]?;
    let mut right_buf = vec![in alloc; 0u8; CHUNK]?;
    left.first_difference(right, &mut left_buf, &mut right_buf)
}
