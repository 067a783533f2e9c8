// SPDX-License-Identifier: MIT
//! The unfinished file that a killed copy left, and whether it may be removed.
ghost use Rattle.std.specs.Prelude.{◌≡◌, ◌<◌, ℕ, List, Some, OnOk, OnErr, IfOk, IfSome, false};
ghost use Rattle.imago_images.specs.declared.files.FileStatus.{FileStatus};
ghost use Rattle.imago_images.specs.Way.{identity};
ghost use Rattle.imago_img_files.specs.Files.{IsWithoutLeftOver};
ghost use Rattle.imago_disk.specs.Disk.{image_of};
ghost use Rattle.imago_disk.specs.Files.{is_one_file};
ghost use Rattle.imago_img_disks.specs.LeftOvers.{AreElsewhere, IsElsewhere};

use crate::image::{FileDisk, has_file};
use imago_access::access::FormatAccess;
use imago_any_driver::any::AnyDriver;
use imago_disk::disk::Disk;
use imago_disk::named::is_same_file;
use imago_drivers::drivers::FormatDriverInstance;
use imago_images::file::PathStorage;
use imago_img_files::failure::{Failure, Refusal};
use imago_img_files::host::{FileStatus, Host, LeftOver};
use imago_storage::storage::Storage;

/// The unfinished file that a copy to that path left when it was killed, if there is one.
pub(crate) fn left_by<H: Host>(host: &H, to: &str) -> Result<Option<LeftOver>, Failure>
    ensures { IfOk result (λ found. IfSome found (λ left. IfSome (H.left_overs host.now)
        (λ left_of. left.status ≡ left_of to.now))) }
{
    Failure::or_system(host.alloc(), to, host.left_over(to))
}

/// Removes the unfinished file that a copy to that path left.
pub(crate) fn remove_left_over<H: Host>(host: &mut H, to: &str) -> Result<(), Failure>
    ensures gone { OnOk result (IsWithoutLeftOver (H.contents host.old) (H.contents host.new)
        (H.around host.old) (H.around host.new) to.now) }
    ensures same { OnErr result (H.contents host.new ≡ H.contents host.old) }
    ensures refused { OnErr result (H.around host.new ≡ H.around host.old) }
{
    let removed = host.remove_left_over(to);
    Failure::or_system(host.alloc(), to, removed)
}

/// Whether an unfinished file may be removed: it isn't a file of the image, nor a link to one, nor
/// the file that one of their paths leads to by now.
pub(crate) fn test_apart<'a, H: Host>(
    host: &H,
    disk: &FileDisk<'a, H>,
    left: &LeftOver,
) -> Result<(), Failure>
    ensures { OnOk result (IfSome (H.statuses host.now) (λ status_of.
        IsElsewhere ⟦<AnyDriver<PathStorage<'a, H>> as FormatDriverInstance>⟧.view status_of
        (identity left.now.status) (image_of disk.now))) }
{
    if has_file(disk, left.status) || leads_to_file(host, disk, &left.path)? {
        return Err(Failure::of_target(host.alloc(), &left.path, Refusal::IsSource));
    }
    test_elsewhere(host, disk, &left.path, left.status, Refusal::IsSource)
}

/// Whether a path leads to a file of an image, as a link may by which the command line names it.
fn leads_to_file<H: Host>(host: &H, disk: &FileDisk<'_, H>, path: &str) -> Result<bool, Failure> {
    match Failure::or_system(host.alloc(), path, host.found(path))? {
        Some(there) => Ok(has_file(disk, there)),
        None => Ok(false),
    }
}

/// Whether no path of a file of an image leads by now to a file that has another path; else that one
/// is refused so. What they led to when the image was opened is known to the image; the host is asked
/// once more.
pub(crate) fn test_elsewhere<H: Host, S: Storage>(
    host: &H,
    disk: &Disk<S>,
    path: &str,
    file: FileStatus,
    refusal: Refusal,
) -> Result<(), Failure>
    ensures { OnOk result (IfSome (H.statuses host.now) (λ status_of.
        IsElsewhere ⟦<AnyDriver<S> as FormatDriverInstance>⟧.view status_of
        (identity file) (image_of disk.now))) }
{
    if chain_leads_to(host, disk.image(), file)? {
        return Err(Failure::of_target(host.alloc(), path, refusal));
    }
    Ok(())
}

/// Whether the path of a file of an image leads to that file.
fn chain_leads_to<H: Host, D: FormatDriverInstance>(
    host: &H,
    image: &FormatAccess<D>,
    file: FileStatus,
) -> Result<bool, Failure>
    ensures { IfOk result (λ yes. yes ≡ false → IfSome (H.statuses host.now) (λ status_of.
        IsElsewhere D.view status_of (identity file) image.now)) }
{
    let mut layer = Some(image);
    while let Some(here) = layer {
        if layer_leads_to(host, here.inner(), file)? {
            return Ok(true);
        }
        layer = here.backing();
    }
    Ok(false)
}

/// The same of the files of one layer.
fn layer_leads_to<H: Host, D: FormatDriverInstance>(
    host: &H,
    driver: &D,
    file: FileStatus,
) -> Result<bool, Failure>
    ensures { IfOk result (λ yes. yes ≡ false → IfSome (H.statuses host.now) (λ status_of.
        AreElsewhere (D.view driver.now).stores status_of (identity file))) }
{
    for index in 0..driver.storage_count() {
        if storage_leads_to(host, driver, index, file)? {
            return Ok(true);
        }
    }
    Ok(false)
}

/// The same of one storage of a layer.
fn storage_leads_to<H: Host, D: FormatDriverInstance>(
    host: &H,
    driver: &D,
    index: usize,
    file: FileStatus,
) -> Result<bool, Failure>
    requires { index < (D.view driver.now).stores.count }
    ensures { IfOk result (λ yes. yes ≡ false → IfSome (H.statuses host.now) (λ status_of.
        IfSome ((D.view driver.now).stores.features index).filename
        (λ path. is_one_file (identity (status_of path)) (identity file) ≡ false))) }
{
    let Some(storage) = driver.storage(index) else {
        return Ok(true);
    };
    let Some(path) = storage.get_filename() else {
        return Ok(false);
    };
    leads_to(host, path, file)
}

/// Whether a path leads to that file.
fn leads_to<H: Host>(host: &H, path: &str, file: FileStatus) -> Result<bool, Failure>
    ensures { IfOk result (λ yes. yes ≡ false → IfSome (H.statuses host.now) (λ status_of.
        is_one_file (identity (status_of path.now)) (identity file) ≡ false)) }
{
    let there = Failure::or_system(host.alloc(), path, host.status(path))?;
    Ok(is_same_file(there, file))
}
