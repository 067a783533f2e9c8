// SPDX-License-Identifier: MIT
//! New images in which nothing was written.
ghost use Rattle.std.specs.Prelude.{◌≡◌, [], OnOk, OnErr, IfOk, IfSome, true, false, replicate, ◌⊎◌};
ghost use Rattle.std.specs.Int.{next_multiple_of};
ghost use Rattle.imago_drivers.specs.Place.{Byte};
ghost use Rattle.imago_qcow2_new.specs.Image.{IsNewFile};
ghost use Rattle.imago_qcow2_new.specs.Layout.{IsLayoutOf, StoresNothing, StoresAll, file_length};
ghost use Rattle.imago_words.specs.declared.settings.NewFormat.TheVariants as New;
ghost use Rattle.imago_access.specs.Chain.{driver};
ghost use Rattle.imago_disk.specs.Disk.{image_of};
ghost use Rattle.imago_disk.specs.Shows.{HasSize};
ghost use Rattle.imago_img_files.specs.Files.{IfHeld, IsSoOnceCleared, IsUnheld};
ghost use Rattle.imago_img_disks.specs.LeftOvers.{IsApartBelow, IsElsewhereAt, IsNoSource};
ghost use Rattle.imago_img_disks.specs.LeftOvers.{IsNoSourceAt, IsNoSourceAtBelow};
ghost use Rattle.imago_img_disks.specs.LeftOvers.{IsNoSourceBelow, IsUntouched};
ghost use Rattle.imago_images.specs.Way.{identity};
ghost use Rattle.imago_img_disks.specs.NewFiles.{HasNamesBelow, IsEmptyFile, IsFilledWith};
ghost use Rattle.imago_img_disks.specs.NewFiles.{IsNewImage, IsNewlyMade, IsPlanned, IsSizeBelow};
ghost use Rattle.imago_img_disks.specs.NewFiles.{format_by, format_text};

use crate::convert::{end, target_fault, test_place, test_target};
use crate::held::test_unheld;
use crate::image::{CHUNK, FileDisk, opened};
use crate::new_qcow2::{new_format, of_format};
use crate::unfinished::{left_by, remove_left_over, test_apart};
use imago_any_driver::any::AnyDriver;
use imago_copy::target::Target;
use imago_drivers::drivers::FormatDriverInstance;
use imago_file::name::path_beside;
use imago_images::file::PathStorage;
use imago_images::opening::Opening;
use imago_img_files::failure::{Failure, Reason, Refusal};
use imago_img_files::host::{Host, LeftOver, Making};
use imago_img_files::opening::how_to_open;
use imago_qcow2_new::format::{Backing, FormatError};
use imago_qcow2_new::layout::{Layout, rounded_size};
use imago_qcow2_new::scan::layout_of_size;
use imago_qcow2_new::write::{NewFileError, write_zeroes};
use imago_words::command::{Backing as Below, Create};
use imago_words::format::Format;
use imago_words::settings::{NewFormat, Settings};
use std::alloc::Global;

/// Makes a new image, in which nothing was written: a raw file of zeroes, or a qcow2 file that
/// shows zeroes or its layer below. Its size is the one that was said, or that of the layer below,
/// rounded up to a multiple of 512 bytes.
///
/// The layer below is opened. The path may be taken only where what it leads to is to be replaced,
/// and never by a file of the layer below, nor of one that QEMU holds. An unfinished file that an
/// earlier command to that path left is refused, or removed where the path's file may be replaced.
/// Refused, no other file was made or changed.
pub fn create_image<H: Host>(host: &mut H, asked: Create<'_>) -> Result<(), Failure>
    ensures created { OnOk result (IsSoOnceCleared asked.entry.force (H.contents host.old)
        (H.around host.old) asked.entry.target.now (IsApartBelow asked.entry asked.entry.backing
        (H.contents host.old) (H.statuses host.old) (H.left_overs host.old))
        (λ files around. IsNewlyMade (IsNewImage asked.entry) asked.entry.force files
        (H.contents host.new) around (H.around host.new) asked.entry.target.now)) }
    ensures refused { OnErr result (IsSoOnceCleared asked.entry.force (H.contents host.old)
        (H.around host.old) asked.entry.target.now (IsApartBelow asked.entry asked.entry.backing
        (H.contents host.old) (H.statuses host.old) (H.left_overs host.old))
        (λ files around. (H.contents host.new ≡ files) × (H.around host.new ≡ around))) }
    ensures unheld { OnOk result (IsUnheld (H.around host.old) asked.entry.target.now) }
    ensures outside { OnOk result (IsNoSourceAtBelow asked.entry asked.entry.backing
        (H.contents host.old) (H.statuses host.old) (H.around host.old)) }
    ensures kept { OnErr result (IfHeld (H.around host.old) asked.entry.target.now
        ((H.contents host.new ≡ H.contents host.old) × (H.around host.new ≡ H.around host.old))) }
{
    clear(host, asked)?;
    create_beside(host, asked)
}

/// Removes the unfinished file that a command to that path left, if the path's file may be
/// replaced, and nothing else speaks against the new one, such as that QEMU holds that file.
fn clear<H: Host>(host: &mut H, asked: Create<'_>) -> Result<(), Failure>
    ensures cleared { IsSoOnceCleared asked.entry.force (H.contents host.old) (H.around host.old)
        asked.entry.target.now (IsApartBelow asked.entry asked.entry.backing
        (H.contents host.old) (H.statuses host.old) (H.left_overs host.old))
        (λ files around. (H.contents host.new ≡ files) × (H.around host.new ≡ around)) }
    ensures kept { IfHeld (H.around host.old) asked.entry.target.now
        ((H.contents host.new ≡ H.contents host.old) × (H.around host.new ≡ H.around host.old)) }
    ensures tested { OnOk result (IsUntouched (H.statuses host.old) (H.statuses host.new)
        (H.contents host.old) (H.contents host.new) (H.around host.old) (H.around host.new)
        ⊎ IsNoSourceAtBelow asked.entry asked.entry.backing (H.contents host.old)
        (H.statuses host.old) (H.around host.old)) }
{
    if !asked.force {
        return Ok(());
    }
    let Some(left) = left_by(&*host, asked.target)? else {
        return Ok(());
    };
    test_removal(&*host, asked, asked.backing, &left)?;
    test_unheld(&*host, asked.target)?;
    remove_left_over(host, asked.target)
}

/// Whether nothing but an unfinished file speaks against a new image above that layer, and that file
/// may be removed.
fn test_removal<H: Host>(
    host: &H,
    asked: Create<'_>,
    below: Option<Below<'_>>,
    left: &LeftOver,
) -> Result<(), Failure>
    ensures apart { OnOk result (IsNoSourceBelow asked.entry below.entry (H.contents host.now)
        (H.statuses host.now) (identity left.now.status)) }
    ensures outside { OnOk result (IsNoSourceAtBelow asked.entry below.entry (H.contents host.now)
        (H.statuses host.now) (H.around host.now)) }
{
    let Some(below) = below else {
        return test_free(host, asked.target, asked.force);
    };
    let path = path_beside(host.alloc(), asked.target, below.file)?;
    let how = how_to_open(Some(below.format), asked.opening);
    test_removal_above(host, &path, how, asked.target, left)
}

/// The same above the image of that path.
fn test_removal_above<H: Host>(
    host: &H,
    path: &str,
    how: Opening,
    to: &str,
    left: &LeftOver,
) -> Result<(), Failure>
    ensures apart { OnOk result (IsNoSource how (H.contents host.now) (H.statuses host.now) path.now
        (identity left.now.status)) }
    ensures outside { OnOk result (IsNoSourceAt how (H.contents host.now) (H.statuses host.now)
        (H.around host.now) path.now to.now) }
{
    let disk = opened(host, path, how)?;
    test_target(host, &disk, to, true)?;
    test_apart(host, &disk, left)
}

/// Does the same where no unfinished file is left beside the path. Refused, it leaves all files as
/// they were.
fn create_beside<H: Host>(host: &mut H, asked: Create<'_>) -> Result<(), Failure>
    ensures created { OnOk result (IsNewlyMade (IsNewImage asked.entry) asked.entry.force
        (H.contents host.old) (H.contents host.new) (H.around host.old) (H.around host.new)
        asked.entry.target.now) }
    ensures same { OnErr result (H.contents host.new ≡ H.contents host.old) }
    ensures refused { OnErr result (H.around host.new ≡ H.around host.old) }
    ensures unheld { OnOk result (IsUnheld (H.around host.old) asked.entry.target.now) }
    ensures outside { OnOk result (IsNoSourceAtBelow asked.entry asked.entry.backing
        (H.contents host.old) (H.statuses host.old) (H.around host.old)) }
{
    let size = tested_size(&*host, asked)?;
    test_unheld(&*host, asked.target)?;
    let making = Making {
        replace: asked.force,
        sparse: true,
    };
    match asked.format {
        NewFormat::Raw => create_raw(host, asked.target, size, making),
        NewFormat::Qcow2(settings) => {
            create_qcow2(host, asked.target, size, settings, asked.backing, making)
        }
    }
}

/// Makes a raw file of that many zeroes, up to the next multiple of 512.
fn create_raw<H: Host>(host: &mut H, to: &str, size: u64, making: Making) -> Result<(), Failure>
    ensures created { OnOk result (IsNewlyMade
        (λ files file. file ≡ replicate (next_multiple_of size 512) 0) making.replace
        (H.contents host.old) (H.contents host.new) (H.around host.old) (H.around host.new)
        to.now) }
    ensures same { OnErr result (H.contents host.new ≡ H.contents host.old) }
    ensures refused { OnErr result (H.around host.new ≡ H.around host.old) }
{
    let length = raw_length(host.alloc(), to, size)?;
    match host.create(to, length, making) {
        Ok(target) => {
            let (target, filled) = put_zeroes(host.alloc(), to, target, length);
            end(host, to, target, filled)
        }
        Err(cause) => Err(Failure::of_file(host.alloc(), to, Reason::System(cause))),
    }
}

/// The length in bytes of a raw file of a disk of that size.
pub(crate) fn raw_length(alloc: Global, to: &str, size: u64) -> Result<u64, Failure>
    ensures { IfOk result (λ n. n ≡ next_multiple_of size 512) }
{
    match rounded_size(size) {
        Ok(length) => Ok(length),
        Err(fault) => Err(of_format(alloc, to, fault)),
    }
}

/// Puts that many zeroes into a target.
fn put_zeroes<T: Target>(alloc: Global, to: &str, target: T, count: u64) -> (T, Result<(), Failure>)
    ensures same { T.made_for result.0 ≡ T.made_for target }
    ensures put { IfSome (T.contents target) (λ there. there ≡ []) → OnOk result.1
        (IsFilledWith (λ file. file ≡ replicate count 0) count (T.contents target)
        (T.contents result.0)) }
{
    let mut target = target;
    match target.append_zeroes(count) {
        Ok(()) => (target, Ok(())),
        Err(cause) => {
            let refused = Failure::of_file(alloc, to, Reason::System(cause));
            (target, Err(refused))
        }
    }
}

/// Makes a qcow2 file of a disk of that size, over a layer below if there is one.
fn create_qcow2<H: Host>(
    host: &mut H,
    to: &str,
    size: u64,
    settings: Settings,
    below: Option<Below<'_>>,
    making: Making,
) -> Result<(), Failure>
    ensures created { OnOk result (IsNewlyMade
        (λ files file. IsEmptyFile (New.Qcow2 settings) below.entry size file) making.replace
        (H.contents host.old) (H.contents host.new) (H.around host.old) (H.around host.new)
        to.now) }
    ensures same { OnErr result (H.contents host.new ≡ H.contents host.old) }
    ensures refused { OnErr result (H.around host.new ≡ H.around host.old) }
{
    let layout = planned(host.alloc(), to, size, settings, below)?;
    match host.create(to, layout.file_length(), making) {
        Ok(target) => {
            let (target, filled) = put_empty(host.alloc(), to, target, &layout);
            end(host, to, target, filled)
        }
        Err(cause) => Err(Failure::of_file(host.alloc(), to, Reason::System(cause))),
    }
}

/// Where everything stands in such a file.
pub(crate) fn planned(
    alloc: Global,
    to: &str,
    size: u64,
    settings: Settings,
    below: Option<Below<'_>>,
) -> Result<Layout, Failure>
    ensures layout { IfOk result (IsLayoutOf (format_by settings) size) }
    ensures names { IfOk result (HasNamesBelow below.entry) }
    ensures none { settings.preallocated ≡ false → IfOk result StoresNothing }
    ensures all { settings.preallocated ≡ true → IfOk result StoresAll }
{
    match layout_over(alloc, size, settings, below) {
        Ok(layout) => Ok(layout),
        Err(fault) => Err(of_format(alloc, to, fault)),
    }
}

/// The same, where only the file's format is told as a refusal.
pub(crate) fn layout_over(
    alloc: Global,
    size: u64,
    settings: Settings,
    below: Option<Below<'_>>,
) -> Result<Layout, FormatError>
    ensures layout { IfOk result (IsLayoutOf (format_by settings) size) }
    ensures names { IfOk result (HasNamesBelow below.entry) }
    ensures none { settings.preallocated ≡ false → IfOk result StoresNothing }
    ensures all { settings.preallocated ≡ true → IfOk result StoresAll }
{
    let format = new_format(settings);
    let Some(below) = below else {
        return layout_of_size(alloc, format, size, settings.preallocated, None);
    };
    let backing = Backing {
        file: below.file,
        format: format_name(below.format),
    };
    layout_of_size(alloc, format, size, settings.preallocated, Some(backing))
}

/// The name of a format.
fn format_name(format: Format) -> &'static str
    ensures { result.now ≡ format_text format }
{
    match format {
        Format::Raw => "raw",
        Format::Vmdk => "vmdk",
        Format::Qcow2 => "qcow2",
    }
}

/// Puts a new file of a disk of zeroes into a target.
fn put_empty<T: Target>(
    alloc: Global,
    to: &str,
    target: T,
    layout: &Layout,
) -> (T, Result<(), Failure>)
    ensures same { T.made_for result.0 ≡ T.made_for target }
    ensures put { IfSome (T.contents target) (λ there. there ≡ []) → OnOk result.1
        (IsFilledWith (IsNewFile layout.now (λ _. Byte 0)) (file_length layout.now)
        (T.contents target) (T.contents result.0)) }
{
    let mut target = target;
    let put = put_new(alloc, to, &mut target, layout);
    (target, put)
}

/// Does the same in place.
fn put_new<T: Target>(
    alloc: Global,
    to: &str,
    target: &mut T,
    layout: &Layout,
) -> Result<(), Failure>
    ensures same { T.made_for target.new ≡ T.made_for target.old }
    ensures put { IfSome (T.contents target.old) (λ there. there ≡ []) → OnOk result
        (IsFilledWith (IsNewFile layout.now (λ _. Byte 0)) (file_length layout.now)
        (T.contents target.old) (T.contents target.new)) }
{
    let mut buf = vec![in alloc; 0u8; CHUNK]?;
    match write_zeroes(layout, target, &mut buf) {
        Ok(()) => Ok(()),
        Err(NewFileError::Target(cause)) => {
            Err(Failure::of_file(alloc, to, Reason::System(cause)))
        }
        Err(_) => Err(Failure::of_target(alloc, to, Refusal::Changed)),
    }
}

/// The size of a new image, in bytes, that may be made for its path.
fn tested_size<H: Host>(host: &H, asked: Create<'_>) -> Result<u64, Failure>
    ensures size { IfOk result (λ size. IfSome (H.contents host.now)
        (λ files. IsPlanned asked.entry files size)) }
    ensures outside { OnOk result (IsNoSourceAtBelow asked.entry asked.entry.backing
        (H.contents host.now) (H.statuses host.now) (H.around host.now)) }
{
    let below = size_below(host, asked, asked.backing)?;
    Ok(asked.size.unwrap_or(below))
}

/// The size of the layer below a new image, in bytes, that may be made for its path; or 0, if it
/// has none.
fn size_below<H: Host>(
    host: &H,
    asked: Create<'_>,
    below: Option<Below<'_>>,
) -> Result<u64, Failure>
    ensures size { IfOk result (λ size. IfSome (H.contents host.now)
        (λ files. IsSizeBelow asked.entry below.entry files size)) }
    ensures outside { OnOk result (IsNoSourceAtBelow asked.entry below.entry
        (H.contents host.now) (H.statuses host.now) (H.around host.now)) }
{
    let Some(below) = below else {
        test_free(host, asked.target, asked.force)?;
        return Ok(0);
    };
    let path = path_beside(host.alloc(), asked.target, below.file)?;
    let how = how_to_open(Some(below.format), asked.opening);
    size_at(host, &path, how, asked)
}

/// The size of the disk of the image of that path, in bytes, above which a new one may be made.
fn size_at<H: Host>(host: &H, path: &str, how: Opening, asked: Create<'_>) -> Result<u64, Failure>
    ensures size { IfOk result (λ size. IfSome (H.contents host.now)
        (λ files. HasSize how files path.now size)) }
    ensures outside { OnOk result (IsNoSourceAt how (H.contents host.now) (H.statuses host.now)
        (H.around host.now) path.now asked.entry.target.now) }
{
    let disk = opened(host, path, how)?;
    let size = size_above(host, &disk, asked)?;
    Ok(size)
}

/// The size of an image's disk, in bytes, above which a new one may be made.
fn size_above<'a, H: Host>(
    host: &H,
    disk: &FileDisk<'a, H>,
    asked: Create<'_>,
) -> Result<u64, Failure>
    ensures size { IfOk result (λ size. size
        ≡ (⟦<AnyDriver<PathStorage<'a, H>> as FormatDriverInstance>⟧.view
        (driver (image_of disk.now))).size) }
    ensures outside { OnOk result (IsElsewhereAt
        ⟦<AnyDriver<PathStorage<'a, H>> as FormatDriverInstance>⟧.view (H.statuses host.now)
        (H.around host.now) asked.entry.target.now (image_of disk.now)) }
{
    test_place(host, disk, asked.target, asked.force)?;
    Ok(disk.size())
}

/// Whether a new file that reads no other may be made for that path.
fn test_free<H: Host>(host: &H, to: &str, replace: bool) -> Result<(), Failure> {
    let alloc = host.alloc();
    if let Some(there) = Failure::or_system(alloc, to, host.found(to))? {
        if let Some(refusal) = target_fault(there, false, replace) {
            return Err(Failure::of_target(alloc, to, refusal));
        }
    }
    match Failure::or_system(alloc, to, host.left_over(to))? {
        Some(left) if !replace => Err(Failure::of_target(alloc, &left.path, Refusal::LeftOver)),
        _ => Ok(()),
    }
}
