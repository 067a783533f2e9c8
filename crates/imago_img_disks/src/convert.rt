// SPDX-License-Identifier: MIT
//! An image's disk, written to a raw file.
ghost use Rattle.std.specs.Prelude.{◌≡◌, ◌⊎◌, OnOk, OnErr, IfOk, IfSome, IsOk, option_map};
ghost use Rattle.imago_disk.specs.Shows.{HasSize};
ghost use Rattle.imago_img_disks.specs.Disks.{IsDiskAppended, IsDiskPartlyAppended};
ghost use Rattle.imago_img_disks.specs.Disks.{IsConverted};
ghost use Rattle.imago_img_files.specs.Files.{ended, with_file, IsMade, IsSoOnceCleared};
ghost use Rattle.imago_img_files.specs.Files.{IfHeld, IsUnheld, IsWhole};
ghost use Rattle.imago_disk.specs.Disk.{image_of};
ghost use Rattle.imago_img_disks.specs.LeftOvers.{IsApart, IsElsewhereAt, IsNoSource};
ghost use Rattle.imago_img_disks.specs.LeftOvers.{IsNoSourceAt, IsUntouched};
ghost use Rattle.imago_images.specs.Way.{identity};

use crate::held::test_unheld;
use crate::image::{CHUNK, FileDisk, has_file, not_read, opened, readable_size};
use crate::progress::Progress;
use crate::short::{refuse_cut, warn};
use crate::unfinished::{left_by, remove_left_over, test_apart, test_elsewhere};
use imago_any_driver::any::AnyDriver;
use imago_copy::copy::CopyError;
use imago_copy::target::Target;
use imago_drivers::drivers::FormatDriverInstance;
use imago_images::file::PathStorage;
use imago_images::opening::Opening;
use imago_img_files::failure::{Failure, Reason, Refusal};
use imago_img_files::host::{FileKind, FileStatus, Host, LeftOver, Making};
use std::io::Write;

/// Writes the disk of an image to a raw file of that path. What the image's files have says what
/// the new file then has: the image's disk, byte for byte. What is known to be zero there stays a
/// hole, unless each byte is to be written.
///
/// The path may be taken only where what it leads to is to be replaced, and never by a file of the
/// image, nor of one that QEMU holds. The files of the image are looked at before the new one is
/// made. An unfinished file that an earlier copy to that path left is refused, or removed where the
/// path's file may be replaced. Refused, no other file was made or changed. It warns of files of the
/// image that end before bytes of the disk do.
pub fn convert_image<H: Host, E: Write>(
    host: &mut H,
    from: &str,
    to: &str,
    how: Opening,
    making: Making,
    show: bool,
    warnings: &mut E,
) -> Result<(), Failure>
    ensures converted { OnOk result (IsSoOnceCleared making.replace (H.contents host.old)
        (H.around host.old) to.now (IsApart how (H.contents host.old) (H.statuses host.old)
        (H.left_overs host.old) from.now to.now) (λ files around. IsConverted how making.replace
        files (H.contents host.new) around (H.around host.new) from.now to.now)) }
    ensures refused { OnErr result (IsSoOnceCleared making.replace (H.contents host.old)
        (H.around host.old) to.now (IsApart how (H.contents host.old) (H.statuses host.old)
        (H.left_overs host.old) from.now to.now)
        (λ files around. (H.contents host.new ≡ files) × (H.around host.new ≡ around))) }
    ensures unheld { OnOk result (IsUnheld (H.around host.old) to.now) }
    ensures outside { OnOk result (IsNoSourceAt how (H.contents host.old) (H.statuses host.old)
        (H.around host.old) from.now to.now) }
    ensures kept { OnErr result (IfHeld (H.around host.old) to.now
        ((H.contents host.new ≡ H.contents host.old) × (H.around host.new ≡ H.around host.old))) }
{
    clear(host, from, to, how, making.replace)?;
    convert_beside(host, from, to, how, making, show, warnings)
}

/// Removes the unfinished file that a copy to that path left, if the path's file may be replaced,
/// and nothing else speaks against the copy, such as that QEMU holds that file.
pub(crate) fn clear<H: Host>(
    host: &mut H,
    from: &str,
    to: &str,
    how: Opening,
    replace: bool,
) -> Result<(), Failure>
    ensures cleared { IsSoOnceCleared replace (H.contents host.old) (H.around host.old) to.now
        (IsApart how (H.contents host.old) (H.statuses host.old) (H.left_overs host.old) from.now
        to.now)
        (λ files around. (H.contents host.new ≡ files) × (H.around host.new ≡ around)) }
    ensures kept { IfHeld (H.around host.old) to.now
        ((H.contents host.new ≡ H.contents host.old) × (H.around host.new ≡ H.around host.old)) }
    ensures tested { OnOk result (IsUntouched (H.statuses host.old) (H.statuses host.new)
        (H.contents host.old) (H.contents host.new) (H.around host.old) (H.around host.new)
        ⊎ IsNoSourceAt how (H.contents host.old) (H.statuses host.old) (H.around host.old) from.now
        to.now) }
{
    if !replace {
        return Ok(());
    }
    let Some(left) = left_by(&*host, to)? else {
        return Ok(());
    };
    test_removal(&*host, from, to, how, &left)?;
    test_unheld(&*host, to)?;
    remove_left_over(host, to)
}

/// Whether nothing but an unfinished file speaks against the copy, and that file may be removed.
fn test_removal<H: Host>(
    host: &H,
    from: &str,
    to: &str,
    how: Opening,
    left: &LeftOver,
) -> Result<(), Failure>
    ensures apart { OnOk result (IsNoSource how (H.contents host.now) (H.statuses host.now) from.now
        (identity left.now.status)) }
    ensures outside { OnOk result (IsNoSourceAt how (H.contents host.now) (H.statuses host.now)
        (H.around host.now) from.now to.now) }
{
    let disk = opened(host, from, how)?;
    readable_size(host.alloc(), from, &disk)?;
    refuse_cut(host.alloc(), from, how, &disk)?;
    test_target(host, &disk, to, true)?;
    test_apart(host, &disk, left)
}

/// Does the same where no unfinished file is left beside the path. Refused, it leaves all files as
/// they were.
fn convert_beside<H: Host, E: Write>(
    host: &mut H,
    from: &str,
    to: &str,
    how: Opening,
    making: Making,
    show: bool,
    warnings: &mut E,
) -> Result<(), Failure>
    ensures converted { OnOk result (IsConverted how making.replace (H.contents host.old)
        (H.contents host.new) (H.around host.old) (H.around host.new) from.now to.now) }
    ensures same { OnErr result (H.contents host.new ≡ H.contents host.old) }
    ensures refused { OnErr result (H.around host.new ≡ H.around host.old) }
    ensures unheld { OnOk result (IsUnheld (H.around host.old) to.now) }
    ensures outside { OnOk result (IsNoSourceAt how (H.contents host.old) (H.statuses host.old)
        (H.around host.old) from.now to.now) }
{
    let size = tested_size(&*host, from, to, how, making.replace, warnings)?;
    test_unheld(&*host, to)?;
    match host.create(to, size, making) {
        Ok(target) => {
            let (target, filled) = fill_shown(&*host, from, to, how, target, size, show);
            end(host, to, target, filled)
        }
        Err(cause) => Err(Failure::of_file(host.alloc(), to, Reason::System(cause))),
    }
}

/// The size in bytes of an image's disk, which can be read and may be written to a file of that
/// path. It warns of files of the image that end too early. That it can't warn is no failure.
fn tested_size<H: Host, E: Write>(
    host: &H,
    from: &str,
    to: &str,
    how: Opening,
    replace: bool,
    warnings: &mut E,
) -> Result<u64, Failure>
    ensures size { IfOk result (λ size. IfSome (H.contents host.now)
        (λ files. HasSize how files from.now size)) }
    ensures outside { OnOk result (IsNoSourceAt how (H.contents host.now) (H.statuses host.now)
        (H.around host.now) from.now to.now) }
{
    let disk = opened(host, from, how)?;
    let (size, short) = readable_size(host.alloc(), from, &disk)?;
    test_copy(host, &disk, from, to, how, replace)?;
    let _ = warn(&short, warnings);
    Ok(size)
}

/// Whether the disk of an image, which was opened so, may be written to a new file of that path.
pub(crate) fn test_copy<'a, H: Host>(
    host: &H,
    disk: &FileDisk<'a, H>,
    from: &str,
    to: &str,
    how: Opening,
    replace: bool,
) -> Result<(), Failure>
    ensures { OnOk result (IsElsewhereAt
        ⟦<AnyDriver<PathStorage<'a, H>> as FormatDriverInstance>⟧.view (H.statuses host.now)
        (H.around host.now) to.now (image_of disk.now)) }
{
    refuse_cut(host.alloc(), from, how, disk)?;
    test_place(host, disk, to, replace)
}

/// Whether a new file of an image may be made for that path.
pub(crate) fn test_place<'a, H: Host>(
    host: &H,
    disk: &FileDisk<'a, H>,
    to: &str,
    replace: bool,
) -> Result<(), Failure>
    ensures { OnOk result (IsElsewhereAt
        ⟦<AnyDriver<PathStorage<'a, H>> as FormatDriverInstance>⟧.view (H.statuses host.now)
        (H.around host.now) to.now (image_of disk.now)) }
{
    test_target(host, disk, to, replace)?;
    test_left_over(host, disk, to, replace)
}

/// Puts the bytes of the disk into a file, and shows how far it is. Refused, the first ones of them
/// may have been put in.
pub(crate) fn fill_shown<H: Host, T: Target>(
    host: &H,
    from: &str,
    to: &str,
    how: Opening,
    target: T,
    size: u64,
    show: bool,
) -> (T, Result<(), Failure>)
    ensures same { T.made_for result.0 ≡ T.made_for target }
    ensures filled { OnOk result.1 (IsDiskAppended how (H.contents host.now) from.now
        (T.contents target) (T.contents result.0)) }
    ensures refused { OnErr result.1 (IsDiskPartlyAppended how (H.contents host.now) from.now
        (T.contents target) (T.contents result.0)) }
{
    let mut target = Progress::new(target, host, show, size);
    let filled = fill(host, from, to, how, &mut target);
    (target.into_target(), filled)
}

/// Puts the bytes of the disk into a target, one after the other.
fn fill<H: Host, T: Target>(
    host: &H,
    from: &str,
    to: &str,
    how: Opening,
    target: &mut T,
) -> Result<(), Failure>
    ensures same { T.made_for target.new ≡ T.made_for target.old }
    ensures filled { OnOk result (IsDiskAppended how (H.contents host.now) from.now
        (T.contents target.old) (T.contents target.new)) }
    ensures refused { OnErr result (IsDiskPartlyAppended how (H.contents host.now) from.now
        (T.contents target.old) (T.contents target.new)) }
{
    let alloc = host.alloc();
    let disk = opened(host, from, how)?;
    let mut buf = vec![in alloc; 0u8; CHUNK]?;
    match disk.copy_to(target, &mut buf) {
        Ok(()) => Ok(()),
        Err(CopyError::Image(cause)) => Err(not_read(alloc, from, &disk, cause)),
        Err(CopyError::Target(cause)) => Err(Failure::of_file(alloc, to, Reason::System(cause))),
    }
}

/// Gives a file its path, or lets it go where not all of it was written.
pub(crate) fn end<H: Host>(
    host: &mut H,
    to: &str,
    target: H::Target,
    filled: Result<(), Failure>,
) -> Result<(), Failure>
    requires whole { OnOk filled (IfSome (H.contents host.old)
        (λ _. IsWhole (H.Target.made_for target) (H.Target.contents target))) }
    ensures made { OnOk result (IfSome (H.Target.made_for target)
        (λ m. IsMade (H.contents host.old) (H.contents host.new) m.0 (H.Target.contents target))) }
    ensures there { OnOk result (IfSome (H.Target.made_for target) (λ m. H.around host.new
        ≡ option_map (with_file m.0) (option_map ended (H.around host.old)))) }
    ensures done { OnOk result (IsOk filled) }
    ensures refused { OnErr result (H.contents host.new ≡ H.contents host.old) }
    ensures gone { OnErr result (H.around host.new ≡ option_map ended (H.around host.old)) }
{
    if filled.is_err() {
        host.abandon(target);
        return filled;
    }
    let alloc = host.alloc();
    Failure::or_system(alloc, to, host.finish(target))
}

/// Whether the disk of an image may be written to a file of that path.
pub(crate) fn test_target<'a, H: Host>(
    host: &H,
    disk: &FileDisk<'a, H>,
    to: &str,
    replace: bool,
) -> Result<(), Failure>
    ensures { OnOk result (IsElsewhereAt
        ⟦<AnyDriver<PathStorage<'a, H>> as FormatDriverInstance>⟧.view (H.statuses host.now)
        (H.around host.now) to.now (image_of disk.now)) }
{
    let Some(there) = Failure::or_system(host.alloc(), to, host.found(to))? else {
        return Ok(());
    };
    if let Some(refusal) = target_fault(there, has_file(disk, there), replace) {
        return Err(Failure::of_target(host.alloc(), to, refusal));
    }
    test_elsewhere(host, disk, to, there, Refusal::IsSource)
}

/// Whether no unfinished file stands beside a path, or one that may be removed.
fn test_left_over<H: Host>(
    host: &H,
    disk: &FileDisk<'_, H>,
    to: &str,
    replace: bool,
) -> Result<(), Failure> {
    let Some(left) = left_by(host, to)? else {
        return Ok(());
    };
    if !replace {
        return Err(Failure::of_target(host.alloc(), &left.path, Refusal::LeftOver));
    }
    test_apart(host, disk, &left)
}

/// Why a file isn't replaced, which may be one of the image that is read.
pub(crate) fn target_fault(there: FileStatus, is_source: bool, replace: bool) -> Option<Refusal> {
    if is_source {
        return Some(Refusal::IsSource);
    }
    if !replace {
        return Some(Refusal::Exists);
    }
    if there.kind != FileKind::Regular {
        return Some(Refusal::NotReplaced);
    }
    None
}
