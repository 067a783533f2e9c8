// SPDX-License-Identifier: MIT
//! An image's disk, written over a file that is there.
ghost use Rattle.std.specs.Prelude.{◌≡◌, ◌≤◌, OnOk, OnErr, IfOk, IfSome, length};
ghost use Rattle.imago_disk.specs.Disk.{image_of};
ghost use Rattle.imago_disk.specs.Shows.{HasSize};
ghost use Rattle.imago_images.specs.Way.{identity};
ghost use Rattle.imago_img_disks.specs.LeftOvers.{IsElsewhere, IsNoSourceAt};
ghost use Rattle.imago_img_files.specs.Files.{IfHeld, IsUnheld};
ghost use Rattle.imago_img_disks.specs.Disks.{IsConvertedOver, IsPartlyConvertedOver};

use crate::convert::fill_shown;
use crate::held::test_unheld;
use crate::image::{FileDisk, has_file, opened, readable_size};
use crate::short::{refuse_cut, warn};
use crate::unfinished::test_elsewhere;
use imago_any_driver::any::AnyDriver;
use imago_drivers::drivers::FormatDriverInstance;
use imago_images::file::PathStorage;
use imago_images::opening::Opening;
use imago_img_files::failure::{Failure, Reason, Refusal};
use imago_img_files::host::{FileKind, FileStatus, Host};
use std::io::{ErrorKind, Write};

/// Writes the disk of an image over the first bytes of the file of that path, which has at least as
/// many. It is a regular file or a block device, and no file of the image. What it has behind the
/// disk stays, and so does its length. Zeroes are written like all other bytes.
///
/// It warns of files of the image that end before bytes of the disk do.
///
/// The files of the image, and the one that is written over, are looked at before it is changed;
/// one that QEMU holds is refused then. Refused later, it has the first bytes of the disk, as far as
/// these were written, and behind them what it had. No other file is made or changed.
pub fn overwrite<H: Host, E: Write>(
    host: &mut H,
    from: &str,
    to: &str,
    how: Opening,
    show: bool,
    warnings: &mut E,
) -> Result<(), Failure>
    ensures written { OnOk result (IsConvertedOver how (H.contents host.old)
        (H.contents host.new) from.now to.now) }
    ensures refused { OnErr result (IsPartlyConvertedOver how (H.contents host.old)
        (H.contents host.new) from.now to.now) }
    ensures around { H.around host.new ≡ H.around host.old }
    ensures unheld { OnOk result (IsUnheld (H.around host.old) to.now) }
    ensures outside { OnOk result (IsNoSourceAt how (H.contents host.old) (H.statuses host.old)
        (H.around host.old) from.now to.now) }
    ensures kept { OnErr result (IfHeld (H.around host.old) to.now
        (H.contents host.new ≡ H.contents host.old)) }
{
    let size = fitting_size(&*host, from, to, how, warnings)?;
    test_unheld(&*host, to)?;
    match host.open_existing(to) {
        Ok(target) => {
            let (target, filled) = fill_shown(&*host, from, to, how, target, size, show);
            host.close_existing(target);
            filled
        }
        Err(cause) => Err(Failure::of_file(host.alloc(), to, Reason::System(cause))),
    }
}

/// The size in bytes of an image's disk, which can be read and fits into the file of that path. It
/// warns of files of the image that end too early. That it can't warn is no failure.
fn fitting_size<H: Host, E: Write>(
    host: &H,
    from: &str,
    to: &str,
    how: Opening,
    warnings: &mut E,
) -> Result<u64, Failure>
    ensures size { IfOk result (λ size. IfSome (H.contents host.now)
        (λ files. HasSize how files from.now size)) }
    ensures fits { IfOk result (λ size. IfSome (H.contents host.now)
        (λ files. size ≤ length (files to.now))) }
    ensures outside { OnOk result (IsNoSourceAt how (H.contents host.now) (H.statuses host.now)
        (H.around host.now) from.now to.now) }
{
    let disk = opened(host, from, how)?;
    let (size, short) = readable_size(host.alloc(), from, &disk)?;
    refuse_cut(host.alloc(), from, how, &disk)?;
    let there = existing(host, to)?;
    test_read(host, &disk, to, there)?;
    if size > there.length {
        let length = there.length;
        return Err(Failure::of_target(host.alloc(), to, Refusal::TooSmall { length, size }));
    }
    let _ = warn(&short, warnings);
    Ok(size)
}

/// Refuses a file that is to be written over if it is one of the image that is read.
fn test_read<'a, H: Host>(
    host: &H,
    disk: &FileDisk<'a, H>,
    to: &str,
    there: FileStatus,
) -> Result<(), Failure>
    ensures { OnOk result (IfSome (H.statuses host.now) (λ status_of.
        IsElsewhere ⟦<AnyDriver<PathStorage<'a, H>> as FormatDriverInstance>⟧.view status_of
        (identity there) (image_of disk.now))) }
{
    if has_file(disk, there) {
        return Err(Failure::of_target(host.alloc(), to, Refusal::IsRead));
    }
    test_elsewhere(host, disk, to, there, Refusal::IsRead)
}

/// What the file of a path is that is to be written over.
fn existing<H: Host>(host: &H, to: &str) -> Result<FileStatus, Failure>
    ensures length { IfOk result (λ there. IfSome (H.contents host.now)
        (λ files. there.length ≡ length (files to.now))) }
    ensures told { IfOk result (λ there. IfSome (H.statuses host.now)
        (λ status_of. there ≡ status_of to.now)) }
{
    match host.status(to) {
        Ok(there) if there.kind == FileKind::Other => {
            Err(Failure::of_target(host.alloc(), to, Refusal::NotWritten))
        }
        Ok(there) => Ok(there),
        Err(cause) if cause.kind() == ErrorKind::NotFound => {
            Err(Failure::of_target(host.alloc(), to, Refusal::Missing))
        }
        Err(cause) => Err(Failure::of_file(host.alloc(), to, Reason::System(cause))),
    }
}
