// SPDX-License-Identifier: MIT
//! An image's disk, written to a new qcow2 file.
ghost use Rattle.std.specs.Prelude.{◌≡◌, ℕ, [], true, false, OnOk, OnErr, IfOk, IfSome, IsTrue};
ghost use Rattle.imago_access.specs.Chain.{driver};
ghost use Rattle.imago_access.specs.Disk.{value_at};
ghost use Rattle.imago_disk.specs.Disk.{image_of, is_told, values};
ghost use Rattle.imago_qcow2_new.specs.Layout.{IsLayoutOf, StoresAll, file_length};
ghost use Rattle.imago_qcow2_new.specs.Names.{HasNoNames};
ghost use Rattle.imago_qcow2_new.specs.Space.{StoresData};
ghost use Rattle.imago_img_files.specs.Files.{IfHeld, IsSoOnceCleared, IsUnheld};
ghost use Rattle.imago_img_disks.specs.LeftOvers.{IsApart, IsNoSourceAt};
ghost use Rattle.imago_img_disks.specs.NewFiles.{IsCopyBy, IsFilledWith, IsNewlyMade, IsQcow2Copy};
ghost use Rattle.imago_img_disks.specs.NewFiles.{IsLayoutForImage};
ghost use Rattle.imago_img_disks.specs.NewFiles.{format_by};

use crate::convert::{clear, end, test_copy};
use crate::held::test_unheld;
use crate::image::{CHUNK, FileDisk, not_read, opened, readable_size};
use crate::progress::Progress;
use crate::short::warn;
use imago_any_driver::any::AnyDriver;
use imago_copy::target::Target;
use imago_drivers::drivers::FormatDriverInstance;
use imago_images::file::PathStorage;
use imago_images::opening::Opening;
use imago_img_files::failure::{Failure, Reason, Refusal};
use imago_img_files::host::{Host, Making};
use imago_qcow2_new::format::{Format, FormatError, Gaps, Version};
use imago_qcow2_new::layout::Layout;
use imago_qcow2_new::write::NewFileError;
use imago_words::settings::{self, Settings};
use std::alloc::Global;
use std::io::Write;

/// The format of a new qcow2 file, by what the command line says of it.
pub fn new_format(settings: Settings) -> Format
    ensures { result ≡ format_by settings }
{
    Format {
        version: match settings.version {
            settings::Version::Two => Version::Two,
            settings::Version::Three => Version::Three,
        },
        cluster_bits: settings.cluster_bits,
        gaps: Gaps::Absent,
    }
}

/// How a qcow2 file is made of an image.
#[derive(Clone, Copy)]
pub struct NewQcow2 {
    /// Its format.
    pub format: Format,
    /// Whether clusters that are zero are stored too.
    pub all: bool,
}

/// Writes the disk of an image to a new qcow2 file of that path. What the image's files have says
/// what the new file then has: it shows the image's disk, byte for byte, with zeroes up to the next
/// multiple of 512 bytes. Clusters that are zero aren't stored, unless all are to be.
///
/// The disk is read to find what is zero, and again to write it. The first reading passes over most
/// of each cluster whose first bytes have data, and is left out where all clusters are to be
/// stored. An image that changes between is refused.
///
/// Which paths may be taken, what is looked at before, what is warned of, and what a refusal leaves
/// is as for [`convert_image`](crate::convert::convert_image).
pub fn convert_to_qcow2<H: Host, E: Write>(
    host: &mut H,
    from: &str,
    to: &str,
    how: Opening,
    new: NewQcow2,
    making: Making,
    show: bool,
    warnings: &mut E,
) -> Result<(), Failure>
    ensures converted { OnOk result (IsSoOnceCleared making.replace (H.contents host.old)
        (H.around host.old) to.now (IsApart how (H.contents host.old) (H.statuses host.old)
        (H.left_overs host.old) from.now to.now) (λ files around. IsNewlyMade
        (IsQcow2Copy how from.now new.format new.all) making.replace
        files (H.contents host.new) around (H.around host.new) to.now)) }
    ensures refused { OnErr result (IsSoOnceCleared making.replace (H.contents host.old)
        (H.around host.old) to.now (IsApart how (H.contents host.old) (H.statuses host.old)
        (H.left_overs host.old) from.now to.now)
        (λ files around. (H.contents host.new ≡ files) × (H.around host.new ≡ around))) }
    ensures unheld { OnOk result (IsUnheld (H.around host.old) to.now) }
    ensures outside { OnOk result (IsNoSourceAt how (H.contents host.old) (H.statuses host.old)
        (H.around host.old) from.now to.now) }
    ensures kept { OnErr result (IfHeld (H.around host.old) to.now
        ((H.contents host.new ≡ H.contents host.old) × (H.around host.new ≡ H.around host.old))) }
{
    clear(host, from, to, how, making.replace)?;
    convert_beside(host, from, to, how, new, making, show, warnings)
}

/// Does the same where no unfinished file is left beside the path. Refused, it leaves all files as
/// they were.
fn convert_beside<H: Host, E: Write>(
    host: &mut H,
    from: &str,
    to: &str,
    how: Opening,
    new: NewQcow2,
    making: Making,
    show: bool,
    warnings: &mut E,
) -> Result<(), Failure>
    ensures converted { OnOk result (IsNewlyMade (IsQcow2Copy how from.now new.format new.all)
        making.replace (H.contents host.old) (H.contents host.new) (H.around host.old)
        (H.around host.new) to.now) }
    ensures same { OnErr result (H.contents host.new ≡ H.contents host.old) }
    ensures refused { OnErr result (H.around host.new ≡ H.around host.old) }
    ensures unheld { OnOk result (IsUnheld (H.around host.old) to.now) }
    ensures outside { OnOk result (IsNoSourceAt how (H.contents host.old) (H.statuses host.old)
        (H.around host.old) from.now to.now) }
{
    let layout = planned(&*host, from, to, how, new, making.replace, warnings)?;
    test_unheld(&*host, to)?;
    match host.create(to, layout.file_length(), making) {
        Ok(target) => {
            let (target, filled) = write_shown(&*host, from, to, how, &layout, target, show);
            end(host, to, target, filled)
        }
        Err(cause) => Err(Failure::of_file(host.alloc(), to, Reason::System(cause))),
    }
}

/// Where everything stands in the new file of an image's disk, which can be read and may be written
/// to a file of that path. It warns of files of the image that end too early. That it can't warn is
/// no failure.
fn planned<H: Host, E: Write>(
    host: &H,
    from: &str,
    to: &str,
    how: Opening,
    new: NewQcow2,
    replace: bool,
    warnings: &mut E,
) -> Result<Layout, Failure>
    ensures layout { IfOk result (λ l. IfSome (H.contents host.now)
        (λ files. IsLayoutForImage how from.now new.format new.all files l)) }
    ensures outside { OnOk result (IsNoSourceAt how (H.contents host.now) (H.statuses host.now)
        (H.around host.now) from.now to.now) }
{
    let disk = opened(host, from, how)?;
    let (_, short) = readable_size(host.alloc(), from, &disk)?;
    test_copy(host, &disk, from, to, how, replace)?;
    let layout = layout_for(host.alloc(), &disk, from, to, new)?;
    let _ = warn(&short, warnings);
    Ok(layout)
}

/// Where everything stands in the new file of an image's disk.
pub(crate) fn layout_for<'a, H: Host>(
    alloc: Global,
    disk: &FileDisk<'a, H>,
    from: &str,
    to: &str,
    new: NewQcow2,
) -> Result<Layout, Failure>
    ensures layout { IfOk result (IsLayoutOf new.format
        (⟦<AnyDriver<PathStorage<'a, H>> as FormatDriverInstance>⟧.view
        (driver (image_of disk.now))).size) }
    ensures names { IfOk result HasNoNames }
    ensures all { new.all ≡ true → IfOk result StoresAll }
    ensures sparse { new.all ≡ false → IsTrue
        (is_told ⟦<AnyDriver<PathStorage<'a, H>> as FormatDriverInstance>⟧.view disk.now)
        → IfOk result (λ l. StoresData l.clusters (value_at
        (values ⟦<AnyDriver<PathStorage<'a, H>> as FormatDriverInstance>⟧.view disk.now))) }
{
    let count = if new.all { 0 } else { CHUNK };
    let mut buf = vec![in alloc; 0u8; count]?;
    match disk.qcow2_layout(new.format, new.all, &mut buf) {
        Ok(layout) => Ok(layout),
        Err(cause) => Err(not_written(alloc, from, to, disk, cause)),
    }
}

/// Puts a new file of an image's disk into a target, and shows how far it is.
fn write_shown<H: Host, T: Target>(
    host: &H,
    from: &str,
    to: &str,
    how: Opening,
    layout: &Layout,
    target: T,
    show: bool,
) -> (T, Result<(), Failure>)
    ensures same { T.made_for result.0 ≡ T.made_for target }
    ensures written { IfSome (T.contents target) (λ there. there ≡ []) → OnOk result.1
        (IfSome (H.contents host.now) (λ files. IsFilledWith (IsCopyBy how from.now layout.now files)
        (file_length layout.now) (T.contents target) (T.contents result.0))) }
{
    let mut target = Progress::new(target, host, show, layout.file_length());
    let written = write(host, from, to, how, layout, &mut target);
    (target.into_target(), written)
}

/// Puts a new file of an image's disk into a target.
fn write<H: Host, T: Target>(
    host: &H,
    from: &str,
    to: &str,
    how: Opening,
    layout: &Layout,
    target: &mut T,
) -> Result<(), Failure>
    ensures same { T.made_for target.new ≡ T.made_for target.old }
    ensures written { IfSome (T.contents target.old) (λ there. there ≡ []) → OnOk result
        (IfSome (H.contents host.now) (λ files. IsFilledWith (IsCopyBy how from.now layout.now files)
        (file_length layout.now) (T.contents target.old) (T.contents target.new))) }
{
    let alloc = host.alloc();
    let disk = opened(host, from, how)?;
    let mut buf = vec![in alloc; 0u8; CHUNK]?;
    match disk.write_qcow2(layout, target, &mut buf) {
        Ok(()) => Ok(()),
        Err(cause) => Err(not_written(alloc, from, to, &disk, cause)),
    }
}

/// Why a new file of an image isn't written.
fn not_written<H: Host>(
    alloc: Global,
    from: &str,
    to: &str,
    disk: &FileDisk<'_, H>,
    cause: NewFileError,
) -> Failure {
    match cause {
        NewFileError::Format(fault) => of_format(alloc, to, fault),
        NewFileError::Image(cause) => not_read(alloc, from, disk, cause),
        NewFileError::Target(cause) => Failure::of_file(alloc, to, Reason::System(cause)),
        NewFileError::Changed => Failure::of_target(alloc, from, Refusal::Changed),
    }
}

/// Why there can be no such file of that path.
pub(crate) fn of_format(alloc: Global, path: &str, fault: FormatError) -> Failure {
    match fault {
        FormatError::Memory => Failure::Memory,
        fault => Failure::of_target(alloc, path, Refusal::NoSuchFile(fault)),
    }
}
