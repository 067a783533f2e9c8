// SPDX-License-Identifier: MIT
//! What the commands ask of an opened disk: whether it can be read, and its files.
ghost use Rattle.std.specs.Prelude.{◌≡◌, ◌+◌, ◌<◌, ◌≤◌, length, false, IfOk, IfErr, IfSome};
ghost use Rattle.std.specs.Prelude.{IsErr, OnOk, MatchResult};
ghost use Rattle.imago_access.specs.Chain.{driver};
ghost use Rattle.imago_access.specs.Target.{target};
ghost use Rattle.imago_storage.specs.Error.{IsExtRefusal};
ghost use Rattle.imago_copy.specs.LayerRuns.{image_of as image_in, at_of, AreReady, AreLayerRuns};
ghost use Rattle.imago_disk.specs.Disk.{image_of, format_of};
ghost use Rattle.imago_images.specs.Formats.{IsFormatBy};
ghost use Rattle.imago_images.specs.Images.{IsImageIn};
ghost use Rattle.imago_images.specs.ImageFiles.{HasFiles};
ghost use Rattle.imago_images.specs.declared.opening.OtherFiles.TheVariants as Others;
ghost use Rattle.imago_img_files.specs.Failures.{IsHostRefusal, IsHostFailure};
ghost use Rattle.imago_img_checks.specs.Vetted.{IsVetted};

use imago_any_driver::any::AnyDriver;
use imago_copy::layers::{LayerRun, LayerRuns};
use imago_disk::disk::Disk;
use imago_disk::invalid_entry_at;
use imago_disk::short::ShortFiles;
use imago_drivers::drivers::FormatDriverInstance;
use imago_images::file::PathStorage;
use imago_images::opening::Opening;
use imago_img_files::failure::{Failure, OpenError, Reason};
use imago_img_files::host::{FileStatus, Host};
use imago_img_files::sparse::sparse_type_at;
use imago_storage::error::Error;
use std::alloc::Global;

/// The disk of an image in files of a host.
pub type FileDisk<'a, H> = Disk<PathStorage<'a, H>>;

/// How much of a disk is read at a time, in bytes: so little that it is still in the processor's
/// cache when it is looked at, and large enough that system calls cost next to nothing.
pub const CHUNK: usize = 1 << 18;

/// Opens the disk of the image of a path. A file that the image needs and that can't be used is told
/// with the image. One that `vet` calls safe isn't refused where no other files are opened, but by
/// the host or for memory.
pub fn opened<'a, H: Host>(
    host: &'a H,
    path: &str,
    how: Opening,
) -> Result<FileDisk<'a, H>, Failure>
    ensures format { IfOk result (λ d. IfSome (H.contents host.now)
        (λ files. IsFormatBy how.format path.now (files path.now) (format_of d))) }
    ensures image { IfOk result (λ d. IfSome (H.contents host.now)
        (λ files. IsImageIn ⟦<AnyDriver<PathStorage<'a, H>> as FormatDriverInstance>⟧.view
        how files path.now (format_of d) (image_of d))) }
    ensures files { IfOk result (λ d. IfSome (H.contents host.now)
        (λ files. HasFiles ⟦<AnyDriver<PathStorage<'a, H>> as FormatDriverInstance>⟧.view
        how.accepted files path.now (format_of d) (image_of d))) }
    ensures vetted { how.other_files ≡ Others.None → IfErr result
        (λ failure. IfSome (H.contents host.now) (λ files. IsVetted how path.now (files path.now)
        → IsHostFailure failure)) }
{
    or_not_opened(host, path, Disk::open(host, path, how))
}

/// What the opening of the image of a path answers, or why it isn't opened.
fn or_not_opened<H: Host, T>(
    host: &H,
    path: &str,
    answer: Result<T, OpenError>,
) -> Result<T, Failure>
    ensures given { MatchResult answer (λ x. result ≡ Ok x) (λ _. IsErr result) }
    ensures refused { IfErr answer (λ cause. IfErr result
        (λ failure. IsHostRefusal cause → IsHostFailure failure)) }
{
    match answer {
        Ok(found) => Ok(found),
        Err(cause) => Err(not_opened(host, path, cause)),
    }
}

/// Why the image of a path isn't opened: by the first invalid entry of the file that has one, or by
/// the type of a VMDK image, where it is one of those whose extents are sparse files.
fn not_opened<H: Host>(host: &H, path: &str, cause: OpenError) -> Failure
    ensures { IsHostRefusal cause → IsHostFailure result }
{
    if let OpenError::OfFile {
        path: file,
        reason: Reason::Image(refused),
    } = &cause
    {
        if let Some(known) = known_refusal(host, file, *refused) {
            return known;
        }
    }
    Failure::of_image(host.alloc(), path, cause)
}

/// Why the file of a path isn't opened, by what it has, where the driver of its format refused it.
fn known_refusal<H: Host>(host: &H, file: &str, refused: Error) -> Option<Failure>
    ensures { IfSome result (λ _. IsExtRefusal refused → ⊥) }
{
    match refused {
        Error::InvalidData => {
            let fault = invalid_entry_at(host, file)?;
            Some(Failure::of_entry(host.alloc(), file, fault))
        }
        Error::Unsupported => {
            let kind = sparse_type_at(host, file)?;
            Some(Failure::of_sparse_type(host.alloc(), file, kind))
        }
        _ => None,
    }
}

/// How many runs of a disk are looked for at a time.
const MOST_RUNS: usize = 1024;

/// Puts the next runs of a disk, each of one layer, into a list, in place of those that it had: as
/// many as are left, but at most 1024. There are none at the disk's end.
pub fn next_runs<D: FormatDriverInstance>(
    runs: &mut LayerRuns<'_, D>,
    some: &mut Vec<LayerRun>,
) -> Result<(), Error>
    requires { AreReady D.view runs.old }
    ensures image { image_in runs.new ≡ image_in runs.old }
    ensures runs { OnOk result (AreLayerRuns (target D.view (image_in runs.old))
        (at_of runs.old) some.new.items (at_of runs.new)) }
    ensures all { OnOk result (length some.new.items < 1024
        → (D.view (driver (image_in runs.old))).size ≤ at_of runs.new) }
    ensures further { OnOk result (at_of runs.old + length some.new.items ≤ at_of runs.new) }
    ensures ready { OnOk result (AreReady D.view runs.new) }
{
    some.clear();
    while some.len() < MOST_RUNS {
        match runs.next_run()? {
            Some(run) => some.push(run)?,
            None => return Ok(()),
        }
    }
    Ok(())
}

/// The size in bytes of a disk whose image has that path, if each place of it is mapped and no
/// cluster that shows there is compressed in a way that isn't offered. No cluster is decoded. The
/// files are told too that end before bytes of the disk do.
pub fn readable_size<'a, 'b, H: Host>(
    alloc: Global,
    path: &str,
    disk: &'b FileDisk<'a, H>,
) -> Result<(u64, ShortFiles<'b>), Failure>
    ensures { IfOk result (λ r. r.0
        ≡ (⟦<AnyDriver<PathStorage<'a, H>> as FormatDriverInstance>⟧.view
        (driver (image_of disk.now))).size) }
{
    match disk.short_files() {
        Ok(short) => Ok((disk.size(), short)),
        Err(why) => Err(Failure::of_unread(alloc, path, why)),
    }
}

/// Whether a file is one of a disk's image.
pub fn has_file<H: Host>(disk: &FileDisk<'_, H>, file: FileStatus) -> bool {
    disk.has_file(file)
}

/// Why the disk of the image of a path wasn't read.
pub fn not_read<H: Host>(
    alloc: Global,
    path: &str,
    disk: &FileDisk<'_, H>,
    cause: Error,
) -> Failure {
    Failure::of_unread(alloc, path, disk.why(cause))
}
