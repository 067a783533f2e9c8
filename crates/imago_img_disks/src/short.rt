// SPDX-License-Identifier: MIT
//! Files that end before the bytes which a disk has there: a warning, or a refusal where no other
//! files are opened.

use imago_access::access::FormatAccess;
use imago_any_driver::any::AnyDriver;
use imago_copy::runs::{Kind, Runs};
use imago_disk::disk::Disk;
use imago_disk::short::{ShortFile, ShortFiles};
use imago_drivers::drivers::FormatDriverInstance;
use imago_images::opening::{Opening, OtherFiles};
use imago_img_files::failure::{Failure, Reason};
use imago_storage::error::Error;
use imago_storage::storage::Storage;
use std::alloc::Global;
use std::io::{self, Write};

/// Refuses the disk of the image of a path whose file ends before one of the disk's clusters begins,
/// as `vet` refuses it, where no other files are opened. Where others are, what lacks reads as 0.
pub fn refuse_cut<S: Storage>(
    alloc: Global,
    path: &str,
    how: Opening,
    disk: &Disk<S>,
) -> Result<(), Failure> {
    if how.other_files != OtherFiles::None {
        return Ok(());
    }
    let Some(length) = cut_length(disk.image().inner()) else {
        return Ok(());
    };
    match used_end(disk.image()) {
        Ok(end) => Err(Failure::of_short(alloc, path, length, end)),
        Err(cause) => Err(Failure::of_file(alloc, path, Reason::Image(cause))),
    }
}

/// The length in bytes of the file of an image, if a cluster of its disk begins behind it. Only the
/// tables of a qcow2 image can say so of an image in one file.
fn cut_length<S: Storage>(driver: &AnyDriver<S>) -> Option<u64> {
    let AnyDriver::Qcow2(qcow2) = driver else {
        return None;
    };
    let length = driver.storage(0)?.size().ok()?;
    if qcow2.is_sound(length) {
        return None;
    }
    Some(length)
}

/// Where the last byte ends that a disk has in its file as it is, in bytes.
fn used_end<D: FormatDriverInstance>(image: &FormatAccess<D>) -> Result<u64, Error> {
    let mut end: u64 = 0;
    let mut runs = Runs::new(image)?;
    while let Some(run) = runs.next_run()? {
        if let Kind::Stored { offset, .. } = run.kind {
            end = end.max(offset.saturating_add(run.count));
        }
    }
    Ok(end)
}

/// Warns of them, a line for each.
pub fn warn<W: Write>(short: &ShortFiles<'_>, warnings: &mut W) -> io::Result<()> {
    for file in short.first() {
        let Some(ShortFile { path, length, end }) = file else {
            return Ok(());
        };
        writeln!(
            warnings,
            "imago-img: warning: {path:?}: {length} bytes, and the image uses it up to {end}: \
             the missing bytes read as 0"
        )?;
    }
    if short.has_more() {
        writeln!(
            warnings,
            "imago-img: warning: other files end too early as well"
        )?;
    }
    Ok(())
}
