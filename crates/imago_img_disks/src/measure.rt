// SPDX-License-Identifier: MIT
//! How long the file of a new image would be.
ghost use Rattle.std.specs.Prelude.{◌≡◌, ℕ, IfOk, IfSome, IsTrue, OnOk};
ghost use Rattle.std.specs.Int.{next_multiple_of};
ghost use Rattle.std.specs.Io.KnownBytes.{Appends};
ghost use Rattle.imago_access.specs.Chain.{driver};
ghost use Rattle.imago_access.specs.Disk.{value_at};
ghost use Rattle.imago_disk.specs.Disk.{image_of, is_told, values};
ghost use Rattle.imago_disk.specs.Shows.{HasSize};
ghost use Rattle.imago_qcow2_new.specs.Layout.{StoresNothing};
ghost use Rattle.imago_qcow2_new.specs.Space.{StoresData};
ghost use Rattle.imago_img_disks.specs.Measures.{AreLengths, AreLengthsOf, IsFullLength, IsMeasured};
ghost use Rattle.imago_img_disks.specs.Measures.{StoresDataOf, lengths_text};
ghost use Rattle.imago_img_files.specs.Openings.{how_by};
ghost use Rattle.imago_img_files.specs.Printed.{HasPrinted};

use crate::create::{layout_over, planned, raw_length};
use crate::image::{FileDisk, opened, readable_size};
use crate::new_qcow2::{NewQcow2, layout_for, new_format, of_format};
use imago_any_driver::any::AnyDriver;
use imago_drivers::drivers::FormatDriverInstance;
use imago_images::file::PathStorage;
use imago_img_files::failure::Failure;
use imago_img_files::host::Host;
use imago_img_files::opening::how_to_open;
use imago_img_files::printed::is_json;
use imago_qcow2_new::format::FormatError;
use imago_qcow2_new::grown::grown_length;
use imago_words::command::{Measure, Measured};
use imago_words::settings::{NewFormat, Settings};
use std::alloc::Global;
use std::io::{self, Write};

/// The lengths of a new file, in bytes.
#[derive(Clone, Copy)]
struct Lengths {
    /// Of the one that is written.
    required: u64,
    /// Of one in which the whole disk was written since.
    full: u64,
}

/// What an error is told of where there is no file.
const NO_PATH: &str = "--size";

/// Prints how long the file of a new image is, as `convert` or `create` makes it, and how long it
/// is at most once the whole disk is written.
pub fn measure<H: Host, W: Write>(
    host: &H,
    asked: Measure<'_>,
    output: &mut W,
) -> Result<(), Failure>
    ensures { OnOk result (HasPrinted (λ text. IfSome (H.contents host.now)
        (λ files. IsMeasured asked.entry files text)) (W.contents output.old) (W.contents output.new)) }
{
    let lengths = lengths_asked(host, asked)?;
    match print_lengths(lengths, is_json(asked.output), output) {
        Ok(()) => Ok(()),
        Err(cause) => Err(Failure::Output(cause)),
    }
}

/// Prints lengths as lines, or as a JSON object.
fn print_lengths<W: Write>(lengths: Lengths, json: bool, output: &mut W) -> io::Result<()>
    ensures { OnOk result (Appends (W.contents output.old) (W.contents output.new)
        (lengths_text json lengths.required lengths.full)) }
{
    if json {
        writeln!(
            output,
            "{{\n    \"required\": {},\n    \"fully-allocated\": {}\n}}",
            lengths.required, lengths.full
        )
    } else {
        writeln!(
            output,
            "required size: {}\nfully allocated size: {}",
            lengths.required, lengths.full
        )
    }
}

/// The lengths of a new file of what is measured.
fn lengths_asked<H: Host>(host: &H, asked: Measure<'_>) -> Result<Lengths, Failure>
    ensures { IfOk result (λ r. IfSome (H.contents host.now)
        (λ files. AreLengthsOf asked.entry asked.entry.disk files r.required r.full)) }
{
    match asked.disk {
        Measured::File(file) => lengths_of_file(host, file, asked),
        Measured::Size(size) => lengths_of_size(host.alloc(), size, asked.target_format),
    }
}

/// The lengths of a new file of the disk of an image.
fn lengths_of_file<H: Host>(host: &H, file: &str, asked: Measure<'_>) -> Result<Lengths, Failure>
    ensures { IfOk result (λ r. IfSome (H.contents host.now)
        (λ files. (size : ℕ)
        × HasSize (how_by asked.entry.source_format asked.entry.opening) files file.now size
        × AreLengths asked.entry.target_format
        (StoresDataOf (how_by asked.entry.source_format asked.entry.opening) files file.now) size
        r.required r.full)) }
{
    let how = how_to_open(asked.source_format, asked.opening);
    let disk = opened(host, file, how)?;
    lengths_of_disk(host.alloc(), file, &disk, asked)
}

/// The same, where the disk of the image of that path is opened.
fn lengths_of_disk<'a, H: Host>(
    alloc: Global,
    file: &str,
    disk: &FileDisk<'a, H>,
    asked: Measure<'_>,
) -> Result<Lengths, Failure>
    ensures { IfOk result (λ r. AreLengths asked.entry.target_format
        (λ l. IsTrue (is_told ⟦<AnyDriver<PathStorage<'a, H>> as FormatDriverInstance>⟧.view
        disk.now) → StoresData l.clusters (value_at
        (values ⟦<AnyDriver<PathStorage<'a, H>> as FormatDriverInstance>⟧.view disk.now)))
        (⟦<AnyDriver<PathStorage<'a, H>> as FormatDriverInstance>⟧.view
        (driver (image_of disk.now))).size r.required r.full) }
{
    let (size, _) = readable_size(alloc, file, disk)?;
    let NewFormat::Qcow2(settings) = asked.target_format else {
        return raw_lengths(alloc, file, size);
    };
    let new = NewQcow2 {
        format: new_format(settings),
        all: settings.preallocated,
    };
    let layout = layout_for(alloc, disk, file, file, new)?;
    Ok(Lengths {
        required: layout.file_length(),
        full: full_length(alloc, file, size, settings)?,
    })
}

/// The lengths of a new file of a disk of that size in which nothing was written.
fn lengths_of_size(alloc: Global, size: u64, format: NewFormat) -> Result<Lengths, Failure>
    ensures { IfOk result (λ r. AreLengths format StoresNothing size r.required r.full) }
{
    let NewFormat::Qcow2(settings) = format else {
        return raw_lengths(alloc, NO_PATH, size);
    };
    let layout = planned(alloc, NO_PATH, size, settings, None)?;
    Ok(Lengths {
        required: layout.file_length(),
        full: full_length(alloc, NO_PATH, size, settings)?,
    })
}

/// The length of a qcow2 file of a disk of that size in which all clusters are stored. It is told
/// too where no such file can be made, as `qemu-img` tells it: a new file is made then, and grows
/// until it, or the table of its reference counts, is as long as can be.
fn full_length(alloc: Global, path: &str, size: u64, settings: Settings) -> Result<u64, Failure>
    ensures { IfOk result (IsFullLength settings size) }
{
    let all = Settings {
        preallocated: true,
        ..settings
    };
    match layout_over(alloc, size, all, None) {
        Ok(layout) => Ok(layout.file_length()),
        Err(FormatError::TooLarge) => length_of_grown(alloc, path, size, settings),
        Err(fault) => Err(of_format(alloc, path, fault)),
    }
}

/// The same where no such file can be made.
fn length_of_grown(alloc: Global, path: &str, size: u64, settings: Settings) -> Result<u64, Failure>
    ensures { IfOk result (IsFullLength settings size) }
{
    match grown_length(size, settings.cluster_bits) {
        Ok(length) => Ok(length),
        Err(fault) => Err(of_format(alloc, path, fault)),
    }
}

/// The lengths of a raw file of a disk of that size.
fn raw_lengths(alloc: Global, path: &str, size: u64) -> Result<Lengths, Failure>
    ensures { IfOk result (λ r. (r.required ≡ next_multiple_of size 512)
        × (r.full ≡ next_multiple_of size 512)) }
{
    let length = raw_length(alloc, path, size)?;
    Ok(Lengths {
        required: length,
        full: length,
    })
}
