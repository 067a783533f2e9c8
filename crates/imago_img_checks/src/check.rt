// SPDX-License-Identifier: MIT
//! Whether an image is in order.
ghost use Rattle.std.specs.Prelude.{◌≡◌, IfOk, IfSome, option_map};
ghost use Rattle.imago_img_checks.specs.Checked.{IsChecked, verdict_in};

use crate::check_qcow2::check_qcow2;
use crate::check_vmdk::check_vmdk;
use imago_images::alone::refuse_another;
use imago_images::file::look_at;
use imago_images::format::ImageFormat;
use imago_images::layer::format_of;
use imago_images::opening::Opening;
use imago_img_files::failure::Failure;
use imago_img_files::host::Host;
use imago_img_files::json::quoted;
use imago_img_files::looked::{refuse_long_disk, try_file};
use imago_qcow2_check::fault::Verdict;
use std::alloc::Global;
use std::io::{self, Write};

/// What was found in an image's file.
#[derive(Clone, Copy)]
pub struct Found {
    format: ImageFormat,
    /// How many faults there are, but leaks.
    corruptions: u64,
    /// How many clusters are used less often than their reference counts say.
    leaks: u64,
}

impl Found {
    ghost use Rattle.imago_img_checks.specs.Checked.{verdict_in};

    /// What is said of the file.
    fn verdict(self) -> Verdict
        ensures { result ≡ verdict_in self }
    {
        if self.corruptions > 0 {
            return Verdict::Corrupt;
        }
        if self.leaks > 0 {
            return Verdict::Leaks;
        }
        Verdict::Faultless
    }
}

/// Tells each fault of an image's file, and what is said of it: lines of a descriptor that can't be
/// meant, and extents that their files don't hold; invalid entries of a qcow2 file, and clusters
/// whose reference counts aren't the number of their uses. In a raw file there is nothing to check.
/// A file that can't be checked is refused.
///
/// In JSON only sums are printed, and faults are told among the errors.
pub fn check<H: Host, W: Write, E: Write>(
    host: &H,
    path: &str,
    how: Opening,
    json: bool,
    output: &mut W,
    errors: &mut E,
) -> Result<Option<Verdict>, Failure>
    ensures { IfOk result (λ verdict. IfSome (H.contents host.now)
        (λ files. IsChecked how files path.now verdict)) }
{
    let Some(found) = find_faults(host, path, how, json, output, errors)? else {
        let _ = writeln!(
            errors,
            "imago-img: {path:?}: a raw file has nothing to check"
        );
        return Ok(None);
    };
    print_sums(host.alloc(), path, found, json, output).map_err(Failure::Output)?;
    Ok(Some(found.verdict()))
}

/// Tells each fault, as [`check`] does, and what was found, unless there is nothing to check.
fn find_faults<H: Host, W: Write, E: Write>(
    host: &H,
    path: &str,
    how: Opening,
    json: bool,
    output: &mut W,
    errors: &mut E,
) -> Result<Option<Found>, Failure>
    ensures { IfOk result (λ found. IfSome (H.contents host.now)
        (λ files. IsChecked how files path.now (option_map verdict_in found))) }
{
    if json {
        return check_format(host, path, how, errors);
    }
    check_format(host, path, how, output)
}

/// Tells each fault of an image's file by its format, in lines.
fn check_format<H: Host, W: Write>(
    host: &H,
    path: &str,
    how: Opening,
    lines: &mut W,
) -> Result<Option<Found>, Failure>
    ensures { IfOk result (λ found. IfSome (H.contents host.now)
        (λ files. IsChecked how files path.now (option_map verdict_in found))) }
{
    let file = look_at(host, path)?;
    refuse_another(host.alloc(), path, &file, how.format, how.other_files)?;
    let format = format_of(host.alloc(), path, &file, how.format)?;
    refuse_long_disk(host.alloc(), path, &file, format, how)?;
    match format {
        ImageFormat::Raw => {
            try_file(host.alloc(), path, &file)?;
            Ok(None)
        }
        ImageFormat::Vmdk => {
            let corruptions = check_vmdk(host, path, &file, how, lines)?;
            Ok(Some(Found {
                format: ImageFormat::Vmdk,
                corruptions,
                leaks: 0,
            }))
        }
        ImageFormat::Qcow2 => {
            let (corruptions, leaks) = check_qcow2(host, path, file, how, lines)?;
            Ok(Some(Found {
                format: ImageFormat::Qcow2,
                corruptions,
                leaks,
            }))
        }
    }
}

/// Prints how many faults were found.
fn print_sums<W: Write>(
    alloc: Global,
    path: &str,
    found: Found,
    json: bool,
    output: &mut W,
) -> io::Result<()> {
    if json {
        return print_json(alloc, path, found, output);
    }
    print_text(found, output)
}

/// Prints it as lines.
fn print_text<W: Write>(found: Found, output: &mut W) -> io::Result<()> {
    let (corruptions, leaks) = (found.corruptions, found.leaks);
    if corruptions == 0 && leaks == 0 {
        return writeln!(output, "No errors were found on the image.");
    }
    if corruptions > 0 {
        writeln!(
            output,
            "\n{corruptions} errors were found on the image.\n\
            Data may be corrupted, or further writes to the image may corrupt it."
        )?;
    }
    if leaks > 0 {
        writeln!(
            output,
            "\n{leaks} leaked clusters were found on the image.\n\
            This means waste of disk space, but no harm to data."
        )?;
    }
    Ok(())
}

/// Prints it as a JSON object. A sum that is 0 is left out.
fn print_json<W: Write>(alloc: Global, path: &str, found: Found, output: &mut W) -> io::Result<()> {
    let (path, format) = (quoted(alloc, path)?, found.format.name());
    write!(output, "{{ \"filename\": {path}, \"format\": \"{format}\"")?;
    write!(output, ", \"check-errors\": 0")?;
    if found.corruptions > 0 {
        write!(output, ", \"corruptions\": {}", found.corruptions)?;
    }
    if found.leaks > 0 {
        write!(output, ", \"leaks\": {}", found.leaks)?;
    }
    writeln!(output, " }}")
}
