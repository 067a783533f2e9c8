// SPDX-License-Identifier: MIT
//! Whether a file from a stranger is safe to hand on.
ghost use Rattle.std.specs.Prelude.{◌≡◌, ℕ, List, Decides, true, None, Some, IfOk, OnOk, IfSome};
ghost use Rattle.imago_images.specs.Alone.{HasOneFormat};
ghost use Rattle.imago_images.specs.Formats.{IsFormatBy};
ghost use Rattle.imago_images.specs.HostBytes.{HasBytes};
ghost use Rattle.imago_images.specs.Longest.{IsNoLonger};
ghost use Rattle.imago_formats.specs.Signatures.{signature_of};
ghost use Rattle.imago_img_checks.specs.Vetted.{IsSafeAs, IsVetted, VettedOpens};
ghost use Rattle.imago_img_checks.specs.Vetted.{VettedIsSeen};
ghost use Rattle.imago_img_checks.specs.VettedParts.{IsTold};

use crate::finding::{Finding, Findings, Told};
use crate::vet_qcow2::vet_qcow2;
use crate::vet_seen::vet_seen;
use crate::vet_vmdk::tell_vmdk;
use imago_file::file::FileStorage;
use imago_file::host::HostFile;
use imago_formats::signature::{BLOCK, ISO_OFFSET, Signature};
use imago_images::alone::refuse_another;
use imago_images::file::{PathStorage, look_at};
use imago_images::format::ImageFormat;
use imago_images::layer::format_of;
use imago_images::longest::refuse_longer;
use imago_images::opening::{Opening, OtherFiles};
use imago_img_files::failure::{Failure, OpenError, Reason};
use imago_img_files::host::Host;
use imago_img_files::json::quoted;
use imago_img_files::looked::try_file;
use imago_storage::error::Error;
use imago_storage::storage::Storage;
use std::alloc::Global;
use std::io::{self, Write};

/// Tells whether a file from a stranger is safe to hand on, and prints what it is and each reason
/// against it. No other file is asked for, whatever the opening says.
///
/// It is safe if it is a raw disk or a qcow2 image, QEMU takes it for the same, its opening by
/// itself isn't refused, but by the host or for memory, and no cluster of its disk can be refused
/// but one whose compressed stream is faulty: no stream is decoded. Of a qcow2 file, the L1 table
/// and one L2 table at a time are held, of 34 MiB at most. Its L2 tables are read as often as they
/// are named, which is limited by their sum.
pub fn vet<H: Host, W: Write>(
    host: &H,
    path: &str,
    how: Opening,
    json: bool,
    output: &mut W,
) -> Result<bool, Failure>
    ensures { IfOk result (λ safe. IfSome (H.contents host.now)
        (λ files. Decides safe (IsVetted how path.now (files path.now)))) }
{
    let alloc = host.alloc();
    let file = look_at(host, path)?;
    let mut told = Told::new(alloc, file.file().status().length);
    let safe = vet_file(alloc, path, &file, how, &mut told)?;
    let printed = if json {
        print_json(alloc, path, &told, safe, output)
    } else {
        print_text(path, &told, safe, output)
    };
    printed.map_err(Failure::Output)?;
    Ok(safe)
}

/// What is safe to hand on opens: the image of a file for which [`vet`] answers so, opened in the
/// same way and by itself, isn't refused but by the host or for memory. This is a law of what is
/// meant by these words, and nothing is done.
pub fn vetted_opens()
    ensures { VettedOpens }
{}

/// What is safe to hand on is what QEMU takes it for: a file for which [`vet`] answers so has the
/// same format for QEMU 7.2, if that isn't told one, under the same path. This is a law of what is
/// meant by these words, and nothing is done.
pub fn vetted_is_seen()
    ensures { VettedIsSeen }
{}

/// Whether a file that was looked at is safe. All that speaks against it is told.
fn vet_file<F: HostFile>(
    alloc: Global,
    path: &str,
    file: &FileStorage<F>,
    how: Opening,
    told: &mut Told,
) -> Result<bool, Failure>
    ensures { (bytes : List ℕ) → HasBytes ⟦<FileStorage<F> as Storage>⟧.features
        ⟦<FileStorage<F> as Storage>⟧.bytes bytes file.now
        → IfOk result (λ safe. Decides safe (IsVetted how path.now bytes)) }
{
    let one = is_one_format(alloc, path, file, how.format, told)?;
    let Some(format) = told_format(alloc, path, file, how.format, told)? else {
        return Ok(false);
    };
    told.format = Some(format);
    let short = is_short(alloc, path, file, format, how, told)?;
    let safe = is_safe_as(alloc, path, file, format, how, told)?;
    if !one {
        return Ok(false);
    }
    let seen = vet_seen(alloc, path, file, format, told)?;
    if !seen {
        return Ok(false);
    }
    if !short {
        return Ok(false);
    }
    Ok(safe)
}

/// Whether a file is of one format alone.
fn is_one_format<F: HostFile>(
    alloc: Global,
    path: &str,
    file: &FileStorage<F>,
    said: Option<ImageFormat>,
    told: &mut Told,
) -> Result<bool, Failure>
    ensures { (bytes : List ℕ) → HasBytes ⟦<FileStorage<F> as Storage>⟧.features
        ⟦<FileStorage<F> as Storage>⟧.bytes bytes file.now → IfOk result
        (λ one. Decides one (HasOneFormat said (signature_of bytes) bytes)) }
{
    match refuse_another(alloc, path, file, said, OtherFiles::None) {
        Ok(()) => Ok(true),
        Err(refused) => {
            let at = place_of(&refused, told.length);
            told.findings.refuse(refused, at)?;
            Ok(false)
        }
    }
}

/// The format of a file, if it is one that is offered, and the one that is said.
fn told_format<F: HostFile>(
    alloc: Global,
    path: &str,
    file: &FileStorage<F>,
    said: Option<ImageFormat>,
    told: &mut Told,
) -> Result<Option<ImageFormat>, Failure>
    ensures told { (bytes : List ℕ) → HasBytes ⟦<FileStorage<F> as Storage>⟧.features
        ⟦<FileStorage<F> as Storage>⟧.bytes bytes file.now
        → IfOk result (λ found. IfSome found (IsFormatBy said path.now bytes)) }
    ensures untold { (bytes : List ℕ) → HasBytes ⟦<FileStorage<F> as Storage>⟧.features
        ⟦<FileStorage<F> as Storage>⟧.bytes bytes file.now
        → IfOk result (λ found. found ≡ None → (format : ImageFormat)
        → IsFormatBy said path.now bytes format → ⊥) }
{
    match format_of(alloc, path, file, said) {
        Ok(format) => Ok(Some(format)),
        Err(refused) => {
            let at = place_of(&refused, told.length);
            told.findings.refuse(refused, at)?;
            Ok(None)
        }
    }
}

/// Whether the disk of a file, which has that format, isn't longer than the limit. Where its length
/// isn't told, it is told elsewhere why.
fn is_short<F: HostFile>(
    alloc: Global,
    path: &str,
    file: &FileStorage<F>,
    format: ImageFormat,
    how: Opening,
    told: &mut Told,
) -> Result<bool, Failure>
    ensures { (bytes : List ℕ) → HasBytes ⟦<FileStorage<F> as Storage>⟧.features
        ⟦<FileStorage<F> as Storage>⟧.bytes bytes file.now → IfOk result
        (λ short. IsSafeAs how bytes format
        → Decides short (IsNoLonger how.longest how.accepted format bytes)) }
{
    match refuse_longer(alloc, path, file, format, how) {
        Ok(()) => Ok(true),
        Err(refused) => {
            tell_long(refused, format, told)?;
            Ok(false)
        }
    }
}

/// Tells that a disk is too long, if its length is why it is refused.
fn tell_long(refused: OpenError, format: ImageFormat, told: &mut Told) -> Result<(), Failure>
    ensures { OnOk result (IsTold refused) }
{
    if is_length_unknown(&refused) {
        return Ok(());
    }
    told.findings.refuse(refused, size_place(format))
}

/// Whether a file is safe as an image of that format, but for the length of its disk.
fn is_safe_as<F: HostFile>(
    alloc: Global,
    path: &str,
    file: &FileStorage<F>,
    format: ImageFormat,
    how: Opening,
    told: &mut Told,
) -> Result<bool, Failure>
    ensures { (bytes : List ℕ) → HasBytes ⟦<FileStorage<F> as Storage>⟧.features
        ⟦<FileStorage<F> as Storage>⟧.bytes bytes file.now → IfOk result
        (λ safe. Decides safe (IsSafeAs how bytes format)) }
{
    match format {
        ImageFormat::Raw => {
            try_file(alloc, path, file)?;
            told.disk = Some(told.length);
            Ok(true)
        }
        ImageFormat::Vmdk => {
            tell_vmdk(alloc, path, file, how.accepted, told)?;
            Ok(false)
        }
        ImageFormat::Qcow2 => vet_qcow2(alloc, path, file, how, told),
    }
}

/// Whether a disk's length isn't told by its file, which could be read.
fn is_length_unknown(refused: &OpenError) -> bool
    ensures { result ≡ true → IsTold refused.now }
{
    matches!(
        refused,
        OpenError::OfFile {
            reason: Reason::Header(_) | Reason::Image(Error::InvalidData | Error::Unsupported),
            ..
        }
    )
}

/// Where a file of that format says how long its disk is, if it does at one place.
fn size_place(format: ImageFormat) -> Option<u64> {
    match format {
        ImageFormat::Qcow2 => Some(24),
        ImageFormat::Raw | ImageFormat::Vmdk => None,
    }
}

/// Where the mark of another format stands in a file of that length for which it is refused, if it
/// is.
fn place_of(refused: &OpenError, length: u64) -> Option<u64> {
    let OpenError::OfFile { reason, .. } = refused else {
        return None;
    };
    match reason {
        Reason::TwoFormats(_, Signature::Vhd) => Some(length.saturating_sub(BLOCK as u64)),
        Reason::TwoFormats(_, found) | Reason::Another { found, .. } => mark_place(*found, length),
        Reason::Recognised(found) => mark_place(*found, length),
        Reason::Sparse => Some(0),
        _ => None,
    }
}

/// Where the mark of a signature stands in a file of that length, if there is but one place for it.
fn mark_place(found: Signature, length: u64) -> Option<u64> {
    match found {
        Signature::Vhd => None,
        Signature::Dmg => Some(length.saturating_sub(BLOCK as u64)),
        Signature::Vdi => Some(64),
        Signature::Tar => Some(257),
        Signature::Iso => Some(ISO_OFFSET),
        _ => Some(0),
    }
}

/// Prints what is told of a file as lines. Each reason begins with its fixed name.
fn print_text<W: Write>(path: &str, told: &Told, safe: bool, output: &mut W) -> io::Result<()> {
    if !safe {
        writeln!(output, "{path:?} is refused:")?;
        return print_findings(&told.findings, output);
    }
    write!(output, "{path:?} is safe to hand on:")?;
    if let Some(format) = told.format {
        write!(output, " {}", format.name())?;
    }
    if let Some(version) = told.version {
        write!(output, " version {version}")?;
    }
    if let Some(disk) = told.disk {
        write!(output, ", a disk of {disk} bytes")?;
    }
    writeln!(output, " in a file of {} bytes", told.length)
}

/// Prints the reasons, each in a line.
fn print_findings<W: Write>(findings: &Findings, output: &mut W) -> io::Result<()> {
    for found in &findings.list {
        write!(output, "{}", found.kind().name())?;
        if let Some(at) = found.at {
            write!(output, " at {at}")?;
        }
        writeln!(output, ": {}", found.fault)?;
    }
    if findings.more > 0 {
        writeln!(output, "and {} others", findings.more)?;
    }
    Ok(())
}

/// Prints what is told of a file as a JSON object.
fn print_json<W: Write>(
    alloc: Global,
    path: &str,
    told: &Told,
    safe: bool,
    output: &mut W,
) -> io::Result<()> {
    let path = quoted(alloc, path)?;
    write!(output, "{{ \"filename\": {path}, \"safe\": {safe}")?;
    if let Some(format) = told.format {
        write!(output, ", \"format\": \"{}\"", format.name())?;
    }
    if let Some(version) = told.version {
        write!(output, ", \"version\": {version}")?;
    }
    if let Some(disk) = told.disk {
        write!(output, ", \"virtual-size\": {disk}")?;
    }
    write!(output, ", \"file-size\": {}, \"reasons\": [", told.length)?;
    print_objects(alloc, &told.findings, output)?;
    write!(output, "]")?;
    if told.findings.more > 0 {
        write!(output, ", \"more-reasons\": {}", told.findings.more)?;
    }
    writeln!(output, " }}")
}

/// Prints the reasons as JSON objects, with commas between them.
fn print_objects<W: Write>(alloc: Global, findings: &Findings, output: &mut W) -> io::Result<()> {
    let mut separator = "";
    for found in &findings.list {
        write!(output, "{separator}")?;
        print_object(alloc, found, output)?;
        separator = ", ";
    }
    Ok(())
}

/// Prints a reason as a JSON object.
fn print_object<W: Write>(alloc: Global, found: &Finding, output: &mut W) -> io::Result<()> {
    write!(output, "{{ \"reason\": \"{}\"", found.kind().name())?;
    if let Some(at) = found.at {
        write!(output, ", \"offset\": {at}")?;
    }
    if let Some(name) = found.name() {
        write!(output, ", \"name\": {}", quoted(alloc, name)?)?;
    }
    let text = format!(in alloc; "{}", found.fault)?;
    write!(output, ", \"text\": {} }}", quoted(alloc, &text)?)
}
