// SPDX-License-Identifier: MIT
//! What speaks against a VMDK descriptor from a stranger. None is safe to hand on.

use crate::finding::{Fault, Findings, LONGEST_SHOWN, Told};
use imago_file::file::FileStorage;
use imago_file::host::HostFile;
use imago_images::longest::descriptor_text;
use imago_images::recognised::length_of;
use imago_img_files::failure::Failure;
use imago_img_files::sparse::sparse_type;
use imago_storage::error::Error;
use imago_vmdk::descriptor;
use imago_vmdk::line::{Accepted, Extent, Line, verdict};
use std::alloc::{AllocError, Global};

/// The most bytes that a descriptor has: 2 MiB.
const LONGEST_TEXT: u64 = 2 << 20;

/// Tells why a descriptor isn't safe to hand on: that it is one, and besides each of its lines and
/// extents for which it couldn't be read by itself.
pub fn tell_vmdk<F: HostFile>(
    alloc: Global,
    path: &str,
    file: &FileStorage<F>,
    accepted: Accepted,
    told: &mut Told,
) -> Result<(), Failure> {
    told.findings.add(Fault::Descriptor, None)?;
    let length = length_of(alloc, path, file)?;
    if length > LONGEST_TEXT {
        told.findings.add(Fault::LongText(length), None)?;
        return Ok(());
    }
    let text = descriptor_text(alloc, path, file)?;
    if let Some(kind) = sparse_type(&text) {
        told.findings.add(Fault::SparseType(kind), None)?;
    }
    let accepted_all = tell_lines(alloc, accepted, &text, &mut told.findings)?;
    match descriptor::read(alloc, accepted, &text) {
        Ok(described) => {
            told.disk = Some(described.size);
            Ok(())
        }
        Err(cause) => tell_text(cause, accepted_all, told),
    }
}

/// Tells why a descriptor can't be read, if no line of it tells. Lack of memory is passed on.
fn tell_text(cause: Error, accepted_all: bool, told: &mut Told) -> Result<(), Failure> {
    if cause == Error::Memory {
        return Err(Failure::Memory);
    }
    if !accepted_all {
        return Ok(());
    }
    told.findings.add(Fault::Text(cause), None)?;
    Ok(())
}

/// Tells each line of a descriptor that isn't accepted, or has an extent that isn't all zeroes.
/// Whether all are accepted is the answer.
fn tell_lines(
    alloc: Global,
    accepted: Accepted,
    text: &[u8],
    findings: &mut Findings,
) -> Result<bool, AllocError> {
    let mut all = true;
    let mut at: u64 = 0;
    for line in text.split(|byte| *byte == b'\n') {
        match verdict(accepted, line) {
            Ok(Line::Extent(extent)) => tell_extent(alloc, extent, at, findings)?,
            Ok(_) => {}
            Err(cause) => {
                findings.add(Fault::Line(cause), Some(at))?;
                all = false;
            }
        }
        at = at.saturating_add(line.len() as u64).saturating_add(1);
    }
    Ok(all)
}

/// Tells an extent that stands in a file or may not be read, whose line begins at that offset.
fn tell_extent(
    alloc: Global,
    extent: Extent<&str>,
    at: u64,
    findings: &mut Findings,
) -> Result<(), AllocError> {
    match extent {
        Extent::Zero { .. } => Ok(()),
        Extent::NoAccess { .. } => findings.add(Fault::NoAccess, Some(at)),
        Extent::Flat { name, .. } => findings.add(extent_named(alloc, name)?, Some(at)),
    }
}

/// An extent in the file of that name.
fn extent_named(alloc: Global, name: &str) -> Result<Fault, AllocError> {
    if name.len() > LONGEST_SHOWN {
        return Ok(Fault::ExtentOfLongName(name.len()));
    }
    Ok(Fault::Extent(String::from_str(alloc, name)?))
}
