// SPDX-License-Identifier: MIT
//! The files that extents stand in, as they are found.

ghost use Rattle.std.specs.Prelude.{◌≡◌, ◌+◌, ◌*◌, ◌≤◌, ◌↔◌, IsTrue, IfOk, IfSome, false};
ghost use Rattle.std.specs.Prelude.{length as count_of};
ghost use Rattle.imago_images.specs.Gate.{IsLetThrough};
ghost use Rattle.imago_images.specs.GateParts.{gate_host, gate_image, gate_files};
ghost use Rattle.imago_img_files.specs.Extents.{IsFound, HasNoLength, HoldsSectors};

use crate::failure::Failure;
use crate::host::Host;
use crate::looked::try_file;
use imago_file::name::path_beside;
use imago_images::failure::{OpenError, Reason};
use imago_images::file::storage_of;
use imago_images::gate::FolderGate;
use imago_storage::storage::Storage;
use std::alloc::Global;
use std::collections::BTreeMap;
use std::io::{self, Write};

/// What is found under the name of an extent.
#[derive(Drop)]
pub enum ExtentFile {
    /// A file of that many bytes.
    Length(u64),
    /// The path that the name stands for leads out of the descriptor's folder, and isn't looked at.
    Outside,
    /// What has no bytes at offsets.
    NotAFile,
    /// What the system answers.
    Refused(io::Error),
}

/// What is found under the name of an extent of the descriptor whose files that gate lets through.
/// A file that several extents name is looked at once.
pub fn find<H: Host>(
    alloc: Global,
    gate: &mut FolderGate<'_, '_, H>,
    name: &str,
) -> Result<ExtentFile, Failure>
    ensures found { IfOk result (λ file. IfSome (H.contents (gate_host gate.old))
        (λ files. IsFound (gate_files gate.old) files (gate_image gate.old) name.now file)) }
    ensures same_host { gate_host gate.new ≡ gate_host gate.old }
    ensures same_image { gate_image gate.new ≡ gate_image gate.old }
    ensures same_files { gate_files gate.new ≡ gate_files gate.old }
{
    let path = path_beside(alloc, gate.image(), name)?;
    match readable_length(alloc, gate, &path) {
        Ok(length) => Ok(ExtentFile::Length(length)),
        Err(cause) => no_length(cause),
    }
}

/// What is found under the name of an extent, as by [`find`]. A file of known length is counted
/// among those that the files of the descriptor's extents take.
pub fn find_counted<H: Host>(
    host: &H,
    gate: &mut FolderGate<'_, '_, H>,
    taken: &mut Taken,
    name: &str,
) -> Result<ExtentFile, Failure>
    ensures found { IfOk result (λ file. IfSome (H.contents (gate_host gate.old))
        (λ files. IsFound (gate_files gate.old) files (gate_image gate.old) name.now file)) }
{
    let path = path_beside(host.alloc(), gate.image(), name)?;
    match readable_length(host.alloc(), gate, &path) {
        Ok(length) => {
            taken.count(host, gate, &path)?;
            Ok(ExtentFile::Length(length))
        }
        Err(cause) => no_length(cause),
    }
}

/// How many bytes of their file systems the files of a descriptor's extents take.
#[derive(Drop)]
pub struct Taken {
    /// The paths of the files that are counted.
    counted: BTreeMap<String, ()>,
    bytes: u64,
}

impl Taken {
    /// Those of no files.
    pub fn new(alloc: Global) -> Self {
        Taken {
            counted: BTreeMap::new(alloc),
            bytes: 0,
        }
    }

    /// How many bytes they take.
    pub fn bytes(&self) -> u64 {
        self.bytes
    }

    /// Counts the file of a path that a gate lets through, unless it is counted already. One of
    /// which the host can't tell it takes none.
    fn count<H: Host>(
        &mut self,
        host: &H,
        _gate: &FolderGate<'_, '_, H>,
        path: &str,
    ) -> Result<(), Failure>
        requires { IsLetThrough (gate_files _gate.now) (gate_image _gate.now) path.now }
    {
        let counted = String::from_str(host.alloc(), path)?;
        if self.counted.insert(counted, ())?.is_none() {
            let bytes = host.size_on_disk(path).unwrap_or(0);
            self.bytes = self.bytes.saturating_add(bytes);
        }
        Ok(())
    }
}

/// The length of a file whose first byte can be read, in bytes, if it is let through.
fn readable_length<H: Host>(
    alloc: Global,
    gate: &mut FolderGate<'_, '_, H>,
    path: &str,
) -> Result<u64, OpenError>
    ensures through { IfOk result
        (λ _. IsLetThrough (gate_files gate.old) (gate_image gate.old) path.now) }
    ensures told { IfOk result (λ n. IfSome (H.contents (gate_host gate.old))
        (λ files. n ≡ count_of (files path.now))) }
    ensures same_host { gate_host gate.new ≡ gate_host gate.old }
    ensures same_image { gate_image gate.new ≡ gate_image gate.old }
    ensures same_files { gate_files gate.new ≡ gate_files gate.old }
{
    let file = storage_of(gate.look_once(path)?, path)?;
    try_file(alloc, path, &file)?;
    OpenError::or_image(alloc, path, file.size())
}

/// What is found under a path, where its length isn't told for that reason.
fn no_length(cause: OpenError) -> Result<ExtentFile, Failure>
    ensures { IfOk result HasNoLength }
{
    match cause {
        OpenError::OfFile {
            reason: Reason::Outside(_),
            ..
        } => Ok(ExtentFile::Outside),
        OpenError::OfFile {
            reason: Reason::NotAFile,
            ..
        } => Ok(ExtentFile::NotAFile),
        OpenError::OfFile {
            reason: Reason::System(cause),
            ..
        } => Ok(ExtentFile::Refused(cause)),
        cause => Err(Failure::from(cause)),
    }
}

/// How many bytes that many sectors have.
pub fn bytes_of(sectors: u64) -> u64 {
    sectors.saturating_mul(512)
}

/// Whether a file of that length has so many sectors from one on.
fn holds(length: u64, offset: u64, sectors: u64) -> bool
    ensures { IsTrue result ↔ ((offset + sectors) * 512 ≤ «length») }
{
    let whole = length / 512;
    offset <= whole && sectors <= whole - offset
}

/// Tells what is wrong with the file of a FLAT extent, if anything is, and whether something is.
/// The extent's part of the file begins with the sector of the first number, and has as many
/// sectors as the second one. Bytes behind the file's end read as 0.
pub fn tell_fault<W: Write>(
    output: &mut W,
    start: &str,
    name: &str,
    part: (u64, u64),
    file: &ExtentFile,
) -> io::Result<bool>
    ensures { IfOk result (λ faulty. faulty ≡ false → HoldsSectors part.0 part.1 file.now) }
{
    let (offset, sectors) = part;
    if let ExtentFile::Length(length) = file {
        if holds(*length, offset, sectors) {
            return Ok(false);
        }
    }
    let end = bytes_of(offset).saturating_add(bytes_of(sectors));
    write!(output, "{start}{name:?}: ")?;
    match file {
        ExtentFile::Length(length) => writeln!(
            output,
            "{length} bytes, and its extent ends at {end}: the missing bytes read as 0"
        )?,
        ExtentFile::Outside => writeln!(
            output,
            "not in the descriptor's folder; --allow-outside permits it"
        )?,
        ExtentFile::NotAFile => writeln!(output, "neither a regular file nor a block device")?,
        ExtentFile::Refused(cause) => writeln!(output, "{cause}")?,
    }
    Ok(true)
}
