// SPDX-License-Identifier: MIT
//! Disks and L1 tables that may have so many bytes, and no more.
ghost use Rattle.std.specs.Prelude.{◌≡◌, ◌≤◌, ◌<◌, ◌^◌, ◌*◌, ◌+◌, ℕ, List, Option, Some};
ghost use Rattle.std.specs.Prelude.{IfOk, IfErr, IfSome};
ghost use Rattle.imago_storage.specs.Bytes.{bytes_at};
ghost use Rattle.imago_vmdk.specs.Reading.{reading_of};
ghost use Rattle.imago_qcow2.specs.Entry.{disk_size};
ghost use Rattle.imago_qcow2.specs.Limit.{IsWithin, l1_length as l1_length_of};
ghost use Rattle.imago_images.specs.declared.failure.Reason.TheVariants as Why;
ghost use Rattle.imago_images.specs.declared.format.ImageFormat.TheVariants as Of;
ghost use Rattle.imago_images.specs.Extents.{size_read};
ghost use Rattle.imago_images.specs.HostBytes.{HasBytes};
ghost use Rattle.imago_images.specs.Layers.{size_by};
ghost use Rattle.imago_images.specs.Longest.{IsNoLonger, IsTooLong, IsSizeUnknown, IsOverLimit};
ghost use Rattle.imago_images.specs.Longest.{HasShortL1, IsTooLarge};
ghost use Rattle.imago_images.specs.Refusals.{IsRefused};

use crate::failure::{OpenError, Reason};
use crate::format::ImageFormat;
use crate::opening::{Accepted, Opening};
use crate::recognised::{length_of, read_block, unread};
use imago_file::file::FileStorage;
use imago_file::host::HostFile;
use imago_qcow2::header::{self, HEAD_LENGTH};
pub use imago_qcow2::layout::{LONGEST_L1, l1_length};
use imago_storage::error::Error;
use imago_storage::ext::StorageExt;
use imago_storage::storage::Storage;
use imago_vmdk::descriptor;
use std::alloc::Global;

/// The most bytes that a descriptor has.
const LONGEST_TEXT: u64 = 1 << 21;

/// Refuses the file of that path as a layer of that format whose disk is longer than the opening
/// allows, as [`refuse_longer`] does, or whose L1 table has more than 32 MiB.
pub(crate) fn refuse_larger<F: HostFile>(
    alloc: Global,
    path: &str,
    file: &FileStorage<F>,
    format: ImageFormat,
    how: Opening,
) -> Result<(), OpenError>
    ensures within { (bytes : List ℕ) → HasBytes ⟦<FileStorage<F> as Storage>⟧.features
        ⟦<FileStorage<F> as Storage>⟧.bytes bytes file.now
        → IfOk result (λ _. IsNoLonger how.longest how.accepted format bytes) }
    ensures l1 { (bytes : List ℕ) → HasBytes ⟦<FileStorage<F> as Storage>⟧.features
        ⟦<FileStorage<F> as Storage>⟧.bytes bytes file.now
        → IfOk result (λ _. HasShortL1 format bytes) }
    ensures refused { (bytes : List ℕ) → HasBytes ⟦<FileStorage<F> as Storage>⟧.features
        ⟦<FileStorage<F> as Storage>⟧.bytes bytes file.now
        → IfErr result (IsRefused path.now (IsTooLarge how.longest how.accepted format bytes)) }
{
    refuse_longer(alloc, path, file, format, how)?;
    refuse_long_l1(alloc, path, file, format)
}

/// Refuses the file of that path as a layer of that format whose disk is longer than the opening
/// allows. It is told by a raw file's length, the header of a qcow2 file or the text of a
/// descriptor, and nothing else is read.
pub fn refuse_longer<F: HostFile>(
    alloc: Global,
    path: &str,
    file: &FileStorage<F>,
    format: ImageFormat,
    how: Opening,
) -> Result<(), OpenError>
    ensures within { (bytes : List ℕ) → HasBytes ⟦<FileStorage<F> as Storage>⟧.features
        ⟦<FileStorage<F> as Storage>⟧.bytes bytes file.now
        → IfOk result (λ _. IsNoLonger how.longest how.accepted format bytes) }
    ensures refused { (bytes : List ℕ) → HasBytes ⟦<FileStorage<F> as Storage>⟧.features
        ⟦<FileStorage<F> as Storage>⟧.bytes bytes file.now
        → IfErr result (IsRefused path.now (IsTooLong how.longest how.accepted format bytes)) }
{
    if how.longest.is_none() {
        return Ok(());
    }
    let size = size_told(alloc, path, file, format, how.accepted)?;
    refuse_size(alloc, path, size, how.longest)
}

/// Refuses the file of that path as a layer of that format whose L1 table has more than 32 MiB.
/// Only a qcow2 file has one.
fn refuse_long_l1<F: HostFile>(
    alloc: Global,
    path: &str,
    file: &FileStorage<F>,
    format: ImageFormat,
) -> Result<(), OpenError>
    ensures within { (bytes : List ℕ) → HasBytes ⟦<FileStorage<F> as Storage>⟧.features
        ⟦<FileStorage<F> as Storage>⟧.bytes bytes file.now
        → IfOk result (λ _. HasShortL1 format bytes) }
    ensures refused { (longest : Option ℕ) (accepted : Accepted) (bytes : List ℕ)
        → HasBytes ⟦<FileStorage<F> as Storage>⟧.features
        ⟦<FileStorage<F> as Storage>⟧.bytes bytes file.now
        → IfErr result (IsRefused path.now (IsTooLarge longest accepted format bytes)) }
{
    match format {
        ImageFormat::Raw | ImageFormat::Vmdk => Ok(()),
        ImageFormat::Qcow2 => {
            let taken = l1_length_told(alloc, path, file)?;
            if taken > LONGEST_L1 {
                return Err(OpenError::of_file(alloc, path, Reason::L1TooLong(taken)));
            }
            Ok(())
        }
    }
}

/// How many bytes the L1 table of a qcow2 file has, by its header.
fn l1_length_told<F: HostFile>(
    alloc: Global,
    path: &str,
    file: &FileStorage<F>,
) -> Result<u64, OpenError>
    ensures told { (bytes : List ℕ) → HasBytes ⟦<FileStorage<F> as Storage>⟧.features
        ⟦<FileStorage<F> as Storage>⟧.bytes bytes file.now
        → IfOk result (λ n. n ≡ l1_length_of bytes) }
    ensures refused { (accepted : Accepted) (bytes : List ℕ)
        → HasBytes ⟦<FileStorage<F> as Storage>⟧.features
        ⟦<FileStorage<F> as Storage>⟧.bytes bytes file.now
        → IfErr result (IsRefused path.now (IsSizeUnknown accepted Of.Qcow2 bytes)) }
{
    let length = length_of(alloc, path, file)?;
    let mut head = [0u8; HEAD_LENGTH];
    read_block(alloc, path, file, &mut head, 0)?;
    match header::read(&head, length) {
        Ok(_) => Ok(l1_length(&head)),
        Err(fault) => Err(OpenError::of_file(alloc, path, Reason::Header(fault))),
    }
}

/// Refuses a file whose disk has that many bytes, if these are more than the limit.
pub(crate) fn refuse_size(
    alloc: Global,
    path: &str,
    size: u64,
    longest: Option<u64>,
) -> Result<(), OpenError>
    ensures within { IfOk result (λ _. IsWithin longest size) }
    ensures refused { IfErr result (IsRefused path.now (IsOverLimit longest size)) }
{
    let Some(most) = longest else {
        return Ok(());
    };
    if size > most {
        return Err(OpenError::of_file(alloc, path, Reason::DiskTooLong { size, most }));
    }
    Ok(())
}

/// How many bytes the disk of a layer's file has, by what the file says of it.
fn size_told<F: HostFile>(
    alloc: Global,
    path: &str,
    file: &FileStorage<F>,
    format: ImageFormat,
    accepted: Accepted,
) -> Result<u64, OpenError>
    ensures told { (bytes : List ℕ) → HasBytes ⟦<FileStorage<F> as Storage>⟧.features
        ⟦<FileStorage<F> as Storage>⟧.bytes bytes file.now
        → IfOk result (λ n. n ≡ size_by accepted format bytes) }
    ensures refused { (bytes : List ℕ) → HasBytes ⟦<FileStorage<F> as Storage>⟧.features
        ⟦<FileStorage<F> as Storage>⟧.bytes bytes file.now
        → IfErr result (IsRefused path.now (IsSizeUnknown accepted format bytes)) }
{
    match format {
        ImageFormat::Raw => length_of(alloc, path, file),
        ImageFormat::Vmdk => described_size(alloc, path, file, accepted),
        ImageFormat::Qcow2 => header_size(alloc, path, file),
    }
}

/// The same of a qcow2 file, by its header.
fn header_size<F: HostFile>(
    alloc: Global,
    path: &str,
    file: &FileStorage<F>,
) -> Result<u64, OpenError>
    ensures told { (bytes : List ℕ) → HasBytes ⟦<FileStorage<F> as Storage>⟧.features
        ⟦<FileStorage<F> as Storage>⟧.bytes bytes file.now
        → IfOk result (λ n. n ≡ disk_size bytes) }
    ensures refused { (accepted : Accepted) (bytes : List ℕ)
        → HasBytes ⟦<FileStorage<F> as Storage>⟧.features
        ⟦<FileStorage<F> as Storage>⟧.bytes bytes file.now
        → IfErr result (IsRefused path.now (IsSizeUnknown accepted Of.Qcow2 bytes)) }
{
    let length = length_of(alloc, path, file)?;
    let mut head = [0u8; HEAD_LENGTH];
    read_block(alloc, path, file, &mut head, 0)?;
    match header::read(&head, length) {
        Ok(header) => Ok(header.disk_size()),
        Err(fault) => Err(OpenError::of_file(alloc, path, Reason::Header(fault))),
    }
}

/// The same of a descriptor.
fn described_size<F: HostFile>(
    alloc: Global,
    path: &str,
    file: &FileStorage<F>,
    accepted: Accepted,
) -> Result<u64, OpenError>
    ensures told { (bytes : List ℕ) → HasBytes ⟦<FileStorage<F> as Storage>⟧.features
        ⟦<FileStorage<F> as Storage>⟧.bytes bytes file.now
        → IfOk result (λ n. n ≡ size_read (reading_of accepted bytes)) }
    ensures refused { (bytes : List ℕ) → HasBytes ⟦<FileStorage<F> as Storage>⟧.features
        ⟦<FileStorage<F> as Storage>⟧.bytes bytes file.now
        → IfErr result (IsRefused path.now (IsSizeUnknown accepted Of.Vmdk bytes)) }
{
    let text = descriptor_text(alloc, path, file)?;
    match descriptor::read(alloc, accepted, &text) {
        Ok(described) => Ok(described.size),
        Err(cause) => Err(OpenError::of_file(alloc, path, Reason::Image(cause))),
    }
}

/// The text of a descriptor. A file that is too long for one is [`Error::InvalidData`], and isn't
/// read.
pub fn descriptor_text<F: HostFile>(
    alloc: Global,
    path: &str,
    file: &FileStorage<F>,
) -> Result<Vec<u8>, OpenError>
    ensures told { (bytes : List ℕ) → HasBytes ⟦<FileStorage<F> as Storage>⟧.features
        ⟦<FileStorage<F> as Storage>⟧.bytes bytes file.now
        → IfOk result (λ text. text.items ≡ bytes) }
    ensures refused { (accepted : Accepted) (bytes : List ℕ)
        → HasBytes ⟦<FileStorage<F> as Storage>⟧.features
        ⟦<FileStorage<F> as Storage>⟧.bytes bytes file.now
        → IfErr result (IsRefused path.now (IsSizeUnknown accepted Of.Vmdk bytes)) }
{
    let count = length_of(alloc, path, file)?;
    if count > LONGEST_TEXT {
        return Err(OpenError::of_file(alloc, path, Reason::Image(Error::InvalidData)));
    }
    let mut text = vec![in alloc; 0u8; count as usize]?;
    match file.read(alloc, &mut text, 0) {
        Ok(()) => Ok(text),
        Err(cause) => Err(unread(alloc, path, file, cause)),
    }
}
