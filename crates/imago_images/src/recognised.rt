// SPDX-License-Identifier: MIT
//! What a file is recognised as by the bytes that it begins or ends with.
ghost use Rattle.std.specs.Prelude.{◌≡◌, ℕ, List, Some, OnOk, IfOk, IfErr, length as count_of};
ghost use Rattle.std.specs.Option.{option_or};
ghost use Rattle.imago_storage.specs.Bytes.{bytes_at};
ghost use Rattle.imago_images.specs.HostBytes.{HasBytes};
ghost use Rattle.imago_images.specs.Refusals.{IsRefused, IsBySystemOr, IsUnread};
ghost use Rattle.imago_formats.specs.Signatures.{told_by_first, told_by_last};
ghost use Rattle.imago_formats.specs.Signatures.{first_block, last_block};
ghost use Rattle.imago_formats.specs.Signatures.{signature_of as signature_by};
ghost use Rattle.imago_formats.specs.Signatures.{other_signature_of as other_by};
ghost use Rattle.imago_formats.specs.Signatures.{has_iso_mark, iso_beside};

use crate::failure::{OpenError, Reason};
use imago_file::file::FileStorage;
use imago_file::host::HostFile;
use imago_formats::signature::{BLOCK, ISO_MARK, ISO_OFFSET, Signature};
use imago_storage::error::Error;
use imago_storage::ext::StorageExt;
use imago_storage::storage::Storage;
use std::alloc::Global;

/// What the file of that path is recognised as: by its first 512 bytes, and only where they tell
/// nothing by its last 512, which are read then. A refusal is that of a read.
pub fn signature_of<F: HostFile>(
    alloc: Global,
    path: &str,
    file: &FileStorage<F>,
) -> Result<Option<Signature>, OpenError>
    ensures told { (bytes : List ℕ) → HasBytes ⟦<FileStorage<F> as Storage>⟧.features
        ⟦<FileStorage<F> as Storage>⟧.bytes bytes file.now
        → IfOk result (λ found. found ≡ signature_by bytes) }
    ensures refused { IfErr result (IsRefused path.now IsUnread) }
{
    match first_signature(alloc, path, file, None)? {
        Some(found) => Ok(Some(found)),
        None => last_signature(alloc, path, file, None),
    }
}

/// What the file of that path, which is recognised as that, is recognised as besides, as another
/// format: by its first 512 bytes, or else its last 512, or else the mark of an ISO 9660 image,
/// which counts in qcow2 and VMDK files alone. A refusal is that of a read.
pub fn other_signature_of<F: HostFile>(
    alloc: Global,
    path: &str,
    file: &FileStorage<F>,
    found: Signature,
) -> Result<Option<Signature>, OpenError>
    ensures told { (bytes : List ℕ) → HasBytes ⟦<FileStorage<F> as Storage>⟧.features
        ⟦<FileStorage<F> as Storage>⟧.bytes bytes file.now
        → IfOk result (λ other. other ≡ other_by found bytes) }
    ensures refused { IfErr result (IsRefused path.now IsUnread) }
{
    match first_signature(alloc, path, file, Some(found))? {
        Some(other) => Ok(Some(other)),
        None => signature_behind(alloc, path, file, found),
    }
}

/// The same by what stands behind the first block.
fn signature_behind<F: HostFile>(
    alloc: Global,
    path: &str,
    file: &FileStorage<F>,
    found: Signature,
) -> Result<Option<Signature>, OpenError>
    ensures told { (bytes : List ℕ) → HasBytes ⟦<FileStorage<F> as Storage>⟧.features
        ⟦<FileStorage<F> as Storage>⟧.bytes bytes file.now → IfOk result
        (λ other. other ≡ option_or (told_by_last (Some found) (last_block bytes))
        (iso_beside found bytes)) }
    ensures refused { IfErr result (IsRefused path.now IsUnread) }
{
    match last_signature(alloc, path, file, Some(found))? {
        Some(other) => Ok(Some(other)),
        None => iso_signature(alloc, path, file, found),
    }
}

/// The signature of an ISO 9660 image, where a file that is recognised as that has its mark too,
/// and mustn't.
fn iso_signature<F: HostFile>(
    alloc: Global,
    path: &str,
    file: &FileStorage<F>,
    found: Signature,
) -> Result<Option<Signature>, OpenError>
    ensures told { (bytes : List ℕ) → HasBytes ⟦<FileStorage<F> as Storage>⟧.features
        ⟦<FileStorage<F> as Storage>⟧.bytes bytes file.now
        → IfOk result (λ other. other ≡ iso_beside found bytes) }
    ensures refused { IfErr result (IsRefused path.now IsUnread) }
{
    if found.excludes_iso() && is_iso(alloc, path, file)? {
        return Ok(Some(Signature::Iso));
    }
    Ok(None)
}

/// Whether a file has the mark of an ISO 9660 image.
fn is_iso<F: HostFile>(alloc: Global, path: &str, file: &FileStorage<F>) -> Result<bool, OpenError>
    ensures told { (bytes : List ℕ) → HasBytes ⟦<FileStorage<F> as Storage>⟧.features
        ⟦<FileStorage<F> as Storage>⟧.bytes bytes file.now
        → IfOk result (λ is. is ≡ has_iso_mark bytes) }
    ensures refused { IfErr result (IsRefused path.now IsUnread) }
{
    let mut mark = [0u8; 5];
    read_block(alloc, path, file, &mut mark, ISO_OFFSET)?;
    Ok(mark.as_slice() == ISO_MARK)
}

/// What a file is recognised as by its first block: besides the format that one signature is of, if
/// one is given.
fn first_signature<F: HostFile>(
    alloc: Global,
    path: &str,
    file: &FileStorage<F>,
    besides: Option<Signature>,
) -> Result<Option<Signature>, OpenError>
    ensures told { (bytes : List ℕ) → HasBytes ⟦<FileStorage<F> as Storage>⟧.features
        ⟦<FileStorage<F> as Storage>⟧.bytes bytes file.now
        → IfOk result (λ found. found ≡ told_by_first besides (first_block bytes)) }
    ensures refused { IfErr result (IsRefused path.now IsUnread) }
{
    let length = length_of(alloc, path, file)?;
    let mut head = [0u8; BLOCK];
    let block = &mut head[..length.min(BLOCK as u64) as usize];
    read_block(alloc, path, file, block, 0)?;
    Ok(Signature::of_first(block, besides))
}

/// The same by its last block, if it is long enough to have one.
fn last_signature<F: HostFile>(
    alloc: Global,
    path: &str,
    file: &FileStorage<F>,
    besides: Option<Signature>,
) -> Result<Option<Signature>, OpenError>
    ensures told { (bytes : List ℕ) → HasBytes ⟦<FileStorage<F> as Storage>⟧.features
        ⟦<FileStorage<F> as Storage>⟧.bytes bytes file.now
        → IfOk result (λ found. found ≡ told_by_last besides (last_block bytes)) }
    ensures refused { IfErr result (IsRefused path.now IsUnread) }
{
    let length = length_of(alloc, path, file)?;
    if length < BLOCK as u64 {
        return Ok(None);
    }
    let mut tail = [0u8; BLOCK];
    read_block(alloc, path, file, &mut tail, length - BLOCK as u64)?;
    Ok(Signature::of_last(&tail, besides))
}

/// How long a file is, in bytes.
pub fn length_of<F: HostFile>(
    alloc: Global,
    path: &str,
    file: &FileStorage<F>,
) -> Result<u64, OpenError>
    ensures told { (bytes : List ℕ) → HasBytes ⟦<FileStorage<F> as Storage>⟧.features
        ⟦<FileStorage<F> as Storage>⟧.bytes bytes file.now
        → IfOk result (λ n. n ≡ count_of bytes) }
    ensures refused { IfErr result (IsRefused path.now IsUnread) }
{
    OpenError::or_image(alloc, path, file.size())
}

/// Fills a buffer with the bytes of a file from the offset on.
pub(crate) fn read_block<F: HostFile>(
    alloc: Global,
    path: &str,
    file: &FileStorage<F>,
    buf: &mut [u8],
    offset: u64,
) -> Result<(), OpenError>
    ensures told { (bytes : List ℕ) → HasBytes ⟦<FileStorage<F> as Storage>⟧.features
        ⟦<FileStorage<F> as Storage>⟧.bytes bytes file.now
        → OnOk result (buf.new ≡ bytes_at bytes «offset» (count_of buf.old)) }
    ensures refused { IfErr result (IsRefused path.now IsUnread) }
{
    match file.read(alloc, buf, offset) {
        Ok(()) => Ok(()),
        Err(cause) => Err(unread(alloc, path, file, cause)),
    }
}

/// Why a file wasn't read: by the system's own answer, where the storage kept one.
pub(crate) fn unread<F: HostFile>(
    alloc: Global,
    path: &str,
    file: &FileStorage<F>,
    cause: Error,
) -> OpenError
    ensures { IsRefused path.now (IsBySystemOr cause) result }
{
    match file.last_error() {
        Some(answer) => OpenError::of_file(alloc, path, Reason::System(answer)),
        None => OpenError::of_file(alloc, path, Reason::Image(cause)),
    }
}
