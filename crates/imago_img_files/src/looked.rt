// SPDX-License-Identifier: MIT
//! What is read of a file that was looked at: its first byte, how long its disk is, or the text of a
//! descriptor.

use imago_file::file::FileStorage;
use imago_file::host::HostFile;
use imago_images::failure::{OpenError, Reason};
use imago_images::format::ImageFormat;
use imago_images::layer::told_by_host;
pub use imago_images::longest::descriptor_text;
use imago_images::longest::refuse_longer;
use imago_images::opening::Opening;
use imago_storage::error::Error;
use imago_storage::ext::StorageExt;
use std::alloc::Global;

/// Tries whether a file can be read, by its first byte.
pub fn try_file<F: HostFile>(
    alloc: Global,
    path: &str,
    file: &FileStorage<F>,
) -> Result<(), OpenError> {
    let read = file.read(alloc, &mut [0u8; 1], 0);
    told_by_host(alloc, path, file, OpenError::or_image(alloc, path, read))
}

/// Why a file isn't read: by the host's own answer, where it gave one.
pub fn unread<F: HostFile>(
    alloc: Global,
    path: &str,
    file: &FileStorage<F>,
    cause: Error,
) -> OpenError {
    match file.last_error() {
        Some(answer) => OpenError::of_file(alloc, path, Reason::System(answer)),
        None => OpenError::of_file(alloc, path, Reason::Image(cause)),
    }
}

/// Refuses a file of that format whose disk is longer than the opening allows. A fault by which its
/// length isn't told is passed over: whoever looks for faults tells it.
pub fn refuse_long_disk<F: HostFile>(
    alloc: Global,
    path: &str,
    file: &FileStorage<F>,
    format: ImageFormat,
    how: Opening,
) -> Result<(), OpenError> {
    let Err(refused) = refuse_longer(alloc, path, file, format, how) else {
        return Ok(());
    };
    if is_too_long(&refused) {
        return Err(refused);
    }
    Ok(())
}

/// Whether a disk is longer than the opening allows.
fn is_too_long(cause: &OpenError) -> bool {
    matches!(
        cause,
        OpenError::OfFile {
            reason: Reason::DiskTooLong { .. },
            ..
        }
    )
}
