// SPDX-License-Identifier: MIT
//! Whether QEMU takes a file from a stranger for the format that it has here.
ghost use Rattle.std.specs.Prelude.{◌≡◌, ℕ, List, Some, Decides, IfOk};
ghost use Rattle.imago_formats.specs.Probes.{taken_by_qemu};
ghost use Rattle.imago_images.specs.HostBytes.{HasBytes};
ghost use Rattle.imago_img_checks.specs.Vetted.{IsSeenAs, probed_of as probed_by};

use crate::finding::{Fault, Told};
use imago_file::file::FileStorage;
use imago_file::host::HostFile;
use imago_formats::probe::{HEAD, Probed, qemu_takes_for};
use imago_images::format::ImageFormat;
use imago_images::recognised::length_of;
use imago_img_files::failure::Failure;
use imago_img_files::looked::unread;
use imago_storage::ext::StorageExt;
use imago_storage::storage::Storage;
use std::alloc::Global;

/// Whether QEMU takes the file of that path for that format, if it isn't told one. Another format
/// is put behind the findings.
pub fn vet_seen<F: HostFile>(
    alloc: Global,
    path: &str,
    file: &FileStorage<F>,
    format: ImageFormat,
    told: &mut Told,
) -> Result<bool, Failure>
    ensures { (bytes : List ℕ) → HasBytes ⟦<FileStorage<F> as Storage>⟧.features
        ⟦<FileStorage<F> as Storage>⟧.bytes bytes file.now
        → IfOk result (λ same. Decides same (IsSeenAs path.now bytes format)) }
{
    let seen = seen_by_qemu(alloc, path, file)?;
    if is_seen_as(seen, format) {
        return Ok(true);
    }
    told.findings.add(Fault::Seen(seen), None)?;
    Ok(false)
}

/// The format for which QEMU takes a file, by its first bytes and its path.
fn seen_by_qemu<F: HostFile>(
    alloc: Global,
    path: &str,
    file: &FileStorage<F>,
) -> Result<Option<Probed>, Failure>
    ensures { (bytes : List ℕ) → HasBytes ⟦<FileStorage<F> as Storage>⟧.features
        ⟦<FileStorage<F> as Storage>⟧.bytes bytes file.now
        → IfOk result (λ seen. seen ≡ taken_by_qemu path.now bytes) }
{
    let length = length_of(alloc, path, file)?;
    let mut head = [0u8; HEAD];
    let block = &mut head[..length.min(HEAD as u64) as usize];
    match file.read(alloc, block, 0) {
        Ok(()) => Ok(qemu_takes_for(path, block)),
        Err(cause) => Err(Failure::from(unread(alloc, path, file, cause))),
    }
}

/// Whether that is what QEMU takes files of a format for.
fn is_seen_as(seen: Option<Probed>, format: ImageFormat) -> bool
    ensures { Decides result (seen ≡ Some (probed_by format)) }
{
    seen == Some(probed_of(format))
}

/// QEMU's own name of a format.
fn probed_of(format: ImageFormat) -> Probed
    ensures { result ≡ probed_by format }
{
    match format {
        ImageFormat::Raw => Probed::Raw,
        ImageFormat::Vmdk => Probed::Vmdk,
        ImageFormat::Qcow2 => Probed::Qcow2,
    }
}
