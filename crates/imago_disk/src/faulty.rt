// SPDX-License-Identifier: MIT
//! The entries of qcow2 files by which images aren't read: where they stand, and what is wrong with
//! them. They are looked for once an image was refused, so only then does this cost time.

use crate::layers::FileDriver;
use crate::streams::qcow2_in;
use imago_access::access::FormatAccess;
use imago_drivers::drivers::FormatDriverInstance;
use imago_images::file::look_at;
use imago_images::files::Files;
use imago_qcow2_check::check::{Limits, check};
use imago_qcow2_check::fault::Fault;
use imago_storage::storage::Storage;
use std::alloc::Global;

/// What a look for them may take: 16 MiB of memory serve a file of 128 GiB in clusters of 64 KiB.
const LIMITS: Limits = Limits {
    memory: 16 << 20,
    faults: 64,
};

/// The first entry of a qcow2 file that is invalid, if a check finds one.
fn invalid_entry<S: Storage>(alloc: Global, file: &S) -> Option<Fault> {
    let report = check(file, alloc, LIMITS).ok()?;
    report.faults.iter().copied().find(is_invalid_entry)
}

/// Whether a fault is that of an entry which is invalid.
fn is_invalid_entry(fault: &Fault) -> bool {
    matches!(fault, Fault::InvalidEntry { .. })
}

/// The first invalid entry of the file of that path.
pub fn invalid_entry_at<H: Files>(host: &H, path: &str) -> Option<Fault> {
    let file = look_at(host, path).ok()?;
    invalid_entry(host.alloc(), &file)
}

/// The first file of an image that has an invalid entry, and its first one.
pub(crate) fn invalid_entry_in<D: FileDriver>(
    alloc: Global,
    image: &FormatAccess<D>,
) -> Option<(&str, Fault)> {
    let mut layer = Some(image);
    while let Some(here) = layer {
        if let (Some((path, _)), Some(file)) = (qcow2_in(here), here.inner().storage(0)) {
            if let Some(fault) = invalid_entry(alloc, file) {
                return Some((path, fault));
            }
        }
        layer = here.backing();
    }
    None
}
