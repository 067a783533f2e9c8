// SPDX-License-Identifier: MIT
//! What is asked of the files of an image's layers.
use crate::named::{NamedFile, is_same_file};
use imago_access::access::FormatAccess;
use imago_any_driver::any::AnyDriver;
use imago_drivers::drivers::FormatDriverInstance;
use imago_images::files::FileStatus;
use imago_qcow2::qcow2::Qcow2;
use std::io;

/// A driver whose storages are such files.
///
/// Functions that ask it are over any such driver, and not over the one that images have: a function
/// that calls a generic one at the latter takes ten seconds to be proved.
pub(crate) trait FileDriver: FormatDriverInstance {
    /// The path of the file that the storage of that number is, and what the file was when it was
    /// looked at.
    fn file(&self, storage: usize) -> Option<(&str, FileStatus)>;

    /// What the host answered to the last call that failed on that storage's file, if one did.
    fn refusal(&self, storage: usize) -> Option<io::Error>;

    /// The driver of a qcow2 image, if it is one.
    fn qcow2(&self) -> Option<&Qcow2<Self::Storage>>;
}

impl<S: NamedFile> FileDriver for AnyDriver<S> {
    fn file(&self, storage: usize) -> Option<(&str, FileStatus)> {
        let file = self.storage(storage)?;
        Some((file.path(), file.status()))
    }

    fn refusal(&self, storage: usize) -> Option<io::Error> {
        self.storage(storage)?.refusal()
    }

    fn qcow2(&self) -> Option<&Qcow2<S>> {
        match self {
            AnyDriver::Qcow2(qcow2) => Some(qcow2),
            _ => None,
        }
    }
}

/// The layer of that depth, if the chain goes as far: 0 is the top one.
pub(crate) fn layer_at<D: FormatDriverInstance>(
    image: &FormatAccess<D>,
    depth: usize,
) -> Option<&FormatAccess<D>> {
    let mut layer = image;
    let mut done: usize = 0;
    while done < depth {
        match layer.backing() {
            Some(below) => layer = below,
            None => return None,
        }
        done += 1;
    }
    Some(layer)
}

/// Whether a file is one of the top layer of an image.
fn layer_has<D: FileDriver>(image: &FormatAccess<D>, file: FileStatus) -> bool {
    for index in 0..image.inner().storage_count() {
        if let Some((_, status)) = image.inner().file(index) {
            if is_same_file(status, file) {
                return true;
            }
        }
    }
    false
}

/// Whether a file is one of an image.
pub(crate) fn chain_has<D: FileDriver>(image: &FormatAccess<D>, file: FileStatus) -> bool {
    let mut layer = Some(image);
    while let Some(here) = layer {
        if layer_has(here, file) {
            return true;
        }
        layer = here.backing();
    }
    false
}

/// The first file of the top layer of an image that wasn't read, and what the host answered.
fn refusal_of<D: FileDriver>(image: &FormatAccess<D>) -> Option<(&str, io::Error)> {
    for index in 0..image.inner().storage_count() {
        if let Some(answer) = image.inner().refusal(index) {
            let (path, _) = image.inner().file(index)?;
            return Some((path, answer));
        }
    }
    None
}

/// The first file of an image that wasn't read, and what the host answered.
pub(crate) fn refusal_in<D: FileDriver>(image: &FormatAccess<D>) -> Option<(&str, io::Error)> {
    let mut layer = Some(image);
    while let Some(here) = layer {
        if let Some(found) = refusal_of(here) {
            return Some(found);
        }
        layer = here.backing();
    }
    None
}
