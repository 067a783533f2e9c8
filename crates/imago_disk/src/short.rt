// SPDX-License-Identifier: MIT
//! Files of an image that end before the bytes which its disk has there.

use crate::layers::FileDriver;
use imago_access::access::FormatAccess;
use imago_copy::runs::{Kind, Run};

/// How many files are told at most.
const MOST: usize = 10;

/// A file that ends too early. What lacks reads as 0.
#[derive(Clone, Copy)]
pub struct ShortFile<'a> {
    /// Its path.
    pub path: &'a str,
    /// How many bytes it has.
    pub length: u64,
    /// Where the last byte ends that the image has there.
    pub end: u64,
}

/// Files that end too early: the first ones that were found.
#[derive(Drop)]
pub struct ShortFiles<'a> {
    files: [Option<ShortFile<'a>>; MOST],
    more: bool,
}

/// How many bytes may lack behind a file's end. The last cluster of a qcow2 file may be cut.
fn tolerance<D: FileDriver>(driver: &D) -> u64 {
    match driver.qcow2() {
        Some(qcow2) => qcow2.header().cluster_size().saturating_sub(1),
        None => 0,
    }
}

/// The file of a layer in which a run of it stands, if the file ends before the run does. What is
/// told of the file's length is what it was when it was looked at.
pub(crate) fn short_file<D: FileDriver>(
    layer: &FormatAccess<D>,
    run: Run,
) -> Option<ShortFile<'_>> {
    let Kind::Stored {
        storage,
        offset,
        ..
    } = run.kind
    else {
        return None;
    };
    let (path, status) = layer.inner().file(storage)?;
    let length = status.length;
    let end = offset.saturating_add(run.count);
    if end.saturating_sub(length) <= tolerance(layer.inner()) {
        return None;
    }
    Some(ShortFile { path, length, end })
}

impl<'a> ShortFiles<'a> {
    /// None.
    pub(crate) fn new() -> Self {
        ShortFiles {
            files: [None; MOST],
            more: false,
        }
    }

    /// Adds a file, or where its last byte ends, if it is among them.
    pub(crate) fn add(&mut self, found: ShortFile<'a>) {
        for place in &mut self.files {
            match place {
                Some(file) if file.path == found.path => {
                    file.end = file.end.max(found.end);
                    return;
                }
                Some(_) => {}
                None => {
                    *place = Some(found);
                    return;
                }
            }
        }
        self.more = true;
    }

    /// The first ten of them; behind the last one stands `None`.
    pub fn first(&self) -> &[Option<ShortFile<'a>>] {
        &self.files
    }

    /// Whether there are others.
    pub fn has_more(&self) -> bool {
        self.more
    }
}
