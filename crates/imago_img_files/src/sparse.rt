// SPDX-License-Identifier: MIT
//! The types of VMDK images whose extents are sparse files, by the text of a descriptor.

use crate::looked::descriptor_text;
use crate::vmdk_info::{inside_quotes, setting_in};
use imago_images::file::look_at;
use imago_images::files::Files;
use thiserror::Error;

/// A type of VMDK images whose extents are sparse files. Its text is the one of a descriptor.
#[derive(Clone, Copy, Debug, PartialEq, Eq, Error)]
pub enum SparseType {
    /// Files of at most 2 GB, as of VMware Workstation.
    #[error("twoGbMaxExtentSparse")]
    TwoGbMaxExtentSparse,
    /// One file.
    #[error("monolithicSparse")]
    MonolithicSparse,
    /// One compressed file.
    #[error("streamOptimized")]
    StreamOptimized,
    /// A layer of ESX.
    #[error("vmfsSparse")]
    VmfsSparse,
    /// A layer of later versions of ESX.
    #[error("seSparse")]
    SeSparse,
}

/// The type of the image that the file of a path describes, if its extents are sparse files. The
/// file is read again. A text that can't be read says none.
pub fn sparse_type_at<H: Files>(host: &H, path: &str) -> Option<SparseType> {
    let file = look_at(host, path).ok()?;
    let text = descriptor_text(host.alloc(), path, &file).ok()?;
    sparse_type(&text)
}

/// The type of the image that a text describes, if its extents are sparse files.
pub fn sparse_type(text: &[u8]) -> Option<SparseType> {
    for line in text.split(|byte| *byte == b'\n') {
        if let Some(found) = type_in(line) {
            return Some(found);
        }
    }
    None
}

/// The type that a line says, if it is one of these.
fn type_in(line: &[u8]) -> Option<SparseType> {
    match setting_in(line)? {
        ("createType", value) => type_named(inside_quotes(value)),
        _ => None,
    }
}

/// The type of that name.
fn type_named(name: &str) -> Option<SparseType> {
    match name {
        "twoGbMaxExtentSparse" => Some(SparseType::TwoGbMaxExtentSparse),
        "monolithicSparse" => Some(SparseType::MonolithicSparse),
        "streamOptimized" => Some(SparseType::StreamOptimized),
        "vmfsSparse" => Some(SparseType::VmfsSparse),
        "seSparse" => Some(SparseType::SeSparse),
        _ => None,
    }
}
