// SPDX-License-Identifier: MIT
//! A host with two files in memory, an image and a file that it is written into: what it holds. All
//! that it does stands in `calls`, for tests alone.

use std::alloc::Global;

#[cfg(test)]
pub mod calls;

/// Two files in memory. None is made.
#[derive(Drop)]
pub struct PairHost {
    alloc: Global,
    image_path: String,
    image: Vec<u8>,
    out_path: String,
    out: Vec<u8>,
    /// How many times something may be put into a file.
    appends: u64,
    /// Whether QEMU holds both files.
    held: bool,
}

/// A file that is written over.
#[derive(Drop)]
pub struct PairTarget {
    path: String,
    /// How many bytes it has.
    size: u64,
    /// Those that were put in.
    bytes: Vec<u8>,
    /// How many times something may still be put in.
    appends: u64,
}
