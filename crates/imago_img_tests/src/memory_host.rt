// SPDX-License-Identifier: MIT
//! A host whose files are in memory: what it holds. What it does stands in `calls`, for tests alone;
//! the definitions of its files, in `specs/`, name these types.
ghost use Rattle.std.specs.Prelude.{◌≡◌, [], Some, true, false, IfOk, MatchResult};

use crate::asked::Asked;
use std::alloc::Global;
use std::cell::Cell;
use std::io::{self, ErrorKind};

#[cfg(test)]
pub mod calls;

/// What a file in memory is.
#[derive(Clone, Copy, Debug, PartialEq, Eq)]
pub enum Nature {
    /// A regular file.
    Plain,
    /// A regular file that can't be read.
    Secret,
    /// A regular file whose byte at that offset can't be read.
    Torn(u64),
    /// A block device.
    Device,
    /// A folder.
    Folder,
    /// A link to a file with that path.
    Link(&'static str),
    /// A link that can't be followed.
    Barred,
}

/// A file in memory.
#[derive(Drop)]
struct MemoryFile {
    path: String,
    bytes: Vec<u8>,
    nature: Nature,
    /// Its number.
    inode: u64,
}

/// Files in memory, in the folder `/images`.
#[derive(Drop)]
pub struct MemoryHost {
    alloc: Global,
    files: Vec<MemoryFile>,
    /// How many times something may be put into a new file.
    appends: u64,
    /// Whether a new file that is finished gets its path.
    finishes: bool,
    /// How many new files are neither finished nor abandoned.
    unfinished: u64,
    /// The paths of files that QEMU holds.
    held: Vec<String>,
    /// How much of a copy was shown to be done.
    shown: Cell<u64>,
    asked: Asked,
}

/// A new file in memory.
#[derive(Drop)]
pub struct MemoryTarget {
    /// The path that it is to have, and how many bytes.
    path: String,
    size: u64,
    bytes: Vec<u8>,
    /// Whether a file had that path when it was begun.
    replaces: bool,
    /// How many times something may still be put in.
    appends: u64,
}

/// A file in memory is never written over.
#[derive(Drop)]
pub struct MemoryExisting;

impl MemoryHost {
    ghost use Rattle.imago_img_tests.specs.MemoryFiles.{file_bytes, first_of, has_file};

    /// The first file of that path.
    fn file(&self, path: &str) -> io::Result<&MemoryFile>
        ensures bytes { MatchResult result
            (λ f. f.now.bytes.items ≡ file_bytes self.now.files.items path.now)
            (λ _. file_bytes self.now.files.items path.now ≡ []) }
        ensures first { IfOk result
            (λ f. first_of self.now.files.items path.now ≡ Some f.now) }
        ensures there { MatchResult result
            (λ _. has_file self.now.files.items path.now ≡ true)
            (λ _. has_file self.now.files.items path.now ≡ false) }
    {
        for file in &self.files {
            if file.path.as_str() == path {
                return Ok(file);
            }
        }
        Err(io::Error::from(ErrorKind::NotFound))
    }
}
