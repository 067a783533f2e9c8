// SPDX-License-Identifier: MIT
//! A host of files in memory.
ghost use Rattle.imago_file.specs.Opening.{any_opening};

use imago_file::host::MemoryFile;
use imago_file::opening::HostFiles;
use std::alloc::Global;
use std::io::{self, ErrorKind};

/// A host whose files all have the same bytes, but for some names that it refuses: those of
/// [`REFUSED`]. It counts what it is asked.
#[derive(Drop)]
pub struct NamedFiles {
    alloc: Global,
    asked: u64,
}

/// The names that are refused, each for its cause.
pub static REFUSED: [(&str, ErrorKind); 11] = [
    ("missing", ErrorKind::NotFound),
    ("file/below", ErrorKind::NotADirectory),
    ("secret", ErrorKind::PermissionDenied),
    ("mounted/read-only", ErrorKind::ReadOnlyFilesystem),
    ("taken", ErrorKind::AlreadyExists),
    ("pipe", ErrorKind::InvalidInput),
    ("overlong", ErrorKind::InvalidFilename),
    ("folder", ErrorKind::IsADirectory),
    ("remote", ErrorKind::Unsupported),
    ("large", ErrorKind::OutOfMemory),
    ("broken", ErrorKind::TimedOut),
];

impl NamedFiles {
    /// No question yet.
    pub fn new(alloc: Global) -> Self {
        NamedFiles { alloc, asked: 0 }
    }

    /// How often it was asked for a file.
    pub fn asked(&self) -> u64 {
        self.asked
    }

    /// The file of that name.
    fn file(&mut self, path: &str, bytes: &[u8]) -> io::Result<MemoryFile> {
        self.asked = self.asked.saturating_add(1);
        for (name, kind) in &REFUSED {
            if *name == path {
                return Err(io::Error::from(*kind));
            }
        }
        let mut copy = Vec::new(self.alloc);
        copy.extend_from_slice(bytes)?;
        Ok(MemoryFile::new(copy))
    }
}

impl HostFiles for NamedFiles {
    type File = MemoryFile;

    ghost opened = { any_opening };

    ghost created = { any_opening };

    fn open_path(&mut self, path: &str, _writable: bool) -> io::Result<MemoryFile> {
        self.file(path, b"stored")
    }

    fn create_path(&mut self, path: &str, _replace: bool) -> io::Result<MemoryFile> {
        let _ = self.file(path, b"")?;
        Ok(MemoryFile::new(Vec::new(self.alloc)))
    }
}
