// SPDX-License-Identifier: MIT
//! Storages that are files which were reached by their paths.
ghost use Rattle.std.specs.Prelude.{◌≡◌};
ghost use Rattle.imago_images.specs.Way.{identity};
ghost use Rattle.imago_disk.specs.Files.{is_one_file};

use imago_images::file::PathStorage;
use imago_images::files::{FileStatus, Files};
use imago_storage::storage::Storage;
use std::io;

/// Whether two are one file, by their devices and numbers.
pub fn is_same_file(one: FileStatus, other: FileStatus) -> bool
    ensures { result ≡ is_one_file (identity one) (identity other) }
{
    one.device == other.device && one.inode == other.inode
}

/// A storage that is a file which was reached by its path.
pub trait NamedFile: Storage {
    /// The path.
    fn path(&self) -> &str;

    /// What the file was when it was looked at.
    fn status(&self) -> FileStatus;

    /// What the host answered to the last call on the file that failed, if one did. It is told once.
    fn refusal(&self) -> Option<io::Error>;
}

impl<'a, H: Files> NamedFile for PathStorage<'a, H> {
    fn path(&self) -> &str {
        self.file().path()
    }

    fn status(&self) -> FileStatus {
        self.file().status()
    }

    fn refusal(&self) -> Option<io::Error> {
        self.last_error()
    }
}
