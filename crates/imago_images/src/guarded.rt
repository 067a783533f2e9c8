// SPDX-License-Identifier: MIT
//! Files of which only some may be asked for.
ghost use Rattle.std.specs.Prelude.{◌≡◌, ℕ, List, Option, None, Some, Bool, true};
ghost use Rattle.std.specs.Prelude.{OnOk, OnErr, IfOk, IfSome, length};
ghost use Rattle.std.specs.String.{string_bytes};
ghost use Rattle.imago_storage.specs.Bytes.{bytes_at};
ghost use Rattle.imago_images.specs.HostBytes.{SaysAlike};

use crate::files::{FileStatus, Files, WritableFiles};
use imago_file::host::HostFile;
use std::alloc::Global;
use std::io;

/// Files that are found and read by their paths, of which only some may be asked for.
///
/// Its methods are those of [`Files`], and each of them requires that the paths which it is given
/// may be looked at, or read. Which paths may be is a ghost member, and so any set of paths, of
/// which a function that is generic over this trait knows no more than its own `requires` says. So
/// where that names one path, the function is proved to name no other one, in whatever it asks of
/// whichever host, and whatever comes of it.
///
/// All [`Files`] are such files, of which each may be read. [`Confined`](crate::confined::Confined)
/// makes [`Files`] of such files again.
pub trait GuardedFiles {
    ghost use Rattle.imago_images.specs.declared.files.FileStatus.{FileStatus};

    /// As [`Files::File`].
    type File: HostFile;

    /// The bytes of each file, by its path, where an implementation says them.
    ghost contents: { Self → Option (List ℕ → List ℕ) };

    /// What each file is, by its path, where an implementation says it.
    ghost statuses: { Self → Option (List ℕ → FileStatus) };

    /// The path that each file has without links and relative parts, by its path, where an
    /// implementation says it.
    ghost real_paths: { Self → Option (List ℕ → List ℕ) };

    /// Whether what a path leads to may be looked at.
    ghost may_look: { List ℕ → Bool };

    /// Whether the file of a path may be opened and read.
    ghost may_read: { List ℕ → Bool };

    /// Whether a new file may get a path, or the one that is there may be written to. No method
    /// here does either.
    ghost may_make: { List ℕ → Bool };

    /// As [`Files::alloc`].
    fn alloc(&self) -> Global;

    /// As [`Files::status`], of a path that may be looked at.
    fn status(&self, path: &str) -> io::Result<FileStatus>
        requires asked { may_look path.now ≡ true }
        ensures length { IfOk result
            (λ s. IfSome (contents self.now) (λ files. s.length ≡ length (files path.now))) }
        ensures told { IfOk result
            (λ s. IfSome (statuses self.now) (λ status_of. s ≡ status_of path.now)) };

    /// As [`Files::read_at`], of a path that may be read.
    fn read_at(&self, path: &str, buf: &mut [u8], offset: u64) -> io::Result<()>
        requires asked { may_read path.now ≡ true }
        ensures { OnOk result
            (IfSome (contents self.now)
            (λ files. buf.new ≡ bytes_at (files path.now) «offset» (length buf.new))) };

    /// As [`Files::is_same_file`], of paths that may be looked at.
    fn is_same_file(&self, one: &str, other: &str) -> io::Result<bool>
        requires one_asked { may_look one.now ≡ true }
        requires other_asked { may_look other.now ≡ true }
        ensures { IfOk result (λ same. same ≡ true
            → IfSome (contents self.now) (λ files. files one.now ≡ files other.now)) };

    /// As [`Files::real_path`], of a path that may be looked at.
    fn real_path(&self, path: &str) -> io::Result<String>
        requires asked { may_look path.now ≡ true }
        ensures { IfOk result
            (λ p. IfSome (real_paths self.now) (λ real. string_bytes p ≡ real path.now)) };
}

/// Each path may be looked at and read.
impl<H: Files> GuardedFiles for H {
    type File = H::File;

    ghost contents = { λ h. H.contents h };

    ghost statuses = { λ h. H.statuses h };

    ghost real_paths = { λ h. H.real_paths h };

    ghost may_look = { λ _. true };

    ghost may_read = { λ _. true };

    ghost may_make = { λ _. true };

    fn alloc(&self) -> Global {
        Files::alloc(self)
    }

    fn status(&self, path: &str) -> io::Result<FileStatus> {
        Files::status(self, path)
    }

    fn read_at(&self, path: &str, buf: &mut [u8], offset: u64) -> io::Result<()> {
        Files::read_at(self, path, buf, offset)
    }

    fn is_same_file(&self, one: &str, other: &str) -> io::Result<bool> {
        Files::is_same_file(self, one, other)
    }

    fn real_path(&self, path: &str) -> io::Result<String> {
        Files::real_path(self, path)
    }
}

/// Files of which only some may be asked for, and only some may be opened for writing.
pub trait GuardedWritableFiles: GuardedFiles {
    /// As [`WritableFiles::open_to_write`], of a path that may be read and written to.
    fn open_to_write(&mut self, path: &str) -> io::Result<Self::File>
        requires read { Self.may_read path.now ≡ true }
        requires made { Self.may_make path.now ≡ true }
        ensures told { IfOk result (λ f. IfSome (Self.contents self.old)
            (λ files. Self.File.contents f ≡ Some (files path.now))) }
        ensures others { IfSome (Self.contents self.old)
            (λ files. SaysAlike (Self.contents self.new) files path.now) }
        ensures refused { OnErr result (Self.contents self.new ≡ Self.contents self.old) }
        ensures statuses { Self.statuses self.new ≡ Self.statuses self.old }
        ensures real_paths { Self.real_paths self.new ≡ Self.real_paths self.old };
}

/// Each path may be opened for writing.
impl<H: WritableFiles> GuardedWritableFiles for H {
    fn open_to_write(&mut self, path: &str) -> io::Result<Self::File> {
        WritableFiles::open_to_write(self, path)
    }
}
