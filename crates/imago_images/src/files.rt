// SPDX-License-Identifier: MIT
//! Files that are found and read by their paths.
ghost use Rattle.std.specs.Prelude.{◌≡◌, ℕ, List, Option, None, Some, true};
ghost use Rattle.std.specs.Prelude.{OnOk, OnErr, IfOk, IfSome, length};
ghost use Rattle.std.specs.String.{string_bytes};
ghost use Rattle.imago_storage.specs.Bytes.{bytes_at};
ghost use Rattle.imago_images.specs.HostBytes.{SaysAlike};

use imago_file::host::HostFile;
use std::alloc::Global;
use std::io;

/// What a path leads to.
#[derive(Clone, Copy, PartialEq, Eq)]
pub enum FileKind {
    /// A regular file.
    Regular,
    /// A block device.
    BlockDevice,
    /// What has no bytes at offsets: a folder, a pipe, a socket, a terminal.
    Other,
}

/// What a file is, beside its bytes.
#[derive(Clone, Copy)]
pub struct FileStatus {
    /// What it is.
    pub kind: FileKind,
    /// How many bytes it has.
    pub length: u64,
    /// The device that it stands on.
    pub device: u64,
    /// Its number there: files with the same device and number are one.
    pub inode: u64,
}

/// Files that are found and read by their paths. This is all that opening an image and reading it
/// asks of a host, and nothing that can be written to comes of it: that is a right of its own,
/// [`WritableFiles`].
pub trait Files {
    ghost use Rattle.imago_images.specs.declared.files.FileStatus.{FileStatus};

    /// A file that is open for reading and for writing. Nothing here opens one.
    type File: HostFile;

    /// The bytes of each file, by its path, where an implementation says them. No contract says
    /// what the system's files hold.
    ghost contents: { Self → Option (List ℕ → List ℕ) };

    /// What each file is, by its path, where an implementation says it.
    ghost statuses: { Self → Option (List ℕ → FileStatus) } = { λ _. None };

    /// The path that each file has without links and relative parts, by its path, where an
    /// implementation says it.
    ghost real_paths: { Self → Option (List ℕ → List ℕ) } = { λ _. None };

    /// Where an image takes its memory.
    fn alloc(&self) -> Global;

    /// What the file is that the path leads to.
    fn status(&self, path: &str) -> io::Result<FileStatus>
        ensures length { IfOk result
            (λ s. IfSome (contents self.now) (λ files. s.length ≡ length (files path.now))) }
        ensures told { IfOk result
            (λ s. IfSome (statuses self.now) (λ status_of. s ≡ status_of path.now)) };

    /// Fills the buffer with the file's bytes from the offset on, with 0 past its end. The offset
    /// is in bytes. Refused, the buffer is unspecified.
    fn read_at(&self, path: &str, buf: &mut [u8], offset: u64) -> io::Result<()>
        ensures { OnOk result
            (IfSome (contents self.now)
            (λ files. buf.new ≡ bytes_at (files path.now) «offset» (length buf.new))) };

    /// Whether two paths lead to one file: by the same name, by another name of it, or by a link.
    fn is_same_file(&self, one: &str, other: &str) -> io::Result<bool>
        ensures { IfOk result (λ same. same ≡ true
            → IfSome (contents self.now) (λ files. files one.now ≡ files other.now)) };

    /// The path that it is without links and relative parts.
    fn real_path(&self, path: &str) -> io::Result<String>
        ensures { IfOk result
            (λ p. IfSome (real_paths self.now) (λ real. string_bytes p ≡ real path.now)) };
}

/// Files that can be opened for writing too. Whoever has them only by a shared reference can't.
pub trait WritableFiles: Files {
    /// Opens the file of a path for reading and for writing. None is made, cut or changed by that.
    ///
    /// The open file has the bytes that were told of it. What is written to it later, it alone
    /// tells: of the file of that path nothing is said here any more. All others are as they were,
    /// and so is this one where it is refused.
    fn open_to_write(&mut self, path: &str) -> io::Result<Self::File>
        ensures told { IfOk result (λ f. IfSome (Self.contents self.old)
            (λ files. Self.File.contents f ≡ Some (files path.now))) }
        ensures others { IfSome (Self.contents self.old)
            (λ files. SaysAlike (Self.contents self.new) files path.now) }
        ensures refused { OnErr result (Self.contents self.new ≡ Self.contents self.old) }
        ensures statuses { Self.statuses self.new ≡ Self.statuses self.old }
        ensures real_paths { Self.real_paths self.new ≡ Self.real_paths self.old };
}
