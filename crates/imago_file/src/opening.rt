// SPDX-License-Identifier: MIT
//! How files are opened and created as storages.
ghost use Rattle.std.specs.Prelude.{◌≡◌, Some, None, IfOk, IfErr, OnOk, true, false};
ghost use Rattle.std.specs.IoError.{error_kind};
ghost use Rattle.std.specs.String.{string_bytes};
ghost use Rattle.imago_storage.specs.Options.{open_options, create_options};
ghost use Rattle.imago_file.specs.Contents.{IsLong};
ghost use Rattle.imago_file.specs.Opening.{FileOpening, any_opening, IsStorageOf, IsNotAsked};
ghost use Rattle.imago_file.specs.Opening.{IsAsked, IsFileOpening, IsFileCreation, opening_error};
ghost use Rattle.imago_file.specs.StorageParts.{file_of};

use crate::file::FileStorage;
use crate::host::{HostFile, no_file};
use crate::size::set_size;
use imago_storage::error::Error;
use imago_storage::storage::{Storage, StorageCreateOptions, StorageOpenOptions};
use std::alloc::Global;
use std::fs::{self, File, OpenOptions};
use std::io::{self, ErrorKind};
use std::os::unix::fs::FileTypeExt;

/// Where files are found by their paths.
pub trait HostFiles: Drop {
    /// What it opens.
    type File: HostFile;

    /// What an opening is: only the call itself gives the relation.
    ghost opened: { FileOpening Self Self.File };

    /// What a creation is: only the call itself gives the relation.
    ghost created: { FileOpening Self Self.File };

    /// Opens the file of that path for reading, and for writing too where `writable` says so. The
    /// file has to be there.
    fn open_path(&mut self, path: &str, writable: bool) -> io::Result<Self::File>
        ensures { opened path.now writable self.old self.new result };

    /// Creates a file of that path, with nothing in it, and opens it for reading and writing. What
    /// has the path already is emptied where `replace` says so, and else it is refused as
    /// [`ErrorKind::AlreadyExists`], with nothing changed.
    fn create_path(&mut self, path: &str, replace: bool) -> io::Result<Self::File>
        ensures empty { IfOk result (λ file. IsLong (Self.File.contents file) 0) }
        ensures performed { created path.now replace self.old self.new result };
}

/// The system's files: regular files, and block devices. Nothing is told of them.
///
/// The kind is looked at before a file is opened, since the opening of a pipe waits for its other
/// end. Folders, pipes, sockets and character devices are [`ErrorKind::InvalidInput`].
impl<'a> HostFiles for &'a HostRuntime {
    type File = File;

    ghost opened = { any_opening };

    ghost created = { any_opening };

    fn open_path(&mut self, path: &str, writable: bool) -> io::Result<File> {
        let kind = fs::metadata(*self, path)?.file_type();
        if !kind.is_file() && !kind.is_block_device() {
            return Err(no_file());
        }
        OpenOptions::new()
            .read(true)
            .write(writable)
            .open(*self, path)
    }

    fn create_path(&mut self, path: &str, replace: bool) -> io::Result<File> {
        OpenOptions::new()
            .read(true)
            .write(true)
            .create(replace)
            .truncate(replace)
            .create_new(!replace)
            .open(*self, path)
    }
}

/// The name that options give, in memory of its own.
fn name_asked(alloc: Global, options: &StorageOpenOptions) -> io::Result<String>
    ensures asked { IfOk result (λ name. IsAsked (open_options options.now) (string_bytes name)) }
    ensures refused { IfErr result (IsNotAsked (open_options options.now)) }
{
    if options.get_direct() {
        let message = "direct access to files isn't offered";
        return Err(io::Error::new(ErrorKind::Unsupported, message));
    }
    let Some(name) = options.get_filename() else {
        let message = "no file name is given";
        return Err(io::Error::new(ErrorKind::InvalidInput, message));
    };
    match String::from_str(alloc, name) {
        Ok(name) => Ok(name),
        Err(_) => Err(io::Error::from(ErrorKind::OutOfMemory)),
    }
}

/// What the refusal of an opening or a creation is as an image's error.
///
/// [`Error::NotFound`] is answered where no file has the name; [`Error::Denied`] where the file may
/// not be opened so, or a file that has the name may not be replaced; [`Error::InvalidData`] where
/// the name can't be one, is missing, or leads to what is no file; [`Error::Unsupported`] where
/// direct access was asked for; [`Error::Memory`] where memory was refused; and for every other
/// cause [`Error::Device`].
pub fn error_of(cause: &io::Error) -> Error
    ensures { result ≡ opening_error (error_kind cause.now) }
{
    match cause.kind() {
        ErrorKind::NotFound | ErrorKind::NotADirectory => Error::NotFound,
        ErrorKind::PermissionDenied | ErrorKind::ReadOnlyFilesystem | ErrorKind::AlreadyExists => {
            Error::Denied
        }
        ErrorKind::InvalidInput | ErrorKind::InvalidFilename | ErrorKind::IsADirectory => {
            Error::InvalidData
        }
        ErrorKind::Unsupported => Error::Unsupported,
        ErrorKind::OutOfMemory => Error::Memory,
        _ => Error::Device,
    }
}

impl<F: HostFile> FileStorage<F> {
    /// Opens the file that the options name, as writable where they ask for it. It is one call of
    /// the host, or none. Options without a name are [`ErrorKind::InvalidInput`], and those that
    /// ask for direct access [`ErrorKind::Unsupported`]: the system wants aligned memory for it,
    /// which can't be asked for here.
    pub fn open_file<H: HostFiles<File = F>>(
        host: &mut H,
        alloc: Global,
        options: StorageOpenOptions,
    ) -> io::Result<Self>
        ensures { IsFileOpening H.opened F.calls
            (IsStorageOf file_of ⟦<FileStorage<F> as Storage>⟧.features
            ⟦<FileStorage<F> as Storage>⟧.bytes F.contents F.calls) (open_options options) host.old host.new result }
    {
        let name = name_asked(alloc, &options)?;
        let writable = options.get_writable();
        let file = host.open_path(&name, writable)?;
        FileStorage::new(file, Some(name), writable)
    }

    /// Creates the file that the options name, with their size, as writable. It is one call of the
    /// host, or none. A file that has the name is replaced only where the options say so, and else
    /// it is [`ErrorKind::AlreadyExists`]. Of a file that was created and didn't get the size, an
    /// empty one stays.
    pub fn create_file<H: HostFiles<File = F>>(
        host: &mut H,
        alloc: Global,
        options: StorageCreateOptions,
    ) -> io::Result<Self>
        ensures { IsFileCreation H.created F.calls
            (IsStorageOf file_of ⟦<FileStorage<F> as Storage>⟧.features
            ⟦<FileStorage<F> as Storage>⟧.bytes F.contents F.calls) (create_options options) host.old host.new result }
    {
        let size = options.get_size();
        let mode = options.get_preallocate();
        let replace = options.get_overwrite();
        let to_open = options.get_open_options();
        let name = name_asked(alloc, &to_open)?;
        let mut file = host.create_path(&name, replace)?;
        set_size(&mut file, 0, size, mode)?;
        FileStorage::new(file, Some(name), true)
    }
}
