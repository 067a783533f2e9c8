// SPDX-License-Identifier: MIT
//! A file by its path, as a file that is open.
ghost use Rattle.std.specs.Prelude.{◌≡◌, ◌<◌, ◌≤◌, ◌+◌, ℕ, List, Some, true, false};
ghost use Rattle.std.specs.Prelude.{IfOk, IfErr, IfSome};
ghost use Rattle.std.specs.Prelude.{length, slice_index};
ghost use Rattle.imago_images.specs.HostBytes.{HasBytes};
ghost use Rattle.imago_images.specs.PathFile.{is_to_write};
ghost use Rattle.imago_images.specs.Refusals.{IsRefused, IsBySystem, IsUnseen};

use crate::failure::{OpenError, Reason};
use crate::files::{FileKind, FileStatus, Files};
use imago_file::file::FileStorage;
use imago_file::host::HostFile;
use imago_storage::storage::Storage;
use std::alloc::Global;
use std::io::{self, ErrorKind};

/// The file of a path.
///
/// One that is only read was looked at once, and isn't open: its host reads by paths, and keeps
/// open what it likes to. So there may be as many of these as an image has files. It shows as many
/// bytes as the file had when it was looked at. Where the file has grown since then, the rest isn't
/// shown; where it was cut, the missing part reads as zeroes.
///
/// One that is written is an open file of its host.
#[derive(Drop)]
pub struct PathFile<'a, H: Files> {
    host: &'a H,
    path: String,
    /// What the file was when it was looked at.
    status: FileStatus,
    access: Access<H::File>,
}

/// How a file is read and written.
#[derive(Drop)]
enum Access<F: HostFile> {
    /// It is read by its path, through the host, and never written. So many of its bytes are shown.
    ByPath(u64),
    /// It is open.
    Open(F),
}

/// The file of a path as a storage.
pub type PathStorage<'a, H> = FileStorage<PathFile<'a, H>>;

/// The refusal of a change.
fn never_changed() -> io::Error {
    io::Error::new(ErrorKind::PermissionDenied, "the file is only read")
}

impl<'a, H: Files> PathFile<'a, H> {
    ghost use Rattle.imago_images.specs.PathFile.{file_path, file_status, is_to_write};

    /// Looks at the file of that path, and doesn't open it. What is neither a regular file nor a
    /// block device is [`Reason::NotAFile`], and what the host answers else is
    /// [`Reason::System`].
    pub fn look_at(host: &'a H, path: &str) -> Result<Self, OpenError>
        ensures told { IfOk result (λ f. IfSome (H.contents host.now)
            (λ files. ⟦<PathFile<'a, H> as HostFile>⟧.contents f ≡ Some (files path.now))) }
        ensures path { IfOk result (λ f. file_path f ≡ path.now) }
        ensures status { IfOk result (λ f. IfSome (H.statuses host.now)
            (λ status_of. file_status f ≡ status_of path.now)) }
        ensures length { IfOk result (λ f. IfSome (H.contents host.now)
            (λ files. (file_status f).length ≡ length (files path.now))) }
        ensures read_only { IfOk result (λ f. is_to_write f ≡ false) }
        ensures refused { IfErr result (IsRefused path.now
            (IsUnseen (H.statuses host.now) path.now)) }
    {
        let alloc = host.alloc();
        let status = OpenError::or_system(alloc, path, host.status(path))?;
        if status.kind == FileKind::Other {
            return Err(OpenError::of_file(alloc, path, Reason::NotAFile));
        }
        PathFile::known(host, path, status)
    }

    /// The file of that path, which was looked at before and had that status then. Its host isn't
    /// asked again.
    pub(crate) fn known(host: &'a H, path: &str, status: FileStatus) -> Result<Self, OpenError>
        requires told { IfSome (H.statuses host.now) (λ status_of. status ≡ status_of path.now) }
        requires length { IfSome (H.contents host.now)
            (λ files. status.length ≡ length (files path.now)) }
        ensures told { IfOk result (λ f. IfSome (H.contents host.now)
            (λ files. ⟦<PathFile<'a, H> as HostFile>⟧.contents f ≡ Some (files path.now))) }
        ensures path { IfOk result (λ f. file_path f ≡ path.now) }
        ensures status { IfOk result (λ f. IfSome (H.statuses host.now)
            (λ status_of. file_status f ≡ status_of path.now)) }
        ensures length { IfOk result (λ f. IfSome (H.contents host.now)
            (λ files. (file_status f).length ≡ length (files path.now))) }
        ensures read_only { IfOk result (λ f. is_to_write f ≡ false) }
        ensures refused { IfErr result (IsRefused path.now
            (IsUnseen (H.statuses host.now) path.now)) }
    {
        Ok(PathFile {
            host,
            path: String::from_str(host.alloc(), path)?,
            status,
            access: Access::ByPath(status.length),
        })
    }

    /// Looks at the file of that path, which its host opened for writing. It is refused as by
    /// [`look_at`](Self::look_at), and nothing is written by that.
    pub fn opened(host: &'a H, path: &str, file: H::File) -> Result<Self, OpenError>
        ensures told { IfOk result (λ f. ⟦<PathFile<'a, H> as HostFile>⟧.contents f
            ≡ H.File.contents file) }
        ensures path { IfOk result (λ f. file_path f ≡ path.now) }
        ensures status { IfOk result (λ f. IfSome (H.statuses host.now)
            (λ status_of. file_status f ≡ status_of path.now)) }
        ensures writable { IfOk result (λ f. is_to_write f ≡ true) }
        ensures refused { IfErr result (IsRefused path.now
            (IsUnseen (H.statuses host.now) path.now)) }
    {
        let looked = PathFile::look_at(host, path)?;
        Ok(PathFile {
            access: Access::Open(file),
            ..looked
        })
    }

    /// Whether it is open for writing too.
    pub fn is_writable(&self) -> bool
        ensures { result ≡ is_to_write self.now }
    {
        matches!(self.access, Access::Open(_))
    }

    /// Its path.
    pub fn path(&self) -> &str
        ensures { result.now ≡ file_path self.now }
    {
        &self.path
    }

    /// What the file was when it was looked at.
    pub fn status(&self) -> FileStatus
        ensures { result ≡ file_status self.now }
    {
        self.status
    }
}

/// The file of that path, which was looked at, as a storage that has the path as its name. It is
/// writable if the file is.
pub fn storage_of<'a, H: Files>(
    file: PathFile<'a, H>,
    path: &str,
) -> Result<PathStorage<'a, H>, OpenError>
    ensures told { (held : List ℕ) → ⟦<PathFile<'a, H> as HostFile>⟧.contents file.entry ≡ Some held
        → IfOk result (HasBytes ⟦<PathStorage<'a, H> as Storage>⟧.features
        ⟦<PathStorage<'a, H> as Storage>⟧.bytes held) }
    ensures path { IfOk result
        (λ s. (⟦<PathStorage<'a, H> as Storage>⟧.features s).filename ≡ Some path.now) }
    ensures writable { IfOk result
        (λ s. (⟦<PathStorage<'a, H> as Storage>⟧.features s).offers_resize
        ≡ is_to_write file.entry) }
    ensures refused { IfErr result (IsRefused path.now IsBySystem) }
{
    let (alloc, writable) = (file.host.alloc(), file.is_writable());
    named_storage(alloc, path, file, writable)
}

/// A file that is open as a storage that has the path as its name, and may be written to or not.
pub(crate) fn named_storage<F: HostFile>(
    alloc: Global,
    path: &str,
    file: F,
    writable: bool,
) -> Result<FileStorage<F>, OpenError>
    ensures told { (held : List ℕ) → F.contents file ≡ Some held
        → IfOk result (HasBytes ⟦<FileStorage<F> as Storage>⟧.features
        ⟦<FileStorage<F> as Storage>⟧.bytes held) }
    ensures path { IfOk result
        (λ s. (⟦<FileStorage<F> as Storage>⟧.features s).filename ≡ Some path.now) }
    ensures writable { IfOk result
        (λ s. (⟦<FileStorage<F> as Storage>⟧.features s).offers_resize ≡ writable) }
    ensures refused { IfErr result (IsRefused path.now IsBySystem) }
{
    let name = String::from_str(alloc, path)?;
    OpenError::or_system(alloc, path, FileStorage::new(file, Some(name), writable))
}

/// Looks at the file of that path, and doesn't open it: the file as a storage. It is refused as by
/// [`PathFile::look_at`].
pub fn look_at<'a, H: Files>(host: &'a H, path: &str) -> Result<PathStorage<'a, H>, OpenError>
    ensures told { IfOk result (λ s. IfSome (H.contents host.now)
        (λ files. HasBytes ⟦<PathStorage<'a, H> as Storage>⟧.features
        ⟦<PathStorage<'a, H> as Storage>⟧.bytes (files path.now) s)) }
    ensures path { IfOk result
        (λ s. (⟦<PathStorage<'a, H> as Storage>⟧.features s).filename ≡ Some path.now) }
    ensures read_only { IfOk result
        (λ s. (⟦<PathStorage<'a, H> as Storage>⟧.features s).offers_resize ≡ false) }
{
    storage_of(PathFile::look_at(host, path)?, path)
}

/// Fills with 0 what of a buffer lies behind that many bytes of a file, where the buffer has the
/// file's bytes from the offset on.
#[tactic(auto, using(std::proofs::lemmas::List::places))]
fn hide(buf: &mut [u8], offset: u64, shown: u64)
    ensures long { length buf.new ≡ length buf.old }
    ensures shown { (k : ℕ) → offset + k < shown
        → slice_index buf.new k ≡ slice_index buf.old k }
    ensures hidden { (k : ℕ) → shown ≤ offset + k → slice_index buf.new k ≡ 0 }
{
    let count = shown.saturating_sub(offset).min(buf.len() as u64) as usize;
    buf[count..].fill(0);
}

/// By its path, the host answers each read, and no write reaches the file: all are refused as
/// [`ErrorKind::PermissionDenied`]. A cut lets fewer bytes be shown then, as this trait demands
/// where bytes are told, and leaves the file itself alone; [`PathStorage`] never asks for one.
/// Where the file is open, each call is passed on to it.
impl<'a, H: Files> HostFile for PathFile<'a, H> {
    ghost use Rattle.imago_images.specs.PathFile.{file_path, reached_bytes};
    ghost use Rattle.imago_images.specs.PathCalls.{path_calls};

    ghost contents = { λ f. reached_bytes H.File.contents (H.contents f.host.now) (file_path f)
        f.access };

    ghost calls = { path_calls H.File.calls };

    fn length(&self) -> io::Result<u64> {
        match &self.access {
            Access::ByPath(shown) => Ok(*shown),
            Access::Open(file) => file.length(),
        }
    }

    fn read_at(&self, buf: &mut [u8], offset: u64) -> io::Result<()> {
        match &self.access {
            Access::ByPath(shown) => {
                self.host.read_at(&self.path, buf, offset)?;
                hide(buf, offset, *shown);
                Ok(())
            }
            Access::Open(file) => file.read_at(buf, offset),
        }
    }

    fn write_at(&mut self, source: &[u8], offset: u64) -> io::Result<()> {
        match &mut self.access {
            Access::ByPath(_) => Err(never_changed()),
            Access::Open(file) => file.write_at(source, offset),
        }
    }

    fn set_len(&mut self, size: u64) -> io::Result<()> {
        match &mut self.access {
            Access::ByPath(shown) => {
                if size > *shown {
                    return Err(never_changed());
                }
                *shown = size;
                Ok(())
            }
            Access::Open(file) => file.set_len(size),
        }
    }

    fn sync_data(&mut self) -> io::Result<()> {
        match &mut self.access {
            Access::ByPath(_) => Ok(()),
            Access::Open(file) => file.sync_data(),
        }
    }
}
