// SPDX-License-Identifier: MIT
//! A storage over a file.
ghost use Rattle.std.specs.Prelude.{◌≡◌, ◌≤◌, ◌+◌, ◌^◌, ◌<◌, ◌&&◌, ℕ, Err, Ok, length, max, min};
ghost use Rattle.std.specs.Prelude.{option_map, is_some, IfOk, IfSome, MatchResult, Result};
ghost use Rattle.std.specs.declared.io.Error.{Error as IoError};
ghost use Rattle.std.specs.String.{string_bytes};
ghost use Rattle.imago_storage.specs.declared.error.Error.TheVariants.{Device, Unsupported};
ghost use Rattle.imago_storage.specs.IoCount.{no_work};
ghost use Rattle.imago_storage.specs.Maintenance.{no_maintenance};
ghost use Rattle.imago_storage.specs.Openings.{no_openings};
ghost use Rattle.imago_file.specs.Contents.{told_bytes, IsLong};
ghost use Rattle.imago_file.specs.Features.{file_features, file_lawful};
ghost use Rattle.imago_file.specs.FileCalls.{IsPassedOn, IsFileWrite, IsFileResize, length_asked};
ghost use Rattle.imago_file.specs.FileCalls.{faults_behind};
ghost use Rattle.imago_file.specs.Opening.{IsStorageOf};
ghost use Rattle.imago_file.specs.Names.{path_beside as path_beside_file};

use crate::host::HostFile;
use crate::name::path_beside;
use crate::size::set_size;
use imago_storage::error::Error;
use imago_storage::storage::{
    PreallocateMode, Storage, StorageCreateOptions, StorageOpenOptions, ZeroKind,
};
use std::alloc::Global;
use std::cell::Cell;
use std::fmt;
use std::io::{self, ErrorKind};

/// The bytes of an open file. All alignments are 1, so every request is made as it is.
///
/// Whatever the file refuses is [`Error::Device`], and [`last_error`](Self::last_error) keeps the
/// cause. A storage that isn't writable refuses each write so too, and answers
/// [`Error::Unsupported`] to a resize.
///
/// The file's length is asked for once, and then kept up with: the file must not be changed by
/// anyone else. Zeroes are written as data. Discards are [`Error::Unsupported`], which is no
/// refusal for an image, whose discards then change nothing. A storage that is dropped closes its
/// file without a sync.
#[derive(Drop)]
pub struct FileStorage<F: HostFile> {
    file: F,
    /// The name that it can be opened by, if it has one.
    name: Option<String>,
    /// Whether it may be written to.
    writable: bool,
    /// How long it is, in bytes.
    length: u64,
    /// How many exclusive calls were refused: a count that saturates.
    faults: u64,
    /// What the last refused call was refused for.
    last_error: Cell<Option<io::Error>>,
    ghost long: { IsLong (F.contents file) length },
}

/// The refusal of a write to a file that is open for reading only.
fn reading_only() -> io::Error {
    io::Error::new(
        ErrorKind::PermissionDenied,
        "the file is open for reading only",
    )
}

/// The length of a file that refused a write up to `end`. The file is asked, since a part of the
/// write may have made it longer: so what lies there counts as written, and isn't uncovered by a
/// later growth. It is taken to be no shorter than it was, and to end no later than the write; and
/// where it isn't told, to be as it was.
fn length_after_refusal<F: HostFile>(file: &F, length: u64, end: u64) -> u64
    requires { IsLong (F.contents file.now) length }
    ensures long { IsLong (F.contents file.now) result }
    ensures least { length ≤ result }
    ensures most { result ≤ max length end }
    ensures asked { (n : Result ℕ IoError) × F.calls.measured file.now n
        × (result ≡ length_asked n length end) }
{
    match file.length() {
        Ok(now) => now.min(end).max(length),
        Err(_) => length,
    }
}

impl<F: HostFile> FileStorage<F> {
    ghost use Rattle.imago_file.specs.StorageParts.{file_of};

    /// The storage of a file that is open, for writing too where `writable` says so, with the name
    /// that it can be opened by. It is refused where the file doesn't tell its length.
    pub fn new(file: F, name: Option<String>, writable: bool) -> io::Result<Self>
        ensures { MatchResult result
            (IsStorageOf file_of ⟦<FileStorage<F> as Storage>⟧.features
            ⟦<FileStorage<F> as Storage>⟧.bytes F.contents F.calls (option_map string_bytes name)
            writable file)
            (λ e. F.calls.measured file (Err e)) }
    {
        let length = file.length()?;
        Ok(FileStorage {
            file,
            name,
            writable,
            length,
            faults: 0,
            last_error: Cell::new(None),
        })
    }

    /// What the last call that answered [`Error::Device`] was refused for, in the words of the
    /// system where it was the system that refused it.
    pub fn last_error(&self) -> Option<io::Error> {
        self.last_error.get()
    }

    /// The file.
    pub fn file(&self) -> &F
        ensures is { result.now ≡ file_of self.now }
        ensures told { told_bytes (F.contents result.now)
            (length (⟦<FileStorage<F> as Storage>⟧.bytes self.now))
            ≡ ⟦<FileStorage<F> as Storage>⟧.bytes self.now }
    {
        &self.file
    }

    /// Whether it may be written to.
    pub fn is_writable(&self) -> bool
        ensures { result ≡ (⟦<FileStorage<F> as Storage>⟧.features self.now).offers_resize }
    {
        self.writable
    }

    /// Keeps what a call was refused for, and answers how.
    fn refuse(&self, cause: io::Error) -> Error
        ensures { result ≡ Device }
    {
        self.last_error.set(Some(cause));
        Error::Device
    }
}

impl<F: HostFile> fmt::Display for FileStorage<F> {
    fn fmt<W: fmt::Write>(&self, f: &mut fmt::Formatter<W>) -> fmt::Result {
        match &self.name {
            Some(name) => write!(f, "file:{name}"),
            None => {
                let length = self.length;
                write!(f, "file:[{length}B]")
            }
        }
    }
}

impl<F: HostFile> Storage for FileStorage<F> {
    ghost bytes = { λ s. told_bytes (F.contents s.file) s.length };

    ghost features = { λ s. file_features (option_map string_bytes s.name) s.writable
        (is_some (F.contents s.file)) };

    ghost fault_count = { λ s. s.faults };

    ghost work = { λ _. no_work };

    ghost maintenance = { record no_maintenance {
      flushed = λ a b r. IsPassedOn (F.calls.synced a.file b.file) r
          × (b.faults ≡ faults_behind a.faults r);
      synced = λ a b r. IsPassedOn (F.calls.synced a.file b.file) r
          × (b.faults ≡ faults_behind a.faults r);
      discarded = λ at n a b r. (b ≡ a) × (r ≡ Err Unsupported);
      resized = λ n mode a b r. IsFileResize F.calls a.writable a.length n mode a.file b.file r
          × (b.faults ≡ faults_behind a.faults r);
      counted = λ at buf a b r. (b.file ≡ a.file) × IsPassedOn (F.calls.read at buf a.file) r
          × (b.faults ≡ faults_behind a.faults r);
      written = λ at source a b r. IsFileWrite F.calls a.writable at source a.file b.file a.length
          b.length r × (b.faults ≡ faults_behind a.faults r);
      zeroed_in_place = λ kind at n a b r. (b ≡ a) × (r ≡ Err Unsupported);
    } };

    ghost openings = { record no_openings {
      resolved = λ s relative name. IfSome s.name
          (λ file. name ≡ path_beside_file (string_bytes file) relative);
    } };

    ghost lawful = { λ s. file_lawful (option_map string_bytes s.name) s.writable
        (is_some (F.contents s.file)) };

    /// A file is opened by [`FileStorage::open_file`], which is handed the host.
    fn open(_opts: StorageOpenOptions) -> Result<Self, Error> {
        Err(Error::Unsupported)
    }

    /// A file is created by [`FileStorage::create_file`], which is handed the host.
    fn create_open(_opts: StorageCreateOptions) -> Result<Self, Error> {
        Err(Error::Unsupported)
    }

    fn mem_align(&self) -> usize {
        1
    }

    fn req_align(&self) -> usize {
        1
    }

    fn zero_align(&self) -> usize {
        1
    }

    fn discard_align(&self) -> usize {
        1
    }

    fn size(&self) -> Result<u64, Error> {
        Ok(self.length)
    }

    /// A name that begins at the root stands for itself, and any other one for a file in the folder
    /// of this one. A storage without a name answers [`Error::Unsupported`].
    fn resolve_relative_path(&self, alloc: Global, relative: &str) -> Result<String, Error> {
        match &self.name {
            Some(name) => Ok(path_beside(alloc, name, relative)?),
            None => Err(Error::Unsupported),
        }
    }

    fn get_filename(&self) -> Option<&str> {
        match &self.name {
            Some(name) => Some(name.as_str()),
            None => None,
        }
    }

    fn pure_readv(&self, buf: &mut [u8], offset: u64) -> Result<(), Error> {
        match self.file.read_at(buf, offset) {
            Ok(()) => Ok(()),
            Err(cause) => Err(self.refuse(cause)),
        }
    }

    fn pure_readv_mut(&mut self, buf: &mut [u8], offset: u64) -> Result<(), Error> {
        match self.file.read_at(buf, offset) {
            Ok(()) => Ok(()),
            Err(cause) => {
                self.faults = self.faults.saturating_add(1);
                Err(self.refuse(cause))
            }
        }
    }

    fn pure_writev(&mut self, source: &[u8], offset: u64) -> Result<(), Error> {
        if !self.writable {
            self.faults = self.faults.saturating_add(1);
            return Err(self.refuse(reading_only()));
        }
        let end = offset + source.len() as u64;
        match self.file.write_at(source, offset) {
            Ok(()) => {
                self.length = self.length.max(end);
                Ok(())
            }
            Err(cause) => {
                self.faults = self.faults.saturating_add(1);
                self.length = length_after_refusal(&self.file, self.length, end);
                Err(self.refuse(cause))
            }
        }
    }

    fn zero_in_place(&mut self, _offset: u64, _count: u64, _kind: ZeroKind) -> Result<(), Error> {
        Err(Error::Unsupported)
    }

    fn pure_discard(&mut self, _offset: u64, _count: u64) -> Result<(), Error> {
        Err(Error::Unsupported)
    }

    /// Nothing is buffered here: a flush is a sync.
    fn flush(&mut self) -> Result<(), Error> {
        self.sync()
    }

    fn sync(&mut self) -> Result<(), Error> {
        match self.file.sync_data() {
            Ok(()) => Ok(()),
            Err(cause) => {
                self.faults = self.faults.saturating_add(1);
                Err(self.refuse(cause))
            }
        }
    }

    fn settle_writes(&mut self) -> Result<(), Error> {
        Ok(())
    }

    fn invalidate_cache(&mut self) -> Result<(), Error> {
        Ok(())
    }

    /// Under [`PreallocateMode::Allocate`] and [`PreallocateMode::WriteData`] new zeroes are
    /// written as data; where that is refused, the file is cut back to the length that it had.
    fn resize(&mut self, new_size: u64, mode: PreallocateMode) -> Result<(), Error> {
        if !self.writable {
            return Err(Error::Unsupported);
        }
        match set_size(&mut self.file, self.length, new_size, mode) {
            Ok(()) => {
                self.length = new_size;
                Ok(())
            }
            Err(cause) => {
                self.faults = self.faults.saturating_add(1);
                Err(self.refuse(cause))
            }
        }
    }
}
