// SPDX-License-Identifier: MIT
//! What a host whose files are in memory does.
ghost use Rattle.std.specs.Prelude.{◌≡◌, ◌+◌, ◌≤◌, [], Some, None, true, false, length, replicate};
ghost use Rattle.std.specs.Prelude.{slice_index, EachIndex, IfOk, MatchOption, MatchResult};
ghost use Rattle.std.specs.String.{string_bytes};
ghost use Rattle.imago_storage.specs.Bytes.{bytes_at};
ghost use Rattle.imago_img_tests.specs.MemoryFiles.{files_without, unfinished_path};

use crate::asked::{Asked, Call};
use crate::memory_host::{MemoryExisting, MemoryFile, MemoryHost, MemoryTarget, Nature};
use imago_copy::target::Target;
use imago_file::host::MemoryFile as OpenFile;
use imago_images::files::WritableFiles;
use imago_img_files::host::{FileKind, FileStatus, Files, Host, LeftOver, Making};
use std::alloc::{AllocError, Global};
use std::cell::Cell;
use std::io::{self, ErrorKind};

impl Nature {
    ghost use Rattle.imago_img_tests.specs.MemoryFiles.{kind_by};

    /// What a file of this nature is.
    fn kind(self) -> FileKind
        ensures { result ≡ kind_by self }
    {
        match self {
            Nature::Folder => FileKind::Other,
            Nature::Device => FileKind::BlockDevice,
            _ => FileKind::Regular,
        }
    }
}

impl MemoryHost {
    ghost use Rattle.imago_img_tests.specs.MemoryFiles.{file_bytes, file_status, holds};

    /// No files. Something may be put into a new one that many times, and then it gets its path or
    /// doesn't.
    pub fn new(alloc: Global, appends: u64, finishes: bool) -> Self {
        MemoryHost {
            alloc,
            files: Vec::new(alloc),
            appends,
            finishes,
            unfinished: 0,
            held: Vec::new(alloc),
            shown: Cell::new(0),
            asked: Asked::new(alloc),
        }
    }

    /// Which calls were made for which paths.
    pub fn asked(&self) -> &Asked {
        &self.asked
    }

    /// Counts the calls for a path by themselves from now on.
    pub fn follow(&mut self, path: &str) -> Result<(), AllocError> {
        self.asked.follow(self.alloc, path)
    }

    /// Adds a file.
    pub fn add(&mut self, path: &str, bytes: &[u8], nature: Nature) -> Result<(), AllocError> {
        self.follow(path)?;
        let mut kept = Vec::new(self.alloc);
        kept.extend_from_slice(bytes)?;
        let path = String::from_str(self.alloc, path)?;
        let inode = self.files.len() as u64;
        self.files.push(MemoryFile {
            path,
            bytes: kept,
            nature,
            inode,
        })?;
        Ok(())
    }

    /// Gives the first file of a path that other name too.
    pub fn link(&mut self, path: &str, name: &str) -> io::Result<()> {
        let mut bytes = Vec::new(self.alloc);
        let file = self.file(path)?;
        bytes.extend_from_slice(&file.bytes)?;
        let (nature, inode) = (file.nature, file.inode);
        let path = String::from_str(self.alloc, name)?;
        self.files.push(MemoryFile {
            path,
            bytes,
            nature,
            inode,
        })?;
        Ok(())
    }

    /// Lets QEMU hold the file of a path.
    pub fn hold(&mut self, path: &str) -> Result<(), AllocError> {
        self.held.push(String::from_str(self.alloc, path)?)?;
        Ok(())
    }

    /// Whether QEMU holds the file of a path.
    fn holds(&self, path: &str) -> bool
        ensures { result ≡ holds self.now path.now }
    {
        self.held.iter().any(|held| held.as_str() == path)
    }

    /// How many files there are.
    pub fn count(&self) -> usize {
        self.files.len()
    }

    /// How many new files are neither finished nor abandoned.
    pub fn unfinished(&self) -> u64 {
        self.unfinished
    }

    /// How many bytes of a copy were shown to be done.
    pub fn shown(&self) -> u64 {
        self.shown.get()
    }

    /// The bytes of a file, if there is one.
    pub fn bytes(&self, path: &str) -> Option<&[u8]>
        ensures { MatchOption result (file_bytes self.now.files.items path.now ≡ [])
            (λ bytes. bytes.now ≡ file_bytes self.now.files.items path.now) }
    {
        match self.file(path) {
            Ok(file) => Some(&file.bytes),
            Err(_) => None,
        }
    }

    /// What the first file of that path is by itself.
    fn status_by_itself(&self, path: &str) -> io::Result<FileStatus>
        ensures { IfOk result (λ s. s ≡ file_status self.now.files.items path.now) }
    {
        let file = self.file(path)?;
        Ok(FileStatus {
            kind: file.nature.kind(),
            length: file.bytes.len() as u64,
            device: 1,
            inode: file.inode,
        })
    }
}

/// Whether so many bytes from the offset on of such a file can't be read.
fn is_barred(nature: Nature, offset: u64, count: usize) -> bool {
    match nature {
        Nature::Secret => true,
        Nature::Torn(at) => offset <= at && at - offset < count as u64,
        _ => false,
    }
}

/// Fills the buffer with bytes from the offset on, with 0 behind their end.
#[tactic(auto, using(std::proofs::lemmas::List::places))]
pub(crate) fn read_padded(bytes: &[u8], buf: &mut [u8], offset: u64)
    ensures { EachIndex buf.new (λ k. slice_index buf.new k ≡ slice_index bytes.now (offset + k)) }
{
    if offset >= bytes.len() as u64 {
        buf.fill(0);
        return;
    }
    let start = offset as usize;
    let count = buf.len().min(bytes.len() - start);
    buf[..count].copy_from_slice(&bytes[start..start + count]);
    buf[count..].fill(0);
}

/// How many of the bytes from the offset on are 0: at most that many. Behind their end all are.
fn zeroes_at(bytes: &[u8], offset: u64, most: u64) -> u64
    ensures within { result ≤ most }
    ensures zero { bytes_at bytes.now offset result ≡ replicate result 0 }
{
    let mut count = 0;
    while count < most {
        match byte_at(bytes, offset, count) {
            Some(0) => count += 1,
            Some(_) => return count,
            None => return most,
        }
    }
    count
}

/// How many of the bytes from the offset on come before the next 0: at most that many.
fn others_at(bytes: &[u8], offset: u64, most: u64) -> u64
    ensures { result ≤ most }
{
    let mut count = 0;
    while count < most {
        match byte_at(bytes, offset, count) {
            Some(0) | None => return count,
            Some(_) => count += 1,
        }
    }
    count
}

/// The byte that many behind the offset, if there is one.
fn byte_at(bytes: &[u8], offset: u64, count: u64) -> Option<u8>
    ensures { MatchOption result (length bytes.now ≤ offset + count)
        (λ byte. slice_index bytes.now (offset + count) ≡ byte) }
{
    let index = offset.checked_add(count)?;
    if index >= bytes.len() as u64 {
        return None;
    }
    Some(bytes[index as usize])
}

/// The path of the unfinished file that is to have a path.
fn unfinished_path(alloc: Global, path: &str) -> Result<String, AllocError>
    ensures { IfOk result (λ left. string_bytes left ≡ unfinished_path path.now) }
{
    format!(in alloc; "{path}.imago-img-unfinished")
}

/// Removes the files of a path.
fn remove_all(files: &mut Vec<MemoryFile>, path: &str)
    ensures { files.new.items ≡ files_without path.now files.old.items }
{
    files.retain(|file| file.path.as_str() != path);
}

impl Files for MemoryHost {
    ghost use Rattle.imago_img_tests.specs.MemoryFiles.{file_bytes, file_status};
    ghost use Rattle.imago_img_tests.specs.MemoryFiles.{path_without_links};

    type File = OpenFile;

    ghost contents = { λ h. Some (file_bytes h.files.items) };

    ghost statuses = { λ h. Some (file_status h.files.items) };

    ghost real_paths = { λ h. Some (path_without_links h.files.items) };

    fn alloc(&self) -> Global {
        self.alloc
    }

    fn status(&self, path: &str) -> io::Result<FileStatus> {
        self.asked.note(Call::Look, path);
        if matches!(self.file(path)?.nature, Nature::Barred) {
            return Err(io::Error::from(ErrorKind::PermissionDenied));
        }
        self.status_by_itself(path)
    }

    fn read_at(&self, path: &str, buf: &mut [u8], offset: u64) -> io::Result<()> {
        self.asked.note(Call::Read, path);
        let file = self.file(path)?;
        if is_barred(file.nature, offset, buf.len()) {
            return Err(io::Error::from(ErrorKind::PermissionDenied));
        }
        read_padded(&file.bytes, buf, offset);
        Ok(())
    }

    // The files of two paths are one where they have the same number, and the same bytes.
    fn is_same_file(&self, one: &str, other: &str) -> io::Result<bool> {
        self.asked.note(Call::Look, one);
        self.asked.note(Call::Look, other);
        let one = self.file(one)?;
        let other = self.file(other)?;
        Ok(one.inode == other.inode && one.bytes == other.bytes)
    }

    fn real_path(&self, path: &str) -> io::Result<String> {
        self.asked.note(Call::Look, path);
        if path == "." {
            return Ok(String::from_str(self.alloc, "/images")?);
        }
        match self.file(path)?.nature {
            Nature::Link(to) => Ok(String::from_str(self.alloc, to)?),
            _ => Ok(format!(in self.alloc; "/images/{path}")?),
        }
    }
}

/// What is written to an open file doesn't reach the host's own.
impl WritableFiles for MemoryHost {
    fn open_to_write(&mut self, path: &str) -> io::Result<OpenFile> {
        self.asked.note(Call::Write, path);
        let file = self.file(path)?;
        let mut bytes = Vec::new(self.alloc);
        bytes.extend_from_slice(&file.bytes)?;
        Ok(OpenFile::new(bytes))
    }
}

impl Host for MemoryHost {
    ghost use Rattle.imago_img_tests.specs.MemoryFiles.{file_status, has_file, holds};
    ghost use Rattle.imago_img_tests.specs.MemoryFiles.{unfinished_path};

    type Target = MemoryTarget;

    type Existing = MemoryExisting;

    ghost around = { λ h. Some (record {
      there = has_file h.files.items;
      unfinished = h.unfinished;
      beside = unfinished_path;
      held = holds h;
    }) };

    ghost left_overs = { λ h. Some (λ path. file_status h.files.items (unfinished_path path)) };

    fn run_at(&self, path: &str, offset: u64, most: u64) -> (u64, bool) {
        self.asked.note(Call::Look, path);
        let Some(bytes) = self.bytes(path) else {
            return (most, true);
        };
        let zeroes = zeroes_at(bytes, offset, most);
        if zeroes > 0 {
            return (zeroes, false);
        }
        (others_at(bytes, offset, most).max(1), true)
    }

    fn size_on_disk(&self, path: &str) -> Option<u64> {
        self.asked.note(Call::Look, path);
        let file = self.file(path).ok()?;
        Some(file.bytes.len() as u64)
    }

    fn found(&self, path: &str) -> io::Result<Option<FileStatus>> {
        self.asked.note(Call::Look, path);
        let Ok(file) = self.file(path) else {
            return Ok(None);
        };
        if matches!(file.nature, Nature::Barred) {
            return Err(io::Error::from(ErrorKind::PermissionDenied));
        }
        Ok(Some(self.status_by_itself(path)?))
    }

    fn is_held(&self, path: &str) -> io::Result<bool> {
        self.asked.note(Call::Look, path);
        Ok(self.holds(path))
    }

    fn show_progress(&self, done: u64, _total: u64, _hundredths: u64) {
        self.shown.set(done);
    }

    fn end_progress(&self) {}

    fn left_over(&self, path: &str) -> io::Result<Option<LeftOver>> {
        let path = unfinished_path(self.alloc, path)?;
        self.asked.note(Call::Look, &path);
        match self.status_by_itself(&path) {
            Ok(status) => Ok(Some(LeftOver { path, status })),
            Err(_) => Ok(None),
        }
    }

    fn remove_left_over(&mut self, path: &str) -> io::Result<()> {
        self.asked.note(Call::Write, path);
        let left = unfinished_path(self.alloc, path)?;
        if self.file(&left).is_err() {
            return Err(io::Error::from(ErrorKind::NotFound));
        }
        remove_all(&mut self.files, &left);
        Ok(())
    }

    fn create(&mut self, path: &str, size: u64, how: Making) -> io::Result<MemoryTarget> {
        self.asked.note(Call::Write, path);
        let replaces = self.file(path).is_ok();
        if replaces && !how.replace || self.left_over(path)?.is_some() {
            return Err(io::Error::from(ErrorKind::AlreadyExists));
        }
        let path = String::from_str(self.alloc, path)?;
        let Some(unfinished) = self.unfinished.checked_add(1) else {
            return Err(io::Error::from(ErrorKind::OutOfMemory));
        };
        self.unfinished = unfinished;
        Ok(MemoryTarget {
            path,
            size,
            bytes: Vec::new(self.alloc),
            replaces,
            appends: self.appends,
        })
    }

    fn finish(&mut self, target: MemoryTarget) -> io::Result<()> {
        self.unfinished = self.unfinished.saturating_sub(1);
        if !self.finishes {
            return Err(io::Error::from(ErrorKind::PermissionDenied));
        }
        if !target.replaces && self.file(&target.path).is_ok() {
            return Err(io::Error::from(ErrorKind::AlreadyExists));
        }
        let file = MemoryFile {
            path: target.path,
            bytes: target.bytes,
            nature: Nature::Plain,
            inode: self.files.len() as u64,
        };
        // The first one of a path counts.
        self.files.insert(0, file)?;
        Ok(())
    }

    fn abandon(&mut self, target: MemoryTarget) {
        let _ = target;
        self.unfinished = self.unfinished.saturating_sub(1);
    }

    fn open_existing(&mut self, path: &str) -> io::Result<MemoryExisting> {
        self.asked.note(Call::Write, path);
        Err(io::Error::from(ErrorKind::Unsupported))
    }

    fn close_existing(&mut self, target: MemoryExisting) {
        let _ = target;
    }

    fn set_length(&mut self, path: &str, _length: u64) -> io::Result<()> {
        self.asked.note(Call::Write, path);
        Err(io::Error::from(ErrorKind::Unsupported))
    }
}

/// Counts an append, and refuses one too many, as a full device does.
pub(crate) fn take_append(appends: &mut u64) -> io::Result<()> {
    if *appends == 0 {
        return Err(io::Error::from(ErrorKind::StorageFull));
    }
    *appends -= 1;
    Ok(())
}

impl Target for MemoryTarget {
    ghost contents = { λ t. Some t.bytes.items };

    ghost made_for = { λ t. Some (string_bytes t.path, t.size) };

    fn append(&mut self, source: &[u8]) -> io::Result<()> {
        take_append(&mut self.appends)?;
        Target::append(&mut self.bytes, source)
    }

    fn append_zeroes(&mut self, count: u64) -> io::Result<()> {
        take_append(&mut self.appends)?;
        Target::append_zeroes(&mut self.bytes, count)
    }
}

impl Target for MemoryExisting {
    ghost contents = { λ _. None };

    ghost made_for = { λ _. None };

    fn append(&mut self, _source: &[u8]) -> io::Result<()> {
        Err(io::Error::from(ErrorKind::Unsupported))
    }

    fn append_zeroes(&mut self, _count: u64) -> io::Result<()> {
        Err(io::Error::from(ErrorKind::Unsupported))
    }
}
