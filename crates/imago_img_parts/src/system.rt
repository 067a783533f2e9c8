// SPDX-License-Identifier: MIT
//! The system's files, where commands find them and make them.
ghost use Rattle.std.specs.Prelude.{None};

use crate::locks::is_held_in;
use imago_copy::target::Target;
use imago_disk::system::{SystemFiles, kind_of};
use imago_img_files::host::{FileKind, FileStatus, Files, Host, LeftOver, Making, UNFINISHED};
use std::alloc::Global;
use std::fs::{self, File, Metadata, OpenOptions, Permissions};
use std::io::{self, ErrorKind, Read};
use std::os::unix::fs::{FileExt, MetadataExt, OpenOptionsExt, PermissionsExt, fchown};

/// How many bytes the blocks have in which a file's status tells what it takes.
const BLOCK_OF_STATUS: u64 = 512;

/// The least run of zeroes that stays a hole, in bytes.
const BLOCK: usize = 4096;

/// What is written of zeroes at a time.
static ZEROES: [u8; 65536] = [0; 65536];

/// The mode of a new file, of which the system takes away what the user's mask names.
const NEW_FILE: u32 = 0o666;

/// The mode of a file that only its owner may read and write.
const OWNER_ALONE: u32 = 0o600;

/// The bits of a mode that say who may read, write and run a file; and those of its group.
const PERMISSIONS: u32 = 0o777;

const GROUP: u32 = 0o070;

/// The file in which the system tells which ranges of files are locked.
const LOCKS: &str = "/proc/locks";

/// How much of it is read, in bytes: some 70000 locks.
const MOST_OF_LOCKS: u64 = 4 << 20;

/// The system's files, as the commands read and make them: those that are read are kept open, as
/// [`SystemFiles`] does, until a new file gets its path.
#[derive(Drop)]
pub struct System<'a> {
    files: SystemFiles<'a>,
}

/// A file that is being made.
#[derive(Drop)]
pub struct NewFile {
    file: File,
    /// Its path, until it is finished.
    path: String,
    /// The path that it is to have then.
    to: String,
    /// Whether a file had that path when this one was begun. That one is replaced.
    replaces: bool,
    /// Whether blocks of zeroes stay holes.
    sparse: bool,
    /// How much is written.
    at: u64,
}

/// A file that is written over.
#[derive(Drop)]
pub struct ExistingFile {
    file: File,
    /// How much is written.
    at: u64,
}

impl<'a> System<'a> {
    /// The files of that runtime, of which up to sixteen are kept open.
    pub fn new(runtime: &'a HostRuntime) -> Self {
        System {
            files: SystemFiles::new(runtime),
        }
    }

    /// The files of that runtime, of which up to that many are kept open, and at least one.
    pub fn with_most_open(runtime: &'a HostRuntime, most: usize) -> Self {
        System {
            files: SystemFiles::with_most_open(runtime, most),
        }
    }

    /// The runtime whose files these are.
    fn runtime(&self) -> &'a HostRuntime {
        self.files.runtime()
    }
}

/// Writes what of the data isn't zero, by blocks of the file, in as few calls as there are runs of
/// them.
fn write_blocks(file: &File, source: &[u8], offset: u64) -> io::Result<()> {
    let mut begin = 0;
    let mut end = 0;
    while end < source.len() {
        let within = offset.wrapping_add(end as u64) % BLOCK as u64;
        let next = end + (source.len() - end).min(BLOCK - within as usize);
        if is_zero(&source[end..next]) {
            file.write_all_at(&source[begin..end], offset.wrapping_add(begin as u64))?;
            begin = next;
        }
        end = next;
    }
    file.write_all_at(&source[begin..end], offset.wrapping_add(begin as u64))
}

/// Writes that many zeroes.
fn write_zeroes(file: &File, count: u64, offset: u64) -> io::Result<()> {
    let mut done = 0;
    while done < count {
        let part = (count - done).min(ZEROES.len() as u64);
        file.write_all_at(&ZEROES[..part as usize], offset.wrapping_add(done))?;
        done += part;
    }
    Ok(())
}

/// Whether all bytes are 0.
#[inline(never)]
fn is_zero(bytes: &[u8]) -> bool {
    let mut all = 0;
    for byte in bytes {
        all |= *byte;
    }
    all == 0
}

impl<'a> Files for System<'a> {
    type File = File;

    ghost contents = { λ _. None };

    fn alloc(&self) -> Global {
        self.files.alloc()
    }

    fn status(&self, path: &str) -> io::Result<FileStatus> {
        self.files.status(path)
    }

    fn read_at(&self, path: &str, buf: &mut [u8], offset: u64) -> io::Result<()> {
        self.files.read_at(path, buf, offset)
    }

    fn is_same_file(&self, one: &str, other: &str) -> io::Result<bool> {
        self.files.is_same_file(one, other)
    }

    fn real_path(&self, path: &str) -> io::Result<String> {
        self.files.real_path(path)
    }
}

impl<'a> Host for System<'a> {
    type Target = NewFile;

    type Existing = ExistingFile;

    ghost around = { λ _. None };

    fn run_at(&self, path: &str, offset: u64, most: u64) -> (u64, bool) {
        self.files.run_at(path, offset, most)
    }

    fn size_on_disk(&self, path: &str) -> Option<u64> {
        let metadata = fs::metadata(self.runtime(), path).ok()?;
        if kind_of(&metadata) != FileKind::Regular {
            return None;
        }
        metadata.blocks().checked_mul(BLOCK_OF_STATUS)
    }

    fn found(&self, path: &str) -> io::Result<Option<FileStatus>> {
        match self.status(path) {
            Ok(there) => Ok(Some(there)),
            Err(cause) if cause.kind() == ErrorKind::NotFound => Ok(None),
            Err(cause) => Err(cause),
        }
    }

    // What the system doesn't tell of locks is no failure of a command.
    fn is_held(&self, path: &str) -> io::Result<bool> {
        Ok(self.has_lock(path).unwrap_or(false))
    }

    // That something can't be shown is no failure of the copy.
    fn show_progress(&self, done: u64, total: u64, hundredths: u64) {
        let _ = eprint!(self.runtime(); "\r{done} of {total} bytes ({hundredths} %)");
    }

    fn end_progress(&self) {
        let _ = eprintln!(self.runtime());
    }

    fn left_over(&self, path: &str) -> io::Result<Option<LeftOver>> {
        let path = self.unfinished(&self.final_path(path)?)?;
        let Some(found) = self.there(&path)? else {
            return Ok(None);
        };
        let status = FileStatus {
            kind: kind_of(&found),
            length: found.len(),
            device: found.dev(),
            inode: found.ino(),
        };
        Ok(Some(LeftOver { path, status }))
    }

    fn remove_left_over(&mut self, path: &str) -> io::Result<()> {
        let left = self.unfinished(&self.final_path(path)?)?;
        fs::remove_file(self.runtime(), &left)
    }

    fn create(&mut self, path: &str, size: u64, how: Making) -> io::Result<NewFile> {
        let to = self.final_path(path)?;
        let old = self.replaced(&to, how.replace)?;
        let target = self.begin(to, old.is_some(), how.sparse)?;
        match prepare(&target.file, old, size) {
            Ok(()) => Ok(target),
            Err(cause) => {
                self.abandon(target);
                Err(cause)
            }
        }
    }

    // The files that are kept open are closed, since one may be what the new file replaces.
    fn finish(&mut self, target: NewFile) -> io::Result<()> {
        self.files.close_all();
        let named = self.name(&target);
        if named.is_err() {
            self.abandon(target);
        }
        named
    }

    fn abandon(&mut self, target: NewFile) {
        if self.has_path(&target) {
            let _ = fs::remove_file(self.runtime(), &target.path);
        }
    }

    fn open_existing(&mut self, path: &str) -> io::Result<ExistingFile> {
        let file = OpenOptions::new().write(true).open(self.runtime(), path)?;
        Ok(ExistingFile { file, at: 0 })
    }

    fn close_existing(&mut self, target: ExistingFile) {
        let _ = target;
    }

    fn set_length(&mut self, path: &str, length: u64) -> io::Result<()> {
        let file = OpenOptions::new().write(true).open(self.runtime(), path)?;
        file.set_len(length)
    }
}

impl<'a> System<'a> {
    /// Whether the system tells a lock by which QEMU holds the file of a path.
    fn has_lock(&self, path: &str) -> io::Result<bool> {
        let file = fs::metadata(self.runtime(), path)?;
        let text = self.locks()?;
        match str::from_utf8(&text) {
            Ok(text) => Ok(is_held_in(text, file.dev(), file.ino())),
            Err(_) => Ok(false),
        }
    }

    /// What the system tells of locks, as far as it is read.
    fn locks(&self) -> io::Result<Vec<u8>> {
        let mut text = Vec::new(self.alloc());
        if kind_of(&fs::metadata(self.runtime(), LOCKS)?) == FileKind::Regular {
            let file = File::open(self.runtime(), LOCKS)?;
            file.take(MOST_OF_LOCKS).read_to_end(&mut text)?;
        }
        Ok(text)
    }

    /// The path that a new file is to have: what is there already is followed through its links.
    fn final_path(&self, path: &str) -> io::Result<String> {
        match self.real_path(path) {
            Err(cause) if cause.kind() == ErrorKind::NotFound => {
                Ok(String::from_str(self.alloc(), path)?)
            }
            real => real,
        }
    }

    /// The path under which a file is made that is to have that path.
    fn unfinished(&self, to: &str) -> io::Result<String> {
        Ok(format!(in self.alloc(); "{to}{UNFINISHED}")?)
    }

    /// What has a path, if anything does. A link isn't followed.
    fn there(&self, path: &str) -> io::Result<Option<Metadata>> {
        match fs::symlink_metadata(self.runtime(), path) {
            Ok(found) => Ok(Some(found)),
            Err(cause) if cause.kind() == ErrorKind::NotFound => Ok(None),
            Err(cause) => Err(cause),
        }
    }

    /// What a new file of that path is to replace, if anything: a regular file, if it may be. A
    /// link that leads nowhere isn't replaced.
    fn replaced(&self, to: &str, replace: bool) -> io::Result<Option<Metadata>> {
        if to.is_empty() {
            return Err(io::Error::from(ErrorKind::NotFound));
        }
        let found = self.there(to)?;
        match &found {
            Some(old) if !replace || kind_of(old) != FileKind::Regular => {
                Err(io::Error::from(ErrorKind::AlreadyExists))
            }
            _ => Ok(found),
        }
    }

    /// Begins a file for a path. While it is to replace another one, nobody else may read it.
    fn begin(&self, to: String, replaces: bool, sparse: bool) -> io::Result<NewFile> {
        let path = self.unfinished(&to)?;
        let file = OpenOptions::new()
            .write(true)
            .create_new(true)
            .mode(if replaces { OWNER_ALONE } else { NEW_FILE })
            .open(self.runtime(), &path)?;
        Ok(NewFile {
            file,
            path,
            to,
            replaces,
            sparse,
            at: 0,
        })
    }

    /// Gives a new file the path that it is to have. A file that came to have that path meanwhile
    /// isn't replaced.
    fn name(&self, target: &NewFile) -> io::Result<()> {
        if !self.has_path(target) {
            return Err(io::Error::from(ErrorKind::NotFound));
        }
        if target.replaces {
            return fs::rename(self.runtime(), &target.path, &target.to);
        }
        match fs::hard_link(self.runtime(), &target.path, &target.to) {
            Ok(()) => {
                let _ = fs::remove_file(self.runtime(), &target.path);
                Ok(())
            }
            Err(cause) if is_without_links(cause.kind()) => self.rename_to_free(target),
            refused => refused,
        }
    }

    /// Renames a new file, where a file system has no second names for a file.
    fn rename_to_free(&self, target: &NewFile) -> io::Result<()> {
        if self.there(&target.to)?.is_some() {
            return Err(io::Error::from(ErrorKind::AlreadyExists));
        }
        fs::rename(self.runtime(), &target.path, &target.to)
    }

    /// Whether a new file still has its unfinished path: another program may have removed it, and
    /// have begun its own.
    fn has_path(&self, target: &NewFile) -> bool {
        match (self.there(&target.path), target.file.metadata()) {
            (Ok(Some(there)), Ok(ours)) => there.dev() == ours.dev() && there.ino() == ours.ino(),
            _ => false,
        }
    }
}

/// Whether a link may be refused for that because the file system has none: `EPERM`, `EOPNOTSUPP`,
/// `ENOSYS` and `EMLINK`.
fn is_without_links(kind: ErrorKind) -> bool {
    matches!(
        kind,
        ErrorKind::PermissionDenied | ErrorKind::Unsupported | ErrorKind::TooManyLinks
    )
}

/// Gives a new file its length, and the mode, owner and group of the one that it is to replace.
/// Where a file system refuses that mode, the file keeps the one that it was made with.
fn prepare(file: &File, old: Option<Metadata>, size: u64) -> io::Result<()> {
    if let Some(old) = old {
        let mode = mode_after(&old, own_as(file, &old));
        let _ = file.set_permissions(Permissions::from_mode(mode));
    }
    file.set_len(size)
}

/// Gives a file the owner and the group of another one, as far as that is permitted. It answers
/// whether the group is the same then.
fn own_as(file: &File, old: &Metadata) -> bool {
    if fchown(file, Some(old.uid()), Some(old.gid())).is_ok() {
        return true;
    }
    fchown(file, None, Some(old.gid())).is_ok()
}

/// Who may read, write and run a file that replaces another one: no more than could before. Another
/// group may do nothing.
fn mode_after(old: &Metadata, has_group: bool) -> u32 {
    let mode = old.mode() & PERMISSIONS;
    if has_group { mode } else { mode & !GROUP }
}

impl Target for NewFile {
    ghost contents = { λ _. None };

    ghost made_for = { λ _. None };

    fn append(&mut self, source: &[u8]) -> io::Result<()> {
        if self.sparse {
            write_blocks(&self.file, source, self.at)?;
        } else {
            self.file.write_all_at(source, self.at)?;
        }
        self.at = self.at.wrapping_add(source.len() as u64);
        Ok(())
    }

    fn append_zeroes(&mut self, count: u64) -> io::Result<()> {
        if !self.sparse {
            write_zeroes(&self.file, count, self.at)?;
        }
        self.at = self.at.wrapping_add(count);
        Ok(())
    }
}

impl Target for ExistingFile {
    ghost contents = { λ _. None };

    ghost made_for = { λ _. None };

    fn append(&mut self, source: &[u8]) -> io::Result<()> {
        self.file.write_all_at(source, self.at)?;
        self.at = self.at.wrapping_add(source.len() as u64);
        Ok(())
    }

    fn append_zeroes(&mut self, count: u64) -> io::Result<()> {
        write_zeroes(&self.file, count, self.at)?;
        self.at = self.at.wrapping_add(count);
        Ok(())
    }
}
