// SPDX-License-Identifier: MIT
//! The system's files, read by their paths.
ghost use Rattle.std.specs.Prelude.{◌≡◌, ◌+◌, ◌-◌, ◌<◌, ◌≤◌, min, None, IfOk, IfSome, IsNone, true};
ghost use Rattle.std.specs.Prelude.{false, length, drop, option_to_list};
ghost use Rattle.std.specs.String.{string_bytes};

use imago_file::host::HostFile;
use imago_images::files::{FileKind, FileStatus, Files, WritableFiles};
use std::alloc::Global;
use std::cell::Cell;
use std::fs::{self, File, Metadata, OpenOptions};
use std::io::{self, ErrorKind, Seek, SeekFrom};
use std::os::unix::fs::{FileTypeExt, MetadataExt};

/// How many files are kept open, where nothing else is asked for.
const MOST_OPEN: usize = 16;

/// The system's files.
///
/// A file is opened for the first question about its bytes or its end, and stays open for later
/// ones. A number of files do: before another is opened, the one that wasn't used for the longest
/// time is closed, and all are where the system refuses to open one more. A file that refuses a
/// read is closed at once, and all are by [`close_all`](Self::close_all). While a file is open, such
/// questions don't ask again what its path leads to; `status` and `real_path` always do.
///
/// No contract says what the system's files hold, so nothing is told of the bytes of images in them.
#[derive(Drop)]
pub struct SystemFiles<'a> {
    runtime: &'a HostRuntime,
    /// The files that are kept open, in the order in which they were used.
    kept: Cell<Vec<OpenFile>>,
    /// How many files may be open beside the one that is used.
    others: usize,
}

/// A file that is open, and its path.
#[derive(Drop)]
struct OpenFile {
    path: String,
    file: File,
    /// Whether it is a regular file, once that was asked. An open file stays of its kind.
    is_regular: Option<bool>,
}

impl<'a> SystemFiles<'a> {
    /// The files of that runtime, of which up to sixteen are kept open.
    pub fn new(runtime: &'a HostRuntime) -> Self {
        SystemFiles::with_most_open(runtime, MOST_OPEN)
    }

    /// The files of that runtime, of which up to that many are kept open, and at least one.
    pub fn with_most_open(runtime: &'a HostRuntime, most: usize) -> Self {
        SystemFiles {
            runtime,
            kept: Cell::new(Vec::new(runtime.alloc())),
            others: most.saturating_sub(1),
        }
    }

    /// The files that are kept open, out of their cell: none are in it until it is set again.
    fn take_kept(&self) -> Vec<OpenFile> {
        self.kept.replace(Vec::new(self.runtime.alloc()))
    }

    /// The file of a path, open: one of those that are kept, of which it is none any more, or one
    /// that is opened now.
    fn open(&self, kept: &mut Vec<OpenFile>, path: &str) -> io::Result<OpenFile>
        ensures { IfOk result (λ found. string_bytes found.path ≡ path.now) }
    {
        if let Some(open) = take_file(kept, path) {
            return Ok(open);
        }
        close_unused(kept, self.others);
        self.open_anew(kept, path)
    }

    /// Opens the file of a path. Where that is refused, it is tried once more with all files closed
    /// that are kept: the system may allow fewer open files than these.
    fn open_anew(&self, kept: &mut Vec<OpenFile>, path: &str) -> io::Result<OpenFile>
        ensures { IfOk result (λ found. string_bytes found.path ≡ path.now) }
    {
        let opened = OpenFile::open(self.runtime, path);
        if opened.is_ok() || kept.is_empty() {
            return opened;
        }
        close_unused(kept, 0);
        OpenFile::open(self.runtime, path)
    }

    /// The runtime whose files these are.
    pub fn runtime(&self) -> &'a HostRuntime {
        self.runtime
    }

    /// Closes the files that are kept open.
    pub fn close_all(&self) {
        self.take_kept();
    }

    /// How many bytes of the file of a path from an offset on, of at most that many, come before the
    /// file's end, and that they do; or how many are behind it. There is at least one. Where the end
    /// isn't known, as that of a device, all of them do.
    pub fn run_at(&self, path: &str, offset: u64, most: u64) -> (u64, bool)
        requires { 0 < most }
        ensures some { 0 < result.0 }
        ensures within { result.0 ≤ most }
    {
        let mut kept = self.take_kept();
        let run = match self.open(&mut kept, path) {
            Ok(mut open) => {
                let run = run_in(open.length(), offset, most);
                put_last(&mut kept, open, self.others);
                run
            }
            Err(_) => (most, true),
        };
        self.kept.set(kept);
        run
    }

    /// Reads from the file of a path, which is kept open unless it refuses.
    fn read(
        &self,
        kept: &mut Vec<OpenFile>,
        path: &str,
        buf: &mut [u8],
        offset: u64,
    ) -> io::Result<()> {
        if let Some(read) = read_last(kept, path, buf, offset) {
            return read;
        }
        let open = self.open(kept, path)?;
        open.read(buf, offset)?;
        put_last(kept, open, self.others);
        Ok(())
    }
}

/// Reads from the file that was used last, if it is that of the path: then it keeps its place. It is
/// closed where it refuses.
fn read_last(
    kept: &mut Vec<OpenFile>,
    path: &str,
    buf: &mut [u8],
    offset: u64,
) -> Option<io::Result<()>> {
    let last = kept.last()?;
    if last.path.as_str() != path {
        return None;
    }
    let read = last.read(buf, offset);
    if read.is_err() {
        kept.pop();
    }
    Some(read)
}

/// Takes the file of a path out of those that are kept, if it is there. The one that was used last
/// is looked at first.
fn take_file(kept: &mut Vec<OpenFile>, path: &str) -> Option<OpenFile>
    ensures path { IfSome result (λ found. string_bytes found.path ≡ path.now) }
    ensures taken { length kept.new.items + length (option_to_list result)
        ≡ length kept.old.items }
{
    for index in (0..kept.len()).rev() {
        if kept[index].path.as_str() == path {
            return Some(kept.remove(index));
        }
    }
    None
}

/// Closes the files that weren't used for the longest time, until at most that many are kept.
fn close_unused(kept: &mut Vec<OpenFile>, most: usize)
    ensures { kept.new.items ≡ drop (length kept.old.items - most) kept.old.items }
{
    let surplus = kept.len().saturating_sub(most);
    if surplus > 0 {
        kept.drain(..surplus);
    }
}

/// Puts a file behind those that are kept, of which at most that many others stay. Where memory for
/// it is refused, it is closed.
fn put_last(kept: &mut Vec<OpenFile>, open: OpenFile, others: usize)
    ensures { length kept.new.items ≤ others + 1 }
{
    close_unused(kept, others);
    let _ = kept.push(open);
}

impl OpenFile {
    /// Opens the file of a path.
    fn open(runtime: &HostRuntime, path: &str) -> io::Result<OpenFile>
        ensures { IfOk result (λ found. string_bytes found.path ≡ path.now) }
    {
        Ok(OpenFile {
            path: String::from_str(runtime.alloc(), path)?,
            file: File::open(runtime, path)?,
            is_regular: None,
        })
    }

    /// Fills the buffer with the file's bytes from the offset on, with 0 past its end. A read that
    /// would pass the greatest offset is refused.
    fn read(&self, buf: &mut [u8], offset: u64) -> io::Result<()> {
        if buf.len() as u64 > u64::MAX - offset {
            return Err(io::Error::from(ErrorKind::InvalidInput));
        }
        HostFile::read_at(&self.file, buf, offset)
    }

    /// How many bytes the file has now, where it is known to be a regular one.
    ///
    /// A seek to the end tells it for less than the attributes do. Reads are at offsets, so nothing
    /// depends on where it leaves the file. Where it is refused, the attributes still tell.
    fn length(&mut self) -> Option<u64> {
        match self.is_regular {
            Some(false) => return None,
            Some(true) => {
                if let Ok(length) = (&self.file).seek(SeekFrom::End(0)) {
                    return Some(length);
                }
            }
            None => {}
        }
        let metadata = self.file.metadata().ok()?;
        self.is_regular = Some(metadata.is_file());
        metadata.is_file().then_some(metadata.len())
    }
}

/// What a file is by its attributes.
pub fn kind_of(metadata: &Metadata) -> FileKind {
    let kind = metadata.file_type();
    if kind.is_file() {
        FileKind::Regular
    } else if kind.is_block_device() {
        FileKind::BlockDevice
    } else {
        FileKind::Other
    }
}

/// How many bytes from the offset on, of at most that many, come before the end of a file of that
/// length, and that they do; or how many are behind it. There is at least one.
fn run_in(length: Option<u64>, offset: u64, most: u64) -> (u64, bool)
    requires { 0 < most }
    ensures some { 0 < result.0 }
    ensures within { result.0 ≤ most }
    ensures before { IfSome length
        (λ n. «offset» < n → result ≡ (min most (n - «offset»), true)) }
    ensures behind { IfSome length (λ n. n ≤ «offset» → result ≡ (most, false)) }
    ensures unknown { IsNone length → result ≡ (most, true) }
{
    match length {
        Some(length) if length <= offset => (most, false),
        Some(length) => (most.min(length - offset), true),
        None => (most, true),
    }
}

/// How many bytes a device has; 0 where it can't be told.
fn device_length(mut file: File) -> u64 {
    file.seek(SeekFrom::End(0)).unwrap_or(0)
}

impl<'a> Files for SystemFiles<'a> {
    type File = File;

    ghost contents = { λ _. None };

    fn alloc(&self) -> Global {
        self.runtime.alloc()
    }

    fn status(&self, path: &str) -> io::Result<FileStatus> {
        let metadata = fs::metadata(self.runtime, path)?;
        let kind = kind_of(&metadata);
        let mut length = metadata.len();
        if kind == FileKind::BlockDevice {
            length = device_length(File::open(self.runtime, path)?);
        }
        Ok(FileStatus {
            kind,
            length,
            device: metadata.dev(),
            inode: metadata.ino(),
        })
    }

    fn read_at(&self, path: &str, buf: &mut [u8], offset: u64) -> io::Result<()> {
        let mut kept = self.take_kept();
        let read = self.read(&mut kept, path, buf, offset);
        self.kept.set(kept);
        read
    }

    fn is_same_file(&self, one: &str, other: &str) -> io::Result<bool> {
        let one = fs::metadata(self.runtime, one)?;
        let other = fs::metadata(self.runtime, other)?;
        Ok(one.dev() == other.dev() && one.ino() == other.ino())
    }

    fn real_path(&self, path: &str) -> io::Result<String> {
        Ok(fs::canonicalize(self.runtime, path)?.into_string())
    }
}

impl<'a> WritableFiles for SystemFiles<'a> {
    fn open_to_write(&mut self, path: &str) -> io::Result<File> {
        OpenOptions::new()
            .read(true)
            .write(true)
            .open(self.runtime, path)
    }
}
