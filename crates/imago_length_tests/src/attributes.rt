// SPDX-License-Identifier: MIT
//! The system's files, whose lengths are told by their attributes, asked for at each question. This
//! is what `System` did before it sought the end of a file, kept as it was for the comparison.
use std::cell::Cell;
use std::fs::File;
use std::io;
use std::os::unix::fs::FileExt;

/// The system's files. One that was read stays open until another one is.
#[derive(Drop)]
pub struct ByAttributes<'a> {
    runtime: &'a HostRuntime,
    last: Cell<Option<OpenFile>>,
}

/// A file that is open, and its path.
#[derive(Drop)]
struct OpenFile {
    path: String,
    file: File,
}

/// Fills the buffer with a file's bytes from the offset on, with 0 past its end.
fn read_padded(file: &File, buf: &mut [u8], offset: u64) -> io::Result<()> {
    let mut done: usize = 0;
    while done < buf.len() {
        let count = file.read_at(&mut buf[done..], offset.wrapping_add(done as u64))?;
        if count == 0 {
            buf[done..].fill(0);
            return Ok(());
        }
        done += count;
    }
    Ok(())
}

/// How many bytes from the offset on, of at most that many, come before the end of a file, and that
/// they do; or how many are behind it. The end of what is no regular file can't be told so.
fn run_in(file: &File, offset: u64, most: u64) -> (u64, bool) {
    match file.metadata() {
        Ok(metadata) if metadata.is_file() => match metadata.len().saturating_sub(offset) {
            0 => (most, false),
            left => (most.min(left), true),
        },
        _ => (most, true),
    }
}

impl<'a> ByAttributes<'a> {
    /// The files of that runtime.
    pub fn new(runtime: &'a HostRuntime) -> Self {
        ByAttributes {
            runtime,
            last: Cell::new(None),
        }
    }

    /// The file of a path, open: the one that was kept, if it is that.
    fn open(&self, path: &str) -> io::Result<OpenFile> {
        match self.last.take() {
            Some(open) if open.path.as_str() == path => Ok(open),
            _ => Ok(OpenFile {
                path: String::from_str(self.runtime.alloc(), path)?,
                file: File::open(self.runtime, path)?,
            }),
        }
    }

    /// Keeps a file for the next read.
    fn keep(&self, open: OpenFile) {
        self.last.set(Some(open));
    }

    /// Fills the buffer with the file's bytes from the offset on, with 0 past its end.
    pub fn read_at(&self, path: &str, buf: &mut [u8], offset: u64) -> io::Result<()> {
        let open = self.open(path)?;
        read_padded(&open.file, buf, offset)?;
        self.keep(open);
        Ok(())
    }

    /// How many bytes from the offset on are in one hole of a file, or come before its next one;
    /// and whether they do. There is at least one.
    pub fn run_at(&self, path: &str, offset: u64, most: u64) -> (u64, bool) {
        let Ok(open) = self.open(path) else {
            return (most, true);
        };
        let run = run_in(&open.file, offset, most);
        self.keep(open);
        run
    }
}
