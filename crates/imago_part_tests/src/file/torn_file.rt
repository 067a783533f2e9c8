// SPDX-License-Identifier: MIT
//! A file in memory whose writes are torn.
ghost use Rattle.std.specs.Prelude.{None};
ghost use Rattle.imago_file.specs.FileCalls.{any_calls};

use imago_file::host::{HostFile, MemoryFile};
use std::io::{self, ErrorKind};

/// A file in memory that takes so many changes and syncs, and refuses each behind these: of a write
/// it makes a part even then. It tells nothing of what it holds, as a file of the system.
#[derive(Drop)]
pub struct TornFile {
    inner: MemoryFile,
    /// How many changes and syncs it still takes.
    taken: u64,
    /// How many bytes of a refused write are written.
    torn: usize,
}

impl TornFile {
    /// That file, with so many calls to be taken, and so many bytes of a refused write.
    pub fn new(inner: MemoryFile, taken: u64, torn: usize) -> Self {
        TornFile { inner, taken, torn }
    }

    /// Whether one more call is taken.
    fn takes(&mut self) -> bool {
        let takes = self.taken > 0;
        self.taken = self.taken.saturating_sub(1);
        takes
    }

    /// What it holds.
    pub fn as_bytes(&self) -> &[u8] {
        self.inner.as_bytes()
    }
}

impl HostFile for TornFile {
    ghost contents = { λ _. None };

    ghost calls = { any_calls };

    fn length(&self) -> io::Result<u64> {
        self.inner.length()
    }

    fn read_at(&self, buf: &mut [u8], offset: u64) -> io::Result<()> {
        if self.taken == 0 {
            return Err(io::Error::from(ErrorKind::TimedOut));
        }
        self.inner.read_at(buf, offset)
    }

    fn write_at(&mut self, source: &[u8], offset: u64) -> io::Result<()> {
        if self.takes() {
            return self.inner.write_at(source, offset);
        }
        let part = self.torn.min(source.len());
        self.inner.write_at(&source[..part], offset)?;
        Err(io::Error::from(ErrorKind::StorageFull))
    }

    fn set_len(&mut self, size: u64) -> io::Result<()> {
        if self.takes() {
            return self.inner.set_len(size);
        }
        Err(io::Error::from(ErrorKind::QuotaExceeded))
    }

    fn sync_data(&mut self) -> io::Result<()> {
        if self.takes() {
            return self.inner.sync_data();
        }
        Err(io::Error::from(ErrorKind::ResourceBusy))
    }
}
