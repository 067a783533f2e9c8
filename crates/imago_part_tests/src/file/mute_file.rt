// SPDX-License-Identifier: MIT
//! Files that don't tell their length, and a host of them.
ghost use Rattle.std.specs.Prelude.{None};
ghost use Rattle.imago_file.specs.FileCalls.{any_calls};
ghost use Rattle.imago_file.specs.Opening.{any_opening};

use imago_file::host::HostFile;
use imago_file::opening::HostFiles;
use std::cell::Cell;
use std::io::{self, ErrorKind};

/// A file that doesn't tell its length. What changes or syncs it is counted where others see it.
#[derive(Drop)]
pub struct MuteFile<'a> {
    changes: &'a Cell<u64>,
}

impl<'a> MuteFile<'a> {
    /// A file whose changes and syncs are counted there.
    pub fn new(changes: &'a Cell<u64>) -> Self {
        MuteFile { changes }
    }

    /// Counts a change.
    fn change(&mut self) -> io::Result<()> {
        self.changes.set(self.changes.get().saturating_add(1));
        Ok(())
    }
}

impl<'a> HostFile for MuteFile<'a> {
    ghost contents = { λ _. None };

    ghost calls = { any_calls };

    fn length(&self) -> io::Result<u64> {
        Err(io::Error::from(ErrorKind::TimedOut))
    }

    fn read_at(&self, _buf: &mut [u8], _offset: u64) -> io::Result<()> {
        Err(io::Error::from(ErrorKind::TimedOut))
    }

    fn write_at(&mut self, _source: &[u8], _offset: u64) -> io::Result<()> {
        self.change()
    }

    fn set_len(&mut self, _size: u64) -> io::Result<()> {
        self.change()
    }

    fn sync_data(&mut self) -> io::Result<()> {
        self.change()
    }
}

/// A host whose files are all of that kind, and are counted together.
#[derive(Drop)]
pub struct MuteFiles<'a> {
    changes: &'a Cell<u64>,
}

impl<'a> MuteFiles<'a> {
    /// A host whose files count their changes and syncs there.
    pub fn new(changes: &'a Cell<u64>) -> Self {
        MuteFiles { changes }
    }
}

impl<'a> HostFiles for MuteFiles<'a> {
    type File = MuteFile<'a>;

    ghost opened = { any_opening };

    ghost created = { any_opening };

    fn open_path(&mut self, _path: &str, _writable: bool) -> io::Result<MuteFile<'a>> {
        Ok(MuteFile::new(self.changes))
    }

    fn create_path(&mut self, _path: &str, _replace: bool) -> io::Result<MuteFile<'a>> {
        Ok(MuteFile::new(self.changes))
    }
}
