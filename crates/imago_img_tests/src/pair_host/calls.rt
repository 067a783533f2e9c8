// SPDX-License-Identifier: MIT
//! What a host with two files in memory does.
ghost use Rattle.std.specs.Prelude.{◌≡◌, ◌≤◌, ◌++◌, [], Some, true, false, drop, length};
ghost use Rattle.std.specs.Prelude.{MatchOption, OnErr, OnOk, ℕ, List};
ghost use Rattle.std.specs.String.{string_bytes};
ghost use Rattle.imago_img_files.specs.Files.{with_length};
ghost use Rattle.imago_img_tests.specs.Pairs.{pair_bytes, has_path};

use crate::memory_host::calls::{read_padded, take_append};
use crate::pair_host::{PairHost, PairTarget};
use imago_copy::target::Target;
use imago_file::host::MemoryFile as OpenFile;
use imago_img_files::host::{FileKind, FileStatus, Files, Host, LeftOver, Making};
use std::alloc::{AllocError, Global};
use std::io::{self, ErrorKind};

/// Puts bytes over the first ones of others.
#[tactic(auto, using(std::proofs::lemmas::List::places))]
fn put_first(file: &mut [u8], bytes: &[u8])
    requires { length bytes.now ≤ length file.old }
    ensures { file.new ≡ bytes.now ++ drop (length bytes.now) file.old }
{
    file[..bytes.len()].copy_from_slice(bytes);
}

/// Cuts a file at a length, or puts zeroes behind its bytes up to it.
fn set_length(file: &mut Vec<u8>, length: u64) -> io::Result<()>
    ensures resized { OnOk result (file.new.items ≡ with_length «length» file.old.items) }
    ensures refused { OnErr result (file.new.items ≡ file.old.items) }
{
    let Ok(length) = usize::try_from(length) else {
        return Err(io::Error::from(ErrorKind::FileTooLarge));
    };
    file.resize(length, 0)?;
    Ok(())
}

/// Puts bytes over the first ones of a file, which has those alone if it is shorter.
fn put_over(file: &mut Vec<u8>, bytes: Vec<u8>)
    ensures { file.new.items ≡ bytes.items ++ drop (length bytes.items) file.old.items }
{
    if bytes.len() >= file.len() {
        *file = bytes;
        return;
    }
    put_first(file, &bytes);
}

impl PairHost {
    /// An image, and a file that it is written into. Something may be put in that many times.
    pub fn new(
        alloc: Global,
        image: (&str, Vec<u8>),
        out: (&str, Vec<u8>),
        appends: u64,
    ) -> Result<Self, AllocError> {
        Ok(PairHost {
            alloc,
            image_path: String::from_str(alloc, image.0)?,
            image: image.1,
            out_path: String::from_str(alloc, out.0)?,
            out: out.1,
            appends,
            held: false,
        })
    }

    /// Lets QEMU hold both files.
    pub fn hold(&mut self) {
        self.held = true;
    }

    /// The bytes of the file of a path, if there is one.
    pub fn bytes(&self, path: &str) -> Option<&[u8]>
        ensures bytes { MatchOption result (pair_bytes self.now path.now ≡ [])
            (λ bytes. bytes.now ≡ pair_bytes self.now path.now) }
        ensures there { MatchOption result (has_path self.now path.now ≡ false)
            (λ _. has_path self.now path.now ≡ true) }
    {
        if self.out_path.as_str() == path {
            return Some(&self.out);
        }
        if self.image_path.as_str() == path {
            return Some(&self.image);
        }
        None
    }
}

impl Files for PairHost {
    ghost use Rattle.imago_img_tests.specs.Pairs.{pair_bytes};

    type File = OpenFile;

    ghost contents = { λ h. Some (pair_bytes h) };

    fn alloc(&self) -> Global {
        self.alloc
    }

    fn status(&self, path: &str) -> io::Result<FileStatus> {
        let Some(bytes) = self.bytes(path) else {
            return Err(io::Error::from(ErrorKind::NotFound));
        };
        Ok(FileStatus {
            kind: FileKind::Regular,
            length: bytes.len() as u64,
            device: 1,
            inode: (self.out_path.as_str() == path) as u64,
        })
    }

    fn read_at(&self, path: &str, buf: &mut [u8], offset: u64) -> io::Result<()> {
        let Some(bytes) = self.bytes(path) else {
            return Err(io::Error::from(ErrorKind::NotFound));
        };
        read_padded(bytes, buf, offset);
        Ok(())
    }

    fn is_same_file(&self, one: &str, other: &str) -> io::Result<bool> {
        Ok(one == other)
    }

    fn real_path(&self, path: &str) -> io::Result<String> {
        Ok(String::from_str(self.alloc, path)?)
    }
}

impl Host for PairHost {
    ghost use Rattle.imago_img_tests.specs.Pairs.{has_path};

    type Target = Vec<u8>;

    type Existing = PairTarget;

    ghost around = { λ h. Some (record {
      there = has_path h;
      unfinished = 0;
      beside = λ path. path;
      held = λ _. h.held;
    }) };

    fn run_at(&self, _path: &str, _offset: u64, most: u64) -> (u64, bool) {
        (most, true)
    }

    fn size_on_disk(&self, _path: &str) -> Option<u64> {
        None
    }

    fn found(&self, path: &str) -> io::Result<Option<FileStatus>> {
        if self.bytes(path).is_none() {
            return Ok(None);
        }
        Ok(Some(self.status(path)?))
    }

    fn is_held(&self, _path: &str) -> io::Result<bool> {
        Ok(self.held)
    }

    fn show_progress(&self, _done: u64, _total: u64, _hundredths: u64) {}

    fn end_progress(&self) {}

    fn left_over(&self, _path: &str) -> io::Result<Option<LeftOver>> {
        Ok(None)
    }

    fn remove_left_over(&mut self, _path: &str) -> io::Result<()> {
        Err(io::Error::from(ErrorKind::NotFound))
    }

    fn create(&mut self, _path: &str, _size: u64, _how: Making) -> io::Result<Vec<u8>> {
        Err(io::Error::from(ErrorKind::Unsupported))
    }

    fn finish(&mut self, target: Vec<u8>) -> io::Result<()> {
        let _ = target;
        Err(io::Error::from(ErrorKind::Unsupported))
    }

    fn abandon(&mut self, target: Vec<u8>) {
        let _ = target;
    }

    fn open_existing(&mut self, path: &str) -> io::Result<PairTarget> {
        let Some(bytes) = self.bytes(path) else {
            return Err(io::Error::from(ErrorKind::NotFound));
        };
        let size = bytes.len() as u64;
        Ok(PairTarget {
            path: String::from_str(self.alloc, path)?,
            size,
            bytes: Vec::new(self.alloc),
            appends: self.appends,
        })
    }

    // A file shows what was put over it once it is closed.
    fn close_existing(&mut self, target: PairTarget) {
        let is_out = self.out_path.as_str() == target.path.as_str();
        if is_out {
            put_over(&mut self.out, target.bytes);
        } else {
            put_over(&mut self.image, target.bytes);
        }
    }

    fn set_length(&mut self, path: &str, length: u64) -> io::Result<()> {
        if self.out_path.as_str() == path {
            set_length(&mut self.out, length)?;
            return Ok(());
        }
        if self.image_path.as_str() == path {
            set_length(&mut self.image, length)?;
            return Ok(());
        }
        Err(io::Error::from(ErrorKind::NotFound))
    }
}

impl Target for PairTarget {
    ghost contents = { λ t. Some t.bytes.items };

    ghost made_for = { λ t. Some (string_bytes t.path, t.size) };

    fn append(&mut self, source: &[u8]) -> io::Result<()> {
        take_append(&mut self.appends)?;
        Target::append(&mut self.bytes, source)
    }

    fn append_zeroes(&mut self, count: u64) -> io::Result<()> {
        take_append(&mut self.appends)?;
        Target::append_zeroes(&mut self.bytes, count)
    }
}
