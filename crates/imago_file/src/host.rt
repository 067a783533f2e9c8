// SPDX-License-Identifier: MIT
//! Open files: the system's, and files in memory.
ghost use Rattle.std.specs.Prelude.{◌≡◌, ◌+◌, ◌-◌, ◌≤◌, ◌<◌, ◌^◌, ◌++◌, ℕ, List, Option, Some};
ghost use Rattle.std.specs.Prelude.{None, OnOk, OnErr, IfOk, IsOk, length, replicate};
ghost use Rattle.imago_storage.specs.Bytes.{splice, IsReadAt};
ghost use Rattle.imago_file.specs.Contents.{IsLong, HoldsAt, spliced, sized, resized, IsCut};
ghost use Rattle.imago_file.specs.FileCalls.{FileCalls, any_calls};
ghost use Rattle.imago_file.specs.MemoryFile.{memory_calls};

use std::fs::File;
use std::io::{self, ErrorKind, Seek, SeekFrom};
use std::os::unix::fs::{FileExt, FileTypeExt};

/// A file that is open: bytes at offsets. Offsets and lengths are in bytes.
///
/// An implementation that tells what its file holds, as [`MemoryFile`] does, owes every clause on
/// bytes. The system's [`File`] tells nothing, and owes none of them.
pub trait HostFile: Drop + Sized {
    /// The file's bytes, where an implementation tells them.
    ghost contents: { Self → Option (List ℕ) };

    /// What each call is: only the call itself gives its relation.
    ghost calls: { FileCalls Self };

    /// How long the file is. What has no bytes at offsets, as a folder or a pipe, is refused as
    /// [`ErrorKind::InvalidInput`].
    fn length(&self) -> io::Result<u64>
        ensures told { IfOk result (λ n. IsLong (contents self.now) n) }
        ensures performed { calls.measured self.now result };

    /// Fills the buffer with the bytes from the offset on, with 0 past the file's end. Refused, the
    /// buffer is unspecified.
    fn read_at(&self, buf: &mut [u8], offset: u64) -> io::Result<()>
        requires { offset + length buf.old < 2 ^ 64 }
        ensures told { OnOk result (HoldsAt (contents self.now) offset buf.new) }
        ensures performed { calls.read offset buf.new self.now result };

    /// Writes the bytes at the offset. The file grows to their end, by zeroes where offsets are
    /// skipped. Refused, a file that is told is as it was; of one that isn't, any part may be
    /// written.
    fn write_at(&mut self, source: &[u8], offset: u64) -> io::Result<()>
        requires { offset + length source.now < 2 ^ 64 }
        ensures written { OnOk result
            (contents self.new ≡ spliced (contents self.old) offset source.now) }
        ensures refused { OnErr result (contents self.new ≡ contents self.old) }
        ensures performed { calls.written offset source.now self.old self.new result };

    /// Sets the length: the file is cut, or grows by zeroes. Refused, a file that is told is as it
    /// was, and a cut of one isn't refused.
    fn set_len(&mut self, size: u64) -> io::Result<()>
        ensures sized { OnOk result (contents self.new ≡ resized (contents self.old) size) }
        ensures refused { OnErr result (contents self.new ≡ contents self.old) }
        ensures cut { IsCut (contents self.old) size result }
        ensures performed { calls.resized size self.old self.new result };

    /// Syncs the file's data to the hardware, and of what describes it as much as is needed to read
    /// it back.
    fn sync_data(&mut self) -> io::Result<()>
        ensures same { contents self.new ≡ contents self.old }
        ensures performed { calls.synced self.old self.new result };
}

/// The greatest offset that the system takes, in bytes.
const MAX_OFFSET: u64 = (1 << 63) - 1;

/// An open file of the system. What it holds isn't told.
///
/// A regular file is as long as its attributes say, and a block device as far as it can be sought.
/// The system resizes regular files alone.
/// Behind the greatest offset that the system takes, `i64::MAX`, no file has bytes: a read there
/// gives zeroes, and a write is refused.
impl HostFile for File {
    ghost contents = { λ _. None };

    ghost calls = { any_calls };

    fn length(&self) -> io::Result<u64> {
        let metadata = self.metadata()?;
        if metadata.is_file() {
            return Ok(metadata.len());
        }
        if metadata.file_type().is_block_device() {
            let mut device = self;
            return device.seek(SeekFrom::End(0));
        }
        Err(no_file())
    }

    fn read_at(&self, buf: &mut [u8], offset: u64) -> io::Result<()> {
        let mut done: usize = 0;
        for _ in 0..u64::MAX {
            if done == buf.len() {
                return Ok(());
            }
            match read_some(self, &mut buf[done..], offset + done as u64) {
                Ok(0) => {
                    buf[done..].fill(0);
                    return Ok(());
                }
                Ok(count) => done += count,
                Err(cause) if cause.kind() == ErrorKind::Interrupted => {}
                Err(cause) => return Err(cause),
            }
        }
        Err(io::Error::from(ErrorKind::TimedOut))
    }

    fn write_at(&mut self, source: &[u8], offset: u64) -> io::Result<()> {
        if source.is_empty() && offset > self.length()? {
            return File::set_len(&*self, offset);
        }
        self.write_all_at(source, offset)
    }

    fn set_len(&mut self, size: u64) -> io::Result<()> {
        File::set_len(&*self, size)
    }

    fn sync_data(&mut self) -> io::Result<()> {
        File::sync_data(&*self)
    }
}

/// The refusal of what has no bytes at offsets.
pub(crate) fn no_file() -> io::Error {
    io::Error::new(
        ErrorKind::InvalidInput,
        "neither a regular file nor a block device",
    )
}

/// Reads what the system gives at once from the offset on, and answers how many bytes: none past
/// the file's end.
fn read_some(file: &File, buf: &mut [u8], offset: u64) -> io::Result<usize>
    ensures { IfOk result (λ n. n ≤ length buf.new) }
{
    if offset > MAX_OFFSET {
        return Ok(0);
    }
    FileExt::read_at(file, buf, offset)
}

/// A file in memory, which tells what it holds, and how often it was synced.
///
/// What needs more room than there is, is refused, with nothing changed. No other call is.
#[derive(Drop)]
pub struct MemoryFile {
    bytes: Vec<u8>,
    /// How often it was synced: a count that saturates.
    syncs: u64,
}

impl MemoryFile {
    ghost use Rattle.imago_file.specs.MemoryFile.{sync_count};

    /// A file that holds these bytes, and wasn't synced yet.
    pub fn new(bytes: Vec<u8>) -> Self
        ensures contents { ⟦<MemoryFile as HostFile>⟧.contents result ≡ Some bytes.items }
        ensures syncs { sync_count result ≡ 0 }
    {
        MemoryFile { bytes, syncs: 0 }
    }

    /// The bytes.
    pub fn as_bytes(&self) -> &[u8]
        ensures { Some result.now ≡ ⟦<MemoryFile as HostFile>⟧.contents self.now }
    {
        &self.bytes
    }

    /// How often it was synced: a count that saturates.
    pub fn syncs(&self) -> u64
        ensures { result ≡ sync_count self.now }
    {
        self.syncs
    }
}

/// Fills a buffer with the bytes from the offset on, with 0 past their end.
#[tactic(auto, using(std::proofs::lemmas::List::places))]
fn copy_out(bytes: &[u8], buf: &mut [u8], offset: u64)
    ensures { IsReadAt bytes.now offset buf.new }
{
    if offset >= bytes.len() as u64 {
        buf.fill(0);
        return;
    }
    let start = offset as usize;
    let n = buf.len().min(bytes.len() - start);
    buf[..n].copy_from_slice(&bytes[start..start + n]);
    buf[n..].fill(0);
}

impl HostFile for MemoryFile {
    ghost contents = { λ f. Some f.bytes.items };

    ghost calls = { memory_calls };

    fn length(&self) -> io::Result<u64> {
        Ok(self.bytes.len() as u64)
    }

    fn read_at(&self, buf: &mut [u8], offset: u64) -> io::Result<()> {
        copy_out(&self.bytes, buf, offset);
        Ok(())
    }

    fn write_at(&mut self, source: &[u8], offset: u64) -> io::Result<()> {
        put(&mut self.bytes, source, offset)
    }

    fn set_len(&mut self, size: u64) -> io::Result<()> {
        fit(&mut self.bytes, size as usize)
    }

    fn sync_data(&mut self) -> io::Result<()> {
        self.syncs = self.syncs.saturating_add(1);
        Ok(())
    }
}

/// Cuts the bytes, or fills them with zeroes, to that length.
#[tactic(auto, using(std::proofs::lemmas::List::places))]
fn fit(bytes: &mut Vec<u8>, size: usize) -> io::Result<()>
    ensures ok { OnOk result (bytes.new.items ≡ sized bytes.old.items size) }
    ensures err { OnErr result (bytes.new.items ≡ bytes.old.items) }
    ensures cut { size ≤ length bytes.old.items → IsOk result }
{
    if size <= bytes.len() {
        bytes.truncate(size);
        return Ok(());
    }
    bytes.resize(size, 0)?;
    Ok(())
}

/// Adds zeroes up to that length, if there are fewer bytes.
fn grow(bytes: &mut Vec<u8>, size: usize) -> io::Result<()>
    ensures ok { OnOk result
        (bytes.new.items ≡ bytes.old.items ++ replicate (size - length bytes.old.items) 0) }
    ensures err { OnErr result (bytes.new.items ≡ bytes.old.items) }
    ensures enough { size ≤ length bytes.old.items → IsOk result }
{
    if size <= bytes.len() {
        return Ok(());
    }
    bytes.resize(size, 0)?;
    Ok(())
}

/// Puts the source over the bytes from the start on.
#[tactic(auto, using(std::proofs::lemmas::List::places))]
fn overwrite(bytes: &mut [u8], source: &[u8], start: usize)
    requires { start + length source.now ≤ length bytes.old }
    ensures { bytes.new ≡ splice bytes.old start source.now }
{
    bytes[start..start + source.len()].copy_from_slice(source);
}

/// Puts the source at its offset, with zeroes where offsets are skipped.
fn put(bytes: &mut Vec<u8>, source: &[u8], offset: u64) -> io::Result<()>
    requires { offset + length source.now < 2 ^ 64 }
    ensures ok { OnOk result (bytes.new.items ≡ splice bytes.old.items offset source.now) }
    ensures err { OnErr result (bytes.new.items ≡ bytes.old.items) }
    ensures within { offset + length source.now ≤ length bytes.old.items → IsOk result }
{
    let end = offset + source.len() as u64;
    grow(bytes, end as usize)?;
    overwrite(bytes, source, offset as usize);
    Ok(())
}
