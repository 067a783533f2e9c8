// SPDX-License-Identifier: MIT
//! A storage in memory.
ghost use Rattle.std.specs.Prelude.{◌≡◌, ◌≢◌, ℕ, ◌≤◌, ◌<◌, ◌+◌, ◌-◌, ◌%◌, ◌^◌, Bool, true, false};
ghost use Rattle.std.specs.Prelude.{IsTrue, replicate, length, List, ◌++◌, Option, None, Some};
ghost use Rattle.std.specs.Prelude.{OnOk, OnErr, IfOk, IfErr, IsOk, option_map};
ghost use Rattle.imago_storage.specs.Powers.{IsAlignment};
ghost use Rattle.std.specs.Option.{option_copied};
ghost use Rattle.std.specs.String.{string_bytes};
ghost use Rattle.imago_storage.specs.Bytes.{splice, IsReadAt};
ghost use Rattle.imago_storage.specs.Features.{Features};
ghost use Rattle.imago_storage.specs.IoCount.{no_work};
ghost use Rattle.imago_storage.specs.Maintenance.{no_maintenance, resizes_bytes, writes_bytes};
ghost use Rattle.imago_storage.specs.Openings.{no_openings};
ghost use Rattle.imago_storage.specs.Mem.{mem_features, mem_lawful};

use crate::bytes::overwrite;
use crate::error::Error;
use crate::storage::{
    PreallocateMode, Storage, StorageCreateOptions, StorageOpenOptions, ZeroKind,
};
use std::alloc::Global;
use std::fmt;

/// Bytes in memory. The storage keeps what is written and never fails; a growth is filled with
/// zeroes, and is refused as [`Error::Memory`], with nothing changed, where there is no memory for
/// it. No call inside the length takes memory.
#[derive(Drop)]
pub struct MemStorage {
    name: Option<String>,
    bytes: Vec<u8>,
    mem_align: usize,
    req_align: usize,
    zero_align: usize,
    ghost mem_power: { IsAlignment mem_align },
    ghost req_power: { IsAlignment req_align },
    ghost zero_power: { IsAlignment zero_align },
    ghost zero_whole: { zero_align % req_align ≡ 0 },
}

/// Adds zeroes up to that length.
fn grow(bytes: &mut Vec<u8>, len: u64) -> Result<(), Error>
    ensures ok { OnOk result
        (bytes.new.items ≡ bytes.old.items ++ replicate (len - length bytes.old.items) 0) }
    ensures err { OnErr result (bytes.new.items ≡ bytes.old.items) }
    ensures memory { IfErr result (λ e. e ≡ Error.Memory) }
    ensures inside { len ≤ length bytes.old.items → IsOk result }
{
    if len <= bytes.len() as u64 {
        return Ok(());
    }
    lengthen(bytes, len as usize)
}

/// Adds zeroes up to that length. Room is asked for as a `Vec` does, for twice the bytes or more,
/// so that many small growths take linear time; where that is refused, exactly the new bytes are
/// asked for. It isn't a part of [`grow`], so that a write inside the length takes no time for it.
#[inline(never)]
fn lengthen(bytes: &mut Vec<u8>, len: usize) -> Result<(), Error>
    requires { length bytes.old.items ≤ len }
    ensures ok { OnOk result
        (bytes.new.items ≡ bytes.old.items ++ replicate (len - length bytes.old.items) 0) }
    ensures err { OnErr result (bytes.new.items ≡ bytes.old.items) }
    ensures memory { IfErr result (λ e. e ≡ Error.Memory) }
{
    let more = len - bytes.len();
    if bytes.reserve(more).is_err() {
        bytes.reserve_exact(more)?;
    }
    bytes.resize(len, 0)?;
    Ok(())
}

/// Puts the source at its offset, with zeroes where offsets are skipped.
fn put(bytes: &mut Vec<u8>, source: &[u8], offset: u64) -> Result<(), Error>
    requires { offset + length source.now < 2 ^ 64 }
    ensures ok { OnOk result (bytes.new.items ≡ splice bytes.old.items offset source.now) }
    ensures err { OnErr result (bytes.new.items ≡ bytes.old.items) }
    ensures memory { IfErr result (λ e. e ≡ Error.Memory) }
    ensures inside { offset + length source.now ≤ length bytes.old.items → IsOk result }
{
    let end = offset + source.len() as u64;
    grow(bytes, end)?;
    overwrite(bytes, source, offset as usize);
    Ok(())
}

/// Puts zeroes at their offset.
fn put_zeroes(bytes: &mut Vec<u8>, offset: u64, count: u64) -> Result<(), Error>
    requires { offset + count < 2 ^ 64 }
    ensures ok { OnOk result (bytes.new.items ≡ splice bytes.old.items offset (replicate count 0)) }
    ensures err { OnErr result (bytes.new.items ≡ bytes.old.items) }
    ensures memory { IfErr result (λ e. e ≡ Error.Memory) }
    ensures inside { offset + count ≤ length bytes.old.items → IsOk result }
{
    let end = offset + count;
    grow(bytes, end)?;
    clear(bytes, offset as usize, end as usize);
    Ok(())
}

/// Puts zeroes over the bytes from `start` to `end`.
#[tactic(auto, using(std::proofs::lemmas::List::places), unfolding(crate::specs::Bytes::splice))]
fn clear(bytes: &mut [u8], start: usize, end: usize)
    requires order { start ≤ end }
    requires within { end ≤ length bytes.old }
    ensures { bytes.new ≡ splice bytes.old start (replicate (end - start) 0) }
{
    bytes[start..end].fill(0);
}

/// Fills a buffer with the bytes from the offset on, with 0 past their end.
#[tactic(auto, using(std::proofs::lemmas::List::places), unfolding(crate::specs::Bytes::splice))]
fn copy_out(bytes: &[u8], buf: &mut [u8], offset: u64)
    ensures { IsReadAt bytes.now offset buf.new }
{
    if offset >= bytes.len() as u64 {
        buf.fill(0);
        return;
    }
    let start = offset as usize;
    let n = buf.len().min(bytes.len() - start);
    buf[..n].copy_from_slice(&bytes[start..start + n]);
    buf[n..].fill(0);
}

impl MemStorage {
    /// A storage of these bytes, without a name, all alignments 1.
    pub fn new(bytes: Vec<u8>) -> Self
        ensures bytes { ⟦<MemStorage as Storage>⟧.bytes result ≡ bytes.items }
        ensures features { ⟦<MemStorage as Storage>⟧.features result ≡ mem_features None 1 1 1 }
    {
        MemStorage {
            name: None,
            bytes,
            mem_align: 1,
            req_align: 1,
            zero_align: 1,
        }
    }

    /// A storage of these bytes with that file name, all alignments 1.
    pub fn named(name: String, bytes: Vec<u8>) -> Self
        ensures bytes { ⟦<MemStorage as Storage>⟧.bytes result ≡ bytes.items }
        ensures features { ⟦<MemStorage as Storage>⟧.features result
            ≡ mem_features (Some (string_bytes name)) 1 1 1 }
    {
        MemStorage {
            name: Some(name),
            bytes,
            mem_align: 1,
            req_align: 1,
            zero_align: 1,
        }
    }

    /// Sets both `mem_align` and `req_align`, and with them `zero_align`.
    /// [`is_alignment`](crate::storage::is_alignment) tests what is required.
    pub fn with_align(self, align: usize) -> Self
        requires { IsAlignment align }
        ensures bytes { ⟦<MemStorage as Storage>⟧.bytes result ≡ ⟦<MemStorage as Storage>⟧.bytes
            self }
        ensures features { ⟦<MemStorage as Storage>⟧.features result
            ≡ mem_features (⟦<MemStorage as Storage>⟧.features self).filename align align align }
    {
        self.with_aligns(align, align)
    }

    /// Sets `mem_align` and `req_align`, and `zero_align` to the latter.
    /// [`is_alignment`](crate::storage::is_alignment) of each tests what is required.
    pub fn with_aligns(self, mem_align: usize, req_align: usize) -> Self
        requires mem { IsAlignment mem_align }
        requires req { IsAlignment req_align }
        ensures bytes { ⟦<MemStorage as Storage>⟧.bytes result ≡ ⟦<MemStorage as Storage>⟧.bytes
            self }
        ensures features { ⟦<MemStorage as Storage>⟧.features result
            ≡ mem_features (⟦<MemStorage as Storage>⟧.features self).filename mem_align req_align
            req_align }
    {
        let MemStorage {
            name,
            bytes,
            mem_align: _,
            req_align: _,
            zero_align: _,
        } = self;
        MemStorage {
            name,
            bytes,
            mem_align,
            req_align,
            zero_align: req_align,
        }
    }

    /// Sets `zero_align`, a power of two and a multiple of `req_align`.
    pub fn with_zero_align(mut self, zero_align: usize) -> Self
        requires power { IsAlignment zero_align }
        requires whole { zero_align % (⟦<MemStorage as Storage>⟧.features self).req_align ≡ 0 }
        ensures bytes { ⟦<MemStorage as Storage>⟧.bytes result ≡ ⟦<MemStorage as Storage>⟧.bytes
            self }
        ensures features { ⟦<MemStorage as Storage>⟧.features result
            ≡ record (⟦<MemStorage as Storage>⟧.features self)
            { zero_align = zero_align } }
    {
        self.zero_align = zero_align;
        self
    }

    /// The bytes.
    pub fn as_bytes(&self) -> &[u8]
        ensures { result.now ≡ ⟦<MemStorage as Storage>⟧.bytes self.now }
    {
        &self.bytes
    }

    /// The bytes, taken out of the storage.
    pub fn into_bytes(self) -> Vec<u8>
        ensures { result.items ≡ ⟦<MemStorage as Storage>⟧.bytes self }
    {
        let MemStorage {
            name: _,
            bytes: taken,
            mem_align: _,
            req_align: _,
            zero_align: _,
        } = self;
        taken
    }
}

impl fmt::Display for MemStorage {
    fn fmt<W: fmt::Write>(&self, f: &mut fmt::Formatter<W>) -> fmt::Result {
        match &self.name {
            Some(name) => write!(f, "mem:{name}"),
            None => {
                let count = self.bytes.len();
                write!(f, "mem:[{count}B]")
            }
        }
    }
}

impl Storage for MemStorage {
    ghost bytes = { λ s. s.bytes.items };

    ghost features = { λ s. mem_features (option_map string_bytes s.name) s.mem_align s.req_align
        s.zero_align };

    ghost fault_count = { λ _. 0 };

    ghost work = { λ _. no_work };

    ghost maintenance = { record no_maintenance {
      written = writes_bytes (λ s. s.bytes.items);
      resized = resizes_bytes (λ s. s.bytes.items);
    } };

    ghost openings = { no_openings };

    ghost lawful = { λ s. mem_lawful (option_map string_bytes s.name) s.mem_align s.req_align
        s.zero_align s.mem_power s.req_power s.zero_power s.zero_whole };

    fn open(_opts: StorageOpenOptions) -> Result<Self, Error> {
        Err(Error::Unsupported)
    }

    fn create_open(_opts: StorageCreateOptions) -> Result<Self, Error> {
        Err(Error::Unsupported)
    }

    fn mem_align(&self) -> usize {
        self.mem_align
    }

    fn req_align(&self) -> usize {
        self.req_align
    }

    fn zero_align(&self) -> usize {
        self.zero_align
    }

    fn discard_align(&self) -> usize {
        self.req_align
    }

    fn size(&self) -> Result<u64, Error> {
        Ok(self.bytes.len() as u64)
    }

    /// Names in memory are not relative to one another: the same text comes back.
    fn resolve_relative_path(&self, alloc: Global, relative: &str) -> Result<String, Error>
        ensures same { IfOk result (λ path. string_bytes path ≡ relative.now) }
        ensures only { IfErr result (λ e. e ≡ Error.Memory) }
    {
        Ok(String::from_str(alloc, relative)?)
    }

    fn get_filename(&self) -> Option<&str> {
        match &self.name {
            Some(name) => Some(name.as_str()),
            None => None,
        }
    }

    fn pure_readv(&self, buf: &mut [u8], offset: u64) -> Result<(), Error> {
        copy_out(&self.bytes, buf, offset);
        Ok(())
    }

    fn pure_readv_mut(&mut self, buf: &mut [u8], offset: u64) -> Result<(), Error> {
        copy_out(&self.bytes, buf, offset);
        Ok(())
    }

    #[tactic(auto, using(crate::proofs::Splices::splice_length, std::proofs::lemmas::List::places))]
    fn pure_writev(&mut self, source: &[u8], offset: u64) -> Result<(), Error> {
        put(&mut self.bytes, source, offset)
    }

    #[tactic(auto, using(crate::proofs::Splices::splice_length, std::proofs::lemmas::List::places))]
    fn zero_in_place(&mut self, offset: u64, count: u64, _kind: ZeroKind) -> Result<(), Error> {
        put_zeroes(&mut self.bytes, offset, count)
    }

    fn pure_discard(&mut self, _offset: u64, _count: u64) -> Result<(), Error> {
        Ok(())
    }

    fn flush(&mut self) -> Result<(), Error> {
        Ok(())
    }

    fn sync(&mut self) -> Result<(), Error> {
        Ok(())
    }

    fn settle_writes(&mut self) -> Result<(), Error> {
        Ok(())
    }

    fn invalidate_cache(&mut self) -> Result<(), Error> {
        Ok(())
    }

    fn resize(&mut self, new_size: u64, _mode: PreallocateMode) -> Result<(), Error> {
        if new_size <= self.bytes.len() as u64 {
            self.bytes.truncate(new_size as usize);
            return Ok(());
        }
        grow(&mut self.bytes, new_size)
    }
}
