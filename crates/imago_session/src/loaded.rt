// SPDX-License-Identifier: MIT
//! A file of which some blocks are in memory.
ghost use Rattle.std.specs.Prelude.{◌≡◌, ℕ, ◌+◌, ◌*◌, ◌%◌, ◌^◌, ◌<◌, ◌≤◌, List, length};
ghost use Rattle.std.specs.Prelude.{slice_index, OnOk, IfErr, IfSome, IsTrue, ◌↔◌};
ghost use Rattle.std.specs.Arc.{arc_slice_items};
ghost use Rattle.imago_storage.specs.Bytes.{IsReadAt};
ghost use Rattle.imago_storage.specs.IoCount.{no_work};
ghost use Rattle.imago_storage.specs.Maintenance.{no_maintenance};
ghost use Rattle.imago_storage.specs.Openings.{no_openings};
ghost use Rattle.imago_session.specs.Features.{loaded_features, loaded_lawful};

use imago_qcow2::memory::TableMemory;
use imago_storage::error::Error;
use imago_storage::storage::{
    PreallocateMode, Storage, StorageCreateOptions, StorageOpenOptions, ZeroKind,
};
use std::alloc::Global;
use std::collections::BTreeMap;
use std::fmt;
use std::sync::ArcSlice;

/// A file of which some blocks are in memory, by their numbers. Bytes of others are told as 0.
///
/// As a storage it is for reads: no write is kept, and its length can't be changed otherwise.
#[derive(Drop)]
pub struct LoadedFile {
    /// How many bytes the file has.
    length: u64,
    /// How many bytes a block has.
    block: u64,
    blocks: BTreeMap<u64, ArcSlice<u8>>,
    ghost positive: { 0 < block },
}

/// Fills the buffer with the bytes of a block from the index on, with 0 past their end.
#[tactic(auto, using(std::proofs::lemmas::List::places))]
fn copy_out(bytes: &[u8], buf: &mut [u8], index: usize)
    ensures { IsReadAt bytes.now index buf.new }
{
    if index >= bytes.len() {
        buf.fill(0);
        return;
    }
    let count = buf.len().min(bytes.len() - index);
    buf[..count].copy_from_slice(&bytes[index..index + count]);
    buf[count..].fill(0);
}

impl LoadedFile {
    ghost use Rattle.imago_session.specs.Loaded.{loaded_bytes, Loads, HasBytesOf};
    ghost use Rattle.imago_session.specs.Loaded.{block_length, file_length, IsThere};

    /// A file of that many bytes, in blocks of so many. None is in memory.
    pub fn new(alloc: Global, size: u64, block: u64) -> Self
        requires { 0 < block }
        ensures length { file_length result ≡ size }
        ensures block { block_length result ≡ block }
        ensures bytes { (file : List ℕ) → HasBytesOf file result }
    {
        LoadedFile {
            length: size,
            block,
            blocks: BTreeMap::new(alloc),
        }
    }

    /// How many bytes from the offset on, which is inside the file, are of one block and inside the
    /// file: at most that many.
    fn part_at(&self, offset: u64, most: usize) -> usize
        requires inside { offset < file_length self.now }
        requires some { 0 < most }
        ensures some { 0 < result }
        ensures within { result ≤ most }
        ensures inside { offset + result ≤ file_length self.now }
        ensures block { offset % block_length self.now + result ≤ block_length self.now }
    {
        let in_block = self.block - offset % self.block;
        let in_file = self.length - offset;
        in_block.min(in_file).min(most as u64) as usize
    }

    /// Fills the buffer with the bytes from the offset on, which are of one block.
    fn fill_part(&self, buf: &mut [u8], offset: u64)
        requires inside { offset + length buf.old ≤ file_length self.now }
        requires block { offset % block_length self.now + length buf.old
            ≤ block_length self.now }
        ensures { IsReadAt (loaded_bytes self.now) offset buf.new }
    {
        let index = (offset % self.block) as usize;
        match self.blocks.get(&(offset / self.block)) {
            Some(block) => copy_out(block, buf, index),
            None => buf.fill(0),
        }
    }

    /// Fills the buffer with the bytes from the offset on, with 0 past the end.
    #[tactic(auto, using(std::proofs::lemmas::List::places, crate::proofs::LoadedSteps::byte_behind))]
    fn fill(&self, buf: &mut [u8], offset: u64)
        requires { offset + length buf.old < 2 ^ 64 }
        ensures { IsReadAt (loaded_bytes self.now) offset buf.new }
    {
        let mut done: usize = 0;
        while done < buf.len() {
            let at = offset + done as u64;
            if at >= self.length {
                buf[done..].fill(0);
                return;
            }
            let end = done + self.part_at(at, buf.len() - done);
            self.fill_part(&mut buf[done..end], at);
            done = end;
        }
    }

    /// How many bytes the file has.
    pub fn length(&self) -> u64
        ensures { result ≡ file_length self.now }
    {
        self.length
    }

    /// How many bytes a block has.
    pub fn block_length(&self) -> u64
        ensures value { result ≡ block_length self.now }
        ensures positive { 0 < result }
    {
        self.block
    }

    /// Whether the block of that number is in memory.
    pub fn has_block(&self, number: u64) -> bool
        ensures { IsTrue result ↔ IsThere self.now number }
    {
        self.blocks.get(&number).is_some()
    }

    /// Puts the block of that number into memory, and lets go of one that was there. An image that
    /// shares that one keeps it.
    ///
    /// [`Error::Memory`] is no room for it.
    pub fn put_block(&mut self, number: u64, block: Vec<u8>) -> Result<(), Error>
        ensures loaded { OnOk result (Loads self.old self.new number) }
        ensures bytes { OnOk result ((file : List ℕ)
            → ((i : ℕ) → i < block_length self.old → slice_index block.items i
            ≡ slice_index file (number * block_length self.old + i))
            → HasBytesOf file self.old
            → HasBytesOf file self.new) }
        ensures memory { IfErr result (λ e. e ≡ Error.Memory) }
    {
        let shared = ArcSlice::from_vec(block)?;
        self.blocks.insert(number, shared)?;
        Ok(())
    }

    /// So many bytes from the offset on, if they are one whole block that is in memory: shared, not
    /// copied. `None` is any other range, and also a block that has too many owners.
    pub fn whole_block(&self, at: u64, count: u64) -> Option<ArcSlice<u8>>
        ensures whole { IfSome result (λ v. length (arc_slice_items v) ≡ count) }
        ensures read { IfSome result (λ v. IsReadAt (loaded_bytes self.now) at (arc_slice_items v)) }
    {
        if count != self.block || at % self.block != 0 {
            return None;
        }
        if at > self.length || count > self.length - at {
            return None;
        }
        let Some(block) = self.blocks.get(&(at / self.block)) else {
            return None;
        };
        if block.len() as u64 != count {
            return None;
        }
        match block.clone() {
            Ok(shared) => Some(shared),
            Err(_) => None,
        }
    }
}

/// Shares the blocks of a [`LoadedFile`]: a table that is one whole block isn't copied.
pub struct WholeBlocks;

impl TableMemory<LoadedFile> for WholeBlocks {
    fn shared(&self, storage: &LoadedFile, at: u64, count: u64) -> Option<ArcSlice<u8>> {
        storage.whole_block(at, count)
    }
}

impl fmt::Display for LoadedFile {
    fn fmt<W: fmt::Write>(&self, f: &mut fmt::Formatter<W>) -> fmt::Result {
        let length = self.length;
        write!(f, "loaded:[{length}B]")
    }
}

impl Storage for LoadedFile {
    ghost use Rattle.imago_session.specs.Loaded.{loaded_bytes};

    ghost bytes = { loaded_bytes };

    ghost features = { λ _. loaded_features };

    ghost fault_count = { λ _. 0 };

    ghost work = { λ _. no_work };

    ghost maintenance = { no_maintenance };

    ghost openings = { no_openings };

    ghost lawful = { λ _. loaded_lawful };

    fn open(opts: StorageOpenOptions) -> Result<Self, Error> {
        let _ = opts;
        Err(Error::Unsupported)
    }

    fn create_open(opts: StorageCreateOptions) -> Result<Self, Error> {
        let _ = opts;
        Err(Error::Unsupported)
    }

    fn mem_align(&self) -> usize {
        1
    }

    fn req_align(&self) -> usize {
        1
    }

    fn zero_align(&self) -> usize {
        1
    }

    fn discard_align(&self) -> usize {
        1
    }

    #[tactic(auto, using(crate::proofs::LoadedSteps::loaded_length))]
    fn size(&self) -> Result<u64, Error> {
        Ok(self.length)
    }

    /// Names are not relative to one another: the same text comes back.
    fn resolve_relative_path(&self, alloc: Global, relative: &str) -> Result<String, Error> {
        Ok(String::from_str(alloc, relative)?)
    }

    fn get_filename(&self) -> Option<&str> {
        None
    }

    fn pure_readv(&self, buf: &mut [u8], offset: u64) -> Result<(), Error> {
        self.fill(buf, offset);
        Ok(())
    }

    fn pure_readv_mut(&mut self, buf: &mut [u8], offset: u64) -> Result<(), Error> {
        Storage::pure_readv(&*self, buf, offset)
    }

    fn pure_writev(&mut self, source: &[u8], offset: u64) -> Result<(), Error> {
        self.length = self.length.max(offset + source.len() as u64);
        Ok(())
    }

    fn zero_in_place(&mut self, offset: u64, count: u64, kind: ZeroKind) -> Result<(), Error> {
        let _ = (offset, count, kind);
        Err(Error::Unsupported)
    }

    fn pure_discard(&mut self, offset: u64, count: u64) -> Result<(), Error> {
        let _ = (offset, count);
        Ok(())
    }

    fn flush(&mut self) -> Result<(), Error> {
        Ok(())
    }

    fn sync(&mut self) -> Result<(), Error> {
        Ok(())
    }

    fn settle_writes(&mut self) -> Result<(), Error> {
        Ok(())
    }

    fn invalidate_cache(&mut self) -> Result<(), Error> {
        Ok(())
    }

    fn resize(&mut self, new_size: u64, mode: PreallocateMode) -> Result<(), Error> {
        let _ = (new_size, mode);
        Err(Error::Unsupported)
    }
}
