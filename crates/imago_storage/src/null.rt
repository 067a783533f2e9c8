// SPDX-License-Identifier: MIT
//! A storage of zeroes.
ghost use Rattle.std.specs.Prelude.{◌≡◌, ◌+◌, ℕ, Bool, Ok, true, false, replicate, length, max};
ghost use Rattle.imago_storage.specs.Mem.{null_features, null_lawful};
ghost use Rattle.imago_storage.specs.IoCount.{no_work};
ghost use Rattle.imago_storage.specs.Maintenance.{no_maintenance, resizes_bytes};
ghost use Rattle.imago_storage.specs.Openings.{no_openings};

use crate::error::Error;
use crate::storage::{
    PreallocateMode, Storage, StorageCreateOptions, StorageOpenOptions, ZeroKind,
};
use std::alloc::Global;
use std::fmt;

/// Zeroes of any length, up to `u64::MAX` bytes. Nothing that is written is kept; writes raise the
/// length to their end. No call fails, and none takes memory but zero writes that are to be
/// allocated, which are made as data.
#[derive(Drop)]
pub struct Null {
    size: u64,
}

impl Null {
    /// A storage of that many zero bytes.
    pub fn new(size: u64) -> Self
        ensures bytes { ⟦<Null as Storage>⟧.bytes result ≡ replicate size 0 }
        ensures features { ⟦<Null as Storage>⟧.features result ≡ null_features }
    {
        Null { size }
    }
}

impl fmt::Display for Null {
    fn fmt<W: fmt::Write>(&self, f: &mut fmt::Formatter<W>) -> fmt::Result {
        let size = self.size;
        write!(f, "null:[{size}B]")
    }
}

impl Storage for Null {
    ghost bytes = { λ s. replicate s.size 0 };

    ghost features = { λ _. null_features };

    ghost fault_count = { λ _. 0 };

    ghost work = { λ _. no_work };

    ghost maintenance = { record no_maintenance {
      written = λ at source old new r. (r ≡ Ok tt) × (new.size ≡ max old.size (at + length source));
      resized = resizes_bytes (λ s. replicate s.size 0);
    } };

    ghost openings = { no_openings };

    ghost lawful = { λ _. null_lawful };

    fn open(_opts: StorageOpenOptions) -> Result<Self, Error> {
        Err(Error::Unsupported)
    }

    fn create_open(_opts: StorageCreateOptions) -> Result<Self, Error> {
        Err(Error::Unsupported)
    }

    fn mem_align(&self) -> usize {
        1
    }

    fn req_align(&self) -> usize {
        1
    }

    fn zero_align(&self) -> usize {
        1
    }

    fn discard_align(&self) -> usize {
        1
    }

    fn size(&self) -> Result<u64, Error> {
        Ok(self.size)
    }

    fn resolve_relative_path(&self, _alloc: Global, _relative: &str) -> Result<String, Error> {
        Err(Error::Unsupported)
    }

    fn get_filename(&self) -> Option<&str> {
        None
    }

    fn pure_readv(&self, buf: &mut [u8], _offset: u64) -> Result<(), Error> {
        buf.fill(0);
        Ok(())
    }

    fn pure_readv_mut(&mut self, buf: &mut [u8], offset: u64) -> Result<(), Error> {
        Storage::pure_readv(&*self, buf, offset)
    }

    #[tactic(auto, using(crate::proofs::Splices::splice_length, std::proofs::lemmas::List::places))]
    fn pure_writev(&mut self, source: &[u8], offset: u64) -> Result<(), Error> {
        self.size = self.size.max(offset + source.len() as u64);
        Ok(())
    }

    #[tactic(auto, using(crate::proofs::Splices::splice_length, std::proofs::lemmas::List::places))]
    fn zero_in_place(&mut self, offset: u64, count: u64, kind: ZeroKind) -> Result<(), Error> {
        if kind == ZeroKind::Allocated {
            return Err(Error::Unsupported);
        }
        self.size = self.size.max(offset + count);
        Ok(())
    }

    fn pure_discard(&mut self, _offset: u64, _count: u64) -> Result<(), Error> {
        Ok(())
    }

    fn flush(&mut self) -> Result<(), Error> {
        Ok(())
    }

    fn sync(&mut self) -> Result<(), Error> {
        Ok(())
    }

    fn settle_writes(&mut self) -> Result<(), Error> {
        Ok(())
    }

    fn invalidate_cache(&mut self) -> Result<(), Error> {
        Ok(())
    }

    fn resize(&mut self, new_size: u64, _mode: PreallocateMode) -> Result<(), Error> {
        self.size = new_size;
        Ok(())
    }
}
