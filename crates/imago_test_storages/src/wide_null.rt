// SPDX-License-Identifier: MIT
//! Zeroes that are asked for in blocks.
ghost use Rattle.std.specs.Prelude.{◌≡◌, ℕ, replicate};
ghost use Rattle.imago_storage.specs.IoCount.{no_work};
ghost use Rattle.imago_storage.specs.Maintenance.{no_maintenance};
ghost use Rattle.imago_storage.specs.Openings.{no_openings};
ghost use Rattle.imago_test_storages.specs.WideNull.{wide_features, wide_lawful};

use imago_storage::error::Error;
use imago_storage::null::Null;
use imago_storage::storage::{
    PreallocateMode, Storage, StorageCreateOptions, StorageOpenOptions, ZeroKind,
};
use std::alloc::Global;
use std::fmt;

/// A [`Null`] whose alignments are all 4096, so that the last block of one as long as can be
/// doesn't end within `u64`.
#[derive(Drop)]
pub struct WideNull {
    inner: Null,
}

impl WideNull {
    /// A storage of that many zero bytes.
    pub fn new(size: u64) -> Self
        ensures bytes { ⟦<WideNull as Storage>⟧.bytes result ≡ replicate size 0 }
        ensures features { ⟦<WideNull as Storage>⟧.features result ≡ wide_features }
    {
        WideNull {
            inner: Null::new(size),
        }
    }
}

impl fmt::Display for WideNull {
    fn fmt<W: fmt::Write>(&self, f: &mut fmt::Formatter<W>) -> fmt::Result {
        write!(f, "wide[{}]", self.inner)
    }
}

impl Storage for WideNull {
    ghost bytes = { λ s. ⟦<Null as Storage>⟧.bytes s.inner };

    ghost features = { λ _. wide_features };

    ghost fault_count = { λ _. 0 };

    ghost work = { λ _. no_work };

    ghost maintenance = { no_maintenance };

    ghost openings = { no_openings };

    ghost lawful = { λ _. wide_lawful };

    fn open(_opts: StorageOpenOptions) -> Result<Self, Error> {
        Err(Error::Unsupported)
    }

    fn create_open(_opts: StorageCreateOptions) -> Result<Self, Error> {
        Err(Error::Unsupported)
    }

    fn mem_align(&self) -> usize {
        4096
    }

    fn req_align(&self) -> usize {
        4096
    }

    fn zero_align(&self) -> usize {
        4096
    }

    fn discard_align(&self) -> usize {
        4096
    }

    fn size(&self) -> Result<u64, Error> {
        self.inner.size()
    }

    fn resolve_relative_path(&self, alloc: Global, relative: &str) -> Result<String, Error> {
        self.inner.resolve_relative_path(alloc, relative)
    }

    fn get_filename(&self) -> Option<&str> {
        None
    }

    fn pure_readv(&self, buf: &mut [u8], offset: u64) -> Result<(), Error> {
        self.inner.pure_readv(buf, offset)
    }

    fn pure_readv_mut(&mut self, buf: &mut [u8], offset: u64) -> Result<(), Error> {
        self.inner.pure_readv_mut(buf, offset)
    }

    fn pure_writev(&mut self, source: &[u8], offset: u64) -> Result<(), Error> {
        self.inner.pure_writev(source, offset)
    }

    fn zero_in_place(&mut self, offset: u64, count: u64, kind: ZeroKind) -> Result<(), Error> {
        self.inner.zero_in_place(offset, count, kind)
    }

    fn pure_discard(&mut self, offset: u64, count: u64) -> Result<(), Error> {
        self.inner.pure_discard(offset, count)
    }

    fn flush(&mut self) -> Result<(), Error> {
        Ok(())
    }

    fn sync(&mut self) -> Result<(), Error> {
        Ok(())
    }

    fn settle_writes(&mut self) -> Result<(), Error> {
        Ok(())
    }

    fn invalidate_cache(&mut self) -> Result<(), Error> {
        Ok(())
    }

    fn resize(&mut self, new_size: u64, mode: PreallocateMode) -> Result<(), Error> {
        self.inner.resize(new_size, mode)
    }
}
