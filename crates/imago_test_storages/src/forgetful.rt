// SPDX-License-Identifier: MIT
//! A storage that doesn't tell its bytes.
ghost use Rattle.std.specs.Prelude.{◌≡◌, length};
ghost use Rattle.imago_storage.specs.Maintenance.{IsNoZeroing};
ghost use Rattle.imago_storage.specs.Openings.{no_openings};
ghost use Rattle.imago_test_storages.specs.Forgetful.{untold, zeroes_of, untold_lawful};
ghost use Rattle.imago_test_storages.specs.Forgetful.{IsReadInside};

use imago_storage::error::Error;
use imago_storage::storage::{
    PreallocateMode, Storage, StorageCreateOptions, StorageOpenOptions, ZeroKind,
};
use std::alloc::Global;
use std::fmt;

/// A storage whose reads can't be relied on: the first byte that a pure read gives is the complement
/// of the one that the storage inside has there. So no contract may say which bytes a read of it
/// gives, as with a file of the operating system. Its length, its refusals and the calls that reach
/// the storage inside are those of that storage.
#[derive(Drop)]
pub struct Forgetful<S: Storage> {
    inner: S,
}

impl<S: Storage> Forgetful<S> {
    /// That storage, whose bytes aren't told from now on. One that is lent can be looked at
    /// afterwards.
    pub fn new(inner: S) -> Self
        ensures bytes { ⟦<Forgetful<S> as Storage>⟧.bytes result ≡ zeroes_of (S.bytes inner) }
        ensures features { ⟦<Forgetful<S> as Storage>⟧.features result ≡ untold (S.features inner) }
    {
        Forgetful { inner }
    }
}

/// Puts the complement of the first byte in its place.
fn forget(buf: &mut [u8])
    ensures { length buf.new ≡ length buf.old }
{
    if let Some(first) = buf.first_mut() {
        *first = !*first;
    }
}

impl<S: Storage> fmt::Display for Forgetful<S> {
    fn fmt<W: fmt::Write>(&self, f: &mut fmt::Formatter<W>) -> fmt::Result {
        write!(f, "forgetful[{}]", self.inner)
    }
}

impl<S: Storage> Storage for Forgetful<S> {
    ghost bytes = { λ s. zeroes_of (S.bytes s.inner) };

    ghost features = { λ s. untold (S.features s.inner) };

    ghost fault_count = { λ s. S.fault_count s.inner };

    ghost work = { λ s. S.work s.inner };

    ghost maintenance = { record {
      flushed = λ a b r. S.maintenance.flushed a.inner b.inner r;
      synced = λ a b r. S.maintenance.synced a.inner b.inner r;
      invalidated = λ a b r. S.maintenance.invalidated a.inner b.inner r;
      settled = λ a b r. S.maintenance.settled a.inner b.inner r;
      discarded = λ at n a b r. S.maintenance.discarded at n a.inner b.inner r;
      resized = λ n mode a b r. S.maintenance.resized n mode a.inner b.inner r;
      counted = λ at buf a b r. IsReadInside (λ given. S.maintenance.counted at given a.inner
          b.inner r) (length buf);
      written = λ at source a b r. S.maintenance.written at source a.inner b.inner r;
      zeroed_in_place = λ kind at n a b r. S.maintenance.zeroed_in_place kind at n a.inner b.inner r;
      zeroed = IsNoZeroing;
    } };

    ghost openings = { record no_openings { resolved = λ s. S.openings.resolved s.inner } };

    ghost lawful = { λ s. untold_lawful (S.features s.inner) (S.lawful s.inner) };

    fn open(_opts: StorageOpenOptions) -> Result<Self, Error> {
        Err(Error::Unsupported)
    }

    fn create_open(_opts: StorageCreateOptions) -> Result<Self, Error> {
        Err(Error::Unsupported)
    }

    fn mem_align(&self) -> usize {
        self.inner.mem_align()
    }

    fn req_align(&self) -> usize {
        self.inner.req_align()
    }

    fn zero_align(&self) -> usize {
        self.inner.zero_align()
    }

    fn discard_align(&self) -> usize {
        self.inner.discard_align()
    }

    fn size(&self) -> Result<u64, Error> {
        self.inner.size()
    }

    fn resolve_relative_path(&self, alloc: Global, relative: &str) -> Result<String, Error> {
        self.inner.resolve_relative_path(alloc, relative)
    }

    fn get_filename(&self) -> Option<&str> {
        self.inner.get_filename()
    }

    fn pure_readv(&self, buf: &mut [u8], offset: u64) -> Result<(), Error> {
        self.inner.pure_readv(buf, offset)?;
        forget(buf);
        Ok(())
    }

    fn pure_readv_mut(&mut self, buf: &mut [u8], offset: u64) -> Result<(), Error> {
        let answer = self.inner.pure_readv_mut(buf, offset);
        forget(buf);
        answer
    }

    fn pure_writev(&mut self, source: &[u8], offset: u64) -> Result<(), Error> {
        self.inner.pure_writev(source, offset)
    }

    fn zero_in_place(&mut self, offset: u64, count: u64, kind: ZeroKind) -> Result<(), Error> {
        self.inner.zero_in_place(offset, count, kind)
    }

    fn pure_discard(&mut self, offset: u64, count: u64) -> Result<(), Error> {
        self.inner.pure_discard(offset, count)
    }

    fn flush(&mut self) -> Result<(), Error> {
        self.inner.flush()
    }

    fn sync(&mut self) -> Result<(), Error> {
        self.inner.sync()
    }

    fn settle_writes(&mut self) -> Result<(), Error> {
        self.inner.settle_writes()
    }

    fn invalidate_cache(&mut self) -> Result<(), Error> {
        self.inner.invalidate_cache()
    }

    fn resize(&mut self, new_size: u64, mode: PreallocateMode) -> Result<(), Error> {
        self.inner.resize(new_size, mode)
    }
}
