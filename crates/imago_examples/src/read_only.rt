// SPDX-License-Identifier: MIT
//! A storage that may only be read.
//!
//! It passes reads and flushes on, and refuses every change. Its bytes are those of the storage
//! inside, so that all that is promised of reads holds of it as it stands.
ghost use Rattle.std.specs.Prelude.{◌≡◌, ◌^◌, ◌-◌, Err};
ghost use Rattle.imago.specs.DeclaredError.{Error};
ghost use Rattle.imago.specs.Maintenance.{no_maintenance};
ghost use Rattle.imago.specs.Openings.{no_openings};
ghost use Rattle.imago_examples.specs.ReadOnly.{read_only_features, read_only_lawful};

use imago::error::Error;
use imago::laws::storages::splice_by_offset;
use imago::storage::{
    PreallocateMode, Storage, StorageCreateOptions, StorageOpenOptions, ZeroKind,
};
use std::alloc::Global;
use std::fmt::{self, Display, Formatter, Write};

/// A storage over another one, which can only be read. A write is refused as [`Error::Device`]: a
/// storage can't refuse one for another cause. Zero writes in place, discards and resizes aren't
/// offered. Whatever is refused changes nothing.
#[derive(Drop)]
pub struct ReadOnly<S: Storage> {
    inner: S,
}

impl<S: Storage> ReadOnly<S> {
    /// That storage, to be read alone.
    pub fn new(inner: S) -> Self
        ensures bytes { ⟦<ReadOnly<S> as Storage>⟧.bytes result ≡ S.bytes inner }
    {
        ReadOnly { inner }
    }
}

impl<S: Storage> Display for ReadOnly<S> {
    fn fmt<W: Write>(&self, f: &mut Formatter<W>) -> fmt::Result {
        write!(f, "read-only[{}]", self.inner)
    }
}

impl<S: Storage> Storage for ReadOnly<S> {
    ghost bytes = { λ s. S.bytes s.inner };

    ghost features = { λ s. read_only_features (S.features s.inner) };

    ghost fault_count = { λ _. 2 ^ 64 - 1 };

    ghost work = { λ s. S.work s.inner };

    ghost maintenance = { record no_maintenance {
      flushed = λ a b r. S.maintenance.flushed a.inner b.inner r;
      synced = λ a b r. S.maintenance.synced a.inner b.inner r;
      invalidated = λ a b r. S.maintenance.invalidated a.inner b.inner r;
      settled = λ a b r. S.maintenance.settled a.inner b.inner r;
      counted = λ at buf a b r. S.maintenance.counted at buf a.inner b.inner r;
      written = λ at source a b r. (b ≡ a) × (r ≡ Err Error.Device);
      discarded = λ at n a b r. (b ≡ a) × (r ≡ Err Error.Unsupported);
      resized = λ n mode a b r. (b ≡ a) × (r ≡ Err Error.Unsupported);
      zeroed_in_place = λ kind at n a b r. (b ≡ a) × (r ≡ Err Error.Unsupported);
    } };

    ghost openings = { record no_openings { resolved = λ s. S.openings.resolved s.inner } };

    ghost lawful = { λ s. read_only_lawful (S.features s.inner) (S.lawful s.inner) };

    fn open(_opts: StorageOpenOptions) -> Result<Self, Error> {
        Err(Error::Unsupported)
    }

    fn create_open(_opts: StorageCreateOptions) -> Result<Self, Error> {
        Err(Error::Unsupported)
    }

    fn mem_align(&self) -> usize {
        Storage::mem_align(&self.inner)
    }

    fn req_align(&self) -> usize {
        Storage::req_align(&self.inner)
    }

    fn zero_align(&self) -> usize {
        Storage::zero_align(&self.inner)
    }

    fn discard_align(&self) -> usize {
        Storage::discard_align(&self.inner)
    }

    fn size(&self) -> Result<u64, Error> {
        Storage::size(&self.inner)
    }

    fn resolve_relative_path(&self, alloc: Global, relative: &str) -> Result<String, Error> {
        Storage::resolve_relative_path(&self.inner, alloc, relative)
    }

    fn get_filename(&self) -> Option<&str> {
        Storage::get_filename(&self.inner)
    }

    fn pure_readv(&self, buf: &mut [u8], offset: u64) -> Result<(), Error> {
        Storage::pure_readv(&self.inner, buf, offset)
    }

    fn pure_readv_mut(&mut self, buf: &mut [u8], offset: u64) -> Result<(), Error> {
        Storage::pure_readv_mut(&mut self.inner, buf, offset)
    }

    fn pure_writev(&mut self, _source: &[u8], _offset: u64) -> Result<(), Error> {
        splice_by_offset();
        Err(Error::Device)
    }

    fn zero_in_place(&mut self, _offset: u64, _count: u64, _kind: ZeroKind) -> Result<(), Error> {
        splice_by_offset();
        Err(Error::Unsupported)
    }

    fn pure_discard(&mut self, _offset: u64, _count: u64) -> Result<(), Error> {
        Err(Error::Unsupported)
    }

    fn flush(&mut self) -> Result<(), Error> {
        Storage::flush(&mut self.inner)
    }

    fn sync(&mut self) -> Result<(), Error> {
        Storage::sync(&mut self.inner)
    }

    fn settle_writes(&mut self) -> Result<(), Error> {
        Storage::settle_writes(&mut self.inner)
    }

    fn invalidate_cache(&mut self) -> Result<(), Error> {
        Storage::invalidate_cache(&mut self.inner)
    }

    fn resize(&mut self, _new_size: u64, _mode: PreallocateMode) -> Result<(), Error> {
        Err(Error::Unsupported)
    }
}
