// SPDX-License-Identifier: MIT
//! A storage that is lent: every call goes to the storage behind the borrow.
ghost use Rattle.std.specs.Prelude.{◌≡◌, ℕ};
ghost use Rattle.imago_storage.specs.Openings.{no_openings, IsMade};
ghost use Rattle.imago_storage.specs.Zeroes.{IsAlignedZeroing};

use crate::error::Error;
use crate::storage::{
    PreallocateMode, Storage, StorageCreateOptions, StorageOpenOptions, ZeroKind,
};
use std::alloc::Global;

impl<S: Storage> Storage for &mut S {
    ghost bytes = { λ s. S.bytes s.now };

    ghost features = { λ s. S.features s.now };

    ghost fault_count = { λ s. S.fault_count s.now };

    ghost work = { λ s. S.work s.now };

    ghost maintenance = { record {
      flushed = λ a b r. S.maintenance.flushed a.now b.now r;
      synced = λ a b r. S.maintenance.synced a.now b.now r;
      invalidated = λ a b r. S.maintenance.invalidated a.now b.now r;
      settled = λ a b r. S.maintenance.settled a.now b.now r;
      discarded = λ at n a b r. S.maintenance.discarded at n a.now b.now r;
      resized = λ n mode a b r. S.maintenance.resized n mode a.now b.now r;
      counted = λ at buf a b r. S.maintenance.counted at buf a.now b.now r;
      written = λ at source a b r. S.maintenance.written at source a.now b.now r;
      zeroed_in_place = λ kind at n a b r. S.maintenance.zeroed_in_place kind at n a.now b.now r;
      zeroed = λ kind at n a b r. IsAlignedZeroing S.features S.bytes S.maintenance S.work
          (S.features a.now) kind at n a.now b.now r;
    } };

    ghost openings = { record no_openings {
      made = IsMade S.openings;
      resolved = λ s. S.openings.resolved s.now;
    } };

    ghost lawful = { λ s. S.lawful s.now };

    fn open(_opts: StorageOpenOptions) -> Result<Self, Error> {
        Err(Error::Unsupported)
    }

    fn create_open(_opts: StorageCreateOptions) -> Result<Self, Error> {
        Err(Error::Unsupported)
    }

    fn create(opts: StorageCreateOptions) -> Result<(), Error> {
        S::create(opts)
    }

    fn mem_align(&self) -> usize {
        Storage::mem_align(&**self)
    }

    fn req_align(&self) -> usize {
        Storage::req_align(&**self)
    }

    fn zero_align(&self) -> usize {
        Storage::zero_align(&**self)
    }

    fn discard_align(&self) -> usize {
        Storage::discard_align(&**self)
    }

    fn size(&self) -> Result<u64, Error> {
        Storage::size(&**self)
    }

    fn resolve_relative_path(&self, alloc: Global, relative: &str) -> Result<String, Error> {
        Storage::resolve_relative_path(&**self, alloc, relative)
    }

    fn get_filename(&self) -> Option<&str> {
        Storage::get_filename(&**self)
    }

    fn pure_readv(&self, buf: &mut [u8], offset: u64) -> Result<(), Error> {
        Storage::pure_readv(&**self, buf, offset)
    }

    fn pure_readv_mut(&mut self, buf: &mut [u8], offset: u64) -> Result<(), Error> {
        Storage::pure_readv_mut(&mut **self, buf, offset)
    }

    fn pure_writev(&mut self, source: &[u8], offset: u64) -> Result<(), Error> {
        Storage::pure_writev(&mut **self, source, offset)
    }

    fn zero_in_place(&mut self, offset: u64, count: u64, kind: ZeroKind) -> Result<(), Error> {
        Storage::zero_in_place(&mut **self, offset, count, kind)
    }

    fn write_zeroes_as_data(
        &mut self,
        alloc: Global,
        offset: u64,
        count: u64,
    ) -> Result<(), Error> {
        Storage::write_zeroes_as_data(&mut **self, alloc, offset, count)
    }

    fn pure_write_zeroes(&mut self, alloc: Global, offset: u64, count: u64) -> Result<(), Error> {
        Storage::pure_write_zeroes(&mut **self, alloc, offset, count)
    }

    fn pure_write_allocated_zeroes(
        &mut self,
        alloc: Global,
        offset: u64,
        count: u64,
    ) -> Result<(), Error> {
        Storage::pure_write_allocated_zeroes(&mut **self, alloc, offset, count)
    }

    fn pure_discard(&mut self, offset: u64, count: u64) -> Result<(), Error> {
        Storage::pure_discard(&mut **self, offset, count)
    }

    fn flush(&mut self) -> Result<(), Error> {
        Storage::flush(&mut **self)
    }

    fn sync(&mut self) -> Result<(), Error> {
        Storage::sync(&mut **self)
    }

    fn settle_writes(&mut self) -> Result<(), Error> {
        Storage::settle_writes(&mut **self)
    }

    fn invalidate_cache(&mut self) -> Result<(), Error> {
        Storage::invalidate_cache(&mut **self)
    }

    fn resize(&mut self, new_size: u64, mode: PreallocateMode) -> Result<(), Error> {
        Storage::resize(&mut **self, new_size, mode)
    }
}
