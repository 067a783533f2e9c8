// SPDX-License-Identifier: MIT
//! A storage that is created and opened by its name.
ghost use Rattle.std.specs.Prelude.{◌≡◌};
ghost use Rattle.imago_storage.specs.Maintenance.{no_maintenance};
ghost use Rattle.imago_storage.specs.Mem.{null_features, null_lawful};
ghost use Rattle.imago_storage.specs.IoCount.{no_work};
ghost use Rattle.imago_test_storages.specs.Created.{by_name};

use imago_storage::error::Error;
use imago_storage::null::Null;
use imago_storage::storage::{
    PreallocateMode, Storage, StorageCreateOptions, StorageOpenOptions, ZeroKind,
};
use std::alloc::Global;
use std::fmt;

/// Zeroes that are created by a name and a size, or opened by a name: as many as the name has
/// bytes. Without a name it is [`Error::NotFound`].
#[derive(Drop)]
pub struct Created {
    inner: Null,
}

impl fmt::Display for Created {
    fn fmt<W: fmt::Write>(&self, f: &mut fmt::Formatter<W>) -> fmt::Result {
        write!(f, "created[{}]", self.inner)
    }
}

impl Storage for Created {
    ghost bytes = { λ s. ⟦<Null as Storage>⟧.bytes s.inner };

    ghost features = { λ _. null_features };

    ghost fault_count = { λ _. 0 };

    ghost work = { λ _. no_work };

    ghost maintenance = { no_maintenance };

    ghost openings = { by_name (λ s. ⟦<Null as Storage>⟧.bytes s.inner) };

    ghost lawful = { λ _. null_lawful };

    fn open(opts: StorageOpenOptions) -> Result<Self, Error> {
        let Some(name) = opts.get_filename() else {
            return Err(Error::NotFound);
        };
        Ok(Created {
            inner: Null::new(name.len() as u64),
        })
    }

    fn create_open(opts: StorageCreateOptions) -> Result<Self, Error> {
        if opts.get_filename().is_none() {
            return Err(Error::NotFound);
        }
        Ok(Created {
            inner: Null::new(opts.get_size()),
        })
    }

    fn mem_align(&self) -> usize {
        self.inner.mem_align()
    }

    fn req_align(&self) -> usize {
        self.inner.req_align()
    }

    fn zero_align(&self) -> usize {
        self.inner.zero_align()
    }

    fn discard_align(&self) -> usize {
        self.inner.discard_align()
    }

    fn size(&self) -> Result<u64, Error> {
        self.inner.size()
    }

    fn resolve_relative_path(&self, alloc: Global, relative: &str) -> Result<String, Error> {
        self.inner.resolve_relative_path(alloc, relative)
    }

    fn get_filename(&self) -> Option<&str> {
        self.inner.get_filename()
    }

    fn pure_readv(&self, buf: &mut [u8], offset: u64) -> Result<(), Error> {
        self.inner.pure_readv(buf, offset)
    }

    fn pure_readv_mut(&mut self, buf: &mut [u8], offset: u64) -> Result<(), Error> {
        self.inner.pure_readv_mut(buf, offset)
    }

    fn pure_writev(&mut self, source: &[u8], offset: u64) -> Result<(), Error> {
        self.inner.pure_writev(source, offset)
    }

    fn zero_in_place(&mut self, offset: u64, count: u64, kind: ZeroKind) -> Result<(), Error> {
        self.inner.zero_in_place(offset, count, kind)
    }

    fn pure_discard(&mut self, offset: u64, count: u64) -> Result<(), Error> {
        self.inner.pure_discard(offset, count)
    }

    fn flush(&mut self) -> Result<(), Error> {
        self.inner.flush()
    }

    fn sync(&mut self) -> Result<(), Error> {
        self.inner.sync()
    }

    fn settle_writes(&mut self) -> Result<(), Error> {
        self.inner.settle_writes()
    }

    fn invalidate_cache(&mut self) -> Result<(), Error> {
        self.inner.invalidate_cache()
    }

    fn resize(&mut self, new_size: u64, mode: PreallocateMode) -> Result<(), Error> {
        self.inner.resize(new_size, mode)
    }
}
