// SPDX-License-Identifier: MIT
//! The storages of a script.
ghost use Rattle.imago.specs.Openings.{no_openings};
ghost use Rattle.imago_script_parts.specs.ScriptStorage.{by_kind, kinds_lawful};
ghost use Rattle.imago_script_parts.specs.ScriptStorage.{maintenance_by_kind};

use imago::error::Error;
use imago::mem::MemStorage;
use imago::null::Null;
use imago::storage::{
    PreallocateMode, Storage, StorageCreateOptions, StorageOpenOptions, ZeroKind,
};
use std::alloc::Global;
use std::fmt::{self, Display, Formatter, Write};

/// A storage of a script: each call goes to the storage that it is.
#[derive(Drop)]
pub enum ScriptStorage {
    /// Bytes in memory.
    Mem(MemStorage),
    /// Zeroes.
    Null(Null),
}

/// The same call on whichever storage it is.
macro_rules! dispatch {
    ($self:expr, $storage:ident => $call:expr) => {
        match $self {
            ScriptStorage::Mem($storage) => $call,
            ScriptStorage::Null($storage) => $call,
        }
    };
}

impl Display for ScriptStorage {
    fn fmt<W: Write>(&self, f: &mut Formatter<W>) -> fmt::Result {
        dispatch!(self, storage => write!(f, "{storage}"))
    }
}

impl Storage for ScriptStorage {
    ghost bytes = { by_kind ⟦<MemStorage as Storage>⟧.bytes ⟦<Null as Storage>⟧.bytes };

    ghost features = { by_kind ⟦<MemStorage as Storage>⟧.features ⟦<Null as Storage>⟧.features };

    ghost fault_count = { by_kind ⟦<MemStorage as Storage>⟧.fault_count
        ⟦<Null as Storage>⟧.fault_count };

    ghost work = { by_kind ⟦<MemStorage as Storage>⟧.work ⟦<Null as Storage>⟧.work };

    ghost maintenance = { maintenance_by_kind ⟦<MemStorage as Storage>⟧.maintenance
        ⟦<Null as Storage>⟧.maintenance };

    ghost openings = { no_openings };

    ghost lawful = { kinds_lawful };

    fn open(_opts: StorageOpenOptions) -> Result<Self, Error> {
        Err(Error::Unsupported)
    }

    fn create_open(_opts: StorageCreateOptions) -> Result<Self, Error> {
        Err(Error::Unsupported)
    }

    fn mem_align(&self) -> usize {
        dispatch!(self, storage => storage.mem_align())
    }

    fn req_align(&self) -> usize {
        dispatch!(self, storage => storage.req_align())
    }

    fn zero_align(&self) -> usize {
        dispatch!(self, storage => storage.zero_align())
    }

    fn discard_align(&self) -> usize {
        dispatch!(self, storage => storage.discard_align())
    }

    fn size(&self) -> Result<u64, Error> {
        dispatch!(self, storage => storage.size())
    }

    fn resolve_relative_path(&self, alloc: Global, relative: &str) -> Result<String, Error> {
        dispatch!(self, storage => storage.resolve_relative_path(alloc, relative))
    }

    fn get_filename(&self) -> Option<&str> {
        dispatch!(self, storage => storage.get_filename())
    }

    fn pure_readv(&self, buf: &mut [u8], offset: u64) -> Result<(), Error> {
        dispatch!(self, storage => storage.pure_readv(buf, offset))
    }

    fn pure_readv_mut(&mut self, buf: &mut [u8], offset: u64) -> Result<(), Error> {
        dispatch!(self, storage => Storage::pure_readv_mut(storage, buf, offset))
    }

    fn pure_writev(&mut self, source: &[u8], offset: u64) -> Result<(), Error> {
        dispatch!(self, storage => Storage::pure_writev(storage, source, offset))
    }

    fn zero_in_place(&mut self, offset: u64, count: u64, kind: ZeroKind) -> Result<(), Error> {
        dispatch!(self, storage => Storage::zero_in_place(storage, offset, count, kind))
    }

    fn pure_discard(&mut self, offset: u64, count: u64) -> Result<(), Error> {
        dispatch!(self, storage => Storage::pure_discard(storage, offset, count))
    }

    fn flush(&mut self) -> Result<(), Error> {
        dispatch!(self, storage => Storage::flush(storage))
    }

    fn sync(&mut self) -> Result<(), Error> {
        dispatch!(self, storage => Storage::sync(storage))
    }

    fn settle_writes(&mut self) -> Result<(), Error> {
        dispatch!(self, storage => Storage::settle_writes(storage))
    }

    fn invalidate_cache(&mut self) -> Result<(), Error> {
        dispatch!(self, storage => Storage::invalidate_cache(storage))
    }

    fn resize(&mut self, new_size: u64, mode: PreallocateMode) -> Result<(), Error> {
        dispatch!(self, storage => Storage::resize(storage, new_size, mode))
    }
}
