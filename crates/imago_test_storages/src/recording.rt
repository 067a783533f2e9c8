// SPDX-License-Identifier: MIT
//! A storage that records the calls that reach it.
ghost use Rattle.std.specs.Prelude.{◌≡◌, false};
ghost use Rattle.imago_storage.specs.IoCount.{no_work};
ghost use Rattle.imago_storage.specs.Maintenance.{IsAnyRead, IsAnyZeroing, IsNoZeroing};
ghost use Rattle.imago_storage.specs.MemParts.{alignments_of};
ghost use Rattle.imago_storage.specs.Openings.{no_openings};
ghost use Rattle.imago_test_storages.specs.Recording.{zeroing, discarding, recording_features};
ghost use Rattle.imago_test_storages.specs.Recording.{recording_lawful, IsBeside};

use imago_storage::error::Error;
use imago_storage::mem::MemStorage;
use imago_storage::storage::{
    PreallocateMode, Storage, StorageCreateOptions, StorageOpenOptions, ZeroKind,
};
use std::alloc::Global;
use std::cell::Cell;
use std::fmt;

/// A call that reached a storage. A range is given by its offset and its length.
#[derive(Clone, Copy, Debug, PartialEq, Eq, Drop)]
pub enum Recorded {
    /// A pure read.
    Read(u64, u64),
    /// A pure write.
    Write(u64, u64),
    /// A zero write in place, and its kind.
    Zero(u64, u64, ZeroKind),
    /// A discard.
    Discard(u64, u64),
    /// A new length.
    Resize(u64, PreallocateMode),
    /// A flush.
    Flush,
    /// A sync.
    Sync,
    /// Settling of writes.
    Settle,
    /// Dropping of caches.
    Invalidate,
}

/// The first calls, as far as there is room for them.
#[derive(Clone, Copy, Drop)]
pub struct Log {
    calls: [Recorded; 16],
    count: usize,
}

impl Log {
    /// With nothing recorded yet.
    pub fn new() -> Self {
        Log {
            calls: [Recorded::Flush; 16],
            count: 0,
        }
    }

    /// The calls so far, the first one first.
    pub fn calls(&self) -> &[Recorded] {
        match self.calls.get(..self.count) {
            Some(calls) => calls,
            None => &self.calls,
        }
    }

    /// Records a call, if there is room.
    fn add(&mut self, call: Recorded) {
        if let Some(free) = self.calls.get_mut(self.count) {
            *free = call;
            self.count = self.count.saturating_add(1);
        }
    }
}

/// Bytes in memory, and a record of the first 16 calls that reach them by an exclusive borrow,
/// refused ones too. A relative name is put behind `beside/`.
#[derive(Drop)]
pub struct Recording {
    inner: MemStorage,
    zeroes_as_data: bool,
    no_discards: bool,
    log: Log,
    shared: Cell<Log>,
}

impl Recording {
    /// That storage, with nothing recorded yet.
    pub fn new(inner: MemStorage) -> Self
        ensures bytes { ⟦<Recording as Storage>⟧.bytes result ≡ ⟦<MemStorage as Storage>⟧.bytes
            inner }
        ensures features { ⟦<Recording as Storage>⟧.features result
            ≡ ⟦<MemStorage as Storage>⟧.features inner }
    {
        Recording {
            inner,
            zeroes_as_data: false,
            no_discards: false,
            log: Log::new(),
            shared: Cell::new(Log::new()),
        }
    }

    /// Zero writes in place are [`Error::Unsupported`] from now on, so that both pure zero writes
    /// are made as data.
    pub fn with_zeroes_as_data(mut self) -> Self
        ensures bytes { ⟦<Recording as Storage>⟧.bytes result ≡ ⟦<Recording as Storage>⟧.bytes
            self }
        ensures features { ⟦<Recording as Storage>⟧.features result
            ≡ zeroing (⟦<Recording as Storage>⟧.features self) }
    {
        self.zeroes_as_data = true;
        self
    }

    /// Pure discards are [`Error::Unsupported`] from now on.
    pub fn without_discards(mut self) -> Self
        ensures bytes { ⟦<Recording as Storage>⟧.bytes result ≡ ⟦<Recording as Storage>⟧.bytes
            self }
        ensures features { ⟦<Recording as Storage>⟧.features result
            ≡ discarding (⟦<Recording as Storage>⟧.features self) }
    {
        self.no_discards = true;
        self
    }

    /// The calls so far, the first one first.
    pub fn calls(&self) -> &[Recorded] {
        self.log.calls()
    }

    /// The shared reads so far, of which the first 16 are recorded apart.
    pub fn shared_reads(&self) -> Log {
        self.shared.get()
    }

    /// Forgets the calls so far.
    pub fn clear(&mut self)
        ensures bytes { ⟦<Recording as Storage>⟧.bytes self.new ≡ ⟦<Recording as Storage>⟧.bytes
            self.old }
        ensures features { ⟦<Recording as Storage>⟧.features self.new
            ≡ ⟦<Recording as Storage>⟧.features self.old }
    {
        self.log.count = 0;
        self.shared.set(Log::new());
    }

    /// The bytes.
    pub fn as_bytes(&self) -> &[u8]
        ensures { result.now ≡ ⟦<Recording as Storage>⟧.bytes self.now }
    {
        self.inner.as_bytes()
    }
}

impl fmt::Display for Recording {
    fn fmt<W: fmt::Write>(&self, f: &mut fmt::Formatter<W>) -> fmt::Result {
        write!(f, "recording[{}]", self.inner)
    }
}

impl Storage for Recording {
    ghost bytes = { λ s. ⟦<MemStorage as Storage>⟧.bytes s.inner };

    ghost features = { λ s. recording_features s.zeroes_as_data s.no_discards
        (⟦<MemStorage as Storage>⟧.features s.inner) };

    ghost fault_count = { λ _. 0 };

    ghost work = { λ _. no_work };

    ghost maintenance = { record {
      flushed = λ a b r. ⟦<MemStorage as Storage>⟧.maintenance.flushed a.inner b.inner r;
      synced = λ a b r. ⟦<MemStorage as Storage>⟧.maintenance.synced a.inner b.inner r;
      invalidated = λ a b r. ⟦<MemStorage as Storage>⟧.maintenance.invalidated a.inner b.inner r;
      settled = λ a b r. ⟦<MemStorage as Storage>⟧.maintenance.settled a.inner b.inner r;
      discarded = λ _ _ a b _. b.inner ≡ a.inner;
      resized = λ n mode a b r. ⟦<MemStorage as Storage>⟧.maintenance.resized n mode a.inner b.inner
          r;
      counted = IsAnyRead;
      written = λ at source a b r. ⟦<MemStorage as Storage>⟧.maintenance.written at source a.inner
          b.inner r;
      zeroed_in_place = IsAnyZeroing;
      zeroed = IsNoZeroing;
    } };

    ghost openings = { record no_openings { resolved = IsBeside } };

    ghost lawful = { λ s. recording_lawful s.zeroes_as_data s.no_discards
        (⟦<MemStorage as Storage>⟧.features s.inner) (alignments_of s.inner) };

    fn open(_opts: StorageOpenOptions) -> Result<Self, Error> {
        Err(Error::Unsupported)
    }

    fn create_open(_opts: StorageCreateOptions) -> Result<Self, Error> {
        Err(Error::Unsupported)
    }

    fn mem_align(&self) -> usize {
        self.inner.mem_align()
    }

    fn req_align(&self) -> usize {
        self.inner.req_align()
    }

    fn zero_align(&self) -> usize {
        self.inner.zero_align()
    }

    fn discard_align(&self) -> usize {
        self.inner.discard_align()
    }

    fn size(&self) -> Result<u64, Error> {
        self.inner.size()
    }

    fn resolve_relative_path(&self, alloc: Global, relative: &str) -> Result<String, Error> {
        let mut path = String::from_str(alloc, "beside/")?;
        path.push_str(relative)?;
        Ok(path)
    }

    fn get_filename(&self) -> Option<&str> {
        self.inner.get_filename()
    }

    fn pure_readv(&self, buf: &mut [u8], offset: u64) -> Result<(), Error> {
        let mut shared = self.shared.get();
        shared.add(Recorded::Read(offset, buf.len() as u64));
        self.shared.set(shared);
        self.inner.pure_readv(buf, offset)
    }

    fn pure_readv_mut(&mut self, buf: &mut [u8], offset: u64) -> Result<(), Error> {
        self.log.add(Recorded::Read(offset, buf.len() as u64));
        self.inner.pure_readv_mut(buf, offset)
    }

    fn pure_writev(&mut self, source: &[u8], offset: u64) -> Result<(), Error> {
        self.log.add(Recorded::Write(offset, source.len() as u64));
        self.inner.pure_writev(source, offset)
    }

    fn zero_in_place(&mut self, offset: u64, count: u64, kind: ZeroKind) -> Result<(), Error> {
        self.log.add(Recorded::Zero(offset, count, kind));
        if self.zeroes_as_data {
            return Err(Error::Unsupported);
        }
        self.inner.zero_in_place(offset, count, kind)
    }

    fn pure_discard(&mut self, offset: u64, count: u64) -> Result<(), Error> {
        self.log.add(Recorded::Discard(offset, count));
        if self.no_discards {
            return Err(Error::Unsupported);
        }
        self.inner.pure_discard(offset, count)
    }

    fn flush(&mut self) -> Result<(), Error> {
        self.log.add(Recorded::Flush);
        self.inner.flush()
    }

    fn sync(&mut self) -> Result<(), Error> {
        self.log.add(Recorded::Sync);
        self.inner.sync()
    }

    fn settle_writes(&mut self) -> Result<(), Error> {
        self.log.add(Recorded::Settle);
        self.inner.settle_writes()
    }

    fn invalidate_cache(&mut self) -> Result<(), Error> {
        self.log.add(Recorded::Invalidate);
        self.inner.invalidate_cache()
    }

    fn resize(&mut self, new_size: u64, mode: PreallocateMode) -> Result<(), Error> {
        self.log.add(Recorded::Resize(new_size, mode));
        self.inner.resize(new_size, mode)
    }
}
