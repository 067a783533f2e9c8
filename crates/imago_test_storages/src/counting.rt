// SPDX-License-Identifier: MIT
//! A storage that counts what goes through it.
ghost use Rattle.std.specs.Prelude.{◌≡◌, ◌+◌, length, OnOk, OnErr, IfErr, IsErrOf, IsTrue};
ghost use Rattle.imago_storage.specs.Bytes.{splice, IsReadAt, OldOrNew, WriteOutcome};
ghost use Rattle.imago_storage.specs.Error.{IsDeviceOrMemory};
ghost use Rattle.imago_storage.specs.Faults.{CountsFaults};
ghost use Rattle.imago_storage.specs.Features.{IsAlignedRequest, MayRunOut};
ghost use Rattle.imago_storage.specs.IoCount.{no_work};
ghost use Rattle.imago_storage.specs.Maintenance.{IsAnyRead, IsAnyZeroing, IsNoZeroing};
ghost use Rattle.imago_storage.specs.MemParts.{alignments_of};
ghost use Rattle.imago_storage.specs.Openings.{no_openings};
ghost use Rattle.imago_test_storages.specs.Counting.{io_count, after_read, after_write};

use imago_storage::error::Error;
use imago_storage::mem::MemStorage;
use imago_storage::storage::{
    PreallocateMode, Storage, StorageCreateOptions, StorageOpenOptions, ZeroKind,
};
use std::alloc::Global;
use std::fmt;

/// Pure reads by exclusive calls and pure writes, and the bytes of each, refused ones too. The
/// numbers saturate.
#[derive(Clone, Copy, Debug, PartialEq, Eq, Drop)]
pub struct Counts {
    /// The reads.
    pub reads: u64,
    /// Their bytes.
    pub bytes_read: u64,
    /// The writes.
    pub writes: u64,
    /// Their bytes.
    pub bytes_written: u64,
    /// The bytes of the longest one.
    pub longest_write: u64,
}

/// How many of the calls that no contract sees reached the storage. The numbers saturate.
#[derive(Clone, Copy, Debug, PartialEq, Eq, Drop)]
pub struct Reached {
    /// Flushes.
    pub flushes: u64,
    /// Syncs.
    pub syncs: u64,
    /// Droppings of caches.
    pub invalidations: u64,
}

/// Bytes in memory, and a count of the reads and writes of them.
#[derive(Drop)]
pub struct Counting {
    inner: MemStorage,
    counts: Counts,
    reached: Reached,
}

impl Counting {
    /// That storage, with nothing counted yet.
    pub fn new(inner: MemStorage) -> Self
        ensures bytes { ⟦<Counting as Storage>⟧.bytes result ≡ ⟦<MemStorage as Storage>⟧.bytes
            inner }
        ensures features { ⟦<Counting as Storage>⟧.features result
            ≡ ⟦<MemStorage as Storage>⟧.features inner }
        ensures work { ⟦<Counting as Storage>⟧.work result ≡ no_work }
    {
        Counting {
            inner,
            counts: Counts {
                reads: 0,
                bytes_read: 0,
                writes: 0,
                bytes_written: 0,
                longest_write: 0,
            },
            reached: Reached {
                flushes: 0,
                syncs: 0,
                invalidations: 0,
            },
        }
    }

    /// What was counted so far.
    pub fn counts(&self) -> Counts
        ensures { io_count result ≡ ⟦<Counting as Storage>⟧.work self.now }
    {
        self.counts
    }

    /// The calls that no contract sees.
    pub fn reached(&self) -> Reached {
        self.reached
    }

    /// The bytes.
    pub fn as_bytes(&self) -> &[u8]
        ensures { result.now ≡ ⟦<Counting as Storage>⟧.bytes self.now }
    {
        self.inner.as_bytes()
    }
}

impl fmt::Display for Counting {
    fn fmt<W: fmt::Write>(&self, f: &mut fmt::Formatter<W>) -> fmt::Result {
        write!(f, "counting[{}]", self.inner)
    }
}

impl Storage for Counting {
    ghost bytes = { λ s. ⟦<MemStorage as Storage>⟧.bytes s.inner };

    ghost features = { λ s. ⟦<MemStorage as Storage>⟧.features s.inner };

    ghost fault_count = { λ s. ⟦<MemStorage as Storage>⟧.fault_count s.inner };

    ghost work = { λ s. io_count s.counts };

    ghost maintenance = { record {
      flushed = λ a b r. ⟦<MemStorage as Storage>⟧.maintenance.flushed a.inner b.inner r;
      synced = λ a b r. ⟦<MemStorage as Storage>⟧.maintenance.synced a.inner b.inner r;
      invalidated = λ a b r. ⟦<MemStorage as Storage>⟧.maintenance.invalidated a.inner b.inner r;
      settled = λ a b r. ⟦<MemStorage as Storage>⟧.maintenance.settled a.inner b.inner r;
      discarded = λ at n a b r. ⟦<MemStorage as Storage>⟧.maintenance.discarded at n a.inner b.inner
          r;
      resized = λ n mode a b r. ⟦<MemStorage as Storage>⟧.maintenance.resized n mode a.inner b.inner
          r;
      counted = IsAnyRead;
      written = λ at source a b r. ⟦<MemStorage as Storage>⟧.maintenance.written at source a.inner
          b.inner r × (io_count b.counts ≡ after_write (length source) (io_count a.counts));
      zeroed_in_place = IsAnyZeroing;
      zeroed = IsNoZeroing;
    } };

    ghost openings = { no_openings };

    ghost lawful = { λ s. alignments_of s.inner };

    fn open(_opts: StorageOpenOptions) -> Result<Self, Error> {
        Err(Error::Unsupported)
    }

    fn create_open(_opts: StorageCreateOptions) -> Result<Self, Error> {
        Err(Error::Unsupported)
    }

    fn mem_align(&self) -> usize {
        self.inner.mem_align()
    }

    fn req_align(&self) -> usize {
        self.inner.req_align()
    }

    fn zero_align(&self) -> usize {
        self.inner.zero_align()
    }

    fn discard_align(&self) -> usize {
        self.inner.discard_align()
    }

    fn size(&self) -> Result<u64, Error> {
        self.inner.size()
    }

    fn resolve_relative_path(&self, alloc: Global, relative: &str) -> Result<String, Error> {
        self.inner.resolve_relative_path(alloc, relative)
    }

    fn get_filename(&self) -> Option<&str> {
        self.inner.get_filename()
    }

    fn pure_readv(&self, buf: &mut [u8], offset: u64) -> Result<(), Error> {
        self.inner.pure_readv(buf, offset)
    }

    fn pure_readv_mut(&mut self, buf: &mut [u8], offset: u64) -> Result<(), Error>
        requires { IsAlignedRequest (⟦<Counting as Storage>⟧.features self.old) offset
            (length buf.old) }
        ensures bytes { OnOk result
            (IsReadAt (⟦<Counting as Storage>⟧.bytes self.old) offset buf.new) }
        ensures unchanged { ⟦<Counting as Storage>⟧.bytes self.new ≡ ⟦<Counting as Storage>⟧.bytes
            self.old }
        ensures features { ⟦<Counting as Storage>⟧.features self.new
            ≡ ⟦<Counting as Storage>⟧.features self.old }
        ensures counted { ⟦<Counting as Storage>⟧.work self.new ≡ after_read (length buf.old)
            (⟦<Counting as Storage>⟧.work
            self.old) }
        ensures only { IfErr result IsDeviceOrMemory }
        ensures cause { CountsFaults (⟦<Counting as Storage>⟧.features self.old).is_reliable
            (⟦<Counting as Storage>⟧.fault_count self.old) (⟦<Counting as Storage>⟧.fault_count
            self.new) result }
        ensures memory { IsErrOf result Error.Memory
            → MayRunOut (⟦<Counting as Storage>⟧.features self.old).read_memory
            (length (⟦<Counting as Storage>⟧.bytes self.old)) (offset + length buf.old) }
    {
        self.counts.reads = self.counts.reads.saturating_add(1);
        self.counts.bytes_read = self.counts.bytes_read.saturating_add(buf.len() as u64);
        self.inner.pure_readv_mut(buf, offset)
    }

    fn pure_writev(&mut self, source: &[u8], offset: u64) -> Result<(), Error>
        requires { IsAlignedRequest (⟦<Counting as Storage>⟧.features self.old) offset
            (length source.now) }
        ensures written { WriteOutcome (⟦<Counting as Storage>⟧.features self.old).keeps_data
            (⟦<Counting as Storage>⟧.bytes self.old)
            (splice (⟦<Counting as Storage>⟧.bytes self.old) offset source.now)
            (⟦<Counting as Storage>⟧.bytes self.new) result }
        ensures torn { OnErr result
            (OldOrNew (⟦<Counting as Storage>⟧.bytes self.old)
            (splice (⟦<Counting as Storage>⟧.bytes self.old) offset source.now)
            (⟦<Counting as Storage>⟧.bytes self.new)) }
        ensures atomic { IsTrue (⟦<Counting as Storage>⟧.features self.old).atomic
            → OnErr result (⟦<Counting as Storage>⟧.bytes self.new ≡ ⟦<Counting as Storage>⟧.bytes
            self.old) }
        ensures features { ⟦<Counting as Storage>⟧.features self.new
            ≡ ⟦<Counting as Storage>⟧.features self.old }
        ensures counted { ⟦<Counting as Storage>⟧.work self.new ≡ after_write (length source.now)
            (⟦<Counting as Storage>⟧.work self.old) }
        ensures only { IfErr result IsDeviceOrMemory }
        ensures cause { CountsFaults (⟦<Counting as Storage>⟧.features self.old).is_reliable
            (⟦<Counting as Storage>⟧.fault_count self.old) (⟦<Counting as Storage>⟧.fault_count
            self.new) result }
        ensures memory { IsErrOf result Error.Memory
            → MayRunOut (⟦<Counting as Storage>⟧.features self.old).write_memory
            (length (⟦<Counting as Storage>⟧.bytes self.old)) (offset + length source.now) }
        ensures performed { ⟦<Counting as Storage>⟧.maintenance.written offset source.now self.old
            self.new result }
    {
        self.counts.writes = self.counts.writes.saturating_add(1);
        self.counts.bytes_written = self
            .counts
            .bytes_written
            .saturating_add(source.len() as u64);
        self.counts.longest_write = self.counts.longest_write.max(source.len() as u64);
        self.inner.pure_writev(source, offset)
    }

    fn zero_in_place(&mut self, offset: u64, count: u64, kind: ZeroKind) -> Result<(), Error> {
        self.inner.zero_in_place(offset, count, kind)
    }

    fn pure_discard(&mut self, offset: u64, count: u64) -> Result<(), Error> {
        self.inner.pure_discard(offset, count)
    }

    fn flush(&mut self) -> Result<(), Error> {
        self.reached.flushes = self.reached.flushes.saturating_add(1);
        self.inner.flush()
    }

    fn sync(&mut self) -> Result<(), Error> {
        self.reached.syncs = self.reached.syncs.saturating_add(1);
        self.inner.sync()
    }

    fn settle_writes(&mut self) -> Result<(), Error> {
        self.inner.settle_writes()
    }

    fn invalidate_cache(&mut self) -> Result<(), Error> {
        self.reached.invalidations = self.reached.invalidations.saturating_add(1);
        self.inner.invalidate_cache()
    }

    fn resize(&mut self, new_size: u64, mode: PreallocateMode) -> Result<(), Error> {
        self.inner.resize(new_size, mode)
    }
}
