// SPDX-License-Identifier: MIT
//! A driver with a real commit: a disk that shows the layer below until a first write is committed.
ghost use Rattle.std.specs.Prelude.{◌≡◌, ℕ, ◌+◌, ◌^◌, ◌<◌, ◌≤◌, ◌↔◌, length, IsTrue, IfOk, IfErr};
ghost use Rattle.std.specs.Prelude.{IsErrOf, true, false, max, slice_index, IsOk, OnOk, OnErr};
ghost use Rattle.imago_storage.specs.Error.{IsExtRefusal};
ghost use Rattle.imago_storage.specs.Faults.{CountsFaults};
ghost use Rattle.imago_storage.specs.Padding.{Wraps};
ghost use Rattle.imago_drivers.specs.Lengths.{padded_to};
ghost use Rattle.imago_drivers.specs.Ranges.{HasBytes};
ghost use Rattle.std.specs.Option.{ForSome};
ghost use Rattle.imago_drivers.specs.Place.{HasValues};
ghost use Rattle.imago_drivers.specs.LayerBelow.{lent, below_reasons};
ghost use Rattle.imago_drivers.specs.Reasons.{allowed, none};
ghost use Rattle.imago_drivers.specs.Pending.{IsOwn};
ghost use Rattle.imago_test_drivers.specs.CopyOnce.{copy_view, copy_pending, WaitsInside};
ghost use Rattle.imago_test_drivers.specs.CopyOnceLaws.{copy_lawful, copy_causes};
ghost use Rattle.imago_drivers.specs.CallRelations.{any_calls, IsNotOffered};
ghost use Rattle.imago_drivers.specs.RawCalls.{HasNoSpecial};
ghost use Rattle.imago_drivers.specs.Commit.{IsCommit, IsCancel};

use imago_drivers::drivers::{
    Format, FormatDriverInstance, PreallocateMode, PreparedDataMapping, ShallowMapping,
};
use imago_drivers::layer::LowerLayer;
use imago_drivers::stored::write_bytes;
use imago_storage::error::Error;
use imago_storage::ext::StorageExt;
use imago_storage::storage::Storage;
use std::alloc::Global;
use std::fmt::{self, Display, Formatter, Write};

/// A prepared write into the copy that nothing shows yet.
#[derive(Clone, Copy)]
pub struct Waiting {
    pub(crate) start: u64,
    pub(crate) length: u64,
    pub(crate) ticket: u64,
}

/// A disk that shows the layer below until a first write is committed, and a whole copy of it from
/// then on.
#[derive(Drop)]
pub struct CopyOnce<S: Storage> {
    storage: S,
    size: u64,
    copied: bool,
    waiting: Option<Waiting>,
    tickets: u64,
    faults: u64,
    overwrites: Option<bool>,
    ghost fits: { size < 2 ^ 64 },
    ghost waits_inside: { ForSome waiting (λ w. WaitsInside size copied w) },
}

impl<S: Storage> CopyOnce<S> {
    /// A disk of that size, which shows the layer below.
    pub fn new(storage: S, size: u64) -> Self {
        CopyOnce {
            storage,
            size,
            copied: false,
            waiting: None,
            tickets: 0,
            faults: 0,
            overwrites: None,
        }
    }

    /// Whether the last mapping that was to be prepared was for overwriting. `None` where none was.
    pub fn overwrites(&self) -> Option<bool> {
        self.overwrites
    }

    /// Whether the mapping is the write that waits.
    fn is_waiting(&self, mapping: &PreparedDataMapping<u64>) -> bool
        ensures { IsTrue result ↔ IsOwn
            (copy_pending self.now.size (S.bytes self.now.storage) self.now.waiting) mapping.now }
    {
        let Some(waiting) = &self.waiting else {
            return false;
        };
        let Some(ticket) = mapping.state() else {
            return false;
        };
        mapping.storage() == 0
            && mapping.offset() == waiting.start
            && mapping.length() == waiting.length
            && *ticket == waiting.ticket
    }
}

impl<S: Storage> Display for CopyOnce<S> {
    fn fmt<W: Write>(&self, f: &mut Formatter<W>) -> fmt::Result {
        write!(f, "copy_once[{}]", self.storage)
    }
}

/// The bytes of the layer below, up to a size.
fn read_below<B: LowerLayer>(alloc: Global, below: Option<&B>, size: u64) -> Result<Vec<u8>, Error>
    ensures count { IfOk result (λ v. length v.items ≡ size) }
    ensures bytes { IsTrue (lent B.as_layer_below below.entry).tells_bytes
        → IfOk result (λ v. HasValues (lent B.as_layer_below below.entry).at 0 v.items) }
    ensures refusals { IfErr result
        (allowed
        (record (below_reasons (lent B.as_layer_below below.entry) 0 size)
        { memory = Unit {0} })) }
{
    let mut bytes = vec![in alloc; 0u8; size as usize]?;
    let Some(layer) = below else {
        return Ok(bytes);
    };
    layer.read(alloc, &mut bytes, 0)?;
    Ok(bytes)
}

/// Writes bytes of the copy. Refused, each byte of the range is old or new.
fn write_copy<S: Storage>(
    storage: &mut S,
    alloc: Global,
    source: &[u8],
    offset: u64,
) -> Result<(), Error>
    ensures empty { length source.now ≡ 0 → IsOk result × (storage.new ≡ storage.old) }
    ensures written { IsTrue (S.features storage.old).keeps_data
        → OnOk result
        (HasBytes false offset (length source.now) (λ k. slice_index source.now k)
        (S.bytes storage.old) (S.bytes storage.new)) }
    ensures torn { IsTrue (S.features storage.old).keeps_data
        → OnErr result
        (HasBytes true offset (length source.now) (λ k. slice_index source.now k)
        (S.bytes storage.old) (S.bytes storage.new)) }
    ensures no_shorter { length (S.bytes storage.old) ≤ length (S.bytes storage.new) }
    ensures near { length (S.bytes storage.new)
        ≤ max (length (S.bytes storage.old))
        (padded_to (S.features storage.old) offset (length source.now)) }
    ensures features { S.features storage.new ≡ S.features storage.old }
    ensures only { IfErr result IsExtRefusal }
    ensures wraps { IsErrOf result Error.WrapAround
        → Wraps (S.features storage.old) offset (length source.now) }
    ensures cause { CountsFaults (S.features storage.old).is_reliable (S.fault_count storage.old)
        (S.fault_count storage.new) result }
{
    write_bytes(storage, alloc, source, offset)
}

impl<S: Storage> FormatDriverInstance for CopyOnce<S> {
    type Storage = S;

    type State = u64;

    ghost view = { λ d. copy_view (S.features d.storage) (S.fault_count d.storage + d.faults)
        (S.bytes d.storage) d.size d.copied d.waiting };

    ghost recognizes = { λ _. true };

    ghost probe_reasons = { λ _. none };

    ghost calls = { record any_calls {
      read_special = λ o n d r. HasNoSpecial n r;
      zeroed = λ o n. IsNotOffered;
      discarded_to_zero = λ o n. IsNotOffered;
      grown = λ n mode below a b r. b ≡ a;
      cut = λ n a b r. b ≡ a;
      flushed = λ a b r. S.maintenance.flushed a.storage b.storage r × (b.size ≡ a.size)
          × (b.copied ≡ a.copied) × (b.waiting ≡ a.waiting) × (b.tickets ≡ a.tickets)
          × (b.faults ≡ a.faults) × (b.overwrites ≡ a.overwrites);
      synced = λ a b r. S.maintenance.synced a.storage b.storage r × (b.size ≡ a.size)
          × (b.copied ≡ a.copied) × (b.waiting ≡ a.waiting) × (b.tickets ≡ a.tickets)
          × (b.faults ≡ a.faults) × (b.overwrites ≡ a.overwrites);
      invalidated = λ a b r. S.maintenance.invalidated a.storage b.storage r × (b.size ≡ a.size)
          × (b.copied ≡ a.copied) × (b.waiting ≡ a.waiting) × (b.tickets ≡ a.tickets)
          × (b.faults ≡ a.faults) × (b.overwrites ≡ a.overwrites);
      discarded_to_any = λ o n. IsNotOffered;
      discarded_to_backing = λ o n. IsNotOffered;
    } };

    ghost lawful = { λ d. copy_lawful (S.features d.storage) (S.fault_count d.storage + d.faults)
        (S.bytes d.storage) d.size d.copied d.waiting (S.lawful d.storage) };

    ghost causes_lawful = { λ d. copy_causes (S.features d.storage)
        (S.fault_count d.storage + d.faults) (S.bytes d.storage) d.size d.copied d.waiting };

    fn format(&self) -> Format {
        Format::Raw
    }

    fn size(&self) -> u64 {
        self.size
    }

    fn zero_granularity(&self) -> Option<u64> {
        None
    }

    fn writable(&self) -> bool {
        true
    }

    fn takes_backing(&self) -> bool {
        true
    }

    fn has_prepared(&self) -> bool {
        self.waiting.is_some()
    }

    fn probe(_alloc: Global, _storage: &S) -> Result<bool, Error> {
        Ok(true)
    }

    fn collect_storage_dependencies(&self, alloc: Global) -> Result<Vec<&S>, Error> {
        let mut storages = Vec::new(alloc);
        storages.push(&self.storage)?;
        Ok(storages)
    }

    fn storage_count(&self) -> usize {
        1
    }

    fn storage(&self, index: usize) -> Option<&S> {
        if index == 0 {
            Some(&self.storage)
        } else {
            None
        }
    }

    fn get_mapping(&self, offset: u64, max_length: u64) -> Result<(ShallowMapping, u64), Error> {
        if offset >= self.size {
            return Ok((ShallowMapping::Eof, 0));
        }
        let count = max_length.min(self.size - offset);
        if !self.copied {
            let mapping = ShallowMapping::Indirect {
                offset,
                writable: false,
            };
            return Ok((mapping, count));
        }
        let mapping = ShallowMapping::Raw {
            storage: 0,
            offset,
            writable: true,
        };
        Ok((mapping, count))
    }

    fn read_mapped(
        &self,
        alloc: Global,
        _storage: usize,
        buf: &mut [u8],
        offset: u64,
    ) -> Result<(), Error> {
        self.storage.read(alloc, buf, offset)
    }

    fn readv_special(&self, _alloc: Global, buf: &mut [u8], _offset: u64) -> Result<(), Error> {
        if buf.is_empty() {
            return Ok(());
        }
        Err(Error::Unsupported)
    }

    fn write_mapped(
        &mut self,
        alloc: Global,
        _storage: usize,
        source: &[u8],
        offset: u64,
    ) -> Result<(), Error> {
        write_copy(&mut self.storage, alloc, source, offset)
    }

    fn ensure_zero_mapping(
        &mut self,
        _alloc: Global,
        _offset: u64,
        _count: u64,
    ) -> Result<(u64, u64), Error> {
        Err(Error::Unsupported)
    }

    fn discard_to_zero(
        &mut self,
        _alloc: Global,
        _offset: u64,
        _count: u64,
    ) -> Result<(u64, u64), Error> {
        Err(Error::Unsupported)
    }

    fn discard_to_any(
        &mut self,
        _alloc: Global,
        _offset: u64,
        _count: u64,
    ) -> Result<(u64, u64), Error> {
        Err(Error::Unsupported)
    }

    fn discard_to_backing(
        &mut self,
        _alloc: Global,
        _offset: u64,
        _count: u64,
    ) -> Result<(u64, u64), Error> {
        Err(Error::Unsupported)
    }

    fn prepare_data_mapping<B: LowerLayer>(
        &mut self,
        alloc: Global,
        below: Option<&B>,
        offset: u64,
        count: u64,
        overwrite: bool,
    ) -> Result<PreparedDataMapping<u64>, Error> {
        self.overwrites = Some(overwrite);
        if count == 0 {
            return Ok(PreparedDataMapping::existing(0, 0, 0));
        }
        if self.copied {
            return Ok(PreparedDataMapping::existing(0, offset, count));
        }
        match read_below(alloc, below, self.size) {
            Ok(bytes) => {
                write_copy(&mut self.storage, alloc, &bytes, 0)?;
                let ticket = self.tickets.wrapping_add(1);
                self.tickets = ticket;
                self.waiting = Some(Waiting {
                    start: offset,
                    length: count,
                    ticket,
                });
                Ok(PreparedDataMapping::to_commit(0, offset, count, ticket))
            }
            Err(Error::Device) => {
                self.faults = self.faults.saturating_add(1);
                Err(Error::Device)
            }
            Err(e) => Err(e),
        }
    }

    fn write_prepared(
        &mut self,
        alloc: Global,
        mapping: &PreparedDataMapping<u64>,
        source: &[u8],
        at: u64,
    ) -> Result<(), Error> {
        let (start, length) = (mapping.offset(), mapping.length());
        if !mapping.is_nonblocking() {
            if !self.is_waiting(mapping) {
                return Err(Error::ForeignMapping);
            }
            return write_copy(&mut self.storage, alloc, source, start + at);
        }
        if length == 0 {
            return Ok(());
        }
        if !self.copied {
            return Err(Error::ForeignMapping);
        }
        if mapping.storage() != 0 {
            return Err(Error::ForeignMapping);
        }
        if length > self.size {
            return Err(Error::ForeignMapping);
        }
        if start > self.size - length {
            return Err(Error::ForeignMapping);
        }
        write_copy(&mut self.storage, alloc, source, start + at)
    }

    fn commit_data_mapping(&mut self, mapping: PreparedDataMapping<u64>) -> Result<(), Error>
        ensures call { IsCommit ⟦<CopyOnce<S> as FormatDriverInstance>⟧.view self.old self.new
            mapping result }
        ensures performed { ⟦<CopyOnce<S> as FormatDriverInstance>⟧.calls.committed mapping self.old
            self.new result }
    {
        let own = self.is_waiting(&mapping);
        let Some(_) = mapping.into_state() else {
            return Ok(());
        };
        if !own {
            return Err(Error::ForeignMapping);
        }
        self.waiting = None;
        self.copied = true;
        Ok(())
    }

    fn cancel_data_mapping(&mut self, mapping: PreparedDataMapping<u64>)
        ensures call { IsCancel ⟦<CopyOnce<S> as FormatDriverInstance>⟧.view self.old self.new
            mapping }
        ensures performed { ⟦<CopyOnce<S> as FormatDriverInstance>⟧.calls.cancelled mapping self.old
            self.new }
    {
        let own = self.is_waiting(&mapping);
        let _ = mapping.into_state();
        if own {
            self.waiting = None;
        }
    }

    fn resize_grow<B: LowerLayer>(
        &mut self,
        _alloc: Global,
        _below: Option<&B>,
        new_size: u64,
        _mode: PreallocateMode,
    ) -> Result<(), Error> {
        if new_size <= self.size {
            return Ok(());
        }
        Err(Error::Unsupported)
    }

    fn resize_shrink(&mut self, new_size: u64) -> Result<(), Error> {
        if self.size <= new_size {
            return Ok(());
        }
        Err(Error::Unsupported)
    }

    fn flush(&mut self) -> Result<(), Error> {
        self.storage.flush()
    }

    fn sync(&mut self) -> Result<(), Error> {
        self.storage.sync()
    }

    fn invalidate_cache(&mut self) -> Result<(), Error> {
        self.storage.invalidate_cache()
    }
}
