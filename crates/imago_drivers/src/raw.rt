// SPDX-License-Identifier: MIT
//! The driver of raw images.
ghost use Rattle.std.specs.Prelude.{◌≡◌, ℕ, ◌+◌, ◌^◌, ◌<◌, ◌≤◌, length, slice_index, IsTrue};
ghost use Rattle.std.specs.Prelude.{IfOk, IfErr, OnOk, OnErr, IsOk, IsErrOf, Ok, true, false};
ghost use Rattle.std.specs.String.{string_bytes};
ghost use Rattle.imago_storage.specs.Bytes.{SameOutside};
ghost use Rattle.imago_storage.specs.Calls.{IsRangeWrite};
ghost use Rattle.imago_storage.specs.declared.options.PreallocateMode.TheVariants as StorageMode;
ghost use Rattle.imago_storage.specs.Error.{IsDeviceOrMemory, IsExtRefusal};
ghost use Rattle.imago_storage.specs.Faults.{CountsFaults};
ghost use Rattle.imago_storage.specs.Features.{InPlace, MayRunOut, OthersMayRunOut, IsAlignedTo};
ghost use Rattle.imago_storage.specs.Zeroes.{MayWrap};
ghost use Rattle.imago_drivers.specs.Outside.{StaysOutside};
ghost use Rattle.imago_drivers.specs.Raw.{raw_place, raw_view, storage_mode_of};
ghost use Rattle.imago_drivers.specs.Ranges.{IsAnsweredPart, HasWrappingPart, HasBytes};
ghost use Rattle.imago_drivers.specs.Operation.{DiscardToBacking};
ghost use Rattle.imago_drivers.specs.LayerBelow.{lent};
ghost use Rattle.imago_drivers.specs.Changes.{zeroes, to_backing};
ghost use Rattle.imago_drivers.specs.Lengths.{GrowsNear};
ghost use Rattle.imago_drivers.specs.Done.{HasDone};
ghost use Rattle.imago_drivers.specs.Calls.{IsDiscard, IsPreparation, IsGrowth, IsShrink};
ghost use Rattle.imago_drivers.specs.Reasons.{none};
ghost use Rattle.imago_drivers.specs.RawLaws.{raw_lawful, raw_causes};
ghost use Rattle.imago_drivers.specs.RawDiscards.{IsPartDiscarded, IsPartZeroed};
ghost use Rattle.imago_drivers.specs.RawCalls.{HasNoSpecial, IsRawPrepared, IsRawFilled};
ghost use Rattle.imago_drivers.specs.RawCalls.{IsSizeBehind};
ghost use Rattle.imago_drivers.specs.CallRelations.{any_calls, IsEnsuredInParts, IsIdleCommit};
ghost use Rattle.imago_drivers.specs.Place.{values};
ghost use Rattle.imago_drivers.specs.Prepared.{IsPrepared};
ghost use Rattle.imago_drivers.specs.Commit.{IsCommit, IsCancel};

use crate::drivers::{
    Format, FormatDriverInstance, PreallocateMode, PreparedDataMapping, ShallowMapping, Ticket,
};
use crate::layer::LowerLayer;
pub use crate::raw_builder::{RawCreateBuilder, RawOpenBuilder, create_in};
use crate::stored::write_bytes;
use imago_storage::align::{aligned_blocks, discard_align, zero_align};
use imago_storage::error::Error;
use imago_storage::ext::StorageExt;
use imago_storage::storage::{self, Storage, StorageOpenOptions};
use std::alloc::Global;
use std::fmt::{self, Display, Formatter, Write};

/// A disk whose bytes are those of its storage.
///
/// The disk's size is the storage's length when the image was opened, or what it was resized to
/// since. The storage may be longer, as writes are padded to its alignment; it is zero from the
/// disk's size on.
#[derive(Drop)]
pub struct Raw<S: Storage> {
    storage: S,
    size: u64,
    writable: bool,
    ghost fits: { size < 2 ^ 64 },
    ghost bounded: { size ≤ length (S.bytes storage) },
    ghost zero_behind: { IsTrue (S.features storage).keeps_data → (p : ℕ) → size ≤ p
        → slice_index (S.bytes storage) p ≡ 0 },
}

impl<S: Storage> Raw<S> {
    ghost use Rattle.imago_drivers.specs.RawBuilder.{IsRawOpeningByPath};
    ghost use Rattle.imago_drivers.specs.RawImage.{storage_in, size_of, writability_of};

    /// Opens the image that the storage is: a disk of the storage's length. It answers
    /// [`Error::Device`] and [`Error::Memory`] where the storage's size does.
    pub fn open_image(storage: S, writable: bool) -> Result<Self, Error>
        ensures opened { IfOk result
            (λ r. (storage_in r ≡ «storage») × (size_of r ≡ length (S.bytes storage)) ×
            (writability_of r ≡ «writable»)) }
        ensures only { IfErr result IsDeviceOrMemory }
        ensures device { IsErrOf result Error.Device → (S.features storage).is_reliable ≡ false }
        ensures memory { IsErrOf result Error.Memory → OthersMayRunOut (S.features storage) }
    {
        let size = storage.size()?;
        Ok(Raw {
            storage,
            size,
            writable,
        })
    }

    /// Opens the image in the storage of that name, by [`Storage::open`]. What that, or the
    /// storage's size, is refused for is passed on.
    pub fn open_path(path: String, writable: bool) -> Result<Self, Error>
        ensures { IsRawOpeningByPath S.openings S.bytes S.features (string_bytes path) writable
            result }
    {
        let options = StorageOpenOptions::new().filename(path).write(writable);
        Raw::open_image(S::open(options)?, writable)
    }

    /// Gives the storage back.
    pub fn into_inner(self) -> S
        ensures { result ≡ storage_in self }
    {
        let Raw {
            storage,
            size: _,
            writable: _,
        } = self;
        storage
    }
}

impl<S: Storage> Display for Raw<S> {
    fn fmt<W: Write>(&self, f: &mut Formatter<W>) -> fmt::Result {
        write!(f, "raw[{}]", self.storage)
    }
}

/// How the storage of a raw image grows.
pub(crate) fn storage_mode(mode: PreallocateMode) -> storage::PreallocateMode
    ensures { result ≡ storage_mode_of mode }
{
    match mode {
        PreallocateMode::None => storage::PreallocateMode::None,
        PreallocateMode::Zero | PreallocateMode::FormatAllocate => storage::PreallocateMode::Zero,
        PreallocateMode::FullAllocate => storage::PreallocateMode::Allocate,
        PreallocateMode::WriteData => storage::PreallocateMode::WriteData,
    }
}

impl<S: Storage> FormatDriverInstance for Raw<S> {
    type Storage = S;

    type State = Ticket;

    ghost view = { λ r. raw_view (S.features r.storage) (S.fault_count r.storage)
        (S.bytes r.storage) r.size r.writable };

    ghost recognizes = { λ _. true };

    ghost probe_reasons = { λ _. none };

    ghost calls = { record any_calls {
      mapped = λ o n self r. IsOk r;
      read_special = λ o n self r. HasNoSpecial n r;
      put = λ index bytes o a b r. IsRangeWrite S.features S.bytes S.fault_count S.work
          S.maintenance o bytes a.storage b.storage r × (b.size ≡ a.size)
          × (b.writable ≡ a.writable);
      zeroed = λ o n a b r. IsPartZeroed S.features S.bytes S.maintenance S.work
          (S.features a.storage) o n a.storage b.storage r × (b.size ≡ a.size)
          × (b.writable ≡ a.writable);
      discarded_to_zero = λ o n a b r. IsPartZeroed S.features S.bytes S.maintenance S.work
          (S.features a.storage) o n a.storage b.storage r × (b.size ≡ a.size)
          × (b.writable ≡ a.writable);
      discarded_to_any = λ o n a b r. IsPartDiscarded S.maintenance
          (S.features a.storage).discard_align o n a.storage b.storage r × (b.size ≡ a.size)
          × (b.writable ≡ a.writable);
      discarded_to_backing = λ o n a b r. HasDone (λ _ _. zeroes) DiscardToBacking o n
          (raw_view (S.features a.storage) (S.fault_count a.storage) (S.bytes a.storage) a.size
          a.writable)
          (raw_view (S.features b.storage) (S.fault_count b.storage) (S.bytes b.storage) b.size
          b.writable) r
          × IsPartZeroed S.features S.bytes S.maintenance S.work (S.features a.storage) o n
          a.storage b.storage r
          × (b.size ≡ a.size) × (b.writable ≡ a.writable);
      prepared = IsRawPrepared;
      filled = λ m bytes at a b r. IsRawFilled
          (λ xs o old new result. IsRangeWrite S.features S.bytes S.fault_count S.work
          S.maintenance o xs old.storage new.storage result × (new.size ≡ old.size)
          × (new.writable ≡ old.writable)) m bytes at a b r;
      committed = IsIdleCommit;
      cancelled = λ m a b. b ≡ a;
      ensured = IsEnsuredInParts IsRawPrepared IsIdleCommit;
      by_parts = λ below o n overwrite a b r h. h;
      grown = λ n mode below a b r. (n ≤ a.size → (b ≡ a) × (r ≡ Ok tt))
          × (a.size < n → S.maintenance.resized n (storage_mode_of mode) a.storage b.storage r
          × IsSizeBehind a.size n b.size r × (b.writable ≡ a.writable));
      cut = λ n a b r. (a.size ≤ n → (b ≡ a) × (r ≡ Ok tt))
          × (n < a.size → S.maintenance.resized n StorageMode.None a.storage b.storage r
          × IsSizeBehind a.size n b.size r × (b.writable ≡ a.writable));
      flushed = λ a b r. S.maintenance.flushed a.storage b.storage r × (b.size ≡ a.size)
          × (b.writable ≡ a.writable);
      synced = λ a b r. S.maintenance.synced a.storage b.storage r × (b.size ≡ a.size)
          × (b.writable ≡ a.writable);
      invalidated = λ a b r. S.maintenance.invalidated a.storage b.storage r × (b.size ≡ a.size)
          × (b.writable ≡ a.writable);
    } };

    ghost lawful = { λ d. raw_lawful (S.features d.storage) (S.fault_count d.storage)
        (S.bytes d.storage) d.size d.writable (S.lawful d.storage) };

    ghost causes_lawful = { λ d. raw_causes (S.features d.storage) (S.fault_count d.storage)
        (S.bytes d.storage) d.size d.writable };

    fn format(&self) -> Format {
        Format::Raw
    }

    fn size(&self) -> u64 {
        self.size
    }

    fn zero_granularity(&self) -> Option<u64> {
        None
    }

    fn writable(&self) -> bool {
        self.writable
    }

    fn takes_backing(&self) -> bool {
        false
    }

    fn has_prepared(&self) -> bool {
        false
    }

    fn probe(_alloc: Global, _storage: &S) -> Result<bool, Error> {
        Ok(true)
    }

    fn collect_storage_dependencies(&self, alloc: Global) -> Result<Vec<&S>, Error> {
        let mut storages = Vec::new(alloc);
        storages.push(&self.storage)?;
        Ok(storages)
    }

    fn storage_count(&self) -> usize {
        1
    }

    fn storage(&self, index: usize) -> Option<&S> {
        if index == 0 {
            Some(&self.storage)
        } else {
            None
        }
    }

    fn get_mapping(&self, offset: u64, max_length: u64) -> Result<(ShallowMapping, u64), Error> {
        if offset >= self.size {
            return Ok((ShallowMapping::Eof, 0));
        }
        let mapping = ShallowMapping::Raw {
            storage: 0,
            offset,
            writable: true,
        };
        Ok((mapping, max_length.min(self.size - offset)))
    }

    fn read_mapped(
        &self,
        alloc: Global,
        _storage: usize,
        buf: &mut [u8],
        offset: u64,
    ) -> Result<(), Error> {
        self.storage.read(alloc, buf, offset)
    }

    fn readv_special(&self, _alloc: Global, buf: &mut [u8], _offset: u64) -> Result<(), Error> {
        if buf.is_empty() {
            return Ok(());
        }
        Err(Error::Unsupported)
    }

    fn write_mapped(
        &mut self,
        alloc: Global,
        _storage: usize,
        source: &[u8],
        offset: u64,
    ) -> Result<(), Error> {
        write_bytes(&mut self.storage, alloc, source, offset)
    }

    fn ensure_zero_mapping(
        &mut self,
        alloc: Global,
        offset: u64,
        count: u64,
    ) -> Result<(u64, u64), Error> {
        zero_aligned_part(&mut self.storage, alloc, offset, count)
    }

    fn discard_to_zero(
        &mut self,
        alloc: Global,
        offset: u64,
        count: u64,
    ) -> Result<(u64, u64), Error> {
        zero_aligned_part(&mut self.storage, alloc, offset, count)
    }

    fn discard_to_any(
        &mut self,
        _alloc: Global,
        offset: u64,
        count: u64,
    ) -> Result<(u64, u64), Error> {
        discard_part(&mut self.storage, offset, count)
    }

    fn discard_to_backing(
        &mut self,
        alloc: Global,
        offset: u64,
        count: u64,
    ) -> Result<(u64, u64), Error>
        requires inside { offset + count ≤ (⟦<Raw<S> as FormatDriverInstance>⟧.view self.old).size }
        ensures call { IsDiscard (to_backing false) DiscardToBacking offset count
            (⟦<Raw<S> as FormatDriverInstance>⟧.view self.old)
            (⟦<Raw<S> as FormatDriverInstance>⟧.view self.new) result }
        ensures zeroed { HasDone (λ _ _. zeroes) DiscardToBacking offset count
            (⟦<Raw<S> as FormatDriverInstance>⟧.view self.old)
            (⟦<Raw<S> as FormatDriverInstance>⟧.view self.new) result }
        ensures performed { ⟦<Raw<S> as FormatDriverInstance>⟧.calls.discarded_to_backing offset
            count self.old
            self.new result }
    {
        // No layer stands below: what is given back to it is zero.
        zero_aligned_part(&mut self.storage, alloc, offset, count)
    }

    fn prepare_data_mapping<B: LowerLayer>(
        &mut self,
        _alloc: Global,
        _below: Option<&B>,
        offset: u64,
        count: u64,
        _overwrite: bool,
    ) -> Result<PreparedDataMapping<Ticket>, Error>
        requires inside { offset + count ≤ (⟦<Raw<S> as FormatDriverInstance>⟧.view self.old).size }
        ensures prepared { IfOk result
            (λ m. IsPrepared offset count _overwrite
            (lent B.as_layer_below _below.entry).tells_bytes
            (values (lent B.as_layer_below _below.entry).at
            (⟦<Raw<S> as FormatDriverInstance>⟧.view self.old).place)
            (⟦<Raw<S> as FormatDriverInstance>⟧.view self.old)
            (⟦<Raw<S> as FormatDriverInstance>⟧.view self.new) m) }
        ensures call { IsPreparation (lent B.as_layer_below _below.entry) offset count
            (⟦<Raw<S> as FormatDriverInstance>⟧.view self.old)
            (⟦<Raw<S> as FormatDriverInstance>⟧.view self.new) result }
        ensures untouched { self.new ≡ self.old }
        ensures never_refused { IsOk result }
        ensures performed { ⟦<Raw<S> as FormatDriverInstance>⟧.calls.prepared
            (lent B.as_layer_below _below.entry) offset count _overwrite self.old self.new result }
    {
        Ok(PreparedDataMapping::existing(0, offset, count))
    }

    fn write_prepared(
        &mut self,
        alloc: Global,
        mapping: &PreparedDataMapping<Ticket>,
        source: &[u8],
        at: u64,
    ) -> Result<(), Error> {
        if !self.writable {
            return Err(Error::ForeignMapping);
        }
        if !mapping.is_nonblocking() {
            return Err(Error::ForeignMapping);
        }
        if mapping.length == 0 {
            return Ok(());
        }
        if mapping.storage != 0 {
            return Err(Error::ForeignMapping);
        }
        if mapping.length > self.size {
            return Err(Error::ForeignMapping);
        }
        if mapping.offset > self.size - mapping.length {
            return Err(Error::ForeignMapping);
        }
        write_bytes(&mut self.storage, alloc, source, mapping.offset + at)
    }

    fn commit_data_mapping(&mut self, mapping: PreparedDataMapping<Ticket>) -> Result<(), Error>
        ensures call { IsCommit ⟦<Raw<S> as FormatDriverInstance>⟧.view self.old self.new mapping
            result }
        ensures performed { ⟦<Raw<S> as FormatDriverInstance>⟧.calls.committed mapping self.old
            self.new result }
    {
        match mapping.into_state() {
            None => Ok(()),
            Some(_) => Err(Error::ForeignMapping),
        }
    }

    fn cancel_data_mapping(&mut self, mapping: PreparedDataMapping<Ticket>)
        ensures call { IsCancel ⟦<Raw<S> as FormatDriverInstance>⟧.view self.old self.new mapping }
        ensures performed { ⟦<Raw<S> as FormatDriverInstance>⟧.calls.cancelled mapping self.old
            self.new }
    {
        let _ = mapping.into_state();
    }

    fn resize_grow<B: LowerLayer>(
        &mut self,
        _alloc: Global,
        _below: Option<&B>,
        new_size: u64,
        mode: PreallocateMode,
    ) -> Result<(), Error>
        ensures call { IsGrowth mode (lent B.as_layer_below _below.entry) new_size
            (⟦<Raw<S> as FormatDriverInstance>⟧.view self.old)
            (⟦<Raw<S> as FormatDriverInstance>⟧.view self.new) result }
        ensures exact { (⟦<Raw<S> as FormatDriverInstance>⟧.view self.old).size < new_size
            → OnOk result
            (length ((⟦<Raw<S> as FormatDriverInstance>⟧.view self.new).stores.bytes 0)
            ≡ new_size) }
        ensures performed { ⟦<Raw<S> as FormatDriverInstance>⟧.calls.grown new_size mode
            (lent B.as_layer_below _below.entry) self.old self.new result }
    {
        if new_size <= self.size {
            return Ok(());
        }
        self.storage.resize(new_size, storage_mode(mode))?;
        self.size = new_size;
        Ok(())
    }

    fn resize_shrink(&mut self, new_size: u64) -> Result<(), Error>
        ensures call { IsShrink new_size (⟦<Raw<S> as FormatDriverInstance>⟧.view self.old)
            (⟦<Raw<S> as FormatDriverInstance>⟧.view self.new) result }
        ensures exact { new_size < (⟦<Raw<S> as FormatDriverInstance>⟧.view self.old).size
            → OnOk result
            (length ((⟦<Raw<S> as FormatDriverInstance>⟧.view self.new).stores.bytes 0)
            ≡ new_size) }
        ensures performed { ⟦<Raw<S> as FormatDriverInstance>⟧.calls.cut new_size self.old self.new
            result }
    {
        if self.size <= new_size {
            return Ok(());
        }
        self.storage
            .resize(new_size, storage::PreallocateMode::None)?;
        self.size = new_size;
        Ok(())
    }

    fn flush(&mut self) -> Result<(), Error> {
        self.storage.flush()
    }

    fn sync(&mut self) -> Result<(), Error> {
        self.storage.sync()
    }

    fn invalidate_cache(&mut self) -> Result<(), Error> {
        self.storage.invalidate_cache()
    }
}

/// Zeroes the part of a range that is aligned to the storage's zero alignment, and answers it.
fn zero_aligned_part<S: Storage>(
    storage: &mut S,
    alloc: Global,
    offset: u64,
    count: u64,
) -> Result<(u64, u64), Error>
    requires { offset + count < 2 ^ 64 }
    ensures part { IfOk result (λ r. IsAnsweredPart (S.features storage.old).zero_align offset count
        r.0 r.1) }
    ensures zeroed { IsTrue (S.features storage.old).keeps_data
        → IfOk result
        (λ r. HasBytes false r.0 r.1 (λ k. 0) (S.bytes storage.old) (S.bytes storage.new)) }
    ensures torn { IsTrue (S.features storage.old).keeps_data
        → OnErr result
        (HasBytes true offset count (λ k. 0) (S.bytes storage.old) (S.bytes storage.new)) }
    ensures outside { (size : ℕ)
        → StaysOutside (S.features storage.old).keeps_data 1 offset count
        (raw_place size (S.bytes storage.old)) (raw_place size (S.bytes storage.new)) }
    ensures lengths { GrowsNear (S.features storage.old) offset count
        (length (S.bytes storage.old)) (length (S.bytes storage.new)) }
    ensures performed { IsPartZeroed S.features S.bytes S.maintenance S.work
        (S.features storage.old) offset count storage.old storage.new result }
    ensures features { S.features storage.new ≡ S.features storage.old }
    ensures only { IfErr result IsExtRefusal }
    ensures wraps { IsErrOf result Error.WrapAround
        → HasWrappingPart (MayWrap (S.features storage.old) (S.features storage.old).zeroes) offset
        count }
    ensures cause { CountsFaults (S.features storage.old).is_reliable (S.fault_count storage.old)
        (S.fault_count storage.new) result }
    ensures memory { IsErrOf result Error.Memory
        → IsAlignedTo (S.features storage.old).zero_align offset count
        → (S.features storage.old).zeroes ≡ InPlace
        → MayRunOut (S.features storage.old).zero_memory (length (S.bytes storage.old))
        (offset + count) }
{
    let align = zero_align(&*storage);
    let Some((start, end)) = aligned_blocks(align, offset, count) else {
        return Ok((offset, 0));
    };
    if end <= start {
        return Ok((offset, 0));
    }
    storage.write_zeroes(alloc, start, end - start)?;
    Ok((start, end - start))
}

/// Discards the part of a range that is aligned to the storage's discard alignment, and answers it.
fn discard_part<S: Storage>(storage: &mut S, offset: u64, count: u64) -> Result<(u64, u64), Error>
    requires { offset + count < 2 ^ 64 }
    ensures part { IfOk result (λ r. IsAnsweredPart (S.features storage.old).discard_align offset
        count r.0 r.1) }
    ensures discarded { IfOk result
        (λ r. SameOutside r.0 r.1 (S.bytes storage.old) (S.bytes storage.new)) }
    ensures same_length { length (S.bytes storage.new) ≡ length (S.bytes storage.old) }
    ensures refused { OnErr result
        (SameOutside offset count (S.bytes storage.old) (S.bytes storage.new)) }
    ensures outside { (size : ℕ)
        → StaysOutside (S.features storage.old).keeps_data 1 offset count
        (raw_place size (S.bytes storage.old)) (raw_place size (S.bytes storage.new)) }
    ensures features { S.features storage.new ≡ S.features storage.old }
    ensures only { IfErr result IsDeviceOrMemory }
    ensures cause { CountsFaults (S.features storage.old).is_reliable (S.fault_count storage.old)
        (S.fault_count storage.new) result }
    ensures memory { IsErrOf result Error.Memory → OthersMayRunOut (S.features storage.old) }
    ensures performed { IsPartDiscarded S.maintenance (S.features storage.old).discard_align offset
        count storage.old storage.new result }
{
    let align = discard_align(&*storage);
    let Some((start, end)) = aligned_blocks(align, offset, count) else {
        return Ok((offset, 0));
    };
    if end <= start {
        return Ok((offset, 0));
    }
    storage.discard(start, end - start)?;
    Ok((start, end - start))
}
