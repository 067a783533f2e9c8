// SPDX-License-Identifier: MIT
//! The interface of a format driver.
ghost use Rattle.std.specs.Prelude.{◌≡◌, ℕ, ◌+◌, ◌<◌, ◌≤◌, ◌⊎◌, ◌↔◌, ◌&&◌, Option, None, Bool};
ghost use Rattle.std.specs.Prelude.{true, false, List, length, slice_get};
ghost use Rattle.std.specs.Prelude.{OnOk, IfOk, IfErr, IfSome, IsTrue, IsErrOf};
ghost use Rattle.std.specs.Prelude.{MatchOption, is_some};
ghost use Rattle.imago_storage.specs.Error.{IsExtRefusal};
ghost use Rattle.imago_storage.specs.Bytes.{IsReadAt};
ghost use Rattle.imago_drivers.specs.Parts.{length_of};
ghost use Rattle.imago_drivers.specs.Operation.{Map, Read, Zero, DiscardToZero};
ghost use Rattle.imago_drivers.specs.Operation.{DiscardToAny, DiscardToBacking};
ghost use Rattle.imago_drivers.specs.Place.{Refused, values, HasValues};
ghost use Rattle.imago_drivers.specs.Place.{BytesAreWritable};
ghost use Rattle.imago_drivers.specs.Reasons.{Reasons, allowed, none};
ghost use Rattle.imago_drivers.specs.LayerBelow.{lent};
ghost use Rattle.imago_drivers.specs.View.{View};
ghost use Rattle.imago_drivers.specs.Changes.{zeroes, unspecified, to_backing};
ghost use Rattle.imago_drivers.specs.Mapping.{IsRight};
ghost use Rattle.imago_drivers.specs.Done.{map_reasons, stored_read_reasons};
ghost use Rattle.imago_drivers.specs.Done.{special_read_reasons};
ghost use Rattle.imago_drivers.specs.Prepared.{IsPrepared, IsForeignWrite};
ghost use Rattle.imago_drivers.specs.Commit.{IsCommit, IsCancel};
ghost use Rattle.imago_drivers.specs.CallRelations.{Calls};
ghost use Rattle.imago_drivers.specs.Calls.{IsZeroCall, IsDiscard, IsPreparation, IsGrowth};
ghost use Rattle.imago_drivers.specs.Calls.{IsShrink, IsFlush, IsStoredWrite, IsPreparedWrite};
ghost use Rattle.imago_drivers.specs.Calls.{IsEnsuring};
ghost use Rattle.imago_drivers.specs.Laws.{IsLawful, AreCauses};

pub use crate::format::{Format, PreallocateMode};
use crate::layer::LowerLayer;
pub use crate::mapping::{PreparedDataMapping, ShallowMapping, Ticket};
use imago_storage::error::Error;
use imago_storage::storage::Storage;
use std::alloc::Global;
use std::fmt::Display;

/// A driver of an image format: it shows a disk, and maps each range of it to where its bytes
/// stand.
///
/// Offsets, lengths and sizes are in bytes. Over a driver that isn't known changing calls may be
/// made only on a writable one, while no prepared mapping with state waits to be spent, and inside
/// the disk; an image tests this before it calls its driver. A driver's own calls may ask for less:
/// those of a raw image don't ask whether it is writable. A refused call of a driver that can't be
/// written to leaves it as it was. Calls that are lent the layer below only read it.
///
/// A refused call answers [`Error::Device`] only where a device failed: in an exclusive call the
/// count of faults shows it. It answers [`Error::Memory`] where memory was refused,
/// [`Error::BeyondDisk`] where the driver's list of places ends inside the range, and
/// [`Error::WrapAround`], [`Error::InvalidData`], [`Error::NoAccess`] and [`Error::Unsupported`]
/// only where it is a cause of the call.
///
/// What lies outside a call's range, and in no block with one of its bytes, keeps where it stands,
/// and not its value alone, also where the call is refused. A driver says how large its blocks are.
pub trait FormatDriverInstance: Display + Drop {
    /// What the driver's data stands in.
    type Storage: Storage;

    /// What a prepared mapping holds until it is committed.
    type State: Drop;

    /// The driver as its callers see it.
    ghost view: { Self → View Self.State };

    /// The storages that the format is found in, by their bytes.
    ghost recognizes: { List ℕ → Bool };

    /// Why it may be refused to tell whether a storage has an image of the format.
    ghost probe_reasons: { Self.Storage → Reasons };

    /// What each call is. Over a driver that isn't known nothing but the call itself gives its
    /// relation: so what promises it made the call, once, with these arguments, and tells its
    /// answer.
    ghost calls: { Calls Self Self.State };

    /// The image's format.
    fn format(&self) -> Format
        ensures { result ≡ (view self.now).abilities.format };

    /// The disk's size.
    fn size(&self) -> u64
        ensures { result ≡ (view self.now).size };

    /// The granularity that ranges are zeroed with, if there is one. It is never 0.
    fn zero_granularity(&self) -> Option<u64>
        ensures { result ≡ (view self.now).abilities.zero_granularity };

    /// Whether changing calls may be made.
    fn writable(&self) -> bool
        ensures { result ≡ (view self.now).abilities.is_writable };

    /// Whether places may lead to a layer below.
    fn takes_backing(&self) -> bool
        ensures { result ≡ (view self.now).abilities.takes_backing };

    /// Whether a prepared mapping with state waits to be spent.
    fn has_prepared(&self) -> bool
        ensures { result ≡ is_some (view self.now).pending };

    /// Whether the storage has an image of this format, as far as can be told.
    fn probe(alloc: Global, storage: &Self::Storage) -> Result<bool, Error>
        ensures found { IsTrue (Self.Storage.features storage.now).tells_bytes
            → IfOk result (λ b. b ≡ recognizes (Self.Storage.bytes storage.now)) }
        ensures only { IfErr result IsExtRefusal }
        ensures device { IsErrOf result Error.Device
            → (Self.Storage.features storage.now).is_reliable ≡ false }
        ensures refusals { IfErr result (allowed (probe_reasons storage.now)) };

    /// The driver's storages, in the order of their indices. Refused, it is [`Error::Memory`].
    fn collect_storage_dependencies(&self, alloc: Global) -> Result<Vec<&Self::Storage>, Error>
        ensures count { IfOk result (λ v. length v.items ≡ (view self.now).stores.count) }
        ensures bytes { IfOk result
            (λ v. (i : ℕ)
            → IfSome (slice_get v.items i)
            (λ s. Self.Storage.bytes s.now ≡ (view self.now).stores.bytes i)) }
        ensures features { IfOk result
            (λ v. (i : ℕ)
            → IfSome (slice_get v.items i)
            (λ s. Self.Storage.features s.now ≡ (view self.now).stores.features i)) }
        ensures memory { IfErr result (λ e. e ≡ Error.Memory) };

    /// How many storages the driver has.
    fn storage_count(&self) -> usize
        ensures { result ≡ (view self.now).stores.count };

    /// The storage of that index.
    fn storage(&self, index: usize) -> Option<&Self::Storage>
        ensures { MatchOption result ((view self.now).stores.count ≤ index)
            (λ s. (index < (view self.now).stores.count) ×
            (Self.Storage.bytes s.now ≡ (view self.now).stores.bytes index) ×
            (Self.Storage.features s.now ≡ (view self.now).stores.features index)) };

    /// What the bytes from the offset on are, and how many of them. The length may pass
    /// `max_length`; it is 0 only at the end, or where `max_length` is. A place that may not be
    /// read is answered by its refusal. The place at the offset is always looked at, also where
    /// `max_length` is 0.
    fn get_mapping(&self, offset: u64, max_length: u64) -> Result<(ShallowMapping, u64), Error>
        ensures right { IfOk result (λ r. IsRight (view self.now).place offset max_length r.0 r.1) }
        ensures part { IfOk result (λ r. (view self.now).limits.answers Map offset max_length offset
            r.1) }
        ensures whole { (view self.now).limits.whole Read offset max_length
            → IfOk result (λ r. max_length ≤ r.1) }
        ensures refused_place { IfErr result
            (λ e. (e ≡ Error.InvalidData) ⊎ (e ≡ Error.NoAccess)
            → (view self.now).place offset ≡ Refused e) }
        ensures refusals { IfErr result (allowed (map_reasons (view self.now) offset max_length)) }
        ensures answered { calls.mapped offset max_length self.now result };

    /// Fills the buffer with bytes of a storage, as a mapping names them, with 0 past its end.
    /// Refused, the buffer is unspecified.
    fn read_mapped(
        &self,
        alloc: Global,
        storage: usize,
        buf: &mut [u8],
        offset: u64,
    ) -> Result<(), Error>
        requires { storage < (view self.now).stores.count }
        ensures bytes { IsTrue (view self.now).abilities.tells_bytes
            → OnOk result (IsReadAt ((view self.now).stores.bytes storage) offset buf.new) }
        ensures refusals { IfErr result
            (allowed (stored_read_reasons (view self.now) storage offset (length buf.old))) }
        ensures answered { calls.read storage offset (length buf.old) self.now result };

    /// Fills the buffer with special bytes, as a mapping names them. [`Error::InvalidData`] is a
    /// byte of the range that can't be made up, since what it would be made of is faulty. Refused,
    /// the buffer is unspecified.
    fn readv_special(&self, alloc: Global, buf: &mut [u8], offset: u64) -> Result<(), Error>
        ensures bytes { IsTrue (view self.now).abilities.tells_bytes
            → OnOk result
            (HasValues (view self.now).special offset buf.new) }
        ensures refusals { IfErr result
            (allowed (special_read_reasons (view self.now) offset (length buf.old))) }
        ensures answered { calls.read_special offset (length buf.old) self.now result };

    /// How many bytes the blocks have in which special bytes are made up, from offset 0 of these
    /// on: a read of a part of a block costs as much as one of all of it. It is never 0; by default
    /// it is 1, as no block costs more than its bytes.
    fn special_block(&self) -> u64
        ensures { 0 < result }
    {
        1
    }

    /// Writes bytes of a storage that a mapping names as writable. Refused, each place of the range
    /// is old or new.
    fn write_mapped(
        &mut self,
        alloc: Global,
        storage: usize,
        source: &[u8],
        offset: u64,
    ) -> Result<(), Error>
        requires writable { (view self.old).abilities.is_writable ≡ true }
        requires spent { (view self.old).pending ≡ None }
        requires known { storage < (view self.old).stores.count }
        requires mapped { BytesAreWritable (view self.old).place storage offset
            (length source.now) }
        ensures call { IsStoredWrite storage offset source.now (view self.old) (view self.new)
            result }
        ensures performed { calls.put storage source.now offset self.old self.new result };

    /// Makes a part of the range read as zeroes, and answers its offset and length: as much as the
    /// driver can at once, maybe nothing. Refused, each byte of the range is as it was or zero.
    fn ensure_zero_mapping(
        &mut self,
        alloc: Global,
        offset: u64,
        count: u64,
    ) -> Result<(u64, u64), Error>
        requires writable { (view self.old).abilities.is_writable ≡ true }
        requires spent { (view self.old).pending ≡ None }
        requires inside { offset + count ≤ (view self.old).size }
        ensures call { IsZeroCall Zero offset count (view self.old) (view self.new) result }
        ensures performed { calls.zeroed offset count self.old self.new result };

    /// Gives up the data of a part of the range, which reads as zeroes afterwards, and answers its
    /// offset and length. Refused, each byte of the range is as it was or zero.
    fn discard_to_zero(
        &mut self,
        alloc: Global,
        offset: u64,
        count: u64,
    ) -> Result<(u64, u64), Error>
        requires writable { (view self.old).abilities.is_writable ≡ true }
        requires spent { (view self.old).pending ≡ None }
        requires inside { offset + count ≤ (view self.old).size }
        ensures call { IsZeroCall DiscardToZero offset count (view self.old) (view self.new)
            result }
        ensures performed { calls.discarded_to_zero offset count self.old self.new result };

    /// Gives up the data of a part of the range, whose bytes are unspecified afterwards, and
    /// answers its offset and length. Refused, the range is unspecified.
    fn discard_to_any(
        &mut self,
        alloc: Global,
        offset: u64,
        count: u64,
    ) -> Result<(u64, u64), Error>
        requires writable { (view self.old).abilities.is_writable ≡ true }
        requires spent { (view self.old).pending ≡ None }
        requires inside { offset + count ≤ (view self.old).size }
        ensures call { IsDiscard (λ _ _. unspecified) DiscardToAny offset count (view self.old)
            (view self.new) result }
        ensures performed { calls.discarded_to_any offset count self.old self.new result };

    /// Gives up the data of a part of the range, whose bytes are as they were or those of the layer
    /// below afterwards, and answers its offset and length. So are those of the range where it is
    /// refused.
    fn discard_to_backing(
        &mut self,
        alloc: Global,
        offset: u64,
        count: u64,
    ) -> Result<(u64, u64), Error>
        requires writable { (view self.old).abilities.is_writable ≡ true }
        requires spent { (view self.old).pending ≡ None }
        requires inside { offset + count ≤ (view self.old).size }
        ensures call { IsDiscard (to_backing (view self.old).abilities.takes_backing)
            DiscardToBacking offset count (view self.old) (view self.new) result }
        ensures performed { calls.discarded_to_backing offset count self.old self.new result };

    /// Prepares the writing of data at the offset: the mapping holds at least 1 byte and at most
    /// `count`, none for 0. No place changes. The mapping is written by
    /// [`write_prepared`](Self::write_prepared), and spent by commit or cancel. Without `overwrite`
    /// the bytes that it stands for begin as the disk's. Refused, nothing is prepared.
    fn prepare_data_mapping<B: LowerLayer>(
        &mut self,
        alloc: Global,
        below: Option<&B>,
        offset: u64,
        count: u64,
        overwrite: bool,
    ) -> Result<PreparedDataMapping<Self::State>, Error>
        requires writable { (view self.old).abilities.is_writable ≡ true }
        requires spent { (view self.old).pending ≡ None }
        requires inside { offset + count ≤ (view self.old).size }
        ensures prepared { IfOk result
            (λ m. IsPrepared offset count overwrite
            (lent B.as_layer_below below.entry).tells_bytes
            (values (lent B.as_layer_below below.entry).at (view self.old).place)
            (view self.old) (view self.new) m) }
        ensures call { IsPreparation (lent B.as_layer_below below.entry) offset count
            (view self.old) (view self.new) result }
        ensures performed { calls.prepared (lent B.as_layer_below below.entry) offset count
            overwrite self.old self.new result };

    /// Writes data into a prepared mapping, from its `at`-th byte on: to the places that it stands
    /// for, or, with a state, to the bytes that wait for commit. Refused, each of these is old or
    /// new.
    ///
    /// [`Error::ForeignMapping`] is a mapping with a state that isn't the one prepared here, or one
    /// without that has a byte of no writable place, or any where the driver isn't writable;
    /// nothing changed.
    fn write_prepared(
        &mut self,
        alloc: Global,
        mapping: &PreparedDataMapping<Self::State>,
        source: &[u8],
        at: u64,
    ) -> Result<(), Error>
        requires { at + length source.now ≤ length_of mapping.now }
        ensures foreign { IsErrOf result Error.ForeignMapping
            ↔ IsForeignWrite (view self.old) mapping.now }
        ensures untouched { IsErrOf result Error.ForeignMapping → self.new ≡ self.old }
        ensures call { IsPreparedWrite mapping.now at source.now (view self.old) (view self.new)
            result }
        ensures performed { calls.filled mapping.now source.now at self.old self.new result };

    /// Spends a prepared mapping: what was written into it shows from now on. Without a state
    /// nothing changes.
    ///
    /// [`Error::ForeignMapping`] is a mapping with a state that isn't the one prepared here;
    /// nothing changed. Any other refusal leaves each of its places old or as prepared, and nothing
    /// prepared.
    fn commit_data_mapping(
        &mut self,
        mapping: PreparedDataMapping<Self::State>,
    ) -> Result<(), Error>
        ensures call { IsCommit view self.old self.new mapping result }
        ensures performed { calls.committed mapping self.old self.new result };

    /// Spends a prepared mapping, and forgets what was written into one with a state: the disk is
    /// as it was. A foreign mapping changes nothing.
    fn cancel_data_mapping(&mut self, mapping: PreparedDataMapping<Self::State>)
        ensures call { IsCancel view self.old self.new mapping }
        ensures performed { calls.cancelled mapping self.old self.new };

    /// Maps a part of the range, from the offset on, to bytes of a storage that may be written, and
    /// answers the storage, the offset there and the length: at least 1 and at most `count`, 0 for
    /// 0. With `overwrite` that part is unspecified afterwards, and, refused, the range. By default
    /// a mapping is prepared and committed.
    fn ensure_data_mapping<B: LowerLayer>(
        &mut self,
        alloc: Global,
        below: Option<&B>,
        offset: u64,
        count: u64,
        overwrite: bool,
    ) -> Result<(usize, u64, u64), Error>
        requires writable { (view self.old).abilities.is_writable ≡ true }
        requires spent { (view self.old).pending ≡ None }
        requires inside { offset + count ≤ (view self.old).size }
        ensures call { IsEnsuring (lent B.as_layer_below below.entry) offset count overwrite
            (view self.old) (view self.new) result }
        ensures performed { calls.ensured (lent B.as_layer_below below.entry) offset count overwrite
            self.old self.new result }
    {
        let mapping = self.prepare_data_mapping(alloc, below, offset, count, overwrite)?;
        let (storage, start, length) = (mapping.storage(), mapping.offset(), mapping.length());
        self.commit_data_mapping(mapping)?;
        Ok((storage, start, length))
    }

    /// Grows the disk to that size, with new bytes as the mode says. Where the disk is as large
    /// already, its size and bytes stay, and it isn't refused. Refused, the disk is as it was.
    fn resize_grow<B: LowerLayer>(
        &mut self,
        alloc: Global,
        below: Option<&B>,
        new_size: u64,
        mode: PreallocateMode,
    ) -> Result<(), Error>
        requires writable { (view self.old).abilities.is_writable ≡ true }
        requires spent { (view self.old).pending ≡ None }
        ensures call { IsGrowth mode (lent B.as_layer_below below.entry) new_size (view self.old)
            (view self.new) result }
        ensures performed { calls.grown new_size mode (lent B.as_layer_below below.entry) self.old
            self.new result };

    /// Cuts the disk to that size. Where the disk is as small already, its size and bytes stay, and
    /// it isn't refused. Refused, the disk is as it was.
    fn resize_shrink(&mut self, new_size: u64) -> Result<(), Error>
        requires writable { (view self.old).abilities.is_writable ≡ true }
        requires spent { (view self.old).pending ≡ None }
        ensures call { IsShrink new_size (view self.old) (view self.new) result }
        ensures performed { calls.cut new_size self.old self.new result };

    /// Writes what the driver and its storages buffer. No place changes, also where it is refused.
    fn flush(&mut self) -> Result<(), Error>
        ensures { IsFlush view calls.flushed self.old self.new result };

    /// Syncs what is written to the hardware. No place changes, also where it is refused.
    fn sync(&mut self) -> Result<(), Error>
        ensures { IsFlush view calls.synced self.old self.new result };

    /// Drops what the driver and its storages cache. No place changes, also where it is refused.
    fn invalidate_cache(&mut self) -> Result<(), Error>
        ensures { IsFlush view calls.invalidated self.old self.new result };

    /// The laws of the driver's places.
    ghost lawful: { (d : Self) → IsLawful (view d) };

    /// The laws of the driver's causes.
    ghost causes_lawful: { (d : Self) → AreCauses (view d) };
}
