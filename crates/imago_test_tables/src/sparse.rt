// SPDX-License-Identifier: MIT
//! A disk held as a table with one entry for each byte, over two storages.
ghost use Rattle.std.specs.Prelude.{◌≡◌, ℕ, ◌+◌, ◌^◌, ◌<◌, ◌≤◌, ◌⊎◌, ◌↔◌, ◌&&◌, max, length};
ghost use Rattle.std.specs.Prelude.{slice_index, IsTrue, IfOk, IfErr, OnOk, IsErrOf, MatchOption};
ghost use Rattle.std.specs.Prelude.{Some, false};
ghost use Rattle.std.specs.Option.{ForSome};
ghost use Rattle.imago_storage.specs.Faults.{CountsFaults};
ghost use Rattle.imago_drivers.specs.CallRelations.{any_calls};
ghost use Rattle.imago_drivers.specs.RawCalls.{HasNoSpecial};
ghost use Rattle.imago_drivers.specs.Place.{IsIn};
ghost use Rattle.imago_drivers.specs.Lengths.{padded_to};
ghost use Rattle.imago_drivers.specs.LayerBelow.{lent};
ghost use Rattle.imago_drivers.specs.Reasons.{allowed, none};
ghost use Rattle.imago_drivers.specs.Pending.{IsOwn};
ghost use Rattle.imago_drivers.specs.Commit.{IsCommit, IsCancel};
ghost use Rattle.imago_test_tables.specs.Pair.{at_index, in_turn};
ghost use Rattle.imago_test_tables.specs.Table.{IsFree, IsLeftBelow};
ghost use Rattle.imago_test_tables.specs.Sparse.{sparse_view, sparse_pending, WaitsApart};
ghost use Rattle.imago_test_tables.specs.Sparse.{HasOldByte, HasOldBytes, copy_reasons, mapping_of};
ghost use Rattle.imago_test_tables.specs.Sparse.{origin_for};
ghost use Rattle.imago_test_tables.specs.SparseLaws.{sparse_lawful, sparse_causes};

use crate::pair::Pair;
use crate::table::{
    Origin, clear_entry, entry, grow, put_part, put_run, run_of, storage_index, stored_origin,
};
use imago_drivers::drivers::{
    Format, FormatDriverInstance, PreallocateMode, PreparedDataMapping, ShallowMapping,
};
use imago_drivers::layer::LowerLayer;
use imago_drivers::stored::write_bytes;
use imago_storage::error::Error;
use imago_storage::storage::Storage;
use std::alloc::Global;
use std::fmt::{self, Display, Formatter, Write};

/// What never changes in a sparse disk.
#[derive(Clone, Copy)]
pub struct Settings {
    /// The granularity that the disk tells, in bytes.
    pub granularity: u64,
    /// Whether it may be written.
    pub writable: bool,
    /// Each commit of a write that waits fails as [`Error::Device`] once it has made this many
    /// bytes show. `None` lets all succeed.
    pub fail_commit_after: Option<u64>,
    /// Whether [`FormatDriverInstance::ensure_zero_mapping`] is for whole granules alone, and each
    /// that it is asked for fails as [`Error::Device`], with nothing changed.
    pub fail_granules: bool,
}

/// A prepared write whose bytes nothing shows yet.
#[derive(Clone, Copy)]
pub struct Waiting {
    pub(crate) start: u64,
    pub(crate) length: u64,
    pub(crate) ticket: u64,
}

/// A disk held as a table that says of each of its bytes where it comes from: one of two storages
/// at the same offset, nowhere (an explicit zero), the layer below, or nothing that may be read.
///
/// The table may be shorter than the disk. The disk is never grown then.
#[derive(Drop)]
pub struct Sparse<S: Storage> {
    storages: Pair<S>,
    table: Vec<Origin>,
    size: u64,
    settings: Settings,
    short: bool,
    waiting: Option<Waiting>,
    tickets: u64,
    ghost fits: { size < 2 ^ 64 },
    ghost bounded: { length table.items ≤ size },
    ghost filled: { short ≡ false → length table.items ≡ size },
    ghost granular: { 0 < settings.granularity },
    ghost waits_apart: { ForSome waiting (λ w. WaitsApart table.items w) },
}

impl<S: Storage> Sparse<S> {
    ghost use Rattle.imago_test_tables.specs.SparseImage.{table_of, size_of, settings_of, first_in};
    ghost use Rattle.imago_test_tables.specs.SparseImage.{second_in, own_faults_of};

    /// A disk of that size over two storages. There is none where the table is longer than the
    /// disk, or the granularity is 0.
    pub fn new(
        first: S,
        second: S,
        table: Vec<Origin>,
        size: u64,
        settings: Settings,
    ) -> Option<Self>
        ensures { MatchOption result ((size < length table.items) ⊎ (settings.granularity ≡ 0))
            (λ d. (table_of d ≡ table.items) × (size_of d ≡ «size») × (settings_of d ≡ «settings») ×
            (first_in d ≡ «first») × (second_in d ≡ «second»)) }
    {
        let entries = table.len() as u64;
        if size < entries || settings.granularity == 0 {
            return None;
        }
        Some(Sparse {
            storages: Pair {
                first,
                second,
                faults: 0,
            },
            table,
            size,
            settings,
            short: entries < size,
            waiting: None,
            tickets: 0,
        })
    }

    /// How often something else failed than its storages: a read of the layer below, a commit or a
    /// granule. The number saturates.
    pub fn faults(&self) -> u64
        ensures { result ≡ own_faults_of self.now }
    {
        self.storages.faults
    }

    /// Whether the mapping is the write that waits.
    fn is_waiting(&self, mapping: &PreparedDataMapping<u64>) -> bool
        ensures { IsTrue result ↔ IsOwn
            (sparse_pending
            ((S.features self.now.storages.first).keeps_data
            && (S.features self.now.storages.second).keeps_data)
            (S.bytes self.now.storages.first) self.now.waiting)
            mapping.now }
    {
        let Some(waiting) = &self.waiting else {
            return false;
        };
        let Some(ticket) = mapping.state() else {
            return false;
        };
        mapping.storage() == 0
            && mapping.offset() == waiting.start
            && mapping.length() == waiting.length
            && *ticket == waiting.ticket
    }
}

/// A range of entries that have one origin.
#[derive(Clone, Copy)]
struct Stretch {
    offset: u64,
    count: u64,
    origin: Origin,
}

/// The bytes of entries that stand in no storage.
fn old_bytes<B: LowerLayer>(
    alloc: Global,
    below: Option<&B>,
    stretch: Stretch,
) -> Result<Vec<u8>, Error>
    requires { IsFree (Some stretch.origin) }
    ensures count { IfOk result (λ v. length v.items ≡ stretch.count) }
    ensures bytes { IsTrue (lent B.as_layer_below below.entry).tells_bytes
        → IfOk result
        (λ v. HasOldBytes (lent B.as_layer_below below.entry).at stretch.offset stretch.origin
        v.items) }
    ensures device { IsErrOf result Error.Device
        → (lent B.as_layer_below below.entry).is_reliable ≡ false }
    ensures refusals { IfErr result
        (allowed
        (copy_reasons (lent B.as_layer_below below.entry) stretch.origin stretch.offset
        stretch.count)) }
{
    let mut bytes = vec![in alloc; 0u8; stretch.count as usize]?;
    let Some(layer) = below else {
        return Ok(bytes);
    };
    if stretch.origin != Origin::Lower {
        return Ok(bytes);
    }
    layer.read(alloc, &mut bytes, stretch.offset)?;
    Ok(bytes)
}

/// Writes what a range of entries shows into the first storage, where nothing shows it. For
/// overwriting it writes nothing.
fn copy_shown<S: Storage, B: LowerLayer>(
    storages: &mut Pair<S>,
    alloc: Global,
    below: Option<&B>,
    stretch: Stretch,
    overwrite: bool,
) -> Result<(), Error>
    requires { IsFree (Some stretch.origin) }
    ensures copied { IsTrue (S.features storages.old.first).keeps_data
        → IsTrue (lent B.as_layer_below below.entry).tells_bytes
        → overwrite ≡ false
        → OnOk result
        ((p : ℕ)
        → IsIn stretch.offset stretch.count p
        → HasOldByte (lent B.as_layer_below below.entry).at p stretch.origin
        (slice_index (S.bytes storages.new.first) p)) }
    ensures outside { IsTrue (S.features storages.old.first).keeps_data
        → (p : ℕ)
        → (p < stretch.offset) ⊎ (stretch.offset + stretch.count ≤ p)
        → slice_index (S.bytes storages.new.first) p ≡ slice_index (S.bytes storages.old.first) p }
    ensures second { S.bytes storages.new.second ≡ S.bytes storages.old.second }
    ensures no_shorter { length (S.bytes storages.old.first) ≤ length (S.bytes storages.new.first) }
    ensures no_longer { length (S.bytes storages.new.first)
        ≤ max (length (S.bytes storages.old.first))
        (padded_to (S.features storages.old.first) stretch.offset stretch.count) }
    ensures first_features { S.features storages.new.first ≡ S.features storages.old.first }
    ensures second_features { S.features storages.new.second ≡ S.features storages.old.second }
    ensures faults { CountsFaults
        (((S.features storages.old.first).is_reliable
        && (S.features storages.old.second).is_reliable) &&
        (lent B.as_layer_below below.entry).is_reliable)
        (S.fault_count storages.old.first + S.fault_count storages.old.second + storages.old.faults)
        (S.fault_count storages.new.first + S.fault_count storages.new.second + storages.new.faults)
        result }
    ensures refusals { IfErr result
        (allowed
        (copy_reasons (lent B.as_layer_below below.entry) stretch.origin stretch.offset
        stretch.count)) }
{
    if overwrite {
        return Ok(());
    }
    match old_bytes(alloc, below, stretch) {
        Ok(bytes) => write_bytes(&mut storages.first, alloc, &bytes, stretch.offset),
        Err(Error::Device) => {
            storages.faults = storages.faults.saturating_add(1);
            Err(Error::Device)
        }
        Err(e) => Err(e),
    }
}

impl<S: Storage> Display for Sparse<S> {
    fn fmt<W: Write>(&self, f: &mut Formatter<W>) -> fmt::Result {
        write!(
            f,
            "sparse[{}, {}]",
            self.storages.first, self.storages.second
        )
    }
}

impl<S: Storage> FormatDriverInstance for Sparse<S> {
    type Storage = S;

    type State = u64;

    ghost view = { λ d. sparse_view (S.features d.storages.first) (S.features d.storages.second)
        (S.fault_count d.storages.first + S.fault_count d.storages.second + d.storages.faults)
        (S.bytes d.storages.first) (S.bytes d.storages.second) d.table.items d.size d.settings
        d.short d.waiting };

    ghost recognizes = { λ _. false };

    ghost probe_reasons = { λ _. none };

    ghost calls = { record any_calls {
      read_special = λ o n d r. HasNoSpecial n r;
      flushed = λ a b r. in_turn S.maintenance.flushed a.storages.first a.storages.second
          b.storages.first b.storages.second r × (b.table.items ≡ a.table.items);
      synced = λ a b r. in_turn S.maintenance.synced a.storages.first a.storages.second
          b.storages.first b.storages.second r × (b.table.items ≡ a.table.items);
      invalidated = λ a b r. in_turn S.maintenance.invalidated a.storages.first a.storages.second
          b.storages.first b.storages.second r × (b.table.items ≡ a.table.items);
      discarded_to_any = λ o n a b r. IsLeftBelow o n a.table.items b.table.items r
          × (b.storages ≡ a.storages) × (b.waiting ≡ a.waiting);
      discarded_to_backing = λ o n a b r. IsLeftBelow o n a.table.items b.table.items r
          × (b.storages ≡ a.storages) × (b.waiting ≡ a.waiting);
    } };

    ghost lawful = { λ d. sparse_lawful (S.features d.storages.first) (S.features d.storages.second)
        (S.fault_count d.storages.first + S.fault_count d.storages.second + d.storages.faults)
        (S.bytes d.storages.first) (S.bytes d.storages.second) d.table.items d.size d.settings
        d.short d.waiting d.bounded d.granular (S.lawful d.storages.first)
        (S.lawful d.storages.second) };

    ghost causes_lawful = { λ d. sparse_causes (S.features d.storages.first)
        (S.features d.storages.second)
        (S.fault_count d.storages.first + S.fault_count d.storages.second + d.storages.faults)
        (S.bytes d.storages.first) (S.bytes d.storages.second) d.table.items d.size d.settings
        d.short d.waiting };

    fn format(&self) -> Format {
        Format::Raw
    }

    fn size(&self) -> u64 {
        self.size
    }

    fn zero_granularity(&self) -> Option<u64> {
        Some(self.settings.granularity)
    }

    fn writable(&self) -> bool {
        self.settings.writable
    }

    fn takes_backing(&self) -> bool {
        true
    }

    fn has_prepared(&self) -> bool {
        self.waiting.is_some()
    }

    fn probe(_alloc: Global, _storage: &S) -> Result<bool, Error> {
        Ok(false)
    }

    fn collect_storage_dependencies(&self, alloc: Global) -> Result<Vec<&S>, Error> {
        let storages = Vec::from_array(alloc, [&self.storages.first, &self.storages.second])?;
        Ok(storages)
    }

    fn storage_count(&self) -> usize {
        2
    }

    fn storage(&self, index: usize) -> Option<&S> {
        self.storages.get(index)
    }

    fn get_mapping(&self, offset: u64, max_length: u64) -> Result<(ShallowMapping, u64), Error> {
        let Some(origin) = entry(&self.table, offset) else {
            return Ok((ShallowMapping::Eof, 0));
        };
        let mapping = shallow_mapping(origin, offset)?;
        Ok((mapping, run_of(&self.table, offset, origin, max_length)))
    }

    fn read_mapped(
        &self,
        alloc: Global,
        storage: usize,
        buf: &mut [u8],
        offset: u64,
    ) -> Result<(), Error> {
        self.storages.read(alloc, storage, buf, offset)
    }

    fn readv_special(&self, _alloc: Global, buf: &mut [u8], _offset: u64) -> Result<(), Error> {
        if buf.is_empty() {
            return Ok(());
        }
        Err(Error::Unsupported)
    }

    fn write_mapped(
        &mut self,
        alloc: Global,
        storage: usize,
        source: &[u8],
        offset: u64,
    ) -> Result<(), Error> {
        self.storages.write(alloc, storage, source, offset)
    }

    fn ensure_zero_mapping(
        &mut self,
        _alloc: Global,
        offset: u64,
        count: u64,
    ) -> Result<(u64, u64), Error> {
        if !self.settings.fail_granules {
            return put_part(&mut self.table, offset, count, Origin::Zero);
        }
        if !has_granule(self.settings.granularity, offset, count) {
            return Ok((offset, 0));
        }
        self.storages.faults = self.storages.faults.saturating_add(1);
        Err(Error::Device)
    }

    fn discard_to_zero(
        &mut self,
        _alloc: Global,
        offset: u64,
        count: u64,
    ) -> Result<(u64, u64), Error> {
        put_part(&mut self.table, offset, count, Origin::Zero)
    }

    fn discard_to_any(
        &mut self,
        _alloc: Global,
        offset: u64,
        count: u64,
    ) -> Result<(u64, u64), Error> {
        put_part(&mut self.table, offset, count, Origin::Lower)
    }

    fn discard_to_backing(
        &mut self,
        _alloc: Global,
        offset: u64,
        count: u64,
    ) -> Result<(u64, u64), Error> {
        put_part(&mut self.table, offset, count, Origin::Lower)
    }

    fn prepare_data_mapping<B: LowerLayer>(
        &mut self,
        alloc: Global,
        below: Option<&B>,
        offset: u64,
        count: u64,
        overwrite: bool,
    ) -> Result<PreparedDataMapping<u64>, Error> {
        if count == 0 {
            return Ok(PreparedDataMapping::existing(0, 0, 0));
        }
        let origin = clear_entry(&self.table, offset)?;
        let run = run_of(&self.table, offset, origin, count);
        if let Some(index) = storage_index(origin) {
            return Ok(PreparedDataMapping::existing(index, offset, run));
        }
        let stretch = Stretch {
            offset,
            count: run,
            origin,
        };
        copy_shown(&mut self.storages, alloc, below, stretch, overwrite)?;
        let ticket = self.tickets.wrapping_add(1);
        self.tickets = ticket;
        self.waiting = Some(Waiting {
            start: offset,
            length: run,
            ticket,
        });
        Ok(PreparedDataMapping::to_commit(0, offset, run, ticket))
    }

    fn write_prepared(
        &mut self,
        alloc: Global,
        mapping: &PreparedDataMapping<u64>,
        source: &[u8],
        at: u64,
    ) -> Result<(), Error> {
        let (index, start, count) = (mapping.storage(), mapping.offset(), mapping.length());
        if !mapping.is_nonblocking() {
            if !self.is_waiting(mapping) {
                return Err(Error::ForeignMapping);
            }
            return self.storages.write(alloc, 0, source, start + at);
        }
        if !self.settings.writable {
            return Err(Error::ForeignMapping);
        }
        if count == 0 {
            return Ok(());
        }
        let Some(origin) = stored_origin(index) else {
            return Err(Error::ForeignMapping);
        };
        if run_of(&self.table, start, origin, count) < count {
            return Err(Error::ForeignMapping);
        }
        self.storages.write(alloc, index, source, start + at)
    }

    fn commit_data_mapping(&mut self, mapping: PreparedDataMapping<u64>) -> Result<(), Error>
        ensures call { IsCommit ⟦<Sparse<S> as FormatDriverInstance>⟧.view self.old self.new mapping
            result }
        ensures performed { ⟦<Sparse<S> as FormatDriverInstance>⟧.calls.committed mapping self.old
            self.new result }
    {
        let own = self.is_waiting(&mapping);
        let (start, count) = (mapping.offset(), mapping.length());
        let Some(_) = mapping.into_state() else {
            return Ok(());
        };
        if !own {
            return Err(Error::ForeignMapping);
        }
        self.waiting = None;
        let Some(most) = self.settings.fail_commit_after else {
            put_run(&mut self.table, start, count, Origin::First);
            return Ok(());
        };
        put_run(&mut self.table, start, count.min(most), Origin::First);
        self.storages.faults = self.storages.faults.saturating_add(1);
        Err(Error::Device)
    }

    fn cancel_data_mapping(&mut self, mapping: PreparedDataMapping<u64>)
        ensures call { IsCancel ⟦<Sparse<S> as FormatDriverInstance>⟧.view self.old self.new
            mapping }
        ensures performed { ⟦<Sparse<S> as FormatDriverInstance>⟧.calls.cancelled mapping self.old
            self.new }
    {
        let own = self.is_waiting(&mapping);
        let _ = mapping.into_state();
        if own {
            self.waiting = None;
        }
    }

    fn resize_grow<B: LowerLayer>(
        &mut self,
        _alloc: Global,
        _below: Option<&B>,
        new_size: u64,
        mode: PreallocateMode,
    ) -> Result<(), Error> {
        if new_size <= self.size {
            return Ok(());
        }
        if self.short {
            return Err(Error::Unsupported);
        }
        let Some(origin) = new_origin(mode) else {
            return Err(Error::Unsupported);
        };
        match grow(&mut self.table, new_size, origin) {
            Ok(()) => {
                self.size = new_size;
                Ok(())
            }
            Err(e) => Err(e),
        }
    }

    fn resize_shrink(&mut self, new_size: u64) -> Result<(), Error> {
        if self.size <= new_size {
            return Ok(());
        }
        self.table.truncate(new_size as usize);
        self.size = new_size;
        Ok(())
    }

    fn flush(&mut self) -> Result<(), Error> {
        self.storages.flush()
    }

    fn sync(&mut self) -> Result<(), Error> {
        self.storages.sync()
    }

    fn invalidate_cache(&mut self) -> Result<(), Error> {
        self.storages.invalidate_cache()
    }
}

/// Whether a whole granule lies in a range.
fn has_granule(granularity: u64, offset: u64, count: u64) -> bool
    requires { 0 < granularity }
{
    let behind = offset % granularity;
    if behind == 0 {
        return count >= granularity;
    }
    let skipped = granularity - behind;
    count >= skipped && count - skipped >= granularity
}

/// The origin of the bytes that a growth adds, if it is offered.
fn new_origin(mode: PreallocateMode) -> Option<Origin>
    ensures { result ≡ origin_for mode }
{
    match mode {
        PreallocateMode::None | PreallocateMode::Zero => Some(Origin::Zero),
        PreallocateMode::FormatAllocate => Some(Origin::Lower),
        PreallocateMode::FullAllocate | PreallocateMode::WriteData => None,
    }
}

/// The mapping of bytes of that origin at the offset. [`Error::NoAccess`] is an entry that is
/// barred.
fn shallow_mapping(origin: Origin, offset: u64) -> Result<ShallowMapping, Error>
    ensures { result ≡ mapping_of origin offset }
{
    match origin {
        Origin::First => Ok(ShallowMapping::Raw {
            storage: 0,
            offset,
            writable: true,
        }),
        Origin::Second => Ok(ShallowMapping::Raw {
            storage: 1,
            offset,
            writable: true,
        }),
        Origin::Zero => Ok(ShallowMapping::Zero { explicit: true }),
        Origin::Lower => Ok(ShallowMapping::Indirect {
            offset,
            writable: false,
        }),
        Origin::Barred => Err(Error::NoAccess),
    }
}
