// SPDX-License-Identifier: MIT
//! The copy-on-write driver.
ghost use Rattle.std.specs.Prelude.{◌≡◌, ℕ, ◌+◌, ◌*◌, ◌/◌, ◌^◌, ◌<◌, ◌≤◌, ◌⊎◌, ◌↔◌, None, Some};
ghost use Rattle.std.specs.Prelude.{IfOk, IfErr, IsOk, IsTrue, max, slice_get, true, false};
ghost use Rattle.std.specs.Int.{is_power_of_two};
ghost use Rattle.std.specs.Option.{ForSome};
ghost use Rattle.imago_drivers.specs.CallRelations.{IsEnsuredInParts};
ghost use Rattle.imago_drivers.specs.Place.{Lower, BytesAreWritable, HasStranger, values};
ghost use Rattle.imago_drivers.specs.LayerBelow.{lent};
ghost use Rattle.imago_drivers.specs.Reasons.{none, allowed};
ghost use Rattle.imago_drivers.specs.Parts.{offset_of, state_of};
ghost use Rattle.imago_drivers.specs.Pending.{IsOwn};
ghost use Rattle.imago_drivers.specs.Prepared.{IsPrepared};
ghost use Rattle.imago_drivers.specs.Operation.{Zero, DiscardToZero};
ghost use Rattle.imago_drivers.specs.Calls.{IsGrowth, IsPreparation, IsShrink, IsZeroCall};
ghost use Rattle.imago_drivers.specs.Commit.{IsCommit, IsCancel};
ghost use Rattle.imago_cow.specs.Table.{named_count, StandsInLowest};
ghost use Rattle.imago_cow.specs.TableView.{entries_of, held_of, count_of};
ghost use Rattle.imago_cow.specs.TableLaws.{named_once};
ghost use Rattle.imago_cow.specs.declared.table.GuestBlock.{GuestBlock};
ghost use Rattle.imago_cow.specs.Guest.{IsExact, IsMade, cow_place};
ghost use Rattle.imago_cow.specs.Cow.{cow_view, cow_pending, number_of_waiting, WaitsApart};
ghost use Rattle.imago_cow.specs.Copies.{over_reasons, IsRefusedBelow};
ghost use Rattle.imago_storage.specs.Error.{IsExtRefusal};
ghost use Rattle.imago_cow.specs.CowLaws.{cow_lawful, cow_causes};

use crate::block::BlockSize;
use crate::block_bytes::{read_stored, write_stored};
use crate::commit::enter_waiting;
use crate::copy::Part;
use crate::grow::grow;
use crate::guest::{first_whole, make_absent, make_zero};
use crate::guest_blocks::{Growth, shrink};
use crate::map::{entry_at, map_place};
use crate::named::all_shown;
use crate::prepare_block::prepare_part;
use crate::table::{GuestBlock, Table, kind_of};
use imago_drivers::drivers::{
    Format, FormatDriverInstance, PreallocateMode, PreparedDataMapping, ShallowMapping, Ticket,
};
use imago_drivers::layer::LowerLayer;
use imago_storage::error::Error;
use imago_storage::storage::Storage;
use std::alloc::Global;
use std::fmt::{self, Display, Formatter, Write};

/// What a prepared mapping of a [`Cow`] holds until it is committed.
pub type CowState = Ticket;

/// A prepared write whose bytes nothing shows yet.
#[derive(Clone, Copy)]
pub(crate) struct Waiting {
    pub(crate) start: u64,
    pub(crate) length: u64,
    /// Where it stands in the storage.
    pub(crate) offset: u64,
    /// The data block that it stands in.
    pub(crate) number: u64,
    pub(crate) state: Ticket,
}

/// A disk that keeps what is written to it apart from the layer below, in blocks of one length.
///
/// Each guest block leads to the layer below, is an explicit zero, or is in a data block of the
/// storage: data block `j` stands at `j` times the block's length. Which it is stands in a table in
/// memory, which is lost with the value. What the storage held before shows in unspecified bytes
/// alone.
///
/// A write into a guest block without data takes the lowest free data block, or a new one behind
/// all others, copies what stands round the written part, and shows it on commit.
///
/// A prepared mapping is known by its bytes of the storage and by its number: each that waits for
/// its commit has the next one. A disk has nothing else to know its mappings by. So one of another
/// disk is [`Error::ForeignMapping`] only where its bytes or its number differ; where both are
/// those of the mapping that waits here, it is taken for that one. Give each back to the disk that
/// it is of.
#[derive(Drop)]
pub struct Cow<S: Storage> {
    // What a mapping needs lies together, in front: see `FormatAccess`.
    size: u64,
    block: BlockSize,
    table: Table,
    waiting: Option<Waiting>,
    tickets: u64,
    /// How often a read of the layer below failed. It saturates.
    faults: u64,
    storage: S,
    ghost fits: { size < 2 ^ 64 },
    ghost positive: { 0 < block.length },
    ghost exact: { IsExact size block.length (entries_of table) },
    ghost addressed: { count_of table * block.length < 2 ^ 64 },
    ghost held: { held_of table ≡ number_of_waiting waiting },
    ghost waits_apart: { ForSome waiting (λ w. WaitsApart block.length size (entries_of table)
        (count_of table) w) },
}

impl<S: Storage> Cow<S> {
    ghost use Rattle.imago_cow.specs.CowImage.{storage_in, size_of, block_of, blocks_of};
    ghost use Rattle.imago_cow.specs.CowImage.{data_blocks_of, used_in, waiting_in, tickets_of};

    /// A disk of that size over a storage, in blocks of `block` bytes. Each place leads to the
    /// layer below, at the same offset, and nothing waits to be committed. `block` is a power of
    /// two, from a byte to 1 MiB.
    ///
    /// [`Error::Memory`] is no room for the table, which has 8 bytes for each block.
    pub fn create(alloc: Global, storage: S, size: u64, block: u64) -> Result<Self, Error>
        requires power { IsTrue (is_power_of_two block) }
        requires most { block ≤ 2 ^ 20 }
        ensures made { IfOk result
            (λ d. (storage_in d ≡ «storage») × (size_of d ≡ «size») × (block_of d ≡ «block»)
            × (waiting_in d ≡ None) ×
            (data_blocks_of d ≡ 0)) }
        ensures faults { IfOk result
            (λ d. (⟦<Cow<S> as FormatDriverInstance>⟧.view d).fault_count
            ≡ S.fault_count «storage») }
        ensures tickets { IfOk result (λ d. tickets_of d ≡ 0) }
        ensures leads_below { IfOk result
            (λ d. (bytes : _) (p : ℕ)
            → p < size
            → cow_place bytes (size_of d) (block_of d) (blocks_of d) p ≡ Lower p false) }
        ensures memory { IfErr result (λ e. e ≡ Error.Memory) }
    {
        let block_size = BlockSize::new(block);
        let guest_blocks = first_whole(block_size, size);
        let table = Table::new(alloc, guest_blocks as usize)?;
        Ok(Cow {
            storage,
            size,
            block: block_size,
            table,
            waiting: None,
            tickets: 0,
            faults: 0,
        })
    }

    /// A block's length in bytes.
    pub fn block_size(&self) -> u64
        ensures { result ≡ block_of self.now }
    {
        self.block.length
    }

    /// How many data blocks are used: those that guest blocks are in, and that of a prepared
    /// mapping until it is spent. All others are free.
    pub fn blocks_used(&self) -> u64
        ensures { result ≡ used_in self.now }
    {
        self.table.taken()
    }

    /// Whether places of the disk stand in each byte of a range of a storage.
    fn shows_all(&self, index: usize, offset: u64, count: u64) -> bool
        requires { 0 < count }
        ensures shown { result ≡ true
            → (index ≡ 0) × BytesAreWritable
            (cow_place (S.bytes self.now.storage) self.now.size self.now.block.length
            (entries_of self.now.table)) 0 offset
            count }
        ensures within { result ≡ true
            → offset + count ≤ count_of self.now.table * self.now.block.length }
        ensures stranger { result ≡ false
            → HasStranger
            (cow_place (S.bytes self.now.storage) self.now.size self.now.block.length
            (entries_of self.now.table)) index
            offset count }
    {
        all_shown(&self.table, self.block, self.size, index, offset, count)
    }

    /// Gives the storage back. The table is lost.
    pub fn into_inner(self) -> S
        ensures { result ≡ storage_in self }
    {
        let Cow {
            storage,
            size: _,
            block: _,
            table: _,
            waiting: _,
            tickets: _,
            faults: _,
        } = self;
        storage
    }
}

/// Whether the mapping is the write that waits.
fn is_waiting(waiting: Option<Waiting>, mapping: &PreparedDataMapping<Ticket>) -> bool
    ensures { (block size : ℕ) (bytes : _) → IsTrue result
        ↔ IsOwn (cow_pending block size bytes waiting) mapping.now }
{
    let Some(waiting) = waiting else {
        return false;
    };
    let Some(state) = mapping.state() else {
        return false;
    };
    mapping.storage() == 0
        && mapping.offset() == waiting.offset
        && mapping.length() == waiting.length
        && state.number() == waiting.state.number()
}

impl<S: Storage> Display for Cow<S> {
    fn fmt<W: Write>(&self, f: &mut Formatter<W>) -> fmt::Result {
        write!(f, "cow[{}]", self.storage)
    }
}

impl<S: Storage> FormatDriverInstance for Cow<S> {
    ghost use Rattle.imago_cow.specs.CowImage.{storage_in, size_of, block_of, blocks_of};
    ghost use Rattle.imago_cow.specs.CowImage.{data_blocks_of, waiting_in};
    ghost use Rattle.imago_storage.specs.Calls.{IsRangeWrite};
    ghost use Rattle.imago_cow.specs.CowCalls.{KeepsDisk, IsStored, IsCowFilled, IsStorageRead};
    ghost use Rattle.imago_cow.specs.CowCalls.{HasNoSpecial, IsClearing};
    ghost use Rattle.imago_cow.specs.CowCalls.{IsCowPreparing, IsCowCommit, IsCowCancel};
    ghost use Rattle.imago_cow.specs.CowCalls.{IsCowGrowth, IsCowCut};

    type Storage = S;

    type State = Ticket;

    ghost view = { λ d. cow_view (S.features d.storage) (S.fault_count d.storage + d.faults)
        (S.bytes d.storage) d.size d.block.length (entries_of d.table) (count_of d.table)
        d.waiting };

    ghost recognizes = { λ _. false };

    ghost probe_reasons = { λ _. none };

    ghost calls = { record {
      mapped = λ o n d r. IsOk r;
      read = λ index o n d r. IsStorageRead (S.features (storage_in d)) (S.bytes (storage_in d)) o n
          r;
      read_special = λ o n d r. HasNoSpecial n r;
      put = λ index bytes o a b r. IsStored (λ at source old new result. IsRangeWrite S.features
          S.bytes S.fault_count S.work S.maintenance at source old new result) bytes o a b r;
      zeroed = λ o n a b r. IsClearing GuestBlock.Zero o n a b r;
      discarded_to_zero = λ o n a b r. IsClearing GuestBlock.Zero o n a b r;
      discarded_to_any = λ o n a b r. IsClearing GuestBlock.Zero o n a b r;
      discarded_to_backing = λ o n a b r. IsClearing GuestBlock.Absent o n a b r;
      prepared = λ below o n overwrite a b r. IsCowPreparing S.features S.bytes S.fault_count S.work
          S.maintenance below o n overwrite a b r;
      filled = λ m bytes at a b r. IsCowFilled (λ o source old new result. IsRangeWrite S.features
          S.bytes S.fault_count S.work S.maintenance o source old new result) m bytes at a b r;
      committed = λ m a b r. IsCowCommit m a b;
      cancelled = λ m a b. IsCowCancel m a b;
      ensured = λ below o n overwrite a b r. IsEnsuredInParts
          (λ l p c w x y z. IsCowPreparing S.features S.bytes S.fault_count S.work S.maintenance l p
          c w x y z) (λ m x y z. IsCowCommit m x y) below o n overwrite a b r;
      by_parts = λ below o n overwrite a b r h. h;
      grown = λ n mode below a b r. IsCowGrowth S.features S.bytes S.fault_count S.work
          S.maintenance below n mode a b r;
      cut = λ n a b r. IsCowCut n a b r;
      flushed = λ a b r. S.maintenance.flushed (storage_in a) (storage_in b) r × KeepsDisk a b;
      synced = λ a b r. S.maintenance.synced (storage_in a) (storage_in b) r × KeepsDisk a b;
      invalidated = λ a b r. S.maintenance.invalidated (storage_in a) (storage_in b) r
          × KeepsDisk a b;
    } };

    ghost lawful = { λ d. cow_lawful (S.features d.storage) (S.fault_count d.storage + d.faults)
        (S.bytes d.storage) d.size d.block.length (entries_of d.table) (count_of d.table) d.waiting
        d.positive d.exact.covers (named_once d.table) (S.lawful d.storage) };

    ghost causes_lawful = { λ d. cow_causes (S.features d.storage)
        (S.fault_count d.storage + d.faults) (S.bytes d.storage) d.size d.block.length
        (entries_of d.table) (count_of d.table) d.waiting };

    fn format(&self) -> Format {
        Format::Cow
    }

    fn size(&self) -> u64 {
        self.size
    }

    fn zero_granularity(&self) -> Option<u64> {
        Some(self.block.length)
    }

    fn writable(&self) -> bool {
        true
    }

    fn takes_backing(&self) -> bool {
        true
    }

    fn has_prepared(&self) -> bool {
        self.waiting.is_some()
    }

    fn probe(_alloc: Global, _storage: &S) -> Result<bool, Error> {
        Ok(false)
    }

    fn collect_storage_dependencies(&self, alloc: Global) -> Result<Vec<&S>, Error> {
        let mut storages = Vec::new(alloc);
        storages.push(&self.storage)?;
        Ok(storages)
    }

    fn storage_count(&self) -> usize {
        1
    }

    fn storage(&self, index: usize) -> Option<&S> {
        if index == 0 {
            Some(&self.storage)
        } else {
            None
        }
    }

    #[inline(always)]
    fn get_mapping(&self, offset: u64, max_length: u64) -> Result<(ShallowMapping, u64), Error> {
        Ok(map_place(&self.table, self.block, self.size, offset, max_length))
    }

    fn read_mapped(
        &self,
        alloc: Global,
        _storage: usize,
        buf: &mut [u8],
        offset: u64,
    ) -> Result<(), Error> {
        read_stored(&self.storage, alloc, buf, offset)
    }

    fn readv_special(&self, _alloc: Global, buf: &mut [u8], _offset: u64) -> Result<(), Error> {
        if buf.is_empty() {
            return Ok(());
        }
        Err(Error::Unsupported)
    }

    fn write_mapped(
        &mut self,
        alloc: Global,
        _storage: usize,
        source: &[u8],
        offset: u64,
    ) -> Result<(), Error> {
        write_stored(&mut self.storage, alloc, source, offset)
    }

    fn ensure_zero_mapping(
        &mut self,
        _alloc: Global,
        offset: u64,
        count: u64,
    ) -> Result<(u64, u64), Error>
        requires spent { (⟦<Cow<S> as FormatDriverInstance>⟧.view self.old).pending ≡ None }
        requires inside { offset + count ≤ (⟦<Cow<S> as FormatDriverInstance>⟧.view self.old).size }
        ensures call { IsZeroCall Zero offset count
            (⟦<Cow<S> as FormatDriverInstance>⟧.view self.old)
            (⟦<Cow<S> as FormatDriverInstance>⟧.view self.new) result }
        ensures performed { ⟦<Cow<S> as FormatDriverInstance>⟧.calls.zeroed offset count self.old
            self.new result }
        ensures made { IsMade offset count (size_of self.old) (block_of self.old) GuestBlock.Zero
            (blocks_of self.old) (blocks_of self.new) result }
        ensures storage { storage_in self.new ≡ storage_in self.old }
    {
        make_zero(&mut self.table, self.block, self.size, offset, count)
    }

    fn discard_to_zero(
        &mut self,
        _alloc: Global,
        offset: u64,
        count: u64,
    ) -> Result<(u64, u64), Error>
        requires spent { (⟦<Cow<S> as FormatDriverInstance>⟧.view self.old).pending ≡ None }
        requires inside { offset + count ≤ (⟦<Cow<S> as FormatDriverInstance>⟧.view self.old).size }
        ensures call { IsZeroCall DiscardToZero offset count
            (⟦<Cow<S> as FormatDriverInstance>⟧.view self.old)
            (⟦<Cow<S> as FormatDriverInstance>⟧.view self.new) result }
        ensures performed { ⟦<Cow<S> as FormatDriverInstance>⟧.calls.discarded_to_zero offset count
            self.old self.new result }
        ensures made { IsMade offset count (size_of self.old) (block_of self.old) GuestBlock.Zero
            (blocks_of self.old) (blocks_of self.new) result }
        ensures storage { storage_in self.new ≡ storage_in self.old }
    {
        make_zero(&mut self.table, self.block, self.size, offset, count)
    }

    fn discard_to_any(
        &mut self,
        _alloc: Global,
        offset: u64,
        count: u64,
    ) -> Result<(u64, u64), Error> {
        make_zero(&mut self.table, self.block, self.size, offset, count)
    }

    fn discard_to_backing(
        &mut self,
        _alloc: Global,
        offset: u64,
        count: u64,
    ) -> Result<(u64, u64), Error> {
        make_absent(&mut self.table, self.block, self.size, offset, count)
    }

    fn prepare_data_mapping<B: LowerLayer>(
        &mut self,
        alloc: Global,
        below: Option<&B>,
        offset: u64,
        count: u64,
        overwrite: bool,
    ) -> Result<PreparedDataMapping<Ticket>, Error>
        requires spent { (⟦<Cow<S> as FormatDriverInstance>⟧.view self.old).pending ≡ None }
        requires inside { offset + count ≤ (⟦<Cow<S> as FormatDriverInstance>⟧.view self.old).size }
        ensures prepared { IfOk result
            (λ m. IsPrepared offset count overwrite
            (lent B.as_layer_below below.entry).tells_bytes
            (values (lent B.as_layer_below below.entry).at
            (⟦<Cow<S> as FormatDriverInstance>⟧.view self.old).place)
            (⟦<Cow<S> as FormatDriverInstance>⟧.view self.old)
            (⟦<Cow<S> as FormatDriverInstance>⟧.view self.new) m) }
        ensures call { IsPreparation (lent B.as_layer_below below.entry) offset count
            (⟦<Cow<S> as FormatDriverInstance>⟧.view self.old)
            (⟦<Cow<S> as FormatDriverInstance>⟧.view self.new) result }
        ensures entries { blocks_of self.new ≡ blocks_of self.old }
        ensures added { data_blocks_of self.new ≤ max (data_blocks_of self.old)
            (named_count (blocks_of self.old) + 1) }
        ensures lowest { IfOk result
            (λ m. (state_of m ≡ None → ⊥)
            → StandsInLowest (blocks_of self.old) (data_blocks_of self.old) (block_of self.old)
            offset (offset_of m)) }
        ensures in_data { (j : ℕ)
            → slice_get (blocks_of self.old) (offset / block_of self.old) ≡ Some (GuestBlock.Data j)
            → IsOk result × (storage_in self.new ≡ storage_in self.old)
            × (data_blocks_of self.new ≡ data_blocks_of self.old) ×
            (waiting_in self.new ≡ waiting_in self.old) }
        ensures performed { ⟦<Cow<S> as FormatDriverInstance>⟧.calls.prepared
            (lent B.as_layer_below below.entry) offset count overwrite self.old self.new result }
        ensures by_name { IfErr result (λ e. IsExtRefusal e
            ⊎ IsRefusedBelow B.reads below.entry e) }
        ensures over { overwrite ≡ true
            → IfErr result
            (allowed
            (over_reasons (S.features (storage_in self.old)) (lent B.as_layer_below below.entry)
            (block_of self.old)
            (size_of self.old) (blocks_of self.old) (data_blocks_of self.old) offset count)) }
    {
        if count == 0 {
            return Ok(PreparedDataMapping::existing(0, 0, 0));
        }
        let rest = self.block.rest(offset);
        let run = count.min(self.block.length - rest);
        let entry = entry_at(&self.table, self.block, offset);
        if let GuestBlock::Data(number) = entry {
            return Ok(PreparedDataMapping::existing(0, number * self.block.length + rest, run));
        }
        let ticket = self.tickets.wrapping_add(1);
        let state = Ticket::new(ticket);
        let waiting = prepare_part(
            &mut self.storage,
            &mut self.faults,
            &mut self.table,
            alloc,
            below,
            Part {
                block: self.block,
                size: self.size,
                offset,
                run,
                kind: kind_of(entry),
                overwrite,
                state,
            },
        )?;
        self.tickets = ticket;
        self.waiting = Some(waiting);
        Ok(PreparedDataMapping::to_commit(0, waiting.offset, waiting.length, waiting.state))
    }

    fn write_prepared(
        &mut self,
        alloc: Global,
        mapping: &PreparedDataMapping<Ticket>,
        source: &[u8],
        at: u64,
    ) -> Result<(), Error> {
        let (index, start, count) = (mapping.storage(), mapping.offset(), mapping.length());
        if !mapping.is_nonblocking() {
            if !is_waiting(self.waiting, mapping) {
                return Err(Error::ForeignMapping);
            }
            let Some(waiting) = self.waiting else {
                return Err(Error::ForeignMapping);
            };
            return write_stored(&mut self.storage, alloc, source, waiting.offset + at);
        }
        if count == 0 {
            return Ok(());
        }
        if !self.shows_all(index, start, count) {
            return Err(Error::ForeignMapping);
        }
        write_stored(&mut self.storage, alloc, source, start + at)
    }

    fn commit_data_mapping(&mut self, mapping: PreparedDataMapping<Ticket>) -> Result<(), Error>
        ensures call { IsCommit ⟦<Cow<S> as FormatDriverInstance>⟧.view self.old self.new mapping
            result }
        ensures performed { ⟦<Cow<S> as FormatDriverInstance>⟧.calls.committed mapping self.old
            self.new result }
    {
        let own = is_waiting(self.waiting, &mapping);
        let Some(_) = mapping.into_state() else {
            return Ok(());
        };
        let Some(waiting) = self.waiting else {
            return Err(Error::ForeignMapping);
        };
        if !own {
            return Err(Error::ForeignMapping);
        }
        enter_waiting(&mut self.table, self.block, self.size, waiting);
        self.waiting = None;
        Ok(())
    }

    fn cancel_data_mapping(&mut self, mapping: PreparedDataMapping<Ticket>)
        ensures call { IsCancel ⟦<Cow<S> as FormatDriverInstance>⟧.view self.old self.new mapping }
        ensures performed { ⟦<Cow<S> as FormatDriverInstance>⟧.calls.cancelled mapping self.old
            self.new }
    {
        let own = is_waiting(self.waiting, &mapping);
        let _ = mapping.into_state();
        if own {
            self.waiting = None;
            self.table.release();
        }
    }

    fn resize_grow<B: LowerLayer>(
        &mut self,
        alloc: Global,
        below: Option<&B>,
        new_size: u64,
        mode: PreallocateMode,
    ) -> Result<(), Error>
        requires spent { (⟦<Cow<S> as FormatDriverInstance>⟧.view self.old).pending ≡ None }
        ensures call { IsGrowth mode (lent B.as_layer_below below.entry) new_size
            (⟦<Cow<S> as FormatDriverInstance>⟧.view self.old)
            (⟦<Cow<S> as FormatDriverInstance>⟧.view self.new) result }
        ensures performed { ⟦<Cow<S> as FormatDriverInstance>⟧.calls.grown new_size mode
            (lent B.as_layer_below below.entry) self.old self.new result }
        ensures by_name { IfErr result (λ e. IsExtRefusal e
            ⊎ IsRefusedBelow B.reads below.entry e) }
    {
        if new_size <= self.size {
            return Ok(());
        }
        let growth = Growth {
            block: self.block,
            size: self.size,
            new_size,
            mode,
        };
        grow(
            &mut self.storage,
            &mut self.faults,
            &mut self.table,
            alloc,
            below,
            growth,
        )?;
        self.size = new_size;
        Ok(())
    }

    fn resize_shrink(&mut self, new_size: u64) -> Result<(), Error>
        requires spent { (⟦<Cow<S> as FormatDriverInstance>⟧.view self.old).pending ≡ None }
        ensures call { IsShrink new_size (⟦<Cow<S> as FormatDriverInstance>⟧.view self.old)
            (⟦<Cow<S> as FormatDriverInstance>⟧.view self.new) result }
        ensures performed { ⟦<Cow<S> as FormatDriverInstance>⟧.calls.cut new_size self.old self.new
            result }
        ensures done { IsOk result }
        ensures storage { storage_in self.new ≡ storage_in self.old }
    {
        if new_size >= self.size {
            return Ok(());
        }
        shrink(&mut self.table, self.block, self.size, new_size);
        self.size = new_size;
        Ok(())
    }

    fn flush(&mut self) -> Result<(), Error> {
        self.storage.flush()
    }

    fn sync(&mut self) -> Result<(), Error> {
        self.storage.sync()
    }

    fn invalidate_cache(&mut self) -> Result<(), Error> {
        self.storage.invalidate_cache()
    }
}
