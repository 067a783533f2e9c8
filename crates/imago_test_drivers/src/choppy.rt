// SPDX-License-Identifier: MIT
//! A driver that does little at once: a raw image whose calls on ranges do one block each.
ghost use Rattle.std.specs.Prelude.{◌≡◌, ◌+◌, ◌^◌, ◌<◌, ◌≤◌, max, None, Some};
ghost use Rattle.imago_drivers.specs.CallRelations.{any_calls};
ghost use Rattle.imago_drivers.specs.Commit.{IsCommit, IsCancel};
ghost use Rattle.imago_drivers.specs.RawImage.{size_of, storage_in};
ghost use Rattle.imago_test_drivers.specs.Choppy.{told, choppy_view, of_part};
ghost use Rattle.imago_test_drivers.specs.ChoppyImage.{raw_of, granularity_of};
ghost use Rattle.imago_test_drivers.specs.ChoppyLaws.{choppy_lawful, choppy_causes};

use imago_drivers::drivers::{
    Format, FormatDriverInstance, PreallocateMode, PreparedDataMapping, ShallowMapping, Ticket,
};
use imago_drivers::layer::LowerLayer;
use imago_drivers::raw::Raw;
use imago_storage::error::Error;
use imago_storage::storage::Storage;
use std::alloc::Global;
use std::fmt::{self, Display, Formatter, Write};

/// A raw image that is mapped, prepared, zeroed and discarded block by block. Blocks begin at
/// multiples of their length.
///
/// A mapping and a prepared mapping hold at most as many bytes as a block. A zero call or discard
/// does the first block that lies in the range, as far as the raw image does it, and nothing where
/// there is none.
#[derive(Drop)]
pub struct Choppy<S: Storage> {
    raw: Raw<S>,
    cut: u64,
    is_granular: bool,
}

/// The first block of a range, by its offset and length, or an empty part where there is none.
/// `ends` says that a block which the range's end cuts short is one too.
fn first_block(cut: u64, offset: u64, count: u64, ends: bool) -> (u64, u64)
    requires some { 0 < cut }
    requires fits { offset + count < 2 ^ 64 }
    ensures { (offset ≤ result.0) × (result.0 + result.1 ≤ offset + count) }
{
    let skipped = (cut - offset % cut) % cut;
    if count <= skipped {
        return (offset, 0);
    }
    let left = count - skipped;
    if left < cut && !ends {
        return (offset, 0);
    }
    (offset + skipped, left.min(cut))
}

impl<S: Storage> Choppy<S> {
    /// A raw image in blocks of that many bytes, of 1 for 0. A block that the disk's end cuts short
    /// is none.
    pub fn new(raw: Raw<S>, cut: u64) -> Self
        ensures raw { raw_of result ≡ «raw» }
        ensures granularity { granularity_of result ≡ None }
    {
        Choppy {
            raw,
            cut,
            is_granular: false,
        }
    }

    /// A raw image in blocks of that many bytes, of 1 for 0, which it tells as its granularity. A
    /// block that the disk's end cuts short is one too.
    pub fn granular(raw: Raw<S>, granularity: u64) -> Self
        ensures raw { raw_of result ≡ «raw» }
        ensures granularity { granularity_of result ≡ Some (max granularity 1) }
    {
        Choppy {
            raw,
            cut: granularity,
            is_granular: true,
        }
    }

    /// The first block of a range of the disk, by its offset and length, or an empty part where
    /// there is none.
    fn first_block(&self, offset: u64, count: u64) -> (u64, u64)
        requires { offset + count ≤ size_of self.now.raw }
        ensures { (offset ≤ result.0) × (result.0 + result.1 ≤ offset + count) }
    {
        let size = self.raw.size();
        let ends = self.is_granular && offset + count == size;
        first_block(self.cut.max(1), offset, count, ends)
    }
}

impl<S: Storage> Display for Choppy<S> {
    fn fmt<W: Write>(&self, f: &mut Formatter<W>) -> fmt::Result {
        write!(f, "choppy[{}]", self.raw)
    }
}

impl<S: Storage> FormatDriverInstance for Choppy<S> {
    type Storage = S;

    type State = Ticket;

    ghost view = { λ d. choppy_view S.features S.fault_count S.bytes (told d.is_granular d.cut)
        d.raw };

    ghost recognizes = { ⟦<Raw<S> as FormatDriverInstance>⟧.recognizes };

    ghost probe_reasons = { ⟦<Raw<S> as FormatDriverInstance>⟧.probe_reasons };

    ghost calls = { record any_calls {
      read_special = λ o n d r. ⟦<Raw<S> as FormatDriverInstance>⟧.calls.read_special o n d.raw r;
      put = λ index bytes o a b r. ⟦<Raw<S> as FormatDriverInstance>⟧.calls.put index bytes o a.raw
          b.raw r × (b.cut ≡ a.cut) × (b.is_granular ≡ a.is_granular);
      filled = λ m bytes at a b r. ⟦<Raw<S> as FormatDriverInstance>⟧.calls.filled m bytes at a.raw
          b.raw r × (b.cut ≡ a.cut) × (b.is_granular ≡ a.is_granular);
      committed = λ m a b r. ⟦<Raw<S> as FormatDriverInstance>⟧.calls.committed m a.raw b.raw r
          × (b.cut ≡ a.cut) × (b.is_granular ≡ a.is_granular);
      by_parts = λ below o n overwrite a b r h. tt;
      cancelled = λ m a b. ⟦<Raw<S> as FormatDriverInstance>⟧.calls.cancelled m a.raw b.raw
          × (b.cut ≡ a.cut) × (b.is_granular ≡ a.is_granular);
      grown = λ n mode below a b r. ⟦<Raw<S> as FormatDriverInstance>⟧.calls.grown n mode below
          a.raw b.raw r × (b.cut ≡ a.cut) × (b.is_granular ≡ a.is_granular);
      cut = λ n a b r. ⟦<Raw<S> as FormatDriverInstance>⟧.calls.cut n a.raw b.raw r
          × (b.cut ≡ a.cut) × (b.is_granular ≡ a.is_granular);
      flushed = λ a b r. ⟦<Raw<S> as FormatDriverInstance>⟧.calls.flushed a.raw b.raw r
          × (b.cut ≡ a.cut) × (b.is_granular ≡ a.is_granular);
      synced = λ a b r. ⟦<Raw<S> as FormatDriverInstance>⟧.calls.synced a.raw b.raw r
          × (b.cut ≡ a.cut) × (b.is_granular ≡ a.is_granular);
      invalidated = λ a b r. ⟦<Raw<S> as FormatDriverInstance>⟧.calls.invalidated a.raw b.raw r
          × (b.cut ≡ a.cut) × (b.is_granular ≡ a.is_granular);
      discarded_to_any = λ o n a b r. of_part
          ⟦<Raw<S> as FormatDriverInstance>⟧.calls.discarded_to_any o n a.raw b.raw r
          × (b.cut ≡ a.cut)
          × (b.is_granular ≡ a.is_granular);
      discarded_to_backing = λ o n a b r. of_part
          ⟦<Raw<S> as FormatDriverInstance>⟧.calls.discarded_to_backing o n a.raw b.raw r
          × (b.cut ≡ a.cut)
          × (b.is_granular ≡ a.is_granular);
    } };

    ghost lawful = { λ d. choppy_lawful S.features S.fault_count S.bytes d.is_granular d.cut d.raw
        (S.lawful (storage_in d.raw)) };

    ghost causes_lawful = { λ d. choppy_causes S.features S.fault_count S.bytes d.is_granular d.cut
        d.raw };

    fn format(&self) -> Format {
        self.raw.format()
    }

    fn size(&self) -> u64 {
        self.raw.size()
    }

    fn zero_granularity(&self) -> Option<u64> {
        if self.is_granular {
            Some(self.cut.max(1))
        } else {
            None
        }
    }

    fn writable(&self) -> bool {
        self.raw.writable()
    }

    fn takes_backing(&self) -> bool {
        self.raw.takes_backing()
    }

    fn has_prepared(&self) -> bool {
        self.raw.has_prepared()
    }

    fn probe(alloc: Global, storage: &S) -> Result<bool, Error> {
        Raw::probe(alloc, storage)
    }

    fn collect_storage_dependencies(&self, alloc: Global) -> Result<Vec<&S>, Error> {
        self.raw.collect_storage_dependencies(alloc)
    }

    fn storage_count(&self) -> usize {
        self.raw.storage_count()
    }

    fn storage(&self, index: usize) -> Option<&S> {
        self.raw.storage(index)
    }

    fn get_mapping(&self, offset: u64, max_length: u64) -> Result<(ShallowMapping, u64), Error> {
        self.raw
            .get_mapping(offset, max_length.min(self.cut.max(1)))
    }

    fn read_mapped(
        &self,
        alloc: Global,
        storage: usize,
        buf: &mut [u8],
        offset: u64,
    ) -> Result<(), Error> {
        self.raw.read_mapped(alloc, storage, buf, offset)
    }

    fn readv_special(&self, alloc: Global, buf: &mut [u8], offset: u64) -> Result<(), Error> {
        self.raw.readv_special(alloc, buf, offset)
    }

    fn write_mapped(
        &mut self,
        alloc: Global,
        storage: usize,
        source: &[u8],
        offset: u64,
    ) -> Result<(), Error> {
        self.raw.write_mapped(alloc, storage, source, offset)
    }

    fn ensure_zero_mapping(
        &mut self,
        alloc: Global,
        offset: u64,
        count: u64,
    ) -> Result<(u64, u64), Error> {
        let (start, length) = self.first_block(offset, count);
        self.raw.ensure_zero_mapping(alloc, start, length)
    }

    fn discard_to_zero(
        &mut self,
        alloc: Global,
        offset: u64,
        count: u64,
    ) -> Result<(u64, u64), Error> {
        let (start, length) = self.first_block(offset, count);
        self.raw.discard_to_zero(alloc, start, length)
    }

    fn discard_to_any(
        &mut self,
        alloc: Global,
        offset: u64,
        count: u64,
    ) -> Result<(u64, u64), Error> {
        let (start, length) = self.first_block(offset, count);
        self.raw.discard_to_any(alloc, start, length)
    }

    fn discard_to_backing(
        &mut self,
        alloc: Global,
        offset: u64,
        count: u64,
    ) -> Result<(u64, u64), Error> {
        let (start, length) = self.first_block(offset, count);
        self.raw.discard_to_backing(alloc, start, length)
    }

    fn prepare_data_mapping<B: LowerLayer>(
        &mut self,
        alloc: Global,
        below: Option<&B>,
        offset: u64,
        count: u64,
        overwrite: bool,
    ) -> Result<PreparedDataMapping<Ticket>, Error> {
        let most = count.min(self.cut.max(1));
        self.raw
            .prepare_data_mapping(alloc, below, offset, most, overwrite)
    }

    fn write_prepared(
        &mut self,
        alloc: Global,
        mapping: &PreparedDataMapping<Ticket>,
        source: &[u8],
        at: u64,
    ) -> Result<(), Error> {
        self.raw.write_prepared(alloc, mapping, source, at)
    }

    fn commit_data_mapping(&mut self, mapping: PreparedDataMapping<Ticket>) -> Result<(), Error>
        ensures call { IsCommit ⟦<Choppy<S> as FormatDriverInstance>⟧.view self.old self.new mapping
            result }
        ensures performed { ⟦<Choppy<S> as FormatDriverInstance>⟧.calls.committed mapping self.old
            self.new result }
    {
        self.raw.commit_data_mapping(mapping)
    }

    fn cancel_data_mapping(&mut self, mapping: PreparedDataMapping<Ticket>)
        ensures call { IsCancel ⟦<Choppy<S> as FormatDriverInstance>⟧.view self.old self.new
            mapping }
        ensures performed { ⟦<Choppy<S> as FormatDriverInstance>⟧.calls.cancelled mapping self.old
            self.new }
    {
        self.raw.cancel_data_mapping(mapping);
    }

    fn resize_grow<B: LowerLayer>(
        &mut self,
        alloc: Global,
        below: Option<&B>,
        new_size: u64,
        mode: PreallocateMode,
    ) -> Result<(), Error> {
        self.raw.resize_grow(alloc, below, new_size, mode)
    }

    fn resize_shrink(&mut self, new_size: u64) -> Result<(), Error> {
        self.raw.resize_shrink(new_size)
    }

    fn flush(&mut self) -> Result<(), Error> {
        self.raw.flush()
    }

    fn sync(&mut self) -> Result<(), Error> {
        self.raw.sync()
    }

    fn invalidate_cache(&mut self) -> Result<(), Error> {
        self.raw.invalidate_cache()
    }
}
