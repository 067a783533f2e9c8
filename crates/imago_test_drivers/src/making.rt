// SPDX-License-Identifier: MIT
//! A read-only disk of special bytes that are made up in blocks, and one that leaves all of it to
//! the layer below; they count the blocks that they make up.
ghost use Rattle.std.specs.Prelude.{◌≡◌, false, IsErrOf, Err};
ghost use Rattle.imago_storage.specs.declared.error.Error.TheVariants.{ForeignMapping};
ghost use Rattle.imago_storage.specs.Maintenance.{IsNothing};
ghost use Rattle.imago_test_drivers.specs.Making.{making_view, making_lawful, making_causes};
ghost use Rattle.imago_drivers.specs.Commit.{IsCommit, IsCancel};
ghost use Rattle.imago_drivers.specs.CallRelations.{any_calls, IsNotOffered, IsIdleCommit};
ghost use Rattle.imago_drivers.specs.Reasons.{none};

use crate::pattern::Kind;
use imago_drivers::drivers::{
    Format, FormatDriverInstance, PreallocateMode, PreparedDataMapping, ShallowMapping, Ticket,
};
use imago_drivers::layer::LowerLayer;
use imago_storage::error::Error;
use imago_storage::null::Null;
use std::alloc::Global;
use std::cell::Cell;
use std::fmt::{self, Display, Formatter, Write};

/// A read-only disk of one kind of place, which is mapped in pieces. It doesn't tell its bytes: the
/// special byte at each offset is the offset's rest by 251. The calls that ask for a writable
/// driver, or for one of its storages, can't be made on it; they refuse all the same, and change
/// nothing.
#[derive(Drop)]
pub struct Making {
    kind: Kind,
    size: u64,
    /// A mapping ends with the piece of this length that it begins in.
    piece: u64,
    /// How many bytes a block of special bytes has.
    block: u64,
    /// Which block can't be made up.
    faulty: Option<u64>,
    made: Cell<u64>,
}

impl Making {
    /// A disk of that many special bytes, in blocks of that many, of 1 for 0. A read that reaches
    /// the faulty block is [`Error::Unsupported`].
    pub fn blocks(size: u64, block: u64, faulty: Option<u64>) -> Self {
        Making {
            kind: Kind::Special {
                byte: 0,
                readable: false,
            },
            size,
            piece: u64::MAX,
            block,
            faulty,
            made: Cell::new(0),
        }
    }

    /// A disk of what the layer below has at the same offsets, in pieces of that many bytes, of 1
    /// for 0.
    pub fn above(size: u64, piece: u64) -> Self {
        Making {
            kind: Kind::Below { writable: false },
            size,
            piece,
            block: 1,
            faulty: None,
            made: Cell::new(0),
        }
    }

    /// How many blocks were made up so far, those that were refused too.
    pub fn made(&self) -> u64 {
        self.made.get()
    }

    /// Counts the blocks of some bytes from an offset on, and answers whether none is faulty.
    fn count(&self, offset: u64, more: u64) -> bool {
        let block = self.block.max(1);
        let first = offset / block;
        let last = offset.saturating_add(more) / block;
        let blocks = last.saturating_sub(first).saturating_add(1);
        self.made.set(self.made.get().saturating_add(blocks));
        match self.faulty {
            Some(faulty) => faulty < first || last < faulty,
            None => true,
        }
    }
}

/// Fills the buffer with the special bytes from an offset on.
fn fill(buf: &mut [u8], offset: u64) {
    for i in 0..buf.len() {
        buf[i] = (offset.wrapping_add(i as u64) % 251) as u8;
    }
}

impl Display for Making {
    fn fmt<W: Write>(&self, f: &mut Formatter<W>) -> fmt::Result {
        write!(f, "making[{}B]", self.size)
    }
}

impl FormatDriverInstance for Making {
    type Storage = Null;

    type State = Ticket;

    ghost view = { λ d. making_view d.kind d.size };

    ghost recognizes = { λ _. false };

    ghost probe_reasons = { λ _. none };

    ghost calls = { record any_calls {
      zeroed = λ o n. IsNotOffered;
      discarded_to_zero = λ o n. IsNotOffered;
      discarded_to_any = λ o n. IsNotOffered;
      discarded_to_backing = λ o n. IsNotOffered;
      filled = λ m bytes at a b r. (b ≡ a) × (r ≡ Err ForeignMapping);
      committed = IsIdleCommit;
      by_parts = λ below o n overwrite a b r h. tt;
      cancelled = λ m a b. b ≡ a;
      cut = λ n. IsNotOffered;
      flushed = IsNothing;
      synced = IsNothing;
      invalidated = IsNothing;
    } };

    ghost lawful = { λ d. making_lawful d.kind d.size };

    ghost causes_lawful = { λ d. making_causes d.kind d.size };

    fn format(&self) -> Format {
        Format::Raw
    }

    fn size(&self) -> u64 {
        self.size
    }

    fn zero_granularity(&self) -> Option<u64> {
        None
    }

    fn writable(&self) -> bool {
        false
    }

    fn takes_backing(&self) -> bool {
        match self.kind {
            Kind::Zeroes => false,
            Kind::Special {
                byte: _,
                readable: _,
            } => false,
            Kind::Below { writable: _ } => true,
        }
    }

    fn has_prepared(&self) -> bool {
        false
    }

    fn probe(_alloc: Global, _storage: &Null) -> Result<bool, Error> {
        Ok(false)
    }

    fn collect_storage_dependencies(&self, alloc: Global) -> Result<Vec<&Null>, Error> {
        Ok(Vec::new(alloc))
    }

    fn storage_count(&self) -> usize {
        0
    }

    fn storage(&self, _index: usize) -> Option<&Null> {
        None
    }

    fn get_mapping(&self, offset: u64, _max_length: u64) -> Result<(ShallowMapping, u64), Error> {
        if offset >= self.size {
            return Ok((ShallowMapping::Eof, 0));
        }
        let piece = self.piece.max(1);
        let rest = (self.size - offset).min(piece - offset % piece);
        match self.kind {
            Kind::Zeroes => Ok((ShallowMapping::Zero { explicit: true }, rest)),
            Kind::Special {
                byte: _,
                readable: _,
            } => Ok((ShallowMapping::Special { offset }, rest)),
            Kind::Below { writable } => Ok((ShallowMapping::Indirect { offset, writable }, rest)),
        }
    }

    fn read_mapped(
        &self,
        _alloc: Global,
        _storage: usize,
        _buf: &mut [u8],
        _offset: u64,
    ) -> Result<(), Error>
        ensures { IsErrOf result Error.Unsupported }
    {
        Err(Error::Unsupported)
    }

    fn readv_special(&self, _alloc: Global, buf: &mut [u8], offset: u64) -> Result<(), Error> {
        if buf.is_empty() {
            return Ok(());
        }
        let whole = self.count(offset, buf.len() as u64 - 1);
        match self.kind {
            Kind::Special {
                byte: _,
                readable: false,
            } if !whole => Err(Error::Unsupported),
            _ => {
                fill(buf, offset);
                Ok(())
            }
        }
    }

    fn special_block(&self) -> u64 {
        self.block.max(1)
    }

    fn write_mapped(
        &mut self,
        _alloc: Global,
        _storage: usize,
        _source: &[u8],
        _offset: u64,
    ) -> Result<(), Error>
        ensures refused { IsErrOf result Error.Unsupported }
        ensures unchanged { self.new ≡ self.old }
    {
        Err(Error::Unsupported)
    }

    fn ensure_zero_mapping(
        &mut self,
        _alloc: Global,
        _offset: u64,
        _count: u64,
    ) -> Result<(u64, u64), Error>
        ensures refused { IsErrOf result Error.Unsupported }
        ensures unchanged { self.new ≡ self.old }
    {
        Err(Error::Unsupported)
    }

    fn discard_to_zero(
        &mut self,
        _alloc: Global,
        _offset: u64,
        _count: u64,
    ) -> Result<(u64, u64), Error>
        ensures refused { IsErrOf result Error.Unsupported }
        ensures unchanged { self.new ≡ self.old }
    {
        Err(Error::Unsupported)
    }

    fn discard_to_any(
        &mut self,
        _alloc: Global,
        _offset: u64,
        _count: u64,
    ) -> Result<(u64, u64), Error>
        ensures refused { IsErrOf result Error.Unsupported }
        ensures unchanged { self.new ≡ self.old }
    {
        Err(Error::Unsupported)
    }

    fn discard_to_backing(
        &mut self,
        _alloc: Global,
        _offset: u64,
        _count: u64,
    ) -> Result<(u64, u64), Error>
        ensures refused { IsErrOf result Error.Unsupported }
        ensures unchanged { self.new ≡ self.old }
    {
        Err(Error::Unsupported)
    }

    fn prepare_data_mapping<B: LowerLayer>(
        &mut self,
        _alloc: Global,
        _below: Option<&B>,
        _offset: u64,
        _count: u64,
        _overwrite: bool,
    ) -> Result<PreparedDataMapping<Ticket>, Error>
        ensures refused { IsErrOf result Error.Unsupported }
        ensures unchanged { self.new ≡ self.old }
    {
        Err(Error::Unsupported)
    }

    fn write_prepared(
        &mut self,
        _alloc: Global,
        _mapping: &PreparedDataMapping<Ticket>,
        _source: &[u8],
        _at: u64,
    ) -> Result<(), Error> {
        Err(Error::ForeignMapping)
    }

    fn commit_data_mapping(&mut self, mapping: PreparedDataMapping<Ticket>) -> Result<(), Error>
        ensures call { IsCommit ⟦<Making as FormatDriverInstance>⟧.view self.old self.new mapping
            result }
        ensures performed { ⟦<Making as FormatDriverInstance>⟧.calls.committed mapping self.old
            self.new result }
    {
        match mapping.into_state() {
            None => Ok(()),
            Some(_) => Err(Error::ForeignMapping),
        }
    }

    fn cancel_data_mapping(&mut self, mapping: PreparedDataMapping<Ticket>)
        ensures call { IsCancel ⟦<Making as FormatDriverInstance>⟧.view self.old self.new mapping }
        ensures performed { ⟦<Making as FormatDriverInstance>⟧.calls.cancelled mapping self.old
            self.new }
    {
        let _ = mapping.into_state();
    }

    fn ensure_data_mapping<B: LowerLayer>(
        &mut self,
        _alloc: Global,
        _below: Option<&B>,
        _offset: u64,
        _count: u64,
        _overwrite: bool,
    ) -> Result<(usize, u64, u64), Error>
        ensures refused { IsErrOf result Error.Unsupported }
        ensures unchanged { self.new ≡ self.old }
    {
        Err(Error::Unsupported)
    }

    fn resize_grow<B: LowerLayer>(
        &mut self,
        _alloc: Global,
        _below: Option<&B>,
        _new_size: u64,
        _mode: PreallocateMode,
    ) -> Result<(), Error>
        ensures refused { IsErrOf result Error.Unsupported }
        ensures unchanged { self.new ≡ self.old }
    {
        Err(Error::Unsupported)
    }

    fn resize_shrink(&mut self, _new_size: u64) -> Result<(), Error>
        ensures refused { IsErrOf result Error.Unsupported }
        ensures unchanged { self.new ≡ self.old }
    {
        Err(Error::Unsupported)
    }

    fn flush(&mut self) -> Result<(), Error> {
        Ok(())
    }

    fn sync(&mut self) -> Result<(), Error> {
        Ok(())
    }

    fn invalidate_cache(&mut self) -> Result<(), Error> {
        Ok(())
    }
}
