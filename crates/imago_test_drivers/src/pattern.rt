// SPDX-License-Identifier: MIT
//! A read-only disk of one kind of place: explicit zeroes, special bytes, or all that the layer
//! below has.
ghost use Rattle.std.specs.Prelude.{◌≡◌, false, IsErrOf, Err};
ghost use Rattle.imago_storage.specs.declared.error.Error.TheVariants.{ForeignMapping};
ghost use Rattle.imago_storage.specs.Maintenance.{IsNothing};
ghost use Rattle.imago_test_drivers.specs.Pattern.{pattern_view, kind_of, size_of};
ghost use Rattle.imago_test_drivers.specs.PatternLaws.{pattern_lawful, pattern_causes};
ghost use Rattle.imago_drivers.specs.Commit.{IsCommit, IsCancel};
ghost use Rattle.imago_drivers.specs.CallRelations.{any_calls, IsNotOffered, IsIdleCommit};
ghost use Rattle.imago_drivers.specs.Reasons.{none};

use imago_drivers::drivers::{
    Format, FormatDriverInstance, PreallocateMode, PreparedDataMapping, ShallowMapping, Ticket,
};
use imago_drivers::layer::LowerLayer;
use imago_storage::error::Error;
use imago_storage::null::Null;
use std::alloc::Global;
use std::fmt::{self, Display, Formatter, Write};

/// What stands at each offset of the disk.
#[derive(Clone, Copy)]
pub enum Kind {
    /// Explicit zeroes.
    Zeroes,
    /// Special bytes.
    Special {
        /// The byte that stands at each offset.
        byte: u8,
        /// Whether it can be read. A read of what can't is [`Error::Unsupported`].
        readable: bool,
    },
    /// What the layer below has at the same offset.
    Below {
        /// Whether the mapping says that it may be written there.
        writable: bool,
    },
}

/// A read-only disk of one kind of place. The calls that ask for a writable driver, or for one of
/// its storages, can't be made on it; they refuse all the same, and change nothing.
#[derive(Drop)]
pub struct Pattern {
    kind: Kind,
    size: u64,
}

impl Pattern {
    /// A disk of that many bytes, all of one kind.
    pub fn new(kind: Kind, size: u64) -> Self
        ensures kind { kind_of result ≡ «kind» }
        ensures size { size_of result ≡ «size» }
    {
        Pattern { kind, size }
    }
}

impl Display for Pattern {
    fn fmt<W: Write>(&self, f: &mut Formatter<W>) -> fmt::Result {
        write!(f, "pattern[{}B]", self.size)
    }
}

impl FormatDriverInstance for Pattern {
    type Storage = Null;

    type State = Ticket;

    ghost view = { λ d. pattern_view d.kind d.size };

    ghost recognizes = { λ _. false };

    ghost probe_reasons = { λ _. none };

    ghost calls = { record any_calls {
      zeroed = λ o n. IsNotOffered;
      discarded_to_zero = λ o n. IsNotOffered;
      discarded_to_any = λ o n. IsNotOffered;
      discarded_to_backing = λ o n. IsNotOffered;
      filled = λ m bytes at a b r. (b ≡ a) × (r ≡ Err ForeignMapping);
      committed = IsIdleCommit;
      by_parts = λ below o n overwrite a b r h. tt;
      cancelled = λ m a b. b ≡ a;
      cut = λ n. IsNotOffered;
      flushed = IsNothing;
      synced = IsNothing;
      invalidated = IsNothing;
    } };

    ghost lawful = { λ d. pattern_lawful d.kind d.size };

    ghost causes_lawful = { λ d. pattern_causes d.kind d.size };

    fn format(&self) -> Format {
        Format::Raw
    }

    fn size(&self) -> u64 {
        self.size
    }

    fn zero_granularity(&self) -> Option<u64> {
        None
    }

    fn writable(&self) -> bool {
        false
    }

    fn takes_backing(&self) -> bool {
        match self.kind {
            Kind::Zeroes => false,
            Kind::Special {
                byte: _,
                readable: _,
            } => false,
            Kind::Below { writable: _ } => true,
        }
    }

    fn has_prepared(&self) -> bool {
        false
    }

    fn probe(_alloc: Global, _storage: &Null) -> Result<bool, Error> {
        Ok(false)
    }

    fn collect_storage_dependencies(&self, alloc: Global) -> Result<Vec<&Null>, Error> {
        Ok(Vec::new(alloc))
    }

    fn storage_count(&self) -> usize {
        0
    }

    fn storage(&self, _index: usize) -> Option<&Null> {
        None
    }

    fn get_mapping(&self, offset: u64, _max_length: u64) -> Result<(ShallowMapping, u64), Error> {
        if offset >= self.size {
            return Ok((ShallowMapping::Eof, 0));
        }
        let rest = self.size - offset;
        match self.kind {
            Kind::Zeroes => Ok((ShallowMapping::Zero { explicit: true }, rest)),
            Kind::Special {
                byte: _,
                readable: _,
            } => Ok((ShallowMapping::Special { offset }, rest)),
            Kind::Below { writable } => Ok((ShallowMapping::Indirect { offset, writable }, rest)),
        }
    }

    fn read_mapped(
        &self,
        _alloc: Global,
        _storage: usize,
        _buf: &mut [u8],
        _offset: u64,
    ) -> Result<(), Error>
        ensures { IsErrOf result Error.Unsupported }
    {
        Err(Error::Unsupported)
    }

    fn readv_special(&self, _alloc: Global, buf: &mut [u8], _offset: u64) -> Result<(), Error> {
        if buf.is_empty() {
            return Ok(());
        }
        match self.kind {
            Kind::Special {
                byte,
                readable: true,
            } => {
                buf.fill(byte);
                Ok(())
            }
            Kind::Special {
                byte: _,
                readable: false,
            } => Err(Error::Unsupported),
            _ => {
                buf.fill(0);
                Ok(())
            }
        }
    }

    fn write_mapped(
        &mut self,
        _alloc: Global,
        _storage: usize,
        _source: &[u8],
        _offset: u64,
    ) -> Result<(), Error>
        ensures refused { IsErrOf result Error.Unsupported }
        ensures unchanged { self.new ≡ self.old }
    {
        Err(Error::Unsupported)
    }

    fn ensure_zero_mapping(
        &mut self,
        _alloc: Global,
        _offset: u64,
        _count: u64,
    ) -> Result<(u64, u64), Error>
        ensures refused { IsErrOf result Error.Unsupported }
        ensures unchanged { self.new ≡ self.old }
    {
        Err(Error::Unsupported)
    }

    fn discard_to_zero(
        &mut self,
        _alloc: Global,
        _offset: u64,
        _count: u64,
    ) -> Result<(u64, u64), Error>
        ensures refused { IsErrOf result Error.Unsupported }
        ensures unchanged { self.new ≡ self.old }
    {
        Err(Error::Unsupported)
    }

    fn discard_to_any(
        &mut self,
        _alloc: Global,
        _offset: u64,
        _count: u64,
    ) -> Result<(u64, u64), Error>
        ensures refused { IsErrOf result Error.Unsupported }
        ensures unchanged { self.new ≡ self.old }
    {
        Err(Error::Unsupported)
    }

    fn discard_to_backing(
        &mut self,
        _alloc: Global,
        _offset: u64,
        _count: u64,
    ) -> Result<(u64, u64), Error>
        ensures refused { IsErrOf result Error.Unsupported }
        ensures unchanged { self.new ≡ self.old }
    {
        Err(Error::Unsupported)
    }

    fn prepare_data_mapping<B: LowerLayer>(
        &mut self,
        _alloc: Global,
        _below: Option<&B>,
        _offset: u64,
        _count: u64,
        _overwrite: bool,
    ) -> Result<PreparedDataMapping<Ticket>, Error>
        ensures refused { IsErrOf result Error.Unsupported }
        ensures unchanged { self.new ≡ self.old }
    {
        Err(Error::Unsupported)
    }

    fn write_prepared(
        &mut self,
        _alloc: Global,
        _mapping: &PreparedDataMapping<Ticket>,
        _source: &[u8],
        _at: u64,
    ) -> Result<(), Error> {
        Err(Error::ForeignMapping)
    }

    fn commit_data_mapping(&mut self, mapping: PreparedDataMapping<Ticket>) -> Result<(), Error>
        ensures call { IsCommit ⟦<Pattern as FormatDriverInstance>⟧.view self.old self.new mapping
            result }
        ensures performed { ⟦<Pattern as FormatDriverInstance>⟧.calls.committed mapping self.old
            self.new result }
    {
        match mapping.into_state() {
            None => Ok(()),
            Some(_) => Err(Error::ForeignMapping),
        }
    }

    fn cancel_data_mapping(&mut self, mapping: PreparedDataMapping<Ticket>)
        ensures call { IsCancel ⟦<Pattern as FormatDriverInstance>⟧.view self.old self.new mapping }
        ensures performed { ⟦<Pattern as FormatDriverInstance>⟧.calls.cancelled mapping self.old
            self.new }
    {
        let _ = mapping.into_state();
    }

    fn ensure_data_mapping<B: LowerLayer>(
        &mut self,
        _alloc: Global,
        _below: Option<&B>,
        _offset: u64,
        _count: u64,
        _overwrite: bool,
    ) -> Result<(usize, u64, u64), Error>
        ensures refused { IsErrOf result Error.Unsupported }
        ensures unchanged { self.new ≡ self.old }
    {
        Err(Error::Unsupported)
    }

    fn resize_grow<B: LowerLayer>(
        &mut self,
        _alloc: Global,
        _below: Option<&B>,
        _new_size: u64,
        _mode: PreallocateMode,
    ) -> Result<(), Error>
        ensures refused { IsErrOf result Error.Unsupported }
        ensures unchanged { self.new ≡ self.old }
    {
        Err(Error::Unsupported)
    }

    fn resize_shrink(&mut self, _new_size: u64) -> Result<(), Error>
        ensures refused { IsErrOf result Error.Unsupported }
        ensures unchanged { self.new ≡ self.old }
    {
        Err(Error::Unsupported)
    }

    fn flush(&mut self) -> Result<(), Error> {
        Ok(())
    }

    fn sync(&mut self) -> Result<(), Error> {
        Ok(())
    }

    fn invalidate_cache(&mut self) -> Result<(), Error> {
        Ok(())
    }
}
