// SPDX-License-Identifier: MIT
//! One of several drivers, so that an image's layers can have different ones.
ghost use Rattle.imago_drivers.specs.CallRelations.{any_calls};
ghost use Rattle.imago_drivers.specs.Commit.{IsCommit, IsCancel};
ghost use Rattle.imago_test_drivers.specs.TestDriver.{test_view, test_lawful, test_causes};
ghost use Rattle.imago_test_drivers.specs.TestDriver.{by_driver};

use crate::choppy::Choppy;
use crate::pattern::Pattern;
use imago_drivers::drivers::{
    Format, FormatDriverInstance, PreallocateMode, PreparedDataMapping, ShallowMapping, Ticket,
};
use imago_drivers::layer::LowerLayer;
use imago_drivers::raw::Raw;
use imago_storage::error::Error;
use imago_storage::storage::Storage;
use std::alloc::Global;
use std::fmt::{self, Display, Formatter, Write};

/// One of the drivers, over storages of one type. It is that driver in every respect.
#[derive(Drop)]
pub enum TestDriver<S: Storage> {
    /// A raw image.
    Raw(Raw<S>),
    /// A raw image in blocks.
    Choppy(Choppy<S>),
    /// A read-only disk of one kind of place, which has no storage.
    Pattern(Pattern),
}

/// The same call on whichever driver it is.
macro_rules! dispatch {
    ($self:expr, $driver:ident => $call:expr) => {
        match $self {
            TestDriver::Raw($driver) => $call,
            TestDriver::Choppy($driver) => $call,
            TestDriver::Pattern($driver) => $call,
        }
    };
}

impl<S: Storage> Display for TestDriver<S> {
    fn fmt<W: Write>(&self, f: &mut Formatter<W>) -> fmt::Result {
        dispatch!(self, driver => write!(f, "{driver}"))
    }
}

impl<S: Storage> FormatDriverInstance for TestDriver<S> {
    type Storage = S;

    type State = Ticket;

    ghost view = { λ d. test_view S.features S.fault_count S.bytes d };

    ghost recognizes = { ⟦<Raw<S> as FormatDriverInstance>⟧.recognizes };

    ghost probe_reasons = { ⟦<Raw<S> as FormatDriverInstance>⟧.probe_reasons };

    ghost calls = { record any_calls {
      flushed = by_driver ⟦<Raw<S> as FormatDriverInstance>⟧.calls.flushed
          ⟦<Choppy<S> as FormatDriverInstance>⟧.calls.flushed
          ⟦<Pattern as FormatDriverInstance>⟧.calls.flushed;
      synced = by_driver ⟦<Raw<S> as FormatDriverInstance>⟧.calls.synced
          ⟦<Choppy<S> as FormatDriverInstance>⟧.calls.synced
          ⟦<Pattern as FormatDriverInstance>⟧.calls.synced;
      invalidated = by_driver ⟦<Raw<S> as FormatDriverInstance>⟧.calls.invalidated
          ⟦<Choppy<S> as FormatDriverInstance>⟧.calls.invalidated
          ⟦<Pattern as FormatDriverInstance>⟧.calls.invalidated;
      discarded_to_any = λ o n. by_driver
          (⟦<Raw<S> as FormatDriverInstance>⟧.calls.discarded_to_any o n)
          (⟦<Choppy<S> as FormatDriverInstance>⟧.calls.discarded_to_any o n)
          (⟦<Pattern as FormatDriverInstance>⟧.calls.discarded_to_any o n);
      discarded_to_backing = λ o n. by_driver
          (⟦<Raw<S> as FormatDriverInstance>⟧.calls.discarded_to_backing o n)
          (⟦<Choppy<S> as FormatDriverInstance>⟧.calls.discarded_to_backing o n)
          (⟦<Pattern as FormatDriverInstance>⟧.calls.discarded_to_backing o n);
    } };

    ghost lawful = { λ d. test_lawful S.features S.fault_count S.bytes S.lawful d };

    ghost causes_lawful = { λ d. test_causes S.features S.fault_count S.bytes d };

    fn format(&self) -> Format {
        dispatch!(self, driver => driver.format())
    }

    fn size(&self) -> u64 {
        dispatch!(self, driver => driver.size())
    }

    fn zero_granularity(&self) -> Option<u64> {
        dispatch!(self, driver => driver.zero_granularity())
    }

    fn writable(&self) -> bool {
        dispatch!(self, driver => driver.writable())
    }

    fn takes_backing(&self) -> bool {
        dispatch!(self, driver => driver.takes_backing())
    }

    fn has_prepared(&self) -> bool {
        dispatch!(self, driver => driver.has_prepared())
    }

    fn probe(alloc: Global, storage: &S) -> Result<bool, Error> {
        Raw::probe(alloc, storage)
    }

    fn collect_storage_dependencies(&self, alloc: Global) -> Result<Vec<&S>, Error> {
        match self {
            TestDriver::Raw(raw) => raw.collect_storage_dependencies(alloc),
            TestDriver::Choppy(choppy) => choppy.collect_storage_dependencies(alloc),
            TestDriver::Pattern(_) => Ok(Vec::new(alloc)),
        }
    }

    fn storage_count(&self) -> usize {
        dispatch!(self, driver => driver.storage_count())
    }

    fn storage(&self, index: usize) -> Option<&S> {
        match self {
            TestDriver::Raw(raw) => raw.storage(index),
            TestDriver::Choppy(choppy) => choppy.storage(index),
            TestDriver::Pattern(_) => None,
        }
    }

    fn get_mapping(&self, offset: u64, max_length: u64) -> Result<(ShallowMapping, u64), Error> {
        dispatch!(self, driver => driver.get_mapping(offset, max_length))
    }

    fn read_mapped(
        &self,
        alloc: Global,
        storage: usize,
        buf: &mut [u8],
        offset: u64,
    ) -> Result<(), Error> {
        dispatch!(self, driver => driver.read_mapped(alloc, storage, buf, offset))
    }

    fn readv_special(&self, alloc: Global, buf: &mut [u8], offset: u64) -> Result<(), Error> {
        dispatch!(self, driver => driver.readv_special(alloc, buf, offset))
    }

    fn special_block(&self) -> u64 {
        dispatch!(self, driver => driver.special_block())
    }

    fn write_mapped(
        &mut self,
        alloc: Global,
        storage: usize,
        source: &[u8],
        offset: u64,
    ) -> Result<(), Error> {
        dispatch!(self, driver => driver.write_mapped(alloc, storage, source, offset))
    }

    fn ensure_zero_mapping(
        &mut self,
        alloc: Global,
        offset: u64,
        count: u64,
    ) -> Result<(u64, u64), Error> {
        dispatch!(self, driver => driver.ensure_zero_mapping(alloc, offset, count))
    }

    fn discard_to_zero(
        &mut self,
        alloc: Global,
        offset: u64,
        count: u64,
    ) -> Result<(u64, u64), Error> {
        dispatch!(self, driver => driver.discard_to_zero(alloc, offset, count))
    }

    fn discard_to_any(
        &mut self,
        alloc: Global,
        offset: u64,
        count: u64,
    ) -> Result<(u64, u64), Error> {
        dispatch!(self, driver => driver.discard_to_any(alloc, offset, count))
    }

    fn discard_to_backing(
        &mut self,
        alloc: Global,
        offset: u64,
        count: u64,
    ) -> Result<(u64, u64), Error> {
        dispatch!(self, driver => driver.discard_to_backing(alloc, offset, count))
    }

    fn prepare_data_mapping<B: LowerLayer>(
        &mut self,
        alloc: Global,
        below: Option<&B>,
        offset: u64,
        count: u64,
        overwrite: bool,
    ) -> Result<PreparedDataMapping<Ticket>, Error> {
        dispatch!(self, driver => driver.prepare_data_mapping(alloc, below, offset, count,
            overwrite))
    }

    fn write_prepared(
        &mut self,
        alloc: Global,
        mapping: &PreparedDataMapping<Ticket>,
        source: &[u8],
        at: u64,
    ) -> Result<(), Error> {
        dispatch!(self, driver => driver.write_prepared(alloc, mapping, source, at))
    }

    fn commit_data_mapping(&mut self, mapping: PreparedDataMapping<Ticket>) -> Result<(), Error>
        ensures call { IsCommit ⟦<TestDriver<S> as FormatDriverInstance>⟧.view self.old self.new
            mapping result }
        ensures performed { ⟦<TestDriver<S> as FormatDriverInstance>⟧.calls.committed mapping
            self.old self.new result }
    {
        dispatch!(self, driver => driver.commit_data_mapping(mapping))
    }

    fn cancel_data_mapping(&mut self, mapping: PreparedDataMapping<Ticket>)
        ensures call { IsCancel ⟦<TestDriver<S> as FormatDriverInstance>⟧.view self.old self.new
            mapping }
        ensures performed { ⟦<TestDriver<S> as FormatDriverInstance>⟧.calls.cancelled mapping
            self.old self.new }
    {
        dispatch!(self, driver => driver.cancel_data_mapping(mapping))
    }

    fn ensure_data_mapping<B: LowerLayer>(
        &mut self,
        alloc: Global,
        below: Option<&B>,
        offset: u64,
        count: u64,
        overwrite: bool,
    ) -> Result<(usize, u64, u64), Error> {
        dispatch!(self, driver => driver.ensure_data_mapping(alloc, below, offset, count,
            overwrite))
    }

    fn resize_grow<B: LowerLayer>(
        &mut self,
        alloc: Global,
        below: Option<&B>,
        new_size: u64,
        mode: PreallocateMode,
    ) -> Result<(), Error> {
        dispatch!(self, driver => driver.resize_grow(alloc, below, new_size, mode))
    }

    fn resize_shrink(&mut self, new_size: u64) -> Result<(), Error> {
        dispatch!(self, driver => driver.resize_shrink(new_size))
    }

    fn flush(&mut self) -> Result<(), Error> {
        dispatch!(self, driver => driver.flush())
    }

    fn sync(&mut self) -> Result<(), Error> {
        dispatch!(self, driver => driver.sync())
    }

    fn invalidate_cache(&mut self) -> Result<(), Error> {
        dispatch!(self, driver => driver.invalidate_cache())
    }
}
