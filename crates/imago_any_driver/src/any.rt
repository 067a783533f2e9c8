// SPDX-License-Identifier: MIT
//! The driver of images of any format.
ghost use Rattle.std.specs.Prelude.{◌≡◌, false, IfOk, IfErr, IsErrOf, IsTrue};
ghost use Rattle.imago_storage.specs.Error.{IsExtRefusal};
ghost use Rattle.imago_drivers.specs.Commit.{IsCommit, IsCancel};
ghost use Rattle.imago_drivers.specs.Reasons.{allowed};
ghost use Rattle.imago_any_driver.specs.AnyCalls.{calls_by_format};
ghost use Rattle.imago_any_driver.specs.AnyDriver.{view_by_format, detected};
ghost use Rattle.imago_any_driver.specs.AnyDriver.{either, reasons_of_both};
ghost use Rattle.imago_any_driver.specs.AnyDriver.{HoldsRaw, HoldsVmdk, HoldsCow, HoldsQcow2};
ghost use Rattle.imago_any_driver.specs.AnyDriver.{formats_lawful, formats_causes};

use imago_cow::cow::Cow;
use imago_drivers::drivers::{
    Format, FormatDriverInstance, PreallocateMode, PreparedDataMapping, ShallowMapping, Ticket,
};
use imago_drivers::layer::LowerLayer;
use imago_drivers::raw::Raw;
use imago_qcow2::qcow2::Qcow2;
use imago_storage::error::Error;
use imago_storage::storage::Storage;
use imago_vmdk::vmdk::Vmdk;
use std::alloc::Global;
use std::fmt::{self, Display, Formatter, Write};

/// The driver of an image of any format: in every respect the driver inside.
#[derive(Drop)]
pub enum AnyDriver<S: Storage> {
    /// A raw image, whose mappings hold no state.
    Raw(Raw<S>),
    /// A VMDK image. It can't be written to.
    Vmdk(Vmdk<S>),
    /// A copy-on-write disk, whose mappings are its own.
    Cow(Cow<S>),
    /// A qcow2 image. It can't be written to.
    Qcow2(Qcow2<S>),
}

impl<S: Storage> From<Raw<S>> for AnyDriver<S> {
    ghost from_gives = { HoldsRaw };

    fn from(driver: Raw<S>) -> Self {
        AnyDriver::Raw(driver)
    }
}

impl<S: Storage> From<Vmdk<S>> for AnyDriver<S> {
    ghost from_gives = { HoldsVmdk };

    fn from(driver: Vmdk<S>) -> Self {
        AnyDriver::Vmdk(driver)
    }
}

impl<S: Storage> From<Cow<S>> for AnyDriver<S> {
    ghost from_gives = { HoldsCow };

    fn from(driver: Cow<S>) -> Self {
        AnyDriver::Cow(driver)
    }
}

impl<S: Storage> From<Qcow2<S>> for AnyDriver<S> {
    ghost from_gives = { HoldsQcow2 };

    fn from(driver: Qcow2<S>) -> Self {
        AnyDriver::Qcow2(driver)
    }
}

/// Which format the storage's bytes have, as far as can be told: qcow2 by the magic number and the
/// version, else VMDK by a descriptor's text, else raw, which any bytes have.
///
/// What the storage is refused for is passed on; [`Error::Memory`] is also no room for the text.
pub fn detect<S: Storage>(alloc: Global, storage: &S) -> Result<Format, Error>
    ensures format { IsTrue (S.features storage.now).tells_bytes → IfOk result
        (λ f. f ≡ detected ⟦<Qcow2<S> as FormatDriverInstance>⟧.recognizes
        ⟦<Vmdk<S> as FormatDriverInstance>⟧.recognizes (S.bytes storage.now)) }
    ensures only { IfErr result IsExtRefusal }
    ensures device { IsErrOf result Error.Device → (S.features storage.now).is_reliable ≡ false }
    ensures refusals { IfErr result
        (allowed
        (reasons_of_both (⟦<Qcow2<S> as FormatDriverInstance>⟧.probe_reasons storage.now)
        (⟦<Vmdk<S> as FormatDriverInstance>⟧.probe_reasons storage.now))) }
{
    if Qcow2::probe(alloc, storage)? {
        return Ok(Format::Qcow2);
    }
    if Vmdk::probe(alloc, storage)? {
        return Ok(Format::Vmdk);
    }
    Ok(Format::Raw)
}

/// The same call on whichever driver it is.
macro_rules! dispatch {
    ($self:expr, $driver:ident => $call:expr) => {
        match $self {
            AnyDriver::Raw($driver) => $call,
            AnyDriver::Vmdk($driver) => $call,
            AnyDriver::Cow($driver) => $call,
            AnyDriver::Qcow2($driver) => $call,
        }
    };
}

impl<S: Storage> Display for AnyDriver<S> {
    fn fmt<W: Write>(&self, f: &mut Formatter<W>) -> fmt::Result {
        dispatch!(self, driver => write!(f, "{driver}"))
    }
}

impl<S: Storage> FormatDriverInstance for AnyDriver<S> {
    type Storage = S;

    type State = Ticket;

    ghost view = { view_by_format ⟦<Raw<S> as FormatDriverInstance>⟧.view
        ⟦<Vmdk<S> as FormatDriverInstance>⟧.view ⟦<Cow<S> as FormatDriverInstance>⟧.view
        ⟦<Qcow2<S> as FormatDriverInstance>⟧.view };

    ghost recognizes = { either ⟦<Qcow2<S> as FormatDriverInstance>⟧.recognizes
        ⟦<Vmdk<S> as FormatDriverInstance>⟧.recognizes };

    ghost probe_reasons = { λ s.
        reasons_of_both (⟦<Qcow2<S> as FormatDriverInstance>⟧.probe_reasons s)
        (⟦<Vmdk<S> as FormatDriverInstance>⟧.probe_reasons s) };

    ghost calls = { calls_by_format ⟦<Raw<S> as FormatDriverInstance>⟧.calls
        ⟦<Vmdk<S> as FormatDriverInstance>⟧.calls ⟦<Cow<S> as FormatDriverInstance>⟧.calls
        ⟦<Qcow2<S> as FormatDriverInstance>⟧.calls };

    ghost lawful = { λ d. formats_lawful S.features S.fault_count S.bytes (λ s. S.lawful s) d };

    ghost causes_lawful = { λ d. formats_causes S.features S.fault_count S.bytes d };

    fn format(&self) -> Format {
        dispatch!(self, driver => driver.format())
    }

    fn size(&self) -> u64 {
        dispatch!(self, driver => driver.size())
    }

    fn zero_granularity(&self) -> Option<u64> {
        dispatch!(self, driver => driver.zero_granularity())
    }

    fn writable(&self) -> bool {
        dispatch!(self, driver => driver.writable())
    }

    fn takes_backing(&self) -> bool {
        dispatch!(self, driver => driver.takes_backing())
    }

    fn has_prepared(&self) -> bool {
        dispatch!(self, driver => driver.has_prepared())
    }

    /// Whether the storage has a qcow2 or VMDK image: there is no telling what a raw image is.
    fn probe(alloc: Global, storage: &S) -> Result<bool, Error> {
        Ok(detect(alloc, storage)? != Format::Raw)
    }

    fn collect_storage_dependencies(&self, alloc: Global) -> Result<Vec<&S>, Error> {
        dispatch!(self, driver => driver.collect_storage_dependencies(alloc))
    }

    fn storage_count(&self) -> usize {
        dispatch!(self, driver => driver.storage_count())
    }

    fn storage(&self, index: usize) -> Option<&S> {
        dispatch!(self, driver => driver.storage(index))
    }

    // A long chain is walked in a loop with the mappings of its layers in it. Those of formats with
    // tables are calls, and what these give is taken apart, so that all else stays in registers.
    #[inline(always)]
    fn get_mapping(&self, offset: u64, max_length: u64) -> Result<(ShallowMapping, u64), Error> {
        match self {
            AnyDriver::Raw(driver) => driver.get_mapping(offset, max_length),
            AnyDriver::Cow(driver) => driver.get_mapping(offset, max_length),
            AnyDriver::Vmdk(driver) => {
                let (mapping, count) = driver.get_mapping(offset, max_length)?;
                Ok((mapping, count))
            }
            AnyDriver::Qcow2(driver) => {
                let (mapping, count) = driver.get_mapping(offset, max_length)?;
                Ok((mapping, count))
            }
        }
    }

    fn read_mapped(
        &self,
        alloc: Global,
        storage: usize,
        buf: &mut [u8],
        offset: u64,
    ) -> Result<(), Error> {
        dispatch!(self, driver => driver.read_mapped(alloc, storage, buf, offset))
    }

    fn readv_special(&self, alloc: Global, buf: &mut [u8], offset: u64) -> Result<(), Error> {
        dispatch!(self, driver => driver.readv_special(alloc, buf, offset))
    }

    fn special_block(&self) -> u64 {
        dispatch!(self, driver => driver.special_block())
    }

    fn write_mapped(
        &mut self,
        alloc: Global,
        storage: usize,
        source: &[u8],
        offset: u64,
    ) -> Result<(), Error> {
        dispatch!(self, driver => driver.write_mapped(alloc, storage, source, offset))
    }

    fn ensure_zero_mapping(
        &mut self,
        alloc: Global,
        offset: u64,
        count: u64,
    ) -> Result<(u64, u64), Error> {
        dispatch!(self, driver => driver.ensure_zero_mapping(alloc, offset, count))
    }

    fn discard_to_zero(
        &mut self,
        alloc: Global,
        offset: u64,
        count: u64,
    ) -> Result<(u64, u64), Error> {
        dispatch!(self, driver => driver.discard_to_zero(alloc, offset, count))
    }

    fn discard_to_any(
        &mut self,
        alloc: Global,
        offset: u64,
        count: u64,
    ) -> Result<(u64, u64), Error> {
        dispatch!(self, driver => driver.discard_to_any(alloc, offset, count))
    }

    fn discard_to_backing(
        &mut self,
        alloc: Global,
        offset: u64,
        count: u64,
    ) -> Result<(u64, u64), Error> {
        dispatch!(self, driver => driver.discard_to_backing(alloc, offset, count))
    }

    fn prepare_data_mapping<B: LowerLayer>(
        &mut self,
        alloc: Global,
        below: Option<&B>,
        offset: u64,
        count: u64,
        overwrite: bool,
    ) -> Result<PreparedDataMapping<Ticket>, Error> {
        dispatch!(self, driver => {
            driver.prepare_data_mapping(alloc, below, offset, count, overwrite)
        })
    }

    fn write_prepared(
        &mut self,
        alloc: Global,
        mapping: &PreparedDataMapping<Ticket>,
        source: &[u8],
        at: u64,
    ) -> Result<(), Error> {
        dispatch!(self, driver => driver.write_prepared(alloc, mapping, source, at))
    }

    fn commit_data_mapping(&mut self, mapping: PreparedDataMapping<Ticket>) -> Result<(), Error>
        ensures call { IsCommit ⟦<AnyDriver<S> as FormatDriverInstance>⟧.view self.old self.new
            mapping result }
        ensures performed { ⟦<AnyDriver<S> as FormatDriverInstance>⟧.calls.committed mapping
            self.old self.new result }
    {
        dispatch!(self, driver => driver.commit_data_mapping(mapping))
    }

    fn cancel_data_mapping(&mut self, mapping: PreparedDataMapping<Ticket>)
        ensures call { IsCancel ⟦<AnyDriver<S> as FormatDriverInstance>⟧.view self.old self.new
            mapping }
        ensures performed { ⟦<AnyDriver<S> as FormatDriverInstance>⟧.calls.cancelled mapping
            self.old self.new }
    {
        dispatch!(self, driver => driver.cancel_data_mapping(mapping))
    }

    fn ensure_data_mapping<B: LowerLayer>(
        &mut self,
        alloc: Global,
        below: Option<&B>,
        offset: u64,
        count: u64,
        overwrite: bool,
    ) -> Result<(usize, u64, u64), Error> {
        dispatch!(self, driver => {
            driver.ensure_data_mapping(alloc, below, offset, count, overwrite)
        })
    }

    fn resize_grow<B: LowerLayer>(
        &mut self,
        alloc: Global,
        below: Option<&B>,
        new_size: u64,
        mode: PreallocateMode,
    ) -> Result<(), Error> {
        dispatch!(self, driver => driver.resize_grow(alloc, below, new_size, mode))
    }

    fn resize_shrink(&mut self, new_size: u64) -> Result<(), Error> {
        dispatch!(self, driver => driver.resize_shrink(new_size))
    }

    fn flush(&mut self) -> Result<(), Error> {
        dispatch!(self, driver => driver.flush())
    }

    fn sync(&mut self) -> Result<(), Error> {
        dispatch!(self, driver => driver.sync())
    }

    fn invalidate_cache(&mut self) -> Result<(), Error> {
        dispatch!(self, driver => driver.invalidate_cache())
    }
}
