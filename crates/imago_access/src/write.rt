// SPDX-License-Identifier: MIT
//! Writing to an image.
ghost use Rattle.std.specs.Prelude.{◌≡◌, ◌+◌, ◌^◌, ◌<◌, None, is_none, length, IfOk, IsOk};
ghost use Rattle.std.specs.Prelude.{IsTrue};
ghost use Rattle.imago_drivers.specs.Operation.{Write};
ghost use Rattle.imago_drivers.specs.LayerBelow.{lent};
ghost use Rattle.imago_drivers.specs.Place.{values};
ghost use Rattle.imago_drivers.specs.Parts.{length_of, state_of};
ghost use Rattle.imago_access.specs.Chain.{driver, keeps_data};
ghost use Rattle.imago_access.specs.Disk.{disk, WritesDisk};
ghost use Rattle.imago_access.specs.Calls.{IsTested, IsWrite, IsMappedWrite, TakesChange};
ghost use Rattle.imago_access.specs.Performed.{IsFilledBy, IsThroughBy, IsFirstBy, AllWrittenBy};
ghost use Rattle.imago_access.specs.Performed.{IsWrittenBy, IsMappedBy};
ghost use Rattle.imago_access.specs.Writing.{CommitMayTakeMemory, WasPrepared, HasFilled, commits};
ghost use Rattle.imago_access.specs.Writing.{HasMapped, HasWritten, HasWrittenAll};

use crate::access::{FormatAccess, below};
use imago_drivers::drivers::{FormatDriverInstance, PreparedDataMapping};
use imago_drivers::layer::LowerLayer;
use imago_storage::error::Error;
use std::alloc::Global;

/// A mapping to prepare: of at most `count` bytes from `offset` on. With `overwrite` what isn't
/// written of it may be anything.
#[derive(Clone, Copy)]
pub(crate) struct MappingRequest {
    pub(crate) offset: u64,
    pub(crate) count: u64,
    pub(crate) overwrite: bool,
}

/// How a mapping is spent that was written to.
#[derive(Clone, Copy)]
pub(crate) enum Spending {
    Commit,
    Cancel,
}

/// Prepares a mapping of the range's first bytes, at most `count`, and writes what fits of the
/// source to it. Where that is refused, the mapping is cancelled.
fn fill_mapping<D: FormatDriverInstance, B: LowerLayer>(
    inner: &mut D,
    alloc: Global,
    below: Option<&B>,
    request: MappingRequest,
    source: &[u8],
) -> Result<PreparedDataMapping<D::State>, Error>
    requires { TakesChange (D.view inner.old) request.offset request.count }
    ensures prepared { IfOk result
        (λ m. WasPrepared D.view (lent B.as_layer_below below.entry).tells_bytes
        (values (lent B.as_layer_below below.entry).at (D.view inner.old).place)
        inner.old request.offset request.count request.overwrite
        (length_of m, is_none (state_of m))) }
    ensures filled { HasFilled (lent B.as_layer_below below.entry) (D.view inner.old)
        (D.view inner.new) request.offset request.count request.overwrite source.now result }
    ensures performed { IsFilledBy D.calls (lent B.as_layer_below below.entry) request.offset
        request.count request.overwrite source.now inner.old inner.new result }
{
    let MappingRequest {
        offset,
        count,
        overwrite,
    } = request;
    let mapping = inner.prepare_data_mapping(alloc, below, offset, count, overwrite)?;
    let fitting = source.len().min(mapping.length() as usize);
    if let Err(error) = inner.write_prepared(alloc, &mapping, &source[..fitting], 0) {
        inner.cancel_data_mapping(mapping); // it has to be spent
        return Err(error);
    }
    Ok(mapping)
}

/// Writes what fits of the source through one mapping, which is committed or cancelled then, and
/// answers how long it was, and whether it had no state.
fn write_through<D: FormatDriverInstance, B: LowerLayer>(
    inner: &mut D,
    alloc: Global,
    below: Option<&B>,
    request: MappingRequest,
    source: &[u8],
    spending: Spending,
) -> Result<(u64, bool), Error>
    requires { TakesChange (D.view inner.old) request.offset request.count }
    ensures told { IfOk result
        (WasPrepared D.view (lent B.as_layer_below below.entry).tells_bytes (values (lent B.as_layer_below below.entry).at (D.view inner.old).place)
        inner.old request.offset request.count request.overwrite) }
    ensures mapped { HasMapped (lent B.as_layer_below below.entry)
        (CommitMayTakeMemory D.view inner.old) (D.view inner.old) (D.view inner.new)
        request.offset request.count request.overwrite source.now (commits spending) result }
    ensures performed { IsThroughBy D.calls (lent B.as_layer_below below.entry) request.offset
        request.count request.overwrite source.now (commits spending) inner.old inner.new result }
{
    let mapping = fill_mapping(inner, alloc, below, request, source)?;
    let answer = (mapping.length(), mapping.is_nonblocking());
    match spending {
        Spending::Cancel => {
            inner.cancel_data_mapping(mapping);
            Ok(answer)
        }
        Spending::Commit => {
            inner.commit_data_mapping(mapping)?;
            Ok(answer)
        }
    }
}

/// Writes the first bytes of a range, as many as one mapping holds, and answers how many these are.
pub(crate) fn write_first<D: FormatDriverInstance, B: LowerLayer>(
    inner: &mut D,
    alloc: Global,
    below: Option<&B>,
    source: &[u8],
    offset: u64,
) -> Result<usize, Error>
    requires some { 0 < length source.now }
    requires takes { TakesChange (D.view inner.old) offset (length source.now) }
    ensures written { HasWritten (lent B.as_layer_below below.entry)
        (CommitMayTakeMemory D.view inner.old) (D.view inner.old) (D.view inner.new) offset
        source.now result }
    ensures performed { IsFirstBy D.calls (lent B.as_layer_below below.entry) offset source.now
        inner.old inner.new result }
{
    let request = MappingRequest {
        offset,
        count: source.len() as u64,
        overwrite: true,
    };
    let (count, _) = write_through(inner, alloc, below, request, source, Spending::Commit)?;
    Ok(count as usize)
}

/// Writes a range, mapping after mapping.
fn write_all<D: FormatDriverInstance, B: LowerLayer>(
    inner: &mut D,
    alloc: Global,
    below: Option<&B>,
    source: &[u8],
    offset: u64,
) -> Result<(), Error>
    requires takes { TakesChange (D.view inner.old) offset (length source.now) }
    requires fits { offset + length source.now < 2 ^ 64 }
    ensures empty { length source.now ≡ 0 → IsOk result × (inner.new ≡ inner.old) }
    ensures written { HasWrittenAll (lent B.as_layer_below below.entry)
        (CommitMayTakeMemory D.view inner.old) (D.view inner.old) (D.view inner.new) offset
        source.now result }
    ensures performed { AllWrittenBy D.calls (lent B.as_layer_below below.entry) offset source.now
        inner.old inner.new result }
{
    let mut done: usize = 0;
    while done < source.len() {
        done += write_first(inner, alloc, below, &source[done..], offset + done as u64)?;
    }
    Ok(())
}

impl<D: FormatDriverInstance> FormatAccess<D> {
    /// The tests of a write or a mapping, in their order: the driver is writable, and the range
    /// lies in the disk.
    pub(crate) fn test_range(&self, offset: u64, count: u64) -> Result<(), Error>
        ensures { IsTested (D.view (driver self.now)) Write offset count result }
    {
        if !self.inner.writable() {
            return Err(Error::ReadOnly);
        }
        let size = self.inner.size();
        if offset > size || count > size - offset {
            return Err(Error::BeyondDisk);
        }
        Ok(())
    }

    /// Prepares a mapping of the range's first bytes, writes what fits of the source to it, and
    /// commits or cancels it. It answers how long the mapping was, and whether it had no state. The
    /// tests are those of [`write`](Self::write).
    pub(crate) fn write_mapping(
        &mut self,
        alloc: Global,
        request: MappingRequest,
        source: &[u8],
        spending: Spending,
    ) -> Result<(u64, bool), Error>
        requires { (D.view (driver self.old)).pending ≡ None }
        ensures mapped { IsMappedWrite D.view self.old self.new request.offset request.count
            request.overwrite source.now (commits spending) result }
        ensures performed { IsMappedBy D.view D.calls self.old self.new request.offset
            request.count request.overwrite source.now (commits spending) result }
    {
        self.test_range(request.offset, request.count)?;
        let lower = below(&self.backing);
        write_through(&mut self.inner, alloc, lower, request, source, spending)
    }

    /// Writes the bytes at the offset. Nothing below the top layer changes.
    ///
    /// [`Error::ReadOnly`] where the driver isn't writable, then [`Error::BeyondDisk`] where the
    /// range passes the disk's size, also for no bytes; nothing changed. Any other refusal is that
    /// of a call of the driver, and leaves each byte of the range old or new, and all others as
    /// they were. A write of no bytes that passes these tests does nothing, and isn't refused.
    ///
    /// No prepared mapping may wait, which [`has_prepared`](FormatDriverInstance::has_prepared) of
    /// the driver tells.
    pub fn write(&mut self, alloc: Global, source: &[u8], offset: u64) -> Result<(), Error>
        requires { (D.view (driver self.old)).pending ≡ None }
        ensures disk { IsTrue (keeps_data D.view self.old) → WritesDisk (disk D.view self.old) offset
            source.now result (disk D.view self.new) }
        ensures written { IsWrite D.view self.old self.new offset source.now result }
        ensures performed { IsWrittenBy D.view D.calls self.old self.new offset source.now result }
    {
        self.test_range(offset, source.len() as u64)?;
        write_all(&mut self.inner, alloc, below(&self.backing), source, offset)
    }

    /// The same as [`write`](Self::write).
    ///
    /// No prepared mapping may wait, which [`has_prepared`](FormatDriverInstance::has_prepared) of
    /// the driver tells.
    pub fn writev(&mut self, alloc: Global, source: &[u8], offset: u64) -> Result<(), Error>
        requires { (D.view (driver self.old)).pending ≡ None }
        ensures disk { IsTrue (keeps_data D.view self.old) → WritesDisk (disk D.view self.old) offset
            source.now result (disk D.view self.new) }
        ensures written { IsWrite D.view self.old self.new offset source.now result }
        ensures performed { IsWrittenBy D.view D.calls self.old self.new offset source.now result }
    {
        self.write(alloc, source, offset)
    }
}
