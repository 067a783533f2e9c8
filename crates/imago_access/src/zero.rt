// SPDX-License-Identifier: MIT
//! Zeroing ranges of an image.
ghost use Rattle.std.specs.Prelude.{◌≡◌, ℕ, ◌+◌, ◌-◌, ◌/◌, ◌<◌, ◌≤◌, ◌^◌, None, true, List, IsTrue};
ghost use Rattle.std.specs.Prelude.{IfOk, IfErr, OnOk, IsOk, ◌⊎◌, length, slice_index, EachIndex};
ghost use Rattle.imago_drivers.specs.Operation.{Zero, DiscardToZero};
ghost use Rattle.imago_drivers.specs.Place.{Byte};
ghost use Rattle.imago_access.specs.Chain.{driver, backing, disk_value, lent_image};
ghost use Rattle.imago_access.specs.Chain.{keeps_data};
ghost use Rattle.imago_access.specs.Calls.{IsTested, TakesChange};
ghost use Rattle.imago_access.specs.Disk.{disk, ZeroesDisk};
ghost use Rattle.imago_access.specs.ZeroCalls.{OnDriver, zero_by, AreGranulesBy, IsRoundedFrom};
ghost use Rattle.imago_access.specs.ZeroCalls.{TriesGranules, IsZeroPiece, IsZeroedAsData};
ghost use Rattle.imago_access.specs.ZeroCalls.{IsGapZeroed, IsNextZeroed, AllZeroedBy, IsZeroedBy};
ghost use Rattle.imago_access.specs.ZeroCalls.{LacksZeroes, AreNull};
ghost use Rattle.imago_access.specs.Performed.{IsFirstBy};
ghost use Rattle.imago_access.specs.declared.zero.ZeroCall.TheVariants as Call;
ghost use Rattle.imago_access.specs.Zeroing.{operation_of, AreZero, HasZeroed};
ghost use Rattle.imago_access.specs.Zeroing.{HasZeroedPart, IsZeroedByDriver};
ghost use Rattle.imago_access.specs.Zeroing.{IsZeroWrite, data_reasons, zero_reasons};

use crate::access::{FormatAccess, below};
use crate::mapping::Mapping;
use crate::write::write_first;
use imago_drivers::drivers::FormatDriverInstance;
use imago_storage::error::Error;
use imago_storage::storage::{ZERO_PIECE, zero_buffer};
use std::alloc::Global;

/// Which call of the driver zeroes what it can.
#[derive(Clone, Copy)]
pub(crate) enum ZeroCall {
    /// [`FormatDriverInstance::ensure_zero_mapping`].
    EnsureZero,
    /// [`FormatDriverInstance::discard_to_zero`].
    DiscardToZero,
}

impl<D: FormatDriverInstance> FormatAccess<D> {
    /// Has the driver zero what it can of a range, and answers which part that is.
    fn zero_part(
        &mut self,
        alloc: Global,
        call: ZeroCall,
        offset: u64,
        count: u64,
    ) -> Result<(u64, u64), Error>
        requires { TakesChange (D.view (driver self.old)) offset count }
        ensures zeroed { HasZeroedPart D.view (operation_of call) offset count self.old self.new
            result }
        ensures performed { zero_by D.calls call offset count self.old self.new result }
    {
        match call {
            ZeroCall::EnsureZero => self.inner.ensure_zero_mapping(alloc, offset, count),
            ZeroCall::DiscardToZero => self.inner.discard_to_zero(alloc, offset, count),
        }
    }

    /// Whether a range maps as zeroes, explicit ones or not, as far as its mappings can be had.
    fn maps_as_zero(&self, offset: u64, count: u64) -> bool
        requires { offset + count < 2 ^ 64 }
        ensures { IsTrue result → AreZero (disk_value D.view self.now) offset count }
    {
        let mut done: u64 = 0;
        while done < count {
            match self.get_mapping(offset + done, count - done) {
                Ok((Mapping::Zero { .. }, length)) => done += length,
                _ => return false,
            }
        }
        true
    }

    /// Where the whole granules of a range begin: rounded down where what stands before the range
    /// in its first granule maps as zero, rounded up where not.
    fn first_granule(&self, granule: u64, offset: u64) -> u64
        requires some { 0 < granule }
        requires fits { offset < 2 ^ 64 }
        ensures zero { (p : ℕ) → result ≤ p → p < offset → disk_value D.view self.now p ≡ Byte 0 }
        ensures one_granule { (p : ℕ) → result ≤ p → p < offset → p / granule ≡ offset / granule }
        ensures rounded { IsRoundedFrom granule offset result }
    {
        let head = offset % granule;
        let start = offset - head;
        if self.maps_as_zero(start, head) {
            return start;
        }
        start.saturating_add(granule)
    }

    /// Where the whole granules of a range end: rounded up, but for the disk's end, where what
    /// stands behind the range in its last granule maps as zero, rounded down where not.
    fn last_granule(&self, granule: u64, end: u64) -> u64
        requires some { 0 < granule }
        requires inside { end ≤ (D.view (driver self.now)).size }
        ensures inside { result ≤ (D.view (driver self.now)).size }
        ensures zero { (p : ℕ) → end ≤ p → p < result → disk_value D.view self.now p ≡ Byte 0 }
        ensures one_granule { (p : ℕ) → end ≤ p → p < result → p / granule ≡ (end - 1) / granule }
        ensures rounded { IsRoundedFrom granule end result }
    {
        let tail = end % granule;
        if tail == 0 {
            return end;
        }
        let start = end - tail;
        let whole = start.saturating_add(granule).min(self.size());
        if self.maps_as_zero(end, whole - end) {
            return whole;
        }
        start
    }

    /// Has the driver zero what it can from one offset to another. Its refusals are ignored.
    fn zero_granules(&mut self, alloc: Global, start: u64, end: u64)
        requires writable { (D.view (driver self.old)).abilities.is_writable ≡ true }
        requires spent { (D.view (driver self.old)).pending ≡ None }
        requires inside { end ≤ (D.view (driver self.old)).size }
        ensures zeroed { IsZeroedByDriver D.view start (end - start) self.old self.new }
        ensures performed { (parts : List (ℕ × ℕ))
            × AreGranulesBy (zero_by D.calls Call.EnsureZero) start end parts self.old self.new }
    {
        let mut done = start;
        while done < end {
            match self.zero_part(alloc, ZeroCall::EnsureZero, done, end - done) {
                Ok((from, length)) if length > 0 => done = from + length,
                _ => return,
            }
        }
    }

    /// Zeroes whole granules of a range where the driver has a granularity. A granule that begins
    /// before the range, or ends behind it, is zeroed where it maps as zero there.
    fn try_granules(&mut self, alloc: Global, offset: u64, count: u64)
        requires some { 0 < count }
        requires takes { TakesChange (D.view (driver self.old)) offset count }
        requires fits { offset + count < 2 ^ 64 }
        ensures zeroed { IsZeroedByDriver D.view offset count self.old self.new }
        ensures performed { TriesGranules (zero_by D.calls Call.EnsureZero)
            (D.view (driver self.old)).abilities.zero_granularity offset count self.old self.new }
    {
        if let Some(granule) = self.inner.zero_granularity() {
            let start = self.first_granule(granule, offset);
            let end = self.last_granule(granule, offset + count);
            self.zero_granules(alloc, start, end);
        }
    }

    /// Writes the first of these zeroes at the offset, as many as one mapping holds, and answers
    /// how many these are.
    fn write_zero_piece(
        &mut self,
        alloc: Global,
        zeroes: &[u8],
        offset: u64,
    ) -> Result<usize, Error>
        requires some { 0 < length zeroes.now }
        requires zeroes { EachIndex zeroes.now (λ k. slice_index zeroes.now k ≡ 0) }
        requires takes { TakesChange (D.view (driver self.old)) offset (length zeroes.now) }
        ensures some { IfOk result (λ n. (0 < n) × (n ≤ length zeroes.now)) }
        ensures zeroed { HasZeroed D.view offset (length zeroes.now) (λ n. n)
            (data_reasons D.view self.old offset (length zeroes.now)) self.old self.new result }
        ensures performed { OnDriver
            (IsFirstBy D.calls (lent_image D.view (backing self.old)) offset zeroes.now) self.old
            self.new result }
    {
        write_first(&mut self.inner, alloc, below(&self.backing), zeroes, offset)
    }

    /// Zeroes the first bytes of a range, and answers how many these are: what maps as explicit
    /// zeroes already, or what one write of zeroes puts there. The zeroes are taken at the first
    /// place that has to be written, so where there are none nothing is written yet.
    fn zero_first(
        &mut self,
        alloc: Global,
        zeroes: &mut Vec<u8>,
        offset: u64,
        count: u64,
    ) -> Result<u64, Error>
        requires some { 0 < count }
        requires zeroes { AreNull zeroes.old.items }
        requires takes { TakesChange (D.view (driver self.old)) offset count }
        requires fits { offset + count < 2 ^ 64 }
        ensures some { IfOk result (λ n. (0 < n) × (n ≤ count)) }
        ensures zeroes { AreNull zeroes.new.items }
        ensures lazy { length zeroes.new.items ≡ 0
            → (length zeroes.old.items ≡ 0) × (self.new ≡ self.old) }
        ensures zeroed { HasZeroed D.view offset count (λ n. n)
            (data_reasons D.view self.old offset count) self.old self.new result }
        ensures performed { IsZeroPiece D.view D.calls offset count self.old self.new result
            ⊎ ((length zeroes.old.items ≡ 0)
            × LacksZeroes D.view offset count self.old self.new result) }
    {
        let (mapping, length) = self.get_mapping(offset, count)?;
        if mapping.is_explicit_zero() {
            return Ok(length);
        }
        take_zeroes(alloc, zeroes, count)?;
        let piece = piece_of(length, count, zeroes.len() as u64);
        let written = self.write_zero_piece(alloc, &zeroes[..piece as usize], offset)?;
        Ok(written as u64)
    }

    /// Zeroes a range by writes of zeroes, but for what is an explicit zero already. A range that
    /// is explicit zeroes takes no memory.
    fn zero_as_data(&mut self, alloc: Global, offset: u64, count: u64) -> Result<(), Error>
        requires some { 0 < count }
        requires takes { TakesChange (D.view (driver self.old)) offset count }
        requires fits { offset + count < 2 ^ 64 }
        ensures zeroed { HasZeroed D.view offset count (λ u. count)
            (data_reasons D.view self.old offset count) self.old self.new result }
        ensures performed { IsZeroedAsData D.view D.calls offset count self.old self.new result }
    {
        let mut zeroes = Vec::new(alloc);
        let mut done: u64 = 0;
        while done < count {
            done += self.zero_first(alloc, &mut zeroes, offset + done, count - done)?;
        }
        Ok(())
    }

    /// Zeroes what the driver's own call left of a range: by whole granules as far as that goes,
    /// then as data.
    fn fill_zeroes(&mut self, alloc: Global, offset: u64, count: u64) -> Result<(), Error>
        requires takes { TakesChange (D.view (driver self.old)) offset count }
        requires fits { offset + count < 2 ^ 64 }
        ensures empty { count ≡ 0 → IsOk result × (self.new ≡ self.old) }
        ensures zeroed { HasZeroed D.view offset count (λ u. count)
            (data_reasons D.view self.old offset count)
            self.old self.new result }
        ensures performed { IsGapZeroed D.view D.calls offset count self.old self.new result }
    {
        if count == 0 {
            return Ok(());
        }
        self.try_granules(alloc, offset, count);
        self.zero_as_data(alloc, offset, count)
    }

    /// Zeroes the first bytes of a range, and answers how many these are: the part that the
    /// driver's own call zeroes, with what stands before it, or all where that call does nothing.
    fn zero_next(
        &mut self,
        alloc: Global,
        call: ZeroCall,
        offset: u64,
        count: u64,
    ) -> Result<u64, Error>
        requires some { 0 < count }
        requires takes { TakesChange (D.view (driver self.old)) offset count }
        requires fits { offset + count < 2 ^ 64 }
        ensures some { IfOk result (λ n. (0 < n) × (n ≤ count)) }
        ensures whole { (D.view (driver self.old)).limits.whole (operation_of call) offset count
            → IfOk result (λ n. n ≡ count) }
        ensures zeroed { HasZeroed D.view offset count (λ n. n)
            (zero_reasons D.view self.old (operation_of call) offset count) self.old self.new
            result }
        ensures performed { IsNextZeroed D.view D.calls call offset count self.old self.new result }
    {
        let (start, length) = self.zero_part(alloc, call, offset, count)?;
        if length == 0 {
            self.fill_zeroes(alloc, offset, count)?;
            return Ok(count);
        }
        self.fill_zeroes(alloc, offset, start - offset)?;
        Ok(start - offset + length)
    }

    /// Zeroes a range, by the driver's own call as far as it goes, and by the soft path else.
    pub(crate) fn zero_range(
        &mut self,
        alloc: Global,
        call: ZeroCall,
        offset: u64,
        count: u64,
    ) -> Result<(), Error>
        requires takes { TakesChange (D.view (driver self.old)) offset count }
        requires fits { offset + count < 2 ^ 64 }
        ensures empty { count ≡ 0 → IsOk result × (self.new ≡ self.old) }
        ensures zeroed { HasZeroed D.view offset count (λ u. count)
            (zero_reasons D.view self.old (operation_of call) offset count) self.old self.new
            result }
        ensures performed { AllZeroedBy D.view D.calls call offset count self.old self.new result }
    {
        let mut done: u64 = 0;
        while done < count {
            done += self.zero_next(alloc, call, offset + done, count - done)?;
        }
        Ok(())
    }

    /// The tests of a zero write or discard, in their order: the driver is writable, the range's
    /// end is within `u64`, and the range lies in the disk. They are the same for all of these
    /// calls.
    pub(crate) fn test_end(&self, offset: u64, count: u64) -> Result<(), Error>
        ensures { IsTested (D.view (driver self.now)) Zero offset count result }
    {
        if !self.inner.writable() {
            return Err(Error::ReadOnly);
        }
        if count > u64::MAX - offset {
            return Err(Error::RangeOverflow);
        }
        if offset + count > self.inner.size() {
            return Err(Error::BeyondDisk);
        }
        Ok(())
    }

    /// Zeroes a range. The driver zeroes what it can by itself; what it leaves is zeroed in whole
    /// granules where the driver has a granularity and the rest of a granule is zero already, and
    /// else written as zeroes, but for what is an explicit zero. Nothing below the top layer
    /// changes.
    ///
    /// [`Error::ReadOnly`] where the driver isn't writable, then [`Error::RangeOverflow`] where the
    /// range's end passes `u64::MAX`, then [`Error::BeyondDisk`] where it passes the disk's size,
    /// also for no bytes; nothing changed. [`Error::Unsupported`] where the driver offers no zero
    /// writes. Any refusal leaves each byte of the range as it was or zero, and all others as they
    /// were. An empty range that passes these tests makes no call of the driver, and isn't refused.
    ///
    /// No prepared mapping may wait, which [`has_prepared`](FormatDriverInstance::has_prepared) of
    /// the driver tells.
    pub fn write_zeroes(&mut self, alloc: Global, offset: u64, count: u64) -> Result<(), Error>
        requires { (D.view (driver self.old)).pending ≡ None }
        ensures disk { IsTrue (keeps_data D.view self.old) → ZeroesDisk (disk D.view self.old) offset
            count result (disk D.view self.new) }
        ensures zeroed { IsZeroWrite D.view Zero self.old self.new offset count result }
        ensures performed { IsZeroedBy D.view D.calls Call.EnsureZero offset count self.old
            self.new result }
    {
        self.test_end(offset, count)?;
        self.zero_range(alloc, ZeroCall::EnsureZero, offset, count)
    }

    /// Gives up the data of a range, which reads as zeroes afterwards. What the driver doesn't
    /// discard by itself is zeroed as [`write_zeroes`](Self::write_zeroes) does. The refusals, and
    /// what they leave, are the same too.
    ///
    /// No prepared mapping may wait, which [`has_prepared`](FormatDriverInstance::has_prepared) of
    /// the driver tells.
    pub fn discard_to_zero(&mut self, alloc: Global, offset: u64, count: u64) -> Result<(), Error>
        requires { (D.view (driver self.old)).pending ≡ None }
        ensures disk { IsTrue (keeps_data D.view self.old) → ZeroesDisk (disk D.view self.old) offset
            count result (disk D.view self.new) }
        ensures zeroed { IsZeroWrite D.view DiscardToZero self.old self.new offset count result }
        ensures performed { IsZeroedBy D.view D.calls Call.DiscardToZero offset count self.old
            self.new result }
    {
        self.test_end(offset, count)?;
        self.zero_range(alloc, ZeroCall::DiscardToZero, offset, count)
    }
}

/// How much of a range is written at once: what one mapping is for, or, at an end, what was asked
/// for, up to so many zeroes.
fn piece_of(mapped: u64, count: u64, most: u64) -> u64
    requires some { 0 < count }
    requires stock { 0 < most }
    requires within { mapped ≤ count }
    ensures some { 0 < result }
    ensures within { result ≤ count }
    ensures most { result ≤ most }
{
    if mapped == 0 {
        return count.min(most);
    }
    mapped.min(most)
}

/// Takes zeroes to write from, at most one piece, where none are taken yet. Refused, it is
/// [`Error::Memory`], and there are none.
fn take_zeroes(alloc: Global, zeroes: &mut Vec<u8>, count: u64) -> Result<(), Error>
    requires some { 0 < count }
    requires zeroes { AreNull zeroes.old.items }
    ensures zeroes { AreNull zeroes.new.items }
    ensures some { OnOk result (0 < length zeroes.new.items) }
    ensures refused { IfErr result
        (λ e. (e ≡ Error.Memory) × (length zeroes.old.items ≡ 0)) }
{
    if zeroes.is_empty() {
        *zeroes = zero_buffer(alloc, count.min(ZERO_PIECE) as usize)?;
    }
    Ok(())
}
