// SPDX-License-Identifier: MIT
//! Which parts of a space of bytes are stored.
ghost use Rattle.std.specs.Prelude.{◌≡◌, ◌+◌, ◌%◌, ◌^◌, ◌<◌, ◌≤◌};
ghost use Rattle.std.specs.Int.{next_multiple_of};
ghost use Rattle.imago_qcow2_new.specs.Extents.{AreExtents, AreExtents-prop};

use crate::extent::{Extent, Part};
use std::alloc::{AllocError, Global};

/// The least multiple of a unit that isn't below the offset.
pub(crate) fn rounded_up(offset: u64, unit: u64) -> u64
    requires positive { 0 < unit }
    requires small { offset + unit < 2 ^ 64 }
    ensures value { result ≡ next_multiple_of offset unit }
    ensures whole { result % unit ≡ 0 }
    ensures small { result < offset + unit }
    ensures behind { offset ≤ result }
{
    offset.next_multiple_of(unit)
}

/// Which parts of a space of bytes are stored, in whole units, one behind the other.
#[derive(Drop)]
pub struct Extents {
    /// The length of a unit in bytes.
    pub(crate) unit: u64,
    /// In order.
    pub(crate) extents: Vec<Extent>,
    /// Where the last one ends.
    pub(crate) end: u64,
    /// How many bytes are stored in all.
    pub(crate) stored: u64,
    ghost ordered: { AreExtents unit end stored 0 0 extents.items } by { AreExtents-prop unit end stored 0 0 extents.items },
    ghost small: { end < 2 ^ 64 },
}

impl Extents {
    ghost use Rattle.std.specs.Prelude.{ℕ, ◌-◌, [], length, drop, slice_index_or, max, true, false};
    ghost use Rattle.std.specs.Prelude.{OnOk};
    ghost use Rattle.imago_qcow2_new.specs.declared.extent.Extent.{Extent};
    ghost use Rattle.imago_qcow2_new.specs.Extents.{spot, IsPart};
    ghost use Rattle.imago_qcow2_new.specs.Space.{stores, StoresMore};

    /// No part, of a space of such units.
    pub fn new(alloc: Global, unit: u64) -> Self
        ensures unit { result.unit ≡ unit }
        ensures none { result.extents.items ≡ [] }
        ensures end { result.end ≡ 0 }
    {
        Extents {
            unit,
            extents: Vec::new(alloc),
            end: 0,
            stored: 0,
        }
    }

    /// Makes all units stored that bytes from the one offset up to the other are of, as far as they
    /// are behind what is stored.
    pub fn cover(&mut self, from: u64, to: u64) -> Result<(), AllocError>
        requires positive { 0 < self.old.unit }
        requires small { to + self.old.unit < 2 ^ 64 }
        ensures same { self.new.unit ≡ self.old.unit }
        ensures more { OnOk result (StoresMore self.old self.new
            (max self.old.end (from - from % self.old.unit)) (next_multiple_of to self.old.unit)) }
        ensures end { OnOk result
            (self.new.end ≤ max self.old.end (next_multiple_of to self.old.unit)) }
    {
        let start = self.end.max(from - from % self.unit);
        let end = rounded_up(to, self.unit);
        if end <= start {
            return Ok(());
        }
        let known = self.extents.len();
        if known > 0 && self.end == start {
            self.lengthen(known - 1, end - start);
            return Ok(());
        }
        self.add(start, end - start)
    }

    /// Makes the last extent longer.
    fn lengthen(&mut self, last: usize, count: u64)
        requires last { last + 1 ≡ length self.old.extents.items }
        requires small { self.old.end + count < 2 ^ 64 }
        requires whole { count % self.old.unit ≡ 0 }
        ensures same { self.new.unit ≡ self.old.unit }
        ensures more { StoresMore self.old self.new self.old.end (self.old.end + count) }
        ensures end { self.new.end ≡ self.old.end + count }
    {
        self.extents[last].count += count;
        self.end += count;
        self.stored += count;
    }

    /// Makes a part stored that is behind all others.
    fn add(&mut self, start: u64, count: u64) -> Result<(), AllocError>
        requires behind { self.old.end ≤ start }
        requires some { 0 < count }
        requires small { start + count < 2 ^ 64 }
        requires start_whole { start % self.old.unit ≡ 0 }
        requires whole { count % self.old.unit ≡ 0 }
        ensures same { self.new.unit ≡ self.old.unit }
        ensures more { OnOk result (StoresMore self.old self.new start (start + count)) }
        ensures end { OnOk result (self.new.end ≡ start + count) }
    {
        let extent = Extent {
            start,
            count,
            before: self.stored,
        };
        self.extents.push(extent)?;
        self.end = start + count;
        self.stored += count;
        Ok(())
    }

    /// How many of the extents end at that offset or before.
    fn passed(&self, offset: u64) -> usize
        ensures low { (q : ℕ) → «offset» ≤ q
            → spot self.now.stored (drop result self.now.extents.items) q
            ≡ spot self.now.stored self.now.extents.items q }
        ensures high { (extent : Extent) → result < length self.now.extents.items
            → «offset» < (slice_index_or self.now.extents.items result extent).start
            + (slice_index_or self.now.extents.items result extent).count }
        ensures within { result ≤ length self.now.extents.items }
    {
        let mut low = 0;
        let mut high = self.extents.len();
        while low < high {
            let middle = low + (high - low) / 2;
            let extent = &self.extents[middle];
            if extent.start + extent.count <= offset {
                low = middle + 1;
            } else {
                high = middle;
            }
        }
        low
    }

    /// What stands from an offset on. What isn't stored ends where something is, or nothing is behind
    /// it.
    pub fn part_at(&self, offset: u64) -> Part
        ensures next { result.is_stored ≡ false → «offset» + result.count + 1 < 2 ^ 64
            → (stores self.now («offset» + result.count) ≡ true)
            × ((«offset» + result.count) % self.now.unit ≡ 0) }
        ensures part { IsPart self.now.stored self.now.extents.items «offset» result }
        ensures spot { spot self.now.stored self.now.extents.items «offset»
            ≡ record { stored = result.is_stored; before = result.before } }
    {
        let index = self.passed(offset);
        if index == self.extents.len() {
            return Part {
                is_stored: false,
                before: self.stored,
                count: u64::MAX - offset,
            };
        }
        let extent = self.extents[index];
        if offset < extent.start {
            return Part {
                is_stored: false,
                before: extent.before,
                count: extent.start - offset,
            };
        }
        let rest = offset - extent.start;
        Part {
            is_stored: true,
            before: extent.before + rest,
            count: extent.count - rest,
        }
    }
}
