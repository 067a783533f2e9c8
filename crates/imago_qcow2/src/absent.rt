// SPDX-License-Identifier: MIT
//! Runs of absent guest clusters, by which the end of one is found without a look at each entry.
ghost use Rattle.std.specs.Prelude.{◌≡◌, ℕ, ◌+◌, ◌*◌, ◌/◌, ◌%◌, ◌^◌, ◌<◌, ◌≤◌, length, IfOk, Some};
ghost use Rattle.std.specs.Prelude.{slice_get};
ghost use Rattle.imago_qcow2.specs.declared.header.Header.{Header};
ghost use Rattle.imago_qcow2.specs.Tables.{held_cluster, loaded_of};
ghost use Rattle.imago_qcow2.specs.Absent.{AreAbsentEntries, AreEnds, AreEndsOf, AreAbsent};
ghost use Rattle.imago_qcow2.specs.Absent.{IsAbsentEntry, AreTableRuns, IsAbsentIndex};

use crate::entry::{COPIED, GuestCluster};
use crate::header::Header;
use crate::number::number64;
use crate::table::{HeldTable, Tables};
use std::alloc::{AllocError, Global};
use std::sync::ArcSlice;

/// How many entries of an L2 table share a number of the index.
const GROUP: usize = 16;

/// The most bytes of an L2 table: those of the longest cluster.
const LONGEST_TABLE: usize = 1 << 21;

/// Where runs of absent guest clusters end. Both lists go from the back to the front, since an end
/// is known from what stands behind.
#[derive(Drop)]
pub(crate) struct AbsentRuns {
    /// For each L2 table, by its number, and each group of its entries, the last group first: the
    /// index of the first entry that isn't absent from the group's start on.
    ends: Vec<Vec<u32>>,
    /// For each L1 entry, the last one first: how many L2 tables from its own on are absent, or
    /// have absent entries alone.
    tables: Vec<u32>,
}

/// The index of the first entry that isn't absent from a group's start on, where `next` is that
/// from the next group's start on.
fn end_from(table: &[u8], group: usize, next: u32) -> u32
    requires within { 128 * group + 128 ≤ length table.now }
    requires most { group < 16384 }
    requires next { AreAbsentEntries table.now (16 * group + 16) next }
    ensures { AreAbsentEntries table.now (16 * group) result }
{
    let start = GROUP * group;
    for index in start..start + GROUP {
        if number64(table, 8 * index) % COPIED != 0 {
            return index as u32;
        }
    }
    next
}

/// Where the runs of absent entries of an L2 table end, for each group, the last one first.
fn ends_of(alloc: Global, table: &[u8]) -> Result<Vec<u32>, AllocError>
    ensures { IfOk result (λ ends. AreEnds table.now (length ends.items) ends.items) }
{
    let groups = table.len().min(LONGEST_TABLE) / (8 * GROUP);
    let mut ends = Vec::new(alloc);
    ends.reserve(groups)?;
    let mut next = (GROUP * groups) as u32;
    let mut group = groups;
    while group > 0 {
        group -= 1;
        next = end_from(table, group, next);
        ends.push(next)?;
    }
    Ok(ends)
}

/// The same of each L2 table.
fn all_ends(alloc: Global, l2: &[ArcSlice<u8>]) -> Result<Vec<Vec<u32>>, AllocError>
    ensures { IfOk result (λ ends. AreEndsOf l2.now ends.items) }
{
    let mut ends = Vec::new(alloc);
    ends.reserve(l2.len())?;
    for number in 0..l2.len() {
        ends.push(ends_of(alloc, &l2[number])?)?;
    }
    Ok(ends)
}

/// An end up to which all entries of an L2 table from that one on are absent, as far as the index
/// knows; it is no further than the entry where it knows none.
fn end_in(l2: &[ArcSlice<u8>], ends: &[Vec<u32>], number: usize, index: u64) -> u64
    requires { AreEndsOf l2.now ends.now }
    ensures { (e : ℕ) → index ≤ e → e < result → IsAbsentEntry (slice_get l2.now number) e }
{
    if number >= l2.len() || number >= ends.len() {
        return 0;
    }
    let of_table = &ends[number];
    let group = (index / GROUP as u64) as usize;
    if group >= of_table.len() {
        return 0;
    }
    of_table[of_table.len() - 1 - group] as u64
}

/// The same of what is held of an L1 entry, whose L2 table has so many entries.
fn held_end(tables: &Tables, ends: &[Vec<u32>], held: HeldTable, index: u64, entries: u64) -> u64
    requires { AreEndsOf tables.now.l2.items ends.now }
    ensures { (header : Header) (cluster k : ℕ)
        → cluster / 8 ≡ entries → index ≤ k % entries → k % entries < result
        → held_cluster (loaded_of header cluster tables.now) k (Some held)
        ≡ GuestCluster.Absent }
{
    match held {
        HeldTable::Absent => entries,
        HeldTable::Loaded(number) => end_in(&tables.l2, ends, number, index),
        HeldTable::Invalid => 0,
    }
}

/// How many L2 tables from one on are wholly absent, where `run` are from the next one on.
fn longer_run(tables: &Tables, ends: &[Vec<u32>], held: HeldTable, entries: u64, run: u32) -> u32
    requires ends { AreEndsOf tables.now.l2.items ends.now }
    requires positive { 0 < entries }
    ensures length { result ≤ run + 1 }
    ensures absent { (header : Header) (cluster k : ℕ)
        → cluster / 8 ≡ entries → 0 < result
        → held_cluster (loaded_of header cluster tables.now) k (Some held)
        ≡ GuestCluster.Absent }
{
    if held_end(tables, ends, held, 0, entries) < entries {
        return 0;
    }
    run.saturating_add(1)
}

/// For each L1 entry, the last one first: how many L2 tables from its own on are wholly absent.
fn table_runs(
    alloc: Global,
    tables: &Tables,
    ends: &[Vec<u32>],
    entries: u64,
) -> Result<Vec<u32>, AllocError>
    requires ends { AreEndsOf tables.now.l2.items ends.now }
    requires positive { 0 < entries }
    ensures { IfOk result (λ runs. (header : Header) (cluster : ℕ) → cluster / 8 ≡ entries
        → AreTableRuns (loaded_of header cluster tables.now) runs.items) }
{
    let mut runs = Vec::new(alloc);
    runs.reserve(tables.l1.len())?;
    let mut run = 0;
    let mut index = tables.l1.len();
    while index > 0 {
        index -= 1;
        run = longer_run(tables, ends, tables.l1[index], entries, run);
        runs.push(run)?;
    }
    Ok(runs)
}

impl AbsentRuns {
    /// The runs of an image with these tables, whose L2 tables have so many entries.
    pub(crate) fn new(alloc: Global, tables: &Tables, entries: u64) -> Result<Self, AllocError>
        requires { 0 < entries }
        ensures { IfOk result (λ r. (header : Header) (cluster : ℕ) → cluster / 8 ≡ entries
            → IsAbsentIndex (loaded_of header cluster tables.now) r) }
    {
        let ends = all_ends(alloc, &tables.l2)?;
        let runs = table_runs(alloc, tables, &ends, entries)?;
        Ok(AbsentRuns { ends, tables: runs })
    }

    /// How many L2 tables behind that of an L1 entry are wholly absent, one after the other.
    fn tables_behind(&self, tables: &Tables, table: usize) -> u64
        ensures small { result < 2 ^ 32 }
        ensures absent { (header : Header) (cluster : ℕ)
            → AreTableRuns (loaded_of header cluster tables.now) self.now.tables.items
            → (j k : ℕ) → j < result
            → held_cluster (loaded_of header cluster tables.now) k
            (slice_get tables.now.l1.items (table + 1 + j)) ≡ GuestCluster.Absent }
    {
        let count = tables.l1.len();
        if table >= count || count - table < 2 {
            return 0;
        }
        let place = count - table - 2;
        if place >= self.tables.len() {
            return 0;
        }
        self.tables[place] as u64
    }

    /// How many guest clusters are known to be absent, from that entry of an L2 table on.
    pub(crate) fn count_from(&self, tables: &Tables, table: usize, index: u64, entries: u64) -> u64
        requires ends { AreEndsOf tables.now.l2.items self.now.ends.items }
        requires table { table < length tables.now.l1.items }
        requires index { index < entries }
        requires most { entries ≤ 262144 }
        ensures { (header : Header) (cluster : ℕ) → cluster / 8 ≡ entries
            → IsAbsentIndex (loaded_of header cluster tables.now) self.now
            → AreAbsent (loaded_of header cluster tables.now) (table * entries + index) result }
    {
        let end = held_end(tables, &self.ends, tables.l1[table], index, entries);
        if end < entries {
            return end.saturating_sub(index);
        }
        entries - index + self.tables_behind(tables, table) * entries
    }
}
