// SPDX-License-Identifier: MIT
//! The table of a copy-on-write disk: what each guest block is, and which data blocks are free.
ghost use Rattle.std.specs.Prelude.{◌≡◌, ◌≢◌, ℕ, ◌+◌, ◌-◌, ◌^◌, ◌<◌, ◌≤◌, ◌++◌, ◌∷◌, [], length};
ghost use Rattle.std.specs.Prelude.{take, replicate, max, Some, None, IfOk, IfErr, OnOk, OnErr};
ghost use Rattle.std.specs.Prelude.{IsOk, IsSome, MatchOption, slice_get, slice_set};
ghost use Rattle.imago_cow.specs.Free.{free_count, free_room};
ghost use Rattle.imago_cow.specs.Entries.{listed};
ghost use Rattle.imago_cow.specs.Table.{IsEachOnce, IsLowestUnused, named_count, held_count};
ghost use Rattle.imago_cow.specs.Table.{names_any, without_data, is_absent};

use crate::entries::Entries;
use crate::free::FreeBlocks;
use crate::room::make_room;
use imago_storage::error::Error;
use std::alloc::Global;

/// What a guest block is.
#[derive(Clone, Copy, Debug, PartialEq, Eq)]
pub enum GuestBlock {
    /// It leads to the layer below.
    Absent,
    /// It is an explicit zero.
    Zero,
    /// It is in the data block of that number.
    Data(u64),
}

/// What a guest block is that is in no data block.
#[derive(Clone, Copy)]
pub enum WithoutData {
    /// It leads to the layer below.
    Absent,
    /// It is an explicit zero.
    Zero,
}

/// Whether a guest block of that kind leads to the layer below.
pub(crate) fn leads_below(kind: WithoutData) -> bool
    ensures { result ≡ is_absent kind }
{
    match kind {
        WithoutData::Absent => true,
        WithoutData::Zero => false,
    }
}

/// What a guest block is that isn't data.
pub(crate) fn kind_of(entry: GuestBlock) -> WithoutData
    ensures { ((j : ℕ) → entry ≢ GuestBlock.Data j) → entry ≡ without_data result }
{
    match entry {
        GuestBlock::Absent => WithoutData::Absent,
        GuestBlock::Zero | GuestBlock::Data(_) => WithoutData::Zero,
    }
}

/// One entry for each guest block, and the data blocks by their numbers from 0 on.
///
/// Each data block is named by exactly one entry, or held, or free. At most one is held: it was
/// taken, and no entry names it yet. Taking one costs a logarithm of the number of free ones, and
/// so does each that is given back; neither walks over the entries. Nothing that gives one back
/// takes memory: the room is made when a new one is added, 16 bytes for each data block.
#[derive(Drop)]
pub struct Table {
    entries: Entries,
    free: FreeBlocks,
    /// For each data block, the guest block that was put in it last: where that is in it still, no
    /// walk finds it.
    last_owners: Vec<usize>,
    count: u64,
    used: u64,
    held: Option<u64>,
    ghost each_once: { IsEachOnce free (listed entries) held count },
    ghost all_counted: { free_count free + used + held_count held ≡ count },
    ghost used_counted: { used ≡ named_count (listed entries) },
    ghost has_room: { count ≤ free_room free },
}

impl Table {
    ghost use Rattle.imago_cow.specs.TableView.{entries_of, held_of, count_of, room_of, KeepsRoom};
    ghost use Rattle.imago_cow.specs.TableView.{IsUnchanged};

    /// A table of absent guest blocks, without data blocks. [`Error::Memory`] is no room for the
    /// entries.
    pub fn new(alloc: Global, guest_blocks: usize) -> Result<Table, Error>
        ensures entries { IfOk result
            (λ t. entries_of t ≡ replicate guest_blocks GuestBlock.Absent) }
        ensures held { IfOk result (λ t. held_of t ≡ None) }
        ensures count { IfOk result (λ t. count_of t ≡ 0) }
        ensures memory { IfErr result (λ e. e ≡ Error.Memory) }
    {
        Ok(Table {
            entries: Entries::new(alloc, guest_blocks)?,
            free: FreeBlocks::new(alloc),
            last_owners: Vec::new(alloc),
            count: 0,
            used: 0,
            held: None,
        })
    }

    /// The number of guest blocks.
    pub fn len(&self) -> usize
        ensures { result ≡ length (entries_of self.now) }
    {
        self.entries.len()
    }

    /// The entry of that guest block.
    pub fn get(&self, index: usize) -> GuestBlock
        requires { index < length (entries_of self.now) }
        ensures { slice_get (entries_of self.now) index ≡ Some result }
    {
        self.entries.get(index)
    }

    /// The guest block that is in that data block. It is found at once; only where no guest block
    /// is in it, all entries are looked at.
    pub fn owner(&self, number: u64) -> Option<usize>
        ensures { MatchOption result
            ((i : ℕ) → slice_get (entries_of self.now) i ≢ Some (GuestBlock.Data number))
            (λ i. slice_get (entries_of self.now) i ≡ Some (GuestBlock.Data number)) }
    {
        if let Some(index) = self.last_owners.get(number as usize) {
            if *index < self.entries.len() && self.entries.get(*index) == GuestBlock::Data(number) {
                return Some(*index);
            }
        }
        for index in 0..self.entries.len() {
            if self.entries.get(index) == GuestBlock::Data(number) {
                return Some(index);
            }
        }
        None
    }

    /// The number of data blocks, free ones too.
    pub fn block_count(&self) -> u64
        ensures { result ≡ count_of self.now }
    {
        self.count
    }

    /// The number of data blocks that entries name.
    pub fn used(&self) -> u64
        ensures { result ≡ named_count (entries_of self.now) }
    {
        self.used
    }

    /// The number of data blocks that entries name, and the one that is held.
    pub fn taken(&self) -> u64
        ensures { result ≡ named_count (entries_of self.now) + held_count (held_of self.now) }
    {
        match self.held {
            Some(_) => self.used + 1,
            None => self.used,
        }
    }

    /// The data block that is held.
    pub fn held(&self) -> Option<u64>
        ensures { result ≡ held_of self.now }
    {
        self.held
    }

    /// The data block that [`Table::take`] would give: the lowest free one, or else a new one
    /// behind all others.
    pub fn next(&self) -> u64
        ensures lowest { IsLowestUnused (entries_of self.now) (held_of self.now) (count_of self.now)
            result }
        ensures none_free { result ≡ count_of self.now
            → count_of self.now ≡ named_count (entries_of self.now)
            + held_count (held_of self.now) }
    {
        match self.free.lowest() {
            Some(block) => block,
            None => self.count,
        }
    }

    /// Takes the lowest free data block, or a new one where none is free, and holds it.
    /// [`Error::Memory`] is no room for the record of a new one; it leaves all as it was.
    pub fn take(&mut self) -> Result<u64, Error>
        requires { held_of self.old ≡ None }
        ensures lowest { IfOk result
            (λ j. IsLowestUnused (entries_of self.old) None (count_of self.old) j) }
        ensures held { IfOk result (λ j. held_of self.new ≡ Some j) }
        ensures count { IfOk result (λ j. count_of self.new ≡ max (count_of self.old) (j + 1)) }
        ensures added { count_of self.new ≤ max (count_of self.old)
            (named_count (entries_of self.old) + 1) }
        ensures entries { entries_of self.new ≡ entries_of self.old }
        ensures room { KeepsRoom self.old self.new }
        ensures unchanged { OnErr result (IsUnchanged self.old self.new) }
        ensures none_free { OnErr result
            (IsLowestUnused (entries_of self.old) None (count_of self.old) (count_of self.old)) }
        ensures memory { IfErr result (λ e. e ≡ Error.Memory) }
    {
        if let Some(block) = self.free.take_lowest() {
            self.held = Some(block);
            return Ok(block);
        }
        let block = self.count;
        let Some(count) = block.checked_add(1) else {
            return Err(Error::Memory);
        };
        self.free.reserve(count as usize)?;
        make_room(&mut self.last_owners, 1)?;
        self.last_owners.push_reserved(0);
        self.count = count;
        self.held = Some(block);
        Ok(block)
    }

    /// Makes the held data block free. It takes no memory.
    pub fn release(&mut self)
        ensures held { held_of self.new ≡ None }
        ensures entries { entries_of self.new ≡ entries_of self.old }
        ensures count { count_of self.new ≡ count_of self.old }
        ensures room { KeepsRoom self.old self.new }
    {
        if let Some(block) = self.held {
            self.held = None;
            self.free.put(block);
        }
    }

    /// Makes an entry name the held data block. It takes no memory.
    pub fn enter(&mut self, index: usize)
        requires block { IsSome (held_of self.old) }
        requires within { index < length (entries_of self.old) }
        requires no_data { (j : ℕ) → slice_get (entries_of self.old) index
            ≢ Some (GuestBlock.Data j) }
        ensures entries { (j : ℕ)
            → held_of self.old ≡ Some j
            → entries_of self.new ≡ slice_set (entries_of self.old) index (GuestBlock.Data j) }
        ensures held { held_of self.new ≡ None }
        ensures count { count_of self.new ≡ count_of self.old }
        ensures room { KeepsRoom self.old self.new }
    {
        if let Some(block) = self.held {
            self.held = None;
            note(&mut self.last_owners, block, index);
            self.entries.enter(index, block);
            self.used += 1;
        }
    }

    /// Makes a guest block an explicit zero, or absent, and its data block free. It takes no
    /// memory.
    pub fn clear(&mut self, index: usize, kind: WithoutData)
        requires { index < length (entries_of self.old) }
        ensures entries { entries_of self.new ≡ slice_set (entries_of self.old) index
            (without_data kind) }
        ensures held { held_of self.new ≡ held_of self.old }
        ensures count { count_of self.new ≡ count_of self.old }
        ensures room { KeepsRoom self.old self.new }
    {
        let old = self.entries.get(index);
        self.entries.clear(index, kind);
        if let GuestBlock::Data(block) = old {
            self.used -= 1;
            self.free.put(block);
        }
    }

    /// Makes room for so many more entries. [`Error::Memory`] is no room.
    pub fn reserve(&mut self, additional: usize) -> Result<(), Error>
        ensures entries { entries_of self.new ≡ entries_of self.old }
        ensures held { held_of self.new ≡ held_of self.old }
        ensures count { count_of self.new ≡ count_of self.old }
        ensures keeps { KeepsRoom self.old self.new }
        ensures room { OnOk result (length (entries_of self.old) + additional ≤ room_of self.new) }
        ensures succeeds { length (entries_of self.old) + additional ≤ room_of self.old
            → IsOk result }
        ensures memory { IfErr result (λ e. e ≡ Error.Memory) }
    {
        self.entries.reserve(additional)
    }

    /// Adds so many explicit zeroes, or absent guest blocks. [`Error::Memory`] is no room for their
    /// entries; it leaves all as it was.
    pub fn grow(&mut self, additional: usize, kind: WithoutData) -> Result<(), Error>
        ensures entries { OnOk result
            (entries_of self.new ≡ entries_of self.old ++ replicate additional
            (without_data kind)) }
        ensures unchanged { OnErr result (entries_of self.new ≡ entries_of self.old) }
        ensures held { held_of self.new ≡ held_of self.old }
        ensures count { count_of self.new ≡ count_of self.old }
        ensures room { KeepsRoom self.old self.new }
        ensures memory { IfErr result (λ e. e ≡ Error.Memory) }
    {
        self.entries.grow(additional, kind)
    }

    /// Adds a guest block in the held data block, into room that [`Table::reserve`] made. It takes
    /// no memory.
    pub fn push_held(&mut self)
        requires block { IsSome (held_of self.old) }
        requires reserved { length (entries_of self.old) < room_of self.old }
        ensures entries { (j : ℕ)
            → held_of self.old ≡ Some j
            → entries_of self.new ≡ entries_of self.old ++ GuestBlock.Data j ∷ [] }
        ensures held { held_of self.new ≡ None }
        ensures count { count_of self.new ≡ count_of self.old }
        ensures room { KeepsRoom self.old self.new }
    {
        if let Some(block) = self.held {
            self.held = None;
            note(&mut self.last_owners, block, self.entries.len());
            self.entries.push(block);
            self.used += 1;
        }
    }

    /// Drops the guest blocks from that one on, and makes their data blocks free. It takes no
    /// memory.
    pub fn truncate(&mut self, guest_blocks: usize)
        ensures entries { entries_of self.new ≡ take guest_blocks (entries_of self.old) }
        ensures held { held_of self.new ≡ held_of self.old }
        ensures count { count_of self.new ≡ count_of self.old }
        ensures room { KeepsRoom self.old self.new }
    {
        let dropped = self.entries.len().saturating_sub(guest_blocks);
        for _ in 0..dropped {
            self.drop_last();
        }
    }

    /// Drops the last guest block, and makes its data block free.
    fn drop_last(&mut self)
        ensures entries { entries_of self.new ≡ take (length (entries_of self.old) - 1)
            (entries_of self.old) }
        ensures held { held_of self.new ≡ held_of self.old }
        ensures count { count_of self.new ≡ count_of self.old }
        ensures room { KeepsRoom self.old self.new }
    {
        if let Some(GuestBlock::Data(block)) = self.entries.pop() {
            self.used -= 1;
            self.free.put(block);
        }
    }
}

/// Notes the guest block that is put in a data block.
fn note(last_owners: &mut Vec<usize>, block: u64, index: usize) {
    if let Some(owner) = last_owners.get_mut(block as usize) {
        *owner = index;
    }
}
