// SPDX-License-Identifier: MIT
//! What guest blocks are, as it lies in memory.
ghost use Rattle.std.specs.Prelude.{◌≡◌, ℕ, ◌+◌, ◌-◌, ◌^◌, ◌<◌, ◌≤◌, ◌++◌, ◌∷◌, [], length, take};
ghost use Rattle.std.specs.Prelude.{replicate, Some, IfOk, IfErr, OnOk, OnErr, IsOk, slice_get};
ghost use Rattle.std.specs.Prelude.{slice_set};
ghost use Rattle.std.specs.Option.{option_to_list};
ghost use Rattle.imago_cow.specs.Table.{without_data};
ghost use Rattle.imago_cow.specs.Packed.{unpacked};

use crate::room::make_room;
use crate::table::{GuestBlock, WithoutData};
use imago_storage::error::Error;
use std::alloc::Global;

/// One entry for each guest block.
///
/// Each is one number, so that a line of the processor's cache has eight: a walk down a long chain
/// looks at one entry of each layer, and waits for memory, not for what it computes.
#[derive(Drop)]
pub struct Entries {
    words: Vec<u64>,
}

impl Entries {
    ghost use Rattle.imago_cow.specs.Entries.{listed, listed_room};

    /// So many absent guest blocks. [`Error::Memory`] is no room for them.
    #[tactic(auto, unfolding(crate::specs::Entries::listed))]
    pub(crate) fn new(alloc: Global, count: usize) -> Result<Entries, Error>
        ensures entries { IfOk result (λ e. listed e ≡ replicate count GuestBlock.Absent) }
        ensures memory { IfErr result (λ e. e ≡ Error.Memory) }
    {
        let words = vec![in alloc; empty_word(WithoutData::Absent); count]?;
        Ok(Entries { words })
    }

    /// How many there are.
    #[tactic(auto, unfolding(crate::specs::Entries::listed))]
    pub(crate) fn len(&self) -> usize
        ensures { result ≡ length (listed self.now) }
    {
        self.words.len()
    }

    /// The entry of that guest block.
    #[tactic(auto, unfolding(crate::specs::Entries::listed))]
    pub(crate) fn get(&self, index: usize) -> GuestBlock
        requires { index < length (listed self.now) }
        ensures { slice_get (listed self.now) index ≡ Some result }
    {
        entry_of(self.words[index])
    }

    /// Makes a guest block an explicit zero, or absent.
    #[tactic(auto, unfolding(crate::specs::Entries::listed, crate::specs::Entries::listed_room))]
    pub(crate) fn clear(&mut self, index: usize, kind: WithoutData)
        requires { index < length (listed self.old) }
        ensures entries { listed self.new ≡ slice_set (listed self.old) index (without_data kind) }
        ensures room { listed_room self.new ≡ listed_room self.old }
    {
        self.words[index] = empty_word(kind);
    }

    /// Makes an entry name a data block.
    #[tactic(auto, unfolding(crate::specs::Entries::listed, crate::specs::Entries::listed_room))]
    pub(crate) fn enter(&mut self, index: usize, block: u64)
        requires within { index < length (listed self.old) }
        requires small { block < 2 ^ 63 }
        ensures entries { listed self.new
            ≡ slice_set (listed self.old) index (GuestBlock.Data block) }
        ensures room { listed_room self.new ≡ listed_room self.old }
    {
        self.words[index] = data_word(block);
    }

    /// Makes room for so many more. [`Error::Memory`] is no room.
    #[tactic(auto, unfolding(crate::specs::Entries::listed, crate::specs::Entries::listed_room))]
    pub(crate) fn reserve(&mut self, additional: usize) -> Result<(), Error>
        ensures entries { listed self.new ≡ listed self.old }
        ensures keeps { listed_room self.old ≤ listed_room self.new }
        ensures room { OnOk result (length (listed self.old) + additional ≤ listed_room self.new) }
        ensures succeeds { length (listed self.old) + additional ≤ listed_room self.old
            → IsOk result }
        ensures memory { IfErr result (λ e. e ≡ Error.Memory) }
    {
        make_room(&mut self.words, additional)
    }

    /// Adds so many explicit zeroes, or absent guest blocks. [`Error::Memory`] is no room for them;
    /// it leaves all as it was.
    #[tactic(auto, unfolding(crate::specs::Entries::listed, crate::specs::Entries::listed_room))]
    pub(crate) fn grow(&mut self, additional: usize, kind: WithoutData) -> Result<(), Error>
        ensures entries { OnOk result
            (listed self.new ≡ listed self.old ++ replicate additional (without_data kind)) }
        ensures unchanged { OnErr result (listed self.new ≡ listed self.old) }
        ensures room { listed_room self.old ≤ listed_room self.new }
        ensures memory { IfErr result (λ e. e ≡ Error.Memory) }
    {
        let Some(guest_blocks) = self.words.len().checked_add(additional) else {
            return Err(Error::Memory);
        };
        make_room(&mut self.words, additional)?;
        self.words.resize(guest_blocks, empty_word(kind))?;
        Ok(())
    }

    /// Adds a guest block in a data block, into room that [`Entries::reserve`] made.
    #[tactic(auto, unfolding(crate::specs::Entries::listed, crate::specs::Entries::listed_room))]
    pub(crate) fn push(&mut self, block: u64)
        requires reserved { length (listed self.old) < listed_room self.old }
        requires small { block < 2 ^ 63 }
        ensures entries { listed self.new ≡ listed self.old ++ GuestBlock.Data block ∷ [] }
        ensures room { listed_room self.new ≡ listed_room self.old }
    {
        self.words.push_reserved(data_word(block));
    }

    /// Drops the last guest block.
    #[tactic(auto, unfolding(crate::specs::Entries::listed, crate::specs::Entries::listed_room))]
    pub(crate) fn pop(&mut self) -> Option<GuestBlock>
        ensures items { listed self.old ≡ listed self.new ++ option_to_list result }
        ensures rest { listed self.new ≡ take (length (listed self.old) - 1) (listed self.old) }
        ensures room { listed_room self.new ≡ listed_room self.old }
    {
        match self.words.pop() {
            Some(word) => Some(entry_of(word)),
            None => None,
        }
    }
}

/// The entry that a number stands for.
#[tactic(auto, unfolding(crate::specs::Packed::unpacked))]
fn entry_of(word: u64) -> GuestBlock
    ensures { result ≡ unpacked word }
{
    match word {
        0 => GuestBlock::Absent,
        1 => GuestBlock::Zero,
        _ => GuestBlock::Data(word - 2),
    }
}

/// The number of a guest block without data.
#[tactic(auto, unfolding(crate::specs::Packed::unpacked))]
fn empty_word(kind: WithoutData) -> u64
    ensures { unpacked result ≡ without_data kind }
{
    match kind {
        WithoutData::Absent => 0,
        WithoutData::Zero => 1,
    }
}

/// The number of a guest block in a data block.
#[tactic(auto, unfolding(crate::specs::Packed::unpacked))]
fn data_word(block: u64) -> u64
    requires { block < 2 ^ 63 }
    ensures { unpacked result ≡ GuestBlock.Data block }
{
    block + 2
}
