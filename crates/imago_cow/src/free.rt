// SPDX-License-Identifier: MIT
//! The data blocks that are free.
ghost use Rattle.std.specs.Prelude.{◌≡◌, ℕ, ◌+◌, ◌-◌, ◌^◌, ◌<◌, ◌≤◌, IfErr, OnOk, IfSome, IfNone};
ghost use Rattle.std.specs.Prelude.{MatchOption};
ghost use Rattle.std.specs.BinaryHeap.{IsHeap, IsHeap-prop, heap_items};
ghost use Rattle.std.specs.Ordering.{nat_cmp};

use imago_storage::error::Error;
use std::alloc::Global;
use std::collections::BinaryHeap;

/// The numbers of the data blocks that are free. The lowest is found at once; to take it, or to put
/// one among them, costs a logarithm of how many there are.
#[derive(Drop)]
pub struct FreeBlocks {
    /// Each number as its distance from `u64::MAX`, so that the lowest one is on top.
    distances: BinaryHeap<u64>,
    ghost ordered: { IsHeap nat_cmp (heap_items distances) } by { IsHeap-prop nat_cmp (heap_items distances) },
}

impl FreeBlocks {
    ghost use Rattle.imago_cow.specs.Free.{free_count, free_room, IsEmpty, IsLowest, IsWithout};
    ghost use Rattle.imago_cow.specs.Free.{IsSame};

    /// None, and room for none.
    pub(crate) fn new(alloc: Global) -> FreeBlocks
        ensures { IsEmpty result }
    {
        FreeBlocks {
            distances: BinaryHeap::new(alloc),
        }
    }

    /// The lowest of them.
    pub(crate) fn lowest(&self) -> Option<u64>
        ensures { MatchOption result (IsEmpty self.now) (λ j. IsLowest self.now j) }
    {
        match self.distances.peek() {
            Some(top) => Some(other_end(*top)),
            None => None,
        }
    }

    /// Takes the lowest of them out.
    pub(crate) fn take_lowest(&mut self) -> Option<u64>
        ensures lowest { MatchOption result (IsEmpty self.old) (λ j. IsLowest self.old j) }
        ensures taken { IfSome result (λ j. IsWithout j self.old self.new) }
        ensures none { IfNone result (IsSame self.old self.new) }
        ensures room { free_room self.new ≡ free_room self.old }
    {
        match self.distances.pop() {
            Some(top) => Some(other_end(top)),
            None => None,
        }
    }

    /// Puts one among them, into room that [`FreeBlocks::reserve`] made.
    pub(crate) fn put(&mut self, block: u64)
        requires { free_count self.old < free_room self.old }
        ensures put { IsWithout block self.new self.old }
        ensures room { free_room self.old ≤ free_room self.new }
    {
        let _ = self.distances.push(other_end(block));
    }

    /// Makes room for so many more: as much again as there was where memory allows, else for
    /// exactly those. [`Error::Memory`] is no room for those either.
    pub(crate) fn reserve(&mut self, additional: usize) -> Result<(), Error>
        ensures same { IsSame self.old self.new }
        ensures keeps { free_room self.old ≤ free_room self.new }
        ensures room { OnOk result (free_count self.new + additional ≤ free_room self.new) }
        ensures memory { IfErr result (λ e. e ≡ Error.Memory) }
    {
        if self.distances.reserve(additional).is_ok() {
            return Ok(());
        }
        self.distances.reserve_exact(additional)?;
        Ok(())
    }
}

/// The distance of a number from `u64::MAX`, and the number of a distance.
fn other_end(block: u64) -> u64
    ensures { block + result ≡ 2 ^ 64 - 1 }
{
    u64::MAX - block
}
