// SPDX-License-Identifier: MIT
//! What is counted while a file is looked at.
ghost use Rattle.std.specs.Prelude.{◌≡◌, ℕ, List, ◌+◌, ◌<◌, ◌≤◌, ◌*◌, length, slice_index};
ghost use Rattle.std.specs.Prelude.{replicate, IfOk, OnOk};
ghost use Rattle.imago_qcow2_check.specs.Sums.{one_if};
ghost use Rattle.imago_qcow2_check.specs.Clusters.{use_of, past_fault};
ghost use Rattle.imago_qcow2_check.specs.Tallies.{setting_of, AddsUses, Adds};
ghost use Rattle.imago_qcow2_check.specs.TallyParts.{between};

use crate::fault::{CheckError, Fault, Table};
use crate::shape::Shape;
use std::alloc::Global;

/// What was counted so far.
#[derive(Drop)]
pub(crate) struct Tally {
    /// How often each cluster of the file is used.
    pub(crate) uses: Vec<u32>,
    /// How many faults were found, but leaks.
    pub(crate) corruptions: u64,
    /// How many leaks were found.
    pub(crate) leaks: u64,
    /// The first faults.
    pub(crate) faults: Vec<Fault>,
    /// How many more of them are kept.
    pub(crate) room: usize,
}

/// Counts a use of each cluster from one to another.
fn count_uses(uses: &mut [u32], first: usize, last: usize) -> Result<(), CheckError>
    requires order { first ≤ last }
    requires inside { last < length uses.old }
    ensures { OnOk result (AddsUses uses.old uses.new (between first (last + 1))) }
{
    for n in first..last + 1 {
        let Some(more) = uses[n].checked_add(1) else {
            return Err(CheckError::TooManyUses);
        };
        uses[n] = more;
    }
    Ok(())
}

impl Tally {
    /// Nothing was counted, of so many clusters. So many faults are kept.
    pub(crate) fn new(alloc: Global, clusters: usize, room: usize) -> Result<Tally, CheckError>
        ensures uses { IfOk result (λ t. t.uses.items ≡ replicate clusters 0) }
        ensures corruptions { IfOk result (λ t. t.corruptions ≡ 0) }
        ensures leaks { IfOk result (λ t. t.leaks ≡ 0) }
    {
        Ok(Tally {
            uses: vec![in alloc; 0u32; clusters]?,
            corruptions: 0,
            leaks: 0,
            faults: Vec::new(alloc),
            room,
        })
    }

    /// How often the cluster of that number is used.
    pub(crate) fn uses_of(&self, index: usize) -> u32
        requires { index < length self.now.uses.items }
        ensures { result ≡ slice_index self.now.uses.items index }
    {
        self.uses[index]
    }

    /// Keeps a fault, if there is room, and unless it was kept before.
    fn keep(&mut self, fault: Fault) -> Result<(), CheckError>
        ensures uses { OnOk result (self.new.uses.items ≡ self.old.uses.items) }
        ensures corruptions { OnOk result (self.new.corruptions ≡ self.old.corruptions) }
        ensures leaks { OnOk result (self.new.leaks ≡ self.old.leaks) }
    {
        if self.room > 0 && !self.faults.contains(&fault) {
            self.faults.push(fault)?;
            self.room -= 1;
        }
        Ok(())
    }

    /// Counts a fault, if it is one, as often as it is found, and keeps it once.
    pub(crate) fn tell(&mut self, is_fault: bool, fault: Fault) -> Result<(), CheckError>
        ensures adds { OnOk result (Adds self.old self.new (λ n. 0) (one_if is_fault)) }
        ensures same { OnOk result (self.new.uses.items ≡ self.old.uses.items) }
    {
        if !is_fault {
            return Ok(());
        }
        let Some(corruptions) = self.corruptions.checked_add(1) else {
            return Err(CheckError::TooLarge);
        };
        self.corruptions = corruptions;
        self.keep(fault)
    }

    /// Counts the leak of a cluster, if it is one.
    pub(crate) fn tell_leak(&mut self, is_leak: bool, fault: Fault) -> Result<(), CheckError>
        ensures uses { OnOk result (self.new.uses.items ≡ self.old.uses.items) }
        ensures faults { OnOk result (self.new.corruptions ≡ self.old.corruptions) }
        ensures leaks { OnOk result (self.new.leaks ≡ self.old.leaks + one_if is_leak) }
    {
        if !is_leak {
            return Ok(());
        }
        let Some(leaks) = self.leaks.checked_add(1) else {
            return Err(CheckError::TooLarge);
        };
        self.leaks = leaks;
        self.keep(fault)
    }

    /// Counts the uses of clusters by so many bytes from an offset on, which don't pass the end of
    /// the file.
    fn count_range(&mut self, shape: Shape, at: u64, count: u64) -> Result<(), CheckError>
        requires some { 0 < count }
        requires inside { at + count ≤ shape.clusters * shape.cluster }
        requires all { length self.old.uses.items ≡ shape.clusters }
        ensures { (counts : List ℕ) → OnOk result
            (Adds self.old self.new (use_of (setting_of shape counts) at count) 0) }
    {
        let first = shape.cluster_at(at) as usize;
        let last = shape.cluster_at(at + count - 1) as usize;
        count_uses(&mut self.uses, first, last)?;
        Ok(())
    }

    /// Counts the uses of clusters by so many bytes from an offset on, unless they pass the end of
    /// the file.
    pub(crate) fn use_bytes(&mut self, shape: Shape, at: u64, count: u64) -> Result<(), CheckError>
        requires all { length self.old.uses.items ≡ shape.clusters }
        ensures { (counts : List ℕ) → OnOk result
            (Adds self.old self.new (use_of (setting_of shape counts) at count) 0) }
    {
        if count == 0 {
            return Ok(());
        }
        if shape.passes(at, count) {
            return Ok(());
        }
        self.count_range(shape, at, count)?;
        Ok(())
    }

    /// The same of the bytes that the entry of that table at `place` names: it is a fault if they
    /// pass the end.
    pub(crate) fn name(
        &mut self,
        shape: Shape,
        at: u64,
        count: u64,
        table: Table,
        place: u64,
    ) -> Result<(), CheckError>
        requires all { length self.old.uses.items ≡ shape.clusters }
        ensures { (counts : List ℕ) → OnOk result
            (Adds self.old self.new (use_of (setting_of shape counts) at count)
            (past_fault (setting_of shape counts) at count)) }
    {
        self.use_bytes(shape, at, count)?;
        let past = shape.passes(at, count);
        let fault = Fault::PastEnd {
            table,
            at: place,
            start: at,
            length: count,
        };
        self.tell(past, fault)?;
        Ok(())
    }
}
