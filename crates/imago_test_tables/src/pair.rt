// SPDX-License-Identifier: MIT
//! Two storages, each named by its index, and a count of what else failed.
ghost use Rattle.std.specs.Prelude.{◌≡◌, ◌≢◌, ℕ, ◌+◌, ◌<◌, ◌≤◌, ◌&&◌, length, slice_index, IsTrue};
ghost use Rattle.std.specs.Prelude.{IsOk, IfErr, OnOk, OnErr, IsErrOf, MatchOption, false, true};
ghost use Rattle.imago_storage.specs.Bytes.{IsReadAt};
ghost use Rattle.imago_storage.specs.Error.{IsExtRefusal, IsDeviceOrMemory};
ghost use Rattle.imago_storage.specs.Faults.{CountsFaults};
ghost use Rattle.imago_storage.specs.Padding.{Wraps};
ghost use Rattle.imago_drivers.specs.Lengths.{GrowAt};
ghost use Rattle.imago_drivers.specs.Ranges.{HasBytes};
ghost use Rattle.imago_test_tables.specs.Pair.{at_index, pair_stores, in_turn};

use imago_drivers::stored::write_bytes;
use imago_storage::error::Error;
use imago_storage::ext::StorageExt;
use imago_storage::storage::Storage;
use std::alloc::Global;

/// Two storages: the first has the index 0, the second 1.
#[derive(Drop)]
pub(crate) struct Pair<S: Storage> {
    pub(crate) first: S,
    pub(crate) second: S,
    /// How often something else failed: a read of the layer below, or a commit or a granule that is
    /// to fail. It saturates.
    pub(crate) faults: u64,
}

impl<S: Storage> Pair<S> {
    /// The storage of that index.
    pub(crate) fn get(&self, index: usize) -> Option<&S>
        ensures { MatchOption result (2 ≤ index)
            (λ s. (index < 2) ×
            (S.bytes s.now ≡ at_index (S.bytes self.now.first) (S.bytes self.now.second) index) ×
            (S.features s.now ≡ at_index (S.features self.now.first) (S.features self.now.second)
            index)) }
    {
        match index {
            0 => Some(&self.first),
            1 => Some(&self.second),
            _ => None,
        }
    }

    /// Fills the buffer with bytes of the storage of that index.
    pub(crate) fn read(
        &self,
        alloc: Global,
        index: usize,
        buf: &mut [u8],
        offset: u64,
    ) -> Result<(), Error>
        requires { index < 2 }
        ensures bytes { IsTrue
            ((S.features self.now.first).tells_bytes && (S.features self.now.second).tells_bytes)
            → OnOk result
            (IsReadAt (at_index (S.bytes self.now.first) (S.bytes self.now.second) index) offset
            buf.new) }
        ensures only { IfErr result IsExtRefusal }
        ensures wraps { IsErrOf result Error.WrapAround
            → Wraps (at_index (S.features self.now.first) (S.features self.now.second) index) offset
            (length buf.old) }
        ensures device { IsErrOf result Error.Device
            → (S.features self.now.first).is_reliable && (S.features self.now.second).is_reliable
            ≡ false }
    {
        if index == 0 {
            return self.first.read(alloc, buf, offset);
        }
        self.second.read(alloc, buf, offset)
    }

    /// Writes bytes of the storage of that index. Refused, each byte of the range is old or new.
    pub(crate) fn write(
        &mut self,
        alloc: Global,
        index: usize,
        source: &[u8],
        offset: u64,
    ) -> Result<(), Error>
        requires { index < 2 }
        ensures empty { length source.now ≡ 0 → IsOk result }
        ensures written { IsTrue
            ((S.features self.old.first).keeps_data && (S.features self.old.second).keeps_data)
            → OnOk result
            (HasBytes false offset (length source.now) (λ k. slice_index source.now k)
            (at_index (S.bytes self.old.first) (S.bytes self.old.second) index)
            (at_index (S.bytes self.new.first) (S.bytes self.new.second) index)) }
        ensures torn { IsTrue
            ((S.features self.old.first).keeps_data && (S.features self.old.second).keeps_data)
            → OnErr result
            (HasBytes true offset (length source.now) (λ k. slice_index source.now k)
            (at_index (S.bytes self.old.first) (S.bytes self.old.second) index)
            (at_index (S.bytes self.new.first) (S.bytes self.new.second) index)) }
        ensures other { (i : ℕ)
            → i < 2
            → i ≢ index
            → at_index (S.bytes self.new.first) (S.bytes self.new.second) i
            ≡ at_index (S.bytes self.old.first)
            (S.bytes self.old.second) i }
        ensures lengths { GrowAt index offset (length source.now)
            (pair_stores (S.features self.old.first) (S.features self.old.second)
            (S.bytes self.old.first)
            (S.bytes self.old.second))
            (pair_stores (S.features self.new.first) (S.features self.new.second)
            (S.bytes self.new.first)
            (S.bytes self.new.second)) }
        ensures first_features { S.features self.new.first ≡ S.features self.old.first }
        ensures second_features { S.features self.new.second ≡ S.features self.old.second }
        ensures only { IfErr result IsExtRefusal }
        ensures wraps { IsErrOf result Error.WrapAround
            → Wraps (at_index (S.features self.old.first) (S.features self.old.second) index) offset
            (length source.now) }
        ensures faults { CountsFaults
            ((S.features self.old.first).is_reliable && (S.features self.old.second).is_reliable)
            (S.fault_count self.old.first + S.fault_count self.old.second + self.old.faults)
            (S.fault_count self.new.first + S.fault_count self.new.second + self.new.faults)
            result }
    {
        if index == 0 {
            return write_bytes(&mut self.first, alloc, source, offset);
        }
        write_bytes(&mut self.second, alloc, source, offset)
    }

    /// Writes what both storages buffer.
    pub(crate) fn flush(&mut self) -> Result<(), Error>
        ensures performed { in_turn S.maintenance.flushed self.old.first self.old.second
            self.new.first
            self.new.second result }
        ensures first { S.bytes self.new.first ≡ S.bytes self.old.first }
        ensures second { S.bytes self.new.second ≡ S.bytes self.old.second }
        ensures first_features { S.features self.new.first ≡ S.features self.old.first }
        ensures second_features { S.features self.new.second ≡ S.features self.old.second }
        ensures only { IfErr result IsDeviceOrMemory }
        ensures faults { CountsFaults
            ((S.features self.old.first).is_reliable && (S.features self.old.second).is_reliable)
            (S.fault_count self.old.first + S.fault_count self.old.second + self.old.faults)
            (S.fault_count self.new.first + S.fault_count self.new.second + self.new.faults)
            result }
    {
        match self.first.flush() {
            Ok(()) => self.second.flush(),
            Err(e) => Err(e),
        }
    }

    /// Syncs both storages.
    pub(crate) fn sync(&mut self) -> Result<(), Error>
        ensures performed { in_turn S.maintenance.synced self.old.first self.old.second
            self.new.first
            self.new.second result }
        ensures first { S.bytes self.new.first ≡ S.bytes self.old.first }
        ensures second { S.bytes self.new.second ≡ S.bytes self.old.second }
        ensures first_features { S.features self.new.first ≡ S.features self.old.first }
        ensures second_features { S.features self.new.second ≡ S.features self.old.second }
        ensures only { IfErr result IsDeviceOrMemory }
        ensures faults { CountsFaults
            ((S.features self.old.first).is_reliable && (S.features self.old.second).is_reliable)
            (S.fault_count self.old.first + S.fault_count self.old.second + self.old.faults)
            (S.fault_count self.new.first + S.fault_count self.new.second + self.new.faults)
            result }
    {
        match self.first.sync() {
            Ok(()) => self.second.sync(),
            Err(e) => Err(e),
        }
    }

    /// Drops what both storages cache.
    pub(crate) fn invalidate_cache(&mut self) -> Result<(), Error>
        ensures performed { in_turn S.maintenance.invalidated self.old.first self.old.second
            self.new.first
            self.new.second result }
        ensures first { S.bytes self.new.first ≡ S.bytes self.old.first }
        ensures second { S.bytes self.new.second ≡ S.bytes self.old.second }
        ensures first_features { S.features self.new.first ≡ S.features self.old.first }
        ensures second_features { S.features self.new.second ≡ S.features self.old.second }
        ensures only { IfErr result IsDeviceOrMemory }
        ensures faults { CountsFaults
            ((S.features self.old.first).is_reliable && (S.features self.old.second).is_reliable)
            (S.fault_count self.old.first + S.fault_count self.old.second + self.old.faults)
            (S.fault_count self.new.first + S.fault_count self.new.second + self.new.faults)
            result }
    {
        match self.first.invalidate_cache() {
            Ok(()) => self.second.invalidate_cache(),
            Err(e) => Err(e),
        }
    }
}
