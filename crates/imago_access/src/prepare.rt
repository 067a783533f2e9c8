// SPDX-License-Identifier: MIT
//! Data mappings of an image.
ghost use Rattle.std.specs.Prelude.{◌≡◌, ℕ, ◌+◌, ◌≤◌, ◌↔◌, None, true, false, length, IsTrue, IfOk};
ghost use Rattle.std.specs.Prelude.{IfErr, OnOk, OnErr, IsErrOf};
ghost use Rattle.imago_drivers.specs.Operation.{Write};
ghost use Rattle.imago_drivers.specs.Causes.{IsSettled, IsOnRange};
ghost use Rattle.imago_drivers.specs.Frame.{UsesStorages};
ghost use Rattle.imago_drivers.specs.Lengths.{GrowTo, GrowAt};
ghost use Rattle.imago_drivers.specs.Parts.{storage_of, offset_of, length_of};
ghost use Rattle.imago_drivers.specs.Pending.{ShowsRound};
ghost use Rattle.imago_drivers.specs.Reasons.{allowed};
ghost use Rattle.imago_drivers.specs.Done.{mapping_write_reasons};
ghost use Rattle.imago_drivers.specs.Prepared.{IsPrepared, IsDataMapping, IsFor, IsForeignWrite};
ghost use Rattle.imago_drivers.specs.Prepared.{IsWritten};
ghost use Rattle.imago_drivers.specs.Commit.{IsCommit, IsCancel};
ghost use Rattle.imago_access.specs.Chain.{driver, backing, disk_value, lent_image};
ghost use Rattle.imago_access.specs.Calls.{IsEnsured, IsPreparing, KeepsShape};
ghost use Rattle.imago_access.specs.Performed.{IsPreparedBy, IsEnsuredBy};
ghost use Rattle.imago_access.specs.PreparedOnDisk.{ShowsSame, ShowsPreparedWrite, ShowsCommit};

use crate::access::{FormatAccess, below};
use imago_drivers::drivers::{FormatDriverInstance, PreparedDataMapping};
use imago_storage::error::Error;
use std::alloc::Global;

impl<D: FormatDriverInstance> FormatAccess<D> {
    /// Maps a part of the range, from the offset on, to bytes of a storage that may be written, and
    /// answers the storage's index, the offset there and the length: at least 1 and at most
    /// `count`, 0 for 0. With `overwrite` that part is unspecified afterwards.
    ///
    /// [`Error::ReadOnly`] where the driver isn't writable, then [`Error::BeyondDisk`] where the
    /// range passes the disk's size. Refused, the disk is as it was, or, with `overwrite`, the
    /// range is unspecified.
    ///
    /// No prepared mapping may wait, which [`has_prepared`](FormatDriverInstance::has_prepared) of
    /// the driver tells.
    pub fn ensure_data_mapping(
        &mut self,
        alloc: Global,
        offset: u64,
        count: u64,
        overwrite: bool,
    ) -> Result<(usize, u64, u64), Error>
        requires { (D.view (driver self.old)).pending ≡ None }
        ensures mapped { IfOk result
            (λ r. IsDataMapping offset count r.0 r.1 r.2 (D.view (driver self.old))
            (D.view (driver self.new))) }
        ensures call { IsEnsured D.view self.old self.new offset count overwrite result }
        ensures lengths { GrowTo ((D.view (driver self.old)).limits.longest Write offset count)
            (D.view (driver self.old)).stores (D.view (driver self.new)).stores }
        ensures performed { IsEnsuredBy D.view D.calls self.old self.new offset count overwrite
            result }
    {
        self.test_range(offset, count)?;
        let lower = below(&self.backing);
        self.inner
            .ensure_data_mapping(alloc, lower, offset, count, overwrite)
    }

    /// Prepares the writing of data at the offset: the mapping holds at least 1 byte and at most
    /// `count`, none for 0. The disk stays as it is. The mapping is written by
    /// [`write_prepared`](Self::write_prepared), and spent by commit or cancel. Without `overwrite`
    /// the bytes that it stands for begin as the disk's.
    ///
    /// [`Error::ReadOnly`] where the driver isn't writable, then [`Error::BeyondDisk`] where the
    /// range passes the disk's size. Refused, nothing is prepared.
    ///
    /// No prepared mapping may wait, which [`has_prepared`](FormatDriverInstance::has_prepared) of
    /// the driver tells.
    pub fn prepare_data_mapping(
        &mut self,
        alloc: Global,
        offset: u64,
        count: u64,
        overwrite: bool,
    ) -> Result<PreparedDataMapping<D::State>, Error>
        requires { (D.view (driver self.old)).pending ≡ None }
        ensures prepared { IfOk result
            (λ m. IsPrepared offset count overwrite (lent_image D.view (backing self.old)).tells_bytes (disk_value D.view self.old)
            (D.view (driver self.old)) (D.view (driver self.new)) m) }
        ensures call { IsPreparing D.view self.old self.new offset count result }
        ensures performed { IsPreparedBy D.view D.calls self.old self.new offset count overwrite
            result }
    {
        self.test_range(offset, count)?;
        let lower = below(&self.backing);
        self.inner
            .prepare_data_mapping(alloc, lower, offset, count, overwrite)
    }

    /// Writes data into a prepared mapping, from its `at`-th byte on: to the bytes that it stands
    /// for, or, with a state, to those that wait for commit. Refused, each of these is old or new.
    ///
    /// [`Error::ForeignMapping`] is a mapping that isn't this image's; nothing changed.
    pub fn write_prepared(
        &mut self,
        alloc: Global,
        mapping: &PreparedDataMapping<D::State>,
        source: &[u8],
        at: u64,
    ) -> Result<(), Error>
        requires { at + length source.now ≤ length_of mapping.now }
        ensures foreign { IsErrOf result Error.ForeignMapping
            ↔ IsForeignWrite (D.view (driver self.old)) mapping.now }
        ensures untouched { IsErrOf result Error.ForeignMapping
            → driver self.new ≡ driver self.old }
        ensures written { OnOk result
            (IsWritten false (D.view (driver self.old)) (D.view (driver self.new)) mapping.now at
            source.now) }
        ensures torn { OnErr result
            (IsWritten true (D.view (driver self.old)) (D.view (driver self.new)) mapping.now at
            source.now) }
        ensures disk { IsTrue (D.view (driver self.old)).abilities.keeps_data
            → ShowsPreparedWrite D.view self.old self.new mapping.now at source.now result }
        ensures round { IsTrue (D.view (driver self.old)).abilities.keeps_data
            → ShowsRound (disk_value D.view self.old) (D.view (driver self.old)).pending
            → ShowsRound (disk_value D.view self.new) (D.view (driver self.new)).pending }
        ensures causes { OnOk result
            ((o : ℕ)
            → IsFor (D.view (driver self.old)) mapping.now at (length source.now) o
            → IsSettled IsOnRange (D.view (driver self.old)).limits.cause
            (D.view (driver self.new)).limits.cause (D.view (driver self.old)).limits.copies
            (D.view (driver self.new)).limits.copies o (length source.now)) }
        ensures shape { KeepsShape D.view self.old self.new }
        ensures storages { UsesStorages
            (GrowAt (storage_of mapping.now) (offset_of mapping.now + at) (length source.now))
            (D.view (driver self.old)).abilities.is_reliable (D.view (driver self.old))
            (D.view (driver self.new)) result }
        ensures refusals { IfErr result
            (allowed
            (mapping_write_reasons (D.view (driver self.old)) mapping.now at
            (length source.now))) }
        ensures performed { D.calls.filled mapping.now source.now at (driver self.old)
            (driver self.new) result }
    {
        self.inner.write_prepared(alloc, mapping, source, at)
    }

    /// Spends a prepared mapping: what was written into it shows from now on. Without a state
    /// nothing changes.
    ///
    /// [`Error::ForeignMapping`] is a mapping with a state that isn't this image's; nothing
    /// changed. Any other refusal leaves each of its bytes old or as prepared, and nothing
    /// prepared.
    pub fn commit_data_mapping(
        &mut self,
        mapping: PreparedDataMapping<D::State>,
    ) -> Result<(), Error>
        ensures commit { IsCommit D.view (driver self.old) (driver self.new) mapping result }
        ensures performed { D.calls.committed mapping (driver self.old) (driver self.new) result }
        ensures disk { IsTrue (D.view (driver self.old)).abilities.keeps_data
            → ShowsCommit D.view self.old self.new mapping result }
        ensures below { backing self.new ≡ backing self.old }
    {
        self.inner.commit_data_mapping(mapping)
    }

    /// Spends a prepared mapping, and forgets what was written into one with a state: the disk is
    /// as it was. A foreign mapping changes nothing.
    pub fn cancel_data_mapping(&mut self, mapping: PreparedDataMapping<D::State>)
        ensures cancel { IsCancel D.view (driver self.old) (driver self.new) mapping }
        ensures performed { D.calls.cancelled mapping (driver self.old) (driver self.new) }
        ensures disk { IsTrue (D.view (driver self.old)).abilities.keeps_data
            → ShowsSame (disk_value D.view self.old) (disk_value D.view self.new) }
        ensures below { backing self.new ≡ backing self.old }
    {
        self.inner.cancel_data_mapping(mapping)
    }
}
