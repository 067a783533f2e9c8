// SPDX-License-Identifier: MIT
//! Resizing an image.
ghost use Rattle.std.specs.Prelude.{◌≡◌, None, true, take, IfErr, OnOk, IsTrue};
ghost use Rattle.imago_drivers.specs.Operation.{Grow, Shrink};
ghost use Rattle.imago_access.specs.Chain.{driver, keeps_data};
ghost use Rattle.imago_access.specs.Disk.{disk, backed_value, ResizesDisk, IsExtended};
ghost use Rattle.imago_access.specs.Sizes.{FailsWritable, IsResize, IsResizeTo, HasGrown};
ghost use Rattle.imago_access.specs.Sizes.{HasShrunk};
ghost use Rattle.imago_access.specs.Performed.{IsGrownBy, IsCutBy, IsResizedBy};

use crate::access::{FormatAccess, below};
use imago_drivers::drivers::{FormatDriverInstance, PreallocateMode};
use imago_storage::error::Error;
use std::alloc::Global;

impl<D: FormatDriverInstance> FormatAccess<D> {
    /// The test of a resize: the driver is writable.
    fn test_writable(&self) -> Result<(), Error>
        ensures passed { OnOk result ((D.view (driver self.now)).abilities.is_writable ≡ true) }
        ensures failed { IfErr result (FailsWritable (D.view (driver self.now))) }
    {
        if !self.inner.writable() {
            return Err(Error::ReadOnly);
        }
        Ok(())
    }

    /// Grows the disk to that size in bytes, with new bytes as the mode says: by one growth of the
    /// driver's, which isn't asked where the disk is as large already.
    ///
    /// [`Error::ReadOnly`] where the driver isn't writable. Where there is something to do it may
    /// also be [`Error::Unsupported`], [`Error::WrapAround`], [`Error::InvalidData`] or
    /// [`Error::NoAccess`], each for a cause that the driver tells, [`Error::Device`] where a
    /// device failed, and [`Error::Memory`] where the driver takes memory. Refused, the disk is as
    /// it was.
    ///
    /// No prepared mapping may wait, which [`has_prepared`](FormatDriverInstance::has_prepared) of
    /// the driver tells.
    pub fn resize_grow(
        &mut self,
        alloc: Global,
        new_size: u64,
        mode: PreallocateMode,
    ) -> Result<(), Error>
        requires { (D.view (driver self.old)).pending ≡ None }
        ensures disk { IsTrue (keeps_data D.view self.old) → ResizesDisk (disk D.view self.old)
            (IsExtended mode (backed_value D.view self.old) new_size (disk D.view self.old)
            (disk D.view self.new)) result (disk D.view self.new) }
        ensures resized { IsResize D.view (Grow mode) new_size
            (HasGrown D.view mode new_size self.old self.new)
            self.old self.new result }
        ensures performed { IsGrownBy D.view D.calls new_size mode self.old self.new result }
        ensures nothing_pending { (D.view (driver self.new)).pending ≡ None }
    {
        self.test_writable()?;
        if new_size <= self.size() {
            return Ok(());
        }
        let lower = below(&self.backing);
        self.inner.resize_grow(alloc, lower, new_size, mode)
    }

    /// Cuts the disk to that size in bytes: by one cut of the driver's, which isn't asked where the
    /// disk is as small already.
    ///
    /// The refusals are those of [`resize_grow`](Self::resize_grow). Refused, the disk is as it
    /// was.
    ///
    /// No prepared mapping may wait, which [`has_prepared`](FormatDriverInstance::has_prepared) of
    /// the driver tells.
    pub fn resize_shrink(&mut self, new_size: u64) -> Result<(), Error>
        requires { (D.view (driver self.old)).pending ≡ None }
        ensures disk { IsTrue (D.view (driver self.old)).abilities.keeps_data
            → ResizesDisk (disk D.view self.old)
            (disk D.view self.new ≡ take new_size (disk D.view self.old)) result
            (disk D.view self.new) }
        ensures resized { IsResize D.view Shrink new_size
            (HasShrunk D.view new_size self.old self.new) self.old
            self.new result }
        ensures performed { IsCutBy D.view D.calls new_size self.old self.new result }
        ensures nothing_pending { (D.view (driver self.new)).pending ≡ None }
    {
        self.test_writable()?;
        if self.size() <= new_size {
            return Ok(());
        }
        self.inner.resize_shrink(new_size)
    }

    /// Cuts the disk to that size in bytes, or grows it to that size, with new bytes as the mode
    /// says.
    ///
    /// The refusals are those of [`resize_grow`](Self::resize_grow). Refused, the disk is as it
    /// was.
    ///
    /// No prepared mapping may wait, which [`has_prepared`](FormatDriverInstance::has_prepared) of
    /// the driver tells.
    pub fn resize(
        &mut self,
        alloc: Global,
        new_size: u64,
        mode: PreallocateMode,
    ) -> Result<(), Error>
        requires { (D.view (driver self.old)).pending ≡ None }
        ensures disk { IsTrue (keeps_data D.view self.old) → ResizesDisk (disk D.view self.old)
            (IsExtended mode (backed_value D.view self.old) new_size
            (take new_size (disk D.view self.old)) (disk D.view self.new)) result
            (disk D.view self.new) }
        ensures resized { IsResizeTo D.view new_size mode self.old self.new result }
        ensures performed { IsResizedBy D.view D.calls new_size mode self.old self.new result }
        ensures nothing_pending { (D.view (driver self.new)).pending ≡ None }
    {
        if new_size < self.size() {
            return self.resize_shrink(new_size);
        }
        self.resize_grow(alloc, new_size, mode)
    }
}
