// SPDX-License-Identifier: MIT
//! Calls on any range, for every storage.
ghost use Rattle.std.specs.Prelude.{length};
ghost use Rattle.imago_storage.specs.Calls.{IsRangeRead, IsRangeWrite, IsRangeZeroing};
ghost use Rattle.imago_storage.specs.Calls.{IsRangeDiscard};
ghost use Rattle.imago_storage.specs.declared.options.ZeroKind.TheVariants.{Any, Allocated};

use crate::error::Error;
use crate::request::{discard_any, read_any, write_any};
use crate::storage::{Storage, ZeroKind};
use crate::zeroes::zero_any;
use std::alloc::Global;

/// Calls on any range, for every storage. Offsets and lengths are in bytes.
///
/// A request that isn't aligned is padded: it starts at the offset rounded down to the request
/// alignment, and its length is a multiple of the larger of request and memory alignment. That
/// takes a buffer; an aligned request goes through as it is. An empty request does nothing,
/// whatever its offset.
pub trait StorageExt: Storage {
    /// Fills the buffer with the bytes from the offset on, with 0 past the end.
    ///
    /// [`Error::WrapAround`] is a padded request that ends past `u64::MAX`; [`Error::Device`] is
    /// answered only by a storage that isn't reliable; [`Error::Memory`] is a refused bounce
    /// buffer, or the storage's own. Refused, the buffer is unspecified.
    ///
    /// A request that isn't aligned reads its first and last block alone by way of a buffer of one
    /// block; whole blocks between are read straight into the caller's buffer, in one call. One
    /// that is padded to one block or two is read at once, into a buffer of that length.
    fn read(&self, alloc: Global, buf: &mut [u8], offset: u64) -> Result<(), Error>
        ensures { IsRangeRead (Self.features self.now) (Self.bytes self.now) offset (length buf.old)
            buf.new result };

    /// Reads as [`read`](Self::read) does.
    fn readv(&self, alloc: Global, buf: &mut [u8], offset: u64) -> Result<(), Error>
        ensures { IsRangeRead (Self.features self.now) (Self.bytes self.now) offset (length buf.old)
            buf.new result };

    /// Writes the bytes at the offset. The storage grows to the padded end where that is longer, by
    /// zeroes.
    ///
    /// [`Error::WrapAround`] is a padded request that ends past `u64::MAX`, and nothing changed.
    /// [`Error::Device`] is answered only where a device failed, as the count of faults shows;
    /// [`Error::Memory`] is a refused block of one alignment, or the storage's own. Refused by
    /// these, each byte of the range is old or new, all others are old, and the length is between.
    ///
    /// A request that isn't aligned reads and changes its first and last block alone; whole blocks
    /// between are written from the source in one call.
    fn write(&mut self, alloc: Global, source: &[u8], offset: u64) -> Result<(), Error>
        ensures { IsRangeWrite Self.features Self.bytes Self.fault_count Self.work
            Self.maintenance offset source.now self.old self.new result };

    /// Writes as [`write`](Self::write) does.
    fn writev(&mut self, alloc: Global, source: &[u8], offset: u64) -> Result<(), Error>
        ensures { IsRangeWrite Self.features Self.bytes Self.fault_count Self.work
            Self.maintenance offset source.now self.old self.new result };

    /// Zeroes a range. The part of it that is aligned to the zero alignment goes to the storage's
    /// own zero write, and what stands before and behind it is written as zero bytes; the whole
    /// range is written so where it has no such part, or where the storage doesn't offer the zero
    /// write. What grows ends by less than an alignment past the range.
    ///
    /// [`Error::WrapAround`] is a range whose end, or whose start rounded up, passes `u64::MAX`,
    /// and nothing changed; or bytes of it that pass there once they are padded. [`Error::Device`]
    /// is answered only where a device failed, as the count of faults shows; [`Error::Memory`] is a
    /// refused buffer of zeroes, or the storage's own. What the storage's own zero write is refused
    /// for, but as unsupported, is the answer. Refused, each byte of the range is old or zero, all
    /// others are old, and the length is between.
    fn write_zeroes(&mut self, alloc: Global, offset: u64, count: u64) -> Result<(), Error>
        ensures { IsRangeZeroing Self.features Self.bytes Self.fault_count Self.work
            Self.maintenance Any (Self.features self.old).zeroes offset count self.old self.new
            result };

    /// Zeroes a range and allocates it, as [`write_zeroes`](Self::write_zeroes) does otherwise.
    fn write_allocated_zeroes(
        &mut self,
        alloc: Global,
        offset: u64,
        count: u64,
    ) -> Result<(), Error>
        ensures { IsRangeZeroing Self.features Self.bytes Self.fault_count Self.work
            Self.maintenance Allocated (Self.features self.old).allocated_zeroes offset count
            self.old self.new result };

    /// Says that a range is no longer needed. The part of it that is aligned to the discard
    /// alignment is unspecified afterwards, also where the call is refused; all other bytes, and
    /// the length, stay. A storage that offers no discards does nothing.
    ///
    /// [`Error::WrapAround`] is a range whose end, or whose start rounded up, passes `u64::MAX`,
    /// also where it is empty, and nothing changed. [`Error::Device`] and [`Error::Memory`] are
    /// passed on.
    fn discard(&mut self, offset: u64, count: u64) -> Result<(), Error>
        ensures { IsRangeDiscard Self.features Self.bytes Self.fault_count Self.maintenance offset
            count self.old self.new result };
}

impl<S: Storage> StorageExt for S {
    fn read(&self, alloc: Global, buf: &mut [u8], offset: u64) -> Result<(), Error> {
        read_any(self, alloc, buf, offset)
    }

    fn readv(&self, alloc: Global, buf: &mut [u8], offset: u64) -> Result<(), Error> {
        read_any(self, alloc, buf, offset)
    }

    fn write(&mut self, alloc: Global, source: &[u8], offset: u64) -> Result<(), Error> {
        write_any(self, alloc, source, offset)
    }

    fn writev(&mut self, alloc: Global, source: &[u8], offset: u64) -> Result<(), Error> {
        write_any(self, alloc, source, offset)
    }

    fn write_zeroes(&mut self, alloc: Global, offset: u64, count: u64) -> Result<(), Error> {
        zero_any(self, alloc, offset, count, ZeroKind::Any)
    }

    fn write_allocated_zeroes(
        &mut self,
        alloc: Global,
        offset: u64,
        count: u64,
    ) -> Result<(), Error> {
        zero_any(self, alloc, offset, count, ZeroKind::Allocated)
    }

    fn discard(&mut self, offset: u64, count: u64) -> Result<(), Error> {
        discard_any(self, offset, count)
    }
}
