// SPDX-License-Identifier: MIT
//! Discarding ranges of an image.
ghost use Rattle.std.specs.Prelude.{◌≡◌, ℕ, ◌+◌, ◌<◌, ◌^◌, List, None, IsOk, IsTrue};
ghost use Rattle.imago_access.specs.Calls.{TakesChange};
ghost use Rattle.imago_access.specs.Chain.{driver};
ghost use Rattle.imago_access.specs.Disk.{disk, backed_value, DiscardsOfDisk, IsUnspecifiedIn};
ghost use Rattle.imago_access.specs.Disk.{IsGivenBack};
ghost use Rattle.imago_access.specs.DiscardParts.{discard_by, IsDiscardedInParts};
ghost use Rattle.imago_access.specs.Discarding.{HasLoosened, HasLoosenedPart, IsImageDiscard};
ghost use Rattle.imago_access.specs.declared.discard.DiscardCall.TheVariants as Call;

use crate::access::FormatAccess;
use imago_drivers::drivers::FormatDriverInstance;
use imago_storage::error::Error;
use std::alloc::Global;

/// What the bytes of a range may be once it is discarded.
#[derive(Clone, Copy)]
pub(crate) enum DiscardCall {
    /// Anything: [`FormatDriverInstance::discard_to_any`].
    ToAny,
    /// As they were, or those of the layer below: [`FormatDriverInstance::discard_to_backing`].
    ToBacking,
}

impl<D: FormatDriverInstance> FormatAccess<D> {
    /// Has the driver discard what it can of a range, and answers which part that is.
    fn discard_part(
        &mut self,
        alloc: Global,
        call: DiscardCall,
        offset: u64,
        count: u64,
    ) -> Result<(u64, u64), Error>
        requires { TakesChange (D.view (driver self.old)) offset count }
        ensures loosened { HasLoosenedPart D.view call offset count self.old self.new result }
        ensures performed { discard_by D.calls call offset count (driver self.old) (driver self.new)
            result }
    {
        match call {
            DiscardCall::ToAny => self.inner.discard_to_any(alloc, offset, count),
            DiscardCall::ToBacking => self.inner.discard_to_backing(alloc, offset, count),
        }
    }

    /// Discards a range, part after part, until the driver does nothing more.
    fn discard_range(
        &mut self,
        alloc: Global,
        call: DiscardCall,
        offset: u64,
        count: u64,
    ) -> Result<(), Error>
        requires takes { TakesChange (D.view (driver self.old)) offset count }
        requires fits { offset + count < 2 ^ 64 }
        ensures empty { count ≡ 0 → IsOk result × (self.new ≡ self.old) }
        ensures loosened { HasLoosened D.view call offset count self.old self.new result }
        ensures performed { (parts : List (ℕ × ℕ))
            × IsDiscardedInParts (discard_by D.calls call) offset count parts (driver self.old)
            (driver self.new) result }
    {
        let mut done: u64 = 0;
        while done < count {
            let (start, length) = self.discard_part(alloc, call, offset + done, count - done)?;
            if length == 0 {
                return Ok(());
            }
            done = start - offset + length;
        }
        Ok(())
    }

    /// Discards a range of the disk, once its tests passed.
    fn discard(
        &mut self,
        alloc: Global,
        call: DiscardCall,
        offset: u64,
        count: u64,
    ) -> Result<(), Error>
        requires { (D.view (driver self.old)).pending ≡ None }
        ensures { IsImageDiscard D.view D.calls call self.old self.new offset count result }
    {
        self.test_end(offset, count)?;
        self.discard_range(alloc, call, offset, count)
    }

    /// Gives up the data of a range, as far as the driver can. Its bytes are unspecified
    /// afterwards, also where it is refused; all others are as they were. Nothing below the top
    /// layer changes.
    ///
    /// [`Error::ReadOnly`] where the driver isn't writable, then [`Error::RangeOverflow`] where the
    /// range's end passes `u64::MAX`, then [`Error::BeyondDisk`] where it passes the disk's size,
    /// also for no bytes; nothing changed. [`Error::Unsupported`] where the driver offers no such
    /// discards. An empty range that passes these tests makes no call of the driver, and isn't
    /// refused.
    ///
    /// No prepared mapping may wait, which [`has_prepared`](FormatDriverInstance::has_prepared) of
    /// the driver tells.
    pub fn discard_to_any(&mut self, alloc: Global, offset: u64, count: u64) -> Result<(), Error>
        requires { (D.view (driver self.old)).pending ≡ None }
        ensures disk { IsTrue (D.view (driver self.old)).abilities.keeps_data
            → DiscardsOfDisk (disk D.view self.old) offset count
            (IsUnspecifiedIn (disk D.view self.old) offset count (disk D.view self.new)) result
            (disk D.view self.new) }
        ensures discarded { IsImageDiscard D.view D.calls Call.ToAny self.old self.new offset count
            result }
    {
        self.discard(alloc, DiscardCall::ToAny, offset, count)
    }

    /// Gives up the data of a range, as far as the driver can: each byte of it is as it was, or
    /// that of the layer below at the same offset, zero where there is none; also where it is
    /// refused. All others are as they were.
    ///
    /// The refusals are those of [`discard_to_any`](Self::discard_to_any).
    ///
    /// No prepared mapping may wait, which [`has_prepared`](FormatDriverInstance::has_prepared) of
    /// the driver tells.
    pub fn discard_to_backing(
        &mut self,
        alloc: Global,
        offset: u64,
        count: u64,
    ) -> Result<(), Error>
        requires { (D.view (driver self.old)).pending ≡ None }
        ensures disk { IsTrue (D.view (driver self.old)).abilities.keeps_data
            → DiscardsOfDisk (disk D.view self.old) offset count
            (IsGivenBack (backed_value D.view self.old) (disk D.view self.old) offset count
            (disk D.view self.new)) result (disk D.view self.new) }
        ensures discarded { IsImageDiscard D.view D.calls Call.ToBacking self.old self.new offset
            count result }
    {
        self.discard(alloc, DiscardCall::ToBacking, offset, count)
    }
}
