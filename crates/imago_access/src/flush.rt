// SPDX-License-Identifier: MIT
//! Flushing and syncing an image.
ghost use Rattle.std.specs.Prelude.{◌≡◌};
ghost use Rattle.imago_access.specs.Chain.{driver};
ghost use Rattle.imago_access.specs.Sizes.{IsFlushed};

use crate::access::FormatAccess;
use imago_drivers::drivers::FormatDriverInstance;
use imago_storage::error::Error;

impl<D: FormatDriverInstance> FormatAccess<D> {
    /// Writes what the driver and its storages buffer. The disk stays as it is, also where it is
    /// refused.
    pub fn flush(&mut self) -> Result<(), Error>
        ensures { IsFlushed D.view D.calls.flushed self.old self.new result }
    {
        self.inner.flush()
    }

    /// Syncs what is written to the hardware. The disk stays as it is, also where it is refused.
    pub fn sync(&mut self) -> Result<(), Error>
        ensures { IsFlushed D.view D.calls.synced self.old self.new result }
    {
        self.inner.sync()
    }

    /// Drops what the driver and its storages cache. The disk stays as it is, also where it is
    /// refused.
    pub fn invalidate_cache(&mut self) -> Result<(), Error>
        ensures { IsFlushed D.view D.calls.invalidated self.old self.new result }
    {
        self.inner.invalidate_cache()
    }
}
