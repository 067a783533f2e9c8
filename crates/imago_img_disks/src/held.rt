// SPDX-License-Identifier: MIT
//! Files that QEMU holds, which no command replaces, writes into or resizes.
ghost use Rattle.std.specs.Prelude.{OnOk};
ghost use Rattle.imago_img_files.specs.Files.{IsUnheld};

use imago_img_files::failure::{Failure, Refusal};
use imago_img_files::host::Host;

/// Refuses the file of a path if QEMU holds it.
pub(crate) fn test_unheld<H: Host>(host: &H, path: &str) -> Result<(), Failure>
    ensures { OnOk result (IsUnheld (H.around host.now) path.now) }
{
    if Failure::or_system(host.alloc(), path, host.is_held(path))? {
        return Err(Failure::of_target(host.alloc(), path, Refusal::Held));
    }
    Ok(())
}
