// SPDX-License-Identifier: MIT
//! Where the storages of a disk end: what lies behind is zero, without a look at it.
ghost use Rattle.std.specs.Prelude.{◌≡◌, ◌+◌, ◌-◌, ◌<◌, ◌≤◌, ◌^◌, IfSome, length};
ghost use Rattle.imago_access.specs.Chain.{driver, disk_value};
ghost use Rattle.imago_access.specs.Target.{target};
ghost use Rattle.imago_copy.specs.Ends.{IsEndOf, IsLayerAt, AreZeroBehind};
ghost use Rattle.imago_copy.specs.Runs.{IsRunAt};

use crate::runs::{Kind, Run};
use imago_access::access::FormatAccess;
use imago_drivers::drivers::FormatDriverInstance;
use imago_storage::storage::Storage;

/// The layer that many layers below the top, if the chain goes as far. What offsets of the image
/// lead to at that depth is what the layer itself has.
pub(crate) fn layer_at<D: FormatDriverInstance>(
    image: &FormatAccess<D>,
    depth: usize,
) -> Option<&FormatAccess<D>>
    ensures { IfSome result (λ layer. IsLayerAt D.view image.now depth layer.now) }
{
    let mut layer = image;
    let mut done: usize = 0;
    while done < depth {
        match layer.backing() {
            Some(below) => layer = below,
            None => return None,
        }
        done += 1;
    }
    Some(layer)
}

/// The length of a storage of the top layer, if it can be told.
fn storage_end<D: FormatDriverInstance>(image: &FormatAccess<D>, storage: usize) -> Option<u64>
    ensures { IfSome result
        (λ n. n ≡ length ((D.view (driver image.now)).stores.bytes storage)) }
{
    match image.inner().storage(storage) {
        Some(storage) => storage.size().ok(),
        None => None,
    }
}

/// The length of a storage of the layer of that depth, if it can be told.
fn end_at<D: FormatDriverInstance>(
    image: &FormatAccess<D>,
    depth: usize,
    storage: usize,
) -> Option<u64>
    ensures { IfSome result (IsEndOf (target D.view image.now) depth storage) }
{
    match layer_at(image, depth) {
        Some(layer) => storage_end(layer, storage),
        None => None,
    }
}

/// How many bytes of a run come before those that are known to be zero, which are the rest of it:
/// none of a run of zeroes, of a stored one those before the end of its storage, and of a special
/// one all of it.
///
/// A storage is asked for its length once. Where it refuses to tell it, nothing is known of what
/// lies behind its end; nor is it where the layer is too deep for a mapping to tell its depth.
pub fn data_count<D: FormatDriverInstance>(image: &FormatAccess<D>, run: Run) -> u64
    requires { IsRunAt (target D.view image.now) run.at run }
    ensures within { result ≤ run.count }
    ensures zero { AreZeroBehind (disk_value D.view image.now) run.at result run.count }
{
    match run.kind {
        Kind::Zero => 0,
        Kind::Stored {
            layer,
            storage,
            offset,
        } if layer < usize::MAX => match end_at(image, layer, storage) {
            Some(end) => run.count.min(end.saturating_sub(offset)),
            None => run.count,
        },
        _ => run.count,
    }
}
