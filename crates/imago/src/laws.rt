// SPDX-License-Identifier: MIT
//! Laws that follow from the contracts. Their functions do nothing, but for those of the modules
//! here, which make the calls that they speak of.
ghost use Rattle.std.specs.Prelude.{◌≡◌, ℕ, List, IsTrue, true};
ghost use Rattle.imago_access.specs.declared.run.Call.{Call};
ghost use Rattle.imago_access.specs.declared.run.Reply.{Reply};
ghost use Rattle.imago_access.specs.Chain.{driver, backing, lent_image, tells_bytes};
ghost use Rattle.imago_access.specs.Chain.{disk_value};
ghost use Rattle.imago_access.specs.Calls.{IsKept};
ghost use Rattle.imago_access.specs.Runs.{IsRun};
ghost use Rattle.imago_access.specs.Disk.{disk, backed_value};
ghost use Rattle.imago_access.specs.Histories.{IsFlatHistory};
ghost use Rattle.imago_cow.specs.CowImage.{storage_in};
ghost use Rattle.imago_vmdk.specs.Image.{is_opened, accepted_in};
ghost use Rattle.imago_vmdk.specs.Disk.{described_value};
ghost use Rattle.imago.specs.Qcow2Chain.{files_of, files_value};

mod faultless;
pub mod in_memory;
pub mod over_null;
pub mod round_trip;

use crate::cow::Cow;
use crate::qcow2::Qcow2;
use crate::vmdk::Vmdk;
use crate::{FormatAccess, FormatDriverInstance, Storage};
pub use imago_access::laws as images;
pub use imago_cow::laws as data_blocks;
pub use imago_drivers::laws as drivers;
pub use imago_file::laws as files;
pub use imago_plan::laws as plans;
pub use imago_qcow2::laws as qcow2_files;
pub use imago_storage::laws as storages;
pub use imago_vmdk::laws as descriptors;

/// What a read of an image gives whose driver is a VMDK one, with its extents opened, follows from
/// the bytes of the storages that the driver shows: those of the descriptor, which is the first of
/// them, say which byte of which storage an offset has, if it tells its bytes.
pub fn vmdk_disk<S: Storage>(image: &FormatAccess<Vmdk<S>>)
    requires { is_opened (driver image.now) ≡ true }
    ensures { IsTrue
        ((⟦<Vmdk<S> as FormatDriverInstance>⟧.view (driver image.now)).stores.features 0).tells_bytes
        → (p : ℕ) → disk_value ⟦<Vmdk<S> as FormatDriverInstance>⟧.view image.now p
        ≡ described_value (accepted_in (driver image.now))
        (⟦<Vmdk<S> as FormatDriverInstance>⟧.view (driver image.now)).stores.bytes p }
{
    imago_vmdk::laws::disk_of_bytes(image.inner());
}

/// What a read of an image gives whose drivers are qcow2 ones, through its whole chain, follows
/// from the bytes of its files alone, if these are told: each file says of an offset that a byte of
/// its own stands there, a zero, or what the next file says.
pub fn qcow2_disk<S: Storage>(image: &FormatAccess<Qcow2<S>>)
    ensures { IsTrue (tells_bytes ⟦<Qcow2<S> as FormatDriverInstance>⟧.view image.now)
        → (p : ℕ) → disk_value ⟦<Qcow2<S> as FormatDriverInstance>⟧.view image.now p
        ≡ files_value (files_of (λ d. (⟦<Qcow2<S> as FormatDriverInstance>⟧.view d).stores.bytes 0)
        image.now) p }
{
    let _ = image;
}

/// A run of calls on a copy-on-write disk, over any layers below, is a history of one flat list if
/// the storage keeps data and the layers below tell their bytes, and no layer below changes. It is
/// what [`images`] says of each driver.
pub fn runs_of_cow<S: Storage>(before: &FormatAccess<Cow<S>>, after: &FormatAccess<Cow<S>>)
    ensures flat { (calls : List Call) (replies : List Reply)
        → IsTrue (S.features (storage_in (driver before.now))).keeps_data
        → IsTrue (lent_image ⟦<Cow<S> as FormatDriverInstance>⟧.view
        (backing before.now)).tells_bytes
        → IsRun ⟦<Cow<S> as FormatDriverInstance>⟧.view ⟦<Cow<S> as FormatDriverInstance>⟧.calls
        before.now calls replies after.now
        → IsFlatHistory (backed_value ⟦<Cow<S> as FormatDriverInstance>⟧.view before.now)
        (disk ⟦<Cow<S> as FormatDriverInstance>⟧.view before.now) calls replies
        (disk ⟦<Cow<S> as FormatDriverInstance>⟧.view after.now) }
    ensures below { (calls : List Call) (replies : List Reply)
        → IsRun ⟦<Cow<S> as FormatDriverInstance>⟧.view ⟦<Cow<S> as FormatDriverInstance>⟧.calls
        before.now calls replies after.now
        → IsKept ⟦<Cow<S> as FormatDriverInstance>⟧.view before.now after.now }
{
    images::flat_histories::<Cow<S>>();
    images::runs_keep_layers_below::<Cow<S>>();
    data_blocks::a_disk_keeps_what_its_storage_keeps(before.inner());
    let _ = after;
}
