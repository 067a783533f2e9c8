// SPDX-License-Identifier: MIT
//! Laws of plans. The functions do nothing; their contracts are proved.
ghost use Rattle.std.specs.Prelude.{◌≡◌, ℕ, List, true, false, IsTrue, map};
ghost use Rattle.imago_drivers.specs.Place.{Byte};
ghost use Rattle.imago_access.specs.declared.access.FormatAccess.{FormatAccess};
ghost use Rattle.imago_access.specs.Chain.{driver};
ghost use Rattle.imago_access.specs.Disk.{values_from};
ghost use Rattle.imago_access.specs.Target.{target, target_here};
ghost use Rattle.imago_vmdk.specs.Image.{is_opened, accepted_in};
ghost use Rattle.imago_vmdk.specs.Disk.{described_value};
ghost use Rattle.imago_plan.specs.declared.piece.Piece.{Piece};
ghost use Rattle.imago_plan.specs.Pieces.{IsPlan};
ghost use Rattle.imago_plan.specs.PieceBytes.{plan_bytes};
ghost use Rattle.imago_plan.specs.StoredBytes.{disk_with};

use imago_access::access::FormatAccess;
use imago_drivers::drivers::FormatDriverInstance;
use imago_storage::storage::Storage;
use imago_vmdk::vmdk::Vmdk;

/// Whatever bytes the storages of an image's layers have, the bytes of a plan's pieces, one piece
/// after the other, are what the image shows of them.
pub fn plans_show_stored_bytes<D: FormatDriverInstance>()
    ensures { (image : FormatAccess D) (pieces : List Piece) (bytes : ℕ → ℕ → List ℕ)
        → IsPlan D.view image pieces
        → disk_with D.view image bytes ≡ map Byte (plan_bytes bytes pieces) }
{}

/// Where a driver takes no layer below, each offset of its image leads where the driver has it.
pub fn top_layers_lead_nowhere<D: FormatDriverInstance>()
    ensures { (image : FormatAccess D) (p : ℕ)
        → (D.view (driver image)).abilities.takes_backing ≡ false
        → target D.view image p ≡ target_here ((D.view (driver image)).place p) }
{}

/// Whatever bytes the extents of a VMDK image have, a plan's bytes are the disk that the descriptor
/// describes. The descriptor is the storage of index 0, which tells its bytes, and the others are
/// those of its FLAT extents in order. So a plan is right whatever the extents' files hold.
pub fn plans_of_vmdk<S: Storage>(image: &FormatAccess<Vmdk<S>>)
    requires { is_opened (driver image.now) ≡ true }
    ensures { let view = ⟦<Vmdk<S> as FormatDriverInstance>⟧.view in
        let vmdk = driver image.now in
        (pieces : List Piece) (bytes : ℕ → ℕ → List ℕ)
        → IsTrue ((view vmdk).stores.features 0).tells_bytes
        → bytes 0 0 ≡ (view vmdk).stores.bytes 0
        → IsPlan view image.now pieces
        → values_from (described_value (accepted_in vmdk) (bytes 0)) 0 (view vmdk).size
        ≡ map Byte (plan_bytes bytes pieces) }
{
    imago_vmdk::laws::places_of_bytes(image.inner());
    imago_vmdk::laws::same_stands();
    top_layers_lead_nowhere::<Vmdk<S>>();
    plans_show_stored_bytes::<Vmdk<S>>();
}
