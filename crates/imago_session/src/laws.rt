// SPDX-License-Identifier: MIT
//! Laws of layers that are open over a part of their files. The functions do nothing; their
//! contracts are proved.
ghost use Rattle.std.specs.Prelude.{◌≡◌, ℕ};
ghost use Rattle.imago_session.specs.declared.permitted.Permitted.{Permitted};
ghost use Rattle.imago_access.specs.Target.{target};
ghost use Rattle.imago_access.specs.Chain.{driver};
ghost use Rattle.imago_plan.specs.declared.piece.Piece.{Piece};
ghost use Rattle.imago_plan.specs.Pieces.{IsPieceAt};
ghost use Rattle.imago_session.specs.Files.{File, AreLayersOf, described_size};
ghost use Rattle.imago_session.specs.Opening.{ShowsBytes};

use crate::layer::Layer;
use imago_access::access::FormatAccess;
use imago_drivers::drivers::FormatDriverInstance;
use imago_qcow2::laws::same_tables_stand_alike;

/// A piece of an image whose layers are those of files says where the files' bytes stand: each of
/// its bytes is that of the disk which the files say, whatever they hold besides.
pub fn pieces_of_files(image: &FormatAccess<Layer>)
    ensures { let view = ⟦<Layer as FormatDriverInstance>⟧.view in
        (permitted : Permitted) (files : ℕ → File) (at : ℕ) (piece : Piece)
        → AreLayersOf permitted files image.now → IsPieceAt (target view image.now) at piece
        → ShowsBytes files at piece image.now }
{
    same_tables_stand_alike();
    let _ = image;
}

/// The size of its disk is the one that the top file says.
pub fn size_of_files(image: &FormatAccess<Layer>)
    ensures { let view = ⟦<Layer as FormatDriverInstance>⟧.view in
        (permitted : Permitted) (files : ℕ → File) → AreLayersOf permitted files image.now
        → (view (driver image.now)).size ≡ described_size files image.now }
{
    let _ = image;
}
