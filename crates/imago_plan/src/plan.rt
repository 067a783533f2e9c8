// SPDX-License-Identifier: MIT
//! The pieces of a disk.
ghost use Rattle.std.specs.Prelude.{◌≡◌, ◌+◌, ◌^◌, ◌<◌, ◌≤◌, ◌++◌, ◌∷◌, [], List, Some, None};
ghost use Rattle.std.specs.Prelude.{IfOk, IfErr, OnOk};
ghost use Rattle.imago_access.specs.Target.{target};
ghost use Rattle.imago_plan.specs.declared.piece.Piece.{Piece};
ghost use Rattle.imago_plan.specs.Pieces.{named_source, IsPieceAt, IsPlan, IsMerged, IsPut};
ghost use Rattle.imago_plan.specs.Pieces.{IsNoPiece, IsNoPlan};

use crate::piece::{Location, Piece, Source};
use imago_access::access::FormatAccess;
use imago_access::mapping::Mapping;
use imago_drivers::drivers::FormatDriverInstance;
use imago_storage::error::Error;
use std::alloc::Global;

/// What a mapping names, as a piece's source. [`Error::Unsupported`] is the end of the image, bytes
/// that a driver makes up, and a layer whose depth a mapping can't tell.
fn source_of(mapping: Mapping) -> Result<Source, Error>
    ensures source { IfOk result (λ s. named_source mapping ≡ Some s) }
    ensures refused { IfErr result (λ e. (e ≡ Error.Unsupported) × (named_source mapping ≡ None)) }
{
    match mapping {
        Mapping::Raw {
            layer,
            storage,
            offset,
            ..
        } if layer < usize::MAX => Ok(Source::Stored(Location {
            layer,
            storage,
            offset,
        })),
        Mapping::Zero { .. } => Ok(Source::Zero),
        Mapping::Raw { .. } | Mapping::Eof | Mapping::Special { .. } => Err(Error::Unsupported),
    }
}

/// The piece that begins at an offset inside the disk, of at most that many bytes.
///
/// [`Error::Unsupported`] is the end of the image, and bytes that a driver makes up; all else is
/// what the image's mapping is refused for.
pub fn next_piece<D: FormatDriverInstance>(
    image: &FormatAccess<D>,
    at: u64,
    most: u64,
) -> Result<Piece, Error>
    requires { 0 < most }
    ensures piece { IfOk result
        (λ p. IsPieceAt (target D.view image.now) «at» p × (p.count ≤ most)) }
    ensures refused { IfErr result (IsNoPiece D.view image.now «at» most) }
{
    let (mapping, count) = image.get_mapping(at, most)?;
    let source = source_of(mapping)?;
    Ok(Piece { at, count, source })
}

/// Puts a piece to the others: as a part of the last where it continues it, else as one of its own.
/// Refused, it is [`Error::Memory`].
fn put(pieces: &mut Vec<Piece>, next: Piece) -> Result<(), Error>
    requires { (before : List Piece) (last : Piece) → pieces.old.items ≡ before ++ last ∷ []
        → last.count + next.count < 2 ^ 64 }
    ensures put { OnOk result (IsPut pieces.old.items next pieces.new.items) }
    ensures memory { IfErr result (λ e. e ≡ Error.Memory) }
{
    let Some(last) = pieces.pop() else {
        pieces.push(next)?;
        return Ok(());
    };
    if last.continues(&next) {
        pieces.push(last.longer(next.count))?;
        return Ok(());
    }
    pieces.push(last)?;
    pieces.push(next)?;
    Ok(())
}

/// Where the bytes of an image's disk stand: pieces in order, without gap or overlap, from its
/// start to its end. None is empty, each byte stands where the image's mapping of it leads, and no
/// piece continues the one before.
///
/// A byte that can't be mapped has no piece, and the plan is refused as the mapping is:
/// [`Error::NoAccess`] for a part that is barred from access, [`Error::InvalidData`] for one that
/// the descriptor misplaces. [`Error::Unsupported`] is a byte that a driver makes up, or one inside
/// the disk that has no place. [`Error::Memory`] is no room for the pieces.
pub fn plan<D: FormatDriverInstance>(
    alloc: Global,
    image: &FormatAccess<D>,
) -> Result<Vec<Piece>, Error>
    ensures covers { IfOk result (λ v. IsPlan D.view image.now v.items) }
    ensures merged { IfOk result (λ v. IsMerged v.items) }
    ensures refusals { IfErr result (IsNoPlan D.view image.now) }
{
    let size = image.size();
    let mut pieces = Vec::new(alloc);
    let mut at = 0;
    while at < size {
        let next = next_piece(image, at, size - at)?;
        put(&mut pieces, next)?;
        at += next.count;
    }
    Ok(pieces)
}
