// SPDX-License-Identifier: MIT
//! Where the bytes of an open image's disk are.
ghost use Rattle.std.specs.Prelude.{◌≡◌, ◌<◌, ℕ, max, length, None, Ok, IsErr, IfSome};
ghost use Rattle.imago_storage.specs.declared.error.Error.{Error};
ghost use Rattle.imago_inflate.specs.Inflate.{inflated};
ghost use Rattle.imago_access.specs.Target.{target};
ghost use Rattle.imago_plan.specs.Pieces.{IsNoPiece};
ghost use Rattle.imago_session.specs.declared.session.Mapped.{Mapped};
ghost use Rattle.imago_session.specs.Files.{File, described_size};
ghost use Rattle.imago_session.specs.Opening.{IsOpenWith, IsOf, IfOpen};
ghost use Rattle.imago_session.specs.Mapping.{IsMappedAt, ShowsMapped};
ghost use Rattle.imago_c.specs.Answer.{code_of};
ghost use Rattle.imago_c.specs.Images.{Has, piece_place, compressed_place, place_record};

use crate::code::{DONE, code};
use crate::image::Image;
use imago_drivers::drivers::FormatDriverInstance;
use imago_inflate::inflate::inflate;
use imago_plan::piece::{Piece, Source};
use imago_session::compressed::Compressed;
use imago_session::session::{Layer, Mapped};
use imago_storage::error::Error;
use std::alloc::Global;

/// Bytes of a disk that stand in one place, or are a part of a compressed cluster. Offsets, counts
/// and lengths are in bytes.
#[repr(C)]
#[derive(Clone, Copy, Debug, PartialEq, Eq)]
pub struct PlaceRecord {
    /// The first byte's offset on the disk.
    pub at: u64,
    /// How many bytes there are.
    pub count: u64,
    /// The number of the file that has them, and 1; 0 for zeroes.
    pub file: u64,
    /// Where they begin in that file, or the stream of the compressed cluster does; 0 for zeroes.
    pub offset: u64,
    /// How many bytes of the file the stream of the compressed cluster may have, else 0.
    pub stream: u64,
    /// How many bytes the compressed cluster has, else 0.
    pub cluster: u64,
    /// How many bytes of the compressed cluster come before the first one, else 0.
    pub skip: u64,
    /// 0 for zeroes, 1 for bytes as they are read of the file, 2 for a part of a compressed cluster.
    pub kind: u32,
    /// The same length on each machine.
    pub unused: u32,
}

/// A piece as a record.
fn piece_record(piece: Piece) -> PlaceRecord
    ensures { result ≡ piece_place piece }
{
    let (kind, file, offset) = match piece.source {
        Source::Zero => (0, 0, 0),
        Source::Stored(from) => (
            1,
            from.layer.saturating_add(from.storage).saturating_add(1) as u64,
            from.offset,
        ),
    };
    PlaceRecord {
        at: piece.at,
        count: piece.count,
        file,
        offset,
        stream: 0,
        cluster: 0,
        skip: 0,
        kind,
        unused: 0,
    }
}

/// A part of a compressed cluster as a record.
fn compressed_record(part: Compressed) -> PlaceRecord
    ensures { result ≡ compressed_place part }
{
    PlaceRecord {
        at: part.at,
        count: part.count,
        file: part.file.saturating_add(1) as u64,
        offset: part.offset,
        stream: part.length,
        cluster: part.cluster,
        skip: part.skip,
        kind: 2,
        unused: 0,
    }
}

/// What is told as a record.
fn record_of(mapped: Mapped) -> PlaceRecord
    ensures { result ≡ place_record mapped }
{
    match mapped {
        Mapped::Plain(piece) => piece_record(piece),
        Mapped::Compressed(part) => compressed_record(part),
    }
}

/// Tells the size of the disk in bytes. [`Error::NotFound`] is an image that isn't open yet.
#[unsafe(no_mangle)]
pub extern "C" fn imago_image_size(alloc: Global, image: &mut Image, size: &mut u64) -> u32
    ensures same { image.new.handle.value ≡ image.old.handle.value }
    ensures told { result ≡ 0 → Has image.old.handle.value (λ s. IsOpenWith s.state
        (λ x. (files : ℕ → File) → IsOf files s → size.new ≡ described_size files x)) }
    ensures refused { 0 < result → size.new ≡ size.old }
    ensures cause { 0 < result → IfSome image.old.handle.value (λ s. IfOpen s.state (λ x. ⊥)) }
    ensures closed { image.old.handle.value ≡ None → result ≡ code_of Error.NotFound }
{
    let Some(session) = image.take(alloc) else {
        return code(Error::NotFound);
    };
    let told = session.size();
    *image = Image::of(session);
    match told {
        Some(told) => {
            *size = told;
            DONE
        }
        None => code(Error::NotFound),
    }
}

/// Tells where the bytes of the disk are from that offset on: of at most that many.
#[unsafe(no_mangle)]
pub extern "C" fn imago_image_map(
    alloc: Global,
    image: &mut Image,
    offset: u64,
    most: u64,
    place: &mut PlaceRecord,
) -> u32
    ensures same { image.new.handle.value ≡ image.old.handle.value }
    ensures told { let view = ⟦<Layer as FormatDriverInstance>⟧.view in
        result ≡ 0 → Has image.old.handle.value (λ s. IsOpenWith s.state (λ x. (m : Mapped)
        × (place.new ≡ place_record m) × IsMappedAt (target view x) «offset» (max most 1) m
        × ((files : ℕ → File) → IsOf files s → ShowsMapped files «offset» m x))) }
    ensures refused { 0 < result → place.new ≡ place.old }
    ensures cause { let view = ⟦<Layer as FormatDriverInstance>⟧.view in
        0 < result → IfSome image.old.handle.value (λ s. IfOpen s.state (λ x. (e : Error)
        × (result ≡ code_of e) × IsNoPiece view x «offset» (max most 1) e)) }
    ensures closed { image.old.handle.value ≡ None → result ≡ code_of Error.NotFound }
{
    let Some(session) = image.take(alloc) else {
        return code(Error::NotFound);
    };
    let told = session.map(offset, most.max(1));
    *image = Image::of(session);
    match told {
        Ok(mapped) => {
            *place = record_of(mapped);
            DONE
        }
        Err(refusal) => code(refusal),
    }
}

/// Makes a compressed cluster of its stream: the buffer has the cluster's length. No memory is
/// taken. [`Error::InvalidData`] is a faulty stream, and the buffer may hold anything then.
#[unsafe(no_mangle)]
pub extern "C" fn imago_unpack_cluster(stream: &[u8], cluster: &mut [u8]) -> u32
    ensures made { result ≡ 0 → inflated stream.now (length cluster.old) ≡ Ok cluster.new }
    ensures faulty { 0 < result → (result ≡ code_of Error.InvalidData)
        × IsErr (inflated stream.now (length cluster.old)) }
{
    match inflate(stream, cluster) {
        Ok(()) => DONE,
        Err(_) => code(Error::InvalidData),
    }
}
