// SPDX-License-Identifier: MIT
//! Where the bytes of a VMDK image's disk stand.
ghost use Rattle.std.specs.Prelude.{◌≡◌, ◌⊎◌, List, length, map, true, Ok, Err, IsOk};
ghost use Rattle.std.specs.Prelude.{IfOk, IfErr};
ghost use Rattle.imago_storage.specs.declared.error.Error.TheVariants as Error;
ghost use Rattle.imago_access.specs.Chain.{driver};
ghost use Rattle.imago_vmdk.specs.Line.{keys_accepted};
ghost use Rattle.imago_vmdk.specs.Image.{is_opened, accepted_in};
ghost use Rattle.imago_vmdk.specs.Reading.{reading_of};
ghost use Rattle.imago_plan.specs.declared.piece.Piece.{Piece};
ghost use Rattle.imago_c.specs.Answer.{IsAnswer, IsFront};
ghost use Rattle.imago_c.specs.Plan.{piece_record, IsPlanOf, MayHaveNoPlan};

use crate::code::{DONE, code};
use crate::front::put_front;
use imago_access::access::FormatAccess;
use imago_drivers::builder::FormatDriverBuilder;
use imago_drivers::drivers::FormatDriverInstance;
use imago_drivers::gate::ImplicitOpenGate;
use imago_plan::laws::plans_of_vmdk;
use imago_plan::piece::{Piece, Source};
use imago_plan::plan::plan;
use imago_storage::error::Error;
use imago_storage::mem::MemStorage;
use imago_storage::storage::StorageOpenOptions;
use imago_vmdk::vmdk::Vmdk;
use std::alloc::Global;

/// Bytes of a disk that stand in one place. Offsets and counts are in bytes.
#[repr(C)]
#[derive(Clone, Copy, Debug, PartialEq, Eq)]
pub struct PieceRecord {
    /// The first byte's offset on the disk.
    pub at: u64,
    /// How many bytes there are.
    pub count: u64,
    /// Which of the extents with a file has them, counted from 1; 0 for zeroes, which are in none.
    pub file: u64,
    /// Where they begin in that file; 0 for zeroes.
    pub offset: u64,
}

/// A piece as a record. Its layer isn't told: a VMDK image has none below it.
fn record(piece: &Piece) -> PieceRecord
    ensures { result ≡ piece_record piece.now }
{
    let (file, offset) = match piece.source {
        Source::Zero => (0, 0),
        Source::Stored(from) => (from.storage as u64, from.offset),
    };
    PieceRecord {
        at: piece.at,
        count: piece.count,
        file,
        offset,
    }
}

/// Records of pieces. Refused, it is [`Error::Memory`].
fn records(alloc: Global, pieces: &[Piece]) -> Result<Vec<PieceRecord>, Error>
    ensures records { IfOk result (λ v. v.items ≡ map piece_record pieces.now) }
    ensures memory { IfErr result (λ e. e ≡ Error.Memory) }
{
    let mut records = Vec::new(alloc);
    for piece in pieces {
        records.push(record(piece))?;
    }
    Ok(records)
}

/// Opens each storage as one without bytes: a plan doesn't depend on them.
#[derive(Drop)]
struct EmptyStorages(());

impl ImplicitOpenGate<MemStorage> for EmptyStorages {
    ghost opened = { λ o a b r. IsOk r };

    fn open_storage(
        &mut self,
        alloc: Global,
        _opts: StorageOpenOptions,
    ) -> Result<MemStorage, Error> {
        Ok(MemStorage::new(Vec::new(alloc)))
    }
}

/// An image of the disk that a descriptor describes. The storages of its extents have no bytes.
fn image_of(
    alloc: Global,
    accept_unknown_keys: bool,
    text: &[u8],
) -> Result<FormatAccess<Vmdk<MemStorage>>, Error>
    ensures opened { IfOk result (λ x. is_opened (driver x) ≡ true) }
    ensures keys { IfOk result (λ x. accepted_in (driver x) ≡ keys_accepted accept_unknown_keys) }
    ensures bytes { IfOk result
        (λ x. (⟦<Vmdk<MemStorage> as FormatDriverInstance>⟧.view (driver x)).stores.bytes 0
        ≡ text.now) }
    ensures reading { IfOk result
        (λ x. (extents : _) × (reading_of (keys_accepted accept_unknown_keys) text.now
        ≡ Ok (
          extents,
          (⟦<Vmdk<MemStorage> as FormatDriverInstance>⟧.view (driver x)).size,
        ))) }
    ensures refused { let reading = reading_of (keys_accepted accept_unknown_keys) text.now in
        IfErr result (λ e. (reading ≡ Err e) ⊎ MayHaveNoPlan reading e) }
{
    let descriptor = MemStorage::new(Vec::from_slice(alloc, text)?);
    let builder = Vmdk::builder(descriptor).accept_unknown_keys(accept_unknown_keys);
    Ok(FormatAccess::new(builder.open(alloc, EmptyStorages(()))?))
}

/// The plan of the disk that a descriptor describes.
fn plan_of(alloc: Global, accept_unknown_keys: bool, text: &[u8]) -> Result<Vec<Piece>, Error>
    ensures plan { let reading = reading_of (keys_accepted accept_unknown_keys) text.now in
        IfOk result
        (λ v. (d : _) × (reading ≡ Ok d) × IsPlanOf accept_unknown_keys text.now d.1 v.items) }
    ensures refused { let reading = reading_of (keys_accepted accept_unknown_keys) text.now in
        IfErr result (λ e. (reading ≡ Err e) ⊎ MayHaveNoPlan reading e) }
{
    let image = image_of(alloc, accept_unknown_keys, text)?;
    let pieces = plan(alloc, &image)?;
    plans_of_vmdk(&image);
    Ok(pieces)
}

/// Tells where the bytes of the disk stand that a descriptor describes: in the files of its
/// extents, or in none for zeroes. The pieces are in order, without gap or overlap, from the disk's
/// start to its end. As many of their records as fit are put into `pieces`, and how many there are
/// into `count`. Refused, both are as they were.
///
/// [`Error::NoAccess`] is a disk of which a part is barred from access, [`Error::InvalidData`] also
/// one of which a part is misplaced.
#[unsafe(no_mangle)]
pub extern "C" fn imago_vmdk_plan(
    alloc: Global,
    text: &[u8],
    accept_unknown_keys: bool,
    pieces: &mut [PieceRecord],
    count: &mut u64,
) -> u32
    ensures { let reading = reading_of (keys_accepted accept_unknown_keys) text.now in
        IsAnswer reading (MayHaveNoPlan reading)
        (λ d. (ps : List Piece) × IsPlanOf accept_unknown_keys text.now d.1 ps
        × IsFront pieces.old (map piece_record ps) pieces.new × (count.new ≡ length ps))
        ((pieces.new ≡ pieces.old) × (count.new ≡ count.old)) result }
{
    match told(alloc, accept_unknown_keys, text) {
        Ok(told) => {
            put_front(pieces, &told);
            *count = told.len() as u64;
            DONE
        }
        Err(refusal) => code(refusal),
    }
}

/// The records of that plan.
fn told(alloc: Global, accept_unknown_keys: bool, text: &[u8]) -> Result<Vec<PieceRecord>, Error>
    ensures plan { let reading = reading_of (keys_accepted accept_unknown_keys) text.now in
        IfOk result
        (λ v. (d : _) × (reading ≡ Ok d) × (ps : List Piece)
        × IsPlanOf accept_unknown_keys text.now d.1 ps × (v.items ≡ map piece_record ps)) }
    ensures refused { let reading = reading_of (keys_accepted accept_unknown_keys) text.now in
        IfErr result (λ e. (reading ≡ Err e) ⊎ MayHaveNoPlan reading e) }
{
    let pieces = plan_of(alloc, accept_unknown_keys, text)?;
    records(alloc, &pieces)
}
