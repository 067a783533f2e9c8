// SPDX-License-Identifier: MIT
//! The layers of images, over files of which only what is needed is in memory.
ghost use Rattle.std.specs.Prelude.{◌≡◌, ℕ, ◌+◌, ◌^◌, ◌<◌, ◌≤◌, List, Option, Some, None, true};
ghost use Rattle.std.specs.Prelude.{map, length};
ghost use Rattle.std.specs.Prelude.{◌++◌, IfOk, IfErr, OnOk, IfSome, IsOk};
ghost use Rattle.std.specs.List.{flat_map};
ghost use Rattle.std.specs.String.{string_bytes};
ghost use Rattle.imago_drivers.specs.declared.format.Format.{Format};
ghost use Rattle.imago_vmdk.specs.Image.{descriptor_in, is_opened, accepted_in};
ghost use Rattle.imago_vmdk.specs.Line.{extent_with};
ghost use Rattle.imago_storage.specs.Bytes.{bytes_at};
ghost use Rattle.imago_formats.specs.Signatures.{told_by_first, told_by_last, signature_of};
ghost use Rattle.imago_formats.specs.Signatures.{first_block, last_block};
ghost use Rattle.imago_session.specs.Loaded.{file_length};
ghost use Rattle.imago_session.specs.Blocks.{IsMissing, IsPartOf};
ghost use Rattle.imago_session.specs.Known.{AreKnownOf};
ghost use Rattle.imago_session.specs.declared.permitted.Permitted.{Permitted};
ghost use Rattle.imago_session.specs.Files.{File, IsFormatBy, file_name, format_told};
ghost use Rattle.imago_session.specs.Found.{IsFoundOf, IsLoadingOf, IsBlockGiven};
ghost use Rattle.imago_session.specs.Found.{block_start, block_count, IsFoundIn, IsFurther};
ghost use Rattle.imago_session.specs.Refusals.{is_far as is_far_extent, has_far as has_far_extent};
ghost use Rattle.imago_session.specs.Refusals.{IsFaultOrMemory, IsForeignOrMemory, IsCause};
ghost use Rattle.imago_session.specs.Steps.{IfMissing, IfReady};

use crate::block::{BLOCK, Step, first_missing, part};
use crate::loaded::{LoadedFile, WholeBlocks};
use crate::loading::{Loading, Tables};
use crate::permitted::Permitted;
use crate::tables::{next_missing, tables_of};
use imago_any_driver::any::AnyDriver;
use imago_drivers::builder::FormatDriverBuilder;
use imago_drivers::drivers::Format;
use imago_drivers::gate::ImplicitOpenGate;
use imago_drivers::raw::Raw;
use imago_formats::signature::{self, Signature};
use imago_qcow2::laws::same_tables_stand_alike;
use imago_qcow2::qcow2::Qcow2;
use imago_storage::error::Error;
use imago_storage::storage::StorageOpenOptions;
use imago_vmdk::descriptor;
use imago_vmdk::line::{Accepted, Extent};
use imago_vmdk::vmdk::Vmdk;
use std::alloc::Global;

/// The driver of a layer.
pub type Layer = AnyDriver<LoadedFile>;

/// How many bytes a sector has, in which a descriptor counts.
const SECTOR_SIZE: u64 = 512;

/// The most bytes that a descriptor may have. No longer file is looked at as one.
const LONGEST_DESCRIPTOR: u64 = 1 << 21;

impl Loading {
    /// Where the block begins in the file, and how many bytes of it the file has.
    pub(crate) fn block(&self) -> (u64, u64)
        ensures start { result.0 ≡ block_start self.now }
        ensures count { result.1 ≡ block_count self.now }
        ensures some { 0 < result.1 }
    {
        let length = self.file.length();
        let block = self.file.block_length();
        let start = self.number * block;
        (start, block.min(length - start))
    }
}

/// What is made of a file of which some blocks are in memory.
#[derive(Drop)]
pub(crate) enum Found {
    /// Nothing yet.
    Loading(Loading),
    /// A layer, and the names of the files of its extents.
    Layer(Layer, Vec<String>),
}

/// So many bytes of the file from the offset on, once they are in memory. Refused, it is
/// [`Error::Memory`].
fn block_at(alloc: Global, file: &LoadedFile, at: u64, count: u64) -> Result<Step<Vec<u8>>, Error>
    requires inside { at + count ≤ file_length file.now }
    requires fits { at + count < 2 ^ 64 }
    ensures missing { IfOk result (IfMissing (IsMissing file.now)) }
    ensures ready { IfOk result (IfReady (λ block. (bytes : List ℕ) → IsPartOf bytes file.now
        → block.items ≡ bytes_at bytes at count)) }
    ensures memory { IfErr result (λ e. e ≡ Error.Memory) }
{
    if let Some(number) = first_missing(file, at, count) {
        return Ok(Step::Missing(number));
    }
    let block = part(alloc, file, at, count)?;
    Ok(Step::Ready(block))
}

/// What the file is recognised as by its first 512 bytes, or by all of them if it is shorter.
/// Refused, it is [`Error::Memory`].
fn first_signature(alloc: Global, file: &LoadedFile) -> Result<Step<Option<Signature>>, Error>
    ensures missing { IfOk result (IfMissing (IsMissing file.now)) }
    ensures ready { IfOk result (IfReady (λ found. (bytes : List ℕ) → IsPartOf bytes file.now
        → found ≡ told_by_first None (first_block bytes))) }
    ensures memory { IfErr result (λ e. e ≡ Error.Memory) }
{
    let count = file.length().min(signature::BLOCK as u64);
    match block_at(alloc, file, 0, count)? {
        Step::Missing(number) => Ok(Step::Missing(number)),
        Step::Ready(block) => Ok(Step::Ready(Signature::of_first(&block, None))),
    }
}

/// The same by its last 512 bytes, if it has so many.
fn last_signature(alloc: Global, file: &LoadedFile) -> Result<Step<Option<Signature>>, Error>
    ensures missing { IfOk result (IfMissing (IsMissing file.now)) }
    ensures ready { IfOk result (IfReady (λ found. (bytes : List ℕ) → IsPartOf bytes file.now
        → found ≡ told_by_last None (last_block bytes))) }
    ensures memory { IfErr result (λ e. e ≡ Error.Memory) }
{
    let count = signature::BLOCK as u64;
    let length = file.length();
    if length < count {
        return Ok(Step::Ready(None));
    }
    match block_at(alloc, file, length - count, count)? {
        Step::Missing(number) => Ok(Step::Missing(number)),
        Step::Ready(block) => Ok(Step::Ready(Signature::of_last(&block, None))),
    }
}

/// What the file is recognised as: by its first bytes, and only where they tell nothing by its last
/// ones, which are asked for then. Refused, it is [`Error::Memory`].
fn signature_in(alloc: Global, file: &LoadedFile) -> Result<Step<Option<Signature>>, Error>
    ensures missing { IfOk result (IfMissing (IsMissing file.now)) }
    ensures ready { IfOk result (IfReady (λ found. (bytes : List ℕ) → IsPartOf bytes file.now
        → found ≡ signature_of bytes)) }
    ensures memory { IfErr result (λ e. e ≡ Error.Memory) }
{
    match first_signature(alloc, file)? {
        Step::Missing(number) => Ok(Step::Missing(number)),
        Step::Ready(Some(found)) => Ok(Step::Ready(Some(found))),
        Step::Ready(None) => last_signature(alloc, file),
    }
}

/// The format of a file that is recognised as that, where nobody says it: a qcow2 image, a VMDK
/// descriptor, or a raw disk where it is recognised as nothing. A file of another kind has none:
/// who takes its bytes for those of a disk has to say so.
fn format_for(found: Option<Signature>) -> Option<Format>
    ensures { result ≡ format_told found }
{
    match found {
        None => Some(Format::Raw),
        Some(Signature::Qcow2) => Some(Format::Qcow2),
        Some(Signature::Descriptor) => Some(Format::Vmdk),
        Some(_) => None,
    }
}

/// The format of a file of which none is said: [`Error::Unsupported`] where it is recognised as
/// what isn't opened.
fn recognised(alloc: Global, file: &LoadedFile) -> Result<Step<Format>, Error>
    ensures missing { IfOk result (IfMissing (IsMissing file.now)) }
    ensures ready { IfOk result (IfReady (λ f. (bytes : List ℕ) → IsPartOf bytes file.now
        → format_told (signature_of bytes) ≡ Some f)) }
    ensures refused { IfErr result (λ e. (bytes : List ℕ) → IsPartOf bytes file.now
        → IsForeignOrMemory None bytes e) }
{
    match signature_in(alloc, file)? {
        Step::Missing(number) => Ok(Step::Missing(number)),
        Step::Ready(found) => match format_for(found) {
            Some(format) => Ok(Step::Ready(format)),
            None => Err(Error::Unsupported),
        },
    }
}

/// The format of the file: the one that is said, or the one that it is recognised as.
fn format_of(alloc: Global, file: &LoadedFile, said: Option<Format>) -> Result<Step<Format>, Error>
    ensures missing { IfOk result (IfMissing (IsMissing file.now)) }
    ensures ready { IfOk result (IfReady (λ f. (bytes : List ℕ) → IsPartOf bytes file.now
        → IsFormatBy said bytes f)) }
    ensures refused { IfErr result (λ e. (bytes : List ℕ) → IsPartOf bytes file.now
        → IsForeignOrMemory said bytes e) }
{
    match said {
        Some(format) => Ok(Step::Ready(format)),
        None => recognised(alloc, file),
    }
}

/// Opens each storage as a file without bytes: where an extent's bytes stand doesn't depend on
/// them.
#[derive(Drop)]
struct EmptyExtents(Global);

impl ImplicitOpenGate<LoadedFile> for EmptyExtents {
    ghost opened = { λ o a b r. IsOk r };

    fn open_storage(
        &mut self,
        _alloc: Global,
        _opts: StorageOpenOptions,
    ) -> Result<LoadedFile, Error> {
        Ok(LoadedFile::new(self.0, 0, BLOCK))
    }
}

/// The image of a descriptor, all of which is in memory, and in which no fault was found. So it is
/// refused for memory alone: [`Error::Memory`].
fn open_vmdk(alloc: Global, accepted: Accepted, file: LoadedFile) -> Result<Vmdk<LoadedFile>, Error>
    ensures file { IfOk result (λ v. descriptor_in v ≡ file) }
    ensures opened { IfOk result (λ v. is_opened v ≡ true) }
    ensures accepted { IfOk result (λ v. accepted_in v ≡ accepted) }
    ensures memory { IfErr result (λ e. e ≡ Error.Memory) }
{
    let builder = Vmdk::builder(file)
        .accept_unknown_keys(accepted.unknown_keys)
        .accept_vmfs(accepted.vmfs);
    match builder.open(alloc, EmptyExtents(alloc)) {
        Ok(image) => Ok(image),
        Err(_) => Err(Error::Memory),
    }
}

/// Whether an extent begins in its file at an offset that doesn't fit 64 bits.
fn is_far(extent: &Extent<String>) -> bool
    ensures { result ≡ is_far_extent extent.now }
{
    match extent {
        Extent::Flat { offset, .. } => offset.checked_mul(SECTOR_SIZE).is_none(),
        Extent::Zero { .. } | Extent::NoAccess { .. } => false,
    }
}

/// Whether one of these extents does.
fn has_far(extents: &[Extent<String>]) -> bool
    ensures { result ≡ has_far_extent extents.now }
{
    for extent in extents {
        if is_far(extent) {
            return true;
        }
    }
    false
}

/// The names of the files of extents, in order.
fn names_of(alloc: Global, extents: &[Extent<String>]) -> Result<Vec<String>, Error>
    ensures names { IfOk result (λ v. map string_bytes v.items
        ≡ flat_map file_name (map (extent_with string_bytes) extents.now)) }
    ensures memory { IfErr result (λ e. e ≡ Error.Memory) }
{
    let mut names = Vec::new(alloc);
    for extent in extents {
        push_name(alloc, &mut names, extent)?;
    }
    Ok(names)
}

/// Puts the name of an extent's file behind the others, if it has one. Refused, it is
/// [`Error::Memory`].
fn push_name(alloc: Global, names: &mut Vec<String>, extent: &Extent<String>) -> Result<(), Error>
    ensures names { OnOk result (map string_bytes names.new.items ≡ map string_bytes names.old.items
        ++ file_name (extent_with string_bytes extent.now)) }
    ensures memory { IfErr result (λ e. e ≡ Error.Memory) }
{
    if let Extent::Flat { name, .. } = extent {
        names.push(String::from_str(alloc, name)?)?;
    }
    Ok(())
}

/// What is made of a descriptor's file.
fn load_vmdk(
    alloc: Global,
    permitted: Permitted,
    file: LoadedFile,
    format: Option<Format>,
    tables: Option<Tables>,
) -> Result<Found, Error>
    ensures agrees { IfOk result (λ r. (f : File) → IsPartOf f.bytes file
        → AreKnownOf permitted.tables f.bytes file tables → f.format ≡ format → IsFormatBy format f.bytes Format.Vmdk
        → IsFoundOf permitted f r) }
    ensures same { IfOk result (IsFoundIn file) }
    ensures refused { IfErr result (λ e. (bytes : List ℕ) → IsPartOf bytes file
        → IsFaultOrMemory permitted bytes Format.Vmdk e) }
{
    let length = file.length();
    if length > LONGEST_DESCRIPTOR {
        return Err(Error::InvalidData);
    }
    if let Some(number) = first_missing(&file, 0, length) {
        return Ok(Found::Loading(Loading {
            file,
            format,
            tables,
            number,
        }));
    }
    let text = part(alloc, &file, 0, length)?;
    let read = descriptor::read(alloc, permitted.accepted, &text)?;
    if has_far(&read.extents) {
        return Err(Error::InvalidData);
    }
    let names = names_of(alloc, &read.extents)?;
    let image = open_vmdk(alloc, permitted.accepted, file)?;
    Ok(Found::Layer(AnyDriver::Vmdk(image), names))
}

/// What is made of a qcow2 file.
fn load_qcow2(
    alloc: Global,
    permitted: Permitted,
    file: LoadedFile,
    format: Option<Format>,
    known: Option<Tables>,
) -> Result<Found, Error>
    ensures agrees { IfOk result (λ r. (f : File) → IsPartOf f.bytes file
        → AreKnownOf permitted.tables f.bytes file known → f.format ≡ format → IsFormatBy format f.bytes Format.Qcow2
        → IsFoundOf permitted f r) }
    ensures same { IfOk result (IsFoundIn file) }
    ensures refused { IfErr result (λ e. (bytes : List ℕ) → IsPartOf bytes file
        → AreKnownOf permitted.tables bytes file known → IsFaultOrMemory permitted bytes Format.Qcow2 e) }
{
    let mut tables = match tables_of(alloc, &file, known, permitted.tables)? {
        Step::Missing(number) => {
            return Ok(Found::Loading(Loading {
                file,
                format,
                tables: None,
                number,
            }));
        }
        Step::Ready(tables) => tables,
    };
    let length = file.length();
    if let Some(number) = next_missing(&file, length, &mut tables) {
        return Ok(Found::Loading(Loading {
            file,
            format,
            tables: Some(tables),
            number,
        }));
    }
    same_tables_stand_alike();
    let image = Qcow2::open_sharing(alloc, file, &WholeBlocks)?;
    Ok(Found::Layer(AnyDriver::Qcow2(image), Vec::new(alloc)))
}

/// What is made of a raw file. Refused, it is [`Error::Memory`].
fn load_raw(alloc: Global, permitted: Permitted, file: LoadedFile) -> Result<Found, Error>
    ensures agrees { IfOk result (λ r. (f : File) → IsPartOf f.bytes file
        → IsFormatBy f.format f.bytes Format.Raw → IsFoundOf permitted f r) }
    ensures same { IfOk result (IsFoundIn file) }
    ensures memory { IfErr result (λ e. e ≡ Error.Memory) }
{
    let _ = permitted;
    let image = Raw::open_image(file, false)?;
    Ok(Found::Layer(AnyDriver::Raw(image), Vec::new(alloc)))
}

/// What is made of a file in that format.
fn load_as(
    alloc: Global,
    permitted: Permitted,
    file: LoadedFile,
    format: Option<Format>,
    tables: Option<Tables>,
    taken: Format,
) -> Result<Found, Error>
    ensures agrees { IfOk result (λ r. (f : File) → IsPartOf f.bytes file
        → AreKnownOf permitted.tables f.bytes file tables → f.format ≡ format → IsFormatBy format f.bytes taken
        → IsFoundOf permitted f r) }
    ensures same { IfOk result (IsFoundIn file) }
    ensures refused { IfErr result (λ e. (bytes : List ℕ) → IsPartOf bytes file
        → AreKnownOf permitted.tables bytes file tables → IsFaultOrMemory permitted bytes taken e) }
{
    match taken {
        Format::Raw => load_raw(alloc, permitted, file),
        Format::Vmdk => load_vmdk(alloc, permitted, file, format, tables),
        Format::Qcow2 => load_qcow2(alloc, permitted, file, format, tables),
        Format::Cow => Err(Error::Unsupported),
    }
}

/// What is made of a file of which some blocks are in memory.
fn load(
    alloc: Global,
    permitted: Permitted,
    file: LoadedFile,
    format: Option<Format>,
    tables: Option<Tables>,
) -> Result<Found, Error>
    ensures agrees { IfOk result (λ r. (f : File) → IsPartOf f.bytes file
        → AreKnownOf permitted.tables f.bytes file tables → f.format ≡ format → IsFoundOf permitted f r) }
    ensures same { IfOk result (IsFoundIn file) }
    ensures refused { IfErr result (λ e. (f : File) → IsPartOf f.bytes file
        → AreKnownOf permitted.tables f.bytes file tables → f.format ≡ format → IsCause permitted f e) }
{
    match format_of(alloc, &file, format)? {
        Step::Missing(number) => Ok(Found::Loading(Loading {
            file,
            format,
            tables,
            number,
        })),
        Step::Ready(taken) => load_as(alloc, permitted, file, format, tables, taken),
    }
}

/// What is made of a file of that many bytes, of which nothing is in memory.
pub(crate) fn begin(
    alloc: Global,
    permitted: Permitted,
    count: u64,
    format: Option<Format>,
) -> Result<Found, Error>
    ensures agrees { IfOk result (λ r. (f : File) → length f.bytes ≡ count → f.format ≡ format
        → IsFoundOf permitted f r) }
    ensures refused { IfErr result (λ e. (f : File) → length f.bytes ≡ count → f.format ≡ format
        → IsCause permitted f e) }
{
    load(
        alloc,
        permitted,
        LoadedFile::new(alloc, count, BLOCK),
        format,
        None,
    )
}

/// What is made of a file with the block that it was asked for.
pub(crate) fn resume(
    alloc: Global,
    permitted: Permitted,
    loading: Loading,
    block: Vec<u8>,
) -> Result<Found, Error>
    ensures agrees { IfOk result (λ r. (f : File) → IsLoadingOf permitted f loading
        → IsBlockGiven f.bytes loading block.items → IsFoundOf permitted f r) }
    ensures further { IfOk result (IsFurther loading) }
    ensures refused { IfErr result (λ e. (f : File) → IsLoadingOf permitted f loading
        → IsBlockGiven f.bytes loading block.items → IsCause permitted f e) }
{
    let Loading {
        mut file,
        format,
        tables,
        number,
    } = loading;
    file.put_block(number, block)?;
    load(alloc, permitted, file, format, tables)
}
