// SPDX-License-Identifier: MIT
//! An image, opened by its path.
ghost use Rattle.std.specs.Prelude.{◌≡◌, ◌+◌, ◌++◌, ◌∷◌, [], ℕ, List, Some, true, false};
ghost use Rattle.std.specs.Prelude.{length};
ghost use Rattle.std.specs.Prelude.{IfOk, IfErr, IfSome, OnOk, Bool};
ghost use Rattle.std.specs.String.{string_bytes};
ghost use Rattle.imago_images.specs.declared.format.ImageFormat.TheVariants as Of;
ghost use Rattle.imago_vmdk.specs.declared.line.Accepted.{Accepted};
ghost use Rattle.imago_images.specs.declared.opening.OtherFiles.{OtherFiles};
ghost use Rattle.imago_images.specs.declared.opening.OtherFiles.TheVariants as Others;
ghost use Rattle.imago_images.specs.Alone.{IsImageOf, IsOfOneFormat};
ghost use Rattle.imago_images.specs.Formats.{IsFormatBy, SaysFormat};
ghost use Rattle.imago_images.specs.Gate.{IsInside, IsLetThrough};
ghost use Rattle.imago_images.specs.Images.{IsImageIn, IsToWrite, IsReadOnly};
ghost use Rattle.imago_images.specs.ImageFiles.{HasFiles};
ghost use Rattle.imago_access.specs.Chain.{driver as driver_of};
ghost use Rattle.imago_qcow2.specs.Limit.{IsWithin};
ghost use Rattle.imago_images.specs.Layers.{tables_in, tables_of, AreWithin};
ghost use Rattle.imago_images.specs.Longest.{IsNoLonger, HasShortL1};
ghost use Rattle.imago_images.specs.HostBytes.{HasBytes, SaysAlike};
ghost use Rattle.imago_images.specs.Layers.{ShowsLayers};
ghost use Rattle.imago_drivers.specs.Raw.{raw_place};
ghost use Rattle.imago_images.specs.Way.{entered, is_among};
ghost use Rattle.imago_images.specs.Chains.{HasIdentity, IsNextRefused, IsChainRefused};
ghost use Rattle.imago_images.specs.Chains.{IsImageRefused, IsEndingWay, HasEnd};
ghost use Rattle.imago_images.specs.Refusals.{IsBySystem, IsRefused, IsUnread};

use crate::alone::refuse_another;
use crate::failure::{OpenError, Reason};
use crate::file::{PathFile, PathStorage, named_storage, storage_of};
use crate::files::{Files, WritableFiles};
use crate::format::ImageFormat;
use crate::gate::{FolderGate, Named};
use crate::layer::{Below, Layer, format_of, open_layer, raw_layer};
use crate::layered::{alone, over, size};
use crate::longest::{refuse_larger, refuse_size};
use crate::opening::Opening;
use crate::way::Way;
use imago_access::access::FormatAccess;
use imago_any_driver::any::AnyDriver;
use imago_drivers::drivers::FormatDriverInstance;
use imago_file::file::FileStorage;
use imago_storage::storage::Storage;
use std::alloc::Global;

/// The most files that a chain has below its first.
const MOST: usize = 199;

/// An image in files.
pub type FileImage<'a, H> = FormatAccess<AnyDriver<PathStorage<'a, H>>>;

/// An image in a file that is open for writing.
pub type WritableImage<F> = FormatAccess<AnyDriver<FileStorage<F>>>;

/// Opens the image of a path: its file, the files of its extents or, of a qcow2 image, the whole
/// chain of files below it. Tells the format of the file of that path too.
///
/// Each file is looked at before it is read. The image holds none open; its host may. What is read
/// are the first 512 bytes of a file whose format isn't said to be raw, the last 512 where the
/// first tell nothing, and headers, tables and descriptors; data is read when the image is. Where
/// no other files are opened, both are read of each file, and 5 bytes at 32769. No file is written
/// to, now or later.
///
/// # Errors
///
/// [`OpenError::OfFile`] names the file that can't be used, and its
/// [`Reason`](crate::failure::Reason) says why: so a chain of more than 200 files is
/// `TooManyBelow`, one that leads back to a file above is `Loop`, a file whose tables are larger
/// than the opening allows is `TablesTooLarge`, and one whose L1 table has more than 32 MiB is
/// `L1TooLong`. [`OpenError::Memory`] means that an allocation failed.
pub fn open_image<'a, H: Files>(
    host: &'a H,
    path: &str,
    how: Opening,
) -> Result<(ImageFormat, FileImage<'a, H>), OpenError>
    ensures format { IfOk result (λ r. IfSome (H.contents host.now)
        (λ files. IsFormatBy how.format path.now (files path.now) r.0)) }
    ensures image { IfOk result (λ r. IfSome (H.contents host.now)
        (λ files. IsImageIn ⟦<AnyDriver<PathStorage<'a, H>> as FormatDriverInstance>⟧.view
        how files path.now r.0 r.1)) }
    ensures files { IfOk result (λ r. IfSome (H.contents host.now)
        (λ files. HasFiles ⟦<AnyDriver<PathStorage<'a, H>> as FormatDriverInstance>⟧.view
        how.accepted files path.now r.0 r.1)) }
    ensures alone { IfOk result (λ r. how.other_files ≡ Others.None → IfSome (H.contents host.now)
        (λ files. IsImageOf ⟦<AnyDriver<PathStorage<'a, H>> as FormatDriverInstance>⟧.view
        how (files path.now) path.now r.0 r.1)) }
    ensures one { IfOk result (λ r. IfSome (H.contents host.now)
        (λ files. IsOfOneFormat how.other_files how.format (files path.now))) }
    ensures end { IfOk result (λ r. IfSome (H.contents host.now)
        (λ files. HasEnd files (H.statuses host.now) (H.real_paths host.now) how path.now r.0)) }
    ensures read_only { IfOk result (λ r.
        IsReadOnly ⟦<AnyDriver<PathStorage<'a, H>> as FormatDriverInstance>⟧.view r.1) }
    ensures tables { IfOk result (λ r. AreWithin how.tables (tables_of tables_in r.1)) }
    ensures longest { IfOk result (λ r. IsWithin how.longest
        (⟦<AnyDriver<PathStorage<'a, H>> as FormatDriverInstance>⟧.view (driver_of r.1)).size) }
    ensures l1 { IfOk result (λ r. IfSome (H.contents host.now)
        (λ files. HasShortL1 r.0 (files path.now))) }
    ensures refused { IfErr result (λ e. IfSome (H.contents host.now)
        (λ files. IsImageRefused false files (H.statuses host.now) (H.real_paths host.now)
        how.other_files how how.format path.now e)) }
{
    let mut way = Way::new(host.alloc());
    let (file, format) = first_file(host, path, how, &mut way)?;
    let image = open_chain(host, path, file, format, how, &mut way, MOST)?;
    // The file may have changed meanwhile.
    refuse_size(host.alloc(), path, size(&image), how.longest)?;
    Ok((format, image))
}

/// The file of an image's path, with which the way begins, and its format.
fn first_file<'a, H: Files>(
    host: &'a H,
    path: &str,
    how: Opening,
    way: &mut Way,
) -> Result<(PathStorage<'a, H>, ImageFormat), OpenError>
    requires first { entered way.old ≡ [] }
    ensures told { IfOk result (λ r. IfSome (H.contents host.now)
        (λ files. HasBytes ⟦<PathStorage<'a, H> as Storage>⟧.features
        ⟦<PathStorage<'a, H> as Storage>⟧.bytes (files path.now) r.0)) }
    ensures path { IfOk result (λ r. (⟦<PathStorage<'a, H> as Storage>⟧.features r.0).filename
        ≡ Some path.now) }
    ensures format { IfOk result (λ r. IfSome (H.contents host.now)
        (λ files. IsFormatBy how.format path.now (files path.now) r.1)) }
    ensures one { IfOk result (λ _. IfSome (H.contents host.now)
        (λ files. IsOfOneFormat how.other_files how.format (files path.now))) }
    ensures longest { IfOk result (λ r. IfSome (H.contents host.now)
        (λ files. IsNoLonger how.longest how.accepted r.1 (files path.now))) }
    ensures l1 { IfOk result (λ r. IfSome (H.contents host.now)
        (λ files. HasShortL1 r.1 (files path.now))) }
    ensures entered { IfOk result (λ _. (id : ℕ × ℕ)
        × HasIdentity (H.statuses host.now) path.now id × (entered way.new ≡ id ∷ [])) }
    ensures refused { (writable : Bool) → IfErr result (λ e. IfSome (H.contents host.now)
        (λ files. IsImageRefused writable files (H.statuses host.now) (H.real_paths host.now)
        how.other_files how how.format path.now e)) }
{
    let file = PathFile::look_at(host, path)?;
    way.enter(host.alloc(), &file)?;
    let file = storage_of(file, path)?;
    refuse_another(host.alloc(), path, &file, how.format, how.other_files)?;
    let format = format_of(host.alloc(), path, &file, how.format)?;
    refuse_larger(host.alloc(), path, &file, format, how)?;
    Ok((file, format))
}

/// Opens the image of a path for writing. Only raw images can be, and an image of another format is
/// `OnlyRead`. The image holds its file open, and is written like any other; nothing is written by
/// this call. Otherwise it is refused as [`open_image`] is.
///
/// Say the format of an image that a guest writes to. Else the guest chooses it: it can write the
/// header of another format to the beginning of its disk, and the next opening takes the image for
/// one that may name other files.
pub fn open_image_to_write<H: WritableFiles>(
    host: &mut H,
    path: &str,
    how: Opening,
) -> Result<WritableImage<H::File>, OpenError>
    ensures format { OnOk result (IfSome (H.contents host.old)
        (λ files. IsFormatBy how.format path.now (files path.now) Of.Raw)) }
    ensures image { IfOk result (λ x. IfSome (H.contents host.old)
        (λ files. IsImageIn ⟦<AnyDriver<FileStorage<H::File>> as FormatDriverInstance>⟧.view
        how files path.now Of.Raw x)) }
    ensures one { OnOk result (IfSome (H.contents host.old)
        (λ files. IsOfOneFormat how.other_files how.format (files path.now))) }
    ensures writable { IfOk result
        (IsToWrite ⟦<AnyDriver<FileStorage<H::File>> as FormatDriverInstance>⟧.view) }
    ensures longest { IfOk result (λ x. IsWithin how.longest
        (⟦<AnyDriver<FileStorage<H::File>> as FormatDriverInstance>⟧.view (driver_of x)).size) }
    ensures others { IfSome (H.contents host.old)
        (λ files. SaysAlike (H.contents host.new) files path.now) }
    ensures refused { IfErr result (λ e. IfSome (H.contents host.old)
        (λ files. IsImageRefused true files (H.statuses host.old) (H.real_paths host.old)
        how.other_files how how.format path.now e)) }
{
    test_to_write(&*host, path, how)?;
    let alloc = host.alloc();
    let open = opened_file(host, path)?;
    let file = named_storage(alloc, path, open, true)?;
    let image = raw_image(alloc, path, file)?;
    refuse_size(alloc, path, size(&image), how.longest)?;
    Ok(image)
}

/// Opens the file of a path for writing.
fn opened_file<H: WritableFiles>(host: &mut H, path: &str) -> Result<H::File, OpenError>
    ensures told { IfOk result (λ f. IfSome (H.contents host.old)
        (λ files. H.File.contents f ≡ Some (files path.now))) }
    ensures others { IfSome (H.contents host.old)
        (λ files. SaysAlike (H.contents host.new) files path.now) }
    ensures refused { IfErr result (IsRefused path.now IsBySystem) }
{
    let answer = host.open_to_write(path);
    OpenError::or_system((*host).alloc(), path, answer)
}

/// Refuses the image of a path unless it is one that can be written to.
fn test_to_write<H: Files>(host: &H, path: &str, how: Opening) -> Result<(), OpenError>
    ensures format { OnOk result (IfSome (H.contents host.now)
        (λ files. IsFormatBy how.format path.now (files path.now) Of.Raw)) }
    ensures one { OnOk result (IfSome (H.contents host.now)
        (λ files. IsOfOneFormat how.other_files how.format (files path.now))) }
    ensures refused { IfErr result (λ e. IfSome (H.contents host.now)
        (λ files. IsImageRefused true files (H.statuses host.now) (H.real_paths host.now)
        how.other_files how how.format path.now e)) }
{
    let mut way = Way::new(host.alloc());
    let (_, format) = first_file(host, path, how, &mut way)?;
    match format {
        ImageFormat::Raw => Ok(()),
        _ => Err(OpenError::of_file(host.alloc(), path, Reason::OnlyRead)),
    }
}

/// The image of a raw file that is open for writing.
fn raw_image<S: Storage>(
    alloc: Global,
    path: &str,
    file: S,
) -> Result<FormatAccess<AnyDriver<S>>, OpenError>
    ensures image { (bytes : List ℕ) → HasBytes S.features S.bytes bytes file → IfOk result
        (λ x. ShowsLayers ⟦<AnyDriver<S> as FormatDriverInstance>⟧.view x (length bytes)
        (raw_place (length bytes) bytes ∷ [])) }
    ensures writable { (S.features file).offers_resize ≡ true → IfOk result
        (IsToWrite ⟦<AnyDriver<S> as FormatDriverInstance>⟧.view) }
    ensures refused { IfErr result (IsRefused path.now IsUnread) }
{
    let layer = raw_layer(alloc, path, file, true)?;
    Ok(alone(layer.driver))
}

/// Opens the chain that begins with that file, which the way has entered, and goes on with at most
/// so many.
fn open_chain<'a, H: Files>(
    host: &'a H,
    path: &str,
    file: PathStorage<'a, H>,
    format: ImageFormat,
    how: Opening,
    way: &mut Way,
    most: usize,
) -> Result<FileImage<'a, H>, OpenError>
    requires told { IfSome (H.contents host.now)
        (λ files. HasBytes ⟦<PathStorage<'a, H> as Storage>⟧.features
        ⟦<PathStorage<'a, H> as Storage>⟧.bytes (files path.now) file) }
    requires path { (⟦<PathStorage<'a, H> as Storage>⟧.features file).filename ≡ Some path.now }
    requires depth { length (entered way.old) + most ≡ 200 }
    requires longest { IfSome (H.contents host.now)
        (λ files. IsNoLonger how.longest how.accepted format (files path.now)) }
    requires l1 { IfSome (H.contents host.now) (λ files. HasShortL1 format (files path.now)) }
    ensures image { IfOk result (λ x. IfSome (H.contents host.now)
        (λ files. IsImageIn ⟦<AnyDriver<PathStorage<'a, H>> as FormatDriverInstance>⟧.view
        how files path.now format x)) }
    ensures files { IfOk result (λ x. IfSome (H.contents host.now)
        (λ files. HasFiles ⟦<AnyDriver<PathStorage<'a, H>> as FormatDriverInstance>⟧.view
        how.accepted files path.now format x)) }
    ensures read_only { IfOk result
        (IsReadOnly ⟦<AnyDriver<PathStorage<'a, H>> as FormatDriverInstance>⟧.view) }
    ensures tables { IfOk result (λ x. AreWithin how.tables (tables_of tables_in x)) }
    ensures end { IfOk result (λ _. IfSome (H.contents host.now)
        (λ files. IsEndingWay files (H.statuses host.now) (H.real_paths host.now) how
        (entered way.old) path.now format most)) }
    ensures refused { IfErr result (λ e. IfSome (H.contents host.now)
        (λ files. (down : List (List ℕ)) × IsChainRefused files (H.statuses host.now)
        (H.real_paths host.now) how.other_files how (entered way.old) path.now format down e)) }
{
    let alloc = host.alloc();
    let Layer { driver, below } = open_layer(host, path, file, format, how)?;
    let Some(next) = below else {
        return Ok(alone(driver));
    };
    if most == 0 {
        return Err(way.too_many_below(alloc, path));
    }
    let (file, format) = next_file(host, path, &next, how, way)?;
    let below = open_chain(host, &next.path, file, format, how, way, most - 1)?;
    Ok(over(alloc, driver, below)?)
}

/// The file below that of a path, by which the way goes on, and its format.
fn next_file<'a, H: Files>(
    host: &'a H,
    path: &str,
    next: &Below,
    how: Opening,
    way: &mut Way,
) -> Result<(PathStorage<'a, H>, ImageFormat), OpenError>
    ensures told { IfOk result (λ r. IfSome (H.contents host.now)
        (λ files. HasBytes ⟦<PathStorage<'a, H> as Storage>⟧.features
        ⟦<PathStorage<'a, H> as Storage>⟧.bytes (files (string_bytes next.now.path)) r.0)) }
    ensures path { IfOk result (λ r. (⟦<PathStorage<'a, H> as Storage>⟧.features r.0).filename
        ≡ Some (string_bytes next.now.path)) }
    ensures through { IfOk result
        (λ _. IsLetThrough how.other_files path.now (string_bytes next.now.path)) }
    ensures inside { IfOk result (λ _. IsInside (H.real_paths host.now) how.other_files path.now
        (string_bytes next.now.path)) }
    ensures format { IfOk result (λ r. IfSome (H.contents host.now)
        (λ files. IsFormatBy next.now.format (string_bytes next.now.path)
        (files (string_bytes next.now.path)) r.1)) }
    ensures longest { IfOk result (λ r. IfSome (H.contents host.now)
        (λ files. IsNoLonger how.longest how.accepted r.1 (files (string_bytes next.now.path)))) }
    ensures l1 { IfOk result (λ r. IfSome (H.contents host.now)
        (λ files. HasShortL1 r.1 (files (string_bytes next.now.path)))) }
    ensures anew { IfOk result (λ _. (id : ℕ × ℕ)
        × HasIdentity (H.statuses host.now) (string_bytes next.now.path) id
        × (is_among (entered way.old) id ≡ false)
        × (entered way.new ≡ entered way.old ++ id ∷ [])) }
    ensures refused { IfErr result (λ e. IfSome (H.contents host.now)
        (λ files. SaysFormat (files path.now) next.now.format
        → IsNextRefused files (H.statuses host.now) (H.real_paths host.now) how.other_files how
        (entered way.old) path.now (string_bytes next.now.path) e)) }
{
    let gate = FolderGate::of(host, path, Named::Backing, how.other_files)?;
    let file = gate.look(&next.path)?;
    way.enter(host.alloc(), &file)?;
    let file = storage_of(file, &next.path)?;
    let format = format_of(host.alloc(), &next.path, &file, next.format)?;
    refuse_larger(host.alloc(), &next.path, &file, format, how)?;
    Ok((file, format))
}
