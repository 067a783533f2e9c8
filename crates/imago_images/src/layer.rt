// SPDX-License-Identifier: MIT
//! A layer by itself: a file in a format, and the name of the file below it.
ghost use Rattle.std.specs.Prelude.{◌≡◌, ◌≤◌, ℕ, ◌⊎◌, List, Option, None, Some, IfOk, IfErr, IfSome, IsErr};
ghost use Rattle.std.specs.Prelude.{IsTrue, MatchResult, OnOk, [], ◌∷◌, length, map, option_map, true};
ghost use Rattle.std.specs.String.{string_bytes};
ghost use Rattle.imago_drivers.specs.Raw.{raw_place};
ghost use Rattle.imago_qcow2.specs.Entry.{disk_size, qcow2_place};
ghost use Rattle.imago_vmdk.specs.Line.{extent_with};
ghost use Rattle.imago_images.specs.HostBytes.{HasBytes};
ghost use Rattle.imago_images.specs.Layers.{IsDriverOf, NeverWrites, tables_in};
ghost use Rattle.imago_images.specs.Images.{IsLayerOf, LeadsTo};
ghost use Rattle.imago_images.specs.ImageFiles.{AreNamed, layer_paths};
ghost use Rattle.imago_images.specs.Layers.{SaysBacking};
ghost use Rattle.imago_images.specs.Longest.{IsNoLonger, HasFewTables};
ghost use Rattle.imago_file.specs.Names.{path_beside as path_beside_file};
ghost use Rattle.imago_qcow2.specs.Opening.{IsOpened};
ghost use Rattle.imago_qcow2.specs.Limit.{IsWithin, HasTablesWithin, loaded_length};
ghost use Rattle.imago_qcow2.specs.Qcow2Image.{storage_in, header_in, loaded_in};
ghost use Rattle.imago_images.specs.declared.format.ImageFormat.TheVariants as Of;
ghost use Rattle.imago_images.specs.Formats.{SaysFormat, IsFormatBy};
ghost use Rattle.imago_images.specs.Formats.{told_format as format_told};
ghost use Rattle.imago_images.specs.Refusals.{IsRefused, IsBySystemOr, IsByDriver, IsUnread};
ghost use Rattle.imago_images.specs.Refusals.{IsUnknown, IsProtocol, NamesBelow, IsByQcow2};
ghost use Rattle.imago_images.specs.Refusals.{IsUnopened, IsUnopenedBy, IsByVmdk, HasExtentIn};
ghost use Rattle.imago_images.specs.Refusals.{reason_for as reason_by};
ghost use Rattle.imago_images.specs.BackingNames.{file_named as file_named_by};
ghost use Rattle.imago_images.specs.Extents.{IsFlatIn, HasFlat};
ghost use Rattle.imago_images.specs.Chains.{IsNamedRefused, IsLayerRefused};
ghost use Rattle.imago_images.specs.declared.gate.Named.TheVariants as NamedAs;

use crate::backing_name::file_named;
use crate::failure::{OpenError, Reason};
use crate::file::{PathStorage, look_at};
use crate::files::Files;
use crate::format::ImageFormat;
use crate::gate::{FolderGate, Named};
use crate::longest::descriptor_text;
use crate::opening::Opening;
use crate::recognised::{signature_of, unread};
use imago_any_driver::any::AnyDriver;
use imago_drivers::builder::FormatDriverBuilder;
use imago_drivers::drivers::FormatDriverInstance;
use imago_drivers::raw::Raw;
use imago_file::file::FileStorage;
use imago_file::host::HostFile;
use imago_file::name::path_beside;
use imago_formats::signature::Signature;
use imago_qcow2::fault::OpenFault;
use imago_qcow2::header::{self, HEAD_LENGTH};
use imago_qcow2::laws::image_of_bytes;
use imago_qcow2::qcow2::Qcow2;
use imago_storage::error::Error;
use imago_storage::ext::StorageExt;
use imago_storage::storage::Storage;
use imago_vmdk::descriptor;
use imago_vmdk::laws::places_of_bytes;
use imago_vmdk::line::Extent;
use imago_vmdk::vmdk::Vmdk;
use std::alloc::{AllocError, Global};

/// The file below a layer.
#[derive(Drop)]
pub struct Below {
    /// Its path, as it is opened.
    pub path: String,
    /// Its format, where the layer says it.
    pub format: Option<ImageFormat>,
}

/// A layer, and the file below it, if there is one.
#[derive(Drop)]
pub struct Layer<S: Storage> {
    /// The driver of the layer's file.
    pub driver: AnyDriver<S>,
    /// What the file says of the one below it.
    pub below: Option<Below>,
}

/// Opens a file, which was looked at, as a layer of that format. The files of a descriptor's
/// extents are looked at too. The file below a qcow2 image isn't: only what its header says of it
/// is read. That its disk isn't longer than the opening allows was tested before.
pub fn open_layer<'a, H: Files>(
    host: &'a H,
    path: &str,
    file: PathStorage<'a, H>,
    format: ImageFormat,
    how: Opening,
) -> Result<Layer<PathStorage<'a, H>>, OpenError>
    requires told { IfSome (H.contents host.now)
        (λ files. HasBytes ⟦<PathStorage<'a, H> as Storage>⟧.features
        ⟦<PathStorage<'a, H> as Storage>⟧.bytes (files path.now) file) }
    requires path { (⟦<PathStorage<'a, H> as Storage>⟧.features file).filename ≡ Some path.now }
    requires longest { IfSome (H.contents host.now)
        (λ files. IsNoLonger how.longest how.accepted format (files path.now)) }
    ensures layer { IfOk result (λ l. IfSome (H.contents host.now)
        (λ files. IsLayerOf ⟦<AnyDriver<PathStorage<'a, H>> as FormatDriverInstance>⟧.view
        how.accepted how.other_files files path.now format l.driver
        (option_map (λ b. string_bytes b.path) l.below))) }
    ensures files { IfOk result (λ l. IfSome (H.contents host.now)
        (λ files. AreNamed
        (⟦<AnyDriver<PathStorage<'a, H>> as FormatDriverInstance>⟧.view l.driver).stores
        (layer_paths how.accepted format path.now (files path.now)))) }
    ensures format { IfOk result (λ l. IfSome (H.contents host.now)
        (λ files. IfSome l.below (λ b. SaysFormat (files path.now) b.format))) }
    ensures read_only { IfOk result (λ l. NeverWrites
        ⟦<AnyDriver<PathStorage<'a, H>> as FormatDriverInstance>⟧.view l.driver) }
    ensures tables { IfOk result (λ l. IsWithin how.tables (tables_in l.driver)) }
    ensures few { OnOk result (IfSome (H.contents host.now)
        (λ files. HasFewTables how.tables format (files path.now))) }
    ensures refused { IfErr result (λ e. IfSome (H.contents host.now)
        (λ files. IsLayerRefused files (H.statuses host.now) (H.real_paths host.now)
        how.other_files how path.now format e)) }
{
    match format {
        ImageFormat::Raw => raw_layer(host.alloc(), path, file, false),
        ImageFormat::Qcow2 => qcow2_layer(host, path, file, how.tables),
        ImageFormat::Vmdk => vmdk_layer(host, path, file, how),
    }
}

/// The layer of a raw file.
pub(crate) fn raw_layer<S: Storage>(
    alloc: Global,
    path: &str,
    file: S,
    writable: bool,
) -> Result<Layer<S>, OpenError>
    ensures alone { IfOk result (λ l. l.below ≡ None) }
    ensures writable { IfOk result (λ l.
        (⟦<AnyDriver<S> as FormatDriverInstance>⟧.view l.driver).abilities.is_writable
        ≡ writable) }
    ensures storage { IfOk result (λ l.
        (⟦<AnyDriver<S> as FormatDriverInstance>⟧.view l.driver).stores.features 0
        ≡ S.features file) }
    ensures files { (S.features file).filename ≡ Some path.now → IfOk result (λ l. AreNamed
        (⟦<AnyDriver<S> as FormatDriverInstance>⟧.view l.driver).stores (path.now ∷ [])) }
    ensures tables { IfOk result (λ l. tables_in l.driver ≡ 0) }
    ensures ready { IfOk result (λ l.
        (⟦<AnyDriver<S> as FormatDriverInstance>⟧.view l.driver).pending ≡ None) }
    ensures driver { (bytes : List ℕ) → HasBytes S.features S.bytes bytes file → IfOk result (λ l.
        IsDriverOf ⟦<AnyDriver<S> as FormatDriverInstance>⟧.view (length bytes)
        (raw_place (length bytes) bytes) l.driver) }
    ensures refused { IfErr result (IsRefused path.now IsUnread) }
{
    let raw = OpenError::or_image(alloc, path, Raw::open_image(file, writable))?;
    Ok(Layer {
        driver: AnyDriver::Raw(raw),
        below: None,
    })
}

/// The layer of a qcow2 image.
fn layer_in_qcow2<S: Storage>(
    alloc: Global,
    path: &str,
    qcow2: Qcow2<S>,
) -> Result<Layer<S>, OpenError>
    ensures driver { (bytes : List ℕ) → HasBytes S.features S.bytes bytes (storage_in qcow2)
        → IfOk result (λ l. IsDriverOf ⟦<AnyDriver<S> as FormatDriverInstance>⟧.view
        (disk_size bytes) (qcow2_place bytes) l.driver) }
    ensures below { (bytes : List ℕ) → HasBytes S.features S.bytes bytes (storage_in qcow2)
        → IfOk result (λ l. LeadsTo bytes path.now
        (option_map (λ b. string_bytes b.path) l.below)) }
    ensures format { (bytes : List ℕ) → HasBytes S.features S.bytes bytes (storage_in qcow2)
        → IfOk result (λ l. IfSome l.below (λ b. SaysFormat bytes b.format)) }
    ensures files { (S.features (storage_in qcow2)).filename ≡ Some path.now → IfOk result
        (λ l. AreNamed (⟦<AnyDriver<S> as FormatDriverInstance>⟧.view l.driver).stores
        (path.now ∷ [])) }
    ensures tables { IfOk result (λ l. tables_in l.driver ≡ loaded_length (loaded_in qcow2)) }
    ensures read_only { IfOk result (λ l. NeverWrites
        ⟦<AnyDriver<S> as FormatDriverInstance>⟧.view l.driver) }
    ensures refused { (limit : Option ℕ) (bytes : List ℕ)
        → HasBytes S.features S.bytes bytes (storage_in qcow2)
        → IfErr result (IsRefused path.now (IsUnopened limit bytes)) }
{
    image_of_bytes(&qcow2);
    let below = below_qcow2(alloc, path, &qcow2)?;
    Ok(Layer {
        driver: AnyDriver::Qcow2(qcow2),
        below,
    })
}

/// The layer of a qcow2 file, whose tables have at most so many bytes, if that is limited.
fn qcow2_layer<H: Files, S: Storage>(
    host: &H,
    path: &str,
    file: S,
    most_tables: Option<u64>,
) -> Result<Layer<S>, OpenError>
    ensures driver { (bytes : List ℕ) → HasBytes S.features S.bytes bytes file
        → IfOk result (λ l. IsDriverOf ⟦<AnyDriver<S> as FormatDriverInstance>⟧.view
        (disk_size bytes) (qcow2_place bytes) l.driver) }
    ensures below { (bytes : List ℕ) → HasBytes S.features S.bytes bytes file
        → IfOk result (λ l. LeadsTo bytes path.now
        (option_map (λ b. string_bytes b.path) l.below)) }
    ensures format { (bytes : List ℕ) → HasBytes S.features S.bytes bytes file
        → IfOk result (λ l. IfSome l.below (λ b. SaysFormat bytes b.format)) }
    ensures files { (S.features file).filename ≡ Some path.now → IfOk result (λ l. AreNamed
        (⟦<AnyDriver<S> as FormatDriverInstance>⟧.view l.driver).stores (path.now ∷ [])) }
    ensures tables { IfOk result (λ l. IsWithin most_tables (tables_in l.driver)) }
    ensures few { (bytes : List ℕ) → HasBytes S.features S.bytes bytes file
        → OnOk result (HasTablesWithin most_tables bytes) }
    ensures read_only { IfOk result (λ l. NeverWrites
        ⟦<AnyDriver<S> as FormatDriverInstance>⟧.view l.driver) }
    ensures refused { IfErr result (λ e. IfSome (H.contents host.now)
        (λ files. HasBytes S.features S.bytes (files path.now) file
        → IsRefused path.now (IsUnopened most_tables (files path.now)) e)) }
{
    let qcow2 = open_limited(host, path, file, most_tables)?;
    layer_in_qcow2(host.alloc(), path, qcow2)
}

/// Opens a qcow2 file of that path by itself, whose tables have at most so many bytes, if that is
/// limited.
fn open_limited<H: Files, S: Storage>(
    host: &H,
    path: &str,
    file: S,
    most_tables: Option<u64>,
) -> Result<Qcow2<S>, OpenError>
    ensures opened { IfOk result (λ d. (storage_in d ≡ «file»)
        × IsOpened (S.features file) (S.bytes file) (header_in d)) }
    ensures within { IfOk result (λ d. IsWithin most_tables (loaded_length (loaded_in d))) }
    ensures few { (bytes : List ℕ) → HasBytes S.features S.bytes bytes file
        → OnOk result (HasTablesWithin most_tables bytes) }
    ensures refused { IfErr result (λ e. IfSome (H.contents host.now)
        (λ files. HasBytes S.features S.bytes (files path.now) file
        → IsRefused path.now (IsUnopened most_tables (files path.now)) e)) }
{
    match most_tables {
        None => open_qcow2(host, path, file),
        Some(most) => open_qcow2_within(host, path, file, most),
    }
}

/// Opens a qcow2 file of that path by itself: the file below it isn't looked at. A refusal is told
/// by the header's fault, where that is why, and by the host's answer where a read was refused.
pub fn open_qcow2<H: Files, S: Storage>(
    host: &H,
    path: &str,
    file: S,
) -> Result<Qcow2<S>, OpenError>
    ensures opened { IfOk result (λ d. (storage_in d ≡ «file»)
        × IsOpened (S.features file) (S.bytes file) (header_in d)) }
    ensures refused { IfErr result (λ e. IfSome (H.contents host.now)
        (λ files. HasBytes S.features S.bytes (files path.now) file
        → IsRefused path.now (IsUnopened None (files path.now)) e)) }
    ensures told { IfErr result (λ e. IfSome (H.contents host.now)
        (λ files. IsRefused path.now (IsUnopenedBy (λ _. Unit {0}) None (files path.now)) e)) }
{
    match Qcow2::open_image(host.alloc(), file, false) {
        Ok(qcow2) => Ok(qcow2),
        Err(cause) => Err(not_opened(host, path, cause, u64::MAX)),
    }
}

/// Opens a qcow2 file of that path by itself, as [`open_qcow2`] does, if its tables have at most so
/// many bytes. Otherwise it is [`Reason::TablesTooLarge`], and no memory was taken for more.
pub fn open_qcow2_within<H: Files, S: Storage>(
    host: &H,
    path: &str,
    file: S,
    most_tables: u64,
) -> Result<Qcow2<S>, OpenError>
    ensures opened { IfOk result (λ d. (storage_in d ≡ «file»)
        × IsOpened (S.features file) (S.bytes file) (header_in d)) }
    ensures within { IfOk result (λ d. loaded_length (loaded_in d) ≤ most_tables) }
    ensures few { (bytes : List ℕ) → HasBytes S.features S.bytes bytes file
        → OnOk result (HasTablesWithin (Some most_tables) bytes) }
    ensures refused { IfErr result (λ e. IfSome (H.contents host.now)
        (λ files. HasBytes S.features S.bytes (files path.now) file
        → IsRefused path.now (IsUnopened (Some most_tables) (files path.now)) e)) }
{
    match Qcow2::open_within(host.alloc(), file, most_tables) {
        Ok(qcow2) => Ok(qcow2),
        Err(OpenFault::Driver(cause)) => Err(not_opened(host, path, cause, most_tables)),
        Err(OpenFault::TablesTooLarge) => {
            let reason = Reason::TablesTooLarge(most_tables);
            Err(OpenError::of_file(host.alloc(), path, reason))
        }
    }
}

/// Why a qcow2 file isn't opened, whose tables may have so many bytes: its header's fault, where
/// that is why.
fn not_opened<H: Files>(host: &H, path: &str, cause: Error, most_tables: u64) -> OpenError
    ensures of_bytes { (limit : Option ℕ) → IfSome (H.contents host.now)
        (λ files. IsByQcow2 (files path.now) cause
        → IsRefused path.now (IsUnopened limit (files path.now)) result) }
    ensures told { (limit : Option ℕ) → IfSome (H.contents host.now)
        (λ files. IsRefused path.now (IsUnopenedBy (λ _. Unit {0}) limit (files path.now))
        result) }
{
    let mut head = [0u8; HEAD_LENGTH];
    if let Ok(status) = host.status(path) {
        if let Ok(()) = host.read_at(path, &mut head, 0) {
            if let Err(fault) = header::read(&head, status.length) {
                return OpenError::of_file(host.alloc(), path, Reason::Header(fault));
            }
        }
    }
    read_again(host, path, cause, most_tables)
}

/// Why the driver didn't open the file of a path, which no fault of its header tells. Where a read
/// was refused, the storage is gone, with what the host answered: so the file is opened once more,
/// within the same limit on its tables.
fn read_again<H: Files>(host: &H, path: &str, cause: Error, most_tables: u64) -> OpenError
    ensures { IsRefused path.now (IsBySystemOr cause) result }
{
    let alloc = host.alloc();
    if cause == Error::Device {
        if let Ok(mut file) = look_at(host, path) {
            try_qcow2(alloc, &mut file, most_tables);
            return unread(alloc, path, &file, cause);
        }
    }
    OpenError::of_file(alloc, path, Reason::Image(cause))
}

/// Opens a qcow2 file and lets it go, so that its storage has what was answered to the reads.
fn try_qcow2<S: Storage>(alloc: Global, file: &mut S, most_tables: u64) {
    let _is_opened = Qcow2::open_within(alloc, file, most_tables).is_ok();
}

/// Why the driver of VMDK images didn't open a file's. Where a read was refused, its storage is
/// gone with the answer of the host, which is asked once more.
fn reason_of<H: Files>(host: &H, path: &str, cause: Error) -> Reason
    ensures { IsBySystemOr cause result }
{
    if cause == Error::Device {
        if let Err(answer) = host.read_at(path, &mut [0u8; 1], 0) {
            return Reason::System(answer);
        }
    }
    Reason::Image(cause)
}

/// The name that a qcow2 image has of the file below it, if there is one. A name without bytes is
/// none.
pub(crate) fn name_below<S: Storage>(
    alloc: Global,
    path: &str,
    qcow2: &Qcow2<S>,
) -> Result<Option<Vec<u8>>, OpenError>
    ensures said { IsTrue (S.features (storage_in qcow2.now)).tells_bytes
        → IfOk result (λ name. SaysBacking (S.bytes (storage_in qcow2.now))
        (option_map (λ n. n.items) name)) }
    ensures refused { IfErr result (IsRefused path.now IsByDriver) }
    ensures unread { IfErr result (IsRefused path.now IsUnread) }
{
    let Some(name) = OpenError::or_image(alloc, path, qcow2.backing_file(alloc))? else {
        return Ok(None);
    };
    if name.is_empty() {
        return Ok(None);
    }
    Ok(Some(name))
}

/// A name that stands in a file. Only UTF-8 is supported.
pub fn text_of(alloc: Global, path: &str, name: Vec<u8>) -> Result<String, OpenError>
    ensures text { IfOk result (λ text. string_bytes text ≡ name.items) }
    ensures refused { IfErr result (IsRefused path.now IsByDriver) }
{
    match String::from_utf8(name) {
        Ok(name) => Ok(name),
        Err(_) => Err(OpenError::of_file(alloc, path, Reason::Image(Error::Unsupported))),
    }
}

/// The path that a name stands for which the file of that path has.
pub fn path_below(alloc: Global, path: &str, name: Vec<u8>) -> Result<String, OpenError>
    ensures path { IfOk result (λ next. (file : List ℕ) × (file_named_by name.items ≡ Some file)
        × (string_bytes next ≡ path_beside_file path.now file)) }
    ensures refused { IfErr result (IsRefused path.now
        (λ r. IsByDriver r ⊎ IsProtocol name.items r)) }
{
    let name = text_of(alloc, path, name)?;
    match file_named(&name) {
        Some(file) => Ok(path_beside(alloc, path, file)?),
        None => Err(OpenError::of_file(alloc, path, Reason::BackingProtocol(name))),
    }
}

/// The file below a qcow2 image, if there is one.
fn below_qcow2<S: Storage>(
    alloc: Global,
    path: &str,
    qcow2: &Qcow2<S>,
) -> Result<Option<Below>, OpenError>
    ensures below { IsTrue (S.features (storage_in qcow2.now)).tells_bytes
        → IfOk result (λ below. LeadsTo (S.bytes (storage_in qcow2.now)) path.now
        (option_map (λ b. string_bytes b.path) below)) }
    ensures format { IsTrue (S.features (storage_in qcow2.now)).tells_bytes
        → IfOk result (λ below. IfSome below
        (λ b. SaysFormat (S.bytes (storage_in qcow2.now)) b.format)) }
    ensures refused { (limit : Option ℕ) → IsTrue (S.features (storage_in qcow2.now)).tells_bytes
        → IfErr result (IsRefused path.now (IsUnopened limit (S.bytes (storage_in qcow2.now)))) }
{
    let Some(name) = name_below(alloc, path, qcow2)? else {
        return Ok(None);
    };
    Ok(Some(Below {
        path: path_below(alloc, path, name)?,
        format: format_below(alloc, path, qcow2)?,
    }))
}

/// The format that a qcow2 image says of the file below it, if it does.
fn format_below<S: Storage>(
    alloc: Global,
    path: &str,
    qcow2: &Qcow2<S>,
) -> Result<Option<ImageFormat>, OpenError>
    ensures said { IsTrue (S.features (storage_in qcow2.now)).tells_bytes
        → IfOk result (SaysFormat (S.bytes (storage_in qcow2.now))) }
    ensures refused { (limit : Option ℕ) → IsTrue (S.features (storage_in qcow2.now)).tells_bytes
        → NamesBelow (S.bytes (storage_in qcow2.now))
        → IfErr result (IsRefused path.now (IsUnopened limit (S.bytes (storage_in qcow2.now)))) }
{
    let Some(name) = OpenError::or_image(alloc, path, qcow2.backing_format(alloc))? else {
        return Ok(None);
    };
    let name = text_of(alloc, path, name)?;
    match ImageFormat::named(&name) {
        Some(format) => Ok(Some(format)),
        None => Err(OpenError::of_file(alloc, path, Reason::BackingFormat(name))),
    }
}

/// The layer of a VMDK descriptor's file, over the files that its extents name.
fn vmdk_layer<'a, H: Files>(
    host: &'a H,
    path: &str,
    file: PathStorage<'a, H>,
    how: Opening,
) -> Result<Layer<PathStorage<'a, H>>, OpenError>
    requires told { IfSome (H.contents host.now)
        (λ files. HasBytes ⟦<PathStorage<'a, H> as Storage>⟧.features
        ⟦<PathStorage<'a, H> as Storage>⟧.bytes (files path.now) file) }
    requires path { (⟦<PathStorage<'a, H> as Storage>⟧.features file).filename ≡ Some path.now }
    ensures alone { IfOk result (λ l. l.below ≡ None) }
    ensures layer { IfOk result (λ l. IfSome (H.contents host.now)
        (λ files. IsLayerOf ⟦<AnyDriver<PathStorage<'a, H>> as FormatDriverInstance>⟧.view
        how.accepted how.other_files files path.now Of.Vmdk l.driver None)) }
    ensures files { IfOk result (λ l. IfSome (H.contents host.now)
        (λ files. AreNamed
        (⟦<AnyDriver<PathStorage<'a, H>> as FormatDriverInstance>⟧.view l.driver).stores
        (layer_paths how.accepted Of.Vmdk path.now (files path.now)))) }
    ensures read_only { IfOk result (λ l. NeverWrites
        ⟦<AnyDriver<PathStorage<'a, H>> as FormatDriverInstance>⟧.view l.driver) }
    ensures tables { IfOk result (λ l. tables_in l.driver ≡ 0) }
    ensures refused { IfErr result (λ e. IfSome (H.contents host.now)
        (λ files. IsLayerRefused files (H.statuses host.now) (H.real_paths host.now)
        how.other_files how path.now Of.Vmdk e)) }
{
    let alloc = host.alloc();
    let mut gate = FolderGate::of(host, path, Named::Extents, how.other_files)?;
    let builder = Vmdk::builder(file)
        .accept_unknown_keys(how.accepted.unknown_keys)
        .accept_vmfs(how.accepted.vmfs);
    match builder.open(alloc, &mut gate) {
        Ok(vmdk) => {
            places_of_bytes(&vmdk);
            Ok(Layer {
                driver: AnyDriver::Vmdk(vmdk),
                below: None,
            })
        }
        Err(cause) => Err(not_described(host, path, gate.into_refused(), how, cause)),
    }
}

/// Tells why a descriptor's image isn't opened. Where the gate refused a file, it is asked for it
/// once more, since what it answered is gone with the driver; and so is the descriptor, whether it
/// has an extent in that file.
fn not_described<H: Files>(
    host: &H,
    path: &str,
    refused: Option<String>,
    how: Opening,
    cause: Error,
) -> OpenError
    ensures { IfSome (H.contents host.now)
        (λ files. IsByVmdk how.accepted (files path.now) path.now cause
        → IsLayerRefused files (H.statuses host.now) (H.real_paths host.now) how.other_files how
        path.now Of.Vmdk result) }
{
    match extent_refusal(host, path, refused, how) {
        Some(refusal) => refusal,
        None => OpenError::of_file(host.alloc(), path, reason_of(host, path, cause)),
    }
}

/// Why the file that the gate refused isn't handed out, if it is one of an extent's.
fn extent_refusal<H: Files>(
    host: &H,
    path: &str,
    refused: Option<String>,
    how: Opening,
) -> Option<OpenError>
    ensures { IfSome result (λ e. IfSome (H.contents host.now) (λ files. (other : List ℕ)
        × HasExtentIn how.accepted (files path.now) path.now other
        × IsNamedRefused NamedAs.Extents (H.statuses host.now) (H.real_paths host.now)
        how.other_files path.now other e)) }
{
    let Some(other) = refused else {
        return None;
    };
    let Ok(true) = has_extent(host, path, &other, how) else {
        return None;
    };
    match try_extent(host, path, &other, how) {
        Ok(()) => None,
        Err(refusal) => Some(refusal),
    }
}

/// Whether the descriptor of a path has a FLAT extent in the file of another.
fn has_extent<H: Files>(host: &H, path: &str, other: &str, how: Opening) -> Result<bool, OpenError>
    ensures { IfOk result (λ yes. yes ≡ true → IfSome (H.contents host.now)
        (λ files. HasExtentIn how.accepted (files path.now) path.now other.now)) }
{
    let alloc = host.alloc();
    let file = look_at(host, path)?;
    let text = descriptor_text(alloc, path, &file)?;
    match descriptor::read(alloc, how.accepted, &text) {
        Ok(described) => Ok(has_flat(alloc, path, &described.extents, other)?),
        Err(_) => Ok(false),
    }
}

/// Whether one of a descriptor's extents is a FLAT one in the file of that other path.
fn has_flat(
    alloc: Global,
    path: &str,
    extents: &[Extent<String>],
    other: &str,
) -> Result<bool, AllocError>
    ensures { IfOk result (λ yes. yes ≡ true
        → HasFlat (map (extent_with string_bytes) extents.now) path.now other.now) }
{
    let mut rest = extents;
    while let Some((extent, behind)) = rest.split_first() {
        if is_flat_in(alloc, path, extent, other)? {
            return Ok(true);
        }
        rest = behind;
    }
    Ok(false)
}

/// Whether an extent is one.
fn is_flat_in(
    alloc: Global,
    path: &str,
    extent: &Extent<String>,
    other: &str,
) -> Result<bool, AllocError>
    ensures { IfOk result (λ yes. yes ≡ true
        → IsFlatIn (extent_with string_bytes extent.now) path.now other.now) }
{
    match extent {
        Extent::Flat { name, .. } => Ok(path_beside(alloc, path, name)?.as_str() == other),
        Extent::Zero { .. } | Extent::NoAccess { .. } => Ok(false),
    }
}

/// Asks the gate of a descriptor's files for one of them.
fn try_extent<H: Files>(host: &H, path: &str, extent: &str, how: Opening) -> Result<(), OpenError>
    ensures { IfErr result (IsNamedRefused NamedAs.Extents (H.statuses host.now)
        (H.real_paths host.now) how.other_files path.now extent.now) }
{
    let gate = FolderGate::of(host, path, Named::Extents, how.other_files)?;
    gate.look(extent)?;
    Ok(())
}

/// The format of the file of that path: the one that is said, or else the one that the file is
/// taken to have, by its name and by what it is recognised as ([`ImageFormat::taken`]). Where it
/// isn't said, a file of a format that isn't supported, and one whose name doesn't fit what it
/// begins as, is [`Reason::Recognised`]. One that is recognised as another format than the one that
/// is said is [`Reason::Another`]. A sparse VMDK image is [`Reason::Sparse`], unless it is said to
/// be raw or qcow2. Nothing is read of a file that is said to be raw.
pub fn format_of<F: HostFile>(
    alloc: Global,
    path: &str,
    file: &FileStorage<F>,
    said: Option<ImageFormat>,
) -> Result<ImageFormat, OpenError>
    ensures told { (bytes : List ℕ) → HasBytes ⟦<FileStorage<F> as Storage>⟧.features
        ⟦<FileStorage<F> as Storage>⟧.bytes bytes file.now
        → IfOk result (IsFormatBy said path.now bytes) }
    ensures refused { (bytes : List ℕ) → HasBytes ⟦<FileStorage<F> as Storage>⟧.features
        ⟦<FileStorage<F> as Storage>⟧.bytes bytes file.now
        → IfErr result (IsRefused path.now (IsUnknown said path.now bytes)) }
{
    match told_format(alloc, path, file, said)? {
        Ok(format) => Ok(format),
        Err(found) => Err(OpenError::of_file(alloc, path, reason_for(said, found))),
    }
}

/// Why a file isn't opened that is said to have a format, or isn't, and is recognised as that.
fn reason_for(said: Option<ImageFormat>, found: Signature) -> Reason
    ensures { result ≡ reason_by said found }
{
    match (said, found) {
        (None | Some(ImageFormat::Vmdk), Signature::Sparse) => Reason::Sparse,
        (None, found) => Reason::Recognised(found),
        (Some(said), found) => Reason::Another { said, found },
    }
}

/// The format of the file of a path, or what it is recognised as instead.
fn told_format<F: HostFile>(
    alloc: Global,
    path: &str,
    file: &FileStorage<F>,
    said: Option<ImageFormat>,
) -> Result<Result<ImageFormat, Signature>, OpenError>
    ensures told { (bytes : List ℕ) → HasBytes ⟦<FileStorage<F> as Storage>⟧.features
        ⟦<FileStorage<F> as Storage>⟧.bytes bytes file.now
        → IfOk result (λ told. told ≡ format_told said path.now bytes) }
    ensures refused { IfErr result (IsRefused path.now IsUnread) }
{
    match said {
        None => Ok(ImageFormat::taken(path, signature_of(alloc, path, file)?)),
        Some(ImageFormat::Raw) => Ok(Ok(ImageFormat::Raw)),
        Some(format) => Ok(format.said(signature_of(alloc, path, file)?)),
    }
}

/// What was found in the file of that path, or why it isn't: by the host's own answer, where a read
/// of its storage was refused.
pub fn told_by_host<F: HostFile, T>(
    alloc: Global,
    path: &str,
    file: &FileStorage<F>,
    found: Result<T, OpenError>,
) -> Result<T, OpenError>
    ensures { MatchResult found (λ x. result ≡ Ok x) (λ _. IsErr result) }
{
    match found {
        Ok(found) => Ok(found),
        Err(cause) => match file.last_error() {
            Some(answer) => Err(OpenError::of_file(alloc, path, Reason::System(answer))),
            None => Err(cause),
        },
    }
}
