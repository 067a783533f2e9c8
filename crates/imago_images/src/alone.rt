// SPDX-License-Identifier: MIT
//! Images that need no other file, in files of one format.
ghost use Rattle.std.specs.Prelude.{◌≡◌, ◌⊎◌, ℕ, List, IsTrue, None, IfOk, IfErr};
ghost use Rattle.imago_images.specs.declared.opening.OtherFiles.TheVariants as Others;
ghost use Rattle.imago_images.specs.Alone.{NamesNoOther, IsNamedBelow};
ghost use Rattle.imago_images.specs.Alone.{IsOfOneFormat, IsOfAnother};
ghost use Rattle.imago_images.specs.HostBytes.{HasBytes};
ghost use Rattle.imago_images.specs.Layers.{SaysBacking};
ghost use Rattle.imago_images.specs.Refusals.{IsRefused};
ghost use Rattle.imago_qcow2.specs.Qcow2Image.{storage_in};

use crate::failure::{OpenError, Reason};
use crate::format::ImageFormat;
use crate::layer::{name_below, path_below};
use crate::opening::OtherFiles;
use crate::recognised::{other_signature_of, signature_of};
use imago_file::file::FileStorage;
use imago_file::host::HostFile;
use imago_qcow2::qcow2::Qcow2;
use imago_storage::storage::Storage;
use std::alloc::Global;

/// Refuses a qcow2 image that names a file below it, where no other files are opened: also one of
/// which no guest cluster leads to that file.
pub fn refuse_below<S: Storage>(
    alloc: Global,
    path: &str,
    qcow2: &Qcow2<S>,
    others: OtherFiles,
) -> Result<(), OpenError>
    ensures alone { IsTrue (S.features (storage_in qcow2.now)).tells_bytes
        → IfOk result (λ _. NamesNoOther others (S.bytes (storage_in qcow2.now))) }
    ensures refused { IfErr result (IsRefused path.now IsNamedBelow) }
{
    match others {
        OtherFiles::None => refuse_any_below(alloc, path, qcow2),
        OtherFiles::InFolder | OtherFiles::Any => Ok(()),
    }
}

/// Refuses a qcow2 image that names a file below it.
fn refuse_any_below<S: Storage>(
    alloc: Global,
    path: &str,
    qcow2: &Qcow2<S>,
) -> Result<(), OpenError>
    ensures alone { IsTrue (S.features (storage_in qcow2.now)).tells_bytes
        → IfOk result (λ _. SaysBacking (S.bytes (storage_in qcow2.now)) None) }
    ensures refused { IfErr result (IsRefused path.now IsNamedBelow) }
{
    let Some(name) = name_below(alloc, path, qcow2)? else {
        return Ok(());
    };
    let named = path_below(alloc, path, name)?;
    Err(OpenError::of_file(alloc, path, Reason::BackingNotPermitted(named)))
}

/// Refuses a file of more than one format, where no other files are opened: one that is recognised
/// as two, wherever their marks stand in it, and one that is said to be raw and is recognised as
/// something else. Another program could take it for the other one.
pub fn refuse_another<F: HostFile>(
    alloc: Global,
    path: &str,
    file: &FileStorage<F>,
    said: Option<ImageFormat>,
    others: OtherFiles,
) -> Result<(), OpenError>
    ensures one { (bytes : List ℕ) → HasBytes ⟦<FileStorage<F> as Storage>⟧.features
        ⟦<FileStorage<F> as Storage>⟧.bytes bytes file.now
        → IfOk result (λ _. IsOfOneFormat others said bytes) }
    ensures refused { (bytes : List ℕ) → HasBytes ⟦<FileStorage<F> as Storage>⟧.features
        ⟦<FileStorage<F> as Storage>⟧.bytes bytes file.now
        → IfErr result (IsRefused path.now (IsOfAnother others said bytes)) }
{
    match others {
        OtherFiles::None => refuse_two(alloc, path, file, said),
        OtherFiles::InFolder | OtherFiles::Any => Ok(()),
    }
}

/// Refuses a file of more than one format.
fn refuse_two<F: HostFile>(
    alloc: Global,
    path: &str,
    file: &FileStorage<F>,
    said: Option<ImageFormat>,
) -> Result<(), OpenError>
    ensures one { (bytes : List ℕ) → HasBytes ⟦<FileStorage<F> as Storage>⟧.features
        ⟦<FileStorage<F> as Storage>⟧.bytes bytes file.now
        → IfOk result (λ _. IsOfOneFormat Others.None said bytes) }
    ensures refused { (bytes : List ℕ) → HasBytes ⟦<FileStorage<F> as Storage>⟧.features
        ⟦<FileStorage<F> as Storage>⟧.bytes bytes file.now
        → IfErr result (IsRefused path.now (IsOfAnother Others.None said bytes)) }
{
    let Some(found) = signature_of(alloc, path, file)? else {
        return Ok(());
    };
    if let Some(ImageFormat::Raw) = said {
        let said = ImageFormat::Raw;
        return Err(OpenError::of_file(alloc, path, Reason::Another { said, found }));
    }
    match other_signature_of(alloc, path, file, found)? {
        None => Ok(()),
        Some(other) => { Err(OpenError::of_file(alloc, path, Reason::TwoFormats(found, other))) }
    }
}
