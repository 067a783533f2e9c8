// SPDX-License-Identifier: MIT
//! The gate of the files that an image names.
ghost use Rattle.std.specs.Prelude.{◌≡◌, ℕ, List, Option, true, false, Some, IfOk, IfErr, IfSome};
ghost use Rattle.std.specs.Prelude.{IsSome, length};
ghost use Rattle.imago_images.specs.declared.opening.OtherFiles.TheVariants as Others;
ghost use Rattle.std.specs.String.{string_bytes};
ghost use Rattle.imago_images.specs.Gate.{folder_asked, folder_path, IsInside, IsLetThrough};
ghost use Rattle.imago_images.specs.Gate.{IsLooked};
ghost use Rattle.imago_images.specs.DoorParts.{door_host, door_image, door_files};
ghost use Rattle.imago_images.specs.HostBytes.{HasBytes};
ghost use Rattle.imago_images.specs.FolderParts.{bounds_in, IsBounded, IsWithin};
ghost use Rattle.imago_images.specs.Looked.{IsLookedAt, AreLookedAt, AreLookedAt-prop, KeepsBeside};
ghost use Rattle.imago_images.specs.PathFile.{file_path, file_status, is_to_write};
ghost use Rattle.imago_images.specs.Refusals.{IsRefused, IsBySystem, IsOutside, IsOut, IsKeptOut};
ghost use Rattle.imago_images.specs.Refusals.{IsNotHandedOut};
ghost use Rattle.imago_file.specs.Names.{lies_below as lies_below_folder};

use crate::door::Door;
use crate::failure::{OpenError, Reason};
use crate::file::{PathFile, PathStorage, storage_of};
use crate::files::{FileStatus, Files};
use crate::folder::Folder;
use crate::opening::OtherFiles;
use imago_drivers::gate::ImplicitOpenGate;
use imago_file::host::HostFile;
use imago_file::name::lies_below;
use imago_storage::error::Error;
use imago_storage::storage::{Storage, StorageOpenOptions};
use std::alloc::Global;
use std::collections::BTreeMap;
use std::path::Path;

/// The path of the folder that a file of that path is in, by its text.
pub fn folder_of(path: &str) -> &str
    ensures { result.now ≡ folder_path path.now }
{
    match Path::new(path).parent() {
        Some(folder) => folder.as_str(),
        None => "",
    }
}

/// Of how many paths a gate keeps what it found. A descriptor names few files again and again, or
/// each of many files once, and a look in a long list of these would cost more than it saves.
const MOST_KEPT: usize = 64;

/// What an image names its files as.
#[derive(Clone, Copy)]
pub enum Named {
    /// The extents of a VMDK descriptor.
    Extents,
    /// The backing file of a qcow2 image.
    Backing,
}

/// A gate that looks at the files which one image names, and opens none.
///
/// With [`OtherFiles::None`] each is refused before it is looked at, as [`Reason::NotPermitted`] or
/// [`Reason::BackingNotPermitted`]. With [`OtherFiles::InFolder`] one that lies elsewhere than in
/// the image's folder and below, by its path or by a link, is [`Reason::Outside`] or
/// [`Reason::BackingOutside`]. Each of these has the file's path. The gate itself answers
/// [`Error::Denied`] for whatever it doesn't let through or can't look at, and
/// [`into_refused`](FolderGate::into_refused) tells for which path; and [`Error::NotFound`] where
/// no path is asked for.
#[derive(Drop)]
pub struct FolderGate<'a, 'b, H: Files> {
    /// The host's files. The gate has no other way to them.
    door: Door<'a, 'b, H>,
    named: Named,
    folder: Folder,
    /// The path of the last file that wasn't handed out.
    refused: Option<String>,
    /// What the files of the first [`MOST_KEPT`] paths are that were let through and looked at.
    looked: BTreeMap<String, FileStatus>,
    ghost looked_at: { AreLookedAt (H.contents (door_host door)) (H.statuses (door_host door))
        (H.real_paths (door_host door)) (door_files door) (door_image door) (bounds_in folder)
        looked } by { AreLookedAt-prop (H.contents (door_host door)) (H.statuses (door_host door))
            (H.real_paths (door_host door)) (door_files door) (door_image door) (bounds_in folder)
            looked },
}

impl<'a, 'b, H: Files> FolderGate<'a, 'b, H> {
    ghost use Rattle.imago_images.specs.GateParts.{gate_host, gate_image, gate_named};
    ghost use Rattle.imago_images.specs.GateParts.{gate_files, gate_bounds};

    /// The gate of the image of that path, which names such files. The host may refuse to tell the
    /// path of the image's folder without links.
    pub fn of(
        host: &'a H,
        image: &'b str,
        named: Named,
        other_files: OtherFiles,
    ) -> Result<Self, OpenError>
        ensures host { IfOk result (λ g. gate_host g ≡ host.now) }
        ensures image { IfOk result (λ g. gate_image g ≡ image.now) }
        ensures named { IfOk result (λ g. gate_named g ≡ named) }
        ensures files { IfOk result (λ g. gate_files g ≡ other_files) }
        ensures bounds { IfOk result
            (λ g. IsBounded (H.real_paths host.now) image.now (gate_bounds g)) }
        ensures bounded { other_files ≡ Others.InFolder
            → IfOk result (λ g. IsSome (gate_bounds g)) }
        ensures refused { IfErr result (IsRefused (folder_asked image.now) IsBySystem) }
    {
        let door = Door::new(host, image, other_files);
        let folder = Folder::of(&door, image, other_files != OtherFiles::InFolder)?;
        Ok(FolderGate {
            door,
            named,
            folder,
            refused: None,
            looked: BTreeMap::new(host.alloc()),
        })
    }

    /// The path of the image that names the files.
    pub fn image(&self) -> &'b str
        ensures { result.now ≡ gate_image self.now }
    {
        self.door.image()
    }

    /// The path of the last file that wasn't handed out, if there is one.
    pub fn into_refused(self) -> Option<String> {
        self.refused
    }

    /// Whether a path is let through.
    fn lets_through(&self, path: &str) -> Result<bool, OpenError>
        ensures through { IfOk result (λ yes. yes ≡ true
            → IsLetThrough (gate_files self.now) (gate_image self.now) path.now) }
        ensures within { IfOk result (λ yes. yes ≡ true → gate_files self.now ≡ Others.InFolder
            → IsWithin (H.real_paths (gate_host self.now)) path.now (gate_bounds self.now)) }
        ensures out { IsBounded (H.real_paths (gate_host self.now)) (gate_image self.now)
            (gate_bounds self.now) → IfOk result (λ yes. yes ≡ false
            → IsOut (H.real_paths (gate_host self.now)) (gate_files self.now)
            (gate_image self.now) path.now) }
        ensures refused { IfErr result (IsRefused path.now IsBySystem) }
    {
        match self.door.others() {
            OtherFiles::None => Ok(false),
            OtherFiles::InFolder => self.is_in_folder(path),
            OtherFiles::Any => Ok(true),
        }
    }

    /// Whether a path lies in the image's folder or below, by its text and without links.
    fn is_in_folder(&self, path: &str) -> Result<bool, OpenError>
        ensures below { IfOk result (λ yes. yes ≡ true
            → lies_below_folder (folder_path (gate_image self.now)) path.now ≡ true) }
        ensures within { IfOk result (λ yes. yes ≡ true
            → IsWithin (H.real_paths (gate_host self.now)) path.now (gate_bounds self.now)) }
        ensures out { IsBounded (H.real_paths (gate_host self.now)) (gate_image self.now)
            (gate_bounds self.now) → IfOk result (λ yes. yes ≡ false
            → IsOutside (H.real_paths (gate_host self.now)) (gate_image self.now) path.now) }
        ensures refused { IfErr result (IsRefused path.now IsBySystem) }
    {
        if !lies_below(folder_of(self.door.image()), path) {
            return Ok(false);
        }
        let leaves = self.folder.leaves(&self.door, path);
        Ok(!OpenError::or_system(self.door.alloc(), path, leaves)?)
    }

    /// Looks at the file of that path, if it is let through.
    ///
    /// A path that isn't is refused as the image's fault, for one of the reasons above. A file that
    /// can't be looked at is refused as by [`PathFile::look_at`].
    pub fn look(&self, path: &str) -> Result<PathFile<'a, H>, OpenError>
        ensures told { IfOk result (λ f. IfSome (H.contents (gate_host self.now))
            (λ files. ⟦<PathFile<'a, H> as HostFile>⟧.contents f ≡ Some (files path.now))) }
        ensures path { IfOk result (λ f. file_path f ≡ path.now) }
        ensures status { IfOk result (λ f. IfSome (H.statuses (gate_host self.now))
            (λ status_of. file_status f ≡ status_of path.now)) }
        ensures length { IfOk result (λ f. IfSome (H.contents (gate_host self.now))
            (λ files. (file_status f).length ≡ length (files path.now))) }
        ensures read_only { IfOk result (λ f. is_to_write f ≡ false) }
        ensures through { IfOk result
            (λ _. IsLetThrough (gate_files self.now) (gate_image self.now) path.now) }
        ensures inside { (gate_files self.now ≡ Others.InFolder → IsSome (gate_bounds self.now))
            → IsBounded (H.real_paths (gate_host self.now)) (gate_image self.now)
            (gate_bounds self.now) → IfOk result (λ _. IsInside (H.real_paths (gate_host self.now))
            (gate_files self.now) (gate_image self.now) path.now) }
        ensures refused { IsBounded (H.real_paths (gate_host self.now)) (gate_image self.now)
            (gate_bounds self.now) → IfErr result (IsNotHandedOut (gate_named self.now)
            (H.statuses (gate_host self.now)) (H.real_paths (gate_host self.now))
            (gate_files self.now) (gate_image self.now) path.now) }
    {
        if self.lets_through(path)? {
            self.door.look_at(path)
        } else {
            Err(self.kept_out(path))
        }
    }

    /// Looks at the file of that path as [`look`](Self::look) does, and at each of the first 64 paths
    /// once: what is found is kept, and a file that is asked for again is handed out as it was found.
    /// What is refused isn't kept.
    pub fn look_once(&mut self, path: &str) -> Result<PathFile<'a, H>, OpenError>
        ensures told { IfOk result (λ f. IfSome (H.contents (gate_host self.old))
            (λ files. ⟦<PathFile<'a, H> as HostFile>⟧.contents f ≡ Some (files path.now))) }
        ensures path { IfOk result (λ f. file_path f ≡ path.now) }
        ensures status { IfOk result (λ f. IfSome (H.statuses (gate_host self.old))
            (λ status_of. file_status f ≡ status_of path.now)) }
        ensures read_only { IfOk result (λ f. is_to_write f ≡ false) }
        ensures through { IfOk result
            (λ _. IsLetThrough (gate_files self.old) (gate_image self.old) path.now) }
        ensures inside { (gate_files self.old ≡ Others.InFolder → IsSome (gate_bounds self.old))
            → IsBounded (H.real_paths (gate_host self.old)) (gate_image self.old)
            (gate_bounds self.old) → IfOk result (λ _. IsInside (H.real_paths (gate_host self.old))
            (gate_files self.old) (gate_image self.old) path.now) }
        ensures refused { IsBounded (H.real_paths (gate_host self.old)) (gate_image self.old)
            (gate_bounds self.old) → IfErr result (IsNotHandedOut (gate_named self.old)
            (H.statuses (gate_host self.old)) (H.real_paths (gate_host self.old))
            (gate_files self.old) (gate_image self.old) path.now) }
        ensures same_host { gate_host self.new ≡ gate_host self.old }
        ensures same_image { gate_image self.new ≡ gate_image self.old }
        ensures same_named { gate_named self.new ≡ gate_named self.old }
        ensures same_files { gate_files self.new ≡ gate_files self.old }
        ensures same_bounds { gate_bounds self.new ≡ gate_bounds self.old }
    {
        if let Some(status) = self.looked.get(path) {
            return self.door.known(path, *status);
        }
        let file = self.look(path)?;
        self.keep(path, file.status());
        Ok(file)
    }

    /// Keeps what the file of a path is, if there is room for it.
    fn keep(&mut self, path: &str, status: FileStatus)
        requires { IsLookedAt (H.contents (gate_host self.old)) (H.statuses (gate_host self.old))
            (H.real_paths (gate_host self.old)) (gate_files self.old) (gate_image self.old)
            (gate_bounds self.old) path.now status }
        ensures same_host { gate_host self.new ≡ gate_host self.old }
        ensures same_image { gate_image self.new ≡ gate_image self.old }
        ensures same_named { gate_named self.new ≡ gate_named self.old }
        ensures same_files { gate_files self.new ≡ gate_files self.old }
        ensures same_bounds { gate_bounds self.new ≡ gate_bounds self.old }
    {
        keep_status(self.door.alloc(), &mut self.looked, path, status);
    }

    /// A path isn't let through.
    fn kept_out(&self, path: &str) -> OpenError
        ensures { (reals : Option (List ℕ → List ℕ))
            → IsOut reals (gate_files self.now) (gate_image self.now) path.now
            → IsRefused (gate_image self.now) (IsKeptOut (gate_named self.now) reals
            (gate_files self.now) (gate_image self.now) path.now) result }
    {
        let alloc = self.door.alloc();
        match String::from_str(alloc, path) {
            Ok(path) => {
                let reason = reason_outside(self.named, self.door.others(), path);
                OpenError::of_file(alloc, self.door.image(), reason)
            }
            Err(_) => OpenError::Memory,
        }
    }

    /// The storage of the file of that path, if it is let through.
    fn storage(&mut self, path: &str) -> Result<PathStorage<'a, H>, OpenError>
        ensures told { IfOk result (λ s. IfSome (H.contents (gate_host self.old))
            (λ files. HasBytes ⟦<PathStorage<'a, H> as Storage>⟧.features
            ⟦<PathStorage<'a, H> as Storage>⟧.bytes (files path.now) s)) }
        ensures through { IfOk result
            (λ _. IsLetThrough (gate_files self.old) (gate_image self.old) path.now) }
        ensures name { IfOk result
            (λ s. (⟦<PathStorage<'a, H> as Storage>⟧.features s).filename ≡ Some path.now) }
        ensures read_only { IfOk result
            (λ s. (⟦<PathStorage<'a, H> as Storage>⟧.features s).offers_resize ≡ false) }
        ensures same_host { gate_host self.new ≡ gate_host self.old }
        ensures same_image { gate_image self.new ≡ gate_image self.old }
        ensures same_files { gate_files self.new ≡ gate_files self.old }
    {
        let file = self.look_once(path)?;
        storage_of(file, path)
    }
}

/// Keeps what the file of a path is, if few are kept and there is memory for it.
fn keep_status(
    alloc: Global,
    looked: &mut BTreeMap<String, FileStatus>,
    path: &str,
    status: FileStatus,
)
    ensures { KeepsBeside looked.old looked.new path.now status }
{
    if looked.len() >= MOST_KEPT {
        return;
    }
    if let Ok(key) = String::from_str(alloc, path) {
        let _ = looked.insert(key, status);
    }
}

/// Why a path isn't let through.
fn reason_outside(named: Named, other_files: OtherFiles, path: String) -> Reason
    ensures { (reals : Option (List ℕ → List ℕ)) (image : List ℕ)
        → IsOut reals other_files image (string_bytes path)
        → IsKeptOut named reals other_files image (string_bytes path) result }
{
    match (named, other_files) {
        (Named::Extents, OtherFiles::None) => Reason::NotPermitted(path),
        (Named::Backing, OtherFiles::None) => Reason::BackingNotPermitted(path),
        (Named::Extents, _) => Reason::Outside(path),
        (Named::Backing, _) => Reason::BackingOutside(path),
    }
}

impl<'a, 'b, H: Files> ImplicitOpenGate<PathStorage<'a, H>> for FolderGate<'a, 'b, H> {
    ghost use Rattle.imago_images.specs.GateParts.{gate_host, gate_image, gate_files};

    ghost opened = { λ o a b r. (gate_host b ≡ gate_host a) × (gate_image b ≡ gate_image a)
        × (gate_files b ≡ gate_files a)
        × IfOk r (IsLooked ⟦<PathStorage<'a, H> as Storage>⟧.features
        ⟦<PathStorage<'a, H> as Storage>⟧.bytes (H.contents (gate_host a)) (gate_files a)
        (gate_image a) o.filename) };

    fn open_storage(
        &mut self,
        alloc: Global,
        opts: StorageOpenOptions,
    ) -> Result<PathStorage<'a, H>, Error> {
        let Some(path) = opts.get_filename() else {
            return Err(Error::NotFound);
        };
        match self.storage(path) {
            Ok(storage) => Ok(storage),
            Err(_) => {
                self.refused = Some(String::from_str(alloc, path)?);
                Err(Error::Denied)
            }
        }
    }
}
