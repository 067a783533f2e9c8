// SPDX-License-Identifier: MIT
//! The files of a host behind a door: none is read that isn't let through.
ghost use Rattle.std.specs.Prelude.{◌≡◌, List, ℕ, Some, false, IfOk, IfErr, IfSome};
ghost use Rattle.std.specs.Prelude.{length};
ghost use Rattle.std.specs.String.{string_bytes};
ghost use Rattle.imago_images.specs.Gate.{IsLetThrough};
ghost use Rattle.imago_images.specs.PathFile.{file_path, file_status, is_to_write};
ghost use Rattle.imago_images.specs.Refusals.{IsRefused, IsUnseen};

use crate::failure::OpenError;
use crate::file::PathFile;
use crate::files::{FileStatus, Files};
use crate::opening::OtherFiles;
use imago_file::host::HostFile;
use std::alloc::Global;
use std::io;

/// The files of a host to which one image leads, for whoever decides which of them it gets. Before
/// a path is let through, nothing can be asked of it but where it leads; no other module sees the
/// host itself.
#[derive(Drop)]
pub struct Door<'a, 'b, H: Files> {
    host: &'a H,
    /// The image's path.
    image: &'b str,
    others: OtherFiles,
}

impl<'a, 'b, H: Files> Door<'a, 'b, H> {
    ghost use Rattle.imago_images.specs.DoorParts.{door_host, door_image, door_files};

    /// The door before the files that the image of that path names, of which such are let through.
    pub fn new(host: &'a H, image: &'b str, others: OtherFiles) -> Self
        ensures host { door_host result ≡ host.now }
        ensures image { door_image result ≡ image.now }
        ensures files { door_files result ≡ others }
    {
        Door {
            host,
            image,
            others,
        }
    }

    /// Where an image takes its memory.
    pub fn alloc(&self) -> Global {
        self.host.alloc()
    }

    /// The path of the image that names the files.
    pub fn image(&self) -> &'b str
        ensures { result.now ≡ door_image self.now }
    {
        self.image
    }

    /// Which files are let through.
    pub fn others(&self) -> OtherFiles
        ensures { result ≡ door_files self.now }
    {
        self.others
    }

    /// The path that it is without links and relative parts.
    pub fn real_path(&self, path: &str) -> io::Result<String>
        ensures { IfOk result (λ p. IfSome (H.real_paths (door_host self.now))
            (λ real. string_bytes p ≡ real path.now)) }
    {
        self.host.real_path(path)
    }

    /// Looks at the file of a path that is let through. It is refused as by
    /// [`PathFile::look_at`].
    pub fn look_at(&self, path: &str) -> Result<PathFile<'a, H>, OpenError>
        requires through { IsLetThrough (door_files self.now) (door_image self.now) path.now }
        ensures told { IfOk result (λ f. IfSome (H.contents (door_host self.now))
            (λ files. ⟦<PathFile<'a, H> as HostFile>⟧.contents f ≡ Some (files path.now))) }
        ensures path { IfOk result (λ f. file_path f ≡ path.now) }
        ensures status { IfOk result (λ f. IfSome (H.statuses (door_host self.now))
            (λ status_of. file_status f ≡ status_of path.now)) }
        ensures length { IfOk result (λ f. IfSome (H.contents (door_host self.now))
            (λ files. (file_status f).length ≡ length (files path.now))) }
        ensures read_only { IfOk result (λ f. is_to_write f ≡ false) }
        ensures refused { IfErr result (IsRefused path.now
            (IsUnseen (H.statuses (door_host self.now)) path.now)) }
    {
        PathFile::look_at(self.host, path)
    }

    /// The file of a path that is let through, which was looked at before and had that status then.
    /// The host isn't asked again.
    pub fn known(&self, path: &str, status: FileStatus) -> Result<PathFile<'a, H>, OpenError>
        requires through { IsLetThrough (door_files self.now) (door_image self.now) path.now }
        requires told { IfSome (H.statuses (door_host self.now))
            (λ status_of. status ≡ status_of path.now) }
        requires length { IfSome (H.contents (door_host self.now))
            (λ files. status.length ≡ length (files path.now)) }
        ensures told { IfOk result (λ f. IfSome (H.contents (door_host self.now))
            (λ files. ⟦<PathFile<'a, H> as HostFile>⟧.contents f ≡ Some (files path.now))) }
        ensures path { IfOk result (λ f. file_path f ≡ path.now) }
        ensures status { IfOk result (λ f. IfSome (H.statuses (door_host self.now))
            (λ status_of. file_status f ≡ status_of path.now)) }
        ensures read_only { IfOk result (λ f. is_to_write f ≡ false) }
        ensures refused { IfErr result (IsRefused path.now
            (IsUnseen (H.statuses (door_host self.now)) path.now)) }
    {
        PathFile::known(self.host, path, status)
    }
}
