// SPDX-License-Identifier: MIT
//! The folder of an image, and the links that lead out of it.

ghost use Rattle.std.specs.Prelude.{◌≡◌, true, false, IfOk, IfErr, IsSome};
ghost use Rattle.imago_images.specs.Gate.{folder_asked};
ghost use Rattle.imago_images.specs.Refusals.{IsRefused, IsBySystem};

use crate::door::Door;
use crate::failure::OpenError;
use crate::files::Files;
use std::io;
use std::path::Path;

/// The folder of an image's file, and whether files outside of it are looked at.
#[derive(Drop)]
pub struct Folder {
    /// The folder's path without links, where only files in it are looked at.
    bounds: Option<String>,
}

impl Folder {
    ghost use Rattle.imago_images.specs.DoorParts.{door_host};
    ghost use Rattle.imago_images.specs.FolderParts.{bounds_in, IsBounded, IsBeyond, IsWithin};

    /// The folder of the image of that path. Where files outside may be looked at, the host isn't
    /// asked; otherwise it may refuse to tell the folder's path without links.
    pub fn of<H: Files>(
        door: &Door<'_, '_, H>,
        image: &str,
        allow_outside: bool,
    ) -> Result<Self, OpenError>
        ensures bounds { IfOk result
            (λ f. IsBounded (H.real_paths (door_host door.now)) image.now (bounds_in f)) }
        ensures bounded { allow_outside ≡ false → IfOk result (λ f. IsSome (bounds_in f)) }
        ensures refused { IfErr result (IsRefused (folder_asked image.now) IsBySystem) }
    {
        if allow_outside {
            return Ok(Folder { bounds: None });
        }
        let folder = folder_to_ask(image);
        let real = OpenError::or_system(door.alloc(), folder, door.real_path(folder))?;
        Ok(Folder { bounds: Some(real) })
    }

    /// Whether a link leads a path out of the folder, where that isn't permitted. A path that can't
    /// be resolved is refused, as the host answers.
    pub fn leaves<H: Files>(&self, door: &Door<'_, '_, H>, path: &str) -> io::Result<bool>
        ensures out { IfOk result (λ yes. yes ≡ true
            → IsBeyond (H.real_paths (door_host door.now)) path.now (bounds_in self.now)) }
        ensures within { IfOk result (λ yes. yes ≡ false
            → IsWithin (H.real_paths (door_host door.now)) path.now (bounds_in self.now)) }
    {
        let Some(bounds) = &self.bounds else {
            return Ok(false);
        };
        let real = door.real_path(path)?;
        Ok(!Path::new(&real).starts_with(bounds.as_str()))
    }
}

/// The path by which a host finds the folder of the image of that path.
fn folder_to_ask(image: &str) -> &str
    ensures { result.now ≡ folder_asked image.now }
{
    match Path::new(image).parent() {
        Some(folder) if !folder.as_str().is_empty() => folder.as_str(),
        _ => ".",
    }
}
