// SPDX-License-Identifier: MIT
//! The way down a chain of images, each of which is described by itself.

use crate::failure::{Failure, Reason};
use crate::host::Host;
use imago_images::failure::OpenError;
use imago_images::file::{PathStorage, storage_of};
use imago_images::format::ImageFormat;
use imago_images::gate::{FolderGate, Named};
use imago_images::layer::path_below;
use imago_images::opening::Opening;
use imago_storage::storage::Storage;
use std::alloc::{AllocError, Global};

/// An image of a chain, which was looked at.
#[derive(Drop)]
pub struct Step<S: Storage> {
    /// The path of its file.
    pub path: String,
    /// The file.
    pub file: S,
    /// How it is opened: by the format that is said of it.
    pub how: Opening,
}

/// What an image says of the one below it.
#[derive(Clone, Copy)]
pub struct NamedBelow<'a> {
    /// The name of its file.
    pub name: &'a str,
    /// The name of its format, if it is said.
    pub format: Option<&'a str>,
}

/// The files of a chain that the way has come to.
#[derive(Drop)]
pub struct Above {
    /// Each by its device, and its number there.
    files: Vec<(u64, u64)>,
    /// The paths, as they are printed.
    told: String,
}

/// The image below the one of that path, which is opened so and says that of it.
pub fn step_below<'a, H: Host>(
    host: &'a H,
    above: &str,
    how: Opening,
    said: NamedBelow<'_>,
) -> Result<Step<PathStorage<'a, H>>, OpenError> {
    let alloc = host.alloc();
    let path = full_path(alloc, above, said.name)?;
    let format = match said.format {
        Some(name) => Some(format_said(alloc, above, name)?),
        None => None,
    };
    let gate = FolderGate::of(host, above, Named::Backing, how.other_files)?;
    let file = storage_of(gate.look(&path)?, &path)?;
    Ok(Step {
        path,
        file,
        how: Opening { format, ..how },
    })
}

/// The path that the name of a backing file stands for, which the file of that path has. A name
/// that is no file's is refused.
pub fn full_path(alloc: Global, path: &str, name: &str) -> Result<String, OpenError> {
    let mut bytes = Vec::new(alloc);
    bytes.extend_from_slice(name.as_bytes())?;
    path_below(alloc, path, bytes)
}

/// The format of that name, which the file of that path says of the one below it.
fn format_said(alloc: Global, path: &str, name: &str) -> Result<ImageFormat, OpenError> {
    match ImageFormat::named(name) {
        Some(format) => Ok(format),
        None => {
            let name = String::from_str(alloc, name)?;
            Err(OpenError::of_file(alloc, path, Reason::BackingFormat(name)))
        }
    }
}

impl Above {
    /// No files.
    pub fn new(alloc: Global) -> Self {
        Above {
            files: Vec::new(alloc),
            told: String::new(alloc),
        }
    }

    /// Comes to a file. One that the way has come to before is refused.
    pub fn enter<H: Host>(
        &mut self,
        alloc: Global,
        path: &str,
        file: &PathStorage<'_, H>,
    ) -> Result<(), OpenError> {
        let status = file.file().status();
        let file = (status.device, status.inode);
        self.tell(alloc, path)?;
        if self.files.contains(&file) {
            return self.in_circle(alloc, path);
        }
        self.files.push(file)?;
        Ok(())
    }

    /// Puts a path to those that are told.
    fn tell(&mut self, alloc: Global, path: &str) -> Result<(), AllocError> {
        if !self.told.is_empty() {
            self.told.push_str(", ")?;
        }
        let path = format!(in alloc; "{path:?}")?;
        self.told.push_str(&path)
    }

    /// The chain goes on below the file of that path, and is too long.
    pub fn too_many_below(&self, alloc: Global, path: &str) -> Result<(), OpenError> {
        let told = String::from_str(alloc, &self.told)?;
        Err(OpenError::of_file(alloc, path, Reason::TooManyBelow(told)))
    }

    /// The file of that path leads back to one above it.
    fn in_circle(&self, alloc: Global, path: &str) -> Result<(), OpenError> {
        let told = String::from_str(alloc, &self.told)?;
        Err(OpenError::of_file(alloc, path, Reason::Loop(told)))
    }
}
