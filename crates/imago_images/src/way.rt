// SPDX-License-Identifier: MIT
//! The way down a chain.
ghost use Rattle.std.specs.Prelude.{◌≡◌, ◌++◌, ◌∷◌, [], ℕ, List, true, false, OnOk, IfErr};
ghost use Rattle.imago_images.specs.PathFile.{file_path, file_status};
ghost use Rattle.imago_images.specs.Way.{entered, identity, is_among};
ghost use Rattle.imago_images.specs.Refusals.{IsRefused, IsInCircle, IsTooDeep};

use crate::failure::{OpenError, Reason};
use crate::file::PathFile;
use crate::files::Files;
use std::alloc::{AllocError, Global};

/// The files on the way down a chain.
#[derive(Drop)]
pub struct Way {
    /// Each by its device, and its number there.
    files: Vec<(u64, u64)>,
    /// The paths, as they are printed.
    told: String,
}

impl Way {
    /// No files.
    pub fn new(alloc: Global) -> Self
        ensures { entered result ≡ [] }
    {
        Way {
            files: Vec::new(alloc),
            told: String::new(alloc),
        }
    }

    /// Goes on to a file. One that was on the way before is refused.
    pub fn enter<H: Files>(
        &mut self,
        alloc: Global,
        file: &PathFile<'_, H>,
    ) -> Result<(), OpenError>
        ensures anew { OnOk result
            (is_among (entered self.old) (identity (file_status file.now)) ≡ false) }
        ensures entered { OnOk result
            (entered self.new ≡ entered self.old ++ identity (file_status file.now) ∷ []) }
        ensures refused { IfErr result (IsRefused (file_path file.now)
            (IsInCircle (entered self.old) (identity (file_status file.now)))) }
    {
        let status = file.status();
        self.tell(alloc, file.path())?;
        let entered = (status.device, status.inode);
        if self.files.contains(&entered) {
            return Err(self.in_circle(alloc, file.path()));
        }
        self.files.push(entered)?;
        Ok(())
    }

    /// Puts a path to those that are told.
    fn tell(&mut self, alloc: Global, path: &str) -> Result<(), AllocError>
        ensures { entered self.new ≡ entered self.old }
    {
        if !self.told.is_empty() {
            self.told.push_str(", ")?;
        }
        let path = format!(in alloc; "{path:?}")?;
        self.told.push_str(&path)
    }

    /// A file on the way leads back to one above it.
    fn in_circle(&self, alloc: Global, path: &str) -> OpenError
        ensures { (above : List (ℕ × ℕ)) (file : ℕ × ℕ) → is_among above file ≡ true
            → IsRefused path.now (IsInCircle above file) result }
    {
        match String::from_str(alloc, &self.told) {
            Ok(told) => OpenError::of_file(alloc, path, Reason::Loop(told)),
            Err(_) => OpenError::Memory,
        }
    }

    /// A file isn't the last one, and too many are above it.
    pub fn too_many_below(&self, alloc: Global, path: &str) -> OpenError
        ensures { IsRefused path.now IsTooDeep result }
    {
        match String::from_str(alloc, &self.told) {
            Ok(told) => OpenError::of_file(alloc, path, Reason::TooManyBelow(told)),
            Err(_) => OpenError::Memory,
        }
    }
}
