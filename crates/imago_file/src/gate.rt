// SPDX-License-Identifier: MIT
//! A gate that opens files.
ghost use Rattle.std.specs.Prelude.{◌≡◌, None, Some, option_map};
ghost use Rattle.std.specs.String.{string_bytes};
ghost use Rattle.imago_storage.specs.Options.{open_options};
ghost use Rattle.imago_file.specs.FileGate.{lets_through, IsGateOpening};
ghost use Rattle.imago_file.specs.Opening.{IsFileOpening, IsStorageOf};
ghost use Rattle.imago_file.specs.StorageParts.{file_of};

use crate::file::FileStorage;
use crate::name::lies_below;
use crate::opening::{HostFiles, error_of};
use imago_drivers::gate::ImplicitOpenGate;
use imago_storage::error::Error;
use imago_storage::storage::{Storage, StorageOpenOptions};
use std::alloc::Global;
use std::io;

/// A gate that opens the files that images name: any of them, or those of one folder.
///
/// A name that isn't let through is [`Error::Denied`], and nothing is opened for it. Options
/// without a name are [`Error::NotFound`]. What the host refuses is answered as [`error_of`] says,
/// and [`last_error`](Self::last_error) keeps the cause.
///
/// Names are compared with the folder's by their text, and links are followed: where others may
/// make links in the folder, they decide what is opened.
#[derive(Drop)]
pub struct FileGate<H: HostFiles> {
    host: H,
    /// The folder whose files are opened, if not those of every folder are.
    folder: Option<String>,
    /// What the last opening was refused for, if the host refused it.
    last_error: Option<io::Error>,
}

impl<H: HostFiles> FileGate<H> {
    ghost use Rattle.imago_file.specs.GateParts.{host_of, folder_of, kept_in};

    /// A gate that opens any file. An image then decides by itself what is opened, so only images
    /// that are trusted should be opened with it.
    pub fn any(host: H) -> Self
        ensures host { host_of result ≡ «host» }
        ensures folder { folder_of result ≡ None }
        ensures kept { kept_in result ≡ None }
    {
        FileGate {
            host,
            folder: None,
            last_error: None,
        }
    }

    /// A gate that opens files in that folder, and below. For an image whose storage resolves names
    /// beside itself it is the folder of the image's own name, as
    /// [`path_beside`](crate::name::path_beside) takes it.
    pub fn below(host: H, folder: String) -> Self
        ensures host { host_of result ≡ «host» }
        ensures folder { folder_of result ≡ Some (string_bytes folder) }
        ensures kept { kept_in result ≡ None }
    {
        FileGate {
            host,
            folder: Some(folder),
            last_error: None,
        }
    }

    /// What the last opening was refused for, in the words of the host; nothing where it was the
    /// gate that refused it, where it succeeded, and before the first one.
    pub fn last_error(&self) -> Option<io::Error>
        ensures { result ≡ kept_in self.now }
    {
        self.last_error
    }

    /// Whether a path is let through.
    fn lets_through(&self, path: &str) -> bool
        ensures { result ≡ lets_through (folder_of self.now) path.now }
    {
        match &self.folder {
            Some(folder) => lies_below(folder, path),
            None => true,
        }
    }
}

impl<H: HostFiles> ImplicitOpenGate<FileStorage<H::File>> for FileGate<H> {
    ghost use Rattle.imago_file.specs.GateParts.{host_of, folder_of, kept_in};

    ghost opened = { λ o a b r. (folder_of b ≡ folder_of a)
        × IsGateOpening (folder_of a) (IsFileOpening H.opened H.File.calls
        (IsStorageOf file_of ⟦<FileStorage<H::File> as Storage>⟧.features
        ⟦<FileStorage<H::File> as Storage>⟧.bytes H.File.contents H.File.calls) o)
        o.filename (host_of a) (host_of b) (kept_in b) r };

    fn open_storage(
        &mut self,
        alloc: Global,
        opts: StorageOpenOptions,
    ) -> Result<FileStorage<H::File>, Error> {
        self.last_error = None;
        let Some(path) = opts.get_filename() else {
            return Err(Error::NotFound);
        };
        if !self.lets_through(path) {
            return Err(Error::Denied);
        }
        match FileStorage::open_file(&mut self.host, alloc, opts) {
            Ok(storage) => Ok(storage),
            Err(cause) => {
                self.last_error = Some(cause);
                Err(error_of(&cause))
            }
        }
    }
}
