// SPDX-License-Identifier: MIT
//! Builders, which open and create images by their options.
ghost use Rattle.std.specs.Prelude.{◌≡◌, Some, None, IfOk, IfErr, IsOk, option_map};
ghost use Rattle.std.specs.Option.{option_copied};
ghost use Rattle.std.specs.String.{string_bytes};
ghost use Rattle.imago_storage.specs.Options.{open_options};
ghost use Rattle.imago_drivers.specs.Builder.{OpenSettings, CreateSettings, HandedIn, AtPath};
ghost use Rattle.imago_drivers.specs.Builder.{unset, unsized, image_path, storage_options};
ghost use Rattle.imago_drivers.specs.Builder.{IsImageStorage, ImageOpening, ImageCreation};
ghost use Rattle.imago_drivers.specs.Builder.{IsImageOf};
ghost use Rattle.imago_drivers.specs.declared.format.Format.{Format as ImageFormat};
ghost use Rattle.imago_drivers.specs.BuilderBase.{open_settings, create_settings};

use crate::drivers::FormatDriverInstance;
use crate::format::{Format, PreallocateMode};
use crate::gate::ImplicitOpenGate;
use imago_storage::error::Error;
use imago_storage::storage::{Storage, StorageOpenOptions};
use std::alloc::Global;

/// Prepares the opening of an image: its options are set one by one, and then it is opened.
///
/// An image is that of a storage which is handed in, or of the one under a path, which a gate
/// opens. It isn't writable unless that is set. A builder of one format may have more options than
/// these.
pub trait FormatDriverBuilder<S: Storage>: Drop + Sized {
    /// The driver of the opened image.
    type Format: FormatDriverInstance<Storage = S>;

    /// The image's format.
    const FORMAT: Format;

    /// The same.
    ghost FORMAT: { ImageFormat };

    /// What is set.
    ghost settings: { Self → OpenSettings S };

    /// What the opening is. For a builder that isn't known nothing but the call itself gives it.
    ghost opens: { ImageOpening Self S Self.Format };

    /// Prepares the opening of the image that the storage has.
    fn new(image: S) -> Self
        ensures { settings result ≡ unset (HandedIn image) };

    /// Prepares the opening of the image in the storage of that path.
    fn new_path(path: String) -> Self
        ensures { settings result ≡ unset (AtPath (string_bytes path)) };

    /// Sets whether the image can be written to.
    fn write(self, writable: bool) -> Self
        ensures { settings result ≡ record (settings self) { writable = writable } };

    /// Sets the options that storages are opened with. Their file name and whether they are
    /// writable don't count: both are set for each storage.
    fn storage_open_options(self, options: StorageOpenOptions) -> Self
        ensures { settings result
            ≡ record (settings self) { options = Some (open_options options) } };

    /// Opens the image. The gate is asked for the storage of a path, and not for one that was
    /// handed in. What the gate, the storage or the driver refuses is passed on, and lets a storage
    /// that was handed in go.
    fn open<G: ImplicitOpenGate<S>>(self, alloc: Global, gate: G) -> Result<Self::Format, Error>
        ensures opened { opens _ G.opened gate self result }
        ensures format { IfOk result (λ r. (Self.Format.view r).abilities.format ≡ FORMAT) }
        ensures image { IfOk result (λ r. IsImageOf G.opened gate (settings self) S.bytes S.features
            (Self.Format.view r)) };

    /// The path of the image, or the name of the storage that was handed in, if it has one.
    fn get_image_path(&self) -> Option<&str>
        ensures { option_copied result ≡ image_path S.features (settings self.now).source };

    /// Whether the image can be written to.
    fn get_writable(&self) -> bool
        ensures { result ≡ (settings self.now).writable };

    /// The options that storages are opened with, if any were set.
    fn get_storage_open_options(&self) -> Option<&StorageOpenOptions>
        ensures { option_map (λ o. open_options o.now) result ≡ (settings self.now).options };
}

/// Prepares the creation of an image: its options are set one by one, and then it is made in a
/// storage that was handed in. What that storage had is given up. A builder of one format may also
/// open what it creates, by a call of its own.
pub trait FormatCreateBuilder<S: Storage>: Drop + Sized {
    /// What opens the created image.
    type DriverBuilder: FormatDriverBuilder<S>;

    /// The image's format.
    const FORMAT: Format;

    /// What is set.
    ghost settings: { Self → CreateSettings S };

    /// What the creation is. For a builder that isn't known nothing but the call itself gives it.
    ghost creates: { ImageCreation Self S };

    /// Prepares the creation of an image in the storage: of size 0, without preallocation.
    fn new(image: S) -> Self
        ensures { settings result ≡ unsized image };

    /// Sets the disk's size, in bytes.
    fn size(self, size: u64) -> Self
        ensures { settings result ≡ record (settings self) { size = size } };

    /// Sets how the disk is allocated.
    fn preallocate(self, prealloc_mode: PreallocateMode) -> Self
        ensures { settings result ≡ record (settings self) { mode = prealloc_mode } };

    /// Creates the image, and gives its storage back. What is refused is passed on, and lets the
    /// storage go.
    fn create(self, alloc: Global) -> Result<S, Error>
        ensures { creates self result };

    /// The disk's size, in bytes.
    fn get_size(&self) -> u64
        ensures { result ≡ (settings self.now).size };

    /// How the disk is allocated.
    fn get_preallocate(&self) -> PreallocateMode
        ensures { result ≡ (settings self.now).mode };
}

/// A storage, or the path of one.
#[derive(Drop)]
enum StorageOrPath<S> {
    /// A storage.
    Storage(S),
    /// A path.
    Path(String),
}

/// What every builder that opens an image has: its storage or path, whether it is writable, and
/// options.
#[derive(Drop)]
pub struct FormatDriverBuilderBase<S> {
    image: StorageOrPath<S>,
    writable: bool,
    storage_opts: Option<StorageOpenOptions>,
}

impl<S: Storage> FormatDriverBuilderBase<S> {
    /// The image that the storage has: not writable, without options.
    pub fn new(image: S) -> Self
        ensures { open_settings result ≡ unset (HandedIn image) }
    {
        FormatDriverBuilderBase {
            image: StorageOrPath::Storage(image),
            writable: false,
            storage_opts: None,
        }
    }

    /// The image in the storage of that path: not writable, without options.
    pub fn new_path(path: String) -> Self
        ensures { open_settings result ≡ unset (AtPath (string_bytes path)) }
    {
        FormatDriverBuilderBase {
            image: StorageOrPath::Path(path),
            writable: false,
            storage_opts: None,
        }
    }

    /// Sets whether the image can be written to.
    pub fn set_write(&mut self, writable: bool)
        ensures { open_settings self.new ≡ record (open_settings self.old) { writable = writable } }
    {
        self.writable = writable;
    }

    /// Sets the options that storages are opened with.
    pub fn set_storage_open_options(&mut self, options: StorageOpenOptions)
        ensures { open_settings self.new
            ≡ record (open_settings self.old) { options = Some (open_options options) } }
    {
        self.storage_opts = Some(options);
    }

    /// The path of the image, or the name of the storage that was handed in, if it has one.
    pub fn get_image_path(&self) -> Option<&str>
        ensures { option_copied result ≡ image_path S.features (open_settings self.now).source }
    {
        match &self.image {
            StorageOrPath::Storage(storage) => storage.get_filename(),
            StorageOrPath::Path(path) => Some(path.as_str()),
        }
    }

    /// Whether the image can be written to.
    pub fn get_writable(&self) -> bool
        ensures { result ≡ (open_settings self.now).writable }
    {
        self.writable
    }

    /// The options that storages are opened with, if any were set.
    pub fn get_storage_opts(&self) -> Option<&StorageOpenOptions>
        ensures { option_map (λ o. open_options o.now) result ≡ (open_settings self.now).options }
    {
        self.storage_opts.as_ref()
    }

    /// Options to open a storage with: a copy of the set ones, or new ones, and writable as the
    /// image is. Refused, it is [`Error::Memory`], which only the copy of a file name takes.
    pub fn make_storage_opts(&self, alloc: Global) -> Result<StorageOpenOptions, Error>
        ensures made { IfOk result
            (λ o. open_options o ≡ storage_options (open_settings self.now)) }
        ensures memory { IfErr result (λ e. e ≡ Error.Memory) }
        ensures unnamed { (storage_options (open_settings self.now)).filename ≡ None → IsOk result }
    {
        let opts = StorageOpenOptions::new().write(self.writable);
        let Some(set) = &self.storage_opts else {
            return Ok(opts);
        };
        let opts = opts.direct(set.get_direct());
        let Some(name) = set.get_filename() else {
            return Ok(opts);
        };
        Ok(opts.filename(String::from_str(alloc, name)?))
    }

    /// The storage of the image: the one that was handed in, or the one that the gate opens for the
    /// path. What the gate refuses is passed on. It takes no memory beside the gate's.
    pub fn open_image<G: ImplicitOpenGate<S>>(self, alloc: Global, gate: &mut G) -> Result<S, Error>
        ensures { IsImageStorage G.opened (open_settings self) gate.old gate.new result }
    {
        let FormatDriverBuilderBase {
            image,
            writable,
            storage_opts,
        } = self;
        match image {
            StorageOrPath::Storage(storage) => Ok(storage),
            StorageOrPath::Path(path) => {
                let opts = storage_opts.unwrap_or(StorageOpenOptions::new());
                gate.open_storage(alloc, opts.write(writable).filename(path))
            }
        }
    }
}

/// What every builder that creates an image has: its storage, the disk's size in bytes, and how it
/// is allocated.
#[derive(Drop)]
pub struct FormatCreateBuilderBase<S> {
    image: S,
    size: u64,
    prealloc_mode: PreallocateMode,
}

impl<S: Storage> FormatCreateBuilderBase<S> {
    /// A disk of size 0, without preallocation.
    pub fn new(image: S) -> Self
        ensures { create_settings result ≡ unsized image }
    {
        FormatCreateBuilderBase {
            image,
            size: 0,
            prealloc_mode: PreallocateMode::None,
        }
    }

    /// Sets the disk's size, in bytes.
    pub fn set_size(&mut self, size: u64)
        ensures { create_settings self.new ≡ record (create_settings self.old) { size = size } }
    {
        self.size = size;
    }

    /// Sets how the disk is allocated.
    pub fn set_preallocate(&mut self, prealloc_mode: PreallocateMode)
        ensures { create_settings self.new
            ≡ record (create_settings self.old) { mode = prealloc_mode } }
    {
        self.prealloc_mode = prealloc_mode;
    }

    /// The disk's size, in bytes.
    pub fn get_size(&self) -> u64
        ensures { result ≡ (create_settings self.now).size }
    {
        self.size
    }

    /// How the disk is allocated.
    pub fn get_preallocate(&self) -> PreallocateMode
        ensures { result ≡ (create_settings self.now).mode }
    {
        self.prealloc_mode
    }

    /// The storage that the image is created in.
    pub fn get_image(self) -> S
        ensures { result ≡ (create_settings self).image }
    {
        let FormatCreateBuilderBase {
            image,
            size: _,
            prealloc_mode: _,
        } = self;
        image
    }

    /// The storage that the image is created in, lent.
    pub fn get_image_ref(&self) -> &S
        ensures { result.now ≡ (create_settings self.now).image }
    {
        &self.image
    }
}
