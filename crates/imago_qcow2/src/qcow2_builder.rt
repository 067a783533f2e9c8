// SPDX-License-Identifier: MIT
//! The builder of qcow2 images.
ghost use Rattle.std.specs.Prelude.{◌≡◌, false, Some, IfOk};
ghost use Rattle.std.specs.String.{string_bytes};
ghost use Rattle.imago_storage.specs.Options.{open_options};
ghost use Rattle.imago_drivers.specs.declared.format.Format.TheVariants as ImageFormat;
ghost use Rattle.imago_drivers.specs.Builder.{HandedIn, AtPath, unset, IsImageOf};
ghost use Rattle.imago_qcow2.specs.Qcow2Builder.{IsQcow2Opening, IsQcow2OpeningBy};

use crate::memory::NothingShared;
use crate::qcow2::Qcow2;
use imago_drivers::builder::{FormatDriverBuilder, FormatDriverBuilderBase};
use imago_drivers::drivers::{Format, FormatDriverInstance};
use imago_drivers::gate::ImplicitOpenGate;
use imago_storage::error::Error;
use imago_storage::storage::{Storage, StorageOpenOptions};
use std::alloc::Global;

/// Opens a qcow2 image by its options.
///
/// An image that is to be written is [`Error::Unsupported`], before anything else. The backing file
/// isn't opened. An image that names one is [`Error::Unsupported`] too, since with nothing below it
/// would read as zeroes where the backing file has its data; a caller that lays the backing file's
/// image below says so by [`backing_laid_by_caller`](Self::backing_laid_by_caller).
#[derive(Drop)]
pub struct Qcow2OpenBuilder<S> {
    base: FormatDriverBuilderBase<S>,
    backing_laid: bool,
}

impl<S: Storage> Qcow2<S> {
    ghost use Rattle.imago_qcow2.specs.Qcow2BuilderParts.{qcow2_settings, backing_laid_in};

    /// Prepares the opening of the image whose file the storage is.
    pub fn builder(image: S) -> Qcow2OpenBuilder<S>
        ensures settings { qcow2_settings result ≡ unset (HandedIn image) }
        ensures laid { backing_laid_in result ≡ false }
    {
        Qcow2OpenBuilder::new(image)
    }

    /// Prepares the opening of the image in the storage of that path.
    pub fn builder_path(path: String) -> Qcow2OpenBuilder<S>
        ensures settings { qcow2_settings result ≡ unset (AtPath (string_bytes path)) }
        ensures laid { backing_laid_in result ≡ false }
    {
        Qcow2OpenBuilder::new_path(path)
    }
}

impl<S: Storage> Qcow2OpenBuilder<S> {
    ghost use Rattle.imago_qcow2.specs.Qcow2BuilderParts.{qcow2_settings, backing_laid_in};

    /// Sets whether the caller lays the image of the backing file below, as by
    /// `FormatAccess::with_backing`. Unless it does, an image that names a backing file isn't
    /// opened.
    pub fn backing_laid_by_caller(mut self, laid: bool) -> Self
        ensures settings { qcow2_settings result ≡ qcow2_settings self }
        ensures laid { backing_laid_in result ≡ laid }
    {
        self.backing_laid = laid;
        self
    }

    /// Opens the image by a gate that is lent. It is asked once for the storage of a path, and not
    /// for one that was handed in; it is as it was where the image is to be written.
    fn open_by<G: ImplicitOpenGate<S>>(self, alloc: Global, gate: &mut G) -> Result<Qcow2<S>, Error>
        ensures opened { IsQcow2OpeningBy S.bytes S.features G.opened (backing_laid_in self)
            (qcow2_settings self) gate.old gate.new result }
        ensures image { IfOk result (λ r. IsImageOf G.opened gate.old
            (qcow2_settings self) S.bytes S.features
            (⟦<Qcow2<S> as FormatDriverInstance>⟧.view r)) }
    {
        let Qcow2OpenBuilder { base, backing_laid } = self;
        if base.get_writable() {
            return Err(Error::Unsupported);
        }
        let storage = base.open_image(alloc, gate)?;
        Qcow2::open_read_only(alloc, storage, &NothingShared, backing_laid)
    }
}

impl<S: Storage> FormatDriverBuilder<S> for Qcow2OpenBuilder<S> {
    ghost use Rattle.imago_qcow2.specs.Qcow2BuilderParts.{qcow2_settings, backing_laid_in};

    type Format = Qcow2<S>;

    const FORMAT: Format = Format::Qcow2;

    ghost FORMAT = { ImageFormat.Qcow2 };

    ghost settings = { qcow2_settings };

    ghost opens = { λ Gate opened gate b result. IsQcow2Opening S.bytes S.features opened gate
        (backing_laid_in b) (qcow2_settings b) result };

    fn new(image: S) -> Self
        ensures settings { qcow2_settings result ≡ unset (HandedIn image) }
        ensures laid { backing_laid_in result ≡ false }
    {
        Qcow2OpenBuilder {
            base: FormatDriverBuilderBase::new(image),
            backing_laid: false,
        }
    }

    fn new_path(path: String) -> Self
        ensures settings { qcow2_settings result ≡ unset (AtPath (string_bytes path)) }
        ensures laid { backing_laid_in result ≡ false }
    {
        Qcow2OpenBuilder {
            base: FormatDriverBuilderBase::new_path(path),
            backing_laid: false,
        }
    }

    fn write(mut self, writable: bool) -> Self
        ensures settings { qcow2_settings result
            ≡ record (qcow2_settings self) { writable = writable } }
        ensures laid { backing_laid_in result ≡ backing_laid_in self }
    {
        self.base.set_write(writable);
        self
    }

    fn storage_open_options(mut self, options: StorageOpenOptions) -> Self
        ensures settings { qcow2_settings result
            ≡ record (qcow2_settings self) { options = Some (open_options options) } }
        ensures laid { backing_laid_in result ≡ backing_laid_in self }
    {
        self.base.set_storage_open_options(options);
        self
    }

    fn open<G: ImplicitOpenGate<S>>(self, alloc: Global, mut gate: G) -> Result<Qcow2<S>, Error> {
        self.open_by(alloc, &mut gate)
    }

    fn get_image_path(&self) -> Option<&str> {
        self.base.get_image_path()
    }

    fn get_writable(&self) -> bool {
        self.base.get_writable()
    }

    fn get_storage_open_options(&self) -> Option<&StorageOpenOptions> {
        self.base.get_storage_opts()
    }
}
