// SPDX-License-Identifier: MIT
//! The builder of VMDK images.
ghost use Rattle.std.specs.Prelude.{◌≡◌, false, Some, IfOk};
ghost use Rattle.std.specs.String.{string_bytes};
ghost use Rattle.imago_storage.specs.Options.{open_options};
ghost use Rattle.imago_drivers.specs.declared.format.Format.TheVariants as ImageFormat;
ghost use Rattle.imago_drivers.specs.Builder.{HandedIn, AtPath, unset, storage_options, IsImageOf};
ghost use Rattle.imago_drivers.specs.BuilderBase.{open_settings};
ghost use Rattle.imago_vmdk.specs.Line.{nothing_accepted};
ghost use Rattle.imago_vmdk.specs.VmdkBuilder.{IsVmdkOpening, IsVmdkOpeningBy};

use crate::line::Accepted;
use crate::vmdk::Vmdk;
use imago_drivers::builder::{FormatDriverBuilder, FormatDriverBuilderBase};
use imago_drivers::drivers::{Format, FormatDriverInstance};
use imago_drivers::gate::ImplicitOpenGate;
use imago_storage::error::Error;
use imago_storage::storage::{Storage, StorageOpenOptions};
use std::alloc::Global;

/// Opens a VMDK image by its options, and its extents with it.
///
/// The set options count for the extents too. An image that is to be written is
/// [`Error::Unsupported`], before anything else.
#[derive(Drop)]
pub struct VmdkOpenBuilder<S> {
    base: FormatDriverBuilderBase<S>,
    /// What the descriptor may contain.
    accepted: Accepted,
}

impl<S: Storage> Vmdk<S> {
    ghost use Rattle.imago_vmdk.specs.VmdkBuilderParts.{vmdk_settings, accepted_by};

    /// Prepares the opening of the image whose descriptor the storage has.
    pub fn builder(image: S) -> VmdkOpenBuilder<S>
        ensures settings { vmdk_settings result ≡ unset (HandedIn image) }
        ensures accepted { accepted_by result ≡ nothing_accepted }
    {
        VmdkOpenBuilder {
            base: FormatDriverBuilderBase::new(image),
            accepted: Accepted::NOTHING,
        }
    }

    /// Prepares the opening of the image whose descriptor stands in the storage of that path.
    pub fn builder_path(path: String) -> VmdkOpenBuilder<S>
        ensures settings { vmdk_settings result ≡ unset (AtPath (string_bytes path)) }
        ensures accepted { accepted_by result ≡ nothing_accepted }
    {
        VmdkOpenBuilder {
            base: FormatDriverBuilderBase::new_path(path),
            accepted: Accepted::NOTHING,
        }
    }
}

impl<S: Storage> VmdkOpenBuilder<S> {
    ghost use Rattle.imago_vmdk.specs.VmdkBuilderParts.{vmdk_settings, accepted_by};

    /// Sets whether a line of the descriptor whose key isn't known is accepted, and says nothing
    /// then. It is [`Error::InvalidData`] where it isn't, as by default.
    pub fn accept_unknown_keys(mut self, accept: bool) -> Self
        ensures settings { vmdk_settings result ≡ vmdk_settings self }
        ensures accepted { accepted_by result
            ≡ record (accepted_by self) { unknown_keys = accept } }
    {
        self.accepted.unknown_keys = accept;
        self
    }

    /// Sets whether extents of type VMFS are accepted, as ESX writes them. Such an extent is read
    /// as a FLAT one that begins at the first byte of its file. By default it isn't accepted, and
    /// the image is [`Error::Unsupported`].
    pub fn accept_vmfs(mut self, accept: bool) -> Self
        ensures settings { vmdk_settings result ≡ vmdk_settings self }
        ensures accepted { accepted_by result ≡ record (accepted_by self) { vmfs = accept } }
    {
        self.accepted.vmfs = accept;
        self
    }

    /// Opens the image. The gate is asked for the storage of a path, once, and then for those of
    /// the extents; it is as it was where the image is to be written.
    fn open_by<G: ImplicitOpenGate<S>>(self, alloc: Global, gate: &mut G) -> Result<Vmdk<S>, Error>
        ensures opened { IsVmdkOpeningBy S.bytes S.features S.openings.resolved G.opened
            (vmdk_settings self) (accepted_by self) gate.old gate.new result }
        ensures image { IfOk result
            (λ r. IsImageOf G.opened gate.old (vmdk_settings self) S.bytes S.features
            (⟦<Vmdk<S> as FormatDriverInstance>⟧.view r)) }
    {
        let VmdkOpenBuilder { base, accepted } = self;
        if base.get_writable() {
            return Err(Error::Unsupported);
        }
        let direct = is_direct(&base);
        let storage = base.open_image(alloc, gate)?;
        Vmdk::open_with_extents(alloc, storage, direct, accepted, gate)
    }
}

/// Whether storages are to be opened without the host's cache.
fn is_direct<S: Storage>(base: &FormatDriverBuilderBase<S>) -> bool
    ensures { result ≡ (storage_options (open_settings base.now)).direct }
{
    match base.get_storage_opts() {
        Some(opts) => opts.get_direct(),
        None => false,
    }
}

impl<S: Storage> FormatDriverBuilder<S> for VmdkOpenBuilder<S> {
    ghost use Rattle.imago_vmdk.specs.VmdkBuilderParts.{vmdk_settings, accepted_by};

    type Format = Vmdk<S>;

    const FORMAT: Format = Format::Vmdk;

    ghost FORMAT = { ImageFormat.Vmdk };

    ghost settings = { vmdk_settings };

    ghost opens = { λ Gate opened gate b result. IsVmdkOpening S.bytes S.features
        S.openings.resolved opened gate (vmdk_settings b) (accepted_by b) result };

    fn new(image: S) -> Self
        ensures settings { vmdk_settings result ≡ unset (HandedIn image) }
        ensures accepted { accepted_by result ≡ nothing_accepted }
    {
        Vmdk::builder(image)
    }

    fn new_path(path: String) -> Self
        ensures settings { vmdk_settings result ≡ unset (AtPath (string_bytes path)) }
        ensures accepted { accepted_by result ≡ nothing_accepted }
    {
        Vmdk::builder_path(path)
    }

    fn write(mut self, writable: bool) -> Self
        ensures settings { vmdk_settings result
            ≡ record (vmdk_settings self) { writable = writable } }
        ensures accepted { accepted_by result ≡ accepted_by self }
    {
        self.base.set_write(writable);
        self
    }

    fn storage_open_options(mut self, options: StorageOpenOptions) -> Self
        ensures settings { vmdk_settings result
            ≡ record (vmdk_settings self) { options = Some (open_options options) } }
        ensures accepted { accepted_by result ≡ accepted_by self }
    {
        self.base.set_storage_open_options(options);
        self
    }

    fn open<G: ImplicitOpenGate<S>>(self, alloc: Global, mut gate: G) -> Result<Vmdk<S>, Error>
        ensures opened { IsVmdkOpening S.bytes S.features S.openings.resolved G.opened gate
            (vmdk_settings self) (accepted_by self) result }
        ensures image { IfOk result
            (λ r. IsImageOf G.opened gate (vmdk_settings self) S.bytes S.features
            (⟦<Vmdk<S> as FormatDriverInstance>⟧.view r)) }
        ensures format { IfOk result
            (λ r. (⟦<Vmdk<S> as FormatDriverInstance>⟧.view r).abilities.format ≡ Format.Vmdk) }
    {
        self.open_by(alloc, &mut gate)
    }

    fn get_image_path(&self) -> Option<&str> {
        self.base.get_image_path()
    }

    fn get_writable(&self) -> bool {
        self.base.get_writable()
    }

    fn get_storage_open_options(&self) -> Option<&StorageOpenOptions> {
        self.base.get_storage_opts()
    }
}
