// SPDX-License-Identifier: MIT
//! Builders of raw images.
ghost use Rattle.std.specs.Prelude.{◌≡◌, ◌≤◌, ◌⊎◌, [], length, true, IsTrue, OnOk, OnErr, IfOk};
ghost use Rattle.std.specs.Prelude.{IfErr};
ghost use Rattle.std.specs.String.{string_bytes};
ghost use Rattle.imago_drivers.specs.declared.format.Format.TheVariants as ImageFormat;
ghost use Rattle.imago_drivers.specs.Builder.{HandedIn, AtPath, unset, unsized};
ghost use Rattle.imago_drivers.specs.RawBuilder.{IsRawOpening, IsRawOpeningBy, IsRawCreation};
ghost use Rattle.imago_drivers.specs.RawBuilder.{IsRawCreatedOpen, IsNewDisk, IsEmptiedBy};
ghost use Rattle.imago_drivers.specs.RawBuilder.{IsMadeIn, MayEmptyingBeRefused};
ghost use Rattle.imago_drivers.specs.RawBuilder.{MayCreationBeRefused};

use crate::builder::{
    FormatCreateBuilder, FormatCreateBuilderBase, FormatDriverBuilder, FormatDriverBuilderBase,
};
use crate::drivers::FormatDriverInstance;
use crate::format::{Format, PreallocateMode};
use crate::gate::ImplicitOpenGate;
use crate::raw::{Raw, storage_mode};
use imago_storage::error::Error;
use imago_storage::storage::{self, Storage, StorageOpenOptions};
use std::alloc::Global;

/// Opens a raw image by its options.
#[derive(Drop)]
pub struct RawOpenBuilder<S>(FormatDriverBuilderBase<S>);

/// Creates a raw image by its options.
#[derive(Drop)]
pub struct RawCreateBuilder<S>(FormatCreateBuilderBase<S>);

impl<S: Storage> Raw<S> {
    ghost use Rattle.imago_drivers.specs.RawBuilderParts.{raw_open_settings, raw_create_settings};

    /// Prepares the opening of the image that the storage has.
    pub fn builder(image: S) -> RawOpenBuilder<S>
        ensures { raw_open_settings result ≡ unset (HandedIn image) }
    {
        RawOpenBuilder::new(image)
    }

    /// Prepares the opening of the image in the storage of that path.
    pub fn builder_path(path: String) -> RawOpenBuilder<S>
        ensures { raw_open_settings result ≡ unset (AtPath (string_bytes path)) }
    {
        RawOpenBuilder::new_path(path)
    }

    /// Prepares the creation of an image in the storage.
    pub fn create_builder(image: S) -> RawCreateBuilder<S>
        ensures { raw_create_settings result ≡ unsized image }
    {
        RawCreateBuilder::new(image)
    }
}

impl<S: Storage> RawOpenBuilder<S> {
    ghost use Rattle.imago_drivers.specs.RawBuilderParts.{raw_open_settings};

    /// Opens the image by a gate that is lent. The gate isn't asked where a storage was handed in,
    /// and is else asked once.
    fn open_by<G: ImplicitOpenGate<S>>(self, alloc: Global, gate: &mut G) -> Result<Raw<S>, Error>
        ensures { IsRawOpeningBy S.bytes S.features G.opened (raw_open_settings self) gate.old
            gate.new result }
    {
        let RawOpenBuilder(base) = self;
        let writable = base.get_writable();
        let storage = base.open_image(alloc, gate)?;
        Raw::open_image(storage, writable)
    }
}

impl<S: Storage> FormatDriverBuilder<S> for RawOpenBuilder<S> {
    ghost use Rattle.imago_drivers.specs.RawBuilderParts.{raw_open_settings};

    type Format = Raw<S>;

    const FORMAT: Format = Format::Raw;

    ghost FORMAT = { ImageFormat.Raw };

    ghost settings = { raw_open_settings };

    ghost opens = { λ Gate opened gate b result. IsRawOpening S.bytes S.features opened gate
        (raw_open_settings b) result };

    fn new(image: S) -> Self {
        RawOpenBuilder(FormatDriverBuilderBase::new(image))
    }

    fn new_path(path: String) -> Self {
        RawOpenBuilder(FormatDriverBuilderBase::new_path(path))
    }

    fn write(mut self, writable: bool) -> Self {
        self.0.set_write(writable);
        self
    }

    fn storage_open_options(mut self, options: StorageOpenOptions) -> Self {
        self.0.set_storage_open_options(options);
        self
    }

    fn open<G: ImplicitOpenGate<S>>(self, alloc: Global, mut gate: G) -> Result<Raw<S>, Error> {
        self.open_by(alloc, &mut gate)
    }

    fn get_image_path(&self) -> Option<&str> {
        self.0.get_image_path()
    }

    fn get_writable(&self) -> bool {
        self.0.get_writable()
    }

    fn get_storage_open_options(&self) -> Option<&StorageOpenOptions> {
        self.0.get_storage_opts()
    }
}

impl<S: Storage> FormatCreateBuilder<S> for RawCreateBuilder<S> {
    ghost use Rattle.imago_drivers.specs.RawBuilderParts.{raw_open_settings, raw_create_settings};

    type DriverBuilder = RawOpenBuilder<S>;

    const FORMAT: Format = Format::Raw;

    ghost settings = { raw_create_settings };

    ghost creates = { λ b result. IsRawCreation S.bytes S.features S.fault_count S.maintenance
        (raw_create_settings b) result };

    fn new(image: S) -> Self {
        RawCreateBuilder(FormatCreateBuilderBase::new(image))
    }

    fn size(mut self, size: u64) -> Self {
        self.0.set_size(size);
        self
    }

    fn preallocate(mut self, prealloc_mode: PreallocateMode) -> Self {
        self.0.set_preallocate(prealloc_mode);
        self
    }

    fn create(self, _alloc: Global) -> Result<S, Error> {
        let RawCreateBuilder(base) = self;
        let size = base.get_size();
        let mode = base.get_preallocate();
        let mut image = base.get_image();
        create_in(&mut image, size, mode)?;
        Ok(image)
    }

    fn get_size(&self) -> u64 {
        self.0.get_size()
    }

    fn get_preallocate(&self) -> PreallocateMode {
        self.0.get_preallocate()
    }
}

impl<S: Storage> RawCreateBuilder<S> {
    ghost use Rattle.imago_drivers.specs.RawBuilderParts.{raw_open_settings, raw_create_settings};

    /// Creates the image and opens it, always as writable, by the builder that `f` makes of its
    /// emptied storage. The image then grows to the size. What `f`, the gate or the storage refuses
    /// is passed on, and lets the storage go.
    pub fn create_open<G: ImplicitOpenGate<S>, F: FnOnce(S) -> Result<RawOpenBuilder<S>, Error>>(
        self,
        alloc: Global,
        gate: G,
        f: F,
    ) -> Result<Raw<S>, Error>
        requires { F.IsAlwaysCallable f }
        ensures created { IsRawCreatedOpen S.bytes S.features S.fault_count S.maintenance
            ⟦<Raw<S> as FormatDriverInstance>⟧.view
            ⟦<Raw<S> as FormatDriverInstance>⟧.calls raw_open_settings G.opened gate (F.post f)
            (raw_create_settings self) result }
        ensures writable { IfOk result
            (λ r. (⟦<Raw<S> as FormatDriverInstance>⟧.view r).abilities.is_writable ≡ true) }
        ensures sized { IfOk result
            (λ r. (raw_create_settings self).size
            ≤ (⟦<Raw<S> as FormatDriverInstance>⟧.view r).size) }
    {
        let RawCreateBuilder(base) = self;
        let size = base.get_size();
        let mode = base.get_preallocate();
        let mut storage = base.get_image();
        empty(&mut storage)?;
        let builder = f(storage)?;
        let mut image = builder.write(true).open(alloc, gate)?;
        image.resize_grow::<()>(alloc, None, size, mode)?;
        Ok(image)
    }
}

/// Makes a new raw image of that size in bytes in a lent storage. What the storage had is given up:
/// it is emptied, and then grows to the size, so that its bytes are zero unless the mode leaves
/// them unspecified.
///
/// [`Error::Unsupported`] is a storage that can't be resized; [`Error::Device`] and
/// [`Error::Memory`] are passed on. Refused, the storage is as it was, or empty.
pub fn create_in<S: Storage>(storage: &mut S, size: u64, mode: PreallocateMode) -> Result<(), Error>
    ensures created { OnOk result (IsNewDisk size mode (S.bytes storage.new)) }
    ensures performed { IsMadeIn S.bytes S.maintenance size mode storage.old storage.new result }
    ensures refused { OnErr result ((S.bytes storage.new ≡ S.bytes storage.old)
        ⊎ (S.bytes storage.new ≡ [])) }
    ensures features { S.features storage.new ≡ S.features storage.old }
    ensures faults { S.fault_count storage.old ≤ S.fault_count storage.new }
    ensures reliable { IsTrue (S.features storage.old).is_reliable → S.fault_count storage.new
        ≡ S.fault_count storage.old }
    ensures refusals { IfErr result
        (MayCreationBeRefused (S.features storage.old) (S.fault_count storage.old)
        (length (S.bytes storage.old)) size) }
{
    empty(storage)?;
    if size == 0 {
        return Ok(());
    }
    storage.resize(size, storage_mode(mode))
}

/// Gives up all bytes of a storage. Refused, it is as it was.
fn empty<S: Storage>(storage: &mut S) -> Result<(), Error>
    ensures emptied { OnOk result (S.bytes storage.new ≡ []) }
    ensures performed { IsEmptiedBy S.bytes S.maintenance storage.old storage.new result }
    ensures refused { OnErr result (S.bytes storage.new ≡ S.bytes storage.old) }
    ensures features { S.features storage.new ≡ S.features storage.old }
    ensures faults { S.fault_count storage.old ≤ S.fault_count storage.new }
    ensures reliable { IsTrue (S.features storage.old).is_reliable → S.fault_count storage.new
        ≡ S.fault_count storage.old }
    ensures refusals { IfErr result
        (MayEmptyingBeRefused (S.features storage.old) (S.fault_count storage.old)
        (length (S.bytes storage.old))) }
{
    if Storage::size(&*storage)? == 0 {
        return Ok(());
    }
    storage.resize(0, storage::PreallocateMode::None)
}
