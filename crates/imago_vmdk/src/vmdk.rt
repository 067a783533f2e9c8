// SPDX-License-Identifier: MIT
//! The driver of VMDK images.
ghost use Rattle.std.specs.Prelude.{◌≡◌, ℕ, ◌+◌, ◌*◌, ◌^◌, ◌-◌, ◌<◌, ◌≤◌, ◌⊎◌, ◌++◌, length, map};
ghost use Rattle.std.specs.Prelude.{slice_index_or, IfOk, IfErr, OnOk, OnErr, IsOk, IsTrue};
ghost use Rattle.std.specs.Prelude.{IsErrOf, Ok};
ghost use Rattle.std.specs.Prelude.{Err, min, false, true, [], ◌∷◌, List, MatchOption};
ghost use Rattle.std.specs.List.{sum_by};
ghost use Rattle.std.specs.String.{string_bytes};
ghost use Rattle.imago_storage.specs.Error.{IsExtRefusal};
ghost use Rattle.imago_storage.specs.Features.{MayRunOut};
ghost use Rattle.imago_storage.specs.Padding.{Wraps};
ghost use Rattle.imago_drivers.specs.declared.mapping.ShallowMapping.TheVariants as ShallowMapping;
ghost use Rattle.imago_drivers.specs.Mapping.{Names};
ghost use Rattle.imago_drivers.specs.Place.{Refused};
ghost use Rattle.imago_drivers.specs.Reasons.{allowed};
ghost use Rattle.imago_drivers.specs.Commit.{IsCommit, IsCancel};
ghost use Rattle.imago_vmdk.specs.Line.{extent_with, nothing_accepted};
ghost use Rattle.imago_vmdk.specs.Reading.{size_of as extent_size, is_length as may_be_long};
ghost use Rattle.imago_vmdk.specs.Reading.{reading_of, IsTextOf, IsReadingOf};
ghost use Rattle.imago_vmdk.specs.Probe.{probe_of};
ghost use Rattle.imago_vmdk.specs.Vmdk.{extent_place, extent_rest, places_from, rest_from};
ghost use Rattle.imago_vmdk.specs.Vmdk.{storages_in, vmdk_count, vmdk_view, text_reasons};
ghost use Rattle.imago_vmdk.specs.Starts.{starts_from};
ghost use Rattle.imago_vmdk.specs.Opened.{IsStorageOpened, IsStorageRefused, IsExtentOpened};
ghost use Rattle.imago_vmdk.specs.Opened.{IsExtentRefused, AreOpened, AreRefused};
ghost use Rattle.imago_vmdk.specs.VmdkCalls.{vmdk_calls};
ghost use Rattle.imago_vmdk.specs.VmdkLaws.{vmdk_lawful, vmdk_causes};

use crate::descriptor::{self, Descriptor, is_length};
use crate::line::{Accepted, Extent, SECTOR_SIZE};
pub use crate::vmdk_builder::VmdkOpenBuilder;
use imago_drivers::drivers::{
    Format, FormatDriverInstance, PreallocateMode, PreparedDataMapping, ShallowMapping, Ticket,
};
use imago_drivers::gate::ImplicitOpenGate;
use imago_drivers::layer::LowerLayer;
use imago_storage::error::Error;
use imago_storage::ext::StorageExt;
use imago_storage::storage::{Storage, StorageOpenOptions};
use std::alloc::Global;
use std::fmt::{self, Display, Formatter, Write};

/// Where an extent begins.
#[derive(Clone, Copy)]
pub(crate) struct Start {
    /// On the disk, in bytes.
    offset: u64,
    /// The index of its storage, if it stands in one: that of the next extent that does, else.
    storage: usize,
}

/// A disk of extents, one after the other, that a text descriptor describes. It can't be written
/// to.
///
/// The descriptor is the storage of index 0, and those of the FLAT extents follow in order. Until
/// they are opened the disk has its size, and no place.
#[derive(Drop)]
pub struct Vmdk<S: Storage> {
    descriptor: S,
    size: u64,
    extents: Vec<Extent<String>>,
    starts: Vec<Start>,
    /// Whether the extents are opened.
    opened: bool,
    /// The storages of the FLAT extents, once they are opened.
    storages: Vec<S>,
    /// Whether these are opened as direct.
    direct: bool,
    /// What the descriptor was allowed to contain.
    accepted: Accepted,
    ghost read: { IsTrue (S.features descriptor).tells_bytes
        → reading_of accepted (S.bytes descriptor)
        ≡ Ok (map (extent_with string_bytes) extents.items, size) },
    ghost sized: { size ≡ sum_by extent_size extents.items },
    ghost fits: { size < 2 ^ 64 },
    ghost started: { starts.items ≡ starts_from 0 1 extents.items },
    ghost installed: { 1 + length storages.items ≡ vmdk_count opened extents.items },
}

/// The descriptor's text, if it may be one by its length.
fn descriptor_text<S: Storage>(alloc: Global, storage: &S) -> Result<Option<Vec<u8>>, Error>
    ensures text { IfOk result
        (λ r. MatchOption r (may_be_long (length (S.bytes storage.now)) ≡ false)
        (λ v. (may_be_long (length (S.bytes storage.now)) ≡ true)
        × IsTextOf (S.features storage.now).tells_bytes (S.bytes storage.now) v.items)) }
    ensures only { IfErr result IsExtRefusal }
    ensures device { IsErrOf result Error.Device → (S.features storage.now).is_reliable ≡ false }
    ensures wraps { IsErrOf result Error.WrapAround
        → (may_be_long (length (S.bytes storage.now)) ≡ true)
        × Wraps (S.features storage.now) 0 (length (S.bytes storage.now)) }
    ensures memory { IsErrOf result Error.Memory
        → (may_be_long (length (S.bytes storage.now)) ≡ true)
        ⊎ MayRunOut (S.features storage.now).other_memory 0 0 }
{
    let size = storage.size()?;
    if !is_length(size) {
        return Ok(None);
    }
    let mut text = vec![in alloc; 0u8; size as usize]?;
    storage.read(alloc, &mut text, 0)?;
    Ok(Some(text))
}

/// Where each extent begins. Refused, it is [`Error::Memory`].
fn starts_of(alloc: Global, extents: &[Extent<String>]) -> Result<Vec<Start>, Error>
    requires { sum_by extent_size extents.now < 2 ^ 64 }
    ensures starts { IfOk result (λ v. v.items ≡ starts_from 0 1 extents.now) }
    ensures memory { IfErr result (λ e. e ≡ Error.Memory) }
{
    let mut starts = Vec::new(alloc);
    let mut offset = 0;
    let mut storage = 1;
    for extent in extents {
        starts.push(Start { offset, storage })?;
        offset += extent.sectors() * SECTOR_SIZE;
        if let Extent::Flat { .. } = extent {
            storage += 1;
        }
    }
    Ok(starts)
}

/// The index of the last extent that begins at the offset or before it.
fn find(starts: &[Start], offset: u64) -> usize
    requires some { 0 < length starts.now }
    requires first { (d : _) → (slice_index_or starts.now 0 d).offset ≤ offset }
    ensures inside { result < length starts.now }
    ensures begins { (d : _) → (slice_index_or starts.now result d).offset ≤ offset }
    ensures last { (d : _) → result + 1 < length starts.now
        → offset < (slice_index_or starts.now (result + 1) d).offset }
{
    let mut low = 0;
    let mut high = starts.len();
    while 1 < high - low {
        let middle = low + (high - low) / 2;
        if starts[middle].offset <= offset {
            low = middle;
        } else {
            high = middle;
        }
    }
    low
}

/// The mapping of bytes of a FLAT extent from the `at`-th one on, of which `rest` are left. The
/// extent begins at that offset of its storage, in sectors. [`Error::InvalidData`] is a byte that
/// no mapping can end behind.
fn flat_mapping(
    storage: usize,
    offset: u64,
    at: u64,
    rest: u64,
    writable: bool,
) -> Result<(ShallowMapping, u64), Error>
    requires { 0 < rest }
    ensures mapping { IfOk result
        (λ r. r.0 ≡ ShallowMapping.Raw storage (offset * 512 + at) writable) }
    ensures rest { IfOk result (λ r. (r.1 ≡ min rest (2 ^ 64 - 1 - (offset * 512 + at)))
        × (0 < r.1)) }
    ensures refused { IfErr result (λ e. (e ≡ Error.InvalidData)
        × (2 ^ 64 - 1 ≤ offset * 512 + at)) }
{
    let Some(start) = offset.checked_mul(SECTOR_SIZE) else {
        return Err(Error::InvalidData);
    };
    let Some(start) = start.checked_add(at) else {
        return Err(Error::InvalidData);
    };
    if start == u64::MAX {
        return Err(Error::InvalidData);
    }
    let mapping = ShallowMapping::Raw {
        storage,
        offset: start,
        writable,
    };
    Ok((mapping, rest.min(u64::MAX - start)))
}

/// The mapping of the bytes of an extent from the `at`-th one on, whose storage has that index.
fn extent_mapping(
    extent: &Extent<String>,
    storage: usize,
    at: u64,
) -> Result<(ShallowMapping, u64), Error>
    requires inside { at < extent_size extent.now }
    requires fits { extent_size extent.now < 2 ^ 64 }
    ensures names { (bytes : ℕ → List ℕ)
        → IfOk result (λ r. (i : ℕ) → i < r.1
        → Names r.0 i (extent_place bytes storage extent.now (at + i))) }
    ensures rest { IfOk result (λ r. (r.1 ≡ extent_rest extent.now at) × (0 < r.1)) }
    ensures refused { (bytes : ℕ → List ℕ)
        → IfErr result (λ e. extent_place bytes storage extent.now at ≡ Refused e) }
{
    match extent {
        Extent::Zero { sectors } => {
            let rest = *sectors * SECTOR_SIZE - at;
            Ok((ShallowMapping::Zero { explicit: true }, rest))
        }
        Extent::NoAccess { .. } => Err(Error::NoAccess),
        Extent::Flat {
            sectors,
            offset,
            writable,
            ..
        } => flat_mapping(storage, *offset, at, *sectors * SECTOR_SIZE - at, *writable),
    }
}

/// The mapping of the bytes of a disk of these extents from the offset on.
fn disk_mapping(
    extents: &[Extent<String>],
    starts: &[Start],
    offset: u64,
) -> Result<(ShallowMapping, u64), Error>
    requires started { starts.now ≡ starts_from 0 1 extents.now }
    requires paired { length starts.now ≡ length extents.now }
    requires inside { offset < sum_by extent_size extents.now }
    requires fits { sum_by extent_size extents.now < 2 ^ 64 }
    ensures names { (bytes : ℕ → List ℕ)
        → IfOk result (λ r. (i : ℕ) → i < r.1
        → Names r.0 i (places_from bytes 1 extents.now (offset + i))) }
    ensures rest { IfOk result (λ r. (r.1 ≡ rest_from extents.now offset) × (0 < r.1)) }
    ensures refused { (bytes : ℕ → List ℕ)
        → IfErr result (λ e. places_from bytes 1 extents.now offset ≡ Refused e) }
{
    let index = find(starts, offset);
    let start = starts[index];
    extent_mapping(&extents[index], start.storage, offset - start.offset)
}

/// Opens the storage of an extent, whose name the descriptor's storage resolves.
fn open_storage<S: Storage, G: ImplicitOpenGate<S>>(
    alloc: Global,
    descriptor: &S,
    name: &str,
    direct: bool,
    gate: &mut G,
) -> Result<S, Error>
    ensures opened { IfOk result (λ s. IsStorageOpened G.opened (S.openings.resolved descriptor.now)
        direct name.now gate.old gate.new (s ∷ [])) }
    ensures refused { IfErr result
        (IsStorageRefused G.opened (S.openings.resolved descriptor.now) direct
        (S.features descriptor.now) name.now gate.old gate.new) }
{
    let name = descriptor.resolve_relative_path(alloc, name)?;
    let opts = StorageOpenOptions::new().filename(name).direct(direct);
    gate.open_storage(alloc, opts)
}

/// Puts a storage behind the others. Refused, it is [`Error::Memory`].
fn push_storage<S: Storage>(storages: &mut Vec<S>, last: S) -> Result<(), Error>
    ensures items { OnOk result (storages.new.items ≡ storages.old.items ++ last ∷ []) }
    ensures memory { IfErr result (λ e. e ≡ Error.Memory) }
{
    storages.push(last)?;
    Ok(())
}

/// Opens an extent, and puts its storage behind the others if it stands in one.
fn open_extent<S: Storage, G: ImplicitOpenGate<S>>(
    alloc: Global,
    descriptor: &S,
    extent: &Extent<String>,
    direct: bool,
    gate: &mut G,
    storages: &mut Vec<S>,
) -> Result<(), Error>
    ensures opened { OnOk result ((own : List S)
        × IsExtentOpened G.opened (λ n. S.openings.resolved descriptor.now (string_bytes n)) direct
        extent.now gate.old gate.new own
        × (storages.new.items ≡ storages.old.items ++ own)) }
    ensures refused { IfErr result
        (IsExtentRefused G.opened (λ n. S.openings.resolved descriptor.now (string_bytes n)) direct
        (S.features descriptor.now) extent.now gate.old gate.new) }
{
    let Extent::Flat { name, offset, .. } = extent else {
        return Ok(());
    };
    if offset.checked_mul(SECTOR_SIZE).is_none() {
        return Err(Error::InvalidData);
    }
    let storage = open_storage(alloc, descriptor, name, direct, gate)?;
    push_storage(storages, storage)?;
    Ok(())
}

/// Opens the storages of extents, in order.
fn open_extents<S: Storage, G: ImplicitOpenGate<S>>(
    alloc: Global,
    descriptor: &S,
    extents: &[Extent<String>],
    direct: bool,
    gate: &mut G,
) -> Result<Vec<S>, Error>
    ensures opened { IfOk result
        (λ v. AreOpened G.opened (λ n. S.openings.resolved descriptor.now (string_bytes n)) direct
        extents.now gate.old gate.new v.items) }
    ensures refused { IfErr result
        (AreRefused G.opened (λ n. S.openings.resolved descriptor.now (string_bytes n)) direct
        (S.features descriptor.now) extents.now gate.old gate.new) }
{
    let mut storages = Vec::new(alloc);
    for extent in extents {
        open_extent(alloc, descriptor, extent, direct, gate, &mut storages)?;
    }
    Ok(storages)
}

impl<S: Storage> Vmdk<S> {
    ghost use Rattle.imago_vmdk.specs.Image.{descriptor_in, extents_in, is_opened};
    ghost use Rattle.imago_vmdk.specs.Image.{storages_of_extents, opens_direct, accepted_in};
    ghost use Rattle.imago_vmdk.specs.VmdkBuilder.{IsVmdkImage};

    /// Opens the image whose descriptor the storage has. The extents aren't opened yet: until then
    /// the disk has its size, and no place.
    ///
    /// [`Error::Unsupported`] is an image that is to be written, before anything else. What the
    /// descriptor is refused for is told by [`descriptor::read`], with [`Accepted::NOTHING`].
    /// [`Error::Device`], [`Error::Memory`] and [`Error::WrapAround`] are passed on from
    /// the storage. [`Error::Memory`] is also no room for the text, or, where the text has no
    /// fault, for its extents.
    pub fn open_image(alloc: Global, storage: S, writable: bool) -> Result<Self, Error>
        ensures read_only { writable ≡ true → result ≡ Err Error.Unsupported }
        ensures opened { IfOk result
            (λ v. (descriptor_in v ≡ «storage») × (is_opened v ≡ false) × (opens_direct v ≡ false)
            × (accepted_in v ≡ nothing_accepted) ×
            IsReadingOf nothing_accepted (S.features storage).tells_bytes (S.bytes storage)
            (Ok (extents_in v, sum_by extent_size (extents_in v)))) }
        ensures refused { writable ≡ false
            → IfErr result
            (λ e. IsReadingOf nothing_accepted (S.features storage).tells_bytes (S.bytes storage)
            (Err e)
            ⊎ allowed (text_reasons (S.features storage) (length (S.bytes storage))) e) }
        ensures device { IsErrOf result Error.Device → (S.features storage).is_reliable ≡ false }
    {
        if writable {
            return Err(Error::Unsupported);
        }
        Vmdk::open_read_only(alloc, storage, false, Accepted::NOTHING)
    }

    /// Opens the extents: each by the gate, in order, under its name as the descriptor's storage
    /// resolves it, and read-only. Where they are opened already, it does nothing.
    ///
    /// [`Error::InvalidData`] is an extent whose offset in bytes doesn't fit 64 bits, and
    /// [`Error::Memory`] refused memory. What the descriptor's storage or the gate refuses for is
    /// passed on. Refused, nothing changed, and the storages that were opened are let go.
    pub fn open_implicit_dependencies_gated<G: ImplicitOpenGate<S>>(
        &mut self,
        alloc: Global,
        gate: &mut G,
    ) -> Result<(), Error>
        ensures opened { OnOk result (is_opened self.new ≡ true) }
        ensures descriptor { descriptor_in self.new ≡ descriptor_in self.old }
        ensures extents { extents_in self.new ≡ extents_in self.old }
        ensures settings { (opens_direct self.new ≡ opens_direct self.old)
            × (accepted_in self.new ≡ accepted_in self.old) }
        ensures again { is_opened self.old ≡ true → IsOk result × (self.new ≡ self.old)
            × (gate.new ≡ gate.old) }
        ensures storages { is_opened self.old ≡ false
            → OnOk result (AreOpened G.opened (S.openings.resolved (descriptor_in self.old))
            (opens_direct self.old) (extents_in self.old) gate.old gate.new
            (storages_of_extents self.new)) }
        ensures refused { OnErr result (self.new ≡ self.old) }
        ensures refusals { IfErr result
            (AreRefused G.opened (S.openings.resolved (descriptor_in self.old))
            (opens_direct self.old) (S.features (descriptor_in self.old)) (extents_in self.old)
            gate.old gate.new) }
    {
        if self.opened {
            return Ok(());
        }
        let storages = self.opened_storages(alloc, gate)?;
        self.storages = storages;
        self.opened = true;
        Ok(())
    }

    /// Opens the storages of the extents.
    fn opened_storages<G: ImplicitOpenGate<S>>(
        &self,
        alloc: Global,
        gate: &mut G,
    ) -> Result<Vec<S>, Error>
        ensures count { IfOk result (λ v. length v.items ≡ storages_in self.now.extents.items) }
        ensures opened { IfOk result
            (λ v. AreOpened G.opened (S.openings.resolved (descriptor_in self.now))
            (opens_direct self.now) (extents_in self.now) gate.old gate.new v.items) }
        ensures refused { IfErr result
            (AreRefused G.opened (S.openings.resolved (descriptor_in self.now))
            (opens_direct self.now) (S.features (descriptor_in self.now)) (extents_in self.now)
            gate.old gate.new) }
    {
        open_extents(alloc, &self.descriptor, &self.extents, self.direct, gate)
    }

    /// Opens the image with its extents, whose storages are opened as direct or not. The
    /// descriptor may contain what is accepted.
    pub(crate) fn open_with_extents<G: ImplicitOpenGate<S>>(
        alloc: Global,
        descriptor: S,
        direct: bool,
        accepted: Accepted,
        gate: &mut G,
    ) -> Result<Self, Error>
        ensures { IsVmdkImage S.bytes S.features S.openings.resolved G.opened direct
            accepted gate.old gate.new descriptor result }
    {
        let mut image = Vmdk::open_read_only(alloc, descriptor, direct, accepted)?;
        image.open_implicit_dependencies_gated(alloc, gate)?;
        Ok(image)
    }

    /// Opens the image, whose descriptor may contain what is accepted.
    #[tactic(auto, unfolding(crate::specs::Reading::reading_of))]
    pub(crate) fn open_read_only(
        alloc: Global,
        descriptor: S,
        direct: bool,
        accepted: Accepted,
    ) -> Result<Self, Error>
        ensures opened { IfOk result
            (λ v. (descriptor_in v ≡ «descriptor») × (is_opened v ≡ false)
            × (opens_direct v ≡ direct) × (accepted_in v ≡ accepted) ×
            IsReadingOf accepted (S.features descriptor).tells_bytes
            (S.bytes descriptor) (Ok (extents_in v, sum_by extent_size (extents_in v)))) }
        ensures refused { IfErr result
            (λ e. IsReadingOf accepted (S.features descriptor).tells_bytes
            (S.bytes descriptor) (Err e)
            ⊎ allowed (text_reasons (S.features descriptor) (length (S.bytes descriptor))) e) }
        ensures device { IsErrOf result Error.Device → (S.features descriptor).is_reliable ≡ false }
    {
        let Some(text) = descriptor_text(alloc, &descriptor)? else {
            return Err(Error::InvalidData);
        };
        let Descriptor { extents, size } = descriptor::read(alloc, accepted, &text)?;
        let starts = starts_of(alloc, &extents)?;
        Ok(Vmdk {
            descriptor,
            size,
            extents,
            starts,
            opened: false,
            storages: Vec::new(alloc),
            direct,
            accepted,
        })
    }
}

impl<S: Storage> Display for Vmdk<S> {
    fn fmt<W: Write>(&self, f: &mut Formatter<W>) -> fmt::Result {
        write!(f, "vmdk[{}]", self.descriptor)
    }
}

impl<S: Storage> FormatDriverInstance for Vmdk<S> {
    type Storage = S;

    type State = Ticket;

    ghost view = { λ v. vmdk_view (S.features v.descriptor ∷ map S.features v.storages.items)
        (S.bytes v.descriptor ∷ map S.bytes v.storages.items) v.opened v.extents.items };

    ghost recognizes = { probe_of };

    ghost probe_reasons = { λ s. text_reasons (S.features s) (length (S.bytes s)) };

    ghost calls = { vmdk_calls (λ v. S.features v.descriptor ∷ map S.features v.storages.items)
        (λ v. S.bytes v.descriptor ∷ map S.bytes v.storages.items) };

    ghost lawful = { λ v. vmdk_lawful (S.features v.descriptor ∷ map S.features v.storages.items)
        (S.bytes v.descriptor ∷ map S.bytes v.storages.items) v.opened v.extents.items };

    ghost causes_lawful = { λ v. vmdk_causes
        (S.features v.descriptor ∷ map S.features v.storages.items)
        (S.bytes v.descriptor ∷ map S.bytes v.storages.items) v.opened v.extents.items };

    fn format(&self) -> Format {
        Format::Vmdk
    }

    fn size(&self) -> u64 {
        self.size
    }

    fn zero_granularity(&self) -> Option<u64> {
        None
    }

    fn writable(&self) -> bool {
        false
    }

    fn takes_backing(&self) -> bool {
        false
    }

    fn has_prepared(&self) -> bool {
        false
    }

    #[tactic(auto, unfolding(crate::specs::Probe::probe_of))]
    fn probe(alloc: Global, storage: &S) -> Result<bool, Error> {
        match descriptor_text(alloc, storage)? {
            Some(text) => Ok(descriptor::probe(&text)),
            None => Ok(false),
        }
    }

    fn collect_storage_dependencies(&self, alloc: Global) -> Result<Vec<&S>, Error> {
        let mut storages = Vec::new(alloc);
        storages.push(&self.descriptor)?;
        for storage in &self.storages {
            storages.push(storage)?;
        }
        Ok(storages)
    }

    fn storage_count(&self) -> usize {
        1 + self.storages.len()
    }

    fn storage(&self, index: usize) -> Option<&S> {
        if index == 0 {
            return Some(&self.descriptor);
        }
        self.storages.get(index - 1)
    }

    #[inline(never)]
    fn get_mapping(&self, offset: u64, _max_length: u64) -> Result<(ShallowMapping, u64), Error> {
        if !self.opened {
            return Ok((ShallowMapping::Eof, 0));
        }
        if offset >= self.size {
            return Ok((ShallowMapping::Eof, 0));
        }
        disk_mapping(&self.extents, &self.starts, offset)
    }

    fn read_mapped(
        &self,
        alloc: Global,
        storage: usize,
        buf: &mut [u8],
        offset: u64,
    ) -> Result<(), Error> {
        if storage == 0 {
            return self.descriptor.read(alloc, buf, offset);
        }
        self.storages[storage - 1].read(alloc, buf, offset)
    }

    fn readv_special(&self, _alloc: Global, buf: &mut [u8], _offset: u64) -> Result<(), Error> {
        if buf.is_empty() {
            return Ok(());
        }
        Err(Error::Unsupported)
    }

    fn write_mapped(
        &mut self,
        _alloc: Global,
        _storage: usize,
        _source: &[u8],
        _offset: u64,
    ) -> Result<(), Error>
        ensures unsupported { IsErrOf result Error.Unsupported }
        ensures untouched { self.new ≡ self.old }
    {
        Err(Error::Unsupported)
    }

    fn ensure_zero_mapping(
        &mut self,
        _alloc: Global,
        _offset: u64,
        _count: u64,
    ) -> Result<(u64, u64), Error>
        ensures unsupported { IsErrOf result Error.Unsupported }
        ensures untouched { self.new ≡ self.old }
    {
        Err(Error::Unsupported)
    }

    fn discard_to_zero(
        &mut self,
        _alloc: Global,
        _offset: u64,
        _count: u64,
    ) -> Result<(u64, u64), Error>
        ensures unsupported { IsErrOf result Error.Unsupported }
        ensures untouched { self.new ≡ self.old }
    {
        Err(Error::Unsupported)
    }

    fn discard_to_any(
        &mut self,
        _alloc: Global,
        _offset: u64,
        _count: u64,
    ) -> Result<(u64, u64), Error>
        ensures unsupported { IsErrOf result Error.Unsupported }
        ensures untouched { self.new ≡ self.old }
    {
        Err(Error::Unsupported)
    }

    fn discard_to_backing(
        &mut self,
        _alloc: Global,
        _offset: u64,
        _count: u64,
    ) -> Result<(u64, u64), Error>
        ensures unsupported { IsErrOf result Error.Unsupported }
        ensures untouched { self.new ≡ self.old }
    {
        Err(Error::Unsupported)
    }

    fn prepare_data_mapping<B: LowerLayer>(
        &mut self,
        _alloc: Global,
        _below: Option<&B>,
        _offset: u64,
        _count: u64,
        _overwrite: bool,
    ) -> Result<PreparedDataMapping<Ticket>, Error>
        ensures unsupported { IsErrOf result Error.Unsupported }
        ensures untouched { self.new ≡ self.old }
    {
        Err(Error::Unsupported)
    }

    fn write_prepared(
        &mut self,
        _alloc: Global,
        _mapping: &PreparedDataMapping<Ticket>,
        _source: &[u8],
        _at: u64,
    ) -> Result<(), Error> {
        Err(Error::ForeignMapping)
    }

    fn commit_data_mapping(&mut self, mapping: PreparedDataMapping<Ticket>) -> Result<(), Error>
        ensures call { IsCommit ⟦<Vmdk<S> as FormatDriverInstance>⟧.view self.old self.new mapping
            result }
        ensures untouched { self.new ≡ self.old }
        ensures performed { ⟦<Vmdk<S> as FormatDriverInstance>⟧.calls.committed mapping self.old
            self.new result }
    {
        match mapping.into_state() {
            None => Ok(()),
            Some(_) => Err(Error::ForeignMapping),
        }
    }

    fn cancel_data_mapping(&mut self, mapping: PreparedDataMapping<Ticket>)
        ensures call { IsCancel ⟦<Vmdk<S> as FormatDriverInstance>⟧.view self.old self.new mapping }
        ensures untouched { self.new ≡ self.old }
        ensures performed { ⟦<Vmdk<S> as FormatDriverInstance>⟧.calls.cancelled mapping self.old
            self.new }
    {
        let _ = mapping.into_state();
    }

    fn ensure_data_mapping<B: LowerLayer>(
        &mut self,
        _alloc: Global,
        _below: Option<&B>,
        _offset: u64,
        _count: u64,
        _overwrite: bool,
    ) -> Result<(usize, u64, u64), Error>
        ensures unsupported { IsErrOf result Error.Unsupported }
        ensures untouched { self.new ≡ self.old }
    {
        Err(Error::Unsupported)
    }

    fn resize_grow<B: LowerLayer>(
        &mut self,
        _alloc: Global,
        _below: Option<&B>,
        _new_size: u64,
        _mode: PreallocateMode,
    ) -> Result<(), Error>
        ensures unsupported { IsErrOf result Error.Unsupported }
        ensures untouched { self.new ≡ self.old }
    {
        Err(Error::Unsupported)
    }

    fn resize_shrink(&mut self, _new_size: u64) -> Result<(), Error>
        ensures unsupported { IsErrOf result Error.Unsupported }
        ensures untouched { self.new ≡ self.old }
    {
        Err(Error::Unsupported)
    }

    fn flush(&mut self) -> Result<(), Error> {
        Ok(())
    }

    fn sync(&mut self) -> Result<(), Error> {
        Ok(())
    }

    fn invalidate_cache(&mut self) -> Result<(), Error> {
        Ok(())
    }
}
