// SPDX-License-Identifier: MIT
//! An image that is opened by asking for bytes.
ghost use Rattle.std.specs.Prelude.{◌≡◌, ◌+◌, ◌^◌, ◌≤◌, ◌<◌, ◌⊎◌, ℕ, List, [], length, Some, None};
ghost use Rattle.std.specs.Prelude.{IfOk, OnOk, IsOk, IfErr, OnErr, Err, IfSome, IsSome};
ghost use Rattle.std.specs.Prelude.{MatchOption, map};
ghost use Rattle.std.specs.Prelude.{slice_index_or};
ghost use Rattle.std.specs.String.{string_bytes};
ghost use Rattle.imago_session.specs.declared.permitted.Permitted.{Permitted};
ghost use Rattle.imago_qcow2.specs.Backing.{IsBackingName};
ghost use Rattle.imago_qcow2.specs.Disk.{HaveSameTables, AreSameBytes};
ghost use Rattle.imago_qcow2.specs.Entry.{cluster_length};
ghost use Rattle.imago_qcow2.specs.Qcow2Image.{storage_in};
ghost use Rattle.imago_access.specs.Target.{target};
ghost use Rattle.imago_plan.specs.Pieces.{IsNoPiece};
ghost use Rattle.imago_session.specs.Loaded.{loaded_bytes};
ghost use Rattle.imago_session.specs.Files.{File, IsLayerOf, GoesDown, IsLowest, AreAbove};
ghost use Rattle.imago_session.specs.Files.{AreLayersOf, backing_name, described_size};
ghost use Rattle.imago_session.specs.Files.{HasBacking, HasNoBacking, extent_names, names_in};
ghost use Rattle.imago_session.specs.Files.{layers_in};
ghost use Rattle.imago_session.specs.Limits.{usual};
ghost use Rattle.imago_session.specs.Found.{IsFoundOf};
ghost use Rattle.imago_session.specs.Opening.{IsStateOf, IsOf, IsOpenWith, wanted, wanted_in};
ghost use Rattle.imago_session.specs.Opening.{IsAnswer, IsFileAnswer, IsNameWanted};
ghost use Rattle.imago_session.specs.Mapping.{IsMappedAt, ShowsMapped};
ghost use Rattle.imago_session.specs.Opening.{IsBehind, IsStateWith, IsBroughtOn, AsksOnce};
ghost use Rattle.imago_session.specs.Opening.{IsAtFirst, IsAtNext, IsLedOn, IfOpen, AsksFile};
ghost use Rattle.imago_session.specs.Opening.{AsksNoBytes, AsksOtherCount, AsksCount, AsksNoFile};
ghost use Rattle.imago_session.specs.Refusals.{HasFaultyFormat, IsCause, IsLayerRefusal};
ghost use Rattle.imago_session.specs.Refusals.{IsRefusalOf};
ghost use Rattle.imago_session.specs.declared.session.Want.{Want};
ghost use Rattle.imago_session.specs.declared.session.State.{State};

use crate::compressed::{Compressed, compressed_at};
use crate::extents::{Extents, following};
use crate::laws::{pieces_of_files, size_of_files};
pub use crate::layer::Layer;
use crate::layer::{Found, begin, resume};
use crate::loaded::LoadedFile;
use crate::loading::Loading;
use crate::permitted::Permitted;
use imago_access::access::FormatAccess;
use imago_any_driver::any::AnyDriver;
use imago_drivers::drivers::{Format, FormatDriverInstance};
use imago_plan::piece::Piece;
use imago_plan::plan::next_piece;
use imago_qcow2::laws::image_of_bytes;
use imago_qcow2::qcow2::Qcow2;
use imago_storage::error::Error;
use imago_vmdk::line::Accepted;
use std::alloc::Global;
use std::mem;

/// The most layers that an image has.
pub const MOST_LAYERS: usize = 200;

/// What a file says of the file below it.
#[derive(Drop)]
struct Named {
    name: Vec<u8>,
    /// The name of its format, if it is told.
    format: Option<Vec<u8>>,
}

/// How far the opening is.
#[derive(Drop)]
enum State {
    /// A block of a file is asked for.
    Loading(Loading),
    /// The file below the last one is asked for.
    Below(Named),
    /// The file of an extent is asked for.
    Extents(Extents),
    /// The image is open.
    Open(FormatAccess<Layer>),
    /// It was refused.
    Refused,
}

/// What is asked for. Files are numbered in the order in which they are asked for: the top one is
/// 0. Offsets and counts are in bytes.
#[derive(Clone, Copy, Debug, PartialEq, Eq)]
pub enum Want {
    /// Nothing: the image is open.
    Nothing,
    /// So many bytes of the file of that number, from that offset on. All are inside the file.
    Bytes(usize, u64, u64),
    /// The backing file of the last one, which has that number from then on.
    Backing(usize),
    /// The file of an extent, which has that number from then on.
    Extent(usize),
    /// Nothing: the opening was refused.
    Refused,
}

/// An image that is being opened, or is open. It has no file: it asks for bytes, and is given them.
#[derive(Drop)]
pub struct Session {
    alloc: Global,
    /// What its files may contain.
    permitted: Permitted,
    /// The layers that are above the file which is loaded, the top one first.
    above: Vec<Layer>,
    state: State,
}

/// The layers over the lowest one. Refused, it is [`Error::Memory`].
fn chain(alloc: Global, above: &mut Vec<Layer>, lowest: Layer) -> Result<FormatAccess<Layer>, Error>
    ensures layers { let k = length above.old.items in
        IfOk result (λ x. (permitted : Permitted) (files : ℕ → File)
        → AreAbove permitted files above.old.items → IsLayerOf permitted lowest (files k)
        → IsLowest lowest (files k).bytes → AreLayersOf permitted files x) }
    ensures names { let k = length above.old.items in
        IfOk result (λ x. (files : ℕ → File)
        → names_in files x ≡ extent_names lowest (files k).bytes) }
    ensures count { IfOk result (λ x. layers_in x ≡ length above.old.items + 1) }
    ensures all { OnOk result (above.new.items ≡ []) }
    ensures memory { IfErr result (λ e. e ≡ Error.Memory) }
{
    let mut image = FormatAccess::new(lowest);
    while let Some(driver) = above.pop() {
        let below = Box::new(alloc, image)?;
        image = FormatAccess::with_backing(driver, below);
    }
    Ok(image)
}

/// The name that a qcow2 image has for the file below it. It is read of what is in memory, so it is
/// refused for memory alone: [`Error::Memory`].
fn name_below(alloc: Global, qcow2: &Qcow2<LoadedFile>) -> Result<Option<Vec<u8>>, Error>
    ensures name { IfOk result (IsBackingName (loaded_bytes (storage_in qcow2.now))) }
    ensures memory { IfErr result (λ e. e ≡ Error.Memory) }
{
    match qcow2.backing_file(alloc) {
        Ok(name) => Ok(name),
        Err(_) => Err(Error::Memory),
    }
}

/// What a qcow2 image says of the file below it, if it names one. A name without bytes is none.
///
/// [`Error::InvalidData`] is a file below whose format's name passes where header extensions end.
fn below_qcow2(alloc: Global, qcow2: &Qcow2<LoadedFile>) -> Result<Option<Named>, Error>
    ensures named { let own = loaded_bytes (storage_in qcow2.now) in
        IfOk result (λ b. (bytes : List ℕ) → HaveSameTables bytes own
        → AreSameBytes bytes own 0 (cluster_length bytes)
        → MatchOption b (HasNoBacking bytes)
        (λ named. HasBacking bytes × (named.name.items ≡ backing_name bytes))) }
    ensures refused { let own = loaded_bytes (storage_in qcow2.now) in
        IfErr result (λ e. (bytes : List ℕ) → HaveSameTables bytes own
        → AreSameBytes bytes own 0 (cluster_length bytes)
        → (e ≡ Error.Memory) ⊎ HasFaultyFormat bytes e) }
{
    image_of_bytes(qcow2);
    let Some(name) = name_below(alloc, qcow2)? else {
        return Ok(None);
    };
    if name.is_empty() {
        return Ok(None);
    }
    let format = qcow2.backing_format(alloc)?;
    Ok(Some(Named { name, format }))
}

/// What a layer says of the file below it, if there is one.
fn below_of(alloc: Global, layer: &Layer) -> Result<Option<Named>, Error>
    ensures named { IfOk result (λ b. (permitted : Permitted) (f : File)
        → IsLayerOf permitted layer.now f
        → MatchOption b (IsLowest layer.now f.bytes)
        (λ named. GoesDown layer.now f.bytes × (named.name.items ≡ backing_name f.bytes))) }
    ensures refused { IfErr result (λ e. (permitted : Permitted) (f : File)
        → IsLayerOf permitted layer.now f → IsCause permitted f e) }
{
    match layer {
        AnyDriver::Qcow2(qcow2) => below_qcow2(alloc, qcow2),
        AnyDriver::Raw(_) | AnyDriver::Vmdk(_) | AnyDriver::Cow(_) => Ok(None),
    }
}

/// How far the opening is with an image of all layers, and these names of the files of extents,
/// whose first one has that number.
fn with_extents(image: FormatAccess<Layer>, names: Vec<String>, first: usize) -> State
    requires { first ≤ 200 }
    ensures agrees { (permitted : Permitted) (files : ℕ → File) (k : ℕ)
        → AreLayersOf permitted files image → map string_bytes names.items ≡ names_in files image
        → first ≡ layers_in image → IsStateOf permitted files k result }
    ensures behind { IsBehind result }
    ensures first { (files : ℕ → File) → map string_bytes names.items ≡ names_in files image
        → IsAtFirst files result }
{
    if names.is_empty() {
        return State::Open(image);
    }
    State::Extents(Extents {
        image,
        names,
        first,
        next: 0,
    })
}

/// How far the opening is with one more layer. [`Error::Unsupported`] is one too many.
fn with_layer(
    alloc: Global,
    above: &mut Vec<Layer>,
    layer: Layer,
    names: Vec<String>,
) -> Result<State, Error>
    ensures agrees { let k = length above.old.items in
        IfOk result (λ s. (permitted : Permitted) (files : ℕ → File)
        → AreAbove permitted files above.old.items → IsLayerOf permitted layer (files k)
        → map string_bytes names.items ≡ extent_names layer (files k).bytes
        → AreAbove permitted files above.new.items
        × IsStateOf permitted files (length above.new.items) s) }
    ensures behind { IfOk result IsBehind }
    ensures first { let k = length above.old.items in IfOk result (λ s. (files : ℕ → File)
        → map string_bytes names.items ≡ extent_names layer (files k).bytes
        → IsAtFirst files s) }
    ensures refused { let k = length above.old.items in
        IfErr result (λ e. (permitted : Permitted) (f : File) → IsLayerOf permitted layer f
        → IsLayerRefusal permitted k f e) }
{
    let number = above.len();
    if number >= MOST_LAYERS {
        return Err(Error::Unsupported);
    }
    match below_of(alloc, &layer)? {
        None => {
            let image = chain(alloc, above, layer)?;
            Ok(with_extents(image, names, number + 1))
        }
        Some(named) => {
            above.push(layer)?;
            Ok(State::Below(named))
        }
    }
}

/// How far the opening is with what was made of a file.
fn with_found(alloc: Global, above: &mut Vec<Layer>, found: Found) -> Result<State, Error>
    ensures agrees { let k = length above.old.items in
        IfOk result (λ s. (permitted : Permitted) (files : ℕ → File)
        → AreAbove permitted files above.old.items → IsFoundOf permitted (files k) found
        → AreAbove permitted files above.new.items
        × IsStateOf permitted files (length above.new.items) s) }
    ensures state { IfOk result (IsStateWith found) }
    ensures first { let k = length above.old.items in
        IfOk result (λ s. (permitted : Permitted) (files : ℕ → File)
        → IsFoundOf permitted (files k) found → IsAtFirst files s) }
    ensures refused { let k = length above.old.items in
        IfErr result (λ e. (permitted : Permitted) (f : File) → IsFoundOf permitted f found
        → IsLayerRefusal permitted k f e) }
{
    match found {
        Found::Loading(loading) => Ok(State::Loading(loading)),
        Found::Layer(layer, names) => with_layer(alloc, above, layer, names),
    }
}

/// How far the opening is once the file of an extent is there.
fn after_extent(extents: Extents) -> State
    ensures agrees { (permitted : Permitted) (files : ℕ → File) (k : ℕ)
        → IsStateOf permitted files k (State.Extents extents) → IsStateOf permitted files k result }
    ensures next { IsAtNext extents result }
{
    let Extents {
        image,
        names,
        first,
        next,
    } = extents;
    let Some(next) = following(first, next, names.len()) else {
        return State::Open(image);
    };
    State::Extents(Extents {
        image,
        names,
        first,
        next,
    })
}

/// Where bytes of an image's disk are.
#[derive(Clone, Copy, Debug, PartialEq, Eq)]
pub enum Mapped {
    /// They stand in one place, or are zeroes.
    Plain(Piece),
    /// They are a part of a compressed cluster.
    Compressed(Compressed),
}

/// Where the bytes of the disk are from an offset on: at most that many, at least one.
fn mapped_at(image: &FormatAccess<Layer>, at: u64, most: u64) -> Result<Mapped, Error>
    requires { 0 < most }
    ensures at { let view = ⟦<Layer as FormatDriverInstance>⟧.view in
        IfOk result (IsMappedAt (target view image.now) «at» most) }
    ensures shows { IfOk result (λ m. (permitted : Permitted) (files : ℕ → File)
        → AreLayersOf permitted files image.now → ShowsMapped files «at» m image.now) }
    ensures refused { let view = ⟦<Layer as FormatDriverInstance>⟧.view in
        IfErr result (IsNoPiece view image.now «at» most) }
{
    pieces_of_files(image);
    match next_piece(image, at, most) {
        Ok(piece) => Ok(Mapped::Plain(piece)),
        Err(Error::Unsupported) => match compressed_at(image, at, most) {
            Some(part) => Ok(Mapped::Compressed(part)),
            None => Err(Error::Unsupported),
        },
        Err(refusal) => Err(refusal),
    }
}

impl Session {
    /// Begins with the top file, as [`within`](Self::within) does where so much is accepted of a
    /// descriptor, and tables have at most 256 MiB ([`Permitted::usual`]).
    pub fn new(
        alloc: Global,
        accepted: Accepted,
        count: u64,
        format: Option<Format>,
    ) -> Result<Session, Error>
        ensures agrees { IfOk result (λ s. (files : ℕ → File) → length (files 0).bytes ≡ count
            → (files 0).format ≡ format → IsOf files s × IsAtFirst files s.state) }
        ensures permitted { IfOk result (λ s. s.permitted ≡ usual accepted) }
        ensures refused { IfErr result (λ e. (f : File) → length f.bytes ≡ count
            → f.format ≡ format → IsCause (usual accepted) f e) }
    {
        Session::within(alloc, Permitted::usual(accepted), count, format)
    }

    /// Begins with the top file, which has that many bytes. It is opened in that format, or, if
    /// none is said, in the one that its bytes are recognised as: that of a qcow2 image, of a VMDK
    /// descriptor that begins with `# Disk DescriptorFile`, or of a raw disk where they are
    /// recognised as nothing. Descriptors may contain what is permitted, and qcow2 files have
    /// tables of as many bytes. What it is refused for is told by [`give`](Self::give).
    pub fn within(
        alloc: Global,
        permitted: Permitted,
        count: u64,
        format: Option<Format>,
    ) -> Result<Session, Error>
        ensures agrees { IfOk result (λ s. (files : ℕ → File) → length (files 0).bytes ≡ count
            → (files 0).format ≡ format → IsOf files s × IsAtFirst files s.state) }
        ensures permitted { IfOk result (λ s. s.permitted ≡ «permitted») }
        ensures refused { IfErr result (λ e. (f : File) → length f.bytes ≡ count
            → f.format ≡ format → IsCause permitted f e) }
    {
        let mut above = Vec::new(alloc);
        let found = begin(alloc, permitted, count, format)?;
        let state = with_found(alloc, &mut above, found)?;
        Ok(Session {
            alloc,
            permitted,
            above,
            state,
        })
    }

    /// What is asked for.
    pub fn want(&self) -> Want
        ensures wanted { result ≡ wanted self.now }
        ensures once { AsksOnce self.now.state }
    {
        let number = self.above.len();
        match &self.state {
            State::Loading(loading) => {
                let (from, count) = loading.block();
                Want::Bytes(number, from, count)
            }
            State::Below(_) => Want::Backing(number),
            State::Extents(extents) => Want::Extent(extents.number()),
            State::Open(_) => Want::Nothing,
            State::Refused => Want::Refused,
        }
    }

    /// Gives the bytes that are asked for.
    ///
    /// [`Error::Unsupported`] is where no bytes are asked for, and [`Error::InvalidData`] a count
    /// that isn't the one asked for. Nothing changed then. Any other refusal is the end of the
    /// opening, unless it is [`Error::Memory`] for the bytes themselves: then nothing changed, and
    /// they are asked for still.
    ///
    /// That is one of these. [`Error::InvalidData`] and [`Error::Unsupported`] are what the file
    /// has for a fault in its format, by its driver: of its header or of its descriptor. With
    /// [`Error::InvalidData`], an extent may also begin at an offset that doesn't fit 64 bits, or
    /// the name of the format of the file below pass the first cluster. [`Error::Unsupported`] is
    /// also a file of which no format is said, and that is recognised as what isn't opened; a qcow2
    /// file whose L1 table has more than 32 MiB, or whose tables have more bytes than is permitted,
    /// of which no L2 table is asked for; and the layer behind [`MOST_LAYERS`]. [`Error::Memory`]
    /// is no memory.
    pub fn give(&mut self, bytes: &[u8]) -> Result<(), Error>
        ensures agrees { OnOk result ((files : ℕ → File)
            → IsAnswer files (wanted self.old) bytes.now → IsOf files self.old
            → IsOf files self.new × IsLedOn files self.old.state self.new.state) }
        ensures further { OnOk result (IsBroughtOn self.old.state self.new.state) }
        ensures unasked { AsksNoBytes (wanted self.old)
            → (result ≡ Err Error.Unsupported) × (self.new ≡ self.old) }
        ensures miscounted { AsksOtherCount (wanted self.old) (length bytes.now)
            → (result ≡ Err Error.InvalidData) × (self.new ≡ self.old) }
        ensures refused { AsksCount (wanted self.old) (length bytes.now) → IfErr result
            (λ e. (self.new.state ≡ State.Refused) ⊎ ((e ≡ Error.Memory) × (self.new ≡ self.old))) }
        ensures cause { IfErr result (λ e. (files : ℕ → File)
            → IsAnswer files (wanted self.old) bytes.now → IsOf files self.old
            → IsRefusalOf files self.old e) }
    {
        let Want::Bytes(_, _, count) = self.want() else {
            return Err(Error::Unsupported);
        };
        if bytes.len() as u64 != count {
            return Err(Error::InvalidData);
        }
        self.take_block(bytes)
    }

    /// Takes the bytes that are asked for.
    fn take_block(&mut self, bytes: &[u8]) -> Result<(), Error>
        ensures agrees { OnOk result ((files : ℕ → File)
            → IsAnswer files (wanted self.old) bytes.now → IsOf files self.old
            → IsOf files self.new × IsLedOn files self.old.state self.new.state) }
        ensures further { OnOk result (IsBroughtOn self.old.state self.new.state) }
        ensures refused { IfErr result (λ e. (self.new.state ≡ State.Refused)
            ⊎ ((e ≡ Error.Memory) × (self.new ≡ self.old))) }
        ensures cause { IfErr result (λ e. (files : ℕ → File)
            → IsAnswer files (wanted self.old) bytes.now → IsOf files self.old
            → IsRefusalOf files self.old e) }
    {
        let block = Vec::from_slice(self.alloc, bytes)?;
        let State::Loading(loading) = mem::replace(&mut self.state, State::Refused) else {
            return Err(Error::Unsupported);
        };
        let found = resume(self.alloc, self.permitted, loading, block)?;
        self.state = with_found(self.alloc, &mut self.above, found)?;
        Ok(())
    }

    /// Gives the file that is asked for, which has that many bytes. It is opened in that format,
    /// or, if none is said, in the one that its bytes are recognised as. The file of an extent
    /// needs neither.
    ///
    /// [`Error::Unsupported`] is where no file is asked for. Nothing changed then. Any other
    /// refusal is the end of the opening, and is told by [`give`](Self::give). The file of an extent
    /// isn't refused.
    pub fn give_file(&mut self, count: u64, format: Option<Format>) -> Result<(), Error>
        ensures agrees { OnOk result ((files : ℕ → File)
            → IsFileAnswer files (wanted self.old) count format → IsOf files self.old
            → IsOf files self.new × IsLedOn files self.old.state self.new.state) }
        ensures unasked { AsksNoFile (wanted self.old)
            → (result ≡ Err Error.Unsupported) × (self.new ≡ self.old) }
        ensures extent { (k : ℕ) → wanted self.old ≡ Want.Extent k → IsOk result }
        ensures refused { (k : ℕ) → wanted self.old ≡ Want.Backing k
            → OnErr result (self.new.state ≡ State.Refused) }
        ensures cause { IfErr result (λ e. (files : ℕ → File)
            → IsFileAnswer files (wanted self.old) count format → IsOf files self.old
            → IsRefusalOf files self.old e) }
    {
        match mem::replace(&mut self.state, State::Refused) {
            State::Below(_) => {
                let found = begin(self.alloc, self.permitted, count, format)?;
                self.state = with_found(self.alloc, &mut self.above, found)?;
                Ok(())
            }
            State::Extents(extents) => {
                self.state = after_extent(extents);
                Ok(())
            }
            other => {
                self.state = other;
                Err(Error::Unsupported)
            }
        }
    }

    /// The name of the file that is asked for, as the image has it, if one is.
    pub fn name(&self) -> Option<&[u8]>
        ensures name { IfSome result (λ name. (files : ℕ → File) → IsOf files self.now
            → IsNameWanted files self.now name.now) }
        ensures some { AsksFile (wanted self.now) → IsSome result }
    {
        match &self.state {
            State::Below(named) => Some(&named.name),
            State::Extents(extents) => extents.name(),
            State::Loading(_) | State::Open(_) | State::Refused => None,
        }
    }

    /// The name of the format that the file is said to have which is asked for, if one is.
    pub fn format_name(&self) -> Option<&[u8]> {
        match &self.state {
            State::Below(
                Named {
                    format: Some(format),
                    ..
                },
            ) => Some(format),
            _ => None,
        }
    }

    /// The size of the disk in bytes, if the image is open.
    pub fn size(&self) -> Option<u64>
        ensures size { IfSome result (λ n. IsOpenWith self.now.state (λ x. (files : ℕ → File)
            → IsOf files self.now → n ≡ described_size files x)) }
        ensures some { IfOpen self.now.state (λ x. IsSome result) }
    {
        match &self.state {
            State::Open(image) => {
                size_of_files(image);
                Some(image.size())
            }
            _ => None,
        }
    }

    /// Where the bytes of the disk are from that offset on: at most that many, at least one.
    ///
    /// [`Error::NotFound`] is an image that isn't open. [`Error::Unsupported`] is the disk's end,
    /// and a cluster that is compressed otherwise than by deflate. What a driver refuses is passed
    /// on: [`Error::NoAccess`] is a part of a VMDK image that may not be read, and
    /// [`Error::InvalidData`] one whose entry is invalid.
    pub fn map(&self, at: u64, most: u64) -> Result<Mapped, Error>
        requires { 0 < most }
        ensures mapped { let view = ⟦<Layer as FormatDriverInstance>⟧.view in
            IfOk result (λ m. IsOpenWith self.now.state (λ x. IsMappedAt (target view x) «at» most m
            × ((files : ℕ → File) → IsOf files self.now → ShowsMapped files «at» m x))) }
        ensures refused { let view = ⟦<Layer as FormatDriverInstance>⟧.view in
            IfErr result (λ e. IfOpen self.now.state (λ x. IsNoPiece view x «at» most e)) }
    {
        match &self.state {
            State::Open(image) => mapped_at(image, at, most),
            _ => Err(Error::NotFound),
        }
    }
}
