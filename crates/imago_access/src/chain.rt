// SPDX-License-Identifier: MIT
//! The way of a range down the layers of an image.
ghost use Rattle.std.specs.Prelude.{◌≡◌, ◌+◌, ◌-◌, ◌^◌, ◌<◌, ◌≤◌, ◌⊎◌, ◌&&◌, ℕ, Err, IfOk, IfErr};
ghost use Rattle.std.specs.Prelude.{min, max};
ghost use Rattle.imago_drivers.specs.Operation.{Map, Read};
ghost use Rattle.imago_drivers.specs.Place.{Refused, Unreadable};
ghost use Rattle.imago_drivers.specs.Mapping.{IsRight};
ghost use Rattle.imago_drivers.specs.Reasons.{allowed};
ghost use Rattle.imago_drivers.specs.Done.{map_reasons};
ghost use Rattle.imago_access.specs.Chain.{driver, backing, disk_value, chain_no_memory};
ghost use Rattle.imago_access.specs.Resolved.{IsResolved, IsEndOfImage, chain_map_reasons};
ghost use Rattle.imago_access.specs.Lengths.{IsOwnLength, IsResolvedLength, IsFullLength};
ghost use Rattle.imago_access.specs.Answered.{IsOwnMapping, Maps, IsMapRefusal, Lands};
ghost use Rattle.imago_access.specs.Ways.{IsPart, HasLanded, part_length, resolved_mapping};
ghost use Rattle.imago_access.specs.Ways.{resolved_length};

use crate::access::FormatAccess;
use crate::mapping::Mapping;
use imago_drivers::drivers::FormatDriverInstance;
use imago_drivers::mapping::ShallowMapping;
use imago_storage::error::Error;

/// Where a range has led so far: how deep, to which offset and length there, and whether it may be
/// written there.
#[derive(Clone, Copy)]
pub(crate) struct Way {
    pub(crate) depth: usize,
    pub(crate) offset: u64,
    pub(crate) length: u64,
    pub(crate) writable: bool,
}

impl Way {
    /// The way one layer further down.
    fn below(self, offset: u64, count: u64, writable: bool) -> Way
        ensures depth { result.depth ≡ min (self.depth + 1) (2 ^ 64 - 1) }
        ensures offset { result.offset ≡ «offset» }
        ensures length { result.length ≡ count }
        ensures writable { result.writable ≡ (self.writable && «writable») }
    {
        Way {
            depth: self.depth.saturating_add(1),
            offset,
            length: count,
            writable: self.writable && writable,
        }
    }

    /// The way for its first bytes alone.
    fn cut(self, count: u64) -> Way
        ensures { result ≡ record self { length = count } }
    {
        Way {
            length: count,
            ..self
        }
    }
}

/// What a range is, where the way has led to that mapping of a driver.
fn resolved(way: Way, mapping: ShallowMapping) -> (Mapping, u64)
    ensures mapping { result.0 ≡ resolved_mapping way «mapping» }
    ensures length { result.1 ≡ resolved_length way «mapping» }
{
    match mapping {
        ShallowMapping::Raw {
            storage,
            offset,
            writable,
        } => {
            let writable = way.writable && writable;
            let layer = way.depth;
            (
                Mapping::Raw {
                    layer,
                    storage,
                    offset,
                    writable,
                },
                way.length,
            )
        }
        ShallowMapping::Indirect { .. } => (Mapping::Zero { explicit: false }, way.length),
        ShallowMapping::Zero { explicit } => {
            let explicit = explicit && way.depth == 0;
            (Mapping::Zero { explicit }, way.length)
        }
        ShallowMapping::Eof if way.depth == 0 => (Mapping::Eof, 0),
        ShallowMapping::Eof => (Mapping::Zero { explicit: false }, way.length),
        ShallowMapping::Special { offset } => {
            let layer = way.depth;
            (Mapping::Special { layer, offset }, way.length)
        }
    }
}

/// How much of a range a mapping is for: past the end, all of it.
fn part_of(mapping: ShallowMapping, count: u64, max_length: u64) -> u64
    ensures { result ≡ part_length «mapping» count max_length }
{
    match mapping {
        ShallowMapping::Eof => max_length,
        _ => count,
    }
}

impl<D: FormatDriverInstance> FormatAccess<D> {
    /// What the bytes from the offset on are for the driver alone, and how many of them: at most
    /// `max_length`, and 0 only at the end, or where `max_length` is.
    ///
    /// It takes no memory. [`Error::InvalidData`] and [`Error::NoAccess`] are answered for an
    /// offset that may not be read. A refusal is what the driver answered for that range.
    // Where layers are gone through one by one, a call for each of them would take a third more time.
    #[inline(always)]
    pub fn get_shallow_mapping(
        &self,
        offset: u64,
        max_length: u64,
    ) -> Result<(ShallowMapping, u64), Error>
        ensures right { IfOk result (λ r. IsRight (D.view (driver self.now)).place offset max_length
            r.0 r.1) }
        ensures within { IfOk result (λ r. r.1 ≤ max_length) }
        ensures part { IfOk result
            (λ r. (n : ℕ) × (D.view (driver self.now)).limits.answers Map offset max_length offset n
            ×
            (r.1 ≡ min n max_length)) }
        ensures whole { (D.view (driver self.now)).limits.whole Read offset max_length
            → IfOk result (λ r. r.1 ≡ max_length) }
        ensures refused_place { IfErr result
            (λ e. (e ≡ Error.InvalidData) ⊎ (e ≡ Error.NoAccess)
            → (D.view (driver self.now)).place offset ≡ Refused e) }
        ensures refusals { IfErr result
            (allowed (map_reasons (D.view (driver self.now)) offset max_length)) }
        ensures answered { IsOwnMapping D.calls (driver self.now) offset max_length result }
    {
        let (mapping, count) = self.inner.get_mapping(offset, max_length)?;
        Ok((mapping, count.min(max_length)))
    }

    /// The same, with the end going on to the end of the range.
    #[inline(always)]
    fn map_part(&self, offset: u64, max_length: u64) -> Result<(ShallowMapping, u64), Error>
        ensures part { IfOk result
            (λ r. IsPart (D.view (driver self.now)).place offset max_length r.0 r.1) }
        ensures length { IfOk result
            (λ r. IsOwnLength (D.view (driver self.now)) offset max_length r.1) }
        ensures whole { (D.view (driver self.now)).limits.whole Read offset max_length
            → IfOk result (λ r. r.1 ≡ max_length) }
        ensures refused_place { IfErr result
            (λ e. (e ≡ Error.InvalidData) ⊎ (e ≡ Error.NoAccess)
            → (D.view (driver self.now)).place offset ≡ Refused e) }
        ensures refusals { IfErr result
            (allowed (map_reasons (D.view (driver self.now)) offset max_length)) }
        ensures asked { IfOk result
            (λ r. Maps D.calls (driver self.now) offset max_length r.0 r.1) }
        ensures answered { IfErr result (λ e. D.calls.mapped offset max_length (driver self.now)
            (Err e)) }
    {
        let (mapping, count) = self.get_shallow_mapping(offset, max_length)?;
        Ok((mapping, part_of(mapping, count, max_length)))
    }

    /// Follows a range down to the layer that its first bytes stand in, with that driver's mapping
    /// of them. It asks each driver for at least one byte.
    #[inline(never)]
    pub(crate) fn descend(
        &self,
        offset: u64,
        max_length: u64,
    ) -> Result<(&FormatAccess<D>, Way, ShallowMapping), Error>
        requires { 0 < max_length }
        ensures landed { IfOk result
            (λ r. HasLanded D.view self.now offset max_length r.0.now r.1 r.2) }
        ensures length { IfOk result
            (λ r. IsResolvedLength D.view self.now offset max_length r.1.length) }
        ensures refused_place { IfErr result
            (λ e. (e ≡ Error.InvalidData) ⊎ (e ≡ Error.NoAccess)
            → disk_value D.view self.now offset ≡ Unreadable e) }
        ensures refusals { IfErr result
            (allowed (chain_map_reasons D.view self.now offset max_length)) }
        ensures asked { IfOk result
            (λ r. Lands D.calls self.now offset max_length r.0.now r.2 r.1.length) }
        ensures answered { IfErr result (IsMapRefusal D.calls self.now offset max_length) }
    {
        let mut layer = self;
        let mut way = Way {
            depth: 0,
            offset,
            length: max_length,
            writable: true,
        };
        loop {
            let (mapping, count) = layer.map_part(way.offset, way.length)?;
            match mapping {
                ShallowMapping::Indirect { offset, writable } => match &layer.backing {
                    None => return Ok((layer, way.cut(count), mapping)),
                    Some(below) => {
                        layer = below;
                        way = way.below(offset, count, writable);
                    }
                },
                _ => return Ok((layer, way.cut(count), mapping)),
            }
        }
    }

    /// What the bytes from the offset on are, resolved through the layers, and how many of them: at
    /// most `max_length`, and 0 only at the end of the image, or where `max_length` is. Also there
    /// the mapping is that of the offset.
    ///
    /// What the top layer leaves to a layer below that ends before, or to none, is an unallocated
    /// zero. The mapping is as long as the drivers on the way map at once.
    ///
    /// [`Error::InvalidData`] and [`Error::NoAccess`] are answered for an offset that may not be
    /// read. [`Error::Unsupported`] and [`Error::WrapAround`] are answered only for a cause that a
    /// driver on the way tells, and [`Error::Device`] only where a device of the chain isn't
    /// reliable. It takes no memory. A refusal is, by its own name, what the driver of a layer
    /// answered that the range reaches, for that range there.
    pub fn get_mapping(&self, offset: u64, max_length: u64) -> Result<(Mapping, u64), Error>
        ensures right { IfOk result (λ r. IsResolved D.view self.now offset max_length r.0 r.1) }
        ensures length { IfOk result (λ r. IsFullLength D.view self.now offset max_length r.0 r.1) }
        ensures whole { chain_no_memory D.view self.now offset max_length
            → IfOk result (λ r. (r.1 ≡ max_length) ⊎ IsEndOfImage r.0) }
        ensures refused_place { IfErr result
            (λ e. (e ≡ Error.InvalidData) ⊎ (e ≡ Error.NoAccess)
            → disk_value D.view self.now offset ≡ Unreadable e) }
        ensures refusals { IfErr result
            (allowed (chain_map_reasons D.view self.now offset max_length)) }
        ensures answered { IfErr result (IsMapRefusal D.calls self.now offset (max max_length 1)) }
    {
        let (_layer, way, mapping) = self.descend(offset, max_length.max(1))?;
        let (mapping, count) = resolved(way, mapping);
        Ok((mapping, count.min(max_length)))
    }
}
