// SPDX-License-Identifier: MIT
//! The way down the layers of an image to the one that has a range of its disk, kept for what comes
//! behind the range.
ghost use Rattle.std.specs.Prelude.{◌≡◌, ◌+◌, ◌<◌, ◌≤◌, IfOk};
ghost use Rattle.imago_access.specs.Chain.{driver};
ghost use Rattle.imago_access.specs.Target.{target};
ghost use Rattle.imago_drivers.specs.Mapping.{IsRight};
ghost use Rattle.imago_copy.specs.LayerRuns.{IsLayerRunAt};

use crate::allocation::Allocation;
use crate::layers::LayerRun;
use crate::runs::Kind;
use imago_access::access::FormatAccess;
use imago_drivers::drivers::{FormatDriverInstance, ShallowMapping};
use imago_storage::error::Error;

/// The range of an image's disk that is known to lead to one of its layers, since each layer above
/// leaves it to the one below. Offsets and counts are in bytes.
///
/// Mappings that are asked for in order go on in the layer where the last one ended, as long as
/// that range lasts, and begin at the top only behind it: so what a layer above leaves to the ones
/// below is asked for once, however many pieces these have there.
#[derive(Drop)]
pub(crate) struct Way<'a, D> {
    layer: &'a FormatAccess<D>,
    /// How deep the layer lies: 0 at the top. `usize::MAX` stands for each depth from there on.
    depth: usize,
    /// Where the range begins on the disk.
    at: u64,
    /// Where it begins in the layer.
    offset: u64,
    /// How many bytes it has.
    count: u64,
}

impl<'a, D: FormatDriverInstance> Way<'a, D> {
    ghost use Rattle.imago_copy.specs.WayOf.{IsWayIn, EndsAt, at_of, place_of, offset_of, count_of};

    /// A way on which nothing is known.
    pub(crate) fn new(image: &'a FormatAccess<D>) -> Self
        ensures { IsWayIn D.view image.now result }
    {
        Way {
            layer: image,
            depth: 0,
            at: 0,
            offset: 0,
            count: 0,
        }
    }

    /// The same way once more.
    pub(crate) fn again(&self) -> Self
        ensures { result ≡ self.now }
    {
        Way {
            layer: self.layer,
            depth: self.depth,
            at: self.at,
            offset: self.offset,
            count: self.count,
        }
    }

    /// The way of a range: this one, if the range begins where it does, or else that from the top.
    fn of_range(&self, image: &'a FormatAccess<D>, at: u64, most: u64) -> Self
        requires some { 0 < most }
        requires way { IsWayIn D.view image.now self.now }
        ensures way { IsWayIn D.view image.now result }
        ensures at { at_of result ≡ at }
        ensures some { 0 < count_of result }
        ensures within { count_of result ≤ most }
    {
        if self.at == at && self.count > 0 {
            Way {
                count: self.count.min(most),
                ..self.again()
            }
        } else {
            Way {
                layer: image,
                depth: 0,
                at,
                offset: at,
                count: most,
            }
        }
    }

    /// Follows the way down to the layer that isn't left for the one below, or is the last, with
    /// its driver's mapping of the range's first bytes, and how many these are. The image is that
    /// of which all of this is promised.
    fn descend(self, image: &'a FormatAccess<D>) -> Result<(Self, ShallowMapping, u64), Error>
        requires way { IsWayIn D.view image.now self }
        requires some { 0 < count_of self }
        ensures way { IfOk result (λ r. IsWayIn D.view image.now r.0) }
        ensures at { IfOk result (λ r. at_of r.0 ≡ at_of self.entry) }
        ensures some { IfOk result (λ r. 0 < count_of r.0) }
        ensures within { IfOk result (λ r. count_of r.0 ≤ count_of self.entry) }
        ensures right { IfOk result
            (λ r. IsRight (place_of D.view r.0) (offset_of r.0) (count_of r.0) r.1 r.2) }
        ensures mapped { IfOk result (λ r. r.2 ≤ count_of r.0) }
        ensures end { IfOk result (λ r. EndsAt r.1 r.0) }
    {
        let Way {
            mut layer,
            mut depth,
            at,
            mut offset,
            mut count,
        } = self;
        loop {
            let (mapping, mapped) = layer.get_shallow_mapping(offset, count)?;
            match mapping {
                ShallowMapping::Indirect {
                    offset: below_at,
                    ..
                } => match layer.backing() {
                    Some(below) => {
                        layer = below;
                        depth = depth.saturating_add(1);
                        offset = below_at;
                        count = mapped;
                    }
                    None => {
                        let way = Way {
                            layer,
                            depth,
                            at,
                            offset,
                            count,
                        };
                        return Ok((way, mapping, mapped));
                    }
                },
                _ => {
                    let way = Way {
                        layer,
                        depth,
                        at,
                        offset,
                        count,
                    };
                    return Ok((way, mapping, mapped));
                }
            }
        }
    }

    /// What that mapping of the layer's driver is of the range's first bytes on the disk, where
    /// nothing further down has them.
    fn run(&self, mapping: ShallowMapping, mapped: u64) -> Result<LayerRun, Error>
        requires some { 0 < count_of self.now }
        requires right { IsRight (place_of D.view self.now) (offset_of self.now)
            (count_of self.now) «mapping» mapped }
        requires mapped { mapped ≤ count_of self.now }
        requires end { EndsAt «mapping» self.now }
        ensures run { (x : FormatAccess D) → IsWayIn D.view x self.now
            → IfOk result (IsLayerRunAt (target D.view x) (at_of self.now)) }
        ensures within { IfOk result (λ r. r.run.count ≤ count_of self.now) }
    {
        let (at, depth) = (self.at, self.depth);
        match mapping {
            ShallowMapping::Indirect { .. } => {
                let none = Allocation::in_none(depth.saturating_add(1));
                Ok(LayerRun::new(at, mapped, Kind::Zero, none))
            }
            ShallowMapping::Eof => {
                if depth == 0 {
                    return Err(Error::Unsupported);
                }
                let none = Allocation::in_none(depth);
                Ok(LayerRun::new(at, self.count, Kind::Zero, none))
            }
            ShallowMapping::Zero { .. } => {
                let own = Allocation::in_layer(depth);
                Ok(LayerRun::new(at, mapped, Kind::Zero, own))
            }
            ShallowMapping::Raw {
                storage,
                offset,
                ..
            } => {
                let kind = Kind::Stored {
                    layer: depth,
                    storage,
                    offset,
                };
                Ok(LayerRun::new(at, mapped, kind, Allocation::in_layer(depth)))
            }
            ShallowMapping::Special { offset } => {
                let kind = Kind::Special {
                    layer: depth,
                    offset,
                };
                Ok(LayerRun::new(at, mapped, kind, Allocation::in_layer(depth)))
            }
        }
    }

    /// The way of what comes behind that many bytes of the range.
    fn behind(self, passed: u64) -> Self
        ensures { (x : FormatAccess D) → IsWayIn D.view x self.entry → IsWayIn D.view x result }
    {
        let count = self.count.saturating_sub(passed);
        match (self.at.checked_add(passed), self.offset.checked_add(passed)) {
            (Some(at), Some(offset)) => Way {
                at,
                offset,
                count,
                ..self
            },
            _ => Way { count: 0, ..self },
        }
    }

    /// What the first bytes of a range inside the disk are, and which layer has them: as many bytes
    /// as the drivers on the way down map at once. Refused, the way is as it was.
    pub(crate) fn first_run(
        &mut self,
        image: &'a FormatAccess<D>,
        at: u64,
        most: u64,
    ) -> Result<LayerRun, Error>
        requires some { 0 < most }
        requires way { IsWayIn D.view image.now self.old }
        ensures way { IsWayIn D.view image.now self.new }
        ensures run { IfOk result (λ r. IsLayerRunAt (target D.view image.now) «at» r) }
        ensures within { IfOk result (λ r. r.run.count ≤ most) }
    {
        let (way, mapping, mapped) = self.of_range(image, at, most).descend(image)?;
        let run = way.run(mapping, mapped)?;
        *self = way.behind(run.run.count);
        Ok(run)
    }
}
