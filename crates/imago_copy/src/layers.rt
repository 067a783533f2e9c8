// SPDX-License-Identifier: MIT
//! The runs of a disk, each of one layer.
ghost use Rattle.std.specs.Prelude.{◌≡◌, ◌+◌, ◌<◌, ◌≤◌, ◌^◌, ◌↔◌, IsTrue, IfOk, IfErr, IfSome};
ghost use Rattle.imago_access.specs.Chain.{driver};
ghost use Rattle.imago_access.specs.Target.{target};
ghost use Rattle.imago_copy.specs.declared.runs.Kind.TheVariants as Kind;
ghost use Rattle.imago_copy.specs.LayerRuns.{GoesOn, IsLayerRunAt, IsLayerRestOf, IsNextLayerRun};
ghost use Rattle.imago_copy.specs.WayOf.{IsWayIn};

use crate::allocation::Allocation;
use crate::runs::{Kind, Run};
use crate::way::Way;
use imago_access::access::FormatAccess;
use imago_drivers::drivers::FormatDriverInstance;
use imago_storage::error::Error;

/// A run of a disk, all of whose bytes the same layer has, or none.
#[derive(Clone, Copy, Debug, PartialEq, Eq)]
pub struct LayerRun {
    /// The run.
    pub run: Run,
    /// Which layer has it, if one has.
    pub allocation: Allocation,
}

impl LayerRun {
    /// That many bytes from an offset on, all of a kind, and of the layer that has them.
    pub(crate) fn new(at: u64, count: u64, kind: Kind, allocation: Allocation) -> Self
        ensures { result ≡ record {
          run = record { at = at; count = count; kind = kind };
          allocation = allocation;
        } }
    {
        LayerRun {
            run: Run { at, count, kind },
            allocation,
        }
    }

    /// Whether it goes on as the one that is next on the disk.
    fn goes_on(self, next: Self) -> bool
        ensures { IsTrue result ↔ GoesOn self next }
    {
        next.allocation.is_same(self.allocation)
            && self.run.kind.goes_on(self.run.count, next.run.kind)
    }

    /// This run with that many bytes more.
    fn longer(self, more: u64) -> Self
        requires { self.run.count + more < 2 ^ 64 }
        ensures { result ≡ record self {
          run = record self.run { count = self.run.count + more };
        } }
    {
        LayerRun {
            run: self.run.longer(more),
            ..self
        }
    }
}

/// The run that begins at an offset inside the disk, as far as one mapping goes.
fn mapped_run<'a, D: FormatDriverInstance>(
    image: &'a FormatAccess<D>,
    way: &mut Way<'a, D>,
    at: u64,
) -> Result<LayerRun, Error>
    requires inside { at < (D.view (driver image.now)).size }
    requires way { IsWayIn D.view image.now way.old }
    ensures way { IsWayIn D.view image.now way.new }
    ensures run { IfOk result (λ r. IsLayerRunAt (target D.view image.now) «at» r) }
    ensures inside { IfOk result
        (λ r. at + r.run.count ≤ (D.view (driver image.now)).size) }
{
    way.first_run(image, at, image.size() - at)
}

/// The run that begins as that one, as far as it goes on; and the first mapping of the next one, if
/// the disk doesn't end there.
fn longest<'a, D: FormatDriverInstance>(
    image: &'a FormatAccess<D>,
    way: &mut Way<'a, D>,
    first: LayerRun,
) -> Result<(LayerRun, Option<LayerRun>), Error>
    requires way { IsWayIn D.view image.now way.old }
    requires run { IsLayerRunAt (target D.view image.now) first.run.at first }
    requires inside { first.run.at + first.run.count ≤ (D.view (driver image.now)).size }
    ensures way { IsWayIn D.view image.now way.new }
    ensures run { IfOk result
        (λ r. IsLayerRunAt (target D.view image.now) first.run.at r.0) }
    ensures rest { IfOk result
        (λ r. IsLayerRestOf D.view image.now (first.run.at + r.0.run.count) r.1) }
    ensures inside { IfOk result
        (λ r. first.run.at + r.0.run.count ≤ (D.view (driver image.now)).size) }
    ensures fits { IfOk result (λ r. first.run.at + r.0.run.count < 2 ^ 64) }
    ensures apart { IfOk result (λ r. IfSome r.1 (λ next. GoesOn r.0 next → ⊥)) }
{
    let size = image.size();
    let mut run = first;
    while run.run.at + run.run.count < size {
        let next = mapped_run(image, way, run.run.at + run.run.count)?;
        if !run.goes_on(next) {
            return Ok((run, Some(next)));
        }
        run = run.longer(next.run.count);
    }
    Ok((run, None))
}

/// The runs of a disk from its start to its end, as [`Runs`](crate::runs::Runs) has them, but that
/// zeroes of another layer are another run, and so are those that no layer has.
///
/// Each mapping is asked for once, of the layers on the way down to the one that has the bytes. No
/// byte is read.
#[derive(Drop)]
pub struct LayerRuns<'a, D> {
    image: &'a FormatAccess<D>,
    /// Where the next one begins.
    at: u64,
    /// Its first mapping, if the disk doesn't end there.
    next: Option<LayerRun>,
    /// The way of what comes behind that mapping.
    way: Way<'a, D>,
}

impl<'a, D: FormatDriverInstance> LayerRuns<'a, D> {
    ghost use Rattle.imago_copy.specs.LayerRuns.{image_of, at_of, next_of, AreReady};

    /// The runs of that image's disk. The first mapping is asked for at once, and its refusal is
    /// passed on, as by [`next_run`](Self::next_run).
    pub fn new(image: &'a FormatAccess<D>) -> Result<Self, Error>
        ensures image { IfOk result (λ r. image_of r ≡ image.now) }
        ensures start { IfOk result (λ r. at_of r ≡ 0) }
        ensures ready { IfOk result (AreReady D.view) }
    {
        let mut way = Way::new(image);
        let mut next = None;
        if image.size() > 0 {
            next = Some(mapped_run(image, &mut way, 0)?);
        }
        Ok(LayerRuns {
            image,
            at: 0,
            next,
            way,
        })
    }

    /// The next run, or `None` at the end of the disk.
    ///
    /// Mappings are asked for up to the first that is no part of the run, so a refusal comes in
    /// place of the run before it. It is that of [`get_mapping`](FormatAccess::get_mapping), or
    /// [`Error::Unsupported`] where the driver maps nothing inside the disk. Refused, nothing has
    /// changed: the next call asks for the same again.
    pub fn next_run(&mut self) -> Result<Option<LayerRun>, Error>
        requires { AreReady D.view self.old }
        ensures same { image_of self.new ≡ image_of self.old }
        ensures run { IfOk result (λ r.
            IsNextLayerRun D.view (image_of self.old) (at_of self.old) r (at_of self.new)) }
        ensures apart { IfOk result
            (λ r. IfSome r (λ run. IfSome (next_of self.new) (λ next. GoesOn run next → ⊥))) }
        ensures ready { IfOk result (λ _. AreReady D.view self.new) }
        ensures refused { IfErr result (λ _. self.new ≡ self.old) }
    {
        let Some(first) = self.next else {
            return Ok(None);
        };
        let mut way = self.way.again();
        let (run, next) = longest(self.image, &mut way, first)?;
        self.at += run.run.count;
        self.next = next;
        self.way = way;
        Ok(Some(run))
    }
}
