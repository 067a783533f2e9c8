// SPDX-License-Identifier: MIT
//! The runs of a disk: its mappings, joined where one goes on as the last one ended.
ghost use Rattle.std.specs.Prelude.{◌≡◌, ℕ, ◌+◌, ◌<◌, ◌≤◌, ◌^◌, ◌↔◌, false, IsTrue};
ghost use Rattle.std.specs.Prelude.{IfOk, IfErr, IfSome};
ghost use Rattle.imago_access.specs.Chain.{driver};
ghost use Rattle.imago_access.specs.Target.{target};
ghost use Rattle.imago_copy.specs.declared.runs.Kind.TheVariants as Kind;
ghost use Rattle.imago_copy.specs.Runs.{goes_on, IsRunAt, IsRestOf, IsNextRun};
ghost use Rattle.imago_copy.specs.WayOf.{IsWayIn};

use crate::way::Way;
use imago_access::access::FormatAccess;
use imago_drivers::drivers::FormatDriverInstance;
use imago_storage::error::Error;

/// What a run is. Offsets are in bytes.
#[derive(Clone, Copy, Debug, PartialEq, Eq)]
pub enum Kind {
    /// Zeroes that stand in no storage.
    Zero,
    /// Bytes of a storage.
    Stored {
        /// The depth of the layer whose driver has the storage: 0 at the top. `usize::MAX` stands
        /// for each depth from there on.
        layer: usize,
        /// The storage's index in that driver.
        storage: usize,
        /// The first byte's offset in the storage.
        offset: u64,
    },
    /// Bytes that a driver makes up, such as those of compressed data: they can be read where the
    /// driver offers it, and stand in no storage as they are.
    Special {
        /// The depth of the layer: 0 at the top. `usize::MAX` stands for each depth from there on.
        layer: usize,
        /// Where the run begins for that driver.
        offset: u64,
    },
}

/// A range of a disk that is of one kind. Offsets and counts are in bytes.
#[derive(Clone, Copy, Debug, PartialEq, Eq)]
pub struct Run {
    /// The first byte's offset on the disk.
    pub at: u64,
    /// How many bytes there are, at least one.
    pub count: u64,
    /// What they are.
    pub kind: Kind,
}

impl Kind {
    /// Whether it is zeroes that stand in no storage.
    pub fn is_zero(self) -> bool
        ensures { IsTrue result ↔ (self ≡ Kind.Zero) }
    {
        match self {
            Kind::Zero => true,
            _ => false,
        }
    }

    /// Whether that many bytes of this kind go on as the kind that is next on the disk.
    pub(crate) fn goes_on(self, count: u64, next: Kind) -> bool
        ensures { result ≡ goes_on self «count» next }
    {
        match (self, next) {
            (Kind::Zero, Kind::Zero) => true,
            (
                Kind::Stored {
                    layer,
                    storage,
                    offset,
                },
                Kind::Stored {
                    layer: next_layer,
                    storage: next_storage,
                    offset: next_offset,
                },
            ) => {
                layer == next_layer
                    && storage == next_storage
                    && offset.checked_add(count) == Some(next_offset)
            }
            _ => false,
        }
    }
}

impl Run {
    /// This run with that many bytes more.
    pub(crate) fn longer(self, more: u64) -> Run
        requires { self.count + more < 2 ^ 64 }
        ensures { result ≡ record self { count = self.count + more } }
    {
        Run {
            count: self.count + more,
            ..self
        }
    }
}

/// The run that begins at an offset inside the disk, as far as one mapping goes.
fn mapped_run<'a, D: FormatDriverInstance>(
    image: &'a FormatAccess<D>,
    way: &mut Way<'a, D>,
    at: u64,
) -> Result<Run, Error>
    requires inside { at < (D.view (driver image.now)).size }
    requires way { IsWayIn D.view image.now way.old }
    ensures way { IsWayIn D.view image.now way.new }
    ensures run { IfOk result (λ r. IsRunAt (target D.view image.now) «at» r) }
    ensures inside { IfOk result (λ r. at + r.count ≤ (D.view (driver image.now)).size) }
{
    Ok(way.first_run(image, at, image.size() - at)?.run)
}

/// The run that begins as that one, as far as it goes on; and the first mapping of the next one, if
/// the disk doesn't end there.
fn longest<'a, D: FormatDriverInstance>(
    image: &'a FormatAccess<D>,
    way: &mut Way<'a, D>,
    first: Run,
) -> Result<(Run, Option<Run>), Error>
    requires way { IsWayIn D.view image.now way.old }
    requires run { IsRunAt (target D.view image.now) first.at first }
    requires inside { first.at + first.count ≤ (D.view (driver image.now)).size }
    ensures way { IsWayIn D.view image.now way.new }
    ensures run { IfOk result (λ r. IsRunAt (target D.view image.now) first.at r.0) }
    ensures kind { IfOk result (λ r. r.0.kind ≡ first.kind) }
    ensures rest { IfOk result
        (λ r. IsRestOf D.view image.now (first.at + r.0.count) r.1) }
    ensures inside { IfOk result
        (λ r. first.at + r.0.count ≤ (D.view (driver image.now)).size) }
    ensures fits { IfOk result (λ r. first.at + r.0.count < 2 ^ 64) }
    ensures apart { IfOk result
        (λ r. IfSome r.1 (λ next. goes_on r.0.kind r.0.count next.kind ≡ false)) }
{
    let size = image.size();
    let mut run = first;
    while run.at + run.count < size {
        let next = mapped_run(image, way, run.at + run.count)?;
        if !run.kind.goes_on(run.count, next.kind) {
            return Ok((run, Some(next)));
        }
        run = run.longer(next.count);
    }
    Ok((run, None))
}

/// The runs of a disk, from its start to its end: no run goes on as the one behind it.
///
/// Each mapping of the image is asked for once, of the layers that have it and those above whose
/// own mapping ended before; no more is kept than one that is still to come.
/// What a run is follows from where its bytes stand alone: no byte is read, and no storage is asked
/// for its length. So a run that passes the end of its storage goes on there as stored.
#[derive(Drop)]
pub struct Runs<'a, D> {
    image: &'a FormatAccess<D>,
    /// Where the next one begins.
    at: u64,
    /// Its first mapping, if the disk doesn't end there.
    next: Option<Run>,
    /// The way of what comes behind that mapping.
    way: Way<'a, D>,
}

impl<'a, D: FormatDriverInstance> Runs<'a, D> {
    ghost use Rattle.imago_copy.specs.RunsOf.{image_of, at_of, next_of, IsReady};

    /// The runs of that image's disk. The first mapping is asked for at once, and its refusal is
    /// passed on, as by [`next_run`](Self::next_run).
    pub fn new(image: &'a FormatAccess<D>) -> Result<Self, Error>
        ensures image { IfOk result (λ r. image_of r ≡ image.now) }
        ensures start { IfOk result (λ r. at_of r ≡ 0) }
        ensures ready { IfOk result (IsReady D.view) }
    {
        let mut way = Way::new(image);
        let mut next = None;
        if image.size() > 0 {
            next = Some(mapped_run(image, &mut way, 0)?);
        }
        Ok(Runs {
            image,
            at: 0,
            next,
            way,
        })
    }

    /// The image whose disk it is.
    pub fn image(&self) -> &'a FormatAccess<D>
        ensures { result.now ≡ image_of self.now }
    {
        self.image
    }

    /// The next run, or `None` at the end of the disk.
    ///
    /// Mappings are asked for up to the first that is no part of the run, so a refusal comes in
    /// place of the run before it. It is that of [`get_mapping`](FormatAccess::get_mapping), or
    /// [`Error::Unsupported`] where the driver maps nothing inside the disk. Refused, nothing has
    /// changed: the next call asks for the same again.
    pub fn next_run(&mut self) -> Result<Option<Run>, Error>
        requires { IsReady D.view self.old }
        ensures same { image_of self.new ≡ image_of self.old }
        ensures run { IfOk result
            (λ r. IsNextRun D.view (image_of self.old) (at_of self.old) r (at_of self.new)) }
        ensures kind { IfOk result
            (λ r. IfSome r (λ run. IfSome (next_of self.old) (λ first. run.kind ≡ first.kind))) }
        ensures apart { IfOk result
            (λ r. IfSome r (λ run. IfSome (next_of self.new)
            (λ next. goes_on run.kind run.count next.kind ≡ false))) }
        ensures fits { IfOk result (λ r. IfSome r (λ run. run.at + run.count < 2 ^ 64)) }
        ensures ready { IfOk result (λ _. IsReady D.view self.new) }
        ensures refused { IfErr result (λ _. self.new ≡ self.old) }
    {
        let Some(first) = self.next else {
            return Ok(None);
        };
        let mut way = self.way.again();
        let (run, next) = longest(self.image, &mut way, first)?;
        self.at += run.count;
        self.next = next;
        self.way = way;
        Ok(Some(run))
    }
}
